//! Questions of obligations: whether their goals are true in given cases, what an instance that names nothing comes to, and how many
//! clauses they have.

ghost use Rattle.std.specs.Prelude.{◌<◌, length};
ghost use Rattle.ir_ast.specs.ProgramView.{view_module};
ghost use Rattle.spec_tree.specs.Sorted.{IsWellSorted};
ghost use Rattle.spec_tree.specs.View.{view_spec};
ghost use Rattle.spec_kernel.specs.Fit.{FitsModule};

use hk_case::Obligation;
use hk_inputs::{Inputs, owed_by};
use hk_inst::{AddFault, Instance, Question, SizeList};
use hk_oblig::question;
use hk_term::Valuation;
use std::alloc::{AllocError, Global};

/// Whether an obligation is written so.
fn is_named(alloc: Global, obligation: Obligation, name: &str) -> Result<bool, AllocError> {
    let text = format!(in alloc; "{obligation:?}")?;
    Ok(text.as_str() == name)
}

/// The question of the first handler's obligation with this place, where it is the one of this name.
fn question_at(
    alloc: Global,
    inputs: &Inputs,
    place: usize,
    name: &str,
) -> Result<Option<Question>, AllocError>
    requires sorted { IsWellSorted (view_spec inputs.now.spec) }
    requires fits { FitsModule (view_module inputs.now.kernel) (view_spec inputs.now.spec) }
    requires there { 0 < length inputs.now.spec.transitions }
{
    let owed = owed_by(alloc, &inputs.spec, 0)?;
    let items = owed.as_slice();
    if place >= items.len() {
        return Ok(None);
    }
    let obligation = items[place];
    if !is_named(alloc, obligation, name)? {
        return Ok(None);
    }
    let asked = question(alloc, &inputs.kernel, &inputs.spec, 0, obligation)?;
    Ok(Some(asked))
}

/// The valuation in which the first entry of each array has one of these numbers.
fn with_entries(alloc: Global, numbers: &[u64]) -> Result<Valuation, AllocError> {
    let mut valuation = Valuation::new(alloc);
    let mut array: u32 = 0;
    for number in numbers {
        valuation.arrays.set(array, 0, *number)?;
        array = array.saturating_add(1);
    }
    Ok(valuation)
}

/// Whether the goal is true where the arrays' first entries have these numbers.
fn holds_at(alloc: Global, question: &Question, numbers: &[u64]) -> Result<bool, AllocError> {
    let valuation = with_entries(alloc, numbers)?;
    question.goal_holds(alloc, &valuation)
}

/// The numbers that words write, where each is one.
fn numbers_of(alloc: Global, words: &[&str]) -> Result<Option<Vec<u64>>, AllocError> {
    let mut numbers = Vec::new(alloc);
    for word in words {
        let Ok(number) = word.parse::<u64>() else {
            return Ok(None);
        };
        numbers.push(number)?;
    }
    Ok(Some(numbers))
}

/// Whether the goal is true where the arrays' first entries have the numbers of a row.
fn goal_told(
    alloc: Global,
    question: &Question,
    words: &[&str],
) -> Result<Option<String>, AllocError> {
    match numbers_of(alloc, words)? {
        Some(numbers) => {
            let holds = holds_at(alloc, question, &numbers)?;
            let told = format!(in alloc; "{holds}")?;
            Ok(Some(told))
        }
        None => Ok(None),
    }
}

/// The bytes that make the goal true as the first array's first entry.
fn bytes_told(alloc: Global, question: &Question) -> Result<String, AllocError> {
    let mut told = String::new(alloc);
    for byte in 0..256u64 {
        if holds_at(alloc, question, &[byte])? {
            let word = format!(in alloc; "{byte} ")?;
            told.push_str(word.as_str())?;
        }
    }
    String::from_str(alloc, told.as_str().trim_ascii())
}

/// What is seen of a question: its variables, its clauses, its instances, and whether its goal is true at 127 and at 0.
#[derive(Clone, Copy, PartialEq, Eq)]
struct Look {
    vars: u64,
    clauses: usize,
    instances: usize,
    high: bool,
    low: bool,
}

/// What is seen of a question.
fn look_at(alloc: Global, question: &Question) -> Result<Look, AllocError> {
    let clauses = question.clauses();
    let vars = clauses.vars();
    let count = clauses.len();
    let high = holds_at(alloc, question, &[127])?;
    let low = holds_at(alloc, question, &[0])?;
    Ok(Look {
        vars,
        clauses: count,
        instances: question.instance_count(),
        high,
        low,
    })
}

/// Adds the instance of a quantifier that a question lacks; whether it is refused.
fn add_none(alloc: Global, question: &mut Question) -> Result<bool, AllocError> {
    let indices = SizeList::from_vec(vec![in alloc; 0]?);
    let instance = Instance::Tuple {
        quantifier: 1_000,
        indices,
    };
    let answer = question.add(alloc, instance);
    Ok(matches!(answer, Err(AddFault::NoSuch)))
}

/// What that instance comes to: whether it is refused, whether the question is as before, its instances, and its goal at 127 and at 0.
fn none_told(alloc: Global, question: &mut Question) -> Result<String, AllocError> {
    let before = look_at(alloc, question)?;
    let refused = if add_none(alloc, question)? {
        "refused"
    } else {
        "taken"
    };
    let behind = look_at(alloc, question)?;
    let same = if behind == before {
        "as before"
    } else {
        "changed"
    };
    format!(in alloc;
        "{refused}, {same}: {} instances, {} at 127, {} at 0",
        behind.instances, behind.high, behind.low
    )
}

/// Whether a question has clauses, and no more than so many.
fn clauses_told(
    alloc: Global,
    question: &Question,
    most: &str,
) -> Result<Option<String>, AllocError> {
    let Ok(most) = most.parse::<usize>() else {
        return Ok(None);
    };
    let count = question.clauses().len();
    let told = format!(in alloc; "{}", 1 <= count && count <= most)?;
    Ok(Some(told))
}

/// What is told of a question.
fn told_of(
    alloc: Global,
    question: &mut Question,
    call: &[&str],
) -> Result<Option<String>, AllocError> {
    match call {
        ["goal", words @ ..] => goal_told(alloc, question, words),
        ["bytes"] => {
            let told = bytes_told(alloc, question)?;
            Ok(Some(told))
        }
        ["none"] => {
            let told = none_told(alloc, question)?;
            Ok(Some(told))
        }
        ["clauses", most] => clauses_told(alloc, question, most),
        _ => Ok(None),
    }
}

/// Lets a question go.
fn spend(question: Question) {
    let (instances, clauses) = question.into_parts();
    drop(instances);
    drop(clauses);
}

/// What is told of the question of the first handler's obligation with this place, where it is the one of this name.
pub fn asked(
    alloc: Global,
    inputs: &Inputs,
    place: usize,
    name: &str,
    call: &[&str],
) -> Result<Option<String>, AllocError>
    requires sorted { IsWellSorted (view_spec inputs.now.spec) }
    requires fits { FitsModule (view_module inputs.now.kernel) (view_spec inputs.now.spec) }
    requires there { 0 < length inputs.now.spec.transitions }
{
    match question_at(alloc, inputs, place, name)? {
        Some(mut question) => {
            let told = told_of(alloc, &mut question, call);
            spend(question);
            told
        }
        None => Ok(None),
    }
}
