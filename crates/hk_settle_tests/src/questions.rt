//! Questions of goals: the truth of the goal, the case that an assignment completes to, instances that are added or violated.

ghost use Rattle.std.specs.Prelude.{◌≡◌, length};

use crate::goal::question_of;
use crate::guess::{settles, violated};
use crate::instances::{instance_of, instances_text};
use hk_cnf::{Assignment, satisfies};
use hk_inst::{AddFault, Question};
use hk_term_rows::valuation_of;
use std::alloc::{AllocError, Global};

/// Ends a question: how many instances it has, and how many variables its clauses have.
pub fn end(question: Question) -> (usize, u64) {
    let (instances, clauses) = question.into_parts();
    (instances.as_slice().len(), clauses.vars())
}

/// Whether a goal is true under a valuation.
pub fn holds_answer(
    alloc: Global,
    goal: &str,
    numbers: &str,
) -> Result<Option<String>, AllocError> {
    let Some(v) = valuation_of(alloc, numbers)? else {
        return Ok(None);
    };
    let Some(question) = question_of(alloc, goal)? else {
        return Ok(None);
    };
    let holds = question.goal_holds(alloc, &v);
    let none = question.instances().as_slice().is_empty();
    let (instances, vars) = end(question);
    let told = if !none || instances != 0 || vars == 0 {
        "not asked"
    } else if holds? {
        "true"
    } else {
        "false"
    };
    Ok(Some(String::from_str(alloc, told)?))
}

/// The variable 0 of the case that an assignment of true alone completes to; nothing where it is none of the question's.
fn completed(alloc: Global, question: &Question) -> Result<Option<u64>, AllocError> {
    let a = Assignment::new(vec![in alloc; true]?);
    if question.clauses().vars() != 1 || !satisfies(question.clauses(), &a) {
        return Ok(None);
    }
    let case = question.complete(alloc, &a)?;
    Ok(Some(case.vars.get(0)))
}

/// The variables of a goal's clauses, and the variable 0 of the case that an assignment of true alone completes to.
pub fn complete_answer(alloc: Global, goal: &str) -> Result<Option<String>, AllocError> {
    let Some(question) = question_of(alloc, goal)? else {
        return Ok(None);
    };
    let number = completed(alloc, &question);
    let (_, vars) = end(question);
    match number? {
        Some(number) => Ok(Some(format!(in alloc; "{vars} {number}")?)),
        None => Ok(None),
    }
}

/// Whether an instance is refused, adds clauses, or is there.
fn added(alloc: Global, question: &mut Question, text: &str) -> Result<&'static str, AllocError> {
    let Some(instance) = instance_of(alloc, text)? else {
        return Ok("none");
    };
    let before = question.clauses().len();
    let done = question.add(alloc, instance);
    let same = question.clauses().len() == before;
    match done {
        Ok(()) if same => Ok("there"),
        Ok(()) => Ok("clauses"),
        Err(AddFault::NoSuch) if same => Ok("refused"),
        Err(_) => Ok("fault"),
    }
}

/// The same for each of some instances.
fn all_added(
    alloc: Global,
    question: &mut Question,
    instances: &str,
) -> Result<String, AllocError> {
    let mut told = String::new(alloc);
    for text in instances.split(';') {
        let each = added(alloc, question, text)?;
        told.push_str(each)?;
        told.push_str(", ")?;
    }
    Ok(told)
}

/// What comes of instances that are added one after another, and how many there are then.
pub fn add_answer(
    alloc: Global,
    goal: &str,
    instances: &str,
) -> Result<Option<String>, AllocError> {
    let Some(mut question) = question_of(alloc, goal)? else {
        return Ok(None);
    };
    let told = all_added(alloc, &mut question, instances);
    let (len, _) = end(question);
    let told = told?;
    Ok(Some(format!(in alloc; "{told}{len} in all")?))
}

/// What a guessed assignment violates.
fn first_violated(alloc: Global, question: &Question) -> Result<String, AllocError> {
    match violated(alloc, question)? {
        Some(found) => instances_text(alloc, &found),
        None => String::from_str(alloc, "no assignment"),
    }
}

/// What a guessed assignment violates, and whether such instances settle the goal, with how many.
pub fn violated_answer(alloc: Global, goal: &str) -> Result<Option<String>, AllocError> {
    let Some(mut question) = question_of(alloc, goal)? else {
        return Ok(None);
    };
    let first = first_violated(alloc, &question);
    let settled = settles(alloc, &mut question);
    let (len, _) = end(question);
    let first = first?;
    let word = if settled? { "settled" } else { "open" };
    Ok(Some(format!(in alloc; "{first}, {word} with {len}")?))
}
