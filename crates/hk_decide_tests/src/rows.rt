//! The rows, each with its answer.

ghost use Rattle.std.specs.Prelude.{◌≤◌, ◌<◌, length};
ghost use Rattle.ir_ast.specs.ProgramView.{view_module};
ghost use Rattle.spec_kernel.specs.Fit.{FitsModule};
ghost use Rattle.spec_tree.specs.Sorted.{IsWellSorted};
ghost use Rattle.spec_tree.specs.View.{view_spec};

use crate::asked::asked;
use crate::changes::change_of;
use crate::checks::{told_by_cases, told_of_changed, told_of_second};
use crate::found::told_text;
use crate::inputs::read_both;
use crate::verdicts::{opening_told, seen_of, seen_text};
use hk_inputs::{Inputs, Text, add_line, begin, text_named};
use std::alloc::{AllocError, Global};

/// A budget, 1 where the word is none.
fn budget_of(word: &str) -> u64
    ensures { 1 ≤ result }
{
    word.parse::<u64>().unwrap_or(1).max(1)
}

/// A place or a count, 0 where the word is none.
fn place_of(word: &str) -> usize {
    word.parse::<usize>().unwrap_or(0)
}

/// The answer to a row on the first handler's proofs with one changed, where its words have a form.
fn checked(alloc: Global, inputs: &Inputs, words: &[&str]) -> Result<Option<String>, AllocError>
    requires sorted { IsWellSorted (view_spec inputs.now.spec) }
    requires fits { FitsModule (view_module inputs.now.kernel) (view_spec inputs.now.spec) }
    requires there { 0 < length inputs.now.spec.transitions }
{
    let [budget, place, word] = words else {
        return Ok(None);
    };
    let Some(change) = change_of(word) else {
        return Ok(None);
    };
    let told = told_of_changed(alloc, inputs, budget_of(budget), place_of(place), change)?;
    Ok(Some(told_text(alloc, told)?))
}

/// The answer to a row of these words behind the names of its texts, where it has a form.
fn told_of(alloc: Global, inputs: &Inputs, words: &[&str]) -> Result<Option<String>, AllocError>
    requires sorted { IsWellSorted (view_spec inputs.now.spec) }
    requires fits { FitsModule (view_module inputs.now.kernel) (view_spec inputs.now.spec) }
    requires there { 0 < length inputs.now.spec.transitions }
{
    let told = match words {
        ["open"] => opening_told(alloc, inputs)?,
        ["decide", budget] => seen_text(alloc, seen_of(alloc, inputs, budget_of(budget), false)?)?,
        ["decide", budget, "keep"] => {
            seen_text(alloc, seen_of(alloc, inputs, budget_of(budget), true)?)?
        }
        ["check", rest @ ..] => return checked(alloc, inputs, rest),
        ["ask", place, name, call @ ..] => {
            return asked(alloc, inputs, place_of(place), name, call);
        }
        ["other", budget] => {
            told_text(alloc, told_of_second(alloc, inputs, budget_of(budget))?)?
        }
        ["cases", count] => told_text(alloc, told_by_cases(alloc, inputs, place_of(count))?)?,
        _ => return Ok(None),
    };
    Ok(Some(told))
}

/// The words of a row without the names of its texts.
fn call_words<'r>(alloc: Global, call: &'r str, rest: &'r str) -> Result<Vec<&'r str>, AllocError> {
    let mut words = Vec::new(alloc);
    words.push(call)?;
    for word in rest.split_whitespace() {
        words.push(word)?;
    }
    Ok(words)
}

/// The answer to a row over texts, where it has a form and the texts are read.
fn answer(alloc: Global, texts: &[Text], row: &str) -> Result<Option<String>, AllocError> {
    let (call, rest) = row.split_once(' ').unwrap_or((row, ""));
    let (kernel, rest) = rest.split_once(' ').unwrap_or((rest, ""));
    let (spec, rest) = rest.split_once(' ').unwrap_or((rest, ""));
    let words = call_words(alloc, call, rest)?;
    match read_both(alloc, text_named(texts, kernel), text_named(texts, spec)) {
        Some(inputs) => told_of(alloc, &inputs, &words),
        None => Ok(None),
    }
}

/// A row over texts with its answer, of which the front is expected where the row says so.
fn told_row(alloc: Global, texts: &[Text], row: &str) -> Result<String, AllocError> {
    let (call, front) = match row.split_once(" > ") {
        Some((call, front)) => (call, Some(front)),
        None => (row, None),
    };
    match (answer(alloc, texts, call)?, front) {
        (Some(told), Some(front)) if told.as_str().starts_with(front) => {
            format!(in alloc; "{row} => as expected")
        }
        (Some(told), _) => format!(in alloc; "{row} => {told}"),
        (None, _) => format!(in alloc; "? {row}"),
    }
}

/// A row with its answer.
pub fn answered(alloc: Global, texts: &mut Vec<Text>, row: &str) -> Result<String, AllocError> {
    let (form, field) = row.split_once(' ').unwrap_or((row, ""));
    match form {
        "#" | "" => {}
        "file" => begin(alloc, texts, field)?,
        "|" => {
            if !add_line(texts, field)? {
                return format!(in alloc; "? {row}");
            }
        }
        _ => return told_row(alloc, texts, row),
    }
    String::from_str(alloc, row)
}
