//! The rows, each with its answer.

use crate::logs::{args_told, log_told, rows_told};
use crate::told::told;
use hk_inputs::{Text, add_line, begin, read, text_named};
use std::alloc::{AllocError, Global};

/// Adds a text in which `\t` stands for a tab.
fn add_line_of(out: &mut String, line: &str) -> Result<(), AllocError> {
    let mut is_behind = false;
    for part in line.split("\\t") {
        if is_behind {
            out.push('\t')?;
        }
        out.push_str(part)?;
        is_behind = true;
    }
    Ok(())
}

/// The text that a row spells on one line.
fn text_of(alloc: Global, field: &str) -> Result<String, AllocError> {
    let mut out = String::new(alloc);
    let mut is_behind = false;
    for line in field.split("\\n") {
        if is_behind {
            out.push('\n')?;
        }
        add_line_of(&mut out, line)?;
        is_behind = true;
    }
    Ok(out)
}

/// The answer to a row on a certificate.
fn cert_answer(alloc: Global, texts: &[Text], rest: &str) -> Result<Option<String>, AllocError> {
    let (kernel, rest) = rest.split_once(' ').unwrap_or((rest, ""));
    let (spec, rest) = rest.split_once(' ').unwrap_or((rest, ""));
    let text = text_of(alloc, rest)?;
    let kernel = text_named(texts, kernel);
    let spec = text_named(texts, spec);
    match read(alloc, kernel.as_bytes(), spec.as_bytes()) {
        Some(inputs) => {
            let told = told(alloc, &inputs, text.as_bytes())?;
            Ok(Some(told))
        }
        None => Ok(None),
    }
}

/// The answer to a row on rows of a log; whether the rows themselves are asked for is told.
fn log_answer(alloc: Global, rest: &str, whole: bool) -> Result<Option<String>, AllocError> {
    let (due, rest) = rest.split_once(' ').unwrap_or((rest, ""));
    let Ok(due) = due.parse::<u64>() else {
        return Ok(None);
    };
    let text = text_of(alloc, rest)?;
    if whole {
        return log_told(alloc, due, text.as_str());
    }
    let told = rows_told(alloc, due, text.as_str())?;
    Ok(Some(told))
}

/// The numbers of a row, where all words are some.
fn numbers_of(alloc: Global, rest: &str) -> Result<Option<Vec<u64>>, AllocError> {
    let mut numbers = Vec::new(alloc);
    for word in rest.split_whitespace() {
        let Ok(number) = word.parse::<u64>() else {
            return Ok(None);
        };
        numbers.push(number)?;
    }
    Ok(Some(numbers))
}

/// The answer to a row on arguments.
fn args_answer(alloc: Global, rest: &str) -> Result<Option<String>, AllocError> {
    match numbers_of(alloc, rest)? {
        Some(numbers) => args_told(alloc, &numbers),
        None => Ok(None),
    }
}

/// A row, with its answer behind it or below it.
fn with_answer(
    alloc: Global,
    row: &str,
    between: &str,
    answer: Option<String>,
) -> Result<String, AllocError> {
    match answer {
        Some(answer) => format!(in alloc; "{row}{between}{answer}"),
        None => format!(in alloc; "? {row}"),
    }
}

/// A row of a form with its answer.
fn told_row(
    alloc: Global,
    texts: &[Text],
    row: &str,
    form: &str,
    rest: &str,
) -> Result<String, AllocError> {
    match form {
        "cert" => with_answer(alloc, row, " => ", cert_answer(alloc, texts, rest)?),
        "rows" => with_answer(alloc, row, " => ", log_answer(alloc, rest, false)?),
        "log" => with_answer(alloc, row, " => ", log_answer(alloc, rest, true)?),
        "args" => with_answer(alloc, row, "\n", args_answer(alloc, rest)?),
        _ => with_answer(alloc, row, "", None),
    }
}

/// A line with its answer.
pub fn answered(alloc: Global, texts: &mut Vec<Text>, row: &str) -> Result<String, AllocError> {
    let (form, field) = row.split_once(' ').unwrap_or((row, ""));
    match form {
        "#" | "" => {}
        "file" => begin(alloc, texts, field)?,
        "|" => {
            if !add_line(texts, field)? {
                return format!(in alloc; "? {row}");
            }
        }
        _ => return told_row(alloc, texts, row, form, field),
    }
    String::from_str(alloc, row)
}
