//! What terms say under one valuation: whether the run is stuck, and the first numbers of the objects behind it.

use crate::executed::Execution;
use crate::functions::{Subject, subjects, zeros};
use crate::told::{over_bytes, over_cells};
use hk_term::Valuation;
use hk_term_rows::{valuation_of, value_at};
use ir_kernel::{Kernel, Passed, pass};
use std::alloc::{AllocError, Global};

/// The number in the first part of the object with a number; 0 where there is none.
fn first_number(
    alloc: Global,
    executed: &Execution,
    v: &Valuation,
    object: u32,
) -> Result<u64, AllocError> {
    for part in executed.parts.as_slice() {
        if part.object == object {
            let number = value_at(alloc, &executed.terms, v, part.term)?;
            return Ok(number.unwrap_or(0));
        }
    }
    Ok(0)
}

/// What terms say: `stuck`, or what the first two objects hold.
fn told_at(alloc: Global, executed: &Execution, v: &Valuation) -> Result<String, AllocError> {
    let undefined = value_at(alloc, &executed.terms, v, executed.undefined)?;
    if undefined == Some(1) {
        return String::from_str(alloc, "stuck");
    }
    let first = first_number(alloc, executed, v, 0)?;
    let second = first_number(alloc, executed, v, 1)?;
    format!(in alloc; "holds {first} {second}")
}

/// What the terms of a function say, over bytes or over cells.
fn told_of(
    alloc: Global,
    kernel: &Kernel,
    subject: &Subject,
    v: &Valuation,
    by_cells: bool,
) -> Result<Option<String>, AllocError> {
    let numbers = zeros(alloc, subject.widths.len())?;
    match pass(alloc, kernel, &subject.name, &numbers)? {
        Passed::To(place) => {
            let executed = if by_cells {
                over_cells(alloc, kernel, subject, &numbers, place, true)?
            } else {
                over_bytes(alloc, kernel, subject, &numbers, place, true)?
            };
            let told = told_at(alloc, &executed, v)?;
            Ok(Some(told))
        }
        Passed::Not(_) => Ok(None),
    }
}

/// What the terms of the first function of a kernel say.
fn told_first(
    alloc: Global,
    kernel: &Kernel,
    v: &Valuation,
    by_cells: bool,
) -> Result<Option<String>, AllocError> {
    let found = subjects(alloc, kernel)?;
    match found.as_slice() {
        [subject, ..] => told_of(alloc, kernel, subject, v, by_cells),
        [] => Ok(None),
    }
}

/// The same under the valuation that a text writes.
pub fn terms_answer(
    alloc: Global,
    kernel: &Kernel,
    text: &str,
    by_cells: bool,
) -> Result<Option<String>, AllocError> {
    match valuation_of(alloc, text)? {
        Some(v) => told_first(alloc, kernel, &v, by_cells),
        None => Ok(None),
    }
}
