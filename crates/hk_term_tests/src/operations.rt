//! Values of terms, and what the constructors make.

use hk_term::{TermId, Terms};
use hk_term_rows::{Making, term_of, valuation_of, value_at, written};
use std::alloc::{AllocError, Global};

/// The value of a term under a valuation.
fn value(alloc: Global, term: &str, numbers: &str) -> Result<Option<u64>, AllocError> {
    let mut terms = Terms::new(alloc);
    let Some(t) = term_of(alloc, &mut terms, Making::Plain, term)? else {
        return Ok(None);
    };
    match valuation_of(alloc, numbers)? {
        Some(v) => value_at(alloc, &terms, &v, t),
        None => Ok(None),
    }
}

/// The value of a term under a valuation, as text.
pub fn value_answer(
    alloc: Global,
    term: &str,
    numbers: &str,
) -> Result<Option<String>, AllocError> {
    match value(alloc, term, numbers)? {
        Some(value) => Ok(Some(format!(in alloc; "{value}")?)),
        None => Ok(None),
    }
}

/// The last of some terms, which are made in one list.
fn last_of(alloc: Global, terms: &mut Terms, texts: &str) -> Result<Option<TermId>, AllocError> {
    let mut last = None;
    for text in texts.split(';') {
        last = term_of(alloc, terms, Making::Simplified, text)?;
        if last.is_none() {
            return Ok(None);
        }
    }
    Ok(last)
}

/// What the constructors make of the last of some terms.
pub fn built_answer(alloc: Global, texts: &str) -> Result<Option<String>, AllocError> {
    let mut terms = Terms::new(alloc);
    match last_of(alloc, &mut terms, texts)? {
        Some(t) => Ok(Some(written(alloc, &terms, t)?)),
        None => Ok(None),
    }
}

/// The operations on two terms of one width.
const OPERATIONS: [&str; 16] = [
    "add", "sub", "mul", "udiv", "urem", "sdiv", "srem", "shl", "lshr", "ashr", "and", "or", "xor",
    "eq", "ult", "slt",
];

/// An operation on two numbers of a width: its value at variables, or what its constructor makes.
fn operation(
    alloc: Global,
    making: Making,
    name: &str,
    w: &str,
    a: &str,
    b: &str,
) -> Result<Option<String>, AllocError> {
    if making == Making::Plain {
        let term = format!(in alloc; "({name} x0:{w} x1:{w})")?;
        let numbers = format!(in alloc; "x0={a} x1={b}")?;
        value_answer(alloc, term.as_str(), numbers.as_str())
    } else {
        let term = format!(in alloc; "({name} {a}:{w} {b}:{w})")?;
        built_answer(alloc, term.as_str())
    }
}

/// All operations on two numbers of a width.
pub fn operations_answer(
    alloc: Global,
    making: Making,
    w: &str,
    a: &str,
    b: &str,
) -> Result<Option<String>, AllocError> {
    let mut told = String::new(alloc);
    for name in OPERATIONS {
        let Some(each) = operation(alloc, making, name, w, a, b)? else {
            return Ok(None);
        };
        if !told.is_empty() {
            told.push(' ')?;
        }
        told.push_str(each.as_str())?;
    }
    Ok(Some(told))
}
