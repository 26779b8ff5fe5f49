//! What a list of terms keeps, and what a valuation keeps.

use hk_term::{TermId, Terms, Valuation};
use hk_term_rows::{Making, long, short, term_of, valuation_of, written};
use std::alloc::{AllocError, Global};

/// The places of terms in a list, and how many nodes it has with them.
fn places(alloc: Global, terms: &mut Terms, texts: &str) -> Result<Option<String>, AllocError> {
    let mut told = String::new(alloc);
    for text in texts.split(';') {
        let Some(t) = term_of(alloc, terms, Making::Plain, text)? else {
            return Ok(None);
        };
        let place = format!(in alloc; "{} ", t.place())?;
        told.push_str(place.as_str())?;
    }
    let len = format!(in alloc; "of {}", terms.len())?;
    told.push_str(len.as_str())?;
    Ok(Some(told))
}

/// The places of terms in one list, and how many nodes it has.
pub fn places_answer(alloc: Global, texts: &str) -> Result<Option<String>, AllocError> {
    let mut terms = Terms::new(alloc);
    places(alloc, &mut terms, texts)
}

/// The last of a list's first nodes, which it is cut to.
fn cut_to(alloc: Global, terms: &mut Terms, len: u64) -> Result<Option<String>, AllocError> {
    if len == 0 || len > terms.len() {
        return Ok(None);
    }
    terms.cut(len);
    let last = written(alloc, terms, TermId::at(len - 1))?;
    Ok(Some(format!(in alloc; "{last} of {}", terms.len())?))
}

/// The places of terms, what the list is cut to, and the places of the terms that it grows by.
pub fn cut_answer(
    alloc: Global,
    texts: &str,
    len: &str,
    others: &str,
) -> Result<Option<String>, AllocError> {
    let Some(len) = long(len) else {
        return Ok(None);
    };
    let mut terms = Terms::new(alloc);
    let first = places(alloc, &mut terms, texts)?;
    let last = cut_to(alloc, &mut terms, len)?;
    let second = places(alloc, &mut terms, others)?;
    match (first, last, second) {
        (Some(first), Some(last), Some(second)) => {
            Ok(Some(format!(in alloc; "{first}, {last}, {second}")?))
        }
        _ => Ok(None),
    }
}

/// The number of a variable or an entry.
fn number_of(v: &Valuation, name: &str) -> Option<u64> {
    if let Some(id) = name.strip_prefix('x') {
        return Some(v.vars.get(short(id)?));
    }
    let (array, index) = name.trim_end_matches(']').split_once('[')?;
    Some(v.arrays.get(short(array)?, long(index)?))
}

/// What a valuation gives variables and entries.
pub fn numbers_answer(
    alloc: Global,
    numbers: &str,
    names: &str,
) -> Result<Option<String>, AllocError> {
    let Some(v) = valuation_of(alloc, numbers)? else {
        return Ok(None);
    };
    let mut told = String::new(alloc);
    for name in names.split_whitespace() {
        let Some(number) = number_of(&v, name) else {
            return Ok(None);
        };
        let between = if told.is_empty() { "" } else { " " };
        let each = format!(in alloc; "{between}{name}={number}")?;
        told.push_str(each.as_str())?;
    }
    Ok(Some(told))
}
