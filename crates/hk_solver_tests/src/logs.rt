//! Logs of refutations as texts, and the clauses of their rows.

use crate::row::{literal, text_of};
use hk_cnf::ClauseList;
use hk_lrat::{LitList, RefuteStop, read_log, refutes};
use std::alloc::{AllocError, Global};

/// What a log comes to over the list, if it is no long one.
fn tried(alloc: Global, list: &ClauseList, log: &[u8]) -> Result<(), RefuteStop> {
    if log.len() >= 1_000_000 {
        return Err(RefuteStop::Memory);
    }
    let log = read_log(alloc, log)?;
    refutes(alloc, list, &log)
}

/// Whether a log refutes the list, or its row that is refused and the reason.
pub(crate) fn refuted(alloc: Global, list: &ClauseList, log: &str) -> Result<String, AllocError> {
    let log = text_of(alloc, log)?;
    match tried(alloc, list, &log) {
        Ok(()) => String::from_str(alloc, "refuted"),
        Err(stop) => stop.to_string(alloc),
    }
}

/// The clause of these literals, with one literal more, as its row keeps it.
fn clause(alloc: Global, words: &str, last: &str) -> Result<Option<LitList>, AllocError> {
    let mut items = Vec::new(alloc);
    for word in words.split(' ') {
        match literal(word) {
            Some(lit) => items.push(lit)?,
            None => return Ok(None),
        }
    }
    let mut clause = LitList::from_slice(alloc, &items)?;
    match literal(last) {
        Some(lit) => clause.push(lit)?,
        None => return Ok(None),
    }
    Ok(Some(clause))
}

/// The literals of a clause.
fn literals(alloc: Global, clause: &LitList) -> Result<String, AllocError> {
    let mut told = String::new(alloc);
    for lit in clause.as_slice() {
        let number = lit.number();
        if !told.is_empty() {
            told.push(' ')?;
        }
        write!(told, "{number}")?;
    }
    Ok(told)
}

/// The literals of a clause that takes one literal more.
pub(crate) fn longer(alloc: Global, words: &str, last: &str) -> Result<Option<String>, AllocError> {
    match clause(alloc, words, last)? {
        Some(clause) => Ok(Some(literals(alloc, &clause)?)),
        None => Ok(None),
    }
}
