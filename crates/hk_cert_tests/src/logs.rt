//! Rows of logs within longer texts, and the lines of arguments.

use hk_cert_log::{LogStop, rows_due};
use hk_cnf::Lit;
use hk_io::{MemSink, PutList};
use hk_lrat::LratRow;
use hk_verdict::put_args;
use std::alloc::{AllocError, Global};
use std::str;

/// What so many rows at the front of a text come to.
pub fn rows_told(alloc: Global, due: u64, text: &str) -> Result<String, AllocError> {
    match rows_due(alloc, due, text.as_bytes()) {
        Ok((log, rest)) => format!(in alloc; "{} rows, {} bytes behind", log.len(), rest.len()),
        Err(LogStop::NoRow(rows)) => format!(in alloc; "no row behind {rows}"),
        Err(LogStop::Memory) => Err(AllocError),
    }
}

/// Tells literals: the code of each.
fn tell_literals(alloc: Global, out: &mut String, literals: &[Lit]) -> Result<(), AllocError> {
    for literal in literals {
        let word = format!(in alloc; " {}", literal.code())?;
        out.push_str(word.as_str())?;
    }
    Ok(())
}

/// Tells numbers.
fn tell_numbers(alloc: Global, out: &mut String, numbers: &[u64]) -> Result<(), AllocError> {
    for number in numbers {
        let word = format!(in alloc; " {number}")?;
        out.push_str(word.as_str())?;
    }
    Ok(())
}

/// A row: its id, its literals and its hints, or the ids that it deletes.
fn row_text(alloc: Global, row: &LratRow) -> Result<String, AllocError> {
    match row {
        LratRow::Add { id, clause, hints } => {
            let mut out = format!(in alloc; "add {id}:")?;
            tell_literals(alloc, &mut out, clause.as_slice())?;
            out.push_str(" by")?;
            tell_numbers(alloc, &mut out, hints.as_slice())?;
            Ok(out)
        }
        LratRow::Delete { ids } => {
            let mut out = String::from_str(alloc, "delete")?;
            tell_numbers(alloc, &mut out, ids.as_slice())?;
            Ok(out)
        }
    }
}

/// Rows, each before a semicolon.
fn rows_text(alloc: Global, rows: &[LratRow]) -> Result<String, AllocError> {
    let mut out = String::new(alloc);
    for row in rows {
        let told = row_text(alloc, row)?;
        out.push_str(told.as_str())?;
        out.push_str("; ")?;
    }
    Ok(out)
}

/// So many rows at the front of a text, and the rest without the newlines round it.
pub fn log_told(alloc: Global, due: u64, text: &str) -> Result<Option<String>, AllocError> {
    match rows_due(alloc, due, text.as_bytes()) {
        Ok((log, rest)) => {
            let rows = rows_text(alloc, log.as_slice())?;
            let rest = str::from_utf8(rest).unwrap_or("?");
            let told = format!(in alloc;
                "{rows}{} bytes behind: {}",
                rest.len(),
                rest.trim_ascii()
            )?;
            Ok(Some(told))
        }
        Err(LogStop::NoRow(_)) => Ok(None),
        Err(LogStop::Memory) => Err(AllocError),
    }
}

/// The lines of these arguments; nothing where the sink refuses them.
pub fn args_told(alloc: Global, numbers: &[u64]) -> Result<Option<String>, AllocError> {
    let mut sink = MemSink::with_room(alloc, 1000, PutList::from_vec(Vec::new(alloc)))?;
    if put_args(&mut sink, numbers).is_err() {
        return Ok(None);
    }
    let shown = str::from_utf8(sink.bytes()).unwrap_or("?");
    let text = String::from_str(alloc, shown)?;
    Ok(Some(text))
}
