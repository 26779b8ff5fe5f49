//! What rows leave for the rows below them, and the answer to each.

use crate::calls::{Faults, call, copies, shelf_of, told_of};
use crate::files::{File, begin_file, change_last};
use crate::table::table_answer;
use hk_io::{CallList, FileList, MemShelf};
use std::alloc::{AllocError, Global};

/// What rows have left.
#[derive(Drop)]
pub struct Session {
    files: Vec<File>,
    /// The shelf of the calls, with the files and what was saved.
    shelf: MemShelf,
    /// Whether the next call is over a new shelf.
    is_changed: bool,
    faults: Faults,
    /// The words of a call that was not made yet, and the lines that are expected of it.
    words: String,
    expected: String,
    /// The holes and the words of the table.
    table: String,
}

impl Session {
    /// No row was read.
    pub fn new(alloc: Global) -> Session {
        let files = FileList::from_vec(Vec::new(alloc));
        Session {
            files: Vec::new(alloc),
            shelf: MemShelf::new(files, CallList::from_vec(Vec::new(alloc))),
            is_changed: true,
            faults: Faults::none(),
            words: String::new(alloc),
            expected: String::new(alloc),
            table: String::new(alloc),
        }
    }
}

/// Makes the call that was not made yet, and tells of it.
pub fn finished(alloc: Global, session: &mut Session) -> Result<String, AllocError> {
    if session.words.is_empty() {
        return Ok(String::new(alloc));
    }
    if session.is_changed {
        let files = copies(alloc, &session.files)?;
        session.shelf = shelf_of(alloc, files, session.faults)?;
        session.is_changed = false;
    }
    let words = session.words.as_str();
    let outcome = call(alloc, words, &mut session.shelf, session.faults.cut)?;
    let told = told_of(alloc, words, &outcome, session.expected.as_str())?;
    session.words.clear();
    session.expected.clear();
    Ok(told)
}

/// The numbers of a field, of which the second may be left out.
fn numbers_of(field: &str) -> Option<(u64, u64)> {
    match field.split_once(' ') {
        Some((first, second)) => Some((first.parse().ok()?, second.parse().ok()?)),
        None => Some((field.parse().ok()?, 0)),
    }
}

/// Takes a row on faults; false where it has no such form.
fn take_faults(session: &mut Session, form: &str, field: &str) -> bool {
    match (form, numbers_of(field)) {
        ("fail", Some(calls)) => {
            session.faults.failing = calls;
            session.is_changed = true;
            true
        }
        ("cut", Some((put, taken))) => {
            session.faults.cut = (put, taken as usize);
            true
        }
        _ => false,
    }
}

/// Takes a row that has no answer; false where it has no such form.
fn take(alloc: Global, session: &mut Session, form: &str, field: &str) -> Result<bool, AllocError> {
    match form {
        "#" => {}
        "" => {
            session.faults = Faults::none();
            session.is_changed = true;
        }
        "$" if !field.is_empty() => session.words.push_str(field)?,
        "table" => {
            session.table.clear();
            session.table.push_str(field)?;
        }
        "fail" | "cut" => return Ok(take_faults(session, form, field)),
        "file" => {
            begin_file(alloc, &mut session.files, field)?;
            session.is_changed = true;
        }
        _ => {
            session.is_changed = true;
            return change_last(alloc, &mut session.files, form, field);
        }
    }
    Ok(true)
}

/// What stands behind a row, nothing for most; none where it has no such form.
fn answer(
    alloc: Global,
    session: &mut Session,
    form: &str,
    field: &str,
) -> Result<Option<String>, AllocError> {
    if form == "with" || form == "size" {
        let table = session.table.as_str();
        return table_answer(alloc, table, &session.files, session.faults, form, field);
    }
    if take(alloc, session, form, field)? {
        Ok(Some(String::new(alloc)))
    } else {
        Ok(None)
    }
}

/// A row with its answer, behind what is told of the call before it.
fn told_next(alloc: Global, session: &mut Session, row: &str) -> Result<String, AllocError> {
    let before = finished(alloc, session)?;
    let (form, field) = row.split_once(' ').unwrap_or((row, ""));
    match answer(alloc, session, form, field)? {
        Some(answer) => format!(in alloc; "{before}{row}{answer}\n"),
        None => format!(in alloc; "{before}? {row}\n"),
    }
}

/// A row with its answer. A call is made when the row behind its expected lines is read.
pub fn answered(alloc: Global, session: &mut Session, row: &str) -> Result<String, AllocError> {
    match row.strip_prefix("> ") {
        Some(line) if !session.words.is_empty() => {
            session.expected.push_str(line)?;
            session.expected.push('\n')?;
            format!(in alloc; "{row}\n")
        }
        _ => told_next(alloc, session, row),
    }
}
