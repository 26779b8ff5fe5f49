//! What checking comes to, as a value, and what is told of it.

use hk_case::Obligation;
use hk_check::Checked;
use hk_lrat::RowReason;
use std::alloc::{AllocError, Global};

/// What checking the proofs of a handler comes to, without the clauses and the case that it hands out.
#[derive(Clone, Copy)]
pub enum Found {
    Holds,
    Refused {
        obligation: Obligation,
        row: u64,
        reason: RowReason,
    },
    Violated {
        obligation: Obligation,
    },
    NoSuch {
        proof: usize,
        instance: usize,
    },
}

/// What was found of the proofs of a handler, where there are such, with the rows of the log of one of them.
pub type Told = Option<(Found, u64)>;

/// What was found, as a value.
pub fn found_of(checked: Checked) -> Found {
    match checked {
        Checked::Holds => Found::Holds,
        Checked::Refused {
            obligation,
            row,
            reason,
            ..
        } => Found::Refused {
            obligation,
            row,
            reason,
        },
        Checked::Violated { obligation, .. } => Found::Violated { obligation },
        Checked::NoSuch { proof, instance } => Found::NoSuch { proof, instance },
    }
}

/// Where a row stands among so many.
fn place_text(row: u64, rows: u64) -> &'static str {
    if row < 1 {
        "before its rows"
    } else if row < rows {
        "within its rows, before the last"
    } else if row == rows {
        "within its rows, at the last"
    } else {
        "behind its rows"
    }
}

/// How many rows there are.
fn count_text(rows: u64) -> &'static str {
    match rows {
        0 => "no rows",
        1 => "one row",
        _ => "several rows",
    }
}

/// What is told of what was found.
fn found_text(alloc: Global, found: Found, rows: u64) -> Result<String, AllocError> {
    let count = count_text(rows);
    match found {
        Found::Holds => format!(in alloc; "holds, {count}"),
        Found::Refused {
            obligation,
            row,
            reason,
        } => {
            let place = place_text(row, rows);
            format!(in alloc; "refused {obligation:?} {place}, for {reason:?}, {count}")
        }
        Found::Violated { obligation } => format!(in alloc; "violated {obligation:?}, {count}"),
        Found::NoSuch { proof, instance } => {
            let place = if instance > 0 {
                "behind the first"
            } else {
                "the first"
            };
            format!(in alloc; "proof {proof} has an instance of nothing, {place}, {count}")
        }
    }
}

/// What is told of what was found, where there are such proofs.
pub fn told_text(alloc: Global, told: Told) -> Result<String, AllocError> {
    match told {
        Some((found, rows)) => found_text(alloc, found, rows),
        None => String::from_str(alloc, "no such proofs"),
    }
}
