//! A test as a program: clause lists and files, gates, the clause-learning solver, and the checker of its logs, by their public calls.
//!
//! Each line of standard input that is empty or begins with `#` is printed as it is. Any other is a row of fields between bars; it is
//! printed with its answer behind, or, if it is out of form, behind a `?`.
//!
//! The last field of a row over a list is LIST: a clause file, which is refused by its line and the reason, or `pigeons P H`, which asks
//! for a hole of H for each of P pigeons and for no hole with two. In a text `\n`, `\t`, `\r` and `\0` are control characters, `\x` is a
//! byte that begins no character, and `-` alone is no text.
//!
//! - `read | LIST`: the number of variables and the clauses. `write | LIST`: the text that is written of it.
//! - `cut | COUNT | LIST`: the same as `read` of the first clauses. `satisfies | VALUES | LIST`: whether these truth values do.
//! - `solve | BUDGET | LIST`: `sat`, `unsat`, or `spent` with the number of rows; the model, the refutation or each row is checked.
//! - `rows | BUDGET | LIST`: the number of rows of the refutation.
//! - `grow | FIRST | SECOND | BUDGET | LIST`: the answers of one solver to the first clauses, to some more, and, with a large budget, to
//!   all.
//! - `propagate | LIST`, `watch | KEPT | LIST`: unit propagation (`propagation.rt`).
//! - `refute | LOG | LIST`: whether a log refutes the list, or its row that is refused and the reason.
//! - `longer | LITERALS | LITERAL`: the clause of a row that takes one literal more.
//! - `gates | STEPS`: what steps on a table of gates give (`gates.rt`).
//!
//! What `stdout` expects is what the formats say, what counting gives, and, of random lists, what other solvers answer.
#![tactic(auto)]

mod answers;
mod gates;
mod growing;
mod lists;
mod logs;
mod pigeons;
mod propagation;
mod row;

use crate::answers::{rows, solved};
use crate::gates::steps_given;
use crate::growing::rounds;
use crate::lists::{file_of, first_clauses, list_of, numbers, satisfied, written};
use crate::logs::{longer, refuted};
use crate::propagation::{propagated, watched};
use crate::row::fields_of;
use hk_cnf::ClauseList;
use std::alloc::{AllocError, Global};
use std::io;

/// What a solver says of the list within a budget, and nothing where there is no such call or no budget.
fn of_solver(
    alloc: Global,
    list: &ClauseList,
    call: &[&str],
    budget: &str,
) -> Result<Option<String>, AllocError> {
    let budget = budget.parse::<u64>().unwrap_or(0);
    if budget == 0 {
        return Ok(None);
    }
    let told = match call {
        ["solve"] => solved(alloc, list, budget)?,
        ["rows"] => rows(alloc, list, budget)?,
        ["grow", first, second] => match (first.parse::<usize>(), second.parse::<usize>()) {
            (Ok(first), Ok(second)) => rounds(alloc, list, (first, second), budget)?,
            _ => return Ok(None),
        },
        _ => return Ok(None),
    };
    Ok(Some(told))
}

/// What a call says of the list, and nothing where there is no such call.
fn of_list(alloc: Global, list: &ClauseList, call: &[&str]) -> Result<Option<String>, AllocError> {
    let told = match call {
        ["read"] => numbers(alloc, list)?,
        ["write"] => written(alloc, list)?,
        ["satisfies", values] => satisfied(alloc, list, values)?,
        ["propagate"] => propagated(alloc, list)?,
        ["watch", kept] => match kept.parse::<usize>() {
            Ok(kept) => watched(alloc, list, kept)?,
            Err(_) => return Ok(None),
        },
        ["refute", log] => refuted(alloc, list, log)?,
        [call @ .., budget] => return of_solver(alloc, list, call, budget),
        _ => return Ok(None),
    };
    Ok(Some(told))
}

/// What a call says of the list of a clause file.
fn of_file(alloc: Global, call: &[&str], file: &[u8]) -> Result<Option<String>, AllocError> {
    match list_of(alloc, file) {
        Ok(list) => match call {
            ["cut", count] => Ok(Some(first_clauses(alloc, list, count)?)),
            _ => of_list(alloc, &list, call),
        },
        Err(stop) => Ok(Some(stop.to_string(alloc)?)),
    }
}

/// The answer to a row, and nothing where it is out of form.
fn answer(alloc: Global, fields: &[&str]) -> Result<Option<String>, AllocError> {
    match fields {
        ["gates", steps] => Ok(Some(steps_given(alloc, steps)?)),
        ["longer", literals, last] => longer(alloc, literals, last),
        [call @ .., list] => {
            let file = file_of(alloc, list)?;
            of_file(alloc, call, &file)
        }
        _ => Ok(None),
    }
}

/// What is printed of a row.
fn told(alloc: Global, row: &str) -> Result<String, AllocError> {
    if row.is_empty() || row.starts_with('#') {
        return String::from_str(alloc, row);
    }
    let fields = fields_of(alloc, row)?;
    match answer(alloc, &fields)? {
        Some(answer) => format!(in alloc; "{row} | {answer}"),
        None => format!(in alloc; "? {row}"),
    }
}

fn main(rt: HostRuntime) -> io::Result<()> {
    for row in rt.lines(rt.alloc()) {
        let row = row?;
        let told = told(rt.alloc(), row.as_str())?;
        println!(rt; "{told}")?;
    }
    Ok(())
}
