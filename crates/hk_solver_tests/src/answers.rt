//! Answers of the solver, with their evidence checked.

ghost use Rattle.std.specs.Prelude.{◌≤◌};
ghost use Rattle.hk_cdcl.specs.Ends.{IfSat};
ghost use Rattle.hk_cdcl.specs.Solved.{Satisfies};

use hk_cdcl::{SolveEnd, solve};
use hk_cnf::{ClauseList, satisfies};
use hk_lrat::{Checker, LratLog, refutes};
use std::alloc::{AllocError, Global};

/// The number of rows, where a checker accepts each and none is empty.
fn accepted_rows(
    alloc: Global,
    list: &ClauseList,
    log: &LratLog,
) -> Result<Option<usize>, AllocError> {
    let mut checker = Checker::with_room(alloc, list, 0, 0)?;
    for row in log.as_slice() {
        checker.reserve_row(row)?;
        if checker.accept_row(row).is_err() || row.is_empty_addition() {
            return Ok(None);
        }
    }
    Ok(Some(log.len()))
}

/// An answer in words, with its evidence checked over the list.
pub(crate) fn checked(
    alloc: Global,
    list: &ClauseList,
    end: &SolveEnd,
) -> Result<String, AllocError>
    requires { IfSat (Satisfies list.now) end.now }
{
    match end {
        SolveEnd::Sat(assignment) if satisfies(list, assignment) => String::from_str(alloc, "sat"),
        SolveEnd::Sat(_) => String::from_str(alloc, "not satisfied"),
        SolveEnd::Unsat(log) => match refutes(alloc, list, log) {
            Ok(()) => String::from_str(alloc, "unsat"),
            Err(_) => String::from_str(alloc, "not refuted"),
        },
        SolveEnd::Spent(log) => match accepted_rows(alloc, list, log)? {
            Some(rows) => format!(in alloc; "spent {rows}"),
            None => String::from_str(alloc, "not accepted"),
        },
    }
}

/// What the list comes to within a budget.
pub(crate) fn solved(alloc: Global, list: &ClauseList, budget: u64) -> Result<String, AllocError>
    requires { 1 ≤ budget }
{
    let end = solve(alloc, list, budget)?;
    checked(alloc, list, &end)
}

/// The number of rows of the log that refutes the list.
pub(crate) fn rows(alloc: Global, list: &ClauseList, budget: u64) -> Result<String, AllocError>
    requires { 1 ≤ budget }
{
    match solve(alloc, list, budget)? {
        SolveEnd::Unsat(log) => log.len().to_string(alloc),
        _ => String::from_str(alloc, "no refutation"),
    }
}
