//! Whether a log refutes a clause list.

ghost use Rattle.std.specs.Prelude.{◌≡◌, None, OnOk, IfErr};
ghost use Rattle.hk_cnf.specs.Clauses.{IsUnsatisfiable};
ghost use Rattle.hk_lrat.specs.Log.{row_fault, after_row, log_fault};
ghost use Rattle.hk_lrat.specs.Refutes.{Answers, OnRow, Refutes, StopsAt};

use crate::checker::Checker;
use crate::log::{LratLog, LratRow, RefuteStop, RowReason};
use crate::rank::ranked;
use hk_cnf::ClauseList;
use std::alloc::Global;

/// Tries the row of this number, counted from 1.
fn try_row(checker: &mut Checker, row: &LratRow, number: u64) -> Result<(), RefuteStop>
    ensures accepted { OnOk result (row_fault checker.old.state row.now ≡ None) }
    ensures after { OnOk result (checker.new.state ≡ after_row checker.old.state row.now) }
    ensures refused { IfErr result (λ stop. StopsAt stop number (row_fault checker.old.state row.now)) }
{
    checker.reserve_row(row)?;
    match checker.accept_row(row) {
        Ok(()) => Ok(()),
        Err(reason) => Err(RefuteStop::Row {
            row: number,
            reason,
        }),
    }
}

/// Tries the rows in their order, up to the first accepted empty clause.
fn try_rows(alloc: Global, list: &ClauseList, log: &LratLog) -> Result<(), RefuteStop>
    ensures { Answers result (log_fault list.now log.now) }
{
    let mut checker = Checker::with_room(alloc, list, 0, 0)?;
    let rows = log.as_slice();
    for i in 0..rows.len() {
        try_row(&mut checker, &rows[i], i as u64 + 1)?;
        if rows[i].is_empty_addition() {
            return Ok(());
        }
    }
    Err(RefuteStop::Row {
        row: rows.len() as u64,
        reason: RowReason::L7,
    })
}

/// The same, over the ranks of the variables that occur where these are few.
fn try_log(alloc: Global, list: &ClauseList, log: &LratLog) -> Result<(), RefuteStop>
    ensures { Answers result (log_fault list.now log.now) }
{
    match ranked(alloc, list, log)? {
        Some((list, log)) => try_rows(alloc, &list, &log),
        None => try_rows(alloc, list, log),
    }
}

/// Tries the rows of the log in their order, up to the first accepted empty clause, which gives Ok: no assignment
/// satisfies the list. The first row that is refused is named with its first reason; `L7` names the number of rows
/// where all are accepted and none adds the empty clause.
pub fn refutes(alloc: Global, list: &ClauseList, log: &LratLog) -> Result<(), RefuteStop>
    ensures answer { Answers result (log_fault list.now log.now) }
    ensures unsatisfiable { OnOk result (IsUnsatisfiable list.now) }
    ensures refuted { OnOk result (Refutes list.now log.now) }
    ensures not_refuted { IfErr result (λ stop. OnRow stop (¬ (Refutes list.now log.now))) }
{
    try_log(alloc, list, log)
}
