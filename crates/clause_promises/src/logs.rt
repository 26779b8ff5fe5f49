//! Logs of refutations: a clause list and a log come in, whether the log refutes the list goes out.

ghost use Rattle.std.specs.Prelude.{◌≡◌, All, OnOk, IfErr};
ghost use Rattle.hk_lrat.specs.Log.{log_fault};
ghost use Rattle.hk_lrat.specs.Raised.{raised, RowFits};
ghost use Rattle.hk_lrat.specs.Refutes.{Answers, OnRow, Refutes};

use hk_cnf::ClauseList;
use hk_lrat::{LratLog, RefuteStop, RowReason};
use std::alloc::Global;

/// Whether the log refutes the list, or the first row that fails with its first reason.
pub fn refutes(alloc: Global, list: &ClauseList, log: &LratLog) -> Result<(), RefuteStop>
    ensures answer { Answers result (log_fault list.now log.now) }
    ensures refuted { OnOk result (Refutes list.now log.now) }
    ensures not_refuted { IfErr result (λ stop. OnRow stop (¬ (Refutes list.now log.now))) }
{
    hk_lrat::refutes(alloc, list, log)
}

/// Adds `by` to every id over `from`.
pub fn raise(log: &mut LratLog, from: u64, by: u64)
    requires { All (RowFits from by) log.old }
    ensures { log.new ≡ raised from by log.old }
{
    hk_lrat::raise(log, from, by);
}
