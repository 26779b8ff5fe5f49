//! A call: in segments, which forget most of what they learn; and where these spend the budget with no answer, anew from the
//! state before the call by a search that keeps each clause, so that the clauses that spend the budget are fresh.

ghost use Rattle.std.specs.Prelude.{◌≡◌, ◌≤◌, length, take, IfOk, OnOk, OnErr};
ghost use Rattle.hk_cdcl.specs.Names.{front_of};
ghost use Rattle.hk_cdcl.specs.Searching.{IsLogged};
ghost use Rattle.hk_cdcl.specs.Forgetting.{Learns, found_of, Called};

use crate::active::Kept;
use crate::search::{Found, Search};
use crate::segments::{Answer, segments};
use crate::solver::run;
use crate::watched::Watched;
use hk_lrat::{IdList, LitList, LratLog, LratRow};
use std::alloc::{AllocError, Global};

/// The same row, over memory of its own.
fn copy_of(alloc: Global, row: &LratRow) -> Result<LratRow, AllocError>
    ensures { IfOk result (λ copy. copy ≡ row.now) }
{
    match row {
        LratRow::Add { id, clause, hints } => {
            let clause = LitList::from_slice(alloc, clause.as_slice())?;
            let hints = IdList::from_slice(alloc, hints.as_slice())?;
            Ok(LratRow::Add {
                id: *id,
                clause,
                hints,
            })
        }
        LratRow::Delete { ids } => {
            let ids = IdList::from_slice(alloc, ids.as_slice())?;
            Ok(LratRow::Delete { ids })
        }
    }
}

/// The first rows of the log, over memory of their own.
fn first_rows(alloc: Global, log: &LratLog, count: usize) -> Result<LratLog, AllocError>
    requires { count ≤ length log.now }
    ensures { IfOk result (λ front. front ≡ take count log.now) }
{
    let mut front = LratLog::new(alloc);
    let rows = log.as_slice();
    for i in 0..count {
        front.push(copy_of(alloc, &rows[i])?)?;
    }
    Ok(front)
}

/// Keeps the first clauses and the first rows. Without memory all are as before.
fn go_back(
    alloc: Global,
    search: &mut Search,
    clauses: usize,
    rows: usize,
) -> Result<(), AllocError>
    requires clauses { clauses ≤ length search.old.clauses.clauses }
    requires rows { rows ≤ length search.old.log }
    ensures clauses { OnOk result (search.new.clauses ≡ front_of clauses search.old.clauses) }
    ensures log { OnOk result (search.new.log ≡ take rows search.old.log) }
    ensures same_clauses { OnErr result (search.new.clauses ≡ search.old.clauses) }
    ensures same_log { OnErr result (search.new.log ≡ search.old.log) }
{
    let log = first_rows(alloc, &search.log, rows)?;
    let vars = search.clauses.vars();
    // For the proof: the clauses' literals are of the list's variables.
    let _within = search.clauses.len();
    search.clauses.cut(vars, clauses);
    search.log = log;
    Ok(())
}

/// The answer of the call that a segment gave.
fn found_of(answer: Answer) -> Found
    ensures { result ≡ found_of answer }
{
    match answer {
        Answer::Sat(assignment) => Found::Sat(assignment),
        Answer::Unsat(row) => Found::Unsat(row),
    }
}

/// A call with this budget over the list of so many given clauses.
pub fn call(
    alloc: Global,
    given: usize,
    search: &mut Search,
    active: &mut Search,
    kept: &mut Vec<Kept>,
    watched: &mut Watched,
    budget: u64,
) -> Result<Found, AllocError>
    requires inside { given ≤ length search.old.clauses.clauses }
    requires logged { IsLogged (front_of given search.old.clauses) search.old.clauses search.old.log }
    ensures learns { Learns search.old search.new }
    ensures called { IfOk result (Called given budget search.old search.new) }
{
    let clauses = search.clauses.len();
    let rows = search.log.len();
    let end = segments(alloc, given, search, active, watched, kept, budget)?;
    if let Some(answer) = end {
        return Ok(found_of(answer));
    }
    kept.truncate(0);
    go_back(alloc, search, clauses, rows)?;
    run(alloc, search, watched, budget)
}
