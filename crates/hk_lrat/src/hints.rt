//! The hints of an addition, followed one by one.

ghost use Rattle.std.specs.Prelude.{◌≡◌, ℕ, ◌*◌, ◌<◌, ◌≤◌, ◌^◌, length};
ghost use Rattle.std.specs.List.{All};
ghost use Rattle.hk_cnf.specs.Literal.{IsWithin};
ghost use Rattle.hk_lrat.specs.Marks.{marked};
ghost use Rattle.hk_lrat.specs.Entries.{live_of, IsRising, IsEntry};
ghost use Rattle.hk_lrat.specs.Log.{follow, add_fault};

use crate::log::RowReason;
use crate::marks::{deny, hint_at, mark, next_row};
use crate::table::{Entry, live_clause};
use hk_cnf::{Hint, Lit};

/// The first reason against the hints while the marked literals are true. The literals that they set are marked too.
// Inlined into the walk over the rows, this loop would lose its registers.
#[inline(never)]
fn hints_reason(
    vars: u64,
    table: &[Entry],
    lits: &[Lit],
    marks: &mut [u64],
    row: u64,
    hints: &[u64],
) -> Option<RowReason>
    requires rising { IsRising table.now }
    requires entries { All (IsEntry (length lits.now)) table.now }
    requires lits { All (IsWithin vars) lits.now }
    requires two_each { length marks.old ≡ 2 * vars }
    requires none_later { All (λ m. m ≤ row) marks.old }
    ensures reason { result ≡ follow (live_of lits.now table.now) (marked marks.old row) hints.now }
    ensures none_later { All (λ m. m ≤ row) marks.new }
{
    for hint in hints {
        let Some(clause) = live_clause(table, lits, *hint) else {
            return Some(RowReason::L3);
        };
        match hint_at(marks, row, clause, vars) {
            Hint::False => return None,
            Hint::Unit(lit) => mark(marks, row, lit),
            Hint::Other => return Some(RowReason::L4),
        }
    }
    Some(RowReason::L5)
}

/// The clauses that an addition is tried against: over so many variables, the last under this id.
#[derive(Drop)]
pub struct Clauses<'a> {
    pub vars: u64,
    pub last: u64,
    pub table: &'a [Entry],
    pub lits: &'a [Lit],
}

/// An addition: the id of its clause, the literals, and the hints.
#[derive(Drop)]
pub struct Addition<'a> {
    pub id: u64,
    pub clause: &'a [Lit],
    pub hints: &'a [u64],
}

/// The first reason against an addition. The marks and their row number are for this function alone.
pub fn add_reason(
    clauses: &Clauses<'_>,
    addition: &Addition<'_>,
    marks: &mut [u64],
    row: &mut u64,
) -> Option<RowReason>
    requires rising { IsRising clauses.now.table.now }
    requires entries { All (IsEntry (length clauses.now.lits.now)) clauses.now.table.now }
    requires lits { All (IsWithin clauses.now.vars) clauses.now.lits.now }
    requires two_each { length marks.old ≡ 2 * clauses.now.vars }
    requires none_later { All (λ m. m ≤ row.old) marks.old }
    ensures reason { result ≡ add_fault (record { vars = clauses.now.vars; last = clauses.now.last; live = live_of clauses.now.lits.now clauses.now.table.now }) addition.now.id addition.now.clause.now addition.now.hints.now }
    ensures none_later { All (λ m. m ≤ row.new) marks.new }
{
    *row = next_row(marks, *row);
    if !deny(clauses.vars, marks, *row, addition.clause) {
        return Some(RowReason::L1);
    }
    if addition.id <= clauses.last {
        return Some(RowReason::L2);
    }
    hints_reason(
        clauses.vars,
        clauses.table,
        clauses.lits,
        marks,
        *row,
        addition.hints,
    )
}
