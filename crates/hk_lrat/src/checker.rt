//! The checker of logs, row by row.

ghost use Rattle.std.specs.Prelude.{◌≡◌, ◌==◌, ◌+◌, ◌^◌, ◌<◌, ◌≤◌, [], length, None, Some, OnOk, OnErr, OnSome, IfNone, IfOk, IfErr};
ghost use Rattle.std.specs.List.{All};
ghost use Rattle.hk_cnf.specs.Literal.{IsWithin};
ghost use Rattle.hk_lrat.specs.Log.{State, start, row_fault, after_row, add_fault, delete_fault};
ghost use Rattle.hk_lrat.specs.Room.{Checked, Fits, after_accepted, with_clause, without_clauses};

use crate::hints::{Addition, Clauses, add_reason};
use crate::log::{LratRow, RowReason};
use crate::table::{Entry, are_live, kill_all};
use hk_cnf::{ClauseList, Lit};
use std::alloc::{AllocError, Global};
use std::marker::Model;

/// The live clauses of a list and of the rows that were accepted after it, with room for more.
#[derive(Drop)]
pub struct Checker {
    vars: u64,
    last: u64,
    lits: Vec<Lit>,
    table: Vec<Entry>,
    marks: Vec<u64>,
    row: u64,
    clauses_left: usize,
    literals_left: usize,
}

impl Model for Checker {
    ghost use Rattle.hk_lrat.specs.Room.{Checked};

    ghost Value = { Checked };

    ghost use Rattle.hk_lrat.specs.Checked.{view_of, IsChecker};

    ghost view = { view_of };

    ghost invariant = { IsChecker };
}

impl Checker {
    /// No clause over this many variables, and no room.
    fn empty(alloc: Global, vars: u64) -> Result<Checker, AllocError>
        requires { vars < 2 ^ 63 }
        ensures { IfOk result (λ c. c ≡ record { state = record { vars = vars; last = 0; live = [] }; clauses_left = 0; literals_left = 0 }) }
    {
        let marks = vec![in alloc; 0; 2 * vars as usize]?;
        Ok(Checker {
            vars,
            last: 0,
            lits: Vec::new(alloc),
            table: Vec::new(alloc),
            marks,
            row: 0,
            clauses_left: 0,
            literals_left: 0,
        })
    }

    /// Makes room for so many clauses and literals more. Without memory the checker is as before.
    pub fn reserve(&mut self, clauses: usize, literals: usize) -> Result<(), AllocError>
        ensures ok { OnOk result (self.new ≡ record self.old { clauses_left = clauses; literals_left = literals }) }
        ensures err { OnErr result (self.new ≡ self.old) }
    {
        self.table.reserve(clauses)?;
        self.lits.reserve(literals)?;
        self.clauses_left = clauses;
        self.literals_left = literals;
        Ok(())
    }

    /// The first reason against an addition.
    fn addition_reason(&mut self, id: u64, clause: &[Lit], hints: &[u64]) -> Option<RowReason>
        ensures reason { result ≡ add_fault self.old.state id clause.now hints.now }
        ensures same { self.new ≡ self.old }
        ensures few { self.old.state.vars < 2 ^ 63 }
    {
        let clauses = Clauses {
            vars: self.vars,
            last: self.last,
            table: self.table.as_slice(),
            lits: self.lits.as_slice(),
        };
        let addition = Addition { id, clause, hints };
        add_reason(
            &clauses,
            &addition,
            self.marks.as_mut_slice(),
            &mut self.row,
        )
    }

    /// A clause more, under an id that is greater than all before. There is room for it.
    fn push(&mut self, id: u64, clause: &[Lit])
        requires later { self.old.state.last < id }
        requires within { All (IsWithin self.old.state.vars) clause.now }
        requires clause_fits { 1 ≤ self.old.clauses_left }
        requires literals_fit { length clause.now ≤ self.old.literals_left }
        ensures { self.new ≡ with_clause self.old id clause.now }
    {
        let start = self.lits.len();
        if self.lits.extend_from_slice(clause).is_err() {
            unreachable!();
        }
        let entry = Entry {
            id,
            start,
            end: self.lits.len(),
            live: true,
        };
        if self.table.push(entry).is_err() {
            unreachable!();
        }
        self.last = id;
        self.clauses_left -= 1;
        self.literals_left -= clause.len();
    }

    /// Tries an addition, and makes it where there is no reason against it.
    fn accept_add(&mut self, id: u64, clause: &[Lit], hints: &[u64]) -> Option<RowReason>
        requires clause_fits { 1 ≤ self.old.clauses_left }
        requires literals_fit { length clause.now ≤ self.old.literals_left }
        ensures reason { result ≡ add_fault self.old.state id clause.now hints.now }
        ensures accepted { IfNone result (self.new ≡ with_clause self.old id clause.now) }
        ensures refused { OnSome result (self.new ≡ self.old) }
    {
        match self.addition_reason(id, clause, hints) {
            None => {
                self.push(id, clause);
                None
            }
            Some(reason) => Some(reason),
        }
    }

    /// Tries a deletion, and makes it where there is no reason against it.
    fn accept_delete(&mut self, ids: &[u64]) -> Option<RowReason>
        ensures reason { result ≡ delete_fault self.old.state ids.now }
        ensures accepted { IfNone result (self.new ≡ without_clauses self.old ids.now) }
        ensures refused { OnSome result (self.new ≡ self.old) }
    {
        if !are_live(self.table.as_slice(), ids) {
            return Some(RowReason::L3);
        }
        kill_all(self.table.as_mut_slice(), ids);
        None
    }

    /// The first reason against a row. An accepted row is made.
    fn row_reason(&mut self, row: &LratRow) -> Option<RowReason>
        requires { Fits self.old row.now }
        ensures reason { result ≡ row_fault self.old.state row.now }
        ensures accepted { IfNone result (self.new ≡ after_accepted self.old row.now) }
        ensures refused { OnSome result (self.new ≡ self.old) }
    {
        match row {
            LratRow::Add { id, clause, hints } => {
                self.accept_add(*id, clause.as_slice(), hints.as_slice())
            }
            LratRow::Delete { ids } => self.accept_delete(ids.as_slice()),
        }
    }

    /// Tries a row. An accepted one adds its clause or deletes its clauses; a refused one changes nothing, and its
    /// first reason is answered. There has to be room for an addition. Takes no memory.
    pub fn accept_row(&mut self, row: &LratRow) -> Result<(), RowReason>
        requires { Fits self.old row.now }
        ensures ok { OnOk result (row_fault self.old.state row.now ≡ None) }
        ensures accepted { OnOk result (self.new ≡ after_accepted self.old row.now) }
        ensures refused { IfErr result (λ reason. row_fault self.old.state row.now ≡ Some reason) }
        ensures unchanged { OnErr result (self.new ≡ self.old) }
    {
        match self.row_reason(row) {
            None => Ok(()),
            Some(reason) => Err(reason),
        }
    }

    /// The checker before the first row over this list, with room for so many clauses and literals more.
    pub fn with_room(
        alloc: Global,
        list: &ClauseList,
        clauses: usize,
        literals: usize,
    ) -> Result<Checker, AllocError>
        ensures { IfOk result (λ c. c ≡ record { state = start list.now; clauses_left = clauses; literals_left = literals }) }
    {
        let mut checker = Checker::empty(alloc, list.vars())?;
        for i in 0..list.len() {
            let clause = list.clause(i);
            checker.reserve(1, clause.len())?;
            checker.push(i as u64 + 1, clause);
        }
        checker.reserve(clauses, literals)?;
        Ok(checker)
    }

    /// Makes room for a row. Without memory the checker is as before.
    pub fn reserve_row(&mut self, row: &LratRow) -> Result<(), AllocError>
        ensures ok { OnOk result (Fits self.new row.now × (self.new.state ≡ self.old.state)) }
        ensures err { OnErr result (self.new ≡ self.old) }
    {
        match row {
            LratRow::Add { clause, .. } => self.reserve(1, clause.as_slice().len()),
            LratRow::Delete { .. } => Ok(()),
        }
    }
}
