//! Clause lists.

ghost use Rattle.std.specs.Prelude.{◌≡◌, ◌==◌, ℕ, ◌<◌, ◌≤◌, ◌^◌, ◌++◌, [], ◌∷◌, length, slice_index_or, slice_range, take, All, OnOk, OnErr};
ghost use Rattle.hk_cnf.specs.Literal.{IsWithin};
ghost use Rattle.hk_cnf.specs.Clauses.{AreWithin};

use crate::literal::Lit;
use std::alloc::{AllocError, Global};
use std::marker::Model;

/// A number of variables, at most 2^63 - 1, and a list of clauses over them.
/// The literals of all clauses stand in one row, clause after clause, with the place in it where each clause ends.
#[derive(Drop)]
pub struct ClauseList {
    vars: u64,
    lits: Vec<Lit>,
    ends: Vec<usize>,
}

impl Model for ClauseList {
    ghost use Rattle.hk_cnf.specs.Clauses.{Clauses};

    ghost Value = { Clauses };

    ghost use Rattle.hk_cnf.specs.Layout.{view_of, IsLaidOut};

    ghost view = { view_of };

    ghost invariant = { IsLaidOut };
}

impl ClauseList {
    /// No clause over this many variables.
    pub fn new(alloc: Global, vars: u64) -> ClauseList
        requires { vars < 2 ^ 63 }
        ensures { result ≡ record { vars = vars; clauses = [] } }
    {
        ClauseList {
            vars,
            lits: Vec::new(alloc),
            ends: Vec::new(alloc),
        }
    }

    /// The number of variables.
    pub fn vars(&self) -> u64
        ensures value { result ≡ self.now.vars }
        ensures few { result < 2 ^ 63 }
    {
        self.vars
    }

    /// The number of clauses.
    pub fn len(&self) -> usize
        ensures value { result ≡ length self.now.clauses }
        ensures within { AreWithin self.now.vars self.now.clauses }
    {
        self.ends.len()
    }

    /// Whether there is no clause.
    pub fn is_empty(&self) -> bool
        ensures { result ≡ (length self.now.clauses == 0) }
    {
        self.len() == 0
    }

    /// The clause at this place, counted from 0.
    pub fn clause(&self, i: usize) -> &[Lit]
        requires { i < length self.now.clauses }
        ensures same { result.now ≡ slice_index_or self.now.clauses i [] }
        ensures within { All (IsWithin self.now.vars) result.now }
    {
        let ends = self.ends.as_slice();
        let start = start_of(ends, i);
        let end = end_of(ends, i);
        part(self.lits.as_slice(), start, end)
    }

    /// Adds a clause over the list's variables at the end. Without memory the list is as before.
    #[inline(always)]
    pub fn push(&mut self, clause: &[Lit]) -> Result<(), AllocError>
        requires { All (IsWithin self.old.vars) clause.now }
        ensures ok { OnOk result (self.new ≡ record self.old { clauses = self.old.clauses ++ clause.now ∷ [] }) }
        ensures err { OnErr result (self.new ≡ self.old) }
    {
        self.ends.reserve(1)?;
        self.lits.extend_from_slice(clause)?;
        self.ends.push(self.lits.len())?;
        Ok(())
    }

    /// Raises the number of variables. The clauses are as before.
    pub fn widen(&mut self, vars: u64)
        requires more { self.old.vars ≤ vars }
        requires few { vars < 2 ^ 63 }
        ensures { self.new ≡ record self.old { vars = vars } }
    {
        self.vars = vars;
    }

    /// Keeps the first clauses, and makes this the number of variables.
    pub fn cut(&mut self, vars: u64, clauses: usize)
        requires shorter { clauses ≤ length self.old.clauses }
        requires fewer { vars ≤ self.old.vars }
        requires within { AreWithin vars (take clauses self.old.clauses) }
        ensures { self.new ≡ record { vars = vars; clauses = take clauses self.old.clauses } }
    {
        let end = start_of(self.ends.as_slice(), clauses);
        self.vars = vars;
        self.lits.truncate(end);
        self.ends.truncate(clauses);
    }
}

/// Where the clause at this place starts, which is where the one before it ends.
fn start_of(ends: &[usize], i: usize) -> usize
    requires { i ≤ length ends.now }
    ensures { result ≡ slice_index_or (0 ∷ ends.now) i 0 }
{
    if i == 0 { 0 } else { ends[i - 1] }
}

/// Where the clause at this place ends.
fn end_of(ends: &[usize], i: usize) -> usize
    requires { i < length ends.now }
    ensures { result ≡ slice_index_or ends.now i 0 }
{
    ends[i]
}

/// The literals of a row from a place up to another.
fn part(lits: &[Lit], start: usize, end: usize) -> &[Lit]
    requires rising { start ≤ end }
    requires inside { end ≤ length lits.now }
    ensures { result.now ≡ slice_range lits.now start end }
{
    &lits[start..end]
}
