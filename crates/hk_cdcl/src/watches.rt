//! Watches: for each literal the clauses that are looked at when it becomes false, and for each clause its watched literals.
//!
//! A watch has eight bytes, and behind it stands the record of its clause, so a look reads these two places alone.

ghost use Rattle.std.specs.Prelude.{◌≡◌, ◌⊎◌, ◌≢◌, ◌+◌, ◌*◌, ◌^◌, ◌<◌, ◌≤◌, ◌++◌, ◌∷◌, [], ℤ, true, false, pos, neg_ℤ, nat_le, if◌then◌else◌, length, slice_set, IfSome, IsTrue, IsFalse, OnOk, OnErr, MatchOption};
ghost use Rattle.std.specs.List.{All};
ghost use Rattle.hk_cnf.specs.Literal.{IsWithin, code_of, has};
ghost use Rattle.hk_cdcl.specs.Looking.{IsOther, IsOtherOf};
ghost use Rattle.hk_cdcl.specs.Records.{lit_of, pair_at, text_at};
ghost use Rattle.hk_cdcl.specs.Watches.{Plain, clause_in, plain_of, watches_of, watch_at, IsSame, AreCleared, IsMoved, with_both};

use crate::lists::{Lists, Slot};
use crate::records::Records;
use crate::trail::Trail;
use hk_cnf::{ClauseList, Lit};
use std::alloc::{AllocError, Global};
use std::marker::Model;

/// The target of a binary clause, and of no record.
const BINARY: u32 = 2_147_483_648;

/// Whether the watch is of a clause with no other literals than the one that blocks and the one in whose list it is.
pub fn is_binary(slot: Slot) -> bool
    ensures { result ≡ nat_le (2 ^ 31) slot.target }
{
    slot.target >= BINARY
}

/// What the watches of a clause name: the place of a binary clause in its list, or where the record begins.
fn target_of(binary: bool, clause: usize, start: u32) -> u32
    requires { clause < 2 ^ 31 }
    ensures { result ≡ if binary then 2 ^ 31 + clause else start }
{
    if binary {
        BINARY + clause as u32
    } else {
        start
    }
}

/// The watch lists of all literals, and the records of all clauses that are watched.
#[derive(Drop)]
pub struct Watches {
    lists: Lists,
    records: Records,
}

impl Model for Watches {
    ghost use Rattle.hk_cdcl.specs.Watches.{Plain};
    ghost use Rattle.hk_cdcl.specs.Plain.{view_of};

    ghost Value = { Plain };

    ghost view = { view_of };
}

impl Watches {
    /// No list, and no clause.
    pub fn new(alloc: Global) -> Watches
        ensures { result ≡ record { lists = []; pairs = []; texts = []; starts = [] } }
    {
        Watches {
            lists: Lists::new(alloc),
            records: Records::new(alloc),
        }
    }

    /// The number of lists.
    pub fn len(&self) -> usize
        ensures { result ≡ length self.now.lists }
    {
        self.lists.len()
    }

    /// The number of clauses that are watched.
    pub fn clauses(&self) -> usize
        ensures pairs { result ≡ length self.now.pairs }
        ensures texts { result ≡ length self.now.texts }
        ensures starts { result ≡ length self.now.starts }
    {
        self.records.len()
    }

    /// The number of watches of the literal with this code.
    pub fn count(&self, code: u32) -> usize
        requires { code < length self.now.lists }
        ensures { result ≡ length (watches_of self.now.lists (lit_of code)) }
    {
        self.lists.count(code)
    }

    /// The watch at the place of the list of the literal with this code.
    pub fn watch(&self, code: u32, place: usize) -> Slot
        requires inside { code < length self.now.lists }
        requires place { place < length (watches_of self.now.lists (lit_of code)) }
        ensures { plain_of self.now.starts result ≡ watch_at (watches_of self.now.lists (lit_of code)) place }
    {
        self.lists.slot(code, place)
    }

    /// The place of the watch's clause in its list.
    pub fn clause(&self, slot: Slot) -> usize
        requires { clause_in self.now.starts slot.target < length self.now.starts }
        ensures { result ≡ clause_in self.now.starts slot.target }
    {
        if is_binary(slot) {
            return (slot.target - BINARY) as usize;
        }
        self.records.clause(slot.target)
    }

    /// The other watched literal of the clause of a watch, where both differ.
    pub fn other(&self, slot: Slot, code: u32) -> Option<u32>
        requires long { nat_le (2 ^ 31) slot.target ≡ false }
        requires inside { clause_in self.now.starts slot.target < length self.now.starts }
        ensures { IfSome result (λ o. IsOtherOf (pair_at self.now.pairs (clause_in self.now.starts slot.target)) (lit_of code) (lit_of o)) }
    {
        self.records.other(slot.target, code)
    }

    /// A literal of the clause of a watch that is neither `other` nor false.
    pub fn left(&mut self, trail: &Trail, slot: Slot, other: u32) -> Option<u32>
        requires long { nat_le (2 ^ 31) slot.target ≡ false }
        requires inside { clause_in self.old.starts slot.target < length self.old.starts }
        requires within { All (IsWithin trail.now.vars) (text_at self.old.texts (clause_in self.old.starts slot.target)) }
        ensures same { self.new ≡ self.old }
        ensures left { MatchOption result (All (λ x. (lit_of other ≡ x) ⊎ (has trail.now.lits (neg_ℤ x) ≡ true)) (text_at self.old.texts (clause_in self.old.starts slot.target))) (λ next. IsOther trail.now.lits (text_at self.old.texts (clause_in self.old.starts slot.target)) (lit_of other) (lit_of next)) }
    {
        self.records.left(trail, slot.target, other)
    }

    /// Writes the watch at the place of the list of the literal with this code.
    pub fn set(&mut self, code: u32, place: usize, slot: Slot)
        requires inside { code < length self.old.lists }
        requires place { place < length (watches_of self.old.lists (lit_of code)) }
        ensures { self.new ≡ record self.old { lists = slice_set self.old.lists (code_of (lit_of code)) (slice_set (watches_of self.old.lists (lit_of code)) place (plain_of self.old.starts slot)) } }
    {
        self.lists.set(code, place, slot);
    }

    /// Moves the watch at the place of the list of the literal with one code to the list of another: its clause, which has the
    /// literal that blocks it, is watched by that one and by the other one's. Answers whether there was room.
    pub fn rewatch(&mut self, code: u32, place: usize, slot: Slot, next: u32) -> bool
        requires code { code < length self.old.lists }
        requires next { next < length self.old.lists }
        requires apart { lit_of next ≢ lit_of code }
        requires place { place < length (watches_of self.old.lists (lit_of code)) }
        requires long { nat_le (2 ^ 31) slot.target ≡ false }
        requires inside { clause_in self.old.starts slot.target < length self.old.starts }
        ensures texts { self.new.texts ≡ self.old.texts }
        ensures pairs { IsTrue result → self.new.pairs ≡ slice_set self.old.pairs (clause_in self.old.starts slot.target) (record { first = lit_of next; second = lit_of slot.blocker }) }
        ensures lists { IsTrue result → IsMoved self.old.lists self.new.lists (lit_of code) place (lit_of next) (plain_of self.old.starts slot) }
        ensures count { IsTrue result → length self.new.lists ≡ length self.old.lists }
    {
        if !self.lists.push(next, slot) {
            return false;
        }
        self.lists.remove(code, place);
        self.records.watch(slot.target, next, slot.blocker);
        true
    }

    /// Removes all watches and records, and keeps the room.
    pub fn clear(&mut self)
        ensures lists { AreCleared self.old.lists self.new.lists }
        ensures pairs { self.new.pairs ≡ [] }
        ensures texts { self.new.texts ≡ [] }
    {
        self.lists.clear();
        self.records.clear();
    }

    /// Adds empty lists at the end until there are so many.
    pub fn widen(&mut self, count: usize) -> Result<(), AllocError>
        ensures lists { IsSame self.old.lists self.new.lists }
        ensures pairs { self.new.pairs ≡ self.old.pairs }
        ensures texts { self.new.texts ≡ self.old.texts }
    {
        self.lists.widen(count)
    }

    /// Watches the next clause by these literals, where there is room, and answers whether there was.
    pub fn push(&mut self, vars: u64, lits: &[Lit], first: Lit, second: Lit, binary: bool) -> bool
        requires within { All (IsWithin vars) lits.now }
        requires first { IsWithin vars first }
        requires second { IsWithin vars second }
        requires first_inside { code_of first < length self.old.lists }
        requires second_inside { code_of second < length self.old.lists }
        requires named { (l : ℤ) → l ≢ pos 0 → All (λ w. w.clause < length self.old.pairs) (watches_of self.old.lists l) }
        ensures lists { IsTrue result → self.new.lists ≡ with_both self.old.lists first second (length self.old.pairs) binary }
        ensures pairs { IsTrue result → self.new.pairs ≡ self.old.pairs ++ (record { first = first; second = second }) ∷ [] }
        ensures texts { IsTrue result → self.new.texts ≡ self.old.texts ++ lits.now ∷ [] }
    {
        let count = self.records.len();
        let Some(start) = self.records.push(vars, lits, first, second) else {
            return false;
        };
        let target = target_of(binary, count, start);
        let one = first.code() as u32;
        let two = second.code() as u32;
        let fits = self.lists.push(
            one,
            Slot {
                blocker: two,
                target,
            },
        );
        if !fits {
            return false;
        }
        let last = self.lists.push(
            two,
            Slot {
                blocker: one,
                target,
            },
        );
        last
    }

    /// Counts the clauses from a place on for their literals.
    pub fn count_from(&mut self, clauses: &ClauseList, from: usize)
        ensures { self.new ≡ self.old }
    {
        self.lists.count_from(clauses, from);
        self.records.count_from(clauses, from);
    }

    /// Makes room for the watches and the records of all clauses that were counted: those from this place on came.
    pub fn reserve_from(&mut self, clauses: &ClauseList, from: usize) -> Result<(), AllocError>
        ensures { self.new ≡ self.old }
    {
        self.lists.reserve_from(clauses, from)?;
        self.records.reserve()
    }
}
