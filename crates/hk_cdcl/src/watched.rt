//! Unit propagation by two watched literals a clause (Moskewicz et al. 2001), with a blocking literal beside each watch.
//!
//! Where nothing is left to do, each clause has a true literal, or both its watched literals are not false. So only the
//! watches of a literal that became false are looked at. Where a clause is true, the watch stays, and a true literal
//! blocks it; only an unset literal comes to be watched. The search for one goes round the clause from the place at which
//! the last one ended (Gent 2013), so that front literals that stay false are not looked at again and again.
//!
//! The lengths of the trail at which nothing was left to do are kept: after a cut the literals behind the last of them are
//! looked at again.

ghost use Rattle.std.specs.Prelude.{◌≡◌, ◌≢◌, ◌⊎◌, ◌↔◌, ◌+◌, ◌*◌, ◌^◌, ◌<◌, ◌≤◌, ◌++◌, ◌∷◌, pos, slice_set, [], false, true, nat_le, List, ℤ, neg_ℤ, length, take, IfSome, IfNone, IsTrue, IsFalse, MatchOption, OnOk, OnErr};
ghost use Rattle.std.specs.List.{All, AllPairs};
ghost use Rattle.hk_cnf.specs.Literal.{IsWithin, code_of, has};
ghost use Rattle.hk_cdcl.specs.Fresh.{AreQuiet};
ghost use Rattle.hk_cdcl.specs.Path.{Extends, lit_at};
ghost use Rattle.hk_cdcl.specs.Propagation.{IsConflict, HasSeen};
ghost use Rattle.hk_cdcl.specs.Looking.{IsOther};
ghost use Rattle.hk_cdcl.specs.Records.{lit_of};
ghost use Rattle.hk_cdcl.specs.Watches.{plain_of, watches_of, watch_at, IsMoved, with_both};
ghost use Rattle.hk_cdcl.specs.Watching.{clause_no, Moves, IsFront, IsEnded, HasRoom, EndsMore, Begins, Fits, IfQuiet, IsAttached, Propagated, Settled, IsLeft, IsBeside, Propagating, Turning, Visited, Fewer, Came};

use crate::lists::Slot;
use crate::propagate::Propagate;
use crate::records::literal;
use crate::scan::scan;
use crate::trail::Trail;
use crate::watches::{Watches, is_binary};
use hk_cnf::{ClauseList, Lit};
use std::alloc::{AllocError, Global};

/// Unit propagation by watched literals.
///
/// `added` makes room in each literal's list for all clauses with the literal. Where a list were full all the same, the
/// answer comes from full scans, and all clauses are watched anew in the next call.
#[derive(Drop)]
pub struct Watched {
    watches: Watches,
    ends: Vec<usize>,
    roomed: usize,
}

/// What a look at a watch came to.
pub enum Visit {
    /// The watch stays.
    Stays,
    /// The clause is watched elsewhere.
    Goes,
    /// The clause at this place is false.
    Stops(usize),
    /// There is no room for a watch.
    Wants,
}

/// What looking at literals, or at clauses, came to.
pub enum Outcome {
    /// Nothing is left to do.
    Quiet,
    /// The clause at this place is false.
    Conflict(usize),
    /// There is no room for a watch.
    Full,
}

/// A literal of the clause that is not false.
fn left_literal(trail: &Trail, clause: &[Lit]) -> Option<Lit>
    requires { All (IsWithin trail.now.vars) clause.now }
    ensures { MatchOption result (All (λ x. has trail.now.lits (neg_ℤ x) ≡ true) clause.now) (IsLeft trail.now.lits clause.now) }
{
    for lit in clause {
        if !trail.holds(lit.negated()) {
            return Some(*lit);
        }
    }
    None
}

/// Another literal of the clause that is not false.
fn other_left(trail: &Trail, clause: &[Lit], lit: Lit) -> Option<Lit>
    requires { All (IsWithin trail.now.vars) clause.now }
    ensures { MatchOption result (All (λ x. (lit ≡ x) ⊎ (has trail.now.lits (neg_ℤ x) ≡ true)) clause.now) (IsOther trail.now.lits clause.now lit) }
{
    for other in clause {
        if *other != lit && !trail.holds(other.negated()) {
            return Some(*other);
        }
    }
    None
}

/// Makes a literal of the clause at the place true, all others of which are false, or finds that it is false too.
fn imply(clauses: &ClauseList, trail: &mut Trail, place: usize, lit: Lit) -> bool
    requires inside { place < length clauses.now.clauses }
    requires within { IsWithin trail.old.vars lit }
    requires member { has (clause_no clauses.now.clauses place) lit ≡ true }
    requires others { All (λ x. (lit ≡ x) ⊎ (has trail.old.lits (neg_ℤ x) ≡ true)) (clause_no clauses.now.clauses place) }
    ensures extends { Extends clauses.now.clauses trail.old trail.new }
    ensures holds { IsTrue result → has trail.new.lits lit ≡ true }
    ensures conflict { IsFalse result → IsConflict clauses.now.clauses trail.new.lits place }
    ensures same { IsFalse result → trail.new ≡ trail.old }
{
    if trail.holds(lit) {
        return true;
    }
    // For the proof: the number of clauses fits 64 bits.
    let _few = clauses.len();
    if trail.holds(lit.negated()) {
        return false;
    }
    trail.push(lit, place as u64 + 1);
    true
}

impl Watched {
    /// Writes the watch at a place of the list of the literal with this code.
    fn block(&mut self, code: u32, place: usize, slot: Slot)
        requires code { code < length self.old.watches.lists }
        requires place { place < length (watches_of self.old.watches.lists (lit_of code)) }
        ensures ends { self.new.ends ≡ self.old.ends }
        ensures pairs { self.new.watches.pairs ≡ self.old.watches.pairs }
        ensures texts { self.new.watches.texts ≡ self.old.watches.texts }
        ensures starts { self.new.watches.starts ≡ self.old.watches.starts }
        ensures lists { self.new.watches.lists ≡ slice_set self.old.watches.lists (code_of (lit_of code)) (slice_set (watches_of self.old.watches.lists (lit_of code)) place (plain_of self.old.watches.starts slot)) }
    {
        self.watches.set(code, place, slot);
    }
}

/// Makes the literal true that alone is left of a clause, or finds the clause false.
fn settle(clauses: &ClauseList, trail: &mut Trail, place: usize, lit: Lit) -> Visit
    requires inside { place < length clauses.now.clauses }
    requires within { IsWithin trail.old.vars lit }
    requires member { has (clause_no clauses.now.clauses place) lit ≡ true }
    requires others { All (λ x. (lit ≡ x) ⊎ (has trail.old.lits (neg_ℤ x) ≡ true)) (clause_no clauses.now.clauses place) }
    ensures extends { Extends clauses.now.clauses trail.old trail.new }
    ensures settled { Settled clauses.now.clauses trail.new.lits place result }
{
    if imply(clauses, trail, place, lit) {
        Visit::Stays
    } else {
        Visit::Stops(place)
    }
}

/// A watch that is looked at.
#[derive(Clone, Copy)]
struct Turn {
    /// The place on the trail of the literal that makes the watched one false.
    head: usize,
    /// The code of the watched literal.
    code: u32,
    /// The watch's place in that literal's list.
    place: usize,
}

impl Watched {
    /// Goes on with another literal of the clause that is not false: where it is true, it blocks the watch, and else it is
    /// watched.
    fn go_on(
        &mut self,
        clauses: &ClauseList,
        trail: &Trail,
        turn: Turn,
        slot: Slot,
        next: u32,
    ) -> Visit
        requires vars { trail.now.vars ≡ clauses.now.vars }
        requires turning { Turning clauses.now.clauses self.old trail.now turn.head (lit_of turn.code) turn.place }
        requires inside { turn.code < length self.old.watches.lists }
        requires long { nat_le (2 ^ 31) slot.target ≡ false }
        requires moves { Moves clauses.now.clauses self.old.watches.lists self.old.watches.pairs trail.now.lits (lit_of turn.code) turn.place (plain_of self.old.watches.starts slot).clause (lit_of next) (plain_of self.old.watches.starts slot).blocker (plain_of self.old.watches.starts slot) }
        ensures visited { Visited clauses.now.clauses self.new trail.now turn.head (lit_of turn.code) turn.place result }
        ensures fewer { Fewer self.old.watches.lists self.new.watches.lists (lit_of turn.code) result }
    {
        // For the proof: the clauses' literals are of the list's variables.
        let _within = clauses.len();
        // For the proof: the trail's literals are of its variables and apart.
        let _path = trail.len();
        // For the proof: there are as many pairs as texts and starts of watched clauses.
        let _count = self.watches.clauses();
        if trail.holds_code(next) {
            let blocked = Slot {
                blocker: next,
                target: slot.target,
            };
            self.block(turn.code, turn.place, blocked);
            return Visit::Stays;
        }
        if self.watches.rewatch(turn.code, turn.place, slot, next) {
            Visit::Goes
        } else {
            Visit::Wants
        }
    }

    /// Looks at the clause of a watch, whose blocking literal is not true.
    fn visit_clause(
        &mut self,
        clauses: &ClauseList,
        trail: &mut Trail,
        head: usize,
        code: u32,
        place: usize,
        slot: Slot,
    ) -> Visit
        requires vars { trail.old.vars ≡ clauses.now.vars }
        requires turning { Turning clauses.now.clauses self.old trail.old head (lit_of code) place }
        requires inside { code < length self.old.watches.lists }
        requires place { place < length (watches_of self.old.watches.lists (lit_of code)) }
        requires slot { plain_of self.old.watches.starts slot ≡ watch_at (watches_of self.old.watches.lists (lit_of code)) place }
        requires long { nat_le (2 ^ 31) slot.target ≡ false }
        ensures extends { Extends clauses.now.clauses trail.old trail.new }
        ensures visited { Visited clauses.now.clauses self.new trail.new head (lit_of code) place result }
        ensures fewer { Fewer self.old.watches.lists self.new.watches.lists (lit_of code) result }
    {
        // For the proof: the clauses' literals are of the list's variables.
        let _within = clauses.len();
        // For the proof: the trail's literals are of its variables and apart.
        let _path = trail.len();
        // For the proof: there are as many pairs as texts and starts of watched clauses.
        let _count = self.watches.clauses();
        let Some(other) = self.watches.other(slot, code) else {
            return Visit::Wants;
        };
        let moved = Slot {
            blocker: other,
            target: slot.target,
        };
        self.block(code, place, moved);
        if trail.holds_code(other) {
            return Visit::Stays;
        }
        let Some(next) = self.watches.left(trail, slot, other) else {
            let clause = self.watches.clause(slot);
            return settle(clauses, trail, clause, literal(other));
        };
        self.go_on(clauses, trail, Turn { head, code, place }, moved, next)
    }

    /// Looks at the watch at a place of the list of the literal with this code, which became false by that at `head`.
    fn visit(
        &mut self,
        clauses: &ClauseList,
        trail: &mut Trail,
        head: usize,
        code: u32,
        place: usize,
    ) -> Visit
        requires vars { trail.old.vars ≡ clauses.now.vars }
        requires turning { Turning clauses.now.clauses self.old trail.old head (lit_of code) place }
        requires inside { code < length self.old.watches.lists }
        requires place { place < length (watches_of self.old.watches.lists (lit_of code)) }
        ensures extends { Extends clauses.now.clauses trail.old trail.new }
        ensures visited { Visited clauses.now.clauses self.new trail.new head (lit_of code) place result }
        ensures fewer { Fewer self.old.watches.lists self.new.watches.lists (lit_of code) result }
    {
        // For the proof: the clauses' literals are of the list's variables.
        let _within = clauses.len();
        // For the proof: the trail's literals are of its variables and apart.
        let _path = trail.len();
        // For the proof: there are as many pairs as texts and starts of watched clauses.
        let _count = self.watches.clauses();
        let slot = self.watches.watch(code, place);
        if trail.holds_code(slot.blocker) {
            return Visit::Stays;
        }
        if is_binary(slot) {
            let clause = self.watches.clause(slot);
            return settle(clauses, trail, clause, literal(slot.blocker));
        }
        self.visit_clause(clauses, trail, head, code, place, slot)
    }
}

impl Watched {
    /// Looks at the watches of the literal with this code, which the literal at `head` makes false.
    fn visit_all(
        &mut self,
        clauses: &ClauseList,
        trail: &mut Trail,
        head: usize,
        code: u32,
    ) -> Outcome
        requires vars { trail.old.vars ≡ clauses.now.vars }
        requires turning { Turning clauses.now.clauses self.old trail.old head (lit_of code) 0 }
        ensures extends { Extends clauses.now.clauses trail.old trail.new }
        ensures came { Came clauses.now.clauses self.new trail.new (head + 1) result }
    {
        // For the proof: the trail's literals are of its variables.
        let _path = trail.len();
        let mut place = 0;
        while place < self.watches.count(code) {
            match self.visit(clauses, trail, head, code, place) {
                Visit::Stays => place += 1,
                Visit::Goes => {}
                Visit::Stops(clause) => return Outcome::Conflict(clause),
                Visit::Wants => return Outcome::Full,
            }
        }
        Outcome::Quiet
    }

    /// Looks at the watches of the literal that the one at `head` makes false.
    fn falsify(&mut self, clauses: &ClauseList, trail: &mut Trail, head: usize) -> Outcome
        requires vars { trail.old.vars ≡ clauses.now.vars }
        requires propagating { Propagating clauses.now.clauses self.old trail.old head }
        requires inside { head < length trail.old.lits }
        ensures extends { Extends clauses.now.clauses trail.old trail.new }
        ensures came { Came clauses.now.clauses self.new trail.new (head + 1) result }
    {
        // For the proof: the trail's literals are of its variables.
        let _path = trail.len();
        let code = trail.lit(head).negated().code();
        if code > u64::from(u32::MAX) {
            return Outcome::Full;
        }
        self.visit_all(clauses, trail, head, code as u32)
    }

    /// Looks at the literals of the trail from `start` on, and at those that come.
    fn run(&mut self, clauses: &ClauseList, trail: &mut Trail, start: usize) -> Outcome
        requires vars { trail.old.vars ≡ clauses.now.vars }
        requires propagating { Propagating clauses.now.clauses self.old trail.old start }
        ensures extends { Extends clauses.now.clauses trail.old trail.new }
        ensures came { Came clauses.now.clauses self.new trail.new (length trail.new.lits) result }
    {
        let mut head = start;
        while head < trail.len() {
            match self.falsify(clauses, trail, head) {
                Outcome::Quiet => head += 1,
                Outcome::Conflict(clause) => return Outcome::Conflict(clause),
                Outcome::Full => return Outcome::Full,
            }
        }
        Outcome::Quiet
    }
}

/// The literal beside `lit` that was set last, where the clause has another one.
fn beside(trail: &Trail, clause: &[Lit], lit: Lit) -> Option<Lit>
    requires { All (IsWithin trail.now.vars) clause.now }
    ensures { MatchOption result (All (λ x. lit ≡ x) clause.now) (IsBeside clause.now lit) }
{
    let mut found: Option<Lit> = None;
    for other in clause {
        if *other != lit {
            found = Some(later_of(trail, found, *other));
        }
    }
    found
}

/// Of two literals the one that was set later.
fn later_of(trail: &Trail, found: Option<Lit>, lit: Lit) -> Lit
    requires found { IfSome found (IsWithin trail.now.vars) }
    requires within { IsWithin trail.now.vars lit }
    ensures { (result ≡ lit) ⊎ (found ≡ Some result) }
{
    match found {
        None => lit,
        Some(other) => {
            if trail.place(other) < trail.place(lit) {
                lit
            } else {
                other
            }
        }
    }
}

/// How many of the ends, from the first on, are at most `bound`.
fn ends_until(ends: &[usize], bound: usize) -> usize
    ensures { AllPairs (λ d e. d < e) ends.now → All (λ e. e ≤ bound) (take result ends.now) }
{
    let mut count = ends.len();
    while 0 < count && bound < ends[count - 1] {
        count -= 1;
    }
    count
}

/// Whether the clause has no other literals than these.
fn has_only(clause: &[Lit], first: Lit, second: Lit) -> bool
    ensures { IsTrue result → All (λ x. (second ≡ x) ⊎ (first ≡ x)) clause.now }
{
    for lit in clause {
        if *lit != second && *lit != first {
            return false;
        }
    }
    true
}

impl Watched {
    /// Another literal of the clause to watch beside the one that is true alone, or that one; ends at which the clause
    /// does not rest are dropped.
    fn second_of(&mut self, trail: &Trail, clause: &[Lit], first: Lit) -> Lit
        requires within { All (IsWithin trail.now.vars) clause.now }
        requires holds { has trail.now.lits first ≡ true }
        requires member { has clause.now first ≡ true }
        requires others { All (λ x. (first ≡ x) ⊎ (has trail.now.lits (neg_ℤ x) ≡ true)) clause.now }
        ensures member { has clause.now result ≡ true }
        ensures ended { AllPairs (λ d e. d < e) self.old.ends.items → All (λ e. e ≤ length trail.now.lits) self.old.ends.items → IsEnded self.new.ends.items trail.now.lits clause.now (record { first = first; second = result }) }
        ensures ends { IsFront self.old.ends.items self.new.ends.items }
        ensures watches { self.new.watches ≡ self.old.watches }
    {
        // For the proof: the trail's literals are of its variables and apart.
        let _path = trail.len();
        match beside(trail, clause, first) {
            Some(second) => {
                let count = ends_until(self.ends.as_slice(), trail.place(second));
                self.ends.truncate(count);
                second
            }
            None => {
                self.ends.truncate(0);
                first
            }
        }
    }

    /// Watches the next clause by these literals, where there is room, and answers whether there was.
    fn watch_both(&mut self, vars: u64, clause: &[Lit], first: Lit, second: Lit) -> bool
        requires within { All (IsWithin vars) clause.now }
        requires first { IsWithin vars first }
        requires second { IsWithin vars second }
        requires first_inside { code_of first < length self.old.watches.lists }
        requires second_inside { code_of second < length self.old.watches.lists }
        requires named { (l : ℤ) → l ≢ pos 0 → All (λ w. w.clause < length self.old.watches.pairs) (watches_of self.old.watches.lists l) }
        ensures watches { IsTrue result → IsAttached clause.now self.old.watches self.new.watches first second }
        ensures ends { self.new.ends ≡ self.old.ends }
    {
        // For the proof: there are as many pairs as texts and starts of watched clauses.
        let _count = self.watches.clauses();
        let binary = has_only(clause, first, second);
        self.watches.push(vars, clause, first, second, binary)
    }

    /// Where to begin: at the last end, or from nothing where there is none.
    fn begin(&mut self) -> usize
        ensures count { length self.new.watches.lists ≡ length self.old.watches.lists }
        ensures begins { (clauses : List (List ℤ)) (lits : List ℤ) → Fits self.old clauses lits → Begins clauses self.new lits result }
    {
        let len = self.ends.len();
        if 0 < len {
            return self.ends[len - 1];
        }
        self.watches.clear();
        0
    }

    /// Keeps this length of the trail, at which nothing is left to do.
    fn end(&mut self, length: usize)
        ensures ends { EndsMore self.old.ends.items self.new.ends.items length }
        ensures watches { self.new.watches ≡ self.old.watches }
    {
        let len = self.ends.len();
        if self.ends.capacity() <= len || (0 < len && length <= self.ends[len - 1]) {
            return;
        }
        self.ends.push_reserved(length);
    }
}

impl Watched {
    /// Watches the next clause by two literals that are not false.
    fn attach_open(
        &mut self,
        clauses: &ClauseList,
        trail: &Trail,
        head: usize,
        first: Lit,
        second: Lit,
    ) -> Outcome
        requires vars { trail.now.vars ≡ clauses.now.vars }
        requires propagating { Propagating clauses.now.clauses self.old trail.now head }
        requires more { length self.old.watches.pairs < length clauses.now.clauses }
        requires first { IsLeft trail.now.lits (clause_no clauses.now.clauses (length self.old.watches.pairs)) first }
        requires second { IsOther trail.now.lits (clause_no clauses.now.clauses (length self.old.watches.pairs)) first second }
        ensures came { Came clauses.now.clauses self.new trail.now head result }
        ensures next { IfQuiet result (length self.new.watches.pairs ≡ length self.old.watches.pairs + 1) }
    {
        // For the proof: the clauses' literals are of the list's variables.
        let _within = clauses.len();
        let place = self.watches.clauses();
        let clause = clauses.clause(place);
        if self.watch_both(clauses.vars(), clause, first, second) {
            Outcome::Quiet
        } else {
            Outcome::Full
        }
    }

    /// Watches the next clause, of whose literals all others than this one are false, and makes it true.
    fn attach_lone(
        &mut self,
        clauses: &ClauseList,
        trail: &mut Trail,
        head: usize,
        first: Lit,
    ) -> Outcome
        requires vars { trail.old.vars ≡ clauses.now.vars }
        requires propagating { Propagating clauses.now.clauses self.old trail.old head }
        requires more { length self.old.watches.pairs < length clauses.now.clauses }
        requires first { IsLeft trail.old.lits (clause_no clauses.now.clauses (length self.old.watches.pairs)) first }
        requires others { All (λ x. (first ≡ x) ⊎ (has trail.old.lits (neg_ℤ x) ≡ true)) (clause_no clauses.now.clauses (length self.old.watches.pairs)) }
        ensures extends { Extends clauses.now.clauses trail.old trail.new }
        ensures came { Came clauses.now.clauses self.new trail.new head result }
        ensures next { IfQuiet result (length self.new.watches.pairs ≡ length self.old.watches.pairs + 1) }
    {
        // For the proof: the clauses' literals are of the list's variables.
        let _within = clauses.len();
        let place = self.watches.clauses();
        if !imply(clauses, trail, place, first) {
            return Outcome::Conflict(place);
        }
        let clause = clauses.clause(place);
        let second = self.second_of(trail, clause, first);
        if self.watch_both(clauses.vars(), clause, first, second) {
            Outcome::Quiet
        } else {
            Outcome::Full
        }
    }

    /// Watches the next clause, by literals that are not false where it has two.
    fn attach(&mut self, clauses: &ClauseList, trail: &mut Trail, head: usize) -> Outcome
        requires vars { trail.old.vars ≡ clauses.now.vars }
        requires propagating { Propagating clauses.now.clauses self.old trail.old head }
        requires more { length self.old.watches.pairs < length clauses.now.clauses }
        ensures extends { Extends clauses.now.clauses trail.old trail.new }
        ensures came { Came clauses.now.clauses self.new trail.new head result }
        ensures next { IfQuiet result (length self.new.watches.pairs ≡ length self.old.watches.pairs + 1) }
    {
        // For the proof: the clauses' literals are of the list's variables.
        let _within = clauses.len();
        // For the proof: the trail's literals are of its variables and apart.
        let _path = trail.len();
        let place = self.watches.clauses();
        let clause = clauses.clause(place);
        let Some(first) = left_literal(trail, clause) else {
            return Outcome::Conflict(place);
        };
        if let Some(second) = other_left(trail, clause, first) {
            return self.attach_open(clauses, trail, head, first, second);
        }
        self.attach_lone(clauses, trail, head, first)
    }
}

impl Watched {
    /// Watches all clauses that came.
    fn attach_all(&mut self, clauses: &ClauseList, trail: &mut Trail, head: usize) -> Outcome
        requires vars { trail.old.vars ≡ clauses.now.vars }
        requires propagating { Propagating clauses.now.clauses self.old trail.old head }
        ensures extends { Extends clauses.now.clauses trail.old trail.new }
        ensures came { Came clauses.now.clauses self.new trail.new head result }
    {
        while self.watches.clauses() < clauses.len() {
            match self.attach(clauses, trail, head) {
                Outcome::Quiet => {}
                Outcome::Conflict(clause) => return Outcome::Conflict(clause),
                Outcome::Full => return Outcome::Full,
            }
        }
        Outcome::Quiet
    }

    /// Looks at the clauses that came, and then at the literals.
    fn settle_all(&mut self, clauses: &ClauseList, trail: &mut Trail, start: usize) -> Outcome
        requires vars { trail.old.vars ≡ clauses.now.vars }
        requires propagating { Propagating clauses.now.clauses self.old trail.old start }
        ensures extends { Extends clauses.now.clauses trail.old trail.new }
        ensures came { Came clauses.now.clauses self.new trail.new (length trail.new.lits) result }
    {
        match self.attach_all(clauses, trail, start) {
            Outcome::Quiet => self.run(clauses, trail, start),
            Outcome::Conflict(clause) => Outcome::Conflict(clause),
            Outcome::Full => Outcome::Full,
        }
    }

    /// Unit propagation, as long as there is room for watches.
    fn try_propagate(&mut self, clauses: &ClauseList, trail: &mut Trail) -> Outcome
        requires vars { trail.old.vars ≡ clauses.now.vars }
        requires seen { HasSeen (Fits self.old clauses.now.clauses) trail.old.lits }
        ensures extends { Extends clauses.now.clauses trail.old trail.new }
        ensures propagated { Propagated clauses.now.clauses self.new trail.new.lits result }
    {
        if (self.watches.len() as u64) / 2 < trail.vars() {
            return Outcome::Full;
        }
        let start = self.begin();
        match self.settle_all(clauses, trail, start) {
            Outcome::Quiet => {}
            Outcome::Conflict(clause) => return Outcome::Conflict(clause),
            Outcome::Full => return Outcome::Full,
        }
        if self.watches.clauses() < clauses.len() {
            return Outcome::Full;
        }
        self.end(trail.len());
        Outcome::Quiet
    }
}

impl Watched {
    /// Watches no clause.
    pub fn new(alloc: Global) -> Watched
        ensures { length result.ends.items ≡ 0 }
    {
        Watched {
            watches: Watches::new(alloc),
            ends: Vec::new(alloc),
            roomed: 0,
        }
    }

    /// Forgets what was seen, and keeps the room: the next propagation begins from nothing.
    pub fn restart(&mut self)
        ensures { length self.new.ends.items ≡ 0 }
    {
        self.ends.truncate(0);
    }

    /// Makes room for the watches of the clauses from a place of the list on, which come in before the learned ones. Where no
    /// clause has room yet, `added` makes it for all.
    pub fn expect(&mut self, list: &ClauseList, from: usize) -> Result<(), AllocError> {
        if self.roomed == 0 {
            return Ok(());
        }
        let vars = list.vars() as usize;
        self.watches.widen(2 * vars)?;
        self.watches.count_from(list, from);
        self.watches.reserve_from(list, from)?;
        let more = list.len().saturating_sub(from);
        self.roomed = self.roomed.saturating_add(more);
        Ok(())
    }

    /// Makes room for the watches of the clauses that came.
    fn make_room(&mut self, clauses: &ClauseList) -> Result<(), AllocError>
        ensures { HasRoom self.old self.new }
    {
        self.watches.count_from(clauses, self.roomed);
        self.watches.reserve_from(clauses, self.roomed)?;
        self.roomed = clauses.len();
        Ok(())
    }
}

impl Propagate for Watched {
    ghost use Rattle.hk_cdcl.specs.Watching.{Fits};

    ghost fits = { Fits };

    fn added(&mut self, clauses: &ClauseList) -> Result<(), AllocError> {
        let vars = clauses.vars() as usize;
        self.watches.widen(2 * vars)?;
        self.ends
            .reserve((vars + 1).saturating_sub(self.ends.len()))?;
        self.make_room(clauses)
    }

    fn cut(&mut self, length: u64) {
        let count = ends_until(self.ends.as_slice(), length as usize);
        self.ends.truncate(count);
    }

    fn propagate(&mut self, clauses: &ClauseList, trail: &mut Trail) -> Option<u64> {
        match self.try_propagate(clauses, trail) {
            Outcome::Quiet => None,
            Outcome::Conflict(clause) => Some(clause as u64),
            Outcome::Full => {
                self.ends.truncate(0);
                scan(clauses, trail)
            }
        }
    }
}
