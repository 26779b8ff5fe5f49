//! Records of clauses: all that a look at a clause reads stands side by side in one row of words.
//!
//! A record has a head of five words (the codes of both watched literals, the place in the clause where the last search for
//! a literal that is not false ended, the number of literals, the place of the clause in its list), and then the codes of
//! its literals.

ghost use Rattle.std.specs.Prelude.{◌≡◌, ◌⊎◌, ◌≢◌, ◌+◌, ◌-◌, ◌*◌, ◌%◌, ◌/◌, ◌^◌, ◌<◌, ◌≤◌, ◌++◌, ◌∷◌, [], true, false, map, length, slice_set, slice_index_or, neg_ℤ, vec_len, vec_capacity, IfSome, IfNone, IsTrue, IsFalse, MatchOption};
ghost use Rattle.std.specs.List.{All};
ghost use Rattle.hk_cnf.specs.Literal.{IsWithin, code_of, has};
ghost use Rattle.hk_cdcl.specs.Packing.{word, pair_of, codes_of};
ghost use Rattle.hk_cdcl.specs.Path.{lit_at};
ghost use Rattle.hk_cdcl.specs.Records.{lit_of, pair_at, text_at, place_in};
ghost use Rattle.hk_cdcl.specs.Looking.{AreFalseBetween, IsLeftAt, IsOther, IsOtherOf};

use crate::trail::Trail;
use hk_cnf::{ClauseList, Lit};
use std::alloc::{AllocError, Global};
use std::marker::Model;

/// The literal with this code.
pub fn literal(code: u32) -> Lit
    ensures { result ≡ lit_of code }
{
    let lit = Lit::of_place(u64::from(code / 2));
    if code % 2 == 0 { lit } else { lit.negated() }
}

/// The word at a place.
fn word_at(words: &[u32], place: usize) -> u32
    requires { place < length words.now }
    ensures { result ≡ word words.now place }
{
    words[place]
}

/// Writes the word at a place.
fn write_word(words: &mut Vec<u32>, place: usize, word: u32)
    requires { place < length words.old.items }
    ensures { words.new.items ≡ slice_set words.old.items place word }
{
    words[place] = word;
}

/// The place where a search goes on, or the front where it is too far behind.
fn resume_at(place: usize) -> u32
    ensures { result ≤ place }
{
    if place >= LIMIT { 0 } else { place as u32 }
}

/// Whether another literal than `other` is not false.
fn is_left(trail: &Trail, other: u32, code: u32) -> bool
    requires { IsWithin trail.now.vars (lit_of code) }
    ensures left { IsTrue result → has trail.now.lits (neg_ℤ (lit_of code)) ≡ false }
    ensures apart { IsTrue result → lit_of other ≢ lit_of code }
    ensures none { IsFalse result → (lit_of other ≡ lit_of code) ⊎ (has trail.now.lits (neg_ℤ (lit_of code)) ≡ true) }
{
    if code == other {
        return false;
    }
    !trail.is_false(code)
}

/// The first place between two in the clause whose literal is neither `other` nor false.
fn left_between(trail: &Trail, codes: &[u32], other: u32, from: usize, to: usize) -> Option<usize>
    requires within { All (IsWithin trail.now.vars) (map lit_of codes.now) }
    requires inside { to ≤ length codes.now }
    ensures { MatchOption result (AreFalseBetween trail.now.lits (map lit_of codes.now) (lit_of other) from to) (IsLeftAt trail.now.lits (map lit_of codes.now) (lit_of other)) }
{
    for place in from..to {
        if is_left(trail, other, word_at(codes, place)) {
            return Some(place);
        }
    }
    None
}

/// The same before a place from which on there is none.
fn left_before(trail: &Trail, codes: &[u32], other: u32, start: usize) -> Option<usize>
    requires within { All (IsWithin trail.now.vars) (map lit_of codes.now) }
    requires inside { start ≤ length codes.now }
    requires none { AreFalseBetween trail.now.lits (map lit_of codes.now) (lit_of other) start (length codes.now) }
    ensures { MatchOption result (All (λ x. (lit_of other ≡ x) ⊎ (has trail.now.lits (neg_ℤ x) ≡ true)) (map lit_of codes.now)) (IsLeftAt trail.now.lits (map lit_of codes.now) (lit_of other)) }
{
    left_between(trail, codes, other, 0, start)
}

/// A place in the clause whose literal is neither `other` nor false: the first one from `start` on, or else from the front on.
fn left_from(trail: &Trail, codes: &[u32], other: u32, start: usize) -> Option<usize>
    requires within { All (IsWithin trail.now.vars) (map lit_of codes.now) }
    requires inside { start ≤ length codes.now }
    ensures { MatchOption result (All (λ x. (lit_of other ≡ x) ⊎ (has trail.now.lits (neg_ℤ x) ≡ true)) (map lit_of codes.now)) (IsLeftAt trail.now.lits (map lit_of codes.now) (lit_of other)) }
{
    match left_between(trail, codes, other, start, codes.len()) {
        Some(place) => Some(place),
        None => left_before(trail, codes, other, start),
    }
}

/// The other one of a record's two watched literals, where they differ.
fn other_in(words: &[u32], start: usize, code: u32) -> Option<u32>
    requires { start + 1 < length words.now }
    ensures { IfSome result (λ o. IsOtherOf (pair_of words.now start) (lit_of code) (lit_of o)) }
{
    let first = word_at(words, start);
    let second = word_at(words, start + 1);
    if first == code && second != code {
        return Some(second);
    }
    if second == code && first != code {
        return Some(first);
    }
    None
}

/// The codes of a record's literals.
fn codes_in(words: &[u32], start: usize) -> &[u32]
    requires { start + 5 + word words.now (start + 3) ≤ length words.now }
    ensures { result.now ≡ codes_of words.now start }
{
    let len = word_at(words, start + 3) as usize;
    &words[start + 5..start + 5 + len]
}

/// From so many words on there is no room for a record, and from so many records on none for one more.
const LIMIT: usize = 2_147_483_648;

/// Literals of more variables have no code of 32 bits.
const MOST: u64 = 2_147_483_648;

/// Whether there is room for the record of one clause more, of so many literals.
fn has_room(words: &Vec<u32>, starts: &Vec<u32>, len: usize) -> bool
    ensures words { IsTrue result → vec_len words.now + (len + 5) ≤ vec_capacity words.now }
    ensures starts { IsTrue result → vec_len starts.now < vec_capacity starts.now }
    ensures low { IsTrue result → vec_len words.now < 2 ^ 31 }
    ensures few { IsTrue result → vec_len starts.now < 2 ^ 31 }
    ensures short { IsTrue result → len < 2 ^ 31 }
{
    if words.len() >= LIMIT || starts.len() >= LIMIT || len >= LIMIT {
        return false;
    }
    starts.len() < starts.capacity() && words.len() + (len + 5) <= words.capacity()
}

/// Adds the head of a record.
fn push_head(words: &mut Vec<u32>, first: u32, second: u32, len: u32, clause: u32)
    requires { vec_len words.old + 5 ≤ vec_capacity words.old }
    ensures items { words.new.items ≡ words.old.items ++ (first ∷ second ∷ 0 ∷ len ∷ clause ∷ []) }
    ensures capacity { vec_capacity words.new ≡ vec_capacity words.old }
{
    words.push_reserved(first);
    words.push_reserved(second);
    words.push_reserved(0);
    words.push_reserved(len);
    words.push_reserved(clause);
}

/// Adds the codes of literals.
fn push_codes(words: &mut Vec<u32>, lits: &[Lit])
    requires few { All (λ l. code_of l < 2 ^ 32) lits.now }
    requires room { vec_len words.old + length lits.now ≤ vec_capacity words.old }
    ensures { words.new.items ≡ words.old.items ++ map code_of lits.now }
{
    for lit in lits {
        words.push_reserved(lit.code() as u32);
    }
}

/// For each clause that is watched its record; and the numbers of clauses and of literals for which there is to be room.
#[derive(Drop)]
pub struct Records {
    words: Vec<u32>,
    starts: Vec<u32>,
    count: usize,
    literals: usize,
}

impl Model for Records {
    ghost use Rattle.hk_cdcl.specs.Records.{Recorded};
    ghost use Rattle.hk_cdcl.specs.Packing.{view_of, IsPacked};

    ghost Value = { Recorded };

    ghost view = { view_of };

    ghost invariant = { IsPacked };
}

impl Records {
    /// No record.
    pub fn new(alloc: Global) -> Records
        ensures { result ≡ record { starts = []; pairs = []; texts = [] } }
    {
        Records {
            words: Vec::new(alloc),
            starts: Vec::new(alloc),
            count: 0,
            literals: 0,
        }
    }

    /// The number of records.
    pub fn len(&self) -> usize
        ensures value { result ≡ length self.now.starts }
        ensures pairs { length self.now.pairs ≡ length self.now.starts }
        ensures texts { length self.now.texts ≡ length self.now.starts }
    {
        self.starts.len()
    }

    /// Removes all records, and keeps the room.
    pub fn clear(&mut self)
        ensures { self.new ≡ record { starts = []; pairs = []; texts = [] } }
    {
        self.starts.truncate(0);
        self.words.truncate(0);
    }

    /// Counts a clause of so many literals more.
    fn count(&mut self, len: usize)
        ensures { self.new ≡ self.old }
    {
        self.count = self.count.saturating_add(1);
        self.literals = self.literals.saturating_add(len);
    }

    /// Counts the clauses from a place on.
    pub fn count_from(&mut self, clauses: &ClauseList, from: usize)
        ensures { self.new ≡ self.old }
    {
        for place in from..clauses.len() {
            self.count(clauses.clause(place).len());
        }
    }

    /// Makes room for all clauses that were counted.
    pub fn reserve(&mut self) -> Result<(), AllocError>
        ensures { self.new ≡ self.old }
    {
        let words = self.count.saturating_mul(5).saturating_add(self.literals);
        self.starts
            .reserve(self.count.saturating_sub(self.starts.len()))?;
        self.words.reserve(words.saturating_sub(self.words.len()))?;
        Ok(())
    }

    /// The other watched literal of the clause, where both differ.
    pub fn other(&self, start: u32, code: u32) -> Option<u32>
        requires { place_in self.now.starts start < length self.now.starts }
        ensures { IfSome result (λ o. IsOtherOf (pair_at self.now.pairs (place_in self.now.starts start)) (lit_of code) (lit_of o)) }
    {
        other_in(self.words.as_slice(), start as usize, code)
    }

    /// The place of the clause in its list.
    pub fn clause(&self, start: u32) -> usize
        requires { place_in self.now.starts start < length self.now.starts }
        ensures { result ≡ place_in self.now.starts start }
    {
        word_at(self.words.as_slice(), start as usize + 4) as usize
    }

    /// A literal of the clause that is neither `other` nor false: the first one from the place on at which the last search
    /// ended, or else from the front on.
    fn found(&self, trail: &Trail, start: u32, other: u32) -> Option<usize>
        requires start { place_in self.now.starts start < length self.now.starts }
        requires within { All (IsWithin trail.now.vars) (text_at self.now.texts (place_in self.now.starts start)) }
        ensures { MatchOption result (All (λ x. (lit_of other ≡ x) ⊎ (has trail.now.lits (neg_ℤ x) ≡ true)) (text_at self.now.texts (place_in self.now.starts start))) (IsLeftAt trail.now.lits (text_at self.now.texts (place_in self.now.starts start)) (lit_of other)) }
    {
        let words = self.words.as_slice();
        let resume = word_at(words, start as usize + 2) as usize;
        left_from(trail, codes_in(words, start as usize), other, resume)
    }

    /// The code of the literal at a place of the clause.
    fn code(&self, start: u32, at: usize) -> u32
        requires start { place_in self.now.starts start < length self.now.starts }
        requires inside { at < length (text_at self.now.texts (place_in self.now.starts start)) }
        ensures { lit_of result ≡ lit_at (text_at self.now.texts (place_in self.now.starts start)) at }
    {
        let codes = codes_in(self.words.as_slice(), start as usize);
        word_at(codes, at)
    }

    /// Keeps the place in the clause at which a search ended.
    fn resume(&mut self, start: u32, at: usize)
        requires start { place_in self.old.starts start < length self.old.starts }
        requires inside { at < length (text_at self.old.texts (place_in self.old.starts start)) }
        ensures { self.new ≡ self.old }
    {
        write_word(&mut self.words, start as usize + 2, resume_at(at));
    }

    /// A literal of the clause that is neither `other` nor false.
    pub fn left(&mut self, trail: &Trail, start: u32, other: u32) -> Option<u32>
        requires start { place_in self.old.starts start < length self.old.starts }
        requires within { All (IsWithin trail.now.vars) (text_at self.old.texts (place_in self.old.starts start)) }
        ensures same { self.new ≡ self.old }
        ensures left { MatchOption result (All (λ x. (lit_of other ≡ x) ⊎ (has trail.now.lits (neg_ℤ x) ≡ true)) (text_at self.old.texts (place_in self.old.starts start))) (λ next. IsOther trail.now.lits (text_at self.old.texts (place_in self.old.starts start)) (lit_of other) (lit_of next)) }
    {
        match self.found(trail, start, other) {
            Some(at) => {
                let next = self.code(start, at);
                self.resume(start, at);
                Some(next)
            }
            None => None,
        }
    }

    /// Watches the clause by these literals.
    pub fn watch(&mut self, start: u32, first: u32, second: u32)
        requires { place_in self.old.starts start < length self.old.starts }
        ensures { self.new ≡ record self.old { pairs = slice_set self.old.pairs (place_in self.old.starts start) (record { first = lit_of first; second = lit_of second }) } }
    {
        write_word(&mut self.words, start as usize, first);
        write_word(&mut self.words, start as usize + 1, second);
    }

    /// Adds the record of the next clause where there is room, and gives its start.
    pub fn push(&mut self, vars: u64, lits: &[Lit], first: Lit, second: Lit) -> Option<u32>
        requires within { All (IsWithin vars) lits.now }
        requires first { IsWithin vars first }
        requires second { IsWithin vars second }
        ensures none { IfNone result (self.new ≡ self.old) }
        ensures few { IfSome result (λ _. length self.old.starts < 2 ^ 31) }
        ensures codes { IfSome result (λ _. vars ≤ 2 ^ 31) }
        ensures low { IfSome result (λ start. start < 2 ^ 31) }
        ensures fresh { IfSome result (λ start. All (λ s. s < start) self.old.starts) }
        ensures added { IfSome result (λ start. self.new ≡ record { starts = self.old.starts ++ start ∷ []; pairs = self.old.pairs ++ (record { first = first; second = second }) ∷ []; texts = self.old.texts ++ lits.now ∷ [] }) }
    {
        let start = self.words.len();
        let count = self.starts.len();
        if vars > MOST || !has_room(&self.words, &self.starts, lits.len()) {
            return None;
        }
        let one = first.code() as u32;
        let two = second.code() as u32;
        push_head(&mut self.words, one, two, lits.len() as u32, count as u32);
        push_codes(&mut self.words, lits);
        self.starts.push_reserved(start as u32);
        Some(start as u32)
    }
}
