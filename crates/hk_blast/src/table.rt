//! The words of the terms that were blasted.

ghost use Rattle.std.specs.Prelude.{◌≡◌, ℕ, ℤ, Bool, List, ◌≤◌, ◌<◌, ◌++◌, ◌∷◌, [], nat_eq, length, take, slice_get, option_map, Some, OnOk, OnErr, IfSome, All};
ghost use Rattle.std.specs.Map.{lookup};
ghost use Rattle.hk_cnf.specs.Literal.{IsWithin, place_of};
ghost use Rattle.hk_cnf.specs.Circuit.{Circuit, gate_value};
ghost use Rattle.hk_term.specs.Shape.{width};
ghost use Rattle.hk_term.specs.declared.node.Node.{Node};
ghost use Rattle.hk_blast.specs.Blasted.{Words, word_in, HasWord, IsMissing, AreBlasted, Lengthens};

use hk_cnf::Lit;
use hk_term::TermId;
use indexmap::IndexMap;
use std::alloc::{AllocError, Global};
use std::marker::Model;

// Literals, least bit first.
#[derive(Drop)]
struct Bits {
    items: Vec<Lit>,
}

impl Model for Bits {
    ghost use Rattle.std.specs.Prelude.{ℤ, List};

    ghost Value = { List ℤ };

    ghost view = { λ b. b.items.items };
}

/// The literals of each term that was blasted, least bit first. A contract sees the terms with their literals, in the order
/// in which they were blasted.
#[derive(Drop)]
pub struct BitTable {
    words: IndexMap<TermId, Bits>,
    alloc: Global,
}

impl Model for BitTable {
    ghost use Rattle.std.specs.Prelude.{ℕ, ℤ, List};

    ghost Value = { List (ℕ × List ℤ) };

    ghost view = { λ b. b.words.entries };
}

impl BitTable {
    /// No term. It takes no memory.
    pub fn new(alloc: Global) -> BitTable
        ensures { result ≡ [] }
    {
        BitTable {
            words: IndexMap::new(alloc),
            alloc,
        }
    }

    /// How many terms were blasted.
    pub fn len(&self) -> u64
        ensures { result ≡ length self.now }
    {
        self.words.len() as u64
    }

    /// Keeps the terms that were blasted first, so many. It takes no memory. What is said of the table holds of what is
    /// kept, also over gates that are cut so that the kept words are within them. Where the table had this length before
    /// entries were added, it is as it was.
    pub fn cut(&mut self, len: u64)
        requires { len ≤ length self.old }
        ensures prefix { self.new ≡ take len self.old }
        ensures keeps { (nodes : List Node) (c : Circuit) → AreBlasted nodes c self.old → AreBlasted nodes c self.new }
        ensures keeps_over { (nodes : List Node) (c d : Circuit) → AreBlasted nodes c self.old → All (λ e. All (IsWithin d.vars) e.1) self.new → ((l : ℤ) → place_of l < d.vars → (v : ℕ → Bool) → gate_value d l v ≡ gate_value c l v) → AreBlasted nodes d self.new }
        ensures back { (nodes : List Node) (first : ℕ) (before : Words) → Lengthens nodes first before self.old → len ≡ length before → self.new ≡ before }
    {
        self.words.truncate(len as usize);
    }

    /// The term that was blasted at this place, counted from 0 in the order of blasting.
    pub fn at(&self, i: u64) -> TermId
        requires { i < length self.now }
        ensures term { option_map (λ e. e.0) (slice_get self.now i) ≡ Some result }
        ensures entry { slice_get self.now i ≡ Some (result, word_in self.now result) }
        ensures there { HasWord self.now result }
    {
        match self.words.get_index(i as usize) {
            Some((t, _)) => *t,
            None => unreachable!(),
        }
    }

    /// The literals of the term that was blasted at this place, least bit first.
    pub fn word_at(&self, i: u64) -> &[Lit]
        requires { i < length self.now }
        ensures word { option_map (λ e. e.1) (slice_get self.now i) ≡ Some result.now }
        ensures within { (nodes : List Node) (c : Circuit) → AreBlasted nodes c self.now → All (IsWithin c.vars) result.now }
    {
        match self.words.get_index(i as usize) {
            Some((_, bits)) => bits.items.as_slice(),
            None => unreachable!(),
        }
    }

    /// The literals of a term, least bit first; none where it was not blasted.
    pub fn get(&self, t: TermId) -> Option<&[Lit]>
        ensures word { option_map (λ w. w.now) result ≡ lookup (nat_eq t) self.now }
        ensures size { (nodes : List Node) (c : Circuit) → AreBlasted nodes c self.now → IfSome result (λ w. length w.now ≡ width nodes t) }
        ensures within { (nodes : List Node) (c : Circuit) → AreBlasted nodes c self.now → IfSome result (λ w. All (IsWithin c.vars) w.now) }
    {
        match self.words.get(&t) {
            Some(bits) => Some(bits.items.as_slice()),
            None => None,
        }
    }

    // The literals of a term, and no literal where it was not blasted.
    pub(crate) fn word(&self, t: TermId) -> &[Lit]
        ensures { result.now ≡ word_in self.now t }
    {
        match self.get(t) {
            Some(word) => word,
            None => &[],
        }
    }

    // Puts a term with its literals behind the others.
    pub(crate) fn enter(&mut self, t: TermId, word: Vec<Lit>) -> Result<(), AllocError>
        requires { IsMissing self.old t }
        ensures ok { OnOk result (self.new ≡ self.old ++ (t, word.items) ∷ []) }
        ensures err { OnErr result (self.new ≡ self.old) }
    {
        self.words.insert(t, Bits { items: word })?;
        Ok(())
    }

    // Where memory comes from.
    pub(crate) fn allocator(&self) -> Global {
        self.alloc
    }
}
