//! The variables that quantifiers bind.

ghost use Rattle.std.specs.Prelude.{◌≡◌, ◌++◌, ◌∷◌, ◌<◌, ◌^◌, [], not, is_some, IfOk, IfSome, bytes_eq, position, length, take, if◌then◌else◌};
ghost use Rattle.std.specs.List.{list_any};
ghost use Rattle.spec_scope.specs.Scope.{is_among};

use indexmap::IndexSet;
use std::alloc::{AllocError, Global};
use std::marker::Model;

/// Distinct names, seen by contracts as the list of them, the outermost first. Looking a name up takes constant time.
#[derive(Drop)]
pub struct BoundNames<'e> {
    set: IndexSet<&'e [u8]>,
}

impl<'e> Model for BoundNames<'e> {
    ghost use Rattle.std.specs.Prelude.{List, ℕ, ◌<◌, ◌^◌, length};
    ghost use Rattle.spec_scope.specs.Words.{words};

    ghost Value = { List (List ℕ) };

    ghost view = { λ n. words n.set.keys };

    ghost invariant = { λ n. length n.set.keys < 2 ^ 32 };
}

/// Where a name stands among names.
fn index_of(names: &IndexSet<&[u8]>, name: &[u8]) -> Option<usize>
    ensures value { result ≡ position (λ n. bytes_eq name.now n.now) names.now.keys }
    ensures among { is_some result ≡ list_any (λ n. bytes_eq name.now n.now) names.now.keys }
    ensures within { IfSome result (λ place. place < length names.now.keys) }
{
    names.get_index_of(&name)
}

impl<'e> BoundNames<'e> {
    /// No names. It takes no memory.
    pub fn new(alloc: Global) -> BoundNames<'e>
        ensures { result ≡ [] }
    {
        BoundNames {
            set: IndexSet::new(alloc),
        }
    }

    /// How many names there are.
    #[tactic(auto, using(crate::proofs::Tables::length_words))]
    pub fn count(&self) -> u32
        ensures { result ≡ length self.now }
    {
        self.set.len() as u32
    }

    /// The place of a name.
    #[tactic(auto, using(crate::proofs::Tables::place_words, crate::proofs::Tables::among_words))]
    pub fn place(&self, name: &[u8]) -> Option<u32>
        ensures value { result ≡ position (bytes_eq name.now) self.now }
        ensures among { is_some result ≡ is_among name.now self.now }
    {
        match index_of(&self.set, name) {
            Some(place) => Some(place as u32),
            None => None,
        }
    }

    /// Puts a name behind the others, unless it is there, and says whether it was new. A set of 2^32 - 1 names has no room.
    #[tactic(auto, using(crate::proofs::Tables::among_words, crate::proofs::Tables::words_push))]
    pub fn add(&mut self, name: &'e [u8]) -> Result<bool, AllocError>
        ensures told { IfOk result (λ fresh. fresh ≡ not (is_among name.now self.old)) }
        ensures after { IfOk result (λ fresh. self.new ≡ (if fresh then self.old ++ name.now ∷ [] else self.old)) }
    {
        if index_of(&self.set, name).is_some() {
            return Ok(false);
        }
        if self.set.len() >= u32::MAX as usize {
            return Err(AllocError);
        }
        self.set.insert(name)?;
        Ok(true)
    }

    /// Takes all but the first names away.
    #[tactic(auto, using(crate::proofs::Tables::words_take))]
    pub fn cut(&mut self, count: u32)
        ensures { self.new ≡ take count self.old }
    {
        self.set.truncate(count as usize);
    }
}
