//! The registers of a frame.

ghost use Rattle.std.specs.Prelude.{◌≡◌, ℕ, Some, None, List, length, slice_set, IfOk};
ghost use Rattle.hk_term.specs.Meaning.{Reading};
ghost use Rattle.hk_term.specs.declared.node.Node.{Node};
ghost use Rattle.ir_machine.specs.Values.{held_at};
ghost use Rattle.hk_symstep.specs.Held.{place_meaning, IsPlace};
ghost use Rattle.hk_symstep.specs.Files.{place_at, IsFile, registers_of};

use crate::state::SymHeld;
use std::alloc::{AllocError, Global};
use std::marker::Model;

/// The registers of a frame by their places, on all paths at once: none is what is not set on any path.
#[derive(Drop)]
pub struct SymFile {
    places: Vec<Option<SymHeld>>,
}

impl Model for SymFile {
    ghost use Rattle.std.specs.Prelude.{Option, List};
    ghost use Rattle.hk_symstep.specs.declared.state.SymHeld.{SymHeld};

    ghost Value = { List (Option SymHeld) };

    ghost view = { λ f. f.places.items };
}

impl SymFile {
    /// So many registers, none of which is set.
    #[tactic(auto, using(crate::proofs::FileLaws::one_more_unset))]
    pub fn new(alloc: Global, registers: u32) -> Result<SymFile, AllocError>
        ensures size { IfOk result (λ f. length f ≡ registers) }
        ensures unset { IfOk result (λ f. (k : ℕ) → place_at f k ≡ None) }
        ensures within { IfOk result (λ f. (nodes : List Node) → IsFile nodes f) }
    {
        let mut places = Vec::new(alloc);
        for _ in 0..registers {
            places.push(None)?;
        }
        Ok(SymFile { places })
    }

    /// The registers of a vector's elements. It takes no memory.
    pub fn from_vec(places: Vec<Option<SymHeld>>) -> SymFile
        ensures { result ≡ places.items }
    {
        SymFile { places }
    }

    /// What the register at a place holds.
    #[tactic(auto, using(crate::proofs::FileLaws::shown_at))]
    pub fn held(&self, place: u32) -> Option<SymHeld>
        ensures held { result ≡ place_at self.now place }
        ensures within { (nodes : List Node) → IsFile nodes self.now → IsPlace nodes result }
        ensures meaning { (nodes : List Node) (v : Reading) → place_meaning nodes v result ≡ held_at (registers_of nodes v self.now) place }
    {
        match self.places.as_slice().get(place as usize) {
            Some(held) => *held,
            None => None,
        }
    }

    /// The registers with something at a place; without the place they are as before.
    pub(crate) fn put(&mut self, place: u32, held: SymHeld)
        ensures { self.new ≡ slice_set self.old place (Some held) }
    {
        if (place as usize) < self.places.len() {
            self.places[place as usize] = Some(held);
        }
    }
}
