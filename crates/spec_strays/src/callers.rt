//! For each function of a kernel, by its place, the functions that call it.

ghost use Rattle.std.specs.Prelude.{◌≡◌, ◌<◌, ◌++◌, ◌∷◌, [], length, replicate, slice_index_or, IfOk, OnOk};
ghost use Rattle.spec_strays.specs.Callers.{with_caller};

use std::alloc::{AllocError, Global};
use std::marker::Model;

/// The functions that call one, by their places.
#[derive(Drop)]
struct CallerList {
    places: Vec<u32>,
}

impl Model for CallerList {
    ghost use Rattle.std.specs.Prelude.{List, ℕ};

    ghost Value = { List ℕ };

    ghost view = { λ l. l.places.items };
}

impl CallerList {
    /// No function.
    fn new(alloc: Global) -> CallerList
        ensures { result ≡ [] }
    {
        CallerList {
            places: Vec::new(alloc),
        }
    }

    /// The places.
    fn as_slice(&self) -> &[u32]
        ensures { result.now ≡ self.now }
    {
        self.places.as_slice()
    }

    /// Adds one more.
    fn push(&mut self, place: u32) -> Result<(), AllocError>
        ensures { OnOk result (self.new ≡ self.old ++ place ∷ []) }
    {
        self.places.push(place)?;
        Ok(())
    }
}

/// For each function, by its place, those that call it, once for each call.
#[derive(Drop)]
pub struct Callers {
    lists: Vec<CallerList>,
}

impl Model for Callers {
    ghost use Rattle.std.specs.Prelude.{List, ℕ};

    ghost Value = { List (List ℕ) };

    ghost view = { λ c. c.lists.items };
}

impl Callers {
    /// No caller of so many functions.
    pub fn none(alloc: Global, functions: u32) -> Result<Callers, AllocError>
        ensures { IfOk result (λ callers. callers ≡ replicate functions []) }
    {
        let mut lists = Vec::new(alloc);
        lists.reserve(functions as usize)?;
        for place in 0..functions {
            lists.push(CallerList::new(alloc))?;
        }
        Ok(Callers { lists })
    }

    /// How many functions there are.
    pub fn len(&self) -> usize
        ensures { result ≡ length self.now }
    {
        self.lists.len()
    }

    /// The functions that call the one at a place.
    pub fn of(&self, place: u32) -> &[u32]
        requires { place < length self.now }
        ensures { result.now ≡ slice_index_or self.now place [] }
    {
        self.lists[place as usize].as_slice()
    }

    /// Adds a caller of the function at a place.
    pub fn add(&mut self, place: u32, caller: u32) -> Result<(), AllocError>
        requires { place < length self.old }
        ensures { OnOk result (self.new ≡ with_caller self.old place caller) }
    {
        self.lists[place as usize].push(caller)?;
        Ok(())
    }
}
