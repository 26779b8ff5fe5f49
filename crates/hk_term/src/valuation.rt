//! Valuations: numbers for variables and for the places of arrays, in finite maps. What has no entry is 0.

ghost use Rattle.std.specs.Prelude.{◌≡◌, ℕ, ◌&&◌, [], nat_eq, if◌then◌else◌, OnOk, OnErr};
ghost use Rattle.hk_term.specs.Tables.{number_at, entry_at};

use indexmap::IndexMap;
use std::alloc::{AllocError, Global};
use std::marker::Model;

/// Numbers by id.
#[derive(Drop)]
pub struct NumberTable {
    numbers: IndexMap<u32, u64>,
}

impl Model for NumberTable {
    ghost use Rattle.std.specs.Prelude.{List, ℕ};

    ghost Value = { List (ℕ × ℕ) };

    ghost view = { λ t. t.numbers.entries };
}

impl NumberTable {
    /// Each id with the number 0. It takes no memory.
    pub fn new(alloc: Global) -> NumberTable
        ensures { result ≡ [] }
    {
        NumberTable {
            numbers: IndexMap::new(alloc),
        }
    }

    /// The number of an id.
    pub fn get(&self, id: u32) -> u64
        ensures { result ≡ number_at self.now id }
    {
        self.numbers.get(&id).copied().unwrap_or(0)
    }

    /// Gives an id a number. After want of memory the table is as before.
    pub fn set(&mut self, id: u32, number: u64) -> Result<(), AllocError>
        ensures ok { OnOk result ((k : ℕ) → number_at self.new k ≡ (if nat_eq k id then number else number_at self.old k)) }
        ensures err { OnErr result (self.new ≡ self.old) }
    {
        self.numbers.insert(id, number)?;
        Ok(())
    }
}

/// A place of an array.
#[derive(Clone, Copy, Debug, PartialEq, Eq, Hash)]
pub struct Place {
    pub array: u32,
    pub index: u64,
}

/// Numbers by array and index.
#[derive(Drop)]
pub struct ArrayTable {
    entries: IndexMap<Place, u64>,
}

impl Model for ArrayTable {
    ghost use Rattle.std.specs.Prelude.{List, ℕ};
    ghost use Rattle.hk_term.specs.declared.valuation.Place.{Place};

    ghost Value = { List (Place × ℕ) };

    ghost view = { λ t. t.entries.entries };
}

impl ArrayTable {
    /// Each entry 0. It takes no memory.
    pub fn new(alloc: Global) -> ArrayTable
        ensures { result ≡ [] }
    {
        ArrayTable {
            entries: IndexMap::new(alloc),
        }
    }

    /// The entry of an array at an index.
    pub fn get(&self, array: u32, index: u64) -> u64
        ensures { result ≡ entry_at self.now array index }
    {
        self.entries
            .get(&Place { array, index })
            .copied()
            .unwrap_or(0)
    }

    /// Gives an entry its number. After want of memory the table is as before.
    pub fn set(&mut self, array: u32, index: u64, number: u64) -> Result<(), AllocError>
        ensures ok { OnOk result ((k i : ℕ) → entry_at self.new k i ≡ (if nat_eq k array && nat_eq i index then number else entry_at self.old k i)) }
        ensures err { OnErr result (self.new ≡ self.old) }
    {
        self.entries.insert(Place { array, index }, number)?;
        Ok(())
    }
}

/// A valuation: numbers for the variables by their ids, and for the entries of the arrays. A node reads them modulo 2 to
/// its width.
#[derive(Drop)]
pub struct Valuation {
    pub vars: NumberTable,
    pub arrays: ArrayTable,
}

impl Valuation {
    /// Each variable and each entry 0. It takes no memory.
    pub fn new(alloc: Global) -> Valuation
        ensures vars { result.vars ≡ [] }
        ensures arrays { result.arrays ≡ [] }
    {
        Valuation {
            vars: NumberTable::new(alloc),
            arrays: ArrayTable::new(alloc),
        }
    }
}
