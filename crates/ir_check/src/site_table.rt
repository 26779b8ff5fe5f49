//! The registers of a function by name, each with the place where it is set.

ghost use Rattle.std.specs.Prelude.{◌≡◌, ◌<◌, ◌^◌, ◌++◌, ◌∷◌, [], None, length, map, position, bytes_eq, slice_index_or, OnOk};
ghost use Rattle.std.specs.List.{IsDistinct};
ghost use Rattle.ir_ast.specs.Table.{names_of};

use crate::sites::Site;
use ir_ast::{Name, Table, TableFault};
use std::alloc::{AllocError, Global};
use std::marker::Model;

/// Registers whose names differ, fewer than 2^32; a parameter is set in no block.
#[derive(Drop)]
pub struct SiteTable {
    entries: Table<Option<Site>>,
    count: u32,
}

impl Model for SiteTable {
    ghost use Rattle.std.specs.Prelude.{◌≡◌, List, ℕ, Option, length};
    ghost use Rattle.ir_check.specs.declared.sites.Site.{Site};

    ghost Value = { List (List ℕ × Option Site) };

    ghost view = { λ t. t.entries };

    ghost invariant = { λ t. length t.entries ≡ t.count };
}

impl SiteTable {
    /// The table without registers.
    pub fn new(alloc: Global) -> SiteTable
        ensures { result ≡ [] }
    {
        SiteTable {
            entries: Table::new(alloc),
            count: 0,
        }
    }

    /// Adds a register. The names differ and there is room where it does.
    pub fn add(&mut self, alloc: Global, name: &Name, site: Option<Site>) -> Result<(), AllocError>
        ensures { OnOk result (self.new ≡ self.old ++ (name.now, site) ∷ []) }
    {
        let copy = name.copy(alloc)?;
        if self.count == u32::MAX {
            return Err(AllocError);
        }
        match self.entries.add(copy, site) {
            Ok(()) => {
                self.count += 1;
                Ok(())
            }
            Err(TableFault::Repeated) => Err(AllocError),
            Err(TableFault::Memory) => Err(AllocError),
        }
    }

    /// The place of a register.
    pub fn get(&self, name: &Name) -> Option<u32>
        ensures place { result ≡ position (bytes_eq name.now) (names_of self.now) }
    {
        // For the proof: there are as many registers as the count says, so fewer than 2^32.
        let _count = self.count;
        self.entries.get(name)
    }

    /// How many registers there are.
    pub fn len(&self) -> u32
        ensures count { result ≡ length self.now }
        ensures distinct { IsDistinct bytes_eq (names_of self.now) }
    {
        // For the proof: there are as many registers as the count says, so fewer than 2^32.
        let _count = self.count;
        self.entries.len()
    }

    /// Where the register at a place is set.
    pub fn at(&self, place: u32) -> Option<Site>
        requires { place < length self.now }
        ensures { result ≡ slice_index_or (map (λ e. e.1) self.now) place None }
    {
        *self.entries.at(place)
    }
}
