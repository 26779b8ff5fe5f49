//! Names by their places.

ghost use Rattle.std.specs.Prelude.{◌≡◌, ◌<◌, ◌^◌, ◌++◌, ◌∷◌, [], length, map, position, bytes_eq, OnOk, IfOk};
ghost use Rattle.std.specs.List.{IsDistinct};

use ir_ast::{Block, Name, Table, TableFault};
use std::alloc::{AllocError, Global};
use std::marker::Model;

/// Names that differ, each found by its place.
#[derive(Drop)]
pub struct NameIndex {
    names: Table<()>,
}

impl Model for NameIndex {
    ghost use Rattle.std.specs.Prelude.{List, ℕ};
    ghost use Rattle.ir_ast.specs.Table.{names_of};

    ghost Value = { List (List ℕ) };

    ghost view = { λ n. names_of n.names };
}

impl NameIndex {
    /// The index without names.
    pub fn new(alloc: Global) -> NameIndex
        ensures { result ≡ [] }
    {
        NameIndex {
            names: Table::new(alloc),
        }
    }

    /// Adds a name behind the others.
    pub fn add(&mut self, alloc: Global, name: &Name) -> Result<(), AllocError>
        ensures { OnOk result (self.new ≡ self.old ++ name.now ∷ []) }
    {
        let copy = name.copy(alloc)?;
        match self.names.add(copy, ()) {
            Ok(()) => Ok(()),
            Err(TableFault::Repeated) => Err(AllocError),
            Err(TableFault::Memory) => Err(AllocError),
        }
    }

    /// How many names there are.
    pub fn len(&self) -> u32
        requires { length self.now < 2 ^ 32 }
        ensures count { result ≡ length self.now }
        ensures distinct { IsDistinct bytes_eq self.now }
    {
        self.names.len()
    }

    /// The place of a name.
    pub fn place(&self, name: &Name) -> Option<u32>
        requires { length self.now < 2 ^ 32 }
        ensures place { result ≡ position (bytes_eq name.now) self.now }
        ensures distinct { IsDistinct bytes_eq self.now }
    {
        self.names.get(name)
    }
}

/// The index of the names of blocks.
pub fn index_blocks(alloc: Global, blocks: &[Block]) -> Result<NameIndex, AllocError>
    ensures { IfOk result (λ index. index ≡ map (λ b. b.name) blocks.now) }
{
    let mut index = NameIndex::new(alloc);
    for block in blocks {
        index.add(alloc, &block.name)?;
    }
    Ok(index)
}
