//! Places by name: where a name stands twice, the first place counts.

ghost use Rattle.std.specs.Prelude.{◌≡◌, ◌<◌, ◌≤◌, ◌+◌, ◌^◌, length, map, OnOk, IfOk};
ghost use Rattle.ir_ast.specs.ProgramView.{view_blocks, view_block};
ghost use Rattle.ir_type.specs.Names.{entry_of};
ghost use Rattle.ir_typing.specs.Places.{with_place, AreFirsts};

use ir_ast::{Block, Name, Table, TableFault};
use std::alloc::{AllocError, Global};

/// The place of a name.
#[tactic(auto, using(crate::proofs::FirstPlaces::found_entry, ir_type::proofs::Places::no_place))]
pub fn entry(table: &Table<u32>, name: &Name) -> Option<u32>
    requires { length table.now < 2 ^ 32 }
    ensures { result ≡ entry_of name.now table.now }
{
    match table.get(name) {
        Some(place) => Some(*table.at(place)),
        None => None,
    }
}

/// Adds a name with its place, unless it has one.
#[tactic(auto, using(crate::proofs::FirstPlaces::added, crate::proofs::FirstPlaces::repeated))]
pub fn add_first(
    alloc: Global,
    table: &mut Table<u32>,
    name: &Name,
    place: u32,
) -> Result<(), AllocError>
    ensures { OnOk result (table.new ≡ with_place table.old name.now place) }
{
    match table.add(name.copy(alloc)?, place) {
        Ok(()) => Ok(()),
        Err(TableFault::Repeated) => Ok(()),
        Err(TableFault::Memory) => Err(AllocError),
    }
}

/// The places of the blocks' names. 2^32 blocks or more have no room.
pub fn block_places(alloc: Global, blocks: &[Block]) -> Result<Table<u32>, AllocError>
    ensures places { IfOk result (λ table. AreFirsts table (map (λ b. b.name) (map view_block blocks.now))) }
    ensures few { IfOk result (λ table. length table < 2 ^ 32) }
{
    let mut table = Table::new(alloc);
    if blocks.len() > u32::MAX as usize {
        return Err(AllocError);
    }
    for (at, block) in blocks.iter().enumerate() {
        add_first(alloc, &mut table, &block.name, at as u32)?;
    }
    Ok(table)
}
