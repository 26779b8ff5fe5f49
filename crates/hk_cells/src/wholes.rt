//! Reads of whole cells.

ghost use Rattle.std.specs.Prelude.{◌≡◌, ℕ, ◌+◌, ◌*◌, ◌/◌, ◌%◌, ◌^◌, ◌<◌, ◌≤◌, length, IfOk};
ghost use Rattle.hk_term.specs.Shape.{width};
ghost use Rattle.hk_term.specs.Meaning.{Reading, value};
ghost use Rattle.hk_term.specs.Inputs.{inputs_in};
ghost use Rattle.ir_layout.specs.Bytes.{IsWidth, number_at};
ghost use Rattle.hk_symmem.specs.Origins.{cells, object_from};
ghost use Rattle.hk_cells.specs.Growth.{Extends, IsWord};

use crate::terms::{above, behind, cell_at, entry};
use hk_term::{TermId, Terms};
use std::alloc::AllocError;

// The cells of a number from an index on, one more than those that were made.
fn next_cell(
    t: &mut Terms,
    array: u32,
    cell: u32,
    index: TermId,
    k: u32,
    made: TermId,
) -> Result<TermId, AllocError>
    requires index { IsWord t.old 64 index }
    requires cell { IsWidth cell }
    requires room { cell * k + cell ≤ 8 }
    requires made { IsWord t.old (8 * (cell * k)) made }
    ensures frame { Extends t.old t.new }
    ensures few { length (inputs_in t.new) ≤ length (inputs_in t.old) + 1 }
    ensures word { IfOk result (λ r. IsWord t.new (8 * cell + 8 * (cell * k)) r) }
    ensures value { IfOk result (λ r. (v : Reading) → value t.new r v ≡ v.entry array ((value t.old index v + k) % 2 ^ 64) % 2 ^ (8 * cell) * 256 ^ (cell * k) + value t.old made v) }
{
    let place = behind(t, index, k)?;
    let high = entry(t, array, 8 * cell, place)?;
    let whole = above(t, high, made, cell * k)?;
    Ok(whole)
}

// The number in so many bytes of an array of cells from an offset on, where it begins and ends with a cell.
pub(crate) fn number_by_cells(
    t: &mut Terms,
    array: u32,
    size: u64,
    cell: u32,
    offset: TermId,
    bytes: u32,
) -> Result<TermId, AllocError>
    requires offset { IsWord t.old 64 offset }
    requires cell { IsWidth cell }
    requires bytes { IsWidth bytes }
    requires whole { bytes % cell ≡ 0 }
    ensures frame { Extends t.old t.new }
    ensures few { length (inputs_in t.new) ≤ length (inputs_in t.old) + bytes / cell }
    ensures word { IfOk result (λ r. IsWord t.new (8 * bytes) r) }
    ensures value { IfOk result (λ r. (v : Reading) → value t.old offset v % cell ≡ 0 → value t.old offset v + bytes ≤ size → value t.new r v ≡ number_at bytes (value t.old offset v) (object_from (cells size cell) (v.entry array))) }
{
    // For the proof: the size is below 2^64.
    let _size = size;
    let index = cell_at(t, offset, cell)?;
    let mut made = entry(t, array, 8 * cell, index)?;
    for k in 1..bytes / cell {
        made = next_cell(t, array, cell, index, k, made)?;
    }
    Ok(made)
}
