//! Reads byte by byte: each byte is cut out of the cell that holds it.

ghost use Rattle.std.specs.Prelude.{◌≡◌, ℕ, ◌+◌, ◌*◌, ◌/◌, ◌%◌, ◌^◌, ◌<◌, ◌≤◌, length, IfOk};
ghost use Rattle.hk_term.specs.Shape.{width};
ghost use Rattle.hk_term.specs.Meaning.{Reading, value};
ghost use Rattle.ir_layout.specs.Bytes.{IsWidth, number_at};
ghost use Rattle.hk_symmem.specs.Origins.{cells, cell_byte, object_from};
ghost use Rattle.hk_cells.specs.Growth.{Extends, IsWord};

use crate::terms::{
    above, behind, cell_at, entry, joined, lowest, number, shift_of, shifted, widened,
};
use hk_term::{TermId, Terms};
use std::alloc::AllocError;

// Eight times the place within its cell.
fn amount(t: &mut Terms, place: TermId, cell: u32) -> Result<TermId, AllocError>
    requires place { IsWord t.old 64 place }
    requires cell { IsWidth cell }
    requires several { 1 < cell }
    ensures frame { Extends t.old t.new }
    ensures word { IfOk result (λ r. IsWord t.new (8 * cell) r) }
    ensures value { IfOk result (λ r. (v : Reading) → value t.new r v ≡ 8 * (value t.old place v % cell)) }
{
    let shift = shift_of(cell);
    let low = lowest(t, shift, place)?;
    let zeros = number(t, 3, 0)?;
    let bits = joined(t, low, zeros)?;
    let made = widened(t, 8 * cell, bits)?;
    Ok(made)
}

// The byte of a number of a cell's width that a place has in it.
fn cut_byte(t: &mut Terms, whole: TermId, place: TermId, cell: u32) -> Result<TermId, AllocError>
    requires whole { IsWord t.old (8 * cell) whole }
    requires place { IsWord t.old 64 place }
    requires cell { IsWidth cell }
    requires several { 1 < cell }
    ensures frame { Extends t.old t.new }
    ensures word { IfOk result (λ r. IsWord t.new 8 r) }
    ensures value { IfOk result (λ r. (v : Reading) → value t.new r v ≡ value t.old whole v / 256 ^ (value t.old place v % cell) % 256) }
{
    let by = amount(t, place, cell)?;
    let cut = shifted(t, whole, by)?;
    let made = lowest(t, 8, cut)?;
    Ok(made)
}

// The byte of an array of cells at a place.
fn byte_at(t: &mut Terms, array: u32, cell: u32, place: TermId) -> Result<TermId, AllocError>
    requires place { IsWord t.old 64 place }
    requires cell { IsWidth cell }
    ensures frame { Extends t.old t.new }
    ensures word { IfOk result (λ r. IsWord t.new 8 r) }
    ensures value { IfOk result (λ r. (v : Reading) → value t.new r v ≡ cell_byte cell (v.entry array) (value t.old place v)) }
{
    let index = cell_at(t, place, cell)?;
    let whole = entry(t, array, 8 * cell, index)?;
    if cell == 1 {
        Ok(whole)
    } else {
        let made = cut_byte(t, whole, place, cell)?;
        Ok(made)
    }
}

// The bytes of a number from an offset on, one more than those that were made.
fn next_byte(
    t: &mut Terms,
    array: u32,
    cell: u32,
    offset: TermId,
    byte: u32,
    made: TermId,
) -> Result<TermId, AllocError>
    requires offset { IsWord t.old 64 offset }
    requires cell { IsWidth cell }
    requires byte { byte < 8 }
    requires made { IsWord t.old (8 * byte) made }
    ensures frame { Extends t.old t.new }
    ensures word { IfOk result (λ r. IsWord t.new (8 * byte + 8) r) }
    ensures value { IfOk result (λ r. (v : Reading) → value t.new r v ≡ cell_byte cell (v.entry array) ((value t.old offset v + byte) % 2 ^ 64) * 256 ^ byte + value t.old made v) }
{
    let place = behind(t, offset, byte)?;
    let high = byte_at(t, array, cell, place)?;
    let whole = above(t, high, made, byte)?;
    Ok(whole)
}

// The number in so many bytes of an array of cells from an offset on.
pub(crate) fn number_by_bytes(
    t: &mut Terms,
    array: u32,
    size: u64,
    cell: u32,
    offset: TermId,
    bytes: u32,
) -> Result<TermId, AllocError>
    requires offset { IsWord t.old 64 offset }
    requires cell { IsWidth cell }
    requires bytes { IsWidth bytes }
    ensures frame { Extends t.old t.new }
    ensures word { IfOk result (λ r. IsWord t.new (8 * bytes) r) }
    ensures value { IfOk result (λ r. (v : Reading) → value t.old offset v + bytes ≤ size → value t.new r v ≡ number_at bytes (value t.old offset v) (object_from (cells size cell) (v.entry array))) }
{
    // For the proof: the size is below 2^64.
    let _size = size;
    let mut made = byte_at(t, array, cell, offset)?;
    for byte in 1..bytes {
        made = next_byte(t, array, cell, offset, byte, made)?;
    }
    Ok(made)
}
