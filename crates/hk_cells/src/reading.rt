//! Numbers of the initial memory, by what is kept of objects.

ghost use Rattle.std.specs.Prelude.{◌≡◌, ℕ, ◌+◌, ◌*◌, ◌/◌, ◌%◌, ◌^◌, ◌<◌, ◌≤◌, true, length, slice_get, Some, IfOk, IsTrue};
ghost use Rattle.hk_term.specs.Shape.{width, Grows};
ghost use Rattle.hk_term.specs.Meaning.{Reading, value};
ghost use Rattle.hk_term.specs.Inputs.{inputs_in};
ghost use Rattle.ir_layout.specs.Bytes.{IsWidth, object_of, number_at};
ghost use Rattle.hk_symmem.specs.Origins.{cells, object_from, start_memory};
ghost use Rattle.hk_cells.specs.Growth.{Extends, IsWord, selects_in};
ghost use Rattle.hk_cells.specs.Multiples.{IsSeenMultiple};
ghost use Rattle.hk_cells.specs.Parts.{divided, AreParts};

use crate::cut::number_by_bytes;
use crate::multiples::is_multiple;
use crate::parts::{Part, part_at};
use crate::wholes::number_by_cells;
use hk_symmem::{ByteReads, InitialReads};
use hk_term::{TermId, Terms};
use std::alloc::{AllocError, Global};

// How deep an offset is looked into.
const DEPTH: u32 = 10;

// Whether a read is seen to begin and end with a cell. Each does where a cell is one byte.
fn is_whole(t: &Terms, cell: u32, offset: TermId, bytes: u32) -> bool
    requires offset { IsWord t.now 64 offset }
    requires cell { IsWidth cell }
    ensures size { IsTrue result → bytes % cell ≡ 0 }
    ensures place { IsTrue result → (v : Reading) → value t.now offset v % cell ≡ 0 }
    ensures seen { bytes % cell ≡ 0 → IsSeenMultiple t.now cell offset → result ≡ true }
{
    if bytes % cell != 0 {
        false
    } else {
        is_whole_place(t, cell, offset)
    }
}

fn is_whole_place(t: &Terms, cell: u32, offset: TermId) -> bool
    requires offset { IsWord t.now 64 offset }
    requires cell { IsWidth cell }
    ensures place { IsTrue result → (v : Reading) → value t.now offset v % cell ≡ 0 }
    ensures seen { IsSeenMultiple t.now cell offset → result ≡ true }
{
    if cell == 1 {
        true
    } else {
        is_multiple(t, offset, cell, DEPTH)
    }
}

// The number in so many bytes of an array of cells from an offset on.
fn number_in_cells(
    t: &mut Terms,
    array: u32,
    size: u64,
    cell: u32,
    offset: TermId,
    bytes: u32,
) -> Result<TermId, AllocError>
    requires offset { IsWord t.old 64 offset }
    requires cell { IsWidth cell }
    requires bytes { IsWidth bytes }
    ensures frame { Extends t.old t.new }
    ensures few { bytes % cell ≡ 0 → IsSeenMultiple t.old cell offset → length (inputs_in t.new) ≤ length (inputs_in t.old) + bytes / cell }
    ensures word { IfOk result (λ r. IsWord t.new (8 * bytes) r) }
    ensures value { IfOk result (λ r. (v : Reading) → value t.old offset v + bytes ≤ size → value t.new r v ≡ number_at bytes (value t.old offset v) (object_from (cells size cell) (v.entry array))) }
{
    if is_whole(t, cell, offset, bytes) {
        let made = number_by_cells(t, array, size, cell, offset, bytes)?;
        Ok(made)
    } else {
        let made = number_by_bytes(t, array, size, cell, offset, bytes)?;
        Ok(made)
    }
}

// The same, where few entries are read.
fn number_of_cells(
    t: &mut Terms,
    array: u32,
    size: u64,
    cell: u32,
    offset: TermId,
    bytes: u32,
) -> Result<TermId, AllocError>
    requires offset { IsWord t.old 64 offset }
    requires cell { IsWidth cell }
    requires bytes { IsWidth bytes }
    ensures frame { Extends t.old t.new }
    ensures few { bytes % cell ≡ 0 → IsSeenMultiple t.old cell offset → selects_in t.new ≤ selects_in t.old + bytes / cell }
    ensures word { IfOk result (λ r. IsWord t.new (8 * bytes) r) }
    ensures value { IfOk result (λ r. (v : Reading) → value t.old offset v + bytes ≤ size → value t.new r v ≡ number_at bytes (value t.old offset v) (object_from (cells size cell) (v.entry array))) }
{
    let made = number_in_cells(t, array, size, cell, offset, bytes)?;
    Ok(made)
}

// The number in so many bytes of a constant from an offset on.
#[tactic(auto, using(crate::proofs::Frames::framed))]
fn number_of_constant(
    alloc: Global,
    t: &mut Terms,
    reads: &ByteReads,
    object: u32,
    offset: TermId,
    bytes: u32,
) -> Result<TermId, AllocError>
    requires object { object < length reads.now }
    requires offset { IsWord t.old 64 offset }
    requires bytes { IsWidth bytes }
    ensures frame { Extends t.old t.new }
    ensures word { IfOk result (λ r. IsWord t.new (8 * bytes) r) }
    ensures value { IfOk result (λ r. (v : Reading) → value t.old offset v + bytes ≤ length (object_of (start_memory reads.now v.entry) object) → value t.new r v ≡ number_at bytes (value t.old offset v) (object_of (start_memory reads.now v.entry) object)) }
{
    let made = reads.initial(alloc, t, object, offset, bytes)?;
    Ok(made)
}

// The number in so many bytes of an object from an offset on.
pub(crate) fn number_of(
    alloc: Global,
    t: &mut Terms,
    reads: &ByteReads,
    parts: &[Part],
    object: u32,
    offset: TermId,
    bytes: u32,
) -> Result<TermId, AllocError>
    requires parts { AreParts reads.now parts.now }
    requires object { object < length (divided reads.now parts.now) }
    requires offset { IsWord t.old 64 offset }
    requires bytes { IsWidth bytes }
    ensures frame { Extends t.old t.new }
    ensures few { (size c : ℕ) → slice_get (divided reads.now parts.now) object ≡ Some (cells size c) → bytes % c ≡ 0 → IsSeenMultiple t.old c offset → selects_in t.new ≤ selects_in t.old + bytes / c }
    ensures word { IfOk result (λ r. IsWord t.new (8 * bytes) r) }
    ensures value { IfOk result (λ r. (v : Reading) → value t.old offset v + bytes ≤ length (object_of (start_memory (divided reads.now parts.now) v.entry) object) → value t.new r v ≡ number_at bytes (value t.old offset v) (object_of (start_memory (divided reads.now parts.now) v.entry) object)) }
{
    match part_at(parts, object) {
        Part::Constant => {
            let made = number_of_constant(alloc, t, reads, object, offset, bytes)?;
            Ok(made)
        }
        Part::Cells { size, cell } => {
            let made = number_of_cells(t, object, size, cell, offset, bytes)?;
            Ok(made)
        }
    }
}
