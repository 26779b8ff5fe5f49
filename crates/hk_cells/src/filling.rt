//! The initial memory that a valuation gives, by what is kept of objects.

ghost use Rattle.std.specs.Prelude.{◌≡◌, ℕ, ◌*◌, ◌/◌, ◌%◌, ◌^◌, ◌<◌, length, map, slice_get, Some, IfOk};
ghost use Rattle.std.specs.List.{range_with_len};
ghost use Rattle.hk_term.specs.Meaning.{reading_of};
ghost use Rattle.ir_layout.specs.Bytes.{IsWidth};
ghost use Rattle.hk_symmem.specs.Origins.{cell_byte, start_memory, AreOriginsOf};
ghost use Rattle.hk_cells.specs.Parts.{divided, part_bytes, IsKept, AreParts};

use crate::parts::{Part, part_at};
use hk_symmem::{ByteReads, InitialReads};
use hk_term::Valuation;
use ir_layout::{KMemory, Layout, ObjectBytes};
use std::alloc::{AllocError, Global};

// The byte of a cell's number that stands so many bytes above its lowest.
#[tactic(auto, using(crate::proofs::ByteLaws::byte_in_cell))]
fn byte_of(number: u64, cell: u32, index: u64) -> u8
    requires { IsWidth cell }
    ensures { result ≡ number % 2 ^ (8 * cell) / 256 ^ (index % cell) % 256 }
{
    let place = (index % u64::from(cell)) as u32;
    ((number >> (8 * place)) % 256) as u8
}

// The byte of an array of cells at a place.
fn byte_at(v: &Valuation, object: u32, cell: u32, index: u64) -> u8
    requires { IsWidth cell }
    ensures { result ≡ cell_byte cell ((reading_of v.now).entry object) index }
{
    let number = v.arrays.get(object, index / u64::from(cell));
    byte_of(number, cell, index)
}

// The first bytes of an array of cells.
fn array_bytes(
    alloc: Global,
    v: &Valuation,
    object: u32,
    size: u64,
    cell: u32,
) -> Result<Vec<u8>, AllocError>
    requires { IsWidth cell }
    ensures { IfOk result (λ b. b.items ≡ map (cell_byte cell ((reading_of v.now).entry object)) (range_with_len 0 size)) }
{
    let mut bytes = Vec::new(alloc);
    for index in 0..size {
        bytes.push(byte_at(v, object, cell, index))?;
    }
    Ok(bytes)
}

// The bytes of an object, by a memory that has those of the constants.
fn bytes_from(
    alloc: Global,
    v: &Valuation,
    memory: &KMemory,
    part: Part,
    object: u32,
) -> Result<ObjectBytes, AllocError>
    requires object { object < length memory.now }
    requires kept { IsKept part }
    ensures { IfOk result (λ b. b ≡ part_bytes memory.now (reading_of v.now).entry object part) }
{
    match part {
        Part::Constant => {
            let bytes = Vec::from_slice(alloc, memory.bytes(object))?;
            Ok(ObjectBytes::new(bytes))
        }
        Part::Cells { size, cell } => {
            let bytes = array_bytes(alloc, v, object, size, cell)?;
            Ok(ObjectBytes::new(bytes))
        }
    }
}

// The bytes of each object, by a memory that has those of the constants.
fn objects_by(
    alloc: Global,
    reads: &ByteReads,
    parts: &[Part],
    memory: &KMemory,
    v: &Valuation,
    count: u32,
) -> Result<Vec<ObjectBytes>, AllocError>
    requires parts { AreParts reads.now parts.now }
    requires count { count ≡ length parts.now }
    requires memory { memory.now ≡ start_memory reads.now (reading_of v.now).entry }
    ensures { IfOk result (λ os. os.items ≡ start_memory (divided reads.now parts.now) (reading_of v.now).entry) }
{
    // For the proof: the clauses and the loop's invariant alone speak of the reads.
    let _reads = reads;
    let mut objects = Vec::new(alloc);
    for object in 0..count {
        let part = part_at(parts, object);
        let bytes = bytes_from(alloc, v, memory, part, object)?;
        objects.push(bytes)?;
    }
    Ok(objects)
}

// The initial memory that a valuation gives.
#[tactic(auto, using(crate::proofs::PartLaws::origins_of_bytes, crate::proofs::PartLaws::as_many_parts))]
pub(crate) fn memory_by(
    alloc: Global,
    reads: &ByteReads,
    parts: &[Part],
    layout: &Layout,
    v: &Valuation,
) -> Result<KMemory, AllocError>
    requires parts { AreParts reads.now parts.now }
    requires origins { AreOriginsOf layout.now.objects (divided reads.now parts.now) }
    ensures { IfOk result (λ m. m ≡ start_memory (divided reads.now parts.now) (reading_of v.now).entry) }
{
    let count = layout.objects();
    let memory = reads.memory_of(alloc, layout, v)?;
    let objects = objects_by(alloc, reads, parts, &memory, v, count)?;
    Ok(KMemory::new(objects))
}
