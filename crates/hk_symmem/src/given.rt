//! Numbers and bytes of the initial memory, where arrays hold single bytes.

ghost use Rattle.std.specs.Prelude.{◌≡◌, ℕ, ◌+◌, ◌*◌, ◌^◌, ◌<◌, ◌≤◌, length, map, IfOk};
ghost use Rattle.std.specs.List.{range_with_len};
ghost use Rattle.hk_term.specs.Shape.{width, Grows};
ghost use Rattle.hk_term.specs.Meaning.{Reading, value, reading_of};
ghost use Rattle.ir_layout.specs.Bytes.{IsWidth, object_of, number_at};
ghost use Rattle.hk_symmem.specs.Origins.{start_memory, object_from, cell_byte};
ghost use Rattle.hk_symmem.specs.Sources.{origin_of};

use crate::array_bytes::array_number;
use crate::constants::constant_number;
use crate::source::{Source, source_at};
use hk_term::{TermId, Terms, Valuation};
use ir_layout::{KMemory, ObjectBytes};
use std::alloc::{AllocError, Global};

// The number in so many bytes of a source from an offset on.
fn number_from(
    t: &mut Terms,
    source: &Source,
    object: u32,
    offset: TermId,
    bytes: u32,
) -> Result<TermId, AllocError>
    requires offset { offset < length t.old }
    requires address { width t.old offset ≡ 64 }
    requires bytes { IsWidth bytes }
    ensures within { IfOk result (λ r. r < length t.new) }
    ensures width { IfOk result (λ r. width t.new r ≡ 8 * bytes) }
    ensures value { IfOk result (λ r. (v : Reading) → value t.old offset v + bytes ≤ length (object_from (origin_of source.now) (v.entry object)) → value t.new r v ≡ number_at bytes (value t.old offset v) (object_from (origin_of source.now) (v.entry object))) }
    ensures keeps_widths { (k : ℕ) → k < length t.old → width t.new k ≡ width t.old k }
    ensures keeps_values { (k : ℕ) → k < length t.old → (v : Reading) → value t.new k v ≡ value t.old k v }
    ensures longer { length t.old ≤ length t.new }
    ensures grows { Grows t.old t.new }
{
    match source {
        Source::Fixed(memory) => {
            let made = constant_number(t, memory, offset, bytes)?;
            Ok(made)
        }
        Source::Bytes { size } => {
            let made = array_number(t, object, *size, offset, bytes)?;
            Ok(made)
        }
    }
}

// The number in so many bytes of an object from an offset on.
pub(crate) fn number_of(
    t: &mut Terms,
    sources: &[Source],
    object: u32,
    offset: TermId,
    bytes: u32,
) -> Result<TermId, AllocError>
    requires object { object < length sources.now }
    requires offset { offset < length t.old }
    requires address { width t.old offset ≡ 64 }
    requires bytes { IsWidth bytes }
    ensures within { IfOk result (λ r. r < length t.new) }
    ensures width { IfOk result (λ r. width t.new r ≡ 8 * bytes) }
    ensures value { IfOk result (λ r. (v : Reading) → value t.old offset v + bytes ≤ length (object_of (start_memory (map origin_of sources.now) v.entry) object) → value t.new r v ≡ number_at bytes (value t.old offset v) (object_of (start_memory (map origin_of sources.now) v.entry) object)) }
    ensures keeps_widths { (k : ℕ) → k < length t.old → width t.new k ≡ width t.old k }
    ensures keeps_values { (k : ℕ) → k < length t.old → (v : Reading) → value t.new k v ≡ value t.old k v }
    ensures longer { length t.old ≤ length t.new }
    ensures grows { Grows t.old t.new }
{
    let source = source_at(sources, object);
    let made = number_from(t, source, object, offset, bytes)?;
    Ok(made)
}

// The first bytes of an array.
fn array_bytes(alloc: Global, v: &Valuation, object: u32, size: u64) -> Result<Vec<u8>, AllocError>
    ensures { IfOk result (λ b. b.items ≡ map (cell_byte 1 ((reading_of v.now).entry object)) (range_with_len 0 size)) }
{
    let mut bytes = Vec::new(alloc);
    for index in 0..size {
        bytes.push((v.arrays.get(object, index) % 256) as u8)?;
    }
    Ok(bytes)
}

// The bytes of a source.
fn bytes_from(
    alloc: Global,
    v: &Valuation,
    object: u32,
    source: &Source,
) -> Result<ObjectBytes, AllocError>
    ensures { IfOk result (λ b. b ≡ object_from (origin_of source.now) ((reading_of v.now).entry object)) }
{
    match source {
        Source::Fixed(memory) => {
            if memory.objects() == 0 {
                return Ok(ObjectBytes::new(Vec::new(alloc)));
            }
            let bytes = Vec::from_slice(alloc, memory.bytes(0))?;
            Ok(ObjectBytes::new(bytes))
        }
        Source::Bytes { size } => {
            let bytes = array_bytes(alloc, v, object, *size)?;
            Ok(ObjectBytes::new(bytes))
        }
    }
}

// The initial memory that a valuation gives.
pub(crate) fn memory_by(
    alloc: Global,
    sources: &[Source],
    count: u32,
    v: &Valuation,
) -> Result<KMemory, AllocError>
    requires { count ≡ length sources.now }
    ensures { IfOk result (λ m. m ≡ start_memory (map origin_of sources.now) (reading_of v.now).entry) }
{
    let mut objects = Vec::new(alloc);
    for object in 0..count {
        let source = source_at(sources, object);
        objects.push(bytes_from(alloc, v, object, source)?)?;
    }
    Ok(KMemory::new(objects))
}
