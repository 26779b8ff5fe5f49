//! Where the first bytes of objects come from, where arrays hold single bytes.

ghost use Rattle.std.specs.Prelude.{◌≡◌, ◌∷◌, [], ◌<◌, List, length, map, slice_get, slice_index_or, Some, IfOk};
ghost use Rattle.ir_layout.specs.declared.object.Object.{Object};
ghost use Rattle.hk_symmem.specs.Origins.{IsOriginOf, AreOriginsOf};
ghost use Rattle.hk_symmem.specs.Sources.{origin_of};

use ir_layout::{KMemory, Layout, ObjectBytes};
use std::alloc::{AllocError, Global};

// The bytes of a constant, as a memory with one object, or so many entries of an array.
#[derive(Drop)]
pub(crate) enum Source {
    Fixed(KMemory),
    Bytes { size: u64 },
}

// The memory with one object.
fn one_object(alloc: Global, bytes: &[u8]) -> Result<KMemory, AllocError>
    ensures { IfOk result (λ m. m ≡ bytes.now ∷ []) }
{
    let mut objects = Vec::new(alloc);
    objects.push(ObjectBytes::new(Vec::from_slice(alloc, bytes)?))?;
    Ok(KMemory::new(objects))
}

// The source of an object, where this memory holds the initial bytes.
fn source_of(
    alloc: Global,
    layout: &Layout,
    memory: &KMemory,
    object: u32,
) -> Result<Source, AllocError>
    requires object { object < length layout.now.objects }
    requires memory { memory.now ≡ map (λ o. o.bytes) layout.now.objects }
    ensures { IfOk result (λ s. (d : Object) → IsOriginOf (slice_index_or layout.now.objects object d) (origin_of s)) }
{
    if layout.is_constant(object) {
        let kept = one_object(alloc, memory.bytes(object))?;
        Ok(Source::Fixed(kept))
    } else {
        let size = layout.object_size(object);
        Ok(Source::Bytes { size })
    }
}

// The sources of a layout's objects.
pub(crate) fn sources_of(alloc: Global, layout: &Layout) -> Result<Vec<Source>, AllocError>
    ensures { IfOk result (λ ss. AreOriginsOf layout.now.objects (map origin_of ss.items)) }
{
    let memory = KMemory::initial(alloc, layout)?;
    let mut sources = Vec::new(alloc);
    for object in 0..layout.objects() {
        sources.push(source_of(alloc, layout, &memory, object)?)?;
    }
    Ok(sources)
}

// The source of an object.
pub(crate) fn source_at(sources: &[Source], object: u32) -> &Source
    requires { object < length sources.now }
    ensures { slice_get sources.now object ≡ Some result.now }
{
    &sources[object as usize]
}

// The same source once more.
fn copy_of(alloc: Global, source: &Source) -> Result<Source, AllocError>
    ensures { IfOk result (λ s. origin_of s ≡ origin_of source.now) }
{
    match source {
        Source::Fixed(memory) => {
            let copy = memory.copy(alloc)?;
            Ok(Source::Fixed(copy))
        }
        Source::Bytes { size } => Ok(Source::Bytes { size: *size }),
    }
}

// The same sources once more.
pub(crate) fn copies_of(alloc: Global, sources: &[Source]) -> Result<Vec<Source>, AllocError>
    ensures { IfOk result (λ ss. map origin_of ss.items ≡ map origin_of sources.now) }
{
    let mut copies = Vec::new(alloc);
    for source in sources {
        copies.push(copy_of(alloc, source)?)?;
    }
    Ok(copies)
}
