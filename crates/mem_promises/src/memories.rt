//! Symbolic memory: writes under guards, and reads behind them.

ghost use Rattle.std.specs.Prelude.{◌≡◌, ℕ, ◌+◌, ◌<◌, ◌≤◌, if◌then◌else◌, nat_eq, List, length, slice_set, IfOk, OnOk};
ghost use Rattle.hk_term.specs.Shape.{width};
ghost use Rattle.hk_term.specs.Meaning.{Reading, value};
ghost use Rattle.hk_term.specs.declared.node.Node.{Node};
ghost use Rattle.ir_layout.specs.Bytes.{IsWidth, object_of, number_at, with_number};
ghost use Rattle.hk_symmem.specs.Guarded.{memory_at, IsMutable, IsOver};

use hk_symmem::{InitialReads, SymMemory};
use hk_term::{TermId, Terms};
use std::alloc::{AllocError, Global};

/// A read gives the bytes that the memory has behind its writes, each of which counts where its guard is true.
pub fn read<R: InitialReads>(
    memory: &SymMemory<R>,
    alloc: Global,
    t: &mut Terms,
    object: u32,
    offset: TermId,
    bytes: u32,
) -> Result<TermId, AllocError>
    requires object { object < length memory.now.origins }
    requires bytes { IsWidth bytes }
    requires offset { offset < length t.old }
    requires address { width t.old offset ≡ 64 }
    requires over { IsOver t.old memory.now }
    ensures { IfOk result (λ r. (v : Reading) → value t.old offset v + bytes ≤ length (object_of (memory_at t.old memory.now v) object) → value t.new r v ≡ number_at bytes (value t.old offset v) (object_of (memory_at t.old memory.now v) object)) }
{
    let number = memory.read(alloc, t, object, offset, bytes)?;
    Ok(number)
}

/// A write changes the bytes of its object where its guard is true, and nothing where it is false.
pub fn write<R: InitialReads>(
    memory: &mut SymMemory<R>,
    guard: TermId,
    object: u32,
    offset: TermId,
    bytes: u32,
    number: TermId,
) -> Result<(), AllocError>
    requires object { IsMutable memory.old object }
    requires bytes { IsWidth bytes }
    ensures { OnOk result ((nodes : List Node) (v : Reading) → (value nodes guard v ≡ 1 → value nodes offset v + bytes ≤ length (object_of (memory_at nodes memory.old v) object)) → memory_at nodes memory.new v ≡ (if nat_eq (value nodes guard v) 1 then slice_set (memory_at nodes memory.old v) object (with_number bytes (value nodes offset v) (value nodes number v) (object_of (memory_at nodes memory.old v) object)) else memory_at nodes memory.old v)) }
{
    memory.write(guard, object, offset, bytes, number)
}
