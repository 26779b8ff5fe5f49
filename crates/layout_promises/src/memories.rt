//! Byte memory: what it begins as, loads and stores.

ghost use Rattle.std.specs.Prelude.{◌≡◌, ◌+◌, ◌<◌, ◌≤◌, ◌^◌, length, slice_set, true, IfOk};
ghost use Rattle.ir_ast.specs.Program.{ModuleView};
ghost use Rattle.ir_layout.specs.Bytes.{IsWidth, object_of, number_at, with_number};
ghost use Rattle.ir_layout.specs.Initial.{initial_memory};
ghost use Rattle.ir_layout.specs.InitFits.{have_fitting_inits};
ghost use Rattle.ir_layout.specs.Layouts.{IsLayoutOf};

use ir_layout::{KMemory, Layout};
use std::alloc::{AllocError, Global};

/// The initial memory of a module.
pub fn initial(alloc: Global, layout: &Layout) -> Result<KMemory, AllocError>
    ensures { IfOk result (λ memory. (m : ModuleView) → IsLayoutOf m layout.now → have_fitting_inits m ≡ true → memory ≡ initial_memory m) }
{
    let memory = KMemory::initial(alloc, layout)?;
    Ok(memory)
}

/// The number in the bytes of an object from an offset on.
pub fn load(memory: &KMemory, object: u32, offset: u64, bytes: u32) -> u64
    requires width { IsWidth bytes }
    requires object { object < length memory.now }
    requires within { offset + bytes ≤ length (object_of memory.now object) }
    ensures { result ≡ number_at bytes offset (object_of memory.now object) }
{
    memory.load(object, offset, bytes)
}

/// Writes a number into the bytes of an object from an offset on, and changes nothing else.
pub fn store(memory: &mut KMemory, object: u32, offset: u64, bytes: u32, value: u64)
    requires width { IsWidth bytes }
    requires object { object < length memory.old }
    requires within { offset + bytes ≤ length (object_of memory.old object) }
    requires fits { value < 256 ^ bytes }
    ensures { memory.new ≡ slice_set memory.old object (with_number bytes offset value (object_of memory.old object)) }
{
    memory.store(object, offset, bytes, value);
}
