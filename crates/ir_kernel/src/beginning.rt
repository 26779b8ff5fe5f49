//! The memory in which a kernel begins.

ghost use Rattle.std.specs.Prelude.{◌≡◌, IfOk};
ghost use Rattle.ir_ast.specs.ProgramView.{view_module};
ghost use Rattle.ir_layout.specs.Initial as definition;

use crate::kernel::Kernel;
use ir_layout::KMemory;
use std::alloc::{AllocError, Global};

/// The initial memory of a kernel: the bytes of each global's initialiser, in text order.
pub fn initial_memory(alloc: Global, kernel: &Kernel) -> Result<KMemory, AllocError>
    ensures { IfOk result (λ memory. memory ≡ definition.initial_memory (view_module kernel.now)) }
{
    // For the proof: the kernel's module is checked, so its initialisers fit.
    let _checked = kernel.checked();
    KMemory::initial(alloc, kernel.layout())
}
