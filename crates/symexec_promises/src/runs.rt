//! Runs of a kernel's functions as terms.

ghost use Rattle.std.specs.Prelude.{◌<◌, length, IfOk};
ghost use Rattle.std.specs.List.{All};
ghost use Rattle.hk_term.specs.Meaning.{Reading};
ghost use Rattle.ir_ast.specs.ProgramView.{view_module};
ghost use Rattle.ir_layout.specs.Layouts.{IsLayoutOf};
ghost use Rattle.ir_machine.specs.declared.state.End.{End};
ghost use Rattle.ir_kernel.specs.Runs.{CanCall, IsRun};
ghost use Rattle.hk_symmem.specs.Guarded.{memory_at, IsOver, IsMemoryOf};
ghost use Rattle.hk_symexec.specs.Runs.{Tells, arguments_at};

use hk_symexec::SymRun;
use hk_symmem::{InitialReads, SymMemory};
use hk_term::{TermId, Terms};
use ir_kernel::Kernel;
use ir_layout::Layout;
use std::alloc::{AllocError, Global};

/// Under each reading the terms tell the end of the machine's run: whether it is stuck, and where it comes back its value and memory.
pub fn execute<R: InitialReads>(
    alloc: Global,
    kernel: &Kernel,
    layout: &Layout,
    function: u32,
    arguments: &[TermId],
    start: &SymMemory<R>,
    t: &mut Terms,
) -> Result<SymRun<R>, AllocError>
    requires call { CanCall (view_module kernel.now) function arguments.now }
    requires layout { IsLayoutOf (view_module kernel.now) layout.now }
    requires arguments { All (λ a. a < length t.old) arguments.now }
    requires memory { IsMemoryOf layout.now.objects start.now }
    requires over { IsOver t.old start.now }
    ensures { IfOk result (λ r. (v : Reading) (end : End) → IsRun (view_module kernel.now) function (arguments_at t.old v arguments.now) (memory_at t.old start.now v) end → Tells t.new v r.undefined r.value r.memory end) }
{
    let run = hk_symexec::execute(alloc, kernel, layout, function, arguments, start, t)?;
    Ok(run)
}
