//! Runs of a kernel's functions as terms, with their results at the functions' own widths.

ghost use Rattle.std.specs.Prelude.{◌<◌, ◌≤◌, length, IfOk};
ghost use Rattle.std.specs.List.{All};
ghost use Rattle.hk_term.specs.Meaning.{Reading};
ghost use Rattle.ir_ast.specs.ProgramView.{view_module};
ghost use Rattle.ir_layout.specs.Layouts.{IsLayoutOf};
ghost use Rattle.ir_kernel.specs.declared.ends.RunEnd.{RunEnd};
ghost use Rattle.ir_kernel.specs.Ends.{IsEndOfRun};
ghost use Rattle.ir_typed.specs.Endings.{IsRunnable};
ghost use Rattle.hk_symmem.specs.Guarded.{memory_at, IsOver, IsMemoryOf};
ghost use Rattle.hk_symexec.specs.Runs.{arguments_at};
ghost use Rattle.hk_symresult.specs.Results.{Takes, widths_of, TellsEnd};

use hk_symmem::{InitialReads, SymMemory};
use hk_symresult::{Called, SymResult};
use hk_term::{TermId, Terms};
use ir_kernel::Kernel;
use ir_layout::Layout;
use std::alloc::{AllocError, Global};

/// Under each reading the terms tell the end of the machine's run, with the number that it returns.
pub fn execute_to_result<R: InitialReads>(
    alloc: Global,
    kernel: &Kernel,
    layout: &Layout,
    called: Called,
    arguments: &[TermId],
    start: &SymMemory<R>,
    t: &mut Terms,
) -> Result<SymResult<R>, AllocError>
    requires runnable { IsRunnable (view_module kernel.now) }
    requires fit { Takes (view_module kernel.now) called.function (widths_of t.old arguments.now) called.result_width }
    requires width { called.result_width ≤ 64 }
    requires layout { IsLayoutOf (view_module kernel.now) layout.now }
    requires arguments { All (λ a. a < length t.old) arguments.now }
    requires memory { IsMemoryOf layout.now.objects start.now }
    requires over { IsOver t.old start.now }
    ensures { IfOk result (λ r. (v : Reading) (end : RunEnd) → IsEndOfRun (view_module kernel.now) called.function (arguments_at t.old v arguments.now) (memory_at t.old start.now v) end → TellsEnd t.new v r.undefined r.result r.memory end) }
{
    let run = hk_symresult::execute_to_result(alloc, kernel, layout, called, arguments, start, t)?;
    Ok(run)
}
