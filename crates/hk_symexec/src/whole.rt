//! The run of a function of a kernel.

ghost use Rattle.std.specs.Prelude.{◌≡◌, ℕ, ◌<◌, true, false, Some, List, length, map, slice_get, IfOk};
ghost use Rattle.std.specs.List.{All};
ghost use Rattle.hk_term.specs.Meaning.{Reading};
ghost use Rattle.ir_ast.specs.ProgramView.{view_module};
ghost use Rattle.ir_layout.specs.Layouts.{IsLayoutOf};
ghost use Rattle.ir_machine.specs.declared.state.End.{End};
ghost use Rattle.ir_walk.specs.Walk.{walk};
ghost use Rattle.ir_kernel.specs.Runs.{CanCall, IsRun};
ghost use Rattle.hk_symvalue.specs.Growth.{Extends};
ghost use Rattle.hk_symvalue.specs.Meaning.{IsTruth, is_true};
ghost use Rattle.hk_symmem.specs.Guarded.{memory_at, IsOver, IsMemoryOf};
ghost use Rattle.hk_symaccess.specs.Accesses.{FitsMemory};
ghost use Rattle.hk_symstep.specs.Held.{IsOperand};
ghost use Rattle.hk_symstep.specs.Files.{IsFile, registers_of};
ghost use Rattle.hk_symexec.specs.Seen.{IsExec, seen};
ghost use Rattle.hk_symexec.specs.Tracks.{On, Rests, order_in};
ghost use Rattle.hk_symexec.specs.Runs.{Tells, arguments_at};

use crate::calls::begin;
use crate::entries::Entries;
use crate::exec::Exec;
use crate::orders::{depth_of, orders_of};
use crate::run::run_function;
use crate::setting::Setting;
use crate::starts::argument_file;
use crate::truths;
use hk_symmem::{InitialReads, SymMemory};
use hk_symstep::SymFile;
use hk_symvalue::SymValue;
use hk_term::{TermId, Terms};
use ir_code::Code;
use ir_kernel::Kernel;
use ir_layout::Layout;
use std::alloc::{AllocError, Global};

/// What the run of a function comes to, as terms.
#[derive(Drop)]
pub struct SymRun<R: InitialReads> {
    /// Whether the run is stuck: a truth value.
    pub undefined: TermId,
    /// The value that it comes back with, where it comes back with one.
    pub value: Option<SymValue>,
    /// The memory behind it, where it comes back.
    pub memory: SymMemory<R>,
}

// The state of a caller outside the kernel: the run is here on all paths.
fn outside(alloc: Global, t: &mut Terms) -> Result<Exec, AllocError>
    ensures frame { Extends t.old t.new }
    ensures within { IfOk result (λ y. IsExec t.new y) }
    ensures guard { IfOk result (λ y. (v : Reading) → is_true t.new y.guard v ≡ true) }
    ensures stuck { IfOk result (λ y. (v : Reading) → is_true t.new y.stuck v ≡ false) }
{
    let never = truths::constant(t, false)?;
    let always = truths::constant(t, true)?;
    let entries = Entries::new(alloc, 0, never)?;
    Ok(Exec {
        guard: always,
        entries,
        file: SymFile::from_vec(Vec::new(alloc)),
        back: never,
        valued: never,
        value: None,
        stuck: never,
    })
}

// The function of a setting from its first registers on.
#[tactic(auto, using(crate::proofs::Kept::over_kept, crate::proofs::Kept::file_kept))]
fn run_from<R: InitialReads>(
    alloc: Global,
    t: &mut Terms,
    setting: &Setting,
    memory: &mut SymMemory<R>,
    file: SymFile,
    code: &Code,
) -> Result<Exec, AllocError>
    requires there { slice_get setting.now.program.now.functions setting.now.function ≡ Some code.now }
    requires fits { FitsMemory setting.now.layout.now.objects setting.now.program.now.objects memory.old }
    requires over { IsOver t.old memory.old }
    requires file { IsFile t.old file }
    ensures frame { Extends t.old t.new }
    ensures origins { memory.new.origins ≡ memory.old.origins }
    ensures within { IfOk result (λ y. IsExec t.new y) }
    ensures over { IfOk result (λ y. IsOver t.new memory.new) }
    ensures rests { IfOk result (λ y. (v : Reading) → Rests setting.now.program.now setting.now.function (seen t.new v y) (memory_at t.new memory.new v) (On (walk setting.now.program.now (order_in setting.now.orders.now) setting.now.depth setting.now.function (registers_of t.old v file) (memory_at t.old memory.old v)))) }
{
    let caller = outside(alloc, t)?;
    let begun = begin(alloc, t, &caller, file, code.blocks.len())?;
    let after = run_function(alloc, t, setting, memory, begun)?;
    Ok(after)
}

/// Executes a function of a kernel on terms for its arguments and on a symbolic memory over the kernel's layout.
///
/// Under each reading the terms tell the end of the run of the machine from these arguments and this memory: where it is stuck
/// `undefined` is true; where it comes back `undefined` is false, the memory is the one behind it, and the value, where it comes back
/// with one, is the one returned. A number that is returned is that of the value's term, which may have another width than the
/// function's result. The arguments are as many terms as the function has parameters.
#[tactic(auto, using(crate::proofs::Kept::over_kept))]
pub fn execute<R: InitialReads>(
    alloc: Global,
    kernel: &Kernel,
    layout: &Layout,
    function: u32,
    arguments: &[TermId],
    start: &SymMemory<R>,
    t: &mut Terms,
) -> Result<SymRun<R>, AllocError>
    requires call { CanCall (view_module kernel.now) function arguments.now }
    requires layout { IsLayoutOf (view_module kernel.now) layout.now }
    requires arguments { All (λ a. a < length t.old) arguments.now }
    requires memory { IsMemoryOf layout.now.objects start.now }
    requires over { IsOver t.old start.now }
    ensures frame { Extends t.old t.new }
    ensures undefined { IfOk result (λ r. IsTruth t.new r.undefined) }
    ensures value { IfOk result (λ r. IsOperand t.new r.value) }
    ensures origins { IfOk result (λ r. r.memory.origins ≡ start.now.origins) }
    ensures over { IfOk result (λ r. IsOver t.new r.memory) }
    ensures runs { IfOk result (λ r. (v : Reading) (end : End) → IsRun (view_module kernel.now) function (arguments_at t.old v arguments.now) (memory_at t.old start.now v) end → Tells t.new v r.undefined r.value r.memory end) }
{
    let checked = kernel.checked();
    let program = kernel.program();
    let code = program.functions.at(function as usize);
    let orders = orders_of(alloc, checked)?;
    let depth = depth_of(checked, function);
    let file = argument_file(
        alloc,
        t,
        arguments,
        code.registers.saturating_sub(code.parameters),
    )?;
    let mut memory = start.copy(alloc)?;
    let setting = Setting {
        layout,
        program,
        orders: &orders,
        function,
        depth,
    };
    let after = run_from(alloc, t, &setting, &mut memory, file, code)?;
    Ok(SymRun {
        undefined: after.stuck,
        value: after.value,
        memory,
    })
}
