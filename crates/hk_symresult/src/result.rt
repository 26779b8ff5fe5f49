//! The run of a function with its result at the function's own width.

ghost use Rattle.std.specs.Prelude.{◌≡◌, ◌<◌, ◌≤◌, ◌^◌, ℕ, None, Some, length, IfOk, OnOk};
ghost use Rattle.std.specs.List.{All};
ghost use Rattle.hk_term.specs.Shape.{IsWidth};
ghost use Rattle.hk_term.specs.Meaning.{Reading, value};
ghost use Rattle.ir_ast.specs.ProgramView.{view_module};
ghost use Rattle.ir_layout.specs.Layouts.{IsLayoutOf};
ghost use Rattle.ir_value.specs.declared.value.Value.TheVariants.{Number};
ghost use Rattle.ir_kernel.specs.declared.ends.RunEnd.{RunEnd};
ghost use Rattle.ir_kernel.specs.Ends.{IsEndOfRun};
ghost use Rattle.ir_typed.specs.Endings.{IsRunnable};
ghost use Rattle.hk_symvalue.specs.Growth.{Extends};
ghost use Rattle.hk_symvalue.specs.Meaning.{IsTruth, IsWord};
ghost use Rattle.hk_symmem.specs.Guarded.{memory_at, IsOver, IsMemoryOf};
ghost use Rattle.hk_symstep.specs.Held.{IsOperand, value_meaning};
ghost use Rattle.hk_symexec.specs.Runs.{arguments_at};
ghost use Rattle.hk_symresult.specs.Results.{Takes, widths_of, AreFilled, HoldsObjects, IsResultTerm, TellsResult, TellsEnd, HasEnd};

use hk_symexec::execute;
use hk_symmem::{InitialReads, SymMemory};
use hk_symvalue::SymValue;
use hk_symvalue::words::{at_width, number};
use hk_term::{TermId, Terms};
use ir_kernel::Kernel;
use ir_layout::{KMemory, Layout};
use std::alloc::{AllocError, Global};

/// The function of a kernel that is executed, by its place.
#[derive(Clone, Copy)]
pub struct Called {
    pub function: u32,
    /// The bits of its result; 0 where that is void.
    pub result_width: u32,
}

/// What the run of a function comes to, as terms.
#[derive(Drop)]
pub struct SymResult<R: InitialReads> {
    /// Whether the run is stuck: a truth value.
    pub undefined: TermId,
    /// The number that it returns, at the width of the function's result; none where that is void.
    pub result: Option<TermId>,
    /// The memory behind it, where it returns.
    pub memory: SymMemory<R>,
}

// Bytes are below 256.
fn are_bytes(bytes: &[u8])
    ensures { All (λ b. b < 256) bytes.now }
{}

// The bytes of objects are below 256.
fn holds_bytes(memory: &KMemory, objects: u32)
    requires { objects ≡ length memory.now }
    ensures { All (λ o. All (λ b. b < 256) o) memory.now }
{
    'each: for k in 0..objects {
        are_bytes(memory.bytes(k));
    }
}

// The initial bytes of a kernel's objects fill them.
fn look_at_objects(alloc: Global, kernel: &Kernel, layout: &Layout) -> Result<(), AllocError>
    requires { IsLayoutOf (view_module kernel.now) layout.now }
    ensures { OnOk result (AreFilled layout.now.objects) }
{
    let initial = KMemory::initial(alloc, layout)?;
    holds_bytes(&initial, layout.objects());
    Ok(())
}

// The number of a value at a width; any number where there is no value.
#[tactic(auto, using(crate::proofs::Telling::numbered))]
fn number_at(t: &mut Terms, w: u32, held: Option<SymValue>) -> Result<TermId, AllocError>
    requires width { IsWidth w }
    requires held { IsOperand t.old held }
    ensures frame { Extends t.old t.new }
    ensures word { IfOk result (λ r. IsWord t.new w r) }
    ensures number { IfOk result (λ r. (v : Reading) (n : ℕ) → n < 2 ^ w → value_meaning t.old v held ≡ Some (Number n) → value t.new r v ≡ n) }
{
    match held {
        Some(s) => {
            let made = at_width(t, w, s.bits)?;
            Ok(made)
        }
        None => {
            let made = number(t, w, 0)?;
            Ok(made)
        }
    }
}

// The number of a value at a result's width, where the result has one.
fn result_of(t: &mut Terms, w: u32, held: Option<SymValue>) -> Result<Option<TermId>, AllocError>
    requires width { w ≤ 64 }
    requires held { IsOperand t.old held }
    ensures frame { Extends t.old t.new }
    ensures result { IfOk result (IsResultTerm t.new w) }
    ensures none { IfOk result (λ r. w ≡ 0 → r ≡ None) }
    ensures number { IfOk result (λ r. (v : Reading) (n : ℕ) → n < 2 ^ w → value_meaning t.old v held ≡ Some (Number n) → TellsResult t.new v r (Some n)) }
{
    if w == 0 {
        return Ok(None);
    }
    let made = number_at(t, w, held)?;
    Ok(Some(made))
}

/// Executes a function of a kernel, which takes integers and gives an integer of a width or nothing, on terms for its arguments and on a
/// symbolic memory over the kernel's layout.
///
/// Under each reading the run of the machine from these arguments and this memory has an end, and the terms tell it: where it is stuck
/// `undefined` is true; where it returns `undefined` is false, the memory is the one behind it, and the result's term has the number that
/// is returned. It is never lost. The arguments are terms of the parameters' widths.
#[tactic(auto, using(crate::proofs::Calls::can_call, crate::proofs::Telling::over_kept))]
pub fn execute_to_result<R: InitialReads>(
    alloc: Global,
    kernel: &Kernel,
    layout: &Layout,
    called: Called,
    arguments: &[TermId],
    start: &SymMemory<R>,
    t: &mut Terms,
) -> Result<SymResult<R>, AllocError>
    requires runnable { IsRunnable (view_module kernel.now) }
    requires fit { Takes (view_module kernel.now) called.function (widths_of t.old arguments.now) called.result_width }
    requires width { called.result_width ≤ 64 }
    requires layout { IsLayoutOf (view_module kernel.now) layout.now }
    requires arguments { All (λ a. a < length t.old) arguments.now }
    requires memory { IsMemoryOf layout.now.objects start.now }
    requires over { IsOver t.old start.now }
    ensures frame { Extends t.old t.new }
    ensures undefined { IfOk result (λ r. IsTruth t.new r.undefined) }
    ensures result { IfOk result (λ r. IsResultTerm t.new called.result_width r.result) }
    ensures origins { IfOk result (λ r. r.memory.origins ≡ start.now.origins) }
    ensures over { IfOk result (λ r. IsOver t.new r.memory) }
    ensures first { IfOk result (λ r. (v : Reading) → HoldsObjects layout.now.objects (memory_at t.old start.now v)) }
    ensures objects { IfOk result (λ r. (v : Reading) → HoldsObjects layout.now.objects (memory_at t.new r.memory v)) }
    ensures there { IfOk result (λ r. (v : Reading) → HasEnd (view_module kernel.now) called.function (arguments_at t.old v arguments.now) (memory_at t.old start.now v)) }
    ensures ends { IfOk result (λ r. (v : Reading) (end : RunEnd) → IsEndOfRun (view_module kernel.now) called.function (arguments_at t.old v arguments.now) (memory_at t.old start.now v) end → TellsEnd t.new v r.undefined r.result r.memory end) }
{
    // For the proof: each function of the kernel has an order of its blocks in which edges go forward.
    let _checked = kernel.checked();
    // For the proof: each node of the list fits behind those before it.
    let _len = t.len();
    look_at_objects(alloc, kernel, layout)?;
    let run = execute(alloc, kernel, layout, called.function, arguments, start, t)?;
    let result = result_of(t, called.result_width, run.value)?;
    Ok(SymResult {
        undefined: run.undefined,
        result,
        memory: run.memory,
    })
}
