//! The parts of a handler's run.

ghost use Rattle.std.specs.Prelude.{◌≡◌, ◌<◌, ◌≤◌, ℕ, All, Some, List, slice_get, length, IfOk};
ghost use Rattle.hk_term.specs.Meaning.{Reading};
ghost use Rattle.ir_ast.specs.Program.{ModuleView};
ghost use Rattle.ir_ast.specs.ProgramView.{view_module};
ghost use Rattle.ir_layout.specs.Layouts.{LayoutView, IsLayoutOf};
ghost use Rattle.ir_typed.specs.Endings.{IsRunnable};
ghost use Rattle.hk_symvalue.specs.Growth.{Extends};
ghost use Rattle.hk_symvalue.specs.Meaning.{IsTruth};
ghost use Rattle.hk_symmem.specs.Origins.{AreOriginsOf};
ghost use Rattle.hk_symmem.specs.Guarded.{IsMemoryOf, IsOver};
ghost use Rattle.hk_symresult.specs.Results as results;
ghost use Rattle.spec_tree.specs.Plain as plain;
ghost use Rattle.spec_tree.specs.Sorted.{IsWellSorted};
ghost use Rattle.spec_tree.specs.View.{view_spec, view_transition};
ghost use Rattle.spec_tree.specs.Meaning.{Memory, Step};
ghost use Rattle.spec_kernel.specs.View.{kernel_of};
ghost use Rattle.spec_kernel.specs.Fit.{FitsModule, Handles};
ghost use Rattle.hk_symspec.specs.Standing.{IsKernelOver, IsStateOver};
ghost use Rattle.hk_symspec.specs.Steps.{AreArgumentTerms, IsResultTerm};
ghost use Rattle.hk_case.specs.declared.Obligation.{Obligation};
ghost use Rattle.hk_case.specs.Violation.{specified};
ghost use Rattle.hk_oblig.specs.GoalTruths.{AreRunParts};
ghost use Rattle.hk_oblig.specs.Telling.{TellsRun};
ghost use Rattle.hk_oblig.specs.Asking.{AreListed, IsOfRun, IsReady, IsTermOf};
ghost use Rattle.hk_oblig.specs.Under.{AreNumbersAt, IsMemoryAt, IsStateAt, TellBehind, TellFirst, TellOut};

use crate::arguments::argument_terms;
use crate::listed::Listed;
use crate::parts::{Parts, RunParts};
use crate::states::{abstraction_of, step_from};
use crate::truths::{agreement_terms, all_invariants, invariant_terms};
use hk_seq::Seq;
use hk_symmem::{InitialReads, SymMemory};
use hk_symresult::{Called, SymResult, execute_to_result};
use hk_symspec::SymStep;
use hk_term::{TermId, Terms};
use ir_kernel::Kernel;
use spec_tree::{Spec, Transition};
use std::alloc::{AllocError, Global};

/// What is asked where a run begins: whether all invariants hold, and the step that the run is to take.
#[derive(Drop)]
pub(crate) struct FirstTerms<R: InitialReads> {
    invariants: TermId,
    step: SymStep<R>,
}

/// What is asked of the memory behind a run: for each invariant whether it holds, and for each field whether it agrees with the end
/// state of the step.
#[derive(Drop)]
pub(crate) struct BehindTerms {
    kept: Seq<TermId>,
    agree: Seq<TermId>,
}

// The terms over the memory where a run begins.
fn first_terms<R: InitialReads>(
    alloc: Global,
    t: &mut Terms,
    spec: &Spec,
    h: u32,
    start: &SymMemory<R>,
    args: &[TermId],
) -> Result<FirstTerms<R>, AllocError>
    requires spec { IsWellSorted (view_spec spec.now) }
    requires there { h < length spec.now.transitions }
    requires start { IsKernelOver (view_spec spec.now) t.old start.now }
    requires args { (u : plain.Transition) → slice_get (view_spec spec.now).transitions h ≡ Some u → AreArgumentTerms t.old u.widths args.now }
    ensures frame { Extends t.old t.new }
    ensures invariants { IfOk result (λ r. IsTruth t.new r.invariants) }
    ensures valid { IfOk result (λ r. IsTruth t.new r.step.valid) }
    ensures over { IfOk result (λ r. IsStateOver (view_spec spec.now) t.new r.step.state) }
    ensures result { IfOk result (λ r. IsTermOf t.new r.step.result) }
    ensures wanted { (u : plain.Transition) → slice_get (view_spec spec.now).transitions h ≡ Some u → IfOk result (λ r. IsResultTerm t.new u r.step.result) }
    ensures told { (u : plain.Transition) → slice_get (view_spec spec.now).transitions h ≡ Some u → IfOk result (λ r. (v : Reading) (m : Memory) (ns : List ℕ) →
        IsMemoryAt t.old start.now v m → AreNumbersAt t.old args.now v ns →
        TellFirst t.new v (view_spec spec.now) m (specified (view_spec spec.now) u m ns) r.invariants r.step.valid r.step.result) }
    ensures state { (u : plain.Transition) → slice_get (view_spec spec.now).transitions h ≡ Some u → IfOk result (λ r. (v : Reading) (m : Memory) (ns : List ℕ) →
        IsMemoryAt t.old start.now v m → AreNumbersAt t.old args.now v ns →
        IsStateAt (view_spec spec.now) t.new r.step.state v (specified (view_spec spec.now) u m ns).state) }
{
    let invariants = all_invariants(alloc, t, spec, start)?;
    let state = abstraction_of(alloc, t, spec, start)?;
    let step = step_from(alloc, t, spec, h, &state, args)?;
    Ok(FirstTerms { invariants, step })
}

// The terms over the memory behind a run, against the step that was to be taken.
fn behind_terms<R: InitialReads>(
    alloc: Global,
    t: &mut Terms,
    spec: &Spec,
    memory: &SymMemory<R>,
    step: &SymStep<R>,
) -> Result<BehindTerms, AllocError>
    requires spec { IsWellSorted (view_spec spec.now) }
    requires memory { IsKernelOver (view_spec spec.now) t.old memory.now }
    requires step { IsStateOver (view_spec spec.now) t.old step.now.state }
    ensures frame { Extends t.old t.new }
    ensures kept { IfOk result (λ r. All (λ k. IsTruth t.new k) r.kept) }
    ensures agree { IfOk result (λ r. All (λ k. IsTruth t.new k) r.agree) }
    ensures invariants { IfOk result (λ r. length r.kept ≡ length spec.now.invariants) }
    ensures fields { IfOk result (λ r. length r.agree ≡ length spec.now.fields) }
    ensures told { IfOk result (λ r. (v : Reading) (after : Memory) (end : Step) → IsMemoryAt t.old memory.now v after →
        IsStateAt (view_spec spec.now) t.old step.now.state v end.state → TellBehind t.new v (view_spec spec.now) after end r.kept r.agree) }
{
    let kept = invariant_terms(alloc, t, spec, memory)?;
    let state = abstraction_of(alloc, t, spec, memory)?;
    let agree = agreement_terms(alloc, t, spec, &state, &step.state)?;
    Ok(BehindTerms { kept, agree })
}

// The parts over the two ends of a run.
fn joined<R: InitialReads>(
    first: &FirstTerms<R>,
    behind: BehindTerms,
    undefined: TermId,
    returned: Option<TermId>,
) -> RunParts
    ensures { result ≡ record { invariants = first.now.invariants; undefined = undefined; kept = behind.kept; agree = behind.agree; result = returned; valid = first.now.step.valid; wanted = first.now.step.result } }
{
    RunParts {
        invariants: first.invariants,
        undefined,
        kept: behind.kept,
        agree: behind.agree,
        result: returned,
        valid: first.step.valid,
        wanted: first.step.result,
    }
}

// The parts of a run.
fn run_parts<R: InitialReads>(
    alloc: Global,
    t: &mut Terms,
    spec: &Spec,
    h: u32,
    start: &SymMemory<R>,
    args: &[TermId],
    run: &SymResult<R>,
) -> Result<RunParts, AllocError>
    requires spec { IsWellSorted (view_spec spec.now) }
    requires there { h < length spec.now.transitions }
    requires start { IsKernelOver (view_spec spec.now) t.old start.now }
    requires args { (u : plain.Transition) → slice_get (view_spec spec.now).transitions h ≡ Some u → AreArgumentTerms t.old u.widths args.now }
    requires undefined { IsTruth t.old run.now.undefined }
    requires result { IsTermOf t.old run.now.result }
    requires behind { IsKernelOver (view_spec spec.now) t.old run.now.memory }
    ensures frame { Extends t.old t.new }
    ensures parts { IfOk result (λ p. AreRunParts t.new p) }
    ensures returned { IfOk result (λ p. p.result ≡ run.now.result) }
    ensures there { IfOk result (λ p. IsTermOf t.new p.wanted) }
    ensures invariants { IfOk result (λ p. length p.kept ≡ length spec.now.invariants) }
    ensures fields { IfOk result (λ p. length p.agree ≡ length spec.now.fields) }
    ensures wanted { (u : plain.Transition) → slice_get (view_spec spec.now).transitions h ≡ Some u → IfOk result (λ p. IsResultTerm t.new u p.wanted) }
    ensures told { (u : plain.Transition) → slice_get (view_spec spec.now).transitions h ≡ Some u → IfOk result (λ p. (k : ModuleView) (v : Reading) (m : Memory) (ns : List ℕ) →
        IsMemoryAt t.old start.now v m → AreNumbersAt t.old args.now v ns →
        TellOut k t.old v u.function m ns run.now.undefined run.now.result run.now.memory → TellsRun k t.new v p (view_spec spec.now) u m ns) }
{
    let first = first_terms(alloc, t, spec, h, start, args)?;
    let behind = behind_terms(alloc, t, spec, &run.memory, &first.step)?;
    Ok(joined(&first, behind, run.undefined, run.result))
}

// The handler's function on terms for its arguments.
fn executed<R: InitialReads>(
    alloc: Global,
    kernel: &Kernel,
    spec: &Spec,
    transition: &Transition,
    start: &SymMemory<R>,
    args: &[TermId],
    t: &mut Terms,
) -> Result<SymResult<R>, AllocError>
    requires runnable { IsRunnable (view_module kernel.now) }
    requires fits { FitsModule (view_module kernel.now) (view_spec spec.now) }
    requires handled { Handles (kernel_of (view_module kernel.now)) (view_transition transition.now) }
    requires width { transition.now.result_width ≤ 64 }
    requires args { AreArgumentTerms t.old transition.now.widths args.now }
    requires start { (l : LayoutView) → IsLayoutOf (view_module kernel.now) l → IsMemoryOf l.objects start.now }
    requires over { IsOver t.old start.now }
    ensures frame { Extends t.old t.new }
    ensures undefined { IfOk result (λ r. IsTruth t.new r.undefined) }
    ensures result { IfOk result (λ r. results.IsResultTerm t.new transition.now.result_width r.result) }
    ensures start { IfOk result (λ r. IsKernelOver (view_spec spec.now) t.new start.now) }
    ensures behind { IfOk result (λ r. IsKernelOver (view_spec spec.now) t.new r.memory) }
    ensures told { IfOk result (λ r. (v : Reading) (m : Memory) (ns : List ℕ) → IsMemoryAt t.old start.now v m → AreNumbersAt t.old args.now v ns →
        TellOut (view_module kernel.now) t.new v transition.now.function m ns r.undefined r.result r.memory) }
{
    let called = Called {
        function: transition.function,
        result_width: transition.result_width,
    };
    let run = execute_to_result(alloc, kernel, kernel.layout(), called, args, start, t)?;
    Ok(run)
}

/// Executes the handler of the transition with this place, from the initial memory that the reads give, and makes the parts of all goals
/// but those of properties.
pub(crate) fn run_listed<R: InitialReads>(
    alloc: Global,
    kernel: &Kernel,
    spec: &Spec,
    h: u32,
    reads: R,
) -> Result<Listed, AllocError>
    requires runnable { IsRunnable (view_module kernel.now) }
    requires spec { IsWellSorted (view_spec spec.now) }
    requires fits { FitsModule (view_module kernel.now) (view_spec spec.now) }
    requires there { h < length spec.now.transitions }
    requires origins { (l : LayoutView) → IsLayoutOf (view_module kernel.now) l → AreOriginsOf l.objects (R.origins reads) }
    ensures listed { IfOk result AreListed }
    ensures ready { (u : plain.Transition) → slice_get (view_spec spec.now).transitions h ≡ Some u → IfOk result (λ l. (o : Obligation) → IsOfRun o →
        IsReady (view_module kernel.now) (R.origins reads) (view_spec spec.now) u l o) }
{
    let transition = &spec.transitions.as_slice()[h as usize];
    let mut terms = Terms::new(alloc);
    let args = argument_terms(alloc, &mut terms, transition.widths.as_slice())?;
    let start = SymMemory::new(alloc, kernel.layout(), reads)?;
    let run = executed(
        alloc,
        kernel,
        spec,
        transition,
        &start,
        args.as_slice(),
        &mut terms,
    )?;
    let parts = run_parts(alloc, &mut terms, spec, h, &start, args.as_slice(), &run)?;
    Ok(Listed {
        terms,
        parts: Parts::Run(parts),
    })
}
