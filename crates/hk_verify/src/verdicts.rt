//! The handlers of a specification, decided and reported one after another.

ghost use Rattle.std.specs.Prelude.{◌≡◌, ◌≤◌, ◌+◌, ◌<◌, true, [], Some, IfOk, OnOk, OnErr, length, slice_get, vec_len};
ghost use Rattle.std.specs.Vec.{vec_capacity};
ghost use Rattle.hk_io.specs.Faults.{Rose};
ghost use Rattle.ir_ast.specs.ProgramView.{view_module};
ghost use Rattle.spec_tree.specs.Sorted.{IsWellSorted};
ghost use Rattle.spec_tree.specs.View.{view_spec, view_transition};
ghost use Rattle.spec_kernel.specs.Fit.{FitsModule};
ghost use Rattle.hk_verdict.specs.Report.{IsShownVerdict};
ghost use Rattle.hk_verify.specs.Verdicts.{Adds, AddsCut, AreCut, AreKept, AreRight, AreShown, HasProofs, IsRightFor, KeepsOne};

use hk_decide::{Handler, decide};
use hk_io::{Sink, SinkFault};
use hk_verdict::{Verdict, put_verdict};
use ir_kernel::Kernel;
use spec_tree::Spec;
use std::alloc::{AllocError, Global};

/// The verdict of the handler at a place: want of memory where it was refused in deciding it.
fn verdict_of(alloc: Global, handler: &Handler, budget: u64, keep: bool) -> Verdict
    requires sorted { IsWellSorted (view_spec handler.now.spec.now) }
    requires fits { FitsModule (view_module handler.now.kernel.now) (view_spec handler.now.spec.now) }
    requires there { slice_get (view_spec handler.now.spec.now).transitions handler.now.place ≡ Some (view_transition handler.now.transition.now) }
    requires budget { 1 ≤ budget }
    ensures right { IsRightFor budget (view_module handler.now.kernel.now) (view_spec handler.now.spec.now) (view_transition handler.now.transition.now) result }
    ensures shown { IsShownVerdict (view_spec handler.now.spec.now) result }
    ensures kept { keep ≡ true → HasProofs (view_spec handler.now.spec.now) (view_transition handler.now.transition.now) result }
{
    // For the proof: the kernel has a layout of its module.
    let _layout = handler.kernel.layout();
    match decide(
        alloc,
        handler.kernel,
        handler.spec,
        handler.place,
        budget,
        keep,
    ) {
        Ok(verdict) => verdict,
        Err(_) => Verdict::Memory,
    }
}

/// Decides one handler, puts its lines and adds its verdict to the list, which has room for it.
fn decide_next<O: Sink>(
    alloc: Global,
    handler: &Handler,
    budget: u64,
    keep: bool,
    verdicts: &mut Vec<Verdict>,
    out: &mut O,
) -> Result<(), SinkFault>
    requires sorted { IsWellSorted (view_spec handler.now.spec.now) }
    requires fits { FitsModule (view_module handler.now.kernel.now) (view_spec handler.now.spec.now) }
    requires there { slice_get (view_spec handler.now.spec.now).transitions handler.now.place ≡ Some (view_transition handler.now.transition.now) }
    requires budget { 1 ≤ budget }
    requires room { vec_len verdicts.old < vec_capacity verdicts.old }
    ensures whole { OnOk result (Adds budget (view_module handler.now.kernel.now) (view_spec handler.now.spec.now) (view_transition handler.now.transition.now) verdicts.old.items verdicts.new.items (O.shown out.old) (O.shown out.new)) }
    ensures cut { OnErr result (AddsCut budget (view_module handler.now.kernel.now) (view_spec handler.now.spec.now) (view_transition handler.now.transition.now) verdicts.old.items verdicts.new.items (O.shown out.old) (O.shown out.new)) }
    ensures failed { OnErr result (Rose (O.faults out.old) (O.faults out.new)) }
    ensures still { OnOk result (O.faults out.new ≡ O.faults out.old) }
    ensures room { vec_capacity verdicts.new ≡ vec_capacity verdicts.old }
    ensures counted { vec_len verdicts.new ≡ vec_len verdicts.old + 1 }
    ensures kept { keep ≡ true → KeepsOne (view_spec handler.now.spec.now) (view_transition handler.now.transition.now) verdicts.old.items verdicts.new.items }
{
    let verdict = verdict_of(alloc, handler, budget, keep);
    let put = put_verdict(
        out,
        handler.kernel,
        handler.spec,
        handler.transition,
        &verdict,
    );
    verdicts.push_reserved(verdict);
    put
}

/// Decides every handler in the order of the specification, a round of the solver with so many conflicts at most: its lines are put
/// before the next one is decided.
///
/// After a failed put the list ends with the handler whose lines failed. Each acceptance has one proof per obligation where they are to be
/// kept.
pub fn decide_all<O: Sink>(
    alloc: Global,
    kernel: &Kernel,
    spec: &Spec,
    budget: u64,
    keep: bool,
    verdicts: &mut Vec<Verdict>,
    out: &mut O,
) -> Result<(), SinkFault>
    requires sorted { IsWellSorted (view_spec spec.now) }
    requires fits { FitsModule (view_module kernel.now) (view_spec spec.now) }
    requires budget { 1 ≤ budget }
    requires empty { verdicts.old.items ≡ [] }
    requires unused { vec_len verdicts.old ≡ 0 }
    requires room { length spec.now.transitions ≤ vec_capacity verdicts.old }
    ensures whole { OnOk result (AreShown budget (view_module kernel.now) (view_spec spec.now) verdicts.new.items (O.shown out.old) (O.shown out.new)) }
    ensures cut { OnErr result (AreCut budget (view_module kernel.now) (view_spec spec.now) verdicts.new.items (O.shown out.old) (O.shown out.new)) }
    ensures failed { OnErr result (Rose (O.faults out.old) (O.faults out.new)) }
    ensures still { OnOk result (O.faults out.new ≡ O.faults out.old) }
    ensures kept { OnOk result (keep ≡ true → AreKept (view_spec spec.now) (view_spec spec.now).transitions verdicts.new.items) }
{
    let transitions = spec.transitions.as_slice();
    for (place, transition) in transitions.iter().enumerate() {
        let handler = Handler {
            kernel,
            spec,
            place: place as u32,
            transition,
        };
        decide_next(alloc, &handler, budget, keep, verdicts, out)?;
    }
    Ok(())
}

/// The verdicts of all handlers in the order of the specification, a round of the solver with so many conflicts at most. Room for all of
/// them is reserved before the first handler is decided, and nothing is put.
pub fn verdicts_of(
    alloc: Global,
    kernel: &Kernel,
    spec: &Spec,
    budget: u64,
) -> Result<Vec<Verdict>, AllocError>
    requires sorted { IsWellSorted (view_spec spec.now) }
    requires fits { FitsModule (view_module kernel.now) (view_spec spec.now) }
    requires budget { 1 ≤ budget }
    ensures { IfOk result (λ verdicts. AreRight budget (view_module kernel.now) (view_spec spec.now) (view_spec spec.now).transitions verdicts.items) }
{
    let transitions = spec.transitions.as_slice();
    let mut verdicts = Vec::with_capacity(alloc, transitions.len())?;
    for (place, transition) in transitions.iter().enumerate() {
        let handler = Handler {
            kernel,
            spec,
            place: place as u32,
            transition,
        };
        let decided = verdict_of(alloc, &handler, budget, false);
        verdicts.push_reserved(decided);
    }
    Ok(verdicts)
}
