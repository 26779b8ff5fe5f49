//! Rejections, run again.

ghost use Rattle.std.specs.Prelude.{◌≡◌, ◌<◌, ◌↔◌, Some, IsTrue, IfOk, IfErr, OnOk, OnErr, length, slice_get, if◌then◌else◌};
ghost use Rattle.hk_io.specs.Faults.{Rose};
ghost use Rattle.hk_io.specs.Shown.{shown_with, ShowsPrefix};
ghost use Rattle.ir_ast.specs.ProgramView.{view_module};
ghost use Rattle.ir_layout.specs.Layouts.{LayoutView, IsLayoutOf};
ghost use Rattle.spec_kernel.specs.Fit.{FitsModule};
ghost use Rattle.spec_tree.specs.Sorted.{IsWellSorted};
ghost use Rattle.spec_tree.specs.View.{view_spec, view_transition};
ghost use Rattle.hk_cert_text.specs.declared.entry.Entry.TheVariants.{Reject};
ghost use Rattle.hk_claims.specs.Lines.{confirmed_line, unconfirmed_line};
ghost use Rattle.hk_claims.specs.Fitting.{AllFit, Fits};
ghost use Rattle.hk_claims.specs.Replays.{AreReplayed, IsSaid, Stops, StopsOne};

use crate::lines::{put_confirmed, put_unconfirmed};
use crate::stop::ClaimStop;
use hk_case::{Case, Obligation};
use hk_cert_text::Entry;
use hk_decide::Handler;
use hk_exhaust::violates;
use hk_io::{Sink, SinkFault};
use ir_kernel::Kernel;
use spec_tree::{Spec, Transition};
use std::alloc::Global;

/// Puts the line of a rejection.
fn put_mark<O: Sink>(
    out: &mut O,
    spec: &Spec,
    transition: &Transition,
    obligation: Obligation,
    violates: bool,
) -> Result<(), SinkFault>
    ensures whole { OnOk result (O.shown out.new ≡ shown_with (O.shown out.old) (if violates then confirmed_line (view_spec spec.now) (view_transition transition.now) obligation else unconfirmed_line (view_spec spec.now) (view_transition transition.now) obligation)) }
    ensures cut { OnErr result (ShowsPrefix (O.shown out.old) (O.shown out.new) (if violates then confirmed_line (view_spec spec.now) (view_transition transition.now) obligation else unconfirmed_line (view_spec spec.now) (view_transition transition.now) obligation)) }
    ensures failed { OnErr result (Rose (O.faults out.old) (O.faults out.new)) }
    ensures still { OnOk result (O.faults out.new ≡ O.faults out.old) }
{
    if violates {
        put_confirmed(out, spec, transition, obligation)
    } else {
        put_unconfirmed(out, spec, transition, obligation)
    }
}

/// Runs the case of a rejection and puts its line; tells whether it is not confirmed.
fn replay_case<O: Sink>(
    alloc: Global,
    handler: &Handler,
    obligation: Obligation,
    case: &Case,
    out: &mut O,
) -> Result<bool, ClaimStop>
    requires sorted { IsWellSorted (view_spec handler.now.spec.now) }
    requires fits { FitsModule (view_module handler.now.kernel.now) (view_spec handler.now.spec.now) }
    requires there { slice_get (view_spec handler.now.spec.now).transitions handler.now.place ≡ Some (view_transition handler.now.transition.now) }
    requires fit { (l : LayoutView) → IsLayoutOf (view_module handler.now.kernel.now) l → Fits l.objects (view_spec handler.now.spec.now) (view_transition handler.now.transition.now) (Reject obligation case.now) }
    ensures said { IfOk result (λ unconfirmed. IsSaid (view_module handler.now.kernel.now) (view_spec handler.now.spec.now) (view_transition handler.now.transition.now, Reject obligation case.now) unconfirmed (O.shown out.old) (O.shown out.new)) }
    ensures still { OnOk result (O.faults out.new ≡ O.faults out.old) }
    ensures stopped { IfErr result (StopsOne (view_module handler.now.kernel.now) (view_spec handler.now.spec.now) (view_transition handler.now.transition.now, Reject obligation case.now) (O.shown out.old) (O.shown out.new) (O.faults out.old) (O.faults out.new)) }
{
    // For the proof: the kernel has a layout of its module.
    let _layout = handler.kernel.layout();
    let violated = violates(
        alloc,
        handler.kernel,
        handler.spec,
        handler.place,
        obligation,
        case,
    )?;
    match put_mark(out, handler.spec, handler.transition, obligation, violated) {
        Ok(()) => Ok(!violated),
        Err(_) => Err(ClaimStop::Write),
    }
}

/// Runs what the certificate says of a handler, where it is a rejection; tells whether it is not confirmed.
fn replay_next<O: Sink>(
    alloc: Global,
    handler: &Handler,
    entry: &Entry,
    out: &mut O,
) -> Result<bool, ClaimStop>
    requires sorted { IsWellSorted (view_spec handler.now.spec.now) }
    requires fits { FitsModule (view_module handler.now.kernel.now) (view_spec handler.now.spec.now) }
    requires there { slice_get (view_spec handler.now.spec.now).transitions handler.now.place ≡ Some (view_transition handler.now.transition.now) }
    requires fit { (l : LayoutView) → IsLayoutOf (view_module handler.now.kernel.now) l → Fits l.objects (view_spec handler.now.spec.now) (view_transition handler.now.transition.now) entry.now }
    ensures said { IfOk result (λ unconfirmed. IsSaid (view_module handler.now.kernel.now) (view_spec handler.now.spec.now) (view_transition handler.now.transition.now, entry.now) unconfirmed (O.shown out.old) (O.shown out.new)) }
    ensures still { OnOk result (O.faults out.new ≡ O.faults out.old) }
    ensures stopped { IfErr result (StopsOne (view_module handler.now.kernel.now) (view_spec handler.now.spec.now) (view_transition handler.now.transition.now, entry.now) (O.shown out.old) (O.shown out.new) (O.faults out.old) (O.faults out.new)) }
{
    match entry {
        Entry::Reject { obligation, case } => {
            replay_case(alloc, handler, *obligation, case, out)
        },
        Entry::Accept { .. } => Ok(false),
        Entry::Unknown(_) => Ok(false),
        Entry::Memory => Ok(false),
    }
}

/// Runs the cases of a certificate's rejections, one handler after another, and puts the line of each; tells whether one of them is not
/// confirmed, since its case does not violate its obligation.
///
/// The conditions are a well-sorted specification that fits the kernel, and entries that fit its handlers, which those of a certificate
/// that was read do. The first put that fails and the first want of memory end it.
pub fn replay_claims<O: Sink>(
    alloc: Global,
    kernel: &Kernel,
    spec: &Spec,
    entries: &[Entry],
    out: &mut O,
) -> Result<bool, ClaimStop>
    requires sorted { IsWellSorted (view_spec spec.now) }
    requires fits { FitsModule (view_module kernel.now) (view_spec spec.now) }
    requires fit { (l : LayoutView) → IsLayoutOf (view_module kernel.now) l → AllFit l.objects (view_spec spec.now) entries.now }
    ensures whole { IfOk result (λ unconfirmed. AreReplayed (view_module kernel.now) (view_spec spec.now) entries.now unconfirmed (O.shown out.old) (O.shown out.new)) }
    ensures still { OnOk result (O.faults out.new ≡ O.faults out.old) }
    ensures stopped { IfErr result (Stops (view_module kernel.now) (view_spec spec.now) entries.now (O.shown out.old) (O.shown out.new) (O.faults out.old) (O.faults out.new)) }
{
    // For the proof: the kernel has a layout of its module.
    let _layout = kernel.layout();
    let transitions = spec.transitions.as_slice();
    let mut unconfirmed = false;
    'each: for place in 0..transitions.len() {
        let handler = Handler {
            kernel,
            spec,
            place: place as u32,
            transition: &transitions[place],
        };
        match replay_next(alloc, &handler, &entries[place], out) {
            Ok(not_confirmed) => unconfirmed |= not_confirmed,
            Err(stop) => return Err(stop),
        }
    }
    Ok(unconfirmed)
}
