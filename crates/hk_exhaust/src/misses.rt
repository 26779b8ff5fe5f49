//! What the end of a run says of an obligation.

ghost use Rattle.std.specs.Prelude.{◌≡◌, ◌≢◌, ◌<◌, [], not, Some, length, slice_get, slice_index_or, All, IfOk};
ghost use Rattle.spec_tree.specs.Sorted.{IsWellSorted};
ghost use Rattle.spec_tree.specs.Shapes.{AreNumbers, IsMemory};
ghost use Rattle.spec_tree.specs.View.{view_spec, view_transition};
ghost use Rattle.spec_tree.specs.Meaning.{abstraction, meets_result};
ghost use Rattle.spec_state.specs.Lines.{view_step};
ghost use Rattle.ir_kernel.specs.declared.ends.RunEnd.TheVariants as end_of;
ghost use Rattle.hk_case.specs.Violation.{Breaks, Differ, Misses, specified};
ghost use Rattle.hk_exhaust.specs.Answers.{Tells};
ghost use Rattle.hk_exhaust.specs.Handlers.{IsHandler, HasSizes, IsOwed, is_undefined};

use crate::handler::Handler;
use hk_case::Obligation;
use ir_kernel::RunEnd;
use ir_layout::KMemory;
use spec_state::{Step, abstract_of, field_of, invariant_holds, transition};
use spec_tree::Spec;
use spec_value::AbstractState;
use std::alloc::{AllocError, Global};

// Bytes are below 256.
fn are_bytes(bytes: &[u8])
    ensures { All (λ b. b < 256) bytes.now }
{}

/// The bytes of objects are below 256.
pub(crate) fn holds_bytes(memory: &KMemory, objects: u32)
    requires { objects ≡ length memory.now }
    ensures { All (λ o. All (λ b. b < 256) o) memory.now }
{
    'each: for k in 0..objects {
        are_bytes(memory.bytes(k));
    }
}

// Whether entries differ.
fn differ(found: &[u64], wanted: &[u64]) -> bool
    ensures { Tells result (found.now ≢ wanted.now) }
{
    found != wanted
}

// The entries of a field; none where there is no such field.
fn entries_at(state: &AbstractState, field: u32) -> &[u64]
    ensures { result.now ≡ slice_index_or state.now field [] }
{
    let fields = state.as_slice();
    if (field as usize) < fields.len() {
        fields[field as usize].as_slice()
    } else {
        &[]
    }
}

// Whether a returned number meets the specified result.
fn meets(wanted: Option<u64>, valid: bool, number: u64) -> bool
    ensures { result ≡ meets_result wanted valid number }
{
    match wanted {
        Some(wanted) => number == wanted,
        None => { if valid { number == 0 } else { number != 0 } }
    }
}

// Whether an invariant is false in a machine state.
fn breaks(alloc: Global, spec: &Spec, i: u32, memory: &KMemory) -> Result<bool, AllocError>
    requires spec { IsWellSorted (view_spec spec.now) }
    requires there { i < length spec.now.invariants }
    requires memory { IsMemory spec.now.objects memory.now }
    ensures { IfOk result (λ b. Tells b (Breaks (view_spec spec.now) memory.now i)) }
{
    let holds = invariant_holds(alloc, spec, i, memory)?;
    Ok(!holds)
}

// The step that a specification asks for from a machine state.
fn specified_step(
    alloc: Global,
    handler: &Handler,
    memory: &KMemory,
    args: &[u64],
) -> Result<Step, AllocError>
    requires handler { IsHandler handler.now }
    requires memory { IsMemory handler.now.spec.now.objects memory.now }
    requires args { AreNumbers handler.now.transition.now.widths args.now }
    ensures { IfOk result (λ s. view_step s ≡ specified (view_spec handler.now.spec.now) (view_transition handler.now.transition.now) memory.now args.now) }
{
    let before = abstract_of(alloc, handler.spec, memory)?;
    let step = transition(alloc, handler.spec, handler.place, &before, args)?;
    Ok(step)
}

// Whether the abstraction of what a run left differs from the specified state in a field.
fn differs_in(
    alloc: Global,
    handler: &Handler,
    memory: &KMemory,
    args: &[u64],
    field: u32,
    after: &KMemory,
) -> Result<bool, AllocError>
    requires handler { IsHandler handler.now }
    requires memory { IsMemory handler.now.spec.now.objects memory.now }
    requires args { AreNumbers handler.now.transition.now.widths args.now }
    requires there { field < length handler.now.spec.now.fields }
    requires after { IsMemory handler.now.spec.now.objects after.now }
    ensures { IfOk result (λ b. Tells b (Differ (abstraction (view_spec handler.now.spec.now) after.now) (specified (view_spec handler.now.spec.now) (view_transition handler.now.transition.now) memory.now args.now).state field)) }
{
    let found = field_of(alloc, handler.spec, field, after)?;
    let step = specified_step(alloc, handler, memory, args)?;
    Ok(differ(found.as_slice(), entries_at(&step.state, field)))
}

// Whether a returned number is not the specified result.
fn misses_result(
    alloc: Global,
    handler: &Handler,
    memory: &KMemory,
    args: &[u64],
    number: u64,
) -> Result<bool, AllocError>
    requires handler { IsHandler handler.now }
    requires memory { IsMemory handler.now.spec.now.objects memory.now }
    requires args { AreNumbers handler.now.transition.now.widths args.now }
    ensures { IfOk result (λ b. b ≡ not (meets_result (specified (view_spec handler.now.spec.now) (view_transition handler.now.transition.now) memory.now args.now).result (specified (view_spec handler.now.spec.now) (view_transition handler.now.transition.now) memory.now args.now).valid number)) }
{
    let step = specified_step(alloc, handler, memory, args)?;
    Ok(!meets(step.result, step.valid, number))
}

// Whether a run that returned this misses an obligation.
fn misses_returned(
    alloc: Global,
    handler: &Handler,
    memory: &KMemory,
    args: &[u64],
    o: Obligation,
    value: Option<u64>,
    after: &KMemory,
) -> Result<bool, AllocError>
    requires handler { IsHandler handler.now }
    requires memory { IsMemory handler.now.spec.now.objects memory.now }
    requires args { AreNumbers handler.now.transition.now.widths args.now }
    requires owed { IsOwed handler.now.spec.now o }
    requires after { IsMemory handler.now.spec.now.objects after.now }
    ensures { IfOk result (λ b. Tells b (Misses (view_spec handler.now.spec.now) (view_transition handler.now.transition.now) memory.now args.now o (end_of.Returned value after.now))) }
{
    match o {
        Obligation::Undefined => Ok(false),
        Obligation::Invariant(i) => Ok(breaks(alloc, handler.spec, i, after)?),
        Obligation::State(f) => Ok(differs_in(alloc, handler, memory, args, f, after)?),
        Obligation::ResultValue => match value {
            Some(number) => Ok(misses_result(alloc, handler, memory, args, number)?),
            None => Ok(false),
        },
        Obligation::Property(_) => Ok(false),
    }
}

// Whether a run that came to no return misses an obligation.
fn misses_stuck(o: Obligation) -> bool
    ensures { result ≡ is_undefined o }
{
    match o {
        Obligation::Undefined => true,
        Obligation::Invariant(_) => false,
        Obligation::State(_) => false,
        Obligation::ResultValue => false,
        Obligation::Property(_) => false,
    }
}

/// Whether a run from a machine state that came to this end misses an obligation.
pub(crate) fn misses(
    alloc: Global,
    handler: &Handler,
    memory: &KMemory,
    args: &[u64],
    o: Obligation,
    end: &RunEnd,
) -> Result<bool, AllocError>
    requires handler { IsHandler handler.now }
    requires memory { IsMemory handler.now.spec.now.objects memory.now }
    requires args { AreNumbers handler.now.transition.now.widths args.now }
    requires owed { IsOwed handler.now.spec.now o }
    requires sizes { HasSizes memory.now end.now }
    ensures { IfOk result (λ b. Tells b (Misses (view_spec handler.now.spec.now) (view_transition handler.now.transition.now) memory.now args.now o end.now)) }
{
    match end {
        RunEnd::Returned {
            value,
            memory: after,
        } => {
            holds_bytes(after, handler.objects);
            Ok(misses_returned(alloc, handler, memory, args, o, *value, after)?)
        }
        RunEnd::Stuck { .. } => Ok(misses_stuck(o)),
        RunEnd::Lost => Ok(misses_stuck(o)),
    }
}
