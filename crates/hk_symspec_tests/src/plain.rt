//! The numbers of parts of a specification by evaluation, over a memory and its abstract state.

ghost use Rattle.std.specs.Prelude.{◌≡◌, ◌<◌, Some, length, slice_get, IfOk, IfSome};
ghost use Rattle.spec_tree.specs.Plain as plain;
ghost use Rattle.spec_tree.specs.Shapes.{AreNumbers, IsMemory, IsState};
ghost use Rattle.spec_tree.specs.Sorted.{IsWellSorted, field_sorts};
ghost use Rattle.spec_tree.specs.View.{view_spec};

use crate::fitting::are_numbers_of;
use crate::indices::low;
use crate::parts::Part;
use crate::told::widths_of;
use hk_term::Valuation;
use ir_layout::KMemory;
use spec_state::{Step, abstract_of, invariant_holds, property_holds, transition};
use spec_tree::Spec;
use spec_value::AbstractState;
use std::alloc::{AllocError, Global};

/// The abstract state of a memory.
pub fn state_of(alloc: Global, spec: &Spec, memory: &KMemory) -> Result<AbstractState, AllocError>
    requires spec { IsWellSorted (view_spec spec.now) }
    requires memory { IsMemory spec.now.objects memory.now }
    ensures { IfOk result (λ state. IsState (field_sorts (view_spec spec.now)) state) }
{
    let state = abstract_of(alloc, spec, memory)?;
    Ok(state)
}

/// The numbers that a valuation gives to variables of these widths.
fn numbers_at(alloc: Global, v: &Valuation, widths: &[u32]) -> Result<Vec<u64>, AllocError> {
    let mut numbers = Vec::new(alloc);
    let mut id: u32 = 0;
    for width in widths {
        numbers.push(low(v.vars.get(id), *width))?;
        id = id.saturating_add(1);
    }
    Ok(numbers)
}

/// The step of the transition with this place from a state.
fn step_of(
    alloc: Global,
    spec: &Spec,
    state: &AbstractState,
    h: u32,
    args: &[u64],
) -> Result<Step, AllocError>
    requires spec { IsWellSorted (view_spec spec.now) }
    requires there { h < length spec.now.transitions }
    requires state { IsState (field_sorts (view_spec spec.now)) state.now }
    requires args { (u : plain.Transition) → slice_get (view_spec spec.now).transitions h ≡ Some u → AreNumbers u.widths args.now }
    ensures { IfOk result (λ step. IsState (field_sorts (view_spec spec.now)) step.state) }
{
    let _transition = &spec.transitions.as_slice()[h as usize];
    let step = transition(alloc, spec, h, state, args)?;
    Ok(step)
}

/// The step of a transition from a state, where there is one.
fn step_with(
    alloc: Global,
    spec: &Spec,
    state: &AbstractState,
    h: u32,
    args: &[u64],
) -> Result<Option<Step>, AllocError>
    requires spec { IsWellSorted (view_spec spec.now) }
    requires state { IsState (field_sorts (view_spec spec.now)) state.now }
    ensures { IfOk result (λ found. IfSome found (λ step. IsState (field_sorts (view_spec spec.now)) step.state)) }
{
    if h as usize >= spec.transitions.as_slice().len() {
        return Ok(None);
    }
    if !are_numbers_of(spec, h, args) {
        return Ok(None);
    }
    let step = step_of(alloc, spec, state, h, args)?;
    Ok(Some(step))
}

/// The step of a transition from a state, with the arguments that a valuation gives.
pub fn step_at(
    alloc: Global,
    spec: &Spec,
    state: &AbstractState,
    h: u32,
    v: &Valuation,
) -> Result<Option<Step>, AllocError>
    requires spec { IsWellSorted (view_spec spec.now) }
    requires state { IsState (field_sorts (view_spec spec.now)) state.now }
    ensures { IfOk result (λ found. IfSome found (λ step. IsState (field_sorts (view_spec spec.now)) step.state)) }
{
    let args = numbers_at(alloc, v, widths_of(spec, h))?;
    let step = step_with(alloc, spec, state, h, args.as_slice())?;
    Ok(step)
}

/// The truth of an invariant.
fn invariant_at(
    alloc: Global,
    spec: &Spec,
    memory: &KMemory,
    i: u32,
) -> Result<Option<u64>, AllocError>
    requires spec { IsWellSorted (view_spec spec.now) }
    requires memory { IsMemory spec.now.objects memory.now }
{
    if i as usize >= spec.invariants.as_slice().len() {
        return Ok(None);
    }
    let holds = invariant_holds(alloc, spec, i, memory)?;
    Ok(Some(u64::from(holds)))
}

/// The truth of a property.
fn property_at(
    alloc: Global,
    spec: &Spec,
    state: &AbstractState,
    p: u32,
) -> Result<Option<u64>, AllocError>
    requires spec { IsWellSorted (view_spec spec.now) }
    requires state { IsState (field_sorts (view_spec spec.now)) state.now }
{
    if p as usize >= spec.properties.as_slice().len() {
        return Ok(None);
    }
    let holds = property_holds(alloc, spec, p, state)?;
    Ok(Some(u64::from(holds)))
}

/// The number of a part of a step that is no entry.
fn behind_at(alloc: Global, spec: &Spec, step: &Step, part: Part) -> Result<Option<u64>, AllocError>
    requires spec { IsWellSorted (view_spec spec.now) }
    requires state { IsState (field_sorts (view_spec spec.now)) step.now.state }
{
    match part {
        Part::Valid(_) => Ok(Some(u64::from(step.valid))),
        Part::ResultOf(_) => Ok(step.result),
        Part::PropertyBehind(_, p) => Ok(property_at(alloc, spec, &step.state, p)?),
        _ => Ok(None),
    }
}

/// The number of a part of a transition that is no entry.
fn transition_at(
    alloc: Global,
    spec: &Spec,
    state: &AbstractState,
    h: u32,
    part: Part,
    v: &Valuation,
) -> Result<Option<u64>, AllocError>
    requires spec { IsWellSorted (view_spec spec.now) }
    requires state { IsState (field_sorts (view_spec spec.now)) state.now }
{
    let found = step_at(alloc, spec, state, h, v)?;
    match found {
        Some(step) => Ok(behind_at(alloc, spec, &step, part)?),
        None => Ok(None),
    }
}

/// The number of a part that is no entry.
pub fn number_at(
    alloc: Global,
    spec: &Spec,
    memory: &KMemory,
    state: &AbstractState,
    part: Part,
    v: &Valuation,
) -> Result<Option<u64>, AllocError>
    requires spec { IsWellSorted (view_spec spec.now) }
    requires memory { IsMemory spec.now.objects memory.now }
    requires state { IsState (field_sorts (view_spec spec.now)) state.now }
{
    match part {
        Part::Invariant(i) => Ok(invariant_at(alloc, spec, memory, i)?),
        Part::Property(p) => Ok(property_at(alloc, spec, state, p)?),
        Part::Valid(h) => Ok(transition_at(alloc, spec, state, h, part, v)?),
        Part::ResultOf(h) => Ok(transition_at(alloc, spec, state, h, part, v)?),
        Part::PropertyBehind(h, _) => Ok(transition_at(alloc, spec, state, h, part, v)?),
        _ => Ok(None),
    }
}
