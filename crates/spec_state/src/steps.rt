//! Transitions: from a state and arguments the end state, whether the transition is valid, and the result.

ghost use Rattle.std.specs.Prelude.{◌≡◌, ◌<◌, Some, slice_get, length, option_map, if◌then◌else◌, IfOk};
ghost use Rattle.spec_tree.specs.Plain as plain;
ghost use Rattle.spec_tree.specs.Sorted.{IsSorted, IsResult, IsTransition, IsWellSorted, field_sorts};
ghost use Rattle.spec_tree.specs.Shapes.{AreNumbers, IsState};
ghost use Rattle.spec_tree.specs.Value.{value, holds};
ghost use Rattle.spec_tree.specs.View.{view_expr, view_spec, view_transition};
ghost use Rattle.spec_tree.specs.Meaning as meaning;
ghost use Rattle.spec_number.specs.Evaluation.{Stands, context_of, env_of};
ghost use Rattle.spec_state.specs.Lines.{env_with, StandsWith, view_step};

use crate::lines::go_through;
use ir_layout::KMemory;
use spec_number::{Frame, Reading, Source, number_of};
use spec_tree::{Expr, Spec, Transition};
use spec_value::{AbstractState, EntryList, is_true};
use std::alloc::{AllocError, Global};

/// What a transition makes of a state.
#[derive(Drop)]
pub struct Step {
    /// Whether the transition is valid there.
    pub valid: bool,
    /// The end state: the state that came in where the transition is not valid.
    pub state: AbstractState,
    /// The specified result; none where the text gives none.
    pub result: Option<u64>,
}

// The same entries once more.
fn copy_entries(alloc: Global, entries: &EntryList) -> Result<EntryList, AllocError>
    ensures { IfOk result (λ l. l ≡ entries.now) }
{
    Ok(EntryList::of(Vec::from_slice(alloc, entries.as_slice())?))
}

// The same state once more.
fn copy_of(alloc: Global, state: &AbstractState) -> Result<AbstractState, AllocError>
    ensures { IfOk result (λ s. s ≡ state.now) }
{
    let fields = state.as_slice();
    let mut copies = Vec::new(alloc);
    copies.reserve(fields.len())?;
    'each: for entries in fields {
        copies.push(copy_entries(alloc, entries)?)?;
    }
    Ok(AbstractState::of(copies))
}

// The end state, by whether the copy is returned.
fn end_state(
    alloc: Global,
    returned: bool,
    old: &AbstractState,
    new: AbstractState,
) -> Result<AbstractState, AllocError>
    ensures { IfOk result (λ s. s ≡ (if returned then new else old.now)) }
{
    if returned {
        Ok(new)
    } else {
        drop(new);
        Ok(copy_of(alloc, old)?)
    }
}

// The number of a specified result.
fn number_in(
    reading: &Reading,
    frame: &mut Frame,
    e: &Option<Expr>,
    width: u32,
) -> Result<Option<u64>, AllocError>
    requires stands { Stands reading.now frame.old }
    requires sorted { IsResult (context_of reading.now frame.old) width (option_map view_expr e.now) }
    ensures { IfOk result (λ r. r ≡ option_map (value (context_of reading.now frame.old) (env_of reading.now frame.old)) (option_map view_expr e.now)) }
{
    match e {
        Some(e) => {
            let number = number_of(reading, frame, e)?;
            Ok(Some(number.bits))
        }
        None => Ok(None),
    }
}

// Whether the transition is valid, and its result.
#[derive(Clone, Copy)]
struct End {
    valid: bool,
    result: Option<u64>,
}

// The end of a transition, behind its lines.
fn end_of(
    base: &Reading,
    frame: &mut Frame,
    new: &[EntryList],
    transition: &Transition,
) -> Result<End, AllocError>
    requires stands { StandsWith base.now new.now frame.old }
    requires valid { IsSorted (context_of base.now frame.old) (view_expr transition.now.valid) }
    requires number { IsResult (context_of base.now frame.old) transition.now.result_width (option_map view_expr transition.now.result) }
    ensures valid { IfOk result (λ e. e.valid ≡ holds (value (context_of base.now frame.old) (env_with base.now new.now frame.old) (view_expr transition.now.valid))) }
    ensures number { IfOk result (λ e. e.result ≡ option_map (value (context_of base.now frame.old) (env_with base.now new.now frame.old)) (option_map view_expr transition.now.result)) }
{
    let reading = Reading {
        spec: base.spec,
        source: base.source,
        old: base.old,
        new,
        memory: base.memory,
        widths: base.widths,
        args: base.args,
    };
    let valid = number_of(&reading, frame, &transition.valid)?;
    let number = number_in(&reading, frame, &transition.result, transition.result_width)?;
    Ok(End {
        valid: is_true(valid.bits),
        result: number,
    })
}

// What a transition makes of a state.
fn step_of(
    alloc: Global,
    spec: &Spec,
    transition: &Transition,
    state: &AbstractState,
    args: &[u64],
) -> Result<Step, AllocError>
    requires spec { IsWellSorted (view_spec spec.now) }
    requires transition { IsTransition (view_spec spec.now) (view_transition transition.now) }
    requires state { IsState (field_sorts (view_spec spec.now)) state.now }
    requires args { AreNumbers transition.now.widths args.now }
    ensures { IfOk result (λ s. view_step s ≡ meaning.transition (view_spec spec.now) (view_transition transition.now) state.now args.now) }
{
    let memory = KMemory::new(Vec::new(alloc));
    let base = Reading {
        spec,
        source: Source::Step,
        old: state.as_slice(),
        new: &[],
        memory: &memory,
        widths: transition.widths.as_slice(),
        args,
    };
    let mut frame = Frame::new(alloc);
    let mut new = copy_of(alloc, state)?;
    go_through(
        alloc,
        &base,
        &mut frame,
        &mut new,
        transition.lines.as_slice(),
    )?;
    let end = end_of(&base, &mut frame, new.as_slice(), transition)?;
    let after = end_state(alloc, end.valid && transition.returns_new, state, new)?;
    Ok(Step {
        valid: end.valid,
        state: after,
        result: end.result,
    })
}

/// What the transition with this place makes of a state and arguments.
///
/// The conditions are a well-sorted specification, a transition that exists, a state of the specification's shape, and one argument
/// for each width of the transition, below 2 to it.
pub fn transition(
    alloc: Global,
    spec: &Spec,
    h: u32,
    state: &AbstractState,
    args: &[u64],
) -> Result<Step, AllocError>
    requires spec { IsWellSorted (view_spec spec.now) }
    requires there { h < length spec.now.transitions }
    requires state { IsState (field_sorts (view_spec spec.now)) state.now }
    requires args { (t : plain.Transition) → slice_get (view_spec spec.now).transitions h ≡ Some t → AreNumbers t.widths args.now }
    ensures { (t : plain.Transition) → slice_get (view_spec spec.now).transitions h ≡ Some t → IfOk result (λ s. view_step s ≡ meaning.transition (view_spec spec.now) t state.now args.now) }
{
    let transition = &spec.transitions.as_slice()[h as usize];
    Ok(step_of(alloc, spec, transition, state, args)?)
}
