//! The terms of the parts of a specification.

ghost use Rattle.std.specs.Prelude.{List, IfOk, IfSome};
ghost use Rattle.hk_symspec.specs.Standing.{IsKernelOver, IsStateOver};
ghost use Rattle.hk_term.specs.declared.node.Node.{Node};
ghost use Rattle.spec_tree.specs.Sorted.{IsWellSorted};
ghost use Rattle.spec_tree.specs.View.{view_spec};

use crate::fitting::{are_arguments_of, are_indices_of};
use crate::indices::{At, index_terms, keys_in};
use crate::parts::Part;
use crate::tellings::{Over, Telling};
use hk_seq::Seq;
use hk_symmem::{InitialReads, SymMemory};
use hk_symspec::{SymAbstract, SymStep, invariant_term, property_term, transition_terms};
use hk_term::{Node, TermId, Terms};
use spec_tree::Spec;
use std::alloc::{AllocError, Global};

/// The first of the later arrays.
pub const FIRST_ARRAY: u32 = 1000;

/// The most fields of a state over arrays.
const FIELDS: usize = 65_536;

/// Terms for what a part is told at: a variable for each argument, and the indices.
#[derive(Drop)]
struct Names {
    args: Seq<TermId>,
    index: Seq<TermId>,
}

/// A variable for each width, numbered in their order.
fn variables(alloc: Global, t: &mut Terms, widths: &[u32]) -> Result<Seq<TermId>, AllocError> {
    let mut terms = Seq::new(alloc);
    let mut id: u32 = 0;
    for width in widths {
        let width = (*width).clamp(1, 64);
        terms.push(t.intern(Node::Var { width, id })?)?;
        id = id.saturating_add(1);
    }
    Ok(terms)
}

/// The widths of the arguments of a transition; none where there is no such transition.
pub fn widths_of(spec: &Spec, h: u32) -> &[u32] {
    match spec.transitions.as_slice().get(h as usize) {
        Some(transition) => transition.widths.as_slice(),
        None => &[],
    }
}

/// The widths of the arguments of a part.
fn widths_in(spec: &Spec, part: Part) -> &[u32] {
    match part {
        Part::Valid(h) => widths_of(spec, h),
        Part::ResultOf(h) => widths_of(spec, h),
        Part::FieldBehind(h, _) => widths_of(spec, h),
        Part::PropertyBehind(h, _) => widths_of(spec, h),
        _ => &[],
    }
}

/// The terms that a part is told at.
fn names_for(
    alloc: Global,
    t: &mut Terms,
    spec: &Spec,
    part: Part,
    at: At,
) -> Result<Names, AllocError> {
    let args = variables(alloc, t, widths_in(spec, part))?;
    let index = index_terms(alloc, t, keys_in(spec, part), at)?;
    Ok(Names { args, index })
}

/// The term of a field's entry in a state.
fn entry_term<R: InitialReads>(
    alloc: Global,
    t: &mut Terms,
    spec: &Spec,
    state: &SymAbstract<R>,
    f: u32,
    index: &[TermId],
) -> Result<Option<TermId>, AllocError>
    requires spec { IsWellSorted (view_spec spec.now) }
    requires over { IsStateOver (view_spec spec.now) t.old state.now }
{
    if f as usize >= spec.fields.as_slice().len() {
        return Ok(None);
    }
    if !are_indices_of(&*t, spec, f, index) {
        return Ok(None);
    }
    let made = state.entry(alloc, t, spec, f, index)?;
    Ok(Some(made))
}

/// The term of a property over a state.
fn property_over<R: InitialReads>(
    alloc: Global,
    t: &mut Terms,
    spec: &Spec,
    state: &SymAbstract<R>,
    p: u32,
) -> Result<Option<TermId>, AllocError>
    requires spec { IsWellSorted (view_spec spec.now) }
    requires over { IsStateOver (view_spec spec.now) t.old state.now }
{
    if p as usize >= spec.properties.as_slice().len() {
        return Ok(None);
    }
    let made = property_term(alloc, t, spec, p, state)?;
    Ok(Some(made))
}

/// The terms of a transition from a state.
fn step_from<R: InitialReads>(
    alloc: Global,
    t: &mut Terms,
    spec: &Spec,
    state: &SymAbstract<R>,
    h: u32,
    args: &[TermId],
) -> Result<Option<SymStep<R>>, AllocError>
    requires spec { IsWellSorted (view_spec spec.now) }
    requires over { IsStateOver (view_spec spec.now) t.old state.now }
    ensures { IfOk result (λ found. IfSome found (λ step. IsStateOver (view_spec spec.now) t.new step.state)) }
{
    if h as usize >= spec.transitions.as_slice().len() {
        return Ok(None);
    }
    if !are_arguments_of(&*t, spec, h, args) {
        return Ok(None);
    }
    let step = transition_terms(alloc, t, spec, h, state, args)?;
    Ok(Some(step))
}

/// The term of a part of a transition.
fn behind_term<R: InitialReads>(
    alloc: Global,
    t: &mut Terms,
    spec: &Spec,
    step: &SymStep<R>,
    index: &[TermId],
    part: Part,
) -> Result<Option<TermId>, AllocError>
    requires spec { IsWellSorted (view_spec spec.now) }
    requires over { IsStateOver (view_spec spec.now) t.old step.now.state }
{
    match part {
        Part::Valid(_) => Ok(Some(step.valid)),
        Part::ResultOf(_) => Ok(step.result),
        Part::FieldBehind(_, f) => Ok(entry_term(alloc, t, spec, &step.state, f, index)?),
        Part::PropertyBehind(_, p) => Ok(property_over(alloc, t, spec, &step.state, p)?),
        _ => Ok(None),
    }
}

/// The term of a part of the transition with a place.
fn transition_term<R: InitialReads>(
    alloc: Global,
    t: &mut Terms,
    spec: &Spec,
    state: &SymAbstract<R>,
    names: &Names,
    h: u32,
    part: Part,
) -> Result<Option<TermId>, AllocError>
    requires spec { IsWellSorted (view_spec spec.now) }
    requires over { IsStateOver (view_spec spec.now) t.old state.now }
{
    let found = step_from(alloc, t, spec, state, h, names.args.as_slice())?;
    match found {
        Some(step) => {
            let index = names.index.as_slice();
            Ok(behind_term(alloc, t, spec, &step, index, part)?)
        }
        None => Ok(None),
    }
}

/// The term of an invariant over a memory.
fn invariant_over<R: InitialReads>(
    alloc: Global,
    t: &mut Terms,
    spec: &Spec,
    memory: &SymMemory<R>,
    i: u32,
) -> Result<Option<TermId>, AllocError>
    requires spec { IsWellSorted (view_spec spec.now) }
    requires memory { (nodes : List Node) → IsKernelOver (view_spec spec.now) nodes memory.now }
{
    if i as usize >= spec.invariants.as_slice().len() {
        return Ok(None);
    }
    let made = invariant_term(alloc, t, spec, i, memory)?;
    Ok(Some(made))
}

/// The term of a part over a memory and a state.
fn part_term<R: InitialReads>(
    alloc: Global,
    t: &mut Terms,
    spec: &Spec,
    memory: &SymMemory<R>,
    state: &SymAbstract<R>,
    names: &Names,
    part: Part,
) -> Result<Option<TermId>, AllocError>
    requires spec { IsWellSorted (view_spec spec.now) }
    requires memory { (nodes : List Node) → IsKernelOver (view_spec spec.now) nodes memory.now }
    requires over { IsStateOver (view_spec spec.now) t.old state.now }
{
    match part {
        Part::Invariant(i) => Ok(invariant_over(alloc, t, spec, memory, i)?),
        Part::Property(p) => Ok(property_over(alloc, t, spec, state, p)?),
        Part::Field(f) => Ok(entry_term(alloc, t, spec, state, f, names.index.as_slice())?),
        Part::Valid(h) => Ok(transition_term(alloc, t, spec, state, names, h, part)?),
        Part::ResultOf(h) => Ok(transition_term(alloc, t, spec, state, names, h, part)?),
        Part::FieldBehind(h, _) => Ok(transition_term(alloc, t, spec, state, names, h, part)?),
        Part::PropertyBehind(h, _) => Ok(transition_term(alloc, t, spec, state, names, h, part)?),
    }
}

/// The abstract state over a memory or over arrays.
fn state_over<R: InitialReads>(
    alloc: Global,
    t: &mut Terms,
    spec: &Spec,
    memory: &SymMemory<R>,
    over: Over,
) -> Result<SymAbstract<R>, AllocError>
    requires spec { IsWellSorted (view_spec spec.now) }
    requires memory { (nodes : List Node) → IsKernelOver (view_spec spec.now) nodes memory.now }
    ensures { IfOk result (λ state. IsStateOver (view_spec spec.now) t.new state) }
{
    if spec.fields.as_slice().len() > FIELDS {
        return Err(AllocError);
    }
    match over {
        Over::First => Ok(SymAbstract::free(alloc, spec)),
        Over::Later => Ok(SymAbstract::free_from(alloc, spec, FIRST_ARRAY)),
        _ => Ok(SymAbstract::of_memory(alloc, t, spec, memory)?),
    }
}

/// Makes the term of a part, where an entry is read at a place.
pub fn tell<R: InitialReads>(
    alloc: Global,
    spec: &Spec,
    memory: &SymMemory<R>,
    over: Over,
    part: Part,
    at: At,
) -> Result<Telling, AllocError>
    requires spec { IsWellSorted (view_spec spec.now) }
    requires memory { (nodes : List Node) → IsKernelOver (view_spec spec.now) nodes memory.now }
{
    let mut terms = Terms::new(alloc);
    let names = names_for(alloc, &mut terms, spec, part, at)?;
    let state = state_over(alloc, &mut terms, spec, memory, over)?;
    let term = part_term(alloc, &mut terms, spec, memory, &state, &names, part)?;
    Ok(Telling {
        over,
        at,
        terms,
        term,
    })
}
