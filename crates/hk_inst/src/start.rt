//! The start of a question: the goal is blasted, and its literal is required.

ghost use Rattle.std.specs.Prelude.{◌≡◌, ℕ, ◌<◌, ◌≤◌, [], true, nat_eq, nat_lt, length, IfOk};
ghost use Rattle.hk_term.specs.Shape.{Grows};
ghost use Rattle.hk_term.specs.Meaning.{reading_of, value};
ghost use Rattle.std.specs.List.{list_all};
ghost use Rattle.hk_copy.specs.Reach.{passes, AllPass};
ghost use Rattle.hk_inst.specs.Growing.{IsGoal, IsGrowing, ids_below};
ghost use Rattle.hk_inst.specs.States.{asked_of, IsKept};

use crate::added::InstanceSet;
use crate::growth::close;
use crate::numbering::numbered;
use crate::state::{State, make, require};
use hk_blast::BitTable;
use hk_cnf::Gates;
use hk_term::{Bound, Node, TermId, Terms, Valuation, ValueRoom};
use std::alloc::{AllocError, Global};

// An id behind an id and an end. Where ids are used up it is want of memory.
fn past(id: u32, end: u32) -> Result<u32, AllocError>
    ensures { IfOk result (λ n. (end ≤ n) × (id < n)) }
{
    if id < end {
        return Ok(end);
    }
    if id == u32::MAX {
        return Err(AllocError);
    }
    Ok(id + 1)
}

fn past_bound(bound: &[Bound], end: u32) -> Result<u32, AllocError>
    ensures { IfOk result (λ n. (end ≤ n) × (list_all (λ b. nat_lt b.id n) bound.now ≡ true)) }
{
    match bound {
        [] => Ok(end),
        [b, rest @ ..] => {
            let reached = past(b.id, end)?;
            let all = past_bound(rest, reached)?;
            Ok(all)
        }
    }
}

fn past_node(node: &Node, end: u32) -> Result<u32, AllocError>
    ensures { IfOk result (λ n. (end ≤ n) × (passes (ids_below n) node.now ≡ true)) }
{
    match node {
        Node::Var { id, .. } => past(*id, end),
        Node::ForAll { bound, .. } => past_bound(bound.as_slice(), end),
        Node::Const { .. } => Ok(end),
        Node::Select { .. } => Ok(end),
        Node::Unary { .. } => Ok(end),
        Node::Binary { .. } => Ok(end),
        Node::Choose { .. } => Ok(end),
        Node::Resize { .. } => Ok(end),
    }
}

// An id behind all ids of a list, free and bound.
fn ids_end(terms: &Terms) -> Result<u32, AllocError>
    ensures { IfOk result (λ n. AllPass (ids_below n) terms.now) }
{
    let mut end = 0;
    for k in 0..terms.len() {
        end = past_node(terms.node(TermId::at(k)), end)?;
    }
    Ok(end)
}

// A question of which no entry is gone through yet.
pub(crate) fn begin(alloc: Global, terms: Terms, goal: TermId) -> Result<State, AllocError>
    requires there { goal < length terms }
    requires goal { IsGoal terms goal }
    ensures growing { IfOk result (λ s. IsGrowing (asked_of s) s.first s.next 0) }
    ensures terms { IfOk result (λ s. s.terms ≡ terms) }
    ensures goal { IfOk result (λ s. s.goal ≡ goal) }
    ensures instances { IfOk result (λ s. s.instances ≡ []) }
{
    let first = ids_end(&terms)?;
    let mut gates = Gates::new(alloc);
    let mut bits = BitTable::new(alloc);
    make(&terms, goal, &mut gates, &mut bits)?;
    require(goal, &mut gates, &bits)?;
    terms.len();
    Ok(State {
        terms,
        goal,
        gates,
        bits,
        reads: Vec::new(alloc),
        quantifiers: Vec::new(alloc),
        openings: Vec::new(alloc),
        instances: InstanceSet::new(alloc),
        demands: Vec::new(alloc),
        first,
        next: first,
    })
}

/// A question of which all entries are gone through, with its reads and quantifiers by their numbers.
pub(crate) fn made(alloc: Global, terms: Terms, goal: TermId) -> Result<State, AllocError>
    requires there { goal < length terms }
    requires goal { IsGoal terms goal }
    ensures kept { IfOk result (λ s. IsKept s) }
    ensures terms { IfOk result (λ s. Grows terms s.terms) }
    ensures goal { IfOk result (λ s. s.goal ≡ goal) }
    ensures instances { IfOk result (λ s. s.instances ≡ []) }
{
    let mut state = begin(alloc, terms, goal)?;
    close(alloc, &mut state, 0)?;
    let reads = numbered(alloc, &state.terms, &state.bits, 0, true)?;
    let quantifiers = numbered(alloc, &state.terms, &state.bits, 0, false)?;
    state.reads = reads;
    state.quantifiers = quantifiers;
    Ok(state)
}

/// Whether a truth value holds under a valuation.
pub(crate) fn holds(
    alloc: Global,
    terms: &Terms,
    t: TermId,
    v: &Valuation,
) -> Result<bool, AllocError>
    requires { t < length terms.now }
    ensures { IfOk result (λ b. b ≡ nat_eq (value terms.now t (reading_of v.now)) 1) }
{
    let mut room = ValueRoom::new(alloc, terms)?;
    let value = terms.value_with(v, t, &mut room);
    Ok(value == 1)
}
