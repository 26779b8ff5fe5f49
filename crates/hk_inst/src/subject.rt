//! What an instance speaks of, and the test whether it is one: two reads of one array, or a quantifier with a tuple.

ghost use Rattle.std.specs.Prelude.{◌≡◌, ℕ, ◌<◌, true, List, length, slice_get, Some, IfOk, IfErr, IfSome, IfNone, All};
ghost use Rattle.hk_term.specs.declared.bounds.Bound.{Bound};
ghost use Rattle.hk_term.specs.declared.node.Node.{Node};
ghost use Rattle.hk_inst.specs.Truths.{IsTuple};
ghost use Rattle.hk_inst.specs.Adding.{IsFault, IsSubject};
ghost use Rattle.hk_inst.specs.States.{asked_of};

use crate::instance::{Instance, SizeList};
use crate::state::State;
use hk_term::{Bound, BoundList, Node, TermId, Terms};
use std::alloc::{AllocError, Global};

/// Why an instance is not added.
#[derive(Clone, Copy, PartialEq, Eq, Debug)]
pub enum AddFault {
    /// A number names no read or no quantifier, the two reads are of different arrays, or the indices are no tuple of the
    /// quantifier's variables: there are more or fewer of them, or one is at or past its size.
    NoSuch,
    /// Want of memory.
    Memory,
}

impl From<AllocError> for AddFault {
    ghost use Rattle.std.specs.Prelude.{◌≡◌};
    ghost use Rattle.hk_inst.specs.declared.subject.AddFault.TheVariants.{Memory};

    ghost from_gives = { λ _ fault. fault ≡ Memory };

    fn from(_: AllocError) -> AddFault {
        AddFault::Memory
    }
}

// Two reads with their places, or a quantifier with its variables and its body.
#[derive(Drop)]
pub(crate) enum Subject {
    Reads(TermId, TermId, TermId, TermId),
    Quantifier(TermId, BoundList, TermId),
}

// The array and the place of a read, and none of another node.
pub(crate) fn read_of(node: &Node) -> Option<(u32, TermId)>
    ensures some { IfSome result (λ r. (size : ℕ) × (node.now ≡ Node.Select r.0 size r.1)) }
    ensures none { IfNone result ((array size i : ℕ) → node.now ≡ Node.Select array size i → ⊥) }
{
    match node {
        Node::Select { array, index, .. } => Some((*array, *index)),
        Node::Const { .. } => None,
        Node::Var { .. } => None,
        Node::Unary { .. } => None,
        Node::Binary { .. } => None,
        Node::Choose { .. } => None,
        Node::Resize { .. } => None,
        Node::ForAll { .. } => None,
    }
}

// The read of a number.
fn read_at(terms: &Terms, reads: &[u64], k: u64) -> Option<(TermId, u32, TermId)>
    requires within { All (λ t. t < length terms.now) reads.now }
    ensures some { IfSome result (λ r. (slice_get reads.now k ≡ Some r.0) × ((size : ℕ) × (slice_get terms.now r.0 ≡ Some (Node.Select r.1 size r.2)))) }
    ensures none { IfNone result ((t array size i : ℕ) → slice_get reads.now k ≡ Some t → slice_get terms.now t ≡ Some (Node.Select array size i) → ⊥) }
{
    match reads.get(k as usize) {
        Some(place) => {
            let t = TermId::at(*place);
            match read_of(terms.node(t)) {
                Some((array, index)) => Some((t, array, index)),
                None => None,
            }
        }
        None => None,
    }
}

// Whether there is a number for each bound variable, below its size.
fn is_tuple(bound: &[Bound], indices: &[u64]) -> bool
    ensures yes { result ≡ true → IsTuple bound.now indices.now }
    ensures no { IsTuple bound.now indices.now → result ≡ true }
{
    match bound {
        [] => indices.is_empty(),
        [b, others @ ..] => match indices {
            [] => false,
            [k, rest @ ..] => *k < b.size && is_tuple(others, rest),
        },
    }
}

// The reads of two numbers.
fn pair_of(s: &State, a: u64, b: u64) -> Result<Subject, AddFault>
    requires within { All (λ t. t < length s.now.terms) s.now.reads.items }
    ensures ok { IfOk result (λ x. IsSubject (asked_of s.now).nodes (asked_of s.now).table (Instance.Pair a b) x) }
    ensures err { IfErr result (λ f. IsFault (asked_of s.now).nodes (asked_of s.now).table (Instance.Pair a b) f) }
{
    let reads = s.reads.as_slice();
    let Some(first) = read_at(&s.terms, reads, a) else {
        return Err(AddFault::NoSuch);
    };
    let Some(second) = read_at(&s.terms, reads, b) else {
        return Err(AddFault::NoSuch);
    };
    if first.1 == second.1 {
        Ok(Subject::Reads(first.0, second.0, first.2, second.2))
    } else {
        Err(AddFault::NoSuch)
    }
}

// The variables and the body of a quantifier, and none of another node.
fn quantifier_of(node: &Node) -> Option<(&BoundList, TermId)>
    ensures some { IfSome result (λ r. node.now ≡ Node.ForAll r.0.now r.1) }
    ensures none { IfNone result ((bound : List Bound) (body : ℕ) → node.now ≡ Node.ForAll bound body → ⊥) }
{
    match node {
        Node::ForAll { bound, body } => Some((bound, *body)),
        Node::Const { .. } => None,
        Node::Var { .. } => None,
        Node::Select { .. } => None,
        Node::Unary { .. } => None,
        Node::Binary { .. } => None,
        Node::Choose { .. } => None,
        Node::Resize { .. } => None,
    }
}

// The quantifier of a number.
pub(crate) fn quantifier_at<'a>(
    terms: &'a Terms,
    quantifiers: &[u64],
    k: u64,
) -> Option<(TermId, &'a BoundList, TermId)>
    requires within { All (λ t. t < length terms.now) quantifiers.now }
    ensures some { IfSome result (λ r. (slice_get quantifiers.now k ≡ Some r.0) × (slice_get terms.now r.0 ≡ Some (Node.ForAll r.1.now r.2))) }
    ensures none { IfNone result ((t : ℕ) (bound : List Bound) (body : ℕ) → slice_get quantifiers.now k ≡ Some t → slice_get terms.now t ≡ Some (Node.ForAll bound body) → ⊥) }
{
    match quantifiers.get(k as usize) {
        Some(place) => {
            let t = TermId::at(*place);
            match quantifier_of(terms.node(t)) {
                Some((bound, body)) => Some((t, bound, body)),
                None => None,
            }
        }
        None => None,
    }
}

// The quantifier of a number, with a tuple of its variables.
fn tuple_of(alloc: Global, s: &State, k: u64, indices: &SizeList) -> Result<Subject, AddFault>
    requires within { All (λ t. t < length s.now.terms) s.now.quantifiers.items }
    ensures ok { IfOk result (λ x. IsSubject (asked_of s.now).nodes (asked_of s.now).table (Instance.Tuple k indices.now) x) }
    ensures err { IfErr result (λ f. IsFault (asked_of s.now).nodes (asked_of s.now).table (Instance.Tuple k indices.now) f) }
{
    let Some(found) = quantifier_at(&s.terms, s.quantifiers.as_slice(), k) else {
        return Err(AddFault::NoSuch);
    };
    if !is_tuple(found.1.as_slice(), indices.as_slice()) {
        return Err(AddFault::NoSuch);
    }
    let bound = found.1.copy(alloc)?;
    Ok(Subject::Quantifier(found.0, bound, found.2))
}

// What an instance speaks of. It takes memory only for one that is not refused.
pub(crate) fn subject_of(alloc: Global, s: &State, i: &Instance) -> Result<Subject, AddFault>
    requires reads { All (λ t. t < length s.now.terms) s.now.reads.items }
    requires quantifiers { All (λ t. t < length s.now.terms) s.now.quantifiers.items }
    ensures ok { IfOk result (λ x. IsSubject (asked_of s.now).nodes (asked_of s.now).table i.now x) }
    ensures err { IfErr result (λ f. IsFault (asked_of s.now).nodes (asked_of s.now).table i.now f) }
{
    match i {
        Instance::Pair { a, b } => pair_of(s, *a, *b),
        Instance::Tuple {
            quantifier,
            indices,
        } => tuple_of(alloc, s, *quantifier, indices),
    }
}
