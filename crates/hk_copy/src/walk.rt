//! The walk over a term that copies it, with a stack of the terms that wait for the copies of their parts.
//!
//! Each term that is reached is copied once for what its variables stand for, behind its parts. A quantifier that hides no
//! variable that stands for something is an operation on its body; where it hides some, its body is copied by a walk of its
//! own under the others.

ghost use Rattle.std.specs.Prelude.{◌≡◌, ◌≢◌, ℕ, ◌+◌, ◌*◌, ◌<◌, ◌≤◌, List, length, reverse, slice_get, true, Some, None, IfOk, OnOk};
ghost use Rattle.std.specs.List.{All};
ghost use Rattle.std.specs.BTreeMap as tree;
ghost use Rattle.std.specs.Ordering.{nat_cmp};
ghost use Rattle.hk_term.specs.Shape.{AllFitIn, width, Grows};
ghost use Rattle.hk_term.specs.Meaning.{Reading, value};
ghost use Rattle.hk_term.specs.declared.node.Node.{Node};
ghost use Rattle.hk_copy.specs.Stands.{Stands, IsApart, replaced};
ghost use Rattle.hk_copy.specs.Copies.{Copies, AreReady};
ghost use Rattle.hk_copy.specs.Cost.{cost};
ghost use Rattle.hk_copy.specs.Reach.{Reads, Quantifies, Frees, IsFreed, Tests, AllPass, StandsPass};
ghost use Rattle.hk_term.specs.declared.bounds.Bound.{Bound};
ghost use Rattle.hk_copy.specs.Making.{AllCopies, IsOperation, IsPlan, IsOutcome, IsStanding, missing};

use crate::fold::folded;
use crate::renew::{copy_of, renewed};
use crate::stand::{Stand, hides, without};
use crate::variable::{put, variable};
use hk_term::{BoundList, Node, TermId, Terms};
use std::alloc::{AllocError, Global};
use std::collections::BTreeMap;

/// The copy of a term in which variables are replaced by numbers and by other variables: its value is that of the term under
/// the replaced reading. Only what the term reaches is read and copied, once for each set of variables that its quantifiers
/// leave. Constants are folded. The list grows at its end alone, also before want of memory. Widths are in bits.
pub fn copy(
    alloc: Global,
    terms: &mut Terms,
    term: TermId,
    stands: &[(u32, Stand)],
) -> Result<TermId, AllocError>
    requires term { term < length terms.old }
    requires ready { AreReady terms.old stands.now (term + 1) }
    ensures copies { IfOk result (λ r. Copies terms.new stands.now term r) }
    ensures within { IfOk result (λ r. r < length terms.new) }
    ensures width { IfOk result (λ r. width terms.new r ≡ width terms.old term) }
    ensures value { IfOk result (λ r. (v : Reading) → value terms.new r v ≡ value terms.old term (replaced stands.now v)) }
    ensures cost { IfOk result (λ r. cost terms.new r ≤ cost terms.old term) }
    ensures keeps_widths { (k : ℕ) → k < length terms.old → width terms.new k ≡ width terms.old k }
    ensures keeps_values { (k : ℕ) → k < length terms.old → (v : Reading) → value terms.new k v ≡ value terms.old k v }
    ensures keeps_nodes { (k : ℕ) → k < length terms.old → slice_get terms.new k ≡ slice_get terms.old k }
    ensures longer { length terms.old ≤ length terms.new }
    ensures grows { Grows terms.old terms.new }
    ensures reads { IfOk result (λ r. (array size : ℕ) → Reads terms.new array size r → Reads terms.old array size term) }
    ensures quantifiers { IfOk result (λ r. (bound : List Bound) → Quantifies terms.new bound r → Quantifies terms.old bound term) }
    ensures free { IfOk result (λ r. (size id : ℕ) → Frees terms.new size id r → IsFreed terms.old size id stands.now term) }
    ensures adds { (tests : Tests) → AllPass tests terms.old → StandsPass tests stands.now → AllPass tests terms.new }
{
    let made = copy_under(alloc, terms, term, stands);
    // For the proof: each node of the list fits behind those before it.
    let _len = terms.len();
    made
}

// How the copy of a term is had: after that of a part, as a variable's, by a node that fits, or as a quantifier's that hides
// variables.
#[derive(Drop)]
enum Plan {
    Wait(TermId),
    Variable(u32, u32),
    Make(Node),
    Inside(BoundList, TermId),
}

// What came of a step: the copy of a term, or a part of it that has none yet.
#[derive(Clone, Copy)]
enum Outcome {
    Copied(TermId),
    Waits(TermId),
}

// How the copy of a term is had, where its parts have these copies.
fn plan_for(
    alloc: Global,
    terms: &Terms,
    t: TermId,
    stands: &[(u32, Stand)],
    copies: &BTreeMap<u64, TermId>,
) -> Result<Plan, AllocError>
    requires term { t < length terms.now }
    requires ready { AreReady terms.now stands.now (t + 1) }
    requires copies { AllCopies terms.now stands.now copies.now }
    ensures { IfOk result (IsPlan terms.now stands.now copies.now t) }
{
    // For the proof: each node of the list fits behind those before it.
    let _len = terms.len();
    match terms.node(t) {
        Node::Var { width, id } => Ok(Plan::Variable(*width, *id)),
        Node::ForAll { bound, body } => quantified(alloc, terms, t, bound, *body, stands, copies),
        node => Ok(made(terms, t, node, stands, copies)),
    }
}

// The same of a quantifier.
fn quantified(
    alloc: Global,
    terms: &Terms,
    t: TermId,
    bound: &BoundList,
    body: TermId,
    stands: &[(u32, Stand)],
    copies: &BTreeMap<u64, TermId>,
) -> Result<Plan, AllocError>
    requires fit { AllFitIn (reverse terms.now) }
    requires term { slice_get terms.now t ≡ Some (Node.ForAll bound.now body) }
    requires apart { All (λ e. IsApart bound.now e.1) stands.now }
    requires copies { AllCopies terms.now stands.now copies.now }
    ensures { IfOk result (IsPlan terms.now stands.now copies.now t) }
{
    let hidden = hides(bound.as_slice(), stands);
    if hidden {
        let bound = bound.copy(alloc)?;
        return Ok(Plan::Inside(bound, body));
    }
    match copy_of(copies, body) {
        Ok(body) => {
            let bound = bound.copy(alloc)?;
            Ok(Plan::Make(Node::ForAll { bound, body }))
        }
        Err(part) => Ok(Plan::Wait(part)),
    }
}

// The same of a constant, a read or an operation.
fn made(
    terms: &Terms,
    t: TermId,
    node: &Node,
    stands: &[(u32, Stand)],
    copies: &BTreeMap<u64, TermId>,
) -> Plan
    requires fit { AllFitIn (reverse terms.now) }
    requires term { slice_get terms.now t ≡ Some node.now }
    requires operation { IsOperation node.now }
    requires copies { AllCopies terms.now stands.now copies.now }
    ensures { IsPlan terms.now stands.now copies.now t result }
{
    match renewed(node, copies) {
        Ok(node) => Plan::Make(folded(terms, node)),
        Err(part) => Plan::Wait(part),
    }
}

// The copy of a term, where its parts have these copies, or a part that has none.
#[cycle(copying)]
fn copy_at(
    alloc: Global,
    terms: &mut Terms,
    t: TermId,
    stands: &[(u32, Stand)],
    copies: &BTreeMap<u64, TermId>,
) -> Result<Outcome, AllocError>
    requires term { t < length terms.old }
    requires ready { AreReady terms.old stands.now (t + 1) }
    requires copies { AllCopies terms.old stands.now copies.now }
    ensures outcome { IfOk result (IsOutcome terms.new stands.now copies.now t) }
    ensures keeps_copies { (env : Stands) (k r : ℕ) → Copies terms.old env k r → Copies terms.new env k r }
    ensures keeps_nodes { (k : ℕ) → k < length terms.old → slice_get terms.new k ≡ slice_get terms.old k }
    ensures longer { length terms.old ≤ length terms.new }
    ensures grows { (first : List Node) → Grows first terms.old → Grows first terms.new }
    ensures adds { (tests : Tests) → AllPass tests terms.old → StandsPass tests stands.now → AllPass tests terms.new }
{
    match plan_for(alloc, terms, t, stands, copies)? {
        Plan::Wait(part) => Ok(Outcome::Waits(part)),
        Plan::Variable(width, id) => {
            let copy = variable(terms, width, id, stands)?;
            Ok(Outcome::Copied(copy))
        }
        Plan::Make(node) => {
            let copy = put(terms, node)?;
            Ok(Outcome::Copied(copy))
        }
        Plan::Inside(bound, body) => {
            let copy = inside(alloc, terms, bound, body, stands)?;
            Ok(Outcome::Copied(copy))
        }
    }
}

// The copy of a quantifier that hides variables: its body is copied under what is left.
#[cycle(copying)]
fn inside(
    alloc: Global,
    terms: &mut Terms,
    bound: BoundList,
    body: TermId,
    stands: &[(u32, Stand)],
) -> Result<TermId, AllocError>
    requires body { body < length terms.old }
    requires truth { width terms.old body ≡ 1 }
    requires ready { AreReady terms.old stands.now (body + 1) }
    requires apart { All (λ e. IsApart bound e.1) stands.now }
    ensures copies { IfOk result (λ r. (t : ℕ) → slice_get terms.new t ≡ Some (Node.ForAll bound body) → Copies terms.new stands.now t r) }
    ensures keeps_copies { (env : Stands) (k r : ℕ) → Copies terms.old env k r → Copies terms.new env k r }
    ensures keeps_nodes { (k : ℕ) → k < length terms.old → slice_get terms.new k ≡ slice_get terms.old k }
    ensures longer { length terms.old ≤ length terms.new }
    ensures grows { (first : List Node) → Grows first terms.old → Grows first terms.new }
    ensures adds { (tests : Tests) → AllPass tests terms.old → tests.quantifier bound ≡ true → StandsPass tests stands.now → AllPass tests terms.new }
{
    let left = without(alloc, bound.as_slice(), stands)?;
    let copy = copy_under(alloc, terms, body, left.as_slice())?;
    // For the proof: each node of the list fits behind those before it.
    let _len = terms.len();
    let made = put(terms, Node::ForAll { bound, body: copy })?;
    Ok(made)
}

// Puts a copy into the table.
fn keep(copies: &mut BTreeMap<u64, TermId>, t: TermId, copy: TermId) -> Result<(), AllocError>
    ensures kept { OnOk result (tree.get nat_cmp copies.new t ≡ Some copy) }
    ensures others { (k : ℕ) → k ≢ t → tree.get nat_cmp copies.new k ≡ tree.get nat_cmp copies.old k }
{
    copies.insert(t.place(), copy)?;
    Ok(())
}

// Where the walk goes on: at the last of the terms that wait, or at the walk's own term where none is left. All that wait stand
// before the walk's term and have no copy; that it is tested spares an invariant of the stack.
fn next(term: TermId, copies: &BTreeMap<u64, TermId>, waiting: &mut Vec<TermId>) -> TermId
    ensures { IsStanding copies.now term result }
{
    match waiting.pop() {
        Some(at) if at.place() < term.place() && !copies.contains_key(&at.place()) => at,
        _ => term,
    }
}

// One step of the walk for a term that has no copy yet, at a term: its copy is made, or it waits for a part.
#[cycle(copying)]
fn advance(
    alloc: Global,
    terms: &mut Terms,
    term: TermId,
    at: TermId,
    stands: &[(u32, Stand)],
    copies: &mut BTreeMap<u64, TermId>,
    waiting: &mut Vec<TermId>,
) -> Result<TermId, AllocError>
    requires term { term < length terms.old }
    requires ready { AreReady terms.old stands.now (term + 1) }
    requires copies { AllCopies terms.old stands.now copies.old }
    requires standing { IsStanding copies.old term at }
    requires going { tree.get nat_cmp copies.old term ≡ None }
    ensures copies { IfOk result (λ r. AllCopies terms.new stands.now copies.new) }
    ensures standing { IfOk result (λ r. IsStanding copies.new term r) }
    ensures smaller { IfOk result (λ r. missing copies.new (term + 1) * (term + 1) + r < missing copies.old (term + 1) * (term + 1) + at) }
    ensures keeps_copies { (env : Stands) (k r : ℕ) → Copies terms.old env k r → Copies terms.new env k r }
    ensures keeps_nodes { (k : ℕ) → k < length terms.old → slice_get terms.new k ≡ slice_get terms.old k }
    ensures longer { length terms.old ≤ length terms.new }
    ensures grows { (first : List Node) → Grows first terms.old → Grows first terms.new }
    ensures adds { (tests : Tests) → AllPass tests terms.old → StandsPass tests stands.now → AllPass tests terms.new }
{
    match copy_at(alloc, terms, at, stands, copies)? {
        Outcome::Copied(copy) => {
            keep(copies, at, copy)?;
            Ok(next(term, copies, waiting))
        }
        Outcome::Waits(part) => {
            waiting.push(at)?;
            Ok(part)
        }
    }
}

// The copy of a term under what variables stand for.
#[cycle(copying)]
fn copy_under(
    alloc: Global,
    terms: &mut Terms,
    term: TermId,
    stands: &[(u32, Stand)],
) -> Result<TermId, AllocError>
    requires term { term < length terms.old }
    requires ready { AreReady terms.old stands.now (term + 1) }
    ensures copies { IfOk result (λ r. Copies terms.new stands.now term r) }
    ensures keeps_copies { (env : Stands) (k r : ℕ) → Copies terms.old env k r → Copies terms.new env k r }
    ensures keeps_nodes { (k : ℕ) → k < length terms.old → slice_get terms.new k ≡ slice_get terms.old k }
    ensures longer { length terms.old ≤ length terms.new }
    ensures grows { (first : List Node) → Grows first terms.old → Grows first terms.new }
    ensures adds { (tests : Tests) → AllPass tests terms.old → StandsPass tests stands.now → AllPass tests terms.new }
{
    let mut copies = BTreeMap::new(alloc);
    let mut waiting = Vec::new(alloc);
    let mut at = term;
    'going: loop {
        if let Some(copy) = copies.get(&term.place()) {
            return Ok(*copy);
        }
        at = advance(alloc, terms, term, at, stands, &mut copies, &mut waiting)?;
    }
}
