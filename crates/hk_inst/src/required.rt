//! The terms that are required of quantifiers and of instances. They are made without simplification, so that each of their
//! nodes stands in the list.

ghost use Rattle.std.specs.Prelude.{◌≡◌, ℕ, ◌+◌, ◌<◌, ◌≤◌, ◌^◌, List, [], ◌∷◌, length, slice_get, true, Some, IfOk, OnOk};
ghost use Rattle.hk_term.specs.Shape.{NodeFits, node_width, width, Grows};
ghost use Rattle.hk_term.specs.declared.bounds.Bound.{Bound};
ghost use Rattle.hk_term.specs.declared.node.Node.{Node};
ghost use Rattle.hk_copy.specs.declared.stand.Stand.{Stand};
ghost use Rattle.hk_copy.specs.Reach.{Tests, passes, AllPass};
ghost use Rattle.hk_inst.specs.Demanded.{IsAgreement, IsImplication, IsRefutation, IsChoice};
ghost use Rattle.hk_inst.specs.Questions.{wide_from};
ghost use Rattle.hk_inst.specs.Growing.{ids_below};

use hk_term::{Bound, Node, TermId, TermKind, TermResize, Terms};
use std::alloc::AllocError;

// The term of a node.
pub(crate) fn put(terms: &mut Terms, node: Node) -> Result<TermId, AllocError>
    requires { NodeFits (length terms.old) (width terms.old) node }
    ensures at { IfOk result (λ t. slice_get terms.new t ≡ Some node) }
    ensures within { IfOk result (λ t. t < length terms.new) }
    ensures width { IfOk result (λ t. width terms.new t ≡ node_width node (width terms.old)) }
    ensures keeps { (k : ℕ) (n : Node) → slice_get terms.old k ≡ Some n → slice_get terms.new k ≡ Some n }
    ensures keeps_widths { (k : ℕ) → k < length terms.old → width terms.new k ≡ width terms.old k }
    ensures longer { length terms.old ≤ length terms.new }
    ensures grows { (first : List Node) → Grows first terms.old → Grows first terms.new }
    ensures refutes { (b d : ℕ) (bs : List Bound) (ss : List Stand) → IsRefutation terms.old b bs ss d → IsRefutation terms.new b bs ss d }
    ensures adds { (tests : Tests) → AllPass tests terms.old → passes tests node ≡ true → AllPass tests terms.new }
{
    let made = terms.intern(node);
    made
}

// "The variable of this id is below the size, and the rest holds."
fn ranged(terms: &mut Terms, size: u64, id: u32, rest: TermId) -> Result<TermId, AllocError>
    requires rest { rest < length terms.old }
    requires truth { width terms.old rest ≡ 1 }
    ensures refutes { IfOk result (λ r. (b : ℕ) (bound : Bound) (bs : List Bound) (ss : List Stand) → bound.size ≡ size → IsRefutation terms.old b bs ss rest → IsRefutation terms.new b (bound ∷ bs) (Stand.Other 64 id ∷ ss) r) }
    ensures within { IfOk result (λ r. r < length terms.new) }
    ensures width { IfOk result (λ r. width terms.new r ≡ 1) }
    ensures keeps { (k : ℕ) (n : Node) → slice_get terms.old k ≡ Some n → slice_get terms.new k ≡ Some n }
    ensures keeps_widths { (k : ℕ) → k < length terms.old → width terms.new k ≡ width terms.old k }
    ensures longer { length terms.old ≤ length terms.new }
    ensures grows { (first : List Node) → Grows first terms.old → Grows first terms.new }
    ensures adds { OnOk result ((next : ℕ) → id < next → AllPass (ids_below next) terms.old → AllPass (ids_below next) terms.new) }
{
    let variable = put(terms, Node::Var { width: 64, id })?;
    let limit = put(
        terms,
        Node::Const {
            width: 64,
            value: size,
        },
    )?;
    let test = put(
        terms,
        Node::Binary {
            kind: TermKind::Ult,
            a: variable,
            b: limit,
        },
    )?;
    let no = put(terms, Node::Const { width: 1, value: 0 })?;
    let made = put(
        terms,
        Node::Choose {
            condition: test,
            a: rest,
            b: no,
        },
    )?;
    Ok(made)
}

// "This term is false."
fn denied(terms: &mut Terms, copy: TermId) -> Result<TermId, AllocError>
    requires copy { copy < length terms.old }
    requires truth { width terms.old copy ≡ 1 }
    ensures refutes { IfOk result (IsRefutation terms.new copy [] []) }
    ensures within { IfOk result (λ r. r < length terms.new) }
    ensures width { IfOk result (λ r. width terms.new r ≡ 1) }
    ensures keeps { (k : ℕ) (n : Node) → slice_get terms.old k ≡ Some n → slice_get terms.new k ≡ Some n }
    ensures keeps_widths { (k : ℕ) → k < length terms.old → width terms.new k ≡ width terms.old k }
    ensures longer { length terms.old ≤ length terms.new }
    ensures grows { (first : List Node) → Grows first terms.old → Grows first terms.new }
    ensures adds { OnOk result ((next : ℕ) → AllPass (ids_below next) terms.old → AllPass (ids_below next) terms.new) }
{
    let no = put(terms, Node::Const { width: 1, value: 0 })?;
    let yes = put(terms, Node::Const { width: 1, value: 1 })?;
    let made = put(
        terms,
        Node::Choose {
            condition: copy,
            a: no,
            b: yes,
        },
    )?;
    Ok(made)
}

// "The variables from this id on are below the sizes of these, and the copy is false."
fn refutation(
    terms: &mut Terms,
    bound: &[Bound],
    first: u32,
    copy: TermId,
) -> Result<TermId, AllocError>
    requires copy { copy < length terms.old }
    requires truth { width terms.old copy ≡ 1 }
    requires ids { first + length bound.now < 2 ^ 32 }
    ensures refutes { IfOk result (IsRefutation terms.new copy bound.now (wide_from bound.now first)) }
    ensures within { IfOk result (λ r. r < length terms.new) }
    ensures width { IfOk result (λ r. width terms.new r ≡ 1) }
    ensures keeps { (k : ℕ) (n : Node) → slice_get terms.old k ≡ Some n → slice_get terms.new k ≡ Some n }
    ensures keeps_widths { (k : ℕ) → k < length terms.old → width terms.new k ≡ width terms.old k }
    ensures longer { length terms.old ≤ length terms.new }
    ensures grows { (first : List Node) → Grows first terms.old → Grows first terms.new }
    ensures adds { OnOk result ((next : ℕ) → first + length bound.now ≤ next → AllPass (ids_below next) terms.old → AllPass (ids_below next) terms.new) }
{
    match bound {
        [] => denied(terms, copy),
        [b, others @ ..] => {
            let rest = refutation(terms, others, first + 1, copy)?;
            let made = ranged(terms, b.size, first, rest)?;
            Ok(made)
        }
    }
}

// "The quantifier is true, or the variables from this id on are a tuple at which the copy of its body is false."
pub(crate) fn choice(
    terms: &mut Terms,
    term: TermId,
    bound: &[Bound],
    first: u32,
    copy: TermId,
) -> Result<TermId, AllocError>
    requires term { term < length terms.old }
    requires truth { width terms.old term ≡ 1 }
    requires copy { copy < length terms.old }
    requires copy_truth { width terms.old copy ≡ 1 }
    requires ids { first + length bound.now < 2 ^ 32 }
    ensures chooses { IfOk result (IsChoice terms.new term copy bound.now (wide_from bound.now first)) }
    ensures within { IfOk result (λ r. r < length terms.new) }
    ensures keeps { (k : ℕ) (n : Node) → slice_get terms.old k ≡ Some n → slice_get terms.new k ≡ Some n }
    ensures longer { length terms.old ≤ length terms.new }
    ensures grows { (first : List Node) → Grows first terms.old → Grows first terms.new }
    ensures adds { OnOk result ((next : ℕ) → first + length bound.now ≤ next → AllPass (ids_below next) terms.old → AllPass (ids_below next) terms.new) }
{
    let rest = refutation(terms, bound, first, copy)?;
    let one = put(terms, Node::Const { width: 1, value: 1 })?;
    let made = put(
        terms,
        Node::Choose {
            condition: term,
            a: one,
            b: rest,
        },
    )?;
    Ok(made)
}

// "The place, at 64 bits."
fn widened(terms: &mut Terms, place: TermId) -> Result<TermId, AllocError>
    requires place { place < length terms.old }
    ensures at { IfOk result (λ t. slice_get terms.new t ≡ Some (Node.Resize TermResize.Zero 64 place)) }
    ensures within { IfOk result (λ t. t < length terms.new) }
    ensures width { IfOk result (λ t. width terms.new t ≡ 64) }
    ensures keeps { (k : ℕ) (n : Node) → slice_get terms.old k ≡ Some n → slice_get terms.new k ≡ Some n }
    ensures keeps_widths { (k : ℕ) → k < length terms.old → width terms.new k ≡ width terms.old k }
    ensures longer { length terms.old ≤ length terms.new }
    ensures grows { (first : List Node) → Grows first terms.old → Grows first terms.new }
    ensures adds { (tests : Tests) → AllPass tests terms.old → AllPass tests terms.new }
{
    terms.width(place);
    let made = put(
        terms,
        Node::Resize {
            kind: TermResize::Zero,
            to: 64,
            a: place,
        },
    );
    made
}

// "These two are equal."
fn equal(terms: &mut Terms, a: TermId, b: TermId) -> Result<TermId, AllocError>
    requires a { a < length terms.old }
    requires b { b < length terms.old }
    requires widths { width terms.old a ≡ width terms.old b }
    ensures at { IfOk result (λ t. slice_get terms.new t ≡ Some (Node.Binary TermKind.Eq a b)) }
    ensures within { IfOk result (λ t. t < length terms.new) }
    ensures width { IfOk result (λ t. width terms.new t ≡ 1) }
    ensures keeps { (k : ℕ) (n : Node) → slice_get terms.old k ≡ Some n → slice_get terms.new k ≡ Some n }
    ensures keeps_widths { (k : ℕ) → k < length terms.old → width terms.new k ≡ width terms.old k }
    ensures longer { length terms.old ≤ length terms.new }
    ensures grows { (first : List Node) → Grows first terms.old → Grows first terms.new }
    ensures adds { (tests : Tests) → AllPass tests terms.old → AllPass tests terms.new }
{
    let kind = TermKind::Eq;
    let made = put(terms, Node::Binary { kind, a, b });
    made
}

// "If these places are equal, the values of these two reads are."
pub(crate) fn agreement(
    terms: &mut Terms,
    first: TermId,
    second: TermId,
    place: TermId,
    other_place: TermId,
) -> Result<TermId, AllocError>
    requires first { first < length terms.old }
    requires second { second < length terms.old }
    requires values { width terms.old first ≡ width terms.old second }
    requires place { place < length terms.old }
    requires other_place { other_place < length terms.old }
    ensures agrees { IfOk result (λ d. IsAgreement terms.new first second place other_place d) }
    ensures within { IfOk result (λ d. d < length terms.new) }
    ensures grows { (front : List Node) → Grows front terms.old → Grows front terms.new }
    ensures adds { OnOk result ((tests : Tests) → AllPass tests terms.old → AllPass tests terms.new) }
{
    let wide = widened(terms, place)?;
    let other_wide = widened(terms, other_place)?;
    let places = equal(terms, wide, other_wide)?;
    let values = equal(terms, first, second)?;
    let one = put(terms, Node::Const { width: 1, value: 1 })?;
    let made = put(
        terms,
        Node::Choose {
            condition: places,
            a: values,
            b: one,
        },
    )?;
    Ok(made)
}

// "If the quantifier is true, this copy of its body is."
pub(crate) fn implication(
    terms: &mut Terms,
    term: TermId,
    copy: TermId,
) -> Result<TermId, AllocError>
    requires term { term < length terms.old }
    requires truth { width terms.old term ≡ 1 }
    requires copy { copy < length terms.old }
    requires copy_truth { width terms.old copy ≡ 1 }
    ensures implies { IfOk result (λ d. IsImplication terms.new term copy d) }
    ensures within { IfOk result (λ d. d < length terms.new) }
    ensures grows { (front : List Node) → Grows front terms.old → Grows front terms.new }
    ensures adds { OnOk result ((tests : Tests) → AllPass tests terms.old → AllPass tests terms.new) }
{
    let one = put(terms, Node::Const { width: 1, value: 1 })?;
    let made = put(
        terms,
        Node::Choose {
            condition: term,
            a: copy,
            b: one,
        },
    )?;
    Ok(made)
}
