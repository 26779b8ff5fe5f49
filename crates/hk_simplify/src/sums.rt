//! Sums with constants: a term is read as another one and a number, so that offsets from one base fold and cancel.

ghost use Rattle.std.specs.Prelude.{◌≡◌, ℕ, ◌^◌, ◌<◌, ◌≤◌, length, IfSome};
ghost use Rattle.hk_num.specs.Numbers.{bvadd};
ghost use Rattle.hk_term.specs.Operations.{binary_value};
ghost use Rattle.hk_term.specs.Shape.{IsWidth, width};
ghost use Rattle.hk_term.specs.Meaning.{Reading, value};
ghost use Rattle.hk_simplify.specs.Forms.{FormFits, form_width, form_value};

use crate::constants::{constant, sized};
use crate::form::Form;
use crate::plain::{binary_number, folded};
use hk_term::{Node, TermId, TermKind, Terms};

// A term and a number, which together are a sum.
#[derive(Clone, Copy, Debug)]
pub(crate) struct Sum {
    pub(crate) of: TermId,
    pub(crate) number: u64,
}

// The two terms of which a term is the sum.
#[derive(Clone, Copy, Debug)]
pub(crate) struct Summands {
    pub(crate) first: TermId,
    pub(crate) second: TermId,
}

// The terms of which a term is the sum, where it is one.
pub(crate) fn summed(t: &Terms, a: TermId) -> Option<Summands>
    requires { a < length t.now }
    ensures first { IfSome result (λ s. (s.first < length t.now) × (width t.now s.first ≡ width t.now a)) }
    ensures second { IfSome result (λ s. (s.second < length t.now) × (width t.now s.second ≡ width t.now a)) }
    ensures value { IfSome result (λ s. (v : Reading) → value t.now a v ≡ bvadd (width t.now a) (value t.now s.first v) (value t.now s.second v)) }
{
    match t.node(a) {
        Node::Binary {
            kind: TermKind::Add,
            a: x,
            b: y,
        } => Some(Summands {
            first: *x,
            second: *y,
        }),
        _ => None,
    }
}

// A term as a sum with a number: that of its constant, or 0.
pub(crate) fn sum_of(t: &Terms, a: TermId) -> Sum
    requires { a < length t.now }
    ensures term { result.of < length t.now }
    ensures width { width t.now result.of ≡ width t.now a }
    ensures is_width { IsWidth (width t.now a) }
    ensures number { result.number < 2 ^ width t.now a }
    ensures below { (v : Reading) → value t.now result.of v < 2 ^ width t.now a }
    ensures value { (v : Reading) → value t.now a v ≡ bvadd (width t.now a) (value t.now result.of v) result.number }
{
    // For the proof: the sum's width is from 1 to 64, and its number below 2 to it.
    let _w = sized(t, a);
    match summed(t, a) {
        Some(parts) => sum_with(t, a, parts.first, parts.second),
        None => Sum { of: a, number: 0 },
    }
}

// The same where the term is the sum of two terms.
fn sum_with(t: &Terms, a: TermId, x: TermId, y: TermId) -> Sum
    requires term { a < length t.now }
    requires first { (x < length t.now) × (width t.now x ≡ width t.now a) }
    requires second { (y < length t.now) × (width t.now y ≡ width t.now a) }
    requires below { (v : Reading) → value t.now a v < 2 ^ width t.now a }
    requires known { (v : Reading) → value t.now a v ≡ bvadd (width t.now a) (value t.now x v) (value t.now y v) }
    ensures term { result.of < length t.now }
    ensures width { width t.now result.of ≡ width t.now a }
    ensures number { result.number < 2 ^ width t.now a }
    ensures below { (v : Reading) → value t.now result.of v < 2 ^ width t.now a }
    ensures value { (v : Reading) → value t.now a v ≡ bvadd (width t.now a) (value t.now result.of v) result.number }
{
    // For the proof: the first part's number is below 2 to its width.
    let _w = sized(t, x);
    match constant(t, y) {
        Some(number) => Sum { of: x, number },
        None => Sum { of: a, number: 0 },
    }
}

// The sum of a term and a number.
pub(crate) fn plus(t: &Terms, a: TermId, n: u64) -> Form
    requires term { a < length t.now }
    requires number { n < 2 ^ width t.now a }
    ensures fits { FormFits t.now result }
    ensures width { form_width t.now result ≡ width t.now a }
    ensures value { (v : Reading) → form_value t.now result v ≡ bvadd (width t.now a) (value t.now a v) n }
{
    let w = sized(t, a);
    let sum = sum_of(t, a);
    let number = hk_num::add(w, sum.number, n);
    if number == 0 {
        Form::Old(sum.of)
    } else {
        binary_number(t, TermKind::Add, sum.of, number)
    }
}

// A term less a number.
pub(crate) fn minus(t: &Terms, a: TermId, n: u64) -> Form
    requires term { a < length t.now }
    requires number { n < 2 ^ width t.now a }
    ensures fits { FormFits t.now result }
    ensures width { form_width t.now result ≡ width t.now a }
    ensures value { (v : Reading) → form_value t.now result v ≡ binary_value TermKind.Sub (width t.now a) (width t.now a) (value t.now a v) n }
{
    let w = sized(t, a);
    plus(t, a, hk_num::sub(w, 0, n))
}

// The difference of two sums of one term with numbers.
pub(crate) fn distance(t: &Terms, a: TermId, b: TermId) -> Option<Form>
    requires first { a < length t.now }
    requires second { b < length t.now }
    requires widths { width t.now a ≡ width t.now b }
    ensures fits { IfSome result (λ f. FormFits t.now f) }
    ensures width { IfSome result (λ f. form_width t.now f ≡ width t.now a) }
    ensures value { IfSome result (λ f. (v : Reading) → form_value t.now f v ≡ binary_value TermKind.Sub (width t.now a) (width t.now b) (value t.now a v) (value t.now b v)) }
{
    let w = sized(t, a);
    let from = sum_of(t, a);
    let to = sum_of(t, b);
    if from.of == to.of {
        Some(folded(TermKind::Sub, w, w, from.number, to.number))
    } else {
        None
    }
}

// Whether two sums of one term with numbers are equal.
pub(crate) fn coincidence(t: &Terms, a: TermId, b: TermId) -> Option<Form>
    requires first { a < length t.now }
    requires second { b < length t.now }
    requires widths { width t.now a ≡ width t.now b }
    ensures fits { IfSome result (λ f. FormFits t.now f) }
    ensures width { IfSome result (λ f. form_width t.now f ≡ 1) }
    ensures value { IfSome result (λ f. (v : Reading) → form_value t.now f v ≡ binary_value TermKind.Eq (width t.now a) (width t.now b) (value t.now a v) (value t.now b v)) }
{
    let w = sized(t, a);
    let from = sum_of(t, a);
    let to = sum_of(t, b);
    if from.of == to.of {
        Some(folded(TermKind::Eq, w, w, from.number, to.number))
    } else {
        None
    }
}

// What is left of a sum of two terms without one of them.
pub(crate) fn rest_of(t: &Terms, a: TermId, b: TermId) -> Option<TermId>
    requires first { a < length t.now }
    requires second { b < length t.now }
    requires widths { width t.now a ≡ width t.now b }
    ensures within { IfSome result (λ x. x < length t.now) }
    ensures width { IfSome result (λ x. width t.now x ≡ width t.now a) }
    ensures value { IfSome result (λ x. (v : Reading) → value t.now x v ≡ binary_value TermKind.Sub (width t.now a) (width t.now b) (value t.now a v) (value t.now b v)) }
{
    let parts = summed(t, a)?;
    // For the proof: the numbers of both parts are below 2 to their widths.
    let _first = sized(t, parts.first);
    let _second = sized(t, parts.second);
    if parts.second == b {
        Some(parts.first)
    } else if parts.first == b {
        Some(parts.second)
    } else {
        None
    }
}
