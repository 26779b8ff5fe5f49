//! Equalities with a number: of sums, choices between numbers, extensions and concatenations.

ghost use Rattle.std.specs.Prelude.{◌≡◌, ℕ, ◌+◌, ◌*◌, ◌^◌, ◌<◌, ◌≤◌, length, nat_eq, bit_and, if◌then◌else◌, IfSome};
ghost use Rattle.hk_term.specs.Operations.{bit, resize_value, ResizeFits};
ghost use Rattle.hk_term.specs.Shape.{width};
ghost use Rattle.hk_term.specs.Meaning.{Reading, value};
ghost use Rattle.hk_simplify.specs.Forms.{FormFits, form_width, form_value};

use crate::constants::{constant, greatest, number, sized};
use crate::form::Form;
use crate::plain::{binary_number, undone};
use crate::structure::resize_of;
use crate::sums::sum_of;
use hk_term::{Node, TermId, TermKind, TermResize, Terms, UnaryKind};

// Whether a term is a number of its width.
pub(crate) fn eq_number(t: &Terms, a: TermId, n: u64) -> Form
    requires term { a < length t.now }
    requires number { n < 2 ^ width t.now a }
    ensures fits { FormFits t.now result }
    ensures width { form_width t.now result ≡ 1 }
    ensures value { (v : Reading) → form_value t.now result v ≡ bit (nat_eq (value t.now a v) n) }
{
    match (resize_of(t, a), choice_of(t, a)) {
        (Some(made), _) => eq_resized(t, a, n, made.kind, made.of),
        (None, Some(choice)) => eq_choice(t, choice.condition, choice.first, choice.second, n),
        _ => eq_sum(t, a, n),
    }
}

// The same of a sum with a number: the term without the number is the difference.
fn eq_sum(t: &Terms, a: TermId, n: u64) -> Form
    requires term { a < length t.now }
    requires number { n < 2 ^ width t.now a }
    ensures fits { FormFits t.now result }
    ensures width { form_width t.now result ≡ 1 }
    ensures value { (v : Reading) → form_value t.now result v ≡ bit (nat_eq (value t.now a v) n) }
{
    let w = sized(t, a);
    let sum = sum_of(t, a);
    binary_number(t, TermKind::Eq, sum.of, hk_num::sub(w, n, sum.number))
}

// The same of a term that is itself a term `x` at another width.
fn eq_resized(t: &Terms, a: TermId, n: u64, kind: TermResize, x: TermId) -> Form
    requires term { a < length t.now }
    requires number { n < 2 ^ width t.now a }
    requires earlier { x < a }
    requires fits { ResizeFits kind (width t.now x) (width t.now a) }
    requires known { (v : Reading) → value t.now a v ≡ resize_value kind (width t.now x) (width t.now a) (value t.now x v) }
    ensures fits { FormFits t.now result }
    ensures width { form_width t.now result ≡ 1 }
    ensures value { (v : Reading) → form_value t.now result v ≡ bit (nat_eq (value t.now a v) n) }
{
    let w = sized(t, a);
    let u = sized(t, x);
    let low = n & greatest(u);
    match kind {
        TermResize::Zero if low == n => binary_number(t, TermKind::Eq, x, low),
        TermResize::Zero => number(1, 0),
        TermResize::Sign if hk_num::sext(u, w, low) == n => binary_number(t, TermKind::Eq, x, low),
        TermResize::Sign => number(1, 0),
        TermResize::Extract { .. } => binary_number(t, TermKind::Eq, a, n),
    }
}

// A choice between two numbers.
#[derive(Clone, Copy, Debug)]
struct Choice {
    condition: TermId,
    first: u64,
    second: u64,
}

// The choice between two numbers that a term is.
fn choice_of(t: &Terms, a: TermId) -> Option<Choice>
    requires { a < length t.now }
    ensures condition { IfSome result (λ c. c.condition < length t.now) }
    ensures truth { IfSome result (λ c. width t.now c.condition ≡ 1) }
    ensures value { IfSome result (λ c. (v : Reading) → value t.now a v ≡ (if nat_eq (value t.now c.condition v) 1 then c.first else c.second)) }
{
    match t.node(a) {
        Node::Choose {
            condition,
            a: x,
            b: y,
        } => choice_between(t, *condition, *x, *y),
        _ => None,
    }
}

// The choice between two terms, where they are constants.
fn choice_between(t: &Terms, condition: TermId, x: TermId, y: TermId) -> Option<Choice>
    requires condition { condition < length t.now }
    requires truth { width t.now condition ≡ 1 }
    requires first { x < length t.now }
    requires second { y < length t.now }
    ensures condition { IfSome result (λ c. c.condition < length t.now) }
    ensures truth { IfSome result (λ c. width t.now c.condition ≡ 1) }
    ensures value { IfSome result (λ c. (v : Reading) → (if nat_eq (value t.now condition v) 1 then value t.now x v else value t.now y v) ≡ (if nat_eq (value t.now c.condition v) 1 then c.first else c.second)) }
{
    match (constant(t, x), constant(t, y)) {
        (Some(first), Some(second)) => Some(Choice {
            condition,
            first,
            second,
        }),
        _ => None,
    }
}

// Whether a choice between two numbers is a number.
fn eq_choice(t: &Terms, condition: TermId, first: u64, second: u64, n: u64) -> Form
    requires condition { condition < length t.now }
    requires truth { width t.now condition ≡ 1 }
    ensures fits { FormFits t.now result }
    ensures width { form_width t.now result ≡ 1 }
    ensures value { (v : Reading) → form_value t.now result v ≡ bit (nat_eq (if nat_eq (value t.now condition v) 1 then first else second) n) }
{
    // For the proof: the condition's number is below 2 to its width.
    let _w = sized(t, condition);
    if first == n && second == n {
        number(1, 1)
    } else if first == n {
        Form::Old(condition)
    } else if second == n {
        undone(t, UnaryKind::Not, condition)
    } else {
        number(1, 0)
    }
}

// The halves of a concatenation, with the number that each is to be.
#[derive(Clone, Copy, Debug)]
pub(crate) struct Halves {
    pub(crate) upper: TermId,
    pub(crate) lower: TermId,
    pub(crate) high: u64,
    pub(crate) low: u64,
}

// The halves of a concatenation that is compared with a constant.
pub(crate) fn halves_of(t: &Terms, a: TermId, b: TermId) -> Option<Halves>
    requires first { a < length t.now }
    requires second { b < length t.now }
    requires widths { width t.now a ≡ width t.now b }
    ensures upper { IfSome result (λ h. (h.upper < length t.now) × (h.high < 2 ^ width t.now h.upper)) }
    ensures lower { IfSome result (λ h. (h.lower < length t.now) × (h.low < 2 ^ width t.now h.lower)) }
    ensures value { IfSome result (λ h. (v : Reading) → bit_and (bit (nat_eq (value t.now h.upper v) h.high)) (bit (nat_eq (value t.now h.lower v) h.low)) ≡ bit (nat_eq (value t.now a v) (value t.now b v))) }
{
    match (constant(t, a), constant(t, b)) {
        (None, Some(n)) => halves_at(t, a, n),
        (Some(n), None) => halves_at(t, b, n),
        _ => None,
    }
}

// The halves of a concatenation, with those of a number.
fn halves_at(t: &Terms, a: TermId, n: u64) -> Option<Halves>
    requires term { a < length t.now }
    requires number { n < 2 ^ width t.now a }
    ensures upper { IfSome result (λ h. (h.upper < length t.now) × (h.high < 2 ^ width t.now h.upper)) }
    ensures lower { IfSome result (λ h. (h.lower < length t.now) × (h.low < 2 ^ width t.now h.lower)) }
    ensures value { IfSome result (λ h. (v : Reading) → bit_and (bit (nat_eq (value t.now h.upper v) h.high)) (bit (nat_eq (value t.now h.lower v) h.low)) ≡ bit (nat_eq (value t.now a v) n)) }
{
    match t.node(a) {
        Node::Binary {
            kind: TermKind::Concat,
            a: x,
            b: y,
        } => Some(halved(t, *x, *y, n)),
        _ => None,
    }
}

// Two terms with the halves of a number.
fn halved(t: &Terms, x: TermId, y: TermId, n: u64) -> Halves
    requires first { x < length t.now }
    requires second { y < length t.now }
    requires total { width t.now x + width t.now y ≤ 64 }
    requires number { n < 2 ^ (width t.now x + width t.now y) }
    ensures upper { (result.upper < length t.now) × (result.high < 2 ^ width t.now result.upper) }
    ensures lower { (result.lower < length t.now) × (result.low < 2 ^ width t.now result.lower) }
    ensures value { (v : Reading) → bit_and (bit (nat_eq (value t.now result.upper v) result.high)) (bit (nat_eq (value t.now result.lower v) result.low)) ≡ bit (nat_eq (value t.now x v * 2 ^ width t.now y + value t.now y v) n) }
{
    // For the proof: the upper term's width is from 1 to 64, and its number below 2 to it.
    let _w = sized(t, x);
    let u = sized(t, y);
    Halves {
        upper: x,
        lower: y,
        high: n >> u,
        low: n & greatest(u),
    }
}
