//! The node of each operation, or the constant where its operands are constants.

ghost use Rattle.std.specs.Prelude.{◌≡◌, ℕ, ◌^◌, ◌≤◌, ◌<◌, length, IfSome, IsTrue};
ghost use Rattle.hk_term.specs.Operations.{unary_value, binary_value, binary_width, BinaryFits, resize_value, ResizeFits};
ghost use Rattle.hk_term.specs.Shape.{IsWidth, width};
ghost use Rattle.hk_term.specs.Meaning.{Reading, value};
ghost use Rattle.hk_simplify.specs.Forms.{FormFits, form_width, form_value};

use crate::constants::{constant, number, sized};
use crate::form::{Form, Outer};
use hk_term::{
    Node, TermId, TermKind, TermResize, Terms, UnaryKind, apply_binary, apply_resize, apply_unary,
};

// An operation on one term.
pub(crate) fn unary(t: &Terms, kind: UnaryKind, a: TermId) -> Form
    requires { a < length t.now }
    ensures fits { FormFits t.now result }
    ensures width { form_width t.now result ≡ width t.now a }
    ensures value { (v : Reading) → form_value t.now result v ≡ unary_value kind (width t.now a) (value t.now a v) }
{
    match constant(t, a) {
        Some(n) => {
            let w = t.width(a);
            number(w, apply_unary(kind, w, n))
        }
        None => Form::New(Node::Unary { kind, a }),
    }
}

// An operation on two terms.
pub(crate) fn binary(t: &Terms, kind: TermKind, a: TermId, b: TermId) -> Form
    requires first { a < length t.now }
    requires second { b < length t.now }
    requires fits { BinaryFits kind (width t.now a) (width t.now b) }
    ensures fits { FormFits t.now result }
    ensures width { form_width t.now result ≡ binary_width kind (width t.now a) (width t.now b) }
    ensures value { (v : Reading) → form_value t.now result v ≡ binary_value kind (width t.now a) (width t.now b) (value t.now a v) (value t.now b v) }
{
    match (constant(t, a), constant(t, b)) {
        (Some(m), Some(n)) => folded(kind, t.width(a), t.width(b), m, n),
        _ => Form::New(Node::Binary { kind, a, b }),
    }
}

// An operation on a term and a number of its width.
pub(crate) fn binary_number(t: &Terms, kind: TermKind, a: TermId, n: u64) -> Form
    requires term { a < length t.now }
    requires number { n < 2 ^ width t.now a }
    requires fits { BinaryFits kind (width t.now a) (width t.now a) }
    ensures fits { FormFits t.now result }
    ensures width { form_width t.now result ≡ binary_width kind (width t.now a) (width t.now a) }
    ensures value { (v : Reading) → form_value t.now result v ≡ binary_value kind (width t.now a) (width t.now a) (value t.now a v) n }
{
    let w = sized(t, a);
    match constant(t, a) {
        Some(m) => folded(kind, w, w, m, n),
        None => Form::Over(Node::Const { width: w, value: n }, Outer::Last(kind, a)),
    }
}

// An operation on a number and a term of its width.
pub(crate) fn number_binary(t: &Terms, kind: TermKind, n: u64, a: TermId) -> Form
    requires term { a < length t.now }
    requires number { n < 2 ^ width t.now a }
    requires fits { BinaryFits kind (width t.now a) (width t.now a) }
    ensures fits { FormFits t.now result }
    ensures width { form_width t.now result ≡ binary_width kind (width t.now a) (width t.now a) }
    ensures value { (v : Reading) → form_value t.now result v ≡ binary_value kind (width t.now a) (width t.now a) n (value t.now a v) }
{
    let w = sized(t, a);
    match constant(t, a) {
        Some(m) => folded(kind, w, w, n, m),
        None => Form::Over(Node::Const { width: w, value: n }, Outer::First(kind, a)),
    }
}

// The constant of an operation on two numbers.
pub(crate) fn folded(kind: TermKind, w: u32, u: u32, m: u64, n: u64) -> Form
    requires first_width { IsWidth w }
    requires second_width { IsWidth u }
    requires fits { BinaryFits kind w u }
    requires first { m < 2 ^ w }
    requires second { n < 2 ^ u }
    ensures is { result ≡ Form.New (Node.Const (binary_width kind w u) (binary_value kind w u m n)) }
    ensures width { IsWidth (binary_width kind w u) }
    ensures number { binary_value kind w u m n < 2 ^ binary_width kind w u }
{
    number(width_of(kind, w, u), apply_binary(kind, w, u, m, n))
}

// The width of an operation on two terms of these widths.
fn width_of(kind: TermKind, w: u32, u: u32) -> u32
    requires first { w ≤ 64 }
    requires second { u ≤ 64 }
    ensures { result ≡ binary_width kind w u }
{
    match kind {
        TermKind::Eq => 1,
        TermKind::Ult => 1,
        TermKind::Slt => 1,
        TermKind::Concat => w + u,
        _ => w,
    }
}

// A term at another width.
pub(crate) fn resized(t: &Terms, kind: TermResize, to: u32, a: TermId) -> Form
    requires term { a < length t.now }
    requires fits { ResizeFits kind (width t.now a) to }
    ensures fits { FormFits t.now result }
    ensures width { form_width t.now result ≡ to }
    ensures value { (v : Reading) → form_value t.now result v ≡ resize_value kind (width t.now a) to (value t.now a v) }
{
    match constant(t, a) {
        Some(n) => number(to, apply_resize(kind, t.width(a), to, n)),
        None => Form::New(Node::Resize { kind, to, a }),
    }
}

// An operation on two terms whose operands may be turned round: a constant stands last, and else the earlier term first.
pub(crate) fn commuted(t: &Terms, kind: TermKind, a: TermId, b: TermId) -> Form
    requires first { a < length t.now }
    requires second { b < length t.now }
    requires fits { BinaryFits kind (width t.now a) (width t.now b) }
    requires turned { BinaryFits kind (width t.now b) (width t.now a) }
    requires width { binary_width kind (width t.now b) (width t.now a) ≡ binary_width kind (width t.now a) (width t.now b) }
    requires value { (m n : ℕ) → binary_value kind (width t.now b) (width t.now a) n m ≡ binary_value kind (width t.now a) (width t.now b) m n }
    ensures fits { FormFits t.now result }
    ensures width { form_width t.now result ≡ binary_width kind (width t.now a) (width t.now b) }
    ensures value { (v : Reading) → form_value t.now result v ≡ binary_value kind (width t.now a) (width t.now b) (value t.now a v) (value t.now b v) }
{
    if is_later(t, a, b) {
        binary(t, kind, b, a)
    } else {
        binary(t, kind, a, b)
    }
}

// Whether the first of two terms is to stand last.
fn is_later(t: &Terms, a: TermId, b: TermId) -> bool
    requires first { a < length t.now }
    requires second { b < length t.now }
{
    match (constant(t, a), constant(t, b)) {
        (Some(_), None) => true,
        (None, Some(_)) => false,
        _ => b.place() < a.place(),
    }
}

// An operation that takes itself back: twice the complement or twice the two's complement is the term.
pub(crate) fn undone(t: &Terms, kind: UnaryKind, a: TermId) -> Form
    requires { a < length t.now }
    ensures fits { FormFits t.now result }
    ensures width { form_width t.now result ≡ width t.now a }
    ensures value { (v : Reading) → form_value t.now result v ≡ unary_value kind (width t.now a) (value t.now a v) }
{
    match operand(t, kind, a) {
        Some(x) => Form::Old(x),
        None => unary(t, kind, a),
    }
}

// The term of which a term is the complement, or the two's complement. It is in turn that of the term.
pub(crate) fn operand(t: &Terms, kind: UnaryKind, a: TermId) -> Option<TermId>
    requires { a < length t.now }
    ensures within { IfSome result (λ x. x < length t.now) }
    ensures width { IfSome result (λ x. width t.now x ≡ width t.now a) }
    ensures value { IfSome result (λ x. (v : Reading) → value t.now x v ≡ unary_value kind (width t.now a) (value t.now a v)) }
{
    match t.node(a) {
        Node::Unary { kind: of, a: x } if *of == kind => {
            // For the proof: the operand's number is below 2 to its width.
            let _w = sized(t, *x);
            Some(*x)
        }
        _ => None,
    }
}

// Whether one of two terms is the complement of the other.
pub(crate) fn are_complements(t: &Terms, a: TermId, b: TermId) -> bool
    requires first { a < length t.now }
    requires second { b < length t.now }
    requires widths { width t.now a ≡ width t.now b }
    ensures known { IsTrue result → (v : Reading) → value t.now b v ≡ unary_value UnaryKind.Not (width t.now a) (value t.now a v) }
    ensures width { IsWidth (width t.now a) }
    ensures below { (v : Reading) → value t.now a v < 2 ^ width t.now a }
{
    // For the proof: the first term's width is from 1 to 64, and its number below 2 to it.
    let _w = sized(t, a);
    is_complement(t, b, a) || is_complement(t, a, b)
}

// Whether the first of two terms is the complement of the second. Then the second is that of the first.
fn is_complement(t: &Terms, a: TermId, b: TermId) -> bool
    requires first { a < length t.now }
    requires second { b < length t.now }
    ensures known { IsTrue result → (v : Reading) → value t.now b v ≡ unary_value UnaryKind.Not (width t.now a) (value t.now a v) }
    ensures back { IsTrue result → (v : Reading) → value t.now a v ≡ unary_value UnaryKind.Not (width t.now a) (value t.now b v) }
{
    // For the proof: the first term's number is below 2 to its width.
    let _w = sized(t, a);
    operand(t, UnaryKind::Not, a) == Some(b)
}
