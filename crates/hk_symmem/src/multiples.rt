//! Terms that are seen to be multiples: constant multiples, sums, differences and choices of two that are seen so, and products
//! and left shifts by constants that make them so.

ghost use Rattle.std.specs.Prelude.{◌≡◌, ℕ, ◌%◌, ◌^◌, ◌<◌, length, IfSome, IsTrue};
ghost use Rattle.hk_term.specs.Operations.{binary_value};
ghost use Rattle.hk_term.specs.Shape.{width};
ghost use Rattle.hk_term.specs.Meaning.{Reading, value};
ghost use Rattle.ir_layout.specs.Bytes.{IsWidth};

use hk_term::{Node, TermId, TermKind, Terms};

// The number of a constant.
pub(crate) fn constant(t: &Terms, a: TermId) -> Option<u64>
    requires { a < length t.now }
    ensures { IfSome result (λ n. (v : Reading) → value t.now a v ≡ n) }
{
    match t.node(a) {
        Node::Const { value, .. } => Some(*value),
        _ => None,
    }
}

// Whether a term is a constant multiple of s.
fn is_constant_multiple(t: &Terms, a: TermId, s: u32) -> bool
    requires term { a < length t.now }
    requires s { IsWidth s }
    ensures { IsTrue result → (v : Reading) → value t.now a v % s ≡ 0 }
{
    match constant(t, a) {
        Some(n) => n % u64::from(s) == 0,
        None => false,
    }
}

// Whether a left shift by this term makes multiples of s.
fn is_shift_to_multiples(t: &Terms, a: TermId, s: u32) -> bool
    requires term { a < length t.now }
    requires s { IsWidth s }
    ensures { IsTrue result → (v : Reading) → 2 ^ value t.now a v % s ≡ 0 }
{
    match constant(t, a) {
        Some(n) => makes_multiples(n, s),
        None => false,
    }
}

fn makes_multiples(n: u64, s: u32) -> bool
    requires { IsWidth s }
    ensures { IsTrue result → 2 ^ n % s ≡ 0 }
{
    if n < 3 {
        (1 << n) % u64::from(s) == 0
    } else {
        true
    }
}

// Whether a term of width 64 is seen to be a multiple of s, within so many steps.
#[cycle(is_multiple)]
pub(crate) fn is_multiple(t: &Terms, a: TermId, s: u32, depth: u32) -> bool
    requires term { a < length t.now }
    requires address { width t.now a ≡ 64 }
    requires s { IsWidth s }
    ensures { IsTrue result → (v : Reading) → value t.now a v % s ≡ 0 }
{
    if depth == 0 {
        return false;
    }
    match t.node(a) {
        Node::Const { value, .. } => *value % u64::from(s) == 0,
        Node::Binary { kind, a: x, b: y } => is_multiple_of(t, *kind, *x, *y, s, depth - 1),
        Node::Choose { a: x, b: y, .. } => both_multiples(t, *x, *y, s, depth - 1),
        _ => false,
    }
}

// Whether an operation on two terms is seen to be a multiple of s.
#[cycle(is_multiple)]
fn is_multiple_of(t: &Terms, kind: TermKind, x: TermId, y: TermId, s: u32, depth: u32) -> bool
    requires first { x < length t.now }
    requires second { y < length t.now }
    requires s { IsWidth s }
    ensures { IsTrue result → (v : Reading) → binary_value kind (width t.now x) (width t.now y) (value t.now x v) (value t.now y v) % s ≡ 0 }
{
    if t.width(x) != 64 {
        return false;
    }
    if t.width(y) != 64 {
        return false;
    }
    match kind {
        TermKind::Add => both_multiples(t, x, y, s, depth),
        TermKind::Sub => both_multiples(t, x, y, s, depth),
        TermKind::Mul => is_constant_multiple(t, x, s) || is_constant_multiple(t, y, s),
        TermKind::Shl => is_shift_to_multiples(t, y, s),
        _ => false,
    }
}

// Whether two terms are seen to be multiples of s.
#[cycle(is_multiple)]
fn both_multiples(t: &Terms, x: TermId, y: TermId, s: u32, depth: u32) -> bool
    requires first { x < length t.now }
    requires second { y < length t.now }
    requires s { IsWidth s }
    ensures first { IsTrue result → (v : Reading) → value t.now x v % s ≡ 0 }
    ensures second { IsTrue result → (v : Reading) → value t.now y v % s ≡ 0 }
{
    if t.width(x) == 64 && t.width(y) == 64 {
        is_multiple(t, x, s, depth) && is_multiple(t, y, s, depth)
    } else {
        false
    }
}
