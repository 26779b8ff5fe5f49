//! Terms that are seen to be multiples: constant multiples, sums, differences and choices of two that are seen so, and products
//! and left shifts by constants that make them so.

ghost use Rattle.std.specs.Prelude.{◌≡◌, ℕ, ◌-◌, ◌%◌, ◌^◌, ◌<◌, ◌&&◌, length, slice_get, IfSome, IsTrue};
ghost use Rattle.hk_term.specs.Operations.{binary_value, binary_width, BinaryFits};
ghost use Rattle.hk_term.specs.Shape.{width};
ghost use Rattle.hk_term.specs.Meaning.{Reading, value};
ghost use Rattle.ir_layout.specs.Bytes.{IsWidth};
ghost use Rattle.hk_cells.specs.Multiples as definition;

use hk_term::{Node, TermId, TermKind, Terms};

// Whether a term is a constant multiple of s.
fn is_constant(t: &Terms, a: TermId, s: u32) -> bool
    requires term { a < length t.now }
    requires s { IsWidth s }
    ensures is { result ≡ definition.is_constant s (slice_get t.now a) }
    ensures multiple { IsTrue result → (v : Reading) → value t.now a v % s ≡ 0 }
{
    match t.node(a) {
        Node::Const { value, .. } => *value % u64::from(s) == 0,
        _ => false,
    }
}

// Whether a left shift by this number makes multiples of s.
#[tactic(auto, using(hk_symmem::proofs::Wholes::power_multiple))]
fn makes_multiples(n: u64, s: u32) -> bool
    requires { IsWidth s }
    ensures is { result ≡ definition.makes_multiples s n }
    ensures multiple { IsTrue result → 2 ^ n % s ≡ 0 }
{
    n >= 3 || (1 << n) % u64::from(s) == 0
}

// Whether a left shift by this term makes multiples of s.
fn is_shift(t: &Terms, a: TermId, s: u32) -> bool
    requires term { a < length t.now }
    requires s { IsWidth s }
    ensures is { result ≡ definition.is_shift s (slice_get t.now a) }
    ensures multiple { IsTrue result → (v : Reading) → 2 ^ value t.now a v % s ≡ 0 }
{
    match t.node(a) {
        Node::Const { value, .. } => makes_multiples(*value, s),
        _ => false,
    }
}

// Whether a term of width 64 is seen to be a multiple of s, looked into so many steps deep.
#[cycle(is_multiple)]
pub(crate) fn is_multiple(t: &Terms, a: TermId, s: u32, depth: u32) -> bool
    requires term { a < length t.now }
    requires address { width t.now a ≡ 64 }
    requires s { IsWidth s }
    ensures is { result ≡ definition.is_seen t.now s depth a }
    ensures multiple { IsTrue result → (v : Reading) → value t.now a v % s ≡ 0 }
{
    if depth == 0 {
        return false;
    }
    match t.node(a) {
        Node::Const { value, .. } => *value % u64::from(s) == 0,
        Node::Binary { kind, a: x, b: y } => is_operation(t, *kind, *x, *y, s, depth - 1),
        Node::Choose { a: x, b: y, .. } => both(t, *x, *y, s, depth - 1),
        _ => false,
    }
}

// Whether an operation on two terms is seen to be a multiple of s.
#[cycle(is_multiple)]
fn is_operation(t: &Terms, kind: TermKind, x: TermId, y: TermId, s: u32, depth: u32) -> bool
    requires first { x < length t.now }
    requires second { y < length t.now }
    requires widths { BinaryFits kind (width t.now x) (width t.now y) }
    requires address { binary_width kind (width t.now x) (width t.now y) ≡ 64 }
    requires s { IsWidth s }
    ensures is { result ≡ definition.is_seen_operation (definition.is_seen t.now s depth) t.now s kind x y }
    ensures multiple { IsTrue result → (v : Reading) → binary_value kind (width t.now x) (width t.now y) (value t.now x v) (value t.now y v) % s ≡ 0 }
{
    match kind {
        TermKind::Add => both(t, x, y, s, depth),
        TermKind::Sub => both(t, x, y, s, depth),
        TermKind::Mul => is_constant(t, x, s) || is_constant(t, y, s),
        TermKind::Shl => is_shift(t, y, s),
        _ => false,
    }
}

// Whether two terms are seen to be multiples of s.
#[cycle(is_multiple)]
fn both(t: &Terms, x: TermId, y: TermId, s: u32, depth: u32) -> bool
    requires first { x < length t.now }
    requires second { y < length t.now }
    requires left { width t.now x ≡ 64 }
    requires right { width t.now y ≡ 64 }
    requires s { IsWidth s }
    ensures is { result ≡ (definition.is_seen t.now s depth x && definition.is_seen t.now s depth y) }
    ensures first { IsTrue result → (v : Reading) → value t.now x v % s ≡ 0 }
    ensures second { IsTrue result → (v : Reading) → value t.now y v % s ≡ 0 }
{
    is_multiple(t, x, s, depth) && is_multiple(t, y, s, depth)
}
