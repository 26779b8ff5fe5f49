//! Constants among terms.

ghost use Rattle.std.specs.Prelude.{◌≡◌, ℕ, ◌-◌, ◌^◌, ◌<◌, ◌≤◌, length, IfSome, IsTrue};
ghost use Rattle.hk_term.specs.Shape.{IsWidth, width};
ghost use Rattle.hk_term.specs.Meaning.{Reading, value};

use crate::form::Form;
use hk_term::{Node, TermId, Terms};

// The number of a constant.
pub(crate) fn constant(t: &Terms, a: TermId) -> Option<u64>
    requires { a < length t.now }
    ensures known { IfSome result (λ n. (v : Reading) → value t.now a v ≡ n) }
    ensures number { IfSome result (λ n. n < 2 ^ width t.now a) }
    ensures below { (v : Reading) → value t.now a v < 2 ^ width t.now a }
{
    match t.node(a) {
        Node::Const { value, .. } => Some(*value),
        _ => None,
    }
}

// Whether a term is the constant of a number.
pub(crate) fn is_number(t: &Terms, a: TermId, n: u64) -> bool
    requires { a < length t.now }
    ensures known { IsTrue result → (v : Reading) → value t.now a v ≡ n }
    ensures below { (v : Reading) → value t.now a v < 2 ^ width t.now a }
{
    constant(t, a) == Some(n)
}

// Whether a term is the constant of all ones.
pub(crate) fn is_ones(t: &Terms, a: TermId) -> bool
    requires { a < length t.now }
    ensures known { IsTrue result → (v : Reading) → value t.now a v ≡ 2 ^ width t.now a - 1 }
    ensures below { (v : Reading) → value t.now a v < 2 ^ width t.now a }
{
    is_number(t, a, greatest(t.width(a)))
}

// The greatest number of a width.
pub(crate) fn greatest(w: u32) -> u64
    requires { IsWidth w }
    ensures { result ≡ 2 ^ w - 1 }
{
    u64::MAX >> (64 - w)
}

// A constant.
pub(crate) fn number(w: u32, n: u64) -> Form
    requires width { IsWidth w }
    requires number { n < 2 ^ w }
    ensures is { result ≡ Form.New (Node.Const w n) }
{
    Form::New(Node::Const { width: w, value: n })
}

// The width of a term. Its values are below 2 to the width.
pub(crate) fn sized(t: &Terms, a: TermId) -> u32
    requires { a < length t.now }
    ensures width { result ≡ width t.now a }
    ensures is_width { IsWidth result }
    ensures below { (v : Reading) → value t.now a v < 2 ^ result }
{
    // For the proof: the term's numbers are below 2 to its width.
    let _node = t.node(a);
    t.width(a)
}

// Whether a term is a constant from a width on.
pub(crate) fn is_at_least(t: &Terms, a: TermId, w: u32) -> bool
    requires { a < length t.now }
    ensures known { IsTrue result → (v : Reading) → w ≤ value t.now a v }
    ensures below { (v : Reading) → value t.now a v < 2 ^ width t.now a }
{
    match constant(t, a) {
        Some(n) => u64::from(w) <= n,
        None => false,
    }
}

// Whether a term is the constant with the least signed reading.
pub(crate) fn is_least(t: &Terms, a: TermId) -> bool
    requires { a < length t.now }
    ensures known { IsTrue result → (v : Reading) → value t.now a v ≡ 2 ^ (width t.now a - 1) }
    ensures below { (v : Reading) → value t.now a v < 2 ^ width t.now a }
{
    is_number(t, a, 1 << (t.width(a) - 1))
}

// Whether a term is the constant with the greatest signed reading.
pub(crate) fn is_most(t: &Terms, a: TermId) -> bool
    requires { a < length t.now }
    ensures known { IsTrue result → (v : Reading) → value t.now a v ≡ 2 ^ (width t.now a - 1) - 1 }
    ensures below { (v : Reading) → value t.now a v < 2 ^ width t.now a }
{
    is_number(t, a, (1 << (t.width(a) - 1)) - 1)
}

// The constant of all ones.
pub(crate) fn ones(w: u32) -> Form
    requires { IsWidth w }
    ensures is { result ≡ Form.New (Node.Const w (2 ^ w - 1)) }
{
    number(w, greatest(w))
}
