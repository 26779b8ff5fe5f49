//! The constructors of terms, with what they leave as one clause.

ghost use Rattle.std.specs.Prelude.{◌≡◌, ℕ, ◌+◌, ◌-◌, ◌/◌, ◌%◌, ◌^◌, ◌<◌, ◌≤◌, length, IfOk, IfSome, nat_eq, if◌then◌else◌};
ghost use Rattle.hk_term.specs.Operations.{bit, unary_value, binary_value, resize_value};
ghost use Rattle.hk_term.specs.Shape.{IsWidth, width};
ghost use Rattle.hk_term.specs.Meaning.{Reading, every_tuple, value};
ghost use Rattle.hk_symexpr.specs.Sources.{Keeps};

use hk_term::{BoundList, Node, TermId, TermKind, TermResize, Terms, UnaryKind};
use std::alloc::AllocError;

/// The width of a term. Its values are below 2 to the width.
pub(crate) fn sized(t: &Terms, a: TermId) -> u32
    requires { a < length t.now }
    ensures width { result ≡ width t.now a }
    ensures is_width { IsWidth result }
    ensures below { (v : Reading) → value t.now a v < 2 ^ result }
{
    // For the proof: the term's numbers are below 2 to its width.
    let _node = t.node(a);
    t.width(a)
}

/// The greatest number of a width.
pub(crate) fn greatest(w: u32) -> u64
    requires { IsWidth w }
    ensures { result ≡ 2 ^ w - 1 }
{
    u64::MAX >> (64 - w)
}

/// The number of a constant.
pub(crate) fn constant(t: &Terms, a: TermId) -> Option<u64>
    requires { a < length t.now }
    ensures known { IfSome result (λ n. (v : Reading) → value t.now a v ≡ n) }
{
    match t.node(a) {
        Node::Const { value, .. } => Some(*value),
        _ => None,
    }
}

/// The constant of a number of a width.
pub(crate) fn number(t: &mut Terms, w: u32, n: u64) -> Result<TermId, AllocError>
    requires width { IsWidth w }
    requires number { n < 2 ^ w }
    ensures within { IfOk result (λ r. r < length t.new) }
    ensures width { IfOk result (λ r. width t.new r ≡ w) }
    ensures value { IfOk result (λ r. (v : Reading) → value t.new r v ≡ n) }
    ensures keeps { Keeps t.old t.new }
{
    let made = t.intern(Node::Const { width: w, value: n })?;
    Ok(made)
}

/// A variable of a width.
pub(crate) fn variable(t: &mut Terms, w: u32, id: u32) -> Result<TermId, AllocError>
    requires width { IsWidth w }
    ensures within { IfOk result (λ r. r < length t.new) }
    ensures width { IfOk result (λ r. width t.new r ≡ w) }
    ensures value { IfOk result (λ r. (v : Reading) → value t.new r v ≡ v.var id % 2 ^ w) }
    ensures keeps { Keeps t.old t.new }
{
    let made = t.intern(Node::Var { width: w, id })?;
    Ok(made)
}

/// The sum.
pub(crate) fn add(t: &mut Terms, a: TermId, b: TermId) -> Result<TermId, AllocError>
    requires first { a < length t.old }
    requires second { b < length t.old }
    requires widths { width t.old a ≡ width t.old b }
    ensures within { IfOk result (λ r. r < length t.new) }
    ensures width { IfOk result (λ r. width t.new r ≡ width t.old a) }
    ensures value { IfOk result (λ r. (v : Reading) → value t.new r v ≡ binary_value TermKind.Add (width t.old a) (width t.old b) (value t.old a v) (value t.old b v)) }
    ensures keeps { Keeps t.old t.new }
{
    let made = hk_simplify::add(t, a, b)?;
    Ok(made)
}

/// The difference.
pub(crate) fn sub(t: &mut Terms, a: TermId, b: TermId) -> Result<TermId, AllocError>
    requires first { a < length t.old }
    requires second { b < length t.old }
    requires widths { width t.old a ≡ width t.old b }
    ensures within { IfOk result (λ r. r < length t.new) }
    ensures width { IfOk result (λ r. width t.new r ≡ width t.old a) }
    ensures value { IfOk result (λ r. (v : Reading) → value t.new r v ≡ binary_value TermKind.Sub (width t.old a) (width t.old b) (value t.old a v) (value t.old b v)) }
    ensures keeps { Keeps t.old t.new }
{
    let made = hk_simplify::sub(t, a, b)?;
    Ok(made)
}

/// The product.
pub(crate) fn mul(t: &mut Terms, a: TermId, b: TermId) -> Result<TermId, AllocError>
    requires first { a < length t.old }
    requires second { b < length t.old }
    requires widths { width t.old a ≡ width t.old b }
    ensures within { IfOk result (λ r. r < length t.new) }
    ensures width { IfOk result (λ r. width t.new r ≡ width t.old a) }
    ensures value { IfOk result (λ r. (v : Reading) → value t.new r v ≡ binary_value TermKind.Mul (width t.old a) (width t.old b) (value t.old a v) (value t.old b v)) }
    ensures keeps { Keeps t.old t.new }
{
    let made = hk_simplify::mul(t, a, b)?;
    Ok(made)
}

/// The quotient.
pub(crate) fn udiv(t: &mut Terms, a: TermId, b: TermId) -> Result<TermId, AllocError>
    requires first { a < length t.old }
    requires second { b < length t.old }
    requires widths { width t.old a ≡ width t.old b }
    ensures within { IfOk result (λ r. r < length t.new) }
    ensures width { IfOk result (λ r. width t.new r ≡ width t.old a) }
    ensures value { IfOk result (λ r. (v : Reading) → value t.new r v ≡ binary_value TermKind.Udiv (width t.old a) (width t.old b) (value t.old a v) (value t.old b v)) }
    ensures keeps { Keeps t.old t.new }
{
    let made = hk_simplify::udiv(t, a, b)?;
    Ok(made)
}

/// The remainder.
pub(crate) fn urem(t: &mut Terms, a: TermId, b: TermId) -> Result<TermId, AllocError>
    requires first { a < length t.old }
    requires second { b < length t.old }
    requires widths { width t.old a ≡ width t.old b }
    ensures within { IfOk result (λ r. r < length t.new) }
    ensures width { IfOk result (λ r. width t.new r ≡ width t.old a) }
    ensures value { IfOk result (λ r. (v : Reading) → value t.new r v ≡ binary_value TermKind.Urem (width t.old a) (width t.old b) (value t.old a v) (value t.old b v)) }
    ensures keeps { Keeps t.old t.new }
{
    let made = hk_simplify::urem(t, a, b)?;
    Ok(made)
}

/// A term shifted to the left.
pub(crate) fn shl(t: &mut Terms, a: TermId, b: TermId) -> Result<TermId, AllocError>
    requires first { a < length t.old }
    requires second { b < length t.old }
    requires widths { width t.old a ≡ width t.old b }
    ensures within { IfOk result (λ r. r < length t.new) }
    ensures width { IfOk result (λ r. width t.new r ≡ width t.old a) }
    ensures value { IfOk result (λ r. (v : Reading) → value t.new r v ≡ binary_value TermKind.Shl (width t.old a) (width t.old b) (value t.old a v) (value t.old b v)) }
    ensures keeps { Keeps t.old t.new }
{
    let made = hk_simplify::shl(t, a, b)?;
    Ok(made)
}

/// A term shifted to the right, with zeros before it.
pub(crate) fn lshr(t: &mut Terms, a: TermId, b: TermId) -> Result<TermId, AllocError>
    requires first { a < length t.old }
    requires second { b < length t.old }
    requires widths { width t.old a ≡ width t.old b }
    ensures within { IfOk result (λ r. r < length t.new) }
    ensures width { IfOk result (λ r. width t.new r ≡ width t.old a) }
    ensures value { IfOk result (λ r. (v : Reading) → value t.new r v ≡ binary_value TermKind.Lshr (width t.old a) (width t.old b) (value t.old a v) (value t.old b v)) }
    ensures keeps { Keeps t.old t.new }
{
    let made = hk_simplify::lshr(t, a, b)?;
    Ok(made)
}

/// A term shifted to the right, with copies of its sign before it.
pub(crate) fn ashr(t: &mut Terms, a: TermId, b: TermId) -> Result<TermId, AllocError>
    requires first { a < length t.old }
    requires second { b < length t.old }
    requires widths { width t.old a ≡ width t.old b }
    ensures within { IfOk result (λ r. r < length t.new) }
    ensures width { IfOk result (λ r. width t.new r ≡ width t.old a) }
    ensures value { IfOk result (λ r. (v : Reading) → value t.new r v ≡ binary_value TermKind.Ashr (width t.old a) (width t.old b) (value t.old a v) (value t.old b v)) }
    ensures keeps { Keeps t.old t.new }
{
    let made = hk_simplify::ashr(t, a, b)?;
    Ok(made)
}

/// Both bits.
pub(crate) fn and(t: &mut Terms, a: TermId, b: TermId) -> Result<TermId, AllocError>
    requires first { a < length t.old }
    requires second { b < length t.old }
    requires widths { width t.old a ≡ width t.old b }
    ensures within { IfOk result (λ r. r < length t.new) }
    ensures width { IfOk result (λ r. width t.new r ≡ width t.old a) }
    ensures value { IfOk result (λ r. (v : Reading) → value t.new r v ≡ binary_value TermKind.And (width t.old a) (width t.old b) (value t.old a v) (value t.old b v)) }
    ensures keeps { Keeps t.old t.new }
{
    let made = hk_simplify::and(t, a, b)?;
    Ok(made)
}

/// One of the bits.
pub(crate) fn or(t: &mut Terms, a: TermId, b: TermId) -> Result<TermId, AllocError>
    requires first { a < length t.old }
    requires second { b < length t.old }
    requires widths { width t.old a ≡ width t.old b }
    ensures within { IfOk result (λ r. r < length t.new) }
    ensures width { IfOk result (λ r. width t.new r ≡ width t.old a) }
    ensures value { IfOk result (λ r. (v : Reading) → value t.new r v ≡ binary_value TermKind.Or (width t.old a) (width t.old b) (value t.old a v) (value t.old b v)) }
    ensures keeps { Keeps t.old t.new }
{
    let made = hk_simplify::or(t, a, b)?;
    Ok(made)
}

/// Just one of the bits.
pub(crate) fn xor(t: &mut Terms, a: TermId, b: TermId) -> Result<TermId, AllocError>
    requires first { a < length t.old }
    requires second { b < length t.old }
    requires widths { width t.old a ≡ width t.old b }
    ensures within { IfOk result (λ r. r < length t.new) }
    ensures width { IfOk result (λ r. width t.new r ≡ width t.old a) }
    ensures value { IfOk result (λ r. (v : Reading) → value t.new r v ≡ binary_value TermKind.Xor (width t.old a) (width t.old b) (value t.old a v) (value t.old b v)) }
    ensures keeps { Keeps t.old t.new }
{
    let made = hk_simplify::xor(t, a, b)?;
    Ok(made)
}

/// Whether two terms are equal.
pub(crate) fn eq(t: &mut Terms, a: TermId, b: TermId) -> Result<TermId, AllocError>
    requires first { a < length t.old }
    requires second { b < length t.old }
    requires widths { width t.old a ≡ width t.old b }
    ensures within { IfOk result (λ r. r < length t.new) }
    ensures width { IfOk result (λ r. width t.new r ≡ 1) }
    ensures value { IfOk result (λ r. (v : Reading) → value t.new r v ≡ binary_value TermKind.Eq (width t.old a) (width t.old b) (value t.old a v) (value t.old b v)) }
    ensures keeps { Keeps t.old t.new }
{
    let made = hk_simplify::eq(t, a, b)?;
    Ok(made)
}

/// Whether the first of two terms is less.
pub(crate) fn ult(t: &mut Terms, a: TermId, b: TermId) -> Result<TermId, AllocError>
    requires first { a < length t.old }
    requires second { b < length t.old }
    requires widths { width t.old a ≡ width t.old b }
    ensures within { IfOk result (λ r. r < length t.new) }
    ensures width { IfOk result (λ r. width t.new r ≡ 1) }
    ensures value { IfOk result (λ r. (v : Reading) → value t.new r v ≡ binary_value TermKind.Ult (width t.old a) (width t.old b) (value t.old a v) (value t.old b v)) }
    ensures keeps { Keeps t.old t.new }
{
    let made = hk_simplify::ult(t, a, b)?;
    Ok(made)
}

/// Whether the signed reading of the first of two terms is less.
pub(crate) fn slt(t: &mut Terms, a: TermId, b: TermId) -> Result<TermId, AllocError>
    requires first { a < length t.old }
    requires second { b < length t.old }
    requires widths { width t.old a ≡ width t.old b }
    ensures within { IfOk result (λ r. r < length t.new) }
    ensures width { IfOk result (λ r. width t.new r ≡ 1) }
    ensures value { IfOk result (λ r. (v : Reading) → value t.new r v ≡ binary_value TermKind.Slt (width t.old a) (width t.old b) (value t.old a v) (value t.old b v)) }
    ensures keeps { Keeps t.old t.new }
{
    let made = hk_simplify::slt(t, a, b)?;
    Ok(made)
}

/// The complement.
pub(crate) fn not(t: &mut Terms, a: TermId) -> Result<TermId, AllocError>
    requires { a < length t.old }
    ensures within { IfOk result (λ r. r < length t.new) }
    ensures width { IfOk result (λ r. width t.new r ≡ width t.old a) }
    ensures value { IfOk result (λ r. (v : Reading) → value t.new r v ≡ unary_value UnaryKind.Not (width t.old a) (value t.old a v)) }
    ensures keeps { Keeps t.old t.new }
{
    let made = hk_simplify::not(t, a)?;
    Ok(made)
}

/// The two's complement.
pub(crate) fn neg(t: &mut Terms, a: TermId) -> Result<TermId, AllocError>
    requires { a < length t.old }
    ensures within { IfOk result (λ r. r < length t.new) }
    ensures width { IfOk result (λ r. width t.new r ≡ width t.old a) }
    ensures value { IfOk result (λ r. (v : Reading) → value t.new r v ≡ unary_value UnaryKind.Neg (width t.old a) (value t.old a v)) }
    ensures keeps { Keeps t.old t.new }
{
    let made = hk_simplify::neg(t, a)?;
    Ok(made)
}

/// The first of two terms where the condition is true, and else the second.
pub(crate) fn choose(
    t: &mut Terms,
    condition: TermId,
    a: TermId,
    b: TermId,
) -> Result<TermId, AllocError>
    requires condition { condition < length t.old }
    requires first { a < length t.old }
    requires second { b < length t.old }
    requires truth { width t.old condition ≡ 1 }
    requires widths { width t.old a ≡ width t.old b }
    ensures within { IfOk result (λ r. r < length t.new) }
    ensures width { IfOk result (λ r. width t.new r ≡ width t.old a) }
    ensures value { IfOk result (λ r. (v : Reading) → value t.new r v ≡ (if nat_eq (value t.old condition v) 1 then value t.old a v else value t.old b v)) }
    ensures keeps { Keeps t.old t.new }
{
    let made = hk_simplify::choose(t, condition, a, b)?;
    Ok(made)
}

/// A term with zeros above it.
pub(crate) fn zero_extend(t: &mut Terms, to: u32, a: TermId) -> Result<TermId, AllocError>
    requires term { a < length t.old }
    requires wider { width t.old a ≤ to }
    requires within { to ≤ 64 }
    ensures within { IfOk result (λ r. r < length t.new) }
    ensures width { IfOk result (λ r. width t.new r ≡ to) }
    ensures value { IfOk result (λ r. (v : Reading) → value t.new r v ≡ value t.old a v) }
    ensures keeps { Keeps t.old t.new }
{
    let made = hk_simplify::zero_extend(t, to, a)?;
    Ok(made)
}

/// A term with copies of its sign above it.
pub(crate) fn sign_extend(t: &mut Terms, to: u32, a: TermId) -> Result<TermId, AllocError>
    requires term { a < length t.old }
    requires wider { width t.old a ≤ to }
    requires within { to ≤ 64 }
    ensures within { IfOk result (λ r. r < length t.new) }
    ensures width { IfOk result (λ r. width t.new r ≡ to) }
    ensures value { IfOk result (λ r. (v : Reading) → value t.new r v ≡ resize_value TermResize.Sign (width t.old a) to (value t.old a v)) }
    ensures keeps { Keeps t.old t.new }
{
    let made = hk_simplify::sign_extend(t, to, a)?;
    Ok(made)
}

/// The bits of a term from a low one to a high one.
pub(crate) fn extract(t: &mut Terms, high: u32, low: u32, a: TermId) -> Result<TermId, AllocError>
    requires term { a < length t.old }
    requires order { low ≤ high }
    requires within { high < width t.old a }
    ensures within { IfOk result (λ r. r < length t.new) }
    ensures width { IfOk result (λ r. width t.new r ≡ high - low + 1) }
    ensures value { IfOk result (λ r. (v : Reading) → value t.new r v ≡ (value t.old a v / 2 ^ low) % 2 ^ (high - low + 1)) }
    ensures keeps { Keeps t.old t.new }
{
    let made = hk_simplify::extract(t, high, low, a)?;
    Ok(made)
}

/// Whether a truth is true for each tuple of numbers of bound variables.
pub(crate) fn for_all(t: &mut Terms, bound: BoundList, body: TermId) -> Result<TermId, AllocError>
    requires body { body < length t.old }
    requires truth { width t.old body ≡ 1 }
    ensures within { IfOk result (λ r. r < length t.new) }
    ensures width { IfOk result (λ r. width t.new r ≡ 1) }
    ensures value { IfOk result (λ r. (v : Reading) → value t.new r v ≡ bit (every_tuple bound (λ u. nat_eq (value t.old body u) 1) v)) }
    ensures keeps { Keeps t.old t.new }
{
    let made = hk_simplify::for_all(t, bound, body)?;
    Ok(made)
}
