//! The constructors of terms, with what they leave as one clause.

ghost use Rattle.std.specs.Prelude.{◌≡◌, ℕ, ◌+◌, ◌-◌, ◌*◌, ◌/◌, ◌%◌, ◌^◌, ◌<◌, ◌≤◌, ◌&&◌, ◌||◌, ◌==◌, not, true, false, Bool, if◌then◌else◌, nat_eq, nat_lt, nat_le, length, IfOk};
ghost use Rattle.hk_term.specs.Shape.{IsWidth, width};
ghost use Rattle.hk_term.specs.Meaning.{Reading, value};
ghost use Rattle.hk_symvalue.specs.Growth.{Extends};
ghost use Rattle.hk_symvalue.specs.Meaning.{IsTruth, IsWord, is_true};
ghost use Rattle.hk_num.specs.Numbers.{sign_extend};
ghost use Rattle.hk_term.specs.Operations.{unary_value, binary_value};

use hk_term::{TermId, TermKind, Terms, UnaryKind};
use std::alloc::AllocError;

/// The sum.
pub fn add(t: &mut Terms, a: TermId, b: TermId) -> Result<TermId, AllocError>
    requires first { a < length t.old }
    requires second { b < length t.old }
    requires widths { width t.old a ≡ width t.old b }
    ensures frame { Extends t.old t.new }
    ensures word { IfOk result (λ r. IsWord t.new (width t.old a) r) }
    ensures value { IfOk result (λ r. (v : Reading) → value t.new r v ≡ binary_value TermKind.Add (width t.old a) (width t.old b) (value t.old a v) (value t.old b v)) }
{
    let made = hk_simplify::add(t, a, b)?;
    Ok(made)
}

/// The difference.
pub fn sub(t: &mut Terms, a: TermId, b: TermId) -> Result<TermId, AllocError>
    requires first { a < length t.old }
    requires second { b < length t.old }
    requires widths { width t.old a ≡ width t.old b }
    ensures frame { Extends t.old t.new }
    ensures word { IfOk result (λ r. IsWord t.new (width t.old a) r) }
    ensures value { IfOk result (λ r. (v : Reading) → value t.new r v ≡ binary_value TermKind.Sub (width t.old a) (width t.old b) (value t.old a v) (value t.old b v)) }
{
    let made = hk_simplify::sub(t, a, b)?;
    Ok(made)
}

/// The product.
pub fn mul(t: &mut Terms, a: TermId, b: TermId) -> Result<TermId, AllocError>
    requires first { a < length t.old }
    requires second { b < length t.old }
    requires widths { width t.old a ≡ width t.old b }
    ensures frame { Extends t.old t.new }
    ensures word { IfOk result (λ r. IsWord t.new (width t.old a) r) }
    ensures value { IfOk result (λ r. (v : Reading) → value t.new r v ≡ binary_value TermKind.Mul (width t.old a) (width t.old b) (value t.old a v) (value t.old b v)) }
{
    let made = hk_simplify::mul(t, a, b)?;
    Ok(made)
}

/// The quotient.
pub fn udiv(t: &mut Terms, a: TermId, b: TermId) -> Result<TermId, AllocError>
    requires first { a < length t.old }
    requires second { b < length t.old }
    requires widths { width t.old a ≡ width t.old b }
    ensures frame { Extends t.old t.new }
    ensures word { IfOk result (λ r. IsWord t.new (width t.old a) r) }
    ensures value { IfOk result (λ r. (v : Reading) → value t.new r v ≡ binary_value TermKind.Udiv (width t.old a) (width t.old b) (value t.old a v) (value t.old b v)) }
{
    let made = hk_simplify::udiv(t, a, b)?;
    Ok(made)
}

/// The remainder.
pub fn urem(t: &mut Terms, a: TermId, b: TermId) -> Result<TermId, AllocError>
    requires first { a < length t.old }
    requires second { b < length t.old }
    requires widths { width t.old a ≡ width t.old b }
    ensures frame { Extends t.old t.new }
    ensures word { IfOk result (λ r. IsWord t.new (width t.old a) r) }
    ensures value { IfOk result (λ r. (v : Reading) → value t.new r v ≡ binary_value TermKind.Urem (width t.old a) (width t.old b) (value t.old a v) (value t.old b v)) }
{
    let made = hk_simplify::urem(t, a, b)?;
    Ok(made)
}

/// The quotient of the signed readings.
pub fn sdiv(t: &mut Terms, a: TermId, b: TermId) -> Result<TermId, AllocError>
    requires first { a < length t.old }
    requires second { b < length t.old }
    requires widths { width t.old a ≡ width t.old b }
    ensures frame { Extends t.old t.new }
    ensures word { IfOk result (λ r. IsWord t.new (width t.old a) r) }
    ensures value { IfOk result (λ r. (v : Reading) → value t.new r v ≡ binary_value TermKind.Sdiv (width t.old a) (width t.old b) (value t.old a v) (value t.old b v)) }
{
    let made = hk_simplify::sdiv(t, a, b)?;
    Ok(made)
}

/// The remainder of the signed readings.
pub fn srem(t: &mut Terms, a: TermId, b: TermId) -> Result<TermId, AllocError>
    requires first { a < length t.old }
    requires second { b < length t.old }
    requires widths { width t.old a ≡ width t.old b }
    ensures frame { Extends t.old t.new }
    ensures word { IfOk result (λ r. IsWord t.new (width t.old a) r) }
    ensures value { IfOk result (λ r. (v : Reading) → value t.new r v ≡ binary_value TermKind.Srem (width t.old a) (width t.old b) (value t.old a v) (value t.old b v)) }
{
    let made = hk_simplify::srem(t, a, b)?;
    Ok(made)
}

/// A term shifted to the left.
pub fn shl(t: &mut Terms, a: TermId, b: TermId) -> Result<TermId, AllocError>
    requires first { a < length t.old }
    requires second { b < length t.old }
    requires widths { width t.old a ≡ width t.old b }
    ensures frame { Extends t.old t.new }
    ensures word { IfOk result (λ r. IsWord t.new (width t.old a) r) }
    ensures value { IfOk result (λ r. (v : Reading) → value t.new r v ≡ binary_value TermKind.Shl (width t.old a) (width t.old b) (value t.old a v) (value t.old b v)) }
{
    let made = hk_simplify::shl(t, a, b)?;
    Ok(made)
}

/// A term shifted to the right, with zeros before it.
pub fn lshr(t: &mut Terms, a: TermId, b: TermId) -> Result<TermId, AllocError>
    requires first { a < length t.old }
    requires second { b < length t.old }
    requires widths { width t.old a ≡ width t.old b }
    ensures frame { Extends t.old t.new }
    ensures word { IfOk result (λ r. IsWord t.new (width t.old a) r) }
    ensures value { IfOk result (λ r. (v : Reading) → value t.new r v ≡ binary_value TermKind.Lshr (width t.old a) (width t.old b) (value t.old a v) (value t.old b v)) }
{
    let made = hk_simplify::lshr(t, a, b)?;
    Ok(made)
}

/// A term shifted to the right, with copies of its sign before it.
pub fn ashr(t: &mut Terms, a: TermId, b: TermId) -> Result<TermId, AllocError>
    requires first { a < length t.old }
    requires second { b < length t.old }
    requires widths { width t.old a ≡ width t.old b }
    ensures frame { Extends t.old t.new }
    ensures word { IfOk result (λ r. IsWord t.new (width t.old a) r) }
    ensures value { IfOk result (λ r. (v : Reading) → value t.new r v ≡ binary_value TermKind.Ashr (width t.old a) (width t.old b) (value t.old a v) (value t.old b v)) }
{
    let made = hk_simplify::ashr(t, a, b)?;
    Ok(made)
}

/// The bits that are ones in both.
pub fn and(t: &mut Terms, a: TermId, b: TermId) -> Result<TermId, AllocError>
    requires first { a < length t.old }
    requires second { b < length t.old }
    requires widths { width t.old a ≡ width t.old b }
    ensures frame { Extends t.old t.new }
    ensures word { IfOk result (λ r. IsWord t.new (width t.old a) r) }
    ensures value { IfOk result (λ r. (v : Reading) → value t.new r v ≡ binary_value TermKind.And (width t.old a) (width t.old b) (value t.old a v) (value t.old b v)) }
{
    let made = hk_simplify::and(t, a, b)?;
    Ok(made)
}

/// The bits that are ones in one.
pub fn or(t: &mut Terms, a: TermId, b: TermId) -> Result<TermId, AllocError>
    requires first { a < length t.old }
    requires second { b < length t.old }
    requires widths { width t.old a ≡ width t.old b }
    ensures frame { Extends t.old t.new }
    ensures word { IfOk result (λ r. IsWord t.new (width t.old a) r) }
    ensures value { IfOk result (λ r. (v : Reading) → value t.new r v ≡ binary_value TermKind.Or (width t.old a) (width t.old b) (value t.old a v) (value t.old b v)) }
{
    let made = hk_simplify::or(t, a, b)?;
    Ok(made)
}

/// The bits that differ.
pub fn xor(t: &mut Terms, a: TermId, b: TermId) -> Result<TermId, AllocError>
    requires first { a < length t.old }
    requires second { b < length t.old }
    requires widths { width t.old a ≡ width t.old b }
    ensures frame { Extends t.old t.new }
    ensures word { IfOk result (λ r. IsWord t.new (width t.old a) r) }
    ensures value { IfOk result (λ r. (v : Reading) → value t.new r v ≡ binary_value TermKind.Xor (width t.old a) (width t.old b) (value t.old a v) (value t.old b v)) }
{
    let made = hk_simplify::xor(t, a, b)?;
    Ok(made)
}

/// The two's complement.
pub fn neg(t: &mut Terms, a: TermId) -> Result<TermId, AllocError>
    requires { a < length t.old }
    ensures frame { Extends t.old t.new }
    ensures word { IfOk result (λ r. IsWord t.new (width t.old a) r) }
    ensures value { IfOk result (λ r. (v : Reading) → value t.new r v ≡ unary_value UnaryKind.Neg (width t.old a) (value t.old a v)) }
{
    let made = hk_simplify::neg(t, a)?;
    Ok(made)
}

/// The first of two terms where a condition is true, and else the second.
pub fn choose(t: &mut Terms, c: TermId, a: TermId, b: TermId) -> Result<TermId, AllocError>
    requires condition { IsTruth t.old c }
    requires first { a < length t.old }
    requires second { b < length t.old }
    requires widths { width t.old a ≡ width t.old b }
    ensures frame { Extends t.old t.new }
    ensures word { IfOk result (λ r. IsWord t.new (width t.old a) r) }
    ensures value { IfOk result (λ r. (v : Reading) → value t.new r v ≡ (if is_true t.old c v then value t.old a v else value t.old b v)) }
{
    let made = hk_simplify::choose(t, c, a, b)?;
    Ok(made)
}

/// A term with zeros above.
pub fn zero_extend(t: &mut Terms, to: u32, a: TermId) -> Result<TermId, AllocError>
    requires term { a < length t.old }
    requires wider { width t.old a ≤ to }
    requires within { to ≤ 64 }
    ensures frame { Extends t.old t.new }
    ensures word { IfOk result (λ r. IsWord t.new to r) }
    ensures value { IfOk result (λ r. (v : Reading) → value t.new r v ≡ value t.old a v) }
{
    let made = hk_simplify::zero_extend(t, to, a)?;
    Ok(made)
}

/// A term with copies of its sign above.
pub fn sign_extend(t: &mut Terms, to: u32, a: TermId) -> Result<TermId, AllocError>
    requires term { a < length t.old }
    requires wider { width t.old a ≤ to }
    requires within { to ≤ 64 }
    ensures frame { Extends t.old t.new }
    ensures word { IfOk result (λ r. IsWord t.new to r) }
    ensures value { IfOk result (λ r. (v : Reading) → value t.new r v ≡ sign_extend (width t.old a) to (value t.old a v)) }
{
    let made = hk_simplify::sign_extend(t, to, a)?;
    Ok(made)
}
