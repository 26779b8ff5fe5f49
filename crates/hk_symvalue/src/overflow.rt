//! Sums, differences and products, and whether a width can hold them.

ghost use Rattle.std.specs.Prelude.{◌≡◌, ℕ, ◌+◌, ◌-◌, ◌*◌, ◌/◌, ◌%◌, ◌^◌, ◌<◌, ◌≤◌, ◌&&◌, ◌||◌, ◌==◌, not, true, false, Bool, if◌then◌else◌, nat_eq, nat_lt, nat_le, length, IfOk, IfSome, unsigned_abs};
ghost use Rattle.hk_term.specs.Shape.{IsWidth, width};
ghost use Rattle.hk_term.specs.Meaning.{Reading, value};
ghost use Rattle.hk_symvalue.specs.Growth.{Extends};
ghost use Rattle.hk_symvalue.specs.Meaning.{IsTruth, IsWord, is_true};
ghost use Rattle.hk_num.specs.Numbers.{signed_of, bvadd, bvsub, bvmul, bvuaddo, bvsaddo, bvusubo, bvssubo, bvumulo, bvsmulo};
ghost use Rattle.ir_value.specs.Intrinsics.{wrapped, overflowed};

use crate::words::{constant, greatest, is_negative, magnitude, number, sized};
use crate::{logic, ops};
use hk_term::{TermId, Terms};
use ir_value::OverflowKind;
use std::alloc::AllocError;

/// The result modulo 2 to the power of the width.
pub(crate) fn wrapped(
    t: &mut Terms,
    kind: OverflowKind,
    a: TermId,
    b: TermId,
) -> Result<TermId, AllocError>
    requires first { a < length t.old }
    requires second { b < length t.old }
    requires widths { width t.old a ≡ width t.old b }
    ensures frame { Extends t.old t.new }
    ensures word { IfOk result (λ r. IsWord t.new (width t.old a) r) }
    ensures value { IfOk result (λ r. (v : Reading) → value t.new r v ≡ wrapped kind (width t.old a) (value t.old a v) (value t.old b v)) }
{
    match kind {
        OverflowKind::Add => sum(t, a, b),
        OverflowKind::Sub => difference(t, a, b),
        OverflowKind::Mul => product(t, a, b),
    }
}

fn sum(t: &mut Terms, a: TermId, b: TermId) -> Result<TermId, AllocError>
    requires first { a < length t.old }
    requires second { b < length t.old }
    requires widths { width t.old a ≡ width t.old b }
    ensures frame { Extends t.old t.new }
    ensures word { IfOk result (λ r. IsWord t.new (width t.old a) r) }
    ensures value { IfOk result (λ r. (v : Reading) → value t.new r v ≡ bvadd (width t.old a) (value t.old a v) (value t.old b v)) }
{
    let made = hk_simplify::add(t, a, b)?;
    Ok(made)
}

fn difference(t: &mut Terms, a: TermId, b: TermId) -> Result<TermId, AllocError>
    requires first { a < length t.old }
    requires second { b < length t.old }
    requires widths { width t.old a ≡ width t.old b }
    ensures frame { Extends t.old t.new }
    ensures word { IfOk result (λ r. IsWord t.new (width t.old a) r) }
    ensures value { IfOk result (λ r. (v : Reading) → value t.new r v ≡ bvsub (width t.old a) (value t.old a v) (value t.old b v)) }
{
    let made = hk_simplify::sub(t, a, b)?;
    Ok(made)
}

fn product(t: &mut Terms, a: TermId, b: TermId) -> Result<TermId, AllocError>
    requires first { a < length t.old }
    requires second { b < length t.old }
    requires widths { width t.old a ≡ width t.old b }
    ensures frame { Extends t.old t.new }
    ensures word { IfOk result (λ r. IsWord t.new (width t.old a) r) }
    ensures value { IfOk result (λ r. (v : Reading) → value t.new r v ≡ bvmul (width t.old a) (value t.old a v) (value t.old b v)) }
{
    let made = hk_simplify::mul(t, a, b)?;
    Ok(made)
}

/// Whether the result is no number of the width, or no signed reading of it where `signed` is set.
pub(crate) fn overflows(
    t: &mut Terms,
    kind: OverflowKind,
    signed: bool,
    a: TermId,
    b: TermId,
) -> Result<TermId, AllocError>
    requires first { a < length t.old }
    requires second { b < length t.old }
    requires widths { width t.old a ≡ width t.old b }
    ensures frame { Extends t.old t.new }
    ensures truth { IfOk result (λ r. IsTruth t.new r) }
    ensures value { IfOk result (λ r. (v : Reading) → is_true t.new r v ≡ overflowed kind signed (width t.old a) (value t.old a v) (value t.old b v)) }
{
    match (kind, signed) {
        (OverflowKind::Add, false) => carries(t, a, b),
        (OverflowKind::Add, true) => sum_overflows(t, a, b),
        (OverflowKind::Sub, false) => borrows(t, a, b),
        (OverflowKind::Sub, true) => difference_overflows(t, a, b),
        (OverflowKind::Mul, false) => product_carries(t, a, b),
        (OverflowKind::Mul, true) => product_overflows(t, a, b),
    }
}

#[tactic(auto, using(crate::proofs::NumberLaws::carry))]
fn carries(t: &mut Terms, a: TermId, b: TermId) -> Result<TermId, AllocError>
    requires first { a < length t.old }
    requires second { b < length t.old }
    requires widths { width t.old a ≡ width t.old b }
    ensures frame { Extends t.old t.new }
    ensures truth { IfOk result (λ r. IsTruth t.new r) }
    ensures value { IfOk result (λ r. (v : Reading) → is_true t.new r v ≡ bvuaddo (width t.old a) (value t.old a v) (value t.old b v)) }
{
    // For the proof: the numbers of both terms are below 2 to their widths.
    let _first = sized(t, a);
    let _second = sized(t, b);
    let sum = sum(t, a, b)?;
    let wraps = logic::ult(t, sum, a)?;
    Ok(wraps)
}

fn sum_overflows(t: &mut Terms, a: TermId, b: TermId) -> Result<TermId, AllocError>
    requires first { a < length t.old }
    requires second { b < length t.old }
    requires widths { width t.old a ≡ width t.old b }
    ensures frame { Extends t.old t.new }
    ensures truth { IfOk result (λ r. IsTruth t.new r) }
    ensures value { IfOk result (λ r. (v : Reading) → is_true t.new r v ≡ bvsaddo (width t.old a) (value t.old a v) (value t.old b v)) }
{
    // For the proof: the terms' width is from 1 to 64, and the numbers of both below 2 to it.
    let _first = sized(t, a);
    let _second = sized(t, b);
    let sum = sum(t, a, b)?;
    let x = is_negative(t, a)?;
    let y = is_negative(t, b)?;
    let z = is_negative(t, sum)?;
    let mixed = logic::differ(t, x, y)?;
    let turned = logic::differ(t, x, z)?;
    let same = logic::not(t, mixed)?;
    let over = logic::and(t, same, turned)?;
    Ok(over)
}

fn borrows(t: &mut Terms, a: TermId, b: TermId) -> Result<TermId, AllocError>
    requires first { a < length t.old }
    requires second { b < length t.old }
    requires widths { width t.old a ≡ width t.old b }
    ensures frame { Extends t.old t.new }
    ensures truth { IfOk result (λ r. IsTruth t.new r) }
    ensures value { IfOk result (λ r. (v : Reading) → is_true t.new r v ≡ bvusubo (width t.old a) (value t.old a v) (value t.old b v)) }
{
    let less = logic::ult(t, a, b)?;
    Ok(less)
}

fn difference_overflows(t: &mut Terms, a: TermId, b: TermId) -> Result<TermId, AllocError>
    requires first { a < length t.old }
    requires second { b < length t.old }
    requires widths { width t.old a ≡ width t.old b }
    ensures frame { Extends t.old t.new }
    ensures truth { IfOk result (λ r. IsTruth t.new r) }
    ensures value { IfOk result (λ r. (v : Reading) → is_true t.new r v ≡ bvssubo (width t.old a) (value t.old a v) (value t.old b v)) }
{
    // For the proof: the terms' width is from 1 to 64, and the numbers of both below 2 to it.
    let _first = sized(t, a);
    let _second = sized(t, b);
    let difference = difference(t, a, b)?;
    let x = is_negative(t, a)?;
    let y = is_negative(t, b)?;
    let z = is_negative(t, difference)?;
    let mixed = logic::differ(t, x, y)?;
    let turned = logic::differ(t, x, z)?;
    let over = logic::and(t, mixed, turned)?;
    Ok(over)
}

fn product_carries(t: &mut Terms, a: TermId, b: TermId) -> Result<TermId, AllocError>
    requires first { a < length t.old }
    requires second { b < length t.old }
    requires widths { width t.old a ≡ width t.old b }
    ensures frame { Extends t.old t.new }
    ensures truth { IfOk result (λ r. IsTruth t.new r) }
    ensures value { IfOk result (λ r. (v : Reading) → is_true t.new r v ≡ bvumulo (width t.old a) (value t.old a v) (value t.old b v)) }
{
    let w = sized(t, a);
    // For the proof: the second term's number is below 2 to its width.
    let _second = sized(t, b);
    let over = product_exceeds(t, greatest(w), a, b)?;
    Ok(over)
}

fn product_overflows(t: &mut Terms, a: TermId, b: TermId) -> Result<TermId, AllocError>
    requires first { a < length t.old }
    requires second { b < length t.old }
    requires widths { width t.old a ≡ width t.old b }
    ensures frame { Extends t.old t.new }
    ensures truth { IfOk result (λ r. IsTruth t.new r) }
    ensures value { IfOk result (λ r. (v : Reading) → is_true t.new r v ≡ bvsmulo (width t.old a) (value t.old a v) (value t.old b v)) }
{
    let w = sized(t, a);
    // For the proof: the second term's number is below 2 to its width.
    let _second = sized(t, b);
    let x = is_negative(t, a)?;
    let y = is_negative(t, b)?;
    let turned = logic::differ(t, x, y)?;
    let over = magnitudes_exceed(t, w, turned, a, b)?;
    Ok(over)
}

// Whether the product of the magnitudes is over that of the least signed number, or over the greatest, by the sign of the product.
fn magnitudes_exceed(
    t: &mut Terms,
    w: u32,
    turned: TermId,
    a: TermId,
    b: TermId,
) -> Result<TermId, AllocError>
    requires width { w ≡ width t.old a }
    requires sign { IsTruth t.old turned }
    requires first { a < length t.old }
    requires second { b < length t.old }
    requires widths { width t.old a ≡ width t.old b }
    ensures frame { Extends t.old t.new }
    ensures truth { IfOk result (λ r. IsTruth t.new r) }
    ensures value { IfOk result (λ r. (v : Reading) → is_true t.new r v ≡ (if is_true t.old turned v then nat_lt (2 ^ (width t.old a - 1)) (unsigned_abs (signed_of (width t.old a) (value t.old a v)) * unsigned_abs (signed_of (width t.old a) (value t.old b v))) else nat_lt (2 ^ (width t.old a - 1) - 1) (unsigned_abs (signed_of (width t.old a) (value t.old a v)) * unsigned_abs (signed_of (width t.old a) (value t.old b v))))) }
{
    // For the proof: the width is from 1 to 64, and the first term's number below 2 to it.
    let _first = sized(t, a);
    let least = 1 << (w - 1);
    let x = magnitude(t, a)?;
    let y = magnitude(t, b)?;
    let below = product_exceeds(t, least, x, y)?;
    let above = product_exceeds(t, least - 1, x, y)?;
    let over = logic::choose(t, turned, below, above)?;
    Ok(over)
}

/// Whether the product of two terms of a width, as a whole number, is over a number of the width.
pub(crate) fn product_exceeds(
    t: &mut Terms,
    most: u64,
    a: TermId,
    b: TermId,
) -> Result<TermId, AllocError>
    requires most { most < 2 ^ width t.old a }
    requires first { a < length t.old }
    requires second { b < length t.old }
    requires widths { width t.old a ≡ width t.old b }
    ensures frame { Extends t.old t.new }
    ensures truth { IfOk result (λ r. IsTruth t.new r) }
    ensures value { IfOk result (λ r. (v : Reading) → is_true t.new r v ≡ nat_lt most (value t.old a v * value t.old b v)) }
{
    match (constant(t, a), constant(t, b)) {
        (_, Some(n)) => multiple_exceeds(t, most, a, n),
        (Some(n), None) => multiple_exceeds(t, most, b, n),
        (None, None) => general_exceeds(t, most, a, b),
    }
}

// The same for a term and a number: no product is needed.
#[tactic(auto, using(crate::proofs::NumberLaws::over_quotient))]
fn multiple_exceeds(t: &mut Terms, most: u64, a: TermId, n: u64) -> Result<TermId, AllocError>
    requires most { most < 2 ^ width t.old a }
    requires term { a < length t.old }
    ensures frame { Extends t.old t.new }
    ensures truth { IfOk result (λ r. IsTruth t.new r) }
    ensures value { IfOk result (λ r. (v : Reading) → is_true t.new r v ≡ nat_lt most (value t.old a v * n)) }
    ensures turned { IfOk result (λ r. (v : Reading) → is_true t.new r v ≡ nat_lt most (n * value t.old a v)) }
{
    if n == 0 {
        let never = logic::constant(t, false)?;
        return Ok(never);
    }
    let w = sized(t, a);
    let limit = number(t, w, most / n)?;
    let over = logic::ult(t, limit, a)?;
    Ok(over)
}

fn general_exceeds(t: &mut Terms, most: u64, a: TermId, b: TermId) -> Result<TermId, AllocError>
    requires most { most < 2 ^ width t.old a }
    requires first { a < length t.old }
    requires second { b < length t.old }
    requires widths { width t.old a ≡ width t.old b }
    ensures frame { Extends t.old t.new }
    ensures truth { IfOk result (λ r. IsTruth t.new r) }
    ensures value { IfOk result (λ r. (v : Reading) → is_true t.new r v ≡ nat_lt most (value t.old a v * value t.old b v)) }
{
    let w = sized(t, a);
    if w <= 32 {
        doubled_exceeds(t, w, most, a, b)
    } else {
        divided_exceeds(t, w, most, a, b)
    }
}

// The same at twice the width, which holds the product.
#[tactic(auto, using(crate::proofs::NumberLaws::product_fits))]
fn doubled_exceeds(
    t: &mut Terms,
    w: u32,
    most: u64,
    a: TermId,
    b: TermId,
) -> Result<TermId, AllocError>
    requires width { w ≡ width t.old a }
    requires narrow { w ≤ 32 }
    requires most { most < 2 ^ width t.old a }
    requires first { a < length t.old }
    requires second { b < length t.old }
    requires widths { width t.old a ≡ width t.old b }
    ensures frame { Extends t.old t.new }
    ensures truth { IfOk result (λ r. IsTruth t.new r) }
    ensures value { IfOk result (λ r. (v : Reading) → is_true t.new r v ≡ nat_lt most (value t.old a v * value t.old b v)) }
{
    // For the proof: the width is from 1 to 64, and the numbers of both terms below 2 to it.
    let _first = sized(t, a);
    let _second = sized(t, b);
    let x = ops::zero_extend(t, 2 * w, a)?;
    let y = ops::zero_extend(t, 2 * w, b)?;
    let product = product(t, x, y)?;
    let limit = number(t, 2 * w, most)?;
    let over = logic::ult(t, limit, product)?;
    Ok(over)
}

// The same by a division: where the product wraps, it does not divide back.
#[tactic(auto, using(crate::proofs::NumberLaws::divides_back))]
fn divided_exceeds(
    t: &mut Terms,
    w: u32,
    most: u64,
    a: TermId,
    b: TermId,
) -> Result<TermId, AllocError>
    requires width { w ≡ width t.old a }
    requires most { most < 2 ^ width t.old a }
    requires first { a < length t.old }
    requires second { b < length t.old }
    requires widths { width t.old a ≡ width t.old b }
    ensures frame { Extends t.old t.new }
    ensures truth { IfOk result (λ r. IsTruth t.new r) }
    ensures value { IfOk result (λ r. (v : Reading) → is_true t.new r v ≡ nat_lt most (value t.old a v * value t.old b v)) }
{
    // For the proof: the width is from 1 to 64, and the numbers of both terms below 2 to it.
    let _first = sized(t, a);
    let _second = sized(t, b);
    let product = product(t, a, b)?;
    let lost = is_lost(t, w, product, a, b)?;
    let limit = number(t, w, most)?;
    let over = logic::ult(t, limit, product)?;
    let either = logic::or(t, over, lost)?;
    Ok(either)
}

// Whether a factor is not 0 and does not divide the product back.
fn is_lost(
    t: &mut Terms,
    w: u32,
    product: TermId,
    a: TermId,
    b: TermId,
) -> Result<TermId, AllocError>
    requires width { w ≡ width t.old a }
    requires product { IsWord t.old w product }
    requires first { a < length t.old }
    requires second { b < length t.old }
    requires widths { width t.old a ≡ width t.old b }
    ensures frame { Extends t.old t.new }
    ensures truth { IfOk result (λ r. IsTruth t.new r) }
    ensures value { IfOk result (λ r. (v : Reading) → is_true t.new r v ≡ (not (nat_eq (value t.old a v) 0) && not (nat_eq (value t.old product v / value t.old a v) (value t.old b v)))) }
{
    // For the proof: the width is from 1 to 64, and the first term's number below 2 to it.
    let _first = sized(t, a);
    let none = number(t, w, 0)?;
    let zero = logic::eq(t, a, none)?;
    let quotient = ops::udiv(t, product, a)?;
    let back = logic::eq(t, quotient, b)?;
    let kept = logic::or(t, zero, back)?;
    let lost = logic::not(t, kept)?;
    Ok(lost)
}
