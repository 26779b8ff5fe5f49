//! Steps of a `getelementptr`.

ghost use Rattle.std.specs.Prelude.{◌≡◌, ◌≢◌, ℕ, ◌+◌, ◌-◌, ◌*◌, ◌/◌, ◌%◌, ◌^◌, ◌<◌, ◌≤◌, ◌&&◌, ◌||◌, ◌==◌, not, true, false, Bool, if◌then◌else◌, nat_eq, nat_lt, nat_le, unsigned_abs, length, IfOk};
ghost use Rattle.hk_num.specs.Numbers.{signed_of};
ghost use Rattle.hk_term.specs.Shape.{IsWidth, width};
ghost use Rattle.hk_term.specs.Meaning.{Reading, value};
ghost use Rattle.hk_symvalue.specs.Growth.{Extends};
ghost use Rattle.hk_symvalue.specs.Meaning.{IsTruth, IsWord, IsSym, is_true, meaning};
ghost use Rattle.hk_symvalue.specs.Indices.{distance, is_back, delta_of, leaves_object, stays_at, IsMoved};
ghost use Rattle.ir_value.specs.Pointers.{signed_step, step_of};

use crate::make::of_value;
use crate::numbers::is_some;
use crate::pointers::{are_small, is_word, offset_of};
use crate::value::{Moved, SymValue};
use crate::words::{at_width, fits, is_negative, magnitude, number, sized};
use crate::{logic, ops};
use hk_term::{TermId, Terms};
use ir_value::Value;
use std::alloc::AllocError;

// Whether an index is no number of a width.
fn is_no_index(t: &mut Terms, w: u32, index: SymValue) -> Result<TermId, AllocError>
    requires width { IsWidth w }
    requires index { IsSym t.old index }
    ensures frame { Extends t.old t.new }
    ensures truth { IfOk result (λ r. IsTruth t.new r) }
    ensures value { IfOk result (λ r. (v : Reading) → is_true t.new r v ≡ (is_true t.old index.poison v || not (nat_eq (value t.old index.base v) 0 && nat_lt (value t.old index.bits v) (2 ^ w)))) }
{
    let number = is_word(t, index.base, 0)?;
    let within = fits(t, w, index.bits)?;
    let both = logic::and(t, number, within)?;
    let other = logic::not(t, both)?;
    let either = logic::or(t, index.poison, other)?;
    Ok(either)
}

// The magnitude of a number's signed reading, as an offset.
fn steps(t: &mut Terms, n: TermId) -> Result<TermId, AllocError>
    requires { n < length t.old }
    ensures frame { Extends t.old t.new }
    ensures word { IfOk result (λ r. IsWord t.new 64 r) }
    ensures value { IfOk result (λ r. (v : Reading) → value t.new r v ≡ unsigned_abs (signed_of (width t.old n) (value t.old n v))) }
{
    let size = magnitude(t, n)?;
    let made = offset_of(t, size)?;
    Ok(made)
}

// Whether so many values of a size are over 2^64 - 1 bytes.
#[tactic(auto, using(crate::proofs::IndexLaws::over_by_quotient))]
fn exceeds(t: &mut Terms, count: TermId, each: u64) -> Result<TermId, AllocError>
    requires count { IsWord t.old 64 count }
    requires some { each ≢ 0 }
    ensures frame { Extends t.old t.new }
    ensures truth { IfOk result (λ r. IsTruth t.new r) }
    ensures value { IfOk result (λ r. (v : Reading) → is_true t.new r v ≡ nat_le (2 ^ 64) (value t.old count v * each)) }
{
    let most = number(t, 64, u64::MAX / each)?;
    let over = logic::ult(t, most, count)?;
    Ok(over)
}

#[tactic(auto, using(crate::proofs::IndexLaws::none_over))]
fn is_over(t: &mut Terms, count: TermId, each: u64) -> Result<TermId, AllocError>
    requires count { IsWord t.old 64 count }
    ensures frame { Extends t.old t.new }
    ensures truth { IfOk result (λ r. IsTruth t.new r) }
    ensures value { IfOk result (λ r. (v : Reading) → is_true t.new r v ≡ nat_le (2 ^ 64) (value t.old count v * each)) }
{
    if each == 0 {
        let never = logic::constant(t, false)?;
        Ok(never)
    } else {
        let over = exceeds(t, count, each)?;
        Ok(over)
    }
}

// So many values of a size, forwards or back.
fn delta(t: &mut Terms, back: TermId, count: TermId, each: u64) -> Result<TermId, AllocError>
    requires back { IsTruth t.old back }
    requires count { IsWord t.old 64 count }
    ensures frame { Extends t.old t.new }
    ensures word { IfOk result (λ r. IsWord t.new 64 r) }
    ensures value { IfOk result (λ r. (v : Reading) → value t.new r v ≡ delta_of (is_true t.old back v) (value t.old count v * each)) }
{
    let each = number(t, 64, each)?;
    let forwards = ops::mul(t, count, each)?;
    let backwards = ops::neg(t, forwards)?;
    let made = ops::choose(t, back, backwards, forwards)?;
    Ok(made)
}

// What a number of a width steps over.
fn moved_by(t: &mut Terms, w: u32, each: u64, n: TermId) -> Result<Moved, AllocError>
    requires { IsWord t.old w n }
    ensures frame { Extends t.old t.new }
    ensures moved { IfOk result (λ r. IsMoved t.new r) }
    ensures back { IfOk result (λ r. (v : Reading) → is_true t.new r.back v ≡ is_back w (value t.old n v)) }
    ensures over { IfOk result (λ r. (v : Reading) → is_true t.new r.over v ≡ nat_le (2 ^ 64) (distance w (value t.old n v) each)) }
    ensures by { IfOk result (λ r. (v : Reading) → value t.new r.by v ≡ delta_of (is_back w (value t.old n v)) (distance w (value t.old n v) each)) }
{
    let back = is_negative(t, n)?;
    let count = steps(t, n)?;
    let over = is_over(t, count, each)?;
    let by = delta(t, back, count, each)?;
    Ok(Moved { back, over, by })
}

// What an index steps over.
fn moved(t: &mut Terms, w: u32, each: u64, bits: TermId) -> Result<Moved, AllocError>
    requires width { IsWidth w }
    requires bits { bits < length t.old }
    ensures frame { Extends t.old t.new }
    ensures moved { IfOk result (λ r. IsMoved t.new r) }
    ensures back { IfOk result (λ r. (v : Reading) → is_true t.new r.back v ≡ is_back w (value t.old bits v % 2 ^ w)) }
    ensures over { IfOk result (λ r. (v : Reading) → is_true t.new r.over v ≡ nat_le (2 ^ 64) (distance w (value t.old bits v % 2 ^ w) each)) }
    ensures by { IfOk result (λ r. (v : Reading) → value t.new r.by v ≡ delta_of (is_back w (value t.old bits v % 2 ^ w)) (distance w (value t.old bits v % 2 ^ w) each)) }
{
    let n = at_width(t, w, bits)?;
    let made = moved_by(t, w, each, n)?;
    Ok(made)
}

// Whether a step from one offset to another one wraps.
fn wraps(t: &mut Terms, back: TermId, x: TermId, y: TermId) -> Result<TermId, AllocError>
    requires back { IsTruth t.old back }
    requires from { IsWord t.old 64 x }
    requires to { IsWord t.old 64 y }
    ensures frame { Extends t.old t.new }
    ensures truth { IfOk result (λ r. IsTruth t.new r) }
    ensures value { IfOk result (λ r. (v : Reading) → is_true t.new r v ≡ (if is_true t.old back v then nat_lt (value t.old x v) (value t.old y v) else nat_lt (value t.old y v) (value t.old x v))) }
{
    let above = logic::ult(t, x, y)?;
    let below = logic::ult(t, y, x)?;
    let made = logic::choose(t, back, above, below)?;
    Ok(made)
}

// Whether a step from one offset to another one leaves the object.
fn leaves_object(
    t: &mut Terms,
    back: TermId,
    over: TermId,
    size: TermId,
    x: TermId,
    y: TermId,
) -> Result<TermId, AllocError>
    requires back { IsTruth t.old back }
    requires over { IsTruth t.old over }
    requires size { IsWord t.old 64 size }
    requires from { IsWord t.old 64 x }
    requires to { IsWord t.old 64 y }
    ensures frame { Extends t.old t.new }
    ensures truth { IfOk result (λ r. IsTruth t.new r) }
    ensures value { IfOk result (λ r. (v : Reading) → is_true t.new r v ≡ leaves_object (is_true t.old over v) (is_true t.old back v) (value t.old size v) (value t.old x v) (value t.old y v)) }
{
    let wrapped = wraps(t, back, x, y)?;
    let beyond = logic::ult(t, size, y)?;
    let either = logic::or(t, wrapped, beyond)?;
    let left = logic::or(t, over, either)?;
    Ok(left)
}

// Whether a step is one from null to elsewhere.
fn moves_null(t: &mut Terms, inbounds: bool, over: TermId, by: TermId) -> Result<TermId, AllocError>
    requires over { IsTruth t.old over }
    requires by { IsWord t.old 64 by }
    ensures frame { Extends t.old t.new }
    ensures truth { IfOk result (λ r. IsTruth t.new r) }
    ensures value { IfOk result (λ r. (v : Reading) → is_true t.new r v ≡ ((inbounds && is_true t.old over v) || not (value t.old by v == 0))) }
{
    let over = logic::flagged(t, inbounds, over)?;
    let some = is_some(t, by)?;
    let either = logic::or(t, over, some)?;
    Ok(either)
}

// A way in the object of this base, from one offset to another one.
#[derive(Clone, Copy)]
struct Way {
    base: TermId,
    from: TermId,
    to: TermId,
}

// Whether a step from a pointer is none: null moves, or an offset leaves its object.
fn is_no_step(
    t: &mut Terms,
    inbounds: bool,
    m: Moved,
    size: TermId,
    way: Way,
) -> Result<TermId, AllocError>
    requires moved { IsMoved t.old m }
    requires size { IsWord t.old 64 size }
    requires base { IsWord t.old 64 way.base }
    requires from { IsWord t.old 64 way.from }
    requires to { IsWord t.old 64 way.to }
    ensures frame { Extends t.old t.new }
    ensures truth { IfOk result (λ r. IsTruth t.new r) }
    ensures value { IfOk result (λ r. (v : Reading) → is_true t.new r v ≡ (if nat_eq (value t.old way.base v) 1 then (inbounds && is_true t.old m.over v) || not (value t.old m.by v == 0) else inbounds && leaves_object (is_true t.old m.over v) (is_true t.old m.back v) (value t.old size v) (value t.old way.from v) (value t.old way.to v))) }
{
    let null = is_word(t, way.base, 1)?;
    let moves = moves_null(t, inbounds, m.over, m.by)?;
    let leaves = leaves_object(t, m.back, m.over, size, way.from, way.to)?;
    let outside = logic::flagged(t, inbounds, leaves)?;
    let made = logic::choose(t, null, moves, outside)?;
    Ok(made)
}

// Whether a pointer that is not poison takes no step by an index.
fn stays_out(t: &mut Terms, bad: TermId, base: TermId, none: TermId) -> Result<TermId, AllocError>
    requires bad { IsTruth t.old bad }
    requires base { IsWord t.old 64 base }
    requires none { IsTruth t.old none }
    ensures frame { Extends t.old t.new }
    ensures truth { IfOk result (λ r. IsTruth t.new r) }
    ensures value { IfOk result (λ r. (v : Reading) → is_true t.new r v ≡ (is_true t.old bad v || (nat_eq (value t.old base v) 0 || is_true t.old none v))) }
{
    let number = is_word(t, base, 0)?;
    let either = logic::or(t, number, none)?;
    let made = logic::or(t, bad, either)?;
    Ok(made)
}

// A pointer behind a step, where the index is one.
fn behind(
    t: &mut Terms,
    inbounds: bool,
    size: TermId,
    m: Moved,
    bad: TermId,
    from: SymValue,
) -> Result<SymValue, AllocError>
    requires size { IsWord t.old 64 size }
    requires moved { IsMoved t.old m }
    requires bad { IsTruth t.old bad }
    requires base { IsSym t.old from }
    ensures frame { Extends t.old t.new }
    ensures within { IfOk result (λ r. IsSym t.new r) }
    ensures poison { IfOk result (λ r. (v : Reading) → is_true t.new r.poison v ≡ (is_true t.old from.poison v || (is_true t.old bad v || stays_at inbounds (is_true t.old m.back v) (is_true t.old m.over v) (value t.old m.by v) (value t.old from.base v) (value t.old from.bits v) (value t.old size v)))) }
    ensures base { IfOk result (λ r. (v : Reading) → value t.new r.base v ≡ value t.old from.base v) }
    ensures bits { IfOk result (λ r. (v : Reading) → value t.new r.bits v ≡ (value t.old from.bits v + value t.old m.by v) % 2 ^ 64) }
    ensures small { (v : Reading) → value t.old from.bits v < 2 ^ 64 }
{
    are_small(t, from.bits);
    let x = offset_of(t, from.bits)?;
    let y = ops::add(t, x, m.by)?;
    let way = Way {
        base: from.base,
        from: x,
        to: y,
    };
    let none = is_no_step(t, inbounds, m, size, way)?;
    let out = stays_out(t, bad, from.base, none)?;
    let poison = logic::or(t, from.poison, out)?;
    Ok(SymValue {
        poison,
        base: from.base,
        bits: y,
    })
}

/// How an index of a `getelementptr` steps: it is a signed number of `width` bits, and steps over values of `each` bytes. With `inbounds`
/// the exact sum must lie in the object or at its end, and else the answer is poison; without it the sum is taken modulo 2^64. With `nuw`
/// beside `inbounds` the answer is poison, too, where the index, read unsigned, steps over 2^64 bytes or to an offset of 2^64 or more.
#[derive(Clone, Copy)]
pub struct Stride {
    pub inbounds: bool,
    pub nuw: bool,
    pub width: u32,
    pub each: u64,
}

// A step by an index of a width that a term may have.
fn step_at(
    t: &mut Terms,
    stride: Stride,
    size: TermId,
    index: SymValue,
    from: SymValue,
) -> Result<SymValue, AllocError>
    requires width { IsWidth stride.width }
    requires size { IsWord t.old 64 size }
    requires index { IsSym t.old index }
    requires base { IsSym t.old from }
    ensures frame { Extends t.old t.new }
    ensures within { IfOk result (λ r. IsSym t.new r) }
    ensures value { IfOk result (λ r. (v : Reading) → meaning t.new r v ≡ signed_step stride.inbounds (value t.old size v) stride.width stride.each (meaning t.old index v) (meaning t.old from v)) }
{
    let bits = index.bits;
    // For the proof: the size's number is below 2 to its width.
    let _size = sized(t, size);
    let bad = is_no_index(t, stride.width, index)?;
    let m = moved(t, stride.width, stride.each, bits)?;
    let made = behind(t, stride.inbounds, size, m, bad, from)?;
    Ok(made)
}

// A step by an index with a width that a term may have, and whether the flags exclude it: within an object, they do where it is negative
// and steps over values that have a size.
fn flagged_at(
    t: &mut Terms,
    stride: Stride,
    size: TermId,
    index: SymValue,
    from: SymValue,
) -> Result<SymValue, AllocError>
    requires width { IsWidth stride.width }
    requires size { IsWord t.old 64 size }
    requires index { IsSym t.old index }
    requires base { IsSym t.old from }
    ensures frame { Extends t.old t.new }
    ensures within { IfOk result (λ r. IsSym t.new r) }
    ensures value { IfOk result (λ r. (v : Reading) → meaning t.new r v ≡ step_of stride.inbounds stride.nuw (value t.old size v) stride.width stride.each (meaning t.old index v) (meaning t.old from v)) }
{
    // For the proof: the size's number is below 2 to its width.
    let _size = sized(t, size);
    let n = at_width(t, stride.width, index.bits)?;
    let back = is_negative(t, n)?;
    let counts = stride.inbounds && stride.nuw && stride.each != 0;
    let excluded = logic::flagged(t, counts, back)?;
    let stepped = step_at(t, stride, size, index, from)?;
    let poison = logic::or(t, excluded, stepped.poison)?;
    Ok(SymValue {
        poison,
        base: stepped.base,
        bits: stepped.bits,
    })
}

/// The address that an index steps to. The size is a term of width 64: that of the address's object. Null moves by nothing alone; a
/// poison index, or one that is no number of the stride's width, makes poison.
#[tactic(auto, using(crate::proofs::IndexLaws::no_width))]
pub fn step(
    t: &mut Terms,
    stride: Stride,
    size: TermId,
    index: SymValue,
    from: SymValue,
) -> Result<SymValue, AllocError>
    requires size { IsWord t.old 64 size }
    requires index { IsSym t.old index }
    requires base { IsSym t.old from }
    ensures frame { Extends t.old t.new }
    ensures within { IfOk result (λ r. IsSym t.new r) }
    ensures value { IfOk result (λ r. (v : Reading) → meaning t.new r v ≡ step_of stride.inbounds stride.nuw (value t.old size v) stride.width stride.each (meaning t.old index v) (meaning t.old from v)) }
{
    if 1 <= stride.width && stride.width <= 64 {
        let made = flagged_at(t, stride, size, index, from)?;
        Ok(made)
    } else {
        let made = of_value(t, Value::Poison)?;
        Ok(made)
    }
}
