//! Operations on two numbers: what they give, and what makes that poison.

ghost use Rattle.std.specs.Prelude.{◌≡◌, ℕ, ◌+◌, ◌-◌, ◌*◌, ◌/◌, ◌%◌, ◌^◌, ◌<◌, ◌≤◌, ◌&&◌, ◌||◌, ◌==◌, not, true, false, Bool, if◌then◌else◌, nat_eq, nat_lt, nat_le, bit_and, length, IfOk};
ghost use Rattle.hk_term.specs.Shape.{IsWidth, width};
ghost use Rattle.hk_term.specs.Meaning.{Reading, value};
ghost use Rattle.hk_symvalue.specs.Growth.{Extends};
ghost use Rattle.hk_symvalue.specs.Meaning.{IsTruth, IsWord, is_true};
ghost use Rattle.ir_value.specs.Numbers.{loses, loses_sign, loses_right, of_numbers};
ghost use Rattle.ir_value.specs.Intrinsics.{wrapped, overflowed};
ghost use Rattle.hk_term.specs.Operations.{urem_value, srem_value};
ghost use Rattle.hk_symvalue.specs.Rows.{Shown, shown, IsFlagged};

use crate::overflow::{overflows, wrapped};
use crate::value::Flagged;
use crate::words::{number, sized};
use crate::{logic, ops};
use hk_term::{TermId, Terms};
use ir_ast::{BinaryKind, Flags};
use ir_value::OverflowKind;
use std::alloc::AllocError;

// ---- sums, differences and products

// Whether a flag is set and excludes the operands.
fn excluded_by(
    t: &mut Terms,
    flag: bool,
    kind: OverflowKind,
    signed: bool,
    a: TermId,
    b: TermId,
) -> Result<TermId, AllocError>
    requires first { a < length t.old }
    requires second { b < length t.old }
    requires widths { width t.old a ≡ width t.old b }
    ensures frame { Extends t.old t.new }
    ensures truth { IfOk result (λ r. IsTruth t.new r) }
    ensures value { IfOk result (λ r. (v : Reading) → is_true t.new r v ≡ (flag && overflowed kind signed (width t.old a) (value t.old a v) (value t.old b v))) }
{
    if flag {
        let over = overflows(t, kind, signed, a, b)?;
        Ok(over)
    } else {
        let never = logic::constant(t, false)?;
        Ok(never)
    }
}

fn excluded(
    t: &mut Terms,
    flags: Flags,
    kind: OverflowKind,
    a: TermId,
    b: TermId,
) -> Result<TermId, AllocError>
    requires first { a < length t.old }
    requires second { b < length t.old }
    requires widths { width t.old a ≡ width t.old b }
    ensures frame { Extends t.old t.new }
    ensures truth { IfOk result (λ r. IsTruth t.new r) }
    ensures value { IfOk result (λ r. (v : Reading) → is_true t.new r v ≡ ((flags.nuw && overflowed kind false (width t.old a) (value t.old a v) (value t.old b v)) || (flags.nsw && overflowed kind true (width t.old a) (value t.old a v) (value t.old b v)))) }
{
    let unsigned = excluded_by(t, flags.nuw, kind, false, a, b)?;
    let signed = excluded_by(t, flags.nsw, kind, true, a, b)?;
    let either = logic::or(t, unsigned, signed)?;
    Ok(either)
}

fn checked(
    t: &mut Terms,
    flags: Flags,
    kind: OverflowKind,
    a: TermId,
    b: TermId,
) -> Result<Flagged, AllocError>
    requires first { a < length t.old }
    requires second { b < length t.old }
    requires widths { width t.old a ≡ width t.old b }
    ensures frame { Extends t.old t.new }
    ensures fits { IfOk result (λ r. IsFlagged t.new (width t.old a) r) }
    ensures poison { IfOk result (λ r. (v : Reading) → is_true t.new r.poison v ≡ ((flags.nuw && overflowed kind false (width t.old a) (value t.old a v) (value t.old b v)) || (flags.nsw && overflowed kind true (width t.old a) (value t.old a v) (value t.old b v)))) }
    ensures bits { IfOk result (λ r. (v : Reading) → value t.new r.bits v ≡ wrapped kind (width t.old a) (value t.old a v) (value t.old b v)) }
{
    let bits = wrapped(t, kind, a, b)?;
    let poison = excluded(t, flags, kind, a, b)?;
    Ok(Flagged { poison, bits })
}

fn add(t: &mut Terms, flags: Flags, a: TermId, b: TermId) -> Result<Flagged, AllocError>
    requires first { a < length t.old }
    requires second { b < length t.old }
    requires widths { width t.old a ≡ width t.old b }
    ensures frame { Extends t.old t.new }
    ensures fits { IfOk result (λ r. IsFlagged t.new (width t.old a) r) }
    ensures row { IfOk result (λ r. (v : Reading) → Shown (shown t.new r v) (of_numbers flags BinaryKind.Add (width t.old a) (value t.old a v) (value t.old b v))) }
{
    let made = checked(t, flags, OverflowKind::Add, a, b)?;
    Ok(made)
}

fn sub(t: &mut Terms, flags: Flags, a: TermId, b: TermId) -> Result<Flagged, AllocError>
    requires first { a < length t.old }
    requires second { b < length t.old }
    requires widths { width t.old a ≡ width t.old b }
    ensures frame { Extends t.old t.new }
    ensures fits { IfOk result (λ r. IsFlagged t.new (width t.old a) r) }
    ensures row { IfOk result (λ r. (v : Reading) → Shown (shown t.new r v) (of_numbers flags BinaryKind.Sub (width t.old a) (value t.old a v) (value t.old b v))) }
{
    let made = checked(t, flags, OverflowKind::Sub, a, b)?;
    Ok(made)
}

fn mul(t: &mut Terms, flags: Flags, a: TermId, b: TermId) -> Result<Flagged, AllocError>
    requires first { a < length t.old }
    requires second { b < length t.old }
    requires widths { width t.old a ≡ width t.old b }
    ensures frame { Extends t.old t.new }
    ensures fits { IfOk result (λ r. IsFlagged t.new (width t.old a) r) }
    ensures row { IfOk result (λ r. (v : Reading) → Shown (shown t.new r v) (of_numbers flags BinaryKind.Mul (width t.old a) (value t.old a v) (value t.old b v))) }
{
    let made = checked(t, flags, OverflowKind::Mul, a, b)?;
    Ok(made)
}

// ---- bits

fn and(t: &mut Terms, flags: Flags, a: TermId, b: TermId) -> Result<Flagged, AllocError>
    requires first { a < length t.old }
    requires second { b < length t.old }
    requires widths { width t.old a ≡ width t.old b }
    ensures frame { Extends t.old t.new }
    ensures fits { IfOk result (λ r. IsFlagged t.new (width t.old a) r) }
    ensures row { IfOk result (λ r. (v : Reading) → Shown (shown t.new r v) (of_numbers flags BinaryKind.And (width t.old a) (value t.old a v) (value t.old b v))) }
{
    let bits = ops::and(t, a, b)?;
    let poison = logic::constant(t, false)?;
    Ok(Flagged { poison, bits })
}

fn xor(t: &mut Terms, flags: Flags, a: TermId, b: TermId) -> Result<Flagged, AllocError>
    requires first { a < length t.old }
    requires second { b < length t.old }
    requires widths { width t.old a ≡ width t.old b }
    ensures frame { Extends t.old t.new }
    ensures fits { IfOk result (λ r. IsFlagged t.new (width t.old a) r) }
    ensures row { IfOk result (λ r. (v : Reading) → Shown (shown t.new r v) (of_numbers flags BinaryKind.Xor (width t.old a) (value t.old a v) (value t.old b v))) }
{
    let bits = ops::xor(t, a, b)?;
    let poison = logic::constant(t, false)?;
    Ok(Flagged { poison, bits })
}

// Whether the two have a common one.
fn share(t: &mut Terms, a: TermId, b: TermId) -> Result<TermId, AllocError>
    requires first { a < length t.old }
    requires second { b < length t.old }
    requires widths { width t.old a ≡ width t.old b }
    ensures frame { Extends t.old t.new }
    ensures truth { IfOk result (λ r. IsTruth t.new r) }
    ensures value { IfOk result (λ r. (v : Reading) → is_true t.new r v ≡ not (bit_and (value t.old a v) (value t.old b v) == 0)) }
{
    let both = ops::and(t, a, b)?;
    let some = is_some(t, both)?;
    Ok(some)
}

// Whether a number is not 0.
pub(crate) fn is_some(t: &mut Terms, a: TermId) -> Result<TermId, AllocError>
    requires { a < length t.old }
    ensures frame { Extends t.old t.new }
    ensures truth { IfOk result (λ r. IsTruth t.new r) }
    ensures value { IfOk result (λ r. (v : Reading) → is_true t.new r v ≡ not (value t.old a v == 0)) }
{
    let w = sized(t, a);
    let none = number(t, w, 0)?;
    let zero = logic::eq(t, a, none)?;
    let some = logic::not(t, zero)?;
    Ok(some)
}

fn or(t: &mut Terms, flags: Flags, a: TermId, b: TermId) -> Result<Flagged, AllocError>
    requires first { a < length t.old }
    requires second { b < length t.old }
    requires widths { width t.old a ≡ width t.old b }
    ensures frame { Extends t.old t.new }
    ensures fits { IfOk result (λ r. IsFlagged t.new (width t.old a) r) }
    ensures row { IfOk result (λ r. (v : Reading) → Shown (shown t.new r v) (of_numbers flags BinaryKind.Or (width t.old a) (value t.old a v) (value t.old b v))) }
{
    let bits = ops::or(t, a, b)?;
    let common = share(t, a, b)?;
    let poison = logic::flagged(t, flags.disjoint, common)?;
    Ok(Flagged { poison, bits })
}

// ---- shifts

// Whether shifted left and back the number is another one.
fn loses(t: &mut Terms, a: TermId, b: TermId) -> Result<TermId, AllocError>
    requires first { a < length t.old }
    requires second { b < length t.old }
    requires widths { width t.old a ≡ width t.old b }
    ensures frame { Extends t.old t.new }
    ensures truth { IfOk result (λ r. IsTruth t.new r) }
    ensures value { IfOk result (λ r. (v : Reading) → is_true t.new r v ≡ loses (width t.old a) (value t.old a v) (value t.old b v)) }
{
    let there = ops::shl(t, a, b)?;
    let back = ops::lshr(t, there, b)?;
    let same = logic::eq(t, back, a)?;
    let lost = logic::not(t, same)?;
    Ok(lost)
}

// The same, back with copies of the sign.
fn loses_sign(t: &mut Terms, a: TermId, b: TermId) -> Result<TermId, AllocError>
    requires first { a < length t.old }
    requires second { b < length t.old }
    requires widths { width t.old a ≡ width t.old b }
    ensures frame { Extends t.old t.new }
    ensures truth { IfOk result (λ r. IsTruth t.new r) }
    ensures value { IfOk result (λ r. (v : Reading) → is_true t.new r v ≡ loses_sign (width t.old a) (value t.old a v) (value t.old b v)) }
{
    let there = ops::shl(t, a, b)?;
    let back = ops::ashr(t, there, b)?;
    let same = logic::eq(t, back, a)?;
    let lost = logic::not(t, same)?;
    Ok(lost)
}

// The same, shifted right first.
fn loses_right(t: &mut Terms, a: TermId, b: TermId) -> Result<TermId, AllocError>
    requires first { a < length t.old }
    requires second { b < length t.old }
    requires widths { width t.old a ≡ width t.old b }
    ensures frame { Extends t.old t.new }
    ensures truth { IfOk result (λ r. IsTruth t.new r) }
    ensures value { IfOk result (λ r. (v : Reading) → is_true t.new r v ≡ loses_right (width t.old a) (value t.old a v) (value t.old b v)) }
{
    let there = ops::lshr(t, a, b)?;
    let back = ops::shl(t, there, b)?;
    let same = logic::eq(t, back, a)?;
    let lost = logic::not(t, same)?;
    Ok(lost)
}

// Whether a shift is by the width or more.
fn is_far(t: &mut Terms, b: TermId) -> Result<TermId, AllocError>
    requires { b < length t.old }
    ensures frame { Extends t.old t.new }
    ensures truth { IfOk result (λ r. IsTruth t.new r) }
    ensures value { IfOk result (λ r. (v : Reading) → is_true t.new r v ≡ nat_le (width t.old b) (value t.old b v)) }
{
    let w = sized(t, b);
    let most = number(t, w, u64::from(w - 1))?;
    let far = logic::ult(t, most, b)?;
    Ok(far)
}

fn shl_loses(t: &mut Terms, flags: Flags, a: TermId, b: TermId) -> Result<TermId, AllocError>
    requires first { a < length t.old }
    requires second { b < length t.old }
    requires widths { width t.old a ≡ width t.old b }
    ensures frame { Extends t.old t.new }
    ensures truth { IfOk result (λ r. IsTruth t.new r) }
    ensures value { IfOk result (λ r. (v : Reading) → is_true t.new r v ≡ ((flags.nuw && loses (width t.old a) (value t.old a v) (value t.old b v)) || (flags.nsw && loses_sign (width t.old a) (value t.old a v) (value t.old b v)))) }
{
    let ones = loses(t, a, b)?;
    let unsigned = logic::flagged(t, flags.nuw, ones)?;
    let signs = loses_sign(t, a, b)?;
    let signed = logic::flagged(t, flags.nsw, signs)?;
    let either = logic::or(t, unsigned, signed)?;
    Ok(either)
}

fn shl(t: &mut Terms, flags: Flags, a: TermId, b: TermId) -> Result<Flagged, AllocError>
    requires first { a < length t.old }
    requires second { b < length t.old }
    requires widths { width t.old a ≡ width t.old b }
    ensures frame { Extends t.old t.new }
    ensures fits { IfOk result (λ r. IsFlagged t.new (width t.old a) r) }
    ensures row { IfOk result (λ r. (v : Reading) → Shown (shown t.new r v) (of_numbers flags BinaryKind.Shl (width t.old a) (value t.old a v) (value t.old b v))) }
{
    let bits = ops::shl(t, a, b)?;
    let far = is_far(t, b)?;
    let lost = shl_loses(t, flags, a, b)?;
    let poison = logic::or(t, far, lost)?;
    Ok(Flagged { poison, bits })
}

fn lshr(t: &mut Terms, flags: Flags, a: TermId, b: TermId) -> Result<Flagged, AllocError>
    requires first { a < length t.old }
    requires second { b < length t.old }
    requires widths { width t.old a ≡ width t.old b }
    ensures frame { Extends t.old t.new }
    ensures fits { IfOk result (λ r. IsFlagged t.new (width t.old a) r) }
    ensures row { IfOk result (λ r. (v : Reading) → Shown (shown t.new r v) (of_numbers flags BinaryKind.Lshr (width t.old a) (value t.old a v) (value t.old b v))) }
{
    let bits = ops::lshr(t, a, b)?;
    let far = is_far(t, b)?;
    let ones = loses_right(t, a, b)?;
    let lost = logic::flagged(t, flags.exact, ones)?;
    let poison = logic::or(t, far, lost)?;
    Ok(Flagged { poison, bits })
}

fn ashr(t: &mut Terms, flags: Flags, a: TermId, b: TermId) -> Result<Flagged, AllocError>
    requires first { a < length t.old }
    requires second { b < length t.old }
    requires widths { width t.old a ≡ width t.old b }
    ensures frame { Extends t.old t.new }
    ensures fits { IfOk result (λ r. IsFlagged t.new (width t.old a) r) }
    ensures row { IfOk result (λ r. (v : Reading) → Shown (shown t.new r v) (of_numbers flags BinaryKind.Ashr (width t.old a) (value t.old a v) (value t.old b v))) }
{
    let bits = ops::ashr(t, a, b)?;
    let far = is_far(t, b)?;
    let ones = loses_right(t, a, b)?;
    let lost = logic::flagged(t, flags.exact, ones)?;
    let poison = logic::or(t, far, lost)?;
    Ok(Flagged { poison, bits })
}

// ---- divisions

fn udiv(t: &mut Terms, flags: Flags, a: TermId, b: TermId) -> Result<Flagged, AllocError>
    requires first { a < length t.old }
    requires second { b < length t.old }
    requires widths { width t.old a ≡ width t.old b }
    ensures frame { Extends t.old t.new }
    ensures fits { IfOk result (λ r. IsFlagged t.new (width t.old a) r) }
    ensures row { IfOk result (λ r. (v : Reading) → Shown (shown t.new r v) (of_numbers flags BinaryKind.Udiv (width t.old a) (value t.old a v) (value t.old b v))) }
{
    let bits = ops::udiv(t, a, b)?;
    let rest = ops::urem(t, a, b)?;
    let some = is_some(t, rest)?;
    let poison = logic::flagged(t, flags.exact, some)?;
    Ok(Flagged { poison, bits })
}

fn sdiv(t: &mut Terms, flags: Flags, a: TermId, b: TermId) -> Result<Flagged, AllocError>
    requires first { a < length t.old }
    requires second { b < length t.old }
    requires widths { width t.old a ≡ width t.old b }
    ensures frame { Extends t.old t.new }
    ensures fits { IfOk result (λ r. IsFlagged t.new (width t.old a) r) }
    ensures row { IfOk result (λ r. (v : Reading) → Shown (shown t.new r v) (of_numbers flags BinaryKind.Sdiv (width t.old a) (value t.old a v) (value t.old b v))) }
{
    let bits = ops::sdiv(t, a, b)?;
    let rest = ops::srem(t, a, b)?;
    let some = is_some(t, rest)?;
    let poison = logic::flagged(t, flags.exact, some)?;
    Ok(Flagged { poison, bits })
}

fn urem(t: &mut Terms, flags: Flags, a: TermId, b: TermId) -> Result<Flagged, AllocError>
    requires first { a < length t.old }
    requires second { b < length t.old }
    requires widths { width t.old a ≡ width t.old b }
    ensures frame { Extends t.old t.new }
    ensures fits { IfOk result (λ r. IsFlagged t.new (width t.old a) r) }
    ensures row { IfOk result (λ r. (v : Reading) → Shown (shown t.new r v) (of_numbers flags BinaryKind.Urem (width t.old a) (value t.old a v) (value t.old b v))) }
{
    let bits = ops::urem(t, a, b)?;
    let poison = logic::constant(t, false)?;
    Ok(Flagged { poison, bits })
}

fn srem(t: &mut Terms, flags: Flags, a: TermId, b: TermId) -> Result<Flagged, AllocError>
    requires first { a < length t.old }
    requires second { b < length t.old }
    requires widths { width t.old a ≡ width t.old b }
    ensures frame { Extends t.old t.new }
    ensures fits { IfOk result (λ r. IsFlagged t.new (width t.old a) r) }
    ensures row { IfOk result (λ r. (v : Reading) → Shown (shown t.new r v) (of_numbers flags BinaryKind.Srem (width t.old a) (value t.old a v) (value t.old b v))) }
{
    let bits = ops::srem(t, a, b)?;
    let poison = logic::constant(t, false)?;
    Ok(Flagged { poison, bits })
}

/// What an operation gives of two numbers of a width, where it does not stick.
pub(crate) fn of_numbers(
    t: &mut Terms,
    flags: Flags,
    kind: BinaryKind,
    a: TermId,
    b: TermId,
) -> Result<Flagged, AllocError>
    requires first { a < length t.old }
    requires second { b < length t.old }
    requires widths { width t.old a ≡ width t.old b }
    ensures frame { Extends t.old t.new }
    ensures fits { IfOk result (λ r. IsFlagged t.new (width t.old a) r) }
    ensures row { IfOk result (λ r. (v : Reading) → Shown (shown t.new r v) (of_numbers flags kind (width t.old a) (value t.old a v) (value t.old b v))) }
{
    match kind {
        BinaryKind::Add => add(t, flags, a, b),
        BinaryKind::Sub => sub(t, flags, a, b),
        BinaryKind::Mul => mul(t, flags, a, b),
        BinaryKind::Shl => shl(t, flags, a, b),
        BinaryKind::Udiv => udiv(t, flags, a, b),
        BinaryKind::Sdiv => sdiv(t, flags, a, b),
        BinaryKind::Lshr => lshr(t, flags, a, b),
        BinaryKind::Ashr => ashr(t, flags, a, b),
        BinaryKind::Urem => urem(t, flags, a, b),
        BinaryKind::Srem => srem(t, flags, a, b),
        BinaryKind::And => and(t, flags, a, b),
        BinaryKind::Xor => xor(t, flags, a, b),
        BinaryKind::Or => or(t, flags, a, b),
    }
}
