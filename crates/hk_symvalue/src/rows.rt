//! Operations on two values that are numbers.

ghost use Rattle.std.specs.Prelude.{◌≡◌, ℕ, ◌+◌, ◌-◌, ◌*◌, ◌/◌, ◌%◌, ◌^◌, ◌<◌, ◌≤◌, ◌&&◌, ◌||◌, ◌==◌, not, true, false, Bool, if◌then◌else◌, nat_eq, nat_lt, nat_le, length, IfOk};
ghost use Rattle.hk_term.specs.Shape.{IsWidth, width};
ghost use Rattle.hk_term.specs.Meaning.{Reading, value};
ghost use Rattle.hk_symvalue.specs.Growth.{Extends};
ghost use Rattle.hk_symvalue.specs.Meaning.{IsTruth, IsWord, IsSym, IsMade, is_true, meaning};
ghost use Rattle.hk_symvalue.specs.Rows.{Answers, flagged, IsFlagged, shown, binary_sticks};
ghost use Rattle.ir_value.specs.Numbers.{is_minus_one, is_least, binary_of, binary};

use crate::value::{Flagged, SymMade, SymValue};
use crate::words::{at_width, greatest, number, sized};
use crate::{logic, numbers};
use hk_term::{TermId, Terms};
use ir_ast::{BinaryKind, Flags};
use std::alloc::AllocError;

// Whether a divisor is poison or 0.
fn zero_sticks(t: &mut Terms, poison: TermId, b: TermId) -> Result<TermId, AllocError>
    requires poison { IsTruth t.old poison }
    requires second { b < length t.old }
    ensures frame { Extends t.old t.new }
    ensures truth { IfOk result (λ r. IsTruth t.new r) }
    ensures value { IfOk result (λ r. (v : Reading) → is_true t.new r v ≡ (is_true t.old poison v || value t.old b v == 0)) }
{
    let w = sized(t, b);
    let none = number(t, w, 0)?;
    let zero = logic::eq(t, b, none)?;
    let either = logic::or(t, poison, zero)?;
    Ok(either)
}

// Whether a divisor is -1, and the dividend poison or the least number.
fn quotient_sticks(
    t: &mut Terms,
    poison: TermId,
    a: TermId,
    b: TermId,
) -> Result<TermId, AllocError>
    requires poison { IsTruth t.old poison }
    requires first { a < length t.old }
    requires second { b < length t.old }
    requires widths { width t.old a ≡ width t.old b }
    ensures frame { Extends t.old t.new }
    ensures truth { IfOk result (λ r. IsTruth t.new r) }
    ensures value { IfOk result (λ r. (v : Reading) → is_true t.new r v ≡ (is_minus_one (width t.old a) (value t.old b v) && (is_true t.old poison v || is_least (width t.old a) (value t.old a v)))) }
{
    let minus_one = is_minus_one(t, b)?;
    let least = is_least(t, a)?;
    let either = logic::or(t, poison, least)?;
    let both = logic::and(t, minus_one, either)?;
    Ok(both)
}

fn is_minus_one(t: &mut Terms, b: TermId) -> Result<TermId, AllocError>
    requires { b < length t.old }
    ensures frame { Extends t.old t.new }
    ensures truth { IfOk result (λ r. IsTruth t.new r) }
    ensures value { IfOk result (λ r. (v : Reading) → is_true t.new r v ≡ is_minus_one (width t.old b) (value t.old b v)) }
{
    let w = sized(t, b);
    let ones = number(t, w, greatest(w))?;
    let same = logic::eq(t, b, ones)?;
    Ok(same)
}

/// Whether a number is the one with the least signed reading.
pub(crate) fn is_least(t: &mut Terms, a: TermId) -> Result<TermId, AllocError>
    requires { a < length t.old }
    ensures frame { Extends t.old t.new }
    ensures truth { IfOk result (λ r. IsTruth t.new r) }
    ensures value { IfOk result (λ r. (v : Reading) → is_true t.new r v ≡ is_least (width t.old a) (value t.old a v)) }
{
    let w = sized(t, a);
    let least = number(t, w, 1 << (w - 1))?;
    let same = logic::eq(t, a, least)?;
    Ok(same)
}

fn signed_sticks(
    t: &mut Terms,
    pa: TermId,
    a: TermId,
    pb: TermId,
    b: TermId,
) -> Result<TermId, AllocError>
    requires dividend { IsTruth t.old pa }
    requires divisor { IsTruth t.old pb }
    requires first { a < length t.old }
    requires second { b < length t.old }
    requires widths { width t.old a ≡ width t.old b }
    ensures frame { Extends t.old t.new }
    ensures truth { IfOk result (λ r. IsTruth t.new r) }
    ensures value { IfOk result (λ r. (v : Reading) → is_true t.new r v ≡ ((is_true t.old pb v || value t.old b v == 0) || (is_minus_one (width t.old a) (value t.old b v) && (is_true t.old pa v || is_least (width t.old a) (value t.old a v))))) }
{
    let zero = zero_sticks(t, pb, b)?;
    let over = quotient_sticks(t, pa, a, b)?;
    let either = logic::or(t, zero, over)?;
    Ok(either)
}

// Whether an operation sticks at two numbers, each of which may be poison.
fn binary_sticks(
    t: &mut Terms,
    kind: BinaryKind,
    pa: TermId,
    a: TermId,
    pb: TermId,
    b: TermId,
) -> Result<TermId, AllocError>
    requires dividend { IsTruth t.old pa }
    requires divisor { IsTruth t.old pb }
    requires first { a < length t.old }
    requires second { b < length t.old }
    requires widths { width t.old a ≡ width t.old b }
    ensures frame { Extends t.old t.new }
    ensures truth { IfOk result (λ r. IsTruth t.new r) }
    ensures value { IfOk result (λ r. (v : Reading) → is_true t.new r v ≡ binary_sticks kind (width t.old a) (is_true t.old pa v) (value t.old a v) (is_true t.old pb v) (value t.old b v)) }
{
    match kind {
        BinaryKind::Udiv | BinaryKind::Urem => {
            let stuck = zero_sticks(t, pb, b)?;
            Ok(stuck)
        }
        BinaryKind::Sdiv | BinaryKind::Srem => {
            let stuck = signed_sticks(t, pa, a, pb, b)?;
            Ok(stuck)
        }
        _ => {
            let never = logic::constant(t, false)?;
            Ok(never)
        }
    }
}

/// The value of a number that is poison where one of three tests is true.
pub(crate) fn number_of(
    t: &mut Terms,
    pa: TermId,
    pb: TermId,
    own: TermId,
    bits: TermId,
) -> Result<SymValue, AllocError>
    requires first { IsTruth t.old pa }
    requires second { IsTruth t.old pb }
    requires own { IsTruth t.old own }
    requires bits { bits < length t.old }
    ensures frame { Extends t.old t.new }
    ensures within { IfOk result (λ r. IsSym t.new r) }
    ensures value { IfOk result (λ r. (v : Reading) → meaning t.new r v ≡ flagged ((is_true t.old pa v || is_true t.old pb v) || is_true t.old own v) (value t.old bits v)) }
{
    let either = logic::or(t, pa, pb)?;
    let poison = logic::or(t, either, own)?;
    let base = number(t, 64, 0)?;
    Ok(SymValue { poison, base, bits })
}

// Any answer: of operands that no row takes nothing is claimed.
fn lost(t: &mut Terms, value: SymValue) -> Result<SymMade, AllocError>
    requires { IsSym t.old value }
    ensures frame { Extends t.old t.new }
    ensures made { IfOk result (λ r. IsMade t.new r) }
{
    let stuck = logic::constant(t, false)?;
    Ok(SymMade { stuck, value })
}

/// What an operation on two numbers of a width gives. Divisions alone can stick.
pub fn binary(
    t: &mut Terms,
    flags: Flags,
    kind: BinaryKind,
    w: u32,
    a: SymValue,
    b: SymValue,
) -> Result<SymMade, AllocError>
    requires first { IsSym t.old a }
    requires second { IsSym t.old b }
    ensures frame { Extends t.old t.new }
    ensures made { IfOk result (λ r. IsMade t.new r) }
    ensures answers { IfOk result (λ r. (v : Reading) → Answers (is_true t.new r.stuck v) (meaning t.new r.value v) (binary flags kind w (meaning t.old a v) (meaning t.old b v))) }
{
    if 1 <= w && w <= 64 {
        let made = binary_at(t, flags, kind, w, a, b)?;
        Ok(made)
    } else {
        let made = lost(t, a)?;
        Ok(made)
    }
}

fn binary_at(
    t: &mut Terms,
    flags: Flags,
    kind: BinaryKind,
    w: u32,
    a: SymValue,
    b: SymValue,
) -> Result<SymMade, AllocError>
    requires width { IsWidth w }
    requires first { IsSym t.old a }
    requires second { IsSym t.old b }
    ensures frame { Extends t.old t.new }
    ensures made { IfOk result (λ r. IsMade t.new r) }
    ensures answers { IfOk result (λ r. (v : Reading) → Answers (is_true t.new r.stuck v) (meaning t.new r.value v) (binary flags kind w (meaning t.old a v) (meaning t.old b v))) }
{
    let x = at_width(t, w, a.bits)?;
    let y = at_width(t, w, b.bits)?;
    let made = binary_of(
        t,
        flags,
        kind,
        Flagged {
            poison: a.poison,
            bits: x,
        },
        Flagged {
            poison: b.poison,
            bits: y,
        },
    )?;
    Ok(made)
}

// The same at operands of the width.
fn binary_of(
    t: &mut Terms,
    flags: Flags,
    kind: BinaryKind,
    a: Flagged,
    b: Flagged,
) -> Result<SymMade, AllocError>
    requires first { IsFlagged t.old (width t.old a.bits) a }
    requires second { IsFlagged t.old (width t.old a.bits) b }
    ensures frame { Extends t.old t.new }
    ensures made { IfOk result (λ r. IsMade t.new r) }
    ensures answers { IfOk result (λ r. (v : Reading) → Answers (is_true t.new r.stuck v) (meaning t.new r.value v) (binary_of flags kind (width t.old a.bits) (shown t.old a v) (shown t.old b v))) }
{
    let row = numbers::of_numbers(t, flags, kind, a.bits, b.bits)?;
    let stuck = binary_sticks(t, kind, a.poison, a.bits, b.poison, b.bits)?;
    let value = number_of(t, a.poison, b.poison, row.poison, row.bits)?;
    Ok(SymMade { stuck, value })
}
