//! Changes of width.

ghost use Rattle.std.specs.Prelude.{◌≡◌, ◌≢◌, ℕ, ◌+◌, ◌-◌, ◌*◌, ◌/◌, ◌%◌, ◌^◌, ◌<◌, ◌≤◌, ◌&&◌, ◌||◌, ◌==◌, not, true, false, Bool, if◌then◌else◌, nat_eq, nat_lt, nat_le, length, IfOk};
ghost use Rattle.hk_term.specs.Shape.{IsWidth, width};
ghost use Rattle.hk_term.specs.Meaning.{Reading, value};
ghost use Rattle.hk_symvalue.specs.Growth.{Extends};
ghost use Rattle.hk_symvalue.specs.Meaning.{IsTruth, IsWord, IsSym, IsMade, is_true, meaning};
ghost use Rattle.hk_symvalue.specs.Rows.{Answers, Reaches, flagged, IsFlagged, shown};
ghost use Rattle.hk_num.specs.Numbers.{bvslt, sign_extend};
ghost use Rattle.ir_value.specs.Numbers.{convert_of, convert, is_narrower};

use crate::compare::is_below_zero;
use crate::rows::number_of;
use crate::value::{Flagged, SymValue};
use crate::words::{at_width, sized};
use crate::{logic, ops};
use hk_term::{TermId, Terms};
use ir_ast::{ConvertKind, Flags};
use std::alloc::AllocError;

fn trunc(t: &mut Terms, flags: Flags, to: u32, a: Flagged) -> Result<SymValue, AllocError>
    requires to { IsWidth to }
    requires operand { IsFlagged t.old (width t.old a.bits) a }
    requires narrower { is_narrower ConvertKind.Trunc (width t.old a.bits) to ≡ true }
    ensures frame { Extends t.old t.new }
    ensures within { IfOk result (λ r. IsSym t.new r) }
    ensures answers { IfOk result (λ r. (v : Reading) → Answers false (meaning t.new r v) (convert_of flags ConvertKind.Trunc (width t.old a.bits) to (shown t.old a v))) }
{
    let never = logic::constant(t, false)?;
    let bits = at_width(t, to, a.bits)?;
    let excluded = excluded(t, flags, a.bits, bits)?;
    let value = number_of(t, a.poison, excluded, never, bits)?;
    Ok(value)
}

// Whether a number is another one with zeros before its low bits, which are this term.
fn drops_one(t: &mut Terms, a: TermId, low: TermId) -> Result<TermId, AllocError>
    requires number { a < length t.old }
    requires low { low < length t.old }
    ensures frame { Extends t.old t.new }
    ensures truth { IfOk result (λ r. IsTruth t.new r) }
    ensures value { IfOk result (λ r. (v : Reading) → is_true t.new r v ≡ not (nat_eq (value t.old low v % 2 ^ width t.old a) (value t.old a v))) }
{
    let w = sized(t, a);
    let back = at_width(t, w, low)?;
    let same = logic::eq(t, back, a)?;
    let made = logic::not(t, same)?;
    Ok(made)
}

// Whether a number is another one with copies of their sign before its low bits, which are this term.
fn drops_sign(t: &mut Terms, a: TermId, low: TermId) -> Result<TermId, AllocError>
    requires number { a < length t.old }
    requires low { low < length t.old }
    requires narrower { is_narrower ConvertKind.Sext (width t.old low) (width t.old a) ≡ true }
    ensures frame { Extends t.old t.new }
    ensures truth { IfOk result (λ r. IsTruth t.new r) }
    ensures value { IfOk result (λ r. (v : Reading) → is_true t.new r v ≡ not (nat_eq (sign_extend (width t.old low) (width t.old a) (value t.old low v)) (value t.old a v))) }
{
    let w = sized(t, a);
    let back = sign_extended(t, w, low)?;
    let same = logic::eq(t, back, a)?;
    let made = logic::not(t, same)?;
    Ok(made)
}

// Whether the flags of a `trunc` exclude a number, whose low bits are this term.
fn excluded(t: &mut Terms, flags: Flags, a: TermId, low: TermId) -> Result<TermId, AllocError>
    requires number { a < length t.old }
    requires low { low < length t.old }
    requires narrower { is_narrower ConvertKind.Sext (width t.old low) (width t.old a) ≡ true }
    ensures frame { Extends t.old t.new }
    ensures truth { IfOk result (λ r. IsTruth t.new r) }
    ensures value { IfOk result (λ r. (v : Reading) → is_true t.new r v ≡ ((flags.nuw && not (nat_eq (value t.old low v % 2 ^ width t.old a) (value t.old a v))) || (flags.nsw && not (nat_eq (sign_extend (width t.old low) (width t.old a) (value t.old low v)) (value t.old a v))))) }
{
    let one = drops_one(t, a, low)?;
    let sign = drops_sign(t, a, low)?;
    let unsigned = logic::flagged(t, flags.nuw, one)?;
    let signed = logic::flagged(t, flags.nsw, sign)?;
    let made = logic::or(t, unsigned, signed)?;
    Ok(made)
}

fn zext(t: &mut Terms, flags: Flags, to: u32, a: Flagged) -> Result<SymValue, AllocError>
    requires to { IsWidth to }
    requires operand { IsFlagged t.old (width t.old a.bits) a }
    requires narrower { is_narrower ConvertKind.Zext (width t.old a.bits) to ≡ true }
    ensures frame { Extends t.old t.new }
    ensures within { IfOk result (λ r. IsSym t.new r) }
    ensures answers { IfOk result (λ r. (v : Reading) → Answers false (meaning t.new r v) (convert_of flags ConvertKind.Zext (width t.old a.bits) to (shown t.old a v))) }
{
    let never = logic::constant(t, false)?;
    let negative = is_below_zero(t, a.bits)?;
    let excluded = logic::flagged(t, flags.nneg, negative)?;
    let value = number_of(t, a.poison, excluded, never, a.bits)?;
    Ok(value)
}

fn sext(t: &mut Terms, flags: Flags, to: u32, a: Flagged) -> Result<SymValue, AllocError>
    requires to { IsWidth to }
    requires operand { IsFlagged t.old (width t.old a.bits) a }
    requires narrower { is_narrower ConvertKind.Sext (width t.old a.bits) to ≡ true }
    ensures frame { Extends t.old t.new }
    ensures within { IfOk result (λ r. IsSym t.new r) }
    ensures answers { IfOk result (λ r. (v : Reading) → Answers false (meaning t.new r v) (convert_of flags ConvertKind.Sext (width t.old a.bits) to (shown t.old a v))) }
{
    let never = logic::constant(t, false)?;
    let bits = sign_extended(t, to, a.bits)?;
    let value = number_of(t, a.poison, never, never, bits)?;
    Ok(value)
}

fn sign_extended(t: &mut Terms, to: u32, a: TermId) -> Result<TermId, AllocError>
    requires to { IsWidth to }
    requires term { a < length t.old }
    requires narrower { is_narrower ConvertKind.Sext (width t.old a) to ≡ true }
    ensures frame { Extends t.old t.new }
    ensures word { IfOk result (λ r. IsWord t.new to r) }
    ensures value { IfOk result (λ r. (v : Reading) → value t.new r v ≡ sign_extend (width t.old a) to (value t.old a v)) }
{
    let made = ops::sign_extend(t, to, a)?;
    Ok(made)
}

fn is_narrower(kind: ConvertKind, from: u32, to: u32) -> bool
    ensures { result ≡ is_narrower kind from to }
{
    match kind {
        ConvertKind::Trunc => to < from,
        ConvertKind::Zext | ConvertKind::Sext => from < to,
    }
}

fn converted(
    t: &mut Terms,
    flags: Flags,
    kind: ConvertKind,
    to: u32,
    a: Flagged,
) -> Result<SymValue, AllocError>
    requires to { IsWidth to }
    requires operand { IsFlagged t.old (width t.old a.bits) a }
    requires narrower { is_narrower kind (width t.old a.bits) to ≡ true }
    ensures frame { Extends t.old t.new }
    ensures within { IfOk result (λ r. IsSym t.new r) }
    ensures answers { IfOk result (λ r. (v : Reading) → Answers false (meaning t.new r v) (convert_of flags kind (width t.old a.bits) to (shown t.old a v))) }
{
    match kind {
        ConvertKind::Trunc => trunc(t, flags, to, a),
        ConvertKind::Zext => zext(t, flags, to, a),
        ConvertKind::Sext => sext(t, flags, to, a),
    }
}

fn convert_at(
    t: &mut Terms,
    flags: Flags,
    kind: ConvertKind,
    from: u32,
    to: u32,
    a: SymValue,
) -> Result<SymValue, AllocError>
    requires from { IsWidth from }
    requires to { IsWidth to }
    requires narrower { is_narrower kind from to ≡ true }
    requires operand { IsSym t.old a }
    ensures frame { Extends t.old t.new }
    ensures within { IfOk result (λ r. IsSym t.new r) }
    ensures answers { IfOk result (λ r. (v : Reading) → Answers false (meaning t.new r v) (convert flags kind from to (meaning t.old a v))) }
{
    let x = at_width(t, from, a.bits)?;
    let made = converted(
        t,
        flags,
        kind,
        to,
        Flagged {
            poison: a.poison,
            bits: x,
        },
    )?;
    Ok(made)
}

/// The number at another width: `trunc` keeps the low bits, `zext` puts zeros before them and `sext` copies of the sign. It is poison
/// with `nuw` where `trunc` drops a bit that is one, with `nsw` where it drops one that differs from the result's sign, and with `nneg`
/// where `zext` takes a negative number. It never sticks.
pub fn convert(
    t: &mut Terms,
    flags: Flags,
    kind: ConvertKind,
    from: u32,
    to: u32,
    a: SymValue,
) -> Result<SymValue, AllocError>
    requires { IsSym t.old a }
    ensures frame { Extends t.old t.new }
    ensures within { IfOk result (λ r. IsSym t.new r) }
    ensures answers { IfOk result (λ r. (v : Reading) → Answers false (meaning t.new r v) (convert flags kind from to (meaning t.old a v))) }
{
    if 1 <= from && from <= 64 && 1 <= to && to <= 64 && is_narrower(kind, from, to) {
        let made = convert_at(t, flags, kind, from, to, a)?;
        Ok(made)
    } else {
        Ok(a)
    }
}
