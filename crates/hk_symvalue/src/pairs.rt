//! What the intrinsics give that make one number of two.

ghost use Rattle.std.specs.Prelude.{◌≡◌, ℕ, ◌+◌, ◌-◌, ◌*◌, ◌/◌, ◌%◌, ◌^◌, ◌<◌, ◌≤◌, ◌&&◌, ◌||◌, ◌==◌, not, true, false, Bool, if◌then◌else◌, nat_eq, nat_lt, nat_le, length, IfOk};
ghost use Rattle.hk_term.specs.Shape.{IsWidth, width};
ghost use Rattle.hk_term.specs.Meaning.{Reading, value};
ghost use Rattle.hk_symvalue.specs.Growth.{Extends};
ghost use Rattle.hk_symvalue.specs.Meaning.{IsTruth, IsWord, IsSym, is_true, meaning};
ghost use Rattle.hk_symvalue.specs.Rows.{Answers, Shown, flagged, IsFlagged, shown};
ghost use Rattle.ir_value.specs.Intrinsics.{pair_numbers, pair_of, pair, second_width};

use crate::rows::{is_least, number_of};
use crate::value::{Flagged, SymValue};
use crate::words::{at_width, magnitude, sized};
use crate::{logic, ops};
use hk_term::{TermId, Terms};
use ir_value::PairKind;
use std::alloc::AllocError;

fn umin(t: &mut Terms, a: TermId, b: TermId) -> Result<Flagged, AllocError>
    requires first { a < length t.old }
    requires second { b < length t.old }
    requires widths { width t.old b ≡ width t.old a }
    ensures frame { Extends t.old t.new }
    ensures fits { IfOk result (λ r. IsFlagged t.new (width t.old a) r) }
    ensures row { IfOk result (λ r. (v : Reading) → Shown (shown t.new r v) (pair_numbers PairKind.Umin (width t.old a) (value t.old a v) (value t.old b v))) }
{
    let less = logic::ult(t, b, a)?;
    let bits = ops::choose(t, less, b, a)?;
    let poison = logic::constant(t, false)?;
    Ok(Flagged { poison, bits })
}

fn umax(t: &mut Terms, a: TermId, b: TermId) -> Result<Flagged, AllocError>
    requires first { a < length t.old }
    requires second { b < length t.old }
    requires widths { width t.old b ≡ width t.old a }
    ensures frame { Extends t.old t.new }
    ensures fits { IfOk result (λ r. IsFlagged t.new (width t.old a) r) }
    ensures row { IfOk result (λ r. (v : Reading) → Shown (shown t.new r v) (pair_numbers PairKind.Umax (width t.old a) (value t.old a v) (value t.old b v))) }
{
    let less = logic::ult(t, b, a)?;
    let bits = ops::choose(t, less, a, b)?;
    let poison = logic::constant(t, false)?;
    Ok(Flagged { poison, bits })
}

fn smin(t: &mut Terms, a: TermId, b: TermId) -> Result<Flagged, AllocError>
    requires first { a < length t.old }
    requires second { b < length t.old }
    requires widths { width t.old b ≡ width t.old a }
    ensures frame { Extends t.old t.new }
    ensures fits { IfOk result (λ r. IsFlagged t.new (width t.old a) r) }
    ensures row { IfOk result (λ r. (v : Reading) → Shown (shown t.new r v) (pair_numbers PairKind.Smin (width t.old a) (value t.old a v) (value t.old b v))) }
{
    let less = logic::slt(t, b, a)?;
    let bits = ops::choose(t, less, b, a)?;
    let poison = logic::constant(t, false)?;
    Ok(Flagged { poison, bits })
}

fn smax(t: &mut Terms, a: TermId, b: TermId) -> Result<Flagged, AllocError>
    requires first { a < length t.old }
    requires second { b < length t.old }
    requires widths { width t.old b ≡ width t.old a }
    ensures frame { Extends t.old t.new }
    ensures fits { IfOk result (λ r. IsFlagged t.new (width t.old a) r) }
    ensures row { IfOk result (λ r. (v : Reading) → Shown (shown t.new r v) (pair_numbers PairKind.Smax (width t.old a) (value t.old a v) (value t.old b v))) }
{
    let less = logic::slt(t, b, a)?;
    let bits = ops::choose(t, less, a, b)?;
    let poison = logic::constant(t, false)?;
    Ok(Flagged { poison, bits })
}

// The flag says that the least number gives poison.
fn abs(t: &mut Terms, a: TermId, strict: TermId) -> Result<Flagged, AllocError>
    requires number { a < length t.old }
    requires flag { IsTruth t.old strict }
    ensures frame { Extends t.old t.new }
    ensures fits { IfOk result (λ r. IsFlagged t.new (width t.old a) r) }
    ensures row { IfOk result (λ r. (v : Reading) → Shown (shown t.new r v) (pair_numbers PairKind.Abs (width t.old a) (value t.old a v) (value t.old strict v))) }
{
    // For the proof: the term's width is from 1 to 64, and its number below 2 to it.
    let _w = sized(t, a);
    let least = is_least(t, a)?;
    let bits = magnitude(t, a)?;
    let poison = logic::and(t, least, strict)?;
    Ok(Flagged { poison, bits })
}

fn expect(t: &mut Terms, a: TermId, b: TermId) -> Result<Flagged, AllocError>
    requires number { a < length t.old }
    ensures frame { Extends t.old t.new }
    ensures fits { IfOk result (λ r. IsFlagged t.new (width t.old a) r) }
    ensures row { IfOk result (λ r. (v : Reading) → Shown (shown t.new r v) (pair_numbers PairKind.Expect (width t.old a) (value t.old a v) (value t.old b v))) }
{
    let poison = logic::constant(t, false)?;
    Ok(Flagged { poison, bits: a })
}

fn pair_numbers(t: &mut Terms, kind: PairKind, a: TermId, b: TermId) -> Result<Flagged, AllocError>
    requires first { a < length t.old }
    requires second { b < length t.old }
    requires widths { width t.old b ≡ second_width kind (width t.old a) }
    ensures frame { Extends t.old t.new }
    ensures fits { IfOk result (λ r. IsFlagged t.new (width t.old a) r) }
    ensures row { IfOk result (λ r. (v : Reading) → Shown (shown t.new r v) (pair_numbers kind (width t.old a) (value t.old a v) (value t.old b v))) }
{
    match kind {
        PairKind::Umin => umin(t, a, b),
        PairKind::Umax => umax(t, a, b),
        PairKind::Smin => smin(t, a, b),
        PairKind::Smax => smax(t, a, b),
        PairKind::Abs => abs(t, a, b),
        PairKind::Expect => expect(t, a, b),
    }
}

fn second_width(kind: PairKind, w: u32) -> u32
    requires { IsWidth w }
    ensures value { result ≡ second_width kind w }
    ensures width { IsWidth result }
{
    match kind {
        PairKind::Abs => 1,
        _ => w,
    }
}

fn pair_of(t: &mut Terms, kind: PairKind, a: Flagged, b: Flagged) -> Result<SymValue, AllocError>
    requires first { IsFlagged t.old (width t.old a.bits) a }
    requires second { IsFlagged t.old (second_width kind (width t.old a.bits)) b }
    ensures frame { Extends t.old t.new }
    ensures within { IfOk result (λ r. IsSym t.new r) }
    ensures answers { IfOk result (λ r. (v : Reading) → Answers false (meaning t.new r v) (pair_of kind (width t.old a.bits) (shown t.old a v) (shown t.old b v))) }
{
    let row = pair_numbers(t, kind, a.bits, b.bits)?;
    let value = number_of(t, a.poison, b.poison, row.poison, row.bits)?;
    Ok(value)
}

fn pair_at(
    t: &mut Terms,
    kind: PairKind,
    w: u32,
    a: SymValue,
    b: SymValue,
) -> Result<SymValue, AllocError>
    requires width { IsWidth w }
    requires first { IsSym t.old a }
    requires second { IsSym t.old b }
    ensures frame { Extends t.old t.new }
    ensures within { IfOk result (λ r. IsSym t.new r) }
    ensures answers { IfOk result (λ r. (v : Reading) → Answers false (meaning t.new r v) (pair kind w (meaning t.old a v) (meaning t.old b v))) }
{
    let u = second_width(kind, w);
    let x = at_width(t, w, a.bits)?;
    let y = at_width(t, u, b.bits)?;
    let made = pair_of(
        t,
        kind,
        Flagged {
            poison: a.poison,
            bits: x,
        },
        Flagged {
            poison: b.poison,
            bits: y,
        },
    )?;
    Ok(made)
}

/// What an intrinsic gives that makes one number of two: the least or the greatest, a magnitude, or the number that is expected to be
/// another one. It never sticks.
pub fn pair(
    t: &mut Terms,
    kind: PairKind,
    w: u32,
    a: SymValue,
    b: SymValue,
) -> Result<SymValue, AllocError>
    requires first { IsSym t.old a }
    requires second { IsSym t.old b }
    ensures frame { Extends t.old t.new }
    ensures within { IfOk result (λ r. IsSym t.new r) }
    ensures answers { IfOk result (λ r. (v : Reading) → Answers false (meaning t.new r v) (pair kind w (meaning t.old a v) (meaning t.old b v))) }
{
    if 1 <= w && w <= 64 {
        let made = pair_at(t, kind, w, a, b)?;
        Ok(made)
    } else {
        Ok(a)
    }
}
