//! What the intrinsics with overflow give.

ghost use Rattle.std.specs.Prelude.{◌≡◌, ◌≢◌, ℕ, ◌+◌, ◌-◌, ◌*◌, ◌/◌, ◌%◌, ◌^◌, ◌<◌, ◌≤◌, ◌&&◌, ◌||◌, ◌==◌, not, true, false, Bool, if◌then◌else◌, nat_eq, nat_lt, nat_le, length, IfOk};
ghost use Rattle.hk_term.specs.Shape.{IsWidth, width};
ghost use Rattle.hk_term.specs.Meaning.{Reading, value};
ghost use Rattle.hk_symvalue.specs.Growth.{Extends};
ghost use Rattle.hk_symvalue.specs.Meaning.{IsTruth, IsWord, IsSym, IsMade, is_true, meaning};
ghost use Rattle.hk_symvalue.specs.Rows.{Answers, Reaches, flagged, IsFlagged, shown};
ghost use Rattle.ir_value.specs.Numbers.{truth};
ghost use Rattle.ir_value.specs.Intrinsics.{overflow_of, with_overflow};

use crate::logic;
use crate::overflow::{overflows, wrapped};
use crate::rows::number_of;
use crate::value::{Flagged, SymPair, SymValue};
use crate::words::{at_width, bit_of};
use hk_term::{TermId, Terms};
use ir_value::OverflowKind;
use std::alloc::AllocError;

fn overflow_of(
    t: &mut Terms,
    kind: OverflowKind,
    signed: bool,
    a: Flagged,
    b: Flagged,
) -> Result<SymPair, AllocError>
    requires first { IsFlagged t.old (width t.old a.bits) a }
    requires second { IsFlagged t.old (width t.old a.bits) b }
    ensures frame { Extends t.old t.new }
    ensures first { IfOk result (λ r. IsSym t.new r.number) }
    ensures second { IfOk result (λ r. IsSym t.new r.overflow) }
    ensures number { IfOk result (λ r. (v : Reading) → Answers false (meaning t.new r.number v) (overflow_of kind signed (width t.old a.bits) 0 (shown t.old a v) (shown t.old b v))) }
    ensures overflow { IfOk result (λ r. (v : Reading) → Answers false (meaning t.new r.overflow v) (overflow_of kind signed (width t.old a.bits) 1 (shown t.old a v) (shown t.old b v))) }
{
    let never = logic::constant(t, false)?;
    let bits = wrapped(t, kind, a.bits, b.bits)?;
    let over = overflows(t, kind, signed, a.bits, b.bits)?;
    bit_of(t, over);
    let number = number_of(t, a.poison, b.poison, never, bits)?;
    let overflow = number_of(t, a.poison, b.poison, never, over)?;
    Ok(SymPair { number, overflow })
}

fn overflow_at(
    t: &mut Terms,
    kind: OverflowKind,
    signed: bool,
    w: u32,
    a: SymValue,
    b: SymValue,
) -> Result<SymPair, AllocError>
    requires width { IsWidth w }
    requires first { IsSym t.old a }
    requires second { IsSym t.old b }
    ensures frame { Extends t.old t.new }
    ensures first { IfOk result (λ r. IsSym t.new r.number) }
    ensures second { IfOk result (λ r. IsSym t.new r.overflow) }
    ensures number { IfOk result (λ r. (v : Reading) → Answers false (meaning t.new r.number v) (with_overflow kind signed w 0 (meaning t.old a v) (meaning t.old b v))) }
    ensures overflow { IfOk result (λ r. (v : Reading) → Answers false (meaning t.new r.overflow v) (with_overflow kind signed w 1 (meaning t.old a v) (meaning t.old b v))) }
{
    let x = at_width(t, w, a.bits)?;
    let y = at_width(t, w, b.bits)?;
    let made = overflow_of(
        t,
        kind,
        signed,
        Flagged {
            poison: a.poison,
            bits: x,
        },
        Flagged {
            poison: b.poison,
            bits: y,
        },
    )?;
    Ok(made)
}

/// What an intrinsic with overflow gives: the wrapped number, and whether the width cannot hold the result. It never sticks.
pub fn with_overflow(
    t: &mut Terms,
    kind: OverflowKind,
    signed: bool,
    w: u32,
    a: SymValue,
    b: SymValue,
) -> Result<SymPair, AllocError>
    requires first { IsSym t.old a }
    requires second { IsSym t.old b }
    ensures frame { Extends t.old t.new }
    ensures first { IfOk result (λ r. IsSym t.new r.number) }
    ensures second { IfOk result (λ r. IsSym t.new r.overflow) }
    ensures number { IfOk result (λ r. (v : Reading) → Answers false (meaning t.new r.number v) (with_overflow kind signed w 0 (meaning t.old a v) (meaning t.old b v))) }
    ensures overflow { IfOk result (λ r. (v : Reading) → Answers false (meaning t.new r.overflow v) (with_overflow kind signed w 1 (meaning t.old a v) (meaning t.old b v))) }
{
    if 1 <= w && w <= 64 {
        let made = overflow_at(t, kind, signed, w, a, b)?;
        Ok(made)
    } else {
        Ok(SymPair {
            number: a,
            overflow: b,
        })
    }
}
