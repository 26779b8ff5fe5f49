//! Comparisons of numbers.

ghost use Rattle.std.specs.Prelude.{◌≡◌, ℕ, ◌+◌, ◌-◌, ◌*◌, ◌/◌, ◌%◌, ◌^◌, ◌<◌, ◌≤◌, ◌&&◌, ◌||◌, ◌==◌, not, true, false, Bool, if◌then◌else◌, nat_eq, nat_lt, nat_le, length, IfOk};
ghost use Rattle.hk_term.specs.Shape.{IsWidth, width};
ghost use Rattle.hk_term.specs.Meaning.{Reading, value};
ghost use Rattle.hk_symvalue.specs.Growth.{Extends};
ghost use Rattle.hk_symvalue.specs.Meaning.{IsTruth, IsWord, IsSym, IsMade, is_true, meaning};
ghost use Rattle.hk_symvalue.specs.Rows.{Answers, Shown, flagged, IsFlagged, shown};
ghost use Rattle.ir_value.specs.Numbers.{truth, holds, signs_differ, compare_of, compare_numbers};
ghost use Rattle.hk_num.specs.Numbers.{bvslt};

use crate::logic;
use crate::rows::number_of;
use crate::value::{Flagged, SymValue};
use crate::words::{at_width, bit_of, number, sized};
use hk_term::{TermId, Terms};
use ir_ast::Predicate;
use std::alloc::AllocError;

fn differs(t: &mut Terms, a: TermId, b: TermId) -> Result<TermId, AllocError>
    requires first { a < length t.old }
    requires second { b < length t.old }
    requires widths { width t.old a ≡ width t.old b }
    ensures frame { Extends t.old t.new }
    ensures truth { IfOk result (λ r. IsTruth t.new r) }
    ensures value { IfOk result (λ r. (v : Reading) → is_true t.new r v ≡ not (nat_eq (value t.old a v) (value t.old b v))) }
{
    let same = logic::eq(t, a, b)?;
    let made = logic::not(t, same)?;
    Ok(made)
}

fn is_at_least(t: &mut Terms, a: TermId, b: TermId) -> Result<TermId, AllocError>
    requires first { a < length t.old }
    requires second { b < length t.old }
    requires widths { width t.old a ≡ width t.old b }
    ensures frame { Extends t.old t.new }
    ensures truth { IfOk result (λ r. IsTruth t.new r) }
    ensures value { IfOk result (λ r. (v : Reading) → is_true t.new r v ≡ not (nat_lt (value t.old a v) (value t.old b v))) }
{
    let less = logic::ult(t, a, b)?;
    let made = logic::not(t, less)?;
    Ok(made)
}

fn is_at_least_signed(t: &mut Terms, a: TermId, b: TermId) -> Result<TermId, AllocError>
    requires first { a < length t.old }
    requires second { b < length t.old }
    requires widths { width t.old a ≡ width t.old b }
    ensures frame { Extends t.old t.new }
    ensures truth { IfOk result (λ r. IsTruth t.new r) }
    ensures value { IfOk result (λ r. (v : Reading) → is_true t.new r v ≡ not (bvslt (width t.old a) (value t.old a v) (value t.old b v))) }
{
    let less = logic::slt(t, a, b)?;
    let made = logic::not(t, less)?;
    Ok(made)
}

/// Whether a comparison holds of two numbers of a width.
pub(crate) fn holds(
    t: &mut Terms,
    predicate: Predicate,
    a: TermId,
    b: TermId,
) -> Result<TermId, AllocError>
    requires first { a < length t.old }
    requires second { b < length t.old }
    requires widths { width t.old a ≡ width t.old b }
    ensures frame { Extends t.old t.new }
    ensures truth { IfOk result (λ r. IsTruth t.new r) }
    ensures value { IfOk result (λ r. (v : Reading) → is_true t.new r v ≡ holds predicate (width t.old a) (value t.old a v) (value t.old b v)) }
{
    match predicate {
        Predicate::Eq => logic::eq(t, a, b),
        Predicate::Ne => differs(t, a, b),
        Predicate::Ugt => logic::ult(t, b, a),
        Predicate::Uge => is_at_least(t, a, b),
        Predicate::Ult => logic::ult(t, a, b),
        Predicate::Ule => is_at_least(t, b, a),
        Predicate::Sgt => logic::slt(t, b, a),
        Predicate::Sge => is_at_least_signed(t, a, b),
        Predicate::Slt => logic::slt(t, a, b),
        Predicate::Sle => is_at_least_signed(t, b, a),
    }
}

/// Whether the signed reading of a number is below 0.
pub(crate) fn is_below_zero(t: &mut Terms, a: TermId) -> Result<TermId, AllocError>
    requires { a < length t.old }
    ensures frame { Extends t.old t.new }
    ensures truth { IfOk result (λ r. IsTruth t.new r) }
    ensures value { IfOk result (λ r. (v : Reading) → is_true t.new r v ≡ bvslt (width t.old a) (value t.old a v) 0) }
{
    let w = sized(t, a);
    let none = number(t, w, 0)?;
    let less = logic::slt(t, a, none)?;
    Ok(less)
}

// Whether one of two numbers of a width is negative.
fn signs_differ(t: &mut Terms, a: TermId, b: TermId) -> Result<TermId, AllocError>
    requires first { a < length t.old }
    requires second { b < length t.old }
    requires widths { width t.old a ≡ width t.old b }
    ensures frame { Extends t.old t.new }
    ensures truth { IfOk result (λ r. IsTruth t.new r) }
    ensures value { IfOk result (λ r. (v : Reading) → is_true t.new r v ≡ signs_differ (width t.old a) (value t.old a v) (value t.old b v)) }
{
    let first = is_below_zero(t, a)?;
    let second = is_below_zero(t, b)?;
    let other = logic::not(t, second)?;
    let made = logic::choose(t, first, other, second)?;
    Ok(made)
}

fn compare_of(
    t: &mut Terms,
    samesign: bool,
    predicate: Predicate,
    a: Flagged,
    b: Flagged,
) -> Result<SymValue, AllocError>
    requires first { IsFlagged t.old (width t.old a.bits) a }
    requires second { IsFlagged t.old (width t.old a.bits) b }
    ensures frame { Extends t.old t.new }
    ensures within { IfOk result (λ r. IsSym t.new r) }
    ensures answers { IfOk result (λ r. (v : Reading) → Answers false (meaning t.new r v) (compare_of samesign predicate (width t.old a.bits) (shown t.old a v) (shown t.old b v))) }
{
    let bit = holds(t, predicate, a.bits, b.bits)?;
    bit_of(t, bit);
    let differ = signs_differ(t, a.bits, b.bits)?;
    let excluded = logic::flagged(t, samesign, differ)?;
    let value = number_of(t, a.poison, b.poison, excluded, bit)?;
    Ok(value)
}

fn compare_at(
    t: &mut Terms,
    samesign: bool,
    predicate: Predicate,
    w: u32,
    a: SymValue,
    b: SymValue,
) -> Result<SymValue, AllocError>
    requires width { IsWidth w }
    requires first { IsSym t.old a }
    requires second { IsSym t.old b }
    ensures frame { Extends t.old t.new }
    ensures within { IfOk result (λ r. IsSym t.new r) }
    ensures answers { IfOk result (λ r. (v : Reading) → Answers false (meaning t.new r v) (compare_numbers samesign predicate w (meaning t.old a v) (meaning t.old b v))) }
{
    let x = at_width(t, w, a.bits)?;
    let y = at_width(t, w, b.bits)?;
    let made = compare_of(
        t,
        samesign,
        predicate,
        Flagged {
            poison: a.poison,
            bits: x,
        },
        Flagged {
            poison: b.poison,
            bits: y,
        },
    )?;
    Ok(made)
}

/// Compares two numbers of a width. It gives a number of width 1, and never sticks. With `samesign` it is poison where the signs differ.
pub fn compare_numbers(
    t: &mut Terms,
    samesign: bool,
    predicate: Predicate,
    w: u32,
    a: SymValue,
    b: SymValue,
) -> Result<SymValue, AllocError>
    requires first { IsSym t.old a }
    requires second { IsSym t.old b }
    ensures frame { Extends t.old t.new }
    ensures within { IfOk result (λ r. IsSym t.new r) }
    ensures answers { IfOk result (λ r. (v : Reading) → Answers false (meaning t.new r v) (compare_numbers samesign predicate w (meaning t.old a v) (meaning t.old b v))) }
{
    if 1 <= w && w <= 64 {
        let made = compare_at(t, samesign, predicate, w, a, b)?;
        Ok(made)
    } else {
        Ok(a)
    }
}
