//! How addresses compare.

ghost use Rattle.std.specs.Prelude.{◌≡◌, ℕ, ◌<◌, ◌≤◌, ◌&&◌, ◌||◌, ◌==◌, not, true, false, Bool, if◌then◌else◌, nat_eq, nat_lt, nat_le, length, IfOk};
ghost use Rattle.hk_term.specs.Shape.{IsWidth, width};
ghost use Rattle.hk_term.specs.Meaning.{Reading, value};
ghost use Rattle.hk_symvalue.specs.Growth.{Extends};
ghost use Rattle.hk_symvalue.specs.Meaning.{IsTruth, IsWord, IsSym, IsMade, is_true, meaning};
ghost use Rattle.hk_symvalue.specs.Rows.{Answers, equality_sticks, order_sticks, pointers_stick, same_pointer, pointers_hold, IsPlace};
ghost use Rattle.ir_value.specs.Pointers.{is_equality, compare_pointers};

use crate::compare::holds;
use crate::logic;
use crate::pointers::{is_word, offset_of};
use crate::rows::number_of;
use crate::value::{Place, SymMade, SymValue};
use crate::words::bit_of;
use hk_term::{TermId, Terms};
use ir_ast::Predicate;
use std::alloc::AllocError;

fn is_equality(predicate: Predicate) -> bool
    ensures { result ≡ is_equality predicate }
{
    match predicate {
        Predicate::Eq | Predicate::Ne => true,
        _ => false,
    }
}

// Whether an offset lies in an object of a size, or at its end.
#[tactic(auto, using(crate::proofs::AddressLaws::not_over))]
fn is_inside(t: &mut Terms, size: TermId, x: TermId) -> Result<TermId, AllocError>
    requires size { IsWord t.old 64 size }
    requires offset { IsWord t.old 64 x }
    ensures frame { Extends t.old t.new }
    ensures truth { IfOk result (λ r. IsTruth t.new r) }
    ensures value { IfOk result (λ r. (v : Reading) → is_true t.new r v ≡ nat_le (value t.old x v) (value t.old size v)) }
{
    let over = logic::ult(t, size, x)?;
    let inside = logic::not(t, over)?;
    Ok(inside)
}

// Whether one pointer is null, and the offset of the other lies in its object or at its end.
fn is_apart(t: &mut Terms, null: TermId, size: TermId, x: TermId) -> Result<TermId, AllocError>
    requires null { IsWord t.old 64 null }
    requires size { IsWord t.old 64 size }
    requires offset { IsWord t.old 64 x }
    ensures frame { Extends t.old t.new }
    ensures truth { IfOk result (λ r. IsTruth t.new r) }
    ensures value { IfOk result (λ r. (v : Reading) → is_true t.new r v ≡ (nat_eq (value t.old null v) 1 && nat_le (value t.old x v) (value t.old size v))) }
{
    let first = is_word(t, null, 1)?;
    let second = is_inside(t, size, x)?;
    let both = logic::and(t, first, second)?;
    Ok(both)
}

fn equality_sticks(
    t: &mut Terms,
    size_a: TermId,
    size_b: TermId,
    a: Place,
    b: Place,
) -> Result<TermId, AllocError>
    requires first_size { IsWord t.old 64 size_a }
    requires second_size { IsWord t.old 64 size_b }
    requires first { IsPlace t.old a }
    requires second { IsPlace t.old b }
    ensures frame { Extends t.old t.new }
    ensures truth { IfOk result (λ r. IsTruth t.new r) }
    ensures value { IfOk result (λ r. (v : Reading) → is_true t.new r v ≡ equality_sticks (value t.old size_a v) (value t.old size_b v) (value t.old a.base v) (value t.old a.offset v) (value t.old b.base v) (value t.old b.offset v)) }
{
    let same = logic::eq(t, a.base, b.base)?;
    let left = is_apart(t, a.base, size_b, b.offset)?;
    let right = is_apart(t, b.base, size_a, a.offset)?;
    let apart = logic::or(t, left, right)?;
    let known = logic::or(t, same, apart)?;
    let stuck = logic::not(t, known)?;
    Ok(stuck)
}

// Whether two pointers are addresses in one object.
fn is_one_object(t: &mut Terms, a: TermId, b: TermId) -> Result<TermId, AllocError>
    requires first { IsWord t.old 64 a }
    requires second { IsWord t.old 64 b }
    ensures frame { Extends t.old t.new }
    ensures truth { IfOk result (λ r. IsTruth t.new r) }
    ensures value { IfOk result (λ r. (v : Reading) → is_true t.new r v ≡ (nat_eq (value t.old a v) (value t.old b v) && not (nat_eq (value t.old a v) 1))) }
{
    let same = logic::eq(t, a, b)?;
    let null = is_word(t, a, 1)?;
    let object = logic::not(t, null)?;
    let both = logic::and(t, same, object)?;
    Ok(both)
}

fn order_sticks(t: &mut Terms, size: TermId, a: Place, b: Place) -> Result<TermId, AllocError>
    requires size { IsWord t.old 64 size }
    requires first { IsPlace t.old a }
    requires second { IsPlace t.old b }
    ensures frame { Extends t.old t.new }
    ensures truth { IfOk result (λ r. IsTruth t.new r) }
    ensures value { IfOk result (λ r. (v : Reading) → is_true t.new r v ≡ order_sticks (value t.old size v) (value t.old a.base v) (value t.old a.offset v) (value t.old b.base v) (value t.old b.offset v)) }
{
    let object = is_one_object(t, a.base, b.base)?;
    let first = is_inside(t, size, a.offset)?;
    let second = is_inside(t, size, b.offset)?;
    let inside = logic::and(t, first, second)?;
    let known = logic::and(t, object, inside)?;
    let stuck = logic::not(t, known)?;
    Ok(stuck)
}

// Whether a comparison sticks at two pointers, neither of which is poison.
fn pointers_stick(
    t: &mut Terms,
    predicate: Predicate,
    size_a: TermId,
    size_b: TermId,
    a: Place,
    b: Place,
) -> Result<TermId, AllocError>
    requires first_size { IsWord t.old 64 size_a }
    requires second_size { IsWord t.old 64 size_b }
    requires first { IsPlace t.old a }
    requires second { IsPlace t.old b }
    ensures frame { Extends t.old t.new }
    ensures truth { IfOk result (λ r. IsTruth t.new r) }
    ensures value { IfOk result (λ r. (v : Reading) → is_true t.new r v ≡ pointers_stick predicate (value t.old size_a v) (value t.old size_b v) (value t.old a.base v) (value t.old a.offset v) (value t.old b.base v) (value t.old b.offset v)) }
{
    if is_equality(predicate) {
        let stuck = equality_sticks(t, size_a, size_b, a, b)?;
        Ok(stuck)
    } else {
        let stuck = order_sticks(t, size_a, a, b)?;
        Ok(stuck)
    }
}

fn same_pointer(t: &mut Terms, a: Place, b: Place) -> Result<TermId, AllocError>
    requires first { IsPlace t.old a }
    requires second { IsPlace t.old b }
    ensures frame { Extends t.old t.new }
    ensures truth { IfOk result (λ r. IsTruth t.new r) }
    ensures value { IfOk result (λ r. (v : Reading) → is_true t.new r v ≡ same_pointer (value t.old a.base v) (value t.old a.offset v) (value t.old b.base v) (value t.old b.offset v)) }
{
    let same = logic::eq(t, a.base, b.base)?;
    let null = is_word(t, a.base, 1)?;
    let place = logic::eq(t, a.offset, b.offset)?;
    let either = logic::or(t, null, place)?;
    let both = logic::and(t, same, either)?;
    Ok(both)
}

fn another_pointer(t: &mut Terms, a: Place, b: Place) -> Result<TermId, AllocError>
    requires first { IsPlace t.old a }
    requires second { IsPlace t.old b }
    ensures frame { Extends t.old t.new }
    ensures truth { IfOk result (λ r. IsTruth t.new r) }
    ensures value { IfOk result (λ r. (v : Reading) → is_true t.new r v ≡ not (same_pointer (value t.old a.base v) (value t.old a.offset v) (value t.old b.base v) (value t.old b.offset v))) }
{
    let same = same_pointer(t, a, b)?;
    let other = logic::not(t, same)?;
    Ok(other)
}

// Whether a comparison holds of two pointers, where it does not stick.
fn pointers_hold(
    t: &mut Terms,
    predicate: Predicate,
    a: Place,
    b: Place,
) -> Result<TermId, AllocError>
    requires first { IsPlace t.old a }
    requires second { IsPlace t.old b }
    ensures frame { Extends t.old t.new }
    ensures truth { IfOk result (λ r. IsTruth t.new r) }
    ensures value { IfOk result (λ r. (v : Reading) → is_true t.new r v ≡ pointers_hold predicate (value t.old a.base v) (value t.old a.offset v) (value t.old b.base v) (value t.old b.offset v)) }
{
    match predicate {
        Predicate::Eq => same_pointer(t, a, b),
        Predicate::Ne => another_pointer(t, a, b),
        _ => holds(t, predicate, a.offset, b.offset),
    }
}

// Whether neither operand is poison, and a test is true.
fn where_known(t: &mut Terms, pa: TermId, pb: TermId, c: TermId) -> Result<TermId, AllocError>
    requires first { IsTruth t.old pa }
    requires second { IsTruth t.old pb }
    requires test { IsTruth t.old c }
    ensures frame { Extends t.old t.new }
    ensures truth { IfOk result (λ r. IsTruth t.new r) }
    ensures value { IfOk result (λ r. (v : Reading) → is_true t.new r v ≡ (not (is_true t.old pa v || is_true t.old pb v) && is_true t.old c v)) }
{
    let poison = logic::or(t, pa, pb)?;
    let known = logic::not(t, poison)?;
    let both = logic::and(t, known, c)?;
    Ok(both)
}

/// Compares two pointers. The sizes are terms of width 64: those of the operands' objects. It gives a number of width 1, and sticks at
/// two objects, at an order with null, and where the answer depends on an offset beyond the end of its object.
pub fn compare_pointers(
    t: &mut Terms,
    predicate: Predicate,
    size_a: TermId,
    size_b: TermId,
    a: SymValue,
    b: SymValue,
) -> Result<SymMade, AllocError>
    requires first_size { IsWord t.old 64 size_a }
    requires second_size { IsWord t.old 64 size_b }
    requires first { IsSym t.old a }
    requires second { IsSym t.old b }
    ensures frame { Extends t.old t.new }
    ensures made { IfOk result (λ r. IsMade t.new r) }
    ensures answers { IfOk result (λ r. (v : Reading) → Answers (is_true t.new r.stuck v) (meaning t.new r.value v) (compare_pointers predicate (value t.old size_a v) (value t.old size_b v) (meaning t.old a v) (meaning t.old b v))) }
{
    let x = offset_of(t, a.bits)?;
    let y = offset_of(t, b.bits)?;
    let sticks = pointers_stick(
        t,
        predicate,
        size_a,
        size_b,
        Place {
            base: a.base,
            offset: x,
        },
        Place {
            base: b.base,
            offset: y,
        },
    )?;
    let stuck = where_known(t, a.poison, b.poison, sticks)?;
    let bit = pointers_hold(
        t,
        predicate,
        Place {
            base: a.base,
            offset: x,
        },
        Place {
            base: b.base,
            offset: y,
        },
    )?;
    bit_of(t, bit);
    let never = logic::constant(t, false)?;
    let value = number_of(t, a.poison, b.poison, never, bit)?;
    Ok(SymMade { stuck, value })
}
