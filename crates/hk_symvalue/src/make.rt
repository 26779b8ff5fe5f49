//! Symbolic values of constants and terms, and the choice between two.

ghost use Rattle.std.specs.Prelude.{◌≡◌, ℕ, ◌+◌, ◌-◌, ◌*◌, ◌/◌, ◌%◌, ◌^◌, ◌<◌, ◌≤◌, ◌&&◌, ◌||◌, ◌==◌, not, true, false, Bool, if◌then◌else◌, nat_eq, nat_lt, nat_le, length, IfOk};
ghost use Rattle.hk_term.specs.Shape.{IsWidth, width};
ghost use Rattle.hk_term.specs.Meaning.{Reading, value};
ghost use Rattle.hk_symvalue.specs.Growth.{Extends};
ghost use Rattle.hk_symvalue.specs.Meaning.{IsTruth, IsWord, IsSym, IsMade, is_true, meaning, stands_for};
ghost use Rattle.ir_value.specs.declared.value.Value.TheVariants as machine;

use crate::value::SymValue;
use crate::words::{at_width, constant, number, sized};
use crate::{logic, ops};
use hk_term::{TermId, Terms};
use ir_value::Value;
use std::alloc::AllocError;

/// The number of a term.
pub fn of_term(t: &mut Terms, a: TermId) -> Result<SymValue, AllocError>
    requires { a < length t.old }
    ensures frame { Extends t.old t.new }
    ensures within { IfOk result (λ r. IsSym t.new r) }
    ensures value { IfOk result (λ r. (v : Reading) → meaning t.new r v ≡ machine.Number (value t.old a v)) }
{
    let poison = logic::constant(t, false)?;
    let base = number(t, 64, 0)?;
    Ok(SymValue {
        poison,
        base,
        bits: a,
    })
}

// A value that is the same under each reading.
fn of_parts(t: &mut Terms, poison: bool, base: u64, bits: u64) -> Result<SymValue, AllocError>
    ensures frame { Extends t.old t.new }
    ensures within { IfOk result (λ r. IsSym t.new r) }
    ensures value { IfOk result (λ r. (v : Reading) → meaning t.new r v ≡ stands_for poison base bits) }
{
    let poison = logic::constant(t, poison)?;
    let base = number(t, 64, base)?;
    let bits = number(t, 64, bits)?;
    Ok(SymValue { poison, base, bits })
}

/// A value of the machine: it is the same under each reading.
#[tactic(auto, using(crate::proofs::ValueLaws::address))]
pub fn of_value(t: &mut Terms, value: Value) -> Result<SymValue, AllocError>
    ensures frame { Extends t.old t.new }
    ensures within { IfOk result (λ r. IsSym t.new r) }
    ensures value { IfOk result (λ r. (v : Reading) → meaning t.new r v ≡ value) }
{
    match value {
        Value::Number(n) => {
            let made = of_parts(t, false, 0, n)?;
            Ok(made)
        }
        Value::Null => {
            let made = of_parts(t, false, 1, 0)?;
            Ok(made)
        }
        Value::Address { object, offset } => {
            let made = of_parts(t, false, u64::from(object) + 2, offset)?;
            Ok(made)
        }
        Value::Poison => {
            let made = of_parts(t, true, 0, 0)?;
            Ok(made)
        }
    }
}

// A width that holds a number.
fn width_for(n: u64) -> u32
    ensures width { IsWidth result }
    ensures holds { n < 2 ^ result }
{
    if n < 2 {
        1
    } else if n < 256 {
        8
    } else if n < 65_536 {
        16
    } else if n < 4_294_967_296 {
        32
    } else {
        64
    }
}

// A width that holds each value of a term.
fn width_of(t: &Terms, a: TermId) -> u32
    requires { a < length t.now }
    ensures width { IsWidth result }
    ensures holds { (v : Reading) → value t.now a v < 2 ^ result }
{
    match constant(t, a) {
        Some(n) => width_for(n),
        None => sized(t, a),
    }
}

// A width that holds each value of two terms.
fn common_width(t: &Terms, a: TermId, b: TermId) -> u32
    requires first { a < length t.now }
    requires second { b < length t.now }
    ensures width { IsWidth result }
    ensures first { (v : Reading) → value t.now a v < 2 ^ result }
    ensures second { (v : Reading) → value t.now b v < 2 ^ result }
{
    let u = width_of(t, a);
    let w = width_of(t, b);
    if u < w { w } else { u }
}

// The first of two numbers of any widths where a condition is true, and else the second.
fn choose_bits(t: &mut Terms, c: TermId, a: TermId, b: TermId) -> Result<TermId, AllocError>
    requires condition { IsTruth t.old c }
    requires first { a < length t.old }
    requires second { b < length t.old }
    ensures frame { Extends t.old t.new }
    ensures within { IfOk result (λ r. r < length t.new) }
    ensures value { IfOk result (λ r. (v : Reading) → value t.new r v ≡ (if is_true t.old c v then value t.old a v else value t.old b v)) }
{
    let w = common_width(t, a, b);
    let x = resized(t, w, a)?;
    let y = resized(t, w, b)?;
    let made = ops::choose(t, c, x, y)?;
    Ok(made)
}

// A term at a width that holds its values.
fn resized(t: &mut Terms, w: u32, a: TermId) -> Result<TermId, AllocError>
    requires width { IsWidth w }
    requires term { a < length t.old }
    requires holds { (v : Reading) → value t.old a v < 2 ^ w }
    ensures frame { Extends t.old t.new }
    ensures word { IfOk result (λ r. IsWord t.new w r) }
    ensures value { IfOk result (λ r. (v : Reading) → value t.new r v ≡ value t.old a v) }
{
    let made = at_width(t, w, a)?;
    Ok(made)
}

/// The first of two values where a condition is true, and else the second. It is exact for values of any kinds.
#[tactic(auto, using(crate::proofs::ValueLaws::chosen))]
pub fn choose(t: &mut Terms, c: TermId, a: SymValue, b: SymValue) -> Result<SymValue, AllocError>
    requires condition { IsTruth t.old c }
    requires first { IsSym t.old a }
    requires second { IsSym t.old b }
    ensures frame { Extends t.old t.new }
    ensures within { IfOk result (λ r. IsSym t.new r) }
    ensures value { IfOk result (λ r. (v : Reading) → meaning t.new r v ≡ (if is_true t.old c v then meaning t.old a v else meaning t.old b v)) }
{
    let poison = logic::choose(t, c, a.poison, b.poison)?;
    let base = ops::choose(t, c, a.base, b.base)?;
    let bits = choose_bits(t, c, a.bits, b.bits)?;
    Ok(SymValue { poison, base, bits })
}
