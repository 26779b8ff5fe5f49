//! Shifts of words by words: barrel shifters, with a stage for each bit of the amount that is worth less than the width.

ghost use Rattle.std.specs.Prelude.{◌≡◌, ◌≤◌, ◌^◌, false, min, nat_eq, ℕ, Bool, IfOk, length, All, if◌then◌else◌};
ghost use Rattle.hk_cnf.specs.Literal.{IsWithin};
ghost use Rattle.hk_cnf.specs.Circuit.{gate_value};
ghost use Rattle.hk_num.specs.Numbers.{bvshl, bvlshr, bvashr};
ghost use Rattle.hk_circuit.specs.Words.{gate_number};
ghost use Rattle.hk_circuit.specs.Frame.{Frame};

use crate::bit::false_literal;
use crate::bitwise::turn_where;
use crate::choice::choose_words;
use crate::compare::is_nonzero;
use crate::word::{repeat, shift_down, shift_up};
use hk_cnf::{Gates, Lit};
use std::alloc::{AllocError, Global};

/// How far a stage moves a word: as far as its bit of the amount says, and at most by the width.
fn stage(place: usize, width: usize) -> usize
    ensures { result ≡ min (2 ^ place) width }
{
    if place >= 64 {
        return width;
    }
    let worth = 1usize << place;
    if worth < width { worth } else { width }
}

/// The first word moved up by the second, with zeros in the low bits: at most three gates a bit for each stage.
fn move_left(
    alloc: Global,
    gates: &mut Gates,
    a: &[Lit],
    amount: &[Lit],
    bottom: Lit,
) -> Result<Vec<Lit>, AllocError>
    requires first { All (IsWithin gates.old.vars) a.now }
    requires second { All (IsWithin gates.old.vars) amount.now }
    requires bottom { IsWithin gates.old.vars bottom }
    requires bottom_is { (v : ℕ → Bool) → gate_value gates.old bottom v ≡ false }
    ensures frame { Frame gates.old gates.new }
    ensures size { IfOk result (λ w. length w.items ≡ length a.now) }
    ensures within { IfOk result (λ w. All (IsWithin gates.new.vars) w.items) }
    ensures value { IfOk result (λ w. (v : ℕ → Bool) → gate_number gates.new w.items v ≡ bvshl (length a.now) (gate_number gates.old a.now v) (gate_number gates.old amount.now v)) }
{
    let mut word = Vec::from_slice(alloc, a)?;
    for i in 0..amount.len() {
        let by = stage(i, a.len());
        let moved = shift_up(alloc, word.as_slice(), by, bottom)?;
        let next = choose_words(alloc, gates, amount[i], moved.as_slice(), word.as_slice())?;
        word = next;
    }
    Ok(word)
}

/// The first word moved down by the second, with zeros in the high bits: at most three gates a bit for each stage.
fn move_right(
    alloc: Global,
    gates: &mut Gates,
    a: &[Lit],
    amount: &[Lit],
    bottom: Lit,
) -> Result<Vec<Lit>, AllocError>
    requires first { All (IsWithin gates.old.vars) a.now }
    requires second { All (IsWithin gates.old.vars) amount.now }
    requires bottom { IsWithin gates.old.vars bottom }
    requires bottom_is { (v : ℕ → Bool) → gate_value gates.old bottom v ≡ false }
    ensures frame { Frame gates.old gates.new }
    ensures size { IfOk result (λ w. length w.items ≡ length a.now) }
    ensures within { IfOk result (λ w. All (IsWithin gates.new.vars) w.items) }
    ensures value { IfOk result (λ w. (v : ℕ → Bool) → gate_number gates.new w.items v ≡ bvlshr (length a.now) (gate_number gates.old a.now v) (gate_number gates.old amount.now v)) }
{
    let mut word = Vec::from_slice(alloc, a)?;
    for i in 0..amount.len() {
        let by = stage(i, a.len());
        let moved = shift_down(alloc, word.as_slice(), by, bottom)?;
        let next = choose_words(alloc, gates, amount[i], moved.as_slice(), word.as_slice())?;
        word = next;
    }
    Ok(word)
}

/// How many bits of an amount are worth less than a width.
fn stages(width: usize) -> usize
    ensures { width ≤ 2 ^ result }
{
    for k in 0..64 {
        if width <= 1usize << k {
            return k;
        }
    }
    64
}

/// The first word where the second is 0, and else 0: a gate a bit of each.
fn zero_where_far(
    alloc: Global,
    gates: &mut Gates,
    a: &[Lit],
    high: &[Lit],
    bottom: Lit,
) -> Result<Vec<Lit>, AllocError>
    requires first { All (IsWithin gates.old.vars) a.now }
    requires second { All (IsWithin gates.old.vars) high.now }
    requires bottom { IsWithin gates.old.vars bottom }
    requires bottom_is { (v : ℕ → Bool) → gate_value gates.old bottom v ≡ false }
    ensures frame { Frame gates.old gates.new }
    ensures size { IfOk result (λ w. length w.items ≡ length a.now) }
    ensures within { IfOk result (λ w. All (IsWithin gates.new.vars) w.items) }
    ensures value { IfOk result (λ w. (v : ℕ → Bool) → gate_number gates.new w.items v ≡ (if nat_eq (gate_number gates.old high.now v) 0 then gate_number gates.old a.now v else 0)) }
{
    let zero = repeat(alloc, bottom, a.len())?;
    let far = is_nonzero(gates, high, bottom)?;
    let word = choose_words(alloc, gates, far, zero.as_slice(), a)?;
    Ok(word)
}

/// The first word moved up by the second, with zeros in the low bits: an amount of the width or more gives 0.
/// Each bit of the amount that is worth less than the width takes three gates a bit, and all higher ones together one.
pub fn shift_left(
    alloc: Global,
    gates: &mut Gates,
    a: &[Lit],
    amount: &[Lit],
    bottom: Lit,
) -> Result<Vec<Lit>, AllocError>
    requires first { All (IsWithin gates.old.vars) a.now }
    requires second { All (IsWithin gates.old.vars) amount.now }
    requires bottom { IsWithin gates.old.vars bottom }
    requires bottom_is { (v : ℕ → Bool) → gate_value gates.old bottom v ≡ false }
    ensures frame { Frame gates.old gates.new }
    ensures size { IfOk result (λ w. length w.items ≡ length a.now) }
    ensures within { IfOk result (λ w. All (IsWithin gates.new.vars) w.items) }
    ensures value { IfOk result (λ w. (v : ℕ → Bool) → gate_number gates.new w.items v ≡ bvshl (length a.now) (gate_number gates.old a.now v) (gate_number gates.old amount.now v)) }
{
    let near = stages(a.len());
    if amount.len() <= near {
        let word = move_left(alloc, gates, a, amount, bottom)?;
        return Ok(word);
    }
    let (low, high) = amount.split_at(near);
    let moved = move_left(alloc, gates, a, low, bottom)?;
    let word = zero_where_far(alloc, gates, moved.as_slice(), high, bottom)?;
    Ok(word)
}

/// The first word moved down by the second, with zeros in the high bits: an amount of the width or more gives 0.
/// Each bit of the amount that is worth less than the width takes three gates a bit, and all higher ones together one.
pub fn shift_right(
    alloc: Global,
    gates: &mut Gates,
    a: &[Lit],
    amount: &[Lit],
    bottom: Lit,
) -> Result<Vec<Lit>, AllocError>
    requires first { All (IsWithin gates.old.vars) a.now }
    requires second { All (IsWithin gates.old.vars) amount.now }
    requires bottom { IsWithin gates.old.vars bottom }
    requires bottom_is { (v : ℕ → Bool) → gate_value gates.old bottom v ≡ false }
    ensures frame { Frame gates.old gates.new }
    ensures size { IfOk result (λ w. length w.items ≡ length a.now) }
    ensures within { IfOk result (λ w. All (IsWithin gates.new.vars) w.items) }
    ensures value { IfOk result (λ w. (v : ℕ → Bool) → gate_number gates.new w.items v ≡ bvlshr (length a.now) (gate_number gates.old a.now v) (gate_number gates.old amount.now v)) }
{
    let near = stages(a.len());
    if amount.len() <= near {
        let word = move_right(alloc, gates, a, amount, bottom)?;
        return Ok(word);
    }
    let (low, high) = amount.split_at(near);
    let moved = move_right(alloc, gates, a, low, bottom)?;
    let word = zero_where_far(alloc, gates, moved.as_slice(), high, bottom)?;
    Ok(word)
}

/// The first word moved down by the second, with copies of its sign in the high bits: a negative word is turned, moved
/// with zeros in the high bits, and turned back, which takes six gates a bit more than `shift_right`. An amount of the
/// width or more gives copies of the sign.
pub fn shift_right_signed(
    alloc: Global,
    gates: &mut Gates,
    a: &[Lit],
    amount: &[Lit],
) -> Result<Vec<Lit>, AllocError>
    requires some { 1 ≤ length a.now }
    requires first { All (IsWithin gates.old.vars) a.now }
    requires second { All (IsWithin gates.old.vars) amount.now }
    ensures frame { Frame gates.old gates.new }
    ensures size { IfOk result (λ w. length w.items ≡ length a.now) }
    ensures within { IfOk result (λ w. All (IsWithin gates.new.vars) w.items) }
    ensures value { IfOk result (λ w. (v : ℕ → Bool) → gate_number gates.new w.items v ≡ bvashr (length a.now) (gate_number gates.old a.now v) (gate_number gates.old amount.now v)) }
{
    let top = a.len() - 1;
    let sign = a[top];
    let bottom = false_literal(gates)?;
    let turned = turn_where(alloc, gates, sign, a)?;
    let moved = shift_right(alloc, gates, turned.as_slice(), amount, bottom)?;
    let word = turn_where(alloc, gates, sign, moved.as_slice())?;
    Ok(word)
}
