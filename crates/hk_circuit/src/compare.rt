//! Comparisons of words.

ghost use Rattle.std.specs.Prelude.{◌≡◌, ◌≤◌, ◌&&◌, not, true, false, nat_eq, nat_lt, ℕ, Bool, IfOk, length, All, if◌then◌else◌};
ghost use Rattle.hk_cnf.specs.Literal.{IsWithin};
ghost use Rattle.hk_cnf.specs.Circuit.{gate_value};
ghost use Rattle.hk_num.specs.Numbers.{bvslt};
ghost use Rattle.hk_circuit.specs.Words.{gate_number};
ghost use Rattle.hk_circuit.specs.Frame.{Frame};

use crate::bit::{and, less_bit, or, xor};
use crate::word::turn_sign;
use hk_cnf::{Gates, Lit};
use std::alloc::{AllocError, Global};

/// Whether two words are the same and this literal is true: four gates a bit.
pub fn equal(gates: &mut Gates, a: &[Lit], b: &[Lit], truth: Lit) -> Result<Lit, AllocError>
    requires same { length a.now ≡ length b.now }
    requires first { All (IsWithin gates.old.vars) a.now }
    requires second { All (IsWithin gates.old.vars) b.now }
    requires start { IsWithin gates.old.vars truth }
    ensures frame { Frame gates.old gates.new }
    ensures within { IfOk result (λ l. IsWithin gates.new.vars l) }
    ensures value { IfOk result (λ l. (v : ℕ → Bool) → gate_value gates.new l v ≡ (gate_value gates.old truth v && nat_eq (gate_number gates.old a.now v) (gate_number gates.old b.now v))) }
{
    let mut same = truth;
    for i in 0..a.len() {
        let differ = xor(gates, a[i], b[i])?;
        same = and(gates, same, differ.negated())?;
    }
    Ok(same)
}

/// Whether a word is not 0: a gate a bit. `bottom` is the literal that is false.
pub fn is_nonzero(gates: &mut Gates, a: &[Lit], bottom: Lit) -> Result<Lit, AllocError>
    requires word { All (IsWithin gates.old.vars) a.now }
    requires bottom { IsWithin gates.old.vars bottom }
    requires bottom_is { (v : ℕ → Bool) → gate_value gates.old bottom v ≡ false }
    ensures frame { Frame gates.old gates.new }
    ensures within { IfOk result (λ l. IsWithin gates.new.vars l) }
    ensures value { IfOk result (λ l. (v : ℕ → Bool) → gate_value gates.new l v ≡ not (nat_eq (gate_number gates.old a.now v) 0)) }
{
    let mut any = bottom;
    for i in 0..a.len() {
        any = or(gates, any, a[i])?;
    }
    Ok(any)
}

/// Whether the first word is below the second, or is the second and this literal is true: four gates a bit.
pub fn less(gates: &mut Gates, a: &[Lit], b: &[Lit], or_equal: Lit) -> Result<Lit, AllocError>
    requires same { length a.now ≡ length b.now }
    requires first { All (IsWithin gates.old.vars) a.now }
    requires second { All (IsWithin gates.old.vars) b.now }
    requires start { IsWithin gates.old.vars or_equal }
    ensures frame { Frame gates.old gates.new }
    ensures within { IfOk result (λ l. IsWithin gates.new.vars l) }
    ensures value { IfOk result (λ l. (v : ℕ → Bool) → gate_value gates.new l v ≡ (if gate_value gates.old or_equal v then not (nat_lt (gate_number gates.old b.now v) (gate_number gates.old a.now v)) else nat_lt (gate_number gates.old a.now v) (gate_number gates.old b.now v))) }
{
    let mut less = or_equal;
    for i in 0..a.len() {
        less = less_bit(gates, a[i], b[i], less)?;
    }
    Ok(less)
}

/// Whether the signed reading of the first word is below that of the second: as `less`, with the sign bits turned.
/// `bottom` is the literal that is false.
pub fn signed_less(
    alloc: Global,
    gates: &mut Gates,
    a: &[Lit],
    b: &[Lit],
    bottom: Lit,
) -> Result<Lit, AllocError>
    requires some { 1 ≤ length a.now }
    requires same { length a.now ≡ length b.now }
    requires first { All (IsWithin gates.old.vars) a.now }
    requires second { All (IsWithin gates.old.vars) b.now }
    requires bottom { IsWithin gates.old.vars bottom }
    requires bottom_is { (v : ℕ → Bool) → gate_value gates.old bottom v ≡ false }
    ensures frame { Frame gates.old gates.new }
    ensures within { IfOk result (λ l. IsWithin gates.new.vars l) }
    ensures value { IfOk result (λ l. (v : ℕ → Bool) → gate_value gates.new l v ≡ bvslt (length a.now) (gate_number gates.old a.now v) (gate_number gates.old b.now v)) }
{
    let first = turn_sign(alloc, a)?;
    let second = turn_sign(alloc, b)?;
    let below = less(gates, first.as_slice(), second.as_slice(), bottom)?;
    Ok(below)
}
