//! The bitwise operations.

ghost use Rattle.std.specs.Prelude.{◌≡◌, ◌-◌, ◌^◌, if◌then◌else◌, bit_and, bit_or, bit_xor, ℕ, Bool, IfOk, length, All};
ghost use Rattle.hk_cnf.specs.Literal.{IsWithin};
ghost use Rattle.hk_cnf.specs.Circuit.{gate_value};
ghost use Rattle.hk_circuit.specs.Words.{gate_number};
ghost use Rattle.hk_circuit.specs.Frame.{Frame};

use crate::bit::{and, or, xor};
use crate::word::repeat;
use hk_cnf::{Gates, Lit};
use std::alloc::{AllocError, Global};

/// The conjunction of each pair of bits: a gate a bit.
pub fn and_words(
    alloc: Global,
    gates: &mut Gates,
    a: &[Lit],
    b: &[Lit],
) -> Result<Vec<Lit>, AllocError>
    requires same { length a.now ≡ length b.now }
    requires first { All (IsWithin gates.old.vars) a.now }
    requires second { All (IsWithin gates.old.vars) b.now }
    ensures frame { Frame gates.old gates.new }
    ensures size { IfOk result (λ w. length w.items ≡ length a.now) }
    ensures within { IfOk result (λ w. All (IsWithin gates.new.vars) w.items) }
    ensures value { IfOk result (λ w. (v : ℕ → Bool) → gate_number gates.new w.items v ≡ bit_and (gate_number gates.old a.now v) (gate_number gates.old b.now v)) }
{
    let mut word = Vec::new(alloc);
    for i in 0..a.len() {
        let lit = and(gates, a[i], b[i])?;
        word.push(lit)?;
    }
    Ok(word)
}

/// The disjunction of each pair of bits: a gate a bit.
pub fn or_words(
    alloc: Global,
    gates: &mut Gates,
    a: &[Lit],
    b: &[Lit],
) -> Result<Vec<Lit>, AllocError>
    requires same { length a.now ≡ length b.now }
    requires first { All (IsWithin gates.old.vars) a.now }
    requires second { All (IsWithin gates.old.vars) b.now }
    ensures frame { Frame gates.old gates.new }
    ensures size { IfOk result (λ w. length w.items ≡ length a.now) }
    ensures within { IfOk result (λ w. All (IsWithin gates.new.vars) w.items) }
    ensures value { IfOk result (λ w. (v : ℕ → Bool) → gate_number gates.new w.items v ≡ bit_or (gate_number gates.old a.now v) (gate_number gates.old b.now v)) }
{
    let mut word = Vec::new(alloc);
    for i in 0..a.len() {
        let lit = or(gates, a[i], b[i])?;
        word.push(lit)?;
    }
    Ok(word)
}

/// The exclusive disjunction of each pair of bits: three gates a bit.
pub fn xor_words(
    alloc: Global,
    gates: &mut Gates,
    a: &[Lit],
    b: &[Lit],
) -> Result<Vec<Lit>, AllocError>
    requires same { length a.now ≡ length b.now }
    requires first { All (IsWithin gates.old.vars) a.now }
    requires second { All (IsWithin gates.old.vars) b.now }
    ensures frame { Frame gates.old gates.new }
    ensures size { IfOk result (λ w. length w.items ≡ length a.now) }
    ensures within { IfOk result (λ w. All (IsWithin gates.new.vars) w.items) }
    ensures value { IfOk result (λ w. (v : ℕ → Bool) → gate_number gates.new w.items v ≡ bit_xor (gate_number gates.old a.now v) (gate_number gates.old b.now v)) }
{
    let mut word = Vec::new(alloc);
    for i in 0..a.len() {
        let lit = xor(gates, a[i], b[i])?;
        word.push(lit)?;
    }
    Ok(word)
}

/// Each bit turned where the literal is true: three gates a bit.
pub fn turn_where(
    alloc: Global,
    gates: &mut Gates,
    condition: Lit,
    a: &[Lit],
) -> Result<Vec<Lit>, AllocError>
    requires condition { IsWithin gates.old.vars condition }
    requires word { All (IsWithin gates.old.vars) a.now }
    ensures frame { Frame gates.old gates.new }
    ensures size { IfOk result (λ w. length w.items ≡ length a.now) }
    ensures within { IfOk result (λ w. All (IsWithin gates.new.vars) w.items) }
    ensures value { IfOk result (λ w. (v : ℕ → Bool) → gate_number gates.new w.items v ≡ (if gate_value gates.old condition v then 2 ^ length a.now - 1 - gate_number gates.old a.now v else gate_number gates.old a.now v)) }
{
    let copies = repeat(alloc, condition, a.len())?;
    let word = xor_words(alloc, gates, a, copies.as_slice())?;
    Ok(word)
}
