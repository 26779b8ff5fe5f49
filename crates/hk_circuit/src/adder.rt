//! Sums and differences of words.

ghost use Rattle.std.specs.Prelude.{◌≡◌, ◌+◌, ◌-◌, ◌*◌, ◌%◌, ◌^◌, true, ℕ, Bool, IfOk, length, All};
ghost use Rattle.hk_cnf.specs.Literal.{IsWithin};
ghost use Rattle.hk_cnf.specs.Circuit.{gate_value};
ghost use Rattle.hk_num.specs.Numbers.{bvadd, bvsub};
ghost use Rattle.hk_circuit.specs.Words.{bit, gate_number};
ghost use Rattle.hk_circuit.specs.Frame.{Frame};

use crate::bit::full_add;
use crate::word::{complement, repeat};
use hk_cnf::{Gates, Lit};
use std::alloc::{AllocError, Global};

/// The digits of a sum, least bit first, and what is carried out of the highest.
#[derive(Drop)]
pub struct Sum {
    /// The digits, as many as the summands have.
    pub word: Vec<Lit>,
    /// What is carried out.
    pub carry: Lit,
}

/// The sum of two words and a literal, by a ripple adder: seven gates a bit.
pub fn add_with_carry(
    alloc: Global,
    gates: &mut Gates,
    a: &[Lit],
    b: &[Lit],
    carry: Lit,
) -> Result<Sum, AllocError>
    requires same { length a.now ≡ length b.now }
    requires first { All (IsWithin gates.old.vars) a.now }
    requires second { All (IsWithin gates.old.vars) b.now }
    requires third { IsWithin gates.old.vars carry }
    ensures frame { Frame gates.old gates.new }
    ensures size { IfOk result (λ s. length s.word.items ≡ length a.now) }
    ensures word_within { IfOk result (λ s. All (IsWithin gates.new.vars) s.word.items) }
    ensures carry_within { IfOk result (λ s. IsWithin gates.new.vars s.carry) }
    ensures value { IfOk result (λ s. (v : ℕ → Bool) → gate_number gates.new s.word.items v + 2 ^ length a.now * bit (gate_value gates.new s.carry v) ≡ gate_number gates.old a.now v + gate_number gates.old b.now v + bit (gate_value gates.old carry v)) }
{
    let mut word = Vec::new(alloc);
    let mut carry = carry;
    for i in 0..a.len() {
        let digit = full_add(gates, a[i], b[i], carry)?;
        word.push(digit.sum)?;
        carry = digit.carry;
    }
    Ok(Sum { word, carry })
}

/// The sum of two words, modulo 2 to their width. `truth` is the literal that is true.
pub fn add(
    alloc: Global,
    gates: &mut Gates,
    a: &[Lit],
    b: &[Lit],
    truth: Lit,
) -> Result<Vec<Lit>, AllocError>
    requires same { length a.now ≡ length b.now }
    requires first { All (IsWithin gates.old.vars) a.now }
    requires second { All (IsWithin gates.old.vars) b.now }
    requires truth { IsWithin gates.old.vars truth }
    requires truth_is { (v : ℕ → Bool) → gate_value gates.old truth v ≡ true }
    ensures frame { Frame gates.old gates.new }
    ensures size { IfOk result (λ w. length w.items ≡ length a.now) }
    ensures within { IfOk result (λ w. All (IsWithin gates.new.vars) w.items) }
    ensures value { IfOk result (λ w. (v : ℕ → Bool) → gate_number gates.new w.items v ≡ bvadd (length a.now) (gate_number gates.old a.now v) (gate_number gates.old b.now v)) }
{
    let sum = add_with_carry(alloc, gates, a, b, truth.negated())?;
    let Sum { word, .. } = sum;
    Ok(word)
}

/// The difference of two words, modulo 2 to their width: the sum with the complement and one.
pub fn subtract(
    alloc: Global,
    gates: &mut Gates,
    a: &[Lit],
    b: &[Lit],
    truth: Lit,
) -> Result<Vec<Lit>, AllocError>
    requires same { length a.now ≡ length b.now }
    requires first { All (IsWithin gates.old.vars) a.now }
    requires second { All (IsWithin gates.old.vars) b.now }
    requires truth { IsWithin gates.old.vars truth }
    requires truth_is { (v : ℕ → Bool) → gate_value gates.old truth v ≡ true }
    ensures frame { Frame gates.old gates.new }
    ensures size { IfOk result (λ w. length w.items ≡ length a.now) }
    ensures within { IfOk result (λ w. All (IsWithin gates.new.vars) w.items) }
    ensures value { IfOk result (λ w. (v : ℕ → Bool) → gate_number gates.new w.items v ≡ bvsub (length a.now) (gate_number gates.old a.now v) (gate_number gates.old b.now v)) }
{
    let other = complement(alloc, b)?;
    let sum = add_with_carry(alloc, gates, a, other.as_slice(), truth)?;
    let Sum { word, .. } = sum;
    Ok(word)
}

/// The two's complement of a word.
pub fn negate(
    alloc: Global,
    gates: &mut Gates,
    a: &[Lit],
    truth: Lit,
) -> Result<Vec<Lit>, AllocError>
    requires word { All (IsWithin gates.old.vars) a.now }
    requires truth { IsWithin gates.old.vars truth }
    requires truth_is { (v : ℕ → Bool) → gate_value gates.old truth v ≡ true }
    ensures frame { Frame gates.old gates.new }
    ensures size { IfOk result (λ w. length w.items ≡ length a.now) }
    ensures within { IfOk result (λ w. All (IsWithin gates.new.vars) w.items) }
    ensures value { IfOk result (λ w. (v : ℕ → Bool) → gate_number gates.new w.items v ≡ (2 ^ length a.now - gate_number gates.old a.now v) % 2 ^ length a.now) }
{
    let zero = repeat(alloc, truth.negated(), a.len())?;
    let word = subtract(alloc, gates, zero.as_slice(), a, truth)?;
    Ok(word)
}
