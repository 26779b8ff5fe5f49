//! Products of words.

ghost use Rattle.std.specs.Prelude.{◌≡◌, ◌≤◌, ◌*◌, ◌^◌, true, false, ◌%◌, ℕ, Bool, IfOk, length, All, if◌then◌else◌};
ghost use Rattle.hk_cnf.specs.Literal.{IsWithin};
ghost use Rattle.hk_cnf.specs.Circuit.{gate_value};
ghost use Rattle.hk_num.specs.Numbers.{bvmul};
ghost use Rattle.hk_circuit.specs.Words.{gate_number};
ghost use Rattle.hk_circuit.specs.Frame.{Frame};

use crate::adder::add;
use crate::choice::choose_words;
use crate::word::{repeat, shift_up};
use hk_cnf::{Gates, Lit};
use std::alloc::{AllocError, Global};

/// The first word moved up by so many bits where the literal is true, and else 0: a gate for each bit that is left.
fn partial_product(
    alloc: Global,
    gates: &mut Gates,
    a: &[Lit],
    by: usize,
    lit: Lit,
    bottom: Lit,
) -> Result<Vec<Lit>, AllocError>
    requires by { by ≤ length a.now }
    requires word { All (IsWithin gates.old.vars) a.now }
    requires lit { IsWithin gates.old.vars lit }
    requires bottom { IsWithin gates.old.vars bottom }
    requires bottom_is { (v : ℕ → Bool) → gate_value gates.old bottom v ≡ false }
    ensures frame { Frame gates.old gates.new }
    ensures size { IfOk result (λ w. length w.items ≡ length a.now) }
    ensures within { IfOk result (λ w. All (IsWithin gates.new.vars) w.items) }
    ensures value { IfOk result (λ w. (v : ℕ → Bool) → gate_number gates.new w.items v ≡ (if gate_value gates.old lit v then (gate_number gates.old a.now v * 2 ^ by) % 2 ^ length a.now else 0)) }
{
    let shifted = shift_up(alloc, a, by, bottom)?;
    let zero = repeat(alloc, bottom, a.len())?;
    let word = choose_words(alloc, gates, lit, shifted.as_slice(), zero.as_slice())?;
    Ok(word)
}

/// The product of two words, modulo 2 to their width: the sum of the partial products. Digits that are known to be 0 need
/// no gates, so a product of two words of n bits takes about 4 n (n - 1) gates.
pub fn multiply(
    alloc: Global,
    gates: &mut Gates,
    a: &[Lit],
    b: &[Lit],
    truth: Lit,
) -> Result<Vec<Lit>, AllocError>
    requires same { length a.now ≡ length b.now }
    requires first { All (IsWithin gates.old.vars) a.now }
    requires second { All (IsWithin gates.old.vars) b.now }
    requires truth { IsWithin gates.old.vars truth }
    requires truth_is { (v : ℕ → Bool) → gate_value gates.old truth v ≡ true }
    ensures frame { Frame gates.old gates.new }
    ensures size { IfOk result (λ w. length w.items ≡ length a.now) }
    ensures within { IfOk result (λ w. All (IsWithin gates.new.vars) w.items) }
    ensures value { IfOk result (λ w. (v : ℕ → Bool) → gate_number gates.new w.items v ≡ bvmul (length a.now) (gate_number gates.old a.now v) (gate_number gates.old b.now v)) }
{
    let bottom = truth.negated();
    let mut sum = repeat(alloc, bottom, a.len())?;
    for i in 0..b.len() {
        let row = partial_product(alloc, gates, a, i, b[i], bottom)?;
        let next = add(alloc, gates, sum.as_slice(), row.as_slice(), truth)?;
        sum = next;
    }
    Ok(sum)
}
