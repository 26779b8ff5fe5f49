//! Choices between words, and operations on each pair of bits.

ghost use Rattle.std.specs.Prelude.{◌≡◌, true, ℕ, Bool, IfOk, length, All, if◌then◌else◌};
ghost use Rattle.hk_cnf.specs.Literal.{IsWithin};
ghost use Rattle.hk_cnf.specs.Circuit.{gate_value};
ghost use Rattle.hk_circuit.specs.Words.{gate_number};
ghost use Rattle.hk_circuit.specs.Frame.{Frame};

use crate::bit::choose;
use hk_cnf::{Gates, Lit};
use std::alloc::{AllocError, Global};

/// The first word where the condition is true, and else the second: three gates a bit.
pub fn choose_words(
    alloc: Global,
    gates: &mut Gates,
    condition: Lit,
    a: &[Lit],
    b: &[Lit],
) -> Result<Vec<Lit>, AllocError>
    requires condition { IsWithin gates.old.vars condition }
    requires same { length a.now ≡ length b.now }
    requires first { All (IsWithin gates.old.vars) a.now }
    requires second { All (IsWithin gates.old.vars) b.now }
    ensures frame { Frame gates.old gates.new }
    ensures size { IfOk result (λ w. length w.items ≡ length a.now) }
    ensures within { IfOk result (λ w. All (IsWithin gates.new.vars) w.items) }
    ensures value { IfOk result (λ w. (v : ℕ → Bool) → gate_number gates.new w.items v ≡ (if gate_value gates.old condition v then gate_number gates.old a.now v else gate_number gates.old b.now v)) }
{
    let mut word = Vec::new(alloc);
    for i in 0..a.len() {
        let lit = choose(gates, condition, a[i], b[i])?;
        word.push(lit)?;
    }
    Ok(word)
}
