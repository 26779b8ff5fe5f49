//! The words of inputs.

ghost use Rattle.std.specs.Prelude.{◌≡◌, ◌≤◌, ◌<◌, ◌+◌, ℕ, ℤ, Bool, List, IfOk, OnOk, length, All};
ghost use Rattle.hk_cnf.specs.Literal.{IsWithin, place_of};
ghost use Rattle.hk_cnf.specs.Circuit.{Circuit, gate_value, variable};
ghost use Rattle.hk_cnf.specs.CircuitGrowth.{IsGrown, inputs_of};
ghost use Rattle.hk_circuit.specs.Words.{gate_number};
ghost use Rattle.hk_blast.specs.Blasted.{variables_from};

use hk_cnf::{Gates, Lit};
use std::alloc::{AllocError, Global};

/// A word of so many fresh variables.
pub fn input_word(alloc: Global, gates: &mut Gates, width: u32) -> Result<Vec<Lit>, AllocError>
    ensures vars { gates.old.vars ≤ gates.new.vars }
    ensures keeps { (l : ℤ) → place_of l < gates.old.vars → (v : ℕ → Bool) → gate_value gates.new l v ≡ gate_value gates.old l v }
    ensures grows { (c : Circuit) → IsGrown c gates.old → IsGrown c gates.new }
    ensures keeps_words { (ls : List ℤ) → All (IsWithin gates.old.vars) ls → (v : ℕ → Bool) → gate_number gates.new ls v ≡ gate_number gates.old ls v }
    ensures required { (inputs_of gates.new).required ≡ (inputs_of gates.old).required }
    ensures free { OnOk result ((inputs_of gates.new).free ≡ (inputs_of gates.old).free + width) }
    ensures items { IfOk result (λ w. w.items ≡ variables_from gates.old.vars width) }
    ensures size { IfOk result (λ w. length w.items ≡ width) }
    ensures within { IfOk result (λ w. All (IsWithin gates.new.vars) w.items) }
    ensures chosen { OnOk result ((p : ℕ) → gates.old.vars ≤ p → p < gates.old.vars + width → (v : ℕ → Bool) → gate_value gates.new (variable p) v ≡ v p) }
{
    // for its clause `circuit`: what the gates are made of
    gates.sizes();
    let mut word = Vec::new(alloc);
    for i in 0..width {
        let lit = gates.fresh()?;
        word.push(lit)?;
    }
    Ok(word)
}
