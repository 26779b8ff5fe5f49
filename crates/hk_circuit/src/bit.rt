//! Circuits over single literals.

ghost use Rattle.std.specs.Prelude.{◌≡◌, ◌&&◌, ◌||◌, not, false, ℕ, Bool, if◌then◌else◌, IfOk};
ghost use Rattle.hk_cnf.specs.Literal.{IsWithin};
ghost use Rattle.hk_cnf.specs.Circuit.{gate_value};
ghost use Rattle.hk_circuit.specs.Words.{differ, majority};
ghost use Rattle.hk_circuit.specs.Frame.{Frame};

use hk_cnf::{Gates, Lit};
use std::alloc::AllocError;

/// The literal that is false. A table has one variable for it, with one clause.
pub fn false_literal(gates: &mut Gates) -> Result<Lit, AllocError>
    ensures frame { Frame gates.old gates.new }
    ensures within { IfOk result (λ l. IsWithin gates.new.vars l) }
    ensures value { IfOk result (λ l. (v : ℕ → Bool) → gate_value gates.new l v ≡ false) }
{
    let truth = gates.constant()?;
    Ok(truth.negated())
}

/// The conjunction: one gate.
pub fn and(gates: &mut Gates, a: Lit, b: Lit) -> Result<Lit, AllocError>
    requires first { IsWithin gates.old.vars a }
    requires second { IsWithin gates.old.vars b }
    ensures frame { Frame gates.old gates.new }
    ensures within { IfOk result (λ l. IsWithin gates.new.vars l) }
    ensures value { IfOk result (λ l. (v : ℕ → Bool) → gate_value gates.new l v ≡ (gate_value gates.old a v && gate_value gates.old b v)) }
{
    let both = gates.and(a, b)?;
    Ok(both)
}

/// The disjunction: one gate.
#[tactic(auto, using(crate::proofs::Negated::value_negated))]
pub fn or(gates: &mut Gates, a: Lit, b: Lit) -> Result<Lit, AllocError>
    requires first { IsWithin gates.old.vars a }
    requires second { IsWithin gates.old.vars b }
    ensures frame { Frame gates.old gates.new }
    ensures within { IfOk result (λ l. IsWithin gates.new.vars l) }
    ensures value { IfOk result (λ l. (v : ℕ → Bool) → gate_value gates.new l v ≡ (gate_value gates.old a v || gate_value gates.old b v)) }
{
    let neither = and(gates, a.negated(), b.negated())?;
    Ok(neither.negated())
}

/// A digit of a sum, and what is carried to the next.
#[derive(Clone, Copy, Debug)]
pub struct Digit {
    /// The sum of the literals, modulo 2.
    pub sum: Lit,
    /// Whether two of the literals are true.
    pub carry: Lit,
}

/// The sum of two literals: three gates, nine clauses.
#[tactic(auto, using(crate::proofs::Negated::value_negated, crate::proofs::Negated::differ_gates))]
fn half_add(gates: &mut Gates, a: Lit, b: Lit) -> Result<Digit, AllocError>
    requires first { IsWithin gates.old.vars a }
    requires second { IsWithin gates.old.vars b }
    ensures frame { Frame gates.old gates.new }
    ensures sum_within { IfOk result (λ d. IsWithin gates.new.vars d.sum) }
    ensures carry_within { IfOk result (λ d. IsWithin gates.new.vars d.carry) }
    ensures sum { IfOk result (λ d. (v : ℕ → Bool) → gate_value gates.new d.sum v ≡ differ (gate_value gates.old a v) (gate_value gates.old b v)) }
    ensures carry { IfOk result (λ d. (v : ℕ → Bool) → gate_value gates.new d.carry v ≡ (gate_value gates.old a v && gate_value gates.old b v)) }
{
    let both = and(gates, a, b)?;
    let neither = and(gates, a.negated(), b.negated())?;
    let sum = and(gates, both.negated(), neither.negated())?;
    Ok(Digit { sum, carry: both })
}

/// The exclusive disjunction: three gates.
pub fn xor(gates: &mut Gates, a: Lit, b: Lit) -> Result<Lit, AllocError>
    requires first { IsWithin gates.old.vars a }
    requires second { IsWithin gates.old.vars b }
    ensures frame { Frame gates.old gates.new }
    ensures within { IfOk result (λ l. IsWithin gates.new.vars l) }
    ensures value { IfOk result (λ l. (v : ℕ → Bool) → gate_value gates.new l v ≡ differ (gate_value gates.old a v) (gate_value gates.old b v)) }
{
    let digit = half_add(gates, a, b)?;
    Ok(digit.sum)
}

/// The first of two literals where the condition is true, and else the second: three gates.
#[tactic(auto, using(crate::proofs::Negated::value_negated))]
pub fn choose(gates: &mut Gates, condition: Lit, a: Lit, b: Lit) -> Result<Lit, AllocError>
    requires condition { IsWithin gates.old.vars condition }
    requires first { IsWithin gates.old.vars a }
    requires second { IsWithin gates.old.vars b }
    ensures frame { Frame gates.old gates.new }
    ensures within { IfOk result (λ l. IsWithin gates.new.vars l) }
    ensures value { IfOk result (λ l. (v : ℕ → Bool) → gate_value gates.new l v ≡ (if gate_value gates.old condition v then gate_value gates.old a v else gate_value gates.old b v)) }
{
    let then = and(gates, condition, a)?;
    let other = and(gates, condition.negated(), b)?;
    let either = or(gates, then, other)?;
    Ok(either)
}

/// The sum of three literals: seven gates, 21 clauses.
pub fn full_add(gates: &mut Gates, a: Lit, b: Lit, carry: Lit) -> Result<Digit, AllocError>
    requires first { IsWithin gates.old.vars a }
    requires second { IsWithin gates.old.vars b }
    requires third { IsWithin gates.old.vars carry }
    ensures frame { Frame gates.old gates.new }
    ensures sum_within { IfOk result (λ d. IsWithin gates.new.vars d.sum) }
    ensures carry_within { IfOk result (λ d. IsWithin gates.new.vars d.carry) }
    ensures sum { IfOk result (λ d. (v : ℕ → Bool) → gate_value gates.new d.sum v ≡ differ (differ (gate_value gates.old a v) (gate_value gates.old b v)) (gate_value gates.old carry v)) }
    ensures carry { IfOk result (λ d. (v : ℕ → Bool) → gate_value gates.new d.carry v ≡ majority (gate_value gates.old a v) (gate_value gates.old b v) (gate_value gates.old carry v)) }
{
    let half = half_add(gates, a, b)?;
    let whole = half_add(gates, half.sum, carry)?;
    let carry = or(gates, half.carry, whole.carry)?;
    Ok(Digit {
        sum: whole.sum,
        carry,
    })
}

/// Whether one number is below another, from their highest bits and from whether the bits below are: four gates.
#[tactic(auto, using(crate::proofs::Negated::value_negated))]
pub fn less_bit(gates: &mut Gates, a: Lit, b: Lit, less: Lit) -> Result<Lit, AllocError>
    requires first { IsWithin gates.old.vars a }
    requires second { IsWithin gates.old.vars b }
    requires rest { IsWithin gates.old.vars less }
    ensures frame { Frame gates.old gates.new }
    ensures within { IfOk result (λ l. IsWithin gates.new.vars l) }
    ensures value { IfOk result (λ l. (v : ℕ → Bool) → gate_value gates.new l v ≡ ((not (gate_value gates.old a v) && gate_value gates.old b v) || (gate_value gates.old less v && not (gate_value gates.old a v && not (gate_value gates.old b v))))) }
{
    let below = and(gates, a.negated(), b)?;
    let above = and(gates, a, b.negated())?;
    let still = and(gates, less, above.negated())?;
    let either = or(gates, below, still)?;
    Ok(either)
}
