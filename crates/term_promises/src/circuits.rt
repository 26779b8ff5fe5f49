//! Circuits: words of literals come in, least bit first, and words of literals of gates go out.

ghost use Rattle.std.specs.Prelude.{◌≡◌, ◌+◌, ◌*◌, ◌^◌, ◌≤◌, true, false, ℕ, Bool, IfOk, length, All};
ghost use Rattle.hk_cnf.specs.Literal.{IsWithin};
ghost use Rattle.hk_cnf.specs.Circuit.{gate_value};
ghost use Rattle.hk_num.specs.Numbers.{bvshl, bvslt};
ghost use Rattle.hk_term.specs.Operations.{udiv_value, urem_value};
ghost use Rattle.hk_circuit.specs.Words.{bit, gate_number};

use hk_circuit::adder::Sum;
use hk_circuit::divide::Divided;
use hk_cnf::{Gates, Lit};
use std::alloc::{AllocError, Global};

/// The sum of two words and a literal, with what is carried out.
pub fn add_with_carry(
    alloc: Global,
    gates: &mut Gates,
    a: &[Lit],
    b: &[Lit],
    carry: Lit,
) -> Result<Sum, AllocError>
    requires same { length a.now ≡ length b.now }
    requires first { All (IsWithin gates.old.vars) a.now }
    requires second { All (IsWithin gates.old.vars) b.now }
    requires third { IsWithin gates.old.vars carry }
    ensures value { IfOk result (λ s. (v : ℕ → Bool) → gate_number gates.new s.word.items v + 2 ^ length a.now * bit (gate_value gates.new s.carry v) ≡ gate_number gates.old a.now v + gate_number gates.old b.now v + bit (gate_value gates.old carry v)) }
{
    hk_circuit::adder::add_with_carry(alloc, gates, a, b, carry)
}

/// Whether the signed reading of the first word is below that of the second.
pub fn signed_less(
    alloc: Global,
    gates: &mut Gates,
    a: &[Lit],
    b: &[Lit],
    bottom: Lit,
) -> Result<Lit, AllocError>
    requires some { 1 ≤ length a.now }
    requires same { length a.now ≡ length b.now }
    requires first { All (IsWithin gates.old.vars) a.now }
    requires second { All (IsWithin gates.old.vars) b.now }
    requires bottom { IsWithin gates.old.vars bottom }
    requires bottom_is { (v : ℕ → Bool) → gate_value gates.old bottom v ≡ false }
    ensures value { IfOk result (λ l. (v : ℕ → Bool) → gate_value gates.new l v ≡ bvslt (length a.now) (gate_number gates.old a.now v) (gate_number gates.old b.now v)) }
{
    hk_circuit::compare::signed_less(alloc, gates, a, b, bottom)
}

/// The first word moved up by the second: an amount of the width or more gives 0.
pub fn shift_left(
    alloc: Global,
    gates: &mut Gates,
    a: &[Lit],
    amount: &[Lit],
    bottom: Lit,
) -> Result<Vec<Lit>, AllocError>
    requires first { All (IsWithin gates.old.vars) a.now }
    requires second { All (IsWithin gates.old.vars) amount.now }
    requires bottom { IsWithin gates.old.vars bottom }
    requires bottom_is { (v : ℕ → Bool) → gate_value gates.old bottom v ≡ false }
    ensures value { IfOk result (λ w. (v : ℕ → Bool) → gate_number gates.new w.items v ≡ bvshl (length a.now) (gate_number gates.old a.now v) (gate_number gates.old amount.now v)) }
{
    hk_circuit::shift::shift_left(alloc, gates, a, amount, bottom)
}

/// A quotient with its remainder.
pub fn divide(
    alloc: Global,
    gates: &mut Gates,
    a: &[Lit],
    b: &[Lit],
    truth: Lit,
) -> Result<Divided, AllocError>
    requires same { length a.now ≡ length b.now }
    requires first { All (IsWithin gates.old.vars) a.now }
    requires second { All (IsWithin gates.old.vars) b.now }
    requires truth { IsWithin gates.old.vars truth }
    requires truth_is { (v : ℕ → Bool) → gate_value gates.old truth v ≡ true }
    ensures quotient { IfOk result (λ d. (v : ℕ → Bool) → gate_number gates.new d.quotient.items v ≡ udiv_value (length a.now) (gate_number gates.old a.now v) (gate_number gates.old b.now v)) }
    ensures remainder { IfOk result (λ d. (v : ℕ → Bool) → gate_number gates.new d.remainder.items v ≡ urem_value (length a.now) (gate_number gates.old a.now v) (gate_number gates.old b.now v)) }
{
    hk_circuit::divide::divide(alloc, gates, a, b, truth)
}
