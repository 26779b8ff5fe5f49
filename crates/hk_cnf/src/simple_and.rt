//! Conjunctions that need no gate.

ghost use Rattle.std.specs.Prelude.{◌≡◌};
ghost use Rattle.hk_cnf.specs.Circuit.{and_of, simple, simple_with};

use crate::literal::Lit;
use crate::operation::Operation;

/// The operands of an AND in one order, so that an exchange makes no second gate.
pub fn and_operation(a: Lit, b: Lit) -> Operation
    ensures { result ≡ and_of a b }
{
    let first = a.number();
    let second = b.number();
    if second < first {
        Operation::And(second, first)
    } else {
        Operation::And(first, second)
    }
}

/// The conjunction where a literal is a constant or the two are each other's negation. `truth` is the literal that is true.
fn with_truth(truth: Lit, a: Lit, b: Lit) -> Option<Lit>
    ensures { result ≡ simple_with truth a b }
{
    if a == truth {
        Some(b)
    } else if b == truth {
        Some(a)
    } else if a == b.negated() {
        Some(truth.negated())
    } else if a == truth.negated() {
        Some(a)
    } else if b == truth.negated() {
        Some(b)
    } else {
        None
    }
}

/// The conjunction where it needs no gate. `truth` is the literal that is true, where there is one.
pub fn without_gate(truth: Option<Lit>, a: Lit, b: Lit) -> Option<Lit>
    ensures { result ≡ simple truth a b }
{
    if a == b {
        return Some(a);
    }
    match truth {
        Some(truth) => with_truth(truth, a, b),
        None => None,
    }
}
