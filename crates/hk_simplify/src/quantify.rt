//! Quantifiers over tuples of bound variables.

ghost use Rattle.std.specs.Prelude.{◌≡◌, ℕ, ◌+◌, ◌<◌, ◌≤◌, ◌++◌, ◌∷◌, ◌⊎◌, [], false, length, IfOk, IsTrue, nat_eq};
ghost use Rattle.std.specs.List.{list_any};
ghost use Rattle.hk_term.specs.Operations.{bit};
ghost use Rattle.hk_term.specs.Shape.{width, Grows};
ghost use Rattle.hk_term.specs.Meaning.{Reading, every_tuple, value};
ghost use Rattle.hk_term.specs.Inputs.{inputs_in};

use crate::constants::{constant, sized};
use hk_term::{Bound, BoundList, Node, TermId, Terms};
use std::alloc::AllocError;

/// Whether the body, a truth value, is true for each tuple of numbers of the bound variables, each below its size.
pub fn for_all(t: &mut Terms, bound: BoundList, body: TermId) -> Result<TermId, AllocError>
    requires body { body < length t.old }
    requires truth { width t.old body ≡ 1 }
    ensures within { IfOk result (λ r. r < length t.new) }
    ensures width { IfOk result (λ r. width t.new r ≡ 1) }
    ensures value { IfOk result (λ r. (v : Reading) → value t.new r v ≡ bit (every_tuple bound (λ u. nat_eq (value t.old body u) 1) v)) }
    ensures keeps_widths { (k : ℕ) → k < length t.old → width t.new k ≡ width t.old k }
    ensures keeps_values { (k : ℕ) → k < length t.old → (v : Reading) → value t.new k v ≡ value t.old k v }
    ensures longer { length t.old ≤ length t.new }
    ensures grows { Grows t.old t.new }
    ensures few { length t.new ≤ length t.old + 1 }
    ensures inputs { (inputs_in t.new ≡ inputs_in t.old) ⊎ (inputs_in t.new ≡ inputs_in t.old ++ Node.ForAll bound body ∷ []) }
{
    if has_none(bound.as_slice()) {
        let made = t.intern(Node::Const { width: 1, value: 1 })?;
        Ok(made)
    } else if is_settled(t, bound.as_slice(), body) {
        Ok(body)
    } else {
        let made = t.intern(Node::ForAll { bound, body })?;
        Ok(made)
    }
}

// Whether the body's value does not depend on the bound variables, which all take a number.
fn is_settled(t: &Terms, bound: &[Bound], body: TermId) -> bool
    requires body { body < length t.now }
    requires truth { width t.now body ≡ 1 }
    requires some { list_any (λ b. nat_eq b.size 0) bound.now ≡ false }
    ensures { IsTrue result → (v : Reading) → value t.now body v ≡ bit (every_tuple bound.now (λ u. nat_eq (value t.now body u) 1) v) }
{
    // For the proof: the body's number is below 2 to its width.
    let _w = sized(t, body);
    match constant(t, body) {
        Some(_) => true,
        None => bound.is_empty(),
    }
}

// Whether a bound variable takes no number.
fn has_none(bound: &[Bound]) -> bool
    ensures { result ≡ list_any (λ b. nat_eq b.size 0) bound.now }
{
    bound.iter().any(|b| b.size == 0)
}
