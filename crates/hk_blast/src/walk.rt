//! The walk over the parts of a term, with a list of the terms that wait in place of a recursion.

ghost use Rattle.std.specs.Prelude.{◌≡◌, ◌⊎◌, ◌≤◌, ◌<◌, true, false, ℕ, ℤ, Bool, List, IfOk, OnOk, IfNone, IfSome, length, reverse, Some, All, Contains};
ghost use Rattle.hk_cnf.specs.Literal.{IsWithin, place_of};
ghost use Rattle.hk_cnf.specs.Clauses.{clauses_value};
ghost use Rattle.hk_cnf.specs.Circuit.{Circuit, gate_value, all_gate_clauses};
ghost use Rattle.hk_cnf.specs.CircuitGrowth.{IsGrown, inputs_of};
ghost use Rattle.hk_cnf.specs.Determined.{is_output};
ghost use Rattle.hk_cnf.specs.Front.{IsFront};
ghost use Rattle.hk_cnf.specs.Required.{required_of};
ghost use Rattle.hk_term.specs.Walk.{PartsBefore};
ghost use Rattle.hk_circuit.specs.Words.{gate_number};
ghost use Rattle.hk_blast.specs.Blasted.{Words, HasWord, IsMissing, IsPart, HasParts, Needs, AreBlasted, Lengthens, AddsInputs, input_places, ExtendsBy, HaveValues};
ghost use Rattle.hk_blast.specs.Walk.{Waits, Stands, left};

use crate::node::blast_term;
use crate::table::BitTable;
use hk_cnf::Gates;
use hk_term::{Node, TermId, Terms};
use std::alloc::AllocError;

// A part that has no word.
fn one_missing(a: TermId, t: TermId, bits: &BitTable) -> Option<TermId>
    requires before { a < t }
    ensures ready { IfNone result (HasWord bits.now a) }
    ensures part { IfSome result (λ c. c ≡ a) }
    ensures waits { IfSome result (λ c. (c < t) × (IsMissing bits.now c)) }
{
    match bits.get(a) {
        Some(_) => None,
        None => Some(a),
    }
}

// The first of two parts that has no word.
fn two_missing(a: TermId, b: TermId, t: TermId, bits: &BitTable) -> Option<TermId>
    requires first { a < t }
    requires second { b < t }
    ensures ready { IfNone result ((HasWord bits.now a) × (HasWord bits.now b)) }
    ensures part { IfSome result (λ c. (c ≡ a) ⊎ (c ≡ b)) }
    ensures waits { IfSome result (λ c. (c < t) × (IsMissing bits.now c)) }
{
    match one_missing(a, t, bits) {
        Some(part) => Some(part),
        None => one_missing(b, t, bits),
    }
}

// The first of a node's parts that has no word.
fn missing_part(node: &Node, t: TermId, bits: &BitTable) -> Option<TermId>
    requires before { PartsBefore node.now t }
    ensures ready { IfNone result (HasParts bits.now node.now) }
    ensures part { IfSome result (λ c. IsPart node.now c) }
    ensures waits { IfSome result (λ c. (c < t) × (IsMissing bits.now c)) }
{
    match node {
        Node::Unary { a, .. } => one_missing(*a, t, bits),
        Node::Binary { a, b, .. } => two_missing(*a, *b, t, bits),
        Node::Choose { condition, a, b } => match one_missing(*condition, t, bits) {
            Some(part) => Some(part),
            None => two_missing(*a, *b, t, bits),
        },
        Node::Resize { a, .. } => one_missing(*a, t, bits),
        _ => None,
    }
}

// One step: down to a part that has no word, or a word for a term whose parts have theirs, and back to the term that
// waits for it.
fn advance(
    terms: &Terms,
    goal: TermId,
    at: TermId,
    waiting: &mut Vec<TermId>,
    gates: &mut Gates,
    bits: &mut BitTable,
) -> Result<Option<TermId>, AllocError>
    requires stands { Waits terms.now goal bits.old at (reverse waiting.old.items) }
    requires table { AreBlasted terms.now gates.old bits.old }
    ensures vars { gates.old.vars ≤ gates.new.vars }
    ensures keeps { (l : ℤ) → place_of l < gates.old.vars → (v : ℕ → Bool) → gate_value gates.new l v ≡ gate_value gates.old l v }
    ensures grows { (c : Circuit) → IsGrown c gates.old → IsGrown c gates.new }
    ensures required { (inputs_of gates.new).required ≡ (inputs_of gates.old).required }
    ensures table { AreBlasted terms.now gates.new bits.new }
    ensures lengthens { (first : ℕ) (front : Words) → first ≤ gates.old.vars → Lengthens terms.now first front bits.old → Lengthens terms.now first front bits.new }
    ensures only { (k : ℕ) → HasWord bits.new k → (HasWord bits.old k) ⊎ (Needs terms.now goal k) }
    ensures inputs { OnOk result (AddsInputs terms.now gates.old gates.new bits.old bits.new) }
    ensures stands { IfOk result (λ next. Stands terms.now goal bits.new next (reverse waiting.new.items)) }
    ensures smaller { IfOk result (λ next. left (length terms.now) bits.new next < left (length terms.now) bits.old (Some at)) }
{
    match missing_part(terms.node(at), at, bits) {
        Some(part) => {
            waiting.push(at)?;
            Ok(Some(part))
        }
        None => {
            blast_term(terms, at, gates, bits)?;
            Ok(waiting.pop())
        }
    }
}

// Blasts a term that has no word, behind its parts.
fn blast_missing(
    terms: &Terms,
    t: TermId,
    gates: &mut Gates,
    bits: &mut BitTable,
) -> Result<(), AllocError>
    requires term { t < length terms.now }
    requires table { AreBlasted terms.now gates.old bits.old }
    requires first { IsMissing bits.old t }
    ensures vars { gates.old.vars ≤ gates.new.vars }
    ensures keeps { (l : ℤ) → place_of l < gates.old.vars → (v : ℕ → Bool) → gate_value gates.new l v ≡ gate_value gates.old l v }
    ensures grows { (c : Circuit) → IsGrown c gates.old → IsGrown c gates.new }
    ensures required { (inputs_of gates.new).required ≡ (inputs_of gates.old).required }
    ensures table { AreBlasted terms.now gates.new bits.new }
    ensures lengthens { (first : ℕ) (front : Words) → first ≤ gates.old.vars → Lengthens terms.now first front bits.old → Lengthens terms.now first front bits.new }
    ensures only { (k : ℕ) → HasWord bits.new k → (HasWord bits.old k) ⊎ (Needs terms.now t k) }
    ensures inputs { OnOk result (AddsInputs terms.now gates.old gates.new bits.old bits.new) }
    ensures there { OnOk result (HasWord bits.new t) }
{
    let mut waiting = Vec::new(bits.allocator());
    let mut next = Some(t);
    'going: while let Some(at) = next {
        next = advance(terms, t, at, &mut waiting, gates, bits)?;
    }
    Ok(())
}

// Blasts a term, unless it has a word.
fn blast_new(
    terms: &Terms,
    t: TermId,
    gates: &mut Gates,
    bits: &mut BitTable,
) -> Result<(), AllocError>
    requires term { t < length terms.now }
    requires table { AreBlasted terms.now gates.old bits.old }
    ensures vars { gates.old.vars ≤ gates.new.vars }
    ensures keeps { (l : ℤ) → place_of l < gates.old.vars → (v : ℕ → Bool) → gate_value gates.new l v ≡ gate_value gates.old l v }
    ensures grows { (c : Circuit) → IsGrown c gates.old → IsGrown c gates.new }
    ensures required { (inputs_of gates.new).required ≡ (inputs_of gates.old).required }
    ensures table { AreBlasted terms.now gates.new bits.new }
    ensures lengthens { (first : ℕ) (front : Words) → first ≤ gates.old.vars → Lengthens terms.now first front bits.old → Lengthens terms.now first front bits.new }
    ensures only { (k : ℕ) → HasWord bits.new k → (HasWord bits.old k) ⊎ (Needs terms.now t k) }
    ensures inputs { OnOk result (AddsInputs terms.now gates.old gates.new bits.old bits.new) }
    ensures there { OnOk result (HasWord bits.new t) }
{
    match bits.get(t) {
        Some(_) => Ok(()),
        None => blast_missing(terms, t, gates, bits),
    }
}

/// Makes the circuit of a term of the list, and enters the words of the term and of its parts that have none yet. The table
/// holds terms of this list, over these gates. Variables, entries of arrays and quantifiers get fresh variables, least bit
/// first; the index of an entry and the body of a quantifier are not looked at. One more variable is made for the literal
/// that is true. Table and gates grow at their ends alone, so that both can be cut back to what they were. Without memory
/// both may have grown, and all that is said of the table holds. A table over a list of terms is one over any longer list
/// (`laws::a_table_outlives_a_longer_list`).
pub fn blast(
    terms: &Terms,
    t: TermId,
    gates: &mut Gates,
    bits: &mut BitTable,
) -> Result<(), AllocError>
    requires term { t < length terms.now }
    requires table { AreBlasted terms.now gates.old bits.old }
    ensures vars { gates.old.vars ≤ gates.new.vars }
    ensures keeps { (l : ℤ) → place_of l < gates.old.vars → (v : ℕ → Bool) → gate_value gates.new l v ≡ gate_value gates.old l v }
    ensures grows { (c : Circuit) → IsGrown c gates.old → IsGrown c gates.new }
    ensures required { (inputs_of gates.new).required ≡ (inputs_of gates.old).required }
    ensures beside { required_of gates.new ≡ required_of gates.old }
    ensures front { (c : Circuit) → IsFront c gates.old → IsFront c gates.new }
    ensures keeps_words { (ls : List ℤ) → All (IsWithin gates.old.vars) ls → (v : ℕ → Bool) → gate_number gates.new ls v ≡ gate_number gates.old ls v }
    ensures there { OnOk result (HasWord bits.new t) }
    ensures table { AreBlasted terms.now gates.new bits.new }
    ensures lengthens { Lengthens terms.now gates.old.vars bits.old bits.new }
    ensures only { (k : ℕ) → HasWord bits.new k → (HasWord bits.old k) ⊎ (Needs terms.now t k) }
    ensures inputs { OnOk result (AddsInputs terms.now gates.old gates.new bits.old bits.new) }
    ensures unfixed { All (λ p. is_output gates.new.gates p ≡ false) (input_places terms.now bits.new) }
    ensures only_inputs { OnOk result ((p : ℕ) → gates.old.vars ≤ p → p < gates.new.vars → is_output gates.new.gates p ≡ false → Contains (input_places terms.now bits.new) p) }
    ensures extends { (a : List Bool) → length a ≡ gates.old.vars → clauses_value a gates.old.clauses ≡ true → (chosen : ℕ → Bool) → ExtendsBy terms.now gates.new bits.new a chosen }
    ensures values { (a : List Bool) → clauses_value a (all_gate_clauses gates.new.gates) ≡ true → HaveValues terms.now a bits.new }
{
    // for its clause `circuit`, before and after
    gates.sizes();
    let done = blast_new(terms, t, gates, bits);
    gates.sizes();
    done
}
