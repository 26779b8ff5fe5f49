//! The words of single nodes, over the words of their parts.

ghost use Rattle.std.specs.Prelude.{◌≡◌, ◌≤◌, ◌<◌, ◌+◌, ◌++◌, ◌∷◌, [], nat_eq, true, if◌then◌else◌, ℕ, ℤ, Bool, List, IfOk, OnOk, length, All, slice_get, Some, ◌^◌, ◌≢◌, ◌⊎◌};
ghost use Rattle.hk_cnf.specs.Literal.{IsWithin, IsLiteral, place_of};
ghost use Rattle.hk_cnf.specs.Circuit.{Circuit, gate_value, variable};
ghost use Rattle.hk_cnf.specs.CircuitGrowth.{IsGrown, inputs_of};
ghost use Rattle.hk_term.specs.Operations.{unary_value, binary_value, binary_width, BinaryFits, resize_value, ResizeFits};
ghost use Rattle.hk_term.specs.Shape.{node_width};
ghost use Rattle.hk_term.specs.declared.node.Node.{Node};
ghost use Rattle.hk_circuit.specs.Words.{gate_number};
ghost use Rattle.hk_blast.specs.Blasted.{Words, word_in, HasWord, IsMissing, HasParts, HasValue, is_input, places_of, variables_from, IsBlasted, AreBlasted, Lengthens, AddsInputs};
ghost use Rattle.hk_blast.specs.Parts.{WordsFit, input_bits};

use crate::input::input_word;
use crate::operation::{binary_word, choose_word, resize_word, unary_word};
use crate::table::BitTable;
use hk_circuit::word::number_word;
use hk_cnf::{Gates, Lit};
use hk_term::{Node, TermId, TermKind, TermResize, Terms, UnaryKind};
use std::alloc::AllocError;

// The word of an operation on one term.
fn blast_unary(
    gates: &mut Gates,
    bits: &BitTable,
    kind: UnaryKind,
    a: TermId,
    truth: Lit,
) -> Result<Vec<Lit>, AllocError>
    requires words { (k : ℕ) → All (IsWithin gates.old.vars) (word_in bits.now k) }
    requires truth { IsWithin gates.old.vars truth }
    requires truth_is { (v : ℕ → Bool) → gate_value gates.old truth v ≡ true }
    ensures vars { gates.old.vars ≤ gates.new.vars }
    ensures keeps { (l : ℤ) → place_of l < gates.old.vars → (v : ℕ → Bool) → gate_value gates.new l v ≡ gate_value gates.old l v }
    ensures grows { (c : Circuit) → IsGrown c gates.old → IsGrown c gates.new }
    ensures inputs { inputs_of gates.new ≡ inputs_of gates.old }
    ensures keeps_words { (ls : List ℤ) → All (IsWithin gates.old.vars) ls → (v : ℕ → Bool) → gate_number gates.new ls v ≡ gate_number gates.old ls v }
    ensures size { IfOk result (λ w. length w.items ≡ length (word_in bits.now a)) }
    ensures within { IfOk result (λ w. All (IsWithin gates.new.vars) w.items) }
    ensures value { IfOk result (λ w. (v : ℕ → Bool) → gate_number gates.new w.items v ≡ unary_value kind (length (word_in bits.now a)) (gate_number gates.old (word_in bits.now a) v)) }
{
    unary_word(bits.allocator(), gates, kind, bits.word(a), truth)
}

// The word of an operation on two terms.
fn blast_binary(
    gates: &mut Gates,
    bits: &BitTable,
    kind: TermKind,
    a: TermId,
    b: TermId,
    truth: Lit,
) -> Result<Vec<Lit>, AllocError>
    requires words { (k : ℕ) → All (IsWithin gates.old.vars) (word_in bits.now k) }
    requires some { 1 ≤ length (word_in bits.now a) }
    requires fits { BinaryFits kind (length (word_in bits.now a)) (length (word_in bits.now b)) }
    requires truth { IsWithin gates.old.vars truth }
    requires truth_is { (v : ℕ → Bool) → gate_value gates.old truth v ≡ true }
    ensures vars { gates.old.vars ≤ gates.new.vars }
    ensures keeps { (l : ℤ) → place_of l < gates.old.vars → (v : ℕ → Bool) → gate_value gates.new l v ≡ gate_value gates.old l v }
    ensures grows { (c : Circuit) → IsGrown c gates.old → IsGrown c gates.new }
    ensures inputs { inputs_of gates.new ≡ inputs_of gates.old }
    ensures keeps_words { (ls : List ℤ) → All (IsWithin gates.old.vars) ls → (v : ℕ → Bool) → gate_number gates.new ls v ≡ gate_number gates.old ls v }
    ensures size { IfOk result (λ w. length w.items ≡ binary_width kind (length (word_in bits.now a)) (length (word_in bits.now b))) }
    ensures within { IfOk result (λ w. All (IsWithin gates.new.vars) w.items) }
    ensures value { IfOk result (λ w. (v : ℕ → Bool) → gate_number gates.new w.items v ≡ binary_value kind (length (word_in bits.now a)) (length (word_in bits.now b)) (gate_number gates.old (word_in bits.now a) v) (gate_number gates.old (word_in bits.now b) v)) }
{
    binary_word(
        bits.allocator(),
        gates,
        kind,
        bits.word(a),
        bits.word(b),
        truth,
    )
}

// The word of a choice between two terms.
fn blast_choose(
    gates: &mut Gates,
    bits: &BitTable,
    condition: TermId,
    a: TermId,
    b: TermId,
) -> Result<Vec<Lit>, AllocError>
    requires words { (k : ℕ) → All (IsWithin gates.old.vars) (word_in bits.now k) }
    requires one { length (word_in bits.now condition) ≡ 1 }
    requires same { length (word_in bits.now a) ≡ length (word_in bits.now b) }
    ensures vars { gates.old.vars ≤ gates.new.vars }
    ensures keeps { (l : ℤ) → place_of l < gates.old.vars → (v : ℕ → Bool) → gate_value gates.new l v ≡ gate_value gates.old l v }
    ensures grows { (c : Circuit) → IsGrown c gates.old → IsGrown c gates.new }
    ensures inputs { inputs_of gates.new ≡ inputs_of gates.old }
    ensures keeps_words { (ls : List ℤ) → All (IsWithin gates.old.vars) ls → (v : ℕ → Bool) → gate_number gates.new ls v ≡ gate_number gates.old ls v }
    ensures size { IfOk result (λ w. length w.items ≡ length (word_in bits.now a)) }
    ensures within { IfOk result (λ w. All (IsWithin gates.new.vars) w.items) }
    ensures value { IfOk result (λ w. (v : ℕ → Bool) → gate_number gates.new w.items v ≡ (if nat_eq (gate_number gates.old (word_in bits.now condition) v) 1 then gate_number gates.old (word_in bits.now a) v else gate_number gates.old (word_in bits.now b) v)) }
{
    choose_word(
        bits.allocator(),
        gates,
        bits.word(condition),
        bits.word(a),
        bits.word(b),
    )
}

// The word of a term at another width.
fn blast_resize(
    gates: &mut Gates,
    bits: &BitTable,
    kind: TermResize,
    to: u32,
    a: TermId,
    truth: Lit,
) -> Result<Vec<Lit>, AllocError>
    requires words { (k : ℕ) → All (IsWithin gates.old.vars) (word_in bits.now k) }
    requires some { 1 ≤ length (word_in bits.now a) }
    requires fits { ResizeFits kind (length (word_in bits.now a)) to }
    requires truth { IsWithin gates.old.vars truth }
    requires truth_is { (v : ℕ → Bool) → gate_value gates.old truth v ≡ true }
    ensures vars { gates.old.vars ≤ gates.new.vars }
    ensures keeps { (l : ℤ) → place_of l < gates.old.vars → (v : ℕ → Bool) → gate_value gates.new l v ≡ gate_value gates.old l v }
    ensures grows { (c : Circuit) → IsGrown c gates.old → IsGrown c gates.new }
    ensures inputs { inputs_of gates.new ≡ inputs_of gates.old }
    ensures keeps_words { (ls : List ℤ) → All (IsWithin gates.old.vars) ls → (v : ℕ → Bool) → gate_number gates.new ls v ≡ gate_number gates.old ls v }
    ensures size { IfOk result (λ w. length w.items ≡ to) }
    ensures within { IfOk result (λ w. All (IsWithin gates.new.vars) w.items) }
    ensures value { IfOk result (λ w. (v : ℕ → Bool) → gate_number gates.new w.items v ≡ resize_value kind (length (word_in bits.now a)) to (gate_number gates.old (word_in bits.now a) v)) }
{
    let word = resize_word(bits.allocator(), kind, to, bits.word(a), truth)?;
    Ok(word)
}

// The word of a number.
fn blast_number(
    gates: &mut Gates,
    bits: &BitTable,
    width: u32,
    number: u64,
    truth: Lit,
) -> Result<Vec<Lit>, AllocError>
    requires width { width ≤ 64 }
    requires fits { number < 2 ^ width }
    requires truth { IsWithin gates.old.vars truth }
    requires truth_is { (v : ℕ → Bool) → gate_value gates.old truth v ≡ true }
    ensures vars { gates.old.vars ≤ gates.new.vars }
    ensures keeps { (l : ℤ) → place_of l < gates.old.vars → (v : ℕ → Bool) → gate_value gates.new l v ≡ gate_value gates.old l v }
    ensures grows { (c : Circuit) → IsGrown c gates.old → IsGrown c gates.new }
    ensures inputs { inputs_of gates.new ≡ inputs_of gates.old }
    ensures keeps_words { (ls : List ℤ) → All (IsWithin gates.old.vars) ls → (v : ℕ → Bool) → gate_number gates.new ls v ≡ gate_number gates.old ls v }
    ensures size { IfOk result (λ w. length w.items ≡ width) }
    ensures within { IfOk result (λ w. All (IsWithin gates.new.vars) w.items) }
    ensures value { IfOk result (λ w. (v : ℕ → Bool) → gate_number gates.new w.items v ≡ number) }
{
    let word = number_word(bits.allocator(), number, width, truth)?;
    Ok(word)
}

// The word of a node whose parts have their words.
fn blast_node(
    gates: &mut Gates,
    bits: &BitTable,
    node: &Node,
    truth: Lit,
) -> Result<Vec<Lit>, AllocError>
    requires words { (k : ℕ) → All (IsWithin gates.old.vars) (word_in bits.now k) }
    requires fits { WordsFit (λ k. length (word_in bits.now k)) node.now }
    requires truth { IsWithin gates.old.vars truth }
    requires truth_is { (v : ℕ → Bool) → gate_value gates.old truth v ≡ true }
    ensures vars { gates.old.vars ≤ gates.new.vars }
    ensures keeps { (l : ℤ) → place_of l < gates.old.vars → (v : ℕ → Bool) → gate_value gates.new l v ≡ gate_value gates.old l v }
    ensures grows { (c : Circuit) → IsGrown c gates.old → IsGrown c gates.new }
    ensures required { (inputs_of gates.new).required ≡ (inputs_of gates.old).required }
    ensures size { IfOk result (λ w. length w.items ≡ node_width node.now (λ k. length (word_in bits.now k))) }
    ensures within { IfOk result (λ w. All (IsWithin gates.new.vars) w.items) }
    ensures value { IfOk result (λ w. (v : ℕ → Bool) → HasValue (λ k. length (word_in bits.now k)) (λ k. gate_number gates.old (word_in bits.now k) v) node.now (gate_number gates.new w.items v)) }
    ensures free { OnOk result ((inputs_of gates.new).free ≡ (inputs_of gates.old).free + input_bits node.now) }
    ensures fresh { IfOk result (λ w. is_input node.now ≡ true → w.items ≡ variables_from gates.old.vars (input_bits node.now)) }
    ensures chosen { OnOk result ((p : ℕ) → gates.old.vars ≤ p → p < gates.old.vars + input_bits node.now → (v : ℕ → Bool) → gate_value gates.new (variable p) v ≡ v p) }
{
    match node {
        Node::Const { width, value } => blast_number(gates, bits, *width, *value, truth),
        Node::Var { width, .. } => input_word(bits.allocator(), gates, *width),
        Node::Select { width, .. } => input_word(bits.allocator(), gates, *width),
        Node::Unary { kind, a } => blast_unary(gates, bits, *kind, *a, truth),
        Node::Binary { kind, a, b } => blast_binary(gates, bits, *kind, *a, *b, truth),
        Node::Choose { condition, a, b } => blast_choose(gates, bits, *condition, *a, *b),
        Node::Resize { kind, to, a } => blast_resize(gates, bits, *kind, *to, *a, truth),
        Node::ForAll { .. } => input_word(bits.allocator(), gates, 1),
    }
}

// The word of a term that has none, and whose parts have theirs.
fn term_word(
    terms: &Terms,
    t: TermId,
    gates: &mut Gates,
    bits: &BitTable,
) -> Result<Vec<Lit>, AllocError>
    requires term { t < length terms.now }
    requires table { AreBlasted terms.now gates.old bits.now }
    requires first { IsMissing bits.now t }
    requires parts { (node : Node) → slice_get terms.now t ≡ Some node → HasParts bits.now node }
    ensures vars { gates.old.vars ≤ gates.new.vars }
    ensures keeps { (l : ℤ) → place_of l < gates.old.vars → (v : ℕ → Bool) → gate_value gates.new l v ≡ gate_value gates.old l v }
    ensures grows { (c : Circuit) → IsGrown c gates.old → IsGrown c gates.new }
    ensures required { (inputs_of gates.new).required ≡ (inputs_of gates.old).required }
    ensures blasted { IfOk result (λ w. IsBlasted terms.now gates.new bits.now t w.items) }
    ensures fresh { IfOk result (λ w. All (λ p. gates.old.vars ≤ p) (places_of terms.now (t, w.items))) }
    ensures inputs { IfOk result (λ w. (inputs_of gates.new).free ≡ (inputs_of gates.old).free + length (places_of terms.now (t, w.items))) }
{
    let truth = gates.constant()?;
    let word = blast_node(gates, bits, terms.node(t), truth)?;
    Ok(word)
}

/// Blasts a term that has no word, and whose parts have theirs.
pub fn blast_term(
    terms: &Terms,
    t: TermId,
    gates: &mut Gates,
    bits: &mut BitTable,
) -> Result<(), AllocError>
    requires term { t < length terms.now }
    requires table { AreBlasted terms.now gates.old bits.old }
    requires first { IsMissing bits.old t }
    requires parts { (node : Node) → slice_get terms.now t ≡ Some node → HasParts bits.old node }
    ensures vars { gates.old.vars ≤ gates.new.vars }
    ensures keeps { (l : ℤ) → place_of l < gates.old.vars → (v : ℕ → Bool) → gate_value gates.new l v ≡ gate_value gates.old l v }
    ensures grows { (c : Circuit) → IsGrown c gates.old → IsGrown c gates.new }
    ensures required { (inputs_of gates.new).required ≡ (inputs_of gates.old).required }
    ensures table { AreBlasted terms.now gates.new bits.new }
    ensures lengthens { (first : ℕ) (front : Words) → first ≤ gates.old.vars → Lengthens terms.now first front bits.old → Lengthens terms.now first front bits.new }
    ensures there { OnOk result (HasWord bits.new t) }
    ensures kept { (k : ℕ) → HasWord bits.old k → HasWord bits.new k }
    ensures only { (k : ℕ) → HasWord bits.new k → (HasWord bits.old k) ⊎ (k ≡ t) }
    ensures others { (k : ℕ) → IsMissing bits.old k → k ≢ t → IsMissing bits.new k }
    ensures inputs { OnOk result (AddsInputs terms.now gates.old gates.new bits.old bits.new) }
{
    let word = term_word(terms, t, gates, bits)?;
    bits.enter(t, word)?;
    Ok(())
}
