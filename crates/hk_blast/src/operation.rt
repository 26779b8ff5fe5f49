//! The circuits of operations, over the words of their parts.

ghost use Rattle.std.specs.Prelude.{◌≡◌, ◌≤◌, ◌<◌, nat_eq, true, if◌then◌else◌, ℕ, ℤ, Bool, List, [], ◌∷◌, IfOk, length, All};
ghost use Rattle.hk_cnf.specs.Literal.{IsWithin, IsLiteral, place_of};
ghost use Rattle.hk_cnf.specs.Circuit.{Circuit, gate_value};
ghost use Rattle.hk_cnf.specs.CircuitGrowth.{IsGrown, inputs_of};
ghost use Rattle.hk_num.specs.Numbers.{bvult, bvslt};
ghost use Rattle.hk_term.specs.Operations.{unary_value, binary_value, binary_width, BinaryFits, resize_value, ResizeFits, udiv_value, urem_value, sdiv_value, srem_value};
ghost use Rattle.hk_circuit.specs.Words.{bit, gate_number};

use hk_circuit::adder::{add, negate, subtract};
use hk_circuit::bitwise::{and_words, or_words, xor_words};
use hk_circuit::choice::choose_words;
use hk_circuit::compare::{equal, less, signed_less};
use hk_circuit::divide::{Divided, divide, signed_divide};
use hk_circuit::multiply::multiply;
use hk_circuit::shift::{shift_left, shift_right, shift_right_signed};
use hk_circuit::word::{complement, concat, extract, sign_extend, zero_extend};
use hk_cnf::{Gates, Lit};
use hk_term::{TermKind, TermResize, UnaryKind};
use std::alloc::{AllocError, Global};

/// The word of an operation on one word.
pub fn unary_word(
    alloc: Global,
    gates: &mut Gates,
    kind: UnaryKind,
    a: &[Lit],
    truth: Lit,
) -> Result<Vec<Lit>, AllocError>
    requires word { All (IsWithin gates.old.vars) a.now }
    requires truth { IsWithin gates.old.vars truth }
    requires truth_is { (v : ℕ → Bool) → gate_value gates.old truth v ≡ true }
    ensures vars { gates.old.vars ≤ gates.new.vars }
    ensures keeps { (l : ℤ) → place_of l < gates.old.vars → (v : ℕ → Bool) → gate_value gates.new l v ≡ gate_value gates.old l v }
    ensures grows { (c : Circuit) → IsGrown c gates.old → IsGrown c gates.new }
    ensures inputs { inputs_of gates.new ≡ inputs_of gates.old }
    ensures keeps_words { (ls : List ℤ) → All (IsWithin gates.old.vars) ls → (v : ℕ → Bool) → gate_number gates.new ls v ≡ gate_number gates.old ls v }
    ensures size { IfOk result (λ w. length w.items ≡ length a.now) }
    ensures within { IfOk result (λ w. All (IsWithin gates.new.vars) w.items) }
    ensures value { IfOk result (λ w. (v : ℕ → Bool) → gate_number gates.new w.items v ≡ unary_value kind (length a.now) (gate_number gates.old a.now v)) }
{
    match kind {
        UnaryKind::Not => complement(alloc, a),
        UnaryKind::Neg => negate(alloc, gates, a, truth),
    }
}

// The quotient of two words.
fn quotient(
    alloc: Global,
    gates: &mut Gates,
    a: &[Lit],
    b: &[Lit],
    truth: Lit,
) -> Result<Vec<Lit>, AllocError>
    requires same { length a.now ≡ length b.now }
    requires first { All (IsWithin gates.old.vars) a.now }
    requires second { All (IsWithin gates.old.vars) b.now }
    requires truth { IsWithin gates.old.vars truth }
    requires truth_is { (v : ℕ → Bool) → gate_value gates.old truth v ≡ true }
    ensures vars { gates.old.vars ≤ gates.new.vars }
    ensures keeps { (l : ℤ) → place_of l < gates.old.vars → (v : ℕ → Bool) → gate_value gates.new l v ≡ gate_value gates.old l v }
    ensures grows { (c : Circuit) → IsGrown c gates.old → IsGrown c gates.new }
    ensures inputs { inputs_of gates.new ≡ inputs_of gates.old }
    ensures keeps_words { (ls : List ℤ) → All (IsWithin gates.old.vars) ls → (v : ℕ → Bool) → gate_number gates.new ls v ≡ gate_number gates.old ls v }
    ensures size { IfOk result (λ w. length w.items ≡ length a.now) }
    ensures within { IfOk result (λ w. All (IsWithin gates.new.vars) w.items) }
    ensures value { IfOk result (λ w. (v : ℕ → Bool) → gate_number gates.new w.items v ≡ udiv_value (length a.now) (gate_number gates.old a.now v) (gate_number gates.old b.now v)) }
{
    let divided = divide(alloc, gates, a, b, truth)?;
    let Divided { quotient, .. } = divided;
    Ok(quotient)
}

// The remainder of two words.
fn remainder(
    alloc: Global,
    gates: &mut Gates,
    a: &[Lit],
    b: &[Lit],
    truth: Lit,
) -> Result<Vec<Lit>, AllocError>
    requires same { length a.now ≡ length b.now }
    requires first { All (IsWithin gates.old.vars) a.now }
    requires second { All (IsWithin gates.old.vars) b.now }
    requires truth { IsWithin gates.old.vars truth }
    requires truth_is { (v : ℕ → Bool) → gate_value gates.old truth v ≡ true }
    ensures vars { gates.old.vars ≤ gates.new.vars }
    ensures keeps { (l : ℤ) → place_of l < gates.old.vars → (v : ℕ → Bool) → gate_value gates.new l v ≡ gate_value gates.old l v }
    ensures grows { (c : Circuit) → IsGrown c gates.old → IsGrown c gates.new }
    ensures inputs { inputs_of gates.new ≡ inputs_of gates.old }
    ensures keeps_words { (ls : List ℤ) → All (IsWithin gates.old.vars) ls → (v : ℕ → Bool) → gate_number gates.new ls v ≡ gate_number gates.old ls v }
    ensures size { IfOk result (λ w. length w.items ≡ length a.now) }
    ensures within { IfOk result (λ w. All (IsWithin gates.new.vars) w.items) }
    ensures value { IfOk result (λ w. (v : ℕ → Bool) → gate_number gates.new w.items v ≡ urem_value (length a.now) (gate_number gates.old a.now v) (gate_number gates.old b.now v)) }
{
    let divided = divide(alloc, gates, a, b, truth)?;
    let Divided { remainder, .. } = divided;
    Ok(remainder)
}

// The quotient of the signed readings.
fn signed_quotient(
    alloc: Global,
    gates: &mut Gates,
    a: &[Lit],
    b: &[Lit],
    truth: Lit,
) -> Result<Vec<Lit>, AllocError>
    requires some { 1 ≤ length a.now }
    requires same { length a.now ≡ length b.now }
    requires first { All (IsWithin gates.old.vars) a.now }
    requires second { All (IsWithin gates.old.vars) b.now }
    requires truth { IsWithin gates.old.vars truth }
    requires truth_is { (v : ℕ → Bool) → gate_value gates.old truth v ≡ true }
    ensures vars { gates.old.vars ≤ gates.new.vars }
    ensures keeps { (l : ℤ) → place_of l < gates.old.vars → (v : ℕ → Bool) → gate_value gates.new l v ≡ gate_value gates.old l v }
    ensures grows { (c : Circuit) → IsGrown c gates.old → IsGrown c gates.new }
    ensures inputs { inputs_of gates.new ≡ inputs_of gates.old }
    ensures keeps_words { (ls : List ℤ) → All (IsWithin gates.old.vars) ls → (v : ℕ → Bool) → gate_number gates.new ls v ≡ gate_number gates.old ls v }
    ensures size { IfOk result (λ w. length w.items ≡ length a.now) }
    ensures within { IfOk result (λ w. All (IsWithin gates.new.vars) w.items) }
    ensures value { IfOk result (λ w. (v : ℕ → Bool) → gate_number gates.new w.items v ≡ sdiv_value (length a.now) (gate_number gates.old a.now v) (gate_number gates.old b.now v)) }
{
    let divided = signed_divide(alloc, gates, a, b, truth)?;
    let Divided { quotient, .. } = divided;
    Ok(quotient)
}

// The remainder of the signed readings.
fn signed_remainder(
    alloc: Global,
    gates: &mut Gates,
    a: &[Lit],
    b: &[Lit],
    truth: Lit,
) -> Result<Vec<Lit>, AllocError>
    requires some { 1 ≤ length a.now }
    requires same { length a.now ≡ length b.now }
    requires first { All (IsWithin gates.old.vars) a.now }
    requires second { All (IsWithin gates.old.vars) b.now }
    requires truth { IsWithin gates.old.vars truth }
    requires truth_is { (v : ℕ → Bool) → gate_value gates.old truth v ≡ true }
    ensures vars { gates.old.vars ≤ gates.new.vars }
    ensures keeps { (l : ℤ) → place_of l < gates.old.vars → (v : ℕ → Bool) → gate_value gates.new l v ≡ gate_value gates.old l v }
    ensures grows { (c : Circuit) → IsGrown c gates.old → IsGrown c gates.new }
    ensures inputs { inputs_of gates.new ≡ inputs_of gates.old }
    ensures keeps_words { (ls : List ℤ) → All (IsWithin gates.old.vars) ls → (v : ℕ → Bool) → gate_number gates.new ls v ≡ gate_number gates.old ls v }
    ensures size { IfOk result (λ w. length w.items ≡ length a.now) }
    ensures within { IfOk result (λ w. All (IsWithin gates.new.vars) w.items) }
    ensures value { IfOk result (λ w. (v : ℕ → Bool) → gate_number gates.new w.items v ≡ srem_value (length a.now) (gate_number gates.old a.now v) (gate_number gates.old b.now v)) }
{
    let divided = signed_divide(alloc, gates, a, b, truth)?;
    let Divided { remainder, .. } = divided;
    Ok(remainder)
}

// A word of one bit.
fn single(alloc: Global, lit: Lit) -> Result<Vec<Lit>, AllocError>
    ensures { IfOk result (λ w. w.items ≡ lit ∷ []) }
{
    let mut word = Vec::new(alloc);
    word.push(lit)?;
    Ok(word)
}

// Whether two words are the same.
fn equal_word(
    alloc: Global,
    gates: &mut Gates,
    a: &[Lit],
    b: &[Lit],
    truth: Lit,
) -> Result<Vec<Lit>, AllocError>
    requires same { length a.now ≡ length b.now }
    requires first { All (IsWithin gates.old.vars) a.now }
    requires second { All (IsWithin gates.old.vars) b.now }
    requires truth { IsWithin gates.old.vars truth }
    requires truth_is { (v : ℕ → Bool) → gate_value gates.old truth v ≡ true }
    ensures vars { gates.old.vars ≤ gates.new.vars }
    ensures keeps { (l : ℤ) → place_of l < gates.old.vars → (v : ℕ → Bool) → gate_value gates.new l v ≡ gate_value gates.old l v }
    ensures grows { (c : Circuit) → IsGrown c gates.old → IsGrown c gates.new }
    ensures inputs { inputs_of gates.new ≡ inputs_of gates.old }
    ensures keeps_words { (ls : List ℤ) → All (IsWithin gates.old.vars) ls → (v : ℕ → Bool) → gate_number gates.new ls v ≡ gate_number gates.old ls v }
    ensures size { IfOk result (λ w. length w.items ≡ 1) }
    ensures within { IfOk result (λ w. All (IsWithin gates.new.vars) w.items) }
    ensures value { IfOk result (λ w. (v : ℕ → Bool) → gate_number gates.new w.items v ≡ bit (nat_eq (gate_number gates.old a.now v) (gate_number gates.old b.now v))) }
{
    let same = equal(gates, a, b, truth)?;
    single(alloc, same)
}

// Whether the number of one word is below that of another.
fn less_word(
    alloc: Global,
    gates: &mut Gates,
    a: &[Lit],
    b: &[Lit],
    truth: Lit,
) -> Result<Vec<Lit>, AllocError>
    requires same { length a.now ≡ length b.now }
    requires first { All (IsWithin gates.old.vars) a.now }
    requires second { All (IsWithin gates.old.vars) b.now }
    requires truth { IsWithin gates.old.vars truth }
    requires truth_is { (v : ℕ → Bool) → gate_value gates.old truth v ≡ true }
    ensures vars { gates.old.vars ≤ gates.new.vars }
    ensures keeps { (l : ℤ) → place_of l < gates.old.vars → (v : ℕ → Bool) → gate_value gates.new l v ≡ gate_value gates.old l v }
    ensures grows { (c : Circuit) → IsGrown c gates.old → IsGrown c gates.new }
    ensures inputs { inputs_of gates.new ≡ inputs_of gates.old }
    ensures keeps_words { (ls : List ℤ) → All (IsWithin gates.old.vars) ls → (v : ℕ → Bool) → gate_number gates.new ls v ≡ gate_number gates.old ls v }
    ensures size { IfOk result (λ w. length w.items ≡ 1) }
    ensures within { IfOk result (λ w. All (IsWithin gates.new.vars) w.items) }
    ensures value { IfOk result (λ w. (v : ℕ → Bool) → gate_number gates.new w.items v ≡ bit (bvult (length a.now) (gate_number gates.old a.now v) (gate_number gates.old b.now v))) }
{
    let below = less(gates, a, b, truth.negated())?;
    let word = single(alloc, below)?;
    Ok(word)
}

// Whether the signed reading of one word is below that of another.
fn signed_less_word(
    alloc: Global,
    gates: &mut Gates,
    a: &[Lit],
    b: &[Lit],
    truth: Lit,
) -> Result<Vec<Lit>, AllocError>
    requires some { 1 ≤ length a.now }
    requires same { length a.now ≡ length b.now }
    requires first { All (IsWithin gates.old.vars) a.now }
    requires second { All (IsWithin gates.old.vars) b.now }
    requires truth { IsWithin gates.old.vars truth }
    requires truth_is { (v : ℕ → Bool) → gate_value gates.old truth v ≡ true }
    ensures vars { gates.old.vars ≤ gates.new.vars }
    ensures keeps { (l : ℤ) → place_of l < gates.old.vars → (v : ℕ → Bool) → gate_value gates.new l v ≡ gate_value gates.old l v }
    ensures grows { (c : Circuit) → IsGrown c gates.old → IsGrown c gates.new }
    ensures inputs { inputs_of gates.new ≡ inputs_of gates.old }
    ensures keeps_words { (ls : List ℤ) → All (IsWithin gates.old.vars) ls → (v : ℕ → Bool) → gate_number gates.new ls v ≡ gate_number gates.old ls v }
    ensures size { IfOk result (λ w. length w.items ≡ 1) }
    ensures within { IfOk result (λ w. All (IsWithin gates.new.vars) w.items) }
    ensures value { IfOk result (λ w. (v : ℕ → Bool) → gate_number gates.new w.items v ≡ bit (bvslt (length a.now) (gate_number gates.old a.now v) (gate_number gates.old b.now v))) }
{
    let below = signed_less(alloc, gates, a, b, truth.negated())?;
    single(alloc, below)
}

/// The word of an operation on two words.
pub fn binary_word(
    alloc: Global,
    gates: &mut Gates,
    kind: TermKind,
    a: &[Lit],
    b: &[Lit],
    truth: Lit,
) -> Result<Vec<Lit>, AllocError>
    requires some { 1 ≤ length a.now }
    requires fits { BinaryFits kind (length a.now) (length b.now) }
    requires first { All (IsWithin gates.old.vars) a.now }
    requires second { All (IsWithin gates.old.vars) b.now }
    requires truth { IsWithin gates.old.vars truth }
    requires truth_is { (v : ℕ → Bool) → gate_value gates.old truth v ≡ true }
    ensures vars { gates.old.vars ≤ gates.new.vars }
    ensures keeps { (l : ℤ) → place_of l < gates.old.vars → (v : ℕ → Bool) → gate_value gates.new l v ≡ gate_value gates.old l v }
    ensures grows { (c : Circuit) → IsGrown c gates.old → IsGrown c gates.new }
    ensures inputs { inputs_of gates.new ≡ inputs_of gates.old }
    ensures keeps_words { (ls : List ℤ) → All (IsWithin gates.old.vars) ls → (v : ℕ → Bool) → gate_number gates.new ls v ≡ gate_number gates.old ls v }
    ensures size { IfOk result (λ w. length w.items ≡ binary_width kind (length a.now) (length b.now)) }
    ensures within { IfOk result (λ w. All (IsWithin gates.new.vars) w.items) }
    ensures value { IfOk result (λ w. (v : ℕ → Bool) → gate_number gates.new w.items v ≡ binary_value kind (length a.now) (length b.now) (gate_number gates.old a.now v) (gate_number gates.old b.now v)) }
{
    match kind {
        TermKind::Add => add(alloc, gates, a, b, truth),
        TermKind::Sub => subtract(alloc, gates, a, b, truth),
        TermKind::Mul => multiply(alloc, gates, a, b, truth),
        TermKind::Udiv => quotient(alloc, gates, a, b, truth),
        TermKind::Urem => remainder(alloc, gates, a, b, truth),
        TermKind::Sdiv => signed_quotient(alloc, gates, a, b, truth),
        TermKind::Srem => signed_remainder(alloc, gates, a, b, truth),
        TermKind::Shl => shift_left(alloc, gates, a, b, truth.negated()),
        TermKind::Lshr => shift_right(alloc, gates, a, b, truth.negated()),
        TermKind::Ashr => shift_right_signed(alloc, gates, a, b),
        TermKind::And => and_words(alloc, gates, a, b),
        TermKind::Or => or_words(alloc, gates, a, b),
        TermKind::Xor => xor_words(alloc, gates, a, b),
        TermKind::Eq => equal_word(alloc, gates, a, b, truth),
        TermKind::Ult => less_word(alloc, gates, a, b, truth),
        TermKind::Slt => signed_less_word(alloc, gates, a, b, truth),
        TermKind::Concat => concat(alloc, a, b),
    }
}

/// The first of two words where the condition, a word of one bit, is true, and else the second.
pub fn choose_word(
    alloc: Global,
    gates: &mut Gates,
    condition: &[Lit],
    a: &[Lit],
    b: &[Lit],
) -> Result<Vec<Lit>, AllocError>
    requires condition { All (IsWithin gates.old.vars) condition.now }
    requires one { length condition.now ≡ 1 }
    requires same { length a.now ≡ length b.now }
    requires first { All (IsWithin gates.old.vars) a.now }
    requires second { All (IsWithin gates.old.vars) b.now }
    ensures vars { gates.old.vars ≤ gates.new.vars }
    ensures keeps { (l : ℤ) → place_of l < gates.old.vars → (v : ℕ → Bool) → gate_value gates.new l v ≡ gate_value gates.old l v }
    ensures grows { (c : Circuit) → IsGrown c gates.old → IsGrown c gates.new }
    ensures inputs { inputs_of gates.new ≡ inputs_of gates.old }
    ensures keeps_words { (ls : List ℤ) → All (IsWithin gates.old.vars) ls → (v : ℕ → Bool) → gate_number gates.new ls v ≡ gate_number gates.old ls v }
    ensures size { IfOk result (λ w. length w.items ≡ length a.now) }
    ensures within { IfOk result (λ w. All (IsWithin gates.new.vars) w.items) }
    ensures value { IfOk result (λ w. (v : ℕ → Bool) → gate_number gates.new w.items v ≡ (if nat_eq (gate_number gates.old condition.now v) 1 then gate_number gates.old a.now v else gate_number gates.old b.now v)) }
{
    choose_words(alloc, gates, condition[0], a, b)
}

/// A word at the width `to`.
pub fn resize_word(
    alloc: Global,
    kind: TermResize,
    to: u32,
    a: &[Lit],
    truth: Lit,
) -> Result<Vec<Lit>, AllocError>
    requires some { 1 ≤ length a.now }
    requires fits { ResizeFits kind (length a.now) to }
    requires truth { IsLiteral truth }
    ensures size { IfOk result (λ w. length w.items ≡ to) }
    ensures within { IfOk result (λ w. (n : ℕ) → All (IsWithin n) a.now → IsWithin n truth → All (IsWithin n) w.items) }
    ensures value { IfOk result (λ w. (c : Circuit) (v : ℕ → Bool) → gate_value c truth v ≡ true → gate_number c w.items v ≡ resize_value kind (length a.now) to (gate_number c a.now v)) }
{
    match kind {
        TermResize::Zero => zero_extend(alloc, a, to as usize, truth.negated()),
        TermResize::Sign => sign_extend(alloc, a, to as usize),
        TermResize::Extract { low } => extract(alloc, a, low as usize, to as usize),
    }
}
