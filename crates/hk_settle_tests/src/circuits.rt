//! Circuits over constant words, whose literals are then constants, at numbers that SMT-LIB fixes; and counts of gates.

ghost use Rattle.std.specs.Prelude.{◌≡◌, ◌≤◌, ◌<◌, ℕ, ℤ, Bool, true, length, All, IfOk};
ghost use Rattle.hk_cnf.specs.Literal.{IsWithin, place_of};
ghost use Rattle.hk_cnf.specs.Circuit.{gate_value};

use crate::word::{number, number_text};
use hk_circuit::bit::full_add;
use hk_circuit::bitwise::{and_words, or_words, xor_words};
use hk_circuit::divide::{divide, signed_divide};
use hk_circuit::multiply::multiply;
use hk_circuit::shift::{shift_left, shift_right_signed};
use hk_circuit::word::{number_word, sign_extend, zero_extend};
use hk_cnf::{Gates, Lit};
use hk_term_rows::long;
use std::alloc::{AllocError, Global};

/// The word of a number of width 8.
fn byte(alloc: Global, gates: &Gates, number: u64, truth: Lit) -> Result<Vec<Lit>, AllocError>
    requires { IsWithin gates.now.vars truth }
    ensures size { IfOk result (λ w. length w.items ≡ 8) }
    ensures within { IfOk result (λ w. All (IsWithin gates.now.vars) w.items) }
{
    let word = number_word(alloc, number, 8, truth)?;
    Ok(word)
}

/// The word of an operation bit by bit, of a product, or of a shift with copies of the sign.
fn plain(
    alloc: Global,
    gates: &mut Gates,
    name: &str,
    words: (&[Lit], &[Lit]),
    truth: Lit,
) -> Result<Vec<Lit>, AllocError>
    requires some { 1 ≤ length words.0.now }
    requires same { length words.0.now ≡ length words.1.now }
    requires first { All (IsWithin gates.old.vars) words.0.now }
    requires second { All (IsWithin gates.old.vars) words.1.now }
    requires truth { IsWithin gates.old.vars truth }
    requires truth_is { (v : ℕ → Bool) → gate_value gates.old truth v ≡ true }
{
    let (a, b) = words;
    match name {
        "and" => and_words(alloc, gates, a, b),
        "or" => or_words(alloc, gates, a, b),
        "xor" => xor_words(alloc, gates, a, b),
        "mul" => multiply(alloc, gates, a, b, truth),
        "ashr" => shift_right_signed(alloc, gates, a, b),
        _ => Ok(Vec::new(alloc)),
    }
}

/// The word of a shift up, or of an extension to 16 bits.
#[tactic(auto, using(hk_circuit::proofs::Negated::value_negated))]
fn padded(
    alloc: Global,
    gates: &mut Gates,
    name: &str,
    words: (&[Lit], &[Lit]),
    truth: Lit,
) -> Result<Vec<Lit>, AllocError>
    requires size { length words.0.now ≡ 8 }
    requires first { All (IsWithin gates.old.vars) words.0.now }
    requires second { All (IsWithin gates.old.vars) words.1.now }
    requires truth { IsWithin gates.old.vars truth }
    requires truth_is { (v : ℕ → Bool) → gate_value gates.old truth v ≡ true }
{
    let (a, b) = words;
    match name {
        "shl" => shift_left(alloc, gates, a, b, truth.negated()),
        "zext" => zero_extend(alloc, a, 16, truth.negated()),
        "sext" => sign_extend(alloc, a, 16),
        _ => Ok(Vec::new(alloc)),
    }
}

/// A quotient and its remainder, of two words or of their signed readings.
fn divided(
    alloc: Global,
    gates: &mut Gates,
    signed: bool,
    words: (&[Lit], &[Lit]),
    truth: Lit,
) -> Result<(Option<u64>, Option<u64>), AllocError>
    requires some { 1 ≤ length words.0.now }
    requires same { length words.0.now ≡ length words.1.now }
    requires first { All (IsWithin gates.old.vars) words.0.now }
    requires second { All (IsWithin gates.old.vars) words.1.now }
    requires truth { IsWithin gates.old.vars truth }
    requires truth_is { (v : ℕ → Bool) → gate_value gates.old truth v ≡ true }
{
    let (a, b) = words;
    let d = if signed {
        signed_divide(alloc, gates, a, b, truth)?
    } else {
        divide(alloc, gates, a, b, truth)?
    };
    let quotient = number(d.quotient.as_slice(), truth);
    Ok((quotient, number(d.remainder.as_slice(), truth)))
}

/// The number of what a circuit makes of two numbers of width 8, or the quotient and the remainder.
fn told(
    alloc: Global,
    name: &str,
    a: u64,
    b: u64,
) -> Result<(Option<u64>, Option<u64>), AllocError> {
    let mut gates = Gates::new(alloc);
    let truth = gates.constant()?;
    let a = byte(alloc, &gates, a, truth)?;
    let b = byte(alloc, &gates, b, truth)?;
    let words = (a.as_slice(), b.as_slice());
    match name {
        "udiv" => divided(alloc, &mut gates, false, words, truth),
        "sdiv" => divided(alloc, &mut gates, true, words, truth),
        "shl" | "zext" | "sext" => {
            let word = padded(alloc, &mut gates, name, words, truth)?;
            Ok((number(word.as_slice(), truth), None))
        }
        _ => {
            let word = plain(alloc, &mut gates, name, words, truth)?;
            Ok((number(word.as_slice(), truth), None))
        }
    }
}

/// The circuits by their names.
const NAMES: [&str; 10] = [
    "and", "or", "xor", "mul", "shl", "ashr", "zext", "sext", "udiv", "sdiv",
];

/// What a circuit makes of two numbers of width 8: a number, or for a division the quotient and the remainder.
pub fn circuit_answer(
    alloc: Global,
    name: &str,
    a: &str,
    b: &str,
) -> Result<Option<String>, AllocError> {
    if !NAMES.contains(&name) {
        return Ok(None);
    }
    let (Some(a), Some(b)) = (long(a), long(b)) else {
        return Ok(None);
    };
    let (first, second) = told(alloc, name, a, b)?;
    let first = number_text(alloc, first)?;
    match second {
        Some(second) => Ok(Some(format!(in alloc; "{first} {second}")?)),
        None => Ok(Some(first)),
    }
}

/// Two variables that no gate fixes.
fn free_pair(alloc: Global, gates: &mut Gates) -> Result<Vec<Lit>, AllocError>
    ensures vars { gates.old.vars ≤ gates.new.vars }
    ensures keeps { (l : ℤ) → place_of l < gates.old.vars → (v : ℕ → Bool) → gate_value gates.new l v ≡ gate_value gates.old l v }
    ensures size { IfOk result (λ w. length w.items ≡ 2) }
    ensures within { IfOk result (λ w. All (IsWithin gates.new.vars) w.items) }
{
    let low = gates.fresh()?;
    let high = gates.fresh()?;
    let mut word = Vec::new(alloc);
    word.push(low)?;
    word.push(high)?;
    Ok(word)
}

/// How many gates a division of two bits by two takes.
fn division_gates(alloc: Global) -> Result<Option<u64>, AllocError> {
    let mut gates = Gates::new(alloc);
    let truth = gates.constant()?;
    let a = free_pair(alloc, &mut gates)?;
    let b = free_pair(alloc, &mut gates)?;
    let before = gates.sizes().gates;
    let _ = divide(alloc, &mut gates, a.as_slice(), b.as_slice(), truth)?;
    Ok(gates.sizes().gates.checked_sub(before))
}

/// How many gates and clauses a full adder takes.
fn adder_sizes(alloc: Global) -> Result<(u64, u64), AllocError> {
    let mut gates = Gates::new(alloc);
    let a = gates.fresh()?;
    let b = gates.fresh()?;
    let carry = gates.fresh()?;
    let _ = full_add(&mut gates, a, b, carry)?;
    let sizes = gates.sizes();
    Ok((sizes.gates, sizes.clauses))
}

/// How much a circuit takes.
pub fn gates_answer(alloc: Global, name: &str) -> Result<Option<String>, AllocError> {
    match name {
        "divide" => {
            let gates = division_gates(alloc)?;
            Ok(Some(number_text(alloc, gates)?))
        }
        "full_add" => {
            let (gates, clauses) = adder_sizes(alloc)?;
            Ok(Some(format!(in alloc; "{gates} {clauses}")?))
        }
        _ => Ok(None),
    }
}
