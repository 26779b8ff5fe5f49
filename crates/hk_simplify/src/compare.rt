//! Comparisons. The result is a truth value, a term of width 1.

ghost use Rattle.std.specs.Prelude.{◌≡◌, ℕ, ◌^◌, ◌<◌, ◌≤◌, length, nat_eq, bit_and, IfOk};
ghost use Rattle.hk_term.specs.Operations.{bit, unary_value, binary_value};
ghost use Rattle.hk_term.specs.Shape.{width, Grows};
ghost use Rattle.hk_term.specs.Meaning.{Reading, value};
ghost use Rattle.hk_simplify.specs.Adding.{Adds};
ghost use Rattle.hk_simplify.specs.Forms.{FormFits, form_width, form_value};

use crate::against::{Halves, eq_number, halves_of};
use crate::bitwise::and;
use crate::constants::{constant, is_least, is_most, is_number, is_ones, number};
use crate::form::{Form, make};
use crate::limits::{number_ult, ult_number};
use crate::plain::{binary, commuted, undone};
use crate::sums::coincidence;
use hk_term::{TermId, TermKind, Terms, UnaryKind};
use std::alloc::AllocError;

/// Whether two terms of one width are equal.
pub fn eq(t: &mut Terms, a: TermId, b: TermId) -> Result<TermId, AllocError>
    requires first { a < length t.old }
    requires second { b < length t.old }
    requires widths { width t.old a ≡ width t.old b }
    ensures within { IfOk result (λ r. r < length t.new) }
    ensures width { IfOk result (λ r. width t.new r ≡ 1) }
    ensures value { IfOk result (λ r. (v : Reading) → value t.new r v ≡ binary_value TermKind.Eq (width t.old a) (width t.old b) (value t.old a v) (value t.old b v)) }
    ensures keeps_widths { (k : ℕ) → k < length t.old → width t.new k ≡ width t.old k }
    ensures keeps_values { (k : ℕ) → k < length t.old → (v : Reading) → value t.new k v ≡ value t.old k v }
    ensures longer { length t.old ≤ length t.new }
    ensures grows { Grows t.old t.new }
    ensures adds { Adds 6 t.old t.new }
{
    match halves_of(t, a, b) {
        Some(halves) => eq_halves(t, halves),
        None => {
            let form = eq_form(t, a, b);
            let made = make(t, form)?;
            Ok(made)
        }
    }
}

// Whether both halves of a concatenation are numbers.
fn eq_halves(t: &mut Terms, halves: Halves) -> Result<TermId, AllocError>
    requires upper { (halves.upper < length t.old) × (halves.high < 2 ^ width t.old halves.upper) }
    requires lower { (halves.lower < length t.old) × (halves.low < 2 ^ width t.old halves.lower) }
    ensures within { IfOk result (λ r. r < length t.new) }
    ensures width { IfOk result (λ r. width t.new r ≡ 1) }
    ensures value { IfOk result (λ r. (v : Reading) → value t.new r v ≡ bit_and (bit (nat_eq (value t.old halves.upper v) halves.high)) (bit (nat_eq (value t.old halves.lower v) halves.low))) }
    ensures keeps_widths { (k : ℕ) → k < length t.old → width t.new k ≡ width t.old k }
    ensures keeps_values { (k : ℕ) → k < length t.old → (v : Reading) → value t.new k v ≡ value t.old k v }
    ensures longer { length t.old ≤ length t.new }
    ensures grows { Grows t.old t.new }
    ensures adds { Adds 6 t.old t.new }
{
    let upper = is_number_of(t, halves.upper, halves.high)?;
    let lower = is_number_of(t, halves.lower, halves.low)?;
    let both = and(t, upper, lower)?;
    Ok(both)
}

// Whether a term is a number of its width.
fn is_number_of(t: &mut Terms, a: TermId, n: u64) -> Result<TermId, AllocError>
    requires term { a < length t.old }
    requires number { n < 2 ^ width t.old a }
    ensures within { IfOk result (λ r. r < length t.new) }
    ensures width { IfOk result (λ r. width t.new r ≡ 1) }
    ensures value { IfOk result (λ r. (v : Reading) → value t.new r v ≡ bit (nat_eq (value t.old a v) n)) }
    ensures keeps_widths { (k : ℕ) → k < length t.old → width t.new k ≡ width t.old k }
    ensures keeps_values { (k : ℕ) → k < length t.old → (v : Reading) → value t.new k v ≡ value t.old k v }
    ensures longer { length t.old ≤ length t.new }
    ensures grows { Grows t.old t.new }
    ensures adds { Adds 2 t.old t.new }
{
    let form = eq_number(t, a, n);
    let made = make(t, form)?;
    Ok(made)
}

fn eq_form(t: &Terms, a: TermId, b: TermId) -> Form
    requires first { a < length t.now }
    requires second { b < length t.now }
    requires widths { width t.now a ≡ width t.now b }
    ensures fits { FormFits t.now result }
    ensures width { form_width t.now result ≡ 1 }
    ensures value { (v : Reading) → form_value t.now result v ≡ binary_value TermKind.Eq (width t.now a) (width t.now b) (value t.now a v) (value t.now b v) }
{
    if a == b {
        number(1, 1)
    } else if t.width(a) == 1 {
        eq_of_truths(t, a, b)
    } else {
        eq_of_words(t, a, b)
    }
}

// Whether two terms are equal that are no truth values.
fn eq_of_words(t: &Terms, a: TermId, b: TermId) -> Form
    requires first { a < length t.now }
    requires second { b < length t.now }
    requires widths { width t.now a ≡ width t.now b }
    ensures fits { FormFits t.now result }
    ensures width { form_width t.now result ≡ 1 }
    ensures value { (v : Reading) → form_value t.now result v ≡ binary_value TermKind.Eq (width t.now a) (width t.now b) (value t.now a v) (value t.now b v) }
{
    match (constant(t, a), constant(t, b)) {
        (_, Some(n)) => eq_number(t, a, n),
        (Some(n), None) => eq_number(t, b, n),
        _ => match coincidence(t, a, b) {
            Some(form) => form,
            None => commuted(t, TermKind::Eq, a, b),
        },
    }
}

// Whether two truth values are equal.
fn eq_of_truths(t: &Terms, a: TermId, b: TermId) -> Form
    requires first { a < length t.now }
    requires second { b < length t.now }
    requires widths { width t.now a ≡ width t.now b }
    requires truths { width t.now a ≡ 1 }
    ensures fits { FormFits t.now result }
    ensures width { form_width t.now result ≡ 1 }
    ensures value { (v : Reading) → form_value t.now result v ≡ binary_value TermKind.Eq (width t.now a) (width t.now b) (value t.now a v) (value t.now b v) }
{
    let true_a = is_number(t, a, 1);
    let true_b = is_number(t, b, 1);
    let false_a = is_number(t, a, 0);
    let false_b = is_number(t, b, 0);
    if true_a {
        Form::Old(b)
    } else if true_b {
        Form::Old(a)
    } else if false_a {
        undone(t, UnaryKind::Not, b)
    } else if false_b {
        undone(t, UnaryKind::Not, a)
    } else {
        commuted(t, TermKind::Eq, a, b)
    }
}

/// Whether the first of two terms of one width is less, as a number.
pub fn ult(t: &mut Terms, a: TermId, b: TermId) -> Result<TermId, AllocError>
    requires first { a < length t.old }
    requires second { b < length t.old }
    requires widths { width t.old a ≡ width t.old b }
    ensures within { IfOk result (λ r. r < length t.new) }
    ensures width { IfOk result (λ r. width t.new r ≡ 1) }
    ensures value { IfOk result (λ r. (v : Reading) → value t.new r v ≡ binary_value TermKind.Ult (width t.old a) (width t.old b) (value t.old a v) (value t.old b v)) }
    ensures keeps_widths { (k : ℕ) → k < length t.old → width t.new k ≡ width t.old k }
    ensures keeps_values { (k : ℕ) → k < length t.old → (v : Reading) → value t.new k v ≡ value t.old k v }
    ensures longer { length t.old ≤ length t.new }
    ensures grows { Grows t.old t.new }
    ensures adds { Adds 2 t.old t.new }
{
    let form = ult_form(t, a, b);
    let made = make(t, form)?;
    Ok(made)
}

fn ult_form(t: &Terms, a: TermId, b: TermId) -> Form
    requires first { a < length t.now }
    requires second { b < length t.now }
    requires widths { width t.now a ≡ width t.now b }
    ensures fits { FormFits t.now result }
    ensures width { form_width t.now result ≡ 1 }
    ensures value { (v : Reading) → form_value t.now result v ≡ binary_value TermKind.Ult (width t.now a) (width t.now b) (value t.now a v) (value t.now b v) }
{
    let ones_a = is_ones(t, a);
    let zero_b = is_number(t, b, 0);
    if a == b {
        number(1, 0)
    } else if ones_a {
        number(1, 0)
    } else if zero_b {
        number(1, 0)
    } else {
        ult_of_words(t, a, b)
    }
}

// Whether the first of two terms is less, where neither is the same for all.
fn ult_of_words(t: &Terms, a: TermId, b: TermId) -> Form
    requires first { a < length t.now }
    requires second { b < length t.now }
    requires widths { width t.now a ≡ width t.now b }
    ensures fits { FormFits t.now result }
    ensures width { form_width t.now result ≡ 1 }
    ensures value { (v : Reading) → form_value t.now result v ≡ binary_value TermKind.Ult (width t.now a) (width t.now b) (value t.now a v) (value t.now b v) }
{
    match (constant(t, a), constant(t, b)) {
        (_, Some(n)) => ult_number(t, a, n),
        (Some(n), None) => number_ult(t, n, b),
        _ => binary(t, TermKind::Ult, a, b),
    }
}

/// Whether the first of two terms of one width is less, by their signed readings.
pub fn slt(t: &mut Terms, a: TermId, b: TermId) -> Result<TermId, AllocError>
    requires first { a < length t.old }
    requires second { b < length t.old }
    requires widths { width t.old a ≡ width t.old b }
    ensures within { IfOk result (λ r. r < length t.new) }
    ensures width { IfOk result (λ r. width t.new r ≡ 1) }
    ensures value { IfOk result (λ r. (v : Reading) → value t.new r v ≡ binary_value TermKind.Slt (width t.old a) (width t.old b) (value t.old a v) (value t.old b v)) }
    ensures keeps_widths { (k : ℕ) → k < length t.old → width t.new k ≡ width t.old k }
    ensures keeps_values { (k : ℕ) → k < length t.old → (v : Reading) → value t.new k v ≡ value t.old k v }
    ensures longer { length t.old ≤ length t.new }
    ensures grows { Grows t.old t.new }
    ensures adds { Adds 2 t.old t.new }
{
    let form = slt_form(t, a, b);
    let made = make(t, form)?;
    Ok(made)
}

fn slt_form(t: &Terms, a: TermId, b: TermId) -> Form
    requires first { a < length t.now }
    requires second { b < length t.now }
    requires widths { width t.now a ≡ width t.now b }
    ensures fits { FormFits t.now result }
    ensures width { form_width t.now result ≡ 1 }
    ensures value { (v : Reading) → form_value t.now result v ≡ binary_value TermKind.Slt (width t.now a) (width t.now b) (value t.now a v) (value t.now b v) }
{
    let most_a = is_most(t, a);
    let least_b = is_least(t, b);
    if a == b {
        number(1, 0)
    } else if most_a {
        number(1, 0)
    } else if least_b {
        number(1, 0)
    } else {
        binary(t, TermKind::Slt, a, b)
    }
}
