//! Operations on each bit.

ghost use Rattle.std.specs.Prelude.{◌≡◌, ℕ, ◌<◌, ◌≤◌, length, IfOk};
ghost use Rattle.hk_term.specs.Operations.{unary_value, binary_value};
ghost use Rattle.hk_term.specs.Shape.{width, Grows};
ghost use Rattle.hk_term.specs.Meaning.{Reading, value};
ghost use Rattle.hk_simplify.specs.Adding.{Adds};
ghost use Rattle.hk_simplify.specs.Forms.{FormFits, form_width, form_value};

use crate::constants::{is_number, is_ones, number, ones};
use crate::form::{Form, make};
use crate::plain::{are_complements, commuted, undone};
use hk_term::{TermId, TermKind, Terms, UnaryKind};
use std::alloc::AllocError;

/// The complement of each bit of a term. Of a truth value it is the negation.
pub fn not(t: &mut Terms, a: TermId) -> Result<TermId, AllocError>
    requires { a < length t.old }
    ensures within { IfOk result (λ r. r < length t.new) }
    ensures width { IfOk result (λ r. width t.new r ≡ width t.old a) }
    ensures value { IfOk result (λ r. (v : Reading) → value t.new r v ≡ unary_value UnaryKind.Not (width t.old a) (value t.old a v)) }
    ensures keeps_widths { (k : ℕ) → k < length t.old → width t.new k ≡ width t.old k }
    ensures keeps_values { (k : ℕ) → k < length t.old → (v : Reading) → value t.new k v ≡ value t.old k v }
    ensures longer { length t.old ≤ length t.new }
    ensures grows { Grows t.old t.new }
    ensures adds { Adds 2 t.old t.new }
{
    let form = undone(t, UnaryKind::Not, a);
    let made = make(t, form)?;
    Ok(made)
}

/// The bits that are ones in both of two terms of one width. Of truth values it is the conjunction.
pub fn and(t: &mut Terms, a: TermId, b: TermId) -> Result<TermId, AllocError>
    requires first { a < length t.old }
    requires second { b < length t.old }
    requires widths { width t.old a ≡ width t.old b }
    ensures within { IfOk result (λ r. r < length t.new) }
    ensures width { IfOk result (λ r. width t.new r ≡ width t.old a) }
    ensures value { IfOk result (λ r. (v : Reading) → value t.new r v ≡ binary_value TermKind.And (width t.old a) (width t.old b) (value t.old a v) (value t.old b v)) }
    ensures keeps_widths { (k : ℕ) → k < length t.old → width t.new k ≡ width t.old k }
    ensures keeps_values { (k : ℕ) → k < length t.old → (v : Reading) → value t.new k v ≡ value t.old k v }
    ensures longer { length t.old ≤ length t.new }
    ensures grows { Grows t.old t.new }
    ensures adds { Adds 2 t.old t.new }
{
    let form = and_form(t, a, b);
    let made = make(t, form)?;
    Ok(made)
}

pub(crate) fn and_form(t: &Terms, a: TermId, b: TermId) -> Form
    requires first { a < length t.now }
    requires second { b < length t.now }
    requires widths { width t.now a ≡ width t.now b }
    ensures fits { FormFits t.now result }
    ensures width { form_width t.now result ≡ width t.now a }
    ensures value { (v : Reading) → form_value t.now result v ≡ binary_value TermKind.And (width t.now a) (width t.now b) (value t.now a v) (value t.now b v) }
{
    let zero_a = is_number(t, a, 0);
    let zero_b = is_number(t, b, 0);
    let ones_a = is_ones(t, a);
    let ones_b = is_ones(t, b);
    let apart = are_complements(t, a, b);
    if a == b {
        Form::Old(a)
    } else if zero_a {
        Form::Old(a)
    } else if zero_b {
        Form::Old(b)
    } else if ones_a {
        Form::Old(b)
    } else if ones_b {
        Form::Old(a)
    } else if apart {
        number(t.width(a), 0)
    } else {
        commuted(t, TermKind::And, a, b)
    }
}

/// The bits that are ones in one of two terms of one width. Of truth values it is the disjunction.
pub fn or(t: &mut Terms, a: TermId, b: TermId) -> Result<TermId, AllocError>
    requires first { a < length t.old }
    requires second { b < length t.old }
    requires widths { width t.old a ≡ width t.old b }
    ensures within { IfOk result (λ r. r < length t.new) }
    ensures width { IfOk result (λ r. width t.new r ≡ width t.old a) }
    ensures value { IfOk result (λ r. (v : Reading) → value t.new r v ≡ binary_value TermKind.Or (width t.old a) (width t.old b) (value t.old a v) (value t.old b v)) }
    ensures keeps_widths { (k : ℕ) → k < length t.old → width t.new k ≡ width t.old k }
    ensures keeps_values { (k : ℕ) → k < length t.old → (v : Reading) → value t.new k v ≡ value t.old k v }
    ensures longer { length t.old ≤ length t.new }
    ensures grows { Grows t.old t.new }
    ensures adds { Adds 2 t.old t.new }
{
    let form = or_form(t, a, b);
    let made = make(t, form)?;
    Ok(made)
}

pub(crate) fn or_form(t: &Terms, a: TermId, b: TermId) -> Form
    requires first { a < length t.now }
    requires second { b < length t.now }
    requires widths { width t.now a ≡ width t.now b }
    ensures fits { FormFits t.now result }
    ensures width { form_width t.now result ≡ width t.now a }
    ensures value { (v : Reading) → form_value t.now result v ≡ binary_value TermKind.Or (width t.now a) (width t.now b) (value t.now a v) (value t.now b v) }
{
    let zero_a = is_number(t, a, 0);
    let zero_b = is_number(t, b, 0);
    let ones_a = is_ones(t, a);
    let ones_b = is_ones(t, b);
    let apart = are_complements(t, a, b);
    if a == b {
        Form::Old(a)
    } else if zero_a {
        Form::Old(b)
    } else if zero_b {
        Form::Old(a)
    } else if ones_a {
        Form::Old(a)
    } else if ones_b {
        Form::Old(b)
    } else if apart {
        ones(t.width(a))
    } else {
        commuted(t, TermKind::Or, a, b)
    }
}

/// The bits that differ in two terms of one width.
pub fn xor(t: &mut Terms, a: TermId, b: TermId) -> Result<TermId, AllocError>
    requires first { a < length t.old }
    requires second { b < length t.old }
    requires widths { width t.old a ≡ width t.old b }
    ensures within { IfOk result (λ r. r < length t.new) }
    ensures width { IfOk result (λ r. width t.new r ≡ width t.old a) }
    ensures value { IfOk result (λ r. (v : Reading) → value t.new r v ≡ binary_value TermKind.Xor (width t.old a) (width t.old b) (value t.old a v) (value t.old b v)) }
    ensures keeps_widths { (k : ℕ) → k < length t.old → width t.new k ≡ width t.old k }
    ensures keeps_values { (k : ℕ) → k < length t.old → (v : Reading) → value t.new k v ≡ value t.old k v }
    ensures longer { length t.old ≤ length t.new }
    ensures grows { Grows t.old t.new }
    ensures adds { Adds 2 t.old t.new }
{
    let form = xor_form(t, a, b);
    let made = make(t, form)?;
    Ok(made)
}

fn xor_form(t: &Terms, a: TermId, b: TermId) -> Form
    requires first { a < length t.now }
    requires second { b < length t.now }
    requires widths { width t.now a ≡ width t.now b }
    ensures fits { FormFits t.now result }
    ensures width { form_width t.now result ≡ width t.now a }
    ensures value { (v : Reading) → form_value t.now result v ≡ binary_value TermKind.Xor (width t.now a) (width t.now b) (value t.now a v) (value t.now b v) }
{
    let zero_a = is_number(t, a, 0);
    let zero_b = is_number(t, b, 0);
    let ones_a = is_ones(t, a);
    let ones_b = is_ones(t, b);
    let apart = are_complements(t, a, b);
    if a == b {
        number(t.width(a), 0)
    } else if zero_a {
        Form::Old(b)
    } else if zero_b {
        Form::Old(a)
    } else if ones_a {
        undone(t, UnaryKind::Not, b)
    } else if ones_b {
        undone(t, UnaryKind::Not, a)
    } else if apart {
        ones(t.width(a))
    } else {
        commuted(t, TermKind::Xor, a, b)
    }
}
