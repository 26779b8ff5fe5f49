//! Shifts. The second term tells by how many bits.

ghost use Rattle.std.specs.Prelude.{◌≡◌, ℕ, ◌-◌, ◌<◌, ◌≤◌, length, IfOk};
ghost use Rattle.hk_term.specs.Operations.{unary_value, binary_value};
ghost use Rattle.hk_term.specs.Shape.{width, Grows};
ghost use Rattle.hk_term.specs.Meaning.{Reading, value};
ghost use Rattle.hk_simplify.specs.Adding.{Adds};
ghost use Rattle.hk_simplify.specs.Forms.{FormFits, form_width, form_value};

use crate::constants::{is_at_least, is_number, number, sized};
use crate::form::{Form, make};
use crate::plain::{binary, binary_number};
use hk_term::{TermId, TermKind, Terms};
use std::alloc::AllocError;

/// A term shifted to the left by the number of bits that another term of its width tells, with zeros behind it.
pub fn shl(t: &mut Terms, a: TermId, b: TermId) -> Result<TermId, AllocError>
    requires first { a < length t.old }
    requires second { b < length t.old }
    requires widths { width t.old a ≡ width t.old b }
    ensures within { IfOk result (λ r. r < length t.new) }
    ensures width { IfOk result (λ r. width t.new r ≡ width t.old a) }
    ensures value { IfOk result (λ r. (v : Reading) → value t.new r v ≡ binary_value TermKind.Shl (width t.old a) (width t.old b) (value t.old a v) (value t.old b v)) }
    ensures keeps_widths { (k : ℕ) → k < length t.old → width t.new k ≡ width t.old k }
    ensures keeps_values { (k : ℕ) → k < length t.old → (v : Reading) → value t.new k v ≡ value t.old k v }
    ensures longer { length t.old ≤ length t.new }
    ensures grows { Grows t.old t.new }
    ensures adds { Adds 2 t.old t.new }
{
    let form = shl_form(t, a, b);
    let made = make(t, form)?;
    Ok(made)
}

fn shl_form(t: &Terms, a: TermId, b: TermId) -> Form
    requires first { a < length t.now }
    requires second { b < length t.now }
    requires widths { width t.now a ≡ width t.now b }
    ensures fits { FormFits t.now result }
    ensures width { form_width t.now result ≡ width t.now a }
    ensures value { (v : Reading) → form_value t.now result v ≡ binary_value TermKind.Shl (width t.now a) (width t.now b) (value t.now a v) (value t.now b v) }
{
    let zero_a = is_number(t, a, 0);
    let zero_b = is_number(t, b, 0);
    let w = t.width(a);
    let beyond = is_at_least(t, b, w);
    if zero_a {
        Form::Old(a)
    } else if zero_b {
        Form::Old(a)
    } else if beyond {
        number(w, 0)
    } else {
        binary(t, TermKind::Shl, a, b)
    }
}

/// A term shifted to the right by the number of bits that another term of its width tells, with zeros before it.
pub fn lshr(t: &mut Terms, a: TermId, b: TermId) -> Result<TermId, AllocError>
    requires first { a < length t.old }
    requires second { b < length t.old }
    requires widths { width t.old a ≡ width t.old b }
    ensures within { IfOk result (λ r. r < length t.new) }
    ensures width { IfOk result (λ r. width t.new r ≡ width t.old a) }
    ensures value { IfOk result (λ r. (v : Reading) → value t.new r v ≡ binary_value TermKind.Lshr (width t.old a) (width t.old b) (value t.old a v) (value t.old b v)) }
    ensures keeps_widths { (k : ℕ) → k < length t.old → width t.new k ≡ width t.old k }
    ensures keeps_values { (k : ℕ) → k < length t.old → (v : Reading) → value t.new k v ≡ value t.old k v }
    ensures longer { length t.old ≤ length t.new }
    ensures grows { Grows t.old t.new }
    ensures adds { Adds 2 t.old t.new }
{
    let form = lshr_form(t, a, b);
    let made = make(t, form)?;
    Ok(made)
}

fn lshr_form(t: &Terms, a: TermId, b: TermId) -> Form
    requires first { a < length t.now }
    requires second { b < length t.now }
    requires widths { width t.now a ≡ width t.now b }
    ensures fits { FormFits t.now result }
    ensures width { form_width t.now result ≡ width t.now a }
    ensures value { (v : Reading) → form_value t.now result v ≡ binary_value TermKind.Lshr (width t.now a) (width t.now b) (value t.now a v) (value t.now b v) }
{
    let zero_a = is_number(t, a, 0);
    let zero_b = is_number(t, b, 0);
    let w = t.width(a);
    let beyond = is_at_least(t, b, w);
    if zero_a {
        Form::Old(a)
    } else if zero_b {
        Form::Old(a)
    } else if beyond {
        number(w, 0)
    } else {
        binary(t, TermKind::Lshr, a, b)
    }
}

/// A term shifted to the right by the number of bits that another term of its width tells, with copies of its sign before it.
pub fn ashr(t: &mut Terms, a: TermId, b: TermId) -> Result<TermId, AllocError>
    requires first { a < length t.old }
    requires second { b < length t.old }
    requires widths { width t.old a ≡ width t.old b }
    ensures within { IfOk result (λ r. r < length t.new) }
    ensures width { IfOk result (λ r. width t.new r ≡ width t.old a) }
    ensures value { IfOk result (λ r. (v : Reading) → value t.new r v ≡ binary_value TermKind.Ashr (width t.old a) (width t.old b) (value t.old a v) (value t.old b v)) }
    ensures keeps_widths { (k : ℕ) → k < length t.old → width t.new k ≡ width t.old k }
    ensures keeps_values { (k : ℕ) → k < length t.old → (v : Reading) → value t.new k v ≡ value t.old k v }
    ensures longer { length t.old ≤ length t.new }
    ensures grows { Grows t.old t.new }
    ensures adds { Adds 2 t.old t.new }
{
    let form = ashr_form(t, a, b);
    let made = make(t, form)?;
    Ok(made)
}

fn ashr_form(t: &Terms, a: TermId, b: TermId) -> Form
    requires first { a < length t.now }
    requires second { b < length t.now }
    requires widths { width t.now a ≡ width t.now b }
    ensures fits { FormFits t.now result }
    ensures width { form_width t.now result ≡ width t.now a }
    ensures value { (v : Reading) → form_value t.now result v ≡ binary_value TermKind.Ashr (width t.now a) (width t.now b) (value t.now a v) (value t.now b v) }
{
    let zero_a = is_number(t, a, 0);
    let zero_b = is_number(t, b, 0);
    let w = sized(t, a);
    let beyond = is_at_least(t, b, w);
    if zero_a {
        Form::Old(a)
    } else if zero_b {
        Form::Old(a)
    } else if beyond {
        signs(t, a)
    } else {
        binary(t, TermKind::Ashr, a, b)
    }
}

// Copies of a term's sign: the term shifted to the right by all bits but one.
fn signs(t: &Terms, a: TermId) -> Form
    requires { a < length t.now }
    ensures fits { FormFits t.now result }
    ensures width { form_width t.now result ≡ width t.now a }
    ensures value { (v : Reading) → form_value t.now result v ≡ binary_value TermKind.Ashr (width t.now a) (width t.now a) (value t.now a v) (width t.now a - 1) }
{
    let w = sized(t, a);
    if w == 1 {
        Form::Old(a)
    } else {
        binary_number(t, TermKind::Ashr, a, u64::from(w - 1))
    }
}
