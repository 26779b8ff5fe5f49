//! Sums, differences, products and quotients.

ghost use Rattle.std.specs.Prelude.{◌≡◌, ℕ, ◌-◌, ◌^◌, ◌<◌, ◌≤◌, length, IfOk, IfSome};
ghost use Rattle.hk_term.specs.Operations.{unary_value, binary_value};
ghost use Rattle.hk_term.specs.Shape.{IsWidth, width, Grows};
ghost use Rattle.hk_term.specs.Meaning.{Reading, value};
ghost use Rattle.hk_simplify.specs.Adding.{Adds};
ghost use Rattle.hk_simplify.specs.Forms.{FormFits, form_width, form_value};

use crate::constants::{constant, is_number, number, sized};
use crate::form::{Form, make};
use crate::plain::{binary, binary_number, commuted, undone};
use crate::sums::{distance, minus, plus, rest_of};
use hk_term::{TermId, TermKind, Terms, UnaryKind};
use std::alloc::AllocError;

/// The two's complement of a term.
pub fn neg(t: &mut Terms, a: TermId) -> Result<TermId, AllocError>
    requires { a < length t.old }
    ensures within { IfOk result (λ r. r < length t.new) }
    ensures width { IfOk result (λ r. width t.new r ≡ width t.old a) }
    ensures value { IfOk result (λ r. (v : Reading) → value t.new r v ≡ unary_value UnaryKind.Neg (width t.old a) (value t.old a v)) }
    ensures keeps_widths { (k : ℕ) → k < length t.old → width t.new k ≡ width t.old k }
    ensures keeps_values { (k : ℕ) → k < length t.old → (v : Reading) → value t.new k v ≡ value t.old k v }
    ensures longer { length t.old ≤ length t.new }
    ensures grows { Grows t.old t.new }
    ensures adds { Adds 2 t.old t.new }
{
    let form = undone(t, UnaryKind::Neg, a);
    let made = make(t, form)?;
    Ok(made)
}

/// The sum of two terms of one width, modulo 2 to the width.
pub fn add(t: &mut Terms, a: TermId, b: TermId) -> Result<TermId, AllocError>
    requires first { a < length t.old }
    requires second { b < length t.old }
    requires widths { width t.old a ≡ width t.old b }
    ensures within { IfOk result (λ r. r < length t.new) }
    ensures width { IfOk result (λ r. width t.new r ≡ width t.old a) }
    ensures value { IfOk result (λ r. (v : Reading) → value t.new r v ≡ binary_value TermKind.Add (width t.old a) (width t.old b) (value t.old a v) (value t.old b v)) }
    ensures keeps_widths { (k : ℕ) → k < length t.old → width t.new k ≡ width t.old k }
    ensures keeps_values { (k : ℕ) → k < length t.old → (v : Reading) → value t.new k v ≡ value t.old k v }
    ensures longer { length t.old ≤ length t.new }
    ensures grows { Grows t.old t.new }
    ensures adds { Adds 2 t.old t.new }
{
    let form = add_form(t, a, b);
    let made = make(t, form)?;
    Ok(made)
}

fn add_form(t: &Terms, a: TermId, b: TermId) -> Form
    requires first { a < length t.now }
    requires second { b < length t.now }
    requires widths { width t.now a ≡ width t.now b }
    ensures fits { FormFits t.now result }
    ensures width { form_width t.now result ≡ width t.now a }
    ensures value { (v : Reading) → form_value t.now result v ≡ binary_value TermKind.Add (width t.now a) (width t.now b) (value t.now a v) (value t.now b v) }
{
    match (constant(t, a), constant(t, b)) {
        (_, Some(n)) => plus(t, a, n),
        (Some(n), None) => plus(t, b, n),
        _ => commuted(t, TermKind::Add, a, b),
    }
}

/// The difference of two terms of one width, modulo 2 to the width.
pub fn sub(t: &mut Terms, a: TermId, b: TermId) -> Result<TermId, AllocError>
    requires first { a < length t.old }
    requires second { b < length t.old }
    requires widths { width t.old a ≡ width t.old b }
    ensures within { IfOk result (λ r. r < length t.new) }
    ensures width { IfOk result (λ r. width t.new r ≡ width t.old a) }
    ensures value { IfOk result (λ r. (v : Reading) → value t.new r v ≡ binary_value TermKind.Sub (width t.old a) (width t.old b) (value t.old a v) (value t.old b v)) }
    ensures keeps_widths { (k : ℕ) → k < length t.old → width t.new k ≡ width t.old k }
    ensures keeps_values { (k : ℕ) → k < length t.old → (v : Reading) → value t.new k v ≡ value t.old k v }
    ensures longer { length t.old ≤ length t.new }
    ensures grows { Grows t.old t.new }
    ensures adds { Adds 2 t.old t.new }
{
    let form = sub_form(t, a, b);
    let made = make(t, form)?;
    Ok(made)
}

fn sub_form(t: &Terms, a: TermId, b: TermId) -> Form
    requires first { a < length t.now }
    requires second { b < length t.now }
    requires widths { width t.now a ≡ width t.now b }
    ensures fits { FormFits t.now result }
    ensures width { form_width t.now result ≡ width t.now a }
    ensures value { (v : Reading) → form_value t.now result v ≡ binary_value TermKind.Sub (width t.now a) (width t.now b) (value t.now a v) (value t.now b v) }
{
    match (constant(t, b), distance(t, a, b)) {
        (Some(n), _) => minus(t, a, n),
        (None, Some(form)) => form,
        _ => sub_of(t, a, b),
    }
}

// The difference of two terms that are no sums of one term with constants.
fn sub_of(t: &Terms, a: TermId, b: TermId) -> Form
    requires first { a < length t.now }
    requires second { b < length t.now }
    requires widths { width t.now a ≡ width t.now b }
    ensures fits { FormFits t.now result }
    ensures width { form_width t.now result ≡ width t.now a }
    ensures value { (v : Reading) → form_value t.now result v ≡ binary_value TermKind.Sub (width t.now a) (width t.now b) (value t.now a v) (value t.now b v) }
{
    let zero_a = is_number(t, a, 0);
    if zero_a {
        undone(t, UnaryKind::Neg, b)
    } else {
        match rest_of(t, a, b) {
            Some(x) => Form::Old(x),
            None => binary(t, TermKind::Sub, a, b),
        }
    }
}

/// The product of two terms of one width, modulo 2 to the width.
pub fn mul(t: &mut Terms, a: TermId, b: TermId) -> Result<TermId, AllocError>
    requires first { a < length t.old }
    requires second { b < length t.old }
    requires widths { width t.old a ≡ width t.old b }
    ensures within { IfOk result (λ r. r < length t.new) }
    ensures width { IfOk result (λ r. width t.new r ≡ width t.old a) }
    ensures value { IfOk result (λ r. (v : Reading) → value t.new r v ≡ binary_value TermKind.Mul (width t.old a) (width t.old b) (value t.old a v) (value t.old b v)) }
    ensures keeps_widths { (k : ℕ) → k < length t.old → width t.new k ≡ width t.old k }
    ensures keeps_values { (k : ℕ) → k < length t.old → (v : Reading) → value t.new k v ≡ value t.old k v }
    ensures longer { length t.old ≤ length t.new }
    ensures grows { Grows t.old t.new }
    ensures adds { Adds 2 t.old t.new }
{
    let form = mul_form(t, a, b);
    let made = make(t, form)?;
    Ok(made)
}

fn mul_form(t: &Terms, a: TermId, b: TermId) -> Form
    requires first { a < length t.now }
    requires second { b < length t.now }
    requires widths { width t.now a ≡ width t.now b }
    ensures fits { FormFits t.now result }
    ensures width { form_width t.now result ≡ width t.now a }
    ensures value { (v : Reading) → form_value t.now result v ≡ binary_value TermKind.Mul (width t.now a) (width t.now b) (value t.now a v) (value t.now b v) }
{
    let zero_a = is_number(t, a, 0);
    let zero_b = is_number(t, b, 0);
    let one_a = is_number(t, a, 1);
    let one_b = is_number(t, b, 1);
    if zero_a {
        Form::Old(a)
    } else if zero_b {
        Form::Old(b)
    } else if one_a {
        Form::Old(b)
    } else if one_b {
        Form::Old(a)
    } else {
        commuted(t, TermKind::Mul, a, b)
    }
}

/// The quotient of two terms of one width, rounded down. Division by 0 gives all ones.
pub fn udiv(t: &mut Terms, a: TermId, b: TermId) -> Result<TermId, AllocError>
    requires first { a < length t.old }
    requires second { b < length t.old }
    requires widths { width t.old a ≡ width t.old b }
    ensures within { IfOk result (λ r. r < length t.new) }
    ensures width { IfOk result (λ r. width t.new r ≡ width t.old a) }
    ensures value { IfOk result (λ r. (v : Reading) → value t.new r v ≡ binary_value TermKind.Udiv (width t.old a) (width t.old b) (value t.old a v) (value t.old b v)) }
    ensures keeps_widths { (k : ℕ) → k < length t.old → width t.new k ≡ width t.old k }
    ensures keeps_values { (k : ℕ) → k < length t.old → (v : Reading) → value t.new k v ≡ value t.old k v }
    ensures longer { length t.old ≤ length t.new }
    ensures grows { Grows t.old t.new }
    ensures adds { Adds 2 t.old t.new }
{
    let form = udiv_form(t, a, b);
    let made = make(t, form)?;
    Ok(made)
}

fn udiv_form(t: &Terms, a: TermId, b: TermId) -> Form
    requires first { a < length t.now }
    requires second { b < length t.now }
    requires widths { width t.now a ≡ width t.now b }
    ensures fits { FormFits t.now result }
    ensures width { form_width t.now result ≡ width t.now a }
    ensures value { (v : Reading) → form_value t.now result v ≡ binary_value TermKind.Udiv (width t.now a) (width t.now b) (value t.now a v) (value t.now b v) }
{
    let one_b = is_number(t, b, 1);
    if one_b {
        return Form::Old(a);
    }
    match power_of(t, b) {
        Some(k) => binary_number(t, TermKind::Lshr, a, k),
        None => binary(t, TermKind::Udiv, a, b),
    }
}

/// The remainder of two terms of one width. Division by 0 gives the dividend.
pub fn urem(t: &mut Terms, a: TermId, b: TermId) -> Result<TermId, AllocError>
    requires first { a < length t.old }
    requires second { b < length t.old }
    requires widths { width t.old a ≡ width t.old b }
    ensures within { IfOk result (λ r. r < length t.new) }
    ensures width { IfOk result (λ r. width t.new r ≡ width t.old a) }
    ensures value { IfOk result (λ r. (v : Reading) → value t.new r v ≡ binary_value TermKind.Urem (width t.old a) (width t.old b) (value t.old a v) (value t.old b v)) }
    ensures keeps_widths { (k : ℕ) → k < length t.old → width t.new k ≡ width t.old k }
    ensures keeps_values { (k : ℕ) → k < length t.old → (v : Reading) → value t.new k v ≡ value t.old k v }
    ensures longer { length t.old ≤ length t.new }
    ensures grows { Grows t.old t.new }
    ensures adds { Adds 2 t.old t.new }
{
    let form = urem_form(t, a, b);
    let made = make(t, form)?;
    Ok(made)
}

fn urem_form(t: &Terms, a: TermId, b: TermId) -> Form
    requires first { a < length t.now }
    requires second { b < length t.now }
    requires widths { width t.now a ≡ width t.now b }
    ensures fits { FormFits t.now result }
    ensures width { form_width t.now result ≡ width t.now a }
    ensures value { (v : Reading) → form_value t.now result v ≡ binary_value TermKind.Urem (width t.now a) (width t.now b) (value t.now a v) (value t.now b v) }
{
    let one_b = is_number(t, b, 1);
    if one_b {
        return number(t.width(a), 0);
    }
    match power_of(t, b) {
        Some(k) => binary_number(t, TermKind::And, a, ones_below(k)),
        None => binary(t, TermKind::Urem, a, b),
    }
}

// The power of two that a constant is.
fn power_of(t: &Terms, a: TermId) -> Option<u64>
    requires { a < length t.now }
    ensures known { IfSome result (λ k. (v : Reading) → value t.now a v ≡ 2 ^ k) }
    ensures within { IfSome result (λ k. k < width t.now a) }
    ensures number { IfSome result (λ k. k < 2 ^ width t.now a) }
    ensures power { IfSome result (λ k. 2 ^ k < 2 ^ width t.now a) }
    ensures is_width { IsWidth (width t.now a) }
{
    let w = sized(t, a);
    let n = constant(t, a)?;
    let k = logarithm(n)?;
    if k < w { Some(u64::from(k)) } else { None }
}

// The number of so many ones.
fn ones_below(k: u64) -> u64
    requires { k < 64 }
    ensures { result ≡ 2 ^ k - 1 }
{
    (1 << k) - 1
}

// The power of two that a number is.
fn logarithm(n: u64) -> Option<u32>
    ensures { IfSome result (λ k. (k < 64) × (n ≡ 2 ^ k)) }
{
    if n == 0 {
        return None;
    }
    let k = n.ilog2();
    if n == 1 << k { Some(k) } else { None }
}

/// The quotient of the signed readings of two terms of one width, rounded towards zero. Division by 0 gives all ones of a
/// dividend from 0 on, and 1 of a negative one.
pub fn sdiv(t: &mut Terms, a: TermId, b: TermId) -> Result<TermId, AllocError>
    requires first { a < length t.old }
    requires second { b < length t.old }
    requires widths { width t.old a ≡ width t.old b }
    ensures within { IfOk result (λ r. r < length t.new) }
    ensures width { IfOk result (λ r. width t.new r ≡ width t.old a) }
    ensures value { IfOk result (λ r. (v : Reading) → value t.new r v ≡ binary_value TermKind.Sdiv (width t.old a) (width t.old b) (value t.old a v) (value t.old b v)) }
    ensures keeps_widths { (k : ℕ) → k < length t.old → width t.new k ≡ width t.old k }
    ensures keeps_values { (k : ℕ) → k < length t.old → (v : Reading) → value t.new k v ≡ value t.old k v }
    ensures longer { length t.old ≤ length t.new }
    ensures grows { Grows t.old t.new }
    ensures adds { Adds 2 t.old t.new }
{
    let form = binary(t, TermKind::Sdiv, a, b);
    let made = make(t, form)?;
    Ok(made)
}

/// The remainder of the signed readings of two terms of one width, with the dividend's sign. Division by 0 gives the dividend.
pub fn srem(t: &mut Terms, a: TermId, b: TermId) -> Result<TermId, AllocError>
    requires first { a < length t.old }
    requires second { b < length t.old }
    requires widths { width t.old a ≡ width t.old b }
    ensures within { IfOk result (λ r. r < length t.new) }
    ensures width { IfOk result (λ r. width t.new r ≡ width t.old a) }
    ensures value { IfOk result (λ r. (v : Reading) → value t.new r v ≡ binary_value TermKind.Srem (width t.old a) (width t.old b) (value t.old a v) (value t.old b v)) }
    ensures keeps_widths { (k : ℕ) → k < length t.old → width t.new k ≡ width t.old k }
    ensures keeps_values { (k : ℕ) → k < length t.old → (v : Reading) → value t.new k v ≡ value t.old k v }
    ensures longer { length t.old ≤ length t.new }
    ensures grows { Grows t.old t.new }
    ensures adds { Adds 2 t.old t.new }
{
    let form = binary(t, TermKind::Srem, a, b);
    let made = make(t, form)?;
    Ok(made)
}
