//! A choice between two terms by a condition.

ghost use Rattle.std.specs.Prelude.{◌≡◌, ℕ, ◌<◌, ◌≤◌, length, IfOk, if◌then◌else◌, nat_eq};
ghost use Rattle.hk_term.specs.Shape.{width, Grows};
ghost use Rattle.hk_term.specs.Meaning.{Reading, value};
ghost use Rattle.hk_simplify.specs.Adding.{Adds};
ghost use Rattle.hk_simplify.specs.Forms.{FormFits, form_width, form_value};

use crate::bitwise::{and_form, or_form};
use crate::constants::{is_number, sized};
use crate::form::{Form, make};
use crate::plain::{operand, undone};
use hk_term::{Node, TermId, Terms, UnaryKind};
use std::alloc::AllocError;

/// The first of two terms of one width where the condition, a truth value, is true, and else the second.
pub fn choose(t: &mut Terms, condition: TermId, a: TermId, b: TermId) -> Result<TermId, AllocError>
    requires condition { condition < length t.old }
    requires first { a < length t.old }
    requires second { b < length t.old }
    requires truth { width t.old condition ≡ 1 }
    requires widths { width t.old a ≡ width t.old b }
    ensures within { IfOk result (λ r. r < length t.new) }
    ensures width { IfOk result (λ r. width t.new r ≡ width t.old a) }
    ensures value { IfOk result (λ r. (v : Reading) → value t.new r v ≡ (if nat_eq (value t.old condition v) 1 then value t.old a v else value t.old b v)) }
    ensures keeps_widths { (k : ℕ) → k < length t.old → width t.new k ≡ width t.old k }
    ensures keeps_values { (k : ℕ) → k < length t.old → (v : Reading) → value t.new k v ≡ value t.old k v }
    ensures longer { length t.old ≤ length t.new }
    ensures grows { Grows t.old t.new }
    ensures adds { Adds 2 t.old t.new }
{
    let form = choose_form(t, condition, a, b);
    let made = make(t, form)?;
    Ok(made)
}

fn choose_form(t: &Terms, condition: TermId, a: TermId, b: TermId) -> Form
    requires condition { condition < length t.now }
    requires first { a < length t.now }
    requires second { b < length t.now }
    requires truth { width t.now condition ≡ 1 }
    requires widths { width t.now a ≡ width t.now b }
    ensures fits { FormFits t.now result }
    ensures width { form_width t.now result ≡ width t.now a }
    ensures value { (v : Reading) → form_value t.now result v ≡ (if nat_eq (value t.now condition v) 1 then value t.now a v else value t.now b v) }
{
    let always = is_number(t, condition, 1);
    let never = is_number(t, condition, 0);
    if a == b {
        Form::Old(a)
    } else if always {
        Form::Old(a)
    } else if never {
        Form::Old(b)
    } else {
        match operand(t, UnaryKind::Not, condition) {
            Some(x) => chosen(t, x, b, a),
            None => chosen(t, condition, a, b),
        }
    }
}

// A choice by a condition that is no constant: of true and false it is the condition, and of false and true its negation.
fn chosen(t: &Terms, condition: TermId, a: TermId, b: TermId) -> Form
    requires condition { condition < length t.now }
    requires first { a < length t.now }
    requires second { b < length t.now }
    requires truth { width t.now condition ≡ 1 }
    requires widths { width t.now a ≡ width t.now b }
    ensures fits { FormFits t.now result }
    ensures width { form_width t.now result ≡ width t.now a }
    ensures value { (v : Reading) → form_value t.now result v ≡ (if nat_eq (value t.now condition v) 1 then value t.now a v else value t.now b v) }
{
    let one_a = is_number(t, a, 1);
    let one_b = is_number(t, b, 1);
    let zero_a = is_number(t, a, 0);
    let zero_b = is_number(t, b, 0);
    let w = t.width(a);
    // For the proof: the condition's number is below 2 to its width.
    let _condition = sized(t, condition);
    if w == 1 && one_a && zero_b {
        Form::Old(condition)
    } else if w == 1 && zero_a && one_b {
        undone(t, UnaryKind::Not, condition)
    } else if w == 1 && one_a {
        or_form(t, condition, b)
    } else if w == 1 && zero_b {
        and_form(t, condition, a)
    } else {
        Form::New(Node::Choose { condition, a, b })
    }
}
