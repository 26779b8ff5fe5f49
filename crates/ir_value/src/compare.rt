//! Comparisons of numbers.

ghost use Rattle.std.specs.Prelude.{◌≡◌, ◌≤◌, ◌<◌, ◌^◌, true};
ghost use Rattle.ir_value.specs.Numbers as definition;

use crate::numbers::{is_number, is_width, takes, truth, unless};
use crate::value::{Made, Value};
use hk_num::{slt, sub, ult};
use ir_ast::Predicate;

/// Whether a comparison holds of two numbers of a width.
pub(crate) fn holds(predicate: Predicate, w: u32, a: u64, b: u64) -> bool
    requires width { 1 ≤ w }
    requires within { w ≤ 64 }
    requires first { a < 2 ^ w }
    requires second { b < 2 ^ w }
    ensures { result ≡ definition.holds predicate w a b }
{
    match predicate {
        Predicate::Eq => a == b,
        Predicate::Ne => a != b,
        Predicate::Ugt => ult(w, b, a),
        Predicate::Uge => !ult(w, a, b),
        Predicate::Ult => ult(w, a, b),
        Predicate::Ule => !ult(w, b, a),
        Predicate::Sgt => slt(w, b, a),
        Predicate::Sge => !slt(w, a, b),
        Predicate::Slt => slt(w, a, b),
        Predicate::Sle => !slt(w, b, a),
    }
}

/// Whether one of two numbers of a width is negative.
fn signs_differ(w: u32, a: u64, b: u64) -> bool
    requires width { 1 ≤ w }
    requires within { w ≤ 64 }
    requires first { a < 2 ^ w }
    requires second { b < 2 ^ w }
    ensures { result ≡ definition.signs_differ w a b }
{
    if slt(w, a, 0) {
        !slt(w, b, 0)
    } else {
        slt(w, b, 0)
    }
}

fn compare_of(samesign: bool, predicate: Predicate, w: u32, a: Value, b: Value) -> Made
    requires width { 1 ≤ w }
    requires within { w ≤ 64 }
    requires first { definition.takes w a ≡ true }
    requires second { definition.takes w b ≡ true }
    ensures { result ≡ definition.compare_of samesign predicate w a b }
{
    match (a, b) {
        (Value::Number(a), Value::Number(b)) => {
            unless(
                samesign && signs_differ(w, a, b),
                truth(holds(predicate, w, a, b)),
            )
        }
        (Value::Number(_), Value::Poison) => Made::Gives(Value::Poison),
        (Value::Poison, Value::Number(_)) => Made::Gives(Value::Poison),
        (Value::Poison, Value::Poison) => Made::Gives(Value::Poison),
        _ => Made::Lost,
    }
}

/// Compares two numbers of a width. It gives a number of width 1. With `samesign` it is poison where the signs differ.
pub fn compare_numbers(samesign: bool, predicate: Predicate, w: u32, a: Value, b: Value) -> Made
    ensures { result ≡ definition.compare_numbers samesign predicate w a b }
{
    if is_width(w) && takes(w, a) && takes(w, b) {
        compare_of(samesign, predicate, w, a, b)
    } else {
        Made::Lost
    }
}

/// Whether a number of a width lies from a low one up to but not including a high one, modulo 2 to the power of the width. No number
/// lies between equal ones.
pub fn is_between(w: u32, low: u64, high: u64, n: u64) -> bool
    ensures { result ≡ definition.is_between w low high n }
{
    is_width(w)
        && is_number(w, low)
        && is_number(w, high)
        && is_number(w, n)
        && sub(w, n, low) < sub(w, high, low)
}
