//! Operations on two numbers.

ghost use Rattle.std.specs.Prelude.{◌≡◌, ◌≤◌, ◌<◌, ◌^◌, ◌-◌, ◌%◌, ◌&&◌, true};
ghost use Rattle.ir_value.specs.Numbers as definition;

use crate::value::{Made, StuckReason, Value};
use hk_num::{
    add, add_overflows, ashr, lshr, mul, mul_overflows, sdiv, shl, srem, sub, sub_overflows, udiv,
    urem,
};
use ir_ast::{BinaryKind, Flags};

/// Whether a width is one of an integer.
pub(crate) fn is_width(w: u32) -> bool
    ensures { result ≡ definition.is_width w }
{
    1 <= w && w <= 64
}

/// The greatest number of a width.
pub(crate) fn greatest(w: u32) -> u64
    requires width { 1 ≤ w }
    requires within { w ≤ 64 }
    ensures { result ≡ 2 ^ w - 1 }
{
    u64::MAX >> (64 - w)
}

/// The lowest bits of a number.
pub(crate) fn low(w: u32, n: u64) -> u64
    requires width { 1 ≤ w }
    requires within { w ≤ 64 }
    ensures { result ≡ n % 2 ^ w }
{
    n & greatest(w)
}

/// Whether a number is one of the width.
pub(crate) fn is_number(w: u32, n: u64) -> bool
    requires width { 1 ≤ w }
    requires within { w ≤ 64 }
    ensures { result ≡ definition.is_number w n }
{
    n <= greatest(w)
}

/// Whether a value is a number of the width, or poison.
pub(crate) fn takes(w: u32, value: Value) -> bool
    requires width { 1 ≤ w }
    requires within { w ≤ 64 }
    ensures { result ≡ definition.takes w value }
{
    match value {
        Value::Number(n) => is_number(w, n),
        Value::Poison => true,
        Value::Null | Value::Address { .. } => false,
    }
}

/// The number of a truth value.
pub(crate) fn truth(is: bool) -> u64
    ensures { result ≡ definition.truth is }
{
    u64::from(is)
}

/// Poison where the test holds, and else the number.
pub(crate) fn unless(test: bool, n: u64) -> Made
    ensures { result ≡ definition.unless test n }
{
    if test {
        Made::Gives(Value::Poison)
    } else {
        Made::Gives(Value::Number(n))
    }
}

fn loses(w: u32, a: u64, b: u64) -> bool
    requires width { 1 ≤ w }
    requires within { w ≤ 64 }
    requires first { a < 2 ^ w }
    requires second { b < 2 ^ w }
    ensures { result ≡ definition.loses w a b }
{
    lshr(w, shl(w, a, b), b) != a
}

fn loses_sign(w: u32, a: u64, b: u64) -> bool
    requires width { 1 ≤ w }
    requires within { w ≤ 64 }
    requires first { a < 2 ^ w }
    requires second { b < 2 ^ w }
    ensures { result ≡ definition.loses_sign w a b }
{
    ashr(w, shl(w, a, b), b) != a
}

fn loses_right(w: u32, a: u64, b: u64) -> bool
    requires width { 1 ≤ w }
    requires within { w ≤ 64 }
    requires first { a < 2 ^ w }
    requires second { b < 2 ^ w }
    ensures { result ≡ definition.loses_right w a b }
{
    shl(w, lshr(w, a, b), b) != a
}

fn shift(flags: Flags, kind: BinaryKind, w: u32, a: u64, b: u64) -> Made
    requires width { 1 ≤ w }
    requires within { w ≤ 64 }
    requires first { a < 2 ^ w }
    requires second { b < 2 ^ w }
    ensures { result ≡ definition.shift flags kind w a b }
{
    match kind {
        BinaryKind::Shl => unless(
            (flags.nuw && loses(w, a, b)) || (flags.nsw && loses_sign(w, a, b)),
            shl(w, a, b),
        ),
        BinaryKind::Lshr => unless(flags.exact && loses_right(w, a, b), lshr(w, a, b)),
        BinaryKind::Ashr => unless(flags.exact && loses_right(w, a, b), ashr(w, a, b)),
        _ => Made::Lost,
    }
}

fn is_minus_one(w: u32, b: u64) -> bool
    requires width { 1 ≤ w }
    requires within { w ≤ 64 }
    ensures { result ≡ definition.is_minus_one w b }
{
    b == greatest(w)
}

pub(crate) fn is_least(w: u32, a: u64) -> bool
    requires width { 1 ≤ w }
    requires within { w ≤ 64 }
    ensures { result ≡ definition.is_least w a }
{
    a == 1 << (w - 1)
}

fn divide(flags: Flags, kind: BinaryKind, w: u32, a: u64, b: u64) -> Made
    requires width { 1 ≤ w }
    requires within { w ≤ 64 }
    requires first { a < 2 ^ w }
    requires second { b < 2 ^ w }
    requires nonzero { 0 < b }
    ensures { result ≡ definition.divide flags kind w a b }
{
    match kind {
        BinaryKind::Udiv => unless(flags.exact && urem(w, a, b) != 0, udiv(w, a, b)),
        BinaryKind::Urem => Made::Gives(Value::Number(urem(w, a, b))),
        BinaryKind::Sdiv => {
            if is_minus_one(w, b) && is_least(w, a) {
                Made::Sticks(StuckReason::U2)
            } else {
                unless(flags.exact && srem(w, a, b) != 0, sdiv(w, a, b))
            }
        }
        BinaryKind::Srem => {
            if is_minus_one(w, b) && is_least(w, a) {
                Made::Sticks(StuckReason::U2)
            } else {
                Made::Gives(Value::Number(srem(w, a, b)))
            }
        }
        _ => Made::Lost,
    }
}

fn is_shift(kind: BinaryKind) -> bool
    ensures { result ≡ definition.is_shift kind }
{
    match kind {
        BinaryKind::Shl | BinaryKind::Lshr | BinaryKind::Ashr => true,
        _ => false,
    }
}

fn is_division(kind: BinaryKind) -> bool
    ensures { result ≡ definition.is_division kind }
{
    match kind {
        BinaryKind::Udiv | BinaryKind::Sdiv | BinaryKind::Urem | BinaryKind::Srem => true,
        _ => false,
    }
}

fn is_signed_division(kind: BinaryKind) -> bool
    ensures { result ≡ definition.is_signed_division kind }
{
    match kind {
        BinaryKind::Sdiv | BinaryKind::Srem => true,
        _ => false,
    }
}

fn plain(flags: Flags, kind: BinaryKind, w: u32, a: u64, b: u64) -> Made
    requires width { 1 ≤ w }
    requires within { w ≤ 64 }
    requires first { a < 2 ^ w }
    requires second { b < 2 ^ w }
    ensures { result ≡ definition.plain flags kind w a b }
{
    match kind {
        BinaryKind::Add => unless(
            (flags.nuw && add_overflows(w, false, a, b))
                || (flags.nsw && add_overflows(w, true, a, b)),
            add(w, a, b),
        ),
        BinaryKind::Sub => unless(
            (flags.nuw && sub_overflows(w, false, a, b))
                || (flags.nsw && sub_overflows(w, true, a, b)),
            sub(w, a, b),
        ),
        BinaryKind::Mul => unless(
            (flags.nuw && mul_overflows(w, false, a, b))
                || (flags.nsw && mul_overflows(w, true, a, b)),
            mul(w, a, b),
        ),
        BinaryKind::And => Made::Gives(Value::Number(a & b)),
        BinaryKind::Xor => Made::Gives(Value::Number(a ^ b)),
        BinaryKind::Or => unless(flags.disjoint && a & b != 0, a | b),
        _ => Made::Lost,
    }
}

fn of_numbers(flags: Flags, kind: BinaryKind, w: u32, a: u64, b: u64) -> Made
    requires width { 1 ≤ w }
    requires within { w ≤ 64 }
    requires first { a < 2 ^ w }
    requires second { b < 2 ^ w }
    ensures { result ≡ definition.of_numbers flags kind w a b }
{
    if is_division(kind) {
        if b == 0 {
            Made::Sticks(StuckReason::U1)
        } else {
            divide(flags, kind, w, a, b)
        }
    } else if is_shift(kind) {
        if u64::from(w) <= b {
            Made::Gives(Value::Poison)
        } else {
            shift(flags, kind, w, a, b)
        }
    } else {
        plain(flags, kind, w, a, b)
    }
}

fn by_poison(kind: BinaryKind) -> Made
    ensures { result ≡ definition.by_poison kind }
{
    if is_division(kind) {
        Made::Sticks(StuckReason::U1)
    } else {
        Made::Gives(Value::Poison)
    }
}

fn poison_by(kind: BinaryKind, w: u32, b: u64) -> Made
    requires width { 1 ≤ w }
    requires within { w ≤ 64 }
    ensures { result ≡ definition.poison_by kind w b }
{
    if is_division(kind) && b == 0 {
        Made::Sticks(StuckReason::U1)
    } else if is_signed_division(kind) && is_minus_one(w, b) {
        Made::Sticks(StuckReason::U2)
    } else {
        Made::Gives(Value::Poison)
    }
}

fn binary_of(flags: Flags, kind: BinaryKind, w: u32, a: Value, b: Value) -> Made
    requires width { 1 ≤ w }
    requires within { w ≤ 64 }
    requires first { definition.takes w a ≡ true }
    requires second { definition.takes w b ≡ true }
    ensures { result ≡ definition.binary_of flags kind w a b }
{
    match (a, b) {
        (Value::Number(a), Value::Number(b)) => of_numbers(flags, kind, w, a, b),
        (Value::Number(_), Value::Poison) => by_poison(kind),
        (Value::Poison, Value::Number(b)) => poison_by(kind, w, b),
        (Value::Poison, Value::Poison) => by_poison(kind),
        _ => Made::Lost,
    }
}

/// What an operation on two numbers of a width gives.
///
/// Division sticks at a divisor that is 0 or poison (`U1`), and signed division at the divisor -1 with a dividend that is the least
/// number or poison (`U2`). A shift by the width or more is poison, and so is what a flag excludes.
pub fn binary(flags: Flags, kind: BinaryKind, w: u32, a: Value, b: Value) -> Made
    ensures { result ≡ definition.binary flags kind w a b }
{
    if is_width(w) && takes(w, a) && takes(w, b) {
        binary_of(flags, kind, w, a, b)
    } else {
        Made::Lost
    }
}

/// Whether a number is one of a width from 1 to 64.
pub fn is_number_of(w: u32, n: u64) -> bool
    ensures { result ≡ (definition.is_width w && definition.is_number w n) }
{
    is_width(w) && is_number(w, n)
}
