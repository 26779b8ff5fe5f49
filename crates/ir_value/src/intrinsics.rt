//! What the listed intrinsics give.

ghost use Rattle.std.specs.Prelude.{◌≡◌, ◌≤◌, ◌<◌, ◌^◌, true};
ghost use Rattle.ir_value.specs.Numbers as numbers;
ghost use Rattle.ir_value.specs.Intrinsics as definition;

use crate::numbers::{is_least, is_width, takes, truth, unless};
use crate::value::{Made, Value};
use hk_num::{add, add_overflows, mul, mul_overflows, slt, sub, sub_overflows, ult};

/// The operations with overflow.
#[derive(Clone, Copy, Debug, PartialEq, Eq)]
pub enum OverflowKind {
    Add,
    Sub,
    Mul,
}

/// The intrinsics that make one number of two. The second operand of `Abs` is a flag.
#[derive(Clone, Copy, Debug, PartialEq, Eq)]
pub enum PairKind {
    Umin,
    Umax,
    Smin,
    Smax,
    Abs,
    Expect,
}

fn wrapped(kind: OverflowKind, w: u32, a: u64, b: u64) -> u64
    requires width { 1 ≤ w }
    requires within { w ≤ 64 }
    requires first { a < 2 ^ w }
    requires second { b < 2 ^ w }
    ensures { result ≡ definition.wrapped kind w a b }
{
    match kind {
        OverflowKind::Add => add(w, a, b),
        OverflowKind::Sub => sub(w, a, b),
        OverflowKind::Mul => mul(w, a, b),
    }
}

fn overflowed(kind: OverflowKind, signed: bool, w: u32, a: u64, b: u64) -> bool
    requires width { 1 ≤ w }
    requires within { w ≤ 64 }
    requires first { a < 2 ^ w }
    requires second { b < 2 ^ w }
    ensures { result ≡ definition.overflowed kind signed w a b }
{
    match kind {
        OverflowKind::Add => add_overflows(w, signed, a, b),
        OverflowKind::Sub => sub_overflows(w, signed, a, b),
        OverflowKind::Mul => mul_overflows(w, signed, a, b),
    }
}

fn part_of(kind: OverflowKind, signed: bool, w: u32, part: u32, a: u64, b: u64) -> Made
    requires width { 1 ≤ w }
    requires within { w ≤ 64 }
    requires first { a < 2 ^ w }
    requires second { b < 2 ^ w }
    ensures { result ≡ definition.part_of kind signed w part a b }
{
    if part == 0 {
        Made::Gives(Value::Number(wrapped(kind, w, a, b)))
    } else {
        Made::Gives(Value::Number(truth(overflowed(kind, signed, w, a, b))))
    }
}

fn overflow_of(kind: OverflowKind, signed: bool, w: u32, part: u32, a: Value, b: Value) -> Made
    requires width { 1 ≤ w }
    requires within { w ≤ 64 }
    requires first { numbers.takes w a ≡ true }
    requires second { numbers.takes w b ≡ true }
    ensures { result ≡ definition.overflow_of kind signed w part a b }
{
    match (a, b) {
        (Value::Number(a), Value::Number(b)) => part_of(kind, signed, w, part, a, b),
        _ => Made::Gives(Value::Poison),
    }
}

/// A part of what an intrinsic with overflow gives: part 0 is the wrapped number, part 1 the overflow bit. Both are poison where an
/// operand is.
pub fn with_overflow(
    kind: OverflowKind,
    signed: bool,
    w: u32,
    part: u32,
    a: Value,
    b: Value,
) -> Made
    ensures { result ≡ definition.with_overflow kind signed w part a b }
{
    if is_width(w) && takes(w, a) && takes(w, b) {
        overflow_of(kind, signed, w, part, a, b)
    } else {
        Made::Lost
    }
}

fn pick(first: bool, a: u64, b: u64) -> Made
    ensures { result ≡ definition.pick first a b }
{
    Made::Gives(Value::Number(if first { a } else { b }))
}

fn absolute(w: u32, a: u64, strict: bool) -> Made
    requires width { 1 ≤ w }
    requires within { w ≤ 64 }
    requires first { a < 2 ^ w }
    ensures { result ≡ definition.absolute w a strict }
{
    if is_least(w, a) {
        unless(strict, a)
    } else {
        pick(slt(w, a, 0), sub(w, 0, a), a)
    }
}

fn pair_numbers(kind: PairKind, w: u32, a: u64, b: u64) -> Made
    requires width { 1 ≤ w }
    requires within { w ≤ 64 }
    requires first { a < 2 ^ w }
    requires second { b < 2 ^ (definition.second_width kind w) }
    ensures { result ≡ definition.pair_numbers kind w a b }
{
    match kind {
        PairKind::Umin => pick(ult(w, b, a), b, a),
        PairKind::Umax => pick(ult(w, b, a), a, b),
        PairKind::Smin => pick(slt(w, b, a), b, a),
        PairKind::Smax => pick(slt(w, b, a), a, b),
        PairKind::Abs => absolute(w, a, b == 1),
        PairKind::Expect => Made::Gives(Value::Number(a)),
    }
}

fn pair_of(kind: PairKind, w: u32, a: Value, b: Value) -> Made
    requires width { 1 ≤ w }
    requires within { w ≤ 64 }
    requires first { numbers.takes w a ≡ true }
    requires second { numbers.takes (definition.second_width kind w) b ≡ true }
    ensures { result ≡ definition.pair_of kind w a b }
{
    match (a, b) {
        (Value::Number(a), Value::Number(b)) => pair_numbers(kind, w, a, b),
        _ => Made::Gives(Value::Poison),
    }
}

fn second_width(kind: PairKind, w: u32) -> u32
    ensures { result ≡ definition.second_width kind w }
{
    match kind {
        PairKind::Abs => 1,
        _ => w,
    }
}

/// What `llvm.umin`, `llvm.umax`, `llvm.smin`, `llvm.smax`, `llvm.abs` and `llvm.expect` give; a poison operand makes poison.
pub fn pair(kind: PairKind, w: u32, a: Value, b: Value) -> Made
    ensures { result ≡ definition.pair kind w a b }
{
    if is_width(w) && takes(w, a) && takes(second_width(kind, w), b) {
        pair_of(kind, w, a, b)
    } else {
        Made::Lost
    }
}

/// Whether the condition of `llvm.assume` is true; a run is stuck (`U17`) where it is false or poison.
pub fn assumes(condition: Value) -> bool
    ensures { result ≡ definition.assumes condition }
{
    match condition {
        Value::Number(n) => n != 0,
        _ => false,
    }
}
