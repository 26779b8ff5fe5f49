//! What is added to an address.

ghost use Rattle.std.specs.Prelude.{◌≡◌, ◌≤◌, ◌<◌, ◌^◌, ◌-◌, ◌&&◌, pos, int_le, true};
ghost use Rattle.ir_value.specs.Numbers as numbers;
ghost use Rattle.ir_value.specs.Pointers as definition;
ghost use Rattle.hk_num.specs.Numbers.{number_of, signed_of};

use crate::numbers::{is_number, is_width};
use crate::value::Value;
use hk_num::slt;

/// A whole number modulo 2^64.
fn wrapped(z: i128) -> u64
    ensures { result ≡ number_of 64 z }
{
    (z.cast_unsigned() & 0xffff_ffff_ffff_ffff) as u64
}

/// Whether a whole number is from 0 to a size.
fn is_within(size: u64, z: i128) -> bool
    ensures { result ≡ definition.is_within size z }
{
    0 <= z && z <= i128::from(size)
}

fn moved_within(size: u64, object: u32, z: i128) -> Value
    ensures { result ≡ definition.moved_within size object z }
{
    if is_within(size, z) {
        Value::Address {
            object,
            offset: wrapped(z),
        }
    } else {
        Value::Poison
    }
}

fn is_no_move(inbounds: bool, z: i128) -> bool
    ensures { result ≡ definition.is_no_move inbounds z }
{
    if inbounds {
        0 <= z && z <= 0
    } else {
        wrapped(z) == 0
    }
}

/// The address that so many bytes are added to.
fn move_by(inbounds: bool, size: u64, z: i128, value: Value) -> Value
    requires { int_le z (pos (2 ^ 127 - 2 ^ 64)) ≡ true }
    ensures { result ≡ definition.move_by inbounds size z value }
{
    match value {
        Value::Address { object, offset } => {
            let moved = i128::from(offset) + z;
            if inbounds {
                moved_within(size, object, moved)
            } else {
                Value::Address {
                    object,
                    offset: wrapped(moved),
                }
            }
        }
        Value::Null => {
            if is_no_move(inbounds, z) {
                Value::Null
            } else {
                Value::Poison
            }
        }
        Value::Poison | Value::Number(_) => Value::Poison,
    }
}

/// The base of a `getelementptr`; size is that of its object. With `inbounds` it is poison where it lies outside its object.
pub fn begin(inbounds: bool, size: u64, base: Value) -> Value
    ensures { result ≡ definition.begin_at inbounds size base }
{
    move_by(inbounds, size, 0, base)
}

/// The signed reading of a number.
fn reading(w: u32, n: u64) -> i64
    requires width { 1 ≤ w }
    requires within { w ≤ 64 }
    requires first { n < 2 ^ w }
    ensures { result ≡ signed_of w n }
{
    let unused = 64 - w;
    (n << unused).cast_signed() >> unused
}

/// The bytes that an index steps over: the index is a signed number of width `w`, and steps over values of this many bytes.
fn added_by(w: u32, n: u64, each: u64) -> i128
    requires width { 1 ≤ w }
    requires within { w ≤ 64 }
    requires number { n < 2 ^ w }
    ensures added { result ≡ definition.added_by w n each }
    ensures small { int_le result (pos (2 ^ 127 - 2 ^ 64)) ≡ true }
{
    i128::from(reading(w, n)) * i128::from(each)
}

/// The address that a signed index steps to; size is that of the address's object. A poison index makes poison.
fn signed_step(inbounds: bool, size: u64, w: u32, each: u64, index: Value, value: Value) -> Value
    ensures { result ≡ definition.signed_step inbounds size w each index value }
{
    match index {
        Value::Number(n) => {
            if is_width(w) && is_number(w, n) {
                move_by(inbounds, size, added_by(w, n, each), value)
            } else {
                Value::Poison
            }
        }
        _ => Value::Poison,
    }
}

/// Whether an index steps back: it is a negative number of the width, and steps over values that have a size.
fn steps_back(w: u32, each: u64, index: Value) -> bool
    ensures { result ≡ definition.steps_back w each index }
{
    match index {
        Value::Number(n) => is_width(w) && is_number(w, n) && each != 0 && slt(w, n, 0),
        _ => false,
    }
}

/// Whether a step back counts: with both flags.
fn goes_back(inbounds: bool, nuw: bool, back: bool) -> bool
    ensures { result ≡ ((inbounds && nuw) && back) }
{
    inbounds && nuw && back
}

/// The address that an index steps to; size is that of the address's object. A poison index makes poison. With `inbounds nuw` the bytes
/// that it steps over, read unsigned, and their sum with the offset are below 2^64, or it is poison; within an object that is so just
/// where no index steps back.
#[tactic(auto, using(crate::proofs::Unsigned::by_sign))]
pub fn step(
    inbounds: bool,
    nuw: bool,
    size: u64,
    w: u32,
    each: u64,
    index: Value,
    value: Value,
) -> Value
    ensures { result ≡ definition.step_of inbounds nuw size w each index value }
{
    let back = goes_back(inbounds, nuw, steps_back(w, each, index));
    let stepped = signed_step(inbounds, size, w, each, index, value);
    if back { Value::Poison } else { stepped }
}
