//! The signed reading, order and extension.
ghost use Rattle.std.specs.Prelude.{◌≡◌, ◌^◌, ◌<◌, ◌≤◌};
ghost use Rattle.hk_num.specs.Numbers.{signed_of, number_of, bvult, bvslt, sign_extend};

use crate::bits::low;

// The signed reading of a number.
pub(crate) fn reading(w: u32, a: u64) -> i64
    requires width { 1 ≤ w }
    requires within { w ≤ 64 }
    requires first { a < 2 ^ w }
    ensures { result ≡ signed_of w a }
{
    let unused = 64 - w;
    (a << unused).cast_signed() >> unused
}

// The number of a width with this signed reading, modulo 2^w.
pub(crate) fn number(w: u32, z: i64) -> u64
    requires width { 1 ≤ w }
    requires within { w ≤ 64 }
    ensures { result ≡ number_of w z }
{
    low(w, z.cast_unsigned())
}

/// Whether `a` is less than `b`, as numbers.
pub fn ult(w: u32, a: u64, b: u64) -> bool
    requires width { 1 ≤ w }
    requires within { w ≤ 64 }
    requires first { a < 2 ^ w }
    requires second { b < 2 ^ w }
    ensures { result ≡ bvult w a b }
{
    a < b
}

/// Whether `a` is less than `b`, by their signed readings.
pub fn slt(w: u32, a: u64, b: u64) -> bool
    requires width { 1 ≤ w }
    requires within { w ≤ 64 }
    requires first { a < 2 ^ w }
    requires second { b < 2 ^ w }
    ensures { result ≡ bvslt w a b }
{
    reading(w, a) < reading(w, b)
}

/// The number of width `to` with the signed reading that `a` has at width `from`.
pub fn sext(from: u32, to: u32, a: u64) -> u64
    requires from { 1 ≤ from }
    requires wider { from ≤ to }
    requires within { to ≤ 64 }
    requires number { a < 2 ^ from }
    ensures { result ≡ sign_extend from to a }
{
    number(to, reading(from, a))
}
