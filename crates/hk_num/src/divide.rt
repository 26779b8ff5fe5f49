//! Division, with its remainder.
ghost use Rattle.std.specs.Prelude.{◌≡◌, ◌^◌, ◌<◌, ◌≤◌};
ghost use Rattle.hk_num.specs.Numbers.{bvudiv, bvurem, bvsdiv, bvsrem};

use crate::signed::{number, reading};

/// The quotient of two numbers, rounded down.
pub fn udiv(w: u32, a: u64, b: u64) -> u64
    requires width { 1 ≤ w }
    requires within { w ≤ 64 }
    requires first { a < 2 ^ w }
    requires second { b < 2 ^ w }
    requires nonzero { 0 < b }
    ensures { result ≡ bvudiv w a b }
{
    a / b
}

/// The remainder of two numbers.
pub fn urem(w: u32, a: u64, b: u64) -> u64
    requires width { 1 ≤ w }
    requires within { w ≤ 64 }
    requires first { a < 2 ^ w }
    requires second { b < 2 ^ w }
    requires nonzero { 0 < b }
    ensures { result ≡ bvurem w a b }
{
    a % b
}

/// The quotient of the signed readings, rounded towards zero. The least reading by -1 gives itself.
pub fn sdiv(w: u32, a: u64, b: u64) -> u64
    requires width { 1 ≤ w }
    requires within { w ≤ 64 }
    requires first { a < 2 ^ w }
    requires second { b < 2 ^ w }
    requires nonzero { 0 < b }
    ensures { result ≡ bvsdiv w a b }
{
    number(w, reading(w, a).wrapping_div(reading(w, b)))
}

/// The remainder of the signed readings, with the dividend's sign. The least reading by -1 gives 0.
pub fn srem(w: u32, a: u64, b: u64) -> u64
    requires width { 1 ≤ w }
    requires within { w ≤ 64 }
    requires first { a < 2 ^ w }
    requires second { b < 2 ^ w }
    requires nonzero { 0 < b }
    ensures { result ≡ bvsrem w a b }
{
    number(w, reading(w, a).wrapping_rem(reading(w, b)))
}
