//! Addition, subtraction and multiplication modulo 2^w.
ghost use Rattle.std.specs.Prelude.{◌≡◌, ◌^◌, ◌<◌, ◌≤◌};
ghost use Rattle.hk_num.specs.Numbers.{bvadd, bvsub, bvmul};

use crate::bits::low;

/// The sum of two numbers of width `w`, modulo 2^w.
pub fn add(w: u32, a: u64, b: u64) -> u64
    requires width { 1 ≤ w }
    requires within { w ≤ 64 }
    requires first { a < 2 ^ w }
    requires second { b < 2 ^ w }
    ensures { result ≡ bvadd w a b }
{
    low(w, a.wrapping_add(b))
}

/// The difference of two numbers of width `w`, modulo 2^w.
pub fn sub(w: u32, a: u64, b: u64) -> u64
    requires width { 1 ≤ w }
    requires within { w ≤ 64 }
    requires first { a < 2 ^ w }
    requires second { b < 2 ^ w }
    ensures { result ≡ bvsub w a b }
{
    low(w, a.wrapping_sub(b))
}

/// The product of two numbers of width `w`, modulo 2^w.
pub fn mul(w: u32, a: u64, b: u64) -> u64
    requires width { 1 ≤ w }
    requires within { w ≤ 64 }
    requires first { a < 2 ^ w }
    requires second { b < 2 ^ w }
    ensures { result ≡ bvmul w a b }
{
    low(w, a.wrapping_mul(b))
}
