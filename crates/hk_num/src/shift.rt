//! Shifts. One by the width or more leaves no bit of the number but its sign.
ghost use Rattle.std.specs.Prelude.{◌≡◌, ◌^◌, ◌<◌, ◌≤◌};
ghost use Rattle.hk_num.specs.Numbers.{bvshl, bvlshr, bvashr};

use crate::bits::low;
use crate::signed::{number, reading};

/// `a` shifted to the left by `b` bits, modulo 2^w.
pub fn shl(w: u32, a: u64, b: u64) -> u64
    requires width { 1 ≤ w }
    requires within { w ≤ 64 }
    requires first { a < 2 ^ w }
    requires second { b < 2 ^ w }
    ensures { result ≡ bvshl w a b }
{
    if b < 64 { low(w, a << b) } else { 0 }
}

/// `a` shifted to the right by `b` bits, with zeros behind it.
pub fn lshr(w: u32, a: u64, b: u64) -> u64
    requires width { 1 ≤ w }
    requires within { w ≤ 64 }
    requires first { a < 2 ^ w }
    requires second { b < 2 ^ w }
    ensures { result ≡ bvlshr w a b }
{
    if b < 64 { a >> b } else { 0 }
}

/// `a` shifted to the right by `b` bits, with copies of its sign behind it.
pub fn ashr(w: u32, a: u64, b: u64) -> u64
    requires width { 1 ≤ w }
    requires within { w ≤ 64 }
    requires first { a < 2 ^ w }
    requires second { b < 2 ^ w }
    ensures { result ≡ bvashr w a b }
{
    number(w, reading(w, a) >> b.min(63))
}
