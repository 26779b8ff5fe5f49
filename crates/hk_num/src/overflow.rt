//! Whether a width can hold a sum, a difference or a product.
ghost use Rattle.std.specs.Prelude.{◌≡◌, ◌^◌, ◌<◌, ◌≤◌, not, if◌then◌else◌};
ghost use Rattle.hk_num.specs.Numbers.{fits_signed, bvuaddo, bvsaddo, bvusubo, bvssubo, bvumulo, bvsmulo};

use crate::bits::mask;
use crate::signed::reading;

// Whether a whole number has no signed reading of a width.
fn is_out_of_range(w: u32, z: i128) -> bool
    requires width { 1 ≤ w }
    requires within { w ≤ 64 }
    ensures { result ≡ not (fits_signed w z) }
{
    let half = 1i128 << (w - 1);
    z < -half || half <= z
}

/// Whether the sum is no number of width `w`, or no signed reading of it where `signed` is set.
pub fn add_overflows(w: u32, signed: bool, a: u64, b: u64) -> bool
    requires width { 1 ≤ w }
    requires within { w ≤ 64 }
    requires first { a < 2 ^ w }
    requires second { b < 2 ^ w }
    ensures { result ≡ (if signed then bvsaddo w a b else bvuaddo w a b) }
{
    if signed {
        is_out_of_range(w, i128::from(reading(w, a)) + i128::from(reading(w, b)))
    } else {
        mask(w) - a < b
    }
}

/// Whether the difference is no number of width `w`, or no signed reading of it where `signed` is set.
pub fn sub_overflows(w: u32, signed: bool, a: u64, b: u64) -> bool
    requires width { 1 ≤ w }
    requires within { w ≤ 64 }
    requires first { a < 2 ^ w }
    requires second { b < 2 ^ w }
    ensures { result ≡ (if signed then bvssubo w a b else bvusubo w a b) }
{
    if signed {
        is_out_of_range(w, i128::from(reading(w, a)) - i128::from(reading(w, b)))
    } else {
        a < b
    }
}

/// Whether the product is no number of width `w`, or no signed reading of it where `signed` is set.
pub fn mul_overflows(w: u32, signed: bool, a: u64, b: u64) -> bool
    requires width { 1 ≤ w }
    requires within { w ≤ 64 }
    requires first { a < 2 ^ w }
    requires second { b < 2 ^ w }
    ensures { result ≡ (if signed then bvsmulo w a b else bvumulo w a b) }
{
    if signed {
        is_out_of_range(w, i128::from(reading(w, a)) * i128::from(reading(w, b)))
    } else {
        u128::from(mask(w)) < u128::from(a) * u128::from(b)
    }
}
