//! Numbers of a text against the width of their place.

ghost use Rattle.std.specs.Prelude.{◌≡◌, ◌^◌, ◌<◌, ◌≤◌, ◌==◌, ◌||◌, nat_lt};
ghost use Rattle.std.specs.Ordering.{int_eq};
ghost use Rattle.ir_typing.specs.Fits as definition;

/// Whether a number is below 2 to this power.
#[tactic(auto, using(crate::proofs::Powers::beyond, crate::proofs::Powers::shifted))]
fn is_below_power(number: u128, exponent: u32) -> bool
    ensures { result ≡ nat_lt number (2 ^ exponent) }
{
    if exponent >= 128 {
        return true;
    }
    number >> exponent == 0
}

/// Whether a number lies from -2^(w-1) to 2^w - 1, for this width w in bits.
#[tactic(auto, using(crate::proofs::Powers::fits_negative, crate::proofs::Powers::fits_positive))]
pub fn fits_width(width: u32, number: i128) -> bool
    ensures { result ≡ definition.fits_width width number }
{
    if number < 0 {
        is_below_power(number.unsigned_abs() - 1, width.saturating_sub(1))
    } else {
        is_below_power(number.unsigned_abs(), width)
    }
}

/// The value of a number modulo 2 to this width in bits.
#[tactic(auto, using(crate::proofs::Powers::modulo_negative, crate::proofs::Powers::modulo_positive))]
fn wide_modulo(width: u32, number: i128) -> u128
    requires { width < 128 }
    ensures { result ≡ definition.modulo width number }
{
    let power = 1u128 << width;
    let value = number.unsigned_abs();
    if number < 0 {
        power - 1 - (value - 1) % power
    } else {
        value % power
    }
}

/// The value of a number modulo 2 to this width in bits, at most 64 of them.
#[tactic(auto, using(crate::proofs::Powers::modulo_fits))]
pub fn modulo(width: u32, number: i128) -> u64
    requires { width ≤ 64 }
    ensures { result ≡ definition.modulo width number }
{
    wide_modulo(width, number) as u64
}

/// Whether two numbers are one.
#[tactic(auto, using(crate::proofs::Powers::whole_test))]
pub fn same_whole(first: i128, second: i128) -> bool
    ensures { result ≡ int_eq first second }
{
    first == second
}

/// Whether two numbers are the same modulo 2 to this width in bits.
pub fn same_modulo(width: u32, first: i128, second: i128) -> bool
    ensures { result ≡ (definition.modulo width first == definition.modulo width second) }
{
    if width >= 128 {
        return same_whole(first, second);
    }
    wide_modulo(width, first) == wide_modulo(width, second)
}

/// Whether an alignment in bytes is absent, as 0 says, or a power of two.
pub fn is_align(align: u64) -> bool
    ensures { result ≡ definition.is_align align }
{
    align == 0 || align.is_power_of_two()
}
