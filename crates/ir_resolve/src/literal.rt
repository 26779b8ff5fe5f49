//! Numbers as they are written, and the numbers of a width that they stand for.

ghost use Rattle.std.specs.Prelude.{◌≡◌, ◌≤◌};
ghost use Rattle.ir_typing.specs.Fits as fits;
ghost use Rattle.ir_resolve.specs.Operands as definition;

/// The value of a number modulo 2 to this width in bits.
#[tactic(auto, using(ir_typing::proofs::Powers::modulo_negative, ir_typing::proofs::Powers::modulo_positive))]
fn modulo(width: u32, number: i128) -> u64
    requires { width ≤ 64 }
    ensures { result ≡ fits.modulo width number }
{
    let power = 1u128 << width;
    let value = number.unsigned_abs();
    if number < 0 {
        (power - 1 - (value - 1) % power) as u64
    } else {
        (value % power) as u64
    }
}

/// The number of a width in bits that a number stands for. Widths over 64, which no text has, count as 64.
pub fn number_in(width: u32, number: i128) -> u64
    ensures { result ≡ definition.number_in width number }
{
    modulo(width.min(64), number)
}

/// The number of 32 bits that a number stands for.
pub fn index_in(number: i128) -> u32
    ensures { result ≡ fits.modulo 32 number }
{
    modulo(32, number) as u32
}
