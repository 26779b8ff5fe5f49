//! Numbers from the bits of a number, the low bits first.

ghost use Rattle.std.specs.Prelude.{◌≡◌, ◌/◌, ◌%◌, ◌^◌, replicate, IfOk, OnOk};
ghost use Rattle.hk_exhaust.specs.Enumeration.{numbers_of, behind};

use std::alloc::{AllocError, Global};

// The low bits.
fn low(number: u64, width: u32) -> u64
    ensures { result ≡ number % 2 ^ width }
{
    if width < 64 {
        number % (1 << width)
    } else {
        number
    }
}

// The bits above the low ones.
fn high(number: u64, width: u32) -> u64
    ensures { result ≡ number / 2 ^ width }
{
    if width < 64 { number / (1 << width) } else { 0 }
}

// The low byte.
fn low_byte(number: u64) -> u8
    ensures { result ≡ number % 2 ^ 8 }
{
    (number % 256) as u8
}

/// Takes numbers of these widths, and leaves what is behind them.
pub(crate) fn take_numbers(
    alloc: Global,
    widths: &[u32],
    rest: &mut u64,
) -> Result<Vec<u64>, AllocError>
    ensures numbers { IfOk result (λ v. v.items ≡ numbers_of widths.now rest.old) }
    ensures behind { OnOk result (rest.new ≡ behind widths.now rest.old) }
{
    let mut numbers = Vec::new(alloc);
    'each: for width in widths {
        numbers.push(low(*rest, *width))?;
        *rest = high(*rest, *width);
    }
    Ok(numbers)
}

/// Takes so many numbers of one width, and leaves what is behind them.
pub(crate) fn take_entries(
    alloc: Global,
    count: u64,
    width: u32,
    rest: &mut u64,
) -> Result<Vec<u64>, AllocError>
    ensures numbers { IfOk result (λ v. v.items ≡ numbers_of (replicate count width) rest.old) }
    ensures behind { OnOk result (rest.new ≡ behind (replicate count width) rest.old) }
{
    let mut numbers = Vec::new(alloc);
    'each: for k in 0..count {
        numbers.push(low(*rest, width))?;
        *rest = high(*rest, width);
    }
    Ok(numbers)
}

/// Takes so many bytes, and leaves what is behind them.
pub(crate) fn take_bytes(alloc: Global, count: u64, rest: &mut u64) -> Result<Vec<u8>, AllocError>
    ensures bytes { IfOk result (λ v. v.items ≡ numbers_of (replicate count 8) rest.old) }
    ensures behind { OnOk result (rest.new ≡ behind (replicate count 8) rest.old) }
{
    let mut bytes = Vec::new(alloc);
    'each: for k in 0..count {
        bytes.push(low_byte(*rest))?;
        *rest = high(*rest, 8);
    }
    Ok(bytes)
}
