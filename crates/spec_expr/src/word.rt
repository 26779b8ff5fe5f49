//! Names and numbers, by their texts.

ghost use Rattle.std.specs.Prelude.{◌≡◌, ◌+◌, ◌*◌, ◌<◌, ◌≤◌, ◌^◌, if◌then◌else◌, nat_lt, Some, None, length};
ghost use Rattle.spec_expr.specs.Words as definition;

/// Whether the word begins as a name: with a letter or `_`.
fn begins_name(text: &[u8]) -> bool
    ensures { result ≡ definition.begins_name text.now }
{
    match text {
        [first, ..] => first.is_ascii_alphabetic() || *first == b'_',
        [] => false,
    }
}

/// Whether the word is kept for productions and truths.
fn is_keyword(text: &[u8]) -> bool
    ensures { result ≡ definition.is_keyword text.now }
{
    text == b"class".as_slice()
        || text == b"def".as_slice()
        || text == b"return".as_slice()
        || text == b"True".as_slice()
        || text == b"False".as_slice()
}

/// Whether the token is a name.
pub fn is_name(text: &[u8]) -> bool
    ensures { result ≡ definition.is_name text.now }
{
    begins_name(text) && !is_keyword(text)
}

/// The value of a hexadecimal digit, or 16.
fn digit(byte: u8) -> u8
    ensures value { result ≡ definition.digit byte }
    ensures small { result ≤ 16 }
{
    if byte.is_ascii_digit() {
        byte - b'0'
    } else if b'a' <= byte && byte <= b'f' {
        byte - 87
    } else if b'A' <= byte && byte <= b'F' {
        byte - 55
    } else {
        16
    }
}

/// The number with one more digit, if it fits 64 bits.
fn with_digit(value: u64, base: u8, digit: u8) -> Option<u64>
    ensures { result ≡ (if nat_lt (value * base + digit) (2 ^ 64) then Some (value * base + digit) else None) }
{
    let wide = u128::from(value) * u128::from(base) + u128::from(digit);
    if wide < 0x1_0000_0000_0000_0000 {
        Some(wide as u64)
    } else {
        None
    }
}

/// The value of digits, of which there is at least one, if they are of the base and it fits 64 bits.
#[tactic(auto, using(crate::proofs::Digits::reading_digits))]
fn digits_of(base: u8, digits: &[u8]) -> Option<u64>
    requires { 0 < base }
    ensures { result ≡ definition.within (definition.digits_of base digits.now) }
{
    if digits.is_empty() {
        return None;
    }
    let mut value: u64 = 0;
    for byte in digits {
        let digit = digit(*byte);
        if digit >= base {
            return None;
        }
        match with_digit(value, base, digit) {
            Some(next) => value = next,
            None => return None,
        }
    }
    Some(value)
}

/// The value of a decimal number without a leading zero.
fn decimal_of(text: &[u8]) -> Option<u64>
    ensures { result ≡ definition.within (definition.decimal_of text.now) }
{
    match text {
        [b'0'] => Some(0),
        [b'0', ..] => None,
        _ => digits_of(10, text),
    }
}

/// The value of a number token: decimal, or hexadecimal behind `0x`, and at most 2^64 - 1.
pub fn number_of(text: &[u8]) -> Option<u64>
    ensures { result ≡ definition.number_of text.now }
{
    if begins_name(text) {
        return None;
    }
    match text {
        [b'0', b'x', digits @ ..] => digits_of(16, digits),
        _ => decimal_of(text),
    }
}

/// K of a step `fK`.
pub fn member_of(text: &[u8]) -> Option<u64>
    ensures { result ≡ definition.member_of text.now }
{
    match text {
        [b'f', digits @ ..] => decimal_of(digits),
        _ => None,
    }
}
