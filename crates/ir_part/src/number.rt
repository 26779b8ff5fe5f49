//! Numbers, widths and alignments.

ghost use Rattle.std.specs.Prelude.{◌≡◌, ◌^◌, ◌≤◌, min, length, take_while, option_map};
ghost use Rattle.std.specs.Char.{is_ascii_digit};
ghost use Rattle.ir_lex.specs.Bytes as bytes;
ghost use Rattle.ir_lex.specs.Decimal as decimal;
ghost use Rattle.ir_lex.specs.Drop as drops;
ghost use Rattle.ir_part.specs.Reader.{Gives, seen};
ghost use Rattle.ir_part.specs.Numbers as definition;

use crate::front::{strip_mark, strip_word};
use crate::stop::PartStop;
use ir_lex::name::behind_first;
use ir_lex::{Token, TokenKind};

/// The number that digits below 2^64 stand for; leading zeros are allowed.
#[tactic(auto, unfolding(ir_lex::specs::Decimal::count_of))]
pub fn count_of(text: &[u8]) -> Option<u64>
    ensures { result ≡ decimal.count_of text.now }
{
    let value = digits_value(text);
    if are_some_digits(text) && value < 1 << 64 {
        Some(value as u64)
    } else {
        None
    }
}

/// The number that digits with a `-` before them or not stand for, from -2^63 to 2^64 - 1.
#[tactic(auto, unfolding(ir_lex::specs::Decimal::number_of))]
pub fn number_of(text: &[u8]) -> Option<i128>
    ensures { result ≡ decimal.number_of text.now }
{
    if begins_with(b'-', text) {
        negative(behind_first(text))
    } else {
        positive(text)
    }
}

/// The number of these digits, below 2^64.
fn positive(text: &[u8]) -> Option<i128>
    ensures { result ≡ definition.positive text.now }
{
    let value = digits_value(text);
    if are_some_digits(text) && value < 1 << 64 {
        Some(value as i128)
    } else {
        None
    }
}

/// The negative of the number of these digits, from -2^63.
fn negative(text: &[u8]) -> Option<i128>
    ensures { result ≡ definition.negative text.now }
{
    let value = digits_value(text);
    if are_some_digits(text) && value <= 1 << 63 {
        Some(-(value as i128))
    } else {
        None
    }
}

/// N of `iN`, from 1 to 64 and without a leading zero.
#[tactic(auto, unfolding(ir_lex::specs::Decimal::width_of))]
pub fn width_of(text: &[u8]) -> Option<u32>
    ensures { result ≡ decimal.width_of text.now }
{
    let digits = behind_first(text);
    let value = digits_value(digits);
    if begins_with(b'i', text)
        && are_some_digits(digits)
        && !begins_with(b'0', digits)
        && value <= 64
    {
        Some(value as u32)
    } else {
        None
    }
}

/// Whether this is `iN` with N over 64, without a leading zero.
#[tactic(auto, using(crate::proofs::Digits::over_wide))]
pub fn is_over_wide(text: &[u8]) -> bool
    ensures { result ≡ definition.is_over_wide text.now }
{
    let digits = behind_first(text);
    let value = digits_value(digits);
    begins_with(b'i', text) && are_some_digits(digits) && !begins_with(b'0', digits) && value > 64
}

/// Whether the bytes begin with this one.
fn begins_with(byte: u8, text: &[u8]) -> bool
    ensures { result ≡ bytes.begins_with byte text.now }
{
    match text {
        [first, ..] => *first == byte,
        [] => false,
    }
}

/// Whether there are digits alone, and one at least.
fn are_some_digits(text: &[u8]) -> bool
    ensures { result ≡ decimal.are_some_digits text.now }
{
    !text.is_empty() && are_digits(text)
}

/// Whether there are digits alone; no byte at all is digits too.
pub fn are_digits(text: &[u8]) -> bool
    ensures { result ≡ drops.are_digits text.now }
{
    digit_run(text) == text.len()
}

/// How many digits stand at the front.
fn digit_run(text: &[u8]) -> usize
    ensures value { result ≡ length (take_while is_ascii_digit text.now) }
    ensures within { result ≤ length text.now }
{
    text.iter().take_while(|byte| byte.is_ascii_digit()).count()
}

/// The number that digits write, or 2^64 where it is greater.
fn digits_value(digits: &[u8]) -> u128
    ensures { result ≡ min (2 ^ 64) (decimal.digits_value digits.now) }
{
    let mut number: u128 = 0;
    for digit in digits {
        number = (number * 10 + digit.saturating_sub(b'0') as u128).min(1 << 64);
    }
    number
}

/// Digits below 2^64.
pub fn count_at<'t>(tokens: &'t [Token<'t>]) -> Result<(u64, &'t [Token<'t>]), PartStop>
    ensures { Gives (λ x. (x.0, seen x.1.now)) result (definition.count_at (seen tokens.now)) }
{
    match tokens {
        [
            Token {
                kind: TokenKind::Number,
                text,
                ..
            },
            rest @ ..,
        ] => match count_of(text) {
            Some(count) => Ok((count, rest)),
            None => Err(PartStop::NotSpelled),
        },
        _ => Err(PartStop::NotSpelled),
    }
}

/// A number from -2^63 to 2^64 - 1.
pub fn number_at<'t>(tokens: &'t [Token<'t>]) -> Result<(i128, &'t [Token<'t>]), PartStop>
    ensures { Gives (λ x. (x.0, seen x.1.now)) result (definition.number_at (seen tokens.now)) }
{
    match tokens {
        [
            Token {
                kind: TokenKind::Number,
                text,
                ..
            },
            rest @ ..,
        ] => match number_of(text) {
            Some(number) => Ok((number, rest)),
            None => Err(PartStop::NotSpelled),
        },
        _ => Err(PartStop::NotSpelled),
    }
}

/// `iN`: its width in bits.
pub fn width_at<'t>(tokens: &'t [Token<'t>]) -> Result<(u32, &'t [Token<'t>]), PartStop>
    ensures { Gives (λ x. (x.0, seen x.1.now)) result (definition.width_at (seen tokens.now)) }
{
    match tokens {
        [
            Token {
                kind: TokenKind::Word,
                text,
                ..
            },
            rest @ ..,
        ] => match width_of(text) {
            Some(width) => Ok((width, rest)),
            None => Err(PartStop::NotSpelled),
        },
        _ => Err(PartStop::NotSpelled),
    }
}

/// `[, align n]`: an alignment in bytes; an absent one is 0.
pub fn align_at<'t>(tokens: &'t [Token<'t>]) -> Result<(u64, &'t [Token<'t>]), PartStop>
    ensures { Gives (λ x. (x.0, seen x.1.now)) result (definition.align_at (seen tokens.now)) }
{
    match strip_align(tokens) {
        Some(rest) => count_at(rest),
        None => Ok((0, tokens)),
    }
}

/// What stands behind `, align`.
fn strip_align<'t>(tokens: &'t [Token<'t>]) -> Option<&'t [Token<'t>]>
    ensures { option_map (λ x. seen x.now) result ≡ definition.after_align (seen tokens.now) }
{
    match strip_mark(b',', tokens) {
        Some(rest) => strip_word(b"align", rest),
        None => None,
    }
}
