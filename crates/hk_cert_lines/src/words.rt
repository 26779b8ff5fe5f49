//! Words and numbers of a line.

ghost use Rattle.std.specs.Prelude.{◌≡◌, ◌^◌, nat_lt, true, false};
ghost use Rattle.std.specs.List.{list_all};
ghost use Rattle.std.specs.Option.{option_copied};
ghost use Rattle.std.specs.Char.{is_ascii_digit};
ghost use Rattle.hk_cnf.specs.Text.{is_blank};
ghost use Rattle.hk_cert_lines.specs.Words as definition;

use crate::reason::CertReason;
use hk_cnf::text::natural;

/// Whether a byte is a space or a tab.
fn is_blank(byte: u8) -> bool
    ensures { result ≡ is_blank false byte }
{
    byte == b' ' || byte == b'\t'
}

/// Whether the words of a line stand apart by single spaces, with no blank at its ends.
pub fn is_spaced(line: &[u8]) -> bool
    ensures { result ≡ definition.is_spaced true line.now }
{
    let mut behind = true;
    for byte in line {
        if is_blank(*byte) {
            if behind || *byte != b' ' {
                return false;
            }
            behind = true;
        } else {
            behind = false;
        }
    }
    !behind
}

/// What follows a text at the front of a line.
pub fn behind<'t>(front: &[u8], line: &'t [u8]) -> Option<&'t [u8]>
    ensures { option_copied result ≡ definition.behind front.now line.now }
{
    line.strip_prefix(front)
}

/// Whether a text stands at the front of a line.
pub fn begins(front: &[u8], line: &[u8]) -> bool
    ensures { result ≡ definition.begins front.now line.now }
{
    behind(front, line).is_some()
}

/// Whether a byte is a letter, a digit or `_`.
fn is_word_byte(byte: u8) -> bool
    ensures { result ≡ definition.is_word_byte byte }
{
    byte.is_ascii_alphanumeric() || byte == b'_'
}

/// Whether all bytes are letters, digits and `_`.
fn are_word_bytes(word: &[u8]) -> bool
    ensures { result ≡ list_all definition.is_word_byte word.now }
{
    word.iter().all(|byte| is_word_byte(*byte))
}

/// Whether a word is of letters, digits and `_`.
pub fn is_word(word: &[u8]) -> bool
    ensures { result ≡ definition.is_word word.now }
{
    match word {
        [] => false,
        _ => are_word_bytes(word),
    }
}

/// Whether the first byte is there, and no digit.
fn begins_name(word: &[u8]) -> bool
    ensures { result ≡ definition.begins_name word.now }
{
    match word {
        [] => false,
        [first, ..] => !first.is_ascii_digit(),
    }
}

/// Whether a word is a keyword of specifications.
fn is_keyword(word: &[u8]) -> bool
    ensures { result ≡ definition.is_keyword word.now }
{
    word == b"class".as_slice()
        || word == b"def".as_slice()
        || word == b"return".as_slice()
        || word == b"True".as_slice()
        || word == b"False".as_slice()
}

/// Whether a word may name a field.
pub fn is_name(word: &[u8]) -> bool
    ensures { result ≡ definition.is_name word.now }
{
    is_word(word) && begins_name(word) && !is_keyword(word)
}

/// Whether a word names functions that are no handlers.
fn is_kept(word: &[u8]) -> bool
    ensures { result ≡ definition.is_kept word.now }
{
    word == b"equiv".as_slice()
        || begins(b"inv_", word)
        || begins(b"prop_", word)
        || begins(b"step_", word)
        || begins(b"count_", word)
        || begins(b"view_", word)
}

/// Whether a word may name a handler.
pub fn is_handler_name(word: &[u8]) -> bool
    ensures { result ≡ definition.is_handler_name word.now }
{
    is_name(word) && !is_kept(word)
}

/// Whether all bytes are digits.
fn are_digits(word: &[u8]) -> bool
    ensures { result ≡ list_all is_ascii_digit word.now }
{
    word.iter().all(|byte| byte.is_ascii_digit())
}

/// Whether a first digit may stand before these.
fn leads(first: u8, more: &[u8]) -> bool
    ensures { result ≡ definition.leads first more.now }
{
    match more {
        [] => true,
        _ => first != b'0',
    }
}

/// Whether a word is of decimal digits without a leading zero.
pub fn is_decimal(word: &[u8]) -> bool
    ensures { result ≡ definition.is_decimal word.now }
{
    match word {
        [] => false,
        [first, more @ ..] => are_digits(word) && leads(*first, more),
    }
}

/// A number that was found; none is one out of its range.
pub fn in_range(number: Option<u64>) -> Result<u64, CertReason>
    ensures { result ≡ definition.in_range number }
{
    match number {
        Some(number) => Ok(number),
        None => Err(CertReason::Q2),
    }
}

/// The number that a word writes, up to `most`.
pub fn number_at(most: u64, word: &[u8]) -> Result<u64, CertReason>
    ensures { result ≡ definition.number_at most word.now }
{
    if is_decimal(word) {
        in_range(natural(word, most))
    } else {
        Err(CertReason::Q1)
    }
}

/// Whether a number has at most so many bits.
fn fits(width: u32, number: u64) -> bool
    ensures { result ≡ nat_lt number (2 ^ width) }
{
    if width >= 64 {
        return true;
    }
    number < 1 << width
}

/// A number that was found, of a width.
fn narrow(width: u32, number: Option<u64>) -> Result<u64, CertReason>
    ensures { result ≡ definition.narrow width number }
{
    match number {
        Some(number) => {
            if fits(width, number) {
                Ok(number)
            } else {
                Err(CertReason::Q2)
            }
        }
        None => Err(CertReason::Q2),
    }
}

/// The number of a width that a word writes.
pub fn number_of_width(width: u32, word: &[u8]) -> Result<u64, CertReason>
    ensures { result ≡ definition.number_of_width width word.now }
{
    if is_decimal(word) {
        narrow(width, natural(word, u64::MAX))
    } else {
        Err(CertReason::Q1)
    }
}
