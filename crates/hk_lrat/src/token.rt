//! The words of a row, one by one, each read as a number where it spells one.

ghost use Rattle.std.specs.Prelude.{◌≡◌, ◌<◌, ◌≤◌, ◌^◌, ◌==◌, length, ◌∷◌, [], false, not, IfSome, MatchOption};
ghost use Rattle.std.specs.List.{prefix_len};
ghost use Rattle.hk_cnf.specs.Text.{lines_of, words_of};
ghost use Rattle.hk_lrat.specs.LogText.{nonzero};
ghost use Rattle.hk_lrat.specs.Tokens.{IsNumber, IsToken, Says, ends_word, id_in, is_end_token, number_of, size_in};

use hk_cnf::Lit;
use hk_cnf::text::{natural, next_word};
use memchr::memchr;

/// The greatest id, and the greatest size of a hint or a literal.
const MOST: u64 = i64::MAX as u64;

/// A number to which a digit can be added with a result of at most `MOST`.
const QUICK: u64 = MOST / 10 - 1;

/// What a word of a row spells.
#[derive(Clone, Copy)]
pub enum Token {
    /// The word `0`, which ends a part.
    End,
    /// Another word of decimal digits, and their number.
    Natural(u64),
    /// A minus before decimal digits, and their number.
    Minus(u64),
    /// No number, or one that is too large.
    Other,
}

impl Token {
    /// Whether it ends a part.
    pub fn is_end(self) -> bool
        ensures { result ≡ is_end_token self }
    {
        match self {
            Token::End => true,
            _ => false,
        }
    }

    /// The id that it spells.
    pub fn id(self) -> Option<u64>
        ensures { result ≡ id_in self }
    {
        match self {
            Token::End => Some(0),
            Token::Natural(size) => Some(size),
            _ => None,
        }
    }
}

/// Whether a word ends here.
#[inline(always)]
fn ends_word(rest: &[u8]) -> bool
    ensures { result ≡ ends_word rest.now }
{
    match rest {
        [byte, ..] => *byte == b' ' || *byte == b'\t',
        [] => true,
    }
}

/// The number that the digits at the front of a line write, and what is behind them: where it is positive and not
/// large, and the word ends behind the digits.
#[inline(always)]
fn quick_number(line: &[u8]) -> Option<(u64, &[u8])>
    ensures { IfSome result (λ found. IsNumber line.now found.1.now found.0) }
{
    let mut value = 0;
    let mut read = 0;
    while read < line.len() && line[read].is_ascii_digit() {
        if value > QUICK {
            return None;
        }
        value = value * 10 + u64::from(line[read] - b'0');
        read += 1;
    }
    let rest = &line[read..];
    if value == 0 || !ends_word(rest) {
        return None;
    }
    Some((value, rest))
}

/// The line behind a space at its front.
#[inline(always)]
fn behind_space(line: &[u8]) -> &[u8]
    ensures words { words_of false result.now ≡ words_of false line.now }
    ensures shorter { length result.now ≤ length line.now }
{
    match line {
        [b' ', rest @ ..] => rest,
        _ => line,
    }
}

/// The first word of a line and what is behind it, where the word has the plain form that nearly all have.
#[inline(always)]
fn quick_token(line: &[u8]) -> Option<(Token, &[u8])>
    ensures token { IfSome result (λ found. IsToken line.now found.1.now found.0) }
    ensures shorter { IfSome result (λ found. length found.1.now < length line.now) }
{
    match line {
        [b'0', rest @ ..] if ends_word(rest) => Some((Token::End, rest)),
        [b'-', digits @ ..] => {
            let (size, rest) = quick_number(digits)?;
            Some((Token::Minus(size), rest))
        }
        _ => {
            let (size, rest) = quick_number(line)?;
            Some((Token::Natural(size), rest))
        }
    }
}

/// What a word spells.
fn spelled(word: &[u8]) -> Token
    ensures { Says result word.now }
{
    match word {
        [b'0'] => Token::End,
        [b'-', digits @ ..] => match natural(digits, MOST) {
            Some(size) => Token::Minus(size),
            None => Token::Other,
        },
        _ => match natural(word, MOST) {
            Some(size) => Token::Natural(size),
            None => Token::Other,
        },
    }
}

/// The first word of a line and what is behind it.
#[cold]
#[inline(never)]
fn full_token(line: &[u8]) -> Option<(Token, &[u8])>
    ensures token { MatchOption result (words_of false line.now ≡ []) (λ found. IsToken line.now found.1.now found.0) }
    ensures shorter { IfSome result (λ found. length found.1.now < length line.now) }
{
    let (word, rest) = next_word(line, false)?;
    Some((spelled(word), rest))
}

/// The first word of a line and what is behind it.
#[inline(always)]
pub fn next_token(line: &[u8]) -> Option<(Token, &[u8])>
    ensures token { MatchOption result (words_of false line.now ≡ []) (λ found. IsToken line.now found.1.now found.0) }
    ensures shorter { IfSome result (λ found. length found.1.now < length line.now) }
{
    let rest = behind_space(line);
    match quick_token(rest) {
        Some(found) => Some(found),
        None => full_token(rest),
    }
}

/// The literal that a token spells.
pub fn literal(token: Token) -> Option<Lit>
    requires { size_in token < 2 ^ 63 }
    ensures { result ≡ nonzero (number_of token) }
{
    match token {
        Token::Natural(size) if size > 0 => Some(Lit::new(size as i64)),
        Token::Minus(size) if size > 0 => Some(Lit::new(-(size as i64))),
        _ => None,
    }
}

/// How many bytes stand before the first newline.
fn line_len(text: &[u8]) -> usize
    ensures { result ≡ prefix_len (λ b. not (b == 10)) text.now }
{
    match memchr(b'\n', text) {
        Some(length) => length,
        None => text.len(),
    }
}

/// The first line of a text, without its newline, and what is behind it.
pub fn split_line(text: &[u8]) -> (&[u8], &[u8])
    requires { 0 < length text.now }
    ensures lines { lines_of text.now ≡ result.0.now ∷ lines_of result.1.now }
    ensures shorter { length result.1.now < length text.now }
{
    let (line, rest) = text.split_at(line_len(text));
    match rest {
        [] => (line, rest),
        [_, after @ ..] => (line, after),
    }
}
