//! What stands at the front of a text.

ghost use Rattle.std.specs.Prelude.{◌≡◌, ◌+◌, ◌<◌, ◌≤◌, ◌^◌, ◌==◌, length, IfSome, IsTrue, IsFalse, if◌then◌else◌};
ghost use Rattle.ir_lex.specs.Lex as definition;
ghost use Rattle.ir_lex.specs.Within.{IsWithin};

use crate::bytes::{
    begins_with, digit_run, is_blank, is_letter, is_mark_byte, line_run, name_run, string_run,
};
use crate::token::TokenKind;

/// What stands at the front of a text, with its length in bytes.
#[derive(Clone, Copy, Debug, PartialEq, Eq)]
pub enum Piece {
    /// Bytes that separate tokens: a blank, or a comment up to the end of its line.
    Blank(usize),
    /// A newline.
    LineEnd,
    /// A token.
    Whole(TokenKind, usize),
    /// A byte that begins no token.
    Outside,
}

/// What stands at the front of a text.
pub fn piece_of(text: &[u8]) -> Piece
    requires { length text.now < 2 ^ 31 }
    ensures value { result ≡ definition.piece_of text.now }
    ensures within { IsWithin result (length text.now) }
{
    match text {
        [first, rest @ ..] => piece_at(*first, rest),
        [] => Piece::Outside,
    }
}

/// What stands at the front of a text of this first byte and this rest.
#[tactic(auto, unfolding(crate::specs::Lex::piece_at))]
fn piece_at(first: u8, rest: &[u8]) -> Piece
    requires { length rest.now < 2 ^ 31 }
    ensures value { result ≡ definition.piece_at first rest.now }
    ensures within { IsWithin result (length rest.now + 1) }
{
    if first == b'\n' {
        Piece::LineEnd
    } else if is_blank(first) {
        Piece::Blank(1)
    } else if first == b';' {
        Piece::Blank(line_run(rest) + 1)
    } else if begins_word(first, rest) {
        word_piece(first, rest)
    } else if first == b'.' {
        Piece::Whole(TokenKind::Mark, 3)
    } else if first.is_ascii_digit() {
        Piece::Whole(TokenKind::Number, digit_run(rest) + 1)
    } else if first == b'-' {
        named_piece(TokenKind::Number, digit_run(rest), Piece::Outside)
    } else if first == b'"' {
        string_piece(rest)
    } else if first == b'%' {
        sigil_piece(TokenKind::Local, rest)
    } else if first == b'@' {
        sigil_piece(TokenKind::Global, rest)
    } else if first == b'!' {
        named_piece(
            TokenKind::Metadata,
            name_run(rest),
            Piece::Whole(TokenKind::Mark, 1),
        )
    } else if first == b'#' {
        attribute_piece(rest)
    } else if is_mark_byte(first) {
        Piece::Whole(TokenKind::Mark, 1)
    } else {
        Piece::Outside
    }
}

/// Whether two dots stand at the front.
fn begins_with_dots(rest: &[u8]) -> bool
    ensures value { result ≡ definition.begins_with_dots rest.now }
    ensures some { IsTrue result → 2 ≤ length rest.now }
{
    match rest {
        [first, second, ..] => *first == b'.' && *second == b'.',
        _ => false,
    }
}

/// Whether a word begins with this first byte and this rest.
fn begins_word(first: u8, rest: &[u8]) -> bool
    ensures value { result ≡ definition.begins_word first rest.now }
    ensures dots { IsFalse result → first ≡ 46 → 2 ≤ length rest.now }
{
    is_letter(first) || (first == b'.' && !begins_with_dots(rest))
}

/// What a string has behind its opening quote, up to its closing quote.
fn string_end(rest: &[u8]) -> Option<usize>
    requires { length rest.now < 2 ^ 31 }
    ensures value { result ≡ definition.string_end rest.now }
    ensures within { IfSome result (λ n. n ≤ length rest.now) }
{
    let inside = string_run(rest);
    if begins_with(b'"', rest.split_at(inside).1) {
        Some(inside + 1)
    } else {
        None
    }
}

/// A string whose opening quote is passed over.
fn string_piece(rest: &[u8]) -> Piece
    requires { length rest.now < 2 ^ 31 }
    ensures value { result ≡ definition.string_piece TokenKind.Quoted 1 (definition.string_end rest.now) Piece.Outside }
    ensures within { IsWithin result (length rest.now + 1) }
{
    match string_end(rest) {
        Some(end) => Piece::Whole(TokenKind::Quoted, end + 1),
        None => Piece::Outside,
    }
}

/// `%` or `@` with a name or a string behind it.
fn sigil_piece(kind: TokenKind, rest: &[u8]) -> Piece
    requires { length rest.now < 2 ^ 31 }
    ensures value { result ≡ definition.sigil_piece kind rest.now }
    ensures within { IsWithin result (length rest.now + 1) }
{
    if begins_with(b'"', rest) {
        match string_end(rest.split_at(1).1) {
            Some(end) => Piece::Whole(kind, end + 2),
            None => Piece::Outside,
        }
    } else {
        named_piece(kind, name_run(rest), Piece::Outside)
    }
}

/// A token of a first byte and a run of others, which may not be empty.
fn named_piece(kind: TokenKind, run: usize, other: Piece) -> Piece
    requires { run < 2 ^ 31 }
    ensures { result ≡ (if run == 0 then other else Piece.Whole kind (run + 1)) }
{
    if run == 0 {
        other
    } else {
        Piece::Whole(kind, run + 1)
    }
}

/// A word, or `c` with a string directly behind it.
fn word_piece(first: u8, rest: &[u8]) -> Piece
    requires { length rest.now < 2 ^ 31 }
    ensures value { result ≡ definition.word_piece first rest.now }
    ensures within { IsWithin result (length rest.now + 1) }
{
    let word = Piece::Whole(TokenKind::Word, name_run(rest) + 1);
    if first == b'c' && begins_with(b'"', rest) {
        match string_end(rest.split_at(1).1) {
            Some(end) => Piece::Whole(TokenKind::Quoted, end + 2),
            None => word,
        }
    } else {
        word
    }
}

/// `#` with a word or with digits.
fn attribute_piece(rest: &[u8]) -> Piece
    requires { length rest.now < 2 ^ 31 }
    ensures value { result ≡ definition.attribute_piece rest.now }
    ensures within { IsWithin result (length rest.now + 1) }
{
    if front_begins_word(rest) {
        Piece::Whole(TokenKind::Attribute, name_run(rest) + 1)
    } else {
        named_piece(TokenKind::Attribute, digit_run(rest), Piece::Outside)
    }
}

/// Whether a word begins at the front.
fn front_begins_word(rest: &[u8]) -> bool
    ensures { result ≡ definition.front_begins_word rest.now }
{
    match rest {
        [first, after @ ..] => begins_word(*first, after),
        [] => false,
    }
}
