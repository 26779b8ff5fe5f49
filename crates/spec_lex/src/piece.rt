//! What stands at the front of a physical line.

ghost use Rattle.std.specs.Prelude.{◌≡◌, ◌+◌, ◌<◌, ◌^◌, length};
ghost use Rattle.spec_lex.specs.Reading as definition;
ghost use Rattle.spec_lex.specs.Within.{IsWithin};

use crate::bytes::{begins_pair, is_blank, is_single, is_word_byte, word_run};
use crate::token::TokenKind;

/// What stands at the front of a physical line, a token with its length in bytes.
#[derive(Clone, Copy, Debug, PartialEq, Eq)]
pub enum Piece {
    /// A byte that separates tokens.
    Blank,
    /// A comment, up to the end of the line.
    Comment,
    /// A token.
    Whole(TokenKind, usize),
}

/// What stands at the front.
pub fn piece_of(row: &[u8]) -> Piece
    requires short { length row.now < 2 ^ 31 }
    requires some { 0 < length row.now }
    ensures value { result ≡ definition.piece_of row.now }
    ensures within { IsWithin result (length row.now) }
{
    match row {
        [first, rest @ ..] => piece_at(*first, rest),
        [] => Piece::Blank,
    }
}

/// What stands at the front, of this first byte and this rest.
#[tactic(auto, unfolding(crate::specs::Reading::piece_at))]
fn piece_at(first: u8, rest: &[u8]) -> Piece
    requires { length rest.now < 2 ^ 31 }
    ensures value { result ≡ definition.piece_at first rest.now }
    ensures within { IsWithin result (length rest.now + 1) }
{
    if is_blank(first) {
        Piece::Blank
    } else if first == b'#' {
        Piece::Comment
    } else if is_word_byte(first) {
        Piece::Whole(TokenKind::Word, word_run(rest) + 1)
    } else if begins_pair(first, rest) {
        Piece::Whole(TokenKind::Mark, 2)
    } else if is_single(first) {
        Piece::Whole(TokenKind::Mark, 1)
    } else {
        Piece::Whole(TokenKind::Outside, 1)
    }
}
