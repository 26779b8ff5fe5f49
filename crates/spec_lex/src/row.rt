//! Physical lines: where they end, and their tokens.

ghost use Rattle.std.specs.Prelude.{◌≡◌, ◌+◌, ◌<◌, ◌≤◌, ◌^◌, ◌++◌, ◌∷◌, length, take_while, IfOk, OnOk};
ghost use Rattle.spec_lex.specs.Token.{open_behind, open_after, token_of};
ghost use Rattle.spec_lex.specs.Bytes as bytes;
ghost use Rattle.spec_lex.specs.Lines.{rows_of};
ghost use Rattle.spec_lex.specs.Reading.{row_tokens, rows_left, size_left};
ghost use Rattle.spec_lex.specs.Rest.{left_of};

use crate::bytes::{blank_run, row_run};
use crate::piece::{Piece, piece_of};
use crate::token::{Token, TokenList};
use std::alloc::AllocError;

/// The first physical line of a text, and what stands behind its newline, if it has one.
pub fn first_row<'t>(text: &'t [u8]) -> (&'t [u8], Option<&'t [u8]>)
    ensures rows { rows_of text.now ≡ result.0.now ∷ rows_left (left_of result.1) }
    ensures smaller { length result.0.now + size_left (left_of result.1) ≤ length text.now }
{
    let (row, after) = text.split_at(row_run(text));
    match after {
        [_, rest @ ..] => (row, Some(rest)),
        [] => (row, None),
    }
}

/// The blanks at the front of a physical line.
pub fn leading_blanks(row: &[u8]) -> &[u8]
    ensures { result.now ≡ take_while bytes.is_blank row.now }
{
    row.split_at(blank_run(row)).0
}

/// How many brackets are open behind a token.
fn nest_behind(nest: usize, token: &Token<'_>) -> usize
    requires { nest < 2 ^ 32 }
    ensures value { result ≡ open_behind nest (token_of token.now) }
    ensures within { result ≤ nest + 1 }
{
    if token.is_opening() {
        nest + 1
    } else if token.is_closing() {
        nest.saturating_sub(1)
    } else {
        nest
    }
}

/// Puts the tokens of a physical line behind those found, and says how many brackets are open then.
#[tactic(auto, using(crate::proofs::Rows::row_reading))]
pub fn put_tokens<'t>(
    row: &'t [u8],
    nest: usize,
    found: &mut TokenList<'t>,
) -> Result<usize, AllocError>
    requires short { length row.now < 2 ^ 31 }
    requires few { nest < 2 ^ 31 }
    ensures tokens { OnOk result (found.new ≡ found.old ++ row_tokens row.now) }
    ensures nest { IfOk result (λ behind. behind ≡ open_after nest (row_tokens row.now)) }
    ensures within { IfOk result (λ behind. behind ≤ nest + length row.now) }
{
    let mut rest = row;
    let mut level = nest;
    while !rest.is_empty() {
        match piece_of(rest) {
            Piece::Blank => rest = rest.split_at(1).1,
            Piece::Comment => return Ok(level),
            Piece::Whole(kind, length) => {
                let (text, after) = rest.split_at(length);
                let token = Token { kind, text };
                level = nest_behind(level, &token);
                found.push(token)?;
                rest = after;
            }
        }
    }
    Ok(level)
}
