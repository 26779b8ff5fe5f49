//! The tokens of an item that carry no meaning, which a reader does not look at.

ghost use Rattle.std.specs.Prelude.{◌≡◌, ◌<◌, ◌≤◌, ◌+◌, IfOk, IfSome, IsTrue, [], length};
ghost use Rattle.ir_lex.specs.Lexeme.{lexeme, lexemes};
ghost use Rattle.ir_lex.specs.Drop as definition;
ghost use Rattle.ir_lex.specs.Within.{IsFrontWithin};

use crate::brackets::Brackets;
use crate::bytes::begins_with;
use crate::cut::takes_parentheses;
use crate::tell::{
    begins_digits, is_attribute_number, is_dropped_word, is_metadata, is_metadata_number, is_string,
};
use crate::token::{Token, TokenKind, TokenList, begins_mark};
use std::alloc::{AllocError, Global};

/// What of the front of an item is dropped.
#[derive(Clone, Copy, Debug, PartialEq, Eq)]
pub enum Front {
    /// The first token remains.
    Kept,
    /// So many tokens are dropped together.
    Dropped(usize),
    /// A dropped word whose parentheses never close: all that is left remains.
    Unclosed,
}

/// The tokens of an item that remain, in their order. The rules for the tokens that are dropped are the project's own; what is dropped
/// has no bearing on the meaning that this project gives to a kernel.
pub fn remaining<'t>(alloc: Global, tokens: &'t [Token<'t>]) -> Result<TokenList<'t>, AllocError>
    ensures { IfOk result (λ list. list ≡ definition.remaining (lexemes tokens.now)) }
{
    let mut at = label_length(tokens);
    let mut kept = Vec::from_slice(alloc, tokens.split_at(at).0)?;
    let mut after_comma = false;
    while at < tokens.len() {
        let rest = tokens.split_at(at).1;
        match front_of(alloc, after_comma, rest)? {
            Front::Kept => {
                kept.push(rest[0])?;
                after_comma = rest[0].is_mark(b',');
                at += 1;
            }
            Front::Dropped(count) => {
                after_comma = false;
                at += count;
            }
            Front::Unclosed => {
                kept.extend_from_slice(rest)?;
                at = tokens.len();
            }
        }
    }
    Ok(TokenList::new(kept))
}

/// Whether the tokens are a label: a word, digits or a string, and `:`.
pub fn is_label(tokens: &[Token<'_>]) -> bool
    ensures { result ≡ definition.is_label (lexemes tokens.now) }
{
    match tokens {
        [first, second] => is_label_name(first) && second.is_mark(b':'),
        _ => false,
    }
}

/// What of the front is dropped, behind a comma or not.
fn front_of(alloc: Global, after_comma: bool, tokens: &[Token<'_>]) -> Result<Front, AllocError>
    ensures value { IfOk result (λ front. front ≡ definition.front_of after_comma (lexemes tokens.now)) }
    ensures within { IfOk result (IsFrontWithin (length tokens.now)) }
{
    match tokens {
        [] => Ok(Front::Kept),
        [first, rest @ ..] => front_from(alloc, after_comma, first, rest),
    }
}

/// What of the front is dropped, where this token and these others are left.
fn front_from(
    alloc: Global,
    after_comma: bool,
    first: &Token<'_>,
    rest: &[Token<'_>],
) -> Result<Front, AllocError>
    ensures value { IfOk result (λ front. front ≡ definition.front_from after_comma (lexeme first.now) (lexemes rest.now)) }
    ensures within { IfOk result (IsFrontWithin (length rest.now + 1)) }
{
    if first.is_mark(b',') && begins_dropped_pair(rest) {
        Ok(Front::Dropped(3))
    } else if ends_dropped_pair(first, rest) {
        Ok(Front::Dropped(2))
    } else if is_dropped_word(first) || is_attribute_number(first) {
        Ok(Front::Dropped(1))
    } else if first.is_word(b"align") && !after_comma && begins_digits(rest) {
        Ok(Front::Dropped(2))
    } else if takes_parentheses(first) && begins_mark(b'(', rest) {
        match group_length(alloc, rest)? {
            Some(count) => Ok(Front::Dropped(count + 1)),
            None => Ok(Front::Unclosed),
        }
    } else {
        Ok(Front::Kept)
    }
}

/// How many tokens stand up to the one that closes the bracket at the front.
fn group_length(alloc: Global, tokens: &[Token<'_>]) -> Result<Option<usize>, AllocError>
    ensures value { IfOk result (λ count. count ≡ definition.group_length [] (lexemes tokens.now)) }
    ensures within { IfOk result (λ count. IfSome count (λ n. n ≤ length tokens.now)) }
{
    let mut brackets = Brackets::new(alloc);
    for (at, token) in tokens.iter().enumerate() {
        brackets.pass(token)?;
        if brackets.is_empty() {
            return Ok(Some(at + 1));
        }
    }
    Ok(None)
}

/// How many tokens a label at the front has.
fn label_length(tokens: &[Token<'_>]) -> usize
    ensures value { result ≡ definition.label_length (lexemes tokens.now) }
    ensures within { result ≤ length tokens.now }
{
    if begins_label(tokens) { 2 } else { 0 }
}

/// Whether a word, digits or a string with `:` is at the front.
pub fn begins_label(tokens: &[Token<'_>]) -> bool
    ensures value { result ≡ definition.begins_label (lexemes tokens.now) }
    ensures some { IsTrue result → 2 ≤ length tokens.now }
{
    match tokens {
        [first, second, ..] => is_label_name(first) && second.is_mark(b':'),
        _ => false,
    }
}

/// Whether the token is a word, digits or a string.
fn is_label_name(token: &Token<'_>) -> bool
    ensures { result ≡ definition.label_kind token.now.kind token.now.text.now }
{
    match token.kind {
        TokenKind::Word => true,
        TokenKind::Number => !begins_with(b'-', token.text),
        TokenKind::Quoted => begins_with(b'"', token.text),
        _ => false,
    }
}

/// Whether two tokens are at the front that take a comma before them along.
fn begins_dropped_pair(tokens: &[Token<'_>]) -> bool
    ensures value { result ≡ definition.begins_dropped_pair (lexemes tokens.now) }
    ensures some { IsTrue result → 2 ≤ length tokens.now }
{
    match tokens {
        [first, second, ..] => is_dropped_pair(first, second),
        _ => false,
    }
}

/// Whether this token makes such a pair with the one behind it.
fn ends_dropped_pair(first: &Token<'_>, rest: &[Token<'_>]) -> bool
    ensures value { result ≡ definition.pairs_dropped (lexeme first.now) (lexemes rest.now) }
    ensures some { IsTrue result → 1 ≤ length rest.now }
{
    match rest {
        [second, ..] => is_dropped_pair(first, second),
        [] => false,
    }
}

/// `section STRING`, and `!KIND !N` for every kind but `range`.
fn is_dropped_pair(first: &Token<'_>, second: &Token<'_>) -> bool
    ensures { result ≡ definition.is_dropped_pair (lexeme first.now) (lexeme second.now) }
{
    (first.is_word(b"section") && is_string(second))
        || (is_metadata(first)
            && !(first.text == b"!range".as_slice())
            && is_metadata_number(second))
}
