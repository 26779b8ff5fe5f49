//! Tokens told apart by what they are.

ghost use Rattle.std.specs.Prelude.{◌≡◌, ◌≤◌, IsTrue, length};
ghost use Rattle.ir_lex.specs.Lexeme.{lexeme, lexemes};
ghost use Rattle.ir_lex.specs.Drop as definition;

use crate::bytes::{begins_with, digit_run};
use crate::name::behind_first;
use crate::token::{Token, TokenKind};

/// Whether there are digits alone.
fn are_digits(bytes: &[u8]) -> bool
    ensures { result ≡ definition.are_digits bytes.now }
{
    digit_run(bytes) == bytes.len()
}

/// Digits.
pub fn is_digits(token: &Token<'_>) -> bool
    ensures { result ≡ definition.is_digits (lexeme token.now) }
{
    match token.kind {
        TokenKind::Number => !begins_with(b'-', token.text),
        _ => false,
    }
}

/// Whether digits are at the front.
pub fn begins_digits(tokens: &[Token<'_>]) -> bool
    ensures value { result ≡ definition.begins_digits (lexemes tokens.now) }
    ensures some { IsTrue result → 1 ≤ length tokens.now }
{
    match tokens {
        [first, ..] => is_digits(first),
        [] => false,
    }
}

/// A string without `c` before it.
pub fn is_string(token: &Token<'_>) -> bool
    ensures { result ≡ definition.is_string (lexeme token.now) }
{
    match token.kind {
        TokenKind::Quoted => begins_with(b'"', token.text),
        _ => false,
    }
}

/// `#` with a word or digits.
pub fn is_attribute(token: &Token<'_>) -> bool
    ensures { result ≡ definition.attribute_kind token.now.kind }
{
    match token.kind {
        TokenKind::Attribute => true,
        _ => false,
    }
}

/// `#` with digits.
pub fn is_attribute_number(token: &Token<'_>) -> bool
    ensures { result ≡ definition.is_attribute_number (lexeme token.now) }
{
    is_attribute(token) && are_digits(behind_first(token.text))
}

/// `!` with a name.
pub fn is_metadata(token: &Token<'_>) -> bool
    ensures { result ≡ definition.is_metadata (lexeme token.now) }
{
    match token.kind {
        TokenKind::Metadata => true,
        _ => false,
    }
}

/// `!` with digits.
pub fn is_metadata_number(token: &Token<'_>) -> bool
    ensures { result ≡ definition.is_metadata_number (lexeme token.now) }
{
    is_metadata(token) && are_digits(behind_first(token.text))
}

/// `!` with a word.
pub fn is_metadata_word(token: &Token<'_>) -> bool
    ensures { result ≡ definition.is_metadata_word (lexeme token.now) }
{
    is_metadata(token) && !are_digits(behind_first(token.text))
}

/// `@` with a name.
pub fn is_global(token: &Token<'_>) -> bool
    ensures { result ≡ definition.global_kind token.now.kind }
{
    match token.kind {
        TokenKind::Global => true,
        _ => false,
    }
}

/// A word of linkage.
fn is_linkage(token: &Token<'_>) -> bool
    ensures { result ≡ definition.is_linkage (lexeme token.now) }
{
    token.is_word(b"private")
        || token.is_word(b"internal")
        || token.is_word(b"available_externally")
        || token.is_word(b"common")
}

/// A word of weak linkage.
fn is_weak_linkage(token: &Token<'_>) -> bool
    ensures { result ≡ definition.is_weak_linkage (lexeme token.now) }
{
    token.is_word(b"linkonce")
        || token.is_word(b"linkonce_odr")
        || token.is_word(b"weak")
        || token.is_word(b"weak_odr")
}

/// A word of visibility, preemption or the address' use.
fn is_visibility(token: &Token<'_>) -> bool
    ensures { result ≡ definition.is_visibility (lexeme token.now) }
{
    token.is_word(b"hidden")
        || token.is_word(b"protected")
        || token.is_word(b"dso_local")
        || token.is_word(b"dso_preemptable")
        || token.is_word(b"unnamed_addr")
        || token.is_word(b"local_unnamed_addr")
}

/// A word of how a function is called.
fn is_call_word(token: &Token<'_>) -> bool
    ensures { result ≡ definition.is_call_word (lexeme token.now) }
{
    token.is_word(b"tail")
        || token.is_word(b"notail")
        || token.is_word(b"musttail")
        || token.is_word(b"fastcc")
        || token.is_word(b"ccc")
}

/// An attribute of how a value is passed.
fn is_value_attribute(token: &Token<'_>) -> bool
    ensures { result ≡ definition.is_value_attribute (lexeme token.now) }
{
    token.is_word(b"noundef")
        || token.is_word(b"zeroext")
        || token.is_word(b"signext")
        || token.is_word(b"inreg")
        || token.is_word(b"returned")
        || token.is_word(b"immarg")
}

/// An attribute of a pointer.
fn is_pointer_attribute(token: &Token<'_>) -> bool
    ensures { result ≡ definition.is_pointer_attribute (lexeme token.now) }
{
    token.is_word(b"noalias")
        || token.is_word(b"nonnull")
        || token.is_word(b"nocapture")
        || token.is_word(b"nofree")
}

/// An attribute of what a function does.
fn is_effect_attribute(token: &Token<'_>) -> bool
    ensures { result ≡ definition.is_effect_attribute (lexeme token.now) }
{
    token.is_word(b"readonly")
        || token.is_word(b"readnone")
        || token.is_word(b"writeonly")
        || token.is_word(b"nounwind")
}

/// A word that is dropped by itself.
pub fn is_dropped_word(token: &Token<'_>) -> bool
    ensures { result ≡ definition.is_dropped_word (lexeme token.now) }
{
    is_linkage(token)
        || is_weak_linkage(token)
        || is_visibility(token)
        || is_call_word(token)
        || is_value_attribute(token)
        || is_pointer_attribute(token)
        || is_effect_attribute(token)
}
