//! What stands at the front of a list of tokens: a mark, a word, a name.

ghost use Rattle.std.specs.Prelude.{◌≡◌, Some, option_map};
ghost use Rattle.ir_part.specs.Reader.{Gives, seen, ended};
ghost use Rattle.ir_part.specs.Fronts as definition;
ghost use Rattle.ir_part.specs.Many.{is_closed};

use crate::stop::PartStop;
use ir_ast::Name;
use ir_lex::{Token, TokenKind, sigil_name};
use std::alloc::Global;

/// The tokens behind this mark, where it stands at the front.
#[tactic(auto, unfolding(ir_lex::specs::Marks::is_mark))]
pub fn strip_mark<'t>(byte: u8, tokens: &'t [Token<'t>]) -> Option<&'t [Token<'t>]>
    ensures { option_map (λ x. seen x.now) result ≡ definition.after_mark byte (seen tokens.now) }
{
    match tokens {
        [first, rest @ ..] if first.is_mark(byte) => Some(rest),
        _ => None,
    }
}

/// The tokens behind this word, where it stands at the front.
#[tactic(auto, unfolding(ir_lex::specs::Marks::is_word))]
pub fn strip_word<'t>(word: &[u8], tokens: &'t [Token<'t>]) -> Option<&'t [Token<'t>]>
    ensures { option_map (λ x. seen x.now) result ≡ definition.after_word word.now (seen tokens.now) }
{
    match tokens {
        [first, rest @ ..] if first.is_word(word) => Some(rest),
        _ => None,
    }
}

/// The tokens behind this mark.
pub fn after_mark<'t>(byte: u8, tokens: &'t [Token<'t>]) -> Result<&'t [Token<'t>], PartStop>
    ensures { Gives (λ x. seen x.now) result (definition.after_mark byte (seen tokens.now)) }
{
    match strip_mark(byte, tokens) {
        Some(rest) => Ok(rest),
        None => Err(PartStop::NotSpelled),
    }
}

/// The tokens behind this word.
pub fn after_word<'t>(word: &[u8], tokens: &'t [Token<'t>]) -> Result<&'t [Token<'t>], PartStop>
    ensures { Gives (λ x. seen x.now) result (definition.after_word word.now (seen tokens.now)) }
{
    match strip_word(word, tokens) {
        Some(rest) => Ok(rest),
        None => Err(PartStop::NotSpelled),
    }
}

/// Whether this word stands at the front, and the tokens behind it.
#[tactic(auto, unfolding(ir_lex::specs::Marks::is_word))]
pub fn flag_at<'t>(word: &[u8], tokens: &'t [Token<'t>]) -> (bool, &'t [Token<'t>])
    ensures { definition.flag_at word.now (seen tokens.now) ≡ Some (result.0, seen result.1.now) }
{
    match tokens {
        [first, rest @ ..] if first.is_word(word) => (true, rest),
        _ => (false, tokens),
    }
}

/// Whether this mark stands at the front.
#[tactic(auto, unfolding(ir_lex::specs::Marks::is_mark))]
pub fn begins_mark(byte: u8, tokens: &[Token<'_>]) -> bool
    ensures { result ≡ is_closed byte (seen tokens.now) }
{
    match tokens {
        [first, ..] => first.is_mark(byte),
        [] => false,
    }
}

/// No token is left.
pub fn end(tokens: &[Token<'_>]) -> Result<(), PartStop>
    ensures { Gives (λ x. x) result (ended (seen tokens.now)) }
{
    if tokens.is_empty() {
        Ok(())
    } else {
        Err(PartStop::NotSpelled)
    }
}

/// `%NAME`
pub fn local_at<'t>(
    alloc: Global,
    tokens: &'t [Token<'t>],
) -> Result<(Name, &'t [Token<'t>]), PartStop>
    ensures { Gives (λ x. (x.0, seen x.1.now)) result (definition.local_at (seen tokens.now)) }
{
    match tokens {
        [
            Token {
                kind: TokenKind::Local,
                text,
                ..
            },
            rest @ ..,
        ] => {
            let name = sigil_name(alloc, text)?;
            Ok((name, rest))
        }
        _ => Err(PartStop::NotSpelled),
    }
}

/// `@NAME`
pub fn global_at<'t>(
    alloc: Global,
    tokens: &'t [Token<'t>],
) -> Result<(Name, &'t [Token<'t>]), PartStop>
    ensures { Gives (λ x. (x.0, seen x.1.now)) result (definition.global_at (seen tokens.now)) }
{
    match tokens {
        [
            Token {
                kind: TokenKind::Global,
                text,
                ..
            },
            rest @ ..,
        ] => {
            let name = sigil_name(alloc, text)?;
            Ok((name, rest))
        }
        _ => Err(PartStop::NotSpelled),
    }
}

/// `label %NAME`
pub fn label_at<'t>(
    alloc: Global,
    tokens: &'t [Token<'t>],
) -> Result<(Name, &'t [Token<'t>]), PartStop>
    ensures { Gives (λ x. (x.0, seen x.1.now)) result (definition.label_at (seen tokens.now)) }
{
    let rest = after_word(b"label", tokens)?;
    local_at(alloc, rest)
}
