//! Types at the front of a list of tokens.

ghost use Rattle.std.specs.Prelude.{◌≡◌, map};
ghost use Rattle.ir_ast.specs.View.{view_type};
ghost use Rattle.ir_lex.specs.Decimal.{width_of};
ghost use Rattle.ir_part.specs.Reader.{Gives, seen};
ghost use Rattle.ir_part.specs.Many.{some, is_closed, behind_comma, separated};
ghost use Rattle.ir_part.specs.Types as definition;
ghost use Rattle.ir_part.specs.Types.{type_within};

use crate::front::{after_mark, after_word, begins_mark, strip_mark, strip_word};
use crate::number::{count_at, width_of};
use crate::stop::PartStop;
use ir_ast::IrType;
use ir_lex::{Token, TokenKind, sigil_name};
use std::alloc::Global;

/// The greatest depth of a type. A named type and one without parts have the depth 1, any other one more than its deepest part.
const MOST_DEPTH: u32 = 100;

/// A type of a depth of at most 100, and the tokens behind it.
#[tactic(auto, unfolding(crate::specs::Types::type_at))]
pub fn type_at<'t>(
    alloc: Global,
    tokens: &'t [Token<'t>],
) -> Result<(IrType, &'t [Token<'t>]), PartStop>
    ensures { Gives (λ x. (view_type x.0, seen x.1.now)) result (definition.type_at (seen tokens.now)) }
{
    type_within(alloc, MOST_DEPTH, tokens)
}

/// A type or `void`, and the tokens behind it.
pub fn result_at<'t>(
    alloc: Global,
    tokens: &'t [Token<'t>],
) -> Result<(IrType, &'t [Token<'t>]), PartStop>
    ensures { Gives (λ x. (view_type x.0, seen x.1.now)) result (definition.result_at (seen tokens.now)) }
{
    match strip_word(b"void", tokens) {
        Some(rest) => Ok((IrType::Void, rest)),
        None => type_at(alloc, tokens),
    }
}

/// A type of at most this depth.
#[cycle(types)]
#[tactic(auto, using(crate::proofs::TypeSteps::type_steps))]
fn type_within<'t>(
    alloc: Global,
    depth: u32,
    tokens: &'t [Token<'t>],
) -> Result<(IrType, &'t [Token<'t>]), PartStop>
    ensures { Gives (λ x. (view_type x.0, seen x.1.now)) result (type_within depth (seen tokens.now)) }
{
    if depth == 0 {
        Err(PartStop::NotSpelled)
    } else {
        type_step(alloc, depth - 1, tokens)
    }
}

/// A type whose parts have at most this depth.
#[cycle(types)]
fn type_step<'t>(
    alloc: Global,
    depth: u32,
    tokens: &'t [Token<'t>],
) -> Result<(IrType, &'t [Token<'t>]), PartStop>
    ensures { Gives (λ x. (view_type x.0, seen x.1.now)) result (definition.type_step (type_within depth) (seen tokens.now)) }
{
    match tokens {
        [
            Token {
                kind: TokenKind::Word,
                text,
                ..
            },
            rest @ ..,
        ] => type_word(text, rest),
        [
            Token {
                kind: TokenKind::Local,
                text,
                ..
            },
            rest @ ..,
        ] => {
            let name = sigil_name(alloc, text)?;
            Ok((IrType::Named(name), rest))
        }
        [
            Token {
                kind: TokenKind::Mark,
                text,
                ..
            },
            rest @ ..,
        ] => type_mark(alloc, depth, text, rest),
        _ => Err(PartStop::NotSpelled),
    }
}

/// `iN` or `ptr`, where this is the word.
fn type_word<'t>(word: &[u8], rest: &'t [Token<'t>]) -> Result<(IrType, &'t [Token<'t>]), PartStop>
    ensures { Gives (λ x. (view_type x.0, seen x.1.now)) result (definition.type_word (width_of word.now) word.now (seen rest.now)) }
{
    match width_of(word) {
        Some(width) => Ok((IrType::Int(width), rest)),
        None => {
            if word == b"ptr".as_slice() {
                Ok((IrType::Ptr, rest))
            } else {
                Err(PartStop::NotSpelled)
            }
        }
    }
}

/// An array or a struct, where this is its first mark.
#[cycle(types)]
fn type_mark<'t>(
    alloc: Global,
    depth: u32,
    mark: &[u8],
    rest: &'t [Token<'t>],
) -> Result<(IrType, &'t [Token<'t>]), PartStop>
    ensures { Gives (λ x. (view_type x.0, seen x.1.now)) result (definition.type_mark (type_within depth) mark.now (seen rest.now)) }
{
    if mark == b"[".as_slice() {
        array_at(alloc, depth, rest)
    } else if mark == b"{".as_slice() {
        struct_at(alloc, depth, rest)
    } else if mark == b"<".as_slice() {
        packed_at(alloc, depth, rest)
    } else {
        Err(PartStop::NotSpelled)
    }
}

/// `n x T ]`
#[cycle(types)]
fn array_at<'t>(
    alloc: Global,
    depth: u32,
    tokens: &'t [Token<'t>],
) -> Result<(IrType, &'t [Token<'t>]), PartStop>
    ensures { Gives (λ x. (view_type x.0, seen x.1.now)) result (definition.array_at (type_within depth) (seen tokens.now)) }
{
    let (length, rest) = count_at(tokens)?;
    let rest = after_word(b"x", rest)?;
    let (element, rest) = type_within(alloc, depth, rest)?;
    let rest = after_mark(b']', rest)?;
    let element = Box::new(alloc, element)?;
    Ok((IrType::array_of(length, element), rest))
}

/// `T , .. }`
#[cycle(types)]
fn struct_at<'t>(
    alloc: Global,
    depth: u32,
    tokens: &'t [Token<'t>],
) -> Result<(IrType, &'t [Token<'t>]), PartStop>
    ensures { Gives (λ x. (view_type x.0, seen x.1.now)) result (definition.struct_at (type_within depth) (seen tokens.now)) }
{
    let (parts, rest) = parts_at(alloc, depth, tokens)?;
    Ok((IrType::struct_of(parts), rest))
}

/// `{ T , .. } >`
#[cycle(types)]
fn packed_at<'t>(
    alloc: Global,
    depth: u32,
    tokens: &'t [Token<'t>],
) -> Result<(IrType, &'t [Token<'t>]), PartStop>
    ensures { Gives (λ x. (view_type x.0, seen x.1.now)) result (definition.packed_at (type_within depth) (seen tokens.now)) }
{
    let rest = after_mark(b'{', tokens)?;
    let (parts, rest) = parts_at(alloc, depth, rest)?;
    let rest = after_mark(b'>', rest)?;
    Ok((IrType::packed_of(parts), rest))
}

/// `T , .. }`: the types.
#[cycle(types)]
fn parts_at<'t>(
    alloc: Global,
    depth: u32,
    tokens: &'t [Token<'t>],
) -> Result<(Vec<IrType>, &'t [Token<'t>]), PartStop>
    ensures { Gives (λ x. (map view_type x.0.items, seen x.1.now)) result (separated (type_within depth) 125 (seen tokens.now)) }
{
    match strip_mark(b'}', tokens) {
        Some(rest) => Ok((Vec::new(alloc), rest)),
        None => {
            let (parts, rest) = some_parts(alloc, depth, tokens)?;
            let rest = after_mark(b'}', rest)?;
            Ok((parts, rest))
        }
    }
}

/// `T , ..` up to a `}`.
#[cycle(types)]
fn some_parts<'t>(
    alloc: Global,
    depth: u32,
    tokens: &'t [Token<'t>],
) -> Result<(Vec<IrType>, &'t [Token<'t>]), PartStop>
    ensures { Gives (λ x. (map view_type x.0.items, seen x.1.now)) result (some (is_closed 125) (type_within depth) (behind_comma (type_within depth)) (seen tokens.now)) }
{
    let (first, mut rest) = type_within(alloc, depth, tokens)?;
    let mut parts = Vec::new(alloc);
    parts.push(first)?;
    let most = rest.len() + 1;
    'more: for _ in 0..most {
        if begins_mark(b'}', rest) {
            return Ok((parts, rest));
        }
        let after_comma = after_mark(b',', rest)?;
        let (part, after) = type_within(alloc, depth, after_comma)?;
        parts.push(part)?;
        rest = after;
    }
    Err(PartStop::NotSpelled)
}
