//! The parts of productions at the front of a list of tokens.

ghost use Rattle.std.specs.Prelude.{◌≡◌, ◌==◌, option_map};
ghost use Rattle.ir_ast.specs.View.{view_type, view_operand};
ghost use Rattle.ir_part.specs.Reader.{Gives, seen};
ghost use Rattle.ir_body.specs.Parts as definition;

use crate::words::predicate_of;
use ir_ast::{IrType, Name, Operand, Predicate};
use ir_lex::name::behind_first;
use ir_lex::{Token, TokenKind};
use ir_part::{
    PartStop, after_mark, after_word, align_at, are_digits, is_bit, local_at, operand_at,
    same_type, strip_mark, typed_at, width_at,
};
use std::alloc::Global;

/// `%NAME` as an operand.
pub fn register_at<'t>(
    alloc: Global,
    tokens: &'t [Token<'t>],
) -> Result<(Operand, &'t [Token<'t>]), PartStop>
    ensures { Gives (λ x. (view_operand x.0, seen x.1.now)) result (definition.register_at (seen tokens.now)) }
{
    let (name, rest) = local_at(alloc, tokens)?;
    Ok((Operand::Local(name), rest))
}

/// The word of a comparison.
pub fn predicate_at<'t>(tokens: &'t [Token<'t>]) -> Result<(Predicate, &'t [Token<'t>]), PartStop>
    ensures { Gives (λ x. (x.0, seen x.1.now)) result (definition.predicate_at (seen tokens.now)) }
{
    match tokens {
        [
            Token {
                kind: TokenKind::Word,
                text,
                ..
            },
            rest @ ..,
        ] => match predicate_of(text) {
            Some(predicate) => Ok((predicate, rest)),
            None => Err(PartStop::NotSpelled),
        },
        _ => Err(PartStop::NotSpelled),
    }
}

/// `iN V`: the width in bits, and the operand.
pub fn width_value_at<'t>(
    alloc: Global,
    tokens: &'t [Token<'t>],
) -> Result<((u32, Operand), &'t [Token<'t>]), PartStop>
    ensures { Gives (λ x. ((x.0.0, view_operand x.0.1), seen x.1.now)) result (definition.width_value_at (seen tokens.now)) }
{
    let (width, rest) = width_at(tokens)?;
    let (value, rest) = operand_at(alloc, width == 1, rest)?;
    Ok(((width, value), rest))
}

/// `i1 V`
pub fn bit_at<'t>(
    alloc: Global,
    tokens: &'t [Token<'t>],
) -> Result<(Operand, &'t [Token<'t>]), PartStop>
    ensures { Gives (λ x. (view_operand x.0, seen x.1.now)) result (definition.bit_at (seen tokens.now)) }
{
    let ((width, value), rest) = width_value_at(alloc, tokens)?;
    if width == 1 {
        Ok((value, rest))
    } else {
        Err(PartStop::NotSpelled)
    }
}

/// `ptr V`
pub fn place_at<'t>(
    alloc: Global,
    tokens: &'t [Token<'t>],
) -> Result<(Operand, &'t [Token<'t>]), PartStop>
    ensures { Gives (λ x. (view_operand x.0, seen x.1.now)) result (definition.place_at (seen tokens.now)) }
{
    let rest = after_word(b"ptr", tokens)?;
    operand_at(alloc, false, rest)
}

/// `iN V , V`
pub fn width_pair_at<'t>(
    alloc: Global,
    tokens: &'t [Token<'t>],
) -> Result<((u32, Operand, Operand), &'t [Token<'t>]), PartStop>
    ensures { Gives (λ x. ((x.0.0, view_operand x.0.1, view_operand x.0.2), seen x.1.now)) result (definition.width_pair_at (seen tokens.now)) }
{
    let ((width, a), rest) = width_value_at(alloc, tokens)?;
    let rest = after_mark(b',', rest)?;
    let (b, rest) = operand_at(alloc, width == 1, rest)?;
    Ok(((width, a, b), rest))
}

/// `T V , V`
pub fn typed_pair_at<'t>(
    alloc: Global,
    tokens: &'t [Token<'t>],
) -> Result<((IrType, Operand, Operand), &'t [Token<'t>]), PartStop>
    ensures { Gives (λ x. ((view_type x.0.0, view_operand x.0.1, view_operand x.0.2), seen x.1.now)) result (definition.typed_pair_at (seen tokens.now)) }
{
    let ((over, a), rest) = typed_at(alloc, tokens)?;
    let rest = after_mark(b',', rest)?;
    let (b, rest) = operand_at(alloc, is_bit(&over), rest)?;
    Ok(((over, a, b), rest))
}

/// `T V , T V`, where both types are the same.
pub fn twice_at<'t>(
    alloc: Global,
    tokens: &'t [Token<'t>],
) -> Result<((IrType, Operand, Operand), &'t [Token<'t>]), PartStop>
    ensures { Gives (λ x. ((view_type x.0.0, view_operand x.0.1, view_operand x.0.2), seen x.1.now)) result (definition.twice_at (seen tokens.now)) }
{
    let ((over, a), rest) = typed_at(alloc, tokens)?;
    let rest = after_mark(b',', rest)?;
    let ((other, b), rest) = typed_at(alloc, rest)?;
    if same_type(&over, &other) {
        Ok(((over, a, b), rest))
    } else {
        Err(PartStop::NotSpelled)
    }
}

/// `[, align n] [, !range !N]`: an alignment in bytes, 0 where it is absent, and the range's number.
pub fn access_at<'t>(
    alloc: Global,
    tokens: &'t [Token<'t>],
) -> Result<((u64, Option<Name>), &'t [Token<'t>]), PartStop>
    ensures { Gives (λ x. (x.0, seen x.1.now)) result (definition.access_at (seen tokens.now)) }
{
    let (align, rest) = align_at(tokens)?;
    let (range, rest) = range_at(alloc, rest)?;
    Ok(((align, range), rest))
}

/// `[, !range !N]`
fn range_at<'t>(
    alloc: Global,
    tokens: &'t [Token<'t>],
) -> Result<(Option<Name>, &'t [Token<'t>]), PartStop>
    ensures { Gives (λ x. (x.0, seen x.1.now)) result (definition.range_at (seen tokens.now)) }
{
    match strip_range(tokens) {
        Some(rest) => range_name_at(alloc, rest),
        None => Ok((None, tokens)),
    }
}

/// What stands behind `, !range`.
fn strip_range<'t>(tokens: &'t [Token<'t>]) -> Option<&'t [Token<'t>]>
    ensures { option_map (λ x. seen x.now) result ≡ definition.after_range (seen tokens.now) }
{
    match strip_mark(b',', tokens) {
        Some(rest) => strip_range_word(rest),
        None => None,
    }
}

/// What stands behind `!range`.
fn strip_range_word<'t>(tokens: &'t [Token<'t>]) -> Option<&'t [Token<'t>]>
    ensures { option_map (λ x. seen x.now) result ≡ definition.after_range_word (seen tokens.now) }
{
    match tokens {
        [
            Token {
                kind: TokenKind::Metadata,
                text,
                ..
            },
            rest @ ..,
        ] => {
            if *text == b"!range".as_slice() {
                Some(rest)
            } else {
                None
            }
        }
        _ => None,
    }
}

/// `!N`: the digits as a name.
fn range_name_at<'t>(
    alloc: Global,
    tokens: &'t [Token<'t>],
) -> Result<(Option<Name>, &'t [Token<'t>]), PartStop>
    ensures { Gives (λ x. (x.0, seen x.1.now)) result (definition.range_name_at (seen tokens.now)) }
{
    match tokens {
        [
            Token {
                kind: TokenKind::Metadata,
                text,
                ..
            },
            rest @ ..,
        ] => {
            let digits = behind_first(text);
            if are_digits(digits) {
                let name = Name::copy_of(alloc, digits)?;
                Ok((Some(name), rest))
            } else {
                Err(PartStop::NotSpelled)
            }
        }
        _ => Err(PartStop::NotSpelled),
    }
}
