//! Operands at the front of a list of tokens, and constant addresses in them.

ghost use Rattle.std.specs.Prelude.{◌≡◌, map};
ghost use Rattle.ir_ast.specs.View.{view_type, view_operand, view_gep};
ghost use Rattle.ir_ast.specs.ProgramView.{view_typed};
ghost use Rattle.ir_lex.specs.ValueSpelling.{offset_flags};
ghost use Rattle.ir_part.specs.Reader.{Gives, seen};
ghost use Rattle.ir_part.specs.Many.{some, is_closed};
ghost use Rattle.ir_part.specs.Types as types;
ghost use Rattle.ir_part.specs.Operands as definition;
ghost use Rattle.ir_part.specs.Operands.{operand_within};

use crate::front::{after_mark, after_word, begins_mark, flag_at};
use crate::many::{Element, elements_at};
use crate::number::{number_at, number_of, width_at};
use crate::stop::PartStop;
use crate::types::type_at;
use ir_ast::{Flags, Gep, IrType, Operand};
use ir_lex::{Token, TokenKind, sigil_name};
use std::alloc::Global;

/// How many constant address forms stand in one another at most.
const MOST_NESTED: u32 = 100;

/// Whether the type is `i1`, at which `true` and `false` are operands.
pub fn is_bit(over: &IrType) -> bool
    ensures { result ≡ types.is_bit (view_type over.now) }
{
    match over {
        IrType::Int(width) => *width == 1,
        _ => false,
    }
}

/// An operand at `i1` or at another type, and the tokens behind it.
#[tactic(auto, unfolding(crate::specs::Operands::operand_at))]
pub fn operand_at<'t>(
    alloc: Global,
    bit: bool,
    tokens: &'t [Token<'t>],
) -> Result<(Operand, &'t [Token<'t>]), PartStop>
    ensures { Gives (λ x. (view_operand x.0, seen x.1.now)) result (definition.operand_at bit (seen tokens.now)) }
{
    operand_within(alloc, MOST_NESTED, bit, tokens)
}

/// `T V`, and the tokens behind it.
pub fn typed_at<'t>(
    alloc: Global,
    tokens: &'t [Token<'t>],
) -> Result<((IrType, Operand), &'t [Token<'t>]), PartStop>
    ensures { Gives (λ x. ((view_type x.0.0, view_operand x.0.1), seen x.1.now)) result (definition.typed_at (seen tokens.now)) }
{
    let (over, rest) = type_at(alloc, tokens)?;
    let (value, rest) = operand_at(alloc, is_bit(&over), rest)?;
    Ok(((over, value), rest))
}

/// An operand with at most so many constant address forms in one another.
#[cycle(operands)]
fn operand_within<'t>(
    alloc: Global,
    nested: u32,
    bit: bool,
    tokens: &'t [Token<'t>],
) -> Result<(Operand, &'t [Token<'t>]), PartStop>
    ensures { Gives (λ x. (view_operand x.0, seen x.1.now)) result (operand_within nested bit (seen tokens.now)) }
{
    match tokens {
        [
            Token {
                kind: TokenKind::Word,
                text,
                ..
            },
            rest @ ..,
        ] => value_word(alloc, nested, bit, text, rest),
        [
            Token {
                kind: TokenKind::Number,
                text,
                ..
            },
            rest @ ..,
        ] => match number_of(text) {
            Some(number) => Ok((Operand::Number(number), rest)),
            None => Err(PartStop::NotSpelled),
        },
        [
            Token {
                kind: TokenKind::Local,
                text,
                ..
            },
            rest @ ..,
        ] => {
            let name = sigil_name(alloc, text)?;
            Ok((Operand::Local(name), rest))
        }
        [
            Token {
                kind: TokenKind::Global,
                text,
                ..
            },
            rest @ ..,
        ] => {
            let name = sigil_name(alloc, text)?;
            Ok((Operand::Global(name), rest))
        }
        _ => Err(PartStop::NotSpelled),
    }
}

/// An operand that begins with this word.
#[cycle(operands)]
fn value_word<'t>(
    alloc: Global,
    nested: u32,
    bit: bool,
    word: &[u8],
    rest: &'t [Token<'t>],
) -> Result<(Operand, &'t [Token<'t>]), PartStop>
    ensures { Gives (λ x. (view_operand x.0, seen x.1.now)) result (definition.value_word bit (definition.base_within nested) word.now (seen rest.now)) }
{
    if word == b"null".as_slice() {
        Ok((Operand::Null, rest))
    } else if word == b"poison".as_slice() {
        Ok((Operand::Poison, rest))
    } else if word == b"getelementptr".as_slice() {
        address_at(alloc, nested, rest)
    } else if bit {
        truth_word(word, rest)
    } else {
        Err(PartStop::NotSpelled)
    }
}

/// `true` or `false`, where this is the word.
fn truth_word<'t>(
    word: &[u8],
    rest: &'t [Token<'t>],
) -> Result<(Operand, &'t [Token<'t>]), PartStop>
    ensures { Gives (λ x. (view_operand x.0, seen x.1.now)) result (definition.truth_word word.now (seen rest.now)) }
{
    if word == b"true".as_slice() {
        Ok((Operand::Number(1), rest))
    } else if word == b"false".as_slice() {
        Ok((Operand::Number(0), rest))
    } else {
        Err(PartStop::NotSpelled)
    }
}

/// `[inbounds [nuw]] ( T , ptr V , iN number , .. )` as an operand.
#[cycle(operands)]
fn address_at<'t>(
    alloc: Global,
    nested: u32,
    tokens: &'t [Token<'t>],
) -> Result<(Operand, &'t [Token<'t>]), PartStop>
    ensures { Gives (λ x. (view_operand x.0, seen x.1.now)) result (definition.address_at (definition.base_within nested) (seen tokens.now)) }
{
    let (form, rest) = form_at(alloc, nested, tokens)?;
    let form = Box::new(alloc, form)?;
    Ok((Operand::address_of(form), rest))
}

/// `[inbounds [nuw]] ( T , ptr V , iN number , .. )`
#[cycle(operands)]
#[tactic(auto, using(crate::proofs::OperandSteps::indices_seen))]
fn form_at<'t>(
    alloc: Global,
    nested: u32,
    tokens: &'t [Token<'t>],
) -> Result<(Gep, &'t [Token<'t>]), PartStop>
    ensures { Gives (λ x. (view_gep x.0, seen x.1.now)) result (definition.form_at (definition.base_within nested) (seen tokens.now)) }
{
    let ((flags, over), rest) = form_head(alloc, tokens)?;
    let (base, rest) = base_within(alloc, nested, rest)?;
    let (indices, rest) = number_indices(alloc, rest)?;
    let rest = after_mark(b')', rest)?;
    Ok((Gep::of(flags, over, base, indices), rest))
}

/// `[inbounds [nuw]] ( T , ptr`: the flags, and the type.
fn form_head<'t>(
    alloc: Global,
    tokens: &'t [Token<'t>],
) -> Result<((Flags, IrType), &'t [Token<'t>]), PartStop>
    ensures { Gives (λ x. ((x.0.0, view_type x.0.1), seen x.1.now)) result (definition.form_head (seen tokens.now)) }
{
    let (flags, rest) = bounds_at(tokens)?;
    let rest = after_mark(b'(', rest)?;
    let (over, rest) = type_at(alloc, rest)?;
    let rest = after_mark(b',', rest)?;
    let rest = after_word(b"ptr", rest)?;
    Ok(((flags, over), rest))
}

/// The base of a constant address form, where so many may stand in one another, this one counted.
#[cycle(operands)]
#[tactic(auto, using(crate::proofs::OperandSteps::base_steps))]
fn base_within<'t>(
    alloc: Global,
    nested: u32,
    tokens: &'t [Token<'t>],
) -> Result<(Operand, &'t [Token<'t>]), PartStop>
    ensures { Gives (λ x. (view_operand x.0, seen x.1.now)) result (definition.base_within nested (seen tokens.now)) }
{
    if nested == 0 {
        Err(PartStop::NotSpelled)
    } else {
        operand_within(alloc, nested - 1, false, tokens)
    }
}

/// `[inbounds [nuw]]`
fn bounds_at<'t>(tokens: &'t [Token<'t>]) -> Result<(Flags, &'t [Token<'t>]), PartStop>
    ensures { Gives (λ x. (x.0, seen x.1.now)) result (definition.bounds_at (seen tokens.now)) }
{
    let (inbounds, rest) = flag_at(b"inbounds", tokens);
    let (nuw, rest) = flag_at(b"nuw", rest);
    if inbounds || !nuw {
        Ok((offset_flags(inbounds, nuw), rest))
    } else {
        Err(PartStop::NotSpelled)
    }
}

/// The flags of a `getelementptr`.
pub fn offset_flags(inbounds: bool, nuw: bool) -> Flags
    ensures { result ≡ offset_flags inbounds nuw }
{
    Flags {
        nuw,
        nsw: false,
        exact: false,
        disjoint: false,
        nneg: false,
        inbounds,
    }
}

/// The indices of a constant address, up to a `)`.
#[derive(Drop)]
struct NumberIndices;

impl Element for NumberIndices {
    ghost use Rattle.ir_ast.specs.View.{view_type, view_operand};
    ghost use Rattle.ir_ast.specs.Plain.{Ty, Val};
    ghost use Rattle.ir_part.specs.Many.{is_closed};
    ghost use Rattle.ir_part.specs.Operands.{number_index};

    type Item = (IrType, Operand);

    ghost Seen = { Ty × Val };

    ghost view = { λ p. (view_type p.0, view_operand p.1) };

    ghost stops = { λ _. is_closed 41 };

    ghost first_reads = { λ _. number_index };

    ghost reads = { λ _. number_index };

    fn is_end(&self, tokens: &[Token<'_>]) -> bool {
        begins_mark(b')', tokens)
    }

    fn first<'t>(
        &self,
        _alloc: Global,
        tokens: &'t [Token<'t>],
    ) -> Result<((IrType, Operand), &'t [Token<'t>]), PartStop> {
        number_index(tokens)
    }

    fn further<'t>(
        &self,
        _alloc: Global,
        tokens: &'t [Token<'t>],
    ) -> Result<((IrType, Operand), &'t [Token<'t>]), PartStop> {
        number_index(tokens)
    }
}

/// `, iN number , ..` up to a `)`.
fn number_indices<'t>(
    alloc: Global,
    tokens: &'t [Token<'t>],
) -> Result<(Vec<(IrType, Operand)>, &'t [Token<'t>]), PartStop>
    ensures { Gives (λ x. (view_typed x.0.items, seen x.1.now)) result (some (is_closed 41) definition.number_index definition.number_index (seen tokens.now)) }
{
    elements_at(alloc, &NumberIndices, tokens)
}

/// `, iN number`
fn number_index<'t>(
    tokens: &'t [Token<'t>],
) -> Result<((IrType, Operand), &'t [Token<'t>]), PartStop>
    ensures { Gives (λ x. ((view_type x.0.0, view_operand x.0.1), seen x.1.now)) result (definition.number_index (seen tokens.now)) }
{
    let rest = after_mark(b',', tokens)?;
    let (width, rest) = width_at(rest)?;
    let (number, rest) = number_at(rest)?;
    Ok(((IrType::Int(width), Operand::Number(number)), rest))
}
