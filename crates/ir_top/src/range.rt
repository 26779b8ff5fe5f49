//! Ranges, which stand in items that are otherwise dropped (LLVM Language Reference, "'range' Metadata").

ghost use Rattle.std.specs.Prelude.{◌≡◌, IfOk, drop};
ghost use Rattle.ir_ast.specs.View.{view_type};
ghost use Rattle.ir_lex.specs.Drop as drops;
ghost use Rattle.ir_part.specs.Reader.{Gives, seen};
ghost use Rattle.ir_part.specs.Many.{some, is_closed, behind_comma, separated};
ghost use Rattle.ir_top.specs.Tops as definition;
ghost use Rattle.ir_top.specs.TopView.{view_numbers, IsRange};

use ir_ast::{IrType, Name, TypedNumberList};
use ir_lex::name::behind_first;
use ir_lex::{Token, TokenKind};
use ir_part::front::strip_mark;
use ir_part::many::{Element, elements_at};
use ir_part::number::are_digits;
use ir_part::{PartStop, after_mark, begins_mark, end, number_at, type_at};
use std::alloc::{AllocError, Global};

/// The range that the tokens of an item spell, with its number as its name, or `None` exactly where they spell none.
pub fn read_range<'t>(
    alloc: Global,
    tokens: &'t [Token<'t>],
) -> Result<Option<(Name, TypedNumberList)>, AllocError>
    ensures { IfOk result (IsRange (seen tokens.now)) }
{
    match range_at(alloc, tokens) {
        Ok((name, items)) => Ok(Some((name, TypedNumberList { items }))),
        Err(PartStop::NotSpelled) => Ok(None),
        Err(PartStop::Memory) => Err(AllocError),
    }
}

/// `!N = !{ T n , .. }` with one pair or more.
#[tactic(auto, unfolding(crate::specs::Tops::range_at))]
fn range_at<'t>(
    alloc: Global,
    tokens: &'t [Token<'t>],
) -> Result<(Name, Vec<(IrType, i128)>), PartStop>
    ensures { Gives (λ x. (x.0, view_numbers x.1.items)) result (definition.range_at (seen tokens.now)) }
{
    let (name, rest) = metadata_at(alloc, tokens)?;
    let rest = after_mark(b'=', rest)?;
    let rest = after_mark(b'!', rest)?;
    let rest = after_mark(b'{', rest)?;
    let (numbers, rest) = numbers_at(alloc, rest)?;
    end(rest)?;
    with_some(name, numbers)
}

/// A range has one pair or more.
fn with_some(
    name: Name,
    numbers: Vec<(IrType, i128)>,
) -> Result<(Name, Vec<(IrType, i128)>), PartStop>
    ensures { Gives (λ x. (x.0, view_numbers x.1.items)) result (definition.some_numbers name (view_numbers numbers.items)) }
{
    if numbers.is_empty() {
        Err(PartStop::NotSpelled)
    } else {
        Ok((name, numbers))
    }
}

/// `!N`: the number as a name.
fn metadata_at<'t>(
    alloc: Global,
    tokens: &'t [Token<'t>],
) -> Result<(Name, &'t [Token<'t>]), PartStop>
    ensures { Gives (λ x. (x.0, seen x.1.now)) result (definition.metadata_at (seen tokens.now)) }
{
    match tokens {
        [
            Token {
                kind: TokenKind::Metadata,
                text,
                ..
            },
            rest @ ..,
        ] => {
            let name = number_name(alloc, behind_first(text))?;
            Ok((name, rest))
        }
        _ => Err(PartStop::NotSpelled),
    }
}

/// Digits as a name.
fn number_name(alloc: Global, text: &[u8]) -> Result<Name, PartStop>
    ensures { Gives (λ x. x) result (definition.number_name text.now) }
{
    if are_digits(text) {
        Ok(Name::copy_of(alloc, text)?)
    } else {
        Err(PartStop::NotSpelled)
    }
}

/// `T n , .. }`: the pairs.
fn numbers_at<'t>(
    alloc: Global,
    tokens: &'t [Token<'t>],
) -> Result<(Vec<(IrType, i128)>, &'t [Token<'t>]), PartStop>
    ensures { Gives (λ x. (view_numbers x.0.items, seen x.1.now)) result (separated definition.typed_number_at 125 (seen tokens.now)) }
{
    match strip_mark(b'}', tokens) {
        Some(rest) => Ok((Vec::new(alloc), rest)),
        None => {
            let (numbers, rest) = some_numbers(alloc, tokens)?;
            let rest = after_mark(b'}', rest)?;
            Ok((numbers, rest))
        }
    }
}

/// The numbers of a range with their types, up to a `}`.
#[derive(Drop)]
struct Numbers;

impl Element for Numbers {
    ghost use Rattle.std.specs.Prelude.{ℤ};
    ghost use Rattle.ir_ast.specs.View.{view_type};
    ghost use Rattle.ir_ast.specs.Plain.{Ty};
    ghost use Rattle.ir_part.specs.Many.{is_closed, behind_comma};
    ghost use Rattle.ir_top.specs.Tops.{typed_number_at};

    type Item = (IrType, i128);

    ghost Seen = { Ty × ℤ };

    ghost view = { λ p. (view_type p.0, p.1) };

    ghost stops = { λ _. is_closed 125 };

    ghost first_reads = { λ _. typed_number_at };

    ghost reads = { λ _. behind_comma typed_number_at };

    fn is_end(&self, tokens: &[Token<'_>]) -> bool {
        begins_mark(b'}', tokens)
    }

    fn first<'t>(
        &self,
        alloc: Global,
        tokens: &'t [Token<'t>],
    ) -> Result<((IrType, i128), &'t [Token<'t>]), PartStop> {
        typed_number_at(alloc, tokens)
    }

    fn further<'t>(
        &self,
        alloc: Global,
        tokens: &'t [Token<'t>],
    ) -> Result<((IrType, i128), &'t [Token<'t>]), PartStop> {
        let rest = after_mark(b',', tokens)?;
        typed_number_at(alloc, rest)
    }
}

/// `T n , ..` up to a `}`.
fn some_numbers<'t>(
    alloc: Global,
    tokens: &'t [Token<'t>],
) -> Result<(Vec<(IrType, i128)>, &'t [Token<'t>]), PartStop>
    ensures { Gives (λ x. (view_numbers x.0.items, seen x.1.now)) result (some (is_closed 125) definition.typed_number_at (behind_comma definition.typed_number_at) (seen tokens.now)) }
{
    elements_at(alloc, &Numbers, tokens)
}

/// `T n`
fn typed_number_at<'t>(
    alloc: Global,
    tokens: &'t [Token<'t>],
) -> Result<((IrType, i128), &'t [Token<'t>]), PartStop>
    ensures { Gives (λ x. ((view_type x.0.0, x.0.1), seen x.1.now)) result (definition.typed_number_at (seen tokens.now)) }
{
    let (over, rest) = type_at(alloc, tokens)?;
    let (number, rest) = number_at(rest)?;
    Ok(((over, number), rest))
}
