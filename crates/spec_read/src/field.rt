//! The fields behind a class.

ghost use Rattle.std.specs.Prelude.{◌≡◌};
ghost use Rattle.spec_ast.specs.View.{view_item};
ghost use Rattle.spec_expr.specs.Fronts.{Gives, grown, seen};
ghost use Rattle.spec_read.specs.ItemReading as definition;

use crate::sort::{keys_at, sort_at};
use crate::top::ended;
use spec_ast::{Name, RawItem, RawSortList};
use spec_expr::{Bounded, PartStop, is_name, past};
use spec_lex::Token;
use std::alloc::Global;

/// What stands behind `NAME = Map (`.
#[tactic(auto, using(crate::proofs::ItemSteps::line_steps))]
fn map_at<'t>(
    alloc: Global,
    name: &[u8],
    tokens: &'t [Token<'t>],
) -> Result<Bounded<RawItem>, PartStop>
    ensures { Gives (grown view_item) result (definition.map_from name.now (seen tokens.now)) }
{
    let (keys, rest) = keys_at(alloc, tokens)?;
    let rest = past(b",", rest)?;
    let (sort, rest) = sort_at(alloc, rest)?;
    let rest = past(b")", rest)?;
    let name = Name::copy_of(alloc, name)?;
    ended(RawItem::Field(name, keys, sort), rest)
}

/// A sort behind `NAME =`.
fn scalar_at<'t>(
    alloc: Global,
    name: &[u8],
    tokens: &'t [Token<'t>],
) -> Result<Bounded<RawItem>, PartStop>
    ensures { Gives (grown view_item) result (definition.scalar_from name.now (seen tokens.now)) }
{
    let (sort, rest) = sort_at(alloc, tokens)?;
    let name = Name::copy_of(alloc, name)?;
    let keys = RawSortList::of(Vec::new(alloc));
    ended(RawItem::Field(name, keys, sort), rest)
}

/// What stands behind `NAME =`.
fn value_at<'t>(
    alloc: Global,
    name: &[u8],
    tokens: &'t [Token<'t>],
) -> Result<Bounded<RawItem>, PartStop>
    ensures { Gives (grown view_item) result (definition.field_from name.now (seen tokens.now)) }
{
    match tokens {
        [word, rest @ ..] => match rest {
            [mark, inner @ ..] => {
                if mark.text == b"(".as_slice() && word.text == b"Map".as_slice() {
                    map_at(alloc, name, inner)
                } else {
                    scalar_at(alloc, name, tokens)
                }
            }
            [] => scalar_at(alloc, name, tokens),
        },
        [] => Err(PartStop::NotSpelled),
    }
}

/// `=` and what stands behind it.
#[tactic(auto, using(crate::proofs::ItemSteps::line_steps))]
fn assignment_at<'t>(
    alloc: Global,
    name: &[u8],
    tokens: &'t [Token<'t>],
) -> Result<Bounded<RawItem>, PartStop>
    ensures { Gives (grown view_item) result (definition.assigned_field name.now (seen tokens.now)) }
{
    let rest = past(b"=", tokens)?;
    value_at(alloc, name, rest)
}

/// A line behind a class: a field, scalar or with keys.
pub fn field_at<'t>(alloc: Global, tokens: &'t [Token<'t>]) -> Result<Bounded<RawItem>, PartStop>
    ensures { Gives (grown view_item) result (definition.class_at (seen tokens.now)) }
{
    match tokens {
        [first, rest @ ..] => {
            if is_name(first.text) {
                assignment_at(alloc, first.text, rest)
            } else {
                Err(PartStop::NotSpelled)
            }
        }
        [] => Err(PartStop::NotSpelled),
    }
}
