//! The answer to a row: which call its first field names, and what the call says of the others.

ghost use Rattle.std.specs.Prelude.{◌<◌, ◌^◌, length};
ghost use Rattle.ir_ast.specs.ProgramView.{view_entries, view_type_entry};
ghost use Rattle.ir_whole.specs.Numbers.{IsFor};

use crate::letters::type_of;
use crate::row::text_of;
use crate::shapes::{inner, is_one, parts, shape};
use crate::walk::{Found, function_text, global, head, look, same};
use ir_ast::{KernelStop, TypeTable};
use ir_whole::TypeNumbers;
use std::alloc::{AllocError, Global};

fn word(holds: bool) -> &'static str {
    if holds { "yes" } else { "no" }
}

/// Of instructions that use a name that is not known it is not asked whether they fit.
fn fits(found: Found) -> &'static str {
    if found.known {
        word(found.fits)
    } else {
        "not known"
    }
}

/// What a call says of a text.
fn of_text(alloc: Global, kind: &str, text: &[u8]) -> Result<Option<&'static str>, KernelStop>
    requires { length text.now < 2 ^ 31 }
{
    match kind {
        "fits" => Ok(Some(fits(look(alloc, text)?))),
        "known" => Ok(Some(word(look(alloc, text)?.known))),
        "plain" => Ok(Some(word(look(alloc, text)?.plain))),
        "global" => Ok(Some(word(global(alloc, text)?))),
        "head" => Ok(Some(word(head(alloc, text)?))),
        "same" => Ok(Some(word(same(alloc, text)?))),
        _ => Ok(None),
    }
}

/// What a call says of a text, if the text is short enough to be read.
fn of_any_text(alloc: Global, kind: &str, text: &[u8]) -> Result<Option<&'static str>, KernelStop> {
    if text.len() < 2_147_483_648 {
        of_text(alloc, kind, text)
    } else {
        Ok(None)
    }
}

/// The answer to a row over texts.
pub fn text_answer(alloc: Global, fields: &[&str]) -> Result<Option<&'static str>, KernelStop> {
    match fields {
        [kind, text] => of_any_text(alloc, kind, &text_of(alloc, text)?),
        ["fits", items, parameters, instrs] => {
            let items = text_of(alloc, items)?;
            let parameters = text_of(alloc, parameters)?;
            let instrs = text_of(alloc, instrs)?;
            let text = function_text(alloc, &items, &parameters, &instrs)?;
            of_any_text(alloc, "fits", &text)
        }
        _ => Ok(None),
    }
}

/// Whether the types of two fields stand for one.
fn of_two_types(
    alloc: Global,
    types: &TypeTable,
    numbers: &mut TypeNumbers,
    first: &str,
    second: &str,
) -> Result<Option<String>, AllocError>
    requires small { length types.now < 2 ^ 32 }
    requires types { IsFor (view_entries view_type_entry types.now) numbers.old }
    ensures types { IsFor (view_entries view_type_entry types.now) numbers.new }
{
    let first = type_of(alloc, first)?;
    let second = type_of(alloc, second)?;
    match (&first, &second) {
        (Some(t), Some(u)) => {
            let one = is_one(alloc, types, numbers, t, u)?;
            Ok(Some(String::from_str(alloc, word(one))?))
        }
        _ => Ok(None),
    }
}

/// What the type of a field is, or what parts it has.
fn of_type(
    alloc: Global,
    types: &TypeTable,
    numbers: &mut TypeNumbers,
    kind: &str,
    field: &str,
) -> Result<Option<String>, AllocError>
    requires small { length types.now < 2 ^ 32 }
    requires types { IsFor (view_entries view_type_entry types.now) numbers.old }
    ensures types { IsFor (view_entries view_type_entry types.now) numbers.new }
{
    let Some(over) = type_of(alloc, field)? else {
        return Ok(None);
    };
    match kind {
        "parts" => Ok(Some(parts(alloc, types, numbers, &over)?)),
        "shape" => Ok(Some(shape(alloc, types, numbers, &over)?)),
        _ => Ok(None),
    }
}

/// What a part of the type of a field is, by the part's place.
fn of_part(
    alloc: Global,
    types: &TypeTable,
    numbers: &mut TypeNumbers,
    field: &str,
    place: &str,
) -> Result<Option<String>, AllocError>
    requires small { length types.now < 2 ^ 32 }
    requires types { IsFor (view_entries view_type_entry types.now) numbers.old }
    ensures types { IsFor (view_entries view_type_entry types.now) numbers.new }
{
    let Ok(place) = place.parse::<u64>() else {
        return Ok(None);
    };
    let Some(over) = type_of(alloc, field)? else {
        return Ok(None);
    };
    let part = inner(alloc, types, numbers, &over, place)?;
    Ok(Some(String::from_str(alloc, part)?))
}

/// The answer to a row over types.
pub fn type_answer(
    alloc: Global,
    types: &TypeTable,
    numbers: &mut TypeNumbers,
    fields: &[&str],
) -> Result<Option<String>, AllocError>
    requires small { length types.now < 2 ^ 32 }
    requires types { IsFor (view_entries view_type_entry types.now) numbers.old }
    ensures types { IsFor (view_entries view_type_entry types.now) numbers.new }
{
    match fields {
        ["one", first, second] => of_two_types(alloc, types, numbers, first, second),
        ["part", field, place] => of_part(alloc, types, numbers, field, place),
        [kind, field] => of_type(alloc, types, numbers, kind, field),
        _ => Ok(None),
    }
}
