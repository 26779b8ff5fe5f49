//! Steps on tables of names, bound names and fields, one behind another, with what each finds.
//!
//! A step is a word and what it is about, between blanks; a comma and a blank stand between steps. What they find comes out in the same
//! order, each behind it with a semicolon.

use spec_scope::{BoundNames, FieldRow, FieldSort, FieldTable, Meaning, NameTable};
use spec_tree::{Sort, SortList};
use std::alloc::{AllocError, Global};

/// The number of a word, or 0.
fn number(word: &str) -> u32 {
    word.parse::<u32>().unwrap_or(0)
}

/// `constant NAME NUMBER` and `argument NAME PLACE WIDTH` add a name, `get NAME` asks for one, and `clear` takes all away.
fn name_step<'t>(
    names: &mut NameTable<'t>,
    words: &[&'t str],
    found: &mut String,
) -> Result<(), AllocError> {
    match words {
        ["constant", name, value] => {
            let value = value.parse::<i128>().unwrap_or(0);
            names.add(name.as_bytes(), Meaning::Constant(value))?;
            found.push_str("added;")
        }
        ["argument", name, place, width] => {
            let meaning = Meaning::Argument(number(place), number(width));
            names.add(name.as_bytes(), meaning)?;
            found.push_str("added;")
        }
        ["get", name] => {
            let meaning = names.get(name.as_bytes());
            write!(found, "{meaning:?};")
        }
        ["clear"] => {
            names.clear();
            found.push_str("cleared;")
        }
        _ => found.push_str("?;"),
    }
}

/// What steps on an empty table of names find.
pub(crate) fn names_found(alloc: Global, steps: &str) -> Result<String, AllocError> {
    let mut names = NameTable::new(alloc);
    let mut found = String::new(alloc);
    for step in steps.split(", ") {
        let words: Vec<&str> = step.split(' ').collect(alloc)?;
        name_step(&mut names, &words, &mut found)?;
    }
    Ok(found)
}

/// `add NAME` tells whether the name is new, `place NAME` its place; `cut COUNT` keeps so many, and `count` tells how many there are.
fn bound_step<'t>(
    bound: &mut BoundNames<'t>,
    words: &[&'t str],
    found: &mut String,
) -> Result<(), AllocError> {
    match words {
        ["add", name] => {
            let new = bound.add(name.as_bytes())?;
            write!(found, "{new};")
        }
        ["place", name] => {
            let place = bound.place(name.as_bytes());
            write!(found, "{place:?};")
        }
        ["cut", count] => {
            bound.cut(number(count));
            found.push_str("cut;")
        }
        ["count"] => {
            let count = bound.count();
            write!(found, "{count};")
        }
        _ => found.push_str("?;"),
    }
}

/// What steps on no bound names find.
pub(crate) fn bound_found(alloc: Global, steps: &str) -> Result<String, AllocError> {
    let mut bound = BoundNames::new(alloc);
    let mut found = String::new(alloc);
    for step in steps.split(", ") {
        let words: Vec<&str> = step.split(' ').collect(alloc)?;
        bound_step(&mut bound, &words, &mut found)?;
    }
    Ok(found)
}

/// A field with one key: the width and the size of its sort, and the width of an entry.
fn map_row(line: u32, keys: Vec<Sort>, width: u32) -> FieldRow {
    let keys = SortList::of(keys);
    let sort = Some(FieldSort { keys, width });
    FieldRow { line, sort }
}

/// The width of the entries of the field at a place, where its line has a sort.
fn width_at(fields: &FieldTable<'_>, place: u32) -> Option<u32> {
    match fields.sort_at(place) {
        Some(sort) => Some(sort.width),
        None => None,
    }
}

/// `unsorted NAME LINE` and `map NAME LINE KEY SIZE WIDTH` add a field, `place NAME` tells its place, and `width PLACE` that of its entries.
fn field_step<'t>(
    alloc: Global,
    fields: &mut FieldTable<'t>,
    words: &[&'t str],
    found: &mut String,
) -> Result<(), AllocError> {
    match words {
        ["unsorted", name, line] => {
            let line = number(line);
            fields.add(name.as_bytes(), FieldRow { line, sort: None })?;
            found.push_str("added;")
        }
        ["map", name, line, key, size, width] => {
            let key = Sort {
                width: number(key),
                size: Some(number(size)),
            };
            let row = map_row(number(line), vec![in alloc; key]?, number(width));
            fields.add(name.as_bytes(), row)?;
            found.push_str("added;")
        }
        ["place", name] => {
            let place = fields.place(name.as_bytes());
            write!(found, "{place:?};")
        }
        ["width", place] => {
            let width = width_at(fields, number(place));
            write!(found, "{width:?};")
        }
        _ => found.push_str("?;"),
    }
}

/// What steps on an empty table of fields find.
pub(crate) fn fields_found(alloc: Global, steps: &str) -> Result<String, AllocError> {
    let mut fields = FieldTable::new(alloc);
    let mut found = String::new(alloc);
    for step in steps.split(", ") {
        let words: Vec<&str> = step.split(' ').collect(alloc)?;
        field_step(alloc, &mut fields, &words, &mut found)?;
    }
    Ok(found)
}
