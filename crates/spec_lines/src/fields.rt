//! The fields of a specification, each with the value that the equivalence function gives it.

ghost use Rattle.std.specs.Prelude.{◌≡◌, ◌+◌, ◌<◌, [], None, Some, map, drop, length, option_map, slice_get, slice_index_or, IfOk};
ghost use Rattle.spec_tree.specs.View.{view_expr, view_field, view_key};
ghost use Rattle.spec_scope.specs.Fields.{view_sort};
ghost use Rattle.spec_scope.specs.Scope.{Declared};
ghost use Rattle.spec_take.specs.Answers.{Gives};
ghost use Rattle.spec_lines.specs.Whole as definition;
ghost use Rattle.spec_lines.specs.View.{seen_head, head_of, AreHeadsOf};
ghost use Rattle.spec_lines.specs.MadeView.{view_values};

use crate::fore::FieldHead;
use crate::step::next;
use spec_ast::Name;
use spec_scope::{FieldSort, FieldTable, TakeStop};
use spec_tree::{Expr, Field, Sort, SortList};
use std::alloc::{AllocError, Global};

/// The same keys.
fn keys_of(alloc: Global, keys: &[Sort]) -> Result<SortList, AllocError>
    ensures { IfOk result (λ l. map view_key l ≡ map view_key keys.now) }
{
    let mut items = Vec::new(alloc);
    'each: for key in keys {
        items.push(*key)?;
    }
    Ok(SortList::of(items))
}

/// A field of this sort with this value.
fn field_with(
    alloc: Global,
    head: &FieldHead<'_>,
    sort: &FieldSort,
    value: Expr,
) -> Result<Field, AllocError>
    ensures { (d : Declared) → head_of d ≡ seen_head head.now → IfOk result (λ f. view_field f ≡ definition.field_with d (view_expr value) (view_sort sort.now)) }
{
    let name = Name::copy_of(alloc, head.name)?;
    let keys = keys_of(alloc, sort.keys.as_slice())?;
    Ok(Field {
        line: head.line,
        name,
        keys,
        width: sort.width,
        value,
    })
}

/// A field of the text, where it has a sort and a value.
fn field_made(
    alloc: Global,
    head: &FieldHead<'_>,
    sort: Option<&FieldSort>,
    value: Option<Expr>,
) -> Result<Field, TakeStop>
    ensures { (d : Declared) → head_of d ≡ seen_head head.now → d.sort ≡ option_map (λ f. view_sort f.now) sort.entry → Gives view_field result (definition.field_made d (option_map view_expr value)) }
{
    match value {
        Some(y) => match sort {
            Some(sort) => {
                let field = field_with(alloc, head, sort, y)?;
                Ok(field)
            }
            None => {
                drop(y);
                Err(TakeStop::Unfit)
            }
        },
        None => Err(TakeStop::Unfit),
    }
}

/// The value at a place, which is taken from there.
fn take_value(values: &mut Vec<Option<Expr>>, place: usize) -> Option<Expr>
    ensures value { option_map view_expr result ≡ slice_index_or (view_values values.old.items) place None }
    ensures rest { drop (place + 1) (view_values values.new.items) ≡ drop (place + 1) (view_values values.old.items) }
{
    if place < values.len() {
        values[place].take()
    } else {
        None
    }
}

/// The head at a place.
fn head_at<'h, 's>(heads: &'h [FieldHead<'s>], place: u32) -> &'h FieldHead<'s>
    requires { place < length heads.now }
    ensures { slice_get heads.now place ≡ Some result.now }
{
    &heads[place as usize]
}

/// The field at a place of the text, where it has a sort and a value.
fn next_field(
    alloc: Global,
    table: &FieldTable<'_>,
    heads: &[FieldHead<'_>],
    place: u32,
    value: Option<Expr>,
) -> Result<Field, TakeStop>
    requires are { AreHeadsOf table.now heads.now }
    requires there { place < length heads.now }
    ensures { (d : Declared) → slice_get table.now place ≡ Some d → Gives view_field result (definition.field_made d (option_map view_expr value)) }
{
    field_made(alloc, head_at(heads, place), table.sort_at(place), value)
}

/// The fields of the text, each with its value.
pub fn fields_from(
    alloc: Global,
    table: &FieldTable<'_>,
    heads: &[FieldHead<'_>],
    values: Vec<Option<Expr>>,
) -> Result<Vec<Field>, TakeStop>
    requires { AreHeadsOf table.now heads.now }
    ensures { Gives (λ v. map view_field v.items) result (definition.fields_from [] table.now (view_values values.items)) }
{
    let mut fields = Vec::new(alloc);
    let mut values = values;
    let mut place = 0;
    'each: for _ in heads {
        let value = take_value(&mut values, place as usize);
        let field = next_field(alloc, table, heads, place, value)?;
        fields.push(field)?;
        place = next(place)?;
    }
    Ok(fields)
}
