//! The sorts that a line spells.

ghost use Rattle.std.specs.Prelude.{◌≡◌, ◌++◌, ◌≤◌, ◌*◌, ◌^◌, ◌+◌, [], map, option_map, IfOk};
ghost use Rattle.spec_tree.specs.View.{view_key};
ghost use Rattle.spec_scope.specs.Fields.{view_sort};
ghost use Rattle.spec_scope.specs.View.{view_scope};
ghost use Rattle.spec_lines.specs.Sorts as definition;

use spec_ast::RawSort;
use spec_scope::{FieldSort, Meaning, Scope};
use spec_tree::{Sort, SortList};
use std::alloc::{AllocError, Global};

/// The sort that a name means.
fn sort_meant(meaning: Option<Meaning>) -> Option<Sort>
    ensures { result ≡ definition.sort_meant meaning }
{
    match meaning {
        Some(Meaning::Sort(sort)) => Some(sort),
        _ => None,
    }
}

/// Whether an index sort is within its limits.
pub fn is_index(width: u64, size: u64) -> bool
    ensures { result ≡ definition.is_index width size }
{
    if width < 1 || width > 64 || size < 1 || size > 65536 {
        return false;
    }
    u128::from(size) <= 1u128 << width
}

/// The sort of so many bits.
fn bits(width: u64) -> Option<Sort>
    ensures { result ≡ definition.bits_of width }
{
    if width < 1 || width > 64 {
        return None;
    }
    Some(Sort {
        width: width as u32,
        size: None,
    })
}

/// The index sort of so many bits and indices.
fn index(width: u64, size: u64) -> Option<Sort>
    ensures { result ≡ definition.index_of width size }
{
    if !is_index(width, size) {
        return None;
    }
    Some(Sort {
        width: width as u32,
        size: Some(size as u32),
    })
}

/// The sort that is spelled, where its name is one of a sort and it is within the limits.
pub fn sort_for(scope: &Scope<'_>, sort: &RawSort) -> Option<Sort>
    ensures { result ≡ definition.sort_for (view_scope scope.now) sort.now }
{
    match sort {
        RawSort::Named(name) => sort_meant(scope.meaning(name.as_bytes())),
        RawSort::Bits(width) => bits(*width),
        RawSort::Index(width, size) => index(*width, *size),
    }
}

/// The sort, where it is an index sort.
fn key_with(sort: Sort) -> Option<Sort>
    ensures { option_map view_key result ≡ definition.key_with sort.width sort.size }
{
    match sort.size {
        Some(_) => Some(sort),
        None => None,
    }
}

/// The sort of a key or a variable.
pub fn key_for(scope: &Scope<'_>, sort: &RawSort) -> Option<Sort>
    ensures { option_map view_key result ≡ definition.key_for (view_scope scope.now) sort.now }
{
    match sort_for(scope, sort) {
        Some(sort) => key_with(sort),
        None => None,
    }
}

/// The sorts of a field's keys.
fn keys_for(
    alloc: Global,
    scope: &Scope<'_>,
    sorts: &[RawSort],
) -> Result<Option<Vec<Sort>>, AllocError>
    ensures { IfOk result (λ o. option_map (λ v. map view_key v.items) o ≡ definition.keys_from (view_scope scope.now) [] sorts.now) }
{
    let mut keys = Vec::new(alloc);
    'each: for sort in sorts {
        match key_for(scope, sort) {
            Some(key) => keys.push(key)?,
            None => return Ok(None),
        }
    }
    Ok(Some(keys))
}

/// The sort of a field with these keys.
fn field_sort_with(keys: Option<Vec<Sort>>, entry: Option<Sort>) -> Option<FieldSort>
    ensures { option_map view_sort result ≡ definition.field_sort_with (option_map (λ v. map view_key v.items) keys) entry }
{
    match keys {
        Some(keys) => match entry {
            Some(entry) => Some(FieldSort {
                keys: SortList::of(keys),
                width: entry.width,
            }),
            None => {
                drop(keys);
                None
            }
        },
        None => None,
    }
}

/// The sort of a field.
pub fn field_sort_for(
    alloc: Global,
    scope: &Scope<'_>,
    keys: &[RawSort],
    entry: &RawSort,
) -> Result<Option<FieldSort>, AllocError>
    ensures { IfOk result (λ o. option_map view_sort o ≡ definition.field_sort_for (view_scope scope.now) keys.now entry.now) }
{
    let keys = keys_for(alloc, scope, keys)?;
    Ok(field_sort_with(keys, sort_for(scope, entry)))
}

/// A number of entries, to one more than the limit.
pub fn cut(count: u64) -> u64
    ensures value { result ≡ definition.cut count }
    ensures small { result ≤ 4194305 }
{
    if count <= 4_194_304 { count } else { 4_194_305 }
}

/// The size of a key.
pub fn size_of(key: &Sort) -> u32
    ensures { result ≡ (view_key key.now).size }
{
    match key.size {
        Some(size) => size,
        None => 0,
    }
}

/// How many index tuples keys have, to one more than the limit.
pub fn tuples_of(keys: &[Sort]) -> u64
    ensures value { result ≡ definition.tuples_of (map view_key keys.now) }
    ensures small { result ≤ 4194305 }
{
    match keys {
        [] => 1,
        [key, others @ ..] => cut(u64::from(size_of(key)) * tuples_of(others)),
    }
}

/// How many entries a field has, to one more than the limit.
pub fn entries_of(sort: &Option<FieldSort>) -> u64
    ensures value { result ≡ definition.entries_of (option_map view_sort sort.now) }
    ensures small { result ≤ 4194305 }
{
    match sort {
        Some(sort) => tuples_of(sort.keys.as_slice()),
        None => 0,
    }
}

/// So many entries more, to one more than the limit.
pub fn entries_behind(entries: u64, more: u64) -> u64
    ensures { result ≡ definition.cut (entries + more) }
{
    if entries > 4_194_304 || more > 4_194_304 {
        return 4_194_305;
    }
    cut(entries + more)
}

/// What the name of a sort's line means.
pub fn sort_meaning(sort: Option<Sort>) -> Meaning
    ensures { result ≡ definition.sort_meaning sort }
{
    match sort {
        Some(sort) => Meaning::Sort(sort),
        None => Meaning::Nothing,
    }
}

/// What the name of a variable's line means.
pub fn variable_meaning(key: Option<Sort>) -> Meaning
    ensures { result ≡ definition.variable_meaning (option_map view_key key) }
{
    match key {
        Some(key) => Meaning::Variable(key.width, size_of(&key)),
        None => Meaning::Nothing,
    }
}
