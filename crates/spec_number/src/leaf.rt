//! What an expression reads at one place, with 0 where there is nothing.

ghost use Rattle.std.specs.Prelude.{◌≡◌, ◌<◌, slice_index, slice_index_or, [], map, length};
ghost use Rattle.spec_tree.specs.Sorted.{no_field};
ghost use Rattle.spec_tree.specs.Value.{entry_at, state_of};
ghost use Rattle.spec_tree.specs.View.{view_key, size_of};
ghost use Rattle.spec_tree.specs.declared.sort.Sort.{Sort};
ghost use Rattle.spec_number.specs.Scope.{Scope};
ghost use Rattle.spec_number.specs.Evaluation.{context_of, env_of};

use crate::reading::{Number, Reading};
use spec_tree::{Sort, StateName};
use spec_value::EntryList;

/// The width at a place; 0 behind the last one.
pub(crate) fn width_at(widths: &[u32], k: u32) -> u32
    ensures { result ≡ slice_index widths.now k }
{
    if (k as usize) < widths.len() {
        widths[k as usize]
    } else {
        0
    }
}

/// The number at a place; 0 behind the last one.
pub(crate) fn bits_at(numbers: &[u64], k: u64) -> u64
    ensures { result ≡ slice_index numbers.now k }
{
    if k < numbers.len() as u64 {
        numbers[k as usize]
    } else {
        0
    }
}

/// The argument at a place.
pub(crate) fn argument_at(reading: &Reading, k: u32) -> Number
    ensures width { result.width ≡ slice_index reading.now.widths.now k }
    ensures bits { result.bits ≡ slice_index reading.now.args.now k }
{
    Number {
        width: width_at(reading.widths, k),
        bits: bits_at(reading.args, u64::from(k)),
    }
}

// The entries of a field; none where there is no such field.
fn entries(state: &[EntryList], field: u32) -> &[u64]
    ensures { result.now ≡ slice_index_or state.now field [] }
{
    if (field as usize) < state.len() {
        state[field as usize].as_slice()
    } else {
        &[]
    }
}

// The entries of a field in a state.
fn entries_of<'a>(reading: &Reading<'a>, name: StateName, field: u32) -> &'a [u64]
    ensures { (s : Scope) → result.now ≡ slice_index_or (state_of (env_of reading.now s) name) field [] }
{
    match name {
        StateName::Old => entries(reading.old, field),
        StateName::New => entries(reading.new, field),
    }
}

/// The entry of a field at a place; 0 where there is none.
pub(crate) fn entry(reading: &Reading, name: StateName, field: u32, place: Option<u64>) -> u64
    ensures { (s : Scope) → result ≡ entry_at (slice_index_or (state_of (env_of reading.now s) name) field []) place }
{
    match place {
        Some(place) => bits_at(entries_of(reading, name, field), place),
        None => 0,
    }
}

/// The width of a field; 0 where there is no such field.
pub(crate) fn field_width(reading: &Reading, field: u32) -> u32
    ensures { (s : Scope) → result ≡ (slice_index_or (context_of reading.now s).fields field no_field).width }
{
    let fields = reading.spec.fields.as_slice();
    if (field as usize) < fields.len() {
        fields[field as usize].width
    } else {
        0
    }
}

/// The sorts of a field's keys; none where there is no such field.
pub(crate) fn keys<'a>(reading: &Reading<'a>, field: u32) -> &'a [Sort]
    ensures { (s : Scope) → map view_key result.now ≡ (slice_index_or (context_of reading.now s).fields field no_field).keys }
{
    let fields = reading.spec.fields.as_slice();
    if (field as usize) < fields.len() {
        fields[field as usize].keys.as_slice()
    } else {
        &[]
    }
}

// The size of a sort.
fn size_in(key: &Sort) -> u64
    ensures { result ≡ size_of key.now.size }
{
    match key.size {
        Some(size) => u64::from(size),
        None => 0,
    }
}

/// The size of the key at a place.
pub(crate) fn size_at(keys: &[Sort], k: usize) -> u64
    requires { k < length keys.now }
    ensures { (d : Sort) → result ≡ size_of (slice_index_or keys.now k d).size }
{
    size_in(&keys[k])
}
