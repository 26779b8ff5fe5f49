//! The limits of a specification, tested once more: what was read never fails them.

ghost use Rattle.std.specs.Prelude.{◌≡◌, map};
ghost use Rattle.std.specs.List.{list_all};
ghost use Rattle.spec_tree.specs.View.{view_key, view_field, view_spec};
ghost use Rattle.spec_scope.specs.Scope.{is_width as is_width_of};
ghost use Rattle.spec_check.specs.Within as definition;

use spec_lines::sorts::{entries_behind, is_index, size_of, tuples_of};
use spec_tree::{Field, Sort, Spec};

/// Whether there are 1 to 64 bits.
fn is_width(width: u32) -> bool
    ensures { result ≡ is_width_of width }
{
    1 <= width && width <= 64
}

/// Whether a key is of an index sort.
fn is_index_sort(key: &Sort) -> bool
    ensures { result ≡ definition.is_index_sort (view_key key.now) }
{
    is_index(u64::from(key.width), u64::from(size_of(key)))
}

/// Whether keys are of index sorts.
fn are_index_sorts(keys: &[Sort]) -> bool
    ensures { result ≡ list_all definition.is_index_sort (map view_key keys.now) }
{
    'each: for key in keys {
        if !is_index_sort(key) {
            return false;
        }
    }
    true
}

/// Whether the sort of a field is within its limits.
fn has_sort(field: &Field) -> bool
    ensures { result ≡ definition.has_sort (view_field field.now) }
{
    let keys = field.keys.as_slice();
    are_index_sorts(keys)
        && (keys.len() <= 4 && (tuples_of(keys) <= 1_048_576 && is_width(field.width)))
}

/// Whether the sorts of fields are within their limits.
fn have_sorts(fields: &[Field]) -> bool
    ensures { result ≡ list_all definition.has_sort (map view_field fields.now) }
{
    'each: for field in fields {
        if !has_sort(field) {
            return false;
        }
    }
    true
}

/// How many entries fields have, to one more than the limit.
fn entries_of(fields: &[Field]) -> u64
    ensures { result ≡ definition.entries_from 0 (map view_field fields.now) }
{
    let mut entries = 0;
    'each: for field in fields {
        entries = entries_behind(entries, tuples_of(field.keys.as_slice()));
    }
    entries
}

/// Whether a specification of a text with so many declared fields is within its limits.
pub fn is_within(count: usize, spec: &Spec) -> bool
    ensures { result ≡ definition.is_within count (view_spec spec.now) }
{
    let fields = spec.fields.as_slice();
    fields.len() == count
        && (have_sorts(fields)
            && (entries_of(fields) <= 4_194_304 && spec.transitions.as_slice().len() <= 256))
}
