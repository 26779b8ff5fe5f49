//! Fields by their places.

ghost use Rattle.std.specs.Prelude.{◌≡◌, ◌<◌, Some, map, slice_get, slice_index_or, length};
ghost use Rattle.spec_tree.specs.Sorted.{field_sorts, no_field};
ghost use Rattle.spec_tree.specs.View.{view_key, view_spec};

use spec_tree::{Field, Sort, Spec};

// A field.
pub(crate) fn field_at(spec: &Spec, field: u32) -> &Field
    requires { field < length spec.now.fields }
    ensures { slice_get spec.now.fields field ≡ Some result.now }
{
    &spec.fields.as_slice()[field as usize]
}

// The sorts of a field's keys.
pub(crate) fn keys_of(spec: &Spec, field: u32) -> &[Sort]
    requires { field < length spec.now.fields }
    ensures { map view_key result.now ≡ (slice_index_or (field_sorts (view_spec spec.now)) field no_field).keys }
{
    field_at(spec, field).keys.as_slice()
}
