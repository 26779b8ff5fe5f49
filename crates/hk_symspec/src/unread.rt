//! Terms for what no expression may read.

ghost use Rattle.std.specs.Prelude.{◌≡◌, ℕ, ◌*◌, ◌^◌, ◌<◌, ◌≤◌, slice_index_or, length, IfOk};
ghost use Rattle.hk_term.specs.Shape.{width, Grows};
ghost use Rattle.hk_term.specs.Meaning.{Reading, value};
ghost use Rattle.spec_tree.specs.Sorted.{IsFieldSort, field_sorts, no_field};
ghost use Rattle.spec_tree.specs.View.{view_spec};

use crate::fields::field_at;
use crate::indices::constant;
use hk_term::{TermId, Terms};
use spec_tree::Spec;
use std::alloc::AllocError;

// A number of so many bytes.
pub(crate) fn no_load(t: &mut Terms, bytes: u32) -> Result<TermId, AllocError>
    requires { (k : ℕ) × (k < 4) × (bytes ≡ 2 ^ k) }
    ensures within { IfOk result (λ r. r < length t.new) }
    ensures width { IfOk result (λ r. width t.new r ≡ 8 * bytes) }
    ensures keeps_widths { (k : ℕ) → k < length t.old → width t.new k ≡ width t.old k }
    ensures keeps_values { (k : ℕ) → k < length t.old → (v : Reading) → value t.new k v ≡ value t.old k v }
    ensures longer { length t.old ≤ length t.new }
    ensures grows { Grows t.old t.new }
{
    let made = constant(t, 8 * bytes, 0)?;
    Ok(made)
}

// A number of a field's width.
pub(crate) fn no_entry(t: &mut Terms, spec: &Spec, field: u32) -> Result<TermId, AllocError>
    requires field { field < length spec.now.fields }
    requires sort { IsFieldSort (slice_index_or (field_sorts (view_spec spec.now)) field no_field) }
    ensures within { IfOk result (λ r. r < length t.new) }
    ensures width { IfOk result (λ r. width t.new r ≡ (slice_index_or (field_sorts (view_spec spec.now)) field no_field).width) }
    ensures keeps_widths { (k : ℕ) → k < length t.old → width t.new k ≡ width t.old k }
    ensures keeps_values { (k : ℕ) → k < length t.old → (v : Reading) → value t.new k v ≡ value t.old k v }
    ensures longer { length t.old ≤ length t.new }
    ensures grows { Grows t.old t.new }
{
    let bits = field_at(spec, field).width;
    let made = constant(t, bits, 0)?;
    Ok(made)
}
