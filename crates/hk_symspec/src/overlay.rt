//! Entries behind writes: the newest write to the same index tuple, where its guard is true.

ghost use Rattle.std.specs.Prelude.{◌≡◌, ℕ, ◌<◌, ◌≤◌, Bool, ◌&&◌, All, List, map, Some, slice_get, slice_index_or, length, IfOk};
ghost use Rattle.hk_term.specs.Operations.{bit};
ghost use Rattle.hk_term.specs.Shape.{width, Grows};
ghost use Rattle.hk_term.specs.Meaning.{Reading, value};
ghost use Rattle.spec_tree.specs.Sorted.{field_sorts, no_field};
ghost use Rattle.spec_tree.specs.View.{view_key, view_spec};
ghost use Rattle.spec_tree.specs.Meaning.{State};
ghost use Rattle.hk_symexpr.specs.Naming.{AreIndexTerms, index_values};
ghost use Rattle.hk_symspec.specs.States.{after_write, after_writes, numbers_at};
ghost use Rattle.hk_symspec.specs.Standing.{AreKeyTerms, IsWriteOver};
ghost use Rattle.hk_symspec.specs.Ranges.{IsEntry, IsLong, same_numbers};

use crate::fields::keys_of;
use crate::indices::{both, limit_at};
use crate::write::EntryWrite;
use hk_simplify::{choose, eq};
use hk_symexpr::Limit;
use hk_term::{TermId, Terms};
use spec_tree::{Sort, Spec};
use std::alloc::AllocError;

fn term_at(index: &[TermId], k: usize) -> TermId
    requires { k < length index.now }
    ensures { slice_get index.now k ≡ Some result }
{
    index[k]
}

// Whether a guard is true and two index tuples are the same.
fn is_hit(
    t: &mut Terms,
    keys: &[Sort],
    guard: TermId,
    index: &[TermId],
    other: &[Limit],
) -> Result<TermId, AllocError>
    requires guard { guard < length t.old }
    requires truth { width t.old guard ≡ 1 }
    requires index { AreKeyTerms t.old (map view_key keys.now) index.now }
    requires other { AreIndexTerms t.old (map view_key keys.now) other.now }
    ensures within { IfOk result (λ r. r < length t.new) }
    ensures width { IfOk result (λ r. width t.new r ≡ 1) }
    ensures value { IfOk result (λ r. (v : Reading) (p : Bool) → value t.old guard v ≡ bit p →
        value t.new r v ≡ bit (p && same_numbers (numbers_at t.old index.now v) (index_values t.old other.now v))) }
    ensures keeps_widths { (k : ℕ) → k < length t.old → width t.new k ≡ width t.old k }
    ensures keeps_values { (k : ℕ) → k < length t.old → (v : Reading) → value t.new k v ≡ value t.old k v }
    ensures longer { length t.old ≤ length t.new }
    ensures grows { Grows t.old t.new }
{
    let mut made = guard;
    'each: for k in 0..keys.len() {
        let one = term_at(index, k);
        let two = limit_at(other, k);
        let same = eq(t, one, two.term)?;
        made = both(t, made, same)?;
    }
    Ok(made)
}

// An entry behind one write, where `found` is the entry before it.
fn behind_write(
    t: &mut Terms,
    spec: &Spec,
    w: &EntryWrite,
    field: u32,
    index: &[Limit],
    found: TermId,
) -> Result<TermId, AllocError>
    requires write { IsWriteOver (field_sorts (view_spec spec.now)) t.old w.now }
    requires field { field < length spec.now.fields }
    requires index { AreIndexTerms t.old (slice_index_or (field_sorts (view_spec spec.now)) field no_field).keys index.now }
    requires found { found < length t.old }
    requires number { width t.old found ≡ (slice_index_or (field_sorts (view_spec spec.now)) field no_field).width }
    ensures within { IfOk result (λ r. r < length t.new) }
    ensures width { IfOk result (λ r. width t.new r ≡ (slice_index_or (field_sorts (view_spec spec.now)) field no_field).width) }
    ensures value { IfOk result (λ r. (v : Reading) (state : State) → IsLong (field_sorts (view_spec spec.now)) state →
        IsEntry (field_sorts (view_spec spec.now)) field (index_values t.old index.now v) state (value t.old found v) →
        IsEntry (field_sorts (view_spec spec.now)) field (index_values t.old index.now v) (after_write (field_sorts (view_spec spec.now)) t.old v w.now state) (value t.new r v)) }
    ensures keeps_widths { (k : ℕ) → k < length t.old → width t.new k ≡ width t.old k }
    ensures keeps_values { (k : ℕ) → k < length t.old → (v : Reading) → value t.new k v ≡ value t.old k v }
    ensures longer { length t.old ≤ length t.new }
    ensures grows { Grows t.old t.new }
{
    if w.field != field {
        return Ok(found);
    }
    // For the proof: the guard's number is below 2 to its width.
    let _guard = t.node(w.guard);
    let hit = is_hit(t, keys_of(spec, field), w.guard, w.index.as_slice(), index)?;
    let made = choose(t, hit, w.value, found)?;
    Ok(made)
}

// An entry behind writes, where `found` is the entry before them.
pub(crate) fn behind_all(
    t: &mut Terms,
    spec: &Spec,
    writes: &[EntryWrite],
    field: u32,
    index: &[Limit],
    found: TermId,
) -> Result<TermId, AllocError>
    requires writes { All (IsWriteOver (field_sorts (view_spec spec.now)) t.old) writes.now }
    requires field { field < length spec.now.fields }
    requires index { AreIndexTerms t.old (slice_index_or (field_sorts (view_spec spec.now)) field no_field).keys index.now }
    requires found { found < length t.old }
    requires number { width t.old found ≡ (slice_index_or (field_sorts (view_spec spec.now)) field no_field).width }
    ensures within { IfOk result (λ r. r < length t.new) }
    ensures width { IfOk result (λ r. width t.new r ≡ (slice_index_or (field_sorts (view_spec spec.now)) field no_field).width) }
    ensures value { IfOk result (λ r. (v : Reading) (state : State) → IsLong (field_sorts (view_spec spec.now)) state →
        IsEntry (field_sorts (view_spec spec.now)) field (index_values t.old index.now v) state (value t.old found v) →
        IsEntry (field_sorts (view_spec spec.now)) field (index_values t.old index.now v) (after_writes (field_sorts (view_spec spec.now)) t.old v writes.now state) (value t.new r v)) }
    ensures keeps_widths { (k : ℕ) → k < length t.old → width t.new k ≡ width t.old k }
    ensures keeps_values { (k : ℕ) → k < length t.old → (v : Reading) → value t.new k v ≡ value t.old k v }
    ensures longer { length t.old ≤ length t.new }
    ensures grows { Grows t.old t.new }
{
    let mut made = found;
    'each: for w in writes {
        made = behind_write(t, spec, w, field, index, made)?;
    }
    Ok(made)
}
