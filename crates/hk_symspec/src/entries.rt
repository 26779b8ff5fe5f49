//! Entries of states.

ghost use Rattle.std.specs.Prelude.{◌≡◌, ℕ, ◌<◌, ◌≤◌, All, [], slice_index_or, length, IfOk};
ghost use Rattle.hk_term.specs.Shape.{width, Grows};
ghost use Rattle.hk_term.specs.Meaning.{Reading, value};
ghost use Rattle.spec_tree.specs.Sorted.{IsWellSorted, field_sorts, no_field};
ghost use Rattle.spec_tree.specs.Value.{entry_at, place_behind};
ghost use Rattle.spec_tree.specs.View.{view_spec};
ghost use Rattle.spec_tree.specs.Meaning.{State};
ghost use Rattle.hk_symexpr.specs.Naming.{AreIndexTerms, AreLimited, AreSteady, index_values};
ghost use Rattle.hk_symspec.specs.States.{after_writes, base_at, state_at};
ghost use Rattle.hk_symspec.specs.Standing.{IsBaseOver, IsStateOver, IsSteadyMemory, IsWriteOver, entry_base};
ghost use Rattle.hk_symspec.specs.Ranges.{IsEntry};

use crate::bases::{array_entry, equation_entry};
use crate::fields::keys_of;
use crate::indices::{are_below, constant};
use crate::overlay::behind_all;
use crate::state::SymAbstract;
use crate::write::EntryWrite;
use hk_simplify::choose;
use hk_symexpr::Limit;
use hk_symmem::InitialReads;
use hk_term::{TermId, Terms};
use spec_tree::Spec;
use std::alloc::{AllocError, Global};

// The entry of a field before the writes, where the indices are below their sizes.
fn before_writes<R: InitialReads>(
    alloc: Global,
    t: &mut Terms,
    spec: &Spec,
    state: &SymAbstract<R>,
    field: u32,
    index: &[Limit],
) -> Result<TermId, AllocError>
    requires spec { IsWellSorted (view_spec spec.now) }
    requires over { IsBaseOver (view_spec spec.now) t.old state.now.memory state.now.locals state.now.first }
    requires field { field < length spec.now.fields }
    requires index { AreIndexTerms t.old (slice_index_or (field_sorts (view_spec spec.now)) field no_field).keys index.now }
    ensures within { IfOk result (λ r. r < length t.new) }
    ensures width { IfOk result (λ r. width t.new r ≡ (slice_index_or (field_sorts (view_spec spec.now)) field no_field).width) }
    ensures value { IfOk result (λ r. (v : Reading) → AreLimited t.old index.now v → AreSteady entry_base t.old index.now v →
        IsSteadyMemory entry_base t.old state.now.memory v →
        IsEntry (field_sorts (view_spec spec.now)) field (index_values t.old index.now v) (base_at (view_spec spec.now) t.old state.now.memory state.now.first v) (value t.new r v)) }
    ensures keeps_widths { (k : ℕ) → k < length t.old → width t.new k ≡ width t.old k }
    ensures keeps_values { (k : ℕ) → k < length t.old → (v : Reading) → value t.new k v ≡ value t.old k v }
    ensures longer { length t.old ≤ length t.new }
    ensures grows { Grows t.old t.new }
{
    match &state.memory {
        Some(memory) => {
            let made = equation_entry(
                alloc,
                t,
                spec,
                memory,
                state.locals.as_slice(),
                field,
                index,
            )?;
            Ok(made)
        }
        None => {
            let made = array_entry(t, spec, state.first, field, index)?;
            Ok(made)
        }
    }
}

// The entry of a field behind the writes, and 0 where an index is not below its key's size.
fn ranged(
    t: &mut Terms,
    spec: &Spec,
    field: u32,
    index: &[Limit],
    found: TermId,
) -> Result<TermId, AllocError>
    requires spec { IsWellSorted (view_spec spec.now) }
    requires field { field < length spec.now.fields }
    requires index { AreIndexTerms t.old (slice_index_or (field_sorts (view_spec spec.now)) field no_field).keys index.now }
    requires found { found < length t.old }
    requires number { width t.old found ≡ (slice_index_or (field_sorts (view_spec spec.now)) field no_field).width }
    ensures within { IfOk result (λ r. r < length t.new) }
    ensures width { IfOk result (λ r. width t.new r ≡ (slice_index_or (field_sorts (view_spec spec.now)) field no_field).width) }
    ensures value { IfOk result (λ r. (v : Reading) → AreLimited t.old index.now v → (state : State) →
        IsEntry (field_sorts (view_spec spec.now)) field (index_values t.old index.now v) state (value t.old found v) →
        value t.new r v ≡ entry_at (slice_index_or state field []) (place_behind 0 (slice_index_or (field_sorts (view_spec spec.now)) field no_field).keys (index_values t.old index.now v))) }
    ensures keeps_widths { (k : ℕ) → k < length t.old → width t.new k ≡ width t.old k }
    ensures keeps_values { (k : ℕ) → k < length t.old → (v : Reading) → value t.new k v ≡ value t.old k v }
    ensures longer { length t.old ≤ length t.new }
    ensures grows { Grows t.old t.new }
{
    let bits = t.width(found);
    let test = are_below(t, keys_of(spec, field), index)?;
    let zero = constant(t, bits, 0)?;
    let made = choose(t, test, found, zero)?;
    Ok(made)
}

// The entry of a field of a state behind some writes more.
pub(crate) fn read_entry<R: InitialReads>(
    alloc: Global,
    t: &mut Terms,
    spec: &Spec,
    state: &SymAbstract<R>,
    writes: &[EntryWrite],
    field: u32,
    index: &[Limit],
) -> Result<TermId, AllocError>
    requires spec { IsWellSorted (view_spec spec.now) }
    requires over { IsStateOver (view_spec spec.now) t.old state.now }
    requires writes { All (IsWriteOver (field_sorts (view_spec spec.now)) t.old) writes.now }
    requires field { field < length spec.now.fields }
    requires index { AreIndexTerms t.old (slice_index_or (field_sorts (view_spec spec.now)) field no_field).keys index.now }
    ensures within { IfOk result (λ r. r < length t.new) }
    ensures width { IfOk result (λ r. width t.new r ≡ (slice_index_or (field_sorts (view_spec spec.now)) field no_field).width) }
    ensures value { IfOk result (λ r. (v : Reading) → AreLimited t.old index.now v → AreSteady entry_base t.old index.now v →
        IsSteadyMemory entry_base t.old state.now.memory v →
        value t.new r v ≡ entry_at (slice_index_or (after_writes (field_sorts (view_spec spec.now)) t.old v writes.now (state_at (view_spec spec.now) t.old state.now v)) field [])
        (place_behind 0 (slice_index_or (field_sorts (view_spec spec.now)) field no_field).keys (index_values t.old index.now v))) }
    ensures keeps_widths { (k : ℕ) → k < length t.old → width t.new k ≡ width t.old k }
    ensures keeps_values { (k : ℕ) → k < length t.old → (v : Reading) → value t.new k v ≡ value t.old k v }
    ensures longer { length t.old ≤ length t.new }
    ensures grows { Grows t.old t.new }
{
    let found = before_writes(alloc, t, spec, state, field, index)?;
    let earlier = behind_all(t, spec, state.writes.as_slice(), field, index, found)?;
    let later = behind_all(t, spec, writes, field, index, earlier)?;
    let made = ranged(t, spec, field, index, later)?;
    Ok(made)
}
