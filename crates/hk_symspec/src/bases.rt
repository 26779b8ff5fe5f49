//! Entries before any write: of the abstraction of a memory, and of arrays.

ghost use Rattle.std.specs.Prelude.{◌≡◌, ℕ, ◌+◌, ◌*◌, ◌^◌, ◌<◌, ◌≤◌, Some, map, slice_index_or, length, IfOk};
ghost use Rattle.hk_term.specs.Shape.{width, Grows};
ghost use Rattle.hk_term.specs.Meaning.{Reading, value};
ghost use Rattle.hk_symmem.specs.Guarded.{memory_at};
ghost use Rattle.spec_tree.specs.Sorted.{IsWellSorted, field_sorts, key_sizes, no_field};
ghost use Rattle.spec_tree.specs.Value.{place_behind};
ghost use Rattle.spec_tree.specs.View.{view_key, view_spec};
ghost use Rattle.spec_tree.specs.Meaning.{abstraction};
ghost use Rattle.hk_symexpr.specs.Naming.{AreIndexTerms, AreLimited, AreSteady, index_values};
ghost use Rattle.hk_symspec.specs.States.{free_state};
ghost use Rattle.hk_symspec.specs.Standing.{IsEquated, IsSteadyMemory, entry_base};
ghost use Rattle.hk_symspec.specs.Ranges.{IsEntry};

use crate::fields::{field_at, keys_of};
use crate::formulas::objects_are_small;
use crate::indices::{constant, key_at, limit_at, size_in};
use crate::kernel::KernelReads;
use crate::limits::ENTRY_BASE;
use hk_simplify::{add, mul, zero_extend};
use hk_symexpr::{Limit, NamedTerm, Names, term_of};
use hk_symmem::{InitialReads, SymMemory};
use hk_term::{Node, TermId, Terms};
use spec_tree::{Sort, Spec};
use std::alloc::{AllocError, Global};

// The terms of indices.
fn terms_of(alloc: Global, index: &[Limit]) -> Result<Vec<TermId>, AllocError>
    ensures { IfOk result (λ v. v.items ≡ map (λ i. i.term) index.now) }
{
    let mut terms = Vec::new(alloc);
    'each: for one in index {
        terms.push(one.term)?;
    }
    Ok(terms)
}

// The sizes of keys.
pub(crate) fn sizes_of(alloc: Global, keys: &[Sort]) -> Result<Vec<u32>, AllocError>
    ensures { IfOk result (λ v. v.items ≡ key_sizes (map view_key keys.now)) }
{
    let mut sizes = Vec::new(alloc);
    'each: for key in keys {
        sizes.push(size_in(key))?;
    }
    Ok(sizes)
}

// The entry of a field of the abstraction of a memory: the right side of the field's equation at the index terms.
pub(crate) fn equation_entry<R: InitialReads>(
    alloc: Global,
    t: &mut Terms,
    spec: &Spec,
    memory: &SymMemory<R>,
    locals: &[NamedTerm],
    field: u32,
    index: &[Limit],
) -> Result<TermId, AllocError>
    requires spec { IsWellSorted (view_spec spec.now) }
    requires base { IsEquated (view_spec spec.now) t.old memory.now locals.now }
    requires field { field < length spec.now.fields }
    requires index { AreIndexTerms t.old (slice_index_or (field_sorts (view_spec spec.now)) field no_field).keys index.now }
    ensures within { IfOk result (λ r. r < length t.new) }
    ensures width { IfOk result (λ r. width t.new r ≡ (slice_index_or (field_sorts (view_spec spec.now)) field no_field).width) }
    ensures value { IfOk result (λ r. (v : Reading) → AreLimited t.old index.now v → AreSteady entry_base t.old index.now v →
        IsSteadyMemory entry_base t.old (Some memory.now) v →
        IsEntry (field_sorts (view_spec spec.now)) field (index_values t.old index.now v) (abstraction (view_spec spec.now) (memory_at t.old memory.now v)) (value t.new r v)) }
    ensures keeps_widths { (k : ℕ) → k < length t.old → width t.new k ≡ width t.old k }
    ensures keeps_values { (k : ℕ) → k < length t.old → (v : Reading) → value t.new k v ≡ value t.old k v }
    ensures longer { length t.old ≤ length t.new }
    ensures grows { Grows t.old t.new }
{
    // For the proof: each object has fewer than 2^64 bytes.
    let _objects = objects_are_small(spec);
    let keys = terms_of(alloc, index)?;
    let sizes = sizes_of(alloc, keys_of(spec, field))?;
    let equation = field_at(spec, field);
    let reads = KernelReads { spec, memory };
    let listed = keys.as_slice();
    let counted = sizes.as_slice();
    let names = Names {
        args: &[],
        locals,
        keys: listed,
        sizes: counted,
        known: index,
        base: ENTRY_BASE,
    };
    let made = term_of(alloc, t, &reads, &names, &equation.value)?;
    Ok(made)
}

// The place of an index tuple behind the place of the earlier indices.
fn next_place(t: &mut Terms, at: TermId, size: u32, index: TermId) -> Result<TermId, AllocError>
    requires place { at < length t.old }
    requires address { width t.old at ≡ 64 }
    requires index { index < length t.old }
    ensures within { IfOk result (λ r. r < length t.new) }
    ensures width { IfOk result (λ r. width t.new r ≡ 64) }
    ensures value { IfOk result (λ r. (v : Reading) → value t.old at v * size + value t.old index v < 2 ^ 64 → value t.new r v ≡ value t.old at v * size + value t.old index v) }
    ensures keeps_widths { (k : ℕ) → k < length t.old → width t.new k ≡ width t.old k }
    ensures keeps_values { (k : ℕ) → k < length t.old → (v : Reading) → value t.new k v ≡ value t.old k v }
    ensures longer { length t.old ≤ length t.new }
    ensures grows { Grows t.old t.new }
{
    // For the proof: the index's width is from 1 to 64.
    let _w = t.width(index);
    let scale = constant(t, 64, u64::from(size))?;
    let high = mul(t, at, scale)?;
    let low = zero_extend(t, 64, index)?;
    let made = add(t, high, low)?;
    Ok(made)
}

// The place of an index tuple, in the order of the tuples.
fn place_of(t: &mut Terms, keys: &[Sort], index: &[Limit]) -> Result<TermId, AllocError>
    requires index { AreIndexTerms t.old (map view_key keys.now) index.now }
    ensures within { IfOk result (λ r. r < length t.new) }
    ensures width { IfOk result (λ r. width t.new r ≡ 64) }
    ensures value { IfOk result (λ r. (v : Reading) (p : ℕ) → place_behind 0 (map view_key keys.now) (index_values t.old index.now v) ≡ Some p → p < 2 ^ 64 → value t.new r v ≡ p) }
    ensures keeps_widths { (k : ℕ) → k < length t.old → width t.new k ≡ width t.old k }
    ensures keeps_values { (k : ℕ) → k < length t.old → (v : Reading) → value t.new k v ≡ value t.old k v }
    ensures longer { length t.old ≤ length t.new }
    ensures grows { Grows t.old t.new }
{
    let mut made = constant(t, 64, 0)?;
    'each: for k in 0..keys.len() {
        let key = key_at(keys, k);
        let one = limit_at(index, k);
        made = next_place(t, made, size_in(&key), one.term)?;
    }
    Ok(made)
}

// The entry of a field whose entries are those of arrays from a number on.
pub(crate) fn array_entry(
    t: &mut Terms,
    spec: &Spec,
    first: u32,
    field: u32,
    index: &[Limit],
) -> Result<TermId, AllocError>
    requires spec { IsWellSorted (view_spec spec.now) }
    requires fits { first + length spec.now.fields ≤ 2 ^ 32 }
    requires field { field < length spec.now.fields }
    requires index { AreIndexTerms t.old (slice_index_or (field_sorts (view_spec spec.now)) field no_field).keys index.now }
    ensures within { IfOk result (λ r. r < length t.new) }
    ensures width { IfOk result (λ r. width t.new r ≡ (slice_index_or (field_sorts (view_spec spec.now)) field no_field).width) }
    ensures value { IfOk result (λ r. (v : Reading) →
        IsEntry (field_sorts (view_spec spec.now)) field (index_values t.old index.now v) (free_state first (field_sorts (view_spec spec.now)) v.entry) (value t.new r v)) }
    ensures keeps_widths { (k : ℕ) → k < length t.old → width t.new k ≡ width t.old k }
    ensures keeps_values { (k : ℕ) → k < length t.old → (v : Reading) → value t.new k v ≡ value t.old k v }
    ensures longer { length t.old ≤ length t.new }
    ensures grows { Grows t.old t.new }
{
    let place = place_of(t, keys_of(spec, field), index)?;
    let width = field_at(spec, field).width;
    let made = t.intern(Node::Select {
        array: first + field,
        width,
        index: place,
    })?;
    Ok(made)
}
