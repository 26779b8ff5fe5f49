//! Whether two states have the same entries in a field.

ghost use Rattle.std.specs.Prelude.{◌≡◌, ◌↔◌, ℕ, ◌+◌, ◌^◌, ◌<◌, ◌≤◌, [], All, map, nat_eq, slice_index_or, length, IfOk};
ghost use Rattle.hk_term.specs.Operations.{bit};
ghost use Rattle.hk_term.specs.Shape.{width, Grows};
ghost use Rattle.hk_term.specs.Meaning.{Reading, value};
ghost use Rattle.spec_tree.specs.Sorted.{IsIndexSort, IsWellSorted, field_sorts, no_field};
ghost use Rattle.spec_tree.specs.Value.{entry_at, place_behind};
ghost use Rattle.spec_tree.specs.View.{view_key, view_spec};
ghost use Rattle.hk_symexpr.specs.Naming.{AreIndexTerms, AreLimited, AreSteady, index_values};
ghost use Rattle.hk_symspec.specs.Agreement.{AreKeyVariables, IsKeyVariable};
ghost use Rattle.hk_symspec.specs.States.{state_at};
ghost use Rattle.hk_symspec.specs.Standing.{IsStateOver, IsSteady, IsSteadyMemory, entry_base, formula_base};

use crate::bases::sizes_of;
use crate::entries::read_entry;
use crate::fields::keys_of;
use crate::indices::{key_at, size_in};
use crate::limits::FORMULA_BASE;
use crate::state::SymAbstract;
use hk_simplify::{eq, extract};
use hk_symexpr::{Limit, every};
use hk_symmem::InitialReads;
use hk_term::{Node, TermId, Terms};
use spec_tree::{Sort, Spec};
use std::alloc::{AllocError, Global};

// The variable of a key. It has the width 64 wherever it stands, as a quantifier's has, and is cut to the width of the key.
fn key_variable(t: &mut Terms, id: u32, key: &Sort) -> Result<Limit, AllocError>
    requires { IsIndexSort key.now.width (view_key key.now).size }
    ensures variable { IfOk result (λ l. IsKeyVariable t.new id (view_key key.now) l) }
    ensures keeps_widths { (k : ℕ) → k < length t.old → width t.new k ≡ width t.old k }
    ensures keeps_values { (k : ℕ) → k < length t.old → (v : Reading) → value t.new k v ≡ value t.old k v }
    ensures longer { length t.old ≤ length t.new }
    ensures grows { Grows t.old t.new }
{
    let wide = t.intern(Node::Var { width: 64, id })?;
    let term = extract(t, key.width - 1, 0, wide)?;
    Ok(Limit {
        term,
        most: u64::from(size_in(key) - 1),
    })
}

// The variables of keys, from the first that formulas have.
fn key_variables(alloc: Global, t: &mut Terms, keys: &[Sort]) -> Result<Vec<Limit>, AllocError>
    requires sorts { All (λ k. IsIndexSort k.width k.size) (map view_key keys.now) }
    requires few { length keys.now ≤ 4 }
    ensures variables { IfOk result (λ r. AreKeyVariables t.new formula_base (map view_key keys.now) r.items) }
    ensures keeps_widths { (k : ℕ) → k < length t.old → width t.new k ≡ width t.old k }
    ensures keeps_values { (k : ℕ) → k < length t.old → (v : Reading) → value t.new k v ≡ value t.old k v }
    ensures longer { length t.old ≤ length t.new }
    ensures grows { Grows t.old t.new }
{
    let mut made = Vec::new(alloc);
    'each: for k in 0..keys.len() {
        let key = key_at(keys, k);
        let one = key_variable(t, FORMULA_BASE + k as u32, &key)?;
        made.push(one)?;
    }
    Ok(made)
}

// Whether the entries of two states at an index tuple are equal.
fn entries_agree<R: InitialReads>(
    alloc: Global,
    t: &mut Terms,
    spec: &Spec,
    field: u32,
    index: &[Limit],
    a: &SymAbstract<R>,
    b: &SymAbstract<R>,
) -> Result<TermId, AllocError>
    requires spec { IsWellSorted (view_spec spec.now) }
    requires field { field < length spec.now.fields }
    requires index { AreIndexTerms t.old (slice_index_or (field_sorts (view_spec spec.now)) field no_field).keys index.now }
    requires first { IsStateOver (view_spec spec.now) t.old a.now }
    requires second { IsStateOver (view_spec spec.now) t.old b.now }
    ensures within { IfOk result (λ r. r < length t.new) }
    ensures width { IfOk result (λ r. width t.new r ≡ 1) }
    ensures value { IfOk result (λ r. (v : Reading) → AreLimited t.old index.now v → AreSteady entry_base t.old index.now v →
        IsSteadyMemory entry_base t.old a.now.memory v → IsSteadyMemory entry_base t.old b.now.memory v →
        value t.new r v ≡ bit (nat_eq
        (entry_at (slice_index_or (state_at (view_spec spec.now) t.old a.now v) field []) (place_behind 0 (slice_index_or (field_sorts (view_spec spec.now)) field no_field).keys (index_values t.old index.now v)))
        (entry_at (slice_index_or (state_at (view_spec spec.now) t.old b.now v) field []) (place_behind 0 (slice_index_or (field_sorts (view_spec spec.now)) field no_field).keys (index_values t.old index.now v))))) }
    ensures keeps_widths { (k : ℕ) → k < length t.old → width t.new k ≡ width t.old k }
    ensures keeps_values { (k : ℕ) → k < length t.old → (v : Reading) → value t.new k v ≡ value t.old k v }
    ensures longer { length t.old ≤ length t.new }
    ensures grows { Grows t.old t.new }
{
    let one = read_entry(alloc, t, spec, a, &[], field, index)?;
    let other = read_entry(alloc, t, spec, b, &[], field, index)?;
    let made = eq(t, one, other)?;
    Ok(made)
}

/// Whether two states have the same entries in the field with this place: for all indices below the sizes of its keys, or, for a field
/// without keys, in its one entry. It is a quantifier over the keys, so its size does not depend on theirs.
///
/// The conditions are a well-sorted specification, a field that exists, and states of the specification whose terms stand in the list.
/// The clause on the value speaks of the readings under which no state depends on a variable from `FORMULA_BASE` on.
pub fn fields_agree<R: InitialReads>(
    alloc: Global,
    t: &mut Terms,
    spec: &Spec,
    field: u32,
    a: &SymAbstract<R>,
    b: &SymAbstract<R>,
) -> Result<TermId, AllocError>
    requires spec { IsWellSorted (view_spec spec.now) }
    requires field { field < length spec.now.fields }
    requires first { IsStateOver (view_spec spec.now) t.old a.now }
    requires second { IsStateOver (view_spec spec.now) t.old b.now }
    ensures within { IfOk result (λ r. r < length t.new) }
    ensures width { IfOk result (λ r. width t.new r ≡ 1) }
    ensures value { IfOk result (λ r. (v : Reading) → IsSteady formula_base (view_spec spec.now) t.old a.now v → IsSteady formula_base (view_spec spec.now) t.old b.now v →
        (value t.new r v ≡ 1) ↔ (slice_index_or (state_at (view_spec spec.now) t.old a.now v) field [] ≡ slice_index_or (state_at (view_spec spec.now) t.old b.now v) field [])) }
    ensures keeps_widths { (k : ℕ) → k < length t.old → width t.new k ≡ width t.old k }
    ensures keeps_values { (k : ℕ) → k < length t.old → (v : Reading) → value t.new k v ≡ value t.old k v }
    ensures longer { length t.old ≤ length t.new }
    ensures grows { Grows t.old t.new }
{
    let keys = keys_of(spec, field);
    let sizes = sizes_of(alloc, keys)?;
    let index = key_variables(alloc, t, keys)?;
    let same = entries_agree(alloc, t, spec, field, index.as_slice(), a, b)?;
    let made = every(alloc, t, FORMULA_BASE, sizes.as_slice(), same)?;
    Ok(made)
}
