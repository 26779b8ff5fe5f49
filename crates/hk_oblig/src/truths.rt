//! Truth values of a specification's invariants, properties and fields, one for each.

ghost use Rattle.std.specs.Prelude.{◌≡◌, ◌<◌, ◌↔◌, ℕ, IsTrue, Some, List, [], All, slice_get, slice_index_or, length, IfOk};
ghost use Rattle.std.specs.List.{list_all};
ghost use Rattle.hk_term.specs.Meaning.{Reading};
ghost use Rattle.hk_symvalue.specs.Growth.{Extends};
ghost use Rattle.hk_symvalue.specs.Meaning.{IsTruth, is_true};
ghost use Rattle.spec_tree.specs.Plain as plain;
ghost use Rattle.spec_tree.specs.Sorted.{IsWellSorted};
ghost use Rattle.spec_tree.specs.View.{view_spec};
ghost use Rattle.spec_tree.specs.Meaning as meaning;
ghost use Rattle.spec_tree.specs.Meaning.{Memory, State, invariant_holds, property_holds};
ghost use Rattle.hk_symspec.specs.Standing.{IsKernelOver, IsStateOver};
ghost use Rattle.hk_case.specs.Violation.{HaveProperties};
ghost use Rattle.hk_oblig.specs.Telling.{TellEach, TellFields};
ghost use Rattle.hk_oblig.specs.Under.{IsMemoryAt, IsStateAt};

use hk_seq::Seq;
use hk_symmem::{InitialReads, SymMemory};
use hk_symspec::{SymAbstract, fields_agree, invariant_term, property_term};
use hk_symvalue::logic::{and, constant};
use hk_term::{TermId, Terms};
use spec_tree::Spec;
use std::alloc::{AllocError, Global};

/// A count as a number of 32 bits: want of memory where it is none of these, or the last.
pub(crate) fn few(count: usize) -> Result<u32, AllocError>
    ensures same { IfOk result (λ n. n ≡ count) }
    ensures few { IfOk result (λ n. n < 4294967295) }
{
    if count >= u32::MAX as usize {
        return Err(AllocError);
    }
    Ok(count as u32)
}

/// The conjunction of truth values, which is true where there is none.
pub(crate) fn conjunction(t: &mut Terms, terms: &[TermId]) -> Result<TermId, AllocError>
    requires { All (λ k. IsTruth t.old k) terms.now }
    ensures frame { Extends t.old t.new }
    ensures truth { IfOk result (λ r. IsTruth t.new r) }
    ensures value { IfOk result (λ r. (v : Reading) → is_true t.new r v ≡ list_all (λ k. is_true t.old k v) terms.now) }
{
    let mut all = constant(t, true)?;
    'each: for term in terms {
        all = and(t, all, *term)?;
    }
    Ok(all)
}

// ---- invariants

// Whether the invariant with this place holds.
fn invariant_at<R: InitialReads>(
    alloc: Global,
    t: &mut Terms,
    spec: &Spec,
    i: u32,
    memory: &SymMemory<R>,
) -> Result<TermId, AllocError>
    requires spec { IsWellSorted (view_spec spec.now) }
    requires there { i < length spec.now.invariants }
    requires memory { IsKernelOver (view_spec spec.now) t.old memory.now }
    ensures frame { Extends t.old t.new }
    ensures truth { IfOk result (λ r. IsTruth t.new r) }
    ensures told { (n : plain.Named) → slice_get (view_spec spec.now).invariants i ≡ Some n → IfOk result (λ r. (v : Reading) (m : Memory) →
        IsMemoryAt t.old memory.now v m → is_true t.new r v ≡ invariant_holds (view_spec spec.now) n m) }
{
    let made = invariant_term(alloc, t, spec, i, memory)?;
    Ok(made)
}

/// A truth value for each invariant, in text order: it holds in the memory.
pub(crate) fn invariant_terms<R: InitialReads>(
    alloc: Global,
    t: &mut Terms,
    spec: &Spec,
    memory: &SymMemory<R>,
) -> Result<Seq<TermId>, AllocError>
    requires spec { IsWellSorted (view_spec spec.now) }
    requires memory { IsKernelOver (view_spec spec.now) t.old memory.now }
    ensures frame { Extends t.old t.new }
    ensures truths { IfOk result (λ r. All (λ k. IsTruth t.new k) r) }
    ensures count { IfOk result (λ r. length r ≡ length spec.now.invariants) }
    ensures told { IfOk result (λ r. (v : Reading) (m : Memory) → IsMemoryAt t.old memory.now v m →
        TellEach t.new v r (view_spec spec.now).invariants (λ n. invariant_holds (view_spec spec.now) n m)) }
{
    let count = few(spec.invariants.as_slice().len())?;
    let mut terms = Vec::new(alloc);
    'each: for i in 0..count {
        let term = invariant_at(alloc, t, spec, i, memory)?;
        terms.push(term)?;
    }
    Ok(Seq::from_vec(terms))
}

/// Whether all invariants hold in the memory.
pub(crate) fn all_invariants<R: InitialReads>(
    alloc: Global,
    t: &mut Terms,
    spec: &Spec,
    memory: &SymMemory<R>,
) -> Result<TermId, AllocError>
    requires spec { IsWellSorted (view_spec spec.now) }
    requires memory { IsKernelOver (view_spec spec.now) t.old memory.now }
    ensures frame { Extends t.old t.new }
    ensures truth { IfOk result (λ r. IsTruth t.new r) }
    ensures told { IfOk result (λ r. (v : Reading) (m : Memory) → IsMemoryAt t.old memory.now v m →
        IsTrue (is_true t.new r v) ↔ meaning.Invariant (view_spec spec.now) m) }
{
    let each = invariant_terms(alloc, t, spec, memory)?;
    let all = conjunction(t, each.as_slice())?;
    Ok(all)
}

// ---- properties

// Whether the property with this place holds.
fn property_at<R: InitialReads>(
    alloc: Global,
    t: &mut Terms,
    spec: &Spec,
    p: u32,
    state: &SymAbstract<R>,
) -> Result<TermId, AllocError>
    requires spec { IsWellSorted (view_spec spec.now) }
    requires there { p < length spec.now.properties }
    requires over { IsStateOver (view_spec spec.now) t.old state.now }
    ensures frame { Extends t.old t.new }
    ensures truth { IfOk result (λ r. IsTruth t.new r) }
    ensures told { (n : plain.Named) → slice_get (view_spec spec.now).properties p ≡ Some n → IfOk result (λ r. (v : Reading) (x : State) →
        IsStateAt (view_spec spec.now) t.old state.now v x → is_true t.new r v ≡ property_holds (view_spec spec.now) n x) }
{
    let made = property_term(alloc, t, spec, p, state)?;
    Ok(made)
}

/// A truth value for each property, in text order: it holds in the state.
pub(crate) fn property_terms<R: InitialReads>(
    alloc: Global,
    t: &mut Terms,
    spec: &Spec,
    state: &SymAbstract<R>,
) -> Result<Seq<TermId>, AllocError>
    requires spec { IsWellSorted (view_spec spec.now) }
    requires over { IsStateOver (view_spec spec.now) t.old state.now }
    ensures frame { Extends t.old t.new }
    ensures truths { IfOk result (λ r. All (λ k. IsTruth t.new k) r) }
    ensures count { IfOk result (λ r. length r ≡ length spec.now.properties) }
    ensures told { IfOk result (λ r. (v : Reading) (x : State) → IsStateAt (view_spec spec.now) t.old state.now v x →
        TellEach t.new v r (view_spec spec.now).properties (λ n. property_holds (view_spec spec.now) n x)) }
{
    let count = few(spec.properties.as_slice().len())?;
    let mut terms = Vec::new(alloc);
    'each: for p in 0..count {
        let term = property_at(alloc, t, spec, p, state)?;
        terms.push(term)?;
    }
    Ok(Seq::from_vec(terms))
}

/// Whether all properties hold in the state.
pub(crate) fn all_properties<R: InitialReads>(
    alloc: Global,
    t: &mut Terms,
    spec: &Spec,
    state: &SymAbstract<R>,
) -> Result<TermId, AllocError>
    requires spec { IsWellSorted (view_spec spec.now) }
    requires over { IsStateOver (view_spec spec.now) t.old state.now }
    ensures frame { Extends t.old t.new }
    ensures truth { IfOk result (λ r. IsTruth t.new r) }
    ensures told { IfOk result (λ r. (v : Reading) (x : State) → IsStateAt (view_spec spec.now) t.old state.now v x →
        IsTrue (is_true t.new r v) ↔ HaveProperties (view_spec spec.now) x) }
{
    let each = property_terms(alloc, t, spec, state)?;
    let all = conjunction(t, each.as_slice())?;
    Ok(all)
}

// ---- fields

// Whether two states agree in the field with this place.
fn agreement_at<R: InitialReads>(
    alloc: Global,
    t: &mut Terms,
    spec: &Spec,
    field: u32,
    after: &SymAbstract<R>,
    wanted: &SymAbstract<R>,
) -> Result<TermId, AllocError>
    requires spec { IsWellSorted (view_spec spec.now) }
    requires there { field < length spec.now.fields }
    requires first { IsStateOver (view_spec spec.now) t.old after.now }
    requires second { IsStateOver (view_spec spec.now) t.old wanted.now }
    ensures frame { Extends t.old t.new }
    ensures truth { IfOk result (λ r. IsTruth t.new r) }
    ensures told { IfOk result (λ r. (v : Reading) (x y : State) → IsStateAt (view_spec spec.now) t.old after.now v x →
        IsStateAt (view_spec spec.now) t.old wanted.now v y → IsTrue (is_true t.new r v) ↔ (slice_index_or x field [] ≡ slice_index_or y field [])) }
{
    let made = fields_agree(alloc, t, spec, field, after, wanted)?;
    Ok(made)
}

/// A truth value for each field, in the order of the class: two states have the same entries in it.
pub(crate) fn agreement_terms<R: InitialReads>(
    alloc: Global,
    t: &mut Terms,
    spec: &Spec,
    after: &SymAbstract<R>,
    wanted: &SymAbstract<R>,
) -> Result<Seq<TermId>, AllocError>
    requires spec { IsWellSorted (view_spec spec.now) }
    requires first { IsStateOver (view_spec spec.now) t.old after.now }
    requires second { IsStateOver (view_spec spec.now) t.old wanted.now }
    ensures frame { Extends t.old t.new }
    ensures truths { IfOk result (λ r. All (λ k. IsTruth t.new k) r) }
    ensures count { IfOk result (λ r. length r ≡ length spec.now.fields) }
    ensures told { IfOk result (λ r. (v : Reading) (x y : State) → IsStateAt (view_spec spec.now) t.old after.now v x →
        IsStateAt (view_spec spec.now) t.old wanted.now v y → TellFields t.new v r (view_spec spec.now) x y) }
{
    let count = few(spec.fields.as_slice().len())?;
    let mut terms = Vec::new(alloc);
    'each: for field in 0..count {
        let term = agreement_at(alloc, t, spec, field, after, wanted)?;
        terms.push(term)?;
    }
    Ok(Seq::from_vec(terms))
}
