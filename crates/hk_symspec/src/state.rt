//! Abstract states as guarded writes.

ghost use Rattle.std.specs.Prelude.{◌≡◌, ℕ, ◌+◌, ◌^◌, ◌<◌, ◌≤◌, List, [], Some, None, map, slice_index_or, length, All, IfOk};
ghost use Rattle.hk_term.specs.Shape.{width, Grows};
ghost use Rattle.hk_term.specs.Meaning.{Reading, value};
ghost use Rattle.hk_term.specs.declared.node.Node.{Node};
ghost use Rattle.hk_symmem.specs.Guarded.{memory_at};
ghost use Rattle.spec_tree.specs.Sorted.{IsWellSorted, field_sorts, no_field};
ghost use Rattle.spec_tree.specs.Value.{entry_at, place_behind};
ghost use Rattle.spec_tree.specs.View.{view_spec};
ghost use Rattle.spec_tree.specs.Meaning.{abstraction};
ghost use Rattle.hk_symexpr.specs.Sources.{Agrees};
ghost use Rattle.hk_symspec.specs.States.{free_state, numbers_at, state_at};
ghost use Rattle.hk_symspec.specs.Standing.{AreKeyTerms, IsKernelOver, IsStateOver, IsSteady, IsSteadyMemory, entry_base};

use crate::entries::read_entry;
use crate::formulas::objects_are_small;
use crate::indices::most_of;
use crate::kernel::KernelReads;
use crate::limits::ENTRY_BASE;
use crate::names::put_names;
use crate::write::EntryWrite;
use hk_seq::Seq;
use hk_symexpr::{Limit, NamedTerm};
use hk_symmem::{InitialReads, SymMemory};
use hk_term::{TermId, Terms};
use spec_tree::Spec;
use std::alloc::{AllocError, Global};
use std::marker::Model;

/// An abstract state: guarded writes over the abstraction of a memory, or over the entries of arrays. Under a reading it stands for one
/// abstract state.
#[derive(Drop)]
pub struct SymAbstract<R: InitialReads> {
    pub(crate) memory: Option<SymMemory<R>>,
    pub(crate) locals: Seq<NamedTerm>,
    pub(crate) first: u32,
    pub(crate) writes: Seq<EntryWrite>,
}

impl<R: InitialReads> Model for SymAbstract<R> {
    ghost use Rattle.hk_symspec.specs.States.{StateView};

    ghost Value = { StateView };

    ghost view = { λ a. record { memory = a.memory; locals = a.locals; first = a.first; writes = a.writes } };
}

impl<R: InitialReads> SymAbstract<R> {
    /// The abstraction of a memory: the terms of the equations' local names are made once.
    ///
    /// The conditions are a well-sorted specification, and a memory of its objects whose terms stand in the list.
    pub fn of_memory(
        alloc: Global,
        t: &mut Terms,
        spec: &Spec,
        memory: &SymMemory<R>,
    ) -> Result<SymAbstract<R>, AllocError>
        requires spec { IsWellSorted (view_spec spec.now) }
        requires memory { IsKernelOver (view_spec spec.now) t.old memory.now }
        ensures over { IfOk result (λ a. IsStateOver (view_spec spec.now) t.new a) }
        ensures memory { IfOk result (λ a. a.memory ≡ Some memory.now) }
        ensures value { IfOk result (λ a. (v : Reading) → state_at (view_spec spec.now) t.new a v ≡ abstraction (view_spec spec.now) (memory_at t.old memory.now v)) }
        ensures steady { IfOk result (λ a. (limit : ℕ) (v : Reading) → IsSteadyMemory limit t.old (Some memory.now) v → IsSteady limit (view_spec spec.now) t.new a v) }
        ensures keeps_widths { (k : ℕ) → k < length t.old → width t.new k ≡ width t.old k }
        ensures keeps_values { (k : ℕ) → k < length t.old → (v : Reading) → value t.new k v ≡ value t.old k v }
        ensures longer { length t.old ≤ length t.new }
        ensures grows { Grows t.old t.new }
    {
        // For the proof: each object has fewer than 2^64 bytes.
        let _objects = objects_are_small(spec);
        let reads = KernelReads { spec, memory };
        let mut locals = Vec::new(alloc);
        put_names(
            alloc,
            t,
            &reads,
            &[],
            &mut locals,
            ENTRY_BASE,
            &spec.equation_locals,
        )?;
        let kept = memory.copy(alloc)?;
        Ok(SymAbstract {
            memory: Some(kept),
            locals: Seq::from_vec(locals),
            first: 0,
            writes: Seq::new(alloc),
        })
    }

    /// The state whose field k has the entries of the array `first` + k, each modulo 2 to the field's width. It takes no memory.
    ///
    /// The condition is that these numbers fit.
    pub fn free_from(alloc: Global, spec: &Spec, first: u32) -> SymAbstract<R>
        requires { first + length spec.now.fields ≤ 2 ^ 32 }
        ensures over { (nodes : List Node) → IsStateOver (view_spec spec.now) nodes result }
        ensures memory { result.memory ≡ None }
        ensures value { (nodes : List Node) (v : Reading) → state_at (view_spec spec.now) nodes result v ≡ free_state first (field_sorts (view_spec spec.now)) v.entry }
        ensures steady { (limit : ℕ) (nodes : List Node) (v : Reading) → IsSteady limit (view_spec spec.now) nodes result v }
    {
        // For the proof: the clauses alone speak of the specification's fields.
        let _fields = spec.fields.as_slice();
        SymAbstract {
            memory: None,
            locals: Seq::new(alloc),
            first,
            writes: Seq::new(alloc),
        }
    }

    /// The state whose field k has the entries of the array k. It takes no memory.
    pub fn free(alloc: Global, spec: &Spec) -> SymAbstract<R>
        requires { length spec.now.fields ≤ 2 ^ 32 }
        ensures over { (nodes : List Node) → IsStateOver (view_spec spec.now) nodes result }
        ensures memory { result.memory ≡ None }
        ensures value { (nodes : List Node) (v : Reading) → state_at (view_spec spec.now) nodes result v ≡ free_state 0 (field_sorts (view_spec spec.now)) v.entry }
        ensures steady { (limit : ℕ) (nodes : List Node) (v : Reading) → IsSteady limit (view_spec spec.now) nodes result v }
    {
        SymAbstract::free_from(alloc, spec, 0)
    }

    /// The entry of a field at an index tuple, 0 where an index is not below its key's size.
    ///
    /// The conditions are a well-sorted specification, a state of it whose terms stand in the list, a field that exists, and one index
    /// for each key, of that key's width. The clause on the value speaks of the readings under which neither the indices nor the memory
    /// depend on a variable from `ENTRY_BASE` on.
    pub fn entry(
        &self,
        alloc: Global,
        t: &mut Terms,
        spec: &Spec,
        field: u32,
        index: &[TermId],
    ) -> Result<TermId, AllocError>
        requires spec { IsWellSorted (view_spec spec.now) }
        requires over { IsStateOver (view_spec spec.now) t.old self.now }
        requires field { field < length spec.now.fields }
        requires index { AreKeyTerms t.old (slice_index_or (field_sorts (view_spec spec.now)) field no_field).keys index.now }
        ensures within { IfOk result (λ r. r < length t.new) }
        ensures width { IfOk result (λ r. width t.new r ≡ (slice_index_or (field_sorts (view_spec spec.now)) field no_field).width) }
        ensures value { IfOk result (λ r. (v : Reading) → IsSteadyMemory entry_base t.old self.now.memory v →
            ((u : Reading) → Agrees entry_base v u → numbers_at t.old index.now u ≡ numbers_at t.old index.now v) →
            value t.new r v ≡ entry_at (slice_index_or (state_at (view_spec spec.now) t.old self.now v) field [])
            (place_behind 0 (slice_index_or (field_sorts (view_spec spec.now)) field no_field).keys (numbers_at t.old index.now v))) }
        ensures keeps_widths { (k : ℕ) → k < length t.old → width t.new k ≡ width t.old k }
        ensures keeps_values { (k : ℕ) → k < length t.old → (v : Reading) → value t.new k v ≡ value t.old k v }
        ensures longer { length t.old ≤ length t.new }
        ensures grows { Grows t.old t.new }
    {
        let limits = limits_of(alloc, t, index)?;
        let made = read_entry(alloc, t, spec, self, &[], field, limits.as_slice())?;
        Ok(made)
    }
}

// A term with the greatest number of its width.
fn limit_of(t: &Terms, term: TermId) -> Limit
    requires { term < length t.now }
    ensures term { result.term ≡ term }
    ensures most { (v : Reading) → value t.now term v ≤ result.most }
{
    // For the proof: the term's numbers are below 2 to its width.
    let _node = t.node(term);
    Limit {
        term,
        most: most_of(t.width(term)),
    }
}

// Terms with the greatest numbers of their widths.
fn limits_of(alloc: Global, t: &Terms, index: &[TermId]) -> Result<Vec<Limit>, AllocError>
    requires { All (λ k. k < length t.now) index.now }
    ensures terms { IfOk result (λ l. map (λ i. i.term) l.items ≡ index.now) }
    ensures most { IfOk result (λ l. All (λ i. (v : Reading) → value t.now i.term v ≤ i.most) l.items) }
{
    let mut limits = Vec::new(alloc);
    'each: for term in index {
        limits.push(limit_of(t, *term))?;
    }
    Ok(limits)
}
