//! Entries of states and transitions as terms.

ghost use Rattle.std.specs.Prelude.{◌≡◌, ◌<◌, [], Some, slice_get, slice_index_or, length, IfOk};
ghost use Rattle.hk_term.specs.Meaning.{Reading, value};
ghost use Rattle.spec_tree.specs.Plain as plain;
ghost use Rattle.spec_tree.specs.Sorted.{IsWellSorted, field_sorts, no_field};
ghost use Rattle.spec_tree.specs.Value.{entry_at, place_behind};
ghost use Rattle.spec_tree.specs.View.{view_spec};
ghost use Rattle.spec_tree.specs.Meaning as meaning;
ghost use Rattle.hk_symexpr.specs.Sources.{Agrees};
ghost use Rattle.hk_symspec.specs.States.{numbers_at, state_at};
ghost use Rattle.hk_symspec.specs.Standing.{AreKeyTerms, IsStateOver, IsSteady, IsSteadyMemory, entry_base, formula_base};
ghost use Rattle.hk_symspec.specs.Steps.{AreArgumentTerms, AreSteadyTerms, IsStepAt};

use hk_symmem::InitialReads;
use hk_symspec::{SymAbstract, SymStep};
use hk_term::{TermId, Terms};
use spec_tree::Spec;
use std::alloc::{AllocError, Global};

/// The entry of a field is that of the state behind its writes, at the index tuple, and 0 where an index is out of range.
pub fn entry<R: InitialReads>(
    state: &SymAbstract<R>,
    alloc: Global,
    t: &mut Terms,
    spec: &Spec,
    field: u32,
    index: &[TermId],
) -> Result<TermId, AllocError>
    requires spec { IsWellSorted (view_spec spec.now) }
    requires over { IsStateOver (view_spec spec.now) t.old state.now }
    requires field { field < length spec.now.fields }
    requires index { AreKeyTerms t.old (slice_index_or (field_sorts (view_spec spec.now)) field no_field).keys index.now }
    ensures { IfOk result (λ r. (v : Reading) → IsSteadyMemory entry_base t.old state.now.memory v →
        ((u : Reading) → Agrees entry_base v u → numbers_at t.old index.now u ≡ numbers_at t.old index.now v) →
        value t.new r v ≡ entry_at (slice_index_or (state_at (view_spec spec.now) t.old state.now v) field [])
        (place_behind 0 (slice_index_or (field_sorts (view_spec spec.now)) field no_field).keys (numbers_at t.old index.now v))) }
{
    let found = state.entry(alloc, t, spec, field, index)?;
    Ok(found)
}

/// The terms of a transition are the truth, the end state and the result of its step.
pub fn transition_terms<R: InitialReads>(
    alloc: Global,
    t: &mut Terms,
    spec: &Spec,
    h: u32,
    state: &SymAbstract<R>,
    args: &[TermId],
) -> Result<SymStep<R>, AllocError>
    requires spec { IsWellSorted (view_spec spec.now) }
    requires there { h < length spec.now.transitions }
    requires over { IsStateOver (view_spec spec.now) t.old state.now }
    requires args { (u : plain.Transition) → slice_get (view_spec spec.now).transitions h ≡ Some u → AreArgumentTerms t.old u.widths args.now }
    ensures { (u : plain.Transition) → slice_get (view_spec spec.now).transitions h ≡ Some u → IfOk result (λ r. (v : Reading) →
        IsSteady formula_base (view_spec spec.now) t.old state.now v → AreSteadyTerms formula_base t.old args.now v →
        IsStepAt (view_spec spec.now) t.new r.valid r.state r.result v
        (meaning.transition (view_spec spec.now) u (state_at (view_spec spec.now) t.old state.now v) (numbers_at t.old args.now v))) }
{
    let step = hk_symspec::transition_terms(alloc, t, spec, h, state, args)?;
    Ok(step)
}
