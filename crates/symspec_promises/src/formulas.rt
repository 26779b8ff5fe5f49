//! Invariants, properties and agreement as terms.

ghost use Rattle.std.specs.Prelude.{◌≡◌, ◌↔◌, ◌<◌, [], Some, slice_get, slice_index_or, length, IfOk};
ghost use Rattle.hk_term.specs.Meaning.{Reading, value};
ghost use Rattle.hk_symmem.specs.Guarded.{memory_at};
ghost use Rattle.spec_tree.specs.Plain as plain;
ghost use Rattle.spec_tree.specs.Sorted.{IsWellSorted};
ghost use Rattle.spec_tree.specs.Value.{bit};
ghost use Rattle.spec_tree.specs.View.{view_spec};
ghost use Rattle.spec_tree.specs.Meaning as meaning;
ghost use Rattle.hk_symspec.specs.States.{state_at};
ghost use Rattle.hk_symspec.specs.Standing.{IsKernelOver, IsStateOver, IsSteady, IsSteadyMemory, formula_base};

use hk_symmem::{InitialReads, SymMemory};
use hk_symspec::SymAbstract;
use hk_term::{TermId, Terms};
use spec_tree::Spec;
use std::alloc::{AllocError, Global};

/// The term of an invariant tells whether it holds in the memory.
pub fn invariant_term<R: InitialReads>(
    alloc: Global,
    t: &mut Terms,
    spec: &Spec,
    i: u32,
    memory: &SymMemory<R>,
) -> Result<TermId, AllocError>
    requires spec { IsWellSorted (view_spec spec.now) }
    requires there { i < length spec.now.invariants }
    requires memory { IsKernelOver (view_spec spec.now) t.old memory.now }
    ensures { (n : plain.Named) → slice_get (view_spec spec.now).invariants i ≡ Some n → IfOk result (λ r. (v : Reading) →
        IsSteadyMemory formula_base t.old (Some memory.now) v → value t.new r v ≡ bit (meaning.invariant_holds (view_spec spec.now) n (memory_at t.old memory.now v))) }
{
    let made = hk_symspec::invariant_term(alloc, t, spec, i, memory)?;
    Ok(made)
}

/// The term of a property tells whether it holds in the state.
pub fn property_term<R: InitialReads>(
    alloc: Global,
    t: &mut Terms,
    spec: &Spec,
    p: u32,
    state: &SymAbstract<R>,
) -> Result<TermId, AllocError>
    requires spec { IsWellSorted (view_spec spec.now) }
    requires there { p < length spec.now.properties }
    requires over { IsStateOver (view_spec spec.now) t.old state.now }
    ensures { (n : plain.Named) → slice_get (view_spec spec.now).properties p ≡ Some n → IfOk result (λ r. (v : Reading) →
        IsSteady formula_base (view_spec spec.now) t.old state.now v →
        value t.new r v ≡ bit (meaning.property_holds (view_spec spec.now) n (state_at (view_spec spec.now) t.old state.now v))) }
{
    let made = hk_symspec::property_term(alloc, t, spec, p, state)?;
    Ok(made)
}

/// The term of agreement tells whether two states have the same entries in a field.
pub fn fields_agree<R: InitialReads>(
    alloc: Global,
    t: &mut Terms,
    spec: &Spec,
    field: u32,
    a: &SymAbstract<R>,
    b: &SymAbstract<R>,
) -> Result<TermId, AllocError>
    requires spec { IsWellSorted (view_spec spec.now) }
    requires field { field < length spec.now.fields }
    requires first { IsStateOver (view_spec spec.now) t.old a.now }
    requires second { IsStateOver (view_spec spec.now) t.old b.now }
    ensures { IfOk result (λ r. (v : Reading) → IsSteady formula_base (view_spec spec.now) t.old a.now v → IsSteady formula_base (view_spec spec.now) t.old b.now v →
        (value t.new r v ≡ 1) ↔ (slice_index_or (state_at (view_spec spec.now) t.old a.now v) field [] ≡ slice_index_or (state_at (view_spec spec.now) t.old b.now v) field [])) }
{
    let same = hk_symspec::fields_agree(alloc, t, spec, field, a, b)?;
    Ok(same)
}
