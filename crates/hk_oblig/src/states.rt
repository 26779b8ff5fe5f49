//! Abstract states: the abstraction of a memory, and the end state of a transition.

ghost use Rattle.std.specs.Prelude.{◌≡◌, ◌<◌, ℕ, Some, List, slice_get, length, IfOk};
ghost use Rattle.hk_term.specs.Meaning.{Reading};
ghost use Rattle.hk_symvalue.specs.Growth.{Extends};
ghost use Rattle.hk_symvalue.specs.Meaning.{IsTruth};
ghost use Rattle.spec_tree.specs.Plain as plain;
ghost use Rattle.spec_tree.specs.Sorted.{IsWellSorted};
ghost use Rattle.spec_tree.specs.View.{view_spec};
ghost use Rattle.spec_tree.specs.Meaning.{Memory, State, abstraction, transition};
ghost use Rattle.hk_symspec.specs.Standing.{IsKernelOver, IsStateOver};
ghost use Rattle.hk_symspec.specs.Steps.{AreArgumentTerms, IsResultTerm};
ghost use Rattle.hk_oblig.specs.Asking.{IsTermOf};
ghost use Rattle.hk_oblig.specs.Under.{AreNumbersAt, IsMemoryAt, IsStateAt, TellStep};

use hk_symmem::{InitialReads, SymMemory};
use hk_symspec::{SymAbstract, SymStep, transition_terms};
use hk_term::{TermId, Terms};
use spec_tree::Spec;
use std::alloc::{AllocError, Global};

/// The abstraction of a memory.
pub(crate) fn abstraction_of<R: InitialReads>(
    alloc: Global,
    t: &mut Terms,
    spec: &Spec,
    memory: &SymMemory<R>,
) -> Result<SymAbstract<R>, AllocError>
    requires spec { IsWellSorted (view_spec spec.now) }
    requires memory { IsKernelOver (view_spec spec.now) t.old memory.now }
    ensures frame { Extends t.old t.new }
    ensures over { IfOk result (λ a. IsStateOver (view_spec spec.now) t.new a) }
    ensures told { IfOk result (λ a. (v : Reading) (m : Memory) → IsMemoryAt t.old memory.now v m →
        IsStateAt (view_spec spec.now) t.new a v (abstraction (view_spec spec.now) m)) }
{
    let state = SymAbstract::of_memory(alloc, t, spec, memory)?;
    Ok(state)
}

/// The step of the transition with this place from a state.
pub(crate) fn step_from<R: InitialReads>(
    alloc: Global,
    t: &mut Terms,
    spec: &Spec,
    h: u32,
    state: &SymAbstract<R>,
    args: &[TermId],
) -> Result<SymStep<R>, AllocError>
    requires spec { IsWellSorted (view_spec spec.now) }
    requires there { h < length spec.now.transitions }
    requires over { IsStateOver (view_spec spec.now) t.old state.now }
    requires args { (u : plain.Transition) → slice_get (view_spec spec.now).transitions h ≡ Some u → AreArgumentTerms t.old u.widths args.now }
    ensures frame { Extends t.old t.new }
    ensures valid { IfOk result (λ r. IsTruth t.new r.valid) }
    ensures over { IfOk result (λ r. IsStateOver (view_spec spec.now) t.new r.state) }
    ensures result { IfOk result (λ r. IsTermOf t.new r.result) }
    ensures wanted { (u : plain.Transition) → slice_get (view_spec spec.now).transitions h ≡ Some u → IfOk result (λ r. IsResultTerm t.new u r.result) }
    ensures told { (u : plain.Transition) → slice_get (view_spec spec.now).transitions h ≡ Some u → IfOk result (λ r. (v : Reading) (x : State) (ns : List ℕ) →
        IsStateAt (view_spec spec.now) t.old state.now v x → AreNumbersAt t.old args.now v ns →
        TellStep (view_spec spec.now) t.new v r.valid r.state r.result (transition (view_spec spec.now) u x ns)) }
{
    let step = transition_terms(alloc, t, spec, h, state, args)?;
    Ok(step)
}
