//! Properties as terms.

ghost use Rattle.std.specs.Prelude.{◌≡◌, ℕ, ◌<◌, ◌≤◌, Some, slice_get, length, IfOk};
ghost use Rattle.hk_term.specs.Shape.{width, Grows};
ghost use Rattle.hk_term.specs.Meaning.{Reading, value};
ghost use Rattle.spec_tree.specs.Plain as plain;
ghost use Rattle.spec_tree.specs.Sorted.{IsNamed, IsWellSorted, over_state};
ghost use Rattle.spec_tree.specs.Value.{bit};
ghost use Rattle.spec_tree.specs.View.{view_named, view_spec};
ghost use Rattle.spec_tree.specs.Meaning.{property_holds};
ghost use Rattle.hk_symspec.specs.States.{state_at};
ghost use Rattle.hk_symspec.specs.Standing.{IsStateOver, IsSteady, formula_base};

use crate::formulas::{body_term, objects_are_small};
use crate::limits::FORMULA_BASE;
use crate::reads::StateReads;
use crate::state::SymAbstract;
use hk_symmem::InitialReads;
use hk_term::{TermId, Terms};
use spec_tree::{Named, Spec};
use std::alloc::{AllocError, Global};

// The term of a property.
fn truth_in_state<R: InitialReads>(
    alloc: Global,
    t: &mut Terms,
    spec: &Spec,
    named: &Named,
    state: &SymAbstract<R>,
) -> Result<TermId, AllocError>
    requires spec { IsWellSorted (view_spec spec.now) }
    requires named { IsNamed (over_state (view_spec spec.now)) (view_named named.now) }
    requires over { IsStateOver (view_spec spec.now) t.old state.now }
    ensures within { IfOk result (λ r. r < length t.new) }
    ensures width { IfOk result (λ r. width t.new r ≡ 1) }
    ensures value { IfOk result (λ r. (v : Reading) → IsSteady formula_base (view_spec spec.now) t.old state.now v →
        value t.new r v ≡ bit (property_holds (view_spec spec.now) (view_named named.now) (state_at (view_spec spec.now) t.old state.now v))) }
    ensures keeps_widths { (k : ℕ) → k < length t.old → width t.new k ≡ width t.old k }
    ensures keeps_values { (k : ℕ) → k < length t.old → (v : Reading) → value t.new k v ≡ value t.old k v }
    ensures longer { length t.old ≤ length t.new }
    ensures grows { Grows t.old t.new }
{
    // For the proof: each object has fewer than 2^64 bytes.
    let _objects = objects_are_small(spec);
    let reads = StateReads {
        spec,
        state,
        writes: &[],
        both: false,
    };
    let made = body_term(alloc, t, &reads, FORMULA_BASE, &named.body)?;
    Ok(made)
}

/// The term of the property with this place over a state: under every reading it is 1 where the property holds in the state that there
/// is then, and 0 where it does not.
///
/// The conditions are a well-sorted specification, a property that exists, and a state of the specification whose terms stand in the
/// list. The clause on the value speaks of the readings under which the state depends on no variable from `FORMULA_BASE` on.
pub fn property_term<R: InitialReads>(
    alloc: Global,
    t: &mut Terms,
    spec: &Spec,
    p: u32,
    state: &SymAbstract<R>,
) -> Result<TermId, AllocError>
    requires spec { IsWellSorted (view_spec spec.now) }
    requires there { p < length spec.now.properties }
    requires over { IsStateOver (view_spec spec.now) t.old state.now }
    ensures within { IfOk result (λ r. r < length t.new) }
    ensures width { IfOk result (λ r. width t.new r ≡ 1) }
    ensures value { (n : plain.Named) → slice_get (view_spec spec.now).properties p ≡ Some n → IfOk result (λ r. (v : Reading) →
        IsSteady formula_base (view_spec spec.now) t.old state.now v →
        value t.new r v ≡ bit (property_holds (view_spec spec.now) n (state_at (view_spec spec.now) t.old state.now v))) }
    ensures keeps_widths { (k : ℕ) → k < length t.old → width t.new k ≡ width t.old k }
    ensures keeps_values { (k : ℕ) → k < length t.old → (v : Reading) → value t.new k v ≡ value t.old k v }
    ensures longer { length t.old ≤ length t.new }
    ensures grows { Grows t.old t.new }
{
    let named = &spec.properties.as_slice()[p as usize];
    Ok(truth_in_state(alloc, t, spec, named, state)?)
}
