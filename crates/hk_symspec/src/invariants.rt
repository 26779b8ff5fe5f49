//! Invariants as terms.

ghost use Rattle.std.specs.Prelude.{◌≡◌, ℕ, ◌<◌, ◌≤◌, Some, slice_get, length, IfOk};
ghost use Rattle.hk_term.specs.Shape.{width, Grows};
ghost use Rattle.hk_term.specs.Meaning.{Reading, value};
ghost use Rattle.hk_symmem.specs.Guarded.{memory_at};
ghost use Rattle.spec_tree.specs.Plain as plain;
ghost use Rattle.spec_tree.specs.Sorted.{IsNamed, IsWellSorted, over_kernel};
ghost use Rattle.spec_tree.specs.Value.{bit};
ghost use Rattle.spec_tree.specs.View.{view_named, view_spec};
ghost use Rattle.spec_tree.specs.Meaning.{invariant_holds};
ghost use Rattle.hk_symspec.specs.Standing.{IsKernelOver, IsSteadyMemory, formula_base};

use crate::formulas::{body_term, objects_are_small};
use crate::kernel::KernelReads;
use crate::limits::FORMULA_BASE;
use hk_symmem::{InitialReads, SymMemory};
use hk_term::{TermId, Terms};
use spec_tree::{Named, Spec};
use std::alloc::{AllocError, Global};

// The term of an invariant.
fn truth_in_memory<R: InitialReads>(
    alloc: Global,
    t: &mut Terms,
    spec: &Spec,
    named: &Named,
    memory: &SymMemory<R>,
) -> Result<TermId, AllocError>
    requires spec { IsWellSorted (view_spec spec.now) }
    requires named { IsNamed (over_kernel (view_spec spec.now)) (view_named named.now) }
    requires memory { IsKernelOver (view_spec spec.now) t.old memory.now }
    ensures within { IfOk result (λ r. r < length t.new) }
    ensures width { IfOk result (λ r. width t.new r ≡ 1) }
    ensures value { IfOk result (λ r. (v : Reading) → IsSteadyMemory formula_base t.old (Some memory.now) v →
        value t.new r v ≡ bit (invariant_holds (view_spec spec.now) (view_named named.now) (memory_at t.old memory.now v))) }
    ensures keeps_widths { (k : ℕ) → k < length t.old → width t.new k ≡ width t.old k }
    ensures keeps_values { (k : ℕ) → k < length t.old → (v : Reading) → value t.new k v ≡ value t.old k v }
    ensures longer { length t.old ≤ length t.new }
    ensures grows { Grows t.old t.new }
{
    // For the proof: each object has fewer than 2^64 bytes.
    let _objects = objects_are_small(spec);
    let reads = KernelReads { spec, memory };
    let made = body_term(alloc, t, &reads, FORMULA_BASE, &named.body)?;
    Ok(made)
}

/// The term of the invariant with this place over a memory: under every reading it is 1 where the invariant holds in the memory that
/// there is then, and 0 where it does not.
///
/// The conditions are a well-sorted specification, an invariant that exists, and a memory of the specification's objects whose terms
/// stand in the list. The clause on the value speaks of the readings under which the memory depends on no variable from `FORMULA_BASE` on.
pub fn invariant_term<R: InitialReads>(
    alloc: Global,
    t: &mut Terms,
    spec: &Spec,
    i: u32,
    memory: &SymMemory<R>,
) -> Result<TermId, AllocError>
    requires spec { IsWellSorted (view_spec spec.now) }
    requires there { i < length spec.now.invariants }
    requires memory { IsKernelOver (view_spec spec.now) t.old memory.now }
    ensures within { IfOk result (λ r. r < length t.new) }
    ensures width { IfOk result (λ r. width t.new r ≡ 1) }
    ensures value { (n : plain.Named) → slice_get (view_spec spec.now).invariants i ≡ Some n → IfOk result (λ r. (v : Reading) →
        IsSteadyMemory formula_base t.old (Some memory.now) v → value t.new r v ≡ bit (invariant_holds (view_spec spec.now) n (memory_at t.old memory.now v))) }
    ensures keeps_widths { (k : ℕ) → k < length t.old → width t.new k ≡ width t.old k }
    ensures keeps_values { (k : ℕ) → k < length t.old → (v : Reading) → value t.new k v ≡ value t.old k v }
    ensures longer { length t.old ≤ length t.new }
    ensures grows { Grows t.old t.new }
{
    let named = &spec.invariants.as_slice()[i as usize];
    Ok(truth_in_memory(alloc, t, spec, named, memory)?)
}
