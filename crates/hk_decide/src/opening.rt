//! The verdict on the initial memory.

ghost use Rattle.std.specs.Prelude.{◌≡◌, ◌<◌, not, length, All, IfOk};
ghost use Rattle.std.specs.List.{position};
ghost use Rattle.ir_ast.specs.ProgramView.{view_module};
ghost use Rattle.ir_layout.specs.Initial.{initial_memory};
ghost use Rattle.spec_kernel.specs.Fit.{FitsModule};
ghost use Rattle.spec_tree.specs.Sorted.{IsWellSorted, field_sorts};
ghost use Rattle.spec_tree.specs.Shapes.{IsMemory, IsState};
ghost use Rattle.spec_tree.specs.View.{view_spec};
ghost use Rattle.spec_tree.specs.Meaning as meaning;
ghost use Rattle.hk_decide.specs.Opening.{IsOpening};

use crate::counted::count_of;
use hk_verdict::InitVerdict;
use ir_kernel::Kernel;
use ir_layout::KMemory;
use spec_state::{abstract_of, invariant_holds, property_holds};
use spec_tree::Spec;
use spec_value::AbstractState;
use std::alloc::{AllocError, Global};

// Bytes are below 256.
fn are_bytes(bytes: &[u8])
    ensures { All (λ b. b < 256) bytes.now }
{}

// The bytes of all objects are below 256.
fn holds_bytes(memory: &KMemory, objects: u32)
    requires { objects ≡ length memory.now }
    ensures { All (λ o. All (λ b. b < 256) o) memory.now }
{
    'each: for k in 0..objects {
        are_bytes(memory.bytes(k));
    }
}

// The initial memory of a kernel that a specification fits.
fn memory_of(alloc: Global, kernel: &Kernel, spec: &Spec) -> Result<KMemory, AllocError>
    requires fits { FitsModule (view_module kernel.now) (view_spec spec.now) }
    ensures initial { IfOk result (λ memory. memory ≡ initial_memory (view_module kernel.now)) }
    ensures sized { IfOk result (IsMemory spec.now.objects) }
{
    // For the proof: the kernel's module is checked, so its initialisers fit.
    let _checked = kernel.checked();
    let layout = kernel.layout();
    let memory = KMemory::initial(alloc, layout)?;
    holds_bytes(&memory, layout.objects());
    Ok(memory)
}

// The first invariant that is false in a memory, by its place.
fn broken_invariant(alloc: Global, spec: &Spec, memory: &KMemory) -> Result<Option<u32>, AllocError>
    requires spec { IsWellSorted (view_spec spec.now) }
    requires memory { IsMemory spec.now.objects memory.now }
    ensures { IfOk result (λ place. place ≡ position (λ i. not (meaning.invariant_holds (view_spec spec.now) i memory.now)) (view_spec spec.now).invariants) }
{
    let count = count_of(spec.invariants.as_slice().len())?;
    'each: for i in 0..count {
        if !invariant_holds(alloc, spec, i, memory)? {
            return Ok(Some(i));
        }
    }
    Ok(None)
}

// The first property that is false in an abstract state, by its place.
fn failing_property(
    alloc: Global,
    spec: &Spec,
    state: &AbstractState,
) -> Result<Option<u32>, AllocError>
    requires spec { IsWellSorted (view_spec spec.now) }
    requires state { IsState (field_sorts (view_spec spec.now)) state.now }
    ensures { IfOk result (λ place. place ≡ position (λ p. not (meaning.property_holds (view_spec spec.now) p state.now)) (view_spec spec.now).properties) }
{
    let count = count_of(spec.properties.as_slice().len())?;
    'each: for p in 0..count {
        if !property_holds(alloc, spec, p, state)? {
            return Ok(Some(p));
        }
    }
    Ok(None)
}

/// Tests the initial memory: the first invariant that it does not satisfy, or where it satisfies all of them the first property that its
/// abstraction does not satisfy.
///
/// The answer is never `NotRun`. The conditions are a well-sorted specification that fits the kernel.
pub fn open(alloc: Global, kernel: &Kernel, spec: &Spec) -> Result<InitVerdict, AllocError>
    requires spec { IsWellSorted (view_spec spec.now) }
    requires fits { FitsModule (view_module kernel.now) (view_spec spec.now) }
    ensures { IfOk result (IsOpening (view_module kernel.now) (view_spec spec.now)) }
{
    let memory = memory_of(alloc, kernel, spec)?;
    if let Some(i) = broken_invariant(alloc, spec, &memory)? {
        return Ok(InitVerdict::FailsInvariant(i));
    }
    let state = abstract_of(alloc, spec, &memory)?;
    if let Some(p) = failing_property(alloc, spec, &state)? {
        return Ok(InitVerdict::FailsProperty(p));
    }
    Ok(InitVerdict::Holds)
}
