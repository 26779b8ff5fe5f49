//! Whether a case violates an obligation.

ghost use Rattle.std.specs.Prelude.{◌≡◌, ◌<◌, ◌↔◌, IsTrue, Some, length, slice_get, IfOk};
ghost use Rattle.ir_ast.specs.ProgramView.{view_module};
ghost use Rattle.ir_layout.specs.Layouts.{LayoutView, IsLayoutOf};
ghost use Rattle.ir_kernel.specs.Ends.{IsEndOfRun};
ghost use Rattle.ir_kernel.specs.Runs.{CanCall};
ghost use Rattle.spec_kernel.specs.Fit.{FitsModule};
ghost use Rattle.spec_tree.specs.Plain as plain;
ghost use Rattle.spec_tree.specs.Sorted.{IsWellSorted, field_sorts};
ghost use Rattle.spec_tree.specs.Shapes.{AreNumbers, IsMemory, IsState};
ghost use Rattle.spec_tree.specs.View.{view_spec, view_transition};
ghost use Rattle.spec_tree.specs.Meaning as meaning;
ghost use Rattle.hk_case.specs.Obligations.{IsCase, IsObligation};
ghost use Rattle.hk_case.specs.Violation.{HaveProperties, Fails, Violates};
ghost use Rattle.hk_case.specs.declared.Case.TheVariants.{Machine, Abstract};
ghost use Rattle.hk_case.specs.declared.Obligation.TheVariants.{Property};
ghost use Rattle.hk_exhaust.specs.Answers.{Tells};
ghost use Rattle.hk_exhaust.specs.Handlers.{IsHandler, HasSizes, IsOwed, HasShape, Falls};

use crate::handler::Handler;
use crate::misses::misses;
use hk_case::{Case, Obligation};
use ir_kernel::{Kernel, RunEnd, run};
use ir_layout::KMemory;
use ir_sound::memory_keeps_its_shape;
use spec_state::{invariants_hold, properties_hold, property_holds, transition};
use spec_tree::Spec;
use spec_value::AbstractState;
use std::alloc::{AllocError, Global};

// Whether all invariants hold in a machine state.
fn has_invariants(alloc: Global, spec: &Spec, memory: &KMemory) -> Result<bool, AllocError>
    requires spec { IsWellSorted (view_spec spec.now) }
    requires memory { IsMemory spec.now.objects memory.now }
    ensures { IfOk result (λ b. Tells b (meaning.Invariant (view_spec spec.now) memory.now)) }
{
    let holds = invariants_hold(alloc, spec, memory)?;
    Ok(holds)
}

// Whether all properties hold in an abstract state.
fn has_properties(alloc: Global, spec: &Spec, state: &AbstractState) -> Result<bool, AllocError>
    requires spec { IsWellSorted (view_spec spec.now) }
    requires state { IsState (field_sorts (view_spec spec.now)) state.now }
    ensures { IfOk result (λ b. Tells b (HaveProperties (view_spec spec.now) state.now)) }
{
    let holds = properties_hold(alloc, spec, state)?;
    Ok(holds)
}

// The end of a handler's run, which keeps the sizes of objects.
fn run_of(
    alloc: Global,
    kernel: &Kernel,
    function: u32,
    args: &[u64],
    memory: &KMemory,
) -> Result<RunEnd, AllocError>
    requires { CanCall (view_module kernel.now) function args.now }
    ensures end { IfOk result (IsEndOfRun (view_module kernel.now) function args.now memory.now) }
    ensures sizes { IfOk result (HasSizes memory.now) }
{
    memory_keeps_its_shape();
    let end = run(alloc, kernel, function, args, memory)?;
    Ok(end)
}

// Whether a machine state with arguments violates an obligation that is no property.
fn machine_violates(
    alloc: Global,
    kernel: &Kernel,
    handler: &Handler,
    o: Obligation,
    memory: &KMemory,
    args: &[u64],
) -> Result<bool, AllocError>
    requires handler { IsHandler handler.now }
    requires call { CanCall (view_module kernel.now) handler.now.transition.now.function args.now }
    requires owed { IsOwed handler.now.spec.now o }
    requires memory { IsMemory handler.now.spec.now.objects memory.now }
    requires args { AreNumbers handler.now.transition.now.widths args.now }
    ensures { IfOk result (λ b. Tells b (Falls (view_module kernel.now) (view_spec handler.now.spec.now) (view_transition handler.now.transition.now) o memory.now args.now)) }
{
    let held = has_invariants(alloc, handler.spec, memory)?;
    if !held {
        return Ok(false);
    }
    let end = run_of(alloc, kernel, handler.transition.function, args, memory)?;
    let missed = misses(alloc, handler, memory, args, o, &end)?;
    Ok(missed)
}

// Whether a property is false in the state that a transition leads to.
fn fails_behind(
    alloc: Global,
    handler: &Handler,
    p: u32,
    state: &AbstractState,
    args: &[u64],
) -> Result<bool, AllocError>
    requires handler { IsHandler handler.now }
    requires there { p < length handler.now.spec.now.properties }
    requires state { IsState (field_sorts (view_spec handler.now.spec.now)) state.now }
    requires args { AreNumbers handler.now.transition.now.widths args.now }
    ensures { IfOk result (λ b. Tells b (Fails (view_spec handler.now.spec.now) (meaning.transition (view_spec handler.now.spec.now) (view_transition handler.now.transition.now) state.now args.now).state p)) }
{
    let step = transition(alloc, handler.spec, handler.place, state, args)?;
    let holds = property_holds(alloc, handler.spec, p, &step.state)?;
    Ok(!holds)
}

// Whether an abstract state with arguments violates a property.
fn abstract_violates(
    alloc: Global,
    handler: &Handler,
    p: u32,
    state: &AbstractState,
    args: &[u64],
) -> Result<bool, AllocError>
    requires handler { IsHandler handler.now }
    requires there { p < length handler.now.spec.now.properties }
    requires state { IsState (field_sorts (view_spec handler.now.spec.now)) state.now }
    requires args { AreNumbers handler.now.transition.now.widths args.now }
    ensures { IfOk result (λ b. Tells b (HaveProperties (view_spec handler.now.spec.now) state.now × Fails (view_spec handler.now.spec.now) (meaning.transition (view_spec handler.now.spec.now) (view_transition handler.now.transition.now) state.now args.now).state p)) }
{
    let held = has_properties(alloc, handler.spec, state)?;
    if !held {
        return Ok(false);
    }
    Ok(fails_behind(alloc, handler, p, state, args)?)
}

// Whether a machine case violates an obligation.
fn machine_case(
    alloc: Global,
    kernel: &Kernel,
    handler: &Handler,
    o: Obligation,
    memory: &KMemory,
    args: &[u64],
) -> Result<bool, AllocError>
    requires handler { IsHandler handler.now }
    requires fits { FitsModule (view_module kernel.now) (view_spec handler.now.spec.now) }
    requires owed { IsOwed handler.now.spec.now o }
    requires shape { HasShape handler.now.spec.now handler.now.transition.now o (Machine memory.now args.now) }
    ensures { IfOk result (λ b. Tells b (Violates (view_module kernel.now) (view_spec handler.now.spec.now) (view_transition handler.now.transition.now) o (Machine memory.now args.now))) }
{
    match o {
        Obligation::Property(_) => Ok(false),
        Obligation::Undefined => Ok(machine_violates(alloc, kernel, handler, o, memory, args)?),
        Obligation::Invariant(_) => Ok(machine_violates(alloc, kernel, handler, o, memory, args)?),
        Obligation::State(_) => Ok(machine_violates(alloc, kernel, handler, o, memory, args)?),
        Obligation::ResultValue => Ok(machine_violates(alloc, kernel, handler, o, memory, args)?),
    }
}

// Whether an abstract case violates an obligation.
fn abstract_case(
    alloc: Global,
    kernel: &Kernel,
    handler: &Handler,
    o: Obligation,
    state: &AbstractState,
    args: &[u64],
) -> Result<bool, AllocError>
    requires handler { IsHandler handler.now }
    requires owed { IsOwed handler.now.spec.now o }
    requires shape { HasShape handler.now.spec.now handler.now.transition.now o (Abstract state.now args.now) }
    ensures { IfOk result (λ b. Tells b (Violates (view_module kernel.now) (view_spec handler.now.spec.now) (view_transition handler.now.transition.now) o (Abstract state.now args.now))) }
{
    // For the proof: the clauses alone speak of the kernel.
    let _kernel = kernel;
    match o {
        Obligation::Property(p) => Ok(abstract_violates(alloc, handler, p, state, args)?),
        Obligation::Undefined => Ok(false),
        Obligation::Invariant(_) => Ok(false),
        Obligation::State(_) => Ok(false),
        Obligation::ResultValue => Ok(false),
    }
}

/// Whether a case of an obligation's kind and shape violates it.
pub(crate) fn case_violates(
    alloc: Global,
    kernel: &Kernel,
    handler: &Handler,
    o: Obligation,
    case: &Case,
) -> Result<bool, AllocError>
    requires handler { IsHandler handler.now }
    requires fits { FitsModule (view_module kernel.now) (view_spec handler.now.spec.now) }
    requires owed { IsOwed handler.now.spec.now o }
    requires shape { HasShape handler.now.spec.now handler.now.transition.now o case.now }
    ensures { IfOk result (λ b. Tells b (Violates (view_module kernel.now) (view_spec handler.now.spec.now) (view_transition handler.now.transition.now) o case.now)) }
{
    match case {
        Case::Machine { memory, args } => {
            Ok(machine_case(alloc, kernel, handler, o, memory, args.as_slice())?)
        }
        Case::Abstract { state, args } => {
            Ok(abstract_case(alloc, kernel, handler, o, state, args.as_slice())?)
        }
    }
}

/// Whether a case violates an obligation of the transition with this place.
///
/// The conditions are a well-sorted specification that fits the kernel, a transition that exists, an obligation of it, and a case of the
/// obligation's kind and shape.
pub fn violates(
    alloc: Global,
    kernel: &Kernel,
    spec: &Spec,
    h: u32,
    o: Obligation,
    case: &Case,
) -> Result<bool, AllocError>
    requires spec { IsWellSorted (view_spec spec.now) }
    requires fits { FitsModule (view_module kernel.now) (view_spec spec.now) }
    requires there { h < length spec.now.transitions }
    requires obligation { (t : plain.Transition) → slice_get (view_spec spec.now).transitions h ≡ Some t → IsObligation (view_spec spec.now) t o }
    requires case { (l : LayoutView) (t : plain.Transition) → IsLayoutOf (view_module kernel.now) l → slice_get (view_spec spec.now).transitions h ≡ Some t → IsCase l.objects (view_spec spec.now) t o case.now }
    ensures { (t : plain.Transition) → slice_get (view_spec spec.now).transitions h ≡ Some t → IfOk result (λ b. IsTrue b ↔ Violates (view_module kernel.now) (view_spec spec.now) t o case.now) }
{
    let handler = Handler {
        spec,
        place: h,
        transition: &spec.transitions.as_slice()[h as usize],
        objects: kernel.layout().objects(),
    };
    Ok(case_violates(alloc, kernel, &handler, o, case)?)
}
