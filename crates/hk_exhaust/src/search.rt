//! The search among all cases of an obligation.

ghost use Rattle.std.specs.Prelude.{◌≡◌, ◌≤◌, ◌<◌, ◌^◌, ℕ, map, All, Some, length, slice_get, IfOk};
ghost use Rattle.ir_ast.specs.ProgramView.{view_module};
ghost use Rattle.ir_layout.specs.Layouts.{LayoutView, IsLayoutOf};
ghost use Rattle.spec_kernel.specs.Fit.{FitsModule};
ghost use Rattle.spec_tree.specs.Plain as plain;
ghost use Rattle.spec_tree.specs.Sorted.{IsWellSorted};
ghost use Rattle.spec_tree.specs.View.{view_spec, view_transition};
ghost use Rattle.hk_case.specs.Obligations as definition;
ghost use Rattle.hk_case.specs.Obligations.{IsObligation};
ghost use Rattle.hk_exhaust.specs.Answers.{Finds, FoundAt, FindsAmong};
ghost use Rattle.hk_exhaust.specs.Handlers.{IsHandler, IsOwed};
ghost use Rattle.hk_exhaust.specs.Enumeration as enumeration;

use crate::cases::case_at;
use crate::counts::case_bits;
use crate::handler::Handler;
use crate::misses::holds_bytes;
use crate::verdicts::case_violates;
use hk_case::{Case, Obligation};
use ir_kernel::Kernel;
use ir_layout::{KMemory, Layout};
use spec_tree::Spec;
use std::alloc::{AllocError, Global};

// The case with a number, where it violates the obligation.
fn found_at(
    alloc: Global,
    kernel: &Kernel,
    layout: &Layout,
    initial: &KMemory,
    handler: &Handler,
    o: Obligation,
    number: u64,
) -> Result<Option<Case>, AllocError>
    requires handler { IsHandler handler.now }
    requires layout { IsLayoutOf (view_module kernel.now) layout.now }
    requires initial { initial.now ≡ map (λ o. o.bytes) layout.now.objects }
    requires bytes { All (λ o. All (λ b. b < 256) o) initial.now }
    requires fits { FitsModule (view_module kernel.now) (view_spec handler.now.spec.now) }
    requires owed { IsOwed handler.now.spec.now o }
    ensures { IfOk result (FoundAt (view_module kernel.now) layout.now.objects (view_spec handler.now.spec.now) (view_transition handler.now.transition.now) o number) }
{
    let case = case_at(
        alloc,
        layout,
        initial,
        handler.spec,
        handler.transition,
        o,
        number,
    )?;
    let found = case_violates(alloc, kernel, handler, o, &case)?;
    if found {
        Ok(Some(case))
    } else {
        drop(case);
        Ok(None)
    }
}

// The first case among so many that violates the obligation.
fn find_among(
    alloc: Global,
    kernel: &Kernel,
    layout: &Layout,
    initial: &KMemory,
    handler: &Handler,
    o: Obligation,
    count: u64,
) -> Result<Option<Case>, AllocError>
    requires handler { IsHandler handler.now }
    requires layout { IsLayoutOf (view_module kernel.now) layout.now }
    requires initial { initial.now ≡ map (λ o. o.bytes) layout.now.objects }
    requires bytes { All (λ o. All (λ b. b < 256) o) initial.now }
    requires fits { FitsModule (view_module kernel.now) (view_spec handler.now.spec.now) }
    requires owed { IsOwed handler.now.spec.now o }
    ensures { IfOk result (FindsAmong (view_module kernel.now) layout.now.objects (view_spec handler.now.spec.now) (view_transition handler.now.transition.now) o count) }
{
    'each: for number in 0..count {
        let found = found_at(alloc, kernel, layout, initial, handler, o, number)?;
        if let Some(case) = found {
            return Ok(Some(case));
        }
    }
    Ok(None)
}

// How many numbers have so many bits.
fn count_of(bits: u64) -> u64
    requires { bits ≤ 16 }
    ensures { result ≡ 2 ^ bits }
{
    1 << bits
}

/// Looks among all cases of an obligation for one that violates it.
///
/// `None` says that no case does. The conditions are a well-sorted specification that fits the kernel, a transition that exists, an
/// obligation of it, and at most 16 case bits.
pub fn find_in_all(
    alloc: Global,
    kernel: &Kernel,
    spec: &Spec,
    h: u32,
    o: Obligation,
) -> Result<Option<Case>, AllocError>
    requires spec { IsWellSorted (view_spec spec.now) }
    requires fits { FitsModule (view_module kernel.now) (view_spec spec.now) }
    requires there { h < length spec.now.transitions }
    requires obligation { (t : plain.Transition) → slice_get (view_spec spec.now).transitions h ≡ Some t → IsObligation (view_spec spec.now) t o }
    requires few { (l : LayoutView) (t : plain.Transition) → IsLayoutOf (view_module kernel.now) l → slice_get (view_spec spec.now).transitions h ≡ Some t → definition.case_bits l.objects (view_spec spec.now) t o ≤ 16 }
    ensures { (l : LayoutView) (t : plain.Transition) → IsLayoutOf (view_module kernel.now) l → slice_get (view_spec spec.now).transitions h ≡ Some t → IfOk result (Finds (view_module kernel.now) l.objects (view_spec spec.now) t o) }
{
    // For the proof: the kernel's module is checked, so all its layouts have the same objects.
    let _checked = kernel.checked();
    let layout = kernel.layout();
    let initial = KMemory::initial(alloc, layout)?;
    let objects = layout.objects();
    holds_bytes(&initial, objects);
    let handler = Handler {
        spec,
        place: h,
        transition: &spec.transitions.as_slice()[h as usize],
        objects,
    };
    let bits = case_bits(kernel, spec, h, o);
    let count = count_of(bits);
    Ok(find_among(alloc, kernel, layout, &initial, &handler, o, count)?)
}
