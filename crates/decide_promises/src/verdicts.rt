//! The verdict of a handler, and the verdict on the initial memory.

ghost use Rattle.std.specs.Prelude.{◌≡◌, ◌≤◌, ◌<◌, Some, slice_get, length, IfOk};
ghost use Rattle.ir_ast.specs.ProgramView.{view_module};
ghost use Rattle.ir_layout.specs.Layouts.{LayoutView, IsLayoutOf};
ghost use Rattle.spec_kernel.specs.Fit.{FitsModule};
ghost use Rattle.spec_tree.specs.Plain as plain;
ghost use Rattle.spec_tree.specs.Sorted.{IsWellSorted};
ghost use Rattle.spec_tree.specs.View.{view_spec};
ghost use Rattle.hk_decide.specs.Opening.{IsOpening};
ghost use Rattle.hk_decide.specs.Right.{IsRight};

use hk_verdict::{InitVerdict, Verdict};
use ir_kernel::Kernel;
use spec_tree::Spec;
use std::alloc::{AllocError, Global};

/// The verdict on the initial memory is the first invariant that it does not satisfy, or else the first property.
pub fn open(alloc: Global, kernel: &Kernel, spec: &Spec) -> Result<InitVerdict, AllocError>
    requires spec { IsWellSorted (view_spec spec.now) }
    requires fits { FitsModule (view_module kernel.now) (view_spec spec.now) }
    ensures { IfOk result (IsOpening (view_module kernel.now) (view_spec spec.now)) }
{
    let opening = hk_decide::open(alloc, kernel, spec)?;
    Ok(opening)
}

/// The verdict of a handler is right.
pub fn decide(
    alloc: Global,
    kernel: &Kernel,
    spec: &Spec,
    h: u32,
    budget: u64,
    keep: bool,
) -> Result<Verdict, AllocError>
    requires spec { IsWellSorted (view_spec spec.now) }
    requires fits { FitsModule (view_module kernel.now) (view_spec spec.now) }
    requires there { h < length spec.now.transitions }
    requires budget { 1 ≤ budget }
    ensures { (l : LayoutView) (t : plain.Transition) → IsLayoutOf (view_module kernel.now) l → slice_get (view_spec spec.now).transitions h ≡ Some t →
        IfOk result (IsRight budget (view_module kernel.now) l.objects (view_spec spec.now) t) }
{
    let verdict = hk_decide::decide(alloc, kernel, spec, h, budget, keep)?;
    Ok(verdict)
}
