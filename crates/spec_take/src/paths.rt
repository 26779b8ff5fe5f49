//! Paths into the kernel: the integers that their steps lead to.

ghost use Rattle.std.specs.Prelude.{◌≡◌, ◌≤◌, IfSome, option_map};
ghost use Rattle.spec_ast.specs.View.{view_step, view_step_list};
ghost use Rattle.spec_kernel.specs.Seen.{kernel_in, shape_in, IsKnown};
ghost use Rattle.spec_scope.specs.Scope as definition;
ghost use Rattle.spec_scope.specs.Scope.{leaf_at};
ghost use Rattle.spec_take.specs.Told.{shape_behind};

use spec_ast::{RawStep, RawSteps};
use spec_kernel::KernelNames;

/// The shape that a step leads to.
fn stepped(kernel: &KernelNames<'_>, step: &RawStep, shape: u32) -> Option<u32>
    requires { IsKnown kernel.now shape }
    ensures shape { option_map (shape_in kernel.now) result ≡ shape_behind (view_step step.now) (shape_in kernel.now shape) }
    ensures known { IfSome result (λ s. IsKnown kernel.now s) }
{
    match step {
        RawStep::Element(_) => match kernel.elements(shape) {
            Some(elements) => Some(elements.shape),
            None => None,
        },
        RawStep::Member(k) => match kernel.part(shape, *k) {
            Some(part) => Some(part.shape),
            None => None,
        },
    }
}

/// The bytes of the integer that steps lead to from a shape.
#[tactic(auto, using(crate::proofs::Leaves::leaf_on, crate::proofs::Leaves::few_bytes))]
fn leaf_from(kernel: &KernelNames<'_>, steps: &RawSteps, shape: u32) -> Option<u32>
    requires { IsKnown kernel.now shape }
    ensures leaf { result ≡ leaf_at (view_step_list steps.now) (shape_in kernel.now shape) }
    ensures few { IfSome result (λ n. n ≤ 8) }
{
    let items = steps.items.as_slice();
    let mut at = shape;
    'each: for step in items {
        at = stepped(kernel, step, at)?;
    }
    kernel.bytes(at)
}

/// The bytes of the integer that a path leads to.
pub(crate) fn leaf_of(kernel: &KernelNames<'_>, global: &[u8], steps: &RawSteps) -> Option<u32>
    ensures leaf { result ≡ definition.leaf_of (kernel_in kernel.now) global.now (view_step_list steps.now) }
    ensures few { IfSome result (λ n. n ≤ 8) }
{
    match kernel.global(global) {
        Some(place) => leaf_from(kernel, steps, kernel.shape(place)),
        None => None,
    }
}
