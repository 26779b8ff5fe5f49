//! Functions that come to strays.

ghost use Rattle.std.specs.Prelude.{IfOk};
ghost use Rattle.spec_kernel.specs.Seen.{kernel_in};
ghost use Rattle.spec_scope.specs.Words.{words};
ghost use Rattle.spec_lines.specs.Whole.{AreStrays};
ghost use Rattle.spec_lines.specs.Lines.{strays_in};

use crate::calls::callers_of;
use crate::places::{hooked, stray_places};
use crate::search::reached;
use spec_kernel::KernelNames;
use std::alloc::{AllocError, Global};

/// For each function of a kernel, by its place: whether it comes, by calls in the text, to a declared one that is neither a listed
/// intrinsic nor a hook. It takes time linear in the calls of the text and in the hooks, each with the look-up of its name.
pub fn strays_of(
    alloc: Global,
    kernel: &KernelNames<'_>,
    hooks: &[&[u8]],
) -> Result<Vec<bool>, AllocError>
    ensures { IfOk result (λ v. AreStrays (kernel_in kernel.now) (words hooks.now) (strays_in (kernel_in kernel.now) v.items)) }
{
    let hooked = hooked(alloc, kernel, hooks)?;
    let strays = stray_places(alloc, kernel, hooked.as_slice())?;
    let callers = callers_of(alloc, kernel)?;
    reached(alloc, &callers, strays)
}
