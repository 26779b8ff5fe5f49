//! The calls of a kernel, turned round.

ghost use Rattle.std.specs.Prelude.{◌≡◌, ◌<◌, length, slice_get, IfOk, OnOk, IfSome};
ghost use Rattle.spec_kernel.specs.Firsts.{texts};
ghost use Rattle.spec_kernel.specs.Seen.{kernel_in};
ghost use Rattle.spec_strays.specs.Callers.{with_call, with_calls, with_function, AreCallers};

use crate::callers::Callers;
use spec_kernel::KernelNames;
use std::alloc::{AllocError, Global};

/// Adds a call of the function at a place, where there is such a function.
fn add_call(callers: &mut Callers, caller: u32, callee: Option<u32>) -> Result<(), AllocError>
    requires { IfSome callee (λ p. p < length callers.old) }
    ensures { OnOk result (callers.new ≡ with_call callers.old caller callee) }
{
    match callee {
        Some(place) => callers.add(place, caller),
        None => Ok(()),
    }
}

/// Adds the calls of a function, given by names.
#[tactic(auto, using(crate::proofs::Calling::call_count))]
fn add_calls(
    kernel: &KernelNames<'_>,
    callers: &mut Callers,
    caller: u32,
    names: &[&[u8]],
) -> Result<(), AllocError>
    requires { length callers.old ≡ length kernel.now.functions }
    ensures { OnOk result (callers.new ≡ with_calls (kernel_in kernel.now) callers.old caller (texts names.now)) }
{
    'each: for name in names {
        add_call(callers, caller, kernel.function(name))?;
    }
    Ok(())
}

/// Adds the calls of the function at a place. Only a function with a body calls.
#[tactic(auto, using(crate::proofs::Calling::defined_calls, crate::proofs::Calling::declared_calls))]
fn add_function(
    kernel: &KernelNames<'_>,
    callers: &mut Callers,
    place: u32,
) -> Result<(), AllocError>
    requires there { place < length kernel.now.functions }
    requires sizes { length callers.old ≡ length kernel.now.functions }
    ensures { OnOk result (callers.new ≡ with_function (kernel_in kernel.now) callers.old place (slice_get (kernel_in kernel.now).functions place)) }
{
    if kernel.is_defined(place) {
        add_calls(kernel, callers, place, kernel.calls(place))
    } else {
        Ok(())
    }
}

/// The callers of each function.
pub fn callers_of(alloc: Global, kernel: &KernelNames<'_>) -> Result<Callers, AllocError>
    ensures { IfOk result (λ callers. AreCallers (kernel_in kernel.now) (length (kernel_in kernel.now).functions) callers) }
{
    let mut callers = Callers::none(alloc, kernel.functions())?;
    'each: for place in 0..kernel.functions() {
        add_function(kernel, &mut callers, place)?;
    }
    Ok(callers)
}
