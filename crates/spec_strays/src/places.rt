//! Hooks and strays by the places of functions.

ghost use Rattle.std.specs.Prelude.{◌≡◌, ◌<◌, length, slice_get, IfOk, OnOk, IfSome};
ghost use Rattle.spec_names.specs.Kernel as kernel_names;
ghost use Rattle.spec_kernel.specs.Seen.{kernel_in};
ghost use Rattle.spec_scope.specs.Words.{words};
ghost use Rattle.spec_strays.specs.Places as definition;
ghost use Rattle.spec_strays.specs.Places.{AreHooks, AreStrayPlaces};

use spec_kernel::KernelNames;
use std::alloc::{AllocError, Global};

/// Flags the function at a place, where there is such a function.
fn flag_place(flags: &mut Vec<bool>, hook: Option<u32>)
    requires { IfSome hook (λ p. p < length flags.old.items) }
    ensures { flags.new.items ≡ definition.with_hook flags.old.items hook }
{
    match hook {
        Some(place) => flags[place as usize] = true,
        None => {}
    }
}

/// For each function, by its place: whether it is a hook.
pub fn hooked(
    alloc: Global,
    kernel: &KernelNames<'_>,
    hooks: &[&[u8]],
) -> Result<Vec<bool>, AllocError>
    ensures told { IfOk result (λ flags. AreHooks (kernel_in kernel.now) (words hooks.now) flags.items) }
    ensures sizes { IfOk result (λ flags. length flags.items ≡ length kernel.now.functions) }
{
    let mut flags = vec![in alloc; false; kernel.functions() as usize]?;
    'each: for hook in hooks {
        flag_place(&mut flags, kernel.function(hook));
    }
    Ok(flags)
}

/// Whether a name is that of a listed intrinsic, where a declared function of a checked kernel has it.
fn is_intrinsic(name: &[u8]) -> bool
    ensures { result ≡ kernel_names.is_intrinsic name.now }
{
    name.starts_with(b"llvm.")
}

/// Whether the function at a place is a stray, by whether it is a hook.
#[tactic(auto, using(crate::proofs::Placing::is_stray_told))]
fn is_stray(kernel: &KernelNames<'_>, hook: bool, place: u32) -> bool
    requires { place < length kernel.now.functions }
    ensures { result ≡ definition.is_stray hook (slice_get (kernel_in kernel.now).functions place) }
{
    !kernel.is_defined(place) && !is_intrinsic(kernel.name(place)) && !hook
}

/// Adds a place where a stray stands.
fn add_place(places: &mut Vec<u32>, stray: bool, place: u32) -> Result<(), AllocError>
    ensures { OnOk result (places.new.items ≡ definition.with_place stray places.old.items place) }
{
    if stray {
        places.push(place)?;
    }
    Ok(())
}

/// The places of strays.
pub fn stray_places(
    alloc: Global,
    kernel: &KernelNames<'_>,
    hooked: &[bool],
) -> Result<Vec<u32>, AllocError>
    requires { length hooked.now ≡ length kernel.now.functions }
    ensures { IfOk result (λ places. AreStrayPlaces (kernel_in kernel.now) hooked.now (length (kernel_in kernel.now).functions) places.items) }
{
    let mut places = Vec::new(alloc);
    'each: for place in 0..kernel.functions() {
        let stray = is_stray(kernel, hooked[place as usize], place);
        add_place(&mut places, stray, place)?;
    }
    Ok(places)
}
