//! What a specification may name of a kernel: the table of a kernel and a place come in, what the function there is goes out.

ghost use Rattle.std.specs.Prelude.{◌≡◌, ◌<◌, length, slice_get};
ghost use Rattle.spec_kernel.specs.Seen.{kernel_in};
ghost use Rattle.spec_kernel.specs.Handlers as definition;

use spec_kernel::KernelNames;

/// Whether the function at a place is declared, without a body, and void: a hook.
pub fn is_void_declared(kernel: &KernelNames<'_>, function: u32) -> bool
    requires { function < length kernel.now.functions }
    ensures { result ≡ definition.is_void_declared (slice_get (kernel_in kernel.now).functions function) }
{
    kernel.is_void_declared(function)
}
