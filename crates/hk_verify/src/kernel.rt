//! A kernel that was read, laid out and checked: a text comes in, and the kernel that it spells goes out, or what fails first.

ghost use Rattle.std.specs.Prelude.{◌<◌, ◌^◌, IfOk, IfErr, length};
ghost use Rattle.ir_ast.specs.ProgramView.{view_module};
ghost use Rattle.hk_verify.specs.Whole.{IsWhole, IsWholeStop, ReadsWhole};

use crate::answer::TopFault;
use ir_ast::KernelStop;
use ir_kernel::Kernel;
use ir_read::read_module;
use std::alloc::Global;

/// The most bytes of a kernel text: 16 MiB.
pub const KERNEL_LIMIT: u32 = 16_777_216;

/// The whole kernel that a text spells.
pub fn whole_kernel(alloc: Global, text: &[u8]) -> Result<Kernel, KernelStop>
    requires { length text.now < 2 ^ 31 }
    ensures found { IfOk result (λ kernel. IsWhole text.now (view_module kernel)) }
    ensures fault { IfErr result (IsWholeStop text.now) }
{
    match read_module(alloc, text) {
        Ok(read) => match Kernel::new(alloc, read) {
            Ok(kernel) => Ok(kernel),
            Err(stop) => Err(stop),
        },
        Err(stop) => Err(stop),
    }
}

/// Reads a whole kernel.
pub fn read_whole(alloc: Global, text: &[u8]) -> Result<Kernel, TopFault>
    requires { length text.now < 2 ^ 31 }
    ensures { ReadsWhole text.now result }
{
    match whole_kernel(alloc, text) {
        Ok(kernel) => Ok(kernel),
        Err(KernelStop::Refused(fault)) => Err(TopFault::Kernel(fault)),
        Err(KernelStop::Memory) => Err(TopFault::Memory),
    }
}
