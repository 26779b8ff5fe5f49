//! The code of kernels.

ghost use Rattle.std.specs.Prelude.{◌≡◌, IfOk};
ghost use Rattle.ir_ast.specs.Small.{IsSmall};
ghost use Rattle.ir_ast.specs.ProgramView.{view_module};
ghost use Rattle.ir_layout.specs.Layouts.{IsLayoutOf};
ghost use Rattle.ir_resolve.specs.Resolved.{program_of};

use ir_ast::Module;
use ir_code::Program;
use ir_layout::Layout;
use ir_resolve::resolve;
use std::alloc::{AllocError, Global};

/// The code of a module: of each function and each object its own.
pub fn code_of_module(
    alloc: Global,
    kernel: &Module,
    layout: &Layout,
) -> Result<Program, AllocError>
    requires small { IsSmall kernel.now }
    requires layout { IsLayoutOf (view_module kernel.now) layout.now }
    ensures { IfOk result (λ p. p ≡ program_of (view_module kernel.now)) }
{
    resolve(alloc, kernel, layout)
}
