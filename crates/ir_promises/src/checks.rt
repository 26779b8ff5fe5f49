//! Checks of whole kernels.

ghost use Rattle.std.specs.Prelude.{◌≡◌, IfOk, OnOk};
ghost use Rattle.ir_ast.specs.Small.{IsSmall};
ghost use Rattle.ir_ast.specs.ProgramView.{view_module};
ghost use Rattle.ir_type.specs.Shape.{IsShaped, IsLined};
ghost use Rattle.ir_check.specs.Rules.{IsWellFormed};
ghost use Rattle.ir_check.specs.Answers.{IsRefusal, OnRefusal};

use ir_ast::{KernelStop, Module};
use ir_check::{Checked, check};
use std::alloc::Global;

/// A kernel is passed, as it is, only where none of its items falls under a check, and a refusal names the first one that does, and the
/// least of the rules that it falls under.
pub fn kernel_that_passes(alloc: Global, kernel: Module) -> Result<Checked, KernelStop>
    requires small { IsSmall kernel }
    requires shaped { IsShaped (view_module kernel) }
    requires lined { IsLined (view_module kernel) }
    ensures checked { IfOk result (λ c. c ≡ kernel) }
    ensures well_formed { OnOk result (IsWellFormed (view_module kernel)) }
    ensures refused { OnRefusal result (IsRefusal (view_module kernel)) }
{
    check(alloc, kernel)
}
