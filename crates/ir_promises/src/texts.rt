//! Whole kernel texts.

ghost use Rattle.std.specs.Prelude.{◌<◌, ◌^◌, ℕ, length, IfOk, IfErr};
ghost use Rattle.ir_ast.specs.Program.{ModuleView};
ghost use Rattle.ir_ast.specs.ProgramView.{view_module};
ghost use Rattle.ir_ast.specs.declared.fault.KernelReason.{KernelReason};
ghost use Rattle.ir_read.specs.Printing.{IsPrintedText};
ghost use Rattle.ir_read.specs.Spelling.{IsStop, IsModule, IsFault, IsFaultyText};

use ir_ast::{KernelStop, Module};
use ir_read::read_module;
use std::alloc::Global;

/// A text is read exactly where it prints a module, as that module; otherwise its first fault is told.
pub fn module_of_text(alloc: Global, text: &[u8]) -> Result<Module, KernelStop>
    requires { length text.now < 2 ^ 31 }
    ensures printed { IfOk result (λ m. IsPrintedText text.now (view_module m)) }
    ensures only_printed { (m : ModuleView) → IsPrintedText text.now m → IsModule result m }
    ensures fault { IfErr result (IsStop text.now) }
    ensures only_fault { (line : ℕ) → (reason : KernelReason) → IsFaultyText text.now line reason → IsFault result line reason }
{
    read_module(alloc, text)
}
