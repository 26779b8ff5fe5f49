//! Laws of kernels that texts spell. A function here does nothing: its contract is the law.

ghost use Rattle.std.specs.Prelude.{◌≡◌, ◌≢◌, ℕ, None, List};
ghost use Rattle.ir_ast.specs.Program.{ModuleView};
ghost use Rattle.ir_read.specs.Spelling.{IsModuleText};
ghost use Rattle.ir_kernel.specs.declared.ends.RunEnd.{RunEnd};
ghost use Rattle.ir_kernel.specs.declared.ends.RunEnd.TheVariants as end;
ghost use Rattle.ir_kernel.specs.Ends.{IsEndOfRun};
ghost use Rattle.ir_kernel.specs.Passing.{IsPassed, misfit};
ghost use Rattle.ir_kernel.specs.Steps.{AreBytes};
ghost use Rattle.ir_typed.specs.Endings.{IsRunnable};
ghost use Rattle.ir_typed.specs.Spelled.{AreSpelled};

/// In a module that a text spells, integers that are compared have 1 to 64 bits, and each phi has an arm.
pub fn texts_are_spelled()
    ensures { (text : List ℕ) (m : ModuleView) → IsModuleText text m → AreSpelled m }
{}

/// A run from numbers that a function takes and from a memory of bytes is not lost.
pub fn passed_runs_are_never_lost()
    ensures { (m : ModuleView) (name arguments : List ℕ) (function : ℕ) (memory : List (List ℕ)) (seen : RunEnd) → IsRunnable m → misfit m name arguments ≡ None →
        IsPassed m name arguments function → AreBytes memory → IsEndOfRun m function arguments memory seen → seen ≢ end.Lost }
{}
