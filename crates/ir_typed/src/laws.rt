//! Laws of whole runs. A function here does nothing: its contract is the law.

ghost use Rattle.std.specs.Prelude.{◌≡◌, ◌≢◌, ◌<◌, ◌^◌, ℕ, Option, None, Some, false, List};
ghost use Rattle.std.specs.List.{All};
ghost use Rattle.ir_ast.specs.Plain.{nothing, integer};
ghost use Rattle.ir_ast.specs.Program.{FunctionView, ModuleView};
ghost use Rattle.ir_type.specs.Whole.{meant, is_pointer};
ghost use Rattle.ir_value.specs.declared.value.Value.{Value};
ghost use Rattle.ir_value.specs.declared.value.Value.TheVariants.{Number};
ghost use Rattle.ir_machine.specs.declared.state.End.{End};
ghost use Rattle.ir_machine.specs.declared.state.End.TheVariants.{Returned, Lost};
ghost use Rattle.ir_kernel.specs.declared.ends.RunEnd.{RunEnd};
ghost use Rattle.ir_kernel.specs.declared.ends.RunEnd.TheVariants as end;
ghost use Rattle.ir_kernel.specs.Runs.{IsRun};
ghost use Rattle.ir_kernel.specs.Ends.{IsEndOfRun};
ghost use Rattle.ir_kernel.specs.Steps.{AreBytes};
ghost use Rattle.ir_typed.specs.Endings.{IsRunnable, IsFitCall, IsEndOf, IsSeenOf};

/// Where each byte of each object is below 256, each byte at a place is, and the other way about.
pub fn memories_are_of_bytes()
    ensures from_all { (memory : List (List ℕ)) → All (λ o. All (λ b. b < 256) o) memory → AreBytes memory }
    ensures to_all { (memory : List (List ℕ)) → AreBytes memory → All (λ o. All (λ b. b < 256) o) memory }
{}

/// A run of a function of a checked kernel, from numbers of its parameters and a memory of bytes, is not lost. Where it returns, its value
/// is of the function's result and no poison, and its memory is one of bytes.
pub fn runs_are_never_lost()
    ensures ends { (m : ModuleView) (function : ℕ) (arguments : List ℕ) (memory : List (List ℕ)) (called : FunctionView) (end : End) → IsRunnable m →
        IsFitCall m function arguments memory called → IsRun m function arguments memory end → IsEndOf (meant m.types called.result) end }
    ensures never { (m : ModuleView) (function : ℕ) (arguments : List ℕ) (memory : List (List ℕ)) (called : FunctionView) (end : End) → IsRunnable m →
        IsFitCall m function arguments memory called → IsRun m function arguments memory end → end ≢ Lost }
    ensures number { (m : ModuleView) (function : ℕ) (arguments : List ℕ) (memory : List (List ℕ)) (called : FunctionView) (w : ℕ) (value : Option Value) (after : List (List ℕ)) →
        IsRunnable m → IsFitCall m function arguments memory called → meant m.types called.result ≡ integer w → IsRun m function arguments memory (Returned value after) →
        (n : ℕ) × (value ≡ Some (Number n)) × (n < 2 ^ w) × AreBytes after }
    ensures nothing { (m : ModuleView) (function : ℕ) (arguments : List ℕ) (memory : List (List ℕ)) (called : FunctionView) (value : Option Value) (after : List (List ℕ)) →
        IsRunnable m → IsFitCall m function arguments memory called → meant m.types called.result ≡ nothing → IsRun m function arguments memory (Returned value after) →
        (value ≡ None) × AreBytes after }
{}

/// The same of the end of a run as a caller sees it: of a function that gives a number or nothing, it is a return with a number of the
/// result's width, or with none where there is no result, or it is stuck. It is not lost.
pub fn seen_runs_are_never_lost()
    ensures ends { (m : ModuleView) (function : ℕ) (arguments : List ℕ) (memory : List (List ℕ)) (called : FunctionView) (seen : RunEnd) → IsRunnable m →
        IsFitCall m function arguments memory called → is_pointer (meant m.types called.result) ≡ false → IsEndOfRun m function arguments memory seen →
        IsSeenOf (meant m.types called.result) seen }
    ensures never { (m : ModuleView) (function : ℕ) (arguments : List ℕ) (memory : List (List ℕ)) (called : FunctionView) (seen : RunEnd) → IsRunnable m →
        IsFitCall m function arguments memory called → is_pointer (meant m.types called.result) ≡ false → IsEndOfRun m function arguments memory seen → seen ≢ end.Lost }
{}
