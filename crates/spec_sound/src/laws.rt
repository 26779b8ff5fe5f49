//! Laws of the specification that lines stand for. A function here does nothing: its contract is the law.

ghost use Rattle.std.specs.Prelude.{◌≡◌, Bool, Some, None, List};
ghost use Rattle.ir_ast.specs.Program.{ModuleView};
ghost use Rattle.spec_ast.specs.Raw.{Line};
ghost use Rattle.spec_tree.specs.Plain.{Spec};
ghost use Rattle.spec_tree.specs.Sorted.{IsWellSorted};
ghost use Rattle.spec_names.specs.Kernel.{Name, Kernel};
ghost use Rattle.spec_kernel.specs.View.{kernel_of};
ghost use Rattle.spec_kernel.specs.Fit.{FitsModule};
ghost use Rattle.spec_kernel.specs.Widths.{HaveWidths};
ghost use Rattle.spec_lines.specs.Whole.{first_fault, spec_of, hooks_of, AreStrays};
ghost use Rattle.spec_sound.specs.Limits.{IsWithin};

use spec_kernel::shapes_lie_in_their_objects;
use spec_lines::laws::first_faults_are_told;
use spec_sorts::laws::{equations_are_sorted, what_is_taken_is_sorted};

/// The specification that lines without a fault stand for is well sorted where it is within its limits, and fits the kernel. The call
/// does nothing: its contract is a law.
pub fn elaborated_are_sound()
    ensures sorted { (m : ModuleView) (strays : Name → Bool) (raw : List Line) (spec : Spec) → HaveWidths (kernel_of m)
        → first_fault strays (kernel_of m) raw ≡ None → spec_of (kernel_of m) raw ≡ Some spec → IsWithin (kernel_of m) raw spec → IsWellSorted spec }
    ensures fits { (m : ModuleView) (strays : Name → Bool) (raw : List Line) (spec : Spec) → first_fault strays (kernel_of m) raw ≡ None
        → spec_of (kernel_of m) raw ≡ Some spec → FitsModule m spec }
{
    first_faults_are_told();
    shapes_lie_in_their_objects();
    what_is_taken_is_sorted();
    equations_are_sorted();
}

/// Whatever finds the functions that come to strays, the same line is the first that fails, with the same reason: no text is both
/// elaborated and refused. The call does nothing: its contract is a law.
pub fn answers_are_one()
    ensures { (k : Kernel) (raw : List Line) (s1 s2 : Name → Bool) → AreStrays k (hooks_of raw) s1 → AreStrays k (hooks_of raw) s2
        → first_fault s1 k raw ≡ first_fault s2 k raw }
{}
