//! Whole specifications over a kernel.

ghost use Rattle.std.specs.Prelude.{IfOk};
ghost use Rattle.ir_ast.specs.ProgramView.{view_module};
ghost use Rattle.ir_layout.specs.Layouts.{IsLayoutOf};
ghost use Rattle.spec_ast.specs.View.{view_spec as view_raw};
ghost use Rattle.spec_tree.specs.Sorted.{IsWellSorted};
ghost use Rattle.spec_tree.specs.View.{view_spec};
ghost use Rattle.spec_kernel.specs.Fit.{FitsModule};
ghost use Rattle.spec_kernel.specs.View.{kernel_of};
ghost use Rattle.spec_check.specs.Elaboration.{ElaboratesTo};

use ir_check::Checked;
use ir_layout::Layout;
use spec_ast::{RawSpec, SpecStop};
use spec_check::elaborate;
use spec_tree::Spec;
use std::alloc::Global;

/// The specification that the lines of a text stand for over a kernel, or the first line that fails and its least reason.
pub fn spec_of_lines(
    alloc: Global,
    raw: &RawSpec,
    checked: &Checked,
    layout: &Layout,
) -> Result<Spec, SpecStop>
    requires { IsLayoutOf (view_module checked.now) layout.now }
    ensures elaborated { ElaboratesTo (kernel_of (view_module checked.now)) (view_raw raw.now) result }
    ensures sorted { IfOk result (λ spec. IsWellSorted (view_spec spec)) }
    ensures fits { IfOk result (λ spec. FitsModule (view_module checked.now) (view_spec spec)) }
{
    elaborate(alloc, raw, checked, layout)
}
