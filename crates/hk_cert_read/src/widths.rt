//! How wide the cases of obligations are.

ghost use Rattle.std.specs.Prelude.{◌≡◌, ◌<◌, length, Some, slice_get};
ghost use Rattle.ir_ast.specs.ProgramView.{view_module};
ghost use Rattle.ir_layout.specs.Layouts.{LayoutView, IsLayoutOf};
ghost use Rattle.spec_tree.specs.Plain as plain;
ghost use Rattle.spec_tree.specs.Sorted.{IsWellSorted};
ghost use Rattle.spec_tree.specs.View.{view_spec};
ghost use Rattle.hk_case.specs.declared.Obligation.{Obligation as AnyObligation};
ghost use Rattle.hk_cert.specs.Reading.{is_wide};
ghost use Rattle.hk_cert_read.specs.Widths.{wide_for};

use hk_case::Obligation;
use hk_exhaust::case_bits;
use ir_kernel::Kernel;
use spec_tree::Spec;

/// The most bits of a case that is tried with all others.
const MOST_BITS: u64 = 16;

/// Whether the cases of a handler's obligations are too wide to be tried.
#[derive(Clone, Copy)]
pub struct Wide {
    /// Those of properties.
    pub properties: bool,
    /// Those of all others.
    pub others: bool,
}

/// Whether the cases of an obligation are too wide to be tried.
pub fn wide_at(wide: Wide, obligation: Obligation) -> bool
    ensures { result ≡ wide_for wide obligation }
{
    match obligation {
        Obligation::Property(_) => wide.properties,
        Obligation::Undefined => wide.others,
        Obligation::Invariant(_) => wide.others,
        Obligation::State(_) => wide.others,
        Obligation::ResultValue => wide.others,
    }
}

/// Whether the cases of an obligation are too wide to be tried.
fn is_wide(kernel: &Kernel, spec: &Spec, h: u32, obligation: Obligation) -> bool
    requires spec { IsWellSorted (view_spec spec.now) }
    requires there { h < length spec.now.transitions }
    ensures { (l : LayoutView) (t : plain.Transition) → IsLayoutOf (view_module kernel.now) l → slice_get (view_spec spec.now).transitions h ≡ Some t →
        result ≡ is_wide l.objects (view_spec spec.now) t obligation }
{
    case_bits(kernel, spec, h, obligation) > MOST_BITS
}

/// Whether the cases of a handler's obligations are too wide to be tried.
pub fn wide_of(kernel: &Kernel, spec: &Spec, h: u32) -> Wide
    requires spec { IsWellSorted (view_spec spec.now) }
    requires there { h < length spec.now.transitions }
    ensures { (l : LayoutView) (t : plain.Transition) → IsLayoutOf (view_module kernel.now) l → slice_get (view_spec spec.now).transitions h ≡ Some t →
        (o : AnyObligation) → wide_for result o ≡ is_wide l.objects (view_spec spec.now) t o }
{
    Wide {
        properties: is_wide(kernel, spec, h, Obligation::Property(0)),
        others: is_wide(kernel, spec, h, Obligation::Undefined),
    }
}
