//! Lines of a specification.

ghost use Rattle.std.specs.Prelude.{◌≡◌, Some, count_by, nat_eq, IfOk, IfNone};
ghost use Rattle.spec_ast.specs.View.{view_item};
ghost use Rattle.spec_lines.specs.Equations.{is_place};
ghost use Rattle.spec_lines.specs.Faults.{fault_of};
ghost use Rattle.spec_lines.specs.MadeView.{view_made};
ghost use Rattle.spec_lines.specs.View.{view_here, view_text, AreHeadsOf};
ghost use Rattle.spec_lines.specs.Whole.{made_behind};

use spec_ast::{RawItem, SpecReason};
use spec_lines::Here;
use spec_lines::equated::Equated;
use spec_lines::faults::Text;
use spec_lines::fore::FieldHead;
use spec_lines::made::Made;
use std::alloc::{AllocError, Global};

/// Whether a field has exactly one equation.
pub fn equation_is_one(equated: &Equated, place: u32) -> bool
    ensures { result ≡ nat_eq (count_by (is_place place) equated.now) 1 }
{
    equated.is_once(place)
}

/// The least reason of a line; where there is none, what the line adds is added.
pub fn fault_of_line(
    made: &mut Made,
    alloc: Global,
    text: &Text,
    here: &Here<'_>,
    heads: &[FieldHead<'_>],
    item: &RawItem,
) -> Result<Option<SpecReason>, AllocError>
    requires { AreHeadsOf here.now.scope.fields heads.now }
    ensures reason { IfOk result (λ r. r ≡ fault_of (view_text here.now.scope.kernel.now text.now) (view_here here.now) (view_item item.now)) }
    ensures adds { IfOk result (λ r. IfNone r (made_behind (view_here here.now) (view_made made.old) (view_item item.now) ≡ Some (view_made made.new))) }
{
    made.judge(alloc, text, here, heads, item)
}
