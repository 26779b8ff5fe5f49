//! What may be asked in place of a comparison of two terms.

ghost use Rattle.std.specs.Prelude.{◌≡◌, ◌<◌, nat_lt, All, length, IfSome, IfOk};
ghost use Rattle.hk_term.specs.Meaning.{Reading, value};
ghost use Rattle.hk_range.specs.Ranges.{Knows};
ghost use Rattle.hk_range.specs.Linear.{numbers};
ghost use Rattle.hk_range.specs.Answers.{order_true, OrderThere, EquationThere, IsFound};

use crate::answers::{Equation, Found, Order};
use crate::known::Known;
use crate::order::order_of;
use crate::sums::sums_of;
use crate::zero::solve;
use hk_term::{TermId, Terms};
use std::alloc::{AllocError, Global};

// How often sums are taken apart, at most.
const DEPTH: u32 = 6;

/// Whether two terms have one number, whatever their widths: never, or where the equations that are put behind others hold, or
/// nothing is found. It holds of every reading of which this is known.
pub fn equal(
    alloc: Global,
    t: &Terms,
    known: &Known,
    a: TermId,
    b: TermId,
    out: &mut Vec<Equation>,
) -> Result<Found, AllocError>
    requires first { a < length t.now }
    requires second { b < length t.now }
    requires out { All (EquationThere (length t.now)) out.old.items }
    ensures out { All (EquationThere (length t.now)) out.new.items }
    ensures found { IfOk result (λ x. (v : Reading) → Knows t.now known.now v → IsFound (numbers t.now v) out.old.items out.new.items (value t.now a v) (value t.now b v) x) }
{
    let s = sums_of(alloc, t, known, a, b)?;
    let found = solve(alloc, t, known, &s, out, DEPTH)?;
    Ok(found)
}

/// The order of terms that says whether the first of two terms has the lesser number, where one is found. It holds of every
/// reading of which this is known.
pub fn less(
    alloc: Global,
    t: &Terms,
    known: &Known,
    a: TermId,
    b: TermId,
) -> Result<Option<Order>, AllocError>
    requires first { a < length t.now }
    requires second { b < length t.now }
    ensures there { IfOk result (λ o. IfSome o (λ x. OrderThere (length t.now) x)) }
    ensures order { IfOk result (λ o. IfSome o (λ x. (v : Reading) → Knows t.now known.now v → order_true (numbers t.now v) x ≡ nat_lt (value t.now a v) (value t.now b v))) }
{
    let s = sums_of(alloc, t, known, a, b)?;
    let order = order_of(alloc, t, known, &s, DEPTH)?;
    Ok(order)
}
