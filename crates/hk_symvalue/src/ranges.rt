//! Ranges of numbers.

ghost use Rattle.std.specs.Prelude.{◌≡◌, ℕ, ◌-◌, ◌%◌, ◌^◌, ◌<◌, ◌≤◌, ◌&&◌, ◌||◌, not, true, false, Bool, nat_eq, nat_lt, nat_le, length, IfOk};
ghost use Rattle.hk_term.specs.Shape.{IsWidth, width};
ghost use Rattle.hk_term.specs.Meaning.{Reading, value};
ghost use Rattle.hk_symvalue.specs.Growth.{Extends};
ghost use Rattle.hk_symvalue.specs.Meaning.{IsTruth, IsWord, is_true};
ghost use Rattle.hk_num.specs.Numbers.{bvsub};
ghost use Rattle.ir_value.specs.Numbers.{is_between};

use crate::words::{at_width, fits, greatest, number};
use crate::{logic, ops};
use hk_term::{TermId, Terms};
use std::alloc::AllocError;

// Whether a number of a width is less far above a low number than a high one is.
fn is_near(t: &mut Terms, w: u32, low: u64, high: u64, x: TermId) -> Result<TermId, AllocError>
    requires width { IsWidth w }
    requires low { low < 2 ^ w }
    requires high { high < 2 ^ w }
    requires number { IsWord t.old w x }
    ensures frame { Extends t.old t.new }
    ensures truth { IfOk result (λ r. IsTruth t.new r) }
    ensures value { IfOk result (λ r. (v : Reading) → is_true t.new r v ≡ nat_lt (bvsub w (value t.old x v) low) (bvsub w high low)) }
{
    let start = number(t, w, low)?;
    let end = number(t, w, high)?;
    let far = ops::sub(t, x, start)?;
    let span = ops::sub(t, end, start)?;
    let near = logic::ult(t, far, span)?;
    Ok(near)
}

#[tactic(auto, using(crate::proofs::RangeLaws::spans))]
fn is_between_at(
    t: &mut Terms,
    w: u32,
    low: u64,
    high: u64,
    n: TermId,
) -> Result<TermId, AllocError>
    requires width { IsWidth w }
    requires low { low < 2 ^ w }
    requires high { high < 2 ^ w }
    requires number { n < length t.old }
    ensures frame { Extends t.old t.new }
    ensures truth { IfOk result (λ r. IsTruth t.new r) }
    ensures value { IfOk result (λ r. (v : Reading) → is_true t.new r v ≡ is_between w low high (value t.old n v)) }
{
    let small = fits(t, w, n)?;
    let x = at_width(t, w, n)?;
    let near = is_near(t, w, low, high, x)?;
    let both = logic::and(t, small, near)?;
    Ok(both)
}

#[tactic(auto, using(crate::proofs::RangeLaws::low_beyond, crate::proofs::RangeLaws::high_beyond))]
fn is_between_ends(
    t: &mut Terms,
    w: u32,
    low: u64,
    high: u64,
    n: TermId,
) -> Result<TermId, AllocError>
    requires width { IsWidth w }
    requires number { n < length t.old }
    ensures frame { Extends t.old t.new }
    ensures truth { IfOk result (λ r. IsTruth t.new r) }
    ensures value { IfOk result (λ r. (v : Reading) → is_true t.new r v ≡ is_between w low high (value t.old n v)) }
{
    let most = greatest(w);
    if most < low {
        let never = logic::constant(t, false)?;
        Ok(never)
    } else if most < high {
        let never = logic::constant(t, false)?;
        Ok(never)
    } else {
        let between = is_between_at(t, w, low, high, n)?;
        Ok(between)
    }
}

/// Whether a number lies in a range of a width: from the low number up to but not including the high one, modulo 2 to the power of the
/// width (LLVM Language Reference, "range" metadata). No number lies in a range whose ends are no numbers of the width.
pub fn is_between(
    t: &mut Terms,
    w: u32,
    low: u64,
    high: u64,
    n: TermId,
) -> Result<TermId, AllocError>
    requires { n < length t.old }
    ensures frame { Extends t.old t.new }
    ensures truth { IfOk result (λ r. IsTruth t.new r) }
    ensures value { IfOk result (λ r. (v : Reading) → is_true t.new r v ≡ is_between w low high (value t.old n v)) }
{
    if 1 <= w && w <= 64 {
        let between = is_between_ends(t, w, low, high, n)?;
        Ok(between)
    } else {
        let never = logic::constant(t, false)?;
        Ok(never)
    }
}
