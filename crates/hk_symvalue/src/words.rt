//! Terms as numbers of a width.

ghost use Rattle.std.specs.Prelude.{◌≡◌, ℕ, ◌+◌, ◌-◌, ◌*◌, ◌/◌, ◌%◌, ◌^◌, ◌<◌, ◌≤◌, ◌&&◌, ◌||◌, ◌==◌, not, true, false, Bool, if◌then◌else◌, nat_eq, nat_lt, nat_le, length, IfOk, IfSome, unsigned_abs};
ghost use Rattle.hk_term.specs.Shape.{IsWidth, width};
ghost use Rattle.hk_term.specs.Meaning.{Reading, value};
ghost use Rattle.hk_symvalue.specs.Growth.{Extends};
ghost use Rattle.hk_symvalue.specs.Meaning.{IsTruth, IsWord, is_true};
ghost use Rattle.hk_num.specs.Numbers.{signed_of};
ghost use Rattle.ir_value.specs.Numbers.{truth};

use crate::{logic, ops};
use hk_term::{Node, TermId, Terms};
use std::alloc::AllocError;

/// The width of a term. Its values are below 2 to the width.
pub fn sized(t: &Terms, a: TermId) -> u32
    requires { a < length t.now }
    ensures width { result ≡ width t.now a }
    ensures is_width { IsWidth result }
    ensures below { (v : Reading) → value t.now a v < 2 ^ result }
{
    // For the proof: the term's numbers are below 2 to its width.
    let _node = t.node(a);
    t.width(a)
}

/// The number of a constant.
pub fn constant(t: &Terms, a: TermId) -> Option<u64>
    requires { a < length t.now }
    ensures known { IfSome result (λ n. (v : Reading) → value t.now a v ≡ n) }
    ensures number { IfSome result (λ n. n < 2 ^ width t.now a) }
{
    match t.node(a) {
        Node::Const { value, .. } => Some(*value),
        _ => None,
    }
}

/// The constant of a number of a width.
pub fn number(t: &mut Terms, w: u32, n: u64) -> Result<TermId, AllocError>
    requires width { IsWidth w }
    requires number { n < 2 ^ w }
    ensures frame { Extends t.old t.new }
    ensures word { IfOk result (λ r. IsWord t.new w r) }
    ensures value { IfOk result (λ r. (v : Reading) → value t.new r v ≡ n) }
{
    let made = t.intern(Node::Const { width: w, value: n })?;
    Ok(made)
}

/// The greatest number of a width.
pub fn greatest(w: u32) -> u64
    requires { IsWidth w }
    ensures { result ≡ 2 ^ w - 1 }
{
    u64::MAX >> (64 - w)
}

/// A term at a width: its lowest bits, or with zeros above.
pub fn at_width(t: &mut Terms, w: u32, a: TermId) -> Result<TermId, AllocError>
    requires width { IsWidth w }
    requires term { a < length t.old }
    ensures frame { Extends t.old t.new }
    ensures word { IfOk result (λ r. IsWord t.new w r) }
    ensures value { IfOk result (λ r. (v : Reading) → value t.new r v ≡ value t.old a v % 2 ^ w) }
{
    if sized(t, a) <= w {
        widened(t, w, a)
    } else {
        narrowed(t, w, a)
    }
}

fn widened(t: &mut Terms, w: u32, a: TermId) -> Result<TermId, AllocError>
    requires width { IsWidth w }
    requires term { a < length t.old }
    requires wider { width t.old a ≤ w }
    ensures frame { Extends t.old t.new }
    ensures word { IfOk result (λ r. IsWord t.new w r) }
    ensures value { IfOk result (λ r. (v : Reading) → value t.new r v ≡ value t.old a v % 2 ^ w) }
{
    // For the proof: the term's width is from 1 to 64, and its number below 2 to it.
    let _u = sized(t, a);
    let made = ops::zero_extend(t, w, a)?;
    Ok(made)
}

fn narrowed(t: &mut Terms, w: u32, a: TermId) -> Result<TermId, AllocError>
    requires width { IsWidth w }
    requires term { a < length t.old }
    requires narrower { w ≤ width t.old a }
    ensures frame { Extends t.old t.new }
    ensures word { IfOk result (λ r. IsWord t.new w r) }
    ensures value { IfOk result (λ r. (v : Reading) → value t.new r v ≡ value t.old a v % 2 ^ w) }
{
    let made = hk_simplify::extract(t, w - 1, 0, a)?;
    Ok(made)
}

/// Whether the number of a term is one of a width.
pub fn fits(t: &mut Terms, w: u32, a: TermId) -> Result<TermId, AllocError>
    requires width { IsWidth w }
    requires term { a < length t.old }
    ensures frame { Extends t.old t.new }
    ensures truth { IfOk result (λ r. IsTruth t.new r) }
    ensures value { IfOk result (λ r. (v : Reading) → is_true t.new r v ≡ nat_lt (value t.old a v) (2 ^ w)) }
{
    let u = sized(t, a);
    if u <= w {
        let always = logic::constant(t, true)?;
        Ok(always)
    } else {
        let within = fits_narrower(t, w, u, a)?;
        Ok(within)
    }
}

#[tactic(auto, using(crate::proofs::NumberLaws::greatest_fits, crate::proofs::NumberLaws::at_most))]
fn fits_narrower(t: &mut Terms, w: u32, u: u32, a: TermId) -> Result<TermId, AllocError>
    requires width { IsWidth w }
    requires term { a < length t.old }
    requires wide { u ≡ width t.old a }
    requires narrower { w < u }
    ensures frame { Extends t.old t.new }
    ensures truth { IfOk result (λ r. IsTruth t.new r) }
    ensures value { IfOk result (λ r. (v : Reading) → is_true t.new r v ≡ nat_lt (value t.old a v) (2 ^ w)) }
{
    // For the proof: the width u is from 1 to 64, and the term's number below 2 to it.
    let _u = sized(t, a);
    let most = number(t, u, greatest(w))?;
    let over = logic::ult(t, most, a)?;
    let within = logic::not(t, over)?;
    Ok(within)
}

/// Whether the signed reading of a term is below 0.
pub fn is_negative(t: &mut Terms, a: TermId) -> Result<TermId, AllocError>
    requires { a < length t.old }
    ensures frame { Extends t.old t.new }
    ensures truth { IfOk result (λ r. IsTruth t.new r) }
    ensures value { IfOk result (λ r. (v : Reading) → is_true t.new r v ≡ not (nat_lt (value t.old a v) (2 ^ (width t.old a - 1)))) }
{
    let w = sized(t, a);
    let made = hk_simplify::extract(t, w - 1, w - 1, a)?;
    Ok(made)
}

/// The magnitude of the signed reading of a term.
pub fn magnitude(t: &mut Terms, a: TermId) -> Result<TermId, AllocError>
    requires { a < length t.old }
    ensures frame { Extends t.old t.new }
    ensures word { IfOk result (λ r. IsWord t.new (width t.old a) r) }
    ensures value { IfOk result (λ r. (v : Reading) → value t.new r v ≡ unsigned_abs (signed_of (width t.old a) (value t.old a v))) }
{
    // For the proof: the term's width is from 1 to 64, and its number below 2 to it.
    let _w = sized(t, a);
    let sign = is_negative(t, a)?;
    let negated = ops::neg(t, a)?;
    let made = ops::choose(t, sign, negated, a)?;
    Ok(made)
}

// A truth value as a number. The call does nothing: its contract is a law of the list.
pub fn bit_of(t: &Terms, a: TermId)
    requires { IsTruth t.now a }
    ensures { (v : Reading) → value t.now a v ≡ truth (is_true t.now a v) }
{
    // For the proof: the truth's number is below 2 to its width.
    let _w = sized(t, a);
}
