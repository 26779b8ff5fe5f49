//! Truth values: terms of width 1.

ghost use Rattle.std.specs.Prelude.{◌≡◌, ℕ, ◌-◌, ◌^◌, ◌<◌, ◌≤◌, ◌&&◌, ◌||◌, not, true, false, Bool, if◌then◌else◌, nat_eq, length, IfOk};
ghost use Rattle.hk_term.specs.Shape.{width, Grows, IsWidth};
ghost use Rattle.hk_term.specs.Meaning.{Reading, value};
ghost use Rattle.hk_symvalue.specs.Growth.{Extends};
ghost use Rattle.hk_symvalue.specs.Meaning.{IsTruth, is_true};

use hk_term::{Node, TermId, Terms};
use std::alloc::AllocError;

/// The constant of a truth value.
pub(crate) fn constant(t: &mut Terms, is: bool) -> Result<TermId, AllocError>
    ensures frame { Extends t.old t.new }
    ensures truth { IfOk result (λ r. IsTruth t.new r) }
    ensures value { IfOk result (λ r. (v : Reading) → is_true t.new r v ≡ is) }
{
    let made = t.intern(Node::Const {
        width: 1,
        value: u64::from(is),
    })?;
    Ok(made)
}

/// The negation.
pub(crate) fn not(t: &mut Terms, a: TermId) -> Result<TermId, AllocError>
    requires { IsTruth t.old a }
    ensures frame { Extends t.old t.new }
    ensures truth { IfOk result (λ r. IsTruth t.new r) }
    ensures value { IfOk result (λ r. (v : Reading) → is_true t.new r v ≡ not (is_true t.old a v)) }
{
    // For the proof: the truth's number is below 2 to its width.
    let _node = t.node(a);
    let made = hk_simplify::not(t, a)?;
    Ok(made)
}

/// The conjunction.
pub(crate) fn and(t: &mut Terms, a: TermId, b: TermId) -> Result<TermId, AllocError>
    requires first { IsTruth t.old a }
    requires second { IsTruth t.old b }
    ensures frame { Extends t.old t.new }
    ensures truth { IfOk result (λ r. IsTruth t.new r) }
    ensures value { IfOk result (λ r. (v : Reading) → is_true t.new r v ≡ (is_true t.old a v && is_true t.old b v)) }
{
    // For the proof: the numbers of both truths are below 2 to their widths.
    let _first = t.node(a);
    let _second = t.node(b);
    let made = hk_simplify::and(t, a, b)?;
    Ok(made)
}

/// The disjunction.
pub(crate) fn or(t: &mut Terms, a: TermId, b: TermId) -> Result<TermId, AllocError>
    requires first { IsTruth t.old a }
    requires second { IsTruth t.old b }
    ensures frame { Extends t.old t.new }
    ensures truth { IfOk result (λ r. IsTruth t.new r) }
    ensures value { IfOk result (λ r. (v : Reading) → is_true t.new r v ≡ (is_true t.old a v || is_true t.old b v)) }
{
    // For the proof: the numbers of both truths are below 2 to their widths.
    let _first = t.node(a);
    let _second = t.node(b);
    let made = hk_simplify::or(t, a, b)?;
    Ok(made)
}

/// The width of a term. Its values are below 2 to the width.
fn sized(t: &Terms, a: TermId) -> u32
    requires { a < length t.now }
    ensures width { result ≡ width t.now a }
    ensures is_width { IsWidth result }
    ensures below { (v : Reading) → value t.now a v < 2 ^ result }
{
    // For the proof: the term's numbers are below 2 to its width.
    let _node = t.node(a);
    t.width(a)
}

/// The greatest number of a width.
fn greatest(w: u32) -> u64
    requires { IsWidth w }
    ensures { result ≡ 2 ^ w - 1 }
{
    u64::MAX >> (64 - w)
}

// The constant of a number of a width.
fn number(t: &mut Terms, w: u32, n: u64) -> Result<TermId, AllocError>
    requires width { IsWidth w }
    requires number { n < 2 ^ w }
    ensures frame { Extends t.old t.new }
    ensures within { IfOk result (λ r. r < length t.new) }
    ensures width { IfOk result (λ r. width t.new r ≡ w) }
    ensures value { IfOk result (λ r. (v : Reading) → value t.new r v ≡ n) }
{
    let made = t.intern(Node::Const { width: w, value: n })?;
    Ok(made)
}

// Whether two terms of one width are equal.
fn same(t: &mut Terms, a: TermId, b: TermId) -> Result<TermId, AllocError>
    requires first { a < length t.old }
    requires second { b < length t.old }
    requires widths { width t.old a ≡ width t.old b }
    ensures frame { Extends t.old t.new }
    ensures truth { IfOk result (λ r. IsTruth t.new r) }
    ensures value { IfOk result (λ r. (v : Reading) → is_true t.new r v ≡ nat_eq (value t.old a v) (value t.old b v)) }
{
    let made = hk_simplify::eq(t, a, b)?;
    Ok(made)
}

// Whether a term is a number of its width.
fn equals_within(t: &mut Terms, a: TermId, w: u32, n: u64) -> Result<TermId, AllocError>
    requires term { a < length t.old }
    requires width { w ≡ width t.old a }
    requires is_width { IsWidth w }
    requires number { n < 2 ^ w }
    ensures frame { Extends t.old t.new }
    ensures truth { IfOk result (λ r. IsTruth t.new r) }
    ensures value { IfOk result (λ r. (v : Reading) → is_true t.new r v ≡ nat_eq (value t.old a v) n) }
{
    let other = number(t, w, n)?;
    let made = same(t, a, other)?;
    Ok(made)
}

/// Whether a term is a number.
pub(crate) fn equals(t: &mut Terms, a: TermId, n: u64) -> Result<TermId, AllocError>
    requires { a < length t.old }
    ensures frame { Extends t.old t.new }
    ensures truth { IfOk result (λ r. IsTruth t.new r) }
    ensures value { IfOk result (λ r. (v : Reading) → is_true t.new r v ≡ nat_eq (value t.old a v) n) }
{
    let w = sized(t, a);
    if n <= greatest(w) {
        let made = equals_within(t, a, w, n)?;
        Ok(made)
    } else {
        let never = constant(t, false)?;
        Ok(never)
    }
}
