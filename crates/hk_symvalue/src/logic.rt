//! Truth values: terms of width 1.

ghost use Rattle.std.specs.Prelude.{◌≡◌, ℕ, ◌<◌, ◌≤◌, ◌&&◌, ◌||◌, not, true, false, Bool, if◌then◌else◌, nat_eq, nat_lt, length, IfOk};
ghost use Rattle.hk_num.specs.Numbers.{bvslt};
ghost use Rattle.hk_term.specs.Shape.{width, Grows};
ghost use Rattle.hk_term.specs.Meaning.{Reading, value};
ghost use Rattle.hk_symvalue.specs.Growth.{Extends};
ghost use Rattle.hk_symvalue.specs.Meaning.{IsTruth, is_true, differ};

use hk_term::{Node, TermId, Terms};
use std::alloc::AllocError;

/// The constant of a truth value.
pub fn constant(t: &mut Terms, is: bool) -> Result<TermId, AllocError>
    ensures frame { Extends t.old t.new }
    ensures truth { IfOk result (λ r. IsTruth t.new r) }
    ensures value { IfOk result (λ r. (v : Reading) → is_true t.new r v ≡ is) }
{
    let made = t.intern(Node::Const {
        width: 1,
        value: u64::from(is),
    })?;
    Ok(made)
}

/// The negation.
pub fn not(t: &mut Terms, a: TermId) -> Result<TermId, AllocError>
    requires { IsTruth t.old a }
    ensures frame { Extends t.old t.new }
    ensures truth { IfOk result (λ r. IsTruth t.new r) }
    ensures value { IfOk result (λ r. (v : Reading) → is_true t.new r v ≡ not (is_true t.old a v)) }
{
    // For the proof: the truth's number is below 2 to its width.
    let _node = t.node(a);
    let made = hk_simplify::not(t, a)?;
    Ok(made)
}

/// The conjunction.
pub fn and(t: &mut Terms, a: TermId, b: TermId) -> Result<TermId, AllocError>
    requires first { IsTruth t.old a }
    requires second { IsTruth t.old b }
    ensures frame { Extends t.old t.new }
    ensures truth { IfOk result (λ r. IsTruth t.new r) }
    ensures value { IfOk result (λ r. (v : Reading) → is_true t.new r v ≡ (is_true t.old a v && is_true t.old b v)) }
{
    // For the proof: the numbers of both truths are below 2 to their widths.
    let _first = t.node(a);
    let _second = t.node(b);
    let made = hk_simplify::and(t, a, b)?;
    Ok(made)
}

/// The disjunction.
pub fn or(t: &mut Terms, a: TermId, b: TermId) -> Result<TermId, AllocError>
    requires first { IsTruth t.old a }
    requires second { IsTruth t.old b }
    ensures frame { Extends t.old t.new }
    ensures truth { IfOk result (λ r. IsTruth t.new r) }
    ensures value { IfOk result (λ r. (v : Reading) → is_true t.new r v ≡ (is_true t.old a v || is_true t.old b v)) }
{
    // For the proof: the numbers of both truths are below 2 to their widths.
    let _first = t.node(a);
    let _second = t.node(b);
    let made = hk_simplify::or(t, a, b)?;
    Ok(made)
}

/// The first of two truth values where a condition is true, and else the second.
pub fn choose(t: &mut Terms, c: TermId, a: TermId, b: TermId) -> Result<TermId, AllocError>
    requires condition { IsTruth t.old c }
    requires first { IsTruth t.old a }
    requires second { IsTruth t.old b }
    ensures frame { Extends t.old t.new }
    ensures truth { IfOk result (λ r. IsTruth t.new r) }
    ensures value { IfOk result (λ r. (v : Reading) → is_true t.new r v ≡ (if is_true t.old c v then is_true t.old a v else is_true t.old b v)) }
{
    let made = hk_simplify::choose(t, c, a, b)?;
    Ok(made)
}

/// Whether two terms of one width are equal.
pub fn eq(t: &mut Terms, a: TermId, b: TermId) -> Result<TermId, AllocError>
    requires first { a < length t.old }
    requires second { b < length t.old }
    requires widths { width t.old a ≡ width t.old b }
    ensures frame { Extends t.old t.new }
    ensures truth { IfOk result (λ r. IsTruth t.new r) }
    ensures value { IfOk result (λ r. (v : Reading) → is_true t.new r v ≡ nat_eq (value t.old a v) (value t.old b v)) }
{
    let made = hk_simplify::eq(t, a, b)?;
    Ok(made)
}

/// Whether the first of two terms of one width is less, as a number.
pub fn ult(t: &mut Terms, a: TermId, b: TermId) -> Result<TermId, AllocError>
    requires first { a < length t.old }
    requires second { b < length t.old }
    requires widths { width t.old a ≡ width t.old b }
    ensures frame { Extends t.old t.new }
    ensures truth { IfOk result (λ r. IsTruth t.new r) }
    ensures value { IfOk result (λ r. (v : Reading) → is_true t.new r v ≡ nat_lt (value t.old a v) (value t.old b v)) }
{
    let made = hk_simplify::ult(t, a, b)?;
    Ok(made)
}

/// Whether the first of two terms of one width is less, by their signed readings.
pub fn slt(t: &mut Terms, a: TermId, b: TermId) -> Result<TermId, AllocError>
    requires first { a < length t.old }
    requires second { b < length t.old }
    requires widths { width t.old a ≡ width t.old b }
    ensures frame { Extends t.old t.new }
    ensures truth { IfOk result (λ r. IsTruth t.new r) }
    ensures value { IfOk result (λ r. (v : Reading) → is_true t.new r v ≡ bvslt (width t.old a) (value t.old a v) (value t.old b v)) }
{
    let made = hk_simplify::slt(t, a, b)?;
    Ok(made)
}

/// Whether one of two truth values is true and the other is not.
pub fn differ(t: &mut Terms, a: TermId, b: TermId) -> Result<TermId, AllocError>
    requires first { IsTruth t.old a }
    requires second { IsTruth t.old b }
    ensures frame { Extends t.old t.new }
    ensures truth { IfOk result (λ r. IsTruth t.new r) }
    ensures value { IfOk result (λ r. (v : Reading) → is_true t.new r v ≡ differ (is_true t.old a v) (is_true t.old b v)) }
{
    // For the proof: the numbers of both truths are below 2 to their widths.
    let _first = t.node(a);
    let _second = t.node(b);
    let made = hk_simplify::xor(t, a, b)?;
    Ok(made)
}

/// A truth value where a flag is set, and else false.
pub fn flagged(t: &mut Terms, flag: bool, a: TermId) -> Result<TermId, AllocError>
    requires { IsTruth t.old a }
    ensures frame { Extends t.old t.new }
    ensures truth { IfOk result (λ r. IsTruth t.new r) }
    ensures value { IfOk result (λ r. (v : Reading) → is_true t.new r v ≡ (flag && is_true t.old a v)) }
{
    if flag { Ok(a) } else { constant(t, false) }
}
