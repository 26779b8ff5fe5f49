//! Constructors of terms: terms of a list come in, the term of the operation on them goes out.

ghost use Rattle.std.specs.Prelude.{◌≡◌, suc, ◌-◌, ◌*◌, ◌<◌, ◌≤◌, length, take, nat_eq, slice_get, Some, IfOk, if◌then◌else◌};
ghost use Rattle.hk_term.specs.Operations.{binary_value, resize_value};
ghost use Rattle.hk_term.specs.Shape.{NodeFits, width};
ghost use Rattle.hk_term.specs.Meaning.{Reading, value, reading_of};

use hk_term::{Node, TermId, TermKind, TermResize, Terms, Valuation};
use std::alloc::AllocError;

/// The place of a node, which is added where it does not stand yet.
pub fn intern(t: &mut Terms, node: Node) -> Result<TermId, AllocError>
    requires { NodeFits (length t.old) (width t.old) node }
    ensures at { IfOk result (λ r. slice_get t.new r ≡ Some node) }
{
    t.intern(node)
}

/// Cuts the list back to so many terms.
pub fn cut(t: &mut Terms, len: u64)
    requires { len ≤ length t.old }
    ensures prefix { t.new ≡ take len t.old }
{
    t.cut(len);
}

/// The value of a term under a valuation.
pub fn value_of(t: &Terms, v: &Valuation, term: TermId, room: &mut [u64]) -> u64
    requires term { term < length t.now }
    requires room { 2 * length t.now ≤ length room.old }
    ensures value { result ≡ value t.now term (reading_of v.now) }
{
    t.value(v, term, room)
}

/// The first of two terms where the condition is true, and else the second.
pub fn choose(t: &mut Terms, condition: TermId, a: TermId, b: TermId) -> Result<TermId, AllocError>
    requires condition { condition < length t.old }
    requires first { a < length t.old }
    requires second { b < length t.old }
    requires truth { width t.old condition ≡ 1 }
    requires widths { width t.old a ≡ width t.old b }
    ensures width { IfOk result (λ r. width t.new r ≡ width t.old a) }
    ensures value { IfOk result (λ r. (v : Reading) → value t.new r v ≡ (if nat_eq (value t.old condition v) 1 then value t.old a v else value t.old b v)) }
{
    hk_simplify::choose(t, condition, a, b)
}

/// The bits of a term from `low` to `high`, both counted from 0 at the least.
pub fn extract(t: &mut Terms, high: u32, low: u32, a: TermId) -> Result<TermId, AllocError>
    requires term { a < length t.old }
    requires order { low ≤ high }
    requires within { high < width t.old a }
    ensures width { IfOk result (λ r. width t.new r ≡ suc high - low) }
    ensures value { IfOk result (λ r. (v : Reading) → value t.new r v ≡ resize_value (TermResize.Extract low) (width t.old a) (suc high - low) (value t.old a v)) }
{
    hk_simplify::extract(t, high, low, a)
}

/// Whether the first of two terms is less, by their signed readings.
pub fn slt(t: &mut Terms, a: TermId, b: TermId) -> Result<TermId, AllocError>
    requires first { a < length t.old }
    requires second { b < length t.old }
    requires widths { width t.old a ≡ width t.old b }
    ensures width { IfOk result (λ r. width t.new r ≡ 1) }
    ensures value { IfOk result (λ r. (v : Reading) → value t.new r v ≡ binary_value TermKind.Slt (width t.old a) (width t.old b) (value t.old a v) (value t.old b v)) }
{
    hk_simplify::slt(t, a, b)
}

/// The remainder of two terms, by their readings as plain numbers.
pub fn urem(t: &mut Terms, a: TermId, b: TermId) -> Result<TermId, AllocError>
    requires first { a < length t.old }
    requires second { b < length t.old }
    requires widths { width t.old a ≡ width t.old b }
    ensures width { IfOk result (λ r. width t.new r ≡ width t.old a) }
    ensures value { IfOk result (λ r. (v : Reading) → value t.new r v ≡ binary_value TermKind.Urem (width t.old a) (width t.old b) (value t.old a v) (value t.old b v)) }
{
    hk_simplify::urem(t, a, b)
}
