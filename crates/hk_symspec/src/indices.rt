//! Index tuples as terms.

ghost use Rattle.std.specs.Prelude.{◌≡◌, ℕ, ◌+◌, ◌-◌, ◌^◌, ◌<◌, ◌≤◌, Bool, ◌&&◌, nat_lt, map, Some, slice_get, length, IfOk};
ghost use Rattle.hk_term.specs.Operations.{bit};
ghost use Rattle.hk_term.specs.Shape.{IsWidth, width, Grows};
ghost use Rattle.hk_term.specs.Meaning.{Reading, value};
ghost use Rattle.spec_tree.specs.View.{size_of, view_key};
ghost use Rattle.hk_symexpr.specs.Naming.{AreIndexTerms, AreLimited, index_values};
ghost use Rattle.hk_symspec.specs.Ranges.{in_range};

use hk_simplify::{and, ult};
use hk_symexpr::Limit;
use hk_term::{Node, TermId, Terms};
use spec_tree::Sort;
use std::alloc::AllocError;

// A constant.
pub(crate) fn constant(t: &mut Terms, bits: u32, n: u64) -> Result<TermId, AllocError>
    requires width { IsWidth bits }
    requires number { n < 2 ^ bits }
    ensures within { IfOk result (λ r. r < length t.new) }
    ensures width { IfOk result (λ r. width t.new r ≡ bits) }
    ensures value { IfOk result (λ r. (v : Reading) → value t.new r v ≡ n) }
    ensures keeps_widths { (k : ℕ) → k < length t.old → width t.new k ≡ width t.old k }
    ensures keeps_values { (k : ℕ) → k < length t.old → (v : Reading) → value t.new k v ≡ value t.old k v }
    ensures longer { length t.old ≤ length t.new }
    ensures grows { Grows t.old t.new }
{
    let made = t.intern(Node::Const {
        width: bits,
        value: n,
    })?;
    Ok(made)
}

// Whether both of two truths hold.
pub(crate) fn both(t: &mut Terms, a: TermId, b: TermId) -> Result<TermId, AllocError>
    requires first { a < length t.old }
    requires second { b < length t.old }
    requires truth { width t.old a ≡ 1 }
    requires other { width t.old b ≡ 1 }
    ensures within { IfOk result (λ r. r < length t.new) }
    ensures width { IfOk result (λ r. width t.new r ≡ 1) }
    ensures value { IfOk result (λ r. (v : Reading) (p q : Bool) → value t.old a v ≡ bit p → value t.old b v ≡ bit q → value t.new r v ≡ bit (p && q)) }
    ensures keeps_widths { (k : ℕ) → k < length t.old → width t.new k ≡ width t.old k }
    ensures keeps_values { (k : ℕ) → k < length t.old → (v : Reading) → value t.new k v ≡ value t.old k v }
    ensures longer { length t.old ≤ length t.new }
    ensures grows { Grows t.old t.new }
{
    let made = and(t, a, b)?;
    Ok(made)
}

// The greatest number of a width.
pub(crate) fn most_of(w: u32) -> u64
    requires width { 1 ≤ w }
    requires within { w ≤ 64 }
    ensures { result ≡ 2 ^ w - 1 }
{
    u64::MAX >> (64 - w)
}

// The size of a key.
pub(crate) fn size_in(key: &Sort) -> u32
    ensures { result ≡ size_of key.now.size }
{
    match key.size {
        Some(size) => size,
        None => 0,
    }
}

pub(crate) fn key_at(keys: &[Sort], k: usize) -> Sort
    requires { k < length keys.now }
    ensures { slice_get keys.now k ≡ Some result }
{
    keys[k]
}

pub(crate) fn limit_at(index: &[Limit], k: usize) -> Limit
    requires { k < length index.now }
    ensures { slice_get index.now k ≡ Some result }
{
    index[k]
}

// Whether an index is below a size.
fn is_below(t: &mut Terms, index: Limit, size: u32) -> Result<TermId, AllocError>
    requires term { index.term < length t.old }
    ensures within { IfOk result (λ r. r < length t.new) }
    ensures width { IfOk result (λ r. width t.new r ≡ 1) }
    ensures value { IfOk result (λ r. (v : Reading) → value t.old index.term v ≤ index.most → value t.new r v ≡ bit (nat_lt (value t.old index.term v) size)) }
    ensures keeps_widths { (k : ℕ) → k < length t.old → width t.new k ≡ width t.old k }
    ensures keeps_values { (k : ℕ) → k < length t.old → (v : Reading) → value t.new k v ≡ value t.old k v }
    ensures longer { length t.old ≤ length t.new }
    ensures grows { Grows t.old t.new }
{
    // For the proof: the index's number is below 2 to its width.
    let _node = t.node(index.term);
    let w = t.width(index.term);
    let most = most_of(w);
    let bound = u64::from(size);
    if index.most < bound || most < bound {
        let made = constant(t, 1, 1)?;
        Ok(made)
    } else {
        let edge = constant(t, w, bound)?;
        let made = ult(t, index.term, edge)?;
        Ok(made)
    }
}

// Whether each index is below its key's size. No test is made where the greatest number that an index may have is.
pub(crate) fn are_below(t: &mut Terms, keys: &[Sort], index: &[Limit]) -> Result<TermId, AllocError>
    requires index { AreIndexTerms t.old (map view_key keys.now) index.now }
    ensures within { IfOk result (λ r. r < length t.new) }
    ensures width { IfOk result (λ r. width t.new r ≡ 1) }
    ensures value { IfOk result (λ r. (v : Reading) → AreLimited t.old index.now v →
        value t.new r v ≡ bit (in_range (map view_key keys.now) (index_values t.old index.now v))) }
    ensures keeps_widths { (k : ℕ) → k < length t.old → width t.new k ≡ width t.old k }
    ensures keeps_values { (k : ℕ) → k < length t.old → (v : Reading) → value t.new k v ≡ value t.old k v }
    ensures longer { length t.old ≤ length t.new }
    ensures grows { Grows t.old t.new }
{
    let mut made = constant(t, 1, 1)?;
    'each: for k in 0..keys.len() {
        let key = key_at(keys, k);
        let one = limit_at(index, k);
        let test = is_below(t, one, size_in(&key))?;
        made = both(t, made, test)?;
    }
    Ok(made)
}
