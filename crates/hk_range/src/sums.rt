//! Two sums of terms over the whole numbers, beside each other. A term is put into both so many times, and what both then have
//! is taken away again, so that a comparison of the two stays what it was.

ghost use Rattle.std.specs.Prelude.{◌≡◌, ℕ, ◌+◌, ◌*◌, ◌<◌, ◌≤◌, length, slice_index_or, slice_set, vec_len, false, IsTrue, IfSome, IfOk, OnOk};
ghost use Rattle.hk_term.specs.Meaning.{Reading, value};
ghost use Rattle.hk_range.specs.Ranges.{Knows};
ghost use Rattle.hk_range.specs.Linear.{left_items, right_items, left_of, right_of, numbers, Puts, ItemsThere};
ghost use Rattle.hk_range.specs.declared.sums.Item.{Item};

use crate::known::Known;
use crate::parts::{Parts, parts_of};
use hk_term::{TermId, Terms};
use std::alloc::{AllocError, Global};

/// A term, and how many times it stands in the first and in the second sum.
#[derive(Clone, Copy, Debug)]
pub struct Item {
    pub term: TermId,
    pub left: u64,
    pub right: u64,
}

/// The first and the second sum: terms, and a number for each.
#[derive(Debug, Drop)]
pub struct Sums {
    pub items: Vec<Item>,
    pub left: u64,
    pub right: u64,
}

// An item for the one at a place.
#[derive(Clone, Copy, Debug)]
struct Merge {
    at: usize,
    item: Item,
}

/// The two terms as two sums, less what both have.
pub(crate) fn sums_of(
    alloc: Global,
    t: &Terms,
    known: &Known,
    a: TermId,
    b: TermId,
) -> Result<Sums, AllocError>
    requires first { a < length t.now }
    requires second { b < length t.now }
    ensures there { IfOk result (λ s. ItemsThere (length t.now) s.items.items) }
    ensures sums { IfOk result (λ s. (v : Reading) → Knows t.now known.now v → left_of (numbers t.now v) s + value t.now b v ≡ right_of (numbers t.now v) s + value t.now a v) }
{
    let mut s = Sums {
        items: Vec::new(alloc),
        left: 0,
        right: 0,
    };
    gather(t, known, a, 1, 0, &mut s, DEPTH)?;
    gather(t, known, b, 0, 1, &mut s, DEPTH)?;
    Ok(s)
}

/// A term as the first of two sums, less what both have.
pub(crate) fn sum_of(alloc: Global, t: &Terms, known: &Known, a: TermId) -> Result<Sums, AllocError>
    requires { a < length t.now }
    ensures there { IfOk result (λ s. ItemsThere (length t.now) s.items.items) }
    ensures sum { IfOk result (λ s. (v : Reading) → Knows t.now known.now v → left_of (numbers t.now v) s ≡ right_of (numbers t.now v) s + value t.now a v) }
{
    let mut s = Sums {
        items: Vec::new(alloc),
        left: 0,
        right: 0,
    };
    gather(t, known, a, 1, 0, &mut s, DEPTH)?;
    Ok(s)
}

// How many terms are taken apart for one of the sums, at most.
const DEPTH: u32 = 64;

// Puts a term into both sums so many times, by its parts.
fn gather(
    t: &Terms,
    known: &Known,
    a: TermId,
    l: u64,
    r: u64,
    s: &mut Sums,
    depth: u32,
) -> Result<(), AllocError>
    requires term { a < length t.now }
    requires there { ItemsThere (length t.now) s.old.items.items }
    ensures there { ItemsThere (length t.now) s.new.items.items }
    ensures sums { OnOk result ((v : Reading) → Knows t.now known.now v → Puts (numbers t.now v) s.old s.new l r (value t.now a v)) }
{
    if depth == 0 {
        return put_whole(s, a, l, r);
    }
    match parts_of(t, known, a) {
        Parts::Number(n) => put_constant(t, s, a, n, l, r),
        Parts::Times(x, n) => match times_each(l, r, n) {
            Some(times) => gather(t, known, x, times.left, times.right, s, depth - 1),
            None => put_whole(s, a, l, r),
        },
        Parts::Linear(x, n, y) => match times_each(l, r, n) {
            Some(times) => {
                gather(t, known, x, times.left, times.right, s, (depth - 1) / 2)?;
                gather(t, known, y, l, r, s, (depth - 1) / 2)
            }
            None => put_whole(s, a, l, r),
        },
        Parts::Minus(x, y) => {
            gather(t, known, x, l, r, s, (depth - 1) / 2)?;
            gather(t, known, y, r, l, s, (depth - 1) / 2)
        }
        Parts::Whole => put_whole(s, a, l, r),
    }
}

// How many times in both.
#[derive(Clone, Copy, Debug)]
pub(crate) struct Multiples {
    pub(crate) left: u64,
    pub(crate) right: u64,
}

fn times_each(l: u64, r: u64, n: u64) -> Option<Multiples>
    ensures { IfSome result (λ m. (m.left ≡ l * n) × (m.right ≡ r * n)) }
{
    let left = l.checked_mul(n)?;
    let right = r.checked_mul(n)?;
    Some(Multiples { left, right })
}

// Puts a constant: its number, where the sums have room for it.
fn put_constant(
    t: &Terms,
    s: &mut Sums,
    a: TermId,
    n: u64,
    l: u64,
    r: u64,
) -> Result<(), AllocError>
    requires term { a < length t.now }
    requires there { ItemsThere (length t.now) s.old.items.items }
    ensures there { ItemsThere (length t.now) s.new.items.items }
    ensures sums { OnOk result ((v : Reading) → value t.now a v ≡ n → Puts (numbers t.now v) s.old s.new l r (value t.now a v)) }
{
    // For the proof: the clauses alone speak of the list.
    let _list = t;
    match with_number(s.left, s.right, n, l, r) {
        Some(rests) => {
            s.left = rests.left;
            s.right = rests.right;
            Ok(())
        }
        None => put_whole(s, a, l, r),
    }
}

// The numbers of both sums with one more, so many times, less what both have.
pub(crate) fn with_number(left: u64, right: u64, n: u64, l: u64, r: u64) -> Option<Multiples>
    ensures { IfSome result (λ m. m.left + (right + r * n) ≡ m.right + (left + l * n)) }
{
    let times = times_each(l, r, n)?;
    let left = left.checked_add(times.left)?;
    let right = right.checked_add(times.right)?;
    let both = left.min(right);
    Some(Multiples {
        left: left - both,
        right: right - both,
    })
}

// Puts a term as it is.
fn put_whole(s: &mut Sums, a: TermId, l: u64, r: u64) -> Result<(), AllocError>
    ensures there { (size : ℕ) → ItemsThere size s.old.items.items → a < size → ItemsThere size s.new.items.items }
    ensures sums { OnOk result ((f : ℕ → ℕ) → Puts f s.old s.new l r (f a)) }
{
    put(&mut s.items, a, l, r)
}

// Puts a term into the items, with those of the same term.
fn put(items: &mut Vec<Item>, a: TermId, l: u64, r: u64) -> Result<(), AllocError>
    ensures there { (size : ℕ) → ItemsThere size items.old.items → a < size → ItemsThere size items.new.items }
    ensures sums { OnOk result ((f : ℕ → ℕ) → left_items f items.new.items + (right_items f items.old.items + r * f a) ≡ right_items f items.new.items + (left_items f items.old.items + l * f a)) }
{
    match merged_in(items.as_slice(), a, l, r) {
        Some(merge) => {
            write(items, merge.at, merge.item);
            Ok(())
        }
        None => {
            items.push(Item {
                term: a,
                left: l,
                right: r,
            })?;
            Ok(())
        }
    }
}

fn write(items: &mut Vec<Item>, at: usize, item: Item)
    requires { at < vec_len items.old }
    ensures { items.new.items ≡ slice_set items.old.items at item }
{
    items[at] = item;
}

// The item of a term with so many more of it.
fn merged_in(items: &[Item], a: TermId, l: u64, r: u64) -> Option<Merge>
    ensures within { IfSome result (λ m. m.at < length items.now) }
    ensures term { IfSome result (λ m. m.item.term ≡ a) }
    ensures same { IfSome result (λ m. (slice_index_or items.now m.at m.item).term ≡ a) }
    ensures sums { IfSome result (λ m. (n : ℕ) → m.item.left * n + ((slice_index_or items.now m.at m.item).right * n + r * n) ≡ m.item.right * n + ((slice_index_or items.now m.at m.item).left * n + l * n)) }
{
    let at = place_of(items, a)?;
    let item = merged(items[at], a, l, r)?;
    Some(Merge { at, item })
}

fn place_of(items: &[Item], a: TermId) -> Option<usize>
    ensures { IfSome result (λ i. i < length items.now) }
{
    for (i, item) in items.iter().enumerate() {
        if item.term == a {
            return Some(i);
        }
    }
    None
}

fn merged(item: Item, a: TermId, l: u64, r: u64) -> Option<Item>
    ensures term { IfSome result (λ i. (i.term ≡ a) × (item.term ≡ a)) }
    ensures sums { IfSome result (λ i. (n : ℕ) → i.left * n + (item.right * n + r * n) ≡ i.right * n + (item.left * n + l * n)) }
{
    if item.term != a {
        return None;
    }
    let left = item.left.checked_add(l)?;
    let right = item.right.checked_add(r)?;
    let both = left.min(right);
    Some(Item {
        term: a,
        left: left - both,
        right: right - both,
    })
}
