//! Two sums taken apart by a factor: the terms that stand in them a multiple of it, and the others with what is over of the numbers.

ghost use Rattle.std.specs.Prelude.{◌≡◌, ℕ, ◌+◌, ◌*◌, ◌<◌, ◌≤◌, IsTrue, IfSome, IfOk, OnOk};
ghost use Rattle.hk_range.specs.Linear.{left_items, right_items, InEnds, ItemsThere};
ghost use Rattle.hk_range.specs.Splits.{IsSplit};

use crate::ends::Ends;
use crate::sums::{Item, Multiples, Sums, with_number};
use std::alloc::{AllocError, Global};

/// Items that a factor divides, divided by it, and the others.
#[derive(Debug, Drop)]
pub(crate) struct Split {
    pub(crate) upper: Vec<Item>,
    pub(crate) lower: Vec<Item>,
}

/// Two sums in place of two: how often the factor stands in both, and what is left. As many multiples of the factor are put to
/// the first as to the second.
#[derive(Debug, Drop)]
pub(crate) struct Halves {
    pub(crate) factor: u64,
    pub(crate) upper: Sums,
    pub(crate) lower: Sums,
}

/// The items by a factor.
pub(crate) fn sorted(alloc: Global, items: &[Item], c: u64) -> Result<Split, AllocError>
    requires { 0 < c }
    ensures there { IfOk result (λ s. (size : ℕ) → ItemsThere size items.now → (ItemsThere size s.upper.items) × (ItemsThere size s.lower.items)) }
    ensures left { IfOk result (λ s. (f : ℕ → ℕ) → left_items f items.now ≡ c * left_items f s.upper.items + left_items f s.lower.items) }
    ensures right { IfOk result (λ s. (f : ℕ → ℕ) → right_items f items.now ≡ c * right_items f s.upper.items + right_items f s.lower.items) }
{
    let mut into = Split {
        upper: Vec::new(alloc),
        lower: Vec::new(alloc),
    };
    for item in items {
        sort(&mut into, item, c)?;
    }
    Ok(into)
}

// Puts an item to those that the factor divides, or to the others.
fn sort(into: &mut Split, item: &Item, c: u64) -> Result<(), AllocError>
    requires { 0 < c }
    ensures there { (size : ℕ) → item.now.term < size → ItemsThere size into.old.upper.items → ItemsThere size into.old.lower.items → (ItemsThere size into.new.upper.items) × (ItemsThere size into.new.lower.items) }
    ensures left { OnOk result ((f : ℕ → ℕ) → c * left_items f into.new.upper.items + left_items f into.new.lower.items ≡ c * left_items f into.old.upper.items + left_items f into.old.lower.items + item.now.left * f item.now.term) }
    ensures right { OnOk result ((f : ℕ → ℕ) → c * right_items f into.new.upper.items + right_items f into.new.lower.items ≡ c * right_items f into.old.upper.items + right_items f into.old.lower.items + item.now.right * f item.now.term) }
{
    match divided(item, c) {
        Some(part) => keep(&mut into.upper, &part),
        None => keep(&mut into.lower, item),
    }
}

/// Puts an item behind others, unless it stands in no sum.
pub(crate) fn keep(items: &mut Vec<Item>, item: &Item) -> Result<(), AllocError>
    ensures there { (size : ℕ) → item.now.term < size → ItemsThere size items.old.items → ItemsThere size items.new.items }
    ensures left { OnOk result ((f : ℕ → ℕ) → left_items f items.new.items ≡ left_items f items.old.items + item.now.left * f item.now.term) }
    ensures right { OnOk result ((f : ℕ → ℕ) → right_items f items.new.items ≡ right_items f items.old.items + item.now.right * f item.now.term) }
{
    if item.left == 0 && item.right == 0 {
        return Ok(());
    }
    items.push(Item {
        term: item.term,
        left: item.left,
        right: item.right,
    })?;
    Ok(())
}

// An item divided by a factor.
fn divided(item: &Item, c: u64) -> Option<Item>
    requires { 0 < c }
    ensures { IfSome result (λ i. (i.term ≡ item.now.term) × (c * i.left ≡ item.now.left) × (c * i.right ≡ item.now.right)) }
{
    if item.left % c != 0 || item.right % c != 0 {
        return None;
    }
    Some(Item {
        term: item.term,
        left: item.left / c,
        right: item.right / c,
    })
}

/// The two sums by a factor. `turn` chooses among the ways to share multiples of the factor: nothing is proved of the choice, and
/// whoever uses the halves tests what they need of them.
pub(crate) fn halved(
    alloc: Global,
    s: &Sums,
    low: Ends,
    c: u64,
    turn: u32,
) -> Result<Option<Halves>, AllocError>
    requires { 0 < c }
    ensures there { IfOk result (λ o. IfSome o (λ h. (size : ℕ) → ItemsThere size s.now.items.items → (ItemsThere size h.upper.items.items) × (ItemsThere size h.lower.items.items))) }
    ensures factor { IfOk result (λ o. IfSome o (λ h. h.factor ≡ c)) }
    ensures sums { IfOk result (λ o. IfSome o (λ h. IsSplit s.now h)) }
{
    let parts = sorted(alloc, s.items.as_slice(), c)?;
    let first = share(low.left.lo / c, turn == 1);
    let second = share(low.right.lo / c, turn == 2);
    match with_number(s.left, s.right, c, second, first) {
        Some(rests) => Ok(Some(joined(parts, c, first, second, rests))),
        None => Ok(None),
    }
}

fn share(q: u64, more: bool) -> u64 {
    if more { q.saturating_add(1) } else { q }
}

fn joined(parts: Split, c: u64, first: u64, second: u64, rests: Multiples) -> Halves
    ensures is { result ≡ record { factor = c; upper = record { items = parts.upper; left = first; right = second }; lower = record { items = parts.lower; left = rests.left; right = rests.right } } }
{
    Halves {
        factor: c,
        upper: Sums {
            items: parts.upper,
            left: first,
            right: second,
        },
        lower: Sums {
            items: parts.lower,
            left: rests.left,
            right: rests.right,
        },
    }
}

/// Whether the first of two sums is always less than the second and the factor together, and the second less than the first and
/// the factor.
pub(crate) fn is_near(e: Ends, c: u64) -> bool
    ensures { IsTrue result → (a b : ℕ) → InEnds e a b → (a < b + c) × (b < a + c) }
{
    e.left.hi < e.right.lo.saturating_add(c) && e.right.hi < e.left.lo.saturating_add(c)
}
