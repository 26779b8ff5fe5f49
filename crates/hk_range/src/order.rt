//! When the first of two sums is less: always, never, or where an order of terms holds.

ghost use Rattle.std.specs.Prelude.{◌≡◌, ℕ, ◌+◌, ◌*◌, ◌<◌, ◌≤◌, ◌⊎◌, nat_lt, length, IfSome, IfOk};
ghost use Rattle.hk_term.specs.Meaning.{Reading};
ghost use Rattle.hk_range.specs.Ranges.{Knows};
ghost use Rattle.hk_range.specs.Linear.{left_of, right_of, numbers, InEnds, ItemsThere};
ghost use Rattle.hk_range.specs.Answers.{order_true, OrderThere};
ghost use Rattle.hk_range.specs.Splits.{IsSplit, IsOver};

use crate::answers::Order;
use crate::ends::{Ends, ends_of};
use crate::known::Known;
use crate::near::{factor_of, low_ends};
use crate::only::{Pair, is_first, is_second, only, two};
use crate::split::{Halves, halved};
use crate::sums::{Item, Sums};
use hk_term::{TermId, Terms};
use std::alloc::{AllocError, Global};

/// The order that says whether the first of two sums is less.
pub(crate) fn order_of(
    alloc: Global,
    t: &Terms,
    known: &Known,
    s: &Sums,
    depth: u32,
) -> Result<Option<Order>, AllocError>
    requires { ItemsThere (length t.now) s.now.items.items }
    ensures there { IfOk result (λ o. IfSome o (λ a. OrderThere (length t.now) a)) }
    ensures order { IfOk result (λ o. IfSome o (λ a. (v : Reading) → Knows t.now known.now v → order_true (numbers t.now v) a ≡ nat_lt (left_of (numbers t.now v) s.now) (right_of (numbers t.now v) s.now))) }
{
    if let Some(order) = settled(t, known, s) {
        return Ok(Some(order));
    }
    if let Some(order) = simple(s) {
        return Ok(Some(order));
    }
    if depth == 0 {
        return Ok(None);
    }
    match upper_of(alloc, t, known, s)? {
        Some(upper) => order_of(alloc, t, known, &upper, depth - 1),
        None => Ok(None),
    }
}

// What the ranges of two sums say.
fn settled(t: &Terms, known: &Known, s: &Sums) -> Option<Order>
    requires { ItemsThere (length t.now) s.now.items.items }
    ensures there { IfSome result (λ a. OrderThere (length t.now) a) }
    ensures order { IfSome result (λ a. (v : Reading) → Knows t.now known.now v → order_true (numbers t.now v) a ≡ nat_lt (left_of (numbers t.now v) s.now) (right_of (numbers t.now v) s.now)) }
{
    let ends = ends_of(t, known, s)?;
    told(ends)
}

fn told(e: Ends) -> Option<Order>
    ensures there { IfSome result (λ a. (size : ℕ) → OrderThere size a) }
    ensures order { IfSome result (λ a. (f : ℕ → ℕ) (l r : ℕ) → InEnds e l r → order_true f a ≡ nat_lt l r) }
{
    if e.left.hi < e.right.lo {
        Some(Order::Always)
    } else if e.right.hi <= e.left.lo {
        Some(Order::Never)
    } else {
        None
    }
}

// The order of terms that two sums are.
fn simple(s: &Sums) -> Option<Order>
    ensures there { IfSome result (λ e. (size : ℕ) → ItemsThere size s.now.items.items → OrderThere size e) }
    ensures order { IfSome result (λ e. (f : ℕ → ℕ) → order_true f e ≡ nat_lt (left_of f s.now) (right_of f s.now)) }
{
    match (only(s.items.as_slice()), two(s.items.as_slice())) {
        (Some(x), _) => single(&x, s.left, s.right),
        (None, Some(p)) => pair(&p, s.left, s.right),
        _ => None,
    }
}

// Of one term that stands in one of the sums once.
fn single(x: &Item, l: u64, r: u64) -> Option<Order>
    ensures there { IfSome result (λ e. (size : ℕ) → x.now.term < size → OrderThere size e) }
    ensures order { IfSome result (λ e. (f : ℕ → ℕ) → order_true f e ≡ nat_lt (l + x.now.left * f x.now.term) (r + x.now.right * f x.now.term)) }
{
    if l == 0 && is_first(x) {
        Some(Order::Below(x.term, r))
    } else if r == 0 && is_second(x) {
        Some(Order::Above(x.term, l))
    } else {
        None
    }
}

// Of two terms, of which one stands in each of the sums once.
fn pair(p: &Pair, l: u64, r: u64) -> Option<Order>
    ensures there { IfSome result (λ e. (size : ℕ) → p.now.first.term < size → p.now.second.term < size → OrderThere size e) }
    ensures order { IfSome result (λ e. (f : ℕ → ℕ) → order_true f e ≡ nat_lt (l + (p.now.first.left * f p.now.first.term + p.now.second.left * f p.now.second.term)) (r + (p.now.first.right * f p.now.first.term + p.now.second.right * f p.now.second.term))) }
{
    if is_first(&p.first) && is_second(&p.second) {
        across(p.first.term, p.second.term, l, r)
    } else if is_first(&p.second) && is_second(&p.first) {
        across(p.second.term, p.first.term, l, r)
    } else {
        None
    }
}

// Of a term in the first sum and one in the second.
fn across(x: TermId, y: TermId, l: u64, r: u64) -> Option<Order>
    ensures there { IfSome result (λ e. (size : ℕ) → x < size → y < size → OrderThere size e) }
    ensures order { IfSome result (λ e. (f : ℕ → ℕ) → order_true f e ≡ nat_lt (l + f x) (r + f y)) }
{
    if l != 0 {
        None
    } else if r == 0 {
        Some(Order::Less(x, y))
    } else if r == 1 {
        Some(Order::NotLess(y, x))
    } else {
        None
    }
}

// Sums in the same order, of how often a factor stands in both.
fn upper_of(alloc: Global, t: &Terms, known: &Known, s: &Sums) -> Result<Option<Sums>, AllocError>
    requires { ItemsThere (length t.now) s.now.items.items }
    ensures there { IfOk result (λ o. IfSome o (λ u. ItemsThere (length t.now) u.items.items)) }
    ensures order { IfOk result (λ o. IfSome o (λ u. (v : Reading) → Knows t.now known.now v → IsOver (numbers t.now v) s.now u)) }
{
    let c = factor_of(s.items.as_slice());
    if c < 2 {
        return Ok(None);
    }
    let Some(low) = low_ends(alloc, t, known, s, c)? else {
        return Ok(None);
    };
    if let Some(upper) = upper_at(alloc, t, known, s, low, c, 0)? {
        return Ok(Some(upper));
    }
    if let Some(upper) = upper_at(alloc, t, known, s, low, c, 1)? {
        return Ok(Some(upper));
    }
    upper_at(alloc, t, known, s, low, c, 2)
}

// The upper sums of a turn, where the lower ones leave the order to them.
fn upper_at(
    alloc: Global,
    t: &Terms,
    known: &Known,
    s: &Sums,
    low: Ends,
    c: u64,
    turn: u32,
) -> Result<Option<Sums>, AllocError>
    requires there { ItemsThere (length t.now) s.now.items.items }
    requires factor { 0 < c }
    ensures there { IfOk result (λ o. IfSome o (λ u. ItemsThere (length t.now) u.items.items)) }
    ensures order { IfOk result (λ o. IfSome o (λ u. (v : Reading) → Knows t.now known.now v → IsOver (numbers t.now v) s.now u)) }
{
    match halved(alloc, s, low, c, turn)? {
        Some(halves) => Ok(upper_in(t, known, s, halves)),
        None => Ok(None),
    }
}

fn upper_in(t: &Terms, known: &Known, s: &Sums, halves: Halves) -> Option<Sums>
    requires upper { ItemsThere (length t.now) halves.upper.items.items }
    requires lower { ItemsThere (length t.now) halves.lower.items.items }
    requires split { IsSplit s.now halves }
    ensures there { IfSome result (λ u. ItemsThere (length t.now) u.items.items) }
    ensures order { IfSome result (λ u. (v : Reading) → Knows t.now known.now v → IsOver (numbers t.now v) s.now u) }
{
    // For the proof: the clauses alone speak of the sums.
    let _sums = s;
    let ends = ends_of(t, known, &halves.lower)?;
    let more = share_of(ends, halves.factor)?;
    let right = halves.upper.right.checked_add(more)?;
    Some(Sums {
        items: halves.upper.items,
        left: halves.upper.left,
        right,
    })
}

// What the second of the upper sums has more: 1 where the first of the lower sums is always less, and at most by the factor, and
// 0 where it never is, and greater by less than the factor.
fn share_of(e: Ends, c: u64) -> Option<u64>
    ensures { IfSome result (λ m. (a b : ℕ) → InEnds e a b → ((m ≡ 1) × (a < b) × (b ≤ a + c)) ⊎ ((m ≡ 0) × (b ≤ a) × (a < b + c))) }
{
    if e.left.hi < e.right.lo && e.right.hi <= e.left.lo.saturating_add(c) {
        return Some(1);
    }
    if e.right.hi <= e.left.lo && e.left.hi < e.right.lo.saturating_add(c) {
        return Some(0);
    }
    None
}
