//! The halves of two sums of which the lower ones differ by less than the factor.

ghost use Rattle.std.specs.Prelude.{◌≡◌, ℕ, ◌+◌, ◌<◌, ◌≤◌, length, IfSome, IfOk, IsTrue};
ghost use Rattle.hk_term.specs.Meaning.{Reading};
ghost use Rattle.hk_range.specs.Ranges.{Knows};
ghost use Rattle.hk_range.specs.Linear.{numbers, ItemsThere};
ghost use Rattle.hk_range.specs.Splits.{IsSplit, IsNear};

use crate::ends::{Ends, ends_from, ends_of};
use crate::known::Known;
use crate::split::{Halves, halved, is_near, sorted};
use crate::sums::{Item, Sums};
use hk_term::Terms;
use std::alloc::{AllocError, Global};

/// Such halves, by the greatest common divisor of how often terms stand in the sums, or by the greatest of these.
pub(crate) fn near_halves(
    alloc: Global,
    t: &Terms,
    known: &Known,
    s: &Sums,
) -> Result<Option<Halves>, AllocError>
    requires { ItemsThere (length t.now) s.now.items.items }
    ensures upper { IfOk result (λ o. IfSome o (λ h. ItemsThere (length t.now) h.upper.items.items)) }
    ensures lower { IfOk result (λ o. IfSome o (λ h. ItemsThere (length t.now) h.lower.items.items)) }
    ensures split { IfOk result (λ o. IfSome o (λ h. IsSplit s.now h)) }
    ensures near { IfOk result (λ o. IfSome o (λ h. (v : Reading) → Knows t.now known.now v → IsNear (numbers t.now v) h)) }
{
    let c = factor_of(s.items.as_slice());
    if c < 2 {
        return Ok(None);
    }
    let Some(low) = low_ends(alloc, t, known, s, c)? else {
        return Ok(None);
    };
    if let Some(halves) = halves_at(alloc, t, known, s, low, c, 0)? {
        return Ok(Some(halves));
    }
    if let Some(halves) = halves_at(alloc, t, known, s, low, c, 1)? {
        return Ok(Some(halves));
    }
    halves_at(alloc, t, known, s, low, c, 2)
}

// The halves of a turn, where they are near.
fn halves_at(
    alloc: Global,
    t: &Terms,
    known: &Known,
    s: &Sums,
    low: Ends,
    c: u64,
    turn: u32,
) -> Result<Option<Halves>, AllocError>
    requires there { ItemsThere (length t.now) s.now.items.items }
    requires factor { 0 < c }
    ensures upper { IfOk result (λ o. IfSome o (λ h. ItemsThere (length t.now) h.upper.items.items)) }
    ensures lower { IfOk result (λ o. IfSome o (λ h. ItemsThere (length t.now) h.lower.items.items)) }
    ensures split { IfOk result (λ o. IfSome o (λ h. IsSplit s.now h)) }
    ensures near { IfOk result (λ o. IfSome o (λ h. (v : Reading) → Knows t.now known.now v → IsNear (numbers t.now v) h)) }
{
    match halved(alloc, s, low, c, turn)? {
        Some(halves) => Ok(if_near(t, known, halves)),
        None => Ok(None),
    }
}

// Halves, where they are near.
fn if_near(t: &Terms, known: &Known, halves: Halves) -> Option<Halves>
    requires { ItemsThere (length t.now) halves.lower.items.items }
    ensures same { IfSome result (λ h. h ≡ halves) }
    ensures near { IfSome result (λ h. (v : Reading) → Knows t.now known.now v → IsNear (numbers t.now v) h) }
{
    if are_near(t, known, &halves) {
        Some(halves)
    } else {
        None
    }
}

fn are_near(t: &Terms, known: &Known, halves: &Halves) -> bool
    requires { ItemsThere (length t.now) halves.now.lower.items.items }
    ensures { IsTrue result → (v : Reading) → Knows t.now known.now v → IsNear (numbers t.now v) halves.now }
{
    match ends_of(t, known, &halves.lower) {
        Some(ends) => is_near(ends, halves.factor),
        None => false,
    }
}

/// The ranges of the terms that a factor does not divide, with the numbers of both sums.
pub(crate) fn low_ends(
    alloc: Global,
    t: &Terms,
    known: &Known,
    s: &Sums,
    c: u64,
) -> Result<Option<Ends>, AllocError>
    requires there { ItemsThere (length t.now) s.now.items.items }
    requires factor { 0 < c }
{
    let parts = sorted(alloc, s.items.as_slice(), c)?;
    Ok(ends_from(t, known, parts.lower.as_slice(), s.left, s.right))
}

/// A factor: the greatest common divisor of all numbers of times, or the greatest of them where that is 1.
pub(crate) fn factor_of(items: &[Item]) -> u64 {
    let divisor = divisor_of(items);
    if divisor > 1 {
        divisor
    } else {
        greatest_of(items)
    }
}

fn divisor_of(items: &[Item]) -> u64 {
    let mut g = 0;
    for item in items {
        g = gcd(gcd(g, item.left), item.right);
    }
    g
}

fn greatest_of(items: &[Item]) -> u64 {
    let mut most = 0;
    for item in items {
        most = item.left.max(item.right).max(most);
    }
    most
}

fn gcd(a: u64, b: u64) -> u64 {
    if b == 0 { a } else { gcd(b, a % b) }
}
