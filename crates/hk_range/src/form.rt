//! A term as one sum: its lowest bits, and the sum without them, where these do not depend on its terms.

ghost use Rattle.std.specs.Prelude.{◌≡◌, ℕ, ◌*◌, ◌/◌, ◌%◌, ◌^◌, ◌<◌, length, IfSome, IfOk, IsTrue};
ghost use Rattle.hk_term.specs.Meaning.{Reading, value};
ghost use Rattle.hk_range.specs.Ranges.{Knows};
ghost use Rattle.hk_range.specs.Linear.{left_items, right_items, left_of, right_of, numbers, only_first, ItemsThere};

use crate::known::Known;
use crate::split::sorted;
use crate::sums::{Item, Sums, sum_of};
use hk_term::{TermId, Terms};
use std::alloc::{AllocError, Global};

/// The sum that a term is, as the first of two.
pub fn form_of(
    alloc: Global,
    t: &Terms,
    known: &Known,
    a: TermId,
) -> Result<Option<Sums>, AllocError>
    requires { a < length t.now }
    ensures there { IfOk result (λ o. IfSome o (λ s. ItemsThere (length t.now) s.items.items)) }
    ensures sum { IfOk result (λ o. IfSome o (λ s. (v : Reading) → Knows t.now known.now v → left_of (numbers t.now v) s ≡ value t.now a v)) }
{
    let s = sum_of(alloc, t, known, a)?;
    Ok(if_single(s))
}

// Sums, where the second is 0.
fn if_single(s: Sums) -> Option<Sums>
    ensures same { IfSome result (λ x. x ≡ s) }
    ensures none { IfSome result (λ x. (f : ℕ → ℕ) → right_of f x ≡ 0) }
{
    if is_single(&s) { Some(s) } else { None }
}

fn is_single(s: &Sums) -> bool
    ensures { IsTrue result → (f : ℕ → ℕ) → right_of f s.now ≡ 0 }
{
    s.right == 0 && are_single(s.items.as_slice())
}

fn are_single(items: &[Item]) -> bool
    ensures { IsTrue result → (f : ℕ → ℕ) → right_items f items.now ≡ 0 }
{
    only_first(items)
}

// Whether none of the items stands in the second sum.
fn only_first(items: &[Item]) -> bool
    ensures { result ≡ only_first items.now }
{
    match items {
        [] => true,
        [item, rest @ ..] => item.right == 0 && only_first(rest),
    }
}

/// A sum without its lowest bits, and these bits.
#[derive(Debug, Drop)]
pub struct Bits {
    pub high: Sums,
    pub low: u64,
}

/// The first of two sums cut at a bit, where all its terms stand in it a multiple of the bit's power of two.
pub fn cut(alloc: Global, s: &Sums, k: u32) -> Result<Option<Bits>, AllocError>
    ensures there { IfOk result (λ o. IfSome o (λ c. (size : ℕ) → ItemsThere size s.now.items.items → ItemsThere size c.high.items.items)) }
    ensures high { IfOk result (λ o. IfSome o (λ c. (f : ℕ → ℕ) → left_of f c.high ≡ left_of f s.now / 2 ^ k)) }
    ensures low { IfOk result (λ o. IfSome o (λ c. (f : ℕ → ℕ) → left_of f s.now % 2 ^ k ≡ c.low)) }
{
    if k >= 64 {
        return Ok(None);
    }
    match divided(alloc, s.items.as_slice(), 1 << k)? {
        Some(items) => Ok(Some(Bits {
            high: Sums {
                items,
                left: s.left >> k,
                right: 0,
            },
            low: s.left & ((1 << k) - 1),
        })),
        None => Ok(None),
    }
}

// Items divided by a factor, where it divides all.
fn divided(alloc: Global, items: &[Item], c: u64) -> Result<Option<Vec<Item>>, AllocError>
    requires { 0 < c }
    ensures there { IfOk result (λ o. IfSome o (λ h. (size : ℕ) → ItemsThere size items.now → ItemsThere size h.items)) }
    ensures left { IfOk result (λ o. IfSome o (λ h. (f : ℕ → ℕ) → left_items f items.now ≡ c * left_items f h.items)) }
{
    let parts = sorted(alloc, items, c)?;
    if is_none(parts.lower.as_slice()) {
        Ok(Some(parts.upper))
    } else {
        Ok(None)
    }
}

// Whether there are no items.
fn is_none(items: &[Item]) -> bool
    ensures { IsTrue result → (f : ℕ → ℕ) → left_items f items.now ≡ 0 }
{
    items.is_empty()
}
