//! Lists of one item, and of two.

ghost use Rattle.std.specs.Prelude.{◌≡◌, ℕ, ◌+◌, ◌*◌, ◌<◌, IfSome, IsTrue};
ghost use Rattle.hk_range.specs.Linear.{left_items, right_items, ItemsThere};

use crate::sums::Item;

/// Two items.
#[derive(Clone, Copy, Debug)]
pub(crate) struct Pair {
    pub(crate) first: Item,
    pub(crate) second: Item,
}

/// The item that a list has alone.
pub(crate) fn only(items: &[Item]) -> Option<Item>
    ensures there { IfSome result (λ x. (size : ℕ) → ItemsThere size items.now → x.term < size) }
    ensures left { IfSome result (λ x. (f : ℕ → ℕ) → left_items f items.now ≡ x.left * f x.term) }
    ensures right { IfSome result (λ x. (f : ℕ → ℕ) → right_items f items.now ≡ x.right * f x.term) }
{
    if items.len() == 1 {
        Some(items[0])
    } else {
        None
    }
}

/// The two items of a list of two.
pub(crate) fn two(items: &[Item]) -> Option<Pair>
    ensures first { IfSome result (λ p. (size : ℕ) → ItemsThere size items.now → p.first.term < size) }
    ensures second { IfSome result (λ p. (size : ℕ) → ItemsThere size items.now → p.second.term < size) }
    ensures left { IfSome result (λ p. (f : ℕ → ℕ) → left_items f items.now ≡ p.first.left * f p.first.term + p.second.left * f p.second.term) }
    ensures right { IfSome result (λ p. (f : ℕ → ℕ) → right_items f items.now ≡ p.first.right * f p.first.term + p.second.right * f p.second.term) }
{
    if items.len() == 2 {
        Some(Pair {
            first: items[0],
            second: items[1],
        })
    } else {
        None
    }
}

/// Whether a term stands once in the first sum, and not in the second.
pub(crate) fn is_first(x: &Item) -> bool
    ensures { IsTrue result → (n : ℕ) → (x.now.left * n ≡ n) × (x.now.right * n ≡ 0) }
{
    x.left == 1 && x.right == 0
}

/// Whether a term stands once in the second sum, and not in the first.
pub(crate) fn is_second(x: &Item) -> bool
    ensures { IsTrue result → (n : ℕ) → (x.now.left * n ≡ 0) × (x.now.right * n ≡ n) }
{
    x.left == 0 && x.right == 1
}
