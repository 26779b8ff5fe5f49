//! The ranges of two sums.

ghost use Rattle.std.specs.Prelude.{◌≡◌, ℕ, ◌+◌, ◌*◌, ◌<◌, ◌≤◌, length, IfSome};
ghost use Rattle.hk_term.specs.Meaning.{Reading, value};
ghost use Rattle.hk_range.specs.Ranges.{InRange, Knows};
ghost use Rattle.hk_range.specs.Linear.{left_items, right_items, left_of, right_of, numbers, InEnds, ItemsThere};

use crate::known::Known;
use crate::of::range_of;
use crate::parts::LOOKS;
use crate::range::{Range, one};
use crate::sums::{Item, Sums};
use hk_term::Terms;

/// The ranges of the first and of the second sum.
#[derive(Clone, Copy, Debug)]
pub(crate) struct Ends {
    pub(crate) left: Range,
    pub(crate) right: Range,
}

/// The ranges of both sums, where they fit 64 bits.
pub(crate) fn ends_of(t: &Terms, known: &Known, s: &Sums) -> Option<Ends>
    requires { ItemsThere (length t.now) s.now.items.items }
    ensures { IfSome result (λ e. (v : Reading) → Knows t.now known.now v → InEnds e (left_of (numbers t.now v) s.now) (right_of (numbers t.now v) s.now)) }
{
    ends_from(t, known, s.items.as_slice(), s.left, s.right)
}

pub(crate) fn ends_from(
    t: &Terms,
    known: &Known,
    items: &[Item],
    left: u64,
    right: u64,
) -> Option<Ends>
    requires { ItemsThere (length t.now) items.now }
    ensures { IfSome result (λ e. (v : Reading) → Knows t.now known.now v → InEnds e (left + left_items (numbers t.now v) items.now) (right + right_items (numbers t.now v) items.now)) }
{
    let mut ends = Ends {
        left: one(left),
        right: one(right),
    };
    for item in items {
        ends = widened(t, known, ends, *item)?;
    }
    Some(ends)
}

// The ranges with an item more.
fn widened(t: &Terms, known: &Known, e: Ends, item: Item) -> Option<Ends>
    requires { item.term < length t.now }
    ensures { IfSome result (λ m. (v : Reading) (a b : ℕ) → Knows t.now known.now v → InEnds e a b → InEnds m (a + item.left * value t.now item.term v) (b + item.right * value t.now item.term v)) }
{
    let r = range_of(t, known, item.term, LOOKS);
    let left = more(e.left, r, item.left)?;
    let right = more(e.right, r, item.right)?;
    Some(Ends { left, right })
}

// The range of a sum with so many times a number more.
fn more(p: Range, r: Range, times: u64) -> Option<Range>
    ensures { IfSome result (λ q. (a n : ℕ) → InRange p a → InRange r n → InRange q (a + times * n)) }
{
    let high = times.checked_mul(r.hi)?;
    let hi = p.hi.checked_add(high)?;
    Some(Range {
        lo: p.lo.saturating_add(times.saturating_mul(r.lo)),
        hi,
    })
}
