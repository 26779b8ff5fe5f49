//! What may be wrong with a drawn handler.

use crate::random::Random;

/// Where a handler and its specification part, or what both leave out. Not every drawn handler has a place for each of these.
#[derive(Clone, Copy, PartialEq, Eq)]
pub(crate) enum Slip {
    /// Nothing.
    Nothing,
    /// The specification has another constant.
    Constant,
    /// The specification has another operation.
    Operation,
    /// An instruction has flags that the specification knows nothing of.
    Flags,
    /// A divisor may be zero.
    Divisor,
    /// A shift may be by the width or more.
    Shift,
    /// An index may be too large.
    Index,
    /// The kernel compares with a number that is off by one.
    Bound,
    /// The specification compares otherwise.
    Predicate,
    /// The kernel branches without a look at its condition.
    Guard,
    /// The kernel leaves a store out.
    Store,
    /// The kernel returns another number.
    Returned,
    /// What is stored is not kept below the bound.
    Unclamped,
    /// What is stored may be the bound itself.
    Reached,
    /// A property has a smaller bound than what is stored.
    Property,
    /// A field that follows from others is not written.
    Derived,
    /// Both arms of a choice are exchanged in the specification.
    Arms,
}

/// The slips, each as often as it is to be drawn.
const SLIPS: &[Slip] = &[
    Slip::Constant,
    Slip::Operation,
    Slip::Flags,
    Slip::Flags,
    Slip::Divisor,
    Slip::Shift,
    Slip::Index,
    Slip::Bound,
    Slip::Predicate,
    Slip::Guard,
    Slip::Store,
    Slip::Returned,
    Slip::Unclamped,
    Slip::Unclamped,
    Slip::Unclamped,
    Slip::Reached,
    Slip::Reached,
    Slip::Property,
    Slip::Property,
    Slip::Property,
    Slip::Property,
    Slip::Derived,
    Slip::Arms,
];

/// A slip, or in one of six draws none.
pub(crate) fn draw_slip(random: &mut Random) -> Slip {
    if random.once_in(6) {
        return Slip::Nothing;
    }
    let place = random.below(SLIPS.len() as u64) as usize;
    SLIPS.get(place).copied().unwrap_or(Slip::Nothing)
}
