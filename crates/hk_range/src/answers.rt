//! What is asked of terms in place of a comparison of sums.

use hk_term::TermId;

/// A term is a number, or two terms have one number, whatever their widths.
#[derive(Clone, Copy, Debug)]
pub enum Equation {
    Is(TermId, u64),
    Same(TermId, TermId),
}

/// An order that is the same for all numbers, or that of a term and a number, or of two terms: below the number, above the
/// number, the first less than the second, and not so.
#[derive(Clone, Copy, Debug)]
pub enum Order {
    Always,
    Never,
    Below(TermId, u64),
    Above(TermId, u64),
    Less(TermId, TermId),
    NotLess(TermId, TermId),
}

/// What is found of two numbers: they are never equal, they are equal where some equations hold, or nothing.
#[derive(Clone, Copy, Debug)]
pub enum Found {
    Unequal,
    Solved,
    Open,
}
