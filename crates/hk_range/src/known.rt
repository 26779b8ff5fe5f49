//! What is known of a reading: the ranges of terms, and the sizes of bound variables.

use crate::range::Range;
use hk_term::{Bound, TermId};

/// The number of a term is in a range.
#[derive(Clone, Copy, Debug)]
pub struct Fact {
    pub term: TermId,
    pub range: Range,
}

/// Ranges of terms, and variables that are below sizes.
#[derive(Debug, Drop)]
pub struct Known {
    pub facts: Vec<Fact>,
    pub bound: Vec<Bound>,
}
