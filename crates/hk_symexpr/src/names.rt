//! What the names of an expression stand for.

use hk_term::TermId;

/// What a name stands for: a term, and its width in bits.
#[derive(Clone, Copy, Debug)]
pub struct NamedTerm {
    pub term: TermId,
    pub width: u32,
}

/// A term, and the greatest number that it may have.
#[derive(Clone, Copy, Debug)]
pub struct Limit {
    pub term: TermId,
    pub most: u64,
}

/// What the names of an expression stand for.
#[derive(Drop)]
pub struct Names<'a> {
    /// The arguments in order.
    pub args: &'a [NamedTerm],
    /// The local names in order.
    pub locals: &'a [NamedTerm],
    /// The variables of the first places, as a field's keys in its equation: terms, and a size for each, below which its numbers are.
    pub keys: &'a [TermId],
    pub sizes: &'a [u32],
    /// What is known where the expression stands: these terms' numbers are at most these.
    pub known: &'a [Limit],
    /// The variable of a quantifier at place k, counted from the outermost, is the reading's variable `base` + k.
    pub base: u32,
}
