//! What a clause says under a set of true literals.

use crate::literal::Lit;

/// What unit propagation reads from a clause, while some literals are true and their negations false.
#[derive(Clone, Copy, PartialEq, Eq, Debug)]
pub enum Hint {
    /// All literals are false.
    False,
    /// This literal is unset, and all others are false.
    Unit(Lit),
    /// A literal is true, or two are not false.
    Other,
}
