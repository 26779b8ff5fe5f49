//! Evaluation of specifications over one memory, one abstract state and one list of arguments at a time.
//!
//! In come a specification of the reader with numbers, a memory or a state, out goes what the definitions of `spec_tree` say of
//! them. Expressions are evaluated as they stand, every tuple of every quantifier, without taking memory for a tuple.
#![tactic(auto)]

pub mod operators;
pub mod state;
pub mod tuples;

pub use operators::{binary, is_true, resize, truth, unary};
pub use state::{AbstractState, EntryList};
pub use tuples::{count, place, push_tuple};

#[cfg(test)]
mod tests;
