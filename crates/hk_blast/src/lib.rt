//! Terms as gates: the call that makes the circuit of a term, and the table of the words that it made.
//!
//! Stands between terms and questions: terms, gates and a table come in; the gates of the terms that have no word yet, and
//! their words in the table, go out. Variables, entries of arrays and quantifiers are inputs, with fresh variables for their
//! bits; the index of an entry and the body of a quantifier are not looked at.
#![tactic(auto)]

mod input;
pub mod laws;
mod node;
mod operation;
mod table;
mod walk;

pub use table::BitTable;
pub use walk::blast;
