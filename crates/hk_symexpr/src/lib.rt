//! Expressions of specifications as terms.
//!
//! Stands on terms, their constructors that simplify, and the trees of specifications. In come an expression, what its names stand
//! for, and what it reads, by a trait; out goes a term that has, under every reading of variables and arrays, the number that the
//! expression has over what is read then. Quantifiers become quantifiers over variables whose ids go by their places.
#![tactic(auto)]

mod build;
mod conditions;
mod join;
mod known;
mod leaf;
mod load;
mod names;
mod operators;
mod ops;
mod path;
mod quantify;
mod reads;
mod term;

pub use conditions::learn;
pub use names::{Limit, NamedTerm, Names};
pub use quantify::every;
pub use reads::SymReads;
pub use term::term_of;
