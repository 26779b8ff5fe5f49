//! The number of an expression of a specification, over a memory, abstract states, arguments, local names and variables.
//!
//! Stands on the trees of specifications, on their operators and index tuples, and on byte memory. In come a [`Reading`], which says
//! what an expression reads, and a [`Frame`], which holds local names and variables and is used again from one expression to the
//! next; out goes the [`Number`]. Every tuple of every quantifier is gone through, and none of them takes memory of its own.
#![tactic(auto)]

mod combine;
mod frame;
mod leaf;
mod number;
mod path;
mod reading;

pub use frame::Frame;
pub use number::number_of;
pub use reading::{Number, Reading, Source};

#[cfg(test)]
mod tests;
