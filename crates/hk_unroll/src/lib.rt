//! Bounded loops: what stands for a function whose blocks have a cycle, within so many turns of each call.
//!
//! Stands on the trees, on names and types of operands, on the words of checks for paths, and on graphs. The definitions say which module
//! stands for one with loops, and which functions are refused. The code has the parts that need no rebuilt function: the copies of blocks
//! that paths reach, with the edges that arrive at each; which blocks every path to a block leaves; the registers of a function, with where
//! each is set; its edges; new names; copies of types. The call that unrolls a module is not here yet.
#![tactic(auto)]

pub mod copies;
pub mod edges;
pub mod fault;
pub mod index;
pub mod laws;
pub mod names;
pub mod paths;
pub mod registers;
pub mod types;

pub use fault::{UnrollFault, UnrollReason, UnrollStop};
