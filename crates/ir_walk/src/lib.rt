//! The walk: a run of a function without loops as one pass over its blocks.
//!
//! Stands on the step machine. A walk visits each block once, in an order in which edges go forward, under the edge that was taken, and
//! puts calls in their places. So it says what a run comes to by recursion on the code, with no machine that steps. The definition
//! stands in `specs/Walk.antt`, and what makes walks end in `specs/LoopFree.antt`. The functions here do nothing: their contracts are
//! the laws that tie walks to runs.
#![tactic(auto)]

mod laws;

pub use laws::{lengths_fall_along_calls, run_ends, walk_ends, walk_is_run};
