//! Directed graphs: which nodes lie on a cycle, and an order in which what a node leads to comes first.
//!
//! Stands on nothing. A graph comes in as the list of each node's targets; its nodes go out with their targets before them, each
//! with the answer whether it lies on a cycle. Named types and calls are such graphs.
#![tactic(auto)]

mod graph;
mod search;
mod sorting;

pub use graph::{Graph, TargetList};
pub use sorting::{Order, sort};
