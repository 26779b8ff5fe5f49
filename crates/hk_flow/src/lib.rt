//! What graphs of blocks and of calls are asked for: nodes in an order in which edges go forward, which nodes lie on every path
//! from the first, and sums along the edges.
//!
//! Stands on the order of a graph's nodes. A graph and such an order come in, an order, a table of dominators or a sum for each node
//! goes out.
#![tactic(auto)]

mod dominance;
mod making;
mod onwards;
mod rows;
mod totals;

pub use dominance::Dominators;
pub use making::dominators;
pub use onwards::{forward, is_acyclic};
pub use totals::sums;
