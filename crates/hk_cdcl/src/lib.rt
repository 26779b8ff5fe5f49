//! The clause-learning solver.
//!
//! Stands on the clause lists and their logs. A clause list comes in; a satisfying assignment, a log that refutes the
//! list, or a log that spent its budget on clauses which unit propagation did not give, goes out.
#![tactic(auto)]

mod active;
mod analyze;
mod call;
mod learn;
mod lists;
mod minimize;
mod names;
mod order;
mod propagate;
mod records;
mod restarts;
mod scan;
mod search;
mod seen;
mod segments;
mod solver;
mod trail;
mod watched;
mod watches;

pub use propagate::{FullScan, Propagate};
pub use solver::{SolveEnd, Solver, solve};
pub use trail::Trail;
pub use watched::Watched;
