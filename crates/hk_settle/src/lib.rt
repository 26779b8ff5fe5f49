//! The deciding loop: a question is settled by rounds of the solver and of instances that its assignments violate.
//!
//! It stands on questions and on the solver; the verdicts of handlers stand on it. What comes in is a question with a budget
//! of clauses to learn; what goes out is a log that refutes its clauses, a valuation under which its goal is true, or a log
//! that spent the budget.
#![tactic(auto)]

mod answers;
mod beside;
mod rounds;

pub use answers::{Figures, Settled, Settlement};
pub use rounds::{settle, settle_with_figures};
