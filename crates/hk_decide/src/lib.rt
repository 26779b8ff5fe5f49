//! The verdict of a handler, by clauses, and where the budget is spent over few cases by trying all of them; and the opening.
//!
//! Stands on the questions of obligations, on the loop that settles questions, on the search among all cases and on the meaning of
//! specifications. In come a kernel and a specification that fits it; out go a handler's verdict (`specs/Right.antt`) and the verdict on
//! the initial memory (`specs/Opening.antt`).
#![tactic(auto)]

mod counted;
mod found;
mod handler;
mod opening;
mod trying;
mod verdicts;

pub use handler::Handler;
pub use opening::open;
pub use verdicts::decide;
