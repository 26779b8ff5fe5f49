//! The questions of a handler's obligations: the case that a valuation gives, and a goal that is true exactly where this case violates
//! the obligation.
//!
//! Stands on what handlers owe (`hk_case`), on symbolic execution and specifications as terms, and on questions. A kernel with a
//! specification that fits it comes in, or a valuation; questions and cases go out. Argument k is the variable k; object o is the array
//! o, and in the case of a property field k is the array k (`specs/Cases.antt`). A handler is executed once for all its questions
//! (`handler`): the terms of a run and those of a transition from any abstract state stand in two lists, since arrays mean other things
//! in them, and a question has a list with the terms that its goal reaches.
#![tactic(auto)]

mod arguments;
mod asked;
mod cases;
mod goals;
mod handler;
mod listed;
mod numbers;
mod parts;
mod run;
mod states;
mod step;
mod truths;
mod uniform;

pub use cases::case_of;
pub use goals::goal_of;
pub use handler::{Prepared, cases_are_of_readings, prepare, question};
pub use listed::Listed;
pub use parts::{Parts, RunParts, StepParts};
pub use uniform::is_uniform;
