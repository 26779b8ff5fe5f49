//! The results of the functions of a kernel as terms of the functions' own widths.
//!
//! Stands on symbolic execution and on the law that no run of a checked kernel is lost. A kernel, terms for the arguments and a symbolic
//! memory come in; a term that tells whether the run is stuck, the returned number as a term of the result's width and the memory behind
//! the run go out. Under every reading they tell the end of the machine's run, which there is.
#![tactic(auto)]

mod result;

pub use result::{Called, SymResult, execute_to_result};
