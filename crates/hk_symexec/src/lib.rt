//! Symbolic execution of the functions of a kernel.
//!
//! Stands on the walk of a function, which visits each block once, and on symbolic instructions, registers and memory. A kernel, terms
//! for the arguments and a symbolic memory come in; a term that tells whether the run is stuck, the result and the memory behind the
//! run go out, with the values that the run of the machine has under every reading.
#![tactic(auto)]

mod blocks;
mod calls;
mod entries;
mod exec;
mod instructions;
mod jumps;
mod leads;
mod marks;
mod orders;
mod phis;
mod returns;
mod run;
mod setting;
mod settle;
mod starts;
mod truths;
mod whole;

pub use exec::Exec;
pub use whole::{SymRun, execute};
