//! The step machine: what a kernel does.
//!
//! Stands on values, on code and on byte memory. A configuration comes in; the next one goes out, or how the run ends. Its definitions
//! are what a reader has to believe of instructions; what code is of a module is the layer beside it.
#![tactic(auto)]

mod calls;
mod computed;
mod frames;
mod inputs;
mod jumps;
mod state;
mod steps;
mod stores;

pub use frames::Frames;
pub use state::{Computed, End, Frame, Head, Held, Machine, Next, Target, Written};
pub use steps::{run, step};
