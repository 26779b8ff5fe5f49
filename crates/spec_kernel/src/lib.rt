//! What a specification may name of a checked kernel, made once.
//!
//! Stands on checked modules, on the numbers and sizes of whole types, and on the plain view of names. A checked module with its layout
//! comes in; globals and functions are then found by name, shapes are walked step by step, and functions are asked for their parameters,
//! their results and what they reach. `specs/View.antt` says what the view of a module is, `specs/Fit.antt` when a specification fits it.
#![tactic(auto)]

mod calls;
mod firsts;
mod laws;
mod making;
mod names;
mod rows;
mod steps;

pub use laws::shapes_lie_in_their_objects;
pub use names::KernelNames;
pub use rows::ValueType;
pub use steps::{Elements, Part};
