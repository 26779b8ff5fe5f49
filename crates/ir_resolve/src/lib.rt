//! The code of a kernel: names become places, and types become widths, sizes and alignments.
//!
//! Stands on the trees, on the measures of whole types, on the names of functions and on the code that runs. A module and its layout
//! come in; the program that a run steps through goes out.
#![tactic(auto)]

mod access;
mod acts;
mod calls;
mod context;
mod literal;
mod local;
mod operands;
mod program;

pub use program::resolve;
