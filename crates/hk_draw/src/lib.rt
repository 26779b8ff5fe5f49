//! Kernels with their specifications, drawn from seeds, as texts.
//!
//! In come a kind of memory and a seed; out go the text of a kernel with one handler `h`, and the text of a specification of it. The handler
//! computes with parameters and numbers of memory, branches, loads and stores; its specification says the same, and often a little else,
//! or claims an invariant or a property that does not last (`slip`). The cases of its obligations have 8 to 16 bits, so that all of them
//! can be tried.
#![tactic(auto)]

mod access;
mod claims;
mod draft;
mod drawn;
mod forms;
mod operation;
mod random;
mod scene;
mod slip;
mod steps;

pub use drawn::{Texts, draw};
pub use scene::Shape;
