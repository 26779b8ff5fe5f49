//! What the reading, the checking and the coding of kernels promise, each promise by a call that keeps it.
//!
//! Stands on the public calls of the readers of kernel texts, of the checks and of the code. What goes into such a call comes in, and its
//! answer goes out, with the clauses that carry its promise. A change below that weakens one of them is refused here, and wrong bodies
//! are tried here, where those clauses alone can tell.
#![tactic(auto)]

pub mod checks;
pub mod codes;
pub mod fits;
pub mod items;
pub mod texts;
pub mod tops;
