//! What the reading and the elaboration of specifications promise, each promise by a call that keeps it.
//!
//! Stands on the public calls of the readers of specification texts, of expressions in their scope, of lines and of whole
//! specifications. What goes into such a call comes in, and its answer goes out, with the clauses that carry its promise. A change below
//! that weakens one of them is refused here, and wrong bodies are tried here, where those clauses alone can tell.
#![tactic(auto)]

pub mod elaborations;
pub mod names;
pub mod rows;
pub mod takes;
pub mod texts;
