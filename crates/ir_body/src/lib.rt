//! The items of function bodies: labels, instructions, and the end of a body.
//!
//! A layer of the kernel reader. An item comes in as its tokens, and its tree goes out, or why it has none. What carries no meaning is
//! dropped first. An item is read in one pass, by the word of its operation.
#![tactic(auto)]

mod arithmetic;
mod control;
pub mod fault;
mod inner;
pub mod item;
pub mod laws;
mod listing;
mod memory;
pub mod operation;
mod part;
mod tell;
mod words;

pub use fault::ItemFault;
pub use item::{BodyItem, read_body_item};
