//! The items of a kernel text that stand outside of bodies.
//!
//! A layer of the kernel reader beside that of the items of bodies: the tokens that remain of an item come in, and its tree goes out,
//! exactly where they spell it.
#![tactic(auto)]

mod brackets;
mod inits;
pub mod item;
pub mod laws;
mod number;
mod parameters;
mod range;
mod tops;

pub use item::TopItem;
pub use number::{is_number, number_name};
pub use range::read_range;
pub use tops::read_top;
