//! Whole kernel texts.
//!
//! The top layer of the kernel reader: the bytes of a text come in, and the module that they spell goes out, or what fails first with
//! its reason. The layers below cut the text into items and read the items one by one; here each item is tried at its place, and adds
//! its part to the module.
#![tactic(auto)]

mod ahead;
mod apply;
mod body;
mod head;
mod item;
pub mod laws;
mod names;
mod number;
mod reading;
mod stop;
mod text;
mod whole;

pub use text::read_module;
