//! Lines of the program, and the rows of machine states.
//!
//! In come the parts of a line, or the globals of a kernel with a memory; out go lines on a sink. The parts of a line are defined in
//! `specs/Texts.antt` and the rows in `specs/Rows.antt`; no line takes memory.
#![tactic(auto)]

mod line;
mod rows;

pub use line::{Part, put_line};
pub use rows::{put_global, put_memory};

#[cfg(test)]
mod tests;
