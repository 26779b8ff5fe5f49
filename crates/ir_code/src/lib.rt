//! The code that runs: a kernel whose names are places, and whose types are widths, sizes and alignments.
//!
//! Stands on lists, on the words for instructions and on values. It holds data alone: what makes it of a module stands above, and so
//! does what runs it.
#![tactic(auto)]

mod act;
mod input;
mod program;

pub use act::{Act, Arm, Case, Span, Step};
pub use input::{Base, Input, Move};
pub use program::{Block, Code, Object, Program};
