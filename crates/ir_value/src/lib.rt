//! What instructions make of values.
//!
//! Stands on numbers and on the words for instructions. Values of operands come in; the value that an instruction gives goes out, or
//! why the run is stuck. Registers, memory and the order of instructions are the layers above.
#![tactic(auto)]

mod access;
mod addresses;
mod compare;
mod intrinsics;
mod moves;
mod numbers;
mod value;
mod widths;

pub use access::{Access, reach};
pub use addresses::compare_pointers;
pub use compare::{compare_numbers, is_between};
pub use intrinsics::{OverflowKind, PairKind, assumes, pair, with_overflow};
pub use moves::{begin, step};
pub use numbers::{binary, is_number_of};
pub use value::{Made, StuckReason, Value};
pub use widths::{convert, freeze, select};
