//! Symbolic values: what instructions make of values that are terms.
//!
//! Stands on terms and their constructors, and on values, whose rows it follows one by one. Symbolic operands come in; the symbolic
//! value that an instruction gives goes out, with a term that tells where the run is stuck. Registers, memory and the order of
//! instructions are the layer above.
#![tactic(auto)]

mod addresses;
mod compare;
mod conversions;
mod indices;
mod intrinsics;
pub mod logic;
mod make;
mod numbers;
pub mod ops;
mod overflow;
mod pairs;
mod pointers;
mod ranges;
mod rows;
mod value;
mod widths;
pub mod words;

pub use addresses::compare_pointers;
pub use compare::compare_numbers;
pub use conversions::convert;
pub use indices::{Stride, step};
pub use intrinsics::with_overflow;
pub use make::{choose, of_term, of_value};
pub use pairs::pair;
pub use pointers::{begin, is_word, offset_of, reach_sticks};
pub use ranges::is_between;
pub use rows::binary;
pub use value::{SymMade, SymPair, SymValue};
pub use widths::{assume_sticks, freeze, select};
