//! Whole types by number, each with its size, its alignment and the offsets of its fields, all in bytes.
//!
//! Stands on the numbers of whole types and on the words for sizes. Types of a kernel come in; a number goes out, under which size,
//! element and fields are found in constant time, however types nest.
#![tactic(auto)]

mod measure;
mod shapes;

pub use measure::Measure;
pub use shapes::Shapes;
