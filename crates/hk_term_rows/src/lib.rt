//! Rows of tests over terms: their fields between bars, and the terms in them, read and written. `(add x1:8 200:8)` is the sum of the
//! variable 1 and of 200 at 8 bits.
//!
//! Operations stand before their operands, as in SMT-LIB, and so do their numbers: `(zext:16 a)` and `(sext:16 a)` to 16 bits,
//! `(extract:7:4 a)` from bit 7 down to 4, `(select:7:2 i)` the entry of the array 7 at `i` with 2 bits, `(forall:3:4:1:2 b)` for
//! all numbers of the variable 3 below 4 and of the variable 1 below 2, `(forall: b)` for no variable. An operation has a fixed number
//! of operands, so brackets only help to read. Only tests stand on this crate.
#![tactic(auto)]

mod build;
mod read;
mod row;
mod valuation;
mod words;
mod write;

pub use crate::build::Making;
pub use crate::read::term_of;
pub use crate::row::{fields_of, long, short};
pub use crate::valuation::{valuation_of, value_at};
pub use crate::write::written;
