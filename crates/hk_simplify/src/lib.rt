//! Constructors of bit-vector terms that simplify, as SMT solvers do before they bit-blast: constants are folded, and neutral and
//! absorbing operands, double negations and extractions of what was put together fall away.
//!
//! They stand above the list of terms and below what builds terms: symbolic execution, specifications and instances. What
//! comes in are terms whose widths go together; what goes out is a term with the operation's value under every reading.
//! Each call interns at most two nodes, where its clause names no other number, and no variable and no entry of an array.
#![tactic(auto)]

mod against;
mod arithmetic;
mod bitwise;
mod choice;
mod compare;
mod constants;
mod form;
mod limits;
mod plain;
mod quantify;
mod shift;
mod structure;
mod sums;

pub use arithmetic::{add, mul, neg, sdiv, srem, sub, udiv, urem};
pub use bitwise::{and, not, or, xor};
pub use choice::choose;
pub use compare::{eq, slt, ult};
pub use quantify::for_all;
pub use shift::{ashr, lshr, shl};
pub use structure::{concat, extract, sign_extend, zero_extend};
