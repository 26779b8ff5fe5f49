//! Cases one at a time: whether a case violates an obligation, how many cases there are, and the search among all of them.
//!
//! Stands on kernels that run, on the meaning of specifications, and on what handlers owe. In come a kernel, a specification that fits
//! it, a number of a transition, an obligation and a case; out goes whether the case violates the obligation. The search takes every
//! case by its number (`specs/Enumeration.antt`). Of the invariants, fields and properties only those that the obligation reads are
//! evaluated.
#![tactic(auto)]

mod cases;
mod counts;
mod handler;
mod misses;
mod numbers;
mod search;
mod verdicts;

pub use counts::case_bits;
pub use search::find_in_all;
pub use verdicts::violates;
