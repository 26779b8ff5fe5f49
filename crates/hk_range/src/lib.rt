//! Ranges and sums of terms, as abstract interpretation has them: intervals, and linear forms over the whole numbers.
//!
//! It stands above the list of terms and below whatever asks whether a comparison of terms can be decided without a solver.
//! What comes in are terms and what is known of the readings; what goes out are ranges of their numbers, and what may be asked
//! in place of a comparison.
#![tactic(auto)]

mod answers;
mod decide;
mod ends;
mod form;
mod known;
mod near;
mod of;
mod only;
mod order;
mod parts;
mod range;
mod split;
mod sums;
mod zero;

pub use answers::{Equation, Found, Order};
pub use decide::{equal, less};
pub use form::{Bits, cut, form_of};
pub use known::{Fact, Known};
pub use of::range_of;
pub use range::Range;
pub use sums::{Item, Sums};
