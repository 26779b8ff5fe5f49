//! Copies of bit-vector terms in which variables are replaced, as a quantifier's body at a tuple of numbers is one.
//!
//! It stands above the list of terms and below the search for instances. What comes in are a term and what some variables
//! stand for; what goes out is a term of the same list whose value is that of the first under the replaced reading.
#![tactic(auto)]

mod fold;
mod renew;
mod stand;
mod variable;
mod walk;

pub use stand::Stand;
pub use walk::copy;
