//! The part of a list of bit-vector terms that one term reaches, as a list of its own.
//!
//! Stands on the list of terms; the questions of obligations stand on it. A list and one of its terms come in; a list with what the term
//! reaches, and nothing else, goes out, with the term's place there: it has its width and its value under every reading.
#![tactic(auto)]

mod cone;
mod marks;

pub use cone::{Cone, cone_of};
