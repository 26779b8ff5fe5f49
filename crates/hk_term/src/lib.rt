//! Bit-vector terms in a list that holds each node once: a term is the place of its node, and its parts stand before it.
//!
//! Above it stand the constructors that simplify, the circuits of terms and the search for instances. What comes in are
//! nodes whose widths go together; what goes out are terms, their widths, and their values under a valuation, with
//! SMT-LIB's meanings.
#![tactic(auto)]

mod bounds;
mod node;
mod operations;
mod room;
mod scope;
mod terms;
mod valuation;
mod walk;

pub use bounds::{Bound, BoundList};
pub use node::{Node, TermId, TermKind, TermResize, UnaryKind};
pub use operations::{apply_binary, apply_resize, apply_unary};
pub use room::ValueRoom;
pub use terms::Terms;
pub use valuation::{ArrayTable, NumberTable, Valuation};
