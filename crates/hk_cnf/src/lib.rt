//! Clauses: literals, clause lists and the assignments that satisfy them, gates, and clause files in DIMACS CNF.
//!
//! The lowest layer of the solver. Bytes of a clause file or clauses of gates come in; lists of clauses, which the
//! checker of refutations and the solver read, go out.
#![tactic(auto)]

mod assignment;
mod clauses;
mod dimacs_read;
mod dimacs_write;
mod direct;
mod gate_clauses;
mod gates;
mod hint;
pub mod laws;
mod literal;
mod operation;
mod simple_and;
pub mod text;

pub use assignment::{Assignment, satisfies};
pub use clauses::ClauseList;
pub use dimacs_read::{CnfFault, CnfReason, CnfStop, read_dimacs};
pub use dimacs_write::write_dimacs;
pub use gates::{GateSizes, Gates};
pub use hint::Hint;
pub use literal::Lit;
pub use operation::{Operation, Placed};
