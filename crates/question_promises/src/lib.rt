//! What questions promise, said once more above them.
//!
//! Stands on questions. Each function has the parameters, the conditions and the clauses of one public call below, and only calls it:
//! whoever weakens such a clause is refused here, and a wrong body here has these clauses alone against it.
#![tactic(auto)]

pub mod questions;
