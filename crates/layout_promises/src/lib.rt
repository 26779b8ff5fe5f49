//! What graphs, orders of types, layouts and byte memory promise, said once more above them.
//!
//! Stands on layouts and on flows in graphs. Each function has the parameters, the conditions and the clauses of one public call below,
//! and only calls it: whoever weakens such a clause is refused here, and a wrong body here has these clauses alone against it.
#![tactic(auto)]

pub mod graphs;
pub mod layouts;
pub mod memories;
