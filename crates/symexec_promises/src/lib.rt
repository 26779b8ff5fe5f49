//! What the execution of a handler on terms promises, said once more above it.
//!
//! Stands on symbolic execution and on its results. Each function has the parameters, the conditions and the clause of one public call
//! below, and only calls it: whoever weakens that clause is refused here, and a wrong body here has that clause alone against it.
#![tactic(auto)]

pub mod results;
pub mod runs;
