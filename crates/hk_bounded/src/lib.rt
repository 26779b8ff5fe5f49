//! Runs of kernels with loops, within so many turns of each call.
//!
//! Stands on the machine. A turn is a jump to a block that does not stand later in the text, in a function whose blocks have a cycle. The
//! looping run is the machine's own; a bounded run is the same with the turns of each call counted, and stuck where a call takes one
//! after its last. Laws say where the two are one.
#![tactic(auto)]

mod laws;

pub use laws::{bounded_runs_are_runs, ended_runs_stay_so};
