//! No run of a checked kernel is lost.
//!
//! Stands on kernels and on the step machine. The laws are contracts of functions that do nothing. The configurations of a run are
//! followed step by step: each frame stands at an instruction of its function, and the registers that are set along the path to it hold
//! what their kinds ask. What no check asks and every text has, `are_spelled` tries: widths of integers that are compared, and arms of
//! phis.
#![tactic(auto)]

mod laws;
mod spelling;

pub use laws::{memories_are_of_bytes, runs_are_never_lost, seen_runs_are_never_lost};
pub use spelling::{are_spelled, is_runnable};
