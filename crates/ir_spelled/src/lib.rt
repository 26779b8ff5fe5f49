//! Kernels that texts spell: no run of theirs is lost.
//!
//! A kernel and numbers come in, the end of a run goes out; beside it stand laws of texts. Stands on the readers of texts and on the laws
//! of runs. What those ask beside the checks of a kernel holds of every text: integers that are compared have 1 to 64 bits, and a phi has
//! an arm. So a run of such a kernel's function, from numbers that it takes, returns or is stuck.
#![tactic(auto)]

mod laws;
mod running;

pub use laws::{passed_runs_are_never_lost, texts_are_spelled};
pub use running::{Ending, run_from_start};
