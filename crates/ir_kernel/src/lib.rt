//! Kernels that run.
//!
//! Stands on checks, layout, the code of a module, and the step machine with its walks. A module that was read comes in; a kernel goes
//! out, or the first item that is refused. A kernel has its checked module, its layout and its code, and its functions can be run. Each
//! run ends within the expanded length of its function.
#![tactic(auto)]

mod beginning;
mod calling;
mod ends;
mod kernel;
mod laws;
mod passing;

pub use beginning::initial_memory;
pub use ends::{RunEnd, run};
pub use kernel::Kernel;
pub use laws::{
    checked_instructions_fit, checked_kernels_are_loop_free, computations_are_never_lost,
    instructions_make_values_of_their_types, jumps_and_arguments_are_never_lost,
    loads_are_never_lost, operands_have_values_of_their_types, parts_are_never_lost,
    runs_of_kernels_end, stores_are_never_lost,
};
pub use passing::{Misfit, Passed, pass};
