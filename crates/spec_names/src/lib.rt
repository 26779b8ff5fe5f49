//! What a specification may name of a checked kernel: globals by their names and shapes, functions by their names, parameters,
//! results and calls.
//!
//! Nothing comes in from other crates. The view of a checked kernel is one of these, and the elaboration of specifications stands on it
//! and on nothing else of the kernel. `specs/Kernel.antt` has the view as plain data.
#![tactic(auto)]
