//! Soundness of the checks of kernels: what every run of a checked kernel keeps.
//!
//! Stands on the step machine. The functions here do nothing: their contracts are the laws.
#![tactic(auto)]

mod laws;

pub use laws::memory_keeps_its_shape;
