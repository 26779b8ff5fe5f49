//! Raw specifications that are elaborated over a checked kernel.
//!
//! The top of the layers over specification texts: a raw specification and a checked module with its layout come in, and the specification
//! goes out that the lines stand for, or the first line that fails with its least reason. `specs/Elaboration.antt` says what that means.
#![tactic(auto)]

mod beginning;
mod elaboration;
mod limits;
mod spec;
mod walk;

pub use elaboration::elaborate;
