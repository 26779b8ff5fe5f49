//! Certificates, read line by line.
//!
//! In come the lines of a text and what is due at them; out go the parts of a certificate that they spell, or the first line that fails with
//! its least reason. `specs/Steps.antt` has how lines are taken, `specs/States.antt` the state blocks, `specs/Reading.antt` the whole, of
//! which the calls here read the arguments, the rows of an object and the entries of a field. What one line says is the layer's below.
#![tactic(auto)]

pub mod at;
mod fault;
pub mod states;

pub use fault::{CertFault, CertStop};
