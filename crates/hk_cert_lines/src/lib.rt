//! The lines of certificates, one by one: what a line says where it is due, or the least reason against it.
//!
//! In come a line and what is due at it: the next handler, obligation, parameter, global or field; out goes what the line says. Which line
//! is due when is the layer's above. `specs/Words.antt` has words and numbers, `specs/Handlers.antt` the lines of handlers and of proofs,
//! `specs/Blocks.antt` those of state blocks.
#![tactic(auto)]

pub mod blocks;
pub mod handlers;
mod reason;
pub mod shown;
pub mod words;

pub use reason::CertReason;
