//! Certificates, read whole.
//!
//! In come a text, a kernel and its specification; out goes the certificate that the text spells, an entry for each handler, or the first
//! line that fails with its least reason. What each line says and how the lines follow each other is the layer's below; here stand the
//! readers of logs, proofs, states and handlers, and of the whole.
#![tactic(auto)]

mod blocks;
mod certificate;
mod handlers;
mod logs;
mod proving;
mod whole;
mod widths;

pub use certificate::Certificate;
pub use whole::read_certificate;
