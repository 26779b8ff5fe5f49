//! The claims of a certificate: acceptances checked again, rejections run again, and what is said of them.
//!
//! Stands on the checker of proofs and on the run of cases. In come a kernel, its specification and a certificate that was read for them;
//! out go lines on a sink, the verdicts of the acceptances, and why it ended early (`specs/Checks.antt`, `specs/Replays.antt`). No solver is
//! called.
#![tactic(auto)]

mod checking;
mod fitting;
mod laws;
mod lines;
mod replaying;
mod stop;

pub use checking::check_claims;
pub use fitting::entries_fit;
pub use laws::what_is_read_fits;
pub use lines::row_reason;
pub use replaying::replay_claims;
pub use stop::ClaimStop;
