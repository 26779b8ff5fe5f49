//! Verdicts over whole specifications and their report: the lines that say what was decided.
//!
//! In come verdicts with the kernel and the specification that they are about; out go lines on a sink. `specs/Report.antt` and
//! `specs/Entries.antt` have the texts; no line takes memory.
#![tactic(auto)]

mod entries;
mod report;
mod verdict;

pub use entries::put_entries;
pub use report::{put_args, put_init, put_verdict};
pub use verdict::{InitVerdict, Verdict};
