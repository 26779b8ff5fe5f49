//! Logs of refutations in LRAT, and their checker.
//!
//! Stands on the clause lists. The text of a proof, or the log that the solver kept, comes in; that the log refutes a
//! clause list, or the first row that does not hold with its reason, goes out.
#![tactic(auto)]

mod checker;
mod hints;
mod log;
mod log_read;
mod marks;
mod rank;
mod refutation;
mod renumber;
mod table;
mod token;

pub use checker::Checker;
pub use log::{IdList, LitList, LratLog, LratRow, RefuteStop, RowReason};
pub use log_read::read_log;
pub use refutation::refutes;
pub use renumber::raise;
