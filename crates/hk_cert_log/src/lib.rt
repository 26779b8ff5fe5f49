//! The rows of a log that stands within a longer text, a line each.
//!
//! In come a text and how many rows are due at its front; out go the log of these rows and the text behind them, or how many lines stand
//! before the first that is no row. The reader of logs skips comments and empty lines; here each line is a row (`specs/Rows.antt`).
#![tactic(auto)]

mod extent;
mod rows;

pub use rows::{LogStop, rows_due};
