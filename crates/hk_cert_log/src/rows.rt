//! The rows that are due.

ghost use Rattle.std.specs.Prelude.{◌≡◌, []};
ghost use Rattle.hk_cnf.specs.Text.{lines_of};
ghost use Rattle.hk_lrat.specs.LogText.{log_of};
ghost use Rattle.hk_cert_log.specs.Rows as definition;
ghost use Rattle.hk_cert_log.specs.Rows.{Reads};
ghost use Rattle.hk_cert_log.specs.Logs.{IsRead};

use crate::extent::extent;
use hk_lrat::{LratLog, RefuteStop, read_log};
use std::alloc::Global;

/// Why the rows were not read.
#[derive(Clone, Copy, Debug, PartialEq, Eq)]
pub enum LogStop {
    /// How many lines stand before the first that is no row, or before the end of the text.
    NoRow(u64),
    /// Memory was refused.
    Memory,
}

/// The log of a text without comments and empty lines.
fn log_in(alloc: Global, text: &[u8]) -> Result<LratLog, LogStop>
    ensures { IsRead result (log_of text.now) }
{
    if text.len() >= 1 << 31 {
        return Err(LogStop::Memory);
    }
    match read_log(alloc, text) {
        Ok(log) => Ok(log),
        Err(RefuteStop::Row { row, .. }) => Err(LogStop::NoRow(row.saturating_sub(1))),
        Err(RefuteStop::Memory) => Err(LogStop::Memory),
    }
}

/// Reads so many rows of a log at the front of a text, a line each, and gives the text behind them.
///
/// A row is a line as the reader of logs spells it; a line that it skips is none. Where the text has 2^31 bytes or more, it is want of
/// memory.
pub fn rows_due<'t>(alloc: Global, due: u64, text: &'t [u8]) -> Result<(LratLog, &'t [u8]), LogStop>
    ensures { Reads (λ x. (x.0, lines_of x.1.now)) result (definition.rows_from due [] 0 (lines_of text.now)) }
{
    let (rows, end) = extent(text, due);
    let (front, rest) = text.split_at(end);
    let log = log_in(alloc, front)?;
    if rows < due {
        return Err(LogStop::NoRow(rows));
    }
    Ok((log, rest))
}
