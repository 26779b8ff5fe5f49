//! The rows of a log.

ghost use Rattle.std.specs.Prelude.{◌≡◌, ◌+◌, [], IfSome};
ghost use Rattle.hk_cnf.specs.Text.{lines_of};
ghost use Rattle.hk_cert.specs.Steps.{Gives};
ghost use Rattle.hk_cert.specs.Reading.{log_from};

use hk_cert::CertStop;
use hk_cert::at::{At, refused};
use hk_cert_lines::CertReason;
use hk_cert_log::{LogStop, rows_due};
use hk_lrat::LratLog;
use std::alloc::Global;

/// The number as that of a line; none where 32 bits do not hold it.
fn narrow(number: u64) -> Option<u32>
    ensures { IfSome result (λ n. n ≡ number) }
{
    if number > u64::from(u32::MAX) {
        return None;
    }
    Some(number as u32)
}

/// The number of the line behind so many more; none where 32 bits do not hold it.
fn line_behind(line: u32, count: u64) -> Option<u32>
    ensures { IfSome result (λ n. n ≡ line + count) }
{
    match u64::from(line).checked_add(count) {
        Some(number) => narrow(number),
        None => None,
    }
}

/// Reads so many rows of a log, a line each.
#[tactic(auto, using(crate::proofs::Logging::log_found))]
pub fn log_at<'t>(alloc: Global, count: u64, at: At<'t>) -> Result<(LratLog, At<'t>), CertStop>
    ensures { Gives (λ log. log) result (log_from count [] at.entry.line (lines_of at.entry.text.now)) }
{
    match rows_due(alloc, count, at.text) {
        Ok((log, text)) => match line_behind(at.line, count) {
            Some(line) => Ok((log, At { text, line })),
            None => Err(CertStop::Memory),
        },
        Err(LogStop::NoRow(rows)) => match line_behind(at.line, rows) {
            Some(line) => Err(refused(line, CertReason::Q1)),
            None => Err(CertStop::Memory),
        },
        Err(LogStop::Memory) => Err(CertStop::Memory),
    }
}
