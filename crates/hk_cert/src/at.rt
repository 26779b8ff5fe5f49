//! The lines of a text, one after another.

ghost use Rattle.std.specs.Prelude.{◌≡◌, ◌+◌, ◌<◌, ◌∷◌, [], length, IfOk, IfErr, IfSome, MatchOption};
ghost use Rattle.hk_cnf.specs.Text.{lines_of};
ghost use Rattle.hk_cert.specs.Steps.{fault, Stops, stop_at};
ghost use Rattle.hk_cert.specs.declared.fault.CertStop.TheVariants.{Refused as StopRefused};

use crate::fault::{CertFault, CertStop};
use hk_cert_lines::CertReason;
use hk_cert_lines::shown::LineStop;
use hk_cnf::text::split_line;

/// Where a reader stands: the text from the next line on, and the number of that line, counted from 1.
#[derive(Clone, Copy)]
pub struct At<'t> {
    pub text: &'t [u8],
    pub line: u32,
}

/// The refusal of the line with this number.
pub fn refused(line: u32, reason: CertReason) -> CertStop
    ensures { result ≡ StopRefused (fault line reason) }
{
    CertStop::Refused(CertFault { line, reason })
}

/// The refusal of the line with this number, or want of memory.
pub fn stopped(line: u32, stop: LineStop) -> CertStop
    ensures { result ≡ stop_at line stop }
{
    match stop {
        LineStop::Reason(reason) => refused(line, reason),
        LineStop::Memory => CertStop::Memory,
    }
}

/// The number of the line behind this one. Where 32 bits do not hold it, it is want of memory.
fn number_behind(line: u32) -> Result<u32, CertStop>
    ensures ok { IfOk result (λ next. next ≡ line + 1) }
    ensures err { IfErr result Stops }
{
    match line.checked_add(1) {
        Some(next) => Ok(next),
        None => Err(CertStop::Memory),
    }
}

/// The next line without its newline, and where a reader stands behind it; none at the end of the text.
pub fn next_line<'t>(at: At<'t>) -> Result<Option<(&'t [u8], At<'t>)>, CertStop>
    ensures found { IfOk result (λ found. MatchOption found (lines_of at.entry.text.now ≡ []) (λ x. lines_of at.entry.text.now ≡ x.0.now ∷ lines_of x.1.text.now)) }
    ensures next { IfOk result (λ found. IfSome found (λ x. x.1.line ≡ at.entry.line + 1)) }
    ensures shorter { IfOk result (λ found. IfSome found (λ x. length x.1.text.now < length at.entry.text.now)) }
    ensures err { IfErr result Stops }
{
    if at.text.is_empty() {
        return Ok(None);
    }
    let (line, text) = split_line(at.text);
    let next = number_behind(at.line)?;
    Ok(Some((line, At { text, line: next })))
}
