//! How far the lines of a log reach.

ghost use Rattle.std.specs.Prelude.{◌≡◌, ◌<◌, not, ◌==◌, MatchOption};
ghost use Rattle.std.specs.List.{prefix_len};
ghost use Rattle.hk_cnf.specs.Text.{lines_of};
ghost use Rattle.hk_lrat.specs.LogText.{is_skipped};
ghost use Rattle.hk_cert_log.specs.Extents.{IsRowEnd, IsOver, IsExtent};

use hk_cnf::text::next_word;
use memchr::memchr;

/// How many bytes stand before the first newline.
fn line_len(text: &[u8]) -> usize
    ensures { result ≡ prefix_len (λ b. not (b == 10)) text.now }
{
    match memchr(b'\n', text) {
        Some(length) => length,
        None => text.len(),
    }
}

/// Whether the reader of logs skips a line: a comment, or one without a word.
fn is_skipped(line: &[u8]) -> bool
    ensures { result ≡ is_skipped line.now }
{
    match line {
        [b'c', ..] => true,
        _ => next_word(line, false).is_none(),
    }
}

/// Where the first line of a text ends, with its newline; none where there is no line, or the reader of logs skips it.
fn row_end(text: &[u8]) -> Option<usize>
    ensures { MatchOption result (IsOver (lines_of text.now)) (IsRowEnd text.now) }
{
    if text.is_empty() {
        return None;
    }
    let length = line_len(text);
    if is_skipped(text.split_at(length).0) {
        return None;
    }
    if length < text.len() {
        Some(length + 1)
    } else {
        Some(length)
    }
}

/// How many lines at the front of a text may be rows, up to so many, and where they end.
pub fn extent(text: &[u8], due: u64) -> (u64, usize)
    ensures { IsExtent due text.now result.0 result.1 }
{
    let mut rows = 0;
    let mut end = 0;
    while rows < due {
        match row_end(text.split_at(end).1) {
            Some(length) => {
                end += length;
                rows += 1;
            }
            None => return (rows, end),
        }
    }
    (rows, end)
}
