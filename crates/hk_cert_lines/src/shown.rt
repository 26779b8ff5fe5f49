//! The lines behind the one that an obligation's proof begins with.

ghost use Rattle.std.specs.Prelude.{◌≡◌, [], ◌∷◌, false, IfOk};
ghost use Rattle.std.specs.List.{list_all};
ghost use Rattle.hk_cnf.specs.Text.{words_of};
ghost use Rattle.hk_cert_lines.specs.Words as words;
ghost use Rattle.hk_cert_lines.specs.Shown as definition;
ghost use Rattle.hk_cert_lines.specs.Shown.{Says, number_in, numbers_in, after_numbers};
ghost use Rattle.hk_cert_lines.specs.declared.shown.LineStop.TheVariants.{Memory as LineMemory};

use crate::reason::CertReason;
use crate::words::{is_decimal, is_spaced, number_at};
use hk_cnf::text::{natural, next_word};
use hk_inst::{Instance, SizeList};
use std::alloc::{AllocError, AllocFailed, Global};

/// What a line of an obligation's proof says.
#[derive(Debug, Drop)]
pub enum Shown {
    /// Every case was tried.
    Cases,
    /// So many rows of the log follow.
    Log(u64),
    /// An instance that is added to the question.
    Added(Instance),
}

/// Why a line was not read.
#[derive(Clone, Copy, Debug, PartialEq, Eq)]
pub enum LineStop {
    /// The least reason against the line.
    Reason(CertReason),
    /// Memory was refused.
    Memory,
}

impl From<AllocError> for LineStop {
    ghost from_gives = { λ _ stop. stop ≡ LineMemory };

    fn from(_error: AllocError) -> LineStop {
        LineStop::Memory
    }
}

impl<T: Drop> From<AllocFailed<T>> for LineStop {
    ghost from_gives = { λ _ stop. stop ≡ LineMemory };

    fn from(_failed: AllocFailed<T>) -> LineStop {
        LineStop::Memory
    }
}

/// The number of 64 bits that a word writes.
fn number_in(word: &[u8]) -> Option<u64>
    ensures { result ≡ number_in word.now }
{
    natural(word, u64::MAX)
}

/// The line `cases` behind its word.
fn cases_of(wide: bool, line: &[u8]) -> Result<Shown, LineStop>
    ensures { Says result (definition.cases_of wide (words_of false line.now)) }
{
    match next_word(line, false) {
        None => {
            if wide {
                Err(LineStop::Reason(CertReason::Q2))
            } else {
                Ok(Shown::Cases)
            }
        }
        Some(_) => Err(LineStop::Reason(CertReason::Q1)),
    }
}

/// A number of rows.
fn with_count(count: Result<u64, CertReason>) -> Result<Shown, LineStop>
    ensures { Says result (definition.with_count count) }
{
    match count {
        Ok(count) => Ok(Shown::Log(count)),
        Err(reason) => Err(LineStop::Reason(reason)),
    }
}

/// The line `log` behind its word.
fn log_of(line: &[u8]) -> Result<Shown, LineStop>
    ensures { Says result (definition.log_of (words_of false line.now)) }
{
    match next_word(line, false) {
        None => Err(LineStop::Reason(CertReason::Q1)),
        Some((count, rest)) => match next_word(rest, false) {
            None => with_count(number_at(u64::MAX, count)),
            Some(_) => Err(LineStop::Reason(CertReason::Q1)),
        },
    }
}

/// A pair of numbers that were found.
fn pair_in(a: Option<u64>, b: Option<u64>) -> Result<Shown, LineStop>
    ensures { Says result (definition.pair_in a b) }
{
    match a {
        None => Err(LineStop::Reason(CertReason::Q2)),
        Some(a) => match b {
            None => Err(LineStop::Reason(CertReason::Q2)),
            Some(b) => Ok(Shown::Added(Instance::Pair { a, b })),
        },
    }
}

/// A pair of numbers that two words write.
fn pair_by(a: &[u8], b: &[u8]) -> Result<Shown, LineStop>
    ensures { Says result (definition.pair_of (a.now ∷ b.now ∷ [])) }
{
    if is_decimal(a) && is_decimal(b) {
        pair_in(number_in(a), number_in(b))
    } else {
        Err(LineStop::Reason(CertReason::Q1))
    }
}

/// The second number of a pair, and what is behind it.
fn pair_with(a: &[u8], line: &[u8]) -> Result<Shown, LineStop>
    ensures { Says result (definition.pair_of (a.now ∷ words_of false line.now)) }
{
    match next_word(line, false) {
        None => Err(LineStop::Reason(CertReason::Q1)),
        Some((b, rest)) => match next_word(rest, false) {
            None => pair_by(a, b),
            Some(_) => Err(LineStop::Reason(CertReason::Q1)),
        },
    }
}

/// The line `pair` behind its word.
fn pair_of(line: &[u8]) -> Result<Shown, LineStop>
    ensures { Says result (definition.pair_of (words_of false line.now)) }
{
    match next_word(line, false) {
        None => Err(LineStop::Reason(CertReason::Q1)),
        Some((a, rest)) => pair_with(a, rest),
    }
}

/// Whether all words left are decimal numbers.
fn are_decimals(line: &[u8]) -> bool
    ensures { result ≡ list_all words.is_decimal (words_of false line.now) }
{
    let mut rest = line;
    while let Some((word, after)) = next_word(rest, false) {
        if !is_decimal(word) {
            return false;
        }
        rest = after;
    }
    true
}

/// The numbers that the words left write; none where one is out of its range.
fn numbers_in(alloc: Global, line: &[u8]) -> Result<Option<SizeList>, AllocError>
    ensures { IfOk result (λ found. found ≡ numbers_in (words_of false line.now)) }
{
    let mut numbers = Vec::new(alloc);
    let mut rest = line;
    while let Some((word, after)) = next_word(rest, false) {
        let Some(number) = number_in(word) else {
            return Ok(None);
        };
        numbers.push(number)?;
        rest = after;
    }
    Ok(Some(SizeList::from_vec(numbers)))
}

/// A quantifier with indices that were found.
fn tuple_in(quantifier: Option<u64>, indices: Option<SizeList>) -> Result<Shown, LineStop>
    ensures { Says result (definition.tuple_in quantifier indices) }
{
    match quantifier {
        None => Err(LineStop::Reason(CertReason::Q2)),
        Some(quantifier) => match indices {
            None => Err(LineStop::Reason(CertReason::Q2)),
            Some(indices) => Ok(Shown::Added(Instance::Tuple {
                quantifier,
                indices,
            })),
        },
    }
}

/// A quantifier and the indices left, of which there is one at least.
fn tuple_by(alloc: Global, quantifier: &[u8], line: &[u8]) -> Result<Shown, LineStop>
    ensures { Says result (definition.tuple_by quantifier.now (words_of false line.now)) }
{
    if is_decimal(quantifier) && are_decimals(line) {
        let indices = numbers_in(alloc, line)?;
        tuple_in(number_in(quantifier), indices)
    } else {
        Err(LineStop::Reason(CertReason::Q1))
    }
}

/// The line `tuple` behind its word.
fn tuple_of(alloc: Global, line: &[u8]) -> Result<Shown, LineStop>
    ensures { Says result (definition.tuple_of (words_of false line.now)) }
{
    match next_word(line, false) {
        None => Err(LineStop::Reason(CertReason::Q1)),
        Some((quantifier, rest)) => match next_word(rest, false) {
            None => Err(LineStop::Reason(CertReason::Q1)),
            Some(_) => tuple_by(alloc, quantifier, rest),
        },
    }
}

/// The line `cases` behind its word, which is out of place behind an instance.
fn first_cases(first: bool, wide: bool, line: &[u8]) -> Result<Shown, LineStop>
    ensures { Says result (definition.first_cases first wide (words_of false line.now)) }
{
    if first {
        cases_of(wide, line)
    } else {
        Err(LineStop::Reason(CertReason::Q1))
    }
}

/// What the words left say behind a first one.
fn shown_by(
    alloc: Global,
    first: bool,
    wide: bool,
    verb: &[u8],
    line: &[u8],
) -> Result<Shown, LineStop>
    ensures { Says result (definition.shown_by first wide verb.now (words_of false line.now)) }
{
    if verb == b"pair".as_slice() {
        pair_of(line)
    } else if verb == b"tuple".as_slice() {
        tuple_of(alloc, line)
    } else if verb == b"log".as_slice() {
        log_of(line)
    } else if verb == b"cases".as_slice() {
        first_cases(first, wide, line)
    } else {
        Err(LineStop::Reason(CertReason::Q1))
    }
}

/// What the words of a line say.
fn shown_of(alloc: Global, first: bool, wide: bool, line: &[u8]) -> Result<Shown, LineStop>
    ensures { Says result (definition.shown_of first wide (words_of false line.now)) }
{
    match next_word(line, false) {
        None => Err(LineStop::Reason(CertReason::Q1)),
        Some((verb, rest)) => shown_by(alloc, first, wide, verb, rest),
    }
}

/// What a line says in the proof of an obligation: `cases` where it is the first and the cases are not too wide, an instance, or the number
/// of rows of the log. `Q1` where it is not spelled or out of place, else `Q2` where a number is out of its range.
pub fn shown_at(alloc: Global, first: bool, wide: bool, line: &[u8]) -> Result<Shown, LineStop>
    ensures { Says result (definition.shown_at first wide line.now) }
{
    if is_spaced(line) {
        shown_of(alloc, first, wide, line)
    } else {
        Err(LineStop::Reason(CertReason::Q1))
    }
}
