//! Reads logs in LRAT, a row a line.

ghost use Rattle.std.specs.Prelude.{◌≡◌, ◌<◌, ◌≤◌, ◌+◌, ◌^◌, ◌∷◌, length, map, nat_abs, ℕ, List, false, Some, Ok, Err, IfOk, IfErr};
ghost use Rattle.std.specs.List.{list_any};
ghost use Rattle.hk_cnf.specs.Literal.{has, is_negation};
ghost use Rattle.hk_cnf.specs.Text.{lines_of, words_of};
ghost use Rattle.hk_cnf.specs.Dimacs.{is_nil};
ghost use Rattle.hk_lrat.specs.Log.{has_both};
ghost use Rattle.hk_lrat.specs.LogText.{is_skipped, is_end, is_deletion, id_of, hint_in, literal_in, part, after_items, deletion_of, hints_of, addition_of, row_of, rows_from, log_of, Reads, StopsWith, IsPart, stop_at};
ghost use Rattle.hk_lrat.specs.Tokens.{after_hints, hint_parts, number_of};
ghost use Rattle.hk_lrat.specs.declared.log_read.RowStop.TheVariants.{Memory as RowMemory};

use crate::log::{IdList, LitList, LratLog, LratRow, RefuteStop, RowReason};
use crate::token::{Token, literal, next_token, split_line};
use hk_cnf::Lit;
use hk_cnf::text::next_word;
use std::alloc::{AllocError, AllocFailed, Global};
use std::collections::HashSet;

/// The most literals that a clause has for it to be looked through without a table.
const FEW: usize = 16;

/// Why a line was not read.
enum RowStop {
    Reason(RowReason),
    Memory,
}

impl From<AllocError> for RowStop {
    ghost from_gives = { λ _ stop. stop ≡ RowMemory };

    fn from(_error: AllocError) -> RowStop {
        RowStop::Memory
    }
}

impl<T: Drop> From<AllocFailed<T>> for RowStop {
    ghost from_gives = { λ _ stop. stop ≡ RowMemory };

    fn from(_failed: AllocFailed<T>) -> RowStop {
        RowStop::Memory
    }
}

/// Whether the line is a comment or has no word.
fn is_skipped(line: &[u8]) -> bool
    ensures { result ≡ is_skipped line.now }
{
    match line {
        [b'c', ..] => true,
        _ => next_word(line, false).is_none(),
    }
}

/// Whether the word tells a deletion.
fn is_deletion(word: &[u8]) -> bool
    ensures { result ≡ is_deletion word.now }
{
    word == b"d".as_slice()
}

/// Reads literals up to the token `0`, and gives what follows it.
fn literals<'t>(line: &'t [u8], clause: &mut Vec<Lit>) -> Result<&'t [u8], RowStop>
    ensures ok { IfOk result (λ rest. after_items clause.old.items (part literal_in (words_of false line.now)) ≡ Some (clause.new.items, words_of false rest.now)) }
    ensures err { IfErr result (λ stop. IsPart stop (part literal_in (words_of false line.now))) }
{
    let mut rest = line;
    while let Some((token, after)) = next_token(rest) {
        if token.is_end() {
            return Ok(after);
        }
        let Some(lit) = literal(token) else {
            return Err(RowStop::Reason(RowReason::L1));
        };
        clause.push(lit)?;
        rest = after;
    }
    Err(RowStop::Reason(RowReason::L1))
}

/// Reads ids up to the token `0`, and gives what follows it.
fn ids<'t>(line: &'t [u8], ids: &mut Vec<u64>) -> Result<&'t [u8], RowStop>
    ensures ok { IfOk result (λ rest. after_items ids.old.items (part id_of (words_of false line.now)) ≡ Some (ids.new.items, words_of false rest.now)) }
    ensures err { IfErr result (λ stop. IsPart stop (part id_of (words_of false line.now))) }
{
    let mut rest = line;
    while let Some((token, after)) = next_token(rest) {
        if token.is_end() {
            return Ok(after);
        }
        let Some(id) = token.id() else {
            return Err(RowStop::Reason(RowReason::L1));
        };
        ids.push(id)?;
        rest = after;
    }
    Err(RowStop::Reason(RowReason::L1))
}

/// Whether the literal is one of these.
fn is_among(lits: &[Lit], lit: Lit) -> bool
    ensures { result ≡ has lits.now lit }
{
    lits.iter().any(|other| lit == *other)
}

/// Whether the clause has a literal together with its negation, by looking through it for each of its literals.
fn has_both_among(clause: &[Lit]) -> bool
    ensures { result ≡ has_both clause.now }
{
    for i in 0..clause.len() {
        if is_among(&clause[i + 1..], clause[i].negated()) {
            return true;
        }
    }
    false
}

/// Whether the clause has a literal together with its negation, by a table of its literals.
fn has_both_by_table(alloc: Global, clause: &[Lit]) -> Result<bool, AllocError>
    ensures { IfOk result (λ both. both ≡ has_both clause.now) }
{
    let mut seen: HashSet<i64> = HashSet::new(alloc);
    for lit in clause {
        if seen.contains(&lit.negated().number()) {
            return Ok(true);
        }
        seen.insert(lit.number())?;
    }
    Ok(false)
}

/// Whether the clause has a literal together with its negation.
fn has_both(alloc: Global, clause: &[Lit]) -> Result<bool, AllocError>
    ensures { IfOk result (λ both. both ≡ has_both clause.now) }
{
    if clause.len() <= FEW {
        return Ok(has_both_among(clause));
    }
    has_both_by_table(alloc, clause)
}

/// A hint without its sign, and whether it is negative.
fn hint(token: Token) -> Option<(u64, bool)>
    ensures { result ≡ hint_parts (number_of token) }
{
    match token {
        Token::End => Some((0, false)),
        Token::Natural(size) => Some((size, false)),
        Token::Minus(size) => Some((size, size > 0)),
        Token::Other => None,
    }
}

/// Reads hints up to the token `0`, and gives what follows it, and whether a hint is negative.
// Nearly all words of a proof are hints: inlined into the walk over the lines, this loop would lose its registers.
#[inline(never)]
fn hints<'t>(line: &'t [u8], ids: &mut Vec<u64>) -> Result<(&'t [u8], bool), RowStop>
    ensures ok { IfOk result (λ found. after_hints ids.old.items false (part hint_in (words_of false line.now)) ≡ Some (ids.new.items, (found.1, words_of false found.0.now))) }
    ensures err { IfErr result (λ stop. IsPart stop (part hint_in (words_of false line.now))) }
{
    let mut negative = false;
    let mut rest = line;
    while let Some((token, after)) = next_token(rest) {
        if token.is_end() {
            return Ok((after, negative));
        }
        let Some((id, below)) = hint(token) else {
            return Err(RowStop::Reason(RowReason::L1));
        };
        ids.push(id)?;
        negative = negative || below;
        rest = after;
    }
    Err(RowStop::Reason(RowReason::L1))
}

/// Whether no word is left.
fn is_done(line: &[u8]) -> bool
    ensures { result ≡ is_nil (words_of false line.now) }
{
    next_word(line, false).is_none()
}

/// Lists that are filled for one row after another.
#[derive(Drop)]
struct Scratch {
    clause: Vec<Lit>,
    ids: Vec<u64>,
}

/// Reads a deletion behind its `d`.
fn deletion(alloc: Global, scratch: &mut Scratch, line: &[u8]) -> Result<LratRow, RowStop>
    ensures ok { IfOk result (λ row. deletion_of (part id_of (words_of false line.now)) ≡ Ok row) }
    ensures err { IfErr result (λ stop. StopsWith stop (deletion_of (part id_of (words_of false line.now)))) }
{
    scratch.ids.clear();
    let rest = ids(line, &mut scratch.ids)?;
    if !is_done(rest) {
        return Err(RowStop::Reason(RowReason::L1));
    }
    let ids = IdList::from_slice(alloc, &scratch.ids)?;
    Ok(LratRow::Delete { ids })
}

/// Reads the hints of an addition and what is asked of its clause.
fn addition_hints(
    alloc: Global,
    id: u64,
    clause: &[Lit],
    ids: &mut Vec<u64>,
    line: &[u8],
) -> Result<LratRow, RowStop>
    ensures ok { IfOk result (λ row. hints_of id clause.now (part hint_in (words_of false line.now)) ≡ Ok row) }
    ensures err { IfErr result (λ stop. StopsWith stop (hints_of id clause.now (part hint_in (words_of false line.now)))) }
{
    ids.clear();
    let (rest, negative) = hints(line, ids)?;
    if !is_done(rest) {
        return Err(RowStop::Reason(RowReason::L1));
    }
    if has_both(alloc, clause)? {
        return Err(RowStop::Reason(RowReason::L1));
    }
    if negative {
        return Err(RowStop::Reason(RowReason::L6));
    }
    let clause = LitList::from_slice(alloc, clause)?;
    let hints = IdList::from_slice(alloc, ids)?;
    Ok(LratRow::Add { id, clause, hints })
}

/// Reads an addition behind its id.
fn addition(alloc: Global, scratch: &mut Scratch, id: u64, line: &[u8]) -> Result<LratRow, RowStop>
    ensures ok { IfOk result (λ row. addition_of id (part literal_in (words_of false line.now)) ≡ Ok row) }
    ensures err { IfErr result (λ stop. StopsWith stop (addition_of id (part literal_in (words_of false line.now)))) }
{
    scratch.clause.clear();
    let rest = literals(line, &mut scratch.clause)?;
    addition_hints(alloc, id, scratch.clause.as_slice(), &mut scratch.ids, rest)
}

/// Reads a row.
fn row(alloc: Global, scratch: &mut Scratch, line: &[u8]) -> Result<LratRow, RowStop>
    ensures ok { IfOk result (λ row. row_of (words_of false line.now) ≡ Ok row) }
    ensures err { IfErr result (λ stop. StopsWith stop (row_of (words_of false line.now))) }
{
    let Some((token, rest)) = next_token(line) else {
        return Err(RowStop::Reason(RowReason::L1));
    };
    let Some(id) = token.id() else {
        return Err(RowStop::Reason(RowReason::L1));
    };
    match next_word(rest, false) {
        Some((first, after)) => {
            if is_deletion(first) {
                deletion(alloc, scratch, after)
            } else {
                addition(alloc, scratch, id, rest)
            }
        }
        None => Err(RowStop::Reason(RowReason::L1)),
    }
}

/// The stop at a row.
fn stop_at(row: u64, stop: RowStop) -> RefuteStop
    ensures { result ≡ stop_at row stop }
{
    match stop {
        RowStop::Reason(reason) => RefuteStop::Row { row, reason },
        RowStop::Memory => RefuteStop::Memory,
    }
}

/// Adds the row of a line that is not skipped, after so many rows, and gives the number of rows.
fn add_line(
    alloc: Global,
    scratch: &mut Scratch,
    log: &mut LratLog,
    rows: u64,
    line: &[u8],
) -> Result<u64, RefuteStop>
    requires { rows + 1 < 2 ^ 64 }
    ensures ok { IfOk result (λ n. (lines : List (List ℕ)) → rows_from rows log.old (line.now ∷ lines) ≡ rows_from n log.new lines) }
    ensures few { IfOk result (λ n. n ≤ rows + 1) }
    ensures err { IfErr result (λ stop. (lines : List (List ℕ)) → Reads (Err stop) (rows_from rows log.old (line.now ∷ lines))) }
{
    if is_skipped(line) {
        return Ok(rows);
    }
    match row(alloc, scratch, line) {
        Ok(row) => {
            log.push(row)?;
            Ok(rows + 1)
        }
        Err(stop) => Err(stop_at(rows + 1, stop)),
    }
}

/// The log that a text in LRAT spells, or the first row that fails: `L1` where it is not spelled or its clause holds a
/// literal and its negation, else `L6` where a hint is negative.
///
/// A row is a line `ID l .. 0 h .. 0` for an addition or `ID d i .. 0` for a deletion. Spaces and tabs separate. Lines of
/// blanks and lines that begin with `c` are no rows. Rows are counted from 1.
pub fn read_log(alloc: Global, text: &[u8]) -> Result<LratLog, RefuteStop>
    requires { length text.now < 2 ^ 31 }
    ensures { Reads result (log_of text.now) }
{
    let mut log = LratLog::new(alloc);
    let mut scratch = Scratch {
        clause: Vec::new(alloc),
        ids: Vec::new(alloc),
    };
    let mut rest = text;
    let mut rows = 0;
    while !rest.is_empty() {
        let (line, after) = split_line(rest);
        rows = add_line(alloc, &mut scratch, &mut log, rows, line)?;
        rest = after;
    }
    Ok(log)
}
