//! Reads clause files in DIMACS CNF.

ghost use Rattle.std.specs.Prelude.{◌≡◌, ◌<◌, ◌≤◌, ◌+◌, ◌-◌, ◌^◌, ◌++◌, ◌∷◌, true, [], length, nat_abs, Ok, Err, OnOk, IfErr, IfSome};
ghost use Rattle.std.specs.List.{list_all};
ghost use Rattle.hk_cnf.specs.Text.{lines_of, words_of, is_numeral};
ghost use Rattle.hk_cnf.specs.Dimacs.{is_comment, is_skipped, is_number, header_of, with_number, with_words, with_line, finished, from_body, at_header, dimacs_of, Reads, StopsWith, stop_at};
ghost use Rattle.hk_cnf.specs.Literal.{IsWithin};
ghost use Rattle.hk_cnf.specs.declared.dimacs_read.LineStop.TheVariants.{Memory as LineMemory};

use crate::clauses::ClauseList;
use crate::literal::Lit;
use crate::text::{natural, next_word, number, split_line, unsigned};
use std::alloc::{AllocError, AllocFailed, Global};
use std::marker::Model;
use thiserror::Error;

/// Why a line of a clause file is refused.
#[derive(Clone, Copy, PartialEq, Eq, Debug)]
pub enum CnfReason {
    /// No spelled header before the first clause, or a token that is no number.
    C1,
    /// A literal outside the variables.
    C2,
    /// At the last line: an unfinished clause, or another count of clauses than the header's.
    C3,
}

/// A line of a clause file, counted from 1, and the first reason against it.
#[derive(Clone, Copy, PartialEq, Eq, Debug)]
pub struct CnfFault {
    pub line: u32,
    pub reason: CnfReason,
}

/// Why a clause file was refused, or that memory was wanting.
#[derive(Debug, Drop, Error)]
pub enum CnfStop {
    /// The first line that fails.
    #[error("line {}: {:?}", .0.line, .0.reason)]
    Refused(CnfFault),
    /// Want of memory.
    #[error("want of memory")]
    Memory,
}

/// Why a line was not read.
enum LineStop {
    Reason(CnfReason),
    Memory,
}

/// A clause list while it is read: the clauses so far, and the literals of the one that is not ended.
#[derive(Drop)]
struct Reading {
    list: ClauseList,
    begun: Vec<Lit>,
}

impl Model for Reading {
    ghost use Rattle.hk_cnf.specs.Partial.{Partial};

    ghost Value = { Partial };

    ghost use Rattle.hk_cnf.specs.PartialView.{view_of, IsReading};

    ghost view = { view_of };

    ghost invariant = { IsReading };
}

/// Whether the line is a comment or has no word.
fn is_skipped(line: &[u8]) -> bool
    ensures { result ≡ is_skipped line.now }
{
    match line {
        [b'c', ..] => true,
        _ => next_word(line, true).is_none(),
    }
}

/// Whether each byte of the word is a digit, and there is one.
fn is_numeral(word: &[u8]) -> bool
    ensures { result ≡ is_numeral word.now }
{
    for byte in word {
        if !byte.is_ascii_digit() {
            return false;
        }
    }
    !word.is_empty()
}

/// Whether each word of the line is a number.
fn are_numbers(line: &[u8]) -> bool
    ensures { result ≡ list_all is_number (words_of true line.now) }
{
    let mut rest = line;
    while let Some((word, after)) = next_word(rest, true) {
        if !is_numeral(unsigned(word)) {
            return false;
        }
        rest = after;
    }
    true
}

/// The numbers of a line `p cnf V C` from its words.
fn header_of(p: &[u8], cnf: &[u8], vars: &[u8], clauses: &[u8]) -> Option<(u64, u64)>
    ensures value { result ≡ header_of (p.now ∷ cnf.now ∷ vars.now ∷ clauses.now ∷ []) }
    ensures few { IfSome result (λ h. h.0 < 2 ^ 63) }
{
    if p != b"p".as_slice() || cnf != b"cnf".as_slice() {
        return None;
    }
    Some((natural(vars, i64::MAX as u64)?, natural(clauses, u64::MAX)?))
}

/// The numbers of a line `p cnf V C`.
fn header(line: &[u8]) -> Option<(u64, u64)>
    ensures value { result ≡ header_of (words_of true line.now) }
    ensures few { IfSome result (λ h. h.0 < 2 ^ 63) }
{
    let (p, line) = next_word(line, true)?;
    let (cnf, line) = next_word(line, true)?;
    let (vars, line) = next_word(line, true)?;
    let (clauses, line) = next_word(line, true)?;
    match next_word(line, true) {
        Some(_) => None,
        None => header_of(p, cnf, vars, clauses),
    }
}

impl From<AllocError> for LineStop {
    ghost from_gives = { λ _ stop. stop ≡ LineMemory };

    fn from(_error: AllocError) -> LineStop {
        LineStop::Memory
    }
}

impl Reading {
    /// No clause over this many variables.
    fn new(alloc: Global, vars: u64) -> Reading
        requires { vars < 2 ^ 63 }
        ensures { result ≡ record { vars = vars; clauses = []; begun = [] } }
    {
        Reading {
            list: ClauseList::new(alloc, vars),
            begun: Vec::new(alloc),
        }
    }

    /// The number of variables.
    fn vars(&self) -> u64
        ensures value { result ≡ self.now.vars }
        ensures few { result < 2 ^ 63 }
    {
        self.list.vars()
    }

    /// Ends the clause.
    fn end_clause(&mut self) -> Result<(), AllocError>
        ensures { OnOk result (self.new ≡ record self.old { clauses = self.old.clauses ++ self.old.begun ∷ []; begun = [] }) }
    {
        self.list.push(self.begun.as_slice())?;
        self.begun.clear();
        Ok(())
    }

    /// A literal more.
    fn add_literal(&mut self, lit: Lit) -> Result<(), AllocError>
        requires { IsWithin self.old.vars lit }
        ensures { OnOk result (self.new ≡ record self.old { begun = self.old.begun ++ lit ∷ [] }) }
    {
        self.begun.push(lit)?;
        Ok(())
    }

    /// A number more: 0 ends the clause.
    fn add(&mut self, number: i64) -> Result<(), AllocError>
        requires small { nat_abs number ≤ self.old.vars }
        requires few { self.old.vars < 2 ^ 63 }
        ensures { OnOk result (self.new ≡ with_number self.old number) }
    {
        if number == 0 {
            self.end_clause()
        } else {
            self.add_literal(Lit::new(number))
        }
    }

    /// The numbers of a line.
    fn add_words(&mut self, line: &[u8]) -> Result<(), LineStop>
        ensures ok { OnOk result (with_words self.old (words_of true line.now) ≡ Ok self.new) }
        ensures err { IfErr result (λ stop. StopsWith stop (with_words self.old (words_of true line.now))) }
    {
        let vars = self.vars();
        let mut rest = line;
        while let Some((word, after)) = next_word(rest, true) {
            let Some(number) = number(word, vars) else {
                return Err(LineStop::Reason(CnfReason::C2));
            };
            self.add(number)?;
            rest = after;
        }
        Ok(())
    }

    /// A line.
    fn add_line(&mut self, line: &[u8]) -> Result<(), LineStop>
        ensures ok { OnOk result (with_line self.old line.now ≡ Ok self.new) }
        ensures err { IfErr result (λ stop. StopsWith stop (with_line self.old line.now)) }
    {
        if is_skipped(line) {
            return Ok(());
        }
        if !are_numbers(line) {
            return Err(LineStop::Reason(CnfReason::C1));
        }
        self.add_words(line)
    }

    /// The list, at the end of a text with this last line.
    fn finish(self, clauses: u64, line: u32) -> Result<ClauseList, CnfStop>
        ensures { Reads result (finished line clauses self) }
    {
        let Reading { list, begun } = self;
        if begun.is_empty() && list.len() as u64 == clauses {
            Ok(list)
        } else {
            Err(refused(line, CnfReason::C3))
        }
    }
}

/// The refusal of a line.
fn refused(line: u32, reason: CnfReason) -> CnfStop
    ensures { result ≡ CnfStop.Refused (record { line = line; reason = reason }) }
{
    CnfStop::Refused(CnfFault { line, reason })
}

/// The stop at a line.
fn stop_at(line: u32, stop: LineStop) -> CnfStop
    ensures { result ≡ stop_at line stop }
{
    match stop {
        LineStop::Reason(reason) => refused(line, reason),
        LineStop::Memory => CnfStop::Memory,
    }
}

/// Reads the lines after the header.
fn read_body(
    alloc: Global,
    vars: u64,
    clauses: u64,
    before: u32,
    text: &[u8],
) -> Result<ClauseList, CnfStop>
    requires few { vars < 2 ^ 63 }
    requires short { before + length text.now < 2 ^ 31 }
    ensures { Reads result (from_body before clauses (record { vars = vars; clauses = []; begun = [] }) (lines_of text.now)) }
{
    let mut reading = Reading::new(alloc, vars);
    let mut rest = text;
    let mut line = before;
    while !rest.is_empty() {
        let (first, after) = split_line(rest);
        line += 1;
        if let Err(stop) = reading.add_line(first) {
            return Err(stop_at(line, stop));
        }
        rest = after;
    }
    reading.finish(clauses, line)
}

/// Reads a header and the lines after it.
fn read_header(
    alloc: Global,
    header_line: &[u8],
    line: u32,
    text: &[u8],
) -> Result<ClauseList, CnfStop>
    requires { line + length text.now < 2 ^ 31 }
    ensures { Reads result (at_header line (header_of (words_of true header_line.now)) (λ h. from_body line h.1 (record { vars = h.0; clauses = []; begun = [] }) (lines_of text.now))) }
{
    match header(header_line) {
        Some((vars, clauses)) => read_body(alloc, vars, clauses, line, text),
        None => Err(refused(line, CnfReason::C1)),
    }
}

/// The clause list that a text in DIMACS CNF spells, or the first line that fails with its reason.
///
/// Lines that begin with `c` are comments. The header `p cnf V C` stands before the first clause; a clause is numbers
/// up to a 0 and may go over several lines. Spaces, tabs and carriage returns separate.
pub fn read_dimacs(alloc: Global, text: &[u8]) -> Result<ClauseList, CnfStop>
    requires { length text.now < 2 ^ 31 }
    ensures { Reads result (dimacs_of text.now) }
{
    let mut rest = text;
    let mut line = 0;
    while !rest.is_empty() {
        let (first, after) = split_line(rest);
        line += 1;
        if !is_skipped(first) {
            return read_header(alloc, first, line, after);
        }
        rest = after;
    }
    Err(refused(line.max(1), CnfReason::C1))
}
