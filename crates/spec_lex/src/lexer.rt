//! The call that cuts a text into its logical lines.

ghost use Rattle.std.specs.Prelude.{◌≡◌, ◌<◌, ◌^◌, List, length, IfOk, IfErr};
ghost use Rattle.std.specs.List.{list_any};
ghost use Rattle.spec_lex.specs.Lines.{Line, AreLinesOf, line_of, lines_of};
ghost use Rattle.spec_lex.specs.Faults as faults;
ghost use Rattle.spec_lex.specs.Answers as answers;

use crate::line::{LogicalLine, LogicalLines};
use crate::reading::read_lines;
use crate::token::{Token, TokenKind};
use spec_ast::{SpecFault, SpecReason, SpecStop};
use std::alloc::Global;

/// Whether the token is a byte outside the others.
fn is_outside(token: &Token<'_>) -> bool
    ensures { result ≡ faults.is_outside_kind token.now.kind }
{
    match token.kind {
        TokenKind::Outside => true,
        TokenKind::Word | TokenKind::Mark => false,
    }
}

/// Whether one of the tokens is a byte outside the others.
fn has_outside(tokens: &[Token<'_>]) -> bool
    ensures { result ≡ list_any (λ t. faults.is_outside_kind t.kind) tokens.now }
{
    tokens.iter().any(|token| is_outside(token))
}

/// Whether a byte of the line belongs to no token.
#[tactic(auto, using(crate::proofs::Finding::any_of_tokens))]
fn is_s1(line: &LogicalLine<'_>) -> bool
    ensures { result ≡ faults.is_s1 (line_of line.now) }
{
    has_outside(line.tokens.as_slice())
}

/// Whether the indentation is another than none or four spaces.
fn is_s2(line: &LogicalLine<'_>) -> bool
    ensures { result ≡ faults.is_s2 (line_of line.now) }
{
    !(line.blanks == b"".as_slice() || line.blanks == b"    ".as_slice())
}

/// The least reason of a line.
fn reason_of(line: &LogicalLine<'_>) -> Option<SpecReason>
    ensures { result ≡ faults.reason_of (line_of line.now) }
{
    if is_s1(line) {
        Some(SpecReason::S1)
    } else if is_s2(line) {
        Some(SpecReason::S2)
    } else {
        None
    }
}

/// The fault of the first line that has one.
#[tactic(auto, using(crate::proofs::Finding::finding))]
fn first_fault(lines: &[LogicalLine<'_>]) -> Option<SpecFault>
    ensures { result ≡ faults.first_fault (lines_of lines.now) }
{
    for line in lines {
        match reason_of(line) {
            Some(reason) => {
                let line = line.line;
                return Some(SpecFault { line, reason });
            }
            None => {}
        }
    }
    None
}

/// The logical lines of a text, in its order. `Refused` names the first line with a byte outside the tokens (`S1`) or an indentation
/// other than none or four spaces (`S2`), with the least of its reasons, and comes exactly where there is one.
pub fn lines<'t>(alloc: Global, text: &'t [u8]) -> Result<LogicalLines<'t>, SpecStop>
    requires { length text.now < 2 ^ 31 }
    ensures read { IfOk result (AreLinesOf text.now) }
    ensures clean { IfOk result faults.AreClean }
    ensures only { (ls : List Line) → AreLinesOf text.now ls → faults.AreClean ls → answers.IsRead ls result }
    ensures fault { IfErr result (answers.IsFaultOf text.now) }
    ensures first { (ls : List Line) (fault : SpecFault) → AreLinesOf text.now ls → faults.IsFirstFault ls fault → answers.IsRefused fault result }
    ensures within { IfErr result (answers.IsLineOf text.now) }
{
    let found = read_lines(alloc, text)?;
    match first_fault(found.as_slice()) {
        None => Ok(found),
        Some(fault) => Err(SpecStop::Refused(fault)),
    }
}
