//! The call that reads a whole text.

ghost use Rattle.std.specs.Prelude.{◌≡◌, ◌+◌, ◌<◌, ◌^◌, ◌∷◌, List, length, IfErr};
ghost use Rattle.spec_ast.specs.Raw as raw;
ghost use Rattle.spec_ast.specs.View.{view_lines, view_spec};
ghost use Rattle.spec_ast.specs.declared.fault.SpecFault.{SpecFault};
ghost use Rattle.spec_lex.specs.Lines.{line_of, lines_of};
ghost use Rattle.spec_lex.specs.Answers.{IsLineOf};
ghost use Rattle.spec_read.specs.declared.section.Section.TheVariants.{Nowhere};
ghost use Rattle.spec_read.specs.LineReading as definition;
ghost use Rattle.spec_read.specs.LineReading.{Tells, GoesOn};
ghost use Rattle.spec_read.specs.Laws.{IsSpecOf, FailsText};
ghost use Rattle.spec_read.specs.Told as told;

use crate::line::{line_at, next_section, section_at};
use crate::section::Section;
use spec_ast::{RawLine, RawSpec, SpecStop};
use spec_lex::{LogicalLine, lines};
use std::alloc::Global;

/// Puts the line behind those found, and says in which section the lines behind it stand.
fn put_line(
    alloc: Global,
    section: Section,
    line: &LogicalLine<'_>,
    after: &[LogicalLine<'_>],
    found: &mut Vec<RawLine>,
) -> Result<Section, SpecStop>
    ensures { GoesOn (view_lines found.old.items) (view_lines found.new.items) section (line_of line.now ∷ lines_of after.now) (lines_of after.now) result }
{
    let item = line_at(alloc, section, line, after)?;
    let next = next_section(section_at(section, line), &item);
    let line = line.line;
    found.push(RawLine { line, item })?;
    Ok(next)
}

/// The raw lines of these logical lines.
fn read_lines(alloc: Global, lines: &[LogicalLine<'_>]) -> Result<Vec<RawLine>, SpecStop>
    ensures { Tells (λ v. view_lines v.items) result (definition.lines_read Nowhere (lines_of lines.now)) }
{
    let mut found = Vec::new(alloc);
    let mut section = Section::Nowhere;
    for index in 0..lines.len() {
        let after = lines.split_at(index + 1).1;
        section = put_line(alloc, section, &lines[index], after, &mut found)?;
    }
    Ok(found)
}

/// The raw specification of a text.
fn spec_of(alloc: Global, text: &[u8]) -> Result<RawSpec, SpecStop>
    requires { length text.now < 2 ^ 31 }
    ensures answer { told.IsAnswer text.now result }
    ensures only { (raws : List raw.Line) → IsSpecOf text.now raws → told.IsRead raws result }
    ensures first { (fault : SpecFault) → FailsText text.now fault → told.IsRefused fault result }
    ensures one { (a b : List raw.Line) → IsSpecOf text.now a → IsSpecOf text.now b → a ≡ b }
    ensures within { IfErr result (IsLineOf text.now) }
{
    let found = lines(alloc, text)?;
    let lines = read_lines(alloc, found.as_slice())?;
    Ok(RawSpec { lines })
}

/// The raw specification of a text. `Refused` names the first line that fails and its least reason: of the whole text a byte outside the
/// tokens (`S1`) or an indentation other than none or four spaces (`S2`); where there is none, a line of no production or out of place
/// (`S3`), or an expression deeper than 100 (`S4`). It comes exactly where there is one. The time is linear in the text.
pub fn read_spec(alloc: Global, text: &[u8]) -> Result<RawSpec, SpecStop>
    requires { length text.now < 2 ^ 31 }
    ensures answer { told.IsAnswer text.now result }
    ensures only { (raws : List raw.Line) → IsSpecOf text.now raws → told.IsRead raws result }
    ensures first { (fault : SpecFault) → FailsText text.now fault → told.IsRefused fault result }
    ensures one { (a b : List raw.Line) → IsSpecOf text.now a → IsSpecOf text.now b → a ≡ b }
    ensures within { IfErr result (IsLineOf text.now) }
{
    spec_of(alloc, text)
}
