//! Physical lines joined to logical lines, one after the other.

ghost use Rattle.std.specs.Prelude.{◌≡◌, ◌+◌, ◌<◌, ◌≤◌, ◌^◌, ◌++◌, length, IfOk, OnOk};
ghost use Rattle.spec_lex.specs.Token.{open_after};
ghost use Rattle.spec_lex.specs.Lines.{line_of};
ghost use Rattle.spec_lex.specs.Reading.{read_lines, row_step, state_of, goes_on, row_tokens, whole};

use crate::line::{LogicalLine, LogicalLines};
use crate::row::{first_row, leading_blanks, put_tokens};
use std::alloc::{AllocError, Global};
use std::mem;

/// The logical lines that are read, the one that is being read, and how many brackets are open in it.
#[derive(Drop)]
pub struct Reading<'t> {
    pub found: LogicalLines<'t>,
    pub current: LogicalLine<'t>,
    pub nest: usize,
}

/// Puts the line behind those found, if it has a token.
fn put_whole<'t>(line: LogicalLine<'t>, found: &mut LogicalLines<'t>) -> Result<(), AllocError>
    ensures { OnOk result (found.new ≡ found.old ++ whole (line_of line.entry)) }
{
    if line.tokens.is_empty() {
        return Ok(());
    }
    found.push(line)
}

impl<'t> Reading<'t> {
    /// Puts the tokens of a physical line behind those of the line that is being read.
    fn go_on(&mut self, number: u32, row: &'t [u8]) -> Result<(), AllocError>
        requires short { length row.now < 2 ^ 31 }
        requires few { self.old.nest < 2 ^ 31 }
        ensures found { self.new.found ≡ self.old.found }
        ensures current { OnOk result (line_of self.new.current ≡ goes_on (line_of self.old.current) number row.now) }
        ensures nest { OnOk result (self.new.nest ≡ open_after self.old.nest (row_tokens row.now)) }
        ensures within { OnOk result (self.new.nest ≤ self.old.nest + length row.now) }
    {
        if self.current.tokens.is_empty() {
            self.current.line = number;
            self.current.blanks = leading_blanks(row);
        }
        self.nest = put_tokens(row, self.nest, &mut self.current.tokens)?;
        Ok(())
    }

    /// Goes on with a physical line of this number.
    fn put_row(&mut self, alloc: Global, number: u32, row: &'t [u8]) -> Result<(), AllocError>
        requires short { length row.now < 2 ^ 31 }
        requires few { self.old.nest < 2 ^ 31 }
        ensures step { OnOk result (state_of self.new ≡ row_step (state_of self.old) number row.now) }
        ensures within { OnOk result (self.new.nest ≤ self.old.nest + length row.now) }
    {
        self.go_on(number, row)?;
        if self.nest == 0 {
            let line = mem::replace(&mut self.current, LogicalLine::nothing(alloc));
            put_whole(line, &mut self.found)?;
        }
        Ok(())
    }
}

/// The logical lines of a text, also of one that fails.
#[tactic(auto, using(crate::proofs::Rows::line_reading))]
pub fn read_lines<'t>(alloc: Global, text: &'t [u8]) -> Result<LogicalLines<'t>, AllocError>
    requires { length text.now < 2 ^ 31 }
    ensures { IfOk result (λ lines. lines ≡ read_lines text.now) }
{
    let mut reading = Reading {
        found: LogicalLines::new(alloc),
        current: LogicalLine::nothing(alloc),
        nest: 0,
    };
    let mut number: u32 = 1;
    let mut rest = Some(text);
    while let Some(left) = rest {
        let (row, after) = first_row(left);
        reading.put_row(alloc, number, row)?;
        number += 1;
        rest = after;
    }
    put_whole(reading.current, &mut reading.found)?;
    Ok(reading.found)
}
