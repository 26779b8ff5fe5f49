//! Logical lines.

ghost use Rattle.std.specs.Prelude.{◌≡◌, ◌++◌, ◌∷◌, [], OnOk};
ghost use Rattle.spec_lex.specs.Lines.{line_of, lines_of};
ghost use Rattle.spec_lex.specs.Reading.{nothing};

use crate::token::TokenList;
use std::alloc::{AllocError, Global};
use std::marker::Model;

/// A logical line: physical lines that are joined while a bracket is open.
#[derive(Drop)]
pub struct LogicalLine<'t> {
    /// The number of its first physical line, counted from 1.
    pub line: u32,
    /// Its indentation: the blanks before its first token.
    pub blanks: &'t [u8],
    /// Its tokens, of which there is one at least.
    pub tokens: TokenList<'t>,
}

impl<'t> LogicalLine<'t> {
    /// A line of no tokens.
    pub fn nothing(alloc: Global) -> LogicalLine<'t>
        ensures { line_of result ≡ nothing }
    {
        LogicalLine {
            line: 0,
            blanks: &[],
            tokens: TokenList::new(alloc),
        }
    }
}

/// The logical lines of a text, in its order.
#[derive(Drop)]
pub struct LogicalLines<'t> {
    items: Vec<LogicalLine<'t>>,
}

impl<'t> Model for LogicalLines<'t> {
    ghost use Rattle.std.specs.Prelude.{List};
    ghost use Rattle.spec_lex.specs.Lines.{Line, lines_of};

    ghost Value = { List Line };

    ghost view = { λ l. lines_of l.items.items };
}

impl<'t> LogicalLines<'t> {
    /// A list of no lines.
    pub fn new(alloc: Global) -> LogicalLines<'t>
        ensures { result ≡ [] }
    {
        let items = Vec::new(alloc);
        LogicalLines { items }
    }

    /// Puts a line at the end.
    pub fn push(&mut self, line: LogicalLine<'t>) -> Result<(), AllocError>
        ensures { OnOk result (self.new ≡ self.old ++ line_of line.entry ∷ []) }
    {
        self.items.push(line)?;
        Ok(())
    }

    /// The lines as a slice.
    pub fn as_slice(&self) -> &[LogicalLine<'t>]
        ensures { lines_of result.now ≡ self.now }
    {
        self.items.as_slice()
    }
}
