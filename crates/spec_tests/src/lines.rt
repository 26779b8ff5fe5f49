//! The logical lines of a text. Each has its number, `>` where it is indented, and its tokens: a word behind a quote, another behind a
//! blank; a semicolon ends it.

ghost use Rattle.std.specs.Prelude.{◌<◌, ◌^◌, length};

use spec_lex::{LogicalLine, Token, TokenKind, lines};
use std::alloc::{AllocError, Global};

fn add_token(told: &mut String, token: &Token<'_>) -> Result<(), AllocError> {
    let word = token.kind == TokenKind::Word;
    told.push(if word { '\'' } else { ' ' })?;
    for byte in token.text {
        told.push(char::from(*byte))?;
    }
    Ok(())
}

fn add_line(told: &mut String, line: &LogicalLine<'_>) -> Result<(), AllocError> {
    let number = line.line;
    write!(told, "{number}")?;
    if !line.blanks.is_empty() {
        told.push('>')?;
    }
    for token in line.tokens.as_slice() {
        add_token(told, token)?;
    }
    told.push(';')
}

fn all_told(alloc: Global, lines: &[LogicalLine<'_>]) -> Result<String, AllocError> {
    if lines.is_empty() {
        return String::from_str(alloc, "nothing");
    }
    let mut told = String::new(alloc);
    for line in lines {
        add_line(&mut told, line)?;
    }
    Ok(told)
}

/// The logical lines of a text, one behind another, or the line and the reason of its refusal.
pub(crate) fn lines_told(alloc: Global, text: &[u8]) -> Result<String, AllocError>
    requires { length text.now < 2 ^ 31 }
{
    match lines(alloc, text) {
        Ok(list) => all_told(alloc, list.as_slice()),
        Err(stop) => stop.to_string(alloc),
    }
}
