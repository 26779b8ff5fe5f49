//! A test as a program: what specification texts are read as, and which line of a text fails for which reason.
//!
//! Each line of standard input comes out again, with its answer behind it. Fields stand between tabs. In a field `\n`, `\t` and `\r` are
//! control characters, `\x` is a byte that begins no character, and `{NUMBER TEXT}` is the text so many times.
//!
//! - `# WORDS`: what the rows below show. It has no answer.
//! - `spec`, TEXT: whether the text is read, or the line and the reason of the refusal.
//! - `return`, EXPRESSION: the same of an invariant that returns the expression.
//! - `items`, TEXT: the line and the production of each logical line, with the value of a constant.
//! - `lines`, TEXT: the logical lines (`lines.rt`).
//! - `expression`, TEXT: the node, the depth and the number of tokens behind the expression at the front of the text.
//! - `word`, TEXT: whether the token is a name, and its number. `member`, TEXT: K of a step `fK`.
//!
//! A line of no such form comes out behind a question mark. What `stdout` expects was written by hand from the rules.
#![tactic(auto)]

mod expressions;
mod items;
mod lines;
mod texts;

ghost use Rattle.std.specs.Prelude.{◌<◌, ◌^◌, length};

use crate::expressions::{expression_told, member_told, word_told};
use crate::items::{items_told, spec_told};
use crate::lines::lines_told;
use crate::texts::text_of;
use std::alloc::{AllocError, Global};
use std::io;

/// What a call says of a text, and nothing where there is no such call.
fn told_of(alloc: Global, call: &str, text: &[u8]) -> Result<Option<String>, AllocError>
    requires { length text.now < 2 ^ 31 }
{
    let told = match call {
        "spec" => spec_told(alloc, text)?,
        "items" => items_told(alloc, text)?,
        "lines" => lines_told(alloc, text)?,
        "expression" => expression_told(alloc, text)?,
        "word" => word_told(alloc, text)?,
        "member" => member_told(alloc, text)?,
        _ => return Ok(None),
    };
    Ok(Some(told))
}

/// What a call says of a field between two texts, and nothing where there is no such call.
fn told_between(
    alloc: Global,
    call: &str,
    front: &str,
    field: &str,
    back: &str,
) -> Result<Option<String>, AllocError> {
    let text = text_of(alloc, front, field, back)?;
    if text.len() < 65536 {
        told_of(alloc, call, &text)
    } else {
        Ok(None)
    }
}

/// What a row of these two fields says, and nothing where there is no such row.
fn answer(alloc: Global, call: &str, field: &str) -> Result<Option<String>, AllocError> {
    if call == "return" {
        let front = "def inv_a(kernel):\\n    return ";
        return told_between(alloc, "spec", front, field, "\\n");
    }
    told_between(alloc, call, "", field, "")
}

/// A line with its answer.
fn answered(alloc: Global, line: &str) -> Result<String, AllocError> {
    if line.is_empty() || line.starts_with('#') {
        return String::from_str(alloc, line);
    }
    let Some((call, field)) = line.split_once('\t') else {
        return format!(in alloc; "? {line}");
    };
    match answer(alloc, call, field)? {
        Some(told) => format!(in alloc; "{line}\t{told}"),
        None => format!(in alloc; "? {line}"),
    }
}

fn main(rt: HostRuntime) -> io::Result<()> {
    for line in rt.lines(rt.alloc()) {
        let line = line?;
        let shown = answered(rt.alloc(), line.as_str())?;
        println!(rt; "{shown}")?;
    }
    Ok(())
}
