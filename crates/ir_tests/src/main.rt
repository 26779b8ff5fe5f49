//! A test as a program: what the layers of the kernel reader say of texts, from tokens to whole kernels.
//!
//! Each line of standard input comes out again. A row comes out with its answer behind it, or, if it is out of form, behind a question
//! mark. Fields stand between tabs. In a TEXT `\n`, `\t` and `\r` are control characters, and any other backslash is one of the text.
//!
//! - `# WORDS`: what the rows below show. It has no answer.
//! - `> LINE`: a line of a text, which ends with the next `#` and is the TEXT `above` of the rows behind it. It has no answer.
//! - `tokens`, TEXT: each token as the letter of its kind (word, number, quoted, local, global, metadata, attribute; `k` for a mark), its
//!   line and its bytes.
//! - `items`, TEXT: the line of each item, `+` where it is closed and `-` where it is not, and what remains of it. `lines`, TEXT: the same,
//!   each on a line of its own.
//! - `name`, TEXT: the name that a token with a sigil spells, `label`, TEXT: that of one without.
//! - `type`, TEXT, `operand`, TEXT, `bit`, TEXT, `typed`, TEXT: the type, the operand, the operand of one bit, or the type and the operand
//!   at the front of the text, and how many tokens are left behind each.
//! - `behind type` or `behind operand`, COUNT, FRONT, MIDDLE, BACK: how many are left behind it where so many of FRONT and of BACK stand
//!   round MIDDLE.
//! - `body`, TEXT: the items of a body, each as its tree says it (`operations.rt`), or why it is refused.
//! - `top`, TEXT: what an item outside of bodies is.
//! - `read`, TEXT: whether the text is a kernel, or the line and the reason of the refusal.
//! - `shape`, TEXT: what the kernel has, and the blocks of its first function with their lines and their numbers of instructions.
//!
//! What `stdout` expects was written by hand from the rules.
#![tactic(auto)]

mod bodies;
mod lexing;
mod modules;
mod operations;
mod parts;
mod row;
mod trees;

ghost use Rattle.std.specs.Prelude.{◌<◌, ◌^◌, length};

use crate::bodies::bodies_told;
use crate::lexing::of_lexer;
use crate::modules::{read_told, shape_told, top_told};
use crate::parts::of_parts;
use crate::row::{add_field, add_times, text_of};
use ir_lex::{Token, tokens};
use std::alloc::{AllocError, Global};
use std::io;

/// What a reader says of tokens, and nothing where there is no such call.
fn of_tokens<'t>(
    alloc: Global,
    call: &str,
    tokens: &'t [Token<'t>],
) -> Result<Option<String>, AllocError> {
    match call {
        "body" => Ok(Some(bodies_told(alloc, tokens)?)),
        "top" => Ok(Some(top_told(alloc, tokens)?)),
        _ => of_parts(alloc, call, tokens),
    }
}

/// What a reader says of the tokens of a text, or the line and the reason of its refusal.
fn of_items(alloc: Global, call: &str, text: &[u8]) -> Result<Option<String>, AllocError>
    requires { length text.now < 2 ^ 31 }
{
    match tokens(alloc, text) {
        Ok(list) => of_tokens(alloc, call, list.as_slice()),
        Err(stop) => Ok(Some(stop.to_string(alloc)?)),
    }
}

/// What a call says of a text, and nothing where there is no such call.
fn of_text(alloc: Global, call: &str, text: &[u8]) -> Result<Option<String>, AllocError>
    requires { length text.now < 2 ^ 31 }
{
    if let Some(told) = of_lexer(alloc, call, text)? {
        return Ok(Some(told));
    }
    match call {
        "read" => Ok(Some(read_told(alloc, text)?)),
        "shape" => Ok(Some(shape_told(alloc, text)?)),
        _ => of_items(alloc, call, text),
    }
}

/// So many of a field, another, and as many of a third.
fn nested(alloc: Global, count: u32, parts: [&str; 3]) -> Result<Vec<u8>, AllocError> {
    let [front, middle, back] = parts;
    let mut text = Vec::new(alloc);
    add_times(&mut text, count, front)?;
    add_field(&mut text, middle)?;
    add_times(&mut text, count, back)?;
    Ok(text)
}

/// What a row of these fields says, and nothing where there is no such row.
fn answer(alloc: Global, above: &[u8], fields: &[&str]) -> Result<Option<String>, AllocError> {
    let (call, text) = match fields {
        [call, field] => (call, text_of(alloc, above, field)?),
        [call, count, front, middle, back] => {
            let count = count.parse::<u32>().unwrap_or(0);
            (call, nested(alloc, count, [front, middle, back])?)
        }
        _ => return Ok(None),
    };
    if text.len() < 65536 {
        of_text(alloc, call, &text)
    } else {
        Ok(None)
    }
}

/// What is printed of a row.
fn told(alloc: Global, above: &[u8], row: &str) -> Result<String, AllocError> {
    let fields: Vec<&str> = row.split('\t').collect(alloc)?;
    match answer(alloc, above, &fields)? {
        Some(answer) => format!(in alloc; "{row}\t{answer}"),
        None => format!(in alloc; "? {row}"),
    }
}

/// What is printed of a line. A heading takes the text of lines away, and a line of a text adds to it.
fn shown(alloc: Global, above: &mut Vec<u8>, line: &str) -> Result<String, AllocError> {
    if let Some(rest) = line.strip_prefix('>') {
        above.extend_from_slice(rest.strip_prefix(' ').unwrap_or(rest).as_bytes())?;
        above.push(b'\n')?;
        return String::from_str(alloc, line);
    }
    if line.is_empty() || line.starts_with('#') {
        above.clear();
        return String::from_str(alloc, line);
    }
    told(alloc, above, line)
}

fn main(rt: HostRuntime) -> io::Result<()> {
    let mut above = Vec::new(rt.alloc());
    for line in rt.lines(rt.alloc()) {
        let line = line?;
        let shown = shown(rt.alloc(), &mut above, line.as_str())?;
        println!(rt; "{shown}")?;
    }
    Ok(())
}
