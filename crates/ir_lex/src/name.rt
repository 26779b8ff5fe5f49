//! The names that tokens spell.

ghost use Rattle.std.specs.Prelude.{◌≡◌, ◌<◌, ◌≤◌, IfOk, IfSome, length, take, drop};
ghost use Rattle.ir_lex.specs.Names as definition;

use crate::bytes::begins_with;
use ir_ast::Name;
use std::alloc::{AllocError, Global};

/// The name that a word, digits or a string spells.
pub fn plain_name(alloc: Global, text: &[u8]) -> Result<Name, AllocError>
    ensures { IfOk result (λ name. name ≡ definition.plain_name text.now) }
{
    if begins_with(b'"', text) {
        unescaped(alloc, inside_of(text))
    } else {
        Name::copy_of(alloc, text)
    }
}

/// The name behind a sigil.
pub fn sigil_name(alloc: Global, text: &[u8]) -> Result<Name, AllocError>
    ensures { IfOk result (λ name. name ≡ definition.sigil_name text.now) }
{
    plain_name(alloc, behind_first(text))
}

/// What stands behind the first byte.
pub fn behind_first(text: &[u8]) -> &[u8]
    ensures { result.now ≡ drop 1 text.now }
{
    match text {
        [_, rest @ ..] => rest,
        [] => text,
    }
}

/// The inside of a string with its quotes.
fn inside_of(quoted: &[u8]) -> &[u8]
    ensures { result.now ≡ definition.inside_of quoted.now }
{
    match quoted {
        [_, inside @ .., _] => inside,
        _ => behind_first(quoted).split_at(0).0,
    }
}

/// The bytes that the inside of a string stands for.
pub fn unescaped(alloc: Global, inside: &[u8]) -> Result<Name, AllocError>
    ensures { IfOk result (λ name. name ≡ definition.unescaped inside.now) }
{
    let mut bytes = Vec::new(alloc);
    let mut rest = inside;
    while !rest.is_empty() {
        let first = rest[0];
        let after = rest.split_at(1).1;
        if first == b'\\' {
            let (byte, length) = escape(after);
            bytes.push(byte)?;
            rest = after.split_at(length).1;
        } else {
            bytes.push(first)?;
            rest = after;
        }
    }
    Ok(Name::new(bytes))
}

/// The value of a hexadecimal digit of either case.
fn hex_value(byte: u8) -> Option<u8>
    ensures value { result ≡ definition.hex_value byte }
    ensures below { IfSome result (λ digit. digit < 16) }
{
    match (byte as char).to_digit(16) {
        Some(digit) => Some(digit as u8),
        None => None,
    }
}

/// The byte that a backslash and what follows it stand for, and how many bytes belong to it.
fn escape(rest: &[u8]) -> (u8, usize)
    ensures value { result ≡ definition.escape rest.now }
    ensures within { result.1 ≤ length rest.now }
{
    match rest {
        [b'\\', ..] => (b'\\', 1),
        [high, low, ..] => match (hex_value(*high), hex_value(*low)) {
            (Some(high), Some(low)) => (high * 16 + low, 2),
            _ => (b'\\', 0),
        },
        _ => (b'\\', 0),
    }
}
