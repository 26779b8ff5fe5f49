//! Texts cut into tokens and items, what remains of these, and the names that tokens spell.

ghost use Rattle.std.specs.Prelude.{◌<◌, ◌^◌, length};

use crate::row::{add_between, add_bytes};
use ir_lex::{
    Item, Token, TokenKind, is_dropped_item, items, plain_name, remaining, sigil_name, tokens,
};
use std::alloc::{AllocError, Global};

fn letter(kind: TokenKind) -> char {
    match kind {
        TokenKind::Word => 'w',
        TokenKind::Number => 'n',
        TokenKind::Quoted => 'q',
        TokenKind::Local => 'l',
        TokenKind::Global => 'g',
        TokenKind::Metadata => 'm',
        TokenKind::Attribute => 'a',
        TokenKind::Mark => 'k',
    }
}

/// Adds a token as its kind's letter, its line and its bytes.
fn add_token(told: &mut String, token: &Token<'_>) -> Result<(), AllocError> {
    add_between(told, " ")?;
    told.push(letter(token.kind))?;
    let line = token.line;
    write!(told, "{line}<")?;
    add_bytes(told, token.text)?;
    told.push('>')
}

/// Tokens one behind the other.
fn all_tokens(alloc: Global, list: &[Token<'_>]) -> Result<String, AllocError> {
    if list.is_empty() {
        return String::from_str(alloc, "nothing");
    }
    let mut told = String::new(alloc);
    for token in list {
        add_token(&mut told, token)?;
    }
    Ok(told)
}

/// The tokens of a text, or the line and the reason of its refusal.
fn tokens_told(alloc: Global, text: &[u8]) -> Result<String, AllocError>
    requires { length text.now < 2 ^ 31 }
{
    match tokens(alloc, text) {
        Ok(list) => all_tokens(alloc, list.as_slice()),
        Err(stop) => stop.to_string(alloc),
    }
}

/// Adds the texts of tokens.
fn add_texts(told: &mut String, list: &[Token<'_>]) -> Result<(), AllocError> {
    for token in list {
        told.push(' ')?;
        add_bytes(told, token.text)?;
    }
    Ok(())
}

/// Adds what remains of an item, or that it is dropped.
fn add_remaining(alloc: Global, told: &mut String, tokens: &[Token<'_>]) -> Result<(), AllocError> {
    if is_dropped_item(alloc, tokens)? {
        told.push_str(" dropped")
    } else {
        add_texts(told, remaining(alloc, tokens)?.as_slice())
    }
}

/// Adds an item as its line, `+` where it is closed and `-` where it is not, and what remains of it.
fn add_item(
    alloc: Global,
    told: &mut String,
    item: &Item<'_>,
    between: &str,
) -> Result<(), AllocError> {
    add_between(told, between)?;
    let line = item.line;
    write!(told, "{line}")?;
    told.push(if item.closed { '+' } else { '-' })?;
    add_remaining(alloc, told, item.tokens)
}

/// Items one behind the other.
fn all_items(alloc: Global, list: &[Item<'_>], between: &str) -> Result<String, AllocError> {
    let mut told = String::new(alloc);
    for item in list {
        add_item(alloc, &mut told, item, between)?;
    }
    Ok(told)
}

/// The items of a text, with a separator between them.
pub(crate) fn items_told(alloc: Global, text: &[u8], between: &str) -> Result<String, AllocError>
    requires { length text.now < 2 ^ 31 }
{
    match tokens(alloc, text) {
        Ok(list) => {
            let cut = items(alloc, list.as_slice())?;
            all_items(alloc, cut.as_slice(), between)
        }
        Err(stop) => stop.to_string(alloc),
    }
}

/// A name between angles.
fn name_told(alloc: Global, name: &[u8]) -> Result<String, AllocError> {
    let mut told = String::from_str(alloc, "<")?;
    add_bytes(&mut told, name)?;
    told.push('>')?;
    Ok(told)
}

/// What the lexer says of a text, and nothing where there is no such call.
pub(crate) fn of_lexer(alloc: Global, call: &str, text: &[u8]) -> Result<Option<String>, AllocError>
    requires { length text.now < 2 ^ 31 }
{
    let told = match call {
        "tokens" => tokens_told(alloc, text)?,
        "items" => items_told(alloc, text, "; ")?,
        "lines" => items_told(alloc, text, "\n\t")?,
        "name" => name_told(alloc, sigil_name(alloc, text)?.as_bytes())?,
        "label" => name_told(alloc, plain_name(alloc, text)?.as_bytes())?,
        _ => return Ok(None),
    };
    Ok(Some(told))
}
