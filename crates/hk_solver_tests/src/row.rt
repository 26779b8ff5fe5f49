//! The fields of a row of standard input, and the texts and numbers that fields write.

use hk_cnf::Lit;
use std::alloc::{AllocError, Global};

/// The fields of a row, which stand between bars, without the spaces round them.
pub(crate) fn fields_of<'r>(alloc: Global, row: &'r str) -> Result<Vec<&'r str>, AllocError> {
    let mut fields = Vec::new(alloc);
    for field in row.split('|') {
        fields.push(field.trim_ascii())?;
    }
    Ok(fields)
}

/// The byte of the letter behind a backslash; `x` is one that begins no character.
fn control(letter: u8) -> u8 {
    match letter {
        b'n' => b'\n',
        b't' => b'\t',
        b'r' => b'\r',
        b'0' => 0,
        _ => 255,
    }
}

/// The bytes that a field writes, in which a backslash and a letter are one byte: none for `-` alone.
pub(crate) fn text_of(alloc: Global, field: &str) -> Result<Vec<u8>, AllocError> {
    let mut text = Vec::new(alloc);
    if field == "-" {
        return Ok(text);
    }
    let mut behind = false;
    for byte in field.as_bytes() {
        if behind {
            text.push(control(*byte))?;
            behind = false;
        } else if *byte == b'\\' {
            behind = true;
        } else {
            text.push(*byte)?;
        }
    }
    Ok(text)
}

/// Adds a text to what is printed, with `\n` for a newline.
pub(crate) fn add_text(told: &mut String, text: &[u8]) -> Result<(), AllocError> {
    for byte in text {
        if *byte == b'\n' {
            told.push_str("\\n")?;
        } else {
            told.push(char::from(*byte))?;
        }
    }
    Ok(())
}

/// A literal as DIMACS writes it.
pub(crate) fn literal(word: &str) -> Option<Lit> {
    match word.parse::<i64>() {
        Ok(number) if number != 0 && number > i64::MIN => Some(Lit::new(number)),
        _ => None,
    }
}
