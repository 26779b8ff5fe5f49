//! The texts that the fields of a row write.

use std::alloc::{AllocError, Global};

/// The control character of a letter behind a backslash.
fn control(letter: u8) -> Option<u8> {
    match letter {
        b'n' => Some(b'\n'),
        b't' => Some(b'\t'),
        b'r' => Some(b'\r'),
        _ => None,
    }
}

/// Adds a field, in which `\n`, `\t` and `\r` are control characters. Any other backslash is one of the kernel text.
pub(crate) fn add_field(text: &mut Vec<u8>, field: &str) -> Result<(), AllocError> {
    let mut behind = false;
    for byte in field.as_bytes() {
        match control(*byte) {
            Some(letter) if behind => {
                text.pop();
                text.push(letter)?;
                behind = false;
            }
            _ => {
                text.push(*byte)?;
                behind = *byte == b'\\';
            }
        }
    }
    Ok(())
}

/// Adds a field so many times.
pub(crate) fn add_times(text: &mut Vec<u8>, times: u32, field: &str) -> Result<(), AllocError> {
    for _ in 0..times {
        add_field(text, field)?;
    }
    Ok(())
}

/// The text of a field: `above` is the text of the lines above.
pub(crate) fn text_of(alloc: Global, above: &[u8], field: &str) -> Result<Vec<u8>, AllocError> {
    if field == "above" {
        return Vec::from_slice(alloc, above);
    }
    let mut text = Vec::new(alloc);
    add_field(&mut text, field)?;
    Ok(text)
}

/// Adds bytes to what is printed, one that is no ASCII character by its two digits behind a backslash.
pub(crate) fn add_bytes(told: &mut String, bytes: &[u8]) -> Result<(), AllocError> {
    for byte in bytes {
        if byte.is_ascii() {
            told.push(char::from(*byte))?;
        } else {
            write!(told, "\\{byte:02X}")?;
        }
    }
    Ok(())
}

/// Begins a part of what is printed: a separator stands before each but the first.
pub(crate) fn add_between(told: &mut String, between: &str) -> Result<(), AllocError> {
    if told.is_empty() {
        Ok(())
    } else {
        told.push_str(between)
    }
}
