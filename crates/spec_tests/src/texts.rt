//! Fields of rows, taken apart into the bytes that they stand for.

use std::alloc::{AllocError, Global};

/// The byte of the letter behind a backslash.
fn control(letter: u8) -> u8 {
    match letter {
        b'n' => b'\n',
        b't' => b'\t',
        b'r' => b'\r',
        _ => 255,
    }
}

/// Adds a text in which a backslash and a letter are one byte.
fn add_escaped(text: &mut Vec<u8>, part: &str) -> Result<(), AllocError> {
    let mut behind = false;
    for byte in part.as_bytes() {
        if behind {
            text.push(control(*byte))?;
            behind = false;
        } else if *byte == b'\\' {
            behind = true;
        } else {
            text.push(*byte)?;
        }
    }
    Ok(())
}

/// Adds what stands between braces: a text so many times.
fn add_group(text: &mut Vec<u8>, group: &str) -> Result<(), AllocError> {
    let Some((times, part)) = group.split_once(' ') else {
        return Ok(());
    };
    for _ in 0..times.parse::<u32>().unwrap_or(0) {
        add_escaped(text, part)?;
    }
    Ok(())
}

/// Adds a field.
fn add_field(text: &mut Vec<u8>, field: &str) -> Result<(), AllocError> {
    for piece in field.split('{') {
        match piece.split_once('}') {
            Some((group, rest)) => {
                add_group(text, group)?;
                add_escaped(text, rest)?;
            }
            None => add_escaped(text, piece)?,
        }
    }
    Ok(())
}

/// The bytes of a field between two texts.
pub(crate) fn text_of(
    alloc: Global,
    front: &str,
    field: &str,
    back: &str,
) -> Result<Vec<u8>, AllocError> {
    let mut text = Vec::new(alloc);
    add_escaped(&mut text, front)?;
    add_field(&mut text, field)?;
    add_escaped(&mut text, back)?;
    Ok(text)
}
