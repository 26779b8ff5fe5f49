//! The fields of a row of standard input, and the text that a field writes.

use std::alloc::{AllocError, Global};

/// The fields of a row, which stand between bars, without the spaces round them.
pub fn fields_of<'r>(alloc: Global, row: &'r str) -> Result<Vec<&'r str>, AllocError> {
    let mut fields = Vec::new(alloc);
    for field in row.split('|') {
        fields.push(field.trim_ascii())?;
    }
    Ok(fields)
}

/// The text that a field writes: a `;` ends a line, and `-` alone is no text.
pub fn text_of(alloc: Global, field: &str) -> Result<Vec<u8>, AllocError> {
    if field == "-" {
        return Ok(Vec::new(alloc));
    }
    let mut text = Vec::new(alloc);
    for byte in field.as_bytes() {
        text.push(if *byte == b';' { b'\n' } else { *byte })?;
    }
    Ok(text)
}
