//! The fields of a row, and the numbers that they write.

use std::alloc::{AllocError, Global};

/// The fields of a row, which stand between bars, without the spaces round them.
pub fn fields_of<'r>(alloc: Global, row: &'r str) -> Result<Vec<&'r str>, AllocError> {
    let mut fields = Vec::new(alloc);
    for field in row.split('|') {
        fields.push(field.trim_ascii())?;
    }
    Ok(fields)
}

/// A number of 32 bits.
pub fn short(word: &str) -> Option<u32> {
    word.parse::<u32>().ok()
}

/// A number of 64 bits.
pub fn long(word: &str) -> Option<u64> {
    word.parse::<u64>().ok()
}
