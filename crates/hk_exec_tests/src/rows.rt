//! Rows of standard input, about the kernel of a file each.

use crate::cells::{descriptor_answer, sizes_answer};
use crate::inputs::load_kernel;
use crate::single::terms_answer;
use hk_io::FolderShelf;
use hk_term_rows::fields_of;
use ir_kernel::Kernel;
use std::alloc::{AllocError, Global};

/// What is told of a kernel by a row.
fn answer_about(
    alloc: Global,
    kernel: &Kernel,
    fields: &[&str],
) -> Result<Option<String>, AllocError> {
    match fields {
        ["bytes", _, text] => terms_answer(alloc, kernel, text, false),
        ["cells", _, text] => terms_answer(alloc, kernel, text, true),
        ["sizes", _] => sizes_answer(alloc, kernel),
        ["descriptor", _] => descriptor_answer(alloc, kernel),
        _ => Ok(None),
    }
}

/// What is told of a row.
fn answer(
    alloc: Global,
    shelf: &mut FolderShelf,
    fields: &[&str],
) -> Result<Option<String>, AllocError> {
    match fields {
        [_, name, ..] => match load_kernel(alloc, shelf, name)? {
            Some(kernel) => answer_about(alloc, &kernel, fields),
            None => Ok(None),
        },
        _ => Ok(None),
    }
}

/// What is printed of a line.
pub fn told_row(alloc: Global, shelf: &mut FolderShelf, row: &str) -> Result<String, AllocError> {
    if row.is_empty() || row.starts_with('#') {
        return String::from_str(alloc, row);
    }
    let fields = fields_of(alloc, row)?;
    match answer(alloc, shelf, fields.as_slice())? {
        Some(answer) => format!(in alloc; "{row} | {answer}"),
        None => format!(in alloc; "? {row}"),
    }
}
