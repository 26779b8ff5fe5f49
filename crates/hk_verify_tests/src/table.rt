//! Rows of a table: one call over files with holes, which each row fills, or over generated workloads.

use crate::calls::{Faults, add_file, call, shelf_of, told_behind};
use crate::files::File;
use hk_gen::generate;
use hk_io::FileList;
use std::alloc::{AllocError, Global};

/// The value that a row has for a hole: the last hole has the rest of the row.
fn value_of<'r>(name: &str, holes: &str, values: &'r str) -> Option<&'r str> {
    let count = holes.split(' ').count();
    let place = holes.split(' ').position(|hole| hole == name)?;
    values.splitn(count, ' ').nth(place)
}

/// Adds what stands behind a brace: a hole that is filled, or the text as it is.
fn add_piece(text: &mut String, piece: &str, holes: &str, values: &str) -> Result<(), AllocError> {
    if let Some((name, rest)) = piece.split_once('}') {
        if let Some(value) = value_of(name, holes, values) {
            text.push_str(value)?;
            return text.push_str(rest);
        }
    }
    text.push('{')?;
    text.push_str(piece)
}

/// A text with its holes filled.
fn filled(alloc: Global, text: &str, holes: &str, values: &str) -> Result<String, AllocError> {
    let mut filled = String::new(alloc);
    for (place, piece) in text.split('{').enumerate() {
        if place > 0 {
            add_piece(&mut filled, piece, holes, values)?;
        } else {
            filled.push_str(piece)?;
        }
    }
    Ok(filled)
}

/// Copies of files with their holes filled.
fn filled_files(
    alloc: Global,
    files: &[File],
    holes: &str,
    values: &str,
) -> Result<FileList, AllocError> {
    let mut list = Vec::new(alloc);
    for file in files {
        let text = filled(alloc, file.text.as_str(), holes, values)?;
        add_file(alloc, &mut list, file.name.as_str(), text.as_bytes())?;
    }
    Ok(FileList::from_vec(list))
}

/// The texts of a generated workload as files, where there is one of this size.
fn workload(alloc: Global, size: &str) -> Result<Option<FileList>, AllocError> {
    let size = size.parse::<u32>().unwrap_or(0);
    if size < 1 || size > 64 {
        return Ok(None);
    }
    let (kernel, spec) = generate(alloc, size)?;
    let mut list = Vec::new(alloc);
    add_file(alloc, &mut list, "workload.ll", &kernel)?;
    add_file(alloc, &mut list, "workload.py", &spec)?;
    Ok(Some(FileList::from_vec(list)))
}

/// What is told of a call over these files.
fn told_over(
    alloc: Global,
    words: &str,
    files: FileList,
    faults: Faults,
) -> Result<String, AllocError> {
    let mut shelf = shelf_of(alloc, files, faults)?;
    let outcome = call(alloc, words, &mut shelf, faults.cut)?;
    told_behind(alloc, words, &outcome)
}

/// The answer to a row of a table, of which the holes stand before a colon and the words behind it.
pub fn table_answer(
    alloc: Global,
    table: &str,
    files: &[File],
    faults: Faults,
    form: &str,
    field: &str,
) -> Result<Option<String>, AllocError> {
    let Some((holes, words)) = table.split_once(" : ") else {
        return Ok(None);
    };
    if form == "with" {
        let list = filled_files(alloc, files, holes, field)?;
        return Ok(Some(told_over(alloc, words, list, faults)?));
    }
    match workload(alloc, field)? {
        Some(list) => Ok(Some(told_over(alloc, words, list, faults)?)),
        None => Ok(None),
    }
}
