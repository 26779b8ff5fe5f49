//! The files of the rows, each a name and a text.

use std::alloc::{AllocError, Global};

/// A name and a text.
#[derive(Drop)]
pub struct File {
    pub name: String,
    pub text: String,
}

/// Begins a file, the last one, in the place of one of this name.
pub fn begin_file(alloc: Global, files: &mut Vec<File>, name: &str) -> Result<(), AllocError> {
    files.retain(|file| file.name.as_str() != name);
    let file = File {
        name: String::from_str(alloc, name)?,
        text: String::new(alloc),
    };
    files.push(file)?;
    Ok(())
}

/// A copy of the text of the file of a name.
fn text_named(alloc: Global, files: &[File], name: &str) -> Result<Option<String>, AllocError> {
    match files.iter().find(|file| file.name.as_str() == name) {
        Some(file) => Ok(Some(String::from_str(alloc, file.text.as_str())?)),
        None => Ok(None),
    }
}

/// Adds a line.
fn add_line(text: &mut String, line: &str) -> Result<(), AllocError> {
    text.push_str(line)?;
    text.push('\n')
}

/// Adds a text as often as the number before it says.
fn add_times(text: &mut String, field: &str) -> Result<(), AllocError> {
    let (count, part) = field.split_once(' ').unwrap_or((field, ""));
    for _ in 0..count.parse::<u32>().unwrap_or(0) {
        text.push_str(part)?;
    }
    Ok(())
}

/// Adds newlines up to a size.
fn pad(text: &mut String, size: &str) -> Result<(), AllocError> {
    let len = text.len();
    for _ in len..size.parse::<usize>().unwrap_or(0) {
        text.push('\n')?;
    }
    Ok(())
}

/// Adds a text of several lines with a name in the place of `{}`.
fn add_named(text: &mut String, part: &str, name: &str) -> Result<(), AllocError> {
    for line in part.split("\\n") {
        let (front, back) = line.split_once("{}").unwrap_or((line, ""));
        let is_named = front.len() < line.len();
        text.push_str(front)?;
        text.push_str(if is_named { name } else { "" })?;
        add_line(text, back)?;
    }
    Ok(())
}

/// Adds a text for each of the names `00` to `ff`.
fn add_each(alloc: Global, text: &mut String, part: &str) -> Result<(), AllocError> {
    for number in 0..256u32 {
        let name = format!(in alloc; "{number:02x}")?;
        add_named(text, part, name.as_str())?;
    }
    Ok(())
}

/// A text with a part in the place of another.
fn swapped(alloc: Global, text: &str, old: &str, new: &str) -> Result<String, AllocError> {
    let mut swapped = String::new(alloc);
    for (place, part) in text.split(old).enumerate() {
        swapped.push_str(if place > 0 { new } else { "" })?;
        swapped.push_str(part)?;
    }
    Ok(swapped)
}

/// Puts a text in the place of another; false where that one is not there.
fn swap(alloc: Global, text: &mut String, field: &str) -> Result<bool, AllocError> {
    let Some((old, new)) = field.split_once(" -> ") else {
        return Ok(false);
    };
    if text.as_str().split_once(old).is_none() {
        return Ok(false);
    }
    *text = swapped(alloc, text.as_str(), old, new)?;
    Ok(true)
}

/// Keeps so many lines.
fn keep_first(alloc: Global, text: &mut String, count: &str) -> Result<(), AllocError> {
    let mut kept = String::new(alloc);
    let count = count.parse::<usize>().unwrap_or(0);
    for line in text.as_str().split('\n').take(count) {
        add_line(&mut kept, line)?;
    }
    *text = kept;
    Ok(())
}

/// Changes a text by a row; false where the row has no such form.
fn change(alloc: Global, text: &mut String, form: &str, field: &str) -> Result<bool, AllocError> {
    match form {
        "|" => add_line(text, field)?,
        "*" => add_times(text, field)?,
        "pad" => pad(text, field)?,
        "each" => add_each(alloc, text, field)?,
        "first" => keep_first(alloc, text, field)?,
        "swap" => return swap(alloc, text, field),
        _ => return Ok(false),
    }
    Ok(true)
}

/// Adds the text of another file to that of the last one; false where there is no such file.
fn add_like(alloc: Global, files: &mut Vec<File>, name: &str) -> Result<bool, AllocError> {
    let Some(other) = text_named(alloc, files, name)? else {
        return Ok(false);
    };
    match files.last_mut() {
        Some(file) => {
            file.text.push_str(other.as_str())?;
            Ok(true)
        }
        None => Ok(false),
    }
}

/// Changes the text of the last file by a row; false where there is no file or the row has no such form.
pub fn change_last(
    alloc: Global,
    files: &mut Vec<File>,
    form: &str,
    field: &str,
) -> Result<bool, AllocError> {
    if form == "like" {
        return add_like(alloc, files, field);
    }
    match files.last_mut() {
        Some(file) => change(alloc, &mut file.text, form, field),
        None => Ok(false),
    }
}
