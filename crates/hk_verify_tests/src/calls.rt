//! A call over files and output in memory, and what is told of it.

use crate::files::File;
use crate::lines::has_lines;
use hk_io::{CallList, FileList, MemShelf, MemSink, PutList};
use hk_verify::run_words;
use std::alloc::{AllocError, Global};

/// Calls of the shelf and a put that fail, counted from 1; 0 stands for none.
#[derive(Clone, Copy)]
pub struct Faults {
    pub failing: (u64, u64),
    /// The put, with the bytes that it takes.
    pub cut: (u64, usize),
}

impl Faults {
    /// Nothing fails.
    pub fn none() -> Faults {
        Faults {
            failing: (0, 0),
            cut: (0, 0),
        }
    }
}

/// A shelf with these files that fails where it is to.
pub fn shelf_of(alloc: Global, files: FileList, faults: Faults) -> Result<MemShelf, AllocError> {
    let (first, second) = faults.failing;
    let failing = vec![in alloc; first, second]?;
    Ok(MemShelf::new(files, CallList::from_vec(failing)))
}

/// Adds a file to a list.
pub fn add_file(
    alloc: Global,
    list: &mut Vec<(String, Vec<u8>)>,
    name: &str,
    text: &[u8],
) -> Result<(), AllocError> {
    let name = String::from_str(alloc, name)?;
    let text = Vec::from_slice(alloc, text)?;
    list.push((name, text))?;
    Ok(())
}

/// Copies of files.
pub fn copies(alloc: Global, files: &[File]) -> Result<FileList, AllocError> {
    let mut list = Vec::new(alloc);
    for file in files {
        add_file(alloc, &mut list, file.name.as_str(), file.text.as_bytes())?;
    }
    Ok(FileList::from_vec(list))
}

/// A word of a row: a quotation mark is left out, and `~` is a blank.
fn word_of(alloc: Global, field: &str) -> Result<String, AllocError> {
    let mut word = String::new(alloc);
    for letter in field.chars() {
        match letter {
            '"' => {}
            '~' => word.push(' ')?,
            _ => word.push(letter)?,
        }
    }
    Ok(word)
}

/// The words of a row.
fn words_of(alloc: Global, row: &str) -> Result<Vec<String>, AllocError> {
    let mut words = Vec::new(alloc);
    for field in row.split(' ') {
        words.push(word_of(alloc, field)?)?;
    }
    Ok(words)
}

/// What a call leaves: what was shown, the status, and how many verdicts there are.
#[derive(Drop)]
pub struct Outcome {
    pub shown: Vec<u8>,
    pub status: u8,
    pub verdicts: usize,
}

/// What the words of a row leave over a shelf, where this put fails.
pub fn call(
    alloc: Global,
    row: &str,
    shelf: &mut MemShelf,
    cut: (u64, usize),
) -> Result<Outcome, AllocError> {
    let words = words_of(alloc, row)?;
    let cuts = vec![in alloc; cut]?;
    let mut sink = MemSink::with_room(alloc, 100_000, PutList::from_vec(cuts))?;
    let answer = run_words(alloc, &words, shelf, &mut sink);
    let shown = Vec::from_slice(alloc, sink.bytes())?;
    Ok(Outcome {
        shown,
        status: answer.status,
        verdicts: answer.verdicts.as_slice().len(),
    })
}

/// Adds what was shown, each line behind two blanks, and a backslash where the last one does not end.
fn add_lines(told: &mut String, shown: &[u8]) -> Result<(), AllocError> {
    let mut begins = true;
    for byte in shown {
        told.push_str(if begins { "  " } else { "" })?;
        told.push(char::from(*byte))?;
        begins = *byte == b'\n';
    }
    told.push_str(if begins { "" } else { "\\\n" })
}

/// Adds the status, for `bench` with the number of verdicts.
fn add_status(told: &mut String, row: &str, outcome: &Outcome) -> Result<(), AllocError> {
    let status = outcome.status;
    let verdicts = outcome.verdicts;
    if row.starts_with("bench") {
        write!(told, "status {status}, {verdicts} verdicts")
    } else {
        write!(told, "status {status}")
    }
}

/// What is told of a call: the lines that were shown, or that they are as expected, and the status.
pub fn told_of(
    alloc: Global,
    row: &str,
    outcome: &Outcome,
    expected: &str,
) -> Result<String, AllocError> {
    let mut told = String::new(alloc);
    if !expected.is_empty() && has_lines(&outcome.shown, expected) {
        told.push_str("  as expected\n")?;
    } else {
        add_lines(&mut told, &outcome.shown)?;
    }
    told.push_str("  ")?;
    add_status(&mut told, row, outcome)?;
    told.push('\n')?;
    Ok(told)
}

/// What is told of a call behind its row: what was shown, with a comma in the place of each newline, and the status.
pub fn told_behind(alloc: Global, row: &str, outcome: &Outcome) -> Result<String, AllocError> {
    let mut told = String::from_str(alloc, " => ")?;
    for byte in &outcome.shown {
        if *byte == b'\n' {
            told.push_str(", ")?;
        } else {
            told.push(char::from(*byte))?;
        }
    }
    add_status(&mut told, row, outcome)?;
    Ok(told)
}
