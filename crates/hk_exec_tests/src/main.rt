//! A test as a program: functions of kernel texts, executed on terms, beside runs of the machine from random states.
//!
//! The words are how many states, and the names of files, each a kernel text. Each function of a text that takes and gives integers is
//! executed on terms for its arguments, once over memory by bytes and once by cells, and is run by the machine from so many random
//! arguments and states. A line tells whether the terms say of each run what it came to: that it is stuck, or the number that it
//! returns and every byte of the memory behind it. With `read`, `bytes` or `cells` in place of a number the texts are only read, or
//! only executed, and a line tells how many terms were made (`bench/execute.sh`).
//!
//! In place of a file, `-` stands for the rows of standard input. A line that is empty or begins with `#` is printed as it is. Any other
//! is a row of fields between bars; it is printed with its answer behind, or, if it is out of form, behind a `?`.
//!
//! - `bytes | FILE | VALUATION`, `cells | FILE | VALUATION`: what the terms of a text's first function say over memory by bytes, or by
//!   cells, under a valuation: `stuck`, or what the first part of each of the first two objects holds behind the run, 0 where there is
//!   none. The argument k is the variable k, and the entries of the array k are the first bytes or cells of the object k.
//! - `sizes | FILE`: the size of the cells of each object.
//! - `descriptor | FILE`: how many entries of arrays a read of 4 bytes of the object 1 takes at 20 * p + 4 * d + 4, for any p and d.
//!
//! What the rows expect was found by hand.
#![tactic(auto)]

mod cells;
mod compared;
mod executed;
mod functions;
mod inputs;
mod random;
mod rows;
mod single;
mod states;
mod told;

use crate::functions::subjects;
use crate::inputs::load_kernel;
use crate::rows::told_row;
use crate::told::{Mode, tell};
use hk_io::FolderShelf;
use ir_kernel::Kernel;
use std::alloc::{AllocError, Global};
use std::{env, io};

fn mode_of(word: &str) -> Mode {
    if word == "read" {
        Mode::Read
    } else if word == "bytes" {
        Mode::Bytes
    } else if word == "cells" {
        Mode::Cells
    } else {
        Mode::Compare(word.parse::<u64>().unwrap_or(0))
    }
}

/// What is done, by the first word.
fn mode_in(words: &[String]) -> Mode {
    match words.get(1) {
        Some(word) => mode_of(word.as_str()),
        None => Mode::Read,
    }
}

/// A line for each function of a kernel.
fn lines_of(alloc: Global, kernel: &Kernel, name: &str, mode: Mode) -> Result<String, AllocError> {
    let mut text = String::new(alloc);
    let found = subjects(alloc, kernel)?;
    for subject in found.as_slice() {
        let told = tell(alloc, kernel, subject, mode)?;
        let line = format!(in alloc; "{name} {told}\n")?;
        text.push_str(line.as_str())?;
    }
    Ok(text)
}

/// The lines of the file of a name.
fn text_of(
    alloc: Global,
    shelf: &mut FolderShelf,
    name: &str,
    mode: Mode,
) -> Result<String, AllocError> {
    match load_kernel(alloc, shelf, name)? {
        Some(kernel) => lines_of(alloc, &kernel, name, mode),
        None => format!(in alloc; "{name}: no kernel\n"),
    }
}

/// Prints the rows of standard input.
fn tell_rows(rt: HostRuntime, shelf: &mut FolderShelf) -> io::Result<()> {
    for row in rt.lines(rt.alloc()) {
        let row = row?;
        let told = told_row(rt.alloc(), shelf, row.as_str())?;
        println!(rt; "{told}")?;
    }
    Ok(())
}

fn main(rt: HostRuntime) -> io::Result<()> {
    let mut words = Vec::new(rt.alloc());
    for word in env::args(&rt)? {
        words.push(word)?;
    }
    let mode = mode_in(&words);
    let mut shelf = FolderShelf::new(rt);
    for name in words.iter().skip(2) {
        if name.as_str() == "-" {
            tell_rows(rt, &mut shelf)?;
        } else {
            let text = text_of(rt.alloc(), &mut shelf, name, mode)?;
            print!(rt; "{text}")?;
        }
    }
    Ok(())
}
