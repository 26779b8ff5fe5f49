//! A test as a program: each word of its own is a line of words for `hkv`, over the files of `examples/`, which is a
//! link to this crate's data.
//!
//! It shows each line, what the top call shows for it, and the status.
#![tactic(auto)]

use hk_io::{FolderShelf, StdSink};
use hk_verify::run_words;
use std::alloc::{AllocError, Global};
use std::{env, io};

/// The words of a line, of which each two have one space between them.
fn words_of(alloc: Global, line: &str) -> Result<Vec<String>, AllocError> {
    let mut words = Vec::new(alloc);
    for word in line.split(' ') {
        words.push(String::from_str(alloc, word)?)?;
    }
    Ok(words)
}

/// Runs the top call on a line, and shows the line before it and the status behind it.
fn show(
    rt: &HostRuntime,
    line: &str,
    shelf: &mut FolderShelf,
    out: &mut StdSink,
) -> io::Result<()> {
    println!(rt; "$ hkv {line}")?;
    let words = words_of(rt.alloc(), line)?;
    let answer = run_words(rt.alloc(), &words, shelf, out);
    println!(rt; "status {}", answer.status)
}

fn main(rt: HostRuntime) -> io::Result<()> {
    let mut lines = Vec::new(rt.alloc());
    for line in env::args(&rt)? {
        lines.push(line)?;
    }
    let mut shelf = FolderShelf::new(rt);
    let mut out = StdSink::new(rt);
    for line in lines.iter().skip(1) {
        show(&rt, line, &mut shelf, &mut out)?;
    }
    Ok(())
}
