//! A test as a program: whole calls of the top call over files and output in memory, with what is shown and the exit status.
//!
//! Each line of standard input comes out again, with its answer behind it. Fields stand between blanks.
//!
//! - `# WORDS`: what the rows below show. An empty row ends a part: what `fail` and `cut` said, and what calls saved, is gone behind it.
//! - `file NAME`: an empty file, which the rows below it write. It stays until it is named again. `| TEXT` adds a line, `* COUNT TEXT` the text
//!   so many times, `like NAME` the text of another file, `pad SIZE` newlines up to so many bytes, and `each TEXT` the text for each number
//!   from `00` to `ff` in the place of `{}`, where `\n` ends a line. `swap OLD -> NEW` puts a text in the place of another, and
//!   `first COUNT` keeps so many lines.
//! - `$ WORDS`: the words of a call. A quotation mark in a word is left out, and `~` is a blank. Behind it come the lines that are shown, a
//!   backslash where the last one does not end, and the status; for `bench` also how many verdicts there are.
//! - `> LINE`, behind a call: a line that is expected, where the rules leave a case open (`lines.rt`). Then `as expected` stands for the lines.
//! - `fail CALL [CALL]`: the calls of the shelf that fail. `cut PUT BYTES`: the put that fails, and how many bytes it takes.
//! - `table HOLES : WORDS`: the call of the rows `with VALUES`, in the files of which each hole `{NAME}` has the value that stands in its place
//!   (the last one to the end of the row), and of the rows `size N`, with the texts of a generated workload as `workload.ll` and
//!   `workload.py`. They have their answer on the same line.
//!
//! A line of no such form comes out behind a question mark. What `stdout` expects was written from the rules of the formats.
#![tactic(auto)]

mod calls;
mod files;
mod lines;
mod session;
mod table;

use crate::session::{Session, answered, finished};
use std::io;

fn main(rt: HostRuntime) -> io::Result<()> {
    let mut session = Session::new(rt.alloc());
    for row in rt.lines(rt.alloc()) {
        let row = row?;
        let told = answered(rt.alloc(), &mut session, row.as_str())?;
        print!(rt; "{told}")?;
    }
    let told = finished(rt.alloc(), &mut session)?;
    print!(rt; "{told}")
}
