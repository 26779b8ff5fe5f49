//! A test as a program: certificates by public calls alone. A kernel, a specification and a certificate come in, and what the certificate
//! says goes out, or its first line that fails with the least reason; beside them rows of logs, and the lines of arguments.
//!
//! Each line of standard input comes out again, with its answer behind it. In texts of one line, `\n` is a newline and `\t` a tab.
//!
//! - `# WORDS`: what the rows below show. It has no answer.
//! - `file NAME`: an empty text under a new name, to which `| TEXT` adds a line. KERNEL and SPEC are names of such texts.
//! - `cert KERNEL SPEC TEXT`: what the text says as a certificate: its entries in their order, or the line and the reason. An acceptance
//!   is told with the line on which it stands and, for each proof, `cases` or the numbers of its instances and of its rows; a rejection
//!   with its obligation, its arguments, and the bytes of each object or the entries of each field. Of these lists the length comes
//!   first, and then each number that is not 0 behind its place (`told.rt`).
//! - `rows DUE TEXT`: how many rows of a log stand at the front of a text that has so many, and how many bytes behind them.
//! - `log DUE TEXT`: these rows, with the codes of their literals, and what stands behind them.
//! - `args NUMBER ..`: the lines of these arguments in a state block, which follow on the row.
//!
//! A line of no such form, or over a text that is refused, comes out behind a question mark. What the rows expect was written from the
//! rules of the format.
#![tactic(auto)]

mod logs;
mod rows;
mod told;

use crate::rows::answered;
use std::io;

fn main(rt: HostRuntime) -> io::Result<()> {
    let mut texts = Vec::new(rt.alloc());
    for row in rt.lines(rt.alloc()) {
        let row = row?;
        let told = answered(rt.alloc(), &mut texts, row.as_str())?;
        println!(rt; "{told}")?;
    }
    Ok(())
}
