//! A test as a program: small goals, one a line of standard input, each settled by rounds of solving and of adding the
//! instances that are violated.
//!
//! It prints for each whether some case makes it true; what is stored was found by trying all cases. With a goal's number on
//! the command line it prints the last clause list of that goal in place of this, for another solver.
//! `bench/goals.py` makes the goals and the answers.
#![tactic(auto)]

mod build;
mod rounds;
mod step;

use crate::rounds::{Settled, settle_line};
use std::alloc::{AllocError, Global};
use std::{env, io};

/// The word for an answer.
fn word(settled: &Settled) -> &'static str {
    match settled {
        Settled::True => "true",
        Settled::Never => "never",
        Settled::Open => "open",
        Settled::NoGoal => "no goal",
    }
}

/// The number of the goal whose clauses are asked for.
fn asked(rt: &HostRuntime) -> io::Result<Option<u64>> {
    let mut found = None;
    for word in env::args(rt)? {
        if let Ok(number) = word.as_str().parse::<u64>() {
            found = Some(number);
        }
    }
    Ok(found)
}

/// What is printed of a line.
fn shown(alloc: Global, line: &str, clauses: bool) -> Result<String, AllocError> {
    let (settled, text) = settle_line(alloc, line)?;
    if clauses {
        return Ok(text);
    }
    drop(text);
    String::from_str(alloc, word(&settled))
}

fn main(rt: HostRuntime) -> io::Result<()> {
    let wanted = asked(&rt)?;
    let mut number = 0u64;
    for line in rt.lines(rt.alloc()) {
        let line = line?;
        if wanted.is_none() || wanted == Some(number) {
            let text = shown(rt.alloc(), line.as_str(), wanted.is_some())?;
            println!(rt; "{text}")?;
        }
        number = number.wrapping_add(1);
    }
    Ok(())
}
