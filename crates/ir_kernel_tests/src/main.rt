//! A test as a program: rows of operations on values and of runs, with what each gives.
//!
//! Each line of standard input that is empty or begins with `#` is printed as it is. Any other is a row of fields between bars; it is
//! printed with its answer behind, or, if it is out of form, behind a `?`. Its first field names the call.
//!
//! - `run | TEXT | ARGUMENTS`: how the function `f` of a kernel text runs. In a text a `;` ends a line, and `-` alone is no argument.
//! - `machine | BYTE | FUNCTION | ARGUMENT | UNSET | STEPS`: how the program of `src/machines.rt` runs.
//! - `binary | OPERATION | WIDTH | A | B`, `compare_numbers | PREDICATE | WIDTH | A | B`, `pair | INTRINSIC | WIDTH | A | B`,
//!   `compare_pointers | PREDICATE | SIZE | SIZE | A | B`, `convert | CHANGE | FROM | TO | A`, `freeze | A`, `select | CONDITION | A | B`,
//!   `with_overflow | OPERATION | WIDTH | PART | A | B`, `assumes | CONDITION`: an instruction or intrinsic on values.
//! - `begin | BOUNDS | SIZE | BASE`, `step | BOUNDS | SIZE | WIDTH | EACH | INDEX | BASE`: how an address moves in an object of a size.
//! - `reach | SIZE | ALIGNMENT | BYTES | ALIGNMENT | ADDRESS`: what an access of so many bytes reaches.
//!
//! A value is a number, `poison`, `null` or `@OBJECT+OFFSET`. A run that returns tells the value and a byte of object 0.
#![tactic(auto)]

mod machines;
mod row;
mod runs;
mod values;
mod words;

use crate::machines::machine_answer;
use crate::row::fields_of;
use crate::runs::run_answer;
use crate::values::value_answer;
use std::alloc::{AllocError, Global};
use std::io;

/// The answer to a row.
fn answer(alloc: Global, fields: &[&str]) -> Result<Option<String>, AllocError> {
    if let Some(answer) = value_answer(alloc, fields)? {
        return Ok(Some(answer));
    }
    if let Some(answer) = machine_answer(alloc, fields)? {
        return Ok(Some(answer));
    }
    run_answer(alloc, fields)
}

/// What is printed of a row.
fn told(alloc: Global, row: &str) -> Result<String, AllocError> {
    if row.is_empty() || row.starts_with('#') {
        return String::from_str(alloc, row);
    }
    let fields = fields_of(alloc, row)?;
    match answer(alloc, &fields)? {
        Some(answer) => format!(in alloc; "{row} | {answer}"),
        None => format!(in alloc; "? {row}"),
    }
}

fn main(rt: HostRuntime) -> io::Result<()> {
    for row in rt.lines(rt.alloc()) {
        let row = row?;
        let told = told(rt.alloc(), row.as_str())?;
        println!(rt; "{told}")?;
    }
    Ok(())
}
