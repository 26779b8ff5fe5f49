//! A test as a program: terms, their constructors, copies and values, by public calls alone.
//!
//! Each line of standard input that is empty or begins with `#` is printed as it is. Any other is a row of fields between bars; it is
//! printed with its answer behind, or, if it is out of form, behind a `?`. Terms are written as `hk_term_rows` reads them, several with
//! a `;` between, and numbers of variables and of entries as `x1=7 5[2]=9`.
//!
//! - `value | TERM | NUMBERS`: the value of a term under a valuation, and 0 for what it does not name.
//! - `values | W | A | B`: the values of the sixteen operations, in the order of `hk_term`, on variables of W bits with these numbers.
//! - `made | TERM`: the term that the simplifying constructors make. `built | TERM ; TERM ..` is the same of the last term of a list
//!   that has the others already.
//! - `folded | W | A | B`: what they make of the sixteen operations on numbers of W bits.
//! - `places | TERM ; TERM ..`: the place of each term in one list, and how many nodes it has.
//! - `cut | TERM ; TERM .. | N | TERM ; TERM ..`: the same of the first terms; the last of the list's first N nodes, which it is cut to;
//!   and the same of the other terms, which it grows by.
//! - `numbers | NUMBERS | NAME ..`: what a valuation gives these variables and entries.
//! - `copy | TERM | STANDS`: whether the copy of a term under these stands (`copies.rt`) has its values under every reading.
//! - `copied | TERM | STANDS`: the copy. `deep | N`: how many nodes the copy of a term of N operations, each over the one before, adds.
//! - `room | TERM | PART | NUMBERS | NUMBERS`: the values of a term and a part of it, then of the part's two's complement, which the list
//!   grows by, and the part, and then of the term and the complement under the other numbers, all by one room.
//!
//! The answers are those of SMT-LIB's operations on whole numbers, found by Z3 and Python, and the nodes that the rules of simplification
//! name.
#![tactic(auto)]

mod copies;
mod lists;
mod operations;
mod room;

use crate::copies::{copied_answer, copy_answer, deep_answer};
use crate::lists::{cut_answer, numbers_answer, places_answer};
use crate::operations::{built_answer, operations_answer, value_answer};
use crate::room::room_answer;
use hk_term_rows::{Making, fields_of};
use std::alloc::{AllocError, Global};
use std::io;

/// What is told of a row about terms.
fn term_answer(alloc: Global, fields: &[&str]) -> Result<Option<String>, AllocError> {
    match fields {
        ["value", term, numbers] => value_answer(alloc, term, numbers),
        ["values", w, a, b] => operations_answer(alloc, Making::Plain, w, a, b),
        ["folded", w, a, b] => operations_answer(alloc, Making::Simplified, w, a, b),
        ["made", term] => built_answer(alloc, term),
        ["built", terms] => built_answer(alloc, terms),
        ["places", terms] => places_answer(alloc, terms),
        ["cut", terms, len, others] => cut_answer(alloc, terms, len, others),
        ["numbers", numbers, names] => numbers_answer(alloc, numbers, names),
        _ => Ok(None),
    }
}

/// What is told of a row.
fn answer(alloc: Global, fields: &[&str]) -> Result<Option<String>, AllocError> {
    match fields {
        ["copy", term, stands] => copy_answer(alloc, term, stands),
        ["copied", term, stands] => copied_answer(alloc, term, stands),
        ["deep", steps] => deep_answer(alloc, steps),
        ["room", term, part, numbers, others] => room_answer(alloc, (term, part), numbers, others),
        _ => term_answer(alloc, fields),
    }
}

/// What is printed of a line.
fn told(alloc: Global, row: &str) -> Result<String, AllocError> {
    if row.is_empty() || row.starts_with('#') {
        return String::from_str(alloc, row);
    }
    let fields = fields_of(alloc, row)?;
    match answer(alloc, fields.as_slice())? {
        Some(answer) => format!(in alloc; "{row} | {answer}"),
        None => format!(in alloc; "? {row}"),
    }
}

fn main(rt: HostRuntime) -> io::Result<()> {
    for row in rt.lines(rt.alloc()) {
        let row = row?;
        let told = told(rt.alloc(), row.as_str())?;
        println!(rt; "{told}")?;
    }
    Ok(())
}
