//! A test as a program: circuits, blasted terms, questions and the deciding loop, by public calls alone.
//!
//! Each line of standard input that is empty or begins with `#` is printed as it is. Any other is a row of fields between bars; it is
//! printed with its answer behind, or, if it is out of form, behind a `?`. Terms are written as `hk_term_rows` reads them, and so are
//! numbers of variables and of entries. The variables and the entries of a goal have 8 bits.
//!
//! - `circuit | OPERATION | A | B`: what the circuit makes of two constant words of 8 bits (`circuits.rt`).
//! - `gates | CIRCUIT`: how many gates, or gates and clauses, a `full_add` of free bits or a `divide` of two of them takes.
//! - `blast | TERM`: the number of a term's word, where each literal is a constant, and else `open`.
//! - `counts | TERM`: the variables that are made for a term, the literals of its word, and the terms that have words.
//! - `back | TERM`: the terms, words and variables once a term is blasted and what was blasted behind it is taken back; then the terms
//!   and words once its two's complement is blasted behind it, the place of the first word's term, and the literals of the second.
//! - `product | X | Y | PRODUCT`: whether unit propagation over the clauses of x * (y + 1) at 8 bits, with x and y required to be these
//!   numbers, refutes that the product is not this one, and that it is.
//! - `holds | GOAL | NUMBERS`: whether a goal is true under a valuation, where its question has clauses and no instance.
//! - `complete | GOAL`: the variables of the clauses, and the variable 0 of the case that an assignment of true alone completes to.
//! - `add | GOAL | INSTANCE ; INSTANCE ..`: for each instance whether it is refused, adds clauses, or is there; and how many there are.
//! - `violated | GOAL`: the instances that a guessed assignment violates, and whether such instances settle the goal, with how many.
//! - `settle | BUDGET | GOAL`: what a goal comes to, with the evidence tried on the same question made anew.
//! - `figures | BUDGET | GOAL`: the rounds and the instances that it takes. `within | BUDGET | GOAL | ROUNDS | INSTANCES`: whether it
//!   takes at most so many rounds and at least so many instances.
//!
//! What the rows expect was found by hand.
#![tactic(auto)]

mod blasted;
mod circuits;
mod goal;
mod guess;
mod instances;
mod product;
mod questions;
mod settling;
mod word;

use crate::blasted::{back_answer, blast_answer, counts_answer};
use crate::circuits::{circuit_answer, gates_answer};
use crate::product::product_answer;
use crate::questions::{add_answer, complete_answer, holds_answer, violated_answer};
use crate::settling::{figures_answer, settle_answer, within_answer};
use hk_term_rows::fields_of;
use std::alloc::{AllocError, Global};
use std::io;

/// What is told of a row about circuits and words.
fn circuit_row(alloc: Global, fields: &[&str]) -> Result<Option<String>, AllocError> {
    match fields {
        ["circuit", name, a, b] => circuit_answer(alloc, name, a, b),
        ["gates", name] => gates_answer(alloc, name),
        ["blast", term] => blast_answer(alloc, term),
        ["counts", term] => counts_answer(alloc, term),
        ["back", term] => back_answer(alloc, term),
        ["product", x, y, result] => product_answer(alloc, x, y, result),
        _ => Ok(None),
    }
}

/// What is told of a row.
fn answer(alloc: Global, fields: &[&str]) -> Result<Option<String>, AllocError> {
    match fields {
        ["holds", goal, numbers] => holds_answer(alloc, goal, numbers),
        ["complete", goal] => complete_answer(alloc, goal),
        ["add", goal, instances] => add_answer(alloc, goal, instances),
        ["violated", goal] => violated_answer(alloc, goal),
        ["settle", budget, goal] => settle_answer(alloc, budget, goal),
        ["figures", budget, goal] => figures_answer(alloc, budget, goal),
        ["within", budget, goal, rounds, instances] => {
            within_answer(alloc, budget, goal, rounds, instances)
        }
        _ => circuit_row(alloc, fields),
    }
}

/// What is printed of a line.
fn told(alloc: Global, row: &str) -> Result<String, AllocError> {
    if row.is_empty() || row.starts_with('#') {
        return String::from_str(alloc, row);
    }
    let fields = fields_of(alloc, row)?;
    match answer(alloc, fields.as_slice())? {
        Some(answer) => format!(in alloc; "{row} | {answer}"),
        None => format!(in alloc; "? {row}"),
    }
}

fn main(rt: HostRuntime) -> io::Result<()> {
    for row in rt.lines(rt.alloc()) {
        let row = row?;
        let told = told(rt.alloc(), row.as_str())?;
        println!(rt; "{told}")?;
    }
    Ok(())
}
