//! A test as a program: what verdicts keep, proofs of acceptances that are checked as they are, with one part changed, and for another
//! handler, and questions of single obligations.
//!
//! Each line of standard input comes out again, with its answer behind it. Fields stand between blanks.
//!
//! - `# WORDS`: what the rows below show. It has no answer.
//! - `file NAME`: an empty text under a new name, to which `| TEXT` adds a line. KERNEL and SPEC are names of such texts.
//! - `open KERNEL SPEC`: what the initial memory comes to.
//! - `decide KERNEL SPEC BUDGET`, or with `keep` behind it: the verdict on the first handler with a budget of conflicts, and how many
//!   refutations and trials of all cases are kept as its proofs.
//! - `check KERNEL SPEC BUDGET PLACE CHANGE`: what checking the proofs of the first handler comes to where the one at a place is changed
//!   (`changes.rt` has the words of changes), and how many rows the log of that one has.
//! - `other KERNEL SPEC BUDGET`: the same where its proofs are given for the second handler.
//! - `cases KERNEL SPEC COUNT`: the same of so many proofs that all cases were tried, given for the first handler.
//! - `ask KERNEL SPEC PLACE NAME CALL`: of the question of the first handler's obligation at a place, which has that name. The call is
//!   `goal NUMBER ..`, whether its goal is true where the first entries of the arrays have these numbers; `bytes`, the numbers below 256
//!   that make it true as the first array's first entry; `none`, what an instance of a quantifier that it lacks comes to; or `clauses N`,
//!   whether it has any clause and at most N.
//!
//! Where ` > FRONT` stands behind a row, its answer begins so, and what it goes on with is left open: `as expected` stands for it. A line of
//! no such form, or over a text that is refused, comes out behind a question mark.
#![tactic(auto)]

mod asked;
mod changes;
mod checks;
mod found;
mod given;
mod inputs;
mod rows;
mod verdicts;

use crate::rows::answered;
use std::io;

fn main(rt: HostRuntime) -> io::Result<()> {
    let mut texts = Vec::new(rt.alloc());
    for row in rt.lines(rt.alloc()) {
        let row = row?;
        let told = answered(rt.alloc(), &mut texts, row.as_str())?;
        println!(rt; "{told}")?;
    }
    Ok(())
}
