//! Gates at literals: steps on a table of gates, one behind another, with what each gives.
//!
//! A comma and a blank stand between steps. What they give comes out in the same order, each with a semicolon behind it, and then the
//! number of clauses.

ghost use Rattle.std.specs.Prelude.{◌≡◌, IfSome};
ghost use Rattle.hk_cnf.specs.Literal.{IsWithin};
ghost use Rattle.hk_cnf.specs.Circuit.{Circuit};
ghost use Rattle.hk_cnf.specs.Front.{IsFront};

use crate::row::{add_text, literal};
use hk_cnf::{GateSizes, Gates, Lit, write_dimacs};
use std::alloc::{AllocError, Global};

/// The literal that a word writes, where it is one of the first variables or its negation.
fn known(gates: &Gates, word: &str) -> Option<Lit>
    ensures { IfSome result (λ l. IsWithin gates.now.vars l) }
{
    match literal(word) {
        Some(lit) if lit.place() < gates.sizes().vars => Some(lit),
        _ => None,
    }
}

/// Adds a conjunction and requires it.
fn add_required(gates: &mut Gates, a: Lit, b: Lit) -> Result<(), AllocError>
    requires first { IsWithin gates.old.vars a }
    requires second { IsWithin gates.old.vars b }
    ensures front { (c : Circuit) → IsFront c gates.old → IsFront c gates.new }
{
    let both = gates.and(a, b)?;
    gates.require(&[both])?;
    Ok(())
}

/// Adds a conjunction and requires it, and takes all of it back.
fn add_and_take_back(gates: &mut Gates, a: Lit, b: Lit) -> Result<(), AllocError>
    requires first { IsWithin gates.old.vars a }
    requires second { IsWithin gates.old.vars b }
    ensures { gates.new ≡ gates.old }
{
    let sizes = gates.sizes();
    let done = add_required(gates, a, b);
    // for its clause `circuit`
    gates.sizes();
    gates.cut(sizes);
    done
}

/// What a step on two literals gives: `and A B` their conjunction, and of `either A B`, which requires one of them, `both A B`, which
/// requires their conjunction, and `back A B`, which does that and takes it back, that it is done.
fn on_two(
    gates: &mut Gates,
    call: &str,
    a: Lit,
    b: Lit,
    given: &mut String,
) -> Result<(), AllocError>
    requires first { IsWithin gates.old.vars a }
    requires second { IsWithin gates.old.vars b }
{
    match call {
        "and" => {
            let number = gates.and(a, b)?.number();
            return write!(given, "{number};");
        }
        "either" => gates.require(&[a, b])?,
        "both" => add_required(gates, a, b)?,
        "back" => add_and_take_back(gates, a, b)?,
        _ => return given.push_str("?;"),
    }
    given.push_str("done;")
}

/// What a step gives: `fresh` and `constant` a literal, `clear` takes all away, `sizes` tells the numbers of variables, clauses and gates,
/// and `text` the clauses in DIMACS CNF.
fn alone(
    alloc: Global,
    gates: &mut Gates,
    call: &str,
    given: &mut String,
) -> Result<(), AllocError> {
    match call {
        "fresh" => {
            let number = gates.fresh()?.number();
            write!(given, "{number};")
        }
        "constant" => {
            let number = gates.constant()?.number();
            write!(given, "{number};")
        }
        "clear" => {
            gates.cut(GateSizes {
                vars: 0,
                clauses: 0,
                gates: 0,
            });
            given.push_str("cleared;")
        }
        "sizes" => {
            let GateSizes {
                vars,
                clauses,
                gates,
            } = gates.sizes();
            write!(given, "{vars} {clauses} {gates};")
        }
        "text" => {
            let text = write_dimacs(alloc, gates.clauses())?;
            add_text(given, &text)?;
            given.push(';')
        }
        _ => given.push_str("?;"),
    }
}

/// Takes a step.
fn step(
    alloc: Global,
    gates: &mut Gates,
    words: &[&str],
    given: &mut String,
) -> Result<(), AllocError> {
    match words {
        [call] => alone(alloc, gates, call, given),
        [call, a, b] => match (known(gates, a), known(gates, b)) {
            (Some(a), Some(b)) => on_two(gates, call, a, b, given),
            _ => given.push_str("no literal;"),
        },
        _ => given.push_str("?;"),
    }
}

/// Takes steps in their order.
fn take_steps(
    alloc: Global,
    gates: &mut Gates,
    steps: &str,
    given: &mut String,
) -> Result<(), AllocError> {
    for words in steps.split(", ") {
        let words: Vec<&str> = words.split(' ').collect(alloc)?;
        step(alloc, gates, &words, given)?;
    }
    Ok(())
}

/// What steps on an empty table of gates give.
pub(crate) fn steps_given(alloc: Global, steps: &str) -> Result<String, AllocError> {
    let mut gates = Gates::new(alloc);
    let mut given = String::new(alloc);
    take_steps(alloc, &mut gates, steps, &mut given)?;
    let count = gates.into_clauses().len();
    write!(given, "{count}")?;
    Ok(given)
}
