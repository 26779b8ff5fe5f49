//! A test as a program: two questions over terms as clause files, and what the terms say of a solver's model.
//!
//! It prints the clauses of whether x * (y + 1) and x * y + x can differ at 8 bits, which no assignment satisfies, and of
//! whether x * (y + 1) and x * y + y can, which some do. `data/answers.txt` keeps what two solvers said of these clauses.
//! The last lines are the values of the second equation where x and y are those of a solver's model, and where they are not.
#![tactic(auto)]

ghost use Rattle.std.specs.Prelude.{◌≡◌, ◌<◌, length, IfOk};

use hk_blast::{BitTable, blast};
use hk_circuit::word::complement;
use hk_cnf::{Gates, write_dimacs};
use hk_term::{Node, TermId, TermKind, Terms, Valuation};
use std::alloc::{AllocError, Global};
use std::io;

/// Whether x * (y + 1) is x * y + x, or, exchanged, x * y + y, at 8 bits.
fn equation(terms: &mut Terms, exchanged: bool) -> Result<TermId, AllocError>
    ensures { IfOk result (λ t. t < length terms.new) }
{
    let x = terms.intern(Node::Var { width: 8, id: 0 })?;
    let y = terms.intern(Node::Var { width: 8, id: 1 })?;
    let one = terms.intern(Node::Const { width: 8, value: 1 })?;
    let next = terms.intern(Node::Binary {
        kind: TermKind::Add,
        a: y,
        b: one,
    })?;
    let a = terms.intern(Node::Binary {
        kind: TermKind::Mul,
        a: x,
        b: next,
    })?;
    let product = terms.intern(Node::Binary {
        kind: TermKind::Mul,
        a: x,
        b: y,
    })?;
    let rest = if exchanged { y } else { x };
    let b = terms.intern(Node::Binary {
        kind: TermKind::Add,
        a: product,
        b: rest,
    })?;
    let t = terms.intern(Node::Binary {
        kind: TermKind::Eq,
        a,
        b,
    })?;
    Ok(t)
}

/// The clauses of the question whether an equation can be false.
fn question(alloc: Global, exchanged: bool) -> Result<Vec<u8>, AllocError> {
    let mut terms = Terms::new(alloc);
    let t = equation(&mut terms, exchanged)?;
    let mut gates = Gates::new(alloc);
    let mut bits = BitTable::new(alloc);
    blast(&terms, t, &mut gates, &mut bits)?;
    if let Some(word) = bits.get(t) {
        let clause = complement(alloc, word)?;
        gates.require(clause.as_slice())?;
    }
    write_dimacs(alloc, gates.clauses())
}

/// The clauses as text.
fn clause_file(alloc: Global, exchanged: bool) -> Result<String, AllocError> {
    let text = question(alloc, exchanged)?;
    Ok(String::from_utf8(text).unwrap_or(String::new(alloc)))
}

/// Whether the exchanged equation is true of two numbers, as a number of one bit.
fn value_at(alloc: Global, x: u64, y: u64) -> Result<u64, AllocError> {
    let mut terms = Terms::new(alloc);
    let t = equation(&mut terms, true)?;
    let mut v = Valuation::new(alloc);
    v.vars.set(0, x)?;
    v.vars.set(1, y)?;
    let mut room = vec![in alloc; 0; 2 * terms.len() as usize]?;
    Ok(terms.value(&v, t, &mut room))
}

fn main(rt: HostRuntime) -> io::Result<()> {
    for exchanged in [false, true] {
        let text = clause_file(rt.alloc(), exchanged)?;
        print!(rt; "{text}")?;
    }
    for (x, y) in [(0, 128), (3, 3)] {
        let value = value_at(rt.alloc(), x, y)?;
        println!(rt; "x = {x}, y = {y}: {value}")?;
    }
    Ok(())
}
