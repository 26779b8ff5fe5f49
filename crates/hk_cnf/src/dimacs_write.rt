//! Writes clause files in DIMACS CNF.

ghost use Rattle.std.specs.Prelude.{◌≡◌, ◌<◌, ◌^◌, ◌++◌, Ok, IfOk, OnOk};
ghost use Rattle.std.specs.Fmt.{decimal, signed_decimal};
ghost use Rattle.hk_cnf.specs.Clauses.{AreWithin};
ghost use Rattle.hk_cnf.specs.Dimacs.{dimacs_of};
ghost use Rattle.hk_cnf.specs.DimacsText.{header_text, clause_text, list_text};

use crate::clauses::ClauseList;
use crate::literal::Lit;
use itoa::Buffer;
use std::alloc::{AllocError, Global};

/// Adds a number in decimal.
fn put_natural(text: &mut Vec<u8>, number: u64) -> Result<(), AllocError>
    ensures { OnOk result (text.new.items ≡ text.old.items ++ decimal number) }
{
    let mut buffer = Buffer::new();
    text.extend_from_slice(buffer.format(number).as_bytes())?;
    Ok(())
}

/// Adds a number in decimal, with its sign where it is negative.
fn put_number(text: &mut Vec<u8>, number: i64) -> Result<(), AllocError>
    ensures { OnOk result (text.new.items ≡ text.old.items ++ signed_decimal number) }
{
    let mut buffer = Buffer::new();
    text.extend_from_slice(buffer.format(number).as_bytes())?;
    Ok(())
}

/// Adds a clause and its 0 on a line.
fn put_clause(text: &mut Vec<u8>, clause: &[Lit]) -> Result<(), AllocError>
    ensures { OnOk result (text.new.items ≡ text.old.items ++ clause_text clause.now) }
{
    for lit in clause {
        put_number(text, lit.number())?;
        text.push(b' ')?;
    }
    text.extend_from_slice(b"0\n")?;
    Ok(())
}

/// The line `p cnf V C`.
fn header(alloc: Global, vars: u64, clauses: u64) -> Result<Vec<u8>, AllocError>
    ensures { IfOk result (λ text. text.items ≡ header_text vars clauses) }
{
    let mut text = Vec::from_slice(alloc, b"p cnf ")?;
    put_natural(&mut text, vars)?;
    text.push(b' ')?;
    put_natural(&mut text, clauses)?;
    text.push(b'\n')?;
    Ok(text)
}

/// The list as a text in DIMACS CNF: a header, and a line for each clause. It is read back as the same list.
pub fn write_dimacs(alloc: Global, list: &ClauseList) -> Result<Vec<u8>, AllocError>
    ensures text { IfOk result (λ text. text.items ≡ list_text list.now) }
    ensures read { IfOk result (λ text. dimacs_of text.items ≡ Ok list.now) }
{
    let vars = list.vars();
    let clauses = list.len();
    let mut text = header(alloc, vars, clauses as u64)?;
    for i in 0..clauses {
        put_clause(&mut text, list.clause(i))?;
    }
    Ok(text)
}
