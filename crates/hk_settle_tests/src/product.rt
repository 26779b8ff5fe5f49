//! A product whose factors are required.

ghost use Rattle.std.specs.Prelude.{◌≡◌, ◌<◌, ℕ, length, All, IfOk};
ghost use Rattle.hk_cnf.specs.Literal.{IsWithin};

use crate::blasted::word_at;
use hk_blast::{BitTable, blast};
use hk_circuit::word::complement;
use hk_cnf::{ClauseList, Gates, Lit};
use hk_term::{Node, TermId, TermKind, Terms};
use hk_term_rows::long;
use std::alloc::{AllocError, Global};

/// Two variables and a product over them.
#[derive(Drop)]
struct Product {
    x: TermId,
    y: TermId,
    result: TermId,
}

/// x * (y + 1) at width 8.
fn make_product(terms: &mut Terms) -> Result<Product, AllocError>
    ensures { IfOk result (λ p. p.result < length terms.new) }
{
    let x = terms.intern(Node::Var { width: 8, id: 0 })?;
    let y = terms.intern(Node::Var { width: 8, id: 1 })?;
    let one = terms.intern(Node::Const { width: 8, value: 1 })?;
    let sum = terms.intern(Node::Binary {
        kind: TermKind::Add,
        a: y,
        b: one,
    })?;
    let result = terms.intern(Node::Binary {
        kind: TermKind::Mul,
        a: x,
        b: sum,
    })?;
    Ok(Product { x, y, result })
}

/// The literal, or its negation.
fn chosen(lit: Lit, truth: bool) -> Lit
    ensures { (n : ℕ) → IsWithin n lit → IsWithin n result }
{
    if truth { lit } else { lit.negated() }
}

/// The literals that are true where a word has this number.
fn literals(alloc: Global, word: &[Lit], number: u64) -> Result<Vec<Lit>, AllocError>
    ensures { IfOk result (λ w. (n : ℕ) → All (IsWithin n) word.now → All (IsWithin n) w.items) }
{
    let mut lits = Vec::new(alloc);
    let mut rest = number;
    for lit in word {
        lits.push(chosen(*lit, rest % 2 == 1))?;
        rest /= 2;
    }
    Ok(lits)
}

/// Requires that a word has this number.
fn require_number(
    alloc: Global,
    gates: &mut Gates,
    word: &[Lit],
    number: u64,
) -> Result<(), AllocError>
    requires { All (IsWithin gates.old.vars) word.now }
    ensures { gates.new.vars ≡ gates.old.vars }
{
    let lits = literals(alloc, word, number)?;
    for lit in lits.as_slice() {
        gates.require(&[*lit])?;
    }
    Ok(())
}

/// Requires that a word does not have this number.
fn refuse_number(
    alloc: Global,
    gates: &mut Gates,
    word: &[Lit],
    number: u64,
) -> Result<(), AllocError>
    requires { All (IsWithin gates.old.vars) word.now }
{
    let lits = literals(alloc, word, number)?;
    let clause = complement(alloc, lits.as_slice())?;
    gates.require(clause.as_slice())
}

/// What the known values make of a literal.
fn value_of(values: &[Option<bool>], lit: Lit) -> Option<bool> {
    match values.get(lit.place() as usize) {
        Some(Some(value)) => Some(*value != lit.is_negation()),
        _ => None,
    }
}

/// What the known values leave of a clause.
#[derive(Drop)]
enum Left {
    Nothing,
    One(Lit),
    Enough,
}

fn left_of(clause: &[Lit], values: &[Option<bool>]) -> Left {
    let mut open = None;
    for lit in clause {
        match value_of(values, *lit) {
            Some(true) => return Left::Enough,
            Some(false) => {}
            None => {
                if open.is_some() {
                    return Left::Enough;
                }
                open = Some(*lit);
            }
        }
    }
    match open {
        Some(lit) => Left::One(lit),
        None => Left::Nothing,
    }
}

/// Sets the literals that are left alone in their clauses. None where nothing is left of a clause, else whether one was set.
fn propagate(list: &ClauseList, values: &mut [Option<bool>]) -> Option<bool> {
    let mut changed = false;
    for i in 0..list.len() {
        match left_of(list.clause(i), values) {
            Left::Nothing => return None,
            Left::Enough => {}
            Left::One(lit) => {
                let place = lit.place() as usize;
                if place < values.len() {
                    values[place] = Some(!lit.is_negation());
                    changed = true;
                }
            }
        }
    }
    Some(changed)
}

/// Whether unit propagation refutes the list.
fn is_refuted(alloc: Global, list: &ClauseList) -> Result<bool, AllocError> {
    let vars = list.vars() as usize;
    let mut values = vec![in alloc; None; vars]?;
    for _ in 0..vars {
        match propagate(list, values.as_mut_slice()) {
            None => return Ok(true),
            Some(false) => return Ok(false),
            Some(true) => {}
        }
    }
    Ok(false)
}

/// A product and its factors, as numbers.
#[derive(Clone, Copy)]
struct Numbers {
    x: u64,
    y: u64,
    result: u64,
}

/// Whether the factors refute that the product is this one, or that it is not.
fn refutes(alloc: Global, numbers: Numbers, is: bool) -> Result<bool, AllocError> {
    let mut terms = Terms::new(alloc);
    let product = make_product(&mut terms)?;
    let mut gates = Gates::new(alloc);
    let mut bits = BitTable::new(alloc);
    blast(&terms, product.result, &mut gates, &mut bits)?;
    require_number(alloc, &mut gates, word_at(&bits, product.x), numbers.x)?;
    require_number(alloc, &mut gates, word_at(&bits, product.y), numbers.y)?;
    if is {
        require_number(
            alloc,
            &mut gates,
            word_at(&bits, product.result),
            numbers.result,
        )?;
    } else {
        refuse_number(
            alloc,
            &mut gates,
            word_at(&bits, product.result),
            numbers.result,
        )?;
    }
    is_refuted(alloc, gates.clauses())
}

/// What is told of a refutation.
fn word_of(refuted: bool) -> &'static str {
    if refuted { "refuted" } else { "not refuted" }
}

/// Whether the factors refute that the product is not this one, and that it is.
pub fn product_answer(
    alloc: Global,
    x: &str,
    y: &str,
    product: &str,
) -> Result<Option<String>, AllocError> {
    let (Some(x), Some(y), Some(result)) = (long(x), long(y), long(product)) else {
        return Ok(None);
    };
    let numbers = Numbers { x, y, result };
    let other = word_of(refutes(alloc, numbers, false)?);
    let this = word_of(refutes(alloc, numbers, true)?);
    Ok(Some(format!(in alloc; "other {other}, this {this}")?))
}
