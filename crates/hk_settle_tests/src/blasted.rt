//! Terms as words of literals, and what was blasted taken back.

ghost use Rattle.std.specs.Prelude.{◌≡◌, ◌<◌, length};
ghost use Rattle.hk_cnf.specs.Circuit.{Circuit};
ghost use Rattle.hk_cnf.specs.Front.{IsFront};
ghost use Rattle.hk_term.specs.Shape.{Grows};
ghost use Rattle.hk_blast.specs.Blasted.{AreBlasted, Lengthens, word_in};

use crate::word::{number, number_text};
use hk_blast::{BitTable, blast};
use hk_cnf::{Gates, Lit};
use hk_term::{Node, TermId, Terms, UnaryKind};
use hk_term_rows::{Making, term_of};
use std::alloc::{AllocError, Global};

/// The literals of a term, and no literal where it was not blasted.
pub fn word_at(bits: &BitTable, t: TermId) -> &[Lit]
    ensures { result.now ≡ word_in bits.now t }
{
    match bits.get(t) {
        Some(word) => word,
        None => &[],
    }
}

/// The number of a term's word, where each literal is a constant.
fn constant(alloc: Global, terms: &Terms, t: TermId) -> Result<Option<u64>, AllocError>
    requires { t < length terms.now }
{
    let mut gates = Gates::new(alloc);
    let mut bits = BitTable::new(alloc);
    blast(terms, t, &mut gates, &mut bits)?;
    let truth = gates.constant()?;
    Ok(number(word_at(&bits, t), truth))
}

/// How many variables are made for a term, how many literals its word has, and how many terms have words.
fn counts(alloc: Global, terms: &Terms, t: TermId) -> Result<(u64, usize, u64), AllocError>
    requires { t < length terms.now }
{
    let mut gates = Gates::new(alloc);
    let mut bits = BitTable::new(alloc);
    blast(terms, t, &mut gates, &mut bits)?;
    Ok((gates.sizes().vars, word_at(&bits, t).len(), bits.len()))
}

/// The number that a term comes to.
pub fn blast_answer(alloc: Global, text: &str) -> Result<Option<String>, AllocError> {
    let mut terms = Terms::new(alloc);
    match term_of(alloc, &mut terms, Making::Plain, text)? {
        Some(t) if t.place() < terms.len() => {
            let number = constant(alloc, &terms, t)?;
            Ok(Some(number_text(alloc, number)?))
        }
        _ => Ok(None),
    }
}

/// The variables, literals and words of a term.
pub fn counts_answer(alloc: Global, text: &str) -> Result<Option<String>, AllocError> {
    let mut terms = Terms::new(alloc);
    match term_of(alloc, &mut terms, Making::Plain, text)? {
        Some(t) if t.place() < terms.len() => {
            let (vars, literals, words) = counts(alloc, &terms, t)?;
            Ok(Some(format!(in alloc; "{vars} {literals} {words}")?))
        }
        _ => Ok(None),
    }
}

/// Blasts the two's complement of a term that is there.
fn blast_negation(
    terms: &mut Terms,
    a: TermId,
    gates: &mut Gates,
    bits: &mut BitTable,
) -> Result<(), AllocError>
    requires term { a < length terms.old }
    requires table { AreBlasted terms.old gates.old bits.old }
    ensures grows { Grows terms.old terms.new }
    ensures front { (c : Circuit) → IsFront c gates.old → IsFront c gates.new }
    ensures lengthens { Lengthens terms.new gates.old.vars bits.old bits.new }
{
    let t = terms.intern(Node::Unary {
        kind: UnaryKind::Neg,
        a,
    })?;
    blast(terms, t, gates, bits)
}

/// Blasts the two's complement of a term, and takes all of it back.
fn blast_and_take_back(
    terms: &mut Terms,
    a: TermId,
    gates: &mut Gates,
    bits: &mut BitTable,
) -> Result<(), AllocError>
    requires term { a < length terms.old }
    requires table { AreBlasted terms.old gates.old bits.old }
    ensures terms { terms.new ≡ terms.old }
    ensures gates { gates.new ≡ gates.old }
    ensures bits { bits.new ≡ bits.old }
{
    let count = terms.len();
    let sizes = gates.sizes();
    let words = bits.len();
    let done = blast_negation(terms, a, gates, bits);
    // for its clause `circuit`
    gates.sizes();
    terms.cut(count);
    gates.cut(sizes);
    bits.cut(words);
    done
}

/// The place of the first term that has a word, and how many literals the second word has.
fn two_words(bits: &BitTable) -> Option<(u64, usize)> {
    if bits.len() != 2 {
        return None;
    }
    Some((bits.at(0).place(), bits.word_at(1).len()))
}

/// The terms, words and variables once a term is blasted and what was blasted behind it is taken back.
fn left(
    terms: &mut Terms,
    a: TermId,
    gates: &mut Gates,
    bits: &mut BitTable,
) -> Result<[u64; 3], AllocError>
    requires term { a < length terms.old }
    requires table { AreBlasted terms.old gates.old bits.old }
    ensures terms { terms.new ≡ terms.old }
    ensures table { AreBlasted terms.new gates.new bits.new }
{
    blast(terms, a, gates, bits)?;
    blast_and_take_back(terms, a, gates, bits)?;
    Ok([terms.len(), bits.len(), gates.sizes().vars])
}

/// The same, and the terms and words once the two's complement is blasted behind it, with its words.
fn back(alloc: Global, terms: &mut Terms, a: TermId) -> Result<String, AllocError>
    requires { a < length terms.old }
{
    let mut gates = Gates::new(alloc);
    let mut bits = BitTable::new(alloc);
    let [count, words, vars] = left(terms, a, &mut gates, &mut bits)?;
    blast_negation(terms, a, &mut gates, &mut bits)?;
    let (all, again, second) = (terms.len(), bits.len(), two_words(&bits));
    drop(bits);
    drop(gates);
    let (place, literals) = second.unwrap_or((0, 0));
    format!(in alloc; "{count} {words} {vars}, {all} {again}, {place} {literals}")
}

/// The same of a term that a row writes.
pub fn back_answer(alloc: Global, text: &str) -> Result<Option<String>, AllocError> {
    let mut terms = Terms::new(alloc);
    match term_of(alloc, &mut terms, Making::Plain, text)? {
        Some(t) if t.place() < terms.len() => Ok(Some(back(alloc, &mut terms, t)?)),
        _ => Ok(None),
    }
}
