//! The case that is read from an assignment through the table.

ghost use Rattle.std.specs.Prelude.{◌≡◌, ℕ, ◌<◌, ◌≤◌, ◌^◌, if◌then◌else◌, length, map, slice_get, Some, IfOk, OnOk};
ghost use Rattle.std.specs.List.{All};
ghost use Rattle.hk_term.specs.Meaning.{reading_of};
ghost use Rattle.hk_term.specs.Tables.{number_at, entry_at};
ghost use Rattle.hk_cnf.specs.Literal.{IsWithin, value_at};
ghost use Rattle.hk_blast.specs.Blasted.{word_in, word_number, HasWord};
ghost use Rattle.hk_inst.specs.Inputs.{is_variable, is_read_at, number_in, variable_number, entry_number, completed};
ghost use Rattle.hk_inst.specs.ReadNumbers.{place_read, numbers_at};
ghost use Rattle.hk_inst.specs.States.{asked_of, IsKept};

use crate::state::State;
use crate::subject::read_of;
use hk_blast::BitTable;
use hk_cnf::{Assignment, Lit};
use hk_term::{ArrayTable, Node, NumberTable, TermId, Terms, Valuation};
use std::alloc::{AllocError, Global};

// What the values make of a literal.
fn value(values: &[bool], lit: Lit) -> bool
    requires { IsWithin (length values.now) lit }
    ensures { result ≡ value_at values.now lit }
{
    values[lit.place() as usize] != lit.is_negation()
}

// The number of a word, least bit first.
fn number(values: &[bool], word: &[Lit]) -> u64
    requires short { length word.now ≤ 64 }
    requires within { All (IsWithin (length values.now)) word.now }
    ensures number { result ≡ word_number values.now word.now }
    ensures below { result < 2 ^ length word.now }
{
    let mut number = 0;
    let mut i = word.len();
    while i > 0 {
        i -= 1;
        number = 2 * number + u64::from(value(values, word[i]));
    }
    number
}

// The number of a term.
pub(crate) fn number_of(values: &[bool], bits: &BitTable, t: TermId) -> u64
    requires short { (k : ℕ) → length (word_in bits.now k) ≤ 64 }
    requires within { (k : ℕ) → All (IsWithin (length values.now)) (word_in bits.now k) }
    ensures { result ≡ number_in bits.now values.now t }
{
    match bits.get(t) {
        Some(word) => number(values, word),
        None => 0,
    }
}

// A variable has the number of its word; another term sets nothing, and its word is not looked up.
fn set_variable(
    vars: &mut NumberTable,
    node: &Node,
    values: &[bool],
    bits: &BitTable,
    t: TermId,
) -> Result<(), AllocError>
    requires short { (k : ℕ) → length (word_in bits.now k) ≤ 64 }
    requires within { (k : ℕ) → All (IsWithin (length values.now)) (word_in bits.now k) }
    ensures { OnOk result ((id : ℕ) → number_at vars.new id ≡ (if is_variable (Some node.now) id then number_in bits.now values.now t else number_at vars.old id)) }
{
    match node {
        Node::Var { id, .. } => {
            let number = number_of(values, bits, t);
            vars.set(*id, number)
        }
        Node::Const { .. } => Ok(()),
        Node::Select { .. } => Ok(()),
        Node::Unary { .. } => Ok(()),
        Node::Binary { .. } => Ok(()),
        Node::Choose { .. } => Ok(()),
        Node::Resize { .. } => Ok(()),
        Node::ForAll { .. } => Ok(()),
    }
}

// A read has a number, at the number of its index; another term sets nothing.
pub(crate) fn set_entry(
    arrays: &mut ArrayTable,
    node: &Node,
    values: &[bool],
    bits: &BitTable,
    number: u64,
) -> Result<(), AllocError>
    requires short { (k : ℕ) → length (word_in bits.now k) ≤ 64 }
    requires within { (k : ℕ) → All (IsWithin (length values.now)) (word_in bits.now k) }
    ensures { OnOk result ((array place : ℕ) → entry_at arrays.new array place ≡ (if is_read_at (Some node.now) (number_in bits.now values.now) array place then number else entry_at arrays.old array place)) }
{
    match node {
        Node::Select { array, index, .. } => {
            let place = number_of(values, bits, *index);
            arrays.set(*array, place, number)
        }
        Node::Const { .. } => Ok(()),
        Node::Var { .. } => Ok(()),
        Node::Unary { .. } => Ok(()),
        Node::Binary { .. } => Ok(()),
        Node::Choose { .. } => Ok(()),
        Node::Resize { .. } => Ok(()),
        Node::ForAll { .. } => Ok(()),
    }
}

// A read has its number, at its place; another term sets nothing.
fn set_read(arrays: &mut ArrayTable, node: &Node, numbers: ReadNumbers) -> Result<(), AllocError>
    ensures { OnOk result ((f : ℕ → ℕ) → numbers.place ≡ place_read (Some node.now) f → (array place : ℕ) → entry_at arrays.new array place ≡ (if is_read_at (Some node.now) f array place then numbers.number else entry_at arrays.old array place)) }
{
    match node {
        Node::Select { array, .. } => arrays.set(*array, numbers.place, numbers.number),
        Node::Const { .. } => Ok(()),
        Node::Var { .. } => Ok(()),
        Node::Unary { .. } => Ok(()),
        Node::Binary { .. } => Ok(()),
        Node::Choose { .. } => Ok(()),
        Node::Resize { .. } => Ok(()),
        Node::ForAll { .. } => Ok(()),
    }
}

// The numbers of variables: of two terms with one id the first of the table counts.
pub(crate) fn variables(
    alloc: Global,
    terms: &Terms,
    bits: &BitTable,
    values: &[bool],
) -> Result<NumberTable, AllocError>
    requires there { (k : ℕ) → HasWord bits.now k → k < length terms.now }
    requires short { (k : ℕ) → length (word_in bits.now k) ≤ 64 }
    requires within { (k : ℕ) → All (IsWithin (length values.now)) (word_in bits.now k) }
    ensures { IfOk result (λ vars. (id : ℕ) → number_at vars id ≡ variable_number terms.now (number_in bits.now values.now) bits.now id) }
{
    let mut vars = NumberTable::new(alloc);
    let mut i = bits.len();
    while i > 0 {
        i -= 1;
        let t = bits.at(i);
        set_variable(&mut vars, terms.node(t), values, bits, t)?;
    }
    Ok(vars)
}

/// Where a read reads in its array, and the number that it has.
#[derive(Clone, Copy, Debug)]
pub(crate) struct ReadNumbers {
    pub place: u64,
    pub number: u64,
}

// The place and the number of a read.
fn numbers_of(terms: &Terms, bits: &BitTable, values: &[bool], t: TermId) -> ReadNumbers
    requires there { t < length terms.now }
    requires short { (k : ℕ) → length (word_in bits.now k) ≤ 64 }
    requires within { (k : ℕ) → All (IsWithin (length values.now)) (word_in bits.now k) }
    ensures { result ≡ numbers_at terms.now (number_in bits.now values.now) t }
{
    let place = match read_of(terms.node(t)) {
        Some((_, index)) => number_of(values, bits, index),
        None => 0,
    };
    ReadNumbers {
        place,
        number: number_of(values, bits, t),
    }
}

// The places and the numbers of the reads.
pub(crate) fn read_numbers(
    alloc: Global,
    terms: &Terms,
    bits: &BitTable,
    reads: &[u64],
    values: &[bool],
) -> Result<Vec<ReadNumbers>, AllocError>
    requires there { All (λ t. t < length terms.now) reads.now }
    requires short { (k : ℕ) → length (word_in bits.now k) ≤ 64 }
    requires within { (k : ℕ) → All (IsWithin (length values.now)) (word_in bits.now k) }
    ensures { IfOk result (λ numbers. numbers.items ≡ map (numbers_at terms.now (number_in bits.now values.now)) reads.now) }
{
    let mut numbers = Vec::with_capacity(alloc, reads.len())?;
    for t in reads {
        numbers.push(numbers_of(terms, bits, values, TermId::at(*t)))?;
    }
    Ok(numbers)
}

// The numbers of the entries that are read: of two reads at one place the first counts.
pub(crate) fn entries(
    alloc: Global,
    terms: &Terms,
    reads: &[u64],
    numbers: &[ReadNumbers],
) -> Result<ArrayTable, AllocError>
    requires there { All (λ t. t < length terms.now) reads.now }
    requires numbers { length numbers.now ≡ length reads.now }
    ensures { IfOk result (λ arrays. (f : ℕ → ℕ) → numbers.now ≡ map (numbers_at terms.now f) reads.now → (array place : ℕ) → entry_at arrays array place ≡ entry_number terms.now f reads.now array place) }
{
    let mut arrays = ArrayTable::new(alloc);
    let mut i = reads.len();
    while i > 0 {
        i -= 1;
        let node = terms.node(TermId::at(reads[i]));
        set_read(&mut arrays, node, numbers[i])?;
    }
    Ok(arrays)
}

// The completed case, with the places and the numbers of the reads.
pub(crate) fn completion(
    alloc: Global,
    s: &State,
    a: &Assignment,
) -> Result<(Valuation, Vec<ReadNumbers>), AllocError>
    requires kept { IsKept s.now }
    requires size { length a.now ≡ s.now.gates.vars }
    ensures case { IfOk result (λ r. reading_of r.0 ≡ completed s.now.terms (asked_of s.now).table (number_in s.now.bits a.now)) }
    ensures numbers { IfOk result (λ r. r.1.items ≡ map (numbers_at s.now.terms (number_in s.now.bits a.now)) s.now.reads.items) }
{
    let values = a.as_slice();
    let vars = variables(alloc, &s.terms, &s.bits, values)?;
    let reads = s.reads.as_slice();
    let numbers = read_numbers(alloc, &s.terms, &s.bits, reads, values)?;
    let arrays = entries(alloc, &s.terms, reads, numbers.as_slice())?;
    Ok((Valuation { vars, arrays }, numbers))
}
