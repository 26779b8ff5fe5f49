//! Pairs of reads that an assignment violates: each read is compared with the first one at its place.

ghost use Rattle.std.specs.Prelude.{◌≡◌, ℕ, ◌<◌, ◌≤◌, [], length, map, Some, None, All, Contains, IfOk, OnOk, IfSome, IfNone, true};
ghost use Rattle.hk_term.specs.Meaning.{Reading};
ghost use Rattle.hk_term.specs.Tables.{entry_at};
ghost use Rattle.hk_cnf.specs.Literal.{IsWithin};
ghost use Rattle.hk_blast.specs.Blasted.{word_in};
ghost use Rattle.hk_inst.specs.Inputs.{number_in, entry_number};
ghost use Rattle.hk_inst.specs.Truths.{IsTrue, is_among};
ghost use Rattle.hk_inst.specs.Questions.{Asked};
ghost use Rattle.hk_inst.specs.ReadNumbers.{place_read, numbers_at};
ghost use Rattle.hk_inst.specs.States.{asked_of};
ghost use Rattle.hk_inst.specs.Violations.{IsViolated, Clashes, AgreesWithFirst, first_read};

use crate::completion::{ReadNumbers, number_of, set_entry};
use crate::instance::{Instance, InstanceList};
use crate::state::State;
use crate::subject::read_of;
use hk_blast::BitTable;
use hk_term::{ArrayTable, Node, TermId, Terms};
use std::alloc::{AllocError, Global};

// The number of the first read at each place of an array.
fn firsts(
    alloc: Global,
    terms: &Terms,
    bits: &BitTable,
    reads: &[u64],
    values: &[bool],
) -> Result<ArrayTable, AllocError>
    requires there { All (λ t. t < length terms.now) reads.now }
    requires short { (k : ℕ) → length (word_in bits.now k) ≤ 64 }
    requires within { (k : ℕ) → All (IsWithin (length values.now)) (word_in bits.now k) }
    ensures { IfOk result (λ firsts. (array place : ℕ) → entry_at firsts array place ≡ first_read terms.now (number_in bits.now values.now) reads.now 0 array place) }
{
    let mut firsts = ArrayTable::new(alloc);
    let mut i = reads.len();
    while i > 0 {
        i -= 1;
        let t = TermId::at(reads[i]);
        set_entry(&mut firsts, terms.node(t), values, bits, i as u64)?;
    }
    Ok(firsts)
}

// The number of the first read at the place of a read, where their values differ.
fn clash(
    s: &State,
    values: &[bool],
    arrays: &ArrayTable,
    firsts: &ArrayTable,
    t: TermId,
) -> Option<u64>
    requires read { Contains s.now.reads.items t }
    requires there { t < length s.now.terms }
    requires short { (k : ℕ) → length (word_in s.now.bits k) ≤ 64 }
    requires within { (k : ℕ) → All (IsWithin (length values.now)) (word_in s.now.bits k) }
    requires arrays { (array place : ℕ) → entry_at arrays.now array place ≡ entry_number s.now.terms (number_in s.now.bits values.now) s.now.reads.items array place }
    requires firsts { (array place : ℕ) → entry_at firsts.now array place ≡ first_read s.now.terms (number_in s.now.bits values.now) s.now.reads.items 0 array place }
    ensures differs { IfSome result (λ j. Clashes (asked_of s.now).nodes (asked_of s.now).table (number_in s.now.bits values.now) j t) }
    ensures agrees { IfNone result (AgreesWithFirst s.now.terms (number_in s.now.bits values.now) s.now.reads.items t) }
{
    match read_of(s.terms.node(t)) {
        Some((array, index)) => {
            let place = number_of(values, &s.bits, index);
            let number = number_of(values, &s.bits, t);
            if arrays.get(array, place) == number {
                None
            } else {
                Some(firsts.get(array, place))
            }
        }
        None => None,
    }
}

// A pair comes behind what was found, or none does.
fn push_pair(first: Option<u64>, k: usize, found: &mut InstanceList) -> Result<(), AllocError>
    ensures found { OnOk result ((q : Asked) (f : ℕ → ℕ) (r : Reading) → IfSome first (λ j. IsViolated q f r (Instance.Pair j k)) → All (IsViolated q f r) found.old → All (IsViolated q f r) found.new) }
    ensures none { OnOk result (found.new ≡ [] → (found.old ≡ []) × (first ≡ None)) }
{
    if let Some(a) = first {
        found.push(Instance::Pair { a, b: k as u64 })?;
    }
    Ok(())
}

// Whether the number of a read is that of the first read at its place.
fn agrees(node: &Node, numbers: ReadNumbers, arrays: &ArrayTable) -> bool
    ensures { result ≡ true → (f : ℕ → ℕ) → numbers.place ≡ place_read (Some node.now) f → (array size i : ℕ) → node.now ≡ Node.Select array size i → numbers.number ≡ entry_at arrays.now array (f i) }
{
    match node {
        Node::Select { array, .. } => arrays.get(*array, numbers.place) == numbers.number,
        Node::Const { .. } => true,
        Node::Var { .. } => true,
        Node::Unary { .. } => true,
        Node::Binary { .. } => true,
        Node::Choose { .. } => true,
        Node::Resize { .. } => true,
        Node::ForAll { .. } => true,
    }
}

// Whether each read agrees with the first one at its place.
fn all_agree(terms: &Terms, reads: &[u64], numbers: &[ReadNumbers], arrays: &ArrayTable) -> bool
    requires there { All (λ t. t < length terms.now) reads.now }
    requires numbers { length numbers.now ≡ length reads.now }
    ensures { result ≡ true → (f : ℕ → ℕ) → numbers.now ≡ map (numbers_at terms.now f) reads.now → ((array place : ℕ) → entry_at arrays.now array place ≡ entry_number terms.now f reads.now array place) → All (AgreesWithFirst terms.now f reads.now) reads.now }
{
    for k in 0..reads.len() {
        let node = terms.node(TermId::at(reads[k]));
        if !agrees(node, numbers[k], arrays) {
            return false;
        }
    }
    true
}

// For each read whose value differs from that of the first read at its place, the pair of both. The reads are gone through
// once, and once more where two differ.
pub(crate) fn clashes(
    alloc: Global,
    s: &State,
    values: &[bool],
    numbers: &[ReadNumbers],
    arrays: &ArrayTable,
) -> Result<InstanceList, AllocError>
    requires there { All (λ t. t < length s.now.terms) s.now.reads.items }
    requires short { (k : ℕ) → length (word_in s.now.bits k) ≤ 64 }
    requires within { (k : ℕ) → All (IsWithin (length values.now)) (word_in s.now.bits k) }
    requires numbers { numbers.now ≡ map (numbers_at s.now.terms (number_in s.now.bits values.now)) s.now.reads.items }
    requires arrays { (array place : ℕ) → entry_at arrays.now array place ≡ entry_number s.now.terms (number_in s.now.bits values.now) s.now.reads.items array place }
    requires added { (a b : ℕ) (r : Reading) → is_among s.now.instances (Instance.Pair a b) ≡ true → IsTrue (asked_of s.now).nodes (asked_of s.now).table (number_in s.now.bits values.now) r (Instance.Pair a b) }
    ensures found { IfOk result (λ l. (r : Reading) → All (IsViolated (asked_of s.now) (number_in s.now.bits values.now) r) l) }
    ensures none { IfOk result (λ l. l ≡ [] → All (AgreesWithFirst s.now.terms (number_in s.now.bits values.now) s.now.reads.items) s.now.reads.items) }
{
    let mut found = InstanceList::new(alloc);
    let reads = s.reads.as_slice();
    if all_agree(&s.terms, reads, numbers, arrays) {
        return Ok(found);
    }
    let firsts = firsts(alloc, &s.terms, &s.bits, reads, values)?;
    for k in 0..reads.len() {
        let first = clash(s, values, arrays, &firsts, TermId::at(reads[k]));
        push_pair(first, k, &mut found)?;
    }
    Ok(found)
}
