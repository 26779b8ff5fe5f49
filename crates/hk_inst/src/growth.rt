//! How a question grows: the entries of its table are gone through one after another.

ghost use Rattle.std.specs.Prelude.{◌≡◌, ℕ, ◌+◌, ◌<◌, ◌≤◌, List, ℤ, length, slice_get, Some, IfOk, OnOk};
ghost use Rattle.hk_term.specs.Shape.{Grows};
ghost use Rattle.hk_term.specs.declared.node.Node.{Node};
ghost use Rattle.hk_blast.specs.Blasted.{HasWord};
ghost use Rattle.hk_inst.specs.Questions.{Asked};
ghost use Rattle.hk_inst.specs.Growing.{IsGrowing};
ghost use Rattle.hk_inst.specs.Adding.{Lengthened};
ghost use Rattle.hk_inst.specs.States.{asked_of, IsTask};

use crate::prepare::prepare;
use crate::state::{State, make, require};
use hk_term::{BoundList, Node, TermId, Terms};
use std::alloc::{AllocError, Global};

// What is to be done for a term of the table.
#[derive(Drop)]
pub(crate) enum Task {
    Place(TermId),
    Open(BoundList, TermId),
    Nothing,
}

// What is to be done for a term.
fn task_for(alloc: Global, terms: &Terms, t: TermId) -> Result<Task, AllocError>
    requires { t < length terms.now }
    ensures { IfOk result (λ k. IsTask terms.now t k) }
{
    match terms.node(t) {
        Node::Select { index, .. } => Ok(Task::Place(*index)),
        Node::ForAll { bound, body } => {
            let copy = bound.copy(alloc)?;
            Ok(Task::Open(copy, *body))
        }
        Node::Const { .. } => Ok(Task::Nothing),
        Node::Var { .. } => Ok(Task::Nothing),
        Node::Unary { .. } => Ok(Task::Nothing),
        Node::Binary { .. } => Ok(Task::Nothing),
        Node::Choose { .. } => Ok(Task::Nothing),
        Node::Resize { .. } => Ok(Task::Nothing),
    }
}

// The place of a read comes into the table.
fn place(s: &mut State, done: u64, read: TermId, index: TermId) -> Result<(), AllocError>
    requires growing { IsGrowing (asked_of s.old) s.old.first s.old.next done }
    requires entry { (word : List ℤ) × (slice_get s.old.bits done ≡ Some (read, word)) }
    requires node { (array : ℕ) × (size : ℕ) × (slice_get s.old.terms read ≡ Some (Node.Select array size index)) }
    ensures growing { OnOk result (IsGrowing (asked_of s.new) s.new.first s.new.next (done + 1)) }
    ensures goal { s.new.goal ≡ s.old.goal }
    ensures grows { (front : List Node) → Grows front s.old.terms → Grows front s.new.terms }
    ensures instances { s.new.instances ≡ s.old.instances }
    ensures reads { s.new.reads.items ≡ s.old.reads.items }
    ensures quantifiers { s.new.quantifiers.items ≡ s.old.quantifiers.items }
    ensures first { s.new.first ≡ s.old.first }
    ensures front { (q : Asked) → Lengthened q (asked_of s.old) → Lengthened q (asked_of s.new) }
{
    s.terms.node(read);
    let made = make(&s.terms, index, &mut s.gates, &mut s.bits);
    made
}

// The id behind so many more. Where ids are used up it is want of memory.
fn behind(next: u32, count: usize) -> Result<u32, AllocError>
    ensures { IfOk result (λ n. n ≡ next + count) }
{
    if count > (u32::MAX - next) as usize {
        return Err(AllocError);
    }
    Ok(next + count as u32)
}

// A quantifier is opened: variables stand for a tuple, and it is required that it is true or false at that tuple.
fn open(
    alloc: Global,
    s: &mut State,
    done: u64,
    term: TermId,
    bound: BoundList,
    body: TermId,
) -> Result<(), AllocError>
    requires growing { IsGrowing (asked_of s.old) s.old.first s.old.next done }
    requires entry { (word : List ℤ) × (slice_get s.old.bits done ≡ Some (term, word)) }
    requires node { slice_get s.old.terms term ≡ Some (Node.ForAll bound body) }
    ensures growing { OnOk result (IsGrowing (asked_of s.new) s.new.first s.new.next (done + 1)) }
    ensures goal { s.new.goal ≡ s.old.goal }
    ensures grows { (front : List Node) → Grows front s.old.terms → Grows front s.new.terms }
    ensures instances { s.new.instances ≡ s.old.instances }
    ensures reads { s.new.reads.items ≡ s.old.reads.items }
    ensures quantifiers { s.new.quantifiers.items ≡ s.old.quantifiers.items }
    ensures first { s.new.first ≡ s.old.first }
    ensures front { (q : Asked) → Lengthened q (asked_of s.old) → Lengthened q (asked_of s.new) }
{
    let bound = bound.as_slice();
    let next = behind(s.next, bound.len())?;
    let opening = prepare(alloc, &mut s.terms, term, bound, body, s.next)?;
    make(&s.terms, opening.demand, &mut s.gates, &mut s.bits)?;
    require(opening.demand, &mut s.gates, &s.bits)?;
    s.openings.push(opening)?;
    s.next = next;
    Ok(())
}

// One entry of the table is gone through.
fn advance(alloc: Global, s: &mut State, done: u64) -> Result<(), AllocError>
    requires growing { IsGrowing (asked_of s.old) s.old.first s.old.next done }
    requires more { done < length s.old.bits }
    ensures growing { OnOk result (IsGrowing (asked_of s.new) s.new.first s.new.next (done + 1)) }
    ensures goal { s.new.goal ≡ s.old.goal }
    ensures grows { (front : List Node) → Grows front s.old.terms → Grows front s.new.terms }
    ensures instances { s.new.instances ≡ s.old.instances }
    ensures reads { s.new.reads.items ≡ s.old.reads.items }
    ensures quantifiers { s.new.quantifiers.items ≡ s.old.quantifiers.items }
    ensures first { s.new.first ≡ s.old.first }
    ensures front { (q : Asked) → Lengthened q (asked_of s.old) → Lengthened q (asked_of s.new) }
{
    let t = s.bits.at(done);
    match task_for(alloc, &s.terms, t)? {
        Task::Place(index) => place(s, done, t, index),
        Task::Open(bound, body) => open(alloc, s, done, t, bound, body),
        Task::Nothing => Ok(()),
    }
}

/// All entries from one on are gone through. Each entry that comes in behind is gone through too; that they end is not
/// claimed here, and the loop counts them with 64 bits.
pub(crate) fn close(alloc: Global, s: &mut State, start: u64) -> Result<(), AllocError>
    requires growing { IsGrowing (asked_of s.old) s.old.first s.old.next start }
    ensures growing { OnOk result (IsGrowing (asked_of s.new) s.new.first s.new.next (length s.new.bits)) }
    ensures goal { s.new.goal ≡ s.old.goal }
    ensures grows { (front : List Node) → Grows front s.old.terms → Grows front s.new.terms }
    ensures instances { s.new.instances ≡ s.old.instances }
    ensures reads { s.new.reads.items ≡ s.old.reads.items }
    ensures quantifiers { s.new.quantifiers.items ≡ s.old.quantifiers.items }
    ensures first { s.new.first ≡ s.old.first }
    ensures front { (q : Asked) → Lengthened q (asked_of s.old) → Lengthened q (asked_of s.new) }
{
    for done in start..u64::MAX {
        if done >= s.bits.len() {
            return Ok(());
        }
        advance(alloc, s, done)?;
    }
    Err(AllocError)
}
