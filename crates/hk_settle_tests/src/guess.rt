//! Assignments that are guessed by unit propagation, and the instances that they violate.

ghost use Rattle.std.specs.Prelude.{◌≡◌, length};

use crate::instances::add_all;
use hk_cnf::{Assignment, ClauseList, Lit, satisfies};
use hk_inst::{InstanceList, Question};
use std::alloc::{AllocError, Global};

/// What is known of a literal.
fn known(values: &[Option<bool>], lit: Lit) -> Option<bool> {
    match values.get(lit.place() as usize) {
        Some(Some(value)) => Some(*value != lit.is_negation()),
        _ => None,
    }
}

/// The only literal of a clause that is open, where all others are false.
fn unit(values: &[Option<bool>], clause: &[Lit]) -> Option<Lit> {
    let mut open = None;
    for lit in clause {
        let truth = known(values, *lit);
        if truth == Some(true) || truth.is_none() && open.is_some() {
            return None;
        }
        if truth.is_none() {
            open = Some(*lit);
        }
    }
    open
}

/// Makes a literal true.
fn assign(values: &mut [Option<bool>], lit: Option<Lit>) -> bool {
    match lit {
        Some(lit) => match values.get_mut(lit.place() as usize) {
            Some(value) => {
                *value = Some(!lit.is_negation());
                true
            }
            None => false,
        },
        None => false,
    }
}

/// Goes through the clauses once. It is told whether some value was set.
fn propagate(list: &ClauseList, values: &mut Vec<Option<bool>>) -> bool {
    let mut changed = false;
    for i in 0..list.len() {
        let lit = unit(values, list.clause(i));
        if assign(values, lit) {
            changed = true;
        }
    }
    changed
}

/// Makes the first open variable false.
fn decide(values: &mut Vec<Option<bool>>) {
    for value in values.iter_mut() {
        if value.is_none() {
            *value = Some(false);
            return;
        }
    }
}

/// An assignment, which satisfies the clauses of the goals below.
fn guess(alloc: Global, list: &ClauseList) -> Result<Assignment, AllocError> {
    let mut values = vec![in alloc; None; list.vars() as usize]?;
    for _ in 0..list.vars() {
        for _ in 0..list.vars() {
            if !propagate(list, &mut values) {
                break;
            }
        }
        decide(&mut values);
    }
    let mut all = Vec::new(alloc);
    for value in &values {
        all.push(*value == Some(true))?;
    }
    Ok(Assignment::new(all))
}

/// What a guessed assignment violates, or nothing where it does not satisfy the clauses.
pub fn violated(alloc: Global, question: &Question) -> Result<Option<InstanceList>, AllocError> {
    let list = question.clauses();
    let a = guess(alloc, list)?;
    if a.as_slice().len() as u64 == list.vars() && satisfies(list, &a) {
        let found = question.violated(alloc, &a)?;
        Ok(Some(found))
    } else {
        Ok(None)
    }
}

//// Adds what guessed assignments violate, until one violates nothing.
pub fn settles(alloc: Global, question: &mut Question) -> Result<bool, AllocError> {
    for _ in 0..20 {
        match violated(alloc, question)? {
            Some(found) => {
                if found.as_slice().is_empty() {
                    return Ok(true);
                }
                if !add_all(alloc, question, &found)? {
                    return Ok(false);
                }
            }
            None => return Ok(false),
        }
    }
    Ok(false)
}
