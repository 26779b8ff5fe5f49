//! Rounds: the clauses are solved, and the instances that the assignment violates come in.

ghost use Rattle.std.specs.Prelude.{◌≡◌};

use crate::build::goal_of;
use hk_cdcl::{SolveEnd, solve};
use hk_cnf::write_dimacs;
use hk_inst::{InstanceList, Question};
use hk_term::Terms;
use std::alloc::{AllocError, Global};

/// What a line comes to.
#[derive(Clone, Copy, Debug, PartialEq, Eq)]
pub(crate) enum Settled {
    /// Some case makes the goal true.
    True,
    /// None does.
    Never,
    /// The rounds did not end within the budget, or an instance was refused.
    Open,
    /// The line writes no goal.
    NoGoal,
}

/// Adds instances. It is told whether each was accepted.
fn add_all(
    alloc: Global,
    question: &mut Question,
    found: &InstanceList,
) -> Result<bool, AllocError> {
    for instance in found.as_slice() {
        let copy = instance.copy(alloc)?;
        if question.add(alloc, copy).is_err() {
            return Ok(false);
        }
    }
    Ok(true)
}

/// A round, and what it settles.
fn round(alloc: Global, question: &mut Question) -> Result<Option<Settled>, AllocError> {
    match solve(alloc, question.clauses(), 100_000)? {
        SolveEnd::Unsat(_) => Ok(Some(Settled::Never)),
        SolveEnd::Spent(_) => Ok(Some(Settled::Open)),
        SolveEnd::Sat(assignment) => {
            let (case, found) = question.round(alloc, &assignment)?;
            if found.as_slice().is_empty() {
                let holds = question.goal_holds(alloc, &case)?;
                return Ok(Some(if holds { Settled::True } else { Settled::Open }));
            }
            if !add_all(alloc, question, &found)? {
                return Ok(Some(Settled::Open));
            }
            Ok(None)
        }
    }
}

/// Rounds until one settles the question.
fn settle(alloc: Global, question: &mut Question) -> Result<Settled, AllocError> {
    for _ in 0..10_000 {
        if let Some(settled) = round(alloc, question)? {
            return Ok(settled);
        }
    }
    Ok(Settled::Open)
}

/// What the goal of a line comes to, and the last clauses as a clause file.
pub(crate) fn settle_line(alloc: Global, line: &str) -> Result<(Settled, String), AllocError> {
    let mut terms = Terms::new(alloc);
    let Some(goal) = goal_of(alloc, &mut terms, line)? else {
        return Ok((Settled::NoGoal, String::new(alloc)));
    };
    let mut question = Question::new(alloc, terms, goal)?;
    let settled = settle(alloc, &mut question);
    let (instances, clauses) = question.into_parts();
    drop(instances);
    let text = write_dimacs(alloc, &clauses)?;
    let settled = settled?;
    Ok((
        settled,
        String::from_utf8(text).unwrap_or(String::new(alloc)),
    ))
}
