//! What goals come to, with the evidence of each answer tried on the same question made anew.

ghost use Rattle.std.specs.Prelude.{◌≤◌};

use crate::goal::question_of;
use crate::instances::add_all;
use crate::questions::end;
use hk_inst::{InstanceList, Question};
use hk_lrat::{LratLog, refutes};
use hk_settle::{Settled, settle, settle_with_figures};
use hk_term::Valuation;
use hk_term_rows::long;
use std::alloc::{AllocError, Global};

/// Whether the goal is true under a valuation.
fn holds(alloc: Global, goal: &str, valuation: &Valuation) -> Result<bool, AllocError> {
    let Some(question) = question_of(alloc, goal)? else {
        return Ok(false);
    };
    let holds = question.goal_holds(alloc, valuation);
    end(question);
    holds
}

/// Whether the log refutes the clauses of the question once these instances are added.
fn refuted(
    alloc: Global,
    goal: &str,
    instances: &InstanceList,
    log: &LratLog,
) -> Result<bool, AllocError> {
    let Some(mut question) = question_of(alloc, goal)? else {
        return Ok(false);
    };
    let added = add_all(alloc, &mut question, instances);
    let accepted = refutes(alloc, question.clauses(), log).is_ok();
    end(question);
    Ok(added? && accepted)
}

/// What a question comes to, in a word.
fn settled(
    alloc: Global,
    question: Question,
    goal: &str,
    budget: u64,
) -> Result<&'static str, AllocError>
    requires { 1 ≤ budget }
{
    match settle(alloc, question, budget)? {
        Settled::True { valuation } => {
            if holds(alloc, goal, &valuation)? {
                Ok("true")
            } else {
                Ok("not true")
            }
        }
        Settled::Refuted { instances, log } => {
            if refuted(alloc, goal, &instances, &log)? {
                Ok("refuted")
            } else {
                Ok("not refuted")
            }
        }
        Settled::Spent { log, .. } => {
            if log.len() as u64 == budget {
                Ok("spent")
            } else {
                Ok("not spent")
            }
        }
    }
}

/// What a goal comes to.
pub fn settle_answer(
    alloc: Global,
    budget: &str,
    goal: &str,
) -> Result<Option<String>, AllocError> {
    let budget = long(budget).unwrap_or(0);
    if budget == 0 {
        return Ok(None);
    }
    match question_of(alloc, goal)? {
        Some(question) => {
            let told = settled(alloc, question, goal, budget)?;
            Ok(Some(String::from_str(alloc, told)?))
        }
        None => Ok(None),
    }
}

/// The rounds and the instances that a goal takes.
fn figures(alloc: Global, budget: &str, goal: &str) -> Result<Option<(u64, u64)>, AllocError> {
    let budget = long(budget).unwrap_or(0);
    if budget == 0 {
        return Ok(None);
    }
    match question_of(alloc, goal)? {
        Some(question) => {
            let settlement = settle_with_figures(alloc, question, budget)?;
            let figures = settlement.figures;
            Ok(Some((figures.rounds, figures.instances)))
        }
        None => Ok(None),
    }
}

/// The rounds and the instances that a goal takes, as text.
pub fn figures_answer(
    alloc: Global,
    budget: &str,
    goal: &str,
) -> Result<Option<String>, AllocError> {
    match figures(alloc, budget, goal)? {
        Some((rounds, instances)) => Ok(Some(format!(in alloc; "{rounds} {instances}")?)),
        None => Ok(None),
    }
}

/// Whether a goal takes at most so many rounds and at least so many instances.
pub fn within_answer(
    alloc: Global,
    budget: &str,
    goal: &str,
    rounds: &str,
    instances: &str,
) -> Result<Option<String>, AllocError> {
    let found = figures(alloc, budget, goal)?;
    match (found, long(rounds), long(instances)) {
        (Some((taken, added)), Some(most), Some(least)) => {
            let told = if taken <= most && added >= least {
                "within"
            } else {
                "beyond"
            };
            Ok(Some(String::from_str(alloc, told)?))
        }
        _ => Ok(None),
    }
}
