//! Rounds: the solver solves, an assignment is completed to a case, and the instances that it violates come in.

ghost use Rattle.std.specs.Prelude.{◌≡◌, ◌<◌, ◌≤◌, ◌↔◌, ◌++◌, ◌∷◌, [], false, length, All, IfOk, OnOk, IfSome, IfNone, IsTrue};
ghost use Rattle.hk_term.specs.Meaning.{Reading, reading_of, value};
ghost use Rattle.hk_cdcl.specs.Fresh.{IsSpent};
ghost use Rattle.hk_inst.specs.Truths.{IsInstance, is_among};
ghost use Rattle.hk_inst.specs.Exactness.{Exact};
ghost use Rattle.hk_inst.specs.Adding.{IsLonger, Lengthened};
ghost use Rattle.hk_settle.specs.Answers.{goal_test, clauses_of, figures_after, AreRounds, IsRefuted, Refuting, OnRefuted, OnTrue, OnSpent, IfRefuted, IfTrue, IfSpent, Counts};

use crate::answers::{End, Figures, Settled, Settlement};
use crate::beside::{offer_all, reach_after};
use hk_cdcl::{SolveEnd, Solver};
use hk_inst::{AddFault, Instance, InstanceList, Question};
use std::alloc::{AllocError, Global};

// Adds an instance that names what it speaks of, so that it is refused for want of memory alone.
fn bring(alloc: Global, question: &mut Question, instance: Instance) -> Result<(), AllocError>
    requires { IsInstance question.old.nodes question.old.table instance }
    ensures added { OnOk result (is_among question.old.instances instance ≡ false → question.new.instances ≡ question.old.instances ++ instance ∷ []) }
    ensures front { Lengthened question.old question.new }
    ensures goal { (v : Reading) → value question.new.nodes question.new.goal v ≡ value question.old.nodes question.old.goal v }
{
    match question.add(alloc, instance) {
        Ok(()) => Ok(()),
        Err(AddFault::Memory) => Err(AllocError),
        Err(AddFault::NoSuch) => unreachable!(),
    }
}

// Adds the instances of one round.
fn bring_all(alloc: Global, question: &mut Question, found: &InstanceList) -> Result<(), AllocError>
    requires named { All (IsInstance question.old.nodes question.old.table) found.now }
    requires fresh { All (λ i. is_among question.old.instances i ≡ false) found.now }
    ensures more { OnOk result (0 < length found.now → length question.old.instances < length question.new.instances) }
    ensures front { Lengthened question.old question.new }
    ensures goal { (v : Reading) → value question.new.nodes question.new.goal v ≡ value question.old.nodes question.old.goal v }
{
    for instance in found.as_slice() {
        let copy = instance.copy(alloc)?;
        bring(alloc, question, copy)?;
    }
    Ok(())
}

// Whether there is no instance.
fn is_none(found: &InstanceList) -> bool
    ensures { IsTrue result ↔ (found.now ≡ []) }
{
    match found.as_slice() {
        [] => true,
        _ => false,
    }
}

// A round: an end, or none where instances came in, with those so far beside them.
fn round(
    alloc: Global,
    question: &mut Question,
    solver: &mut Solver,
    budget: u64,
    reach: u64,
) -> Result<Option<End>, AllocError>
    requires budget { 1 ≤ budget }
    requires list { solver.old.list ≡ clauses_of question.old }
    ensures refuted { IfOk result (λ end. IfSome end (OnRefuted (Refuting (clauses_of question.new)))) }
    ensures holds { IfOk result (λ end. IfSome end (OnTrue (λ v. value question.new.nodes question.new.goal (reading_of v) ≡ 1))) }
    ensures spent { IfOk result (λ end. IfSome end (OnSpent (λ log. IsSpent (clauses_of question.new) log budget))) }
    ensures list { IfOk result (λ end. IfNone end (solver.new.list ≡ clauses_of question.new)) }
    ensures more { IfOk result (λ end. IfNone end (length question.old.instances < length question.new.instances)) }
    ensures no_fewer { length question.old.instances ≤ length question.new.instances }
    ensures goal { (v : Reading) → value question.new.nodes question.new.goal v ≡ value question.old.nodes question.old.goal v }
{
    match solver.solve(alloc, budget)? {
        SolveEnd::Unsat(log) => Ok(Some(End::Refuted(log))),
        SolveEnd::Spent(log) => Ok(Some(End::Spent(log))),
        SolveEnd::Sat(assignment) => {
            let (valuation, found) = question.round(alloc, &assignment)?;
            if is_none(&found) {
                return Ok(Some(End::True(valuation)));
            }
            bring_all(alloc, question, &found)?;
            offer_all(alloc, question, &found, reach)?;
            solver.grow(question.clauses())?;
            Ok(None)
        }
    }
}

// The figures of a question after so many rounds.
fn figures_of(question: &Question, rounds: u64) -> Figures
    ensures { result ≡ figures_after question.now rounds }
{
    let clauses = question.clauses();
    Figures {
        rounds,
        vars: clauses.vars(),
        clauses: clauses.len() as u64,
        instances: question.instances().as_slice().len() as u64,
    }
}

// Rounds until one is the last. As many as could never be made are want of memory.
fn repeat(
    alloc: Global,
    question: &mut Question,
    solver: &mut Solver,
    budget: u64,
) -> Result<(End, Figures), AllocError>
    requires budget { 1 ≤ budget }
    requires list { solver.old.list ≡ clauses_of question.old }
    ensures refuted { IfOk result (λ r. OnRefuted (Refuting (clauses_of question.new)) r.0) }
    ensures holds { IfOk result (λ r. OnTrue (λ v. value question.new.nodes question.new.goal (reading_of v) ≡ 1) r.0) }
    ensures spent { IfOk result (λ r. OnSpent (λ log. IsSpent (clauses_of question.new) log budget) r.0) }
    ensures figures { IfOk result (λ r. r.1 ≡ figures_after question.new r.1.rounds) }
    ensures rounds { IfOk result (λ r. AreRounds (length question.old.instances) r.1) }
    ensures goal { (v : Reading) → value question.new.nodes question.new.goal v ≡ value question.old.nodes question.old.goal v }
{
    'more: for before in 0..u64::MAX {
        if let Some(end) = round(alloc, question, solver, budget, reach_after(before))? {
            let figures = figures_of(question, before + 1);
            return Ok((end, figures));
        }
    }
    Err(AllocError)
}

// All rounds, with a new solver.
fn decide(alloc: Global, question: &mut Question, budget: u64) -> Result<(End, Figures), AllocError>
    requires { 1 ≤ budget }
    ensures refuted { IfOk result (λ r. OnRefuted (Refuting (clauses_of question.new)) r.0) }
    ensures holds { IfOk result (λ r. OnTrue (λ v. value question.new.nodes question.new.goal (reading_of v) ≡ 1) r.0) }
    ensures spent { IfOk result (λ r. OnSpent (λ log. IsSpent (clauses_of question.new) log budget) r.0) }
    ensures figures { IfOk result (λ r. r.1 ≡ figures_after question.new r.1.rounds) }
    ensures rounds { IfOk result (λ r. AreRounds (length question.old.instances) r.1) }
    ensures goal { (v : Reading) → value question.new.nodes question.new.goal v ≡ value question.old.nodes question.old.goal v }
{
    let mut solver = Solver::new(alloc, question.clauses())?;
    repeat(alloc, question, &mut solver, budget)
}

/// Settles a question, and counts.
pub fn settle_with_figures(
    alloc: Global,
    question: Question,
    budget: u64,
) -> Result<Settlement, AllocError>
    requires { 1 ≤ budget }
    ensures refuted { IfOk result (λ s. IfRefuted (IsRefuted question) s.settled) }
    ensures none { IfOk result (λ s. IfRefuted (λ _ _. (v : Reading) → value question.nodes question.goal v ≡ 1 → ⊥) s.settled) }
    ensures holds { IfOk result (λ s. IfTrue (λ v. value question.nodes question.goal (reading_of v) ≡ 1) s.settled) }
    ensures exact { IfOk result (λ s. IfSpent (λ instances clauses _. Exact (goal_test question) instances clauses) s.settled) }
    ensures spent { IfOk result (λ s. IfSpent (λ _ clauses log. IsSpent clauses log budget) s.settled) }
    ensures figures { IfOk result (λ s. Counts s.figures s.settled) }
    ensures rounds { IfOk result (λ s. AreRounds (length question.instances) s.figures) }
{
    let mut question = question;
    let ended = decide(alloc, &mut question, budget);
    let (instances, clauses) = question.into_parts();
    let (end, figures) = ended?;
    let settled = match end {
        End::Refuted(log) => {
            drop(clauses);
            Settled::Refuted { instances, log }
        }
        End::True(valuation) => {
            drop(clauses);
            drop(instances);
            Settled::True { valuation }
        }
        End::Spent(log) => Settled::Spent {
            instances,
            clauses,
            log,
        },
    };
    Ok(Settlement { settled, figures })
}

/// Settles a question: whether some reading makes its goal true. Each round solves its clauses by clause learning with the
/// budget, at least 1, for the clauses that the round learns; the solver keeps what it learned in earlier rounds. A satisfying
/// assignment is completed to a case, and every instance that it violates comes in; where it violates none the goal is true in
/// that case. The question is spent on every answer, also on want of memory.
pub fn settle(alloc: Global, question: Question, budget: u64) -> Result<Settled, AllocError>
    requires { 1 ≤ budget }
    ensures refuted { IfOk result (IfRefuted (IsRefuted question)) }
    ensures none { IfOk result (IfRefuted (λ _ _. (v : Reading) → value question.nodes question.goal v ≡ 1 → ⊥)) }
    ensures holds { IfOk result (IfTrue (λ v. value question.nodes question.goal (reading_of v) ≡ 1)) }
    ensures exact { IfOk result (IfSpent (λ instances clauses _. Exact (goal_test question) instances clauses)) }
    ensures spent { IfOk result (IfSpent (λ _ clauses log. IsSpent clauses log budget)) }
{
    let settlement = settle_with_figures(alloc, question, budget)?;
    Ok(settlement.settled)
}
