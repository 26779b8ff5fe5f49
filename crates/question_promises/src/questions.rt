//! Questions: their clauses, instances that are added, and instances that an assignment violates.

ghost use Rattle.std.specs.Prelude.{◌≡◌, ◌<◌, ◌++◌, ◌∷◌, [], false, true, nat_eq, length, All, IfOk, IfErr, OnOk};
ghost use Rattle.hk_term.specs.Meaning.{Reading, reading_of, value};
ghost use Rattle.hk_cnf.specs.Clauses.{clauses_value};
ghost use Rattle.hk_inst.specs.declared.instance.Instance.{Instance};
ghost use Rattle.hk_inst.specs.Inputs.{number_in, completed};
ghost use Rattle.hk_inst.specs.Truths.{IsInstance, IsTrue, is_among};
ghost use Rattle.hk_inst.specs.Exactness.{Exact};
ghost use Rattle.hk_inst.specs.Growing.{IsGoal};
ghost use Rattle.hk_inst.specs.Adding.{IsFault};
ghost use Rattle.hk_inst.specs.Violations.{IsViolated};

use hk_cnf::{Assignment, ClauseList};
use hk_inst::{AddFault, Instance, InstanceList, Question};
use hk_term::{TermId, Terms, Valuation};
use std::alloc::{AllocError, Global};

/// A new question is about its goal, and its clauses are exact for it.
pub fn question_of(alloc: Global, terms: Terms, goal: TermId) -> Result<Question, AllocError>
    requires there { goal < length terms }
    requires goal { IsGoal terms goal }
    ensures goal { IfOk result (λ q. (v : Reading) → value q.nodes q.goal v ≡ value terms goal v) }
    ensures exact { IfOk result (λ q. Exact (λ v. nat_eq (value terms goal v) 1) [] (record { vars = q.circuit.vars; clauses = q.circuit.clauses })) }
{
    let question = Question::new(alloc, terms, goal)?;
    Ok(question)
}

/// An instance that is added names what it speaks of and stands behind the others, and the clauses are exact for the goal and all of them;
/// one that is refused names nothing, or memory is wanting.
pub fn add(question: &mut Question, alloc: Global, instance: Instance) -> Result<(), AddFault>
    ensures names { OnOk result (IsInstance question.old.nodes question.old.table instance) }
    ensures fault { IfErr result (λ f. IsFault question.old.nodes question.old.table instance f) }
    ensures added { OnOk result (is_among question.old.instances instance ≡ false → question.new.instances ≡ question.old.instances ++ instance ∷ []) }
    ensures exact { Exact (λ v. nat_eq (value question.old.nodes question.old.goal v) 1) question.new.instances (record { vars = question.new.circuit.vars; clauses = question.new.circuit.clauses }) }
{
    question.add(alloc, instance)
}

/// No instance is violated exactly where the goal is true in the completed case; one that is was not added, names what it speaks of, and
/// is false.
pub fn violated(
    question: &Question,
    alloc: Global,
    a: &Assignment,
) -> Result<InstanceList, AllocError>
    requires size { length a.now ≡ question.now.circuit.vars }
    requires satisfied { clauses_value a.now question.now.circuit.clauses ≡ true }
    ensures empty { IfOk result (λ l. l ≡ [] → value question.now.nodes question.now.goal (completed question.now.nodes question.now.table (number_in question.now.table.words a.now)) ≡ 1) }
    ensures holds { IfOk result (λ l. value question.now.nodes question.now.goal (completed question.now.nodes question.now.table (number_in question.now.table.words a.now)) ≡ 1 → l ≡ []) }
    ensures each { IfOk result (λ l. All (IsViolated question.now (number_in question.now.table.words a.now) (completed question.now.nodes question.now.table (number_in question.now.table.words a.now))) l) }
{
    let found = question.violated(alloc, a)?;
    Ok(found)
}

/// The completed case is the one that the table gives, and the goal is true in it where every other instance is true.
pub fn complete(question: &Question, alloc: Global, a: &Assignment) -> Result<Valuation, AllocError>
    requires size { length a.now ≡ question.now.circuit.vars }
    requires satisfied { clauses_value a.now question.now.circuit.clauses ≡ true }
    ensures reading { IfOk result (λ v. reading_of v ≡ completed question.now.nodes question.now.table (number_in question.now.table.words a.now)) }
    ensures decides { IfOk result (λ v. ((i : Instance) → is_among question.now.instances i ≡ false → IsTrue question.now.nodes question.now.table (number_in question.now.table.words a.now) (reading_of v) i) → value question.now.nodes question.now.goal (reading_of v) ≡ 1) }
{
    let case = question.complete(alloc, a)?;
    Ok(case)
}

/// The instances and the clauses of a question: they are exact for its goal.
pub fn into_parts(question: Question) -> (InstanceList, ClauseList)
    ensures instances { result.0 ≡ question.instances }
    ensures clauses { result.1 ≡ record { vars = question.circuit.vars; clauses = question.circuit.clauses } }
    ensures exact { Exact (λ v. nat_eq (value question.nodes question.goal v) 1) result.0 result.1 }
{
    let (instances, clauses) = question.into_parts();
    (instances, clauses)
}
