//! The goal of an obligation as a term over its parts.

ghost use Rattle.std.specs.Prelude.{◌≡◌, ◌<◌, ◌↔◌, ◌&&◌, not, ℕ, Bool, Option, option_map, None, Some, IsTrue, List, length, slice_index, nat_eq, IfOk};
ghost use Rattle.hk_term.specs.Shape.{width};
ghost use Rattle.hk_term.specs.Meaning.{Reading, value};
ghost use Rattle.hk_term.specs.declared.node.Node.{Node};
ghost use Rattle.hk_symvalue.specs.Growth.{Extends};
ghost use Rattle.hk_symvalue.specs.Meaning.{IsTruth, is_true};
ghost use Rattle.hk_symmem.specs.Origins.{Origin};
ghost use Rattle.ir_ast.specs.Program.{ModuleView};
ghost use Rattle.spec_tree.specs.Plain as plain;
ghost use Rattle.spec_tree.specs.Meaning.{meets_result};
ghost use Rattle.hk_case.specs.declared.Case.{Case};
ghost use Rattle.hk_case.specs.Violation.{Violates};
ghost use Rattle.hk_oblig.specs.declared.parts.Parts.TheVariants.{Run, Step};
ghost use Rattle.hk_oblig.specs.GoalTruths.{AreRunParts, AreStepParts, AreParts, HasGoal, HasResult, IsWanted, missed, is_met, goal_is, number_of};
ghost use Rattle.hk_oblig.specs.Telling.{Tells};

use crate::parts::{Parts, RunParts, StepParts};
use hk_case::Obligation;
use hk_symvalue::logic::{and, differ, eq, not};
use hk_symvalue::words::{number, sized};
use hk_term::{TermId, Terms};
use std::alloc::AllocError;

// The invariants hold, the run comes back, and something is not met behind it.
fn missed(t: &mut Terms, p: &RunParts, met: TermId) -> Result<TermId, AllocError>
    requires parts { AreRunParts t.old p.now }
    requires met { IsTruth t.old met }
    ensures frame { Extends t.old t.new }
    ensures truth { IfOk result (λ r. IsTruth t.new r) }
    ensures value { IfOk result (λ r. (v : Reading) → is_true t.new r v ≡ missed t.old p.now v (is_true t.old met v)) }
{
    let back = not(t, p.undefined)?;
    let unmet = not(t, met)?;
    let after = and(t, back, unmet)?;
    let goal = and(t, p.invariants, after)?;
    Ok(goal)
}

// The run is stuck from a memory in which the invariants hold.
fn stuck(t: &mut Terms, p: &RunParts) -> Result<TermId, AllocError>
    requires parts { AreRunParts t.old p.now }
    ensures frame { Extends t.old t.new }
    ensures truth { IfOk result (λ r. IsTruth t.new r) }
    ensures value { IfOk result (λ r. (v : Reading) → is_true t.new r v ≡ (is_true t.old p.now.invariants v && is_true t.old p.now.undefined v)) }
{
    let goal = and(t, p.invariants, p.undefined)?;
    Ok(goal)
}

// Whether a term is 0.
fn is_zero(t: &mut Terms, a: TermId) -> Result<TermId, AllocError>
    requires { a < length t.old }
    ensures frame { Extends t.old t.new }
    ensures truth { IfOk result (λ r. IsTruth t.new r) }
    ensures value { IfOk result (λ r. (v : Reading) → is_true t.new r v ≡ nat_eq (value t.old a v) 0) }
{
    let w = sized(t, a);
    let zero = number(t, w, 0)?;
    let same = eq(t, a, zero)?;
    Ok(same)
}

// Where only `valid` is specified, the result is 0 exactly where it holds.
fn met_by_validity(t: &mut Terms, valid: TermId, returned: TermId) -> Result<TermId, AllocError>
    requires valid { IsTruth t.old valid }
    requires returned { returned < length t.old }
    ensures frame { Extends t.old t.new }
    ensures truth { IfOk result (λ r. IsTruth t.new r) }
    ensures value { IfOk result (λ r. (v : Reading) → is_true t.new r v ≡ meets_result None (is_true t.old valid v) (value t.old returned v)) }
{
    let zero = is_zero(t, returned)?;
    let apart = differ(t, valid, zero)?;
    let met = not(t, apart)?;
    Ok(met)
}

// Whether a returned number meets what is specified.
fn meets(
    t: &mut Terms,
    wanted: Option<TermId>,
    valid: TermId,
    returned: TermId,
) -> Result<TermId, AllocError>
    requires valid { IsTruth t.old valid }
    requires returned { returned < length t.old }
    requires wanted { IsWanted t.old returned wanted }
    ensures frame { Extends t.old t.new }
    ensures truth { IfOk result (λ r. IsTruth t.new r) }
    ensures value { IfOk result (λ r. (v : Reading) → is_true t.new r v ≡ meets_result (option_map (λ k. value t.old k v) wanted) (is_true t.old valid v) (value t.old returned v)) }
{
    match wanted {
        Some(number) => {
            let met = eq(t, returned, number)?;
            Ok(met)
        }
        None => {
            let met = met_by_validity(t, valid, returned)?;
            Ok(met)
        }
    }
}

// The run returns a number that does not meet what is specified.
fn wrong_result(t: &mut Terms, p: &RunParts) -> Result<TermId, AllocError>
    requires parts { AreRunParts t.old p.now }
    requires there { HasResult t.old p.now.result p.now.wanted }
    ensures frame { Extends t.old t.new }
    ensures truth { IfOk result (λ r. IsTruth t.new r) }
    ensures value { IfOk result (λ r. (v : Reading) → is_true t.new r v ≡ missed t.old p.now v (is_met t.old p.now v)) }
{
    let returned = p.result.unwrap();
    let met = meets(t, p.wanted, p.valid, returned)?;
    let goal = missed(t, p, met)?;
    Ok(goal)
}

// The goal of an obligation that is no property.
fn run_goal(t: &mut Terms, p: &RunParts, o: Obligation) -> Result<TermId, AllocError>
    requires parts { AreRunParts t.old p.now }
    requires there { HasGoal t.old (Run p.now) o }
    ensures frame { Extends t.old t.new }
    ensures truth { IfOk result (λ r. IsTruth t.new r) }
    ensures value { IfOk result (λ r. (v : Reading) → is_true t.new r v ≡ goal_is t.old (Run p.now) o v) }
{
    match o {
        Obligation::Undefined => {
            let goal = stuck(t, p)?;
            Ok(goal)
        }
        Obligation::Invariant(i) => {
            let goal = missed(t, p, p.kept.as_slice()[i as usize])?;
            Ok(goal)
        }
        Obligation::State(f) => {
            let goal = missed(t, p, p.agree.as_slice()[f as usize])?;
            Ok(goal)
        }
        Obligation::ResultValue => {
            let goal = wrong_result(t, p)?;
            Ok(goal)
        }
        Obligation::Property(_) => Err(AllocError),
    }
}

// All properties hold, and one is false behind the transition.
fn lost_property(t: &mut Terms, p: &StepParts, behind: TermId) -> Result<TermId, AllocError>
    requires parts { AreStepParts t.old p.now }
    requires behind { IsTruth t.old behind }
    ensures frame { Extends t.old t.new }
    ensures truth { IfOk result (λ r. IsTruth t.new r) }
    ensures value { IfOk result (λ r. (v : Reading) → is_true t.new r v ≡ (is_true t.old p.now.properties v && not (is_true t.old behind v))) }
{
    let lost = not(t, behind)?;
    let goal = and(t, p.properties, lost)?;
    Ok(goal)
}

// The goal of a property.
fn step_goal(t: &mut Terms, p: &StepParts, o: Obligation) -> Result<TermId, AllocError>
    requires parts { AreStepParts t.old p.now }
    requires there { HasGoal t.old (Step p.now) o }
    ensures frame { Extends t.old t.new }
    ensures truth { IfOk result (λ r. IsTruth t.new r) }
    ensures value { IfOk result (λ r. (v : Reading) → is_true t.new r v ≡ goal_is t.old (Step p.now) o v) }
{
    match o {
        Obligation::Property(k) => {
            let goal = lost_property(t, p, p.behind.as_slice()[k as usize])?;
            Ok(goal)
        }
        _ => Err(AllocError),
    }
}

/// The goal of an obligation: a truth value that is true under a reading exactly where, by the truths of the parts, the case of the
/// reading violates the obligation. Where the parts tell what they mean for a case under a reading, the goal is true there exactly
/// where this case violates the obligation.
///
/// The conditions are parts in the list, of the obligation's kind, with a term for what the obligation speaks of; for the result a term
/// for the returned number, of the width of the specified one.
pub fn goal_of(t: &mut Terms, parts: &Parts, o: Obligation) -> Result<TermId, AllocError>
    requires parts { AreParts t.old parts.now }
    requires there { HasGoal t.old parts.now o }
    ensures frame { Extends t.old t.new }
    ensures truth { IfOk result (λ r. IsTruth t.new r) }
    ensures value { IfOk result (λ r. (v : Reading) → is_true t.new r v ≡ goal_is t.old parts.now o v) }
    ensures violates { IfOk result (λ r. (m : ModuleView) (s : plain.Spec) (u : plain.Transition) (c : Case) (v : Reading) →
        Tells m t.old v parts.now s u c → (value t.new r v ≡ 1) ↔ Violates m s u o c) }
{
    match parts {
        Parts::Run(p) => {
            let goal = run_goal(t, p, o)?;
            Ok(goal)
        }
        Parts::Step(p) => {
            let goal = step_goal(t, p, o)?;
            Ok(goal)
        }
    }
}
