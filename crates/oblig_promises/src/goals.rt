//! The goals of obligations over the parts of a handler.

ghost use Rattle.std.specs.Prelude.{◌≡◌, ◌↔◌, IfOk};
ghost use Rattle.hk_term.specs.Meaning.{Reading, value};
ghost use Rattle.ir_ast.specs.Program.{ModuleView};
ghost use Rattle.spec_tree.specs.Plain as plain;
ghost use Rattle.hk_case.specs.declared.Case.{Case};
ghost use Rattle.hk_case.specs.Violation.{Violates};
ghost use Rattle.hk_oblig.specs.GoalTruths.{AreParts, HasGoal};
ghost use Rattle.hk_oblig.specs.Telling.{Tells};

use hk_case::Obligation;
use hk_oblig::Parts;
use hk_term::{TermId, Terms};
use std::alloc::AllocError;

/// The goal of an obligation is true exactly where the case of which the parts tell violates the obligation.
pub fn goal_of(t: &mut Terms, parts: &Parts, o: Obligation) -> Result<TermId, AllocError>
    requires parts { AreParts t.old parts.now }
    requires there { HasGoal t.old parts.now o }
    ensures { IfOk result (λ r. (m : ModuleView) (s : plain.Spec) (u : plain.Transition) (c : Case) (v : Reading) →
        Tells m t.old v parts.now s u c → (value t.new r v ≡ 1) ↔ Violates m s u o c) }
{
    let goal = hk_oblig::goal_of(t, parts, o)?;
    Ok(goal)
}
