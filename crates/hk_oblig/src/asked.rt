//! The question of an obligation over the parts of a handler.

ghost use Rattle.std.specs.Prelude.{◌≡◌, ◌↔◌, [], IfOk};
ghost use Rattle.hk_term.specs.Meaning.{Reading, value};
ghost use Rattle.ir_ast.specs.Program.{ModuleView};
ghost use Rattle.hk_symvalue.specs.Growth.{Extends};
ghost use Rattle.hk_symvalue.specs.Meaning.{IsTruth};
ghost use Rattle.spec_tree.specs.Plain as plain;
ghost use Rattle.hk_case.specs.declared.Case.{Case};
ghost use Rattle.hk_case.specs.Violation.{Violates};
ghost use Rattle.hk_oblig.specs.GoalTruths.{AreParts, HasGoal};
ghost use Rattle.hk_oblig.specs.Telling.{Tells};

use crate::goals::goal_of;
use crate::listed::Listed;
use crate::uniform::is_uniform;
use hk_case::Obligation;
use hk_cone::cone_of;
use hk_inst::Question;
use hk_term::{TermId, Terms};
use std::alloc::{AllocError, Global};

// The question of a term of width 1, in a list of its own: want of memory where a variable or an array is read at two widths.
fn question_of(alloc: Global, terms: &Terms, goal: TermId) -> Result<Question, AllocError>
    requires { IsTruth terms.now goal }
    ensures instances { IfOk result (λ q. q.instances ≡ []) }
    ensures goal { IfOk result (λ q. (v : Reading) → value q.nodes q.goal v ≡ value terms.now goal v) }
{
    let cone = cone_of(alloc, terms, goal)?;
    let uniform = is_uniform(alloc, &cone.terms)?;
    if !uniform {
        return Err(AllocError);
    }
    let question = Question::new(alloc, cone.terms, cone.root)?;
    Ok(question)
}

/// The question of an obligation over parts. The list of the parts grows by the goal.
pub(crate) fn ask(listed: &mut Listed, alloc: Global, o: Obligation) -> Result<Question, AllocError>
    requires parts { AreParts listed.old.terms listed.old.parts }
    requires there { HasGoal listed.old.terms listed.old.parts o }
    ensures grown { Extends listed.old.terms listed.new.terms }
    ensures parts { listed.new.parts ≡ listed.old.parts }
    ensures instances { IfOk result (λ q. q.instances ≡ []) }
    ensures violates { IfOk result (λ q. (m : ModuleView) (s : plain.Spec) (u : plain.Transition) (c : Case) (v : Reading) →
        Tells m listed.old.terms v listed.old.parts s u c → (value q.nodes q.goal v ≡ 1) ↔ Violates m s u o c) }
{
    let goal = goal_of(&mut listed.terms, &listed.parts, o)?;
    let question = question_of(alloc, &listed.terms, goal)?;
    Ok(question)
}
