//! The productions of phis, branches and returns.

ghost use Rattle.std.specs.Prelude.{◌≡◌};
ghost use Rattle.ir_ast.specs.ProgramView.{view_op};
ghost use Rattle.ir_lex.specs.Rows as rows;
ghost use Rattle.ir_part.specs.Reader.{Gives, seen};
ghost use Rattle.ir_body.specs.Rows.{read_row};

use crate::listing::{arms_at, cases_at, choice_head};
use crate::part::bit_at;
use ir_ast::{ArmList, CaseList, IrType, Op};
use ir_lex::Token;
use ir_part::{PartStop, after_mark, after_word, end, label_at, typed_at};
use std::alloc::Global;

/// `T [ V , %b ] , ..`
#[tactic(auto, unfolding(crate::specs::Rows::read_row))]
pub fn joining<'t>(alloc: Global, tokens: &'t [Token<'t>]) -> Result<Op, PartStop>
    ensures { Gives view_op result (read_row rows.joining (seen tokens.now)) }
{
    let ((over, arms), rest) = arms_at(alloc, tokens)?;
    end(rest)?;
    Ok(Op::Phi {
        over,
        arms: ArmList { items: arms },
    })
}

/// `L`
#[tactic(auto, unfolding(crate::specs::Rows::read_row))]
pub fn going<'t>(alloc: Global, tokens: &'t [Token<'t>]) -> Result<Op, PartStop>
    ensures { Gives view_op result (read_row rows.going (seen tokens.now)) }
{
    let (target, rest) = label_at(alloc, tokens)?;
    end(rest)?;
    Ok(Op::Goto { target })
}

/// `i1 V , L , L`
#[tactic(auto, unfolding(crate::specs::Rows::read_row))]
pub fn branching<'t>(alloc: Global, tokens: &'t [Token<'t>]) -> Result<Op, PartStop>
    ensures { Gives view_op result (read_row rows.branching (seen tokens.now)) }
{
    let (condition, rest) = bit_at(alloc, tokens)?;
    let rest = after_mark(b',', rest)?;
    let (yes, rest) = label_at(alloc, rest)?;
    let rest = after_mark(b',', rest)?;
    let (no, rest) = label_at(alloc, rest)?;
    end(rest)?;
    Ok(Op::Branch { condition, yes, no })
}

/// `iN V , L [ iN number , L .. ]`
#[tactic(auto, unfolding(crate::specs::Rows::read_row))]
pub fn switching<'t>(alloc: Global, tokens: &'t [Token<'t>]) -> Result<Op, PartStop>
    ensures { Gives view_op result (read_row rows.switching (seen tokens.now)) }
{
    let ((width, on, default), rest) = choice_head(alloc, tokens)?;
    let (cases, rest) = cases_at(alloc, width, rest)?;
    let rest = after_mark(b']', rest)?;
    end(rest)?;
    Ok(Op::Switch {
        width,
        on,
        default,
        cases: CaseList { items: cases },
    })
}

/// `void`
#[tactic(auto, unfolding(crate::specs::Rows::read_row))]
pub fn returning_nothing<'t>(tokens: &'t [Token<'t>]) -> Result<Op, PartStop>
    ensures { Gives view_op result (read_row rows.returning_nothing (seen tokens.now)) }
{
    let rest = after_word(b"void", tokens)?;
    end(rest)?;
    Ok(Op::Return {
        over: IrType::Void,
        value: None,
    })
}

/// `T V`
#[tactic(auto, unfolding(crate::specs::Rows::read_row))]
pub fn returning<'t>(alloc: Global, tokens: &'t [Token<'t>]) -> Result<Op, PartStop>
    ensures { Gives view_op result (read_row rows.returning (seen tokens.now)) }
{
    let ((over, value), rest) = typed_at(alloc, tokens)?;
    end(rest)?;
    Ok(Op::Return {
        over,
        value: Some(value),
    })
}

/// Nothing.
#[tactic(auto, unfolding(crate::specs::Rows::read_row))]
pub fn unreached<'t>(tokens: &'t [Token<'t>]) -> Result<Op, PartStop>
    ensures { Gives view_op result (read_row rows.unreached (seen tokens.now)) }
{
    end(tokens)?;
    Ok(Op::Unreachable)
}
