//! The productions of memory, of addresses and of calls.

ghost use Rattle.std.specs.Prelude.{◌≡◌};
ghost use Rattle.ir_ast.specs.ProgramView.{view_op};
ghost use Rattle.ir_lex.specs.Rows as rows;
ghost use Rattle.ir_part.specs.Reader.{Gives, seen};
ghost use Rattle.ir_body.specs.Rows.{read_row};

use crate::arithmetic::is_scalar;
use crate::listing::{arguments_at, some_offsets};
use crate::part::{access_at, place_at, register_at};
use ir_ast::{Gep, Op, TypedList};
use ir_lex::Token;
use ir_part::{
    PartStop, after_mark, after_word, align_at, count_at, end, flag_at, global_at, offset_flags,
    result_at, type_at, typed_at, width_at,
};
use std::alloc::Global;

/// `T [, align n]`: T is iN or ptr.
#[tactic(auto, unfolding(crate::specs::Rows::read_row))]
pub fn reserving<'t>(alloc: Global, tokens: &'t [Token<'t>]) -> Result<Op, PartStop>
    ensures { Gives view_op result (read_row rows.reserving (seen tokens.now)) }
{
    let (over, rest) = type_at(alloc, tokens)?;
    let (align, rest) = align_at(rest)?;
    end(rest)?;
    if is_scalar(&over) {
        Ok(Op::Slot { over, align })
    } else {
        Err(PartStop::NotSpelled)
    }
}

/// `T , ptr V [, align n] [, !range !N]`
#[tactic(auto, unfolding(crate::specs::Rows::read_row))]
pub fn loading<'t>(alloc: Global, tokens: &'t [Token<'t>]) -> Result<Op, PartStop>
    ensures { Gives view_op result (read_row rows.loading (seen tokens.now)) }
{
    let (over, rest) = type_at(alloc, tokens)?;
    let rest = after_mark(b',', rest)?;
    let (address, rest) = place_at(alloc, rest)?;
    let ((align, range), rest) = access_at(alloc, rest)?;
    end(rest)?;
    Ok(Op::Load {
        over,
        address,
        align,
        range,
    })
}

/// `T V , ptr V [, align n]`
#[tactic(auto, unfolding(crate::specs::Rows::read_row))]
pub fn storing<'t>(alloc: Global, tokens: &'t [Token<'t>]) -> Result<Op, PartStop>
    ensures { Gives view_op result (read_row rows.storing (seen tokens.now)) }
{
    let ((over, value), rest) = typed_at(alloc, tokens)?;
    let rest = after_mark(b',', rest)?;
    let (address, rest) = place_at(alloc, rest)?;
    let (align, rest) = align_at(rest)?;
    end(rest)?;
    Ok(Op::Store {
        over,
        value,
        address,
        align,
    })
}

/// `[inbounds [nuw]] T , ptr V , iN V , ..`
#[tactic(auto, using(crate::proofs::Seen::indices_seen), unfolding(crate::specs::Rows::read_row))]
pub fn addressing<'t>(alloc: Global, tokens: &'t [Token<'t>]) -> Result<Op, PartStop>
    ensures { Gives view_op result (read_row rows.addressing (seen tokens.now)) }
{
    let (inbounds, rest) = flag_at(b"inbounds", tokens);
    let (nuw, rest) = flag_at(b"nuw", rest);
    let (over, rest) = type_at(alloc, rest)?;
    let rest = after_mark(b',', rest)?;
    let (base, rest) = place_at(alloc, rest)?;
    let (indices, rest) = some_offsets(alloc, rest)?;
    end(rest)?;
    if inbounds || !nuw {
        let form = Gep::of(offset_flags(inbounds, nuw), over, base, indices);
        Ok(Op::Offset(form))
    } else {
        Err(PartStop::NotSpelled)
    }
}

/// `R @NAME ( T V , .. )`
#[tactic(auto, unfolding(crate::specs::Rows::read_row))]
pub fn calling<'t>(alloc: Global, tokens: &'t [Token<'t>]) -> Result<Op, PartStop>
    ensures { Gives view_op result (read_row rows.calling (seen tokens.now)) }
{
    let (result, rest) = result_at(alloc, tokens)?;
    let (callee, rest) = global_at(alloc, rest)?;
    let (arguments, rest) = arguments_at(alloc, rest)?;
    end(rest)?;
    Ok(Op::Call {
        result,
        callee,
        arguments: TypedList { items: arguments },
    })
}

/// `{ iN , i1 } %y , n`: n is 0 or 1.
#[tactic(auto, unfolding(crate::specs::Rows::read_row))]
pub fn extracting<'t>(alloc: Global, tokens: &'t [Token<'t>]) -> Result<Op, PartStop>
    ensures { Gives view_op result (read_row rows.extracting (seen tokens.now)) }
{
    let rest = after_mark(b'{', tokens)?;
    let (width, rest) = width_at(rest)?;
    let rest = after_mark(b',', rest)?;
    let rest = after_word(b"i1", rest)?;
    let rest = after_mark(b'}', rest)?;
    let (from, rest) = register_at(alloc, rest)?;
    let rest = after_mark(b',', rest)?;
    let (part, rest) = count_at(rest)?;
    end(rest)?;
    if part <= 1 {
        Ok(Op::Extract {
            width,
            from,
            part: part as u32,
        })
    } else {
        Err(PartStop::NotSpelled)
    }
}
