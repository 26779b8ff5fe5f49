//! The productions that make a value of values.

ghost use Rattle.std.specs.Prelude.{◌≡◌};
ghost use Rattle.ir_ast.specs.View.{view_type};
ghost use Rattle.ir_ast.specs.ProgramView.{view_op};
ghost use Rattle.ir_lex.specs.Rows as rows;
ghost use Rattle.ir_lex.specs.ValueSpelling as values;
ghost use Rattle.ir_part.specs.Reader.{Gives, seen};
ghost use Rattle.ir_body.specs.Rows.{read_row};

use crate::part::{bit_at, predicate_at, twice_at, typed_pair_at, width_pair_at, width_value_at};
use ir_ast::{BinaryKind, ConvertKind, Flags, IrType, Op, Predicate};
use ir_lex::Token;
use ir_part::{PartStop, after_mark, after_word, end, flag_at, typed_at, width_at};
use std::alloc::Global;

/// `[nuw] [nsw] iN V , V`
#[tactic(auto, unfolding(crate::specs::Rows::read_row))]
pub fn wrapping<'t>(
    alloc: Global,
    kind: BinaryKind,
    tokens: &'t [Token<'t>],
) -> Result<Op, PartStop>
    ensures { Gives view_op result (read_row (rows.wrapping kind) (seen tokens.now)) }
{
    let (nuw, rest) = flag_at(b"nuw", tokens);
    let (nsw, rest) = flag_at(b"nsw", rest);
    let ((width, a, b), rest) = width_pair_at(alloc, rest)?;
    end(rest)?;
    let flags = Flags {
        nuw,
        nsw,
        exact: false,
        disjoint: false,
        nneg: false,
        inbounds: false,
    };
    Ok(Op::Binary {
        kind,
        flags,
        width,
        a,
        b,
    })
}

/// `[exact] iN V , V`
#[tactic(auto, unfolding(crate::specs::Rows::read_row))]
pub fn exacting<'t>(
    alloc: Global,
    kind: BinaryKind,
    tokens: &'t [Token<'t>],
) -> Result<Op, PartStop>
    ensures { Gives view_op result (read_row (rows.exacting kind) (seen tokens.now)) }
{
    let (exact, rest) = flag_at(b"exact", tokens);
    let ((width, a, b), rest) = width_pair_at(alloc, rest)?;
    end(rest)?;
    let flags = Flags {
        nuw: false,
        nsw: false,
        exact,
        disjoint: false,
        nneg: false,
        inbounds: false,
    };
    Ok(Op::Binary {
        kind,
        flags,
        width,
        a,
        b,
    })
}

/// No flag.
fn no_flags() -> Flags
    ensures { result ≡ values.no_flags }
{
    Flags {
        nuw: false,
        nsw: false,
        exact: false,
        disjoint: false,
        nneg: false,
        inbounds: false,
    }
}

/// `iN V , V`
#[tactic(auto, unfolding(crate::specs::Rows::read_row))]
pub fn simple<'t>(alloc: Global, kind: BinaryKind, tokens: &'t [Token<'t>]) -> Result<Op, PartStop>
    ensures { Gives view_op result (read_row (rows.simple kind) (seen tokens.now)) }
{
    let ((width, a, b), rest) = width_pair_at(alloc, tokens)?;
    end(rest)?;
    Ok(Op::Binary {
        kind,
        flags: no_flags(),
        width,
        a,
        b,
    })
}

/// `[disjoint] iN V , V`
#[tactic(auto, unfolding(crate::specs::Rows::read_row))]
pub fn disjoining<'t>(alloc: Global, tokens: &'t [Token<'t>]) -> Result<Op, PartStop>
    ensures { Gives view_op result (read_row rows.disjoining (seen tokens.now)) }
{
    let (disjoint, rest) = flag_at(b"disjoint", tokens);
    let ((width, a, b), rest) = width_pair_at(alloc, rest)?;
    end(rest)?;
    let flags = Flags {
        nuw: false,
        nsw: false,
        exact: false,
        disjoint,
        nneg: false,
        inbounds: false,
    };
    Ok(Op::Binary {
        kind: BinaryKind::Or,
        flags,
        width,
        a,
        b,
    })
}

/// `[samesign] P T V , V`: T is iN or ptr, and for ptr P is none of the four signed ones, and there is no `samesign`.
#[tactic(auto, unfolding(crate::specs::Rows::read_row))]
pub fn comparing<'t>(alloc: Global, tokens: &'t [Token<'t>]) -> Result<Op, PartStop>
    ensures { Gives view_op result (read_row rows.comparing (seen tokens.now)) }
{
    let (samesign, rest) = flag_at(b"samesign", tokens);
    let (predicate, rest) = predicate_at(rest)?;
    let ((over, a, b), rest) = typed_pair_at(alloc, rest)?;
    end(rest)?;
    if is_scalar(&over) && !(is_pointer_type(&over) && (samesign || is_signed(predicate))) {
        Ok(Op::Compare {
            samesign,
            predicate,
            over,
            a,
            b,
        })
    } else {
        Err(PartStop::NotSpelled)
    }
}

/// `iN` or `ptr`.
pub fn is_scalar(over: &IrType) -> bool
    ensures { result ≡ rows.is_scalar (view_type over.now) }
{
    match over {
        IrType::Int(_) => true,
        IrType::Ptr => true,
        _ => false,
    }
}

/// `ptr`.
fn is_pointer_type(over: &IrType) -> bool
    ensures { result ≡ rows.is_pointer_type (view_type over.now) }
{
    match over {
        IrType::Ptr => true,
        _ => false,
    }
}

/// Whether the comparison reads a sign.
fn is_signed(predicate: Predicate) -> bool
    ensures { result ≡ rows.is_signed predicate }
{
    match predicate {
        Predicate::Sgt => true,
        Predicate::Sge => true,
        Predicate::Slt => true,
        Predicate::Sle => true,
        _ => false,
    }
}

/// `i1 V , T V , T V`, where both types are the same.
#[tactic(auto, unfolding(crate::specs::Rows::read_row))]
pub fn selecting<'t>(alloc: Global, tokens: &'t [Token<'t>]) -> Result<Op, PartStop>
    ensures { Gives view_op result (read_row rows.selecting (seen tokens.now)) }
{
    let (condition, rest) = bit_at(alloc, tokens)?;
    let rest = after_mark(b',', rest)?;
    let ((over, a, b), rest) = twice_at(alloc, rest)?;
    end(rest)?;
    Ok(Op::Select {
        condition,
        over,
        a,
        b,
    })
}

/// `[nuw] [nsw] iN V to iM`, narrower.
#[tactic(auto, unfolding(crate::specs::Rows::read_row))]
pub fn truncating<'t>(alloc: Global, tokens: &'t [Token<'t>]) -> Result<Op, PartStop>
    ensures { Gives view_op result (read_row rows.truncating (seen tokens.now)) }
{
    let (nuw, rest) = flag_at(b"nuw", tokens);
    let (nsw, rest) = flag_at(b"nsw", rest);
    let ((from, a), rest) = width_value_at(alloc, rest)?;
    let rest = after_word(b"to", rest)?;
    let (to, rest) = width_at(rest)?;
    end(rest)?;
    if to < from {
        let flags = Flags {
            nuw,
            nsw,
            exact: false,
            disjoint: false,
            nneg: false,
            inbounds: false,
        };
        Ok(Op::Convert {
            kind: ConvertKind::Trunc,
            flags,
            from,
            to,
            a,
        })
    } else {
        Err(PartStop::NotSpelled)
    }
}

/// `[nneg] iN V to iM`, wider.
#[tactic(auto, unfolding(crate::specs::Rows::read_row))]
pub fn zero_extending<'t>(alloc: Global, tokens: &'t [Token<'t>]) -> Result<Op, PartStop>
    ensures { Gives view_op result (read_row rows.zero_extending (seen tokens.now)) }
{
    let (nneg, rest) = flag_at(b"nneg", tokens);
    let ((from, a), rest) = width_value_at(alloc, rest)?;
    let rest = after_word(b"to", rest)?;
    let (to, rest) = width_at(rest)?;
    end(rest)?;
    if from < to {
        let flags = Flags {
            nuw: false,
            nsw: false,
            exact: false,
            disjoint: false,
            nneg,
            inbounds: false,
        };
        Ok(Op::Convert {
            kind: ConvertKind::Zext,
            flags,
            from,
            to,
            a,
        })
    } else {
        Err(PartStop::NotSpelled)
    }
}

/// `iN V to iM`, wider.
#[tactic(auto, unfolding(crate::specs::Rows::read_row))]
pub fn sign_extending<'t>(alloc: Global, tokens: &'t [Token<'t>]) -> Result<Op, PartStop>
    ensures { Gives view_op result (read_row rows.sign_extending (seen tokens.now)) }
{
    let ((from, a), rest) = width_value_at(alloc, tokens)?;
    let rest = after_word(b"to", rest)?;
    let (to, rest) = width_at(rest)?;
    end(rest)?;
    if from < to {
        Ok(Op::Convert {
            kind: ConvertKind::Sext,
            flags: no_flags(),
            from,
            to,
            a,
        })
    } else {
        Err(PartStop::NotSpelled)
    }
}

/// `T V`
#[tactic(auto, unfolding(crate::specs::Rows::read_row))]
pub fn freezing<'t>(alloc: Global, tokens: &'t [Token<'t>]) -> Result<Op, PartStop>
    ensures { Gives view_op result (read_row rows.freezing (seen tokens.now)) }
{
    let ((over, a), rest) = typed_at(alloc, tokens)?;
    end(rest)?;
    Ok(Op::Freeze { over, a })
}
