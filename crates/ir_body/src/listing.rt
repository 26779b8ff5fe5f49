//! The lists in productions: the arms of a phi, the indices of an address, the arguments of a call, the cases of a switch.

ghost use Rattle.std.specs.Prelude.{◌≡◌, map};
ghost use Rattle.ir_ast.specs.View.{view_type, view_operand, view_indices};
ghost use Rattle.ir_ast.specs.ProgramView.{view_typed, view_arms};
ghost use Rattle.ir_part.specs.Reader.{Gives, seen};
ghost use Rattle.ir_part.specs.Many.{some, separated, is_closed, is_ended, behind_comma};
ghost use Rattle.ir_part.specs.Operands.{typed_at};
ghost use Rattle.ir_body.specs.Parts as definition;

use crate::part::width_value_at;
use ir_ast::{IrType, Name, Operand};
use ir_lex::Token;
use ir_part::many::{Element, elements_at};
use ir_part::{
    PartStop, after_mark, begins_mark, is_bit, label_at, local_at, number_at, operand_at,
    strip_mark, type_at, typed_at, width_at,
};
use std::alloc::Global;

/// `T [ V , %b ] , ..` up to the end.
pub fn arms_at<'t>(
    alloc: Global,
    tokens: &'t [Token<'t>],
) -> Result<((IrType, Vec<(Operand, Name)>), &'t [Token<'t>]), PartStop>
    ensures { Gives (λ x. ((view_type x.0.0, view_arms x.0.1.items), seen x.1.now)) result (definition.arms_at (seen tokens.now)) }
{
    let (over, rest) = type_at(alloc, tokens)?;
    let (arms, rest) = some_arms(alloc, is_bit(&over), rest)?;
    Ok(((over, arms), rest))
}

/// The arms of a phi, at `i1` or not, up to the end.
#[derive(Drop)]
struct Arms {
    bit: bool,
}

impl Element for Arms {
    ghost use Rattle.std.specs.Prelude.{List, ℕ};
    ghost use Rattle.ir_ast.specs.View.{view_operand};
    ghost use Rattle.ir_ast.specs.Plain.{Val};
    ghost use Rattle.ir_part.specs.Many.{is_ended, behind_comma};
    ghost use Rattle.ir_body.specs.Parts.{arm_at};

    type Item = (Operand, Name);

    ghost Seen = { Val × List ℕ };

    ghost view = { λ p. (view_operand p.0, p.1) };

    ghost stops = { λ _. is_ended };

    ghost first_reads = { λ s. arm_at s.bit };

    ghost reads = { λ s. behind_comma (arm_at s.bit) };

    fn is_end(&self, tokens: &[Token<'_>]) -> bool {
        none_left(tokens)
    }

    fn first<'t>(
        &self,
        alloc: Global,
        tokens: &'t [Token<'t>],
    ) -> Result<((Operand, Name), &'t [Token<'t>]), PartStop> {
        arm_at(alloc, self.bit, tokens)
    }

    fn further<'t>(
        &self,
        alloc: Global,
        tokens: &'t [Token<'t>],
    ) -> Result<((Operand, Name), &'t [Token<'t>]), PartStop> {
        let rest = after_mark(b',', tokens)?;
        arm_at(alloc, self.bit, rest)
    }
}

/// `[ V , %b ] , ..` up to the end, at `i1` or not.
fn some_arms<'t>(
    alloc: Global,
    bit: bool,
    tokens: &'t [Token<'t>],
) -> Result<(Vec<(Operand, Name)>, &'t [Token<'t>]), PartStop>
    ensures { Gives (λ x. (view_arms x.0.items, seen x.1.now)) result (definition.some_arms bit (seen tokens.now)) }
{
    elements_at(alloc, &Arms { bit }, tokens)
}

/// Whether no token is left.
fn none_left(tokens: &[Token<'_>]) -> bool
    ensures { result ≡ is_ended (seen tokens.now) }
{
    tokens.is_empty()
}

/// `[ V , %b ]`, at `i1` or not.
fn arm_at<'t>(
    alloc: Global,
    bit: bool,
    tokens: &'t [Token<'t>],
) -> Result<((Operand, Name), &'t [Token<'t>]), PartStop>
    ensures { Gives (λ x. ((view_operand x.0.0, x.0.1), seen x.1.now)) result (definition.arm_at bit (seen tokens.now)) }
{
    let rest = after_mark(b'[', tokens)?;
    let (value, rest) = operand_at(alloc, bit, rest)?;
    let rest = after_mark(b',', rest)?;
    let (block, rest) = local_at(alloc, rest)?;
    let rest = after_mark(b']', rest)?;
    Ok(((value, block), rest))
}

/// The indices of an address, up to the end.
#[derive(Drop)]
struct Offsets;

impl Element for Offsets {
    ghost use Rattle.ir_ast.specs.View.{view_type, view_operand};
    ghost use Rattle.ir_ast.specs.Plain.{Ty, Val};
    ghost use Rattle.ir_part.specs.Many.{is_ended};
    ghost use Rattle.ir_body.specs.Parts.{offset_at};

    type Item = (IrType, Operand);

    ghost Seen = { Ty × Val };

    ghost view = { λ p. (view_type p.0, view_operand p.1) };

    ghost stops = { λ _. is_ended };

    ghost first_reads = { λ _. offset_at };

    ghost reads = { λ _. offset_at };

    fn is_end(&self, tokens: &[Token<'_>]) -> bool {
        none_left(tokens)
    }

    fn first<'t>(
        &self,
        alloc: Global,
        tokens: &'t [Token<'t>],
    ) -> Result<((IrType, Operand), &'t [Token<'t>]), PartStop> {
        offset_at(alloc, tokens)
    }

    fn further<'t>(
        &self,
        alloc: Global,
        tokens: &'t [Token<'t>],
    ) -> Result<((IrType, Operand), &'t [Token<'t>]), PartStop> {
        offset_at(alloc, tokens)
    }
}

/// `, iN V , ..` up to the end.
pub fn some_offsets<'t>(
    alloc: Global,
    tokens: &'t [Token<'t>],
) -> Result<(Vec<(IrType, Operand)>, &'t [Token<'t>]), PartStop>
    ensures { Gives (λ x. (view_typed x.0.items, seen x.1.now)) result (definition.some_offsets (seen tokens.now)) }
{
    elements_at(alloc, &Offsets, tokens)
}

/// `, iN V`
fn offset_at<'t>(
    alloc: Global,
    tokens: &'t [Token<'t>],
) -> Result<((IrType, Operand), &'t [Token<'t>]), PartStop>
    ensures { Gives (λ x. ((view_type x.0.0, view_operand x.0.1), seen x.1.now)) result (definition.offset_at (seen tokens.now)) }
{
    let rest = after_mark(b',', tokens)?;
    let ((width, value), rest) = width_value_at(alloc, rest)?;
    Ok(((IrType::Int(width), value), rest))
}

/// `( T V , .. )`
pub fn arguments_at<'t>(
    alloc: Global,
    tokens: &'t [Token<'t>],
) -> Result<(Vec<(IrType, Operand)>, &'t [Token<'t>]), PartStop>
    ensures { Gives (λ x. (view_typed x.0.items, seen x.1.now)) result (definition.arguments_at (seen tokens.now)) }
{
    let rest = after_mark(b'(', tokens)?;
    arguments_up_to(alloc, rest)
}

/// `T V , .. )`
fn arguments_up_to<'t>(
    alloc: Global,
    tokens: &'t [Token<'t>],
) -> Result<(Vec<(IrType, Operand)>, &'t [Token<'t>]), PartStop>
    ensures { Gives (λ x. (view_typed x.0.items, seen x.1.now)) result (separated typed_at 41 (seen tokens.now)) }
{
    match strip_mark(b')', tokens) {
        Some(rest) => Ok((Vec::new(alloc), rest)),
        None => {
            let (arguments, rest) = some_arguments(alloc, tokens)?;
            let rest = after_mark(b')', rest)?;
            Ok((arguments, rest))
        }
    }
}

/// The arguments of a call, up to a `)`.
#[derive(Drop)]
struct Arguments;

impl Element for Arguments {
    ghost use Rattle.ir_ast.specs.View.{view_type, view_operand};
    ghost use Rattle.ir_ast.specs.Plain.{Ty, Val};
    ghost use Rattle.ir_part.specs.Many.{is_closed, behind_comma};
    ghost use Rattle.ir_part.specs.Operands.{typed_at};

    type Item = (IrType, Operand);

    ghost Seen = { Ty × Val };

    ghost view = { λ p. (view_type p.0, view_operand p.1) };

    ghost stops = { λ _. is_closed 41 };

    ghost first_reads = { λ _. typed_at };

    ghost reads = { λ _. behind_comma typed_at };

    fn is_end(&self, tokens: &[Token<'_>]) -> bool {
        begins_mark(b')', tokens)
    }

    fn first<'t>(
        &self,
        alloc: Global,
        tokens: &'t [Token<'t>],
    ) -> Result<((IrType, Operand), &'t [Token<'t>]), PartStop> {
        typed_at(alloc, tokens)
    }

    fn further<'t>(
        &self,
        alloc: Global,
        tokens: &'t [Token<'t>],
    ) -> Result<((IrType, Operand), &'t [Token<'t>]), PartStop> {
        let rest = after_mark(b',', tokens)?;
        typed_at(alloc, rest)
    }
}

/// `T V , ..` up to a `)`.
fn some_arguments<'t>(
    alloc: Global,
    tokens: &'t [Token<'t>],
) -> Result<(Vec<(IrType, Operand)>, &'t [Token<'t>]), PartStop>
    ensures { Gives (λ x. (view_typed x.0.items, seen x.1.now)) result (some (is_closed 41) typed_at (behind_comma typed_at) (seen tokens.now)) }
{
    elements_at(alloc, &Arguments, tokens)
}

/// `iN V , L [`: the width in bits, the operand and the block of all other values.
pub fn choice_head<'t>(
    alloc: Global,
    tokens: &'t [Token<'t>],
) -> Result<((u32, Operand, Name), &'t [Token<'t>]), PartStop>
    ensures { Gives (λ x. ((x.0.0, view_operand x.0.1, x.0.2), seen x.1.now)) result (definition.choice_head (seen tokens.now)) }
{
    let ((width, on), rest) = width_value_at(alloc, tokens)?;
    let rest = after_mark(b',', rest)?;
    let (default, rest) = label_at(alloc, rest)?;
    let rest = after_mark(b'[', rest)?;
    Ok(((width, on, default), rest))
}

/// `iN number , L ..` up to a `]`, all of this width; there may be none.
pub fn cases_at<'t>(
    alloc: Global,
    width: u32,
    tokens: &'t [Token<'t>],
) -> Result<(Vec<(i128, Name)>, &'t [Token<'t>]), PartStop>
    ensures { Gives (λ x. (x.0.items, seen x.1.now)) result (definition.cases_at width (seen tokens.now)) }
{
    if begins_mark(b']', tokens) {
        Ok((Vec::new(alloc), tokens))
    } else {
        some_cases(alloc, width, tokens)
    }
}

/// The cases of a switch, all of this width, up to a `]`.
#[derive(Drop)]
struct Cases {
    width: u32,
}

impl Element for Cases {
    ghost use Rattle.std.specs.Prelude.{List, ℕ, ℤ};
    ghost use Rattle.ir_part.specs.Many.{is_closed};
    ghost use Rattle.ir_body.specs.Parts.{case_at};

    type Item = (i128, Name);

    ghost Seen = { ℤ × List ℕ };

    ghost view = { λ p. p };

    ghost stops = { λ _. is_closed 93 };

    ghost first_reads = { λ s. case_at s.width };

    ghost reads = { λ s. case_at s.width };

    fn is_end(&self, tokens: &[Token<'_>]) -> bool {
        begins_mark(b']', tokens)
    }

    fn first<'t>(
        &self,
        alloc: Global,
        tokens: &'t [Token<'t>],
    ) -> Result<((i128, Name), &'t [Token<'t>]), PartStop> {
        case_at(alloc, self.width, tokens)
    }

    fn further<'t>(
        &self,
        alloc: Global,
        tokens: &'t [Token<'t>],
    ) -> Result<((i128, Name), &'t [Token<'t>]), PartStop> {
        case_at(alloc, self.width, tokens)
    }
}

/// `iN number , L ..` up to a `]`, all of this width.
fn some_cases<'t>(
    alloc: Global,
    width: u32,
    tokens: &'t [Token<'t>],
) -> Result<(Vec<(i128, Name)>, &'t [Token<'t>]), PartStop>
    ensures { Gives (λ x. (x.0.items, seen x.1.now)) result (definition.some_cases width (seen tokens.now)) }
{
    elements_at(alloc, &Cases { width }, tokens)
}

/// `iN number , L`, of this width.
fn case_at<'t>(
    alloc: Global,
    width: u32,
    tokens: &'t [Token<'t>],
) -> Result<((i128, Name), &'t [Token<'t>]), PartStop>
    ensures { Gives (λ x. (x.0, seen x.1.now)) result (definition.case_at width (seen tokens.now)) }
{
    let (of, rest) = width_at(tokens)?;
    let (number, rest) = number_at(rest)?;
    let rest = after_mark(b',', rest)?;
    let (block, rest) = label_at(alloc, rest)?;
    if of == width {
        Ok(((number, block), rest))
    } else {
        Err(PartStop::NotSpelled)
    }
}
