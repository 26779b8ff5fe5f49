//! The types and operands at the fronts of texts.

use crate::trees::{add_operand, add_type};
use ir_ast::{IrType, Operand};
use ir_lex::Token;
use ir_part::{PartStop, operand_at, type_at};
use std::alloc::{AllocError, Global};

/// That tokens spell no part.
pub(crate) fn stopped(alloc: Global, stop: PartStop) -> Result<String, AllocError> {
    match stop {
        PartStop::NotSpelled => String::from_str(alloc, "not spelled"),
        PartStop::Memory => String::from_str(alloc, "memory"),
    }
}

fn type_told(alloc: Global, over: &IrType, left: usize) -> Result<String, AllocError> {
    let mut told = String::new(alloc);
    add_type(&mut told, over)?;
    write!(told, ", {left} left")?;
    Ok(told)
}

fn operand_told(alloc: Global, value: &Operand, left: usize) -> Result<String, AllocError> {
    let mut told = String::new(alloc);
    add_operand(&mut told, value)?;
    write!(told, ", {left} left")?;
    Ok(told)
}

/// The type at the front, and how many tokens are left behind it.
fn type_front<'t>(alloc: Global, tokens: &'t [Token<'t>]) -> Result<String, AllocError> {
    match type_at(alloc, tokens) {
        Ok((over, rest)) => type_told(alloc, &over, rest.len()),
        Err(stop) => stopped(alloc, stop),
    }
}

/// The operand at the front, and how many tokens are left behind it.
fn operand_front<'t>(
    alloc: Global,
    bit: bool,
    tokens: &'t [Token<'t>],
) -> Result<String, AllocError> {
    match operand_at(alloc, bit, tokens) {
        Ok((value, rest)) => operand_told(alloc, &value, rest.len()),
        Err(stop) => stopped(alloc, stop),
    }
}

/// The type at the front and the operand behind it, each with how many tokens are left.
fn typed_front<'t>(alloc: Global, tokens: &'t [Token<'t>]) -> Result<String, AllocError> {
    match type_at(alloc, tokens) {
        Ok((over, rest)) => {
            let over = type_told(alloc, &over, rest.len())?;
            let value = operand_front(alloc, false, rest)?;
            format!(in alloc; "{over}; {value}")
        }
        Err(stop) => stopped(alloc, stop),
    }
}

/// The number of tokens behind the type, or with `operand` the operand, at the front.
fn behind<'t>(alloc: Global, operand: bool, tokens: &'t [Token<'t>]) -> Result<usize, PartStop> {
    if operand {
        let (_, rest) = operand_at(alloc, false, tokens)?;
        Ok(rest.len())
    } else {
        let (_, rest) = type_at(alloc, tokens)?;
        Ok(rest.len())
    }
}

/// How many tokens are left behind the type, or with `operand` the operand, at the front.
fn left_behind<'t>(
    alloc: Global,
    operand: bool,
    tokens: &'t [Token<'t>],
) -> Result<String, AllocError> {
    match behind(alloc, operand, tokens) {
        Ok(left) => format!(in alloc; "{left} left"),
        Err(stop) => stopped(alloc, stop),
    }
}

/// What a reader of parts says of tokens, and nothing where there is no such call.
pub(crate) fn of_parts<'t>(
    alloc: Global,
    call: &str,
    tokens: &'t [Token<'t>],
) -> Result<Option<String>, AllocError> {
    let told = match call {
        "type" => type_front(alloc, tokens)?,
        "operand" => operand_front(alloc, false, tokens)?,
        "bit" => operand_front(alloc, true, tokens)?,
        "typed" => typed_front(alloc, tokens)?,
        "behind type" => left_behind(alloc, false, tokens)?,
        "behind operand" => left_behind(alloc, true, tokens)?,
        _ => return Ok(None),
    };
    Ok(Some(told))
}
