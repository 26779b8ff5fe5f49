//! The parameters of a function.

ghost use Rattle.std.specs.Prelude.{◌≡◌, ◌<◌, ◌+◌, IfOk, Some};
ghost use Rattle.ir_ast.specs.View.{view_type};
ghost use Rattle.ir_lex.specs.Items.{number_after};
ghost use Rattle.ir_part.specs.Reader.{Gives, seen};
ghost use Rattle.ir_top.specs.Parameters as definition;
ghost use Rattle.ir_top.specs.TopView.{view_parameters};

use crate::number::{is_number, number_name};
use ir_ast::{IrType, Name};
use ir_lex::{Token, TokenKind, sigil_name};
use ir_part::{PartStop, after_mark, begins_mark, type_at};
use std::alloc::{AllocError, Global};

/// The number behind a name, which uses this one up where it is the name. Want of memory where there is none behind it.
fn number_after(next: u64, name: &Name) -> Result<u64, PartStop>
    ensures { Gives (λ x. x) result (Some (number_after next name.now)) }
{
    if is_number(name, next) {
        next.checked_add(1).ok_or(PartStop::Memory)
    } else {
        Ok(next)
    }
}

/// `%NAME`, or the next number where none stands there.
fn name_at<'t>(
    alloc: Global,
    next: u64,
    tokens: &'t [Token<'t>],
) -> Result<(Name, &'t [Token<'t>]), PartStop>
    ensures { Gives (λ x. (x.0, seen x.1.now)) result (Some (definition.name_at next (seen tokens.now))) }
{
    match tokens {
        [
            Token {
                kind: TokenKind::Local,
                text,
                ..
            },
            rest @ ..,
        ] => {
            let name = sigil_name(alloc, text)?;
            Ok((name, rest))
        }
        _ => {
            let name = number_name(alloc, next)?;
            Ok((name, tokens))
        }
    }
}

/// `T [%NAME]`, where this is the next number.
fn parameter_at<'t>(
    alloc: Global,
    next: u64,
    tokens: &'t [Token<'t>],
) -> Result<((IrType, Name), &'t [Token<'t>]), PartStop>
    ensures { Gives (λ x. ((view_type x.0.0, x.0.1), seen x.1.now)) result (definition.parameter_at next (seen tokens.now)) }
{
    let (over, rest) = type_at(alloc, tokens)?;
    let (name, rest) = name_at(alloc, next, rest)?;
    Ok(((over, name), rest))
}

/// The parameters up to a `)`.
pub fn parameters_at<'t>(
    alloc: Global,
    tokens: &'t [Token<'t>],
) -> Result<(Vec<(IrType, Name)>, &'t [Token<'t>]), PartStop>
    ensures { Gives (λ x. (view_parameters x.0.items, seen x.1.now)) result (definition.parameters_at (seen tokens.now)) }
{
    if begins_mark(b')', tokens) {
        Ok((Vec::new(alloc), tokens))
    } else {
        some_parameters(alloc, tokens)
    }
}

/// One parameter or more up to a `)`.
fn some_parameters<'t>(
    alloc: Global,
    tokens: &'t [Token<'t>],
) -> Result<(Vec<(IrType, Name)>, &'t [Token<'t>]), PartStop>
    ensures { Gives (λ x. (view_parameters x.0.items, seen x.1.now)) result (definition.some_parameters (seen tokens.now)) }
{
    let (first, mut rest) = parameter_at(alloc, 0, tokens)?;
    let mut next = number_after(0, &first.1)?;
    let mut parameters = Vec::new(alloc);
    parameters.push(first)?;
    let most = rest.len() + 1;
    'more: for _ in 0..most {
        if begins_mark(b')', rest) {
            return Ok((parameters, rest));
        }
        let after_comma = after_mark(b',', rest)?;
        let (parameter, after) = parameter_at(alloc, next, after_comma)?;
        next = number_after(next, &parameter.1)?;
        parameters.push(parameter)?;
        rest = after;
    }
    Err(PartStop::NotSpelled)
}
