//! What instructions do: the kind of each, and behind it its fields in their order. An alignment of 0 stands for an absent one.

use crate::trees::{add_flags, add_form, add_name, add_operand, add_type};
use ir_ast::{ArmList, CaseList, IrType, Name, Op, Operand, TypedList};
use std::alloc::AllocError;

/// Adds an operand behind a blank.
fn add_value(told: &mut String, value: &Operand) -> Result<(), AllocError> {
    told.push(' ')?;
    add_operand(told, value)
}

/// Adds a type and an operand, each behind a blank.
fn add_typed(told: &mut String, over: &IrType, value: &Operand) -> Result<(), AllocError> {
    told.push(' ')?;
    add_type(told, over)?;
    add_value(told, value)
}

/// Adds the name of a block behind a blank.
fn add_block(told: &mut String, block: &Name) -> Result<(), AllocError> {
    told.push(' ')?;
    add_name(told, '%', block)
}

fn add_arms(told: &mut String, arms: &ArmList) -> Result<(), AllocError> {
    for (value, block) in &arms.items {
        add_value(told, value)?;
        add_block(told, block)?;
    }
    Ok(())
}

fn add_arguments(told: &mut String, arguments: &TypedList) -> Result<(), AllocError> {
    for (over, value) in &arguments.items {
        add_typed(told, over, value)?;
    }
    Ok(())
}

fn add_cases(told: &mut String, cases: &CaseList) -> Result<(), AllocError> {
    for (number, block) in &cases.items {
        write!(told, " {number}")?;
        add_block(told, block)?;
    }
    Ok(())
}

/// Adds an operation on numbers or pointers.
fn add_arithmetic(told: &mut String, op: &Op) -> Result<(), AllocError> {
    match op {
        Op::Binary {
            kind,
            flags,
            width,
            a,
            b,
        } => {
            write!(told, " {kind:?}")?;
            add_flags(told, *flags)?;
            write!(told, " i{width}")?;
            add_value(told, a)?;
            add_value(told, b)
        }
        Op::Compare {
            samesign,
            predicate,
            over,
            a,
            b,
        } => {
            told.push_str(if *samesign { " samesign" } else { "" })?;
            write!(told, " {predicate:?}")?;
            add_typed(told, over, a)?;
            add_value(told, b)
        }
        Op::Convert {
            kind,
            flags,
            from,
            to,
            a,
        } => {
            write!(told, " {kind:?}")?;
            add_flags(told, *flags)?;
            write!(told, " i{from} i{to}")?;
            add_value(told, a)
        }
        _ => told.push_str(" ?"),
    }
}

/// Adds a choice of a value, or an operation on numbers or pointers.
fn add_choice(told: &mut String, op: &Op) -> Result<(), AllocError> {
    match op {
        Op::Select {
            condition,
            over,
            a,
            b,
        } => {
            told.push_str(" Select")?;
            add_value(told, condition)?;
            add_typed(told, over, a)?;
            add_value(told, b)
        }
        Op::Freeze { over, a } => {
            told.push_str(" Freeze")?;
            add_typed(told, over, a)
        }
        Op::Phi { over, arms } => {
            told.push_str(" Phi ")?;
            add_type(told, over)?;
            add_arms(told, arms)
        }
        Op::Extract { width, from, part } => {
            write!(told, " Extract i{width}")?;
            add_value(told, from)?;
            write!(told, " {part}")
        }
        _ => add_arithmetic(told, op),
    }
}

/// Adds a load with the name of its range.
fn add_load(
    told: &mut String,
    over: &IrType,
    address: &Operand,
    align: u64,
    range: &Option<Name>,
) -> Result<(), AllocError> {
    told.push_str(" Load")?;
    add_typed(told, over, address)?;
    write!(told, " align {align}")?;
    match range {
        Some(name) => {
            told.push(' ')?;
            add_name(told, '!', name)
        }
        None => Ok(()),
    }
}

/// Adds what is done to memory or by a call, or a value.
fn add_memory(told: &mut String, op: &Op) -> Result<(), AllocError> {
    match op {
        Op::Slot { over, align } => {
            told.push_str(" Slot ")?;
            add_type(told, over)?;
            write!(told, " align {align}")
        }
        Op::Load {
            over,
            address,
            align,
            range,
        } => add_load(told, over, address, *align, range),
        Op::Store {
            over,
            value,
            address,
            align,
        } => {
            told.push_str(" Store")?;
            add_typed(told, over, value)?;
            add_value(told, address)?;
            write!(told, " align {align}")
        }
        Op::Offset(form) => {
            told.push_str(" Offset ")?;
            add_form(told, form)
        }
        _ => add_choice(told, op),
    }
}

/// Adds a call: its result's type, the function, and the arguments.
fn add_call(
    told: &mut String,
    result_type: &IrType,
    callee: &Name,
    arguments: &TypedList,
) -> Result<(), AllocError> {
    told.push_str(" Call ")?;
    add_type(told, result_type)?;
    told.push(' ')?;
    add_name(told, '@', callee)?;
    add_arguments(told, arguments)
}

/// Adds a return, with its value where it has one.
fn add_return(told: &mut String, over: &IrType, value: &Option<Operand>) -> Result<(), AllocError> {
    told.push_str(" Return ")?;
    add_type(told, over)?;
    match value {
        Some(value) => add_value(told, value),
        None => Ok(()),
    }
}

/// Adds what an instruction does.
pub(crate) fn add_op(told: &mut String, op: &Op) -> Result<(), AllocError> {
    match op {
        Op::Call {
            result,
            callee,
            arguments,
        } => add_call(told, result, callee, arguments),
        Op::Goto { target } => {
            told.push_str(" Goto")?;
            add_block(told, target)
        }
        Op::Branch { condition, yes, no } => {
            told.push_str(" Branch")?;
            add_value(told, condition)?;
            add_block(told, yes)?;
            add_block(told, no)
        }
        Op::Switch {
            width,
            on,
            default,
            cases,
        } => {
            write!(told, " Switch i{width}")?;
            add_value(told, on)?;
            add_block(told, default)?;
            add_cases(told, cases)
        }
        Op::Return { over, value } => add_return(told, over, value),
        Op::Unreachable => told.push_str(" Unreachable"),
        _ => add_memory(told, op),
    }
}
