//! Types and operands, spelled as in a kernel text. A name stands with its escapes undone and without quotes.

use crate::row::add_bytes;
use ir_ast::{Flags, Gep, IndexList, IrType, Name, Operand, TypeList};
use std::alloc::AllocError;

/// Adds a name behind its sigil.
pub(crate) fn add_name(told: &mut String, sigil: char, name: &Name) -> Result<(), AllocError> {
    told.push(sigil)?;
    add_bytes(told, name.as_bytes())
}

/// Adds a type.
#[cycle(types)]
pub(crate) fn add_type(told: &mut String, over: &IrType) -> Result<(), AllocError> {
    match over {
        IrType::Void => told.push_str("void"),
        IrType::Int(width) => write!(told, "i{width}"),
        IrType::Ptr => told.push_str("ptr"),
        IrType::Array(length, element) => {
            write!(told, "[{length} x ")?;
            add_type(told, element)?;
            told.push(']')
        }
        IrType::Struct(parts) => add_parts(told, "{", parts, "}"),
        IrType::Packed(parts) => add_parts(told, "<{", parts, "}>"),
        IrType::Named(name) => add_name(told, '%', name),
        IrType::Opaque => told.push_str("opaque"),
    }
}

/// Adds the parts of a struct between its brackets.
#[cycle(types)]
fn add_parts(
    told: &mut String,
    open: &str,
    parts: &TypeList,
    close: &str,
) -> Result<(), AllocError> {
    told.push_str(open)?;
    for (place, part) in parts.items.iter().enumerate() {
        told.push_str(if place == 0 { " " } else { ", " })?;
        add_type(told, part)?;
    }
    told.push(' ')?;
    told.push_str(close)
}

/// Adds the flags that are set, each behind a blank.
pub(crate) fn add_flags(told: &mut String, flags: Flags) -> Result<(), AllocError> {
    let table = [
        (flags.nuw, " nuw"),
        (flags.nsw, " nsw"),
        (flags.exact, " exact"),
        (flags.disjoint, " disjoint"),
        (flags.nneg, " nneg"),
        (flags.inbounds, " inbounds"),
    ];
    for (set, word) in table {
        if set {
            told.push_str(word)?;
        }
    }
    Ok(())
}

/// Adds an operand.
#[cycle(operands)]
pub(crate) fn add_operand(told: &mut String, operand: &Operand) -> Result<(), AllocError> {
    match operand {
        Operand::Local(name) => add_name(told, '%', name),
        Operand::Global(name) => add_name(told, '@', name),
        Operand::Number(number) => write!(told, "{number}"),
        Operand::Null => told.push_str("null"),
        Operand::Poison => told.push_str("poison"),
        Operand::Address(form) => add_form(told, form),
    }
}

/// Adds the address of a part.
#[cycle(operands)]
pub(crate) fn add_form(told: &mut String, form: &Gep) -> Result<(), AllocError> {
    told.push_str("getelementptr")?;
    add_flags(told, form.flags)?;
    told.push_str(" (")?;
    add_type(told, &form.base_type)?;
    told.push_str(", ptr ")?;
    add_operand(told, &form.base)?;
    add_indices(told, &form.indices)?;
    told.push(')')
}

/// Adds indices, each behind a comma.
#[cycle(operands)]
fn add_indices(told: &mut String, indices: &IndexList) -> Result<(), AllocError> {
    for (over, index) in &indices.items {
        told.push_str(", ")?;
        add_type(told, over)?;
        told.push(' ')?;
        add_operand(told, index)?;
    }
    Ok(())
}
