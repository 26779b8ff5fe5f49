//! The items of function bodies, as their trees say them.

use crate::operations::add_op;
use crate::row::add_between;
use crate::trees::add_name;
use ir_ast::Instr;
use ir_body::{BodyItem, read_body_item};
use ir_lex::{Item, Token, items};
use std::alloc::{AllocError, Global};

/// Adds an instruction: its line, the register that it sets, and what it does.
fn add_instr(told: &mut String, instr: &Instr) -> Result<(), AllocError> {
    let line = instr.line;
    write!(told, "{line}")?;
    if let Some(name) = &instr.result {
        told.push(' ')?;
        add_name(told, '%', name)?;
        told.push_str(" =")?;
    }
    add_op(told, &instr.op)
}

/// Adds what an item says.
fn add_tree(told: &mut String, item: &BodyItem) -> Result<(), AllocError> {
    match item {
        BodyItem::Label(name) => add_name(told, ':', name),
        BodyItem::Instr(instr) => add_instr(told, instr),
        BodyItem::Close => told.push_str("close"),
        BodyItem::Ignored => told.push_str("ignored"),
    }
}

/// Adds what an item says, or why it is refused.
fn add_item(alloc: Global, told: &mut String, item: &Item<'_>) -> Result<(), AllocError> {
    add_between(told, "; ")?;
    match read_body_item(alloc, item) {
        Ok(item) => {
            let added = add_tree(told, &item);
            drop(item);
            added
        }
        Err(fault) => write!(told, "{fault}"),
    }
}

/// Items one behind the other.
fn all_items(alloc: Global, list: &[Item<'_>]) -> Result<String, AllocError> {
    let mut told = String::new(alloc);
    for item in list {
        add_item(alloc, &mut told, item)?;
    }
    Ok(told)
}

/// The items that tokens make up.
pub(crate) fn bodies_told<'t>(
    alloc: Global,
    tokens: &'t [Token<'t>],
) -> Result<String, AllocError> {
    let cut = items(alloc, tokens)?;
    all_items(alloc, cut.as_slice())
}
