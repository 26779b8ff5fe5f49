//! Items outside of bodies, and whole kernels.

ghost use Rattle.std.specs.Prelude.{◌<◌, ◌^◌, length};
ghost use Rattle.ir_ast.specs.Small.{IsSmall};

use crate::parts::stopped;
use crate::row::add_bytes;
use ir_ast::{Block, BlockList, Module};
use ir_lex::Token;
use ir_part::PartStop;
use ir_read::read_module;
use ir_top::{TopItem, read_top};
use std::alloc::{AllocError, Global};

/// What an item outside of bodies is.
fn kind(top: &TopItem) -> &'static str {
    match top {
        TopItem::Layout(_) => "layout",
        TopItem::Named(..) => "type",
        TopItem::Global { .. } => "global",
        TopItem::Define { .. } => "define",
        TopItem::Declare { .. } => "declare",
    }
}

/// What the item is that tokens spell.
fn kind_at<'t>(alloc: Global, tokens: &'t [Token<'t>]) -> Result<&'static str, PartStop> {
    let top = read_top(alloc, tokens)?;
    let kind = kind(&top);
    drop(top);
    Ok(kind)
}

/// What the item is that tokens spell, or that they spell none.
pub(crate) fn top_told<'t>(alloc: Global, tokens: &'t [Token<'t>]) -> Result<String, AllocError> {
    match kind_at(alloc, tokens) {
        Ok(kind) => String::from_str(alloc, kind),
        Err(stop) => stopped(alloc, stop),
    }
}

/// Adds a block as its name, its line and how many instructions it has.
fn add_block(told: &mut String, block: &Block) -> Result<(), AllocError> {
    told.push_str("; ")?;
    add_bytes(told, block.name.as_bytes())?;
    let line = block.line;
    let count = block.instrs.items.len();
    write!(told, " at {line} with {count}")
}

fn add_blocks(told: &mut String, blocks: &BlockList) -> Result<(), AllocError> {
    for block in &blocks.items {
        add_block(told, block)?;
    }
    Ok(())
}

/// How many types, globals and functions a kernel has, and the blocks of its first function.
fn shape_of(alloc: Global, kernel: &Module) -> Result<String, AllocError>
    requires { IsSmall kernel.now }
{
    let types = kernel.types.len();
    let globals = kernel.globals.len();
    let functions = kernel.functions.len();
    let mut told = format!(in alloc; "types {types}, globals {globals}, functions {functions}")?;
    if functions > 0 {
        if let Some(blocks) = &kernel.functions.at(0).body {
            add_blocks(&mut told, blocks)?;
        }
    }
    Ok(told)
}

/// The shape of the kernel that a text spells, or the line and the reason of the refusal.
pub(crate) fn shape_told(alloc: Global, text: &[u8]) -> Result<String, AllocError>
    requires { length text.now < 2 ^ 31 }
{
    match read_module(alloc, text) {
        Ok(kernel) => shape_of(alloc, &kernel),
        Err(stop) => stop.to_string(alloc),
    }
}

/// Whether a text is read as a kernel, or the line and the reason of the refusal.
pub(crate) fn read_told(alloc: Global, text: &[u8]) -> Result<String, AllocError>
    requires { length text.now < 2 ^ 31 }
{
    match read_module(alloc, text) {
        Ok(_) => String::from_str(alloc, "read"),
        Err(stop) => stop.to_string(alloc),
    }
}
