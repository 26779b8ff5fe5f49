//! The functions that a function calls, by their names.

ghost use Rattle.std.specs.Prelude.{◌≡◌, ◌++◌, ◌∷◌, [], map, flat_map, OnOk, IfOk};
ghost use Rattle.ir_ast.specs.ProgramView.{view_op, view_instr, view_block, view_function};
ghost use Rattle.ir_type.specs.Rows.{callees};
ghost use Rattle.ir_typing.specs.Registers as definition;
ghost use Rattle.ir_check.specs.Graphs.{called_by};
ghost use Rattle.spec_kernel.specs.Firsts.{texts};

use ir_ast::{Block, Function, Instr, Name, Op};
use std::alloc::{AllocError, Global};

/// Adds a name.
fn add_name<'k>(name: &'k Name, calls: &mut Vec<&'k [u8]>) -> Result<(), AllocError>
    ensures { OnOk result (texts calls.new.items ≡ texts calls.old.items ++ name.now ∷ []) }
{
    calls.push(name.as_bytes())?;
    Ok(())
}

/// Adds the function that an instruction calls.
fn add_callee<'k>(op: &'k Op, calls: &mut Vec<&'k [u8]>) -> Result<(), AllocError>
    ensures { OnOk result (texts calls.new.items ≡ texts calls.old.items ++ callees (view_op op.now)) }
{
    match op {
        Op::Call { callee, .. } => add_name(callee, calls),
        _ => Ok(()),
    }
}

/// Adds the functions that instructions call, one for each call.
fn add_callees<'k>(instrs: &'k [Instr], calls: &mut Vec<&'k [u8]>) -> Result<(), AllocError>
    ensures { OnOk result (texts calls.new.items ≡ texts calls.old.items ++ flat_map (λ i. callees i.act) (map view_instr instrs.now)) }
{
    for instr in instrs {
        add_callee(&instr.op, calls)?;
    }
    Ok(())
}

/// The blocks of a function; none where it has no body.
fn blocks_of(function: &Function) -> &[Block]
    ensures { map view_block result.now ≡ definition.blocks_of (view_function function.now) }
{
    match &function.body {
        Some(blocks) => &blocks.items,
        None => &[],
    }
}

/// The functions that a function calls, one for each call, in the order of the text.
pub fn calls_of<'k>(alloc: Global, function: &'k Function) -> Result<Vec<&'k [u8]>, AllocError>
    ensures { IfOk result (λ calls. texts calls.items ≡ called_by (view_function function.now)) }
{
    let mut calls = Vec::new(alloc);
    let blocks = blocks_of(function);
    for block in blocks {
        add_callees(&block.instrs.items, &mut calls)?;
    }
    Ok(calls)
}
