//! Whether a module's instructions are spelled as the productions of instructions have it.

ghost use Rattle.std.specs.Prelude.{◌≡◌, ◌<◌, ◌^◌, length, MatchBool};
ghost use Rattle.ir_ast.specs.Small.{IsSmall};
ghost use Rattle.ir_ast.specs.View.{view_type};
ghost use Rattle.ir_ast.specs.ProgramView.{view_op, view_module};
ghost use Rattle.ir_typed.specs.Spelled as definition;
ghost use Rattle.ir_typed.specs.Spelled.{AreSpelled};
ghost use Rattle.ir_typed.specs.SpelledCode as code;
ghost use Rattle.ir_typed.specs.Endings.{IsRunnable};

use ir_ast::{ArmList, Block, Function, FunctionTable, Instr, IrType, Module, Op};
use ir_kernel::Kernel;

/// Whether a type that is compared is no integer of a width beyond 64 or of none.
fn has_width(over: &IrType) -> bool
    ensures { result ≡ definition.has_width (view_type over.now) }
{
    match over {
        IrType::Int(width) => 1 <= *width && *width <= 64,
        _ => true,
    }
}

/// Whether there is an arm.
fn is_some_arm(arms: &ArmList) -> bool
    ensures { result ≡ definition.is_some_arm arms.now.items.items }
{
    match arms.items.as_slice() {
        [] => false,
        [_, ..] => true,
    }
}

fn is_op_spelled(op: &Op) -> bool
    ensures { result ≡ definition.is_spelled (view_op op.now) }
{
    match op {
        Op::Compare { over, .. } => has_width(over),
        Op::Phi { arms, .. } => is_some_arm(arms),
        _ => true,
    }
}

fn are_instrs_spelled(instrs: &[Instr]) -> bool
    ensures { result ≡ code.are_instrs_spelled instrs.now }
{
    'each: for instr in instrs {
        if !is_op_spelled(&instr.op) {
            return false;
        }
    }
    true
}

fn are_blocks_spelled(blocks: &[Block]) -> bool
    ensures { result ≡ code.are_blocks_spelled blocks.now }
{
    'each: for block in blocks {
        if !are_instrs_spelled(&block.instrs.items) {
            return false;
        }
    }
    true
}

fn is_body_spelled(function: &Function) -> bool
    ensures { result ≡ code.is_body_spelled function.now.body }
{
    match &function.body {
        None => true,
        Some(blocks) => are_blocks_spelled(&blocks.items),
    }
}

fn are_functions_spelled(functions: &FunctionTable) -> bool
    requires { length functions.now < 2 ^ 32 }
    ensures { result ≡ code.are_functions_spelled functions.now }
{
    'each: for place in 0..functions.len() {
        if !is_body_spelled(functions.at(place)) {
            return false;
        }
    }
    true
}

/// What the functions of a module tell of all its instructions.
fn tell(kernel: &Module) -> bool
    requires { IsSmall kernel.now }
    ensures { MatchBool result (AreSpelled (view_module kernel.now)) (AreSpelled (view_module kernel.now) → ⊥) }
{
    are_functions_spelled(&kernel.functions)
}

/// Whether the integers that a module compares have widths from 1 to 64, and its phis an arm. It takes time linear in the module and no
/// memory.
pub fn are_spelled(kernel: &Module) -> bool
    requires { IsSmall kernel.now }
    ensures { MatchBool result (AreSpelled (view_module kernel.now)) (AreSpelled (view_module kernel.now) → ⊥) }
{
    tell(kernel)
}

/// Whether no run of the functions of a kernel is lost, as the laws of runs ask. It takes time linear in the kernel and no memory.
pub fn is_runnable(kernel: &Kernel) -> bool
    ensures { MatchBool result (IsRunnable (view_module kernel.now)) (IsRunnable (view_module kernel.now) → ⊥) }
{
    let checked = kernel.checked();
    are_spelled(checked.module())
}
