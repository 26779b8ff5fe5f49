//! Registers, slots and blocks of one function, by their places.

ghost use Rattle.std.specs.Prelude.{◌≡◌, ◌++◌, false, length, map, replicate, option_map, option_to_list, IfOk, OnOk};
ghost use Rattle.ir_ast.specs.ProgramView.{view_op, view_instr, view_block, view_function};
ghost use Rattle.ir_typing.specs.Registers.{kind_of, blocks_of};
ghost use Rattle.ir_resolve.specs.Acts.{is_slot, slots_of};
ghost use Rattle.ir_resolve.specs.Locals.{set_flags, instr_flags, block_flags, IsLocalOf};

use ir_ast::{Block, Function, Instr, IrType, Name, Op};
use std::alloc::{AllocError, Global};

/// What is known of a function's places: whether each register holds the address of a slot, and how many registers and blocks
/// there are.
#[derive(Drop)]
pub struct Local {
    pub slots: Vec<bool>,
    pub registers: u32,
    pub blocks: u32,
}

/// The blocks of a function: none where it has no body.
pub fn blocks_in(function: &Function) -> &[Block]
    ensures { map view_block result.now ≡ blocks_of (view_function function.now) }
{
    match &function.body {
        Some(body) => body.items.as_slice(),
        None => &[],
    }
}

/// Whether what an instruction gives is the address of a slot, where it gives a value.
fn gives_slot(op: &Op) -> Option<bool>
    ensures { result ≡ option_map is_slot (kind_of (view_op op.now)) }
{
    match op {
        Op::Slot { .. } => Some(true),
        Op::Store { .. } => None,
        Op::Goto { .. } => None,
        Op::Branch { .. } => None,
        Op::Switch { .. } => None,
        Op::Return { .. } => None,
        Op::Unreachable => None,
        Op::Call { .. } => Some(false),
        Op::Extract { .. } => Some(false),
        _ => Some(false),
    }
}

/// Whether the register that an instruction sets holds the address of a slot, where it sets one.
#[tactic(auto, using(crate::proofs::Flags::set_is))]
fn sets_slot(instr: &Instr) -> Option<bool>
    ensures { option_to_list result ≡ set_flags (view_instr instr.now) }
{
    match &instr.result {
        Some(_) => gives_slot(&instr.op),
        None => None,
    }
}

/// Adds the register that an instruction sets, where it sets one.
fn add_instr(slots: &mut Vec<bool>, instr: &Instr) -> Result<(), AllocError>
    ensures { OnOk result (slots.new.items ≡ slots.old.items ++ set_flags (view_instr instr.now)) }
{
    match sets_slot(instr) {
        Some(flag) => {
            slots.push(flag)?;
            Ok(())
        }
        None => Ok(()),
    }
}

/// Adds the registers that instructions set.
fn add_instrs(slots: &mut Vec<bool>, instrs: &[Instr]) -> Result<(), AllocError>
    ensures { OnOk result (slots.new.items ≡ slots.old.items ++ instr_flags instrs.now) }
{
    'each: for instr in instrs {
        add_instr(slots, instr)?;
    }
    Ok(())
}

/// Adds the registers that the instructions of blocks set.
fn add_blocks(slots: &mut Vec<bool>, blocks: &[Block]) -> Result<(), AllocError>
    ensures { OnOk result (slots.new.items ≡ slots.old.items ++ block_flags blocks.now) }
{
    'each: for block in blocks {
        add_instrs(slots, block.instrs.items.as_slice())?;
    }
    Ok(())
}

/// No parameter holds the address of a slot.
fn no_slots(alloc: Global, parameters: &[(IrType, Name)]) -> Result<Vec<bool>, AllocError>
    ensures { IfOk result (λ slots. slots.items ≡ replicate (length parameters.now) false) }
{
    let slots = vec![in alloc; false; parameters.len()]?;
    Ok(slots)
}

/// Whether each register of a function holds the address of a slot.
#[tactic(auto, using(crate::proofs::Flags::all_slots))]
fn slots_in(alloc: Global, function: &Function) -> Result<Vec<bool>, AllocError>
    ensures { IfOk result (λ slots. slots.items ≡ slots_of (view_function function.now)) }
{
    let mut slots = no_slots(alloc, function.parameters.items.as_slice())?;
    add_blocks(&mut slots, blocks_in(function))?;
    Ok(slots)
}

/// A count of 32 bits. Memory is also wanted where there is none.
pub fn small_count(count: usize) -> Result<u32, AllocError>
    ensures { IfOk result (λ n. n ≡ count) }
{
    if count > u32::MAX as usize {
        return Err(AllocError);
    }
    Ok(count as u32)
}

impl Local {
    /// What is known of a function's places. It takes time linear in the function.
    #[tactic(auto, using(crate::proofs::Flags::counted))]
    pub fn of(alloc: Global, function: &Function) -> Result<Local, AllocError>
        ensures { IfOk result (λ local. IsLocalOf (view_function function.now) local) }
    {
        let slots = slots_in(alloc, function)?;
        let registers = small_count(slots.len())?;
        let blocks = small_count(blocks_in(function).len())?;
        Ok(Local {
            slots,
            registers,
            blocks,
        })
    }
}
