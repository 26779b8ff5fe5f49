//! The registers of a function by name, and where each is set.

ghost use Rattle.std.specs.Prelude.{◌≡◌, ◌<◌, ◌^◌, ◌++◌, ◌∷◌, [], length, map, IfOk, OnOk};
ghost use Rattle.ir_ast.specs.ProgramView.{view_op, view_instr, view_block};
ghost use Rattle.hk_unroll.specs.Registers as definition;
ghost use Rattle.hk_unroll.specs.Registers.{set_at, set_in, set_among, parameters_of, entry_setting};

use ir_ast::{Block, Instr, IrType, Name, Op, Table, TableFault};
use ir_typing::is_overflow;
use std::alloc::{AllocError, Global};

/// What a register holds.
#[derive(Clone, Copy, Debug, PartialEq, Eq)]
pub enum Holding {
    /// A number or a pointer.
    Value,
    /// The address of a slot.
    Slot,
    /// The result of a call with overflow.
    Pair,
}

/// Where a register is set: the place of the block, the place of the instruction in it, the instruction's line, and what it sets.
#[derive(Clone, Copy, Debug, PartialEq, Eq)]
pub struct Setting {
    pub block: u32,
    pub place: usize,
    pub line: u32,
    pub holding: Holding,
}

/// The registers of a function by name: first the parameters, which no instruction sets, and then what instructions set, in text order.
pub type Registers = Table<Option<Setting>>;

/// What the register holds that an instruction sets, where it may set one.
pub fn holding_of(op: &Op) -> Option<Holding>
    ensures { result ≡ definition.holding_of (view_op op.now) }
{
    match op {
        Op::Slot { .. } => Some(Holding::Slot),
        Op::Call { callee, .. } if is_overflow(callee) => Some(Holding::Pair),
        Op::Store { .. }
        | Op::Goto { .. }
        | Op::Branch { .. }
        | Op::Switch { .. }
        | Op::Return { .. }
        | Op::Unreachable => None,
        _ => Some(Holding::Value),
    }
}

/// Adds a register. Names differ, so a repeated one has no room.
fn add(
    alloc: Global,
    registers: &mut Registers,
    name: &Name,
    setting: Option<Setting>,
) -> Result<(), AllocError>
    ensures { OnOk result (registers.new ≡ registers.old ++ (name.now, setting) ∷ []) }
{
    let copy = name.copy(alloc)?;
    match registers.add(copy, setting) {
        Ok(()) => Ok(()),
        Err(TableFault::Repeated) => Err(AllocError),
        Err(TableFault::Memory) => Err(AllocError),
    }
}

/// Adds the register that an instruction sets, where it sets one.
fn add_instr(
    alloc: Global,
    registers: &mut Registers,
    block: u32,
    place: usize,
    instr: &Instr,
) -> Result<(), AllocError>
    ensures { OnOk result (registers.new ≡ registers.old ++ set_at block place (view_instr instr.now)) }
{
    let Some(name) = &instr.result else {
        return Ok(());
    };
    match holding_of(&instr.op) {
        Some(holding) => {
            let setting = Setting {
                block,
                place,
                line: instr.line,
                holding,
            };
            add(alloc, registers, name, Some(setting))
        }
        None => Ok(()),
    }
}

/// Adds the registers that the instructions of a block set.
fn add_instrs(
    alloc: Global,
    registers: &mut Registers,
    block: u32,
    instrs: &[Instr],
) -> Result<(), AllocError>
    ensures { OnOk result (registers.new ≡ registers.old ++ set_in block 0 (map view_instr instrs.now)) }
{
    for (place, instr) in instrs.iter().enumerate() {
        add_instr(alloc, registers, block, place, instr)?;
    }
    Ok(())
}

/// Adds parameters.
fn add_parameters(
    alloc: Global,
    registers: &mut Registers,
    parameters: &[(IrType, Name)],
) -> Result<(), AllocError>
    ensures { OnOk result (registers.new ≡ registers.old ++ parameters_of parameters.now) }
{
    for parameter in parameters {
        add(alloc, registers, &parameter.1, None)?;
    }
    Ok(())
}

/// Adds the registers that the instructions of blocks set.
fn add_blocks(alloc: Global, registers: &mut Registers, blocks: &[Block]) -> Result<(), AllocError>
    requires { length blocks.now < 2 ^ 32 }
    ensures { OnOk result (registers.new ≡ registers.old ++ set_among 0 (map view_block blocks.now)) }
{
    for (place, block) in blocks.iter().enumerate() {
        add_instrs(alloc, registers, place as u32, &block.instrs.items)?;
    }
    Ok(())
}

/// The registers of a function with these parameters and blocks, in time n log n.
pub fn registers_of(
    alloc: Global,
    parameters: &[(IrType, Name)],
    blocks: &[Block],
) -> Result<Registers, AllocError>
    requires { length blocks.now < 2 ^ 32 }
    ensures { IfOk result (λ r. r ≡ parameters_of parameters.now ++ set_among 0 (map view_block blocks.now)) }
{
    let mut registers = Table::new(alloc);
    add_parameters(alloc, &mut registers, parameters)?;
    add_blocks(alloc, &mut registers, blocks)?;
    Ok(registers)
}

/// Where a register is set: nowhere where it is a parameter, or none of the function.
#[tactic(auto, using(crate::proofs::RegisterLaws::no_setting))]
pub fn setting_of(registers: &Registers, name: &Name) -> Option<Setting>
    requires { length registers.now < 2 ^ 32 }
    ensures { result ≡ entry_setting registers.now name.now }
{
    match registers.get(name) {
        Some(place) => *registers.at(place),
        None => None,
    }
}
