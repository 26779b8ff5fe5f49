//! Runs of a kernel's functions.

ghost use Rattle.std.specs.Prelude.{◌≡◌, ◌≢◌, ◌-◌, ◌++◌, Some, map, IfOk};
ghost use Rattle.ir_ast.specs.ProgramView.{view_module};
ghost use Rattle.ir_value.specs.declared.value.Value.TheVariants.{Number};
ghost use Rattle.ir_machine.specs.declared.state.Held.TheVariants as held;
ghost use Rattle.ir_machine.specs.declared.state.End.TheVariants.{Unfinished};
ghost use Rattle.ir_machine.specs.Step as machine;
ghost use Rattle.ir_kernel.specs.Runs.{CanCall, IsRun};

use crate::kernel::Kernel;
use hk_seq::Seq;
use ir_code::Code;
use ir_layout::KMemory;
use ir_machine::{End, Frame, Frames, Held, Machine};
use ir_value::Value;
use std::alloc::{AllocError, Global};

/// A register that is set to a number.
fn holding(number: u64) -> Option<Held>
    ensures { result ≡ Some (held.Value (Number number)) }
{
    Some(Held::Value(Value::Number(number)))
}

/// Registers that are set to numbers, with room for so many more.
fn argument_registers(alloc: Global, arguments: &[u64]) -> Result<Vec<Option<Held>>, AllocError>
    ensures { IfOk result (λ rs. rs.items ≡ map (λ n. Some (held.Value (Number n))) arguments.now) }
{
    let mut registers = Vec::new(alloc);
    for number in arguments {
        registers.push(holding(*number))?;
    }
    Ok(registers)
}

/// The registers of a function that begins with these arguments: so many more are not set.
#[tactic(auto, using(ir_machine::proofs::Runs::unset_step))]
fn first_registers(
    alloc: Global,
    arguments: &[u64],
    unset: u32,
) -> Result<Seq<Option<Held>>, AllocError>
    ensures { IfOk result (λ rs. rs ≡ map (λ n. Some (held.Value (Number n))) arguments.now ++ machine.unset unset) }
{
    let mut registers = argument_registers(alloc, arguments)?;
    for _ in 0..unset {
        registers.push(None)?;
    }
    Ok(Seq::from_vec(registers))
}

/// The configuration in which a function begins, on a copy of the memory.
fn started(
    alloc: Global,
    code: &Code,
    function: u32,
    arguments: &[u64],
    memory: &KMemory,
) -> Result<Machine, AllocError>
    ensures { IfOk result (λ m. m ≡ machine.start code.now function arguments.now memory.now) }
{
    let registers = first_registers(
        alloc,
        arguments,
        code.registers.saturating_sub(code.parameters),
    )?;
    let top = Frame {
        function,
        from: 0,
        block: 0,
        position: 0,
        registers,
    };
    Ok(Machine {
        top,
        below: Frames::new(alloc),
        memory: memory.copy(alloc)?,
    })
}

/// Runs a function of a kernel, by its place, for its expanded length, on a copy of the memory.
pub(crate) fn watch(
    alloc: Global,
    kernel: &Kernel,
    function: u32,
    arguments: &[u64],
    memory: &KMemory,
) -> Result<End, AllocError>
    requires { CanCall (view_module kernel.now) function arguments.now }
    ensures run { IfOk result (λ end. IsRun (view_module kernel.now) function arguments.now memory.now end) }
    ensures finished { IfOk result (λ end. end ≢ Unfinished) }
{
    let code = &kernel.program().functions.as_slice()[function as usize];
    let steps = kernel.checked().expanded(function);
    let start = started(alloc, code, function, arguments, memory)?;
    ir_machine::run(alloc, kernel.program(), steps, start)
}
