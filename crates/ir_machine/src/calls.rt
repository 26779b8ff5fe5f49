//! Calls and returns.

ghost use Rattle.std.specs.Prelude.{◌≡◌, ◌++◌, ◌+◌, ◌<◌, ◌^◌, slice_get, IfOk};
ghost use Rattle.ir_machine.specs.Step as definition;

use crate::computed::arguments_pass;
use crate::frames::{Frames, advanced, with_register};
use crate::inputs::value_of;
use crate::jumps::steps_of;
use crate::state::{Computed, End, Frame, Held, Machine, Next};
use hk_seq::Seq;
use ir_code::{Code, Input, Program};
use ir_layout::KMemory;
use ir_value::{StuckReason, Value};
use std::alloc::{AllocError, Global};

fn argument(value: Option<Value>) -> Option<Held>
    ensures { result ≡ definition.argument_held value }
{
    match value {
        Some(value) => Some(Held::Value(value)),
        None => None,
    }
}

/// The registers of a function as it begins: its arguments, and so many that are not set.
#[tactic(auto, using(crate::proofs::Runs::unset_step))]
fn first_registers(
    alloc: Global,
    memory: &KMemory,
    registers: &Seq<Option<Held>>,
    arguments: &[Input],
    unset: u32,
) -> Result<Seq<Option<Held>>, AllocError>
    ensures { IfOk result (λ rs. rs ≡ definition.argument_registers memory.now registers.now arguments.now ++ definition.unset unset) }
{
    let mut first = Vec::new(alloc);
    for input in arguments {
        first.push(argument(value_of(memory, registers, input)))?;
    }
    for _ in 0..unset {
        first.push(None)?;
    }
    Ok(Seq::from_vec(first))
}

fn begun(
    alloc: Global,
    machine: &Machine,
    arguments: &[Input],
    function: u32,
    code: &Code,
) -> Result<Frame, AllocError>
    ensures { IfOk result (λ f. f ≡ definition.begun function code.now (definition.argument_registers machine.now.memory machine.now.top.registers arguments.now)) }
{
    let registers = first_registers(
        alloc,
        &machine.memory,
        &machine.top.registers,
        arguments,
        code.registers.saturating_sub(code.parameters),
    )?;
    Ok(Frame {
        function,
        from: 0,
        block: 0,
        position: 0,
        registers,
    })
}

fn pushed(machine: Machine, top: Frame) -> Result<Machine, AllocError>
    ensures { IfOk result (λ m. m ≡ definition.pushed machine top) }
{
    let Machine {
        top: caller,
        mut below,
        memory,
    } = machine;
    below.push(caller)?;
    Ok(Machine { top, below, memory })
}

fn call_with(
    alloc: Global,
    line: u32,
    machine: Machine,
    arguments: &[Input],
    function: u32,
    code: &Code,
    computed: Computed,
) -> Result<Next, AllocError>
    ensures { IfOk result (λ next. next ≡ definition.call_with line machine arguments.now function code.now computed) }
{
    match computed {
        Computed::Passes => {
            let top = begun(alloc, &machine, arguments, function, code)?;
            Ok(Next::Going(pushed(machine, top)?))
        }
        Computed::Sticks(reason) => Ok(Next::Ended(End::Stuck(reason, line))),
        _ => Ok(Next::Ended(End::Lost)),
    }
}

fn call_code(
    alloc: Global,
    line: u32,
    machine: Machine,
    arguments: &[Input],
    function: u32,
    code: &Code,
) -> Result<Next, AllocError>
    ensures { IfOk result (λ next. next ≡ definition.call_code line machine arguments.now function code.now) }
{
    if arguments.len() as u64 == u64::from(code.parameters) {
        let passes = arguments_pass(&machine.memory, &machine.top.registers, arguments);
        call_with(alloc, line, machine, arguments, function, code, passes)
    } else {
        Ok(Next::Ended(End::Lost))
    }
}

/// A call of a function with a body.
pub(crate) fn call_of(
    alloc: Global,
    program: &Program,
    line: u32,
    machine: Machine,
    arguments: &[Input],
    function: u32,
) -> Result<Next, AllocError>
    ensures { IfOk result (λ next. next ≡ definition.call_of line machine arguments.now function (slice_get program.now.functions function)) }
{
    match program.functions.as_slice().get(function as usize) {
        Some(code) => call_code(alloc, line, machine, arguments, function, code),
        None => Ok(Next::Ended(End::Lost)),
    }
}

/// A frame behind its call, with the value that came back.
fn with_value(frame: Frame, place: Option<u32>, value: Option<Value>) -> Frame
    requires { frame.position + 1 < 2 ^ 64 }
    ensures { result ≡ definition.behind frame (definition.with_value place value frame.registers) }
{
    match value {
        Some(value) => with_register(frame, place, Held::Value(value)),
        None => advanced(frame),
    }
}

fn resumed(
    program: &Program,
    value: Option<Value>,
    caller: Frame,
    below: Frames,
    memory: KMemory,
) -> Next
    ensures { result ≡ definition.resumed memory value caller below (definition.step_at program.now caller) }
{
    match steps_of(program, caller.function, caller.block).get(caller.position) {
        Some(step) => Next::Going(Machine {
            top: with_value(caller, step.result, value),
            below,
            memory,
        }),
        None => Next::Ended(End::Lost),
    }
}

/// A return with a value, or without one.
fn return_to(program: &Program, machine: Machine, value: Option<Value>) -> Next
    ensures { result ≡ definition.return_to program.now machine value machine.below }
{
    let Machine {
        top: _,
        mut below,
        memory,
    } = machine;
    match below.pop() {
        Some(caller) => resumed(program, value, caller, below, memory),
        None => Next::Ended(End::Returned(value, memory)),
    }
}

fn return_value(program: &Program, line: u32, machine: Machine, value: Option<Value>) -> Next
    ensures { result ≡ definition.return_value program.now line machine value }
{
    match value {
        None => Next::Ended(End::Lost),
        Some(Value::Poison) => Next::Ended(End::Stuck(StuckReason::U10, line)),
        Some(_) => return_to(program, machine, value),
    }
}

/// `ret`.
pub(crate) fn return_of(
    program: &Program,
    line: u32,
    machine: Machine,
    value: &Option<Input>,
) -> Next
    ensures { result ≡ definition.return_of program.now line machine value.now }
{
    match value {
        Some(input) => {
            let value = value_of(&machine.memory, &machine.top.registers, input);
            return_value(program, line, machine, value)
        }
        None => return_to(program, machine, None),
    }
}
