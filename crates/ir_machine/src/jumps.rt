//! Jumps, and the phis that they set.

ghost use Rattle.std.specs.Prelude.{◌≡◌, [], Some, None, if◌then◌else◌, IfOk};
ghost use Rattle.ir_machine.specs.Step as definition;

use crate::frames::with_held;
use crate::inputs::value_of;
use crate::state::{End, Frame, Head, Held, Machine, Next, Target};
use hk_seq::Seq;
use ir_code::{Act, Arm, Case, Program, Step};
use ir_layout::KMemory;
use ir_value::{StuckReason, Value};
use std::alloc::AllocError;

/// The instructions of a block of a function.
pub(crate) fn steps_of(program: &Program, function: u32, block: u32) -> &[Step]
    ensures { result.now ≡ definition.steps_of program.now function block }
{
    match program.functions.as_slice().get(function as usize) {
        Some(code) => match code.blocks.as_slice().get(block as usize) {
            Some(block) => block.steps.as_slice(),
            None => &[],
        },
        None => &[],
    }
}

/// The operand of the edge from a block.
fn arm_value(
    memory: &KMemory,
    registers: &Seq<Option<Held>>,
    from: u32,
    arms: &[Arm],
) -> Option<Value>
    ensures { result ≡ definition.arm_value memory.now registers.now (definition.arm_from from arms.now) }
{
    for arm in arms {
        if arm.from == from {
            return value_of(memory, registers, &arm.input);
        }
    }
    None
}

fn phi_of(place: Option<u32>, value: Option<Value>) -> Head
    ensures { result ≡ definition.phi_of place value }
{
    match (place, value) {
        (Some(register), Some(value)) => Head::Reads { register, value },
        _ => Head::Lost,
    }
}

fn head_of(
    memory: &KMemory,
    registers: &Seq<Option<Held>>,
    from: u32,
    place: Option<u32>,
    act: &Act,
) -> Head
    ensures { result ≡ definition.head_of memory.now registers.now from place act.now }
{
    match act {
        Act::Phi { arms } => phi_of(place, arm_value(memory, registers, from, arms.as_slice())),
        _ => Head::Ends,
    }
}

/// Reads the phis at the head of a block, before any of them is set; whether none is lost.
fn stage(
    memory: &KMemory,
    registers: &Seq<Option<Held>>,
    from: u32,
    steps: &[Step],
    found: &mut Vec<(u32, Value)>,
) -> Result<bool, AllocError>
    requires { found.old.items ≡ [] }
    ensures { IfOk result (λ is. definition.staged memory.now registers.now from steps.now [] ≡ (if is then Some found.new.items else None)) }
{
    for step in steps {
        match head_of(memory, registers, from, step.result, &step.act) {
            Head::Ends => return Ok(true),
            Head::Lost => return Ok(false),
            Head::Reads { register, value } => found.push((register, value))?,
        }
    }
    Ok(true)
}

/// The registers with these values.
fn set_all(found: &[(u32, Value)], registers: Seq<Option<Held>>) -> Seq<Option<Held>>
    ensures { result ≡ definition.set_all found.now registers }
{
    let mut all = registers;
    for (register, value) in found {
        all = with_held(all, *register, Held::Value(*value));
    }
    all
}

/// The frame at the head of a block, behind its phis.
fn entered(frame: Frame, to: u32, found: &[(u32, Value)]) -> Frame
    ensures { result ≡ definition.entered_frame frame to found.now }
{
    Frame {
        function: frame.function,
        from: frame.block,
        block: to,
        position: found.len(),
        registers: set_all(found, frame.registers),
    }
}

/// A jump to a block. `found` is room for the values of phis, which is kept from jump to jump.
pub(crate) fn jump(
    program: &Program,
    machine: Machine,
    to: u32,
    found: &mut Vec<(u32, Value)>,
) -> Result<Next, AllocError>
    ensures { IfOk result (λ next. next ≡ definition.jump program.now machine to) }
{
    found.clear();
    let steps = steps_of(program, machine.top.function, to);
    if stage(
        &machine.memory,
        &machine.top.registers,
        machine.top.block,
        steps,
        found,
    )? {
        let Machine { top, below, memory } = machine;
        let top = entered(top, to, found.as_slice());
        Ok(Next::Going(Machine { top, below, memory }))
    } else {
        Ok(Next::Ended(End::Lost))
    }
}

/// A jump to where a branch leads.
pub(crate) fn go(
    program: &Program,
    machine: Machine,
    line: u32,
    target: Target,
    found: &mut Vec<(u32, Value)>,
) -> Result<Next, AllocError>
    ensures { IfOk result (λ next. next ≡ definition.go program.now machine line target) }
{
    match target {
        Target::To(block) => jump(program, machine, block, found),
        Target::Sticks(reason) => Ok(Next::Ended(End::Stuck(reason, line))),
        Target::Lost => Ok(Next::Ended(End::Lost)),
    }
}

/// Where a branch leads.
pub(crate) fn branch_to(condition: Option<Value>, taken: u32, other: u32) -> Target
    ensures { result ≡ definition.branch_to condition taken other }
{
    match condition {
        Some(Value::Number(n)) => {
            if n == 0 {
                Target::To(other)
            } else if n == 1 {
                Target::To(taken)
            } else {
                Target::Lost
            }
        }
        Some(Value::Poison) => Target::Sticks(StuckReason::U3),
        _ => Target::Lost,
    }
}

fn case_of(number: u64, cases: &[Case], default: u32) -> u32
    ensures { result ≡ definition.case_of number cases.now default }
{
    for case in cases {
        if case.number == number {
            return case.block;
        }
    }
    default
}

/// Where a switch leads.
pub(crate) fn switch_to(on: Option<Value>, cases: &[Case], default: u32) -> Target
    ensures { result ≡ definition.switch_to on cases.now default }
{
    match on {
        Some(Value::Number(number)) => Target::To(case_of(number, cases, default)),
        Some(Value::Poison) => Target::Sticks(StuckReason::U3),
        _ => Target::Lost,
    }
}
