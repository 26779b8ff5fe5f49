//! Steps and runs.

ghost use Rattle.std.specs.Prelude.{◌≡◌, ◌+◌, ◌<◌, ◌^◌, IfOk};
ghost use Rattle.ir_machine.specs.Step as definition;

use crate::calls::{call_of, return_of};
use crate::computed::computed;
use crate::frames::{advanced, with_register};
use crate::inputs::{held_at, value_of};
use crate::jumps::{branch_to, go, jump, steps_of, switch_to};
use crate::state::{Computed, End, Machine, Next};
use crate::stores::{after_slot, after_store, slot_stored, stored};
use ir_code::{Act, Program, Step};
use ir_value::{StuckReason, Value};
use std::alloc::{AllocError, Global};

/// What an instruction leads to that neither writes nor leads elsewhere.
fn after(step: &Step, machine: Machine, computed: Computed) -> Next
    requires { machine.top.position + 1 < 2 ^ 64 }
    ensures { result ≡ definition.after step.now machine computed }
{
    match computed {
        Computed::Sets(held) => {
            let Machine { top, below, memory } = machine;
            let top = with_register(top, step.result, held);
            Next::Going(Machine { top, below, memory })
        }
        Computed::Passes => {
            let Machine { top, below, memory } = machine;
            let top = advanced(top);
            Next::Going(Machine { top, below, memory })
        }
        Computed::Sticks(reason) => Next::Ended(End::Stuck(reason, step.line)),
        Computed::Lost => Next::Ended(End::Lost),
    }
}

/// What an instruction leads to.
fn act_on(
    alloc: Global,
    program: &Program,
    machine: Machine,
    step: &Step,
    found: &mut Vec<(u32, Value)>,
) -> Result<Next, AllocError>
    requires { machine.top.position + 1 < 2 ^ 64 }
    ensures { IfOk result (λ next. next ≡ definition.act_on program.now machine step.now step.now.act) }
{
    let memory = &machine.memory;
    let registers = &machine.top.registers;
    match &step.act {
        Act::Store {
            bytes,
            align,
            value,
            address,
        } => {
            let value = value_of(memory, registers, value);
            let address = value_of(memory, registers, address);
            let written = stored(memory, &program.objects, *bytes, *align, value, address);
            Ok(after_store(step.line, machine, *bytes, written))
        }
        Act::StoreSlot { align, value, slot } => {
            let value = value_of(memory, registers, value);
            let held = slot_stored(*align, value, held_at(registers, *slot));
            Ok(after_slot(step.line, machine, *slot, held))
        }
        Act::Goto { block } => jump(program, machine, *block, found),
        Act::Branch { condition, yes, no } => {
            let target = branch_to(value_of(memory, registers, condition), *yes, *no);
            go(program, machine, step.line, target, found)
        }
        Act::Switch {
            on,
            cases,
            default,
            ..
        } => {
            let target = switch_to(value_of(memory, registers, on), cases.as_slice(), *default);
            go(program, machine, step.line, target, found)
        }
        Act::Call {
            function,
            arguments,
        } => call_of(
            alloc,
            program,
            step.line,
            machine,
            arguments.as_slice(),
            *function,
        ),
        Act::Return { value } => Ok(return_of(program, step.line, machine, value)),
        Act::Unreachable => Ok(Next::Ended(End::Stuck(StuckReason::U4, step.line))),
        act => {
            let given = computed(memory, &program.objects, registers, act);
            Ok(after(step, machine, given))
        }
    }
}

/// One step. `found` is room for the values of phis, which is kept from step to step.
pub fn step(
    alloc: Global,
    program: &Program,
    machine: Machine,
    found: &mut Vec<(u32, Value)>,
) -> Result<Next, AllocError>
    ensures { IfOk result (λ next. next ≡ definition.step program.now machine) }
{
    match steps_of(program, machine.top.function, machine.top.block).get(machine.top.position) {
        Some(step) => act_on(alloc, program, machine, step, found),
        None => Ok(Next::Ended(End::Lost)),
    }
}

/// At most so many steps.
#[tactic(auto, using(crate::proofs::Runs::run_step))]
pub fn run(
    alloc: Global,
    program: &Program,
    steps: u32,
    machine: Machine,
) -> Result<End, AllocError>
    ensures { IfOk result (λ end. end ≡ definition.run program.now steps machine) }
{
    let mut found = Vec::new(alloc);
    let mut machine = machine;
    for _ in 0..steps {
        match step(alloc, program, machine, &mut found)? {
            Next::Going(next) => machine = next,
            Next::Ended(end) => return Ok(end),
        }
    }
    Ok(End::Unfinished)
}
