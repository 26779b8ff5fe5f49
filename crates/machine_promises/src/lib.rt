//! What the step machine promises, once more: for wrong bodies of public calls.
//!
//! Stands above the machine. Each function has the parameters and the promise of the call that it hands on to, so a promise that grows
//! weaker below is refused here, and a wrong body in its place is refused by the promise itself, with nothing private between them.
#![tactic(auto)]

ghost use Rattle.std.specs.Prelude.{◌≡◌, IfOk};
ghost use Rattle.ir_machine.specs.Step as definition;

use ir_code::Program;
use ir_machine::{End, Machine, Next};
use ir_value::{StuckReason, Value};
use std::alloc::{AllocError, Global};

/// A step of the machine.
pub fn step(
    alloc: Global,
    program: &Program,
    machine: Machine,
    found: &mut Vec<(u32, Value)>,
) -> Result<Next, AllocError>
    ensures { IfOk result (λ next. next ≡ definition.step program.now machine) }
{
    ir_machine::step(alloc, program, machine, found)
}

/// At most so many steps.
pub fn run(
    alloc: Global,
    program: &Program,
    steps: u32,
    machine: Machine,
) -> Result<End, AllocError>
    ensures { IfOk result (λ end. end ≡ definition.run program.now steps machine) }
{
    ir_machine::run(alloc, program, steps, machine)
}
