//! Runs of the function `f` of a text, and how a run ends.

ghost use Rattle.std.specs.Prelude.{◌<◌, ◌^◌, length};

use crate::row::{numbers_of, text_of};
use crate::values::value_text;
use hk_seq::Seq;
use ir_ast::Name;
use ir_code::Code;
use ir_kernel::Kernel;
use ir_layout::KMemory;
use ir_machine::{End, Frame, Frames, Held, Machine, run};
use ir_read::read_module;
use ir_value::Value;
use std::alloc::{AllocError, Global};

/// A byte of object 0, and 0 where there is none.
fn byte_at(memory: &KMemory, place: usize) -> u8 {
    if 0 < memory.objects() {
        memory.bytes(0).get(place).copied().unwrap_or(0)
    } else {
        0
    }
}

fn returned(alloc: Global, value: Option<Value>, byte: u8) -> Result<String, AllocError> {
    match value {
        Some(value) => {
            let is = value_text(alloc, value)?;
            format!(in alloc; "{is}, byte {byte}")
        }
        None => format!(in alloc; "nothing, byte {byte}"),
    }
}

/// How a run ends: with what it returns and a byte of object 0, or stuck for a reason at a line, or lost, or cut off.
pub fn end_text(alloc: Global, end: &End, place: usize) -> Result<String, AllocError> {
    match end {
        End::Returned(value, memory) => returned(alloc, *value, byte_at(memory, place)),
        End::Stuck(reason, line) => format!(in alloc; "stuck {reason:?} at line {line}"),
        End::Lost => String::from_str(alloc, "lost"),
        End::Unfinished => String::from_str(alloc, "unfinished"),
    }
}

fn registers_of(
    alloc: Global,
    code: &Code,
    arguments: &[u64],
) -> Result<Seq<Option<Held>>, AllocError> {
    let mut registers = Seq::new(alloc);
    for argument in arguments {
        registers.push(Some(Held::Value(Value::Number(*argument))))?;
    }
    for _ in 0..code.registers.saturating_sub(code.parameters) {
        registers.push(None)?;
    }
    Ok(registers)
}

fn started(
    alloc: Global,
    kernel: &Kernel,
    function: u32,
    registers: Seq<Option<Held>>,
) -> Result<Machine, AllocError> {
    Ok(Machine {
        top: Frame {
            function,
            from: 0,
            block: 0,
            position: 0,
            registers,
        },
        below: Frames::new(alloc),
        memory: KMemory::initial(alloc, kernel.layout())?,
    })
}

/// The run of a function by its place.
fn run_at(
    alloc: Global,
    kernel: &Kernel,
    function: u32,
    arguments: &[u64],
) -> Result<String, AllocError> {
    match kernel.program().functions.as_slice().get(function as usize) {
        Some(code) => {
            let registers = registers_of(alloc, code, arguments)?;
            let machine = started(alloc, kernel, function, registers)?;
            let end = run(alloc, kernel.program(), 100_000, machine)?;
            end_text(alloc, &end, 0)
        }
        None => String::from_str(alloc, "lost"),
    }
}

/// The run of the function `f` of a kernel.
fn run_f(alloc: Global, kernel: &Kernel, arguments: &[u64]) -> Result<String, AllocError> {
    let name = Name::copy_of(alloc, b"f")?;
    match kernel.checked().find(&name) {
        Some(place) => run_at(alloc, kernel, place, arguments),
        None => String::from_str(alloc, "refused"),
    }
}

/// The run of the function `f` of a text from the initial memory.
fn run_text(alloc: Global, text: &[u8], arguments: &[u64]) -> Result<String, AllocError>
    requires { length text.now < 2 ^ 31 }
{
    let Ok(module) = read_module(alloc, text) else {
        return String::from_str(alloc, "refused");
    };
    match Kernel::new(alloc, module) {
        Ok(kernel) => run_f(alloc, &kernel, arguments),
        Err(_) => String::from_str(alloc, "refused"),
    }
}

/// The run of a text that is short enough to be read.
fn run_any(alloc: Global, text: &[u8], arguments: &[u64]) -> Result<Option<String>, AllocError> {
    if text.len() < 2_147_483_648 {
        Ok(Some(run_text(alloc, text, arguments)?))
    } else {
        Ok(None)
    }
}

/// The answer to a row over runs of texts.
pub fn run_answer(alloc: Global, fields: &[&str]) -> Result<Option<String>, AllocError> {
    match fields {
        ["run", text, arguments] => match numbers_of(alloc, arguments)? {
            Some(arguments) => run_any(alloc, &text_of(alloc, text)?, &arguments),
            None => Ok(None),
        },
        _ => Ok(None),
    }
}
