//! Runs of a kernel that a text spells: a function and numbers come in, and the end of the run goes out.

ghost use Rattle.std.specs.Prelude.{◌≡◌, ◌≢◌, ◌<◌, All, None, length, IfOk};
ghost use Rattle.ir_ast.specs.ProgramView.{view_module};
ghost use Rattle.ir_layout.specs.Initial as definition;
ghost use Rattle.ir_kernel.specs.declared.ends.RunEnd.TheVariants as seen;
ghost use Rattle.ir_kernel.specs.Ends.{IsEndOfRun};
ghost use Rattle.ir_kernel.specs.Passing.{IsPassed, misfit};
ghost use Rattle.ir_typed.specs.Spelled.{AreSpelled};
ghost use Rattle.ir_spelled.specs.Endings.{end_of};

use ir_kernel::{Kernel, RunEnd, initial_memory, run};
use ir_layout::KMemory;
use ir_value::StuckReason;
use std::alloc::{AllocError, Global};

/// How a run of a kernel that a text spells ends.
#[derive(Drop)]
pub enum Ending {
    /// The function returned, with a number where it has one.
    Returned { value: Option<u64>, memory: KMemory },
    /// The run is stuck, at the instruction on a line.
    Stuck { reason: StuckReason, line: u32 },
}

/// Bytes are below 256.
fn are_bytes(bytes: &[u8])
    ensures { All (λ b. b < 256) bytes.now }
{}

/// The bytes of objects are below 256.
fn hold_bytes(memory: &KMemory, objects: u32)
    requires { objects ≡ length memory.now }
    ensures { All (λ o. All (λ b. b < 256) o) memory.now }
{
    'each: for k in 0..objects {
        are_bytes(memory.bytes(k));
    }
}

/// The end of a run that is not lost.
fn with_end(end: RunEnd) -> Ending
    requires { end ≢ seen.Lost }
    ensures { end_of result ≡ end }
{
    match end {
        RunEnd::Returned { value, memory } => Ending::Returned { value, memory },
        RunEnd::Stuck { reason, line } => Ending::Stuck { reason, line },
        RunEnd::Lost => unreachable!(),
    }
}

/// Runs the function of a name, by its place, from the initial memory to its end, with numbers that it takes. It takes time and memory for
/// the steps of the run.
pub fn run_from_start(
    alloc: Global,
    kernel: &Kernel,
    name: &str,
    place: u32,
    arguments: &[u64],
) -> Result<Ending, AllocError>
    requires spelled { AreSpelled (view_module kernel.now) }
    requires taken { misfit (view_module kernel.now) name.now arguments.now ≡ None }
    requires passed { IsPassed (view_module kernel.now) name.now arguments.now place }
    ensures { IfOk result (λ end. IsEndOfRun (view_module kernel.now) place arguments.now (definition.initial_memory (view_module kernel.now)) (end_of end)) }
{
    // For the proof: the kernel's module is checked, and no two of its functions have one name.
    let _checked = kernel.checked();
    let memory = initial_memory(alloc, kernel)?;
    hold_bytes(&memory, kernel.layout().objects());
    let end = run(alloc, kernel, place, arguments, &memory)?;
    Ok(with_end(end))
}
