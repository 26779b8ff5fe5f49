//! What is told of a function: how many terms it makes, or whether its terms and its runs agree.

ghost use Rattle.ir_ast.specs.ProgramView.{view_module};
ghost use Rattle.ir_kernel.specs.Runs.{CanCall};
ghost use Rattle.ir_layout.specs.Layouts.{IsLayoutOf};
ghost use Rattle.hk_symmem.specs.Origins.{AreOriginsOf};

use crate::compared::agrees;
use crate::executed::{Execution, Function, executed};
use crate::functions::{Subject, zeros};
use crate::random::Random;
use crate::states::{arguments, by_bytes, fill, with_numbers};
use hk_cells::CellReads;
use hk_seq::Seq;
use hk_symmem::{ByteReads, InitialReads};
use hk_term::Valuation;
use ir_ast::Name;
use ir_kernel::{Kernel, Passed, RunEnd, pass, run};
use ir_layout::{KMemory, Layout};
use std::alloc::{AllocError, Global};
use std::str;

/// What is done with each function.
#[derive(Clone, Copy)]
pub enum Mode {
    /// Nothing.
    Read,
    /// It is executed over bytes.
    Bytes,
    /// It is executed over cells.
    Cells,
    /// It is executed over both, and run so many times.
    Compare(u64),
}

/// A function of a kernel with its executions over bytes and over cells.
#[derive(Clone, Copy)]
struct Both<'a> {
    kernel: &'a Kernel,
    subject: &'a Subject,
    bytes: &'a Execution,
    cells: &'a Execution,
}

/// How runs and terms compare.
#[derive(Clone, Copy)]
struct Counts {
    stuck: u64,
    differ: u64,
}

/// The size of the cells of each object; 1 for constants.
#[tactic(auto, using(hk_symmem::proofs::SourceLaws::origins_count))]
pub fn cell_sizes(alloc: Global, layout: &Layout, reads: &CellReads) -> Result<Seq<u32>, AllocError>
    requires { AreOriginsOf layout.now.objects reads.now }
{
    let mut sizes = Seq::new(alloc);
    for object in 0..layout.objects() {
        sizes.push(reads.cell_size(object).unwrap_or(1))?;
    }
    Ok(sizes)
}

/// Executes a function over bytes; the whole memory behind it is made terms where that is asked for.
pub fn over_bytes(
    alloc: Global,
    kernel: &Kernel,
    subject: &Subject,
    numbers: &[u64],
    place: u32,
    whole: bool,
) -> Result<Execution, AllocError>
    requires call { CanCall (view_module kernel.now) place numbers.now }
{
    let layout = kernel.layout();
    let reads = ByteReads::new(alloc, layout)?;
    let widths = subject.widths.as_slice();
    let single: &[u32] = &[];
    let sizes = if whole { Some(single) } else { None };
    let function = Function {
        kernel,
        layout,
        place,
    };
    let made = executed(alloc, &function, numbers, widths, reads, sizes)?;
    Ok(made)
}

/// Executes a function over cells; the whole memory behind it is made terms where that is asked for.
pub fn over_cells(
    alloc: Global,
    kernel: &Kernel,
    subject: &Subject,
    numbers: &[u64],
    place: u32,
    whole: bool,
) -> Result<Execution, AllocError>
    requires call { CanCall (view_module kernel.now) place numbers.now }
{
    let layout = kernel.layout();
    let reads = CellReads::new(alloc, kernel.checked().module(), layout)?;
    let sizes = cell_sizes(alloc, layout, &reads)?;
    let widths = subject.widths.as_slice();
    let sizes = if whole { Some(sizes.as_slice()) } else { None };
    let function = Function {
        kernel,
        layout,
        place,
    };
    let made = executed(alloc, &function, numbers, widths, reads, sizes)?;
    Ok(made)
}

/// A valuation with these numbers for the variables, and random ones for the cells of all objects.
#[tactic(auto, using(hk_symmem::proofs::SourceLaws::origins_count))]
fn by_cells(
    alloc: Global,
    numbers: &[u64],
    layout: &Layout,
    reads: &CellReads,
    random: &mut Random,
) -> Result<Valuation, AllocError>
    requires { AreOriginsOf layout.now.objects reads.now }
{
    let mut valuation = with_numbers(alloc, numbers)?;
    for object in 0..layout.objects() {
        let size = layout.object_size(object);
        let cell = u64::from(reads.cell_size(object).unwrap_or(1).max(1));
        fill(&mut valuation, object, size / cell, random)?;
    }
    Ok(valuation)
}

/// The run of a function from a memory, where it takes the numbers.
fn run_of(
    alloc: Global,
    kernel: &Kernel,
    name: &Name,
    numbers: &[u64],
    memory: &KMemory,
) -> Result<RunEnd, AllocError> {
    match pass(alloc, kernel, name, numbers)? {
        Passed::To(place) => {
            let end = run(alloc, kernel, place, numbers, memory)?;
            Ok(end)
        }
        Passed::Not(_) => Ok(RunEnd::Lost),
    }
}

/// One more run: it is stuck or not, and the terms agree or not.
fn counted(counts: Counts, stuck: bool, agree: bool) -> Counts {
    Counts {
        stuck: counts.stuck.saturating_add(u64::from(stuck)),
        differ: counts.differ.saturating_add(u64::from(!agree)),
    }
}

/// A machine state as a memory, and as a valuation for terms over bytes.
fn state_of(
    alloc: Global,
    numbers: &[u64],
    layout: &Layout,
    reads: &CellReads,
    v: &Valuation,
) -> Result<(KMemory, Valuation), AllocError>
    requires { AreOriginsOf layout.now.objects reads.now }
{
    let memory = reads.memory_of(alloc, layout, v)?;
    let bytes = by_bytes(alloc, numbers, &memory)?;
    Ok((memory, bytes))
}

/// Whether both executions say of a run what it came to.
fn both_agree(
    alloc: Global,
    bytes: &Execution,
    cells: &Execution,
    over_bytes: &Valuation,
    over_cells: &Valuation,
    end: &RunEnd,
) -> Result<bool, AllocError> {
    let first = agrees(alloc, bytes, over_bytes, end)?;
    let second = agrees(alloc, cells, over_cells, end)?;
    Ok(first && second)
}

/// A run beside both executions.
fn compare_run(
    alloc: Global,
    both: &Both,
    numbers: &[u64],
    state: &(KMemory, Valuation),
    v: &Valuation,
    counts: Counts,
) -> Result<Counts, AllocError> {
    let end = run_of(alloc, both.kernel, &both.subject.name, numbers, &state.0)?;
    let stuck = matches!(&end, RunEnd::Stuck { .. });
    let agree = both_agree(alloc, both.bytes, both.cells, &state.1, v, &end)?;
    Ok(counted(counts, stuck, agree))
}

/// A run with these arguments from a random state, beside both executions.
fn compare_numbers(
    alloc: Global,
    both: &Both,
    numbers: &[u64],
    layout: &Layout,
    reads: &CellReads,
    random: &mut Random,
    counts: Counts,
) -> Result<Counts, AllocError>
    requires { AreOriginsOf layout.now.objects reads.now }
{
    let v = by_cells(alloc, numbers, layout, reads, random)?;
    let state = state_of(alloc, numbers, layout, reads, &v)?;
    compare_run(alloc, both, numbers, &state, &v, counts)
}

/// A run from a random state, beside both executions.
fn compare_one(
    alloc: Global,
    both: &Both,
    layout: &Layout,
    reads: &CellReads,
    random: &mut Random,
    counts: Counts,
) -> Result<Counts, AllocError>
    requires { AreOriginsOf layout.now.objects reads.now }
{
    let numbers = arguments(alloc, both.subject.widths.as_slice(), random)?;
    compare_numbers(alloc, both, &numbers, layout, reads, random, counts)
}

/// Runs from so many random states, beside both executions.
fn compare(alloc: Global, both: &Both, count: u64) -> Result<Counts, AllocError> {
    let layout = both.kernel.layout();
    let reads = CellReads::new(alloc, both.kernel.checked().module(), layout)?;
    let mut random = Random::new(count);
    let mut counts = Counts {
        stuck: 0,
        differ: 0,
    };
    for _ in 0..count {
        counts = compare_one(alloc, both, layout, &reads, &mut random, counts)?;
    }
    Ok(counts)
}

/// What is told of so many runs.
fn told(alloc: Global, counts: Counts, count: u64) -> Result<String, AllocError> {
    if counts.differ > 0 {
        format!(in alloc; "{} of {} runs differ", counts.differ, count)
    } else if counts.stuck == 0 {
        format!(in alloc; "{} runs agree, none is stuck", count)
    } else if counts.stuck < count {
        format!(in alloc; "{} runs agree, some are stuck", count)
    } else {
        format!(in alloc; "{} runs agree, all are stuck", count)
    }
}

/// What is told of the function at a place, which takes so many numbers.
fn told_of(
    alloc: Global,
    kernel: &Kernel,
    subject: &Subject,
    mode: Mode,
    numbers: &[u64],
    place: u32,
) -> Result<String, AllocError>
    requires call { CanCall (view_module kernel.now) place numbers.now }
{
    match mode {
        Mode::Read => String::from_str(alloc, "read"),
        Mode::Bytes => {
            let made = over_bytes(alloc, kernel, subject, numbers, place, false)?;
            format!(in alloc; "{} terms", made.terms.len())
        }
        Mode::Cells => {
            let made = over_cells(alloc, kernel, subject, numbers, place, false)?;
            format!(in alloc; "{} terms", made.terms.len())
        }
        Mode::Compare(count) => {
            let bytes = over_bytes(alloc, kernel, subject, numbers, place, true)?;
            let cells = over_cells(alloc, kernel, subject, numbers, place, true)?;
            let both = Both {
                kernel,
                subject,
                bytes: &bytes,
                cells: &cells,
            };
            let counts = compare(alloc, &both, count)?;
            told(alloc, counts, count)
        }
    }
}

/// What is told of a function, behind its name.
pub fn tell(
    alloc: Global,
    kernel: &Kernel,
    subject: &Subject,
    mode: Mode,
) -> Result<String, AllocError> {
    let numbers = zeros(alloc, subject.widths.len())?;
    let name = str::from_utf8(subject.name.as_bytes()).unwrap_or("?");
    match pass(alloc, kernel, &subject.name, &numbers)? {
        Passed::To(place) => {
            let told = told_of(alloc, kernel, subject, mode, &numbers, place)?;
            format!(in alloc; "{name}: {told}")
        }
        Passed::Not(_) => format!(in alloc; "{name}: not passed"),
    }
}
