//! Trials: a machine state is drawn, and all parts of a specification are compared there.

ghost use Rattle.hk_symmem.specs.Origins.{AreOriginsOf};
ghost use Rattle.ir_ast.specs.ProgramView.{view_module};
ghost use Rattle.ir_layout.specs.Layouts.{IsLayoutOf};
ghost use Rattle.spec_kernel.specs.Fit.{FitsModule};
ghost use Rattle.spec_tree.specs.Shapes.{IsMemory};
ghost use Rattle.spec_tree.specs.Sorted.{IsWellSorted};
ghost use Rattle.spec_tree.specs.View.{view_spec};

use crate::compared::{Looked, Valuations, compare};
use crate::draws::{Words, by_bytes, by_cells, by_entries};
use crate::ground::{memory_at, start};
use crate::looked::{Memories, looked_at};
use crate::plain::state_of;
use crate::random::Random;
use hk_cells::CellReads;
use hk_inputs::Inputs;
use hk_symmem::ByteReads;
use hk_term::Valuation;
use ir_kernel::Kernel;
use ir_layout::{KMemory, Layout};
use spec_tree::Spec;
use std::alloc::{AllocError, Global};

/// The layout of a kernel's objects, and what reads them by cells and by bytes.
#[derive(Clone, Copy)]
struct Reads<'a> {
    layout: &'a Layout,
    cells: &'a CellReads,
    bytes: &'a ByteReads,
}

/// Words that were drawn, and the valuations that give them and a machine state, by cells and by bytes.
#[derive(Drop)]
struct Drawn {
    words: Words,
    cells: Valuation,
    bytes: Valuation,
}

/// Compares all parts over a machine state.
fn compare_all(
    alloc: Global,
    spec: &Spec,
    memory: &KMemory,
    drawn: Drawn,
    random: &mut Random,
    looked: &mut Vec<Looked>,
) -> Result<(), AllocError>
    requires spec { IsWellSorted (view_spec spec.now) }
    requires memory { IsMemory spec.now.objects memory.now }
{
    let Drawn {
        words,
        cells,
        bytes,
    } = drawn;
    let state = state_of(alloc, spec, memory)?;
    let entries = by_entries(alloc, words, spec, &state, random)?;
    let valuations = Valuations {
        cells,
        bytes,
        entries,
    };
    for part in looked.iter_mut() {
        part.counts = compare(alloc, spec, memory, &state, &valuations, part)?;
    }
    Ok(())
}

/// Draws a machine state by cells, and compares all parts over the memory that its bytes give.
fn trial(
    alloc: Global,
    kernel: &Kernel,
    spec: &Spec,
    reads: &Reads,
    random: &mut Random,
    looked: &mut Vec<Looked>,
) -> Result<(), AllocError>
    requires spec { IsWellSorted (view_spec spec.now) }
    requires fits { FitsModule (view_module kernel.now) (view_spec spec.now) }
    requires layout { IsLayoutOf (view_module kernel.now) reads.now.layout.now }
    requires cells { AreOriginsOf reads.now.layout.now.objects reads.now.cells.now }
    requires bytes { AreOriginsOf reads.now.layout.now.objects reads.now.bytes.now }
{
    let words = Words::new(random);
    let cells = by_cells(alloc, words, reads.layout, reads.cells, random)?;
    let first = memory_at(alloc, kernel, spec, reads.layout, reads.cells, &cells)?;
    let bytes = by_bytes(alloc, words, &first)?;
    let memory = memory_at(alloc, kernel, spec, reads.layout, reads.bytes, &bytes)?;
    let drawn = Drawn {
        words,
        cells,
        bytes,
    };
    compare_all(alloc, spec, &memory, drawn, random, looked)
}

/// The parts of a specification with their terms, over the initial memory by cells and by bytes.
fn parts_in(alloc: Global, kernel: &Kernel, spec: &Spec) -> Result<Vec<Looked>, AllocError>
    requires spec { IsWellSorted (view_spec spec.now) }
    requires fits { FitsModule (view_module kernel.now) (view_spec spec.now) }
{
    let layout = kernel.layout();
    let first = CellReads::new(alloc, kernel.checked().module(), layout)?;
    let second = ByteReads::new(alloc, layout)?;
    let cells = start(alloc, kernel, spec, layout, first)?;
    let bytes = start(alloc, kernel, spec, layout, second)?;
    let memories = Memories {
        cells: &cells,
        bytes: &bytes,
    };
    looked_at(alloc, spec, &memories)
}

/// The parts of a specification, compared over so many machine states.
pub fn tried(alloc: Global, inputs: &Inputs, times: u64) -> Result<Vec<Looked>, AllocError>
    requires sorted { IsWellSorted (view_spec inputs.now.spec) }
    requires fits { FitsModule (view_module inputs.now.kernel) (view_spec inputs.now.spec) }
{
    let kernel = &inputs.kernel;
    let spec = &inputs.spec;
    let layout = kernel.layout();
    let mut looked = parts_in(alloc, kernel, spec)?;
    let cells = CellReads::new(alloc, kernel.checked().module(), layout)?;
    let bytes = ByteReads::new(alloc, layout)?;
    let reads = Reads {
        layout,
        cells: &cells,
        bytes: &bytes,
    };
    let mut random = Random::new(times);
    for _ in 0..times {
        trial(alloc, kernel, spec, &reads, &mut random, &mut looked)?;
    }
    Ok(looked)
}
