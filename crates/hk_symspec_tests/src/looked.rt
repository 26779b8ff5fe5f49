//! The parts of a specification with their terms.

ghost use Rattle.std.specs.Prelude.{List};
ghost use Rattle.hk_symspec.specs.Standing.{IsKernelOver};
ghost use Rattle.hk_term.specs.declared.node.Node.{Node};
ghost use Rattle.spec_tree.specs.Sorted.{IsWellSorted};
ghost use Rattle.spec_tree.specs.View.{view_spec};

use crate::compared::{Counts, Looked};
use crate::indices::{At, keys_in, tuples_in};
use crate::parts::{Part, parts_of};
use crate::tellings::{Over, Telling};
use crate::told::tell;
use hk_cells::CellReads;
use hk_symmem::{ByteReads, SymMemory};
use spec_tree::Spec;
use std::alloc::{AllocError, Global};

/// The initial memory of a kernel, by cells and by bytes.
#[derive(Clone, Copy)]
pub struct Memories<'a> {
    pub cells: &'a SymMemory<CellReads>,
    pub bytes: &'a SymMemory<ByteReads>,
}

/// Adds the term of a part at a place.
fn tell_over(
    alloc: Global,
    spec: &Spec,
    memories: &Memories,
    over: Over,
    part: Part,
    at: At,
    tellings: &mut Vec<Telling>,
) -> Result<(), AllocError>
    requires spec { IsWellSorted (view_spec spec.now) }
    requires cells { (nodes : List Node) → IsKernelOver (view_spec spec.now) nodes memories.now.cells.now }
    requires bytes { (nodes : List Node) → IsKernelOver (view_spec spec.now) nodes memories.now.bytes.now }
{
    let telling = match over {
        Over::Cells => tell(alloc, spec, memories.cells, over, part, at)?,
        _ => tell(alloc, spec, memories.bytes, over, part, at)?,
    };
    tellings.push(telling)?;
    Ok(())
}

/// What the term at the index tuple with a number stands over.
fn over_at(k: u64) -> Over {
    match (k % 4 + k / 4 % 4) % 4 {
        0 => Over::Cells,
        1 => Over::Bytes,
        2 => Over::First,
        _ => Over::Later,
    }
}

/// Whether a part is told over arrays of entries too.
fn is_abstract(part: Part) -> bool {
    match part {
        Part::Invariant(_) => false,
        _ => true,
    }
}

/// Adds the terms of a part at variables, or where it has no indices: over cells, over bytes and over arrays.
fn tell_each(
    alloc: Global,
    spec: &Spec,
    memories: &Memories,
    part: Part,
    tellings: &mut Vec<Telling>,
) -> Result<(), AllocError>
    requires spec { IsWellSorted (view_spec spec.now) }
    requires cells { (nodes : List Node) → IsKernelOver (view_spec spec.now) nodes memories.now.cells.now }
    requires bytes { (nodes : List Node) → IsKernelOver (view_spec spec.now) nodes memories.now.bytes.now }
{
    let at = At::Variables;
    tell_over(alloc, spec, memories, Over::Cells, part, at, tellings)?;
    tell_over(alloc, spec, memories, Over::Bytes, part, at, tellings)?;
    if is_abstract(part) {
        tell_over(alloc, spec, memories, Over::First, part, at, tellings)?;
        tell_over(alloc, spec, memories, Over::Later, part, at, tellings)?;
    }
    Ok(())
}

/// Adds the terms of a part at all places: at an index tuple over one of cells, bytes and arrays, in turn.
fn tell_all(
    alloc: Global,
    spec: &Spec,
    memories: &Memories,
    part: Part,
    tellings: &mut Vec<Telling>,
) -> Result<(), AllocError>
    requires spec { IsWellSorted (view_spec spec.now) }
    requires cells { (nodes : List Node) → IsKernelOver (view_spec spec.now) nodes memories.now.cells.now }
    requires bytes { (nodes : List Node) → IsKernelOver (view_spec spec.now) nodes memories.now.bytes.now }
{
    tell_each(alloc, spec, memories, part, tellings)?;
    let keys = keys_in(spec, part);
    for k in 0..tuples_in(keys) {
        let over = over_at(k);
        tell_over(alloc, spec, memories, over, part, At::Tuple(k), tellings)?;
    }
    Ok(())
}

/// A part with its terms.
fn look(alloc: Global, spec: &Spec, memories: &Memories, part: Part) -> Result<Looked, AllocError>
    requires spec { IsWellSorted (view_spec spec.now) }
    requires cells { (nodes : List Node) → IsKernelOver (view_spec spec.now) nodes memories.now.cells.now }
    requires bytes { (nodes : List Node) → IsKernelOver (view_spec spec.now) nodes memories.now.bytes.now }
{
    let mut tellings = Vec::new(alloc);
    tell_all(alloc, spec, memories, part, &mut tellings)?;
    Ok(Looked {
        part,
        tellings,
        counts: Counts {
            values: 0,
            differ: 0,
            more: 0,
        },
    })
}

/// The parts of a specification with their terms.
pub fn looked_at(alloc: Global, spec: &Spec, memories: &Memories) -> Result<Vec<Looked>, AllocError>
    requires spec { IsWellSorted (view_spec spec.now) }
    requires cells { (nodes : List Node) → IsKernelOver (view_spec spec.now) nodes memories.now.cells.now }
    requires bytes { (nodes : List Node) → IsKernelOver (view_spec spec.now) nodes memories.now.bytes.now }
{
    let mut looked = Vec::new(alloc);
    let parts = parts_of(alloc, spec)?;
    for part in &parts {
        looked.push(look(alloc, spec, memories, *part)?)?;
    }
    Ok(looked)
}
