//! The end state of a transition.

ghost use Rattle.std.specs.Prelude.{◌≡◌, ◌++◌, [], if◌then◌else◌, map, IfOk, OnOk};
ghost use Rattle.hk_symspec.specs.Lines.{guarded};

use crate::state::SymAbstract;
use crate::write::EntryWrite;
use hk_seq::Seq;
use hk_symmem::{InitialReads, SymMemory};
use hk_term::TermId;
use std::alloc::{AllocError, Global};

// The same memory once more.
fn copied_memory<R: InitialReads>(
    alloc: Global,
    memory: &Option<SymMemory<R>>,
) -> Result<Option<SymMemory<R>>, AllocError>
    ensures { IfOk result (λ m. m ≡ memory.now) }
{
    match memory {
        Some(memory) => {
            let copy = memory.copy(alloc)?;
            Ok(Some(copy))
        }
        None => Ok(None),
    }
}

// A write once more, with this guard.
fn copied_write(alloc: Global, write: &EntryWrite, guard: TermId) -> Result<EntryWrite, AllocError>
    ensures { IfOk result (λ w. w ≡ guarded guard write.now) }
{
    let index = write.index.as_slice().to_vec(alloc)?;
    Ok(EntryWrite {
        field: write.field,
        index: Seq::from_vec(index),
        guard,
        value: write.value,
    })
}

// The same writes once more.
fn copied_writes(alloc: Global, writes: &[EntryWrite]) -> Result<Vec<EntryWrite>, AllocError>
    ensures { IfOk result (λ r. r.items ≡ writes.now) }
{
    let mut made = Vec::new(alloc);
    'each: for write in writes {
        made.push(copied_write(alloc, write, write.guard)?)?;
    }
    Ok(made)
}

// Puts writes behind others, each with this guard.
fn put_guarded(
    alloc: Global,
    made: &mut Vec<EntryWrite>,
    writes: &[EntryWrite],
    guard: TermId,
) -> Result<(), AllocError>
    ensures { OnOk result (made.new.items ≡ made.old.items ++ map (guarded guard) writes.now) }
{
    'each: for write in writes {
        made.push(copied_write(alloc, write, guard)?)?;
    }
    Ok(())
}

/// The state behind writes that are done where a truth holds; the same state where the copy is not returned.
pub(crate) fn end_state<R: InitialReads>(
    alloc: Global,
    state: &SymAbstract<R>,
    writes: &[EntryWrite],
    valid: TermId,
    returned: bool,
) -> Result<SymAbstract<R>, AllocError>
    ensures { IfOk result (λ r. r ≡ record state.now { writes = state.now.writes ++ (if returned then map (guarded valid) writes.now else []) }) }
{
    let memory = copied_memory(alloc, &state.memory)?;
    let locals = state.locals.as_slice().to_vec(alloc)?;
    let mut made = copied_writes(alloc, state.writes.as_slice())?;
    if returned {
        put_guarded(alloc, &mut made, writes, valid)?;
    }
    Ok(SymAbstract {
        memory,
        locals: Seq::from_vec(locals),
        first: state.first,
        writes: Seq::from_vec(made),
    })
}
