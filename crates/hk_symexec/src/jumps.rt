//! Jumps: the run leaves for a block, behind its phis.

ghost use Rattle.std.specs.Prelude.{◌≡◌, ℕ, ◌<◌, ◌&&◌, ◌||◌, not, true, false, Bool, if◌then◌else◌, nat_eq, Some, None, List, length, slice_set, slice_index_or, IfOk};
ghost use Rattle.hk_term.specs.Shape.{IsWidth, width};
ghost use Rattle.hk_term.specs.Meaning.{Reading, value};
ghost use Rattle.hk_term.specs.declared.node.Node.{Node};
ghost use Rattle.ir_code.specs.declared.program.Program.{Program};
ghost use Rattle.ir_machine.specs.Values.{Registers};
ghost use Rattle.ir_machine.specs.Step as machine;
ghost use Rattle.ir_walk.specs.Walk.{Memory, Behind, on_jump};
ghost use Rattle.hk_symvalue.specs.Growth.{Extends};
ghost use Rattle.hk_symvalue.specs.Meaning.{IsTruth, IsWord, is_true};
ghost use Rattle.hk_symmem.specs.Guarded.{memory_at, IsOver, IsMemoryOf};
ghost use Rattle.hk_symaccess.specs.Accesses.{AreWhole};
ghost use Rattle.hk_symstep.specs.Files.{IsFile, Covers, registers_of};
ghost use Rattle.std.specs.List.{All};
ghost use Rattle.hk_symexec.specs.Seen.{IsExec, entries_seen, seen, left_where};
ghost use Rattle.hk_symexec.specs.Phis.{phis_meaning, ArePhis};
ghost use Rattle.hk_symexec.specs.Tracks.{Ending, Tracks};

use crate::entries::Entries;
use crate::exec::Exec;
use crate::phis::{Phi, set_all, staged};
use crate::setting::Setting;
use crate::truths;
use hk_symmem::{InitialReads, SymMemory};
use hk_term::{TermId, Terms};
use ir_code::{Program, Step};
use std::alloc::{AllocError, Global};

/// An edge between two blocks of a function, by their places.
#[derive(Clone, Copy)]
pub(crate) struct Edge {
    pub(crate) from: u32,
    pub(crate) to: u32,
}

/// The instructions of a block of a function.
pub(crate) fn steps_of(program: &Program, function: u32, block: u32) -> &[Step]
    ensures { result.now ≡ machine.steps_of program.now function block }
{
    match program.functions.as_slice().get(function as usize) {
        Some(code) => match code.blocks.as_slice().get(block as usize) {
            Some(block) => block.steps.as_slice(),
            None => &[],
        },
        None => &[],
    }
}

fn mark_inside(
    t: &mut Terms,
    entries: Entries,
    to: u32,
    condition: TermId,
) -> Result<Entries, AllocError>
    requires inside { to < length entries }
    requires entries { All (λ k. IsTruth t.old k) entries }
    requires condition { IsTruth t.old condition }
    ensures frame { Extends t.old t.new }
    ensures within { IfOk result (λ r. All (λ k. IsTruth t.new k) r) }
    ensures seen { IfOk result (λ r. (v : Reading) → entries_seen t.new v r ≡ slice_set (entries_seen t.old v entries) to (slice_index_or (entries_seen t.old v entries) to false || is_true t.old condition v)) }
{
    let mut marked = entries;
    let before = marked.at(to);
    let both = truths::or(t, before, condition)?;
    marked.set(to, both);
    Ok(marked)
}

// The run goes to a block where a condition holds, too.
fn mark(t: &mut Terms, entries: Entries, to: u32, condition: TermId) -> Result<Entries, AllocError>
    requires entries { All (λ k. IsTruth t.old k) entries }
    requires condition { IsTruth t.old condition }
    ensures frame { Extends t.old t.new }
    ensures within { IfOk result (λ r. All (λ k. IsTruth t.new k) r) }
    ensures seen { IfOk result (λ r. (v : Reading) → entries_seen t.new v r ≡ slice_set (entries_seen t.old v entries) to (slice_index_or (entries_seen t.old v entries) to false || is_true t.old condition v)) }
{
    if (to as usize) < entries.len() {
        let made = mark_inside(t, entries, to, condition)?;
        Ok(made)
    } else {
        Ok(entries)
    }
}

// Where a condition holds the run leaves for a block, and these phis are set.
fn leave(
    t: &mut Terms,
    x: Exec,
    to: u32,
    condition: TermId,
    phis: &[Phi],
) -> Result<Exec, AllocError>
    requires state { IsExec t.old x }
    requires condition { IsTruth t.old condition }
    requires phis { ArePhis t.old phis.now }
    ensures frame { Extends t.old t.new }
    ensures within { IfOk result (λ y. IsExec t.new y) }
    ensures seen { IfOk result (λ y. (v : Reading) → seen t.new v y ≡ left_where (is_true t.old condition v) to (registers_of t.new v y.file) (seen t.old v x)) }
    ensures here { IfOk result (λ y. (v : Reading) (rs : Registers) → (is_true t.old x.guard v && is_true t.old condition v) ≡ true → Covers t.old v x.file rs → Covers t.new v y.file (machine.set_all (phis_meaning t.old v phis.now) rs)) }
    ensures away { IfOk result (λ y. (v : Reading) (rs : Registers) → (is_true t.old x.guard v && is_true t.old condition v) ≡ false → Covers t.old v x.file rs → Covers t.new v y.file rs) }
{
    let Exec {
        guard,
        entries,
        mut file,
        back,
        valued,
        value,
        stuck,
    } = x;
    let edge = truths::and(t, guard, condition)?;
    let other = truths::not(t, condition)?;
    let rest = truths::and(t, guard, other)?;
    let marked = mark(t, entries, to, edge)?;
    set_all(t, edge, &mut file, phis)?;
    Ok(Exec {
        guard: rest,
        entries: marked,
        file,
        back,
        valued,
        value,
        stuck,
    })
}

/// Where a condition holds the run leaves by an edge.
pub(crate) fn jump<R: InitialReads>(
    alloc: Global,
    t: &mut Terms,
    setting: &Setting,
    memory: &SymMemory<R>,
    x: Exec,
    edge: Edge,
    condition: TermId,
) -> Result<Exec, AllocError>
    requires layout { IsMemoryOf setting.now.layout.now.objects memory.now }
    requires whole { AreWhole setting.now.layout.now.objects }
    requires over { IsOver t.old memory.now }
    requires state { IsExec t.old x }
    requires condition { IsTruth t.old condition }
    ensures frame { Extends t.old t.new }
    ensures within { IfOk result (λ y. IsExec t.new y) }
    ensures tracks { IfOk result (λ y. (v : Reading) (go : Behind) (e : Ending) →
        Tracks setting.now.program.now setting.now.function (seen t.old v x) (memory_at t.old memory.now v) (λ rs m. if is_true t.old condition v then on_jump setting.now.program.now setting.now.function edge.from edge.to rs m else go rs m) e →
        Tracks setting.now.program.now setting.now.function (seen t.new v y) (memory_at t.new memory.now v) go e) }
{
    let steps = steps_of(setting.program, setting.function, edge.to);
    let read = staged(alloc, t, setting.layout, memory, &x.file, edge.from, steps)?;
    match read {
        None => Ok(x),
        Some(phis) => {
            let made = leave(t, x, edge.to, condition, phis.as_slice())?;
            Ok(made)
        }
    }
}
