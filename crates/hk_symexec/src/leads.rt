//! Instructions that lead elsewhere: branches and switches.

ghost use Rattle.std.specs.Prelude.{◌≡◌, ℕ, ◌<◌, true, false, Bool, if◌then◌else◌, nat_eq, Option, Some, None, List, length, IfOk};
ghost use Rattle.hk_term.specs.Meaning.{Reading, value};
ghost use Rattle.ir_machine.specs.Values.{value_of};
ghost use Rattle.ir_machine.specs.Step as machine;
ghost use Rattle.ir_walk.specs.Walk.{Behind, on_jump, on_target};
ghost use Rattle.hk_symvalue.specs.Growth.{Extends};
ghost use Rattle.hk_symvalue.specs.Meaning.{IsTruth, IsSym, is_true, meaning};
ghost use Rattle.hk_symmem.specs.Guarded.{memory_at, IsOver, IsMemoryOf};
ghost use Rattle.hk_symaccess.specs.Accesses.{AreWhole};
ghost use Rattle.hk_symexec.specs.Seen.{IsExec, seen};
ghost use Rattle.hk_symexec.specs.Tracks.{Ending, Tracks};

use crate::exec::Exec;
use crate::jumps::{Edge, jump};
use crate::marks::stick;
use crate::setting::Setting;
use crate::truths;
use hk_symmem::{InitialReads, SymMemory};
use hk_symstep::operand;
use hk_symvalue::SymValue;
use hk_term::{TermId, Terms};
use ir_code::{Case, Input};
use std::alloc::{AllocError, Global};

/// The edges of a branch: from its block to one where the condition holds, and to one where it does not.
#[derive(Clone, Copy)]
pub(crate) struct BranchEdges {
    pub(crate) from: u32,
    pub(crate) yes: u32,
    pub(crate) no: u32,
}

/// The edges of a switch: from its block to one for each case, and to one where no case is the number.
#[derive(Clone, Copy)]
pub(crate) struct SwitchEdges<'a> {
    pub(crate) from: u32,
    pub(crate) cases: &'a [Case],
    pub(crate) default: u32,
}

/// The run leaves by an edge.
#[tactic(auto, using(crate::proofs::Kept::over_kept, crate::proofs::Kept::exec_kept))]
pub(crate) fn goto<R: InitialReads>(
    alloc: Global,
    t: &mut Terms,
    setting: &Setting,
    memory: &SymMemory<R>,
    x: Exec,
    edge: Edge,
) -> Result<Exec, AllocError>
    requires layout { IsMemoryOf setting.now.layout.now.objects memory.now }
    requires whole { AreWhole setting.now.layout.now.objects }
    requires over { IsOver t.old memory.now }
    requires state { IsExec t.old x }
    ensures frame { Extends t.old t.new }
    ensures within { IfOk result (λ y. IsExec t.new y) }
    ensures tracks { IfOk result (λ y. (v : Reading) (go : Behind) (e : Ending) →
        Tracks setting.now.program.now setting.now.function (seen t.old v x) (memory_at t.old memory.now v) (λ rs m. on_jump setting.now.program.now setting.now.function edge.from edge.to rs m) e →
        Tracks setting.now.program.now setting.now.function (seen t.new v y) (memory_at t.new memory.now v) go e) }
{
    let always = truths::constant(t, true)?;
    let made = jump(alloc, t, setting, memory, x, edge, always)?;
    Ok(made)
}

// The run leaves for one of two blocks, by whether a number is 0; it is stuck where the value is poison.
#[tactic(auto, using(crate::proofs::Kept::over_kept, crate::proofs::Kept::exec_kept))]
fn branch_on<R: InitialReads>(
    alloc: Global,
    t: &mut Terms,
    setting: &Setting,
    memory: &SymMemory<R>,
    x: Exec,
    condition: SymValue,
    edges: BranchEdges,
) -> Result<Exec, AllocError>
    requires layout { IsMemoryOf setting.now.layout.now.objects memory.now }
    requires whole { AreWhole setting.now.layout.now.objects }
    requires over { IsOver t.old memory.now }
    requires state { IsExec t.old x }
    requires condition { IsSym t.old condition }
    ensures frame { Extends t.old t.new }
    ensures within { IfOk result (λ y. IsExec t.new y) }
    ensures tracks { IfOk result (λ y. (v : Reading) (line : ℕ) (go : Behind) (e : Ending) →
        Tracks setting.now.program.now setting.now.function (seen t.old v x) (memory_at t.old memory.now v) (λ rs m. on_target setting.now.program.now setting.now.function edges.from line rs m (machine.branch_to (Some (meaning t.old condition v)) edges.yes edges.no)) e →
        Tracks setting.now.program.now setting.now.function (seen t.new v y) (memory_at t.new memory.now v) go e) }
{
    let known = stick(t, x, condition.poison)?;
    let zero = truths::equals(t, condition.bits, 0)?;
    let BranchEdges { from, yes, no } = edges;
    let away = Edge { from, to: no };
    let other = jump(alloc, t, setting, memory, known, away, zero)?;
    let made = goto(alloc, t, setting, memory, other, Edge { from, to: yes })?;
    Ok(made)
}

/// A branch.
#[tactic(auto, using(crate::proofs::Kept::over_kept, crate::proofs::Kept::exec_kept))]
pub(crate) fn branch<R: InitialReads>(
    alloc: Global,
    t: &mut Terms,
    setting: &Setting,
    memory: &SymMemory<R>,
    x: Exec,
    condition: &Input,
    edges: BranchEdges,
) -> Result<Exec, AllocError>
    requires layout { IsMemoryOf setting.now.layout.now.objects memory.now }
    requires whole { AreWhole setting.now.layout.now.objects }
    requires over { IsOver t.old memory.now }
    requires state { IsExec t.old x }
    ensures frame { Extends t.old t.new }
    ensures within { IfOk result (λ y. IsExec t.new y) }
    ensures tracks { IfOk result (λ y. (v : Reading) (line : ℕ) (go : Behind) (e : Ending) →
        Tracks setting.now.program.now setting.now.function (seen t.old v x) (memory_at t.old memory.now v) (λ rs m. on_target setting.now.program.now setting.now.function edges.from line rs m (machine.branch_to (value_of m rs condition.now) edges.yes edges.no)) e →
        Tracks setting.now.program.now setting.now.function (seen t.new v y) (memory_at t.new memory.now v) go e) }
{
    let read = operand(t, setting.layout, memory, &x.file, condition)?;
    match read {
        None => Ok(x),
        Some(on) => {
            let made = branch_on(alloc, t, setting, memory, x, on, edges)?;
            Ok(made)
        }
    }
}

// The run leaves for the block of the first case that is a number, and else for another one.
#[tactic(auto, using(crate::proofs::Kept::over_kept, crate::proofs::Kept::exec_kept))]
fn cases_on<R: InitialReads>(
    alloc: Global,
    t: &mut Terms,
    setting: &Setting,
    memory: &SymMemory<R>,
    x: Exec,
    bits: TermId,
    edges: &SwitchEdges,
) -> Result<Exec, AllocError>
    requires layout { IsMemoryOf setting.now.layout.now.objects memory.now }
    requires whole { AreWhole setting.now.layout.now.objects }
    requires over { IsOver t.old memory.now }
    requires state { IsExec t.old x }
    requires bits { bits < length t.old }
    ensures frame { Extends t.old t.new }
    ensures within { IfOk result (λ y. IsExec t.new y) }
    ensures tracks { IfOk result (λ y. (v : Reading) (go : Behind) (e : Ending) →
        Tracks setting.now.program.now setting.now.function (seen t.old v x) (memory_at t.old memory.now v) (λ rs m. on_jump setting.now.program.now setting.now.function edges.now.from (machine.case_of (value t.old bits v) edges.now.cases.now edges.now.default) rs m) e →
        Tracks setting.now.program.now setting.now.function (seen t.new v y) (memory_at t.new memory.now v) go e) }
{
    let mut state = x;
    let from = edges.from;
    for case in edges.cases {
        let hit = truths::equals(t, bits, case.number)?;
        let to = case.block;
        state = jump(alloc, t, setting, memory, state, Edge { from, to }, hit)?;
    }
    let to = edges.default;
    let made = goto(alloc, t, setting, memory, state, Edge { from, to })?;
    Ok(made)
}

// The run leaves for the block of the first case that is a number, and else for another one; it is stuck where the value is poison.
#[tactic(auto, using(crate::proofs::Kept::over_kept, crate::proofs::Kept::exec_kept))]
fn switch_on<R: InitialReads>(
    alloc: Global,
    t: &mut Terms,
    setting: &Setting,
    memory: &SymMemory<R>,
    x: Exec,
    on: SymValue,
    edges: &SwitchEdges,
) -> Result<Exec, AllocError>
    requires layout { IsMemoryOf setting.now.layout.now.objects memory.now }
    requires whole { AreWhole setting.now.layout.now.objects }
    requires over { IsOver t.old memory.now }
    requires state { IsExec t.old x }
    requires on { IsSym t.old on }
    ensures frame { Extends t.old t.new }
    ensures within { IfOk result (λ y. IsExec t.new y) }
    ensures tracks { IfOk result (λ y. (v : Reading) (line : ℕ) (go : Behind) (e : Ending) →
        Tracks setting.now.program.now setting.now.function (seen t.old v x) (memory_at t.old memory.now v) (λ rs m. on_target setting.now.program.now setting.now.function edges.now.from line rs m (machine.switch_to (Some (meaning t.old on v)) edges.now.cases.now edges.now.default)) e →
        Tracks setting.now.program.now setting.now.function (seen t.new v y) (memory_at t.new memory.now v) go e) }
{
    let known = stick(t, x, on.poison)?;
    let made = cases_on(alloc, t, setting, memory, known, on.bits, edges)?;
    Ok(made)
}

/// A switch.
#[tactic(auto, using(crate::proofs::Kept::over_kept, crate::proofs::Kept::exec_kept))]
pub(crate) fn switch<R: InitialReads>(
    alloc: Global,
    t: &mut Terms,
    setting: &Setting,
    memory: &SymMemory<R>,
    x: Exec,
    on: &Input,
    edges: &SwitchEdges,
) -> Result<Exec, AllocError>
    requires layout { IsMemoryOf setting.now.layout.now.objects memory.now }
    requires whole { AreWhole setting.now.layout.now.objects }
    requires over { IsOver t.old memory.now }
    requires state { IsExec t.old x }
    ensures frame { Extends t.old t.new }
    ensures within { IfOk result (λ y. IsExec t.new y) }
    ensures tracks { IfOk result (λ y. (v : Reading) (line : ℕ) (go : Behind) (e : Ending) →
        Tracks setting.now.program.now setting.now.function (seen t.old v x) (memory_at t.old memory.now v) (λ rs m. on_target setting.now.program.now setting.now.function edges.now.from line rs m (machine.switch_to (value_of m rs on.now) edges.now.cases.now edges.now.default)) e →
        Tracks setting.now.program.now setting.now.function (seen t.new v y) (memory_at t.new memory.now v) go e) }
{
    let read = operand(t, setting.layout, memory, &x.file, on)?;
    match read {
        None => Ok(x),
        Some(given) => {
            let made = switch_on(alloc, t, setting, memory, x, given, edges)?;
            Ok(made)
        }
    }
}
