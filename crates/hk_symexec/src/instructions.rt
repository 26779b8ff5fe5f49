//! Instructions that are no calls.

ghost use Rattle.std.specs.Prelude.{◌≡◌, ℕ, true, false, Bool, List, IfOk};
ghost use Rattle.hk_term.specs.Meaning.{Reading};
ghost use Rattle.ir_value.specs.declared.value.StuckReason.TheVariants as u;
ghost use Rattle.ir_code.specs.declared.program.Program.{Program};
ghost use Rattle.ir_machine.specs.declared.state.End.TheVariants.{Stuck};
ghost use Rattle.ir_machine.specs.Values.{value_of, held_at};
ghost use Rattle.ir_machine.specs.Step as machine;
ghost use Rattle.ir_walk.specs.Walk.{Callee, Behind, Stops, on_slot, walk_act};
ghost use Rattle.hk_symvalue.specs.Growth.{Extends};
ghost use Rattle.hk_symmem.specs.Guarded.{memory_at, IsOver, IsMemoryOf};
ghost use Rattle.hk_symaccess.specs.Accesses.{AreWhole, FitsMemory};
ghost use Rattle.hk_symexec.specs.Seen.{IsExec, seen};
ghost use Rattle.hk_symexec.specs.Tracks.{Ending, Tracks, is_call, is_computed};

use crate::exec::Exec;
use crate::jumps::Edge;
use crate::leads::{BranchEdges, SwitchEdges, branch, goto, switch};
use crate::returns::{OperandAccess, give_back, store};
use crate::setting::Setting;
use crate::settle::{settle, settle_passes, settle_slot};
use crate::truths;
use hk_symmem::{InitialReads, SymMemory};
use hk_symstep::{SlotAccess, computed, stored_slot};
use hk_term::Terms;
use ir_code::{Act, Input, Program, Step};
use ir_layout::Layout;
use std::alloc::{AllocError, Global};

/// A store into a slot: the operand of what is stored, and where to.
#[derive(Clone, Copy)]
struct SlotStore<'a> {
    value: &'a Input,
    to: SlotAccess,
}

/// Where the run is here it is stuck.
#[tactic(auto, using(crate::proofs::Kept::over_kept, crate::proofs::Kept::exec_kept))]
fn unreachable<R: InitialReads>(
    t: &mut Terms,
    memory: &SymMemory<R>,
    x: Exec,
) -> Result<Exec, AllocError>
    requires over { IsOver t.old memory.now }
    requires state { IsExec t.old x }
    ensures frame { Extends t.old t.new }
    ensures within { IfOk result (λ y. IsExec t.new y) }
    ensures tracks { IfOk result (λ y. (P : Program) (f : ℕ) (v : Reading) (line : ℕ) (go : Behind) (e : Ending) →
        Tracks P f (seen t.old v x) (memory_at t.old memory.now v) (λ rs m. Stops (Stuck u.U4 line)) e →
        Tracks P f (seen t.new v y) (memory_at t.new memory.now v) go e) }
{
    // For the proof: the clauses alone speak of the memory.
    let _memory = memory;
    let always = truths::constant(t, true)?;
    let made = settle_passes(t, x, always)?;
    Ok(made)
}

/// A store into a slot.
#[tactic(auto, using(crate::proofs::Kept::over_kept, crate::proofs::Kept::exec_kept))]
fn store_slot<R: InitialReads>(
    t: &mut Terms,
    layout: &Layout,
    memory: &SymMemory<R>,
    x: Exec,
    line: u32,
    written: &SlotStore,
) -> Result<Exec, AllocError>
    requires layout { IsMemoryOf layout.now.objects memory.now }
    requires whole { AreWhole layout.now.objects }
    requires over { IsOver t.old memory.now }
    requires state { IsExec t.old x }
    ensures frame { Extends t.old t.new }
    ensures within { IfOk result (λ y. IsExec t.new y) }
    ensures tracks { IfOk result (λ y. (P : Program) (f : ℕ) (v : Reading) (go : Behind) (e : Ending) →
        Tracks P f (seen t.old v x) (memory_at t.old memory.now v) (λ rs m. on_slot line written.now.to.slot rs m go (machine.slot_stored written.now.to.align (value_of m rs written.now.value.now) (held_at rs written.now.to.slot))) e →
        Tracks P f (seen t.new v y) (memory_at t.new memory.now v) go e) }
{
    let given = stored_slot(t, layout, memory, &x.file, written.value, written.to)?;
    let made = settle_slot(t, x, line, written.to.slot, given)?;
    Ok(made)
}

/// An instruction that neither writes nor leads elsewhere.
#[tactic(auto, using(crate::proofs::Kept::over_kept, crate::proofs::Kept::exec_kept))]
fn compute<R: InitialReads>(
    alloc: Global,
    t: &mut Terms,
    layout: &Layout,
    program: &Program,
    memory: &SymMemory<R>,
    x: Exec,
    step: &Step,
) -> Result<Exec, AllocError>
    requires computed { is_computed step.now.act ≡ true }
    requires fits { FitsMemory layout.now.objects program.now.objects memory.now }
    requires over { IsOver t.old memory.now }
    requires state { IsExec t.old x }
    ensures frame { Extends t.old t.new }
    ensures within { IfOk result (λ y. IsExec t.new y) }
    ensures tracks { IfOk result (λ y. (W : Callee) (f b : ℕ) (v : Reading) (go : Behind) (e : Ending) →
        Tracks program.now f (seen t.old v x) (memory_at t.old memory.now v) (λ rs m. walk_act W program.now f b step.now rs m go step.now.act) e →
        Tracks program.now f (seen t.new v y) (memory_at t.new memory.now v) go e) }
{
    let given = computed(
        alloc,
        t,
        layout,
        &program.objects,
        memory,
        &x.file,
        &step.act,
    )?;
    let made = settle(t, x, step, given)?;
    Ok(made)
}

/// An instruction that is no call.
#[tactic(auto, using(crate::proofs::Kept::over_kept, crate::proofs::Kept::exec_kept))]
pub(crate) fn plain<R: InitialReads>(
    alloc: Global,
    t: &mut Terms,
    setting: &Setting,
    memory: &mut SymMemory<R>,
    x: Exec,
    block: u32,
    step: &Step,
) -> Result<Exec, AllocError>
    requires plain { is_call step.now.act ≡ false }
    requires fits { FitsMemory setting.now.layout.now.objects setting.now.program.now.objects memory.old }
    requires over { IsOver t.old memory.old }
    requires state { IsExec t.old x }
    ensures frame { Extends t.old t.new }
    ensures origins { memory.new.origins ≡ memory.old.origins }
    ensures within { IfOk result (λ y. IsExec t.new y) }
    ensures over { IfOk result (λ y. IsOver t.new memory.new) }
    ensures tracks { IfOk result (λ y. (W : Callee) (v : Reading) (go : Behind) (e : Ending) →
        Tracks setting.now.program.now setting.now.function (seen t.old v x) (memory_at t.old memory.old v) (λ rs m. walk_act W setting.now.program.now setting.now.function block step.now rs m go step.now.act) e →
        Tracks setting.now.program.now setting.now.function (seen t.new v y) (memory_at t.new memory.new v) go e) }
{
    match &step.act {
        Act::Store {
            bytes,
            align,
            value,
            address,
        } => {
            let access = OperandAccess {
                bytes: *bytes,
                align: *align,
                address,
            };
            let made = store(t, setting, memory, x, value, &access)?;
            Ok(made)
        }
        Act::StoreSlot { align, value, slot } => {
            let to = SlotAccess {
                slot: *slot,
                align: *align,
            };
            let written = SlotStore { value, to };
            let made = store_slot(t, setting.layout, memory, x, step.line, &written)?;
            Ok(made)
        }
        Act::Goto { block: to } => {
            let edge = Edge {
                from: block,
                to: *to,
            };
            let made = goto(alloc, t, setting, memory, x, edge)?;
            Ok(made)
        }
        Act::Branch { condition, yes, no } => {
            let edges = BranchEdges {
                from: block,
                yes: *yes,
                no: *no,
            };
            let made = branch(alloc, t, setting, memory, x, condition, edges)?;
            Ok(made)
        }
        Act::Switch {
            on,
            cases,
            default,
            ..
        } => {
            let edges = SwitchEdges {
                from: block,
                cases: cases.as_slice(),
                default: *default,
            };
            let made = switch(alloc, t, setting, memory, x, on, &edges)?;
            Ok(made)
        }
        Act::Return { value } => {
            let made = give_back(t, setting.layout, memory, x, value)?;
            Ok(made)
        }
        Act::Unreachable => {
            let made = unreachable(t, memory, x)?;
            Ok(made)
        }
        _ => {
            let made = compute(alloc, t, setting.layout, setting.program, memory, x, step)?;
            Ok(made)
        }
    }
}
