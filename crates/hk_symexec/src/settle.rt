//! What instructions set that neither write nor lead elsewhere.

ghost use Rattle.std.specs.Prelude.{◌≡◌, ℕ, true, false, Bool, Some, None, length, IfOk};
ghost use Rattle.hk_term.specs.Meaning.{Reading};
ghost use Rattle.ir_code.specs.declared.program.Program.{Program};
ghost use Rattle.ir_machine.specs.declared.state.Computed.{Computed};
ghost use Rattle.ir_machine.specs.Values.{Registers};
ghost use Rattle.ir_machine.specs.Step as machine;
ghost use Rattle.ir_walk.specs.Walk.{Memory, Behind, on_computed, on_slot};
ghost use Rattle.hk_symvalue.specs.Growth.{Extends};
ghost use Rattle.hk_symvalue.specs.Meaning.{IsTruth, is_true};
ghost use Rattle.hk_symstep.specs.Held.{held_meaning, IsHeld};
ghost use Rattle.hk_symstep.specs.Files.{Covers};
ghost use Rattle.hk_symstep.specs.Steps.{AnswersSets, AnswersPasses, AnswersComputed, IsComputed};
ghost use Rattle.hk_symexec.specs.Seen.{IsExec, seen};
ghost use Rattle.hk_symexec.specs.Tracks.{Ending, IsFineFlow, Splits, Tracks};

use crate::exec::Exec;
use crate::marks::{set, stick};
use hk_symstep::{SymComputed, SymHeld};
use hk_term::{TermId, Terms};
use ir_code::Step;
use std::alloc::AllocError;

/// Sets a register where the run is here.
fn set_here(t: &mut Terms, x: Exec, place: u32, held: SymHeld) -> Result<Exec, AllocError>
    requires state { IsExec t.old x }
    requires held { IsHeld t.old held }
    ensures frame { Extends t.old t.new }
    ensures within { IfOk result (λ y. IsExec t.new y) }
    ensures tracks { IfOk result (λ y. (P : Program) (f : ℕ) (v : Reading) (memory : Memory) (go : Behind) (e : Ending) →
        Tracks P f (seen t.old v x) memory (λ rs m. go (machine.with_result (Some place) (held_meaning t.old v held) rs) m) e → Tracks P f (seen t.new v y) memory go e) }
{
    let guard = x.guard;
    let made = set(t, x, guard, place, held)?;
    Ok(made)
}

/// Sets the register of an instruction, where it has one and the run is here.
fn set_result(
    t: &mut Terms,
    x: Exec,
    register: Option<u32>,
    held: SymHeld,
) -> Result<Exec, AllocError>
    requires state { IsExec t.old x }
    requires held { IsHeld t.old held }
    ensures frame { Extends t.old t.new }
    ensures within { IfOk result (λ y. IsExec t.new y) }
    ensures tracks { IfOk result (λ y. (P : Program) (f : ℕ) (v : Reading) (memory : Memory) (go : Behind) (e : Ending) →
        Tracks P f (seen t.old v x) memory (λ rs m. go (machine.with_result register (held_meaning t.old v held) rs) m) e → Tracks P f (seen t.new v y) memory go e) }
{
    match register {
        None => Ok(x),
        Some(place) => {
            let made = set_here(t, x, place, held)?;
            Ok(made)
        }
    }
}

// What an instruction sets, or it sticks.
fn settle_sets(
    t: &mut Terms,
    x: Exec,
    register: Option<u32>,
    stuck: TermId,
    held: SymHeld,
) -> Result<Exec, AllocError>
    requires state { IsExec t.old x }
    requires stuck { IsTruth t.old stuck }
    requires held { IsHeld t.old held }
    ensures frame { Extends t.old t.new }
    ensures within { IfOk result (λ y. IsExec t.new y) }
    ensures tracks { IfOk result (λ y. (P : Program) (f : ℕ) (v : Reading) (memory : Memory) (go one : Behind) (e : Ending) →
        ((rs : Registers) → Covers t.old v x.file rs → IsFineFlow (one rs memory) → Splits (is_true t.old stuck v) (one rs memory) (go (machine.with_result register (held_meaning t.old v held) rs) memory)) →
        Tracks P f (seen t.old v x) memory one e → Tracks P f (seen t.new v y) memory go e) }
{
    let stopped = stick(t, x, stuck)?;
    let made = set_result(t, stopped, register, held)?;
    Ok(made)
}

// An instruction sets nothing, or it sticks.
pub(crate) fn settle_passes(t: &mut Terms, x: Exec, stuck: TermId) -> Result<Exec, AllocError>
    requires state { IsExec t.old x }
    requires stuck { IsTruth t.old stuck }
    ensures frame { Extends t.old t.new }
    ensures within { IfOk result (λ y. IsExec t.new y) }
    ensures tracks { IfOk result (λ y. (P : Program) (f : ℕ) (v : Reading) (memory : Memory) (go one : Behind) (e : Ending) →
        ((rs : Registers) → Covers t.old v x.file rs → IsFineFlow (one rs memory) → Splits (is_true t.old stuck v) (one rs memory) (go rs memory)) →
        Tracks P f (seen t.old v x) memory one e → Tracks P f (seen t.new v y) memory go e) }
    ensures file { IfOk result (λ y. y.file ≡ x.file) }
{
    let made = stick(t, x, stuck)?;
    Ok(made)
}

/// Takes over what an instruction gives.
pub(crate) fn settle(
    t: &mut Terms,
    x: Exec,
    step: &Step,
    computed: SymComputed,
) -> Result<Exec, AllocError>
    requires state { IsExec t.old x }
    requires computed { IsComputed t.old computed }
    ensures frame { Extends t.old t.new }
    ensures within { IfOk result (λ y. IsExec t.new y) }
    ensures tracks { IfOk result (λ y. (P : Program) (f : ℕ) (v : Reading) (memory : Memory) (go : Behind) (e : Ending) (made : Registers → Memory → Computed) →
        ((rs : Registers) → Covers t.old v x.file rs → AnswersComputed t.old v computed (made rs memory)) →
        Tracks P f (seen t.old v x) memory (λ rs m. on_computed step.now rs m go (made rs m)) e → Tracks P f (seen t.new v y) memory go e) }
{
    match computed {
        SymComputed::Sets { stuck, held } => {
            let made = settle_sets(t, x, step.result, stuck, held)?;
            Ok(made)
        }
        SymComputed::Passes { stuck } => {
            let made = settle_passes(t, x, stuck)?;
            Ok(made)
        }
        SymComputed::Lost => Ok(x),
    }
}

/// Takes over what a store into a slot gives.
pub(crate) fn settle_slot(
    t: &mut Terms,
    x: Exec,
    line: u32,
    slot: u32,
    computed: SymComputed,
) -> Result<Exec, AllocError>
    requires state { IsExec t.old x }
    requires computed { IsComputed t.old computed }
    ensures frame { Extends t.old t.new }
    ensures within { IfOk result (λ y. IsExec t.new y) }
    ensures tracks { IfOk result (λ y. (P : Program) (f : ℕ) (v : Reading) (memory : Memory) (go : Behind) (e : Ending) (made : Registers → Memory → Computed) →
        ((rs : Registers) → Covers t.old v x.file rs → AnswersComputed t.old v computed (made rs memory)) →
        Tracks P f (seen t.old v x) memory (λ rs m. on_slot line slot rs m go (made rs m)) e → Tracks P f (seen t.new v y) memory go e) }
{
    match computed {
        SymComputed::Sets { stuck, held } => {
            let made = settle_sets(t, x, Some(slot), stuck, held)?;
            Ok(made)
        }
        SymComputed::Passes { stuck } => {
            let made = settle_passes(t, x, stuck)?;
            Ok(made)
        }
        SymComputed::Lost => Ok(x),
    }
}
