//! The marks of a state: where the run is stuck, leaves for a block, and comes back.

ghost use Rattle.std.specs.Prelude.{◌≡◌, ℕ, ◌<◌, ◌&&◌, ◌||◌, not, true, false, Bool, if◌then◌else◌, Some, length, slice_set, IfOk};
ghost use Rattle.hk_term.specs.Meaning.{Reading};
ghost use Rattle.ir_value.specs.declared.value.Value.{Value};
ghost use Rattle.ir_machine.specs.Values.{Registers};
ghost use Rattle.hk_symvalue.specs.Growth.{Extends};
ghost use Rattle.hk_symvalue.specs.Meaning.{IsTruth, IsSym, is_true, meaning};
ghost use Rattle.hk_symstep.specs.Held.{held_meaning, value_meaning, IsHeld, IsOperand};
ghost use Rattle.hk_symstep.specs.Files.{Covers, registers_of};
ghost use Rattle.hk_symexec.specs.Seen.{Seen, IsExec, seen, stuck_where, back_without, back_with};

use crate::exec::Exec;
use crate::truths;
use hk_symstep::SymHeld;
use hk_symvalue::{SymValue, choose};
use hk_term::{TermId, Terms};
use std::alloc::AllocError;

/// Where a condition holds the run is stuck.
#[tactic(auto, using(crate::proofs::Kept::exec_kept, crate::proofs::Kept::seen_kept))]
pub(crate) fn stick(t: &mut Terms, x: Exec, condition: TermId) -> Result<Exec, AllocError>
    requires state { IsExec t.old x }
    requires condition { IsTruth t.old condition }
    ensures frame { Extends t.old t.new }
    ensures within { IfOk result (λ y. IsExec t.new y) }
    ensures seen { IfOk result (λ y. (v : Reading) → seen t.new v y ≡ stuck_where (is_true t.old condition v) (seen t.old v x)) }
    ensures file { IfOk result (λ y. y.file ≡ x.file) }
{
    let here = truths::and(t, x.guard, condition)?;
    let stuck = truths::or(t, x.stuck, here)?;
    let other = truths::not(t, condition)?;
    let guard = truths::and(t, x.guard, other)?;
    Ok(Exec { guard, stuck, ..x })
}

/// Sets a register where the run is here.
#[tactic(auto, using(crate::proofs::Kept::exec_kept, crate::proofs::Kept::seen_with_file))]
pub(crate) fn set(
    t: &mut Terms,
    x: Exec,
    condition: TermId,
    place: u32,
    held: SymHeld,
) -> Result<Exec, AllocError>
    requires state { IsExec t.old x }
    requires condition { IsTruth t.old condition }
    requires held { IsHeld t.old held }
    ensures frame { Extends t.old t.new }
    ensures within { IfOk result (λ y. IsExec t.new y) }
    ensures seen { IfOk result (λ y. (v : Reading) → seen t.new v y ≡ record (seen t.old v x) { registers = registers_of t.new v y.file }) }
    ensures set { IfOk result (λ y. (v : Reading) (rs : Registers) → is_true t.old condition v ≡ true → Covers t.old v x.file rs → Covers t.new v y.file (slice_set rs place (Some (held_meaning t.old v held)))) }
    ensures kept { IfOk result (λ y. (v : Reading) (rs : Registers) → is_true t.old condition v ≡ false → Covers t.old v x.file rs → Covers t.new v y.file rs) }
{
    let Exec {
        guard,
        entries,
        mut file,
        back,
        valued,
        value,
        stuck,
    } = x;
    hk_symstep::set(t, condition, &mut file, place, held)?;
    Ok(Exec {
        guard,
        entries,
        file,
        back,
        valued,
        value,
        stuck,
    })
}

/// The run comes back from here without a value.
#[tactic(auto, using(crate::proofs::Kept::exec_kept, crate::proofs::Kept::seen_kept))]
pub(crate) fn come_back(t: &mut Terms, x: Exec) -> Result<Exec, AllocError>
    requires state { IsExec t.old x }
    ensures frame { Extends t.old t.new }
    ensures within { IfOk result (λ y. IsExec t.new y) }
    ensures seen { IfOk result (λ y. (v : Reading) → seen t.new v y ≡ back_without (seen t.old v x)) }
{
    let back = truths::or(t, x.back, x.guard)?;
    let guard = truths::constant(t, false)?;
    Ok(Exec { guard, back, ..x })
}

// The value that came back, where one comes back from here too.
fn value_back(
    t: &mut Terms,
    guard: TermId,
    old: Option<SymValue>,
    new: SymValue,
) -> Result<SymValue, AllocError>
    requires guard { IsTruth t.old guard }
    requires old { IsOperand t.old old }
    requires new { IsSym t.old new }
    ensures frame { Extends t.old t.new }
    ensures within { IfOk result (λ r. IsSym t.new r) }
    ensures here { IfOk result (λ r. (v : Reading) → is_true t.old guard v ≡ true → meaning t.new r v ≡ meaning t.old new v) }
    ensures kept { IfOk result (λ r. (v : Reading) → is_true t.old guard v ≡ false → (w : Value) → value_meaning t.old v old ≡ Some w → meaning t.new r v ≡ w) }
{
    match old {
        None => Ok(new),
        Some(old) => choose(t, guard, new, old),
    }
}

/// The run comes back from here with a value.
#[tactic(auto, using(crate::proofs::Kept::exec_kept, crate::proofs::Kept::seen_kept))]
pub(crate) fn come_back_with(t: &mut Terms, x: Exec, value: SymValue) -> Result<Exec, AllocError>
    requires state { IsExec t.old x }
    requires value { IsSym t.old value }
    ensures frame { Extends t.old t.new }
    ensures within { IfOk result (λ y. IsExec t.new y) }
    ensures seen { IfOk result (λ y. (v : Reading) → seen t.new v y ≡ back_with (value_meaning t.new v y.value) (seen t.old v x)) }
    ensures here { IfOk result (λ y. (v : Reading) → is_true t.old x.guard v ≡ true → value_meaning t.new v y.value ≡ Some (meaning t.old value v)) }
    ensures kept { IfOk result (λ y. (v : Reading) → is_true t.old x.guard v ≡ false → (w : Value) → value_meaning t.old v x.value ≡ Some w → value_meaning t.new v y.value ≡ Some w) }
{
    let chosen = value_back(t, x.guard, x.value, value)?;
    let back = truths::or(t, x.back, x.guard)?;
    let valued = truths::or(t, x.valued, x.guard)?;
    let guard = truths::constant(t, false)?;
    Ok(Exec {
        guard,
        back,
        valued,
        value: Some(chosen),
        ..x
    })
}
