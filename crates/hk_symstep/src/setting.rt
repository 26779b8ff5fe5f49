//! Registers that are set on some paths.

ghost use Rattle.std.specs.Prelude.{◌≡◌, ℕ, true, false, Bool, if◌then◌else◌, Some, List, length, slice_set, IfOk, OnOk, OnErr};
ghost use Rattle.hk_term.specs.Meaning.{Reading};
ghost use Rattle.ir_machine.specs.Values.{Registers};
ghost use Rattle.hk_symvalue.specs.Growth.{Extends};
ghost use Rattle.hk_symvalue.specs.Meaning.{IsTruth, IsSym, is_true, meaning};
ghost use Rattle.hk_symstep.specs.Held.{held_meaning, stored_in, place_meaning, IsHeld, IsPlace, Keeps};
ghost use Rattle.hk_symstep.specs.Files.{IsFile, Covers};
ghost use Rattle.hk_symstep.specs.declared.state.SymHeld.TheVariants as sym;
ghost use Rattle.ir_machine.specs.declared.state.Held.TheVariants as machine;

use crate::file::SymFile;
use crate::state::{SymHeld, SymSlot};
use hk_symvalue::{SymPair, SymValue, choose, logic};
use hk_term::{TermId, Terms};
use std::alloc::AllocError;

fn values(t: &mut Terms, guard: TermId, a: SymValue, b: SymValue) -> Result<SymHeld, AllocError>
    requires guard { IsTruth t.old guard }
    requires first { IsSym t.old a }
    requires second { IsSym t.old b }
    ensures frame { Extends t.old t.new }
    ensures within { IfOk result (λ r. IsHeld t.new r) }
    ensures value { IfOk result (λ r. (v : Reading) → held_meaning t.new v r ≡ (if is_true t.old guard v then held_meaning t.old v (sym.Value a) else held_meaning t.old v (sym.Value b))) }
{
    let chosen = choose(t, guard, a, b)?;
    Ok(SymHeld::Value(chosen))
}

fn pairs(t: &mut Terms, guard: TermId, a: SymPair, b: SymPair) -> Result<SymHeld, AllocError>
    requires guard { IsTruth t.old guard }
    requires first { IsHeld t.old (sym.Pair a) }
    requires second { IsHeld t.old (sym.Pair b) }
    ensures frame { Extends t.old t.new }
    ensures within { IfOk result (λ r. IsHeld t.new r) }
    ensures value { IfOk result (λ r. (v : Reading) → held_meaning t.new v r ≡ (if is_true t.old guard v then held_meaning t.old v (sym.Pair a) else held_meaning t.old v (sym.Pair b))) }
{
    let number = choose(t, guard, a.number, b.number)?;
    let overflow = choose(t, guard, a.overflow, b.overflow)?;
    Ok(SymHeld::Pair(SymPair { number, overflow }))
}

// Two slots of one alignment.
fn slots(t: &mut Terms, guard: TermId, a: SymSlot, b: SymSlot) -> Result<SymHeld, AllocError>
    requires guard { IsTruth t.old guard }
    requires first { IsHeld t.old (sym.Slot a) }
    requires second { IsHeld t.old (sym.Slot b) }
    requires alike { a.align ≡ b.align }
    ensures frame { Extends t.old t.new }
    ensures within { IfOk result (λ r. IsHeld t.new r) }
    ensures value { IfOk result (λ r. (v : Reading) → held_meaning t.new v r ≡ (if is_true t.old guard v then held_meaning t.old v (sym.Slot a) else held_meaning t.old v (sym.Slot b))) }
{
    let filled = logic::choose(t, guard, a.filled, b.filled)?;
    let stored = choose(t, guard, a.stored, b.stored)?;
    Ok(SymHeld::Slot(SymSlot {
        align: a.align,
        filled,
        stored,
    }))
}

// The first of two where a guard is true, and else the second. Of two kinds, or of two alignments, it has none: want of memory is
// claimed.
fn chosen(t: &mut Terms, guard: TermId, a: SymHeld, b: SymHeld) -> Result<SymHeld, AllocError>
    requires guard { IsTruth t.old guard }
    requires first { IsHeld t.old a }
    requires second { IsHeld t.old b }
    ensures frame { Extends t.old t.new }
    ensures within { IfOk result (λ r. IsHeld t.new r) }
    ensures value { IfOk result (λ r. (v : Reading) → held_meaning t.new v r ≡ (if is_true t.old guard v then held_meaning t.old v a else held_meaning t.old v b)) }
{
    match (a, b) {
        (SymHeld::Value(a), SymHeld::Value(b)) => values(t, guard, a, b),
        (SymHeld::Pair(a), SymHeld::Pair(b)) => pairs(t, guard, a, b),
        (SymHeld::Slot(a), SymHeld::Slot(b)) => {
            if a.align == b.align {
                slots(t, guard, a, b)
            } else {
                Err(AllocError)
            }
        }
        _ => Err(AllocError),
    }
}

// What a register that may be set on other paths holds behind a step under a guard.
fn joined(
    t: &mut Terms,
    guard: TermId,
    old: Option<SymHeld>,
    held: SymHeld,
) -> Result<SymHeld, AllocError>
    requires guard { IsTruth t.old guard }
    requires old { IsPlace t.old old }
    requires held { IsHeld t.old held }
    ensures frame { Extends t.old t.new }
    ensures within { IfOk result (λ r. IsHeld t.new r) }
    ensures here { IfOk result (λ r. (v : Reading) → is_true t.old guard v ≡ true → held_meaning t.new v r ≡ held_meaning t.old v held) }
    ensures away { IfOk result (λ r. (v : Reading) → is_true t.old guard v ≡ false → Keeps (place_meaning t.old v old) (held_meaning t.new v r)) }
{
    match old {
        Some(old) => chosen(t, guard, held, old),
        None => Ok(held),
    }
}

/// Sets the register at a place where the guard is true; everywhere else it holds what it held. Where no step has set it before, it is
/// set on all paths: the paths that have not come to this step do not read it. A register that is set on two paths holds a choice.
/// Of two kinds, or of slots of two alignments, there is none: then the call answers want of memory, though there was memory. No
/// checked kernel has such a register.
pub fn set(
    t: &mut Terms,
    guard: TermId,
    file: &mut SymFile,
    place: u32,
    held: SymHeld,
) -> Result<(), AllocError>
    requires guard { IsTruth t.old guard }
    requires file { IsFile t.old file.old }
    requires held { IsHeld t.old held }
    ensures frame { Extends t.old t.new }
    ensures size { length file.new ≡ length file.old }
    ensures within { IsFile t.new file.new }
    ensures here { OnOk result ((v : Reading) (rs : Registers) → is_true t.old guard v ≡ true → Covers t.old v file.old rs → Covers t.new v file.new (slice_set rs place (Some (held_meaning t.old v held)))) }
    ensures away { OnOk result ((v : Reading) (rs : Registers) → is_true t.old guard v ≡ false → Covers t.old v file.old rs → Covers t.new v file.new rs) }
    ensures err { OnErr result (file.new ≡ file.old) }
{
    let next = joined(t, guard, file.held(place), held)?;
    file.put(place, next);
    Ok(())
}
