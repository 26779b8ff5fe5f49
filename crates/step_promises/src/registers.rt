//! Symbolic registers: what an instruction gives, and registers that are set where a guard is true.

ghost use Rattle.std.specs.Prelude.{◌≡◌, true, false, Some, slice_set, IfOk, OnOk};
ghost use Rattle.hk_term.specs.Meaning.{Reading};
ghost use Rattle.ir_machine.specs.Values as machine;
ghost use Rattle.ir_machine.specs.Values.{Registers};
ghost use Rattle.hk_symvalue.specs.Meaning.{IsTruth, is_true};
ghost use Rattle.hk_symmem.specs.Guarded.{memory_at, IsOver};
ghost use Rattle.hk_symaccess.specs.Accesses.{FitsMemory};
ghost use Rattle.hk_symstep.specs.Held.{held_meaning, IsHeld};
ghost use Rattle.hk_symstep.specs.Files.{IsFile, Covers};
ghost use Rattle.hk_symstep.specs.Steps.{AnswersComputed};

use hk_seq::Seq;
use hk_symmem::{InitialReads, SymMemory};
use hk_symstep::{SymComputed, SymFile, SymHeld};
use hk_term::{TermId, Terms};
use ir_code::{Act, Object};
use ir_layout::Layout;
use std::alloc::{AllocError, Global};

/// An instruction gives what the machine's gives at all registers that the file covers.
pub fn computed<R: InitialReads>(
    alloc: Global,
    t: &mut Terms,
    layout: &Layout,
    objects: &Seq<Object>,
    memory: &SymMemory<R>,
    file: &SymFile,
    act: &Act,
) -> Result<SymComputed, AllocError>
    requires fits { FitsMemory layout.now.objects objects.now memory.now }
    requires over { IsOver t.old memory.now }
    requires file { IsFile t.old file.now }
    ensures { IfOk result (λ r. (v : Reading) (rs : Registers) → Covers t.old v file.now rs → AnswersComputed t.new v r (machine.computed (memory_at t.old memory.now v) objects.now rs act.now)) }
{
    let made = hk_symstep::computed(alloc, t, layout, objects, memory, file, act)?;
    Ok(made)
}

/// A register is set where the guard is true; everywhere else it holds what it held.
pub fn set(
    t: &mut Terms,
    guard: TermId,
    file: &mut SymFile,
    place: u32,
    held: SymHeld,
) -> Result<(), AllocError>
    requires guard { IsTruth t.old guard }
    requires file { IsFile t.old file.old }
    requires held { IsHeld t.old held }
    ensures here { OnOk result ((v : Reading) (rs : Registers) → is_true t.old guard v ≡ true → Covers t.old v file.old rs → Covers t.new v file.new (slice_set rs place (Some (held_meaning t.old v held)))) }
    ensures away { OnOk result ((v : Reading) (rs : Registers) → is_true t.old guard v ≡ false → Covers t.old v file.old rs → Covers t.new v file.new rs) }
{
    hk_symstep::set(t, guard, file, place, held)
}
