//! Accesses through symbolic pointers: loads and stores.

ghost use Rattle.std.specs.Prelude.{◌≡◌, true, false, Some, IfOk};
ghost use Rattle.hk_term.specs.Meaning.{Reading};
ghost use Rattle.ir_machine.specs.Step.{stored};
ghost use Rattle.hk_symvalue.specs.Meaning.{IsTruth, IsSym, is_true, meaning};
ghost use Rattle.hk_symvalue.specs.Rows.{Answers};
ghost use Rattle.hk_symmem.specs.Guarded.{memory_at, IsOver};
ghost use Rattle.hk_symaccess.specs.Accesses.{FitsMemory, Stores, loaded_number};

use hk_seq::Seq;
use hk_symaccess::{Access, Store};
use hk_symmem::{InitialReads, SymMemory};
use hk_symvalue::SymMade;
use hk_term::{TermId, Terms};
use ir_code::Object;
use ir_layout::Layout;
use std::alloc::{AllocError, Global};

/// A load gives the number that the machine loads, and is stuck where that sticks.
pub fn load<R: InitialReads>(
    alloc: Global,
    t: &mut Terms,
    layout: &Layout,
    objects: &Seq<Object>,
    memory: &SymMemory<R>,
    access: Access,
) -> Result<SymMade, AllocError>
    requires fits { FitsMemory layout.now.objects objects.now memory.now }
    requires over { IsOver t.old memory.now }
    requires address { IsSym t.old access.address }
    ensures { IfOk result (λ r. (v : Reading) → Answers (is_true t.new r.stuck v) (meaning t.new r.value v) (loaded_number (memory_at t.old memory.now v) objects.now access.bytes access.align (meaning t.old access.address v))) }
{
    let made = hk_symaccess::load(alloc, t, layout, objects, memory, access)?;
    Ok(made)
}

/// A store changes nothing where its guard is false; elsewhere it writes what the machine writes, and is stuck where that sticks.
pub fn store<R: InitialReads>(
    t: &mut Terms,
    layout: &Layout,
    objects: &Seq<Object>,
    memory: &mut SymMemory<R>,
    store: Store,
) -> Result<TermId, AllocError>
    requires fits { FitsMemory layout.now.objects objects.now memory.old }
    requires over { IsOver t.old memory.old }
    requires guard { IsTruth t.old store.guard }
    requires value { IsSym t.old store.value }
    requires address { IsSym t.old store.access.address }
    ensures away { IfOk result (λ _. (v : Reading) → is_true t.old store.guard v ≡ false → memory_at t.new memory.new v ≡ memory_at t.old memory.old v) }
    ensures here { IfOk result (λ r. (v : Reading) → is_true t.old store.guard v ≡ true → Stores (is_true t.new r v) (memory_at t.new memory.new v) (memory_at t.old memory.old v) store.access.bytes (stored (memory_at t.old memory.old v) objects.now store.access.bytes store.access.align (Some (meaning t.old store.value v)) (Some (meaning t.old store.access.address v)))) }
{
    let stuck = hk_symaccess::store(t, layout, objects, memory, store)?;
    Ok(stuck)
}
