//! Returns, and stores to memory.

ghost use Rattle.std.specs.Prelude.{◌≡◌, ℕ, true, false, Bool, Option, Some, None, List, length, IfOk};
ghost use Rattle.hk_term.specs.Meaning.{Reading};
ghost use Rattle.ir_code.specs.declared.program.Program.{Program};
ghost use Rattle.ir_machine.specs.Values.{value_of};
ghost use Rattle.ir_machine.specs.Step as machine;
ghost use Rattle.ir_walk.specs.Walk.{Memory, Behind, on_value, on_return, on_store};
ghost use Rattle.hk_symvalue.specs.Growth.{Extends};
ghost use Rattle.hk_symvalue.specs.Meaning.{IsTruth, IsSym, is_true, meaning};
ghost use Rattle.hk_symmem.specs.Guarded.{memory_at, IsOver, IsMemoryOf};
ghost use Rattle.hk_symaccess.specs.Accesses.{AreWhole, FitsMemory};
ghost use Rattle.hk_symexec.specs.Seen.{IsExec, seen};
ghost use Rattle.hk_symexec.specs.Tracks.{Ending, Tracks};

use crate::exec::Exec;
use crate::marks::{come_back, come_back_with, stick};
use crate::setting::Setting;
use hk_symaccess::{Access, Store};
use hk_symmem::{InitialReads, SymMemory};
use hk_symstep::operand;
use hk_symvalue::SymValue;
use hk_term::Terms;
use ir_code::Input;
use ir_layout::Layout;
use std::alloc::AllocError;

/// So many bytes of memory at an alignment, at the address that an operand gives.
#[derive(Clone, Copy)]
pub(crate) struct OperandAccess<'a> {
    pub(crate) bytes: u32,
    pub(crate) align: u64,
    pub(crate) address: &'a Input,
}

// The run comes back with a value, or is stuck where that is poison.
fn return_on(t: &mut Terms, x: Exec, value: SymValue) -> Result<Exec, AllocError>
    requires state { IsExec t.old x }
    requires value { IsSym t.old value }
    ensures frame { Extends t.old t.new }
    ensures within { IfOk result (λ y. IsExec t.new y) }
    ensures tracks { IfOk result (λ y. (P : Program) (f : ℕ) (v : Reading) (memory : Memory) (line : ℕ) (go : Behind) (e : Ending) →
        Tracks P f (seen t.old v x) memory (λ rs m. on_value line m (Some (meaning t.old value v))) e → Tracks P f (seen t.new v y) memory go e) }
{
    let known = stick(t, x, value.poison)?;
    let made = come_back_with(t, known, value)?;
    Ok(made)
}

// A return of a value.
#[tactic(auto, using(crate::proofs::Kept::over_kept, crate::proofs::Kept::exec_kept))]
fn return_value<R: InitialReads>(
    t: &mut Terms,
    layout: &Layout,
    memory: &SymMemory<R>,
    x: Exec,
    value: &Input,
) -> Result<Exec, AllocError>
    requires layout { IsMemoryOf layout.now.objects memory.now }
    requires whole { AreWhole layout.now.objects }
    requires over { IsOver t.old memory.now }
    requires state { IsExec t.old x }
    ensures frame { Extends t.old t.new }
    ensures within { IfOk result (λ y. IsExec t.new y) }
    ensures tracks { IfOk result (λ y. (P : Program) (f : ℕ) (v : Reading) (line : ℕ) (go : Behind) (e : Ending) →
        Tracks P f (seen t.old v x) (memory_at t.old memory.now v) (λ rs m. on_value line m (value_of m rs value.now)) e →
        Tracks P f (seen t.new v y) (memory_at t.new memory.now v) go e) }
{
    let read = operand(t, layout, memory, &x.file, value)?;
    match read {
        None => Ok(x),
        Some(given) => {
            let made = return_on(t, x, given)?;
            Ok(made)
        }
    }
}

// A return without a value.
#[tactic(auto, using(crate::proofs::Kept::over_kept, crate::proofs::Kept::exec_kept))]
fn return_nothing<R: InitialReads>(
    t: &mut Terms,
    memory: &SymMemory<R>,
    x: Exec,
) -> Result<Exec, AllocError>
    requires over { IsOver t.old memory.now }
    requires state { IsExec t.old x }
    ensures frame { Extends t.old t.new }
    ensures within { IfOk result (λ y. IsExec t.new y) }
    ensures tracks { IfOk result (λ y. (P : Program) (f : ℕ) (v : Reading) (line : ℕ) (go : Behind) (e : Ending) →
        Tracks P f (seen t.old v x) (memory_at t.old memory.now v) (λ rs m. on_return line rs m None) e →
        Tracks P f (seen t.new v y) (memory_at t.new memory.now v) go e) }
{
    // For the proof: the clauses alone speak of the memory.
    let _memory = memory;
    let made = come_back(t, x)?;
    Ok(made)
}

/// A return.
#[tactic(auto, using(crate::proofs::Kept::over_kept, crate::proofs::Kept::exec_kept))]
pub(crate) fn give_back<R: InitialReads>(
    t: &mut Terms,
    layout: &Layout,
    memory: &SymMemory<R>,
    x: Exec,
    value: &Option<Input>,
) -> Result<Exec, AllocError>
    requires layout { IsMemoryOf layout.now.objects memory.now }
    requires whole { AreWhole layout.now.objects }
    requires over { IsOver t.old memory.now }
    requires state { IsExec t.old x }
    ensures frame { Extends t.old t.new }
    ensures within { IfOk result (λ y. IsExec t.new y) }
    ensures tracks { IfOk result (λ y. (P : Program) (f : ℕ) (v : Reading) (line : ℕ) (go : Behind) (e : Ending) →
        Tracks P f (seen t.old v x) (memory_at t.old memory.now v) (λ rs m. on_return line rs m value.now) e →
        Tracks P f (seen t.new v y) (memory_at t.new memory.now v) go e) }
{
    match value {
        None => {
            let made = return_nothing(t, memory, x)?;
            Ok(made)
        }
        Some(value) => {
            let made = return_value(t, layout, memory, x, value)?;
            Ok(made)
        }
    }
}

// A store of a value at an address.
fn store_at<R: InitialReads>(
    t: &mut Terms,
    setting: &Setting,
    memory: &mut SymMemory<R>,
    x: Exec,
    value: SymValue,
    access: Access,
) -> Result<Exec, AllocError>
    requires fits { FitsMemory setting.now.layout.now.objects setting.now.program.now.objects memory.old }
    requires over { IsOver t.old memory.old }
    requires state { IsExec t.old x }
    requires value { IsSym t.old value }
    requires address { IsSym t.old access.address }
    ensures frame { Extends t.old t.new }
    ensures within { IfOk result (λ y. IsExec t.new y) }
    ensures origins { memory.new.origins ≡ memory.old.origins }
    ensures over { IfOk result (λ y. IsOver t.new memory.new) }
    ensures tracks { IfOk result (λ y. (P : Program) (f : ℕ) (v : Reading) (line : ℕ) (go : Behind) (e : Ending) →
        Tracks P f (seen t.old v x) (memory_at t.old memory.old v) (λ rs m. on_store line access.bytes rs m go (machine.stored m setting.now.program.now.objects access.bytes access.align (Some (meaning t.old value v)) (Some (meaning t.old access.address v)))) e →
        Tracks P f (seen t.new v y) (memory_at t.new memory.new v) go e) }
{
    let guard = x.guard;
    let stuck = hk_symaccess::store(
        t,
        setting.layout,
        &setting.program.objects,
        memory,
        Store {
            guard,
            value,
            access,
        },
    )?;
    let made = stick(t, x, stuck)?;
    Ok(made)
}

// A store of a value.
#[tactic(auto, using(crate::proofs::Kept::over_kept, crate::proofs::Kept::exec_kept, crate::proofs::Kept::sym_kept))]
fn store_value<R: InitialReads>(
    t: &mut Terms,
    setting: &Setting,
    memory: &mut SymMemory<R>,
    x: Exec,
    value: SymValue,
    access: &OperandAccess,
) -> Result<Exec, AllocError>
    requires fits { FitsMemory setting.now.layout.now.objects setting.now.program.now.objects memory.old }
    requires over { IsOver t.old memory.old }
    requires state { IsExec t.old x }
    requires value { IsSym t.old value }
    ensures frame { Extends t.old t.new }
    ensures within { IfOk result (λ y. IsExec t.new y) }
    ensures origins { memory.new.origins ≡ memory.old.origins }
    ensures over { IfOk result (λ y. IsOver t.new memory.new) }
    ensures tracks { IfOk result (λ y. (P : Program) (f : ℕ) (v : Reading) (line : ℕ) (go : Behind) (e : Ending) →
        Tracks P f (seen t.old v x) (memory_at t.old memory.old v) (λ rs m. on_store line access.now.bytes rs m go (machine.stored m setting.now.program.now.objects access.now.bytes access.now.align (Some (meaning t.old value v)) (value_of m rs access.now.address.now))) e →
        Tracks P f (seen t.new v y) (memory_at t.new memory.new v) go e) }
{
    let read = operand(t, setting.layout, memory, &x.file, access.address)?;
    match read {
        None => Ok(x),
        Some(given) => {
            let access = Access {
                bytes: access.bytes,
                align: access.align,
                address: given,
            };
            let made = store_at(t, setting, memory, x, value, access)?;
            Ok(made)
        }
    }
}

/// A store to memory.
#[tactic(auto, using(crate::proofs::Kept::over_kept, crate::proofs::Kept::exec_kept))]
pub(crate) fn store<R: InitialReads>(
    t: &mut Terms,
    setting: &Setting,
    memory: &mut SymMemory<R>,
    x: Exec,
    value: &Input,
    access: &OperandAccess,
) -> Result<Exec, AllocError>
    requires fits { FitsMemory setting.now.layout.now.objects setting.now.program.now.objects memory.old }
    requires over { IsOver t.old memory.old }
    requires state { IsExec t.old x }
    ensures frame { Extends t.old t.new }
    ensures within { IfOk result (λ y. IsExec t.new y) }
    ensures origins { memory.new.origins ≡ memory.old.origins }
    ensures over { IfOk result (λ y. IsOver t.new memory.new) }
    ensures tracks { IfOk result (λ y. (P : Program) (f : ℕ) (v : Reading) (line : ℕ) (go : Behind) (e : Ending) →
        Tracks P f (seen t.old v x) (memory_at t.old memory.old v) (λ rs m. on_store line access.now.bytes rs m go (machine.stored m setting.now.program.now.objects access.now.bytes access.now.align (value_of m rs value.now) (value_of m rs access.now.address.now))) e →
        Tracks P f (seen t.new v y) (memory_at t.new memory.new v) go e) }
{
    let read = operand(t, setting.layout, memory, &x.file, value)?;
    match read {
        None => Ok(x),
        Some(given) => {
            let made = store_value(t, setting, memory, x, given, access)?;
            Ok(made)
        }
    }
}
