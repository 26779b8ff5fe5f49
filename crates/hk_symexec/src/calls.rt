//! Calls: what a called function begins with, and how its caller goes on.

ghost use Rattle.std.specs.Prelude.{◌≡◌, ℕ, true, false, Bool, Option, Some, None, List, length, slice_set, IfOk};
ghost use Rattle.hk_term.specs.Meaning.{Reading};
ghost use Rattle.ir_value.specs.declared.value.Value.{Value};
ghost use Rattle.ir_machine.specs.declared.state.Held.TheVariants as held;
ghost use Rattle.ir_machine.specs.Values.{Registers};
ghost use Rattle.ir_machine.specs.Step as machine;
ghost use Rattle.hk_symvalue.specs.Growth.{Extends};
ghost use Rattle.hk_symvalue.specs.Meaning.{IsTruth, is_true};
ghost use Rattle.hk_symmem.specs.Guarded.{memory_at, IsOver, IsMemoryOf};
ghost use Rattle.hk_symaccess.specs.Accesses.{AreWhole};
ghost use Rattle.hk_symstep.specs.Held.{place_meaning, value_meaning, IsPlace, IsOperand};
ghost use Rattle.hk_term.specs.declared.node.Node.{Node};
ghost use Rattle.hk_symstep.specs.Files.{IsFile, IsWithin, Covers, registers_of};
ghost use Rattle.hk_symexec.specs.Seen.{IsExec, seen, called, returned};

use crate::entries::Entries;
use crate::exec::Exec;
use crate::marks::set;
use crate::truths;
use hk_symmem::{InitialReads, SymMemory};
use hk_symstep::{SymFile, SymHeld, operand};
use hk_symvalue::SymValue;
use hk_term::{TermId, Terms};
use ir_code::{Code, Input};
use ir_layout::Layout;
use std::alloc::{AllocError, Global};

// The state of a function that begins where the run of its caller is here.
#[tactic(auto, using(crate::proofs::Kept::file_kept))]
pub(crate) fn begin(
    alloc: Global,
    t: &mut Terms,
    caller: &Exec,
    file: SymFile,
    blocks: usize,
) -> Result<Exec, AllocError>
    requires caller { IsExec t.old caller.now }
    requires file { IsFile t.old file }
    ensures frame { Extends t.old t.new }
    ensures within { IfOk result (λ y. IsExec t.new y) }
    ensures seen { IfOk result (λ y. (v : Reading) → seen t.new v y ≡ called blocks (registers_of t.old v file) (seen t.old v caller.now)) }
{
    let never = truths::constant(t, false)?;
    let closed = Entries::new(alloc, blocks, never)?;
    let entries = opened(closed, caller.guard);
    Ok(Exec {
        guard: never,
        entries,
        file,
        back: never,
        valued: never,
        value: None,
        stuck: caller.stuck,
    })
}

// The run goes to the first block under a condition.
fn opened(entries: Entries, condition: TermId) -> Entries
    ensures { result ≡ slice_set entries 0 condition }
{
    let mut entries = entries;
    if 0 < entries.len() {
        entries.set(0, condition);
    }
    entries
}

// Sets the register of a call, where the function that was called came back with a value.
fn set_returned(
    t: &mut Terms,
    x: Exec,
    register: Option<u32>,
    valued: TermId,
    value: Option<SymValue>,
) -> Result<Exec, AllocError>
    requires state { IsExec t.old x }
    requires valued { IsTruth t.old valued }
    requires value { IsOperand t.old value }
    ensures frame { Extends t.old t.new }
    ensures within { IfOk result (λ y. IsExec t.new y) }
    ensures seen { IfOk result (λ y. (v : Reading) → seen t.new v y ≡ record (seen t.old v x) { registers = registers_of t.new v y.file }) }
    ensures kept { IfOk result (λ y. (v : Reading) (rs : Registers) → is_true t.old valued v ≡ false → Covers t.old v x.file rs → Covers t.new v y.file rs) }
    ensures set { IfOk result (λ y. (v : Reading) (rs : Registers) (w : Value) → is_true t.old valued v ≡ true → value_meaning t.old v value ≡ Some w → Covers t.old v x.file rs → Covers t.new v y.file (machine.with_result register (held.Value w) rs)) }
{
    match register {
        None => Ok(x),
        Some(place) => match value {
            None => Ok(x),
            Some(given) => {
                let made = set(t, x, valued, place, SymHeld::Value(given))?;
                Ok(made)
            }
        },
    }
}

/// The caller goes on where the function that was called came back.
pub(crate) fn resume(
    t: &mut Terms,
    x: Exec,
    after: Exec,
    register: Option<u32>,
) -> Result<Exec, AllocError>
    requires state { IsExec t.old x }
    requires after { IsExec t.old after }
    ensures frame { Extends t.old t.new }
    ensures within { IfOk result (λ y. IsExec t.new y) }
    ensures seen { IfOk result (λ y. (v : Reading) → seen t.new v y ≡ returned (seen t.old v after) (registers_of t.new v y.file) (seen t.old v x)) }
    ensures kept { IfOk result (λ y. (v : Reading) (rs : Registers) → is_true t.old after.valued v ≡ false → Covers t.old v x.file rs → Covers t.new v y.file rs) }
    ensures set { IfOk result (λ y. (v : Reading) (rs : Registers) (w : Value) → is_true t.old after.valued v ≡ true → value_meaning t.old v after.value ≡ Some w → Covers t.old v x.file rs → Covers t.new v y.file (machine.with_result register (held.Value w) rs)) }
{
    let joined = Exec {
        guard: after.back,
        stuck: after.stuck,
        ..x
    };
    let made = set_returned(t, joined, register, after.valued, after.value)?;
    Ok(made)
}

// What the register of a parameter holds.
fn argument_held(value: Option<SymValue>) -> Option<SymHeld>
    ensures within { (nodes : List Node) → IsOperand nodes value → IsPlace nodes result }
    ensures meaning { (nodes : List Node) (v : Reading) → place_meaning nodes v result ≡ machine.argument_held (value_meaning nodes v value) }
{
    match value {
        Some(value) => Some(SymHeld::Value(value)),
        None => None,
    }
}

/// The registers of a function as it begins: its arguments, and the rest not set.
#[tactic(auto, using(crate::proofs::Kept::over_kept, crate::proofs::Kept::file_kept))]
pub(crate) fn first_file<R: InitialReads>(
    alloc: Global,
    t: &mut Terms,
    layout: &Layout,
    memory: &SymMemory<R>,
    file: &SymFile,
    arguments: &[Input],
    code: &Code,
) -> Result<SymFile, AllocError>
    requires layout { IsMemoryOf layout.now.objects memory.now }
    requires whole { AreWhole layout.now.objects }
    requires over { IsOver t.old memory.now }
    requires file { IsFile t.old file.now }
    ensures frame { Extends t.old t.new }
    ensures within { IfOk result (λ r. IsFile t.new r) }
    ensures covered { IfOk result (λ r. (v : Reading) (rs : Registers) → Covers t.old v file.now rs → IsWithin (machine.first_registers code.now (machine.argument_registers (memory_at t.old memory.now v) rs arguments.now)) (registers_of t.new v r)) }
{
    let mut places = Vec::new(alloc);
    for argument in arguments {
        let value = operand(t, layout, memory, file, argument)?;
        places.push(argument_held(value))?;
    }
    for _ in 0..code.registers.saturating_sub(code.parameters) {
        places.push(None)?;
    }
    Ok(SymFile::from_vec(places))
}
