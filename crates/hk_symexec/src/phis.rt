//! Phis: all operands are read before any register is set.

ghost use Rattle.std.specs.Prelude.{◌≡◌, ℕ, true, false, Bool, Some, None, [], List, length, is_none, IfOk, IfSome, OnOk};
ghost use Rattle.hk_term.specs.Meaning.{Reading};
ghost use Rattle.hk_term.specs.declared.node.Node.{Node};
ghost use Rattle.std.specs.Prelude.{Option};
ghost use Rattle.ir_value.specs.declared.value.Value.{Value};
ghost use Rattle.ir_machine.specs.Values.{Registers, value_of};
ghost use Rattle.ir_machine.specs.Step as machine;
ghost use Rattle.hk_symvalue.specs.Growth.{Extends};
ghost use Rattle.hk_symvalue.specs.Meaning.{IsTruth, is_true};
ghost use Rattle.hk_symmem.specs.Guarded.{memory_at, IsOver, IsMemoryOf};
ghost use Rattle.hk_symaccess.specs.Accesses.{AreWhole};
ghost use Rattle.hk_symstep.specs.Held.{value_meaning, IsOperand};
ghost use Rattle.hk_symstep.specs.Files.{IsFile, Covers};
ghost use Rattle.hk_symexec.specs.Phis.{phis_meaning, ArePhis, staged_meaning, AreStaged, IsHead, AnswersHead};

use hk_seq::Seq;
use hk_symmem::{InitialReads, SymMemory};
use hk_symstep::{SymFile, SymHeld, operand};
use hk_symvalue::SymValue;
use hk_term::{TermId, Terms};
use ir_code::{Act, Arm, Input, Step};
use ir_layout::Layout;
use std::alloc::{AllocError, Global};

/// A phi whose operand was read: the register that it sets, and the value.
#[derive(Clone, Copy, Debug)]
pub struct Phi {
    pub register: u32,
    pub value: SymValue,
}

/// What an instruction at the head of a block reads, where it is a phi.
#[derive(Clone, Copy, Debug)]
pub enum SymHead {
    Ends,
    Lost,
    Reads(Phi),
}

/// The operand of the edge from a block.
fn arm_from<'a>(from: u32, arms: &'a [Arm]) -> Option<&'a Input>
    ensures some { IfSome result (λ i. machine.arm_from from arms.now ≡ Some i.now) }
    ensures none { is_none result ≡ true → machine.arm_from from arms.now ≡ None }
{
    for arm in arms {
        if arm.from == from {
            return Some(&arm.input);
        }
    }
    None
}

/// What the operand of the edge from a block stands for.
fn arm_value<R: InitialReads>(
    t: &mut Terms,
    layout: &Layout,
    memory: &SymMemory<R>,
    file: &SymFile,
    from: u32,
    arms: &[Arm],
) -> Result<Option<SymValue>, AllocError>
    requires layout { IsMemoryOf layout.now.objects memory.now }
    requires whole { AreWhole layout.now.objects }
    requires over { IsOver t.old memory.now }
    requires file { IsFile t.old file.now }
    ensures frame { Extends t.old t.new }
    ensures within { IfOk result (λ r. IsOperand t.new r) }
    ensures covered { IfOk result (λ r. (v : Reading) (rs : Registers) (x : Value) → Covers t.old v file.now rs → machine.arm_value (memory_at t.old memory.now v) rs (machine.arm_from from arms.now) ≡ Some x → value_meaning t.new v r ≡ Some x) }
{
    match arm_from(from, arms) {
        None => Ok(None),
        Some(input) => {
            let value = operand(t, layout, memory, file, input)?;
            Ok(value)
        }
    }
}

fn phi_of(register: Option<u32>, value: Option<SymValue>) -> SymHead
    ensures within { (nodes : List Node) → IsOperand nodes value → IsHead nodes result }
    ensures answers { (nodes : List Node) (v : Reading) (o : Option Value) → ((x : Value) → o ≡ Some x → value_meaning nodes v value ≡ Some x) → AnswersHead nodes v result (machine.phi_of register o) }
{
    match (register, value) {
        (Some(register), Some(value)) => SymHead::Reads(Phi { register, value }),
        _ => SymHead::Lost,
    }
}

/// What an instruction at the head of a block reads, where it is a phi.
fn head<R: InitialReads>(
    t: &mut Terms,
    layout: &Layout,
    memory: &SymMemory<R>,
    file: &SymFile,
    from: u32,
    step: &Step,
) -> Result<SymHead, AllocError>
    requires layout { IsMemoryOf layout.now.objects memory.now }
    requires whole { AreWhole layout.now.objects }
    requires over { IsOver t.old memory.now }
    requires file { IsFile t.old file.now }
    ensures frame { Extends t.old t.new }
    ensures within { IfOk result (λ r. IsHead t.new r) }
    ensures answers { IfOk result (λ r. (v : Reading) (rs : Registers) → Covers t.old v file.now rs → AnswersHead t.new v r (machine.head_of (memory_at t.old memory.now v) rs from step.now.result step.now.act)) }
{
    match &step.act {
        Act::Phi { arms } => {
            let value = arm_value(t, layout, memory, file, from, arms.as_slice())?;
            Ok(phi_of(step.result, value))
        }
        _ => Ok(SymHead::Ends),
    }
}

/// Reads the phis at the head of a block; none where one of them is lost.
#[tactic(auto, using(crate::proofs::Kept::over_kept, crate::proofs::Kept::file_kept))]
pub(crate) fn staged<R: InitialReads>(
    alloc: Global,
    t: &mut Terms,
    layout: &Layout,
    memory: &SymMemory<R>,
    file: &SymFile,
    from: u32,
    steps: &[Step],
) -> Result<Option<Seq<Phi>>, AllocError>
    requires layout { IsMemoryOf layout.now.objects memory.now }
    requires whole { AreWhole layout.now.objects }
    requires over { IsOver t.old memory.now }
    requires file { IsFile t.old file.now }
    ensures frame { Extends t.old t.new }
    ensures within { IfOk result (λ r. AreStaged t.new r) }
    ensures covered { IfOk result (λ r. (v : Reading) (rs : Registers) (ps : List (ℕ × Value)) → Covers t.old v file.now rs → machine.staged (memory_at t.old memory.now v) rs from steps.now [] ≡ Some ps → staged_meaning t.new v r ≡ Some ps) }
{
    let mut found: Vec<Phi> = Vec::new(alloc);
    for step in steps {
        match head(t, layout, memory, file, from, step)? {
            SymHead::Ends => return Ok(Some(Seq::from_vec(found))),
            SymHead::Lost => return Ok(None),
            SymHead::Reads(phi) => found.push(phi)?,
        }
    }
    Ok(Some(Seq::from_vec(found)))
}

/// Sets the registers of phis where a condition holds.
pub(crate) fn set_all(
    t: &mut Terms,
    condition: TermId,
    file: &mut SymFile,
    phis: &[Phi],
) -> Result<(), AllocError>
    requires condition { IsTruth t.old condition }
    requires file { IsFile t.old file.old }
    requires phis { ArePhis t.old phis.now }
    ensures frame { Extends t.old t.new }
    ensures within { OnOk result (IsFile t.new file.new) }
    ensures here { OnOk result ((v : Reading) (rs : Registers) → is_true t.old condition v ≡ true → Covers t.old v file.old rs → Covers t.new v file.new (machine.set_all (phis_meaning t.old v phis.now) rs)) }
    ensures away { OnOk result ((v : Reading) (rs : Registers) → is_true t.old condition v ≡ false → Covers t.old v file.old rs → Covers t.new v file.new rs) }
{
    for phi in phis {
        hk_symstep::set(t, condition, file, phi.register, SymHeld::Value(phi.value))?;
    }
    Ok(())
}
