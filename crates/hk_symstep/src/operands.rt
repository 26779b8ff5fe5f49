//! Operands: what they begin with, and then step by step.

ghost use Rattle.std.specs.Prelude.{◌≡◌, ℕ, true, Bool, Option, Some, List, length, IfOk};
ghost use Rattle.hk_term.specs.Shape.{width};
ghost use Rattle.hk_term.specs.Meaning.{Reading, value};
ghost use Rattle.hk_term.specs.declared.node.Node.{Node};
ghost use Rattle.ir_value.specs.declared.value.Value as machine;
ghost use Rattle.ir_value.specs.Pointers.{begin_at, step_of};
ghost use Rattle.ir_machine.specs.Values as definition;
ghost use Rattle.ir_machine.specs.Values.{Registers};
ghost use Rattle.hk_symvalue.specs.Growth.{Extends};
ghost use Rattle.hk_symvalue.specs.Meaning.{IsWord, IsSym, meaning};
ghost use Rattle.hk_symmem.specs.Guarded.{memory_at, IsOver, IsMemoryOf};
ghost use Rattle.hk_symaccess.specs.Accesses.{sized, AreWhole};
ghost use Rattle.hk_symstep.specs.Held.{value_meaning, place_meaning, IsPlace, IsOperand};
ghost use Rattle.hk_symstep.specs.Files.{IsFile, registers_of, Covers};

use crate::file::SymFile;
use crate::state::SymHeld;
use hk_symaccess::size_of;
use hk_symmem::{InitialReads, SymMemory};
use hk_symvalue::words::number;
use hk_symvalue::{Stride, SymValue, begin, of_value, step};
use hk_term::{TermId, Terms};
use ir_code::{Base, Input, Move};
use ir_layout::Layout;
use ir_value::Value;
use std::alloc::AllocError;

fn value_held(held: Option<SymHeld>) -> Option<SymValue>
    ensures within { (nodes : List Node) → IsPlace nodes held → IsOperand nodes result }
    ensures value { (nodes : List Node) (v : Reading) → value_meaning nodes v result ≡ definition.value_held (place_meaning nodes v held) }
{
    match held {
        Some(SymHeld::Value(value)) => Some(value),
        _ => None,
    }
}

fn register(file: &SymFile, place: u32) -> Option<SymValue>
    ensures within { (nodes : List Node) → IsFile nodes file.now → IsOperand nodes result }
    ensures value { (nodes : List Node) (v : Reading) → value_meaning nodes v result ≡ definition.value_held (definition.held_at (registers_of nodes v file.now) place) }
{
    value_held(file.held(place))
}

fn constant(t: &mut Terms, value: Value) -> Result<Option<SymValue>, AllocError>
    ensures frame { Extends t.old t.new }
    ensures within { IfOk result (λ r. IsOperand t.new r) }
    ensures value { IfOk result (λ r. (v : Reading) → value_meaning t.new v r ≡ Some value) }
{
    let made = of_value(t, value)?;
    Ok(Some(made))
}

fn base_value(t: &mut Terms, file: &SymFile, base: Base) -> Result<Option<SymValue>, AllocError>
    requires file { IsFile t.old file.now }
    ensures frame { Extends t.old t.new }
    ensures within { IfOk result (λ r. IsOperand t.new r) }
    ensures value { IfOk result (λ r. (v : Reading) → value_meaning t.new v r ≡ definition.base_value (registers_of t.old v file.now) base) }
{
    match base {
        Base::Register(place) => Ok(register(file, place)),
        Base::Constant(value) => constant(t, value),
        Base::Unknown => Ok(None),
    }
}

// The size of the object that an address points to, where it is asked for.
fn size_for<R: InitialReads>(
    t: &mut Terms,
    layout: &Layout,
    memory: &SymMemory<R>,
    inbounds: bool,
    base: TermId,
) -> Result<TermId, AllocError>
    requires layout { IsMemoryOf layout.now.objects memory.now }
    requires whole { AreWhole layout.now.objects }
    requires base { IsWord t.old 64 base }
    ensures frame { Extends t.old t.new }
    ensures word { IfOk result (λ r. IsWord t.new 64 r) }
    ensures value { IfOk result (λ r. (v : Reading) → inbounds ≡ true → value t.new r v ≡ sized (memory_at t.old memory.now v) (value t.old base v)) }
{
    if inbounds {
        size_of(t, layout, memory, base)
    } else {
        number(t, 64, 0)
    }
}

#[tactic(auto, using(crate::proofs::Sizes::begun))]
fn begun<R: InitialReads>(
    t: &mut Terms,
    layout: &Layout,
    memory: &SymMemory<R>,
    inbounds: bool,
    from: SymValue,
) -> Result<SymValue, AllocError>
    requires layout { IsMemoryOf layout.now.objects memory.now }
    requires whole { AreWhole layout.now.objects }
    requires from { IsSym t.old from }
    ensures frame { Extends t.old t.new }
    ensures within { IfOk result (λ r. IsSym t.new r) }
    ensures value { IfOk result (λ r. (v : Reading) → meaning t.new r v ≡ begin_at inbounds (definition.size_at (memory_at t.old memory.now v) (meaning t.old from v)) (meaning t.old from v)) }
{
    let size = size_for(t, layout, memory, inbounds, from.base)?;
    let made = begin(t, inbounds, size, from)?;
    Ok(made)
}

#[tactic(auto, using(crate::proofs::Sizes::stepped))]
fn stepped<R: InitialReads>(
    t: &mut Terms,
    layout: &Layout,
    memory: &SymMemory<R>,
    stride: Stride,
    index: SymValue,
    from: SymValue,
) -> Result<SymValue, AllocError>
    requires layout { IsMemoryOf layout.now.objects memory.now }
    requires whole { AreWhole layout.now.objects }
    requires index { IsSym t.old index }
    requires from { IsSym t.old from }
    ensures frame { Extends t.old t.new }
    ensures within { IfOk result (λ r. IsSym t.new r) }
    ensures value { IfOk result (λ r. (v : Reading) → meaning t.new r v ≡ step_of stride.inbounds stride.nuw (definition.size_at (memory_at t.old memory.now v) (meaning t.old from v)) stride.width stride.each (meaning t.old index v) (meaning t.old from v)) }
{
    let size = size_for(t, layout, memory, stride.inbounds, from.base)?;
    let made = step(t, stride, size, index, from)?;
    Ok(made)
}

fn begins<R: InitialReads>(
    t: &mut Terms,
    layout: &Layout,
    memory: &SymMemory<R>,
    inbounds: bool,
    from: SymValue,
) -> Result<Option<SymValue>, AllocError>
    requires layout { IsMemoryOf layout.now.objects memory.now }
    requires whole { AreWhole layout.now.objects }
    requires from { IsSym t.old from }
    ensures frame { Extends t.old t.new }
    ensures within { IfOk result (λ r. IsOperand t.new r) }
    ensures value { IfOk result (λ r. (v : Reading) → value_meaning t.new v r ≡ Some (begin_at inbounds (definition.size_at (memory_at t.old memory.now v) (meaning t.old from v)) (meaning t.old from v))) }
{
    let made = begun(t, layout, memory, inbounds, from)?;
    Ok(Some(made))
}

fn steps<R: InitialReads>(
    t: &mut Terms,
    layout: &Layout,
    memory: &SymMemory<R>,
    stride: Stride,
    index: Option<SymValue>,
    from: SymValue,
) -> Result<Option<SymValue>, AllocError>
    requires layout { IsMemoryOf layout.now.objects memory.now }
    requires whole { AreWhole layout.now.objects }
    requires index { IsOperand t.old index }
    requires from { IsSym t.old from }
    ensures frame { Extends t.old t.new }
    ensures within { IfOk result (λ r. IsOperand t.new r) }
    ensures value { IfOk result (λ r. (v : Reading) → value_meaning t.new v r ≡ definition.stepped (memory_at t.old memory.now v) stride.inbounds stride.nuw stride.width stride.each (value_meaning t.old v index) (meaning t.old from v)) }
{
    match index {
        Some(index) => {
            let made = stepped(t, layout, memory, stride, index, from)?;
            Ok(Some(made))
        }
        None => Ok(None),
    }
}

fn moved<R: InitialReads>(
    t: &mut Terms,
    layout: &Layout,
    memory: &SymMemory<R>,
    file: &SymFile,
    by: Move,
    from: SymValue,
) -> Result<Option<SymValue>, AllocError>
    requires layout { IsMemoryOf layout.now.objects memory.now }
    requires whole { AreWhole layout.now.objects }
    requires over { IsOver t.old memory.now }
    requires file { IsFile t.old file.now }
    requires from { IsSym t.old from }
    ensures frame { Extends t.old t.new }
    ensures within { IfOk result (λ r. IsOperand t.new r) }
    ensures value { IfOk result (λ r. (v : Reading) → value_meaning t.new v r ≡ definition.moved (memory_at t.old memory.now v) (registers_of t.old v file.now) by (meaning t.old from v)) }
{
    match by {
        Move::Begin { inbounds } => begins(t, layout, memory, inbounds, from),
        Move::By {
            inbounds,
            nuw,
            width,
            each,
            index,
        } => {
            let stride = Stride {
                inbounds,
                nuw,
                width,
                each,
            };
            let index = base_value(t, file, index)?;
            let made = steps(t, layout, memory, stride, index, from)?;
            Ok(made)
        }
    }
}

fn moved_all<R: InitialReads>(
    t: &mut Terms,
    layout: &Layout,
    memory: &SymMemory<R>,
    file: &SymFile,
    base: SymValue,
    moves: &[Move],
) -> Result<Option<SymValue>, AllocError>
    requires layout { IsMemoryOf layout.now.objects memory.now }
    requires whole { AreWhole layout.now.objects }
    requires over { IsOver t.old memory.now }
    requires file { IsFile t.old file.now }
    requires base { IsSym t.old base }
    ensures frame { Extends t.old t.new }
    ensures within { IfOk result (λ r. IsOperand t.new r) }
    ensures value { IfOk result (λ r. (v : Reading) → value_meaning t.new v r ≡ definition.moved_all (memory_at t.old memory.now v) (registers_of t.old v file.now) (Some (meaning t.old base v)) moves.now) }
{
    let mut value = base;
    for by in moves {
        let next = moved(t, layout, memory, file, *by, value)?;
        match next {
            Some(next) => value = next,
            None => return Ok(None),
        }
    }
    Ok(Some(value))
}

fn moved_from<R: InitialReads>(
    t: &mut Terms,
    layout: &Layout,
    memory: &SymMemory<R>,
    file: &SymFile,
    base: Option<SymValue>,
    moves: &[Move],
) -> Result<Option<SymValue>, AllocError>
    requires layout { IsMemoryOf layout.now.objects memory.now }
    requires whole { AreWhole layout.now.objects }
    requires over { IsOver t.old memory.now }
    requires file { IsFile t.old file.now }
    requires base { IsOperand t.old base }
    ensures frame { Extends t.old t.new }
    ensures within { IfOk result (λ r. IsOperand t.new r) }
    ensures value { IfOk result (λ r. (v : Reading) → value_meaning t.new v r ≡ definition.moved_all (memory_at t.old memory.now v) (registers_of t.old v file.now) (value_meaning t.old v base) moves.now) }
{
    match base {
        Some(base) => moved_all(t, layout, memory, file, base, moves),
        None => Ok(None),
    }
}

/// What an operand stands for; none where its registers are not set on any path, or hold no values.
pub fn operand<R: InitialReads>(
    t: &mut Terms,
    layout: &Layout,
    memory: &SymMemory<R>,
    file: &SymFile,
    input: &Input,
) -> Result<Option<SymValue>, AllocError>
    requires layout { IsMemoryOf layout.now.objects memory.now }
    requires whole { AreWhole layout.now.objects }
    requires over { IsOver t.old memory.now }
    requires file { IsFile t.old file.now }
    ensures frame { Extends t.old t.new }
    ensures within { IfOk result (λ r. IsOperand t.new r) }
    ensures value { IfOk result (λ r. (v : Reading) → value_meaning t.new v r ≡ definition.value_of (memory_at t.old memory.now v) (registers_of t.old v file.now) input.now) }
    ensures covered { IfOk result (λ r. (v : Reading) (rs : Registers) (x : machine.Value) → Covers t.old v file.now rs → definition.value_of (memory_at t.old memory.now v) rs input.now ≡ Some x → value_meaning t.new v r ≡ Some x) }
{
    let base = base_value(t, file, input.base)?;
    let made = moved_from(t, layout, memory, file, base, input.moves.as_slice())?;
    Ok(made)
}

/// Two operands as they are read.
#[derive(Clone, Copy)]
pub(crate) struct Inputs<'a> {
    pub(crate) a: &'a Input,
    pub(crate) b: &'a Input,
}

/// What two operands stand for.
#[derive(Clone, Copy, Debug)]
pub(crate) struct Operands {
    pub(crate) a: Option<SymValue>,
    pub(crate) b: Option<SymValue>,
}

/// What two operands stand for.
pub(crate) fn two<R: InitialReads>(
    t: &mut Terms,
    layout: &Layout,
    memory: &SymMemory<R>,
    file: &SymFile,
    inputs: &Inputs,
) -> Result<Operands, AllocError>
    requires layout { IsMemoryOf layout.now.objects memory.now }
    requires whole { AreWhole layout.now.objects }
    requires over { IsOver t.old memory.now }
    requires file { IsFile t.old file.now }
    ensures frame { Extends t.old t.new }
    ensures first { IfOk result (λ r. IsOperand t.new r.a) }
    ensures second { IfOk result (λ r. IsOperand t.new r.b) }
    ensures is_first { IfOk result (λ r. (v : Reading) → value_meaning t.new v r.a ≡ definition.value_of (memory_at t.old memory.now v) (registers_of t.old v file.now) inputs.now.a.now) }
    ensures is_second { IfOk result (λ r. (v : Reading) → value_meaning t.new v r.b ≡ definition.value_of (memory_at t.old memory.now v) (registers_of t.old v file.now) inputs.now.b.now) }
{
    let first = operand(t, layout, memory, file, inputs.a)?;
    let second = operand(t, layout, memory, file, inputs.b)?;
    Ok(Operands {
        a: first,
        b: second,
    })
}
