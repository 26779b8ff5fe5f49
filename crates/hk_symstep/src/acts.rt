//! What instructions give.

ghost use Rattle.std.specs.Prelude.{◌≡◌, ℕ, true, false, Bool, Option, Some, List, length, IfOk};
ghost use Rattle.hk_term.specs.Meaning.{Reading, value};
ghost use Rattle.ir_value.specs.Numbers.{binary, compare_numbers, convert, select};
ghost use Rattle.ir_value.specs.Numbers as numbers;
ghost use Rattle.ir_value.specs.Intrinsics.{with_overflow, pair};
ghost use Rattle.ir_machine.specs.Values as definition;
ghost use Rattle.ir_machine.specs.Values.{Registers};
ghost use Rattle.ir_machine.specs.Step as steps;
ghost use Rattle.hk_symvalue.specs.Growth.{Extends};
ghost use Rattle.hk_symvalue.specs.Meaning.{IsTruth, IsSym, is_true, meaning};
ghost use Rattle.hk_symmem.specs.Guarded.{memory_at, IsOver, IsMemoryOf};
ghost use Rattle.hk_symaccess.specs.Accesses.{FitsMemory, AreWhole};
ghost use Rattle.hk_symstep.specs.Held.{value_meaning, IsOperand};
ghost use Rattle.hk_symstep.specs.Files.{IsFile, registers_of, Covers};
ghost use Rattle.hk_symstep.specs.Steps.{AnswersComputed, AnswersPasses, IsComputed};

use crate::arguments::poisoned;
use crate::file::SymFile;
use crate::loads::Load;
use crate::operands::{Inputs, operand, two};
use crate::state::{SlotAccess, SymComputed};
use crate::{loads, rows};
use hk_seq::Seq;
use hk_symmem::{InitialReads, SymMemory};
use hk_term::Terms;
use ir_ast::{BinaryKind, ConvertKind, Flags, Predicate};
use ir_code::{Act, Input, Object, Span};
use ir_layout::Layout;
use ir_value::{OverflowKind, PairKind};
use std::alloc::{AllocError, Global};

// What an instruction reads: the layout and the objects of the kernel, the memory, and the registers of the frame.
#[derive(Drop)]
struct State<'a, R: InitialReads> {
    layout: &'a Layout,
    objects: &'a Seq<Object>,
    memory: &'a SymMemory<R>,
    file: &'a SymFile,
}

// The width of a number in bits, and that of what it is converted to.
#[derive(Clone, Copy)]
struct Widths {
    from: u32,
    to: u32,
}

fn binary<R: InitialReads>(
    t: &mut Terms,
    state: &State<R>,
    flags: Flags,
    kind: BinaryKind,
    width: u32,
    inputs: &Inputs,
) -> Result<SymComputed, AllocError>
    requires layout { IsMemoryOf state.now.layout.now.objects state.now.memory.now }
    requires whole { AreWhole state.now.layout.now.objects }
    requires over { IsOver t.old state.now.memory.now }
    requires file { IsFile t.old state.now.file.now }
    ensures frame { Extends t.old t.new }
    ensures within { IfOk result (λ r. IsComputed t.new r) }
    ensures answers { IfOk result (λ r. (v : Reading) → AnswersComputed t.new v r (definition.on_two (binary flags kind width) (definition.value_of (memory_at t.old state.now.memory.now v) (registers_of t.old v state.now.file.now) inputs.now.a.now) (definition.value_of (memory_at t.old state.now.memory.now v) (registers_of t.old v state.now.file.now) inputs.now.b.now))) }
{
    let operands = two(t, state.layout, state.memory, state.file, inputs)?;
    let made = rows::binary(t, flags, kind, width, operands.a, operands.b)?;
    Ok(made)
}

fn compare<R: InitialReads>(
    t: &mut Terms,
    state: &State<R>,
    samesign: bool,
    predicate: Predicate,
    width: u32,
    inputs: &Inputs,
) -> Result<SymComputed, AllocError>
    requires layout { IsMemoryOf state.now.layout.now.objects state.now.memory.now }
    requires whole { AreWhole state.now.layout.now.objects }
    requires over { IsOver t.old state.now.memory.now }
    requires file { IsFile t.old state.now.file.now }
    ensures frame { Extends t.old t.new }
    ensures within { IfOk result (λ r. IsComputed t.new r) }
    ensures answers { IfOk result (λ r. (v : Reading) → AnswersComputed t.new v r (definition.on_two (compare_numbers samesign predicate width) (definition.value_of (memory_at t.old state.now.memory.now v) (registers_of t.old v state.now.file.now) inputs.now.a.now) (definition.value_of (memory_at t.old state.now.memory.now v) (registers_of t.old v state.now.file.now) inputs.now.b.now))) }
{
    let operands = two(t, state.layout, state.memory, state.file, inputs)?;
    let made = rows::compare(t, samesign, predicate, width, operands.a, operands.b)?;
    Ok(made)
}

fn compare_pointers<R: InitialReads>(
    t: &mut Terms,
    state: &State<R>,
    predicate: Predicate,
    inputs: &Inputs,
) -> Result<SymComputed, AllocError>
    requires layout { IsMemoryOf state.now.layout.now.objects state.now.memory.now }
    requires whole { AreWhole state.now.layout.now.objects }
    requires over { IsOver t.old state.now.memory.now }
    requires file { IsFile t.old state.now.file.now }
    ensures frame { Extends t.old t.new }
    ensures within { IfOk result (λ r. IsComputed t.new r) }
    ensures answers { IfOk result (λ r. (v : Reading) → AnswersComputed t.new v r (definition.on_two (definition.compare_sized (memory_at t.old state.now.memory.now v) predicate) (definition.value_of (memory_at t.old state.now.memory.now v) (registers_of t.old v state.now.file.now) inputs.now.a.now) (definition.value_of (memory_at t.old state.now.memory.now v) (registers_of t.old v state.now.file.now) inputs.now.b.now))) }
{
    let operands = two(t, state.layout, state.memory, state.file, inputs)?;
    let made = rows::compare_pointers(
        t,
        state.layout,
        state.memory,
        predicate,
        operands.a,
        operands.b,
    )?;
    Ok(made)
}

fn select<R: InitialReads>(
    t: &mut Terms,
    state: &State<R>,
    condition: &Input,
    inputs: &Inputs,
) -> Result<SymComputed, AllocError>
    requires layout { IsMemoryOf state.now.layout.now.objects state.now.memory.now }
    requires whole { AreWhole state.now.layout.now.objects }
    requires over { IsOver t.old state.now.memory.now }
    requires file { IsFile t.old state.now.file.now }
    ensures frame { Extends t.old t.new }
    ensures within { IfOk result (λ r. IsComputed t.new r) }
    ensures answers { IfOk result (λ r. (v : Reading) → AnswersComputed t.new v r (definition.on_three select (definition.value_of (memory_at t.old state.now.memory.now v) (registers_of t.old v state.now.file.now) condition.now) (definition.value_of (memory_at t.old state.now.memory.now v) (registers_of t.old v state.now.file.now) inputs.now.a.now) (definition.value_of (memory_at t.old state.now.memory.now v) (registers_of t.old v state.now.file.now) inputs.now.b.now))) }
{
    let value = operand(t, state.layout, state.memory, state.file, condition)?;
    let operands = two(t, state.layout, state.memory, state.file, inputs)?;
    let made = rows::select(t, value, operands.a, operands.b)?;
    Ok(made)
}

fn convert<R: InitialReads>(
    t: &mut Terms,
    state: &State<R>,
    flags: Flags,
    kind: ConvertKind,
    widths: Widths,
    a: &Input,
) -> Result<SymComputed, AllocError>
    requires layout { IsMemoryOf state.now.layout.now.objects state.now.memory.now }
    requires whole { AreWhole state.now.layout.now.objects }
    requires over { IsOver t.old state.now.memory.now }
    requires file { IsFile t.old state.now.file.now }
    ensures frame { Extends t.old t.new }
    ensures within { IfOk result (λ r. IsComputed t.new r) }
    ensures answers { IfOk result (λ r. (v : Reading) → AnswersComputed t.new v r (definition.on_one (convert flags kind widths.from widths.to) (definition.value_of (memory_at t.old state.now.memory.now v) (registers_of t.old v state.now.file.now) a.now))) }
{
    let value = operand(t, state.layout, state.memory, state.file, a)?;
    let made = rows::convert(t, flags, kind, widths.from, widths.to, value)?;
    Ok(made)
}

fn freeze<R: InitialReads>(
    t: &mut Terms,
    state: &State<R>,
    a: &Input,
) -> Result<SymComputed, AllocError>
    requires layout { IsMemoryOf state.now.layout.now.objects state.now.memory.now }
    requires whole { AreWhole state.now.layout.now.objects }
    requires over { IsOver t.old state.now.memory.now }
    requires file { IsFile t.old state.now.file.now }
    ensures frame { Extends t.old t.new }
    ensures within { IfOk result (λ r. IsComputed t.new r) }
    ensures answers { IfOk result (λ r. (v : Reading) → AnswersComputed t.new v r (definition.on_one numbers.freeze (definition.value_of (memory_at t.old state.now.memory.now v) (registers_of t.old v state.now.file.now) a.now))) }
{
    let value = operand(t, state.layout, state.memory, state.file, a)?;
    let made = rows::freeze(t, value)?;
    Ok(made)
}

fn address<R: InitialReads>(
    t: &mut Terms,
    state: &State<R>,
    a: &Input,
) -> Result<SymComputed, AllocError>
    requires layout { IsMemoryOf state.now.layout.now.objects state.now.memory.now }
    requires whole { AreWhole state.now.layout.now.objects }
    requires over { IsOver t.old state.now.memory.now }
    requires file { IsFile t.old state.now.file.now }
    ensures frame { Extends t.old t.new }
    ensures within { IfOk result (λ r. IsComputed t.new r) }
    ensures answers { IfOk result (λ r. (v : Reading) → AnswersComputed t.new v r (definition.given (definition.value_of (memory_at t.old state.now.memory.now v) (registers_of t.old v state.now.file.now) a.now))) }
{
    let value = operand(t, state.layout, state.memory, state.file, a)?;
    let made = rows::address(t, value)?;
    Ok(made)
}

fn load<R: InitialReads>(
    alloc: Global,
    t: &mut Terms,
    state: &State<R>,
    load: &Load,
    address: &Input,
) -> Result<SymComputed, AllocError>
    requires fits { FitsMemory state.now.layout.now.objects state.now.objects.now state.now.memory.now }
    requires over { IsOver t.old state.now.memory.now }
    requires file { IsFile t.old state.now.file.now }
    ensures frame { Extends t.old t.new }
    ensures within { IfOk result (λ r. IsComputed t.new r) }
    ensures answers { IfOk result (λ r. (v : Reading) → AnswersComputed t.new v r (definition.loaded (memory_at t.old state.now.memory.now v) state.now.objects.now load.now.width load.now.bytes load.now.align load.now.spans.now (definition.value_of (memory_at t.old state.now.memory.now v) (registers_of t.old v state.now.file.now) address.now))) }
{
    let value = operand(t, state.layout, state.memory, state.file, address)?;
    let made = loads::loaded(
        alloc,
        t,
        state.layout,
        state.objects,
        state.memory,
        load,
        value,
    )?;
    Ok(made)
}

fn overflow<R: InitialReads>(
    t: &mut Terms,
    state: &State<R>,
    kind: OverflowKind,
    signed: bool,
    width: u32,
    inputs: &Inputs,
) -> Result<SymComputed, AllocError>
    requires layout { IsMemoryOf state.now.layout.now.objects state.now.memory.now }
    requires whole { AreWhole state.now.layout.now.objects }
    requires over { IsOver t.old state.now.memory.now }
    requires file { IsFile t.old state.now.file.now }
    ensures frame { Extends t.old t.new }
    ensures within { IfOk result (λ r. IsComputed t.new r) }
    ensures answers { IfOk result (λ r. (v : Reading) → AnswersComputed t.new v r (definition.on_pair (with_overflow kind signed width) (definition.value_of (memory_at t.old state.now.memory.now v) (registers_of t.old v state.now.file.now) inputs.now.a.now) (definition.value_of (memory_at t.old state.now.memory.now v) (registers_of t.old v state.now.file.now) inputs.now.b.now))) }
{
    let operands = two(t, state.layout, state.memory, state.file, inputs)?;
    let made = rows::overflow(t, kind, signed, width, operands.a, operands.b)?;
    Ok(made)
}

fn pair<R: InitialReads>(
    t: &mut Terms,
    state: &State<R>,
    kind: PairKind,
    width: u32,
    inputs: &Inputs,
) -> Result<SymComputed, AllocError>
    requires layout { IsMemoryOf state.now.layout.now.objects state.now.memory.now }
    requires whole { AreWhole state.now.layout.now.objects }
    requires over { IsOver t.old state.now.memory.now }
    requires file { IsFile t.old state.now.file.now }
    ensures frame { Extends t.old t.new }
    ensures within { IfOk result (λ r. IsComputed t.new r) }
    ensures answers { IfOk result (λ r. (v : Reading) → AnswersComputed t.new v r (definition.on_two (pair kind width) (definition.value_of (memory_at t.old state.now.memory.now v) (registers_of t.old v state.now.file.now) inputs.now.a.now) (definition.value_of (memory_at t.old state.now.memory.now v) (registers_of t.old v state.now.file.now) inputs.now.b.now))) }
{
    let operands = two(t, state.layout, state.memory, state.file, inputs)?;
    let made = rows::pair(t, kind, width, operands.a, operands.b)?;
    Ok(made)
}

fn assume<R: InitialReads>(
    t: &mut Terms,
    state: &State<R>,
    condition: &Input,
) -> Result<SymComputed, AllocError>
    requires layout { IsMemoryOf state.now.layout.now.objects state.now.memory.now }
    requires whole { AreWhole state.now.layout.now.objects }
    requires over { IsOver t.old state.now.memory.now }
    requires file { IsFile t.old state.now.file.now }
    ensures frame { Extends t.old t.new }
    ensures within { IfOk result (λ r. IsComputed t.new r) }
    ensures answers { IfOk result (λ r. (v : Reading) → AnswersComputed t.new v r (definition.assumed (definition.value_of (memory_at t.old state.now.memory.now v) (registers_of t.old v state.now.file.now) condition.now))) }
{
    let value = operand(t, state.layout, state.memory, state.file, condition)?;
    let made = rows::assume(t, value)?;
    Ok(made)
}

fn hook<R: InitialReads>(
    t: &mut Terms,
    state: &State<R>,
    arguments: &[Input],
) -> Result<SymComputed, AllocError>
    requires layout { IsMemoryOf state.now.layout.now.objects state.now.memory.now }
    requires whole { AreWhole state.now.layout.now.objects }
    requires over { IsOver t.old state.now.memory.now }
    requires file { IsFile t.old state.now.file.now }
    ensures frame { Extends t.old t.new }
    ensures within { IfOk result (λ r. IsComputed t.new r) }
    ensures answers { IfOk result (λ r. (v : Reading) → AnswersComputed t.new v r (definition.arguments_pass (memory_at t.old state.now.memory.now v) (registers_of t.old v state.now.file.now) arguments.now)) }
{
    let stuck = poisoned(t, state.layout, state.memory, state.file, arguments)?;
    Ok(SymComputed::Passes { stuck })
}

#[tactic(auto, using(crate::proofs::StepLaws::read_slot))]
fn load_slot(
    t: &mut Terms,
    file: &SymFile,
    width: u32,
    align: u64,
    spans: &Option<Seq<Span>>,
    slot: u32,
) -> Result<SymComputed, AllocError>
    requires file { IsFile t.old file.now }
    ensures frame { Extends t.old t.new }
    ensures within { IfOk result (λ r. IsComputed t.new r) }
    ensures answers { IfOk result (λ r. (v : Reading) → AnswersComputed t.new v r (definition.loaded_slot width align spans.now (definition.held_at (registers_of t.old v file.now) slot))) }
{
    let held = file.held(slot);
    let made = loads::loaded_slot(t, width, align, spans, held)?;
    Ok(made)
}

#[tactic(auto, using(crate::proofs::StepLaws::read_part))]
fn extract(t: &mut Terms, file: &SymFile, place: u32, part: u32) -> Result<SymComputed, AllocError>
    requires file { IsFile t.old file.now }
    ensures frame { Extends t.old t.new }
    ensures within { IfOk result (λ r. IsComputed t.new r) }
    ensures answers { IfOk result (λ r. (v : Reading) → AnswersComputed t.new v r (definition.part_of part (definition.held_at (registers_of t.old v file.now) place))) }
{
    let held = file.held(place);
    let made = rows::part_of(t, part, held)?;
    Ok(made)
}

// What an instruction gives where all registers of the file are set.
fn given<R: InitialReads>(
    alloc: Global,
    t: &mut Terms,
    state: &State<R>,
    act: &Act,
) -> Result<SymComputed, AllocError>
    requires fits { FitsMemory state.now.layout.now.objects state.now.objects.now state.now.memory.now }
    requires over { IsOver t.old state.now.memory.now }
    requires file { IsFile t.old state.now.file.now }
    ensures frame { Extends t.old t.new }
    ensures within { IfOk result (λ r. IsComputed t.new r) }
    ensures answers { IfOk result (λ r. (v : Reading) → AnswersComputed t.new v r (definition.computed (memory_at t.old state.now.memory.now v) state.now.objects.now (registers_of t.old v state.now.file.now) act.now)) }
{
    match act {
        Act::Binary {
            kind,
            flags,
            width,
            a,
            b,
        } => binary(t, state, *flags, *kind, *width, &Inputs { a, b }),
        Act::Compare {
            samesign,
            predicate,
            width,
            a,
            b,
        } => compare(t, state, *samesign, *predicate, *width, &Inputs { a, b }),
        Act::ComparePointers { predicate, a, b } => {
            compare_pointers(t, state, *predicate, &Inputs { a, b })
        }
        Act::Select { condition, a, b } => select(t, state, condition, &Inputs { a, b }),
        Act::Convert {
            kind,
            flags,
            from,
            to,
            a,
        } => {
            let widths = Widths {
                from: *from,
                to: *to,
            };
            convert(t, state, *flags, *kind, widths, a)
        }
        Act::Freeze { a } => freeze(t, state, a),
        Act::Address { a } => address(t, state, a),
        Act::Slot { align } => rows::slot(t, *align),
        Act::Load {
            width,
            bytes,
            align,
            spans,
            address,
        } => {
            let typed = Load {
                width: *width,
                bytes: *bytes,
                align: *align,
                spans,
            };
            load(alloc, t, state, &typed, address)
        }
        Act::LoadSlot {
            width,
            align,
            spans,
            slot,
        } => load_slot(t, state.file, *width, *align, spans, *slot),
        Act::WithOverflow {
            kind,
            signed,
            width,
            a,
            b,
        } => overflow(t, state, *kind, *signed, *width, &Inputs { a, b }),
        Act::Pair { kind, width, a, b } => pair(t, state, *kind, *width, &Inputs { a, b }),
        Act::Assume { condition } => assume(t, state, condition),
        Act::Extract { pair, part } => extract(t, state.file, *pair, *part),
        Act::Hook { arguments } => hook(t, state, arguments.as_slice()),
        _ => Ok(SymComputed::Lost),
    }
}

/// What an instruction gives that neither writes nor leads elsewhere, at all registers that the file covers. A store, a jump, a call of
/// a function with a body and a phi are lost.
pub fn computed<R: InitialReads>(
    alloc: Global,
    t: &mut Terms,
    layout: &Layout,
    objects: &Seq<Object>,
    memory: &SymMemory<R>,
    file: &SymFile,
    act: &Act,
) -> Result<SymComputed, AllocError>
    requires fits { FitsMemory layout.now.objects objects.now memory.now }
    requires over { IsOver t.old memory.now }
    requires file { IsFile t.old file.now }
    ensures frame { Extends t.old t.new }
    ensures within { IfOk result (λ r. IsComputed t.new r) }
    ensures answers { IfOk result (λ r. (v : Reading) (rs : Registers) → Covers t.old v file.now rs → AnswersComputed t.new v r (definition.computed (memory_at t.old memory.now v) objects.now rs act.now)) }
{
    let state = State {
        layout,
        objects,
        memory,
        file,
    };
    let made = given(alloc, t, &state, act)?;
    Ok(made)
}

fn slot_given<R: InitialReads>(
    t: &mut Terms,
    layout: &Layout,
    memory: &SymMemory<R>,
    file: &SymFile,
    value: &Input,
    to: SlotAccess,
) -> Result<SymComputed, AllocError>
    requires layout { IsMemoryOf layout.now.objects memory.now }
    requires whole { AreWhole layout.now.objects }
    requires over { IsOver t.old memory.now }
    requires file { IsFile t.old file.now }
    ensures frame { Extends t.old t.new }
    ensures within { IfOk result (λ r. IsComputed t.new r) }
    ensures answers { IfOk result (λ r. (v : Reading) → AnswersComputed t.new v r (steps.slot_stored to.align (definition.value_of (memory_at t.old memory.now v) (registers_of t.old v file.now) value.now) (definition.held_at (registers_of t.old v file.now) to.slot))) }
{
    let stored = operand(t, layout, memory, file, value)?;
    let held = file.held(to.slot);
    let made = loads::slot_stored(t, to.align, stored, held)?;
    Ok(made)
}

/// What a slot holds behind a store into it, at all registers that the file covers. It is set by the caller, where the run is here.
pub fn stored_slot<R: InitialReads>(
    t: &mut Terms,
    layout: &Layout,
    memory: &SymMemory<R>,
    file: &SymFile,
    value: &Input,
    to: SlotAccess,
) -> Result<SymComputed, AllocError>
    requires layout { IsMemoryOf layout.now.objects memory.now }
    requires whole { AreWhole layout.now.objects }
    requires over { IsOver t.old memory.now }
    requires file { IsFile t.old file.now }
    ensures frame { Extends t.old t.new }
    ensures within { IfOk result (λ r. IsComputed t.new r) }
    ensures answers { IfOk result (λ r. (v : Reading) (rs : Registers) → Covers t.old v file.now rs → AnswersComputed t.new v r (steps.slot_stored to.align (definition.value_of (memory_at t.old memory.now v) rs value.now) (definition.held_at rs to.slot))) }
{
    let made = slot_given(t, layout, memory, file, value, to)?;
    Ok(made)
}
