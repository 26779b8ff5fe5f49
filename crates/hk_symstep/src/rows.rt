//! Instructions over operands.

ghost use Rattle.std.specs.Prelude.{◌≡◌, ℕ, true, false, Bool, Option, Some, None, List, length, IfOk};
ghost use Rattle.hk_term.specs.Meaning.{Reading, value};
ghost use Rattle.hk_term.specs.declared.node.Node.{Node};
ghost use Rattle.ir_value.specs.declared.value.Made.{Made};
ghost use Rattle.ir_value.specs.Numbers.{binary, compare_numbers, convert, select};
ghost use Rattle.ir_value.specs.Numbers as numbers;
ghost use Rattle.ir_value.specs.Intrinsics.{with_overflow, pair};
ghost use Rattle.ir_machine.specs.Values as definition;
ghost use Rattle.ir_machine.specs.declared.state.Computed.TheVariants as machine;
ghost use Rattle.ir_machine.specs.declared.state.Held.TheVariants as held;
ghost use Rattle.hk_symvalue.specs.Growth.{Extends};
ghost use Rattle.hk_symvalue.specs.Meaning.{IsTruth, IsSym, IsMade, is_true, meaning};
ghost use Rattle.hk_symvalue.specs.Rows.{Answers};
ghost use Rattle.hk_symmem.specs.Guarded.{memory_at, IsOver, IsMemoryOf};
ghost use Rattle.hk_symaccess.specs.Accesses.{AreWhole};
ghost use Rattle.hk_symstep.specs.Held.{value_meaning, place_meaning, IsPlace, IsOperand, IsHeld};
ghost use Rattle.hk_symstep.specs.Steps.{AnswersComputed, IsComputed};

use crate::state::{SymComputed, SymHeld, SymSlot};
use hk_symaccess::size_of;
use hk_symmem::{InitialReads, SymMemory};
use hk_symvalue::{SymMade, SymPair, SymValue, assume_sticks, logic};
use hk_term::Terms;
use ir_ast::{BinaryKind, ConvertKind, Flags, Predicate};
use ir_layout::Layout;
use ir_value::{OverflowKind, PairKind, Value};
use std::alloc::AllocError;

#[tactic(auto, using(crate::proofs::StepLaws::made))]
fn by_made(made: SymMade) -> SymComputed
    ensures within { (nodes : List Node) → IsMade nodes made → IsComputed nodes result }
    ensures answers { (nodes : List Node) (v : Reading) (m : Made) → Answers (is_true nodes made.stuck v) (meaning nodes made.value v) m → AnswersComputed nodes v result (definition.computed_by m) }
{
    SymComputed::Sets {
        stuck: made.stuck,
        held: SymHeld::Value(made.value),
    }
}

// A value at which no run is stuck.
#[tactic(auto, using(crate::proofs::StepLaws::gives))]
fn by_value(t: &mut Terms, value: SymValue) -> Result<SymComputed, AllocError>
    requires { IsSym t.old value }
    ensures frame { Extends t.old t.new }
    ensures within { IfOk result (λ r. IsComputed t.new r) }
    ensures answers { IfOk result (λ r. (v : Reading) (m : Made) → Answers false (meaning t.old value v) m → AnswersComputed t.new v r (definition.computed_by m)) }
{
    let stuck = logic::constant(t, false)?;
    Ok(SymComputed::Sets {
        stuck,
        held: SymHeld::Value(value),
    })
}

pub(crate) fn binary(
    t: &mut Terms,
    flags: Flags,
    kind: BinaryKind,
    width: u32,
    a: Option<SymValue>,
    b: Option<SymValue>,
) -> Result<SymComputed, AllocError>
    requires first { IsOperand t.old a }
    requires second { IsOperand t.old b }
    ensures frame { Extends t.old t.new }
    ensures within { IfOk result (λ r. IsComputed t.new r) }
    ensures answers { IfOk result (λ r. (v : Reading) → AnswersComputed t.new v r (definition.on_two (binary flags kind width) (value_meaning t.old v a) (value_meaning t.old v b))) }
{
    match (a, b) {
        (Some(a), Some(b)) => {
            let made = hk_symvalue::binary(t, flags, kind, width, a, b)?;
            Ok(by_made(made))
        }
        _ => Ok(SymComputed::Lost),
    }
}

pub(crate) fn compare(
    t: &mut Terms,
    samesign: bool,
    predicate: Predicate,
    width: u32,
    a: Option<SymValue>,
    b: Option<SymValue>,
) -> Result<SymComputed, AllocError>
    requires first { IsOperand t.old a }
    requires second { IsOperand t.old b }
    ensures frame { Extends t.old t.new }
    ensures within { IfOk result (λ r. IsComputed t.new r) }
    ensures answers { IfOk result (λ r. (v : Reading) → AnswersComputed t.new v r (definition.on_two (compare_numbers samesign predicate width) (value_meaning t.old v a) (value_meaning t.old v b))) }
{
    match (a, b) {
        (Some(a), Some(b)) => {
            let made = hk_symvalue::compare_numbers(t, samesign, predicate, width, a, b)?;
            let computed = by_value(t, made)?;
            Ok(computed)
        }
        _ => Ok(SymComputed::Lost),
    }
}

#[tactic(auto, using(crate::proofs::Sizes::compared, crate::proofs::Growing::memory_kept))]
fn compare_sized<R: InitialReads>(
    t: &mut Terms,
    layout: &Layout,
    memory: &SymMemory<R>,
    predicate: Predicate,
    a: SymValue,
    b: SymValue,
) -> Result<SymMade, AllocError>
    requires layout { IsMemoryOf layout.now.objects memory.now }
    requires whole { AreWhole layout.now.objects }
    requires over { IsOver t.old memory.now }
    requires first { IsSym t.old a }
    requires second { IsSym t.old b }
    ensures frame { Extends t.old t.new }
    ensures made { IfOk result (λ r. IsMade t.new r) }
    ensures answers { IfOk result (λ r. (v : Reading) → Answers (is_true t.new r.stuck v) (meaning t.new r.value v) (definition.compare_sized (memory_at t.old memory.now v) predicate (meaning t.old a v) (meaning t.old b v))) }
{
    let size_a = size_of(t, layout, memory, a.base)?;
    let size_b = size_of(t, layout, memory, b.base)?;
    let made = hk_symvalue::compare_pointers(t, predicate, size_a, size_b, a, b)?;
    Ok(made)
}

pub(crate) fn compare_pointers<R: InitialReads>(
    t: &mut Terms,
    layout: &Layout,
    memory: &SymMemory<R>,
    predicate: Predicate,
    a: Option<SymValue>,
    b: Option<SymValue>,
) -> Result<SymComputed, AllocError>
    requires layout { IsMemoryOf layout.now.objects memory.now }
    requires whole { AreWhole layout.now.objects }
    requires over { IsOver t.old memory.now }
    requires first { IsOperand t.old a }
    requires second { IsOperand t.old b }
    ensures frame { Extends t.old t.new }
    ensures within { IfOk result (λ r. IsComputed t.new r) }
    ensures answers { IfOk result (λ r. (v : Reading) → AnswersComputed t.new v r (definition.on_two (definition.compare_sized (memory_at t.old memory.now v) predicate) (value_meaning t.old v a) (value_meaning t.old v b))) }
{
    match (a, b) {
        (Some(a), Some(b)) => {
            let made = compare_sized(t, layout, memory, predicate, a, b)?;
            Ok(by_made(made))
        }
        _ => Ok(SymComputed::Lost),
    }
}

pub(crate) fn select(
    t: &mut Terms,
    condition: Option<SymValue>,
    a: Option<SymValue>,
    b: Option<SymValue>,
) -> Result<SymComputed, AllocError>
    requires condition { IsOperand t.old condition }
    requires first { IsOperand t.old a }
    requires second { IsOperand t.old b }
    ensures frame { Extends t.old t.new }
    ensures within { IfOk result (λ r. IsComputed t.new r) }
    ensures answers { IfOk result (λ r. (v : Reading) → AnswersComputed t.new v r (definition.on_three select (value_meaning t.old v condition) (value_meaning t.old v a) (value_meaning t.old v b))) }
{
    match (condition, a, b) {
        (Some(condition), Some(a), Some(b)) => {
            let made = hk_symvalue::select(t, condition, a, b)?;
            let computed = by_value(t, made)?;
            Ok(computed)
        }
        _ => Ok(SymComputed::Lost),
    }
}

pub(crate) fn convert(
    t: &mut Terms,
    flags: Flags,
    kind: ConvertKind,
    from: u32,
    to: u32,
    a: Option<SymValue>,
) -> Result<SymComputed, AllocError>
    requires { IsOperand t.old a }
    ensures frame { Extends t.old t.new }
    ensures within { IfOk result (λ r. IsComputed t.new r) }
    ensures answers { IfOk result (λ r. (v : Reading) → AnswersComputed t.new v r (definition.on_one (convert flags kind from to) (value_meaning t.old v a))) }
{
    match a {
        Some(a) => {
            let made = hk_symvalue::convert(t, flags, kind, from, to, a)?;
            let computed = by_value(t, made)?;
            Ok(computed)
        }
        None => Ok(SymComputed::Lost),
    }
}

pub(crate) fn freeze(t: &mut Terms, a: Option<SymValue>) -> Result<SymComputed, AllocError>
    requires { IsOperand t.old a }
    ensures frame { Extends t.old t.new }
    ensures within { IfOk result (λ r. IsComputed t.new r) }
    ensures answers { IfOk result (λ r. (v : Reading) → AnswersComputed t.new v r (definition.on_one numbers.freeze (value_meaning t.old v a))) }
{
    match a {
        Some(a) => {
            let made = hk_symvalue::freeze(t, a)?;
            Ok(by_made(made))
        }
        None => Ok(SymComputed::Lost),
    }
}

pub(crate) fn address(t: &mut Terms, a: Option<SymValue>) -> Result<SymComputed, AllocError>
    requires { IsOperand t.old a }
    ensures frame { Extends t.old t.new }
    ensures within { IfOk result (λ r. IsComputed t.new r) }
    ensures answers { IfOk result (λ r. (v : Reading) → AnswersComputed t.new v r (definition.given (value_meaning t.old v a))) }
{
    match a {
        Some(value) => {
            let stuck = logic::constant(t, false)?;
            Ok(SymComputed::Sets {
                stuck,
                held: SymHeld::Value(value),
            })
        }
        None => Ok(SymComputed::Lost),
    }
}

#[tactic(auto, using(crate::proofs::StepLaws::pairs))]
fn by_pair(t: &mut Terms, pair: SymPair) -> Result<SymComputed, AllocError>
    requires first { IsSym t.old pair.number }
    requires second { IsSym t.old pair.overflow }
    ensures frame { Extends t.old t.new }
    ensures within { IfOk result (λ r. IsComputed t.new r) }
    ensures answers { IfOk result (λ r. (v : Reading) (m n : Made) → Answers false (meaning t.old pair.number v) m → Answers false (meaning t.old pair.overflow v) n → AnswersComputed t.new v r (definition.pair_by m n)) }
{
    let stuck = logic::constant(t, false)?;
    Ok(SymComputed::Sets {
        stuck,
        held: SymHeld::Pair(pair),
    })
}

pub(crate) fn overflow(
    t: &mut Terms,
    kind: OverflowKind,
    signed: bool,
    width: u32,
    a: Option<SymValue>,
    b: Option<SymValue>,
) -> Result<SymComputed, AllocError>
    requires first { IsOperand t.old a }
    requires second { IsOperand t.old b }
    ensures frame { Extends t.old t.new }
    ensures within { IfOk result (λ r. IsComputed t.new r) }
    ensures answers { IfOk result (λ r. (v : Reading) → AnswersComputed t.new v r (definition.on_pair (with_overflow kind signed width) (value_meaning t.old v a) (value_meaning t.old v b))) }
{
    match (a, b) {
        (Some(a), Some(b)) => {
            let made = hk_symvalue::with_overflow(t, kind, signed, width, a, b)?;
            let computed = by_pair(t, made)?;
            Ok(computed)
        }
        _ => Ok(SymComputed::Lost),
    }
}

pub(crate) fn pair(
    t: &mut Terms,
    kind: PairKind,
    width: u32,
    a: Option<SymValue>,
    b: Option<SymValue>,
) -> Result<SymComputed, AllocError>
    requires first { IsOperand t.old a }
    requires second { IsOperand t.old b }
    ensures frame { Extends t.old t.new }
    ensures within { IfOk result (λ r. IsComputed t.new r) }
    ensures answers { IfOk result (λ r. (v : Reading) → AnswersComputed t.new v r (definition.on_two (pair kind width) (value_meaning t.old v a) (value_meaning t.old v b))) }
{
    match (a, b) {
        (Some(a), Some(b)) => {
            let made = hk_symvalue::pair(t, kind, width, a, b)?;
            let computed = by_value(t, made)?;
            Ok(computed)
        }
        _ => Ok(SymComputed::Lost),
    }
}

#[tactic(auto, using(crate::proofs::StepLaws::assumed_by))]
pub(crate) fn assume(t: &mut Terms, condition: Option<SymValue>) -> Result<SymComputed, AllocError>
    requires { IsOperand t.old condition }
    ensures frame { Extends t.old t.new }
    ensures within { IfOk result (λ r. IsComputed t.new r) }
    ensures answers { IfOk result (λ r. (v : Reading) → AnswersComputed t.new v r (definition.assumed (value_meaning t.old v condition))) }
{
    match condition {
        Some(condition) => {
            let stuck = assume_sticks(t, condition)?;
            Ok(SymComputed::Passes { stuck })
        }
        None => Ok(SymComputed::Lost),
    }
}

// A part that is there.
fn part(t: &mut Terms, value: SymValue) -> Result<SymComputed, AllocError>
    requires { IsSym t.old value }
    ensures frame { Extends t.old t.new }
    ensures within { IfOk result (λ r. IsComputed t.new r) }
    ensures answers { IfOk result (λ r. (v : Reading) → AnswersComputed t.new v r (definition.given (Some (meaning t.old value v)))) }
{
    let computed = address(t, Some(value))?;
    Ok(computed)
}

pub(crate) fn part_of(
    t: &mut Terms,
    part_at: u32,
    held: Option<SymHeld>,
) -> Result<SymComputed, AllocError>
    requires { IsPlace t.old held }
    ensures frame { Extends t.old t.new }
    ensures within { IfOk result (λ r. IsComputed t.new r) }
    ensures answers { IfOk result (λ r. (v : Reading) → AnswersComputed t.new v r (definition.part_of part_at (place_meaning t.old v held))) }
{
    match held {
        Some(SymHeld::Pair(pair)) => {
            if part_at == 0 {
                part(t, pair.number)
            } else if part_at == 1 {
                part(t, pair.overflow)
            } else {
                Ok(SymComputed::Lost)
            }
        }
        _ => Ok(SymComputed::Lost),
    }
}

/// A slot in which nothing is stored.
pub(crate) fn slot(t: &mut Terms, align: u64) -> Result<SymComputed, AllocError>
    ensures frame { Extends t.old t.new }
    ensures within { IfOk result (λ r. IsComputed t.new r) }
    ensures answers { IfOk result (λ r. (v : Reading) → AnswersComputed t.new v r (machine.Sets (held.Slot align None))) }
{
    let never = logic::constant(t, false)?;
    let stored = hk_symvalue::of_value(t, Value::Poison)?;
    Ok(SymComputed::Sets {
        stuck: never,
        held: SymHeld::Slot(SymSlot {
            align,
            filled: never,
            stored,
        }),
    })
}
