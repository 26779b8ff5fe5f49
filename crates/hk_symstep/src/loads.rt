//! Loads, and slots.

ghost use Rattle.std.specs.Prelude.{◌≡◌, ℕ, true, false, Bool, Some, None, List, length, IfOk};
ghost use Rattle.hk_term.specs.Meaning.{Reading, value};
ghost use Rattle.ir_machine.specs.Values as definition;
ghost use Rattle.ir_machine.specs.Step as steps;
ghost use Rattle.ir_machine.specs.declared.state.Computed.TheVariants as machine;
ghost use Rattle.ir_value.specs.declared.value.StuckReason.TheVariants.{U7};
ghost use Rattle.hk_symvalue.specs.Growth.{Extends};
ghost use Rattle.hk_symvalue.specs.Meaning.{IsTruth, IsSym, IsMade, is_true, meaning};
ghost use Rattle.hk_symmem.specs.Guarded.{memory_at, IsOver};
ghost use Rattle.hk_symaccess.specs.Accesses.{FitsMemory};
ghost use Rattle.hk_symstep.specs.Held.{value_meaning, place_meaning, stored_in, IsPlace, IsOperand, IsHeld};
ghost use Rattle.ir_value.specs.declared.value.Made.{Made};
ghost use Rattle.hk_symvalue.specs.Rows.{Answers};
ghost use Rattle.hk_symstep.specs.Steps.{AnswersComputed, IsComputed, by_spans};

use crate::spans::leaves;
use crate::state::{SymComputed, SymHeld, SymSlot};
use hk_seq::Seq;
use hk_symaccess::Access;
use hk_symmem::{InitialReads, SymMemory};
use hk_symvalue::{SymValue, logic};
use hk_term::{TermId, Terms};
use ir_code::{Object, Span};
use ir_layout::Layout;
use std::alloc::{AllocError, Global};

/// A load of an integer: its width in bits, how many bytes it takes, at what alignment in bytes, and the ranges that it is said to lie
/// in.
#[derive(Clone, Copy)]
pub(crate) struct Load<'a> {
    pub(crate) width: u32,
    pub(crate) bytes: u32,
    pub(crate) align: u64,
    pub(crate) spans: &'a Option<Seq<Span>>,
}

// A number that was loaded: the run is stuck out of the stated range, too.
#[tactic(auto, using(crate::proofs::LoadLaws::made_by))]
fn against_spans(
    t: &mut Terms,
    width: u32,
    spans: &Option<Seq<Span>>,
    stuck: TermId,
    value: SymValue,
) -> Result<SymComputed, AllocError>
    requires stuck { IsTruth t.old stuck }
    requires value { IsSym t.old value }
    ensures frame { Extends t.old t.new }
    ensures within { IfOk result (λ r. IsComputed t.new r) }
    ensures answers { IfOk result (λ r. (v : Reading) (m : Made) → Answers (is_true t.old stuck v) (meaning t.old value v) m → AnswersComputed t.new v r (by_spans width spans.now m)) }
{
    let outside = leaves(t, width, spans, value.poison, value.base, value.bits)?;
    let either = logic::or(t, stuck, outside)?;
    Ok(SymComputed::Sets {
        stuck: either,
        held: SymHeld::Value(value),
    })
}

fn loaded_at<R: InitialReads>(
    alloc: Global,
    t: &mut Terms,
    layout: &Layout,
    objects: &Seq<Object>,
    memory: &SymMemory<R>,
    load: &Load,
    address: SymValue,
) -> Result<SymComputed, AllocError>
    requires fits { FitsMemory layout.now.objects objects.now memory.now }
    requires over { IsOver t.old memory.now }
    requires address { IsSym t.old address }
    ensures frame { Extends t.old t.new }
    ensures within { IfOk result (λ r. IsComputed t.new r) }
    ensures answers { IfOk result (λ r. (v : Reading) → AnswersComputed t.new v r (definition.loaded (memory_at t.old memory.now v) objects.now load.now.width load.now.bytes load.now.align load.now.spans.now (Some (meaning t.old address v)))) }
{
    let access = Access {
        bytes: load.bytes,
        align: load.align,
        address,
    };
    let made = hk_symaccess::load(alloc, t, layout, objects, memory, access)?;
    let computed = against_spans(t, load.width, load.spans, made.stuck, made.value)?;
    Ok(computed)
}

pub(crate) fn loaded<R: InitialReads>(
    alloc: Global,
    t: &mut Terms,
    layout: &Layout,
    objects: &Seq<Object>,
    memory: &SymMemory<R>,
    load: &Load,
    address: Option<SymValue>,
) -> Result<SymComputed, AllocError>
    requires fits { FitsMemory layout.now.objects objects.now memory.now }
    requires over { IsOver t.old memory.now }
    requires address { IsOperand t.old address }
    ensures frame { Extends t.old t.new }
    ensures within { IfOk result (λ r. IsComputed t.new r) }
    ensures answers { IfOk result (λ r. (v : Reading) → AnswersComputed t.new v r (definition.loaded (memory_at t.old memory.now v) objects.now load.now.width load.now.bytes load.now.align load.now.spans.now (value_meaning t.old v address))) }
{
    match address {
        Some(address) => loaded_at(alloc, t, layout, objects, memory, load, address),
        None => Ok(SymComputed::Lost),
    }
}

// Whether an alignment divides that of a slot.
fn is_aligned(align: u64, slot_align: u64) -> bool
    ensures { result ≡ definition.is_aligned align slot_align }
{
    1 <= align && slot_align % align == 0
}

// What was stored last: the run is stuck where nothing was, or at a number out of the stated range.
#[tactic(auto, using(crate::proofs::LoadLaws::stored))]
fn slot_loaded(
    t: &mut Terms,
    width: u32,
    spans: &Option<Seq<Span>>,
    filled: TermId,
    stored: SymValue,
) -> Result<SymComputed, AllocError>
    requires filled { IsTruth t.old filled }
    requires stored { IsSym t.old stored }
    ensures frame { Extends t.old t.new }
    ensures within { IfOk result (λ r. IsComputed t.new r) }
    ensures answers { IfOk result (λ r. (v : Reading) → AnswersComputed t.new v r (definition.slot_loaded width spans.now (stored_in t.old v filled stored))) }
{
    let empty = logic::not(t, filled)?;
    let outside = leaves(t, width, spans, stored.poison, stored.base, stored.bits)?;
    let stuck = logic::or(t, empty, outside)?;
    Ok(SymComputed::Sets {
        stuck,
        held: SymHeld::Value(stored),
    })
}

// A run that is stuck on all paths. What is held is not read there.
fn sticks(t: &mut Terms, held: SymHeld) -> Result<SymComputed, AllocError>
    requires { IsHeld t.old held }
    ensures frame { Extends t.old t.new }
    ensures within { IfOk result (λ r. IsComputed t.new r) }
    ensures answers { IfOk result (λ r. (v : Reading) → AnswersComputed t.new v r (machine.Sticks U7)) }
{
    let stuck = logic::constant(t, true)?;
    Ok(SymComputed::Sets { stuck, held })
}

pub(crate) fn loaded_slot(
    t: &mut Terms,
    width: u32,
    align: u64,
    spans: &Option<Seq<Span>>,
    held: Option<SymHeld>,
) -> Result<SymComputed, AllocError>
    requires { IsPlace t.old held }
    ensures frame { Extends t.old t.new }
    ensures within { IfOk result (λ r. IsComputed t.new r) }
    ensures answers { IfOk result (λ r. (v : Reading) → AnswersComputed t.new v r (definition.loaded_slot width align spans.now (place_meaning t.old v held))) }
{
    match held {
        Some(SymHeld::Slot(slot)) => {
            if is_aligned(align, slot.align) {
                slot_loaded(t, width, spans, slot.filled, slot.stored)
            } else {
                sticks(t, SymHeld::Value(slot.stored))
            }
        }
        _ => Ok(SymComputed::Lost),
    }
}

// A slot in which a value is stored. Poison may not be.
#[tactic(auto, using(crate::proofs::LoadLaws::puts))]
fn put_slot(t: &mut Terms, align: u64, value: SymValue) -> Result<SymComputed, AllocError>
    requires { IsSym t.old value }
    ensures frame { Extends t.old t.new }
    ensures within { IfOk result (λ r. IsComputed t.new r) }
    ensures answers { IfOk result (λ r. (v : Reading) → AnswersComputed t.new v r (steps.put_slot align (meaning t.old value v))) }
{
    let filled = logic::constant(t, true)?;
    Ok(SymComputed::Sets {
        stuck: value.poison,
        held: SymHeld::Slot(SymSlot {
            align,
            filled,
            stored: value,
        }),
    })
}

pub(crate) fn slot_stored(
    t: &mut Terms,
    align: u64,
    value: Option<SymValue>,
    held: Option<SymHeld>,
) -> Result<SymComputed, AllocError>
    requires value { IsOperand t.old value }
    requires held { IsPlace t.old held }
    ensures frame { Extends t.old t.new }
    ensures within { IfOk result (λ r. IsComputed t.new r) }
    ensures answers { IfOk result (λ r. (v : Reading) → AnswersComputed t.new v r (steps.slot_stored align (value_meaning t.old v value) (place_meaning t.old v held))) }
{
    match (value, held) {
        (Some(value), Some(SymHeld::Slot(slot))) => {
            if is_aligned(align, slot.align) {
                put_slot(t, slot.align, value)
            } else {
                sticks(t, SymHeld::Slot(slot))
            }
        }
        _ => Ok(SymComputed::Lost),
    }
}
