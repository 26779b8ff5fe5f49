//! What instructions give that neither write nor lead elsewhere.

ghost use Rattle.std.specs.Prelude.{◌≡◌, ◌≤◌, ◌<◌, ◌^◌, true};
ghost use Rattle.ir_value.specs.Numbers.{binary, compare_numbers, convert, select};
ghost use Rattle.ir_value.specs.Numbers as numbers;
ghost use Rattle.ir_value.specs.Pointers.{compare_pointers};
ghost use Rattle.ir_value.specs.Intrinsics.{with_overflow, pair};
ghost use Rattle.ir_machine.specs.Values as definition;

use crate::inputs::{held_at, size_at, size_of, value_of};
use crate::state::{Computed, Held};
use hk_seq::Seq;
use ir_ast::{BinaryKind, ConvertKind, Flags, Predicate};
use ir_code::{Act, Input, Object, Span};
use ir_layout::KMemory;
use ir_value::{
    Access, Made, OverflowKind, PairKind, StuckReason, Value, assumes, is_between, reach,
};

fn computed_by(made: Made) -> Computed
    ensures { result ≡ definition.computed_by made }
{
    match made {
        Made::Gives(value) => Computed::Sets(Held::Value(value)),
        Made::Sticks(reason) => Computed::Sticks(reason),
        Made::Lost => Computed::Lost,
    }
}

fn binary(
    flags: Flags,
    kind: BinaryKind,
    width: u32,
    a: Option<Value>,
    b: Option<Value>,
) -> Computed
    ensures { result ≡ definition.on_two (binary flags kind width) a b }
{
    match (a, b) {
        (Some(a), Some(b)) => computed_by(ir_value::binary(flags, kind, width, a, b)),
        _ => Computed::Lost,
    }
}

fn compare(
    samesign: bool,
    predicate: Predicate,
    width: u32,
    a: Option<Value>,
    b: Option<Value>,
) -> Computed
    ensures { result ≡ definition.on_two (compare_numbers samesign predicate width) a b }
{
    match (a, b) {
        (Some(a), Some(b)) => {
            computed_by(ir_value::compare_numbers(samesign, predicate, width, a, b))
        }
        _ => Computed::Lost,
    }
}

fn compare_sized(memory: &KMemory, predicate: Predicate, a: Value, b: Value) -> Made
    ensures { result ≡ definition.compare_sized memory.now predicate a b }
{
    ir_value::compare_pointers(predicate, size_at(memory, a), size_at(memory, b), a, b)
}

fn compare_pointers(
    memory: &KMemory,
    predicate: Predicate,
    a: Option<Value>,
    b: Option<Value>,
) -> Computed
    ensures { result ≡ definition.on_two (definition.compare_sized memory.now predicate) a b }
{
    match (a, b) {
        (Some(a), Some(b)) => computed_by(compare_sized(memory, predicate, a, b)),
        _ => Computed::Lost,
    }
}

fn select(condition: Option<Value>, a: Option<Value>, b: Option<Value>) -> Computed
    ensures { result ≡ definition.on_three select condition a b }
{
    match (condition, a, b) {
        (Some(condition), Some(a), Some(b)) => computed_by(ir_value::select(condition, a, b)),
        _ => Computed::Lost,
    }
}

fn convert(flags: Flags, kind: ConvertKind, from: u32, to: u32, a: Option<Value>) -> Computed
    ensures { result ≡ definition.on_one (convert flags kind from to) a }
{
    match a {
        Some(a) => computed_by(ir_value::convert(flags, kind, from, to, a)),
        None => Computed::Lost,
    }
}

fn freeze(a: Option<Value>) -> Computed
    ensures { result ≡ definition.on_one numbers.freeze a }
{
    match a {
        Some(a) => computed_by(ir_value::freeze(a)),
        None => Computed::Lost,
    }
}

fn address(a: Option<Value>) -> Computed
    ensures { result ≡ definition.given a }
{
    match a {
        Some(a) => Computed::Sets(Held::Value(a)),
        None => Computed::Lost,
    }
}

fn pair_by(first: Made, second: Made) -> Computed
    ensures { result ≡ definition.pair_by first second }
{
    match (first, second) {
        (Made::Gives(a), Made::Gives(b)) => Computed::Sets(Held::Pair(a, b)),
        (Made::Gives(_), Made::Sticks(reason)) => Computed::Sticks(reason),
        (Made::Gives(_), Made::Lost) => Computed::Lost,
        (Made::Sticks(reason), _) => Computed::Sticks(reason),
        (Made::Lost, _) => Computed::Lost,
    }
}

fn overflow(
    kind: OverflowKind,
    signed: bool,
    width: u32,
    a: Option<Value>,
    b: Option<Value>,
) -> Computed
    ensures { result ≡ definition.on_pair (with_overflow kind signed width) a b }
{
    match (a, b) {
        (Some(a), Some(b)) => pair_by(
            ir_value::with_overflow(kind, signed, width, 0, a, b),
            ir_value::with_overflow(kind, signed, width, 1, a, b),
        ),
        _ => Computed::Lost,
    }
}

fn pair(kind: PairKind, width: u32, a: Option<Value>, b: Option<Value>) -> Computed
    ensures { result ≡ definition.on_two (pair kind width) a b }
{
    match (a, b) {
        (Some(a), Some(b)) => computed_by(ir_value::pair(kind, width, a, b)),
        _ => Computed::Lost,
    }
}

fn part_of(part: u32, held: Option<Held>) -> Computed
    ensures { result ≡ definition.part_of part held }
{
    match held {
        Some(Held::Pair(a, b)) => {
            if part == 0 {
                Computed::Sets(Held::Value(a))
            } else if part == 1 {
                Computed::Sets(Held::Value(b))
            } else {
                Computed::Lost
            }
        }
        _ => Computed::Lost,
    }
}

fn assumed(condition: Option<Value>) -> Computed
    ensures { result ≡ definition.assumed condition }
{
    match condition {
        Some(condition) => {
            if assumes(condition) {
                Computed::Passes
            } else {
                Computed::Sticks(StuckReason::U17)
            }
        }
        None => Computed::Lost,
    }
}

fn is_in_any(width: u32, number: u64, spans: &[Span]) -> bool
    ensures { result ≡ definition.is_in_any width number spans.now }
{
    spans
        .iter()
        .any(|span| is_between(width, span.low, span.high, number))
}

fn is_in_spans(width: u32, number: u64, spans: &Option<Seq<Span>>) -> bool
    ensures { result ≡ definition.is_in_spans width number spans.now }
{
    match spans {
        Some(spans) => is_in_any(width, number, spans.as_slice()),
        None => true,
    }
}

fn within_spans(width: u32, spans: &Option<Seq<Span>>, value: Value) -> Computed
    ensures { result ≡ definition.within_spans width spans.now value }
{
    match value {
        Value::Number(number) => {
            if is_in_spans(width, number, spans) {
                Computed::Sets(Held::Value(value))
            } else {
                Computed::Sticks(StuckReason::U16)
            }
        }
        _ => Computed::Sets(Held::Value(value)),
    }
}

/// What stores and alignments ask of an object.
pub(crate) fn object_at(objects: &Seq<Object>, object: u32) -> Object
    ensures { result ≡ definition.object_at objects.now object }
{
    match objects.as_slice().get(object as usize) {
        Some(object) => *object,
        None => Object {
            constant: false,
            align: 0,
        },
    }
}

/// Where an access reaches.
pub(crate) fn reached(
    memory: &KMemory,
    objects: &Seq<Object>,
    bytes: u32,
    align: u64,
    value: Value,
) -> Access
    ensures reached { result ≡ definition.reached memory.now objects.now bytes align value }
    ensures lies { definition.are_bytes bytes ≡ true → definition.LiesIn memory.now bytes result }
{
    match value {
        Value::Address { object, .. } => reach(
            size_of(memory, object),
            object_at(objects, object).align,
            u64::from(bytes),
            align,
            value,
        ),
        _ => reach(0, 0, u64::from(bytes), align, value),
    }
}

/// Whether an integer in memory has so many bytes.
pub(crate) fn are_bytes(bytes: u32) -> bool
    ensures { result ≡ definition.are_bytes bytes }
{
    bytes == 1 || bytes == 2 || bytes == 4 || bytes == 8
}

fn loaded_from(
    memory: &KMemory,
    width: u32,
    bytes: u32,
    spans: &Option<Seq<Span>>,
    access: Access,
) -> Computed
    requires bytes { definition.are_bytes bytes ≡ true }
    requires reached { definition.LiesIn memory.now bytes access }
    ensures { result ≡ definition.loaded_from memory.now width bytes spans.now access }
{
    match access {
        Access::At { object, offset } => within_spans(
            width,
            spans,
            Value::Number(memory.load(object, offset, bytes)),
        ),
        Access::Not(reason) => Computed::Sticks(reason),
        Access::Nowhere => Computed::Lost,
    }
}

/// What a load from memory gives: a number of this width in so many bytes, in one of the spans.
#[derive(Drop)]
struct Load<'a> {
    width: u32,
    bytes: u32,
    align: u64,
    spans: &'a Option<Seq<Span>>,
}

fn loaded(
    memory: &KMemory,
    objects: &Seq<Object>,
    load: &Load<'_>,
    address: Option<Value>,
) -> Computed
    ensures { result ≡ definition.loaded memory.now objects.now load.now.width load.now.bytes load.now.align load.now.spans.now address }
{
    match address {
        Some(address) => {
            if are_bytes(load.bytes) {
                loaded_from(
                    memory,
                    load.width,
                    load.bytes,
                    load.spans,
                    reached(memory, objects, load.bytes, load.align, address),
                )
            } else {
                Computed::Lost
            }
        }
        None => Computed::Lost,
    }
}

/// Whether an alignment divides that of a slot.
pub(crate) fn is_aligned(align: u64, slot_align: u64) -> bool
    ensures { result ≡ definition.is_aligned align slot_align }
{
    1 <= align && slot_align % align == 0
}

fn slot_loaded(width: u32, spans: &Option<Seq<Span>>, stored: Option<Value>) -> Computed
    ensures { result ≡ definition.slot_loaded width spans.now stored }
{
    match stored {
        Some(value) => within_spans(width, spans, value),
        None => Computed::Sticks(StuckReason::U14),
    }
}

fn loaded_slot(width: u32, align: u64, spans: &Option<Seq<Span>>, held: Option<Held>) -> Computed
    ensures { result ≡ definition.loaded_slot width align spans.now held }
{
    match held {
        Some(
            Held::Slot {
                align: slot_align,
                stored,
            },
        ) => {
            if is_aligned(align, slot_align) {
                slot_loaded(width, spans, stored)
            } else {
                Computed::Sticks(StuckReason::U7)
            }
        }
        _ => Computed::Lost,
    }
}

/// Whether a call may take these arguments: it sticks at the first that is poison.
pub(crate) fn arguments_pass(
    memory: &KMemory,
    registers: &Seq<Option<Held>>,
    arguments: &[Input],
) -> Computed
    ensures { result ≡ definition.arguments_pass memory.now registers.now arguments.now }
{
    for argument in arguments {
        match value_of(memory, registers, argument) {
            None => return Computed::Lost,
            Some(Value::Poison) => return Computed::Sticks(StuckReason::U11),
            Some(_) => {}
        }
    }
    Computed::Passes
}

/// What an instruction gives that neither writes nor leads elsewhere.
pub(crate) fn computed(
    memory: &KMemory,
    objects: &Seq<Object>,
    registers: &Seq<Option<Held>>,
    act: &Act,
) -> Computed
    ensures { result ≡ definition.computed memory.now objects.now registers.now act.now }
{
    match act {
        Act::Binary {
            kind,
            flags,
            width,
            a,
            b,
        } => binary(
            *flags,
            *kind,
            *width,
            value_of(memory, registers, a),
            value_of(memory, registers, b),
        ),
        Act::Compare {
            samesign,
            predicate,
            width,
            a,
            b,
        } => compare(
            *samesign,
            *predicate,
            *width,
            value_of(memory, registers, a),
            value_of(memory, registers, b),
        ),
        Act::ComparePointers { predicate, a, b } => compare_pointers(
            memory,
            *predicate,
            value_of(memory, registers, a),
            value_of(memory, registers, b),
        ),
        Act::Select { condition, a, b } => select(
            value_of(memory, registers, condition),
            value_of(memory, registers, a),
            value_of(memory, registers, b),
        ),
        Act::Convert {
            kind,
            flags,
            from,
            to,
            a,
        } => convert(*flags, *kind, *from, *to, value_of(memory, registers, a)),
        Act::Freeze { a } => freeze(value_of(memory, registers, a)),
        Act::Address { a } => address(value_of(memory, registers, a)),
        Act::Slot { align } => Computed::Sets(Held::Slot {
            align: *align,
            stored: None,
        }),
        Act::Load {
            width,
            bytes,
            align,
            spans,
            address,
        } => {
            let load = Load {
                width: *width,
                bytes: *bytes,
                align: *align,
                spans,
            };
            loaded(memory, objects, &load, value_of(memory, registers, address))
        }
        Act::LoadSlot {
            width,
            align,
            spans,
            slot,
        } => loaded_slot(*width, *align, spans, held_at(registers, *slot)),
        Act::WithOverflow {
            kind,
            signed,
            width,
            a,
            b,
        } => overflow(
            *kind,
            *signed,
            *width,
            value_of(memory, registers, a),
            value_of(memory, registers, b),
        ),
        Act::Pair { kind, width, a, b } => pair(
            *kind,
            *width,
            value_of(memory, registers, a),
            value_of(memory, registers, b),
        ),
        Act::Assume { condition } => assumed(value_of(memory, registers, condition)),
        Act::Extract { pair, part } => part_of(*part, held_at(registers, *pair)),
        Act::Hook { arguments } => arguments_pass(memory, registers, arguments.as_slice()),
        _ => Computed::Lost,
    }
}
