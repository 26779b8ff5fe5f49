//! What operands stand for.

ghost use Rattle.std.specs.Prelude.{◌≡◌, Some, drop};
ghost use Rattle.ir_machine.specs.Values as definition;

use crate::state::Held;
use hk_seq::Seq;
use ir_code::{Base, Input, Move};
use ir_layout::KMemory;
use ir_value::{Value, begin, step};

/// What the register at a place holds.
pub(crate) fn held_at(registers: &Seq<Option<Held>>, place: u32) -> Option<Held>
    ensures { result ≡ definition.held_at registers.now place }
{
    match registers.as_slice().get(place as usize) {
        Some(held) => *held,
        None => None,
    }
}

fn value_held(held: Option<Held>) -> Option<Value>
    ensures { result ≡ definition.value_held held }
{
    match held {
        Some(Held::Value(value)) => Some(value),
        _ => None,
    }
}

fn base_value(registers: &Seq<Option<Held>>, base: Base) -> Option<Value>
    ensures { result ≡ definition.base_value registers.now base }
{
    match base {
        Base::Register(place) => value_held(held_at(registers, place)),
        Base::Constant(value) => Some(value),
        Base::Unknown => None,
    }
}

/// The size of an object, in bytes; 0 where there is none.
pub(crate) fn size_of(memory: &KMemory, object: u32) -> u64
    ensures { result ≡ definition.size_of memory.now object }
{
    if (object as usize) < memory.objects() {
        memory.bytes(object).len() as u64
    } else {
        0
    }
}

/// The size of the object that an address points to.
pub(crate) fn size_at(memory: &KMemory, value: Value) -> u64
    ensures { result ≡ definition.size_at memory.now value }
{
    match value {
        Value::Address { object, .. } => size_of(memory, object),
        _ => 0,
    }
}

fn moved(memory: &KMemory, registers: &Seq<Option<Held>>, by: Move, value: Value) -> Option<Value>
    ensures { result ≡ definition.moved memory.now registers.now by value }
{
    match by {
        Move::Begin { inbounds } => Some(begin(inbounds, size_at(memory, value), value)),
        Move::By {
            inbounds,
            nuw,
            width,
            each,
            index,
        } => match base_value(registers, index) {
            Some(index) => {
                let size = size_at(memory, value);
                Some(step(inbounds, nuw, size, width, each, index, value))
            }
            None => None,
        },
    }
}

fn moved_all(
    memory: &KMemory,
    registers: &Seq<Option<Held>>,
    base: Value,
    moves: &[Move],
) -> Option<Value>
    ensures { result ≡ definition.moved_all memory.now registers.now (Some base) moves.now }
{
    let mut value = base;
    for by in moves {
        match moved(memory, registers, *by, value) {
            Some(next) => value = next,
            None => return None,
        }
    }
    Some(value)
}

/// What an operand stands for.
pub(crate) fn value_of(
    memory: &KMemory,
    registers: &Seq<Option<Held>>,
    input: &Input,
) -> Option<Value>
    ensures { result ≡ definition.value_of memory.now registers.now input.now }
{
    match base_value(registers, input.base) {
        Some(base) => moved_all(memory, registers, base, input.moves.as_slice()),
        None => None,
    }
}
