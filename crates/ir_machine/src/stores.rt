//! Stores.

ghost use Rattle.std.specs.Prelude.{◌≡◌, ℕ, List, ◌+◌, ◌<◌, ◌^◌, true, length};
ghost use Rattle.ir_machine.specs.Values as values;
ghost use Rattle.ir_machine.specs.Step as definition;

use crate::computed::{are_bytes, is_aligned, object_at, reached};
use crate::frames::{advanced, with_slot};
use crate::state::{Computed, End, Held, Machine, Next, Written};
use hk_seq::Seq;
use ir_code::Object;
use ir_layout::KMemory;
use ir_value::{Access, StuckReason, Value, is_number_of};

fn put_value(bytes: u32, object: u32, offset: u64, value: Value) -> Written
    requires { values.are_bytes bytes ≡ true }
    ensures written { result ≡ definition.put_value bytes object offset value }
    ensures fits { definition.PutsFit bytes result }
{
    match value {
        Value::Poison => Written::Sticks(StuckReason::U9),
        Value::Number(number) => {
            if is_number_of(8 * bytes, number) {
                Written::Puts {
                    object,
                    offset,
                    number,
                }
            } else {
                Written::Lost
            }
        }
        _ => Written::Lost,
    }
}

fn store_to(objects: &Seq<Object>, bytes: u32, value: Value, access: Access) -> Written
    requires { values.are_bytes bytes ≡ true }
    ensures written { result ≡ definition.store_to objects.now bytes value access }
    ensures fits { (memory : List (List ℕ)) → values.LiesIn memory bytes access → definition.FitsIn memory bytes result }
{
    match access {
        Access::At { object, offset } => {
            if object_at(objects, object).constant {
                Written::Sticks(StuckReason::U13)
            } else {
                put_value(bytes, object, offset, value)
            }
        }
        Access::Not(reason) => Written::Sticks(reason),
        Access::Nowhere => Written::Lost,
    }
}

/// What a store writes.
pub(crate) fn stored(
    memory: &KMemory,
    objects: &Seq<Object>,
    bytes: u32,
    align: u64,
    value: Option<Value>,
    address: Option<Value>,
) -> Written
    ensures written { result ≡ definition.stored memory.now objects.now bytes align value address }
    ensures fits { definition.FitsIn memory.now bytes result }
{
    match (value, address) {
        (Some(value), Some(address)) => {
            if are_bytes(bytes) {
                store_to(
                    objects,
                    bytes,
                    value,
                    reached(memory, objects, bytes, align, address),
                )
            } else {
                Written::Lost
            }
        }
        _ => Written::Lost,
    }
}

/// What a store of so many bytes leads to.
pub(crate) fn after_store(line: u32, machine: Machine, bytes: u32, written: Written) -> Next
    requires room { machine.top.position + 1 < 2 ^ 64 }
    requires fits { definition.FitsIn machine.memory bytes written }
    ensures { result ≡ definition.after_store line machine bytes written }
{
    match written {
        Written::Puts {
            object,
            offset,
            number,
        } => {
            let Machine {
                top,
                below,
                mut memory,
            } = machine;
            memory.store(object, offset, bytes, number);
            let top = advanced(top);
            Next::Going(Machine { top, below, memory })
        }
        Written::Sticks(reason) => Next::Ended(End::Stuck(reason, line)),
        Written::Lost => Next::Ended(End::Lost),
    }
}

fn put_slot(align: u64, value: Value) -> Computed
    ensures { result ≡ definition.put_slot align value }
{
    match value {
        Value::Poison => Computed::Sticks(StuckReason::U9),
        _ => Computed::Sets(Held::Slot {
            align,
            stored: Some(value),
        }),
    }
}

/// What a slot holds after a store into it.
pub(crate) fn slot_stored(align: u64, value: Option<Value>, held: Option<Held>) -> Computed
    ensures { result ≡ definition.slot_stored align value held }
{
    match (value, held) {
        (
            Some(value),
            Some(
                Held::Slot {
                    align: slot_align,
                    ..
                },
            ),
        ) => {
            if is_aligned(align, slot_align) {
                put_slot(slot_align, value)
            } else {
                Computed::Sticks(StuckReason::U7)
            }
        }
        _ => Computed::Lost,
    }
}

/// What a store into a slot leads to.
pub(crate) fn after_slot(line: u32, machine: Machine, slot: u32, computed: Computed) -> Next
    requires { machine.top.position + 1 < 2 ^ 64 }
    ensures { result ≡ definition.after_slot line machine slot computed }
{
    match computed {
        Computed::Sets(held) => {
            let Machine { top, below, memory } = machine;
            let top = with_slot(top, slot, held);
            Next::Going(Machine { top, below, memory })
        }
        Computed::Sticks(reason) => Next::Ended(End::Stuck(reason, line)),
        _ => Next::Ended(End::Lost),
    }
}
