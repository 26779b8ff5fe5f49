//! What terms tell of a run, beside what it came to.

ghost use Rattle.hk_term.specs.Meaning.{reading_of};
ghost use Rattle.hk_term.specs.Room.{IsFor};

use crate::executed::{Execution, Part, whole_width};
use hk_term::{TermId, Terms, Valuation, ValueRoom};
use ir_kernel::RunEnd;
use ir_layout::KMemory;
use std::alloc::{AllocError, Global};

/// The value of a term; 0 where it is not in the list.
pub fn value_of(terms: &Terms, v: &Valuation, t: TermId, room: &mut ValueRoom) -> u64
    requires room { IsFor terms.now (reading_of v.now) room.old }
    ensures room { IsFor terms.now (reading_of v.now) room.new }
{
    if t.place() < terms.len() {
        terms.value_with(v, t, room)
    } else {
        0
    }
}

/// The number that a part of a memory holds, where the memory has the part.
fn loaded(memory: &KMemory, part: &Part) -> Option<u64> {
    if part.object as usize >= memory.objects() {
        return None;
    }
    let bytes = whole_width(part.bytes);
    let len = memory.bytes(part.object).len() as u64;
    if part.offset > len || len - part.offset < u64::from(bytes) {
        return None;
    }
    Some(memory.load(part.object, part.offset, bytes))
}

/// Whether the terms of a memory are what it holds.
fn is_memory(executed: &Execution, v: &Valuation, memory: &KMemory, room: &mut ValueRoom) -> bool
    requires room { IsFor executed.now.terms (reading_of v.now) room.old }
{
    for part in executed.parts.as_slice() {
        let told = value_of(&executed.terms, v, part.term, room);
        if loaded(memory, part) != Some(told) {
            return false;
        }
    }
    true
}

/// Whether the terms of a result are what was returned.
fn is_number(executed: &Execution, v: &Valuation, number: Option<u64>, room: &mut ValueRoom) -> bool
    requires room { IsFor executed.now.terms (reading_of v.now) room.old }
    ensures room { IsFor executed.now.terms (reading_of v.now) room.new }
{
    match (number, executed.number) {
        (Some(number), Some(t)) => value_of(&executed.terms, v, t, room) == number,
        (Some(_), None) => false,
        (None, _) => true,
    }
}

/// Whether the terms, under a valuation, say of a run what it came to.
pub fn agrees(
    alloc: Global,
    executed: &Execution,
    v: &Valuation,
    end: &RunEnd,
) -> Result<bool, AllocError> {
    let mut room = ValueRoom::new(alloc, &executed.terms)?;
    let undefined = value_of(&executed.terms, v, executed.undefined, &mut room) == 1;
    match end {
        RunEnd::Stuck { .. } => Ok(undefined),
        RunEnd::Lost => Ok(false),
        RunEnd::Returned { value, memory } => {
            if undefined || !is_number(executed, v, *value, &mut room) {
                return Ok(false);
            }
            Ok(is_memory(executed, v, memory, &mut room))
        }
    }
}
