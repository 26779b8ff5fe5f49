//! Loads and stores of a handler, and what they are in its transition.

use crate::draft::{Draft, Operand, Term, Value};
use crate::scene::{Shape, fields_of, map_size};
use crate::slip::Slip;
use std::alloc::{AllocError, Global};

/// When a store is come to.
#[derive(Clone, Copy)]
pub(crate) enum When {
    Always,
    If(Value),
    Unless(Value),
}

/// A number of memory: the field at a place among its fields, and where it is a map the index.
#[derive(Clone, Copy)]
pub(crate) struct Cell {
    pub field: usize,
    pub index: Value,
}

/// The name of the field of a number.
fn field_name(shape: Shape, cell: Cell) -> &'static str {
    fields_of(shape).get(cell.field).copied().unwrap_or("a")
}

/// A number of memory as the copy of the state has it, without its width.
fn read_of(alloc: Global, shape: Shape, cell: Cell) -> Result<String, AllocError> {
    let field = field_name(shape, cell);
    if map_size(shape).is_some() {
        let index = Term(cell.index, 8);
        format!(in alloc; "new.{field}({index})")
    } else {
        format!(in alloc; "new.{field}")
    }
}

/// A number of memory as the left side of a line.
fn target_of(alloc: Global, shape: Shape, cell: Cell) -> Result<String, AllocError> {
    let field = field_name(shape, cell);
    if map_size(shape).is_some() {
        let index = Term(cell.index, 8);
        format!(in alloc; "new.{field}[{index}]")
    } else {
        format!(in alloc; "new.{field}")
    }
}

/// The index as a number of 64 bits.
fn wide_index(draft: &mut Draft, index: Value) -> Result<Value, AllocError> {
    if let Value::Constant(_) = index {
        return Ok(index);
    }
    let alloc = draft.alloc;
    let index = Operand(index);
    let code = format!(in alloc; "zext i8 {index} to i64")?;
    draft.compute(code.as_str())
}

/// The element type of an array of so many, and what stands behind its index.
fn element_of(shape: Shape) -> (&'static str, &'static str) {
    match shape {
        Shape::Single => ("[1 x i8]", ""),
        Shape::Row => ("[1 x %row]", ", i32 0"),
        _ => ("[2 x i8]", ""),
    }
}

/// The address of an element of an array.
fn element_pointer(draft: &mut Draft, shape: Shape, index: Value) -> Result<Value, AllocError> {
    let alloc = draft.alloc;
    let wide = wide_index(draft, index)?;
    let wide = Operand(wide);
    let (array, behind) = element_of(shape);
    let inbounds = if draft.random.once_in(2) {
        " inbounds"
    } else {
        ""
    };
    let code = format!(in alloc;
        "getelementptr{inbounds} {array}, ptr @a, i64 0, i64 {wide}{behind}"
    )?;
    draft.compute(code.as_str())
}

/// The address of a field of the structure.
fn member_pointer(draft: &mut Draft, place: usize) -> Result<Value, AllocError> {
    let alloc = draft.alloc;
    let code = format!(in alloc; "getelementptr inbounds %pair, ptr @a, i64 0, i32 {place}")?;
    draft.compute(code.as_str())
}

/// The address of a number of memory.
fn pointer_to(draft: &mut Draft, shape: Shape, cell: Cell) -> Result<String, AllocError> {
    let alloc = draft.alloc;
    let pointer = match shape {
        Shape::Single | Shape::Row | Shape::Array => element_pointer(draft, shape, cell.index)?,
        Shape::Pair => member_pointer(draft, cell.field)?,
        Shape::Two if cell.field == 1 => return String::from_str(alloc, "@b"),
        _ => return String::from_str(alloc, "@a"),
    };
    let pointer = Operand(pointer);
    format!(in alloc; "{pointer}")
}

/// How far a number of so many bits at an index is from the low end of its byte.
fn distance(draft: &mut Draft, unit: u32, index: Value) -> Result<Value, AllocError> {
    match index {
        Value::Constant(place) => Ok(Value::Constant(place.wrapping_mul(u64::from(unit)))),
        _ => {
            let alloc = draft.alloc;
            let index = Operand(index);
            let code = format!(in alloc; "mul i8 {index}, {unit}")?;
            draft.compute(code.as_str())
        }
    }
}

/// The greatest number of so many bits: 1, 2 or 4.
fn greatest(unit: u32) -> u32 {
    match unit {
        1 => 1,
        2 => 3,
        _ => 15,
    }
}

/// Loads a number of so many bits out of the byte.
fn load_bits(draft: &mut Draft, unit: u32, away: Value, read: &str) -> Result<Value, AllocError> {
    let alloc = draft.alloc;
    let byte = Operand(draft.compute("load i8, ptr @a")?);
    let away = Operand(away);
    let code = format!(in alloc; "lshr i8 {byte}, {away}")?;
    let low = Operand(draft.compute(code.as_str())?);
    let mask = greatest(unit);
    let code = format!(in alloc; "and i8 {low}, {mask}")?;
    let more = 8u32.saturating_sub(unit);
    let term = format!(in alloc; "ZeroExt({more}, {read})")?;
    draft.define(code.as_str(), term.as_str())
}

/// How far a number is from the low end of its byte, and how many bits it has, where it is a part of a byte.
fn part_of(
    draft: &mut Draft,
    shape: Shape,
    cell: Cell,
) -> Result<Option<(Value, u32)>, AllocError> {
    match shape {
        Shape::Halves if cell.field == 0 => Ok(Some((Value::Constant(0), 4))),
        Shape::Halves => Ok(Some((Value::Constant(4), 4))),
        Shape::Packed(unit) => {
            let away = distance(draft, unit, cell.index)?;
            Ok(Some((away, unit)))
        }
        _ => Ok(None),
    }
}

/// Loads a number of memory.
pub(crate) fn load(draft: &mut Draft, shape: Shape, cell: Cell) -> Result<Value, AllocError> {
    let alloc = draft.alloc;
    let read = read_of(alloc, shape, cell)?;
    if let Some(part) = part_of(draft, shape, cell)? {
        return load_bits(draft, part.1, part.0, read.as_str());
    }
    let pointer = pointer_to(draft, shape, cell)?;
    let width = draft.width;
    let code = format!(in alloc; "load i{width}, ptr {pointer}")?;
    draft.define(code.as_str(), read.as_str())
}

/// The byte with zeros in place of so many bits.
fn without_bits(draft: &mut Draft, unit: u32, away: Value) -> Result<Value, AllocError> {
    let alloc = draft.alloc;
    let byte = Operand(draft.compute("load i8, ptr @a")?);
    let mask = greatest(unit);
    let away = Operand(away);
    let code = format!(in alloc; "shl i8 {mask}, {away}")?;
    let hole = Operand(draft.compute(code.as_str())?);
    let code = format!(in alloc; "xor i8 {hole}, 255")?;
    let kept = Operand(draft.compute(code.as_str())?);
    let code = format!(in alloc; "and i8 {byte}, {kept}")?;
    draft.compute(code.as_str())
}

/// The low bits of a value where they are to stand.
fn moved_bits(
    draft: &mut Draft,
    unit: u32,
    away: Value,
    value: Value,
) -> Result<Value, AllocError> {
    let alloc = draft.alloc;
    let mask = greatest(unit);
    let value = Operand(value);
    let code = format!(in alloc; "and i8 {value}, {mask}")?;
    let low = Operand(draft.compute(code.as_str())?);
    let away = Operand(away);
    let code = format!(in alloc; "shl i8 {low}, {away}")?;
    draft.compute(code.as_str())
}

/// The byte with the low bits of a value in it.
fn with_bits(draft: &mut Draft, unit: u32, away: Value, value: Value) -> Result<Value, AllocError> {
    let alloc = draft.alloc;
    let others = without_bits(draft, unit, away)?;
    let moved = moved_bits(draft, unit, away, value)?;
    let others = Operand(others);
    let moved = Operand(moved);
    let code = format!(in alloc; "or i8 {others}, {moved}")?;
    draft.compute(code.as_str())
}

/// Stores a value, unless that is left out.
fn put_store(draft: &mut Draft, value: Value, pointer: &str) -> Result<(), AllocError> {
    if draft.slips(Slip::Store) {
        return Ok(());
    }
    let alloc = draft.alloc;
    let width = draft.width;
    let value = Operand(value);
    let code = format!(in alloc; "store i{width} {value}, ptr {pointer}")?;
    draft.put_code(code.as_str())
}

/// What a field of so many bits is to hold of a value.
fn stored_term(alloc: Global, width: u32, value: Value, part: u32) -> Result<String, AllocError> {
    let term = Term(value, width);
    if part < width {
        let high = part.saturating_sub(1);
        format!(in alloc; "Extract({high}, 0, {term})")
    } else {
        format!(in alloc; "{term}")
    }
}

/// The line of a store.
fn put_write(
    draft: &mut Draft,
    shape: Shape,
    cell: Cell,
    stored: &str,
    when: When,
) -> Result<(), AllocError> {
    let alloc = draft.alloc;
    let target = target_of(alloc, shape, cell)?;
    let read = read_of(alloc, shape, cell)?;
    let line = match when {
        When::Always => format!(in alloc; "{target} = {stored}")?,
        When::If(test) => {
            let test = Term(test, 1);
            format!(in alloc; "{target} = If({test}, {stored}, {read})")?
        }
        When::Unless(test) => {
            let test = Term(test, 1);
            format!(in alloc; "{target} = If({test}, {read}, {stored})")?
        }
    };
    draft.put_line(line.as_str())
}

/// The line that writes what follows from the byte, where there is such a field.
fn put_derived(draft: &mut Draft, shape: Shape) -> Result<(), AllocError> {
    if shape != Shape::Flagged || draft.slips(Slip::Derived) {
        return Ok(());
    }
    draft.put_line("new.z = If(new.a == 0, BitVecVal(1, 1), BitVecVal(0, 1))")
}

/// Stores a value as a number of memory.
pub(crate) fn store(
    draft: &mut Draft,
    shape: Shape,
    cell: Cell,
    value: Value,
    when: When,
) -> Result<(), AllocError> {
    let alloc = draft.alloc;
    let width = draft.width;
    match part_of(draft, shape, cell)? {
        Some((away, unit)) => {
            let byte = with_bits(draft, unit, away, value)?;
            put_store(draft, byte, "@a")?;
            let stored = stored_term(alloc, width, value, unit)?;
            put_write(draft, shape, cell, stored.as_str(), when)
        }
        None => {
            let pointer = pointer_to(draft, shape, cell)?;
            put_store(draft, value, pointer.as_str())?;
            let stored = stored_term(alloc, width, value, width)?;
            put_write(draft, shape, cell, stored.as_str(), when)?;
            put_derived(draft, shape)
        }
    }
}
