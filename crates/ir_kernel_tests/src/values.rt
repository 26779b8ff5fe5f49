//! What operations on values give: the calls of `ir_value` that rows name.

use crate::words::{
    bounds, comparison, conversion, long, operation, overflow, pair_kind, predicate, short, value,
};
use ir_value::{
    Access, Made, Value, assumes, begin, binary, compare_numbers, compare_pointers, convert,
    freeze, pair, reach, select, step, with_overflow,
};
use std::alloc::{AllocError, Global};

fn binary_row(over: &str, w: &str, a: &str, b: &str) -> Option<Made> {
    let (kind, flags) = operation(over)?;
    Some(binary(flags, kind, short(w)?, value(a)?, value(b)?))
}

fn numbers_row(over: &str, w: &str, a: &str, b: &str) -> Option<Made> {
    let (samesign, over) = comparison(over)?;
    Some(compare_numbers(samesign, over, short(w)?, value(a)?, value(b)?))
}

fn pointers_row(over: &str, size_a: &str, size_b: &str, a: &str, b: &str) -> Option<Made> {
    let over = predicate(over)?;
    Some(compare_pointers(over, long(size_a)?, long(size_b)?, value(a)?, value(b)?))
}

fn convert_row(over: &str, from: &str, to: &str, a: &str) -> Option<Made> {
    let (kind, flags) = conversion(over)?;
    Some(convert(flags, kind, short(from)?, short(to)?, value(a)?))
}

fn overflow_row(over: &str, w: &str, part: &str, a: &str, b: &str) -> Option<Made> {
    let (kind, signed) = overflow(over)?;
    Some(with_overflow(kind, signed, short(w)?, short(part)?, value(a)?, value(b)?))
}

fn pair_row(over: &str, w: &str, a: &str, b: &str) -> Option<Made> {
    Some(pair(pair_kind(over)?, short(w)?, value(a)?, value(b)?))
}

fn begin_row(over: &str, size: &str, base: &str) -> Option<Made> {
    let (inbounds, _) = bounds(over)?;
    Some(Made::Gives(begin(inbounds, long(size)?, value(base)?)))
}

fn step_row(over: &str, size: &str, w: &str, each: &str, index: &str, base: &str) -> Option<Made> {
    let (inbounds, nuw) = bounds(over)?;
    let (size, w, each) = (long(size)?, short(w)?, long(each)?);
    Some(Made::Gives(step(inbounds, nuw, size, w, each, value(index)?, value(base)?)))
}

/// What an operation of a row gives.
fn made_of(fields: &[&str]) -> Option<Made> {
    match fields {
        ["binary", over, w, a, b] => binary_row(over, w, a, b),
        ["compare_numbers", over, w, a, b] => numbers_row(over, w, a, b),
        ["pair", over, w, a, b] => pair_row(over, w, a, b),
        ["convert", over, from, to, a] => convert_row(over, from, to, a),
        ["freeze", a] => Some(freeze(value(a)?)),
        ["select", condition, a, b] => Some(select(value(condition)?, value(a)?, value(b)?)),
        _ => wider_row(fields),
    }
}

/// What an operation of more operands, or on addresses, gives.
fn wider_row(fields: &[&str]) -> Option<Made> {
    match fields {
        ["compare_pointers", over, size_a, size_b, a, b] => pointers_row(
            over, size_a, size_b, a, b,
        ),
        ["with_overflow", over, w, part, a, b] => overflow_row(over, w, part, a, b),
        ["begin", over, size, base] => begin_row(over, size, base),
        ["step", over, size, w, each, index, base] => step_row(over, size, w, each, index, base),
        _ => None,
    }
}

/// What an access reaches.
fn access_of(fields: &[&str]) -> Option<Access> {
    match fields {
        ["reach", size, object_align, bytes, align, address] => Some(reach(
            long(size)?,
            long(object_align)?,
            long(bytes)?,
            long(align)?,
            value(address)?,
        )),
        _ => None,
    }
}

/// Whether the condition of an assumption is true.
fn assumed(fields: &[&str]) -> Option<bool> {
    match fields {
        ["assumes", condition] => Some(assumes(value(condition)?)),
        _ => None,
    }
}

/// A value as a row writes it.
pub fn value_text(alloc: Global, is: Value) -> Result<String, AllocError> {
    match is {
        Value::Number(n) => format!(in alloc; "{n}"),
        Value::Null => String::from_str(alloc, "null"),
        Value::Poison => String::from_str(alloc, "poison"),
        Value::Address { object, offset } => format!(in alloc; "@{object}+{offset}"),
    }
}

fn made_text(alloc: Global, made: Made) -> Result<String, AllocError> {
    match made {
        Made::Gives(is) => value_text(alloc, is),
        Made::Sticks(reason) => format!(in alloc; "stuck {reason:?}"),
        Made::Lost => String::from_str(alloc, "lost"),
    }
}

fn access_text(alloc: Global, access: Access) -> Result<String, AllocError> {
    match access {
        Access::At { object, offset } => format!(in alloc; "@{object}+{offset}"),
        Access::Not(reason) => format!(in alloc; "stuck {reason:?}"),
        Access::Nowhere => String::from_str(alloc, "nowhere"),
    }
}

/// The answer to a row over values.
pub fn value_answer(alloc: Global, fields: &[&str]) -> Result<Option<String>, AllocError> {
    if let Some(made) = made_of(fields) {
        return Ok(Some(made_text(alloc, made)?));
    }
    if let Some(access) = access_of(fields) {
        return Ok(Some(access_text(alloc, access)?));
    }
    match assumed(fields) {
        Some(holds) => Ok(Some(format!(in alloc; "{holds}")?)),
        None => Ok(None),
    }
}
