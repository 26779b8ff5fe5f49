//! Where an entry of a field is read.

use crate::fitting::is_below;
use crate::parts::Part;
use hk_seq::Seq;
use hk_term::{Node, TermId, Terms, Valuation};
use spec_tree::{Sort, Spec};
use std::alloc::{AllocError, Global};

/// The first variable that stands for an index; arguments have ids below it.
pub const FIRST_INDEX: u32 = 100;

/// The most index tuples of a field that are read one by one.
const TUPLES: u64 = 64;

/// Where an entry is read: at an index that is a variable for each key, or at the index tuple with a number.
#[derive(Clone, Copy, Debug)]
pub enum At {
    Variables,
    Tuple(u64),
}

/// The low bits of a number.
pub fn low(number: u64, bits: u32) -> u64 {
    if bits == 0 {
        0
    } else if bits < 64 {
        number & (u64::MAX >> (64 - bits))
    } else {
        number
    }
}

/// The sorts of a field's keys; none where there is no such field.
fn keys_of(spec: &Spec, field: u32) -> &[Sort] {
    match spec.fields.as_slice().get(field as usize) {
        Some(field) => field.keys.as_slice(),
        None => &[],
    }
}

/// The sorts of the keys of the entries that a part reads.
pub fn keys_in(spec: &Spec, part: Part) -> &[Sort] {
    match part {
        Part::Field(f) => keys_of(spec, f),
        Part::FieldBehind(_, f) => keys_of(spec, f),
        _ => &[],
    }
}

/// How many indices a key has, and 1 where it has none.
fn size_of(key: &Sort) -> u64 {
    match key.size {
        Some(size) => u64::from(size).max(1),
        None => 1,
    }
}

/// How many index tuples keys have.
fn tuples_of(keys: &[Sort]) -> u64 {
    let mut count: u64 = 1;
    for key in keys {
        count = count.saturating_mul(size_of(key));
    }
    count
}

/// How many index tuples of these keys are read one by one: all, or the first ones, and none where there is no key.
pub fn tuples_in(keys: &[Sort]) -> u64 {
    if keys.is_empty() {
        0
    } else {
        tuples_of(keys).min(TUPLES)
    }
}

/// The index tuple with a number: the last index grows first.
fn tuple_of(alloc: Global, keys: &[Sort], k: u64) -> Result<Vec<u64>, AllocError> {
    let mut tuple = Vec::new(alloc);
    let mut stride = tuples_of(keys);
    let mut rest = k;
    for key in keys {
        let size = size_of(key);
        stride = (stride / size.max(1)).max(1);
        tuple.push(rest / stride)?;
        rest = rest % stride;
    }
    Ok(tuple)
}

/// The constant of a number of a width.
fn constant(t: &mut Terms, bits: u32, value: u64) -> Result<TermId, AllocError> {
    let width = bits.clamp(1, 64);
    if !is_below(width, value) {
        return Err(AllocError);
    }
    let made = t.intern(Node::Const { width, value })?;
    Ok(made)
}

/// A variable of a width.
fn variable(t: &mut Terms, bits: u32, id: u32) -> Result<TermId, AllocError> {
    let width = bits.clamp(1, 64);
    let made = t.intern(Node::Var { width, id })?;
    Ok(made)
}

/// The term of an index: a constant where it has a number, and else a variable.
fn index_term(
    t: &mut Terms,
    key: &Sort,
    id: u32,
    number: Option<u64>,
) -> Result<TermId, AllocError> {
    match number {
        Some(value) => constant(t, key.width, value),
        None => variable(t, key.width, id),
    }
}

/// Terms for the indices at a place.
pub fn index_terms(
    alloc: Global,
    t: &mut Terms,
    keys: &[Sort],
    at: At,
) -> Result<Seq<TermId>, AllocError> {
    let tuple = match at {
        At::Variables => Vec::new(alloc),
        At::Tuple(k) => tuple_of(alloc, keys, k)?,
    };
    let mut terms = Seq::new(alloc);
    let mut id = FIRST_INDEX;
    for (k, key) in keys.iter().enumerate() {
        terms.push(index_term(t, key, id, tuple.get(k).copied())?)?;
        id = id.saturating_add(1);
    }
    Ok(terms)
}

/// The number among a field's entries of the index tuple that a valuation gives to variables; none where an index is not below its size.
fn number_of(keys: &[Sort], v: &Valuation) -> Option<u64> {
    let mut number: u64 = 0;
    let mut id = FIRST_INDEX;
    for key in keys {
        let size = u64::from(key.size.unwrap_or(0));
        let index = low(v.vars.get(id), key.width);
        if index >= size {
            return None;
        }
        number = number.saturating_mul(size).saturating_add(index);
        id = id.saturating_add(1);
    }
    Some(number)
}

/// The number among a field's entries of the index at a place under a valuation.
pub fn place_at(keys: &[Sort], at: At, v: &Valuation) -> Option<u64> {
    match at {
        At::Variables => number_of(keys, v),
        At::Tuple(k) => Some(k),
    }
}
