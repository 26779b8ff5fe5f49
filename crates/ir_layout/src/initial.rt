//! The initial bytes of objects.
//!
//! A global comes in, with what is kept of the named types; the bytes of its initialiser go out. Nothing is written beyond the
//! object's size, so an initialiser that does not fit its type costs no more than its text and the object.

ghost use Rattle.std.specs.Prelude.{◌≡◌, ◌<◌, ◌≤◌, ◌^◌, ◌++◌, ◌-◌, ◌%◌, if◌then◌else◌, length, replicate, OnOk, IfOk};
ghost use Rattle.std.specs.List.{All};
ghost use Rattle.ir_ast.specs.View.{view_init, view_init_list};
ghost use Rattle.ir_layout.specs.Facts.{look_in, IsKept, no_fields};
ghost use Rattle.ir_layout.specs.Writing as definition;

use crate::fact::{Fact, rounded};
use crate::memory::ObjectBytes;
use crate::types::fact_in;
use ir_ast::{Init, InitList, TypeTable};
use std::alloc::{AllocError, Global};

/// Adds so many zeros.
fn add_zeros(out: &mut Vec<u8>, count: usize) -> Result<(), AllocError>
    ensures { OnOk result (out.new.items ≡ out.old.items ++ replicate count 0) }
{
    for _at in 0..count {
        out.push(0)?;
    }
    Ok(())
}

/// Adds zeros up to the limit.
fn zeros_onto(out: &mut Vec<u8>, limit: usize, count: usize) -> Result<(), AllocError>
    ensures { OnOk result (out.new.items ≡ definition.zeros_onto limit count out.old.items) }
{
    let room = limit.saturating_sub(out.len());
    add_zeros(out, count.min(room))
}

/// The low byte of a number, of which this is the magnitude.
fn low_byte(below: bool, magnitude: u128) -> u8
    ensures { result ≡ (if below then 255 - magnitude % 256 else magnitude % 256) }
{
    let byte = (magnitude % 256) as u8;
    if below { 255 - byte } else { byte }
}

/// Adds so many bytes of a number, the low one first.
fn add_number(
    out: &mut Vec<u8>,
    below: bool,
    count: usize,
    magnitude: u128,
) -> Result<(), AllocError>
    ensures { OnOk result (out.new.items ≡ out.old.items ++ definition.signed_bytes below count magnitude) }
{
    let mut rest = magnitude;
    for _at in 0..count {
        out.push(low_byte(below, rest))?;
        rest /= 256;
    }
    Ok(())
}

/// The number itself, or one less than its distance from 0 where it is below.
fn magnitude_of(number: i128) -> u128
    ensures { result ≡ definition.magnitude number }
{
    if number < 0 {
        (-1 - number) as u128
    } else {
        number as u128
    }
}

fn is_below_zero(number: i128) -> bool
    ensures { result ≡ definition.is_below_zero number }
{
    number < 0
}

/// Adds the bytes of a number up to the limit.
fn number_onto(
    out: &mut Vec<u8>,
    limit: usize,
    count: usize,
    number: i128,
) -> Result<(), AllocError>
    ensures { OnOk result (out.new.items ≡ definition.number_onto limit count number out.old.items) }
{
    let room = limit.saturating_sub(out.len());
    add_number(
        out,
        is_below_zero(number),
        count.min(room),
        magnitude_of(number),
    )
}

/// Adds bytes up to the limit.
fn bytes_onto(out: &mut Vec<u8>, limit: usize, bytes: &[u8]) -> Result<(), AllocError>
    ensures { OnOk result (out.new.items ≡ definition.bytes_onto limit bytes.now out.old.items) }
{
    let room = limit.saturating_sub(out.len());
    let most = bytes.len().min(room);
    out.extend_from_slice(&bytes[..most])
}

/// Writes an initialiser of a type of this size behind what is written.
#[cycle(writing)]
fn write(
    types: &TypeTable,
    facts: &[Fact],
    limit: usize,
    size: usize,
    init: &Init,
    out: &mut Vec<u8>,
) -> Result<(), AllocError>
    requires small { length types.now < 2 ^ 32 }
    requires kept { All IsKept facts.now }
    ensures { OnOk result (out.new.items ≡ definition.write (look_in types.now facts.now) limit size (view_init init.now) out.old.items) }
{
    match init {
        Init::Zero => zeros_onto(out, limit, size),
        Init::Number(number) => number_onto(out, limit, size, *number),
        Init::Truth(truth) => number_onto(out, limit, size, i128::from(*truth)),
        Init::Bytes(bytes) => bytes_onto(out, limit, bytes.items.as_slice()),
        Init::Array(parts) => write_parts(types, facts, limit, parts, out),
        Init::Struct(parts) => write_fields(types, facts, limit, size, parts, out),
        Init::Packed(parts) => write_parts(types, facts, limit, parts, out),
        Init::Pointer => zeros_onto(out, limit, size),
    }
}

/// Writes parts without gaps.
#[cycle(writing)]
fn write_parts(
    types: &TypeTable,
    facts: &[Fact],
    limit: usize,
    parts: &InitList,
    out: &mut Vec<u8>,
) -> Result<(), AllocError>
    requires small { length types.now < 2 ^ 32 }
    requires kept { All IsKept facts.now }
    ensures { OnOk result (out.new.items ≡ definition.write_parts (look_in types.now facts.now) limit (view_init_list parts.now) out.old.items) }
{
    let items = parts.items.as_slice();
    'each: for part in items {
        let size = fact_in(types, facts, &part.0).size as usize;
        write(types, facts, limit, size, &part.1, out)?;
    }
    Ok(())
}

/// Writes the fields of a struct of this size, each behind its gap.
#[cycle(writing)]
fn write_fields(
    types: &TypeTable,
    facts: &[Fact],
    limit: usize,
    size: usize,
    parts: &InitList,
    out: &mut Vec<u8>,
) -> Result<(), AllocError>
    requires small { length types.now < 2 ^ 32 }
    requires kept { All IsKept facts.now }
    ensures { OnOk result (out.new.items ≡ definition.write_fields (look_in types.now facts.now) limit size no_fields (view_init_list parts.now) out.old.items) }
{
    let items = parts.items.as_slice();
    let mut all = Fact::of_no_fields();
    'fields: for part in items {
        let field = fact_in(types, facts, &part.0);
        let gap = rounded(all.size, field.align) - all.size;
        zeros_onto(out, limit, gap as usize)?;
        write(types, facts, limit, field.size as usize, &part.1, out)?;
        all = all.with_field(field);
    }
    zeros_onto(out, limit, size.saturating_sub(all.size as usize))
}

/// The bytes of an initialiser of an object of this size, exactly so many.
pub fn bytes_with(
    alloc: Global,
    types: &TypeTable,
    facts: &[Fact],
    size: u64,
    init: &Init,
) -> Result<ObjectBytes, AllocError>
    requires small { length types.now < 2 ^ 32 }
    requires kept { All IsKept facts.now }
    ensures { IfOk result (λ b. b ≡ definition.bytes_with (look_in types.now facts.now) size (view_init init.now)) }
{
    let limit = size as usize;
    let mut out = Vec::new(alloc);
    out.reserve(limit)?;
    write(types, facts, limit, limit, init, &mut out)?;
    zeros_onto(&mut out, limit, limit)?;
    Ok(ObjectBytes::new(out))
}
