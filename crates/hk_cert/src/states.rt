//! State blocks.

ghost use Rattle.std.specs.Prelude.{◌≡◌, ◌+◌, ◌++◌, ◌<◌, ◌≤◌, ◌^◌, [], map, length, All, IfOk, IfErr, IfSome, MatchOption, OnOk, Ok, slice_set};
ghost use Rattle.hk_cnf.specs.Text.{lines_of};
ghost use Rattle.ir_ast.specs.ProgramView.{view_global};
ghost use Rattle.spec_tree.specs.Sorted.{IsSize, IsNest, key_sizes};
ghost use Rattle.spec_tree.specs.View.{view_field, view_key};
ghost use Rattle.hk_cert_lines.specs.Blocks as lines;
ghost use Rattle.hk_cert.specs.Steps.{line_at, place_of, Gives, FailsAs, Stops};
ghost use Rattle.hk_cert.specs.States as definition;

use crate::at::{At, next_line, refused, stopped};
use crate::fault::CertStop;
use hk_cert_lines::CertReason;
use hk_cert_lines::blocks::{
    arg_at, entry_at, entry_front, push_hex, row_at, row_front, shown_name,
};
use hk_seq::Seq;
use ir_ast::GlobalItem;
use ir_layout::ObjectBytes;
use spec_tree::Field;
use spec_value::EntryList;
use std::alloc::{AllocError, Global};

/// The number of a parameter.
fn arg<'t>(k: u64, width: u32, at: At<'t>) -> Result<(u64, At<'t>), CertStop>
    ensures { Gives (λ n. n) result (line_at (lines.arg_at k width) (place_of at.entry)) }
{
    let Some((line, after)) = next_line(at)? else {
        return Err(refused(at.line, CertReason::Q1));
    };
    match arg_at(k, width, line) {
        Ok(number) => Ok((number, after)),
        Err(reason) => Err(refused(at.line, reason)),
    }
}

/// Reads the line of each parameter, of these widths in bits, and gives their numbers.
pub fn args<'t>(alloc: Global, widths: &[u32], at: At<'t>) -> Result<(Seq<u64>, At<'t>), CertStop>
    ensures { Gives (λ args. args) result (definition.args_from [] 0 widths.now (place_of at.entry)) }
{
    let mut args = Seq::new(alloc);
    let mut text = at.text;
    let mut line = at.line;
    for (k, width) in widths.iter().enumerate() {
        let (number, after) = arg(k as u64, *width, At { text, line })?;
        args.push(number)?;
        text = after.text;
        line = after.line;
    }
    Ok((args, At { text, line }))
}

/// Adds zeros up to a length.
fn pad(bytes: &mut Vec<u8>, length: u64) -> Result<(), AllocError>
    ensures { OnOk result (bytes.new.items ≡ definition.padded length bytes.old.items) }
{
    let missing = length.saturating_sub(bytes.len() as u64);
    for _k in 0..missing {
        bytes.push(0)?;
    }
    Ok(())
}

/// Adds a row, and the zeros in front of it.
fn add_row(bytes: &mut Vec<u8>, offset: u64, hex: &[u8]) -> Result<(), AllocError>
    ensures { OnOk result (bytes.new.items ≡ definition.with_row bytes.old.items (offset, hex.now)) }
{
    pad(bytes, offset)?;
    push_hex(bytes, hex)
}

/// Reads the next row of an object of this size, where the line is one.
fn row<'t>(
    shown: &[u8],
    size: u64,
    bytes: &mut Vec<u8>,
    at: At<'t>,
) -> Result<Option<At<'t>>, CertStop>
    ensures found { IfOk result (λ found. MatchOption found
        (definition.rows_from shown.now size bytes.old.items at.entry.line (lines_of at.entry.text.now) ≡ Ok (definition.padded size bytes.new.items, place_of at.entry))
        (λ after. definition.rows_from shown.now size bytes.old.items at.entry.line (lines_of at.entry.text.now)
        ≡ definition.rows_from shown.now size bytes.new.items after.line (lines_of after.text.now))) }
    ensures shorter { IfOk result (λ found. IfSome found (λ after. length after.text.now < length at.entry.text.now)) }
    ensures err { IfErr result (λ stop. FailsAs stop (definition.rows_from shown.now size bytes.old.items at.entry.line (lines_of at.entry.text.now))) }
{
    let Some((line, after)) = next_line(at)? else {
        return Ok(None);
    };
    let Some(rest) = row_front(shown, line) else {
        return Ok(None);
    };
    match row_at(bytes.len() as u64, size, rest) {
        Ok((offset, hex)) => {
            add_row(bytes, offset, hex)?;
            Ok(Some(after))
        }
        Err(reason) => Err(refused(at.line, reason)),
    }
}

/// Reads the rows of an object of this size, whose name is shown so.
fn rows<'t>(
    alloc: Global,
    shown: &[u8],
    size: u64,
    at: At<'t>,
) -> Result<(ObjectBytes, At<'t>), CertStop>
    ensures { Gives (λ bytes. bytes) result (definition.rows_from shown.now size [] at.entry.line (lines_of at.entry.text.now)) }
{
    let mut bytes = Vec::new(alloc);
    let mut text = at.text;
    let mut line = at.line;
    while let Some(after) = row(shown, size, &mut bytes, At { text, line })? {
        text = after.text;
        line = after.line;
    }
    pad(&mut bytes, size)?;
    Ok((ObjectBytes::new(bytes), At { text, line }))
}

/// Reads the rows of a global with these initial bytes, and gives the bytes of its object: what is left out is zero, and a constant has
/// its initial bytes and no rows.
pub fn object<'t>(
    alloc: Global,
    global: &GlobalItem,
    initial: &[u8],
    at: At<'t>,
) -> Result<(ObjectBytes, At<'t>), CertStop>
    ensures { Gives (λ bytes. bytes) result (definition.object_at (view_global global.now) initial.now (place_of at.entry)) }
{
    if global.constant {
        let bytes = Vec::from_slice(alloc, initial)?;
        return Ok((ObjectBytes::new(bytes), at));
    }
    let shown = shown_name(alloc, global.name.as_bytes())?;
    rows(alloc, &shown, initial.len() as u64, at)
}

/// The place behind this one. Where 64 bits do not hold it, it is want of memory.
fn place_behind(place: u64) -> Result<u64, CertStop>
    ensures ok { IfOk result (λ next. next ≡ place + 1) }
    ensures err { IfErr result Stops }
{
    match place.checked_add(1) {
        Some(next) => Ok(next),
        None => Err(CertStop::Memory),
    }
}

/// Reads the next entry of a field, where the line is one.
fn entry<'t>(
    alloc: Global,
    field: &Field,
    entries: &mut Vec<u64>,
    low: u64,
    at: At<'t>,
) -> Result<Option<(u64, At<'t>)>, CertStop>
    requires some { All (λ k. IsSize k.size) (map view_key field.now.keys) }
    requires few { IsNest (key_sizes (map view_key field.now.keys)) }
    ensures found { IfOk result (λ found. MatchOption found
        (definition.entries_from (view_field field.now) entries.old.items low at.entry.line (lines_of at.entry.text.now) ≡ Ok (entries.new.items, place_of at.entry))
        (λ after. definition.entries_from (view_field field.now) entries.old.items low at.entry.line (lines_of at.entry.text.now)
        ≡ definition.entries_from (view_field field.now) entries.new.items after.0 after.1.line (lines_of after.1.text.now))) }
    ensures shorter { IfOk result (λ found. IfSome found (λ after. length after.1.text.now < length at.entry.text.now)) }
    ensures err { IfErr result (λ stop. FailsAs stop (definition.entries_from (view_field field.now) entries.old.items low at.entry.line (lines_of at.entry.text.now))) }
{
    let Some((line, after)) = next_line(at)? else {
        return Ok(None);
    };
    let keys = field.keys.as_slice();
    let Some(rest) = entry_front(field.name.as_bytes(), keys, line) else {
        return Ok(None);
    };
    match entry_at(alloc, low, keys, field.width, rest) {
        Ok((place, number)) => {
            let next = place_behind(place)?;
            set(entries, place, number);
            Ok(Some((next, after)))
        }
        Err(stop) => Err(stopped(at.line, stop)),
    }
}

/// Sets an entry; a place behind the last one changes nothing.
fn set(entries: &mut Vec<u64>, place: u64, number: u64)
    ensures { entries.new.items ≡ slice_set entries.old.items place number }
{
    if place < entries.len() as u64 {
        entries[place as usize] = number;
    }
}

/// Adds so many zeros.
fn zeros(alloc: Global, count: u64) -> Result<Vec<u64>, AllocError>
    ensures { IfOk result (λ zeros. zeros.items ≡ definition.zeros count) }
{
    let mut zeros = Vec::new(alloc);
    for _k in 0..count {
        zeros.push(0)?;
    }
    Ok(zeros)
}

/// Reads the entries of a field, which has so many, in ascending order of their indices; what is left out is zero.
///
/// The conditions are sizes of a field's keys.
pub fn entries<'t>(
    alloc: Global,
    field: &Field,
    count: u64,
    at: At<'t>,
) -> Result<(EntryList, At<'t>), CertStop>
    requires some { All (λ k. IsSize k.size) (map view_key field.now.keys) }
    requires few { IsNest (key_sizes (map view_key field.now.keys)) }
    ensures { Gives (λ entries. entries) result (definition.entries_from (view_field field.now) (definition.zeros count) 0 at.entry.line (lines_of at.entry.text.now)) }
{
    let mut entries = zeros(alloc, count)?;
    let mut low = 0;
    let mut text = at.text;
    let mut line = at.line;
    while let Some((next, after)) = entry(alloc, field, &mut entries, low, At { text, line })? {
        low = next;
        text = after.text;
        line = after.line;
    }
    Ok((EntryList::of(entries), At { text, line }))
}
