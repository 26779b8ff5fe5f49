//! Rows of machine states on a sink. Globals come in with their bytes; out go the rows that are not all zero, a line each.

ghost use Rattle.std.specs.Prelude.{◌≡◌, ◌≤◌, ◌<◌, ◌^◌, ◌*◌, length, OnOk, OnErr, ◌==◌};
ghost use Rattle.std.specs.List.{list_all};
ghost use Rattle.hk_io.specs.Faults.{Rose};
ghost use Rattle.hk_io.specs.Shown.{shown_with, ShowsPrefix};
ghost use Rattle.hk_rows.specs.Rows.{row_line, row_text, row_of, global_text, object_text, memory_text};
ghost use Rattle.ir_ast.specs.ProgramView.{view_entries, view_global};
ghost use Rattle.ir_layout.specs.Bytes.{object_of};

use crate::line::{Part, put_line};
use hk_io::{Sink, SinkFault};
use ir_ast::{GlobalItem, GlobalTable};
use ir_layout::KMemory;

/// Puts the line of a row of a global.
fn put_row_line<'x, O: Sink>(
    out: &mut O,
    name: &'x [u8],
    offset: usize,
    row: &'x [u8],
) -> Result<(), SinkFault>
    ensures whole { OnOk result (O.shown out.new ≡ shown_with (O.shown out.old) (row_line name.now offset row.now)) }
    ensures cut { OnErr result (ShowsPrefix (O.shown out.old) (O.shown out.new) (row_line name.now offset row.now)) }
    ensures failed { OnErr result (Rose (O.faults out.old) (O.faults out.new)) }
    ensures still { OnOk result (O.faults out.new ≡ O.faults out.old) }
    ensures later { O.faults out.old ≤ O.faults out.new }
    ensures fits { O.faults out.new < 2 ^ 64 }
{
    let parts = [
        Part::Text(b"  @"),
        Part::Name(name),
        Part::Text(b"+"),
        Part::Decimal(offset as u64),
        Part::Text(b": "),
        Part::Hex(row),
    ];
    put_line(out, &parts)
}

/// Whether a row has zeros alone.
fn is_zero(row: &[u8]) -> bool
    ensures { result ≡ list_all (λ byte. byte == 0) row.now }
{
    row.iter().all(|byte| *byte == 0)
}

/// Puts a row of a global, where it has a byte that is not zero.
fn put_row<'x, O: Sink>(
    out: &mut O,
    name: &'x [u8],
    offset: usize,
    row: &'x [u8],
) -> Result<(), SinkFault>
    ensures whole { OnOk result (O.shown out.new ≡ shown_with (O.shown out.old) (row_text name.now offset row.now)) }
    ensures cut { OnErr result (ShowsPrefix (O.shown out.old) (O.shown out.new) (row_text name.now offset row.now)) }
    ensures failed { OnErr result (Rose (O.faults out.old) (O.faults out.new)) }
    ensures still { OnOk result (O.faults out.new ≡ O.faults out.old) }
    ensures later { O.faults out.old ≤ O.faults out.new }
    ensures fits { O.faults out.old < 2 ^ 64 → O.faults out.new < 2 ^ 64 }
{
    if is_zero(row) {
        return Ok(());
    }
    put_row_line(out, name, offset, row)
}

/// Row `k` of some bytes: those from 16 k on, at most 16.
fn row_at(bytes: &[u8], k: usize) -> &[u8]
    requires { 16 * k < length bytes.now }
    ensures { result.now ≡ row_of bytes.now k }
{
    let rest = &bytes[16 * k..];
    &rest[..rest.len().min(16)]
}

/// Puts the rows of a global: sixteen bytes each, and what is left in the last. It takes no memory.
pub fn put_global<O: Sink>(out: &mut O, name: &[u8], bytes: &[u8]) -> Result<(), SinkFault>
    ensures whole { OnOk result (O.shown out.new ≡ shown_with (O.shown out.old) (global_text name.now bytes.now)) }
    ensures cut { OnErr result (ShowsPrefix (O.shown out.old) (O.shown out.new) (global_text name.now bytes.now)) }
    ensures failed { OnErr result (Rose (O.faults out.old) (O.faults out.new)) }
    ensures still { OnOk result (O.faults out.new ≡ O.faults out.old) }
    ensures later { O.faults out.old ≤ O.faults out.new }
    ensures fits { O.faults out.old < 2 ^ 64 → O.faults out.new < 2 ^ 64 }
{
    for k in 0..bytes.len().div_ceil(16) {
        put_row(out, name, 16 * k, row_at(bytes, k))?;
    }
    Ok(())
}

/// Puts the rows of an object: none of a constant.
fn put_object<'x, O: Sink>(
    out: &mut O,
    global: &'x GlobalItem,
    bytes: &'x [u8],
) -> Result<(), SinkFault>
    ensures whole { OnOk result (O.shown out.new ≡ shown_with (O.shown out.old) (object_text (view_global global.now) bytes.now)) }
    ensures cut { OnErr result (ShowsPrefix (O.shown out.old) (O.shown out.new) (object_text (view_global global.now) bytes.now)) }
    ensures failed { OnErr result (Rose (O.faults out.old) (O.faults out.new)) }
    ensures still { OnOk result (O.faults out.new ≡ O.faults out.old) }
    ensures later { O.faults out.old ≤ O.faults out.new }
    ensures fits { O.faults out.old < 2 ^ 64 → O.faults out.new < 2 ^ 64 }
{
    if global.constant {
        return Ok(());
    }
    put_global(out, global.name.as_bytes(), bytes)
}

/// The bytes of an object; none where there is no such object.
fn bytes_of(memory: &KMemory, object: u32) -> &[u8]
    ensures { result.now ≡ object_of memory.now object }
{
    if (object as usize) < memory.objects() {
        memory.bytes(object)
    } else {
        &[]
    }
}

/// Puts the rows of a machine state: those of each mutable global in text order. It takes no memory.
pub fn put_memory<O: Sink>(
    out: &mut O,
    globals: &GlobalTable,
    memory: &KMemory,
) -> Result<(), SinkFault>
    requires { length globals.now < 2 ^ 32 }
    ensures whole { OnOk result (O.shown out.new ≡ shown_with (O.shown out.old) (memory_text (view_entries view_global globals.now) memory.now)) }
    ensures cut { OnErr result (ShowsPrefix (O.shown out.old) (O.shown out.new) (memory_text (view_entries view_global globals.now) memory.now)) }
    ensures failed { OnErr result (Rose (O.faults out.old) (O.faults out.new)) }
    ensures still { OnOk result (O.faults out.new ≡ O.faults out.old) }
    ensures later { O.faults out.old ≤ O.faults out.new }
    ensures fits { O.faults out.old < 2 ^ 64 → O.faults out.new < 2 ^ 64 }
{
    for place in 0..globals.len() {
        put_object(out, globals.at(place), bytes_of(memory, place))?;
    }
    Ok(())
}
