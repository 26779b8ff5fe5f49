//! The entries of an abstract state as lines on a sink. They take no memory, and after a failed put nothing more is put.
ghost use Rattle.std.specs.Prelude.{◌≡◌, ◌≤◌, ◌<◌, ◌^◌, All, [], length, map, OnOk, OnErr};
ghost use Rattle.hk_io.specs.Faults.{Rose};
ghost use Rattle.hk_io.specs.Shown.{shown_with, ShowsPrefix};
ghost use Rattle.spec_tree.specs.Sorted.{IsWellSorted, field_sorts, key_sizes, product};
ghost use Rattle.spec_tree.specs.Shapes.{IsState};
ghost use Rattle.spec_tree.specs.Value.{tuple_at};
ghost use Rattle.spec_tree.specs.View.{size_of, view_field, view_key, view_spec};
ghost use Rattle.hk_verdict.specs.Entries.{entry_line, entry_text, field_text, entries_text};

use arrayvec::ArrayVec;
use hk_io::{Sink, SinkFault};
use hk_rows::{Part, put_line};
use spec_tree::{Field, Sort, Spec};
use spec_value::AbstractState;

/// The most keys that a field has.
const KEYS: usize = 4;

/// The size of a key.
fn size_at(key: &Sort) -> u64
    ensures { result ≡ size_of key.now.size }
{
    match key.size {
        Some(size) => u64::from(size),
        None => 0,
    }
}

/// The k-th of `all` index tuples of a field with these keys.
fn tuple_of(keys: &[Sort], all: u64, k: u64) -> ArrayVec<u64, KEYS>
    requires few { length keys.now ≤ 4 }
    requires all { all ≡ product (key_sizes (map view_key keys.now)) }
    requires within { k < all }
    ensures { result.items ≡ tuple_at (key_sizes (map view_key keys.now)) k }
{
    let mut tuple = ArrayVec::<u64, KEYS>::new();
    let mut stride = all;
    let mut rest = k;
    'each: for key in keys {
        stride /= size_at(key);
        tuple.push(rest / stride);
        rest %= stride;
    }
    tuple
}

/// Puts the line of an entry.
fn put_entry_line<'x, O: Sink>(
    out: &mut O,
    mark: &'x [u8],
    name: &'x [u8],
    tuple: &'x [u64],
    number: u64,
) -> Result<(), SinkFault>
    ensures whole { OnOk result (O.shown out.new ≡ shown_with (O.shown out.old) (entry_line mark.now name.now tuple.now number)) }
    ensures cut { OnErr result (ShowsPrefix (O.shown out.old) (O.shown out.new) (entry_line mark.now name.now tuple.now number)) }
    ensures failed { OnErr result (Rose (O.faults out.old) (O.faults out.new)) }
    ensures still { OnOk result (O.faults out.new ≡ O.faults out.old) }
    ensures later { O.faults out.old ≤ O.faults out.new }
    ensures fits { O.faults out.new < 2 ^ 64 }
{
    let parts = [
        Part::Text(b"  "),
        Part::Text(mark),
        Part::Text(name),
        Part::Indices(tuple),
        Part::Text(b" = "),
        Part::Decimal(number),
    ];
    put_line(out, &parts)
}

/// Puts an entry, where it is not 0.
fn put_entry<'x, O: Sink>(
    out: &mut O,
    mark: &'x [u8],
    name: &'x [u8],
    tuple: &'x [u64],
    number: u64,
) -> Result<(), SinkFault>
    ensures whole { OnOk result (O.shown out.new ≡ shown_with (O.shown out.old) (entry_text mark.now name.now tuple.now number)) }
    ensures cut { OnErr result (ShowsPrefix (O.shown out.old) (O.shown out.new) (entry_text mark.now name.now tuple.now number)) }
    ensures failed { OnErr result (Rose (O.faults out.old) (O.faults out.new)) }
    ensures still { OnOk result (O.faults out.new ≡ O.faults out.old) }
    ensures later { O.faults out.old ≤ O.faults out.new }
    ensures fits { O.faults out.old < 2 ^ 64 → O.faults out.new < 2 ^ 64 }
{
    if number == 0 {
        return Ok(());
    }
    put_entry_line(out, mark, name, tuple, number)
}

/// Puts the entry of a place, where it is not 0.
fn put_at<'x, O: Sink>(
    out: &mut O,
    mark: &'x [u8],
    field: &'x Field,
    all: usize,
    k: usize,
    number: u64,
) -> Result<(), SinkFault>
    requires few { length field.now.keys ≤ 4 }
    requires all { all ≡ product (key_sizes (map view_key field.now.keys)) }
    requires within { k < all }
    ensures whole { OnOk result (O.shown out.new ≡ shown_with (O.shown out.old) (entry_text mark.now field.now.name (tuple_at (key_sizes (map view_key field.now.keys)) k) number)) }
    ensures cut { OnErr result (ShowsPrefix (O.shown out.old) (O.shown out.new) (entry_text mark.now field.now.name (tuple_at (key_sizes (map view_key field.now.keys)) k) number)) }
    ensures failed { OnErr result (Rose (O.faults out.old) (O.faults out.new)) }
    ensures still { OnOk result (O.faults out.new ≡ O.faults out.old) }
    ensures later { O.faults out.old ≤ O.faults out.new }
    ensures fits { O.faults out.old < 2 ^ 64 → O.faults out.new < 2 ^ 64 }
{
    let tuple = tuple_of(field.keys.as_slice(), all as u64, k as u64);
    put_entry(out, mark, field.name.as_bytes(), tuple.as_slice(), number)
}

/// Puts the entries of a field.
fn put_field<'x, O: Sink>(
    out: &mut O,
    mark: &'x [u8],
    field: &'x Field,
    entries: &'x [u64],
) -> Result<(), SinkFault>
    requires few { length field.now.keys ≤ 4 }
    requires all { length entries.now ≡ product (key_sizes (map view_key field.now.keys)) }
    ensures whole { OnOk result (O.shown out.new ≡ shown_with (O.shown out.old) (field_text mark.now (view_field field.now) entries.now)) }
    ensures cut { OnErr result (ShowsPrefix (O.shown out.old) (O.shown out.new) (field_text mark.now (view_field field.now) entries.now)) }
    ensures failed { OnErr result (Rose (O.faults out.old) (O.faults out.new)) }
    ensures still { OnOk result (O.faults out.new ≡ O.faults out.old) }
    ensures later { O.faults out.old ≤ O.faults out.new }
    ensures fits { O.faults out.old < 2 ^ 64 → O.faults out.new < 2 ^ 64 }
{
    let all = entries.len();
    for (k, number) in entries.iter().enumerate() {
        put_at(out, mark, field, all, k, *number)?;
    }
    Ok(())
}

/// Puts the entries of an abstract state that are not 0, in class order and ascending order of indices, each with the mark directly
/// before the name of its field. It takes no memory.
pub fn put_entries<O: Sink>(
    out: &mut O,
    spec: &Spec,
    mark: &[u8],
    state: &AbstractState,
) -> Result<(), SinkFault>
    requires sorted { IsWellSorted (view_spec spec.now) }
    requires state { IsState (field_sorts (view_spec spec.now)) state.now }
    ensures whole { OnOk result (O.shown out.new ≡ shown_with (O.shown out.old) (entries_text mark.now (view_spec spec.now) state.now)) }
    ensures cut { OnErr result (ShowsPrefix (O.shown out.old) (O.shown out.new) (entries_text mark.now (view_spec spec.now) state.now)) }
    ensures failed { OnErr result (Rose (O.faults out.old) (O.faults out.new)) }
    ensures still { OnOk result (O.faults out.new ≡ O.faults out.old) }
    ensures later { O.faults out.old ≤ O.faults out.new }
    ensures fits { O.faults out.old < 2 ^ 64 → O.faults out.new < 2 ^ 64 }
{
    for (field, entries) in spec.fields.as_slice().iter().zip(state.as_slice()) {
        put_field(out, mark, field, entries.as_slice())?;
    }
    Ok(())
}
