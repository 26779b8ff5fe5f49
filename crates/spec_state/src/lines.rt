//! The lines of a transition, on a copy of the state.

ghost use Rattle.std.specs.Prelude.{◌≡◌, Some, slice_get, slice_index_or, map, IfOk, OnOk};
ghost use Rattle.spec_tree.specs.Plain.{write_line};
ghost use Rattle.spec_tree.specs.Sorted.{FieldSort, IsSorted, AreIndices, AreLines, no_field, field_sorts, lets_of, with_local, with_locals};
ghost use Rattle.spec_tree.specs.Value.{value, values, place_behind};
ghost use Rattle.spec_tree.specs.View.{view_expr, view_expr_list, view_key, view_line, view_spec};
ghost use Rattle.spec_tree.specs.Meaning.{with_value, after_lines};
ghost use Rattle.spec_number.specs.Evaluation.{Stands, context_of, env_of};
ghost use Rattle.spec_state.specs.Lines.{AreSorted, IsLine, behind_line, after_line, env_with, StandsWith};

use crate::names::put_name;
use spec_number::{Frame, Reading, number_of};
use spec_tree::{Expr, ExprList, Line, Sort, Spec, Write};
use spec_value::{AbstractState, EntryList, place};
use std::alloc::{AllocError, Global};

// The numbers of expressions in their order.
fn numbers_of(
    alloc: Global,
    reading: &Reading,
    frame: &mut Frame,
    es: &ExprList,
) -> Result<Vec<u64>, AllocError>
    requires stands { Stands reading.now frame.old }
    requires sorted { AreSorted (context_of reading.now frame.old) (view_expr_list es.now) }
    ensures numbers { IfOk result (λ v. v.items ≡ values (context_of reading.now frame.old) (env_of reading.now frame.old) (view_expr_list es.now)) }
    ensures kept { OnOk result (frame.new ≡ frame.old) }
{
    let mut numbers = Vec::new(alloc);
    let items = es.items.as_slice();
    'each: for e in items {
        let number = number_of(reading, frame, e)?;
        numbers.push(number.bits)?;
    }
    Ok(numbers)
}

// The sorts of a field's keys; none where there is no such field.
fn keys_of(spec: &Spec, field: u32) -> &[Sort]
    ensures { map view_key result.now ≡ (slice_index_or (field_sorts (view_spec spec.now)) field no_field).keys }
{
    let fields = spec.fields.as_slice();
    if (field as usize) < fields.len() {
        fields[field as usize].keys.as_slice()
    } else {
        &[]
    }
}

// The place of an index tuple among the entries of a field; none where an index is not below its size.
fn place_of(
    alloc: Global,
    reading: &Reading,
    frame: &mut Frame,
    field: u32,
    at: &ExprList,
) -> Result<Option<u64>, AllocError>
    requires stands { Stands reading.now frame.old }
    requires sorted { (sort : FieldSort) × (slice_get (context_of reading.now frame.old).fields field ≡ Some sort) × AreIndices (context_of reading.now frame.old) sort.keys (view_expr_list at.now) }
    ensures place { IfOk result (λ p. p ≡ place_behind 0 (slice_index_or (context_of reading.now frame.old).fields field no_field).keys (values (context_of reading.now frame.old) (env_of reading.now frame.old) (view_expr_list at.now))) }
    ensures kept { OnOk result (frame.new ≡ frame.old) }
{
    let indices = numbers_of(alloc, reading, frame, at)?;
    Ok(place(keys_of(reading.spec, field), indices.as_slice()))
}

// Where a write lands, and its number.
#[derive(Clone, Copy)]
struct Landing {
    place: Option<u64>,
    bits: u64,
}

// Where a write lands in the copy, and its number.
fn land(
    alloc: Global,
    base: &Reading,
    frame: &mut Frame,
    new: &[EntryList],
    write: &Write,
) -> Result<Landing, AllocError>
    requires stands { StandsWith base.now new.now frame.old }
    requires sorted { IsLine (context_of base.now frame.old) (write_line write.now.field (view_expr_list write.now.index) (view_expr write.now.value)) }
    ensures place { IfOk result (λ l. l.place ≡ place_behind 0 (slice_index_or (context_of base.now frame.old).fields write.now.field no_field).keys (values (context_of base.now frame.old) (env_with base.now new.now frame.old) (view_expr_list write.now.index))) }
    ensures bits { IfOk result (λ l. l.bits ≡ value (context_of base.now frame.old) (env_with base.now new.now frame.old) (view_expr write.now.value)) }
    ensures kept { OnOk result (frame.new ≡ frame.old) }
{
    let reading = Reading {
        spec: base.spec,
        source: base.source,
        old: base.old,
        new,
        memory: base.memory,
        widths: base.widths,
        args: base.args,
    };
    let place = place_of(alloc, &reading, frame, write.field, &write.index)?;
    let number = number_of(&reading, frame, &write.value)?;
    Ok(Landing {
        place,
        bits: number.bits,
    })
}

// Puts a local name that may read the copy.
fn put_let(base: &Reading, frame: &mut Frame, new: &[EntryList], e: &Expr) -> Result<(), AllocError>
    requires stands { StandsWith base.now new.now frame.old }
    requires sorted { IsSorted (context_of base.now frame.old) (view_expr e.now) }
    ensures context { OnOk result (context_of base.now frame.new ≡ with_local (context_of base.now frame.old) (view_expr e.now)) }
    ensures env { OnOk result (env_with base.now new.now frame.new ≡ with_value (context_of base.now frame.old) (env_with base.now new.now frame.old) (view_expr e.now)) }
{
    let reading = Reading {
        spec: base.spec,
        source: base.source,
        old: base.old,
        new,
        memory: base.memory,
        widths: base.widths,
        args: base.args,
    };
    put_name(&reading, frame, e)?;
    Ok(())
}

// Goes through a line: puts a local name, or sets an entry of the copy.
fn go_on(
    alloc: Global,
    base: &Reading,
    frame: &mut Frame,
    new: &mut AbstractState,
    line: &Line,
) -> Result<(), AllocError>
    requires stands { StandsWith base.now new.old frame.old }
    requires sorted { IsLine (context_of base.now frame.old) (view_line line.now) }
    ensures context { OnOk result (context_of base.now frame.new ≡ behind_line (context_of base.now frame.old) (view_line line.now)) }
    ensures env { OnOk result (env_with base.now new.new frame.new ≡ after_line (context_of base.now frame.old) (env_with base.now new.old frame.old) (view_line line.now)) }
{
    match line {
        Line::Let(e) => {
            put_let(base, frame, new.as_slice(), e)?;
            Ok(())
        }
        Line::Write(write) => {
            let landing = land(alloc, base, frame, new.as_slice(), write)?;
            new.set(write.field, landing.place, landing.bits);
            Ok(())
        }
    }
}

/// Goes through lines in their order, on a copy of the state.
pub(crate) fn go_through(
    alloc: Global,
    base: &Reading,
    frame: &mut Frame,
    new: &mut AbstractState,
    lines: &[Line],
) -> Result<(), AllocError>
    requires stands { StandsWith base.now new.old frame.old }
    requires sorted { AreLines (context_of base.now frame.old) (map view_line lines.now) }
    ensures context { OnOk result (context_of base.now frame.new ≡ with_locals (context_of base.now frame.old) (lets_of (map view_line lines.now))) }
    ensures env { OnOk result (env_with base.now new.new frame.new ≡ after_lines (context_of base.now frame.old) (env_with base.now new.old frame.old) (map view_line lines.now)) }
    ensures stands { OnOk result (StandsWith base.now new.new frame.new) }
{
    'each: for line in lines {
        go_on(alloc, base, frame, new, line)?;
    }
    Ok(())
}
