//! Values of terms beside the numbers that evaluation gives.

ghost use Rattle.spec_tree.specs.Shapes.{IsMemory, IsState};
ghost use Rattle.spec_tree.specs.Sorted.{IsWellSorted, field_sorts};
ghost use Rattle.spec_tree.specs.View.{view_spec};

use crate::indices::{keys_in, place_at};
use crate::parts::Part;
use crate::plain::{number_at, step_at};
use crate::tellings::{Over, Telling};
use hk_term::Valuation;
use ir_layout::KMemory;
use spec_tree::{Sort, Spec};
use spec_value::AbstractState;
use std::alloc::{AllocError, Global};

/// How many values were computed, how many of them are not what evaluation gives, and how many are not 0.
#[derive(Clone, Copy, Debug)]
pub struct Counts {
    pub values: u64,
    pub differ: u64,
    pub more: u64,
}

/// A part with its terms, and how they compared so far.
#[derive(Drop)]
pub struct Looked {
    pub part: Part,
    pub tellings: Vec<Telling>,
    pub counts: Counts,
}

/// One machine state and its abstract state, by the valuations for terms over each.
#[derive(Drop)]
pub struct Valuations {
    pub cells: Valuation,
    pub bytes: Valuation,
    pub entries: Valuation,
}

/// The valuation for a term.
fn valuation_for(valuations: &Valuations, over: Over) -> &Valuation {
    match over {
        Over::Cells => &valuations.cells,
        Over::Bytes => &valuations.bytes,
        Over::First => &valuations.entries,
        Over::Later => &valuations.entries,
    }
}

/// One more value.
fn counted(counts: Counts, value: Option<u64>, number: Option<u64>) -> Counts {
    Counts {
        values: counts.values.saturating_add(u64::from(value.is_some())),
        differ: counts.differ.saturating_add(u64::from(value != number)),
        more: counts
            .more
            .saturating_add(u64::from(value.unwrap_or(0) != 0)),
    }
}

/// The terms of a part that has one number.
fn compare_number(
    alloc: Global,
    valuations: &Valuations,
    looked: &Looked,
    number: Option<u64>,
) -> Result<Counts, AllocError> {
    let mut counts = looked.counts;
    for telling in &looked.tellings {
        let value = telling.value(alloc, valuation_for(valuations, telling.over))?;
        counts = counted(counts, value, number);
    }
    Ok(counts)
}

/// The terms of the entries of a field in a state.
fn compare_entries(
    alloc: Global,
    valuations: &Valuations,
    looked: &Looked,
    keys: &[Sort],
    field: u32,
    state: &AbstractState,
) -> Result<Counts, AllocError> {
    let mut counts = looked.counts;
    for telling in &looked.tellings {
        let v = valuation_for(valuations, telling.over);
        let number = state.entry(field, place_at(keys, telling.at, v));
        let value = telling.value(alloc, v)?;
        counts = counted(counts, value, Some(number));
    }
    Ok(counts)
}

/// The terms of a part at the valuations of a machine state.
pub fn compare(
    alloc: Global,
    spec: &Spec,
    memory: &KMemory,
    state: &AbstractState,
    valuations: &Valuations,
    looked: &Looked,
) -> Result<Counts, AllocError>
    requires spec { IsWellSorted (view_spec spec.now) }
    requires memory { IsMemory spec.now.objects memory.now }
    requires state { IsState (field_sorts (view_spec spec.now)) state.now }
{
    let v = &valuations.cells;
    let keys = keys_in(spec, looked.part);
    match looked.part {
        Part::Field(f) => compare_entries(alloc, valuations, looked, keys, f, state),
        Part::FieldBehind(h, f) => match step_at(alloc, spec, state, h, v)? {
            Some(step) => compare_entries(alloc, valuations, looked, keys, f, &step.state),
            None => compare_number(alloc, valuations, looked, None),
        },
        part => {
            let number = number_at(alloc, spec, memory, state, part, v)?;
            compare_number(alloc, valuations, looked, number)
        }
    }
}
