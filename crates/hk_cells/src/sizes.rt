//! The sizes of the cells of a module's objects, in bytes.
//!
//! They follow from the sizes of the integers of the types alone, since an integer stands at a multiple of what divides all sizes
//! before it. Whole types are looked at once each, by their numbers, so that names within names take no more time than they are long.

ghost use Rattle.std.specs.Prelude.{◌≡◌, ◌∷◌, [], ◌+◌, ◌/◌, ◌<◌, ◌≤◌, ◌^◌, length, map, IfOk};
ghost use Rattle.ir_ast.specs.View.{view_type};
ghost use Rattle.ir_ast.specs.ProgramView.{view_entries, view_type_entry, view_global};
ghost use Rattle.ir_type.specs.Whole.{meant};
ghost use Rattle.ir_whole.specs.Heads.{type_at, fields, RowFits};
ghost use Rattle.ir_whole.specs.Numbers.{types_of, IsFor};
ghost use Rattle.ir_ast.specs.Plain.{array};
ghost use Rattle.hk_cells.specs.Cells as definition;
ghost use Rattle.hk_cells.specs.Cells.{cell_of, least_cell};
ghost use Rattle.hk_cells.specs.Kept.{least_from, AreCellsOf};

use ir_ast::{GlobalTable, IrType, TypeTable};
use ir_whole::{Head, Row, TypeNumbers};
use std::alloc::{AllocError, Global};

// The greatest of 1, 2, 4 and 8 that divides a number.
fn unit(n: u32) -> u32
    ensures { result ≡ definition.unit n }
{
    if n % 8 == 0 {
        8
    } else if n % 4 == 0 {
        4
    } else if n % 2 == 0 {
        2
    } else {
        1
    }
}

// What is kept of the type with a number.
#[tactic(auto, using(crate::proofs::KeptLaws::kept_at))]
fn kept_at(numbers: &TypeNumbers, kept: &[u32], number: u32) -> u32
    requires kept { AreCellsOf (types_of numbers.now) kept.now }
    requires within { number < length kept.now }
    ensures { result ≡ cell_of (type_at (types_of numbers.now) number) }
{
    kept[number as usize]
}

// The least of the cells of fields.
fn least_of(numbers: &TypeNumbers, kept: &[u32], row: &[u32]) -> u32
    requires kept { AreCellsOf (types_of numbers.now) kept.now }
    requires within { RowFits (length kept.now) row.now }
    ensures { result ≡ least_from 8 (fields (types_of numbers.now) row.now) }
{
    let mut least: u32 = 8;
    'each: for part in row {
        least = least.min(kept_at(numbers, kept, *part));
    }
    least
}

// The cells of a struct.
#[tactic(auto, using(crate::proofs::KeptLaws::least_is))]
fn of_fields(numbers: &TypeNumbers, kept: &[u32], row: &Row) -> u32
    requires kept { AreCellsOf (types_of numbers.now) kept.now }
    requires within { RowFits (length kept.now) row.now }
    ensures { result ≡ least_cell (fields (types_of numbers.now) row.now) }
{
    least_of(numbers, kept, row.as_slice())
}

fn of_array(numbers: &TypeNumbers, kept: &[u32], count: u64, element: u32) -> u32
    requires kept { AreCellsOf (types_of numbers.now) kept.now }
    requires within { element < length kept.now }
    ensures { result ≡ cell_of (array count (type_at (types_of numbers.now) element)) }
{
    if count == 0 {
        8
    } else {
        kept_at(numbers, kept, element)
    }
}

// The cells of the first type of which nothing is kept yet.
fn cell_next(numbers: &TypeNumbers, kept: &[u32], number: u32) -> u32
    requires kept { AreCellsOf (types_of numbers.now) kept.now }
    requires next { number ≡ length kept.now }
    requires within { number < length (types_of numbers.now) }
    ensures { result ≡ cell_of (type_at (types_of numbers.now) number) }
{
    match numbers.head(number) {
        Head::Opaque => 8,
        Head::Void => 8,
        Head::Int(width) => unit(*width / 8),
        Head::Ptr => 8,
        Head::Array(count, element) => of_array(numbers, kept, *count, *element),
        Head::Struct(row) => of_fields(numbers, kept, row),
        Head::Packed(row) => of_fields(numbers, kept, row),
    }
}

// Keeps the cells of one more type.
#[tactic(auto, using(crate::proofs::KeptLaws::one_kept))]
fn keep_one(numbers: &TypeNumbers, kept: &mut Vec<u32>) -> Result<(), AllocError>
    requires kept { AreCellsOf (types_of numbers.now) kept.old.items }
    requires more { length kept.old.items < length (types_of numbers.now) }
    requires small { length kept.old.items < 2 ^ 32 }
    ensures kept { AreCellsOf (types_of numbers.now) kept.new.items }
    ensures count { IfOk result (λ _. length kept.new.items ≡ length kept.old.items + 1) }
    ensures longer { length kept.old.items ≤ length kept.new.items }
{
    let next = kept.len() as u32;
    let cell = cell_next(numbers, kept.as_slice(), next);
    kept.push(cell)?;
    Ok(())
}

// Keeps the cells of types up to that with a number.
fn keep_to(numbers: &TypeNumbers, kept: &mut Vec<u32>, number: u32) -> Result<(), AllocError>
    requires kept { AreCellsOf (types_of numbers.now) kept.old.items }
    requires within { number < length (types_of numbers.now) }
    ensures kept { AreCellsOf (types_of numbers.now) kept.new.items }
    ensures within { IfOk result (λ _. number < length kept.new.items) }
{
    'more: while kept.len() <= number as usize {
        keep_one(numbers, kept)?;
    }
    Ok(())
}

// The cells of a type.
#[tactic(auto, using(crate::proofs::KeptLaws::still_kept, crate::proofs::KeptLaws::meant_at))]
fn cell_for(
    alloc: Global,
    types: &TypeTable,
    numbers: &mut TypeNumbers,
    kept: &mut Vec<u32>,
    over: &IrType,
) -> Result<u32, AllocError>
    requires small { length types.now < 2 ^ 32 }
    requires own { IsFor (view_entries view_type_entry types.now) numbers.old }
    requires kept { AreCellsOf (types_of numbers.old) kept.old.items }
    ensures cell { IfOk result (λ c. c ≡ cell_of (meant (view_entries view_type_entry types.now) (view_type over.now))) }
    ensures own { IfOk result (λ _. IsFor (view_entries view_type_entry types.now) numbers.new) }
    ensures kept { IfOk result (λ _. AreCellsOf (types_of numbers.new) kept.new.items) }
{
    let number = numbers.number(alloc, types, over)?;
    keep_to(numbers, kept, number)?;
    Ok(kept_at(numbers, kept.as_slice(), number))
}

// The cells of the type of nothing, which has the number 0.
fn first_kept(alloc: Global) -> Result<Vec<u32>, AllocError>
    ensures { IfOk result (λ kept. kept.items ≡ 8 ∷ []) }
{
    let mut kept = Vec::new(alloc);
    kept.push(8)?;
    Ok(kept)
}

/// The size of the cells of each global, in text order.
#[tactic(auto, using(crate::proofs::KeptLaws::first_is))]
pub(crate) fn cells_of(
    alloc: Global,
    types: &TypeTable,
    globals: &GlobalTable,
) -> Result<Vec<u32>, AllocError>
    requires types { length types.now < 2 ^ 32 }
    requires globals { length globals.now < 2 ^ 32 }
    ensures { IfOk result (λ cells. cells.items ≡ map (λ g. cell_of (meant (view_entries view_type_entry types.now) g.1.over)) (view_entries view_global globals.now)) }
{
    let mut numbers = TypeNumbers::of(alloc, types)?;
    let mut kept = first_kept(alloc)?;
    let mut cells = Vec::new(alloc);
    for place in 0..globals.len() {
        let cell = cell_for(
            alloc,
            types,
            &mut numbers,
            &mut kept,
            &globals.at(place).over,
        )?;
        cells.push(cell)?;
    }
    Ok(cells)
}
