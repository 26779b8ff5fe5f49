//! Sizes, alignments and offsets of whole types, from those of their parts.

ghost use Rattle.std.specs.Prelude.{◌≡◌, ◌<◌, ◌≤◌, ◌^◌, [], length, IfOk};
ghost use Rattle.ir_ast.specs.Plain.{integer, pointer, array, structure, packed, opaque};
ghost use Rattle.ir_layout.specs.Sizes.{up_to};
ghost use Rattle.ir_layout.specs.Facts.{cut};
ghost use Rattle.ir_whole.specs.Heads.{type_at, fields, RowFits};
ghost use Rattle.ir_whole.specs.Numbers.{types_of};
ghost use Rattle.ir_measure.specs.Measures as definition;
ghost use Rattle.ir_measure.specs.Measures.{measure_of, fields_from, packed_from, no_fields, ended, IsKept, AreMeasured};

use hk_seq::Seq;
use ir_whole::{Head, Row, TypeNumbers};
use std::alloc::{AllocError, Global};

/// What is kept of a whole type, in bytes: its size, its alignment, and where its fields stand. Sizes and offsets over 2^32 count as
/// 2^32 + 1.
#[derive(Drop)]
pub struct Measure {
    pub size: u64,
    pub align: u64,
    pub offsets: Seq<u64>,
}

/// A size as it is kept.
fn cut_size(size: u128) -> u64
    ensures { result ≡ cut size }
{
    size.min(4_294_967_297) as u64
}

/// The next multiple of an alignment.
fn rounded(size: u64, align: u64) -> u64
    requires some { 0 < align }
    requires few { align ≤ 8 }
    requires size { size ≤ 4294967297 }
    ensures up { result ≡ up_to align size }
    ensures small { result < 2 ^ 34 }
{
    (size + (align - 1)) / align * align
}

/// A measure without fields.
fn plain(alloc: Global, size: u64, align: u64) -> Measure
    ensures size { result.size ≡ size }
    ensures align { result.align ≡ align }
    ensures offsets { result.offsets ≡ [] }
{
    Measure {
        size,
        align,
        offsets: Seq::new(alloc),
    }
}

/// The measure of the type of nothing, and of no fields.
pub fn of_nothing(alloc: Global) -> Measure
    ensures fields { result ≡ no_fields }
    ensures nothing { result ≡ measure_of opaque }
    ensures kept { IsKept result }
{
    plain(alloc, 0, 1)
}

fn of_integer(alloc: Global, width: u32) -> Measure
    ensures { result ≡ measure_of (integer width) }
{
    let align = match width {
        8 | 16 | 32 | 64 => u64::from(width / 8),
        _ => 1,
    };
    plain(alloc, u64::from(width / 8), align)
}

fn of_pointer(alloc: Global) -> Measure
    ensures { result ≡ measure_of pointer }
{
    plain(alloc, 8, 8)
}

/// What is kept of the type with a number.
#[tactic(auto, using(crate::proofs::Bounds::measured_at))]
fn kept_at<'a>(numbers: &TypeNumbers, measures: &'a [Measure], number: u32) -> &'a Measure
    requires measured { AreMeasured (types_of numbers.now) measures.now }
    requires within { number < length measures.now }
    ensures { result.now ≡ measure_of (type_at (types_of numbers.now) number) }
{
    &measures[number as usize]
}

/// The measure of the type with a number.

pub fn measure_at<'a>(numbers: &TypeNumbers, measures: &'a [Measure], number: u32) -> &'a Measure
    requires measured { AreMeasured (types_of numbers.now) measures.now }
    requires within { number < length measures.now }
    ensures is { result.now ≡ measure_of (type_at (types_of numbers.now) number) }
    ensures kept { IsKept result.now }
{
    kept_at(numbers, measures, number)
}

/// The measure of an array of so many elements.
#[tactic(auto, using(ir_layout::proofs::Cuts::cut_times))]
fn of_array(
    alloc: Global,
    numbers: &TypeNumbers,
    measures: &[Measure],
    count: u64,
    element: u32,
) -> Measure
    requires measured { AreMeasured (types_of numbers.now) measures.now }
    requires within { element < length measures.now }
    ensures { result ≡ measure_of (array count (type_at (types_of numbers.now) element)) }
{
    let each = measure_at(numbers, measures, element);
    let size = cut_size(u128::from(count) * u128::from(each.size));
    plain(alloc, size, each.align)
}

/// Fields with one behind them.
fn with_field(all: Measure, field: &Measure) -> Result<Measure, AllocError>
    requires kept { IsKept all }
    requires field { IsKept field.now }
    ensures all { IfOk result (λ r. r ≡ definition.with_field all field.now) }
    ensures kept { IfOk result (λ r. IsKept r) }
{
    let at = rounded(all.size, field.align);
    let mut offsets = all.offsets;
    offsets.push(cut_size(u128::from(at)))?;
    Ok(Measure {
        size: cut_size(u128::from(at) + u128::from(field.size)),
        align: all.align.max(field.align),
        offsets,
    })
}

/// Fields without gaps, with one behind them.
fn with_packed(all: Measure, field: &Measure) -> Result<Measure, AllocError>
    requires kept { IsKept all }
    requires field { IsKept field.now }
    ensures all { IfOk result (λ r. r ≡ definition.with_packed all field.now) }
    ensures kept { IfOk result (λ r. IsKept r) }
{
    let mut offsets = all.offsets;
    offsets.push(all.size)?;
    Ok(Measure {
        size: cut_size(u128::from(all.size) + u128::from(field.size)),
        align: 1,
        offsets,
    })
}

/// All fields of a struct.
fn fields_of(
    alloc: Global,
    numbers: &TypeNumbers,
    measures: &[Measure],
    row: &[u32],
) -> Result<Measure, AllocError>
    requires measured { AreMeasured (types_of numbers.now) measures.now }
    requires within { RowFits (length measures.now) row.now }
    ensures all { IfOk result (λ r. r ≡ fields_from no_fields (fields (types_of numbers.now) row.now)) }
    ensures kept { IfOk result (λ r. IsKept r) }
{
    let mut all = of_nothing(alloc);
    'each: for part in row {
        all = with_field(all, measure_at(numbers, measures, *part))?;
    }
    Ok(all)
}

/// All fields of a packed struct.
fn packed_fields_of(
    alloc: Global,
    numbers: &TypeNumbers,
    measures: &[Measure],
    row: &[u32],
) -> Result<Measure, AllocError>
    requires measured { AreMeasured (types_of numbers.now) measures.now }
    requires within { RowFits (length measures.now) row.now }
    ensures all { IfOk result (λ r. r ≡ packed_from no_fields (fields (types_of numbers.now) row.now)) }
    ensures kept { IfOk result (λ r. IsKept r) }
{
    let mut all = of_nothing(alloc);
    'each: for part in row {
        all = with_packed(all, measure_at(numbers, measures, *part))?;
    }
    Ok(all)
}

#[tactic(auto, using(crate::proofs::Bounds::ended_is))]
fn of_struct(
    alloc: Global,
    numbers: &TypeNumbers,
    measures: &[Measure],
    row: &Row,
) -> Result<Measure, AllocError>
    requires measured { AreMeasured (types_of numbers.now) measures.now }
    requires within { RowFits (length measures.now) row.now }
    ensures { IfOk result (λ r. r ≡ measure_of (structure (fields (types_of numbers.now) row.now))) }
{
    let all = fields_of(alloc, numbers, measures, row.as_slice())?;
    Ok(Measure {
        size: cut_size(u128::from(rounded(all.size, all.align))),
        ..all
    })
}

#[tactic(auto, using(crate::proofs::Bounds::packed_is))]
fn of_packed(
    alloc: Global,
    numbers: &TypeNumbers,
    measures: &[Measure],
    row: &Row,
) -> Result<Measure, AllocError>
    requires measured { AreMeasured (types_of numbers.now) measures.now }
    requires within { RowFits (length measures.now) row.now }
    ensures { IfOk result (λ r. r ≡ measure_of (packed (fields (types_of numbers.now) row.now))) }
{
    let all = packed_fields_of(alloc, numbers, measures, row.as_slice())?;
    Ok(all)
}

/// The measure of the first type that has none yet.
pub fn measure_next(
    alloc: Global,
    numbers: &TypeNumbers,
    measures: &[Measure],
    number: u32,
) -> Result<Measure, AllocError>
    requires measured { AreMeasured (types_of numbers.now) measures.now }
    requires next { number ≡ length measures.now }
    requires within { number < length (types_of numbers.now) }
    ensures { IfOk result (λ r. r ≡ measure_of (type_at (types_of numbers.now) number)) }
{
    match numbers.head(number) {
        Head::Opaque => Ok(of_nothing(alloc)),
        Head::Void => Ok(of_nothing(alloc)),
        Head::Int(width) => Ok(of_integer(alloc, *width)),
        Head::Ptr => Ok(of_pointer(alloc)),
        Head::Array(count, element) => Ok(of_array(alloc, numbers, measures, *count, *element)),
        Head::Struct(row) => of_struct(alloc, numbers, measures, row),
        Head::Packed(row) => of_packed(alloc, numbers, measures, row),
    }
}
