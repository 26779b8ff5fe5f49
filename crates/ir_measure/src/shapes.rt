//! The whole types of a kernel by number, each with its measure.

ghost use Rattle.std.specs.Prelude.{◌≡◌, ◌+◌, ◌∷◌, [], ◌<◌, ◌≤◌, ◌^◌, ℕ, List, length, option_map, slice_get, IfOk, IfSome};
ghost use Rattle.ir_ast.specs.Plain.{Ty, opaque};
ghost use Rattle.ir_ast.specs.View.{view_type};
ghost use Rattle.ir_ast.specs.ProgramView.{view_entries, view_type_entry};
ghost use Rattle.ir_layout.specs.Sizes.{size_of, align_of};
ghost use Rattle.ir_layout.specs.Facts.{cut};
ghost use Rattle.ir_type.specs.Whole.{meant, is_pointer, is_void};
ghost use Rattle.ir_whole.specs.Heads.{type_at, type_of, fields, RowFits, HeadFits};
ghost use Rattle.ir_whole.specs.Numbers.{types_of, IsFor};
ghost use Rattle.ir_whole.specs.Questions.{width_of, element_of, field_in, field_of};
ghost use Rattle.ir_measure.specs.Measures.{no_fields, offset_at, AreMeasured};
ghost use Rattle.ir_measure.specs.Shaped.{type_in, count_of, IsSound, IsShaped};

use crate::measure::{Measure, measure_at, measure_next, of_nothing};
use ir_ast::{IrType, TypeTable};
use ir_whole::{Head, Row, TypeNumbers};
use std::alloc::{AllocError, Global};

/// Whole types by number, and what is kept of each of the first ones.
#[derive(Drop)]
pub struct Shapes {
    numbers: TypeNumbers,
    measures: Vec<Measure>,
}

/// Adds the measure of the first type that has none.
#[tactic(auto, using(crate::proofs::Shaping::one_measured))]
fn add_measure(
    alloc: Global,
    numbers: &TypeNumbers,
    measures: &mut Vec<Measure>,
) -> Result<(), AllocError>
    requires measured { AreMeasured (types_of numbers.now) measures.old.items }
    requires more { length measures.old.items < length (types_of numbers.now) }
    requires small { length measures.old.items < 2 ^ 32 }
    ensures measured { AreMeasured (types_of numbers.now) measures.new.items }
    ensures count { IfOk result (λ _. length measures.new.items ≡ length measures.old.items + 1) }
    ensures longer { length measures.old.items ≤ length measures.new.items }
{
    let next = measures.len() as u32;
    let measure = measure_next(alloc, numbers, measures.as_slice(), next)?;
    measures.push(measure)?;
    Ok(())
}

/// Adds measures until the type with this number has one.
fn add_measures(
    alloc: Global,
    numbers: &TypeNumbers,
    measures: &mut Vec<Measure>,
    number: u32,
) -> Result<(), AllocError>
    requires measured { AreMeasured (types_of numbers.now) measures.old.items }
    requires within { number < length (types_of numbers.now) }
    ensures measured { AreMeasured (types_of numbers.now) measures.new.items }
    ensures within { IfOk result (λ _. number < length measures.new.items) }
    ensures longer { length measures.old.items ≤ length measures.new.items }
{
    'more: while measures.len() <= number as usize {
        add_measure(alloc, numbers, measures)?;
    }
    Ok(())
}

/// The measure of the type of nothing, which has the number 0.
fn first_measures(alloc: Global) -> Result<Vec<Measure>, AllocError>
    ensures { IfOk result (λ measures. measures.items ≡ no_fields ∷ []) }
{
    let mut measures = Vec::new(alloc);
    measures.push(of_nothing(alloc))?;
    Ok(measures)
}

/// The offset of a field.
fn field_offset(measure: &Measure, field: u64) -> Option<u64>
    ensures { result ≡ slice_get measure.now.offsets field }
{
    measure.offsets.as_slice().get(field as usize).copied()
}

impl Shapes {
    /// The whole types of a table.
    pub fn of(alloc: Global, types: &TypeTable) -> Result<Shapes, AllocError>
        requires { length types.now < 2 ^ 32 }
        ensures { IfOk result (λ shapes. IsShaped (view_entries view_type_entry types.now) shapes) }
    {
        let numbers = TypeNumbers::of(alloc, types)?;
        let measures = first_measures(alloc)?;
        Ok(Shapes { numbers, measures })
    }

    /// The number of the whole type that a type stands for. Earlier numbers stay, also after an error. It takes time linear in what
    /// the type spells, but for the look-ups of whole types.
    #[tactic(auto, using(crate::proofs::Shaping::still_measured, crate::proofs::Shaping::opaque_first))]
    pub fn number(
        &mut self,
        alloc: Global,
        types: &TypeTable,
        over: &IrType,
    ) -> Result<u32, AllocError>
        requires small { length types.now < 2 ^ 32 }
        requires shaped { IsShaped (view_entries view_type_entry types.now) self.old }
        ensures number { IfOk result (λ n. type_in self.new n ≡ meant (view_entries view_type_entry types.now) (view_type over.now)) }
        ensures within { IfOk result (λ n. n < count_of self.new) }
        ensures shaped { IsShaped (view_entries view_type_entry types.now) self.new }
        ensures longer { count_of self.old ≤ count_of self.new }
        ensures keeps { (k : ℕ) → k < count_of self.old → type_in self.new k ≡ type_in self.old k }
    {
        let number = self.numbers.number(alloc, types, over)?;
        add_measures(alloc, &self.numbers, &mut self.measures, number)?;
        Ok(number)
    }

    /// The size of a type in bytes, as it is kept.
    pub fn size_of(&self, number: u32) -> u64
        requires within { number < count_of self.now }
        requires sound { IsSound self.now }
        ensures { result ≡ cut (size_of (type_in self.now number)) }
    {
        measure_at(&self.numbers, self.measures.as_slice(), number).size
    }

    /// The alignment of a type in bytes.
    pub fn align_of(&self, number: u32) -> u64
        requires within { number < count_of self.now }
        requires sound { IsSound self.now }
        ensures { result ≡ align_of (type_in self.now number) }
    {
        measure_at(&self.numbers, self.measures.as_slice(), number).align
    }

    /// The width of an integer, in bits.
    pub fn width(&self, number: u32) -> Option<u32>
        requires within { number < count_of self.now }
        requires sound { IsSound self.now }
        ensures { result ≡ width_of (type_in self.now number) }
    {
        self.numbers.width(number)
    }

    /// Whether a type is that of a function that gives nothing.
    pub fn is_void(&self, number: u32) -> bool
        requires within { number < count_of self.now }
        requires sound { IsSound self.now }
        ensures { result ≡ is_void (type_in self.now number) }
    {
        self.numbers.is_void(number)
    }

    /// Whether a type is `ptr`.
    pub fn is_pointer(&self, number: u32) -> bool
        requires within { number < count_of self.now }
        requires sound { IsSound self.now }
        ensures { result ≡ is_pointer (type_in self.now number) }
    {
        self.numbers.is_pointer(number)
    }

    /// Where a field of a struct stands in it, in bytes.
    #[tactic(auto, using(crate::proofs::Offsets::offset_there))]
    pub fn offset_at(&self, number: u32, field: u64) -> Option<u64>
        requires within { number < count_of self.now }
        requires sound { IsSound self.now }
        ensures { result ≡ offset_at (type_in self.now number) field }
    {
        field_offset(
            measure_at(&self.numbers, self.measures.as_slice(), number),
            field,
        )
    }

    /// What a type is, by the numbers of its parts.
    fn head(&self, number: u32) -> &Head
        requires within { number < count_of self.now }
        requires sound { IsSound self.now }
        ensures is { type_in self.now number ≡ type_of (types_of self.now.numbers) result.now }
        ensures parts { 0 < number → HeadFits number result.now }
    {
        self.numbers.head(number)
    }

    /// The length of an array, and the number of its element.
    pub fn element(&self, number: u32) -> Option<(u64, u32)>
        requires within { number < count_of self.now }
        requires sound { IsSound self.now }
        ensures element { option_map (λ p. (p.0, type_in self.now p.1)) result ≡ element_of (type_in self.now number) }
        ensures within { IfSome result (λ p. p.1 < number) }
    {
        if number == 0 {
            return None;
        }
        head_element(self.head(number))
    }

    /// A field of a struct, counted from 0.
    pub fn field(&self, number: u32, field: u64) -> Option<u32>
        requires within { number < count_of self.now }
        requires sound { IsSound self.now }
        ensures field { option_map (type_in self.now) result ≡ field_of field (type_in self.now number) }
        ensures within { IfSome result (λ n. n < number) }
    {
        if number == 0 {
            return None;
        }
        head_field(self.head(number), field)
    }
}

/// The length of an array, and the number of its element.
fn head_element(head: &Head) -> Option<(u64, u32)>
    ensures element { (types : List Ty) → option_map (λ p. (p.0, type_at types p.1)) result ≡ element_of (type_of types head.now) }
    ensures within { (n : ℕ) → HeadFits n head.now → IfSome result (λ p. p.1 < n) }
{
    match head {
        Head::Array(length, element) => Some((*length, *element)),
        _ => None,
    }
}

/// A part at a place of a row.
#[tactic(auto, using(ir_whole::proofs::FieldLaws::field_there, crate::proofs::Shaping::row_within))]
fn row_field(row: &Row, field: u64) -> Option<u32>
    ensures field { (types : List Ty) → option_map (type_at types) result ≡ field_in field (fields types row.now) }
    ensures within { (n : ℕ) → RowFits n row.now → IfSome result (λ e. e < n) }
{
    at_place(row, field as usize)
}

/// The number at a place of a row.
fn at_place(row: &Row, place: usize) -> Option<u32>
    ensures { result ≡ slice_get row.now place }
{
    row.as_slice().get(place).copied()
}

/// A field of a struct.
fn head_field(head: &Head, field: u64) -> Option<u32>
    ensures field { (types : List Ty) → option_map (type_at types) result ≡ field_of field (type_of types head.now) }
    ensures within { (n : ℕ) → HeadFits n head.now → IfSome result (λ e. e < n) }
{
    match head {
        Head::Struct(row) => row_field(row, field),
        Head::Packed(row) => row_field(row, field),
        _ => None,
    }
}
