//! Whether two operands of one type are the same, where numbers stand for their values.

ghost use Rattle.std.specs.Prelude.{◌≡◌, ◌<◌, ◌^◌, length, IfOk, MatchBool};
ghost use Rattle.ir_ast.specs.Plain.{Ty};
ghost use Rattle.ir_ast.specs.View.{view_type, view_operand, view_gep, view_index_list};
ghost use Rattle.ir_ast.specs.ProgramView.{view_entries, view_type_entry};
ghost use Rattle.ir_type.specs.Whole.{meant};
ghost use Rattle.ir_whole.specs.Numbers.{IsFor};
ghost use Rattle.ir_whole.specs.Questions.{width_of};
ghost use Rattle.ir_typing.specs.Same as definition;
ghost use Rattle.ir_typing.specs.Values.{by_value};

use crate::literal::{same_modulo, same_whole};
use crate::same::same_type;
use ir_ast::{Flags, Gep, IndexList, IrType, Operand, TypeTable};
use ir_whole::TypeNumbers;
use std::alloc::{AllocError, Global};

/// Whether two numbers are the same at a place of this width, in bits: without one, as they are.
fn same_number(width: Option<u32>, first: i128, second: i128) -> bool
    ensures { result ≡ definition.same_number width first second }
{
    match width {
        Some(width) => same_modulo(width, first, second),
        None => same_whole(first, second),
    }
}

fn same_flags(first: &Flags, second: &Flags) -> bool
    ensures { result ≡ definition.same_flags first.now second.now }
{
    first == second
}

/// The width in bits of the integer that a type stands for.
#[tactic(auto, using(crate::proofs::Typing::number_at))]
fn width_in(
    alloc: Global,
    numbers: &mut TypeNumbers,
    types: &TypeTable,
    over: &IrType,
) -> Result<Option<u32>, AllocError>
    requires small { length types.now < 2 ^ 32 }
    requires own { IsFor (view_entries view_type_entry types.now) numbers.old }
    ensures width { IfOk result (λ w. w ≡ width_of (meant (view_entries view_type_entry types.now) (view_type over.now))) }
    ensures own { IsFor (view_entries view_type_entry types.now) numbers.new }
{
    let number = numbers.number(alloc, types, over)?;
    Ok(numbers.width(number))
}

/// Whether two operands are the same at a place of this width, in bits.
#[cycle(values)]
fn same_operand(
    alloc: Global,
    numbers: &mut TypeNumbers,
    types: &TypeTable,
    width: Option<u32>,
    first: &Operand,
    second: &Operand,
) -> Result<bool, AllocError>
    requires small { length types.now < 2 ^ 32 }
    requires own { IsFor (view_entries view_type_entry types.now) numbers.old }
    ensures same { IfOk result (λ r. r ≡ definition.same_operand (view_entries view_type_entry types.now) width (view_operand first.now) (view_operand second.now)) }
    ensures own { IsFor (view_entries view_type_entry types.now) numbers.new }
{
    match (first, second) {
        (Operand::Local(name), Operand::Local(other)) => Ok(name.as_bytes() == other.as_bytes()),
        (Operand::Global(name), Operand::Global(other)) => Ok(name.as_bytes() == other.as_bytes()),
        (Operand::Number(number), Operand::Number(other)) => {
            Ok(same_number(width, *number, *other))
        }
        (Operand::Null, Operand::Null) => Ok(true),
        (Operand::Poison, Operand::Poison) => Ok(true),
        (Operand::Address(gep), Operand::Address(other)) => {
            same_address(alloc, numbers, types, gep, other)
        }
        _ => Ok(false),
    }
}

/// Whether two addresses are the same: their words and types as they are spelled, their numbers by their values.
#[cycle(values)]
fn same_address(
    alloc: Global,
    numbers: &mut TypeNumbers,
    types: &TypeTable,
    first: &Gep,
    second: &Gep,
) -> Result<bool, AllocError>
    requires small { length types.now < 2 ^ 32 }
    requires own { IsFor (view_entries view_type_entry types.now) numbers.old }
    ensures same { IfOk result (λ r. r ≡ definition.same_form (view_entries view_type_entry types.now) (view_gep first.now) (view_gep second.now)) }
    ensures own { IsFor (view_entries view_type_entry types.now) numbers.new }
{
    if !same_flags(&first.flags, &second.flags) {
        return Ok(false);
    }
    if !same_type(&first.base_type, &second.base_type) {
        return Ok(false);
    }
    if !same_operand(alloc, numbers, types, None, &first.base, &second.base)? {
        return Ok(false);
    }
    let same = same_indices(alloc, numbers, types, &first.indices, &second.indices)?;
    Ok(same)
}

/// Whether two lists of indices are the same, one by one.
#[cycle(values)]
fn same_indices(
    alloc: Global,
    numbers: &mut TypeNumbers,
    types: &TypeTable,
    first: &IndexList,
    second: &IndexList,
) -> Result<bool, AllocError>
    requires small { length types.now < 2 ^ 32 }
    requires own { IsFor (view_entries view_type_entry types.now) numbers.old }
    ensures same { IfOk result (λ r. r ≡ definition.same_indices (view_entries view_type_entry types.now) (view_index_list first.now) (view_index_list second.now)) }
    ensures own { IsFor (view_entries view_type_entry types.now) numbers.new }
{
    let indices = first.items.as_slice();
    let others = second.items.as_slice();
    if indices.len() != others.len() {
        return Ok(false);
    }
    'each: for (index, other) in indices.iter().zip(others) {
        if !same_type(&index.0, &other.0) {
            return Ok(false);
        }
        let width = width_in(alloc, numbers, types, &index.0)?;
        if !same_operand(alloc, numbers, types, width, &index.1, &other.1)? {
            return Ok(false);
        }
    }
    Ok(true)
}

/// Whether two operands are the same by their values, at a place of this width in bits.
fn same_at_width(
    alloc: Global,
    numbers: &mut TypeNumbers,
    types: &TypeTable,
    width: Option<u32>,
    first: &Operand,
    second: &Operand,
) -> Result<bool, AllocError>
    requires small { length types.now < 2 ^ 32 }
    requires own { IsFor (view_entries view_type_entry types.now) numbers.old }
    ensures same { (t : Ty) → width ≡ width_of t → IfOk result (λ same. MatchBool same (by_value (view_entries view_type_entry types.now) t (view_operand first.now) ≡ by_value (view_entries view_type_entry types.now) t (view_operand second.now)) (by_value (view_entries view_type_entry types.now) t (view_operand first.now) ≡ by_value (view_entries view_type_entry types.now) t (view_operand second.now) → ⊥)) }
    ensures own { IsFor (view_entries view_type_entry types.now) numbers.new }
{
    let same = same_operand(alloc, numbers, types, width, first, second)?;
    Ok(same)
}

/// Whether two operands of a type are the same, where a number stands for its value modulo 2 to the width of its place: the types and
/// the words of an address count as they are spelled, its numbers by their values. It takes time linear in the operands, but for the
/// look-ups of whole types.
pub fn same_value(
    alloc: Global,
    numbers: &mut TypeNumbers,
    types: &TypeTable,
    over: &IrType,
    first: &Operand,
    second: &Operand,
) -> Result<bool, AllocError>
    requires small { length types.now < 2 ^ 32 }
    requires own { IsFor (view_entries view_type_entry types.now) numbers.old }
    ensures same { IfOk result (λ same. MatchBool same (by_value (view_entries view_type_entry types.now) (meant (view_entries view_type_entry types.now) (view_type over.now)) (view_operand first.now) ≡ by_value (view_entries view_type_entry types.now) (meant (view_entries view_type_entry types.now) (view_type over.now)) (view_operand second.now)) (by_value (view_entries view_type_entry types.now) (meant (view_entries view_type_entry types.now) (view_type over.now)) (view_operand first.now) ≡ by_value (view_entries view_type_entry types.now) (meant (view_entries view_type_entry types.now) (view_type over.now)) (view_operand second.now) → ⊥)) }
    ensures own { IsFor (view_entries view_type_entry types.now) numbers.new }
{
    let width = width_in(alloc, numbers, types, over)?;
    let same = same_at_width(alloc, numbers, types, width, first, second)?;
    Ok(same)
}
