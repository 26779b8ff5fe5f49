//! Operands against the types that are asked of them.

ghost use Rattle.std.specs.Prelude.{◌≡◌, ◌<◌, ◌≤◌, ℕ, List, Option, Some, length, is_some, option_map, IfOk, IfSome, slice_get};
ghost use Rattle.ir_ast.specs.Plain.{Ty};
ghost use Rattle.ir_ast.specs.View.{view_type, view_operand, view_gep, view_index_list, view_indices};
ghost use Rattle.ir_type.specs.Whole.{whole, meant};
ghost use Rattle.ir_type.specs.Names.{entry_of};
ghost use Rattle.ir_whole.specs.Heads.{type_at, fields, RowFits};
ghost use Rattle.ir_whole.specs.Numbers.{types_of};
ghost use Rattle.ir_typing.specs.Fits as definition;
ghost use Rattle.ir_typing.specs.Scoped.{types_in, scope_in, IsTyped};
ghost use Rattle.ir_typing.specs.Steps.{StandsFor};

use crate::held::Held;
use crate::literal::{fits_width, modulo};
use crate::scope::Scope;
use ir_ast::{Gep, IndexList, IrType, Name, Operand};
use ir_whole::{Head, Row, TypeNumbers};
use std::alloc::{AllocError, Global};

/// The number of the whole type that a type of the function stands for.
#[tactic(auto, using(crate::proofs::Typing::typed_grows, crate::proofs::Typing::number_at))]
pub fn number_of(
    alloc: Global,
    numbers: &mut TypeNumbers,
    scope: &Scope,
    over: &IrType,
) -> Result<u32, AllocError>
    requires { IsTyped numbers.old scope.now }
    ensures number { IfOk result (λ n. type_at (types_of numbers.new) n ≡ meant (types_in scope.now) (view_type over.now)) }
    ensures stands { IfOk result (λ n. StandsFor (types_of numbers.new) n (whole (types_in scope.now) (view_type over.now))) }
    ensures within { IfOk result (λ n. n < length (types_of numbers.new)) }
    ensures typed { IsTyped numbers.new scope.now }
    ensures longer { length (types_of numbers.old) ≤ length (types_of numbers.new) }
    ensures keeps { (k : ℕ) → k < length (types_of numbers.old) → type_at (types_of numbers.new) k ≡ type_at (types_of numbers.old) k }
{
    let number = numbers.number(alloc, scope.types(), over)?;
    Ok(number)
}

/// Whether a register is an operand of the type with this number.
fn register_fits(numbers: &TypeNumbers, scope: &Scope, over: u32, name: &Name) -> bool
    requires typed { IsTyped numbers.now scope.now }
    requires over { over < length (types_of numbers.now) }
    ensures { result ≡ definition.fits_kind (type_at (types_of numbers.now) over) (entry_of name.now (scope_in scope.now).registers) }
{
    match scope.held(name) {
        Some(Held::Value(number)) => numbers.is_scalar(over) && numbers.is_same(number, over),
        Some(Held::Slot(_)) => false,
        Some(Held::Pair(_)) => false,
        None => false,
    }
}

/// Whether a number is one of the type with this number.
pub fn number_fits(numbers: &TypeNumbers, over: u32, number: i128) -> bool
    requires { over < length (types_of numbers.now) }
    ensures { result ≡ definition.fits_number (type_at (types_of numbers.now) over) number }
{
    match numbers.width(over) {
        Some(width) => fits_width(width, number),
        None => false,
    }
}

/// Whether the type with this number is an integer.
pub fn is_integer(numbers: &TypeNumbers, over: u32) -> bool
    requires { over < length (types_of numbers.now) }
    ensures { result ≡ definition.is_integer (type_at (types_of numbers.now) over) }
{
    numbers.width(over).is_some()
}

/// The number of the field with this number.
#[tactic(auto, using(crate::proofs::Typing::row_field, crate::proofs::Typing::row_within))]
fn numbered_field(row: &Row, number: i128) -> Option<u32>
    ensures field { (types : List Ty) → option_map (type_at types) result ≡ slice_get (definition.list_of (fields types row.now)) (definition.modulo 32 number) }
    ensures within { (n : ℕ) → RowFits n row.now → IfSome result (λ k. (0 < k) × (k < n)) }
{
    row_at(row, modulo(32, number) as usize)
}

/// The number at a place of a row.
fn row_at(row: &Row, place: usize) -> Option<u32>
    ensures { result ≡ slice_get row.now place }
{
    row.as_slice().get(place).copied()
}

/// The number of the field of a struct that a constant i32 chooses.
fn field(row: &Row, over: &IrType, operand: &Operand) -> Option<u32>
    ensures field { (types : List Ty) → option_map (type_at types) result ≡ definition.field_at (definition.list_of (fields types row.now)) (view_type over.now) (view_operand operand.now) }
    ensures within { (n : ℕ) → RowFits n row.now → IfSome result (λ k. (0 < k) × (k < n)) }
{
    match over {
        IrType::Int(32) => match operand {
            Operand::Number(number) => numbered_field(row, *number),
            _ => None,
        },
        _ => None,
    }
}

/// The number of the part of a type that an index steps to.
fn part(numbers: &TypeNumbers, at: u32, over: &IrType, operand: &Operand) -> Option<u32>
    requires some { 0 < at }
    requires at { at < length (types_of numbers.now) }
    ensures part { option_map (type_at (types_of numbers.now)) result ≡ definition.part_at (type_at (types_of numbers.now) at) (view_type over.now) (view_operand operand.now) }
    ensures within { IfSome result (λ n. (0 < n) × (n < length (types_of numbers.now))) }
{
    match numbers.head(at) {
        Head::Array(_, element) => Some(*element),
        Head::Struct(row) => field(row, over, operand),
        Head::Packed(row) => field(row, over, operand),
        _ => None,
    }
}

/// Whether indices step to a part each, from a type on.
fn steps(numbers: &TypeNumbers, first: u32, indices: &[(IrType, Operand)]) -> bool
    requires some { 0 < first }
    requires first { first < length (types_of numbers.now) }
    ensures { result ≡ definition.steps (Some (type_at (types_of numbers.now) first)) (view_indices indices.now) }
{
    let mut at = first;
    'each: for index in indices {
        match part(numbers, at, &index.0, &index.1) {
            Some(next) => at = next,
            None => return false,
        }
    }
    true
}

/// Whether the indices of a `getelementptr` step to a part each: the first one over whole values of the type.
fn steps_over(numbers: &TypeNumbers, over: u32, indices: &IndexList) -> bool
    requires { over < length (types_of numbers.now) }
    ensures { (o : Option Ty) → StandsFor (types_of numbers.now) over o → result ≡ definition.steps_over o (view_index_list indices.now) }
{
    if over == 0 {
        return false;
    }
    match indices.items.as_slice() {
        [] => true,
        [_, rest @ ..] => steps(numbers, over, rest),
    }
}

/// Whether an operand is one of the type with this number.
#[cycle(fit)]
pub fn operand_fits(
    alloc: Global,
    numbers: &mut TypeNumbers,
    scope: &Scope,
    over: u32,
    operand: &Operand,
) -> Result<bool, AllocError>
    requires typed { IsTyped numbers.old scope.now }
    requires over { over < length (types_of numbers.old) }
    ensures fits { IfOk result (λ b. b ≡ definition.fits (scope_in scope.now) (type_at (types_of numbers.old) over) (view_operand operand.now)) }
    ensures typed { IsTyped numbers.new scope.now }
    ensures longer { length (types_of numbers.old) ≤ length (types_of numbers.new) }
    ensures keeps { (k : ℕ) → k < length (types_of numbers.old) → type_at (types_of numbers.new) k ≡ type_at (types_of numbers.old) k }
{
    match operand {
        Operand::Local(name) => Ok(register_fits(numbers, scope, over, name)),
        Operand::Global(_) => Ok(numbers.is_pointer(over)),
        Operand::Number(number) => Ok(number_fits(numbers, over, *number)),
        Operand::Null => Ok(numbers.is_pointer(over)),
        Operand::Poison => Ok(numbers.is_scalar(over)),
        Operand::Address(gep) => {
            if !numbers.is_pointer(over) {
                return Ok(false);
            }
            form_fits(alloc, numbers, scope, gep)
        }
    }
}

/// Whether a `getelementptr` takes its base and its indices.
#[cycle(fit)]
pub fn form_fits(
    alloc: Global,
    numbers: &mut TypeNumbers,
    scope: &Scope,
    gep: &Gep,
) -> Result<bool, AllocError>
    requires typed { IsTyped numbers.old scope.now }
    ensures fits { IfOk result (λ b. b ≡ definition.form_fits (scope_in scope.now) (view_gep gep.now)) }
    ensures typed { IsTyped numbers.new scope.now }
    ensures longer { length (types_of numbers.old) ≤ length (types_of numbers.new) }
    ensures keeps { (k : ℕ) → k < length (types_of numbers.old) → type_at (types_of numbers.new) k ≡ type_at (types_of numbers.old) k }
{
    let pointer = number_of(alloc, numbers, scope, &IrType::Ptr)?;
    if !operand_fits(alloc, numbers, scope, pointer, &gep.base)? {
        return Ok(false);
    }
    if !indices_fit(alloc, numbers, scope, &gep.indices)? {
        return Ok(false);
    }
    let over = number_of(alloc, numbers, scope, &gep.base_type)?;
    Ok(!numbers.has_odd(over) && steps_over(numbers, over, &gep.indices))
}

/// Whether the indices of a `getelementptr` are integers of their types.
#[cycle(fit)]
fn indices_fit(
    alloc: Global,
    numbers: &mut TypeNumbers,
    scope: &Scope,
    indices: &IndexList,
) -> Result<bool, AllocError>
    requires typed { IsTyped numbers.old scope.now }
    ensures fits { IfOk result (λ b. b ≡ definition.indices_fit (scope_in scope.now) (view_index_list indices.now)) }
    ensures typed { IsTyped numbers.new scope.now }
    ensures longer { length (types_of numbers.old) ≤ length (types_of numbers.new) }
    ensures keeps { (k : ℕ) → k < length (types_of numbers.old) → type_at (types_of numbers.new) k ≡ type_at (types_of numbers.old) k }
{
    let items = indices.items.as_slice();
    'each: for index in items {
        let over = number_of(alloc, numbers, scope, &index.0)?;
        if !is_integer(numbers, over) {
            return Ok(false);
        }
        if !operand_fits(alloc, numbers, scope, over, &index.1)? {
            return Ok(false);
        }
    }
    Ok(true)
}
