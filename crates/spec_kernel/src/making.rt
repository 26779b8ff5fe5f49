//! What is kept of the globals and the functions of a module.

ghost use Rattle.std.specs.Prelude.{◌≡◌, ◌<◌, ◌≤◌, ◌^◌, ℕ, List, Some, is_some, option_map, length, map, slice_get, IfOk};
ghost use Rattle.std.specs.List.{All};
ghost use Rattle.ir_ast.specs.Plain.{Ty};
ghost use Rattle.ir_ast.specs.Small.{IsSmall};
ghost use Rattle.ir_ast.specs.View.{view_type};
ghost use Rattle.ir_ast.specs.ProgramView.{view_entries, view_type_entry, view_function, view_global, view_module};
ghost use Rattle.ir_type.specs.Whole.{meant};
ghost use Rattle.ir_layout.specs.Layouts.{IsLayoutOf};
ghost use Rattle.ir_measure.specs.Shaped.{type_in, count_of, IsSound, IsShaped};
ghost use Rattle.spec_kernel.specs.View as view;
ghost use Rattle.spec_kernel.specs.View.{global_of, function_of};
ghost use Rattle.spec_kernel.specs.Seen.{by_width, see_global, see_function, view_value, global_in, function_in, IsShape};

use crate::calls::calls_of;
use crate::rows::{FunctionRow, GlobalRow, ValueType};
use ir_ast::{Function, FunctionTable, IrType, Module, Name, TypeTable};
use ir_layout::Layout;
use ir_measure::Shapes;
use std::alloc::{AllocError, Global};

/// The type of a value, where it is an integer of this width or else a pointer.
fn value_by_width(width: Option<u32>) -> ValueType
    ensures { view_value result ≡ by_width width }
{
    match width {
        Some(width) => ValueType::Int(width),
        None => ValueType::Ptr,
    }
}

/// The type of a parameter.
#[tactic(auto, using(crate::proofs::ValueLaws::width_value))]
fn value_type(shapes: &Shapes, number: u32) -> ValueType
    requires within { number < count_of shapes.now }
    requires sound { IsSound shapes.now }
    ensures { view_value result ≡ view.value_type (type_in shapes.now number) }
{
    value_by_width(shapes.width(number))
}

/// The type of a result; none for void.
#[tactic(auto, using(crate::proofs::ValueLaws::void_result, crate::proofs::ValueLaws::other_result))]
fn result_type(shapes: &Shapes, number: u32) -> Option<ValueType>
    requires within { number < count_of shapes.now }
    requires sound { IsSound shapes.now }
    ensures { option_map view_value result ≡ view.result_type (type_in shapes.now number) }
{
    if shapes.is_void(number) {
        None
    } else {
        Some(value_type(shapes, number))
    }
}

/// The type of a value of this type.
fn value_of(
    alloc: Global,
    shapes: &mut Shapes,
    types: &TypeTable,
    over: &IrType,
) -> Result<ValueType, AllocError>
    requires small { length types.now < 2 ^ 32 }
    requires shaped { IsShaped (view_entries view_type_entry types.now) shapes.old }
    ensures value { IfOk result (λ v. view_value v ≡ view.value_type (meant (view_entries view_type_entry types.now) (view_type over.now))) }
    ensures shaped { IsShaped (view_entries view_type_entry types.now) shapes.new }
{
    let number = shapes.number(alloc, types, over)?;
    Ok(value_type(shapes, number))
}

/// The type of a result of this type; none for void.
fn result_of(
    alloc: Global,
    shapes: &mut Shapes,
    types: &TypeTable,
    over: &IrType,
) -> Result<Option<ValueType>, AllocError>
    requires small { length types.now < 2 ^ 32 }
    requires shaped { IsShaped (view_entries view_type_entry types.now) shapes.old }
    ensures value { IfOk result (λ v. option_map view_value v ≡ view.result_type (meant (view_entries view_type_entry types.now) (view_type over.now))) }
    ensures shaped { IsShaped (view_entries view_type_entry types.now) shapes.new }
{
    let number = shapes.number(alloc, types, over)?;
    Ok(result_type(shapes, number))
}

/// The types of parameters.
fn parameters_of(
    alloc: Global,
    shapes: &mut Shapes,
    types: &TypeTable,
    parameters: &[(IrType, Name)],
) -> Result<Vec<ValueType>, AllocError>
    requires small { length types.now < 2 ^ 32 }
    requires shaped { IsShaped (view_entries view_type_entry types.now) shapes.old }
    ensures values { IfOk result (λ vs. map view_value vs.items ≡ map (λ (p : Ty × List ℕ). view.value_type (meant (view_entries view_type_entry types.now) p.0)) (map (λ p. (view_type p.0, p.1)) parameters.now)) }
    ensures shaped { IsShaped (view_entries view_type_entry types.now) shapes.new }
{
    let mut values = Vec::new(alloc);
    values.reserve(parameters.len())?;
    'each: for parameter in parameters {
        let value = value_of(alloc, shapes, types, &parameter.0)?;
        values.push(value)?;
    }
    Ok(values)
}

/// Whether a function has a body.
fn has_body(function: &Function) -> bool
    ensures { result ≡ is_some (view_function function.now).body }
{
    function.body.is_some()
}

/// What is kept of a function.
fn function_row<'k>(
    alloc: Global,
    shapes: &mut Shapes,
    types: &TypeTable,
    name: &'k Name,
    function: &'k Function,
) -> Result<FunctionRow<'k>, AllocError>
    requires small { length types.now < 2 ^ 32 }
    requires shaped { IsShaped (view_entries view_type_entry types.now) shapes.old }
    ensures row { IfOk result (λ row. function_in (see_function row) ≡ function_of (view_entries view_type_entry types.now) (name.now, view_function function.now)) }
    ensures shaped { IsShaped (view_entries view_type_entry types.now) shapes.new }
{
    let parameters = parameters_of(alloc, shapes, types, function.parameters.items.as_slice())?;
    let result = result_of(alloc, shapes, types, &function.result)?;
    let calls = calls_of(alloc, function)?;
    Ok(FunctionRow {
        name: name.as_bytes(),
        parameters,
        result,
        defined: has_body(function),
        calls,
    })
}

/// What is kept of all functions.
pub fn function_rows<'k>(
    alloc: Global,
    shapes: &mut Shapes,
    types: &TypeTable,
    functions: &'k FunctionTable,
) -> Result<Vec<FunctionRow<'k>>, AllocError>
    requires small { length types.now < 2 ^ 32 }
    requires few { length functions.now < 2 ^ 32 }
    requires shaped { IsShaped (view_entries view_type_entry types.now) shapes.old }
    ensures rows { IfOk result (λ rows. map (λ r. function_in (see_function r)) rows.items ≡ map (function_of (view_entries view_type_entry types.now)) (view_entries view_function functions.now)) }
    ensures shaped { IsShaped (view_entries view_type_entry types.now) shapes.new }
{
    let mut rows = Vec::new(alloc);
    rows.reserve(functions.len() as usize)?;
    for place in 0..functions.len() {
        let name = functions.name_at(place);
        let row = function_row(alloc, shapes, types, name, functions.at(place))?;
        rows.push(row)?;
    }
    Ok(rows)
}

/// What is kept of a global of this name, of a type with this number.
fn global_row<'k>(name: &'k Name, size: u64, shape: u32) -> GlobalRow<'k>
    ensures name { result.name.now ≡ name.now }
    ensures size { result.size ≡ size }
    ensures shape { result.shape ≡ shape }
{
    GlobalRow {
        name: name.as_bytes(),
        size,
        shape,
    }
}

/// What is kept of all globals. Their sizes are those of the objects of the layout.
pub fn global_rows<'k>(
    alloc: Global,
    shapes: &mut Shapes,
    kernel: &'k Module,
    layout: &Layout,
) -> Result<Vec<GlobalRow<'k>>, AllocError>
    requires small { IsSmall kernel.now }
    requires layout { IsLayoutOf (view_module kernel.now) layout.now }
    requires shaped { IsShaped (view_module kernel.now).types shapes.old }
    ensures rows { IfOk result (λ rows. map (λ r. global_in shapes.new (see_global r)) rows.items ≡ map (global_of (view_module kernel.now).types) (view_module kernel.now).globals) }
    ensures known { IfOk result (λ rows. All (λ r. IsShape shapes.new r.shape) rows.items) }
    ensures shaped { IsShaped (view_module kernel.now).types shapes.new }
{
    let globals = &kernel.globals;
    let mut rows = Vec::new(alloc);
    rows.reserve(globals.len() as usize)?;
    for place in 0..globals.len() {
        let shape = shapes.number(alloc, &kernel.types, &globals.at(place).over)?;
        rows.push(global_row(globals.name_at(place), layout.object_size(place), shape))?;
    }
    Ok(rows)
}
