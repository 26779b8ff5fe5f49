//! The parameters and the result of a function with a body.

ghost use Rattle.std.specs.Prelude.{◌≡◌, ◌<◌, ◌^◌, ◌||◌, ℕ, List, length, map, IfOk};
ghost use Rattle.std.specs.List.{list_all};
ghost use Rattle.ir_ast.specs.Plain.{Ty};
ghost use Rattle.ir_ast.specs.View.{view_type};
ghost use Rattle.ir_ast.specs.ProgramView.{view_entries, view_type_entry, view_function};
ghost use Rattle.ir_type.specs.Whole.{meant, is_scalar, is_void};
ghost use Rattle.ir_whole.specs.Numbers.{IsFor};
ghost use Rattle.ir_typing.specs.Fits as definition;

use ir_ast::{Function, IrType, Name, TypeTable};
use ir_whole::TypeNumbers;
use std::alloc::{AllocError, Global};

/// Whether a type stands for an integer or a pointer.
fn stands_for_scalar(
    alloc: Global,
    numbers: &mut TypeNumbers,
    types: &TypeTable,
    over: &IrType,
) -> Result<bool, AllocError>
    requires small { length types.now < 2 ^ 32 }
    requires own { IsFor (view_entries view_type_entry types.now) numbers.old }
    ensures scalar { IfOk result (λ r. r ≡ is_scalar (meant (view_entries view_type_entry types.now) (view_type over.now))) }
    ensures own { IsFor (view_entries view_type_entry types.now) numbers.new }
{
    let number = numbers.number(alloc, types, over)?;
    Ok(numbers.is_scalar(number))
}

/// Whether the parameters are integers and pointers.
fn parameters_scalar(
    alloc: Global,
    numbers: &mut TypeNumbers,
    types: &TypeTable,
    parameters: &[(IrType, Name)],
) -> Result<bool, AllocError>
    requires small { length types.now < 2 ^ 32 }
    requires own { IsFor (view_entries view_type_entry types.now) numbers.old }
    ensures scalar { IfOk result (λ r. r ≡ list_all (λ (p : Ty × List ℕ). is_scalar (meant (view_entries view_type_entry types.now) p.0)) (map (λ p. (view_type p.0, p.1)) parameters.now)) }
    ensures own { IsFor (view_entries view_type_entry types.now) numbers.new }
{
    'each: for parameter in parameters {
        if !stands_for_scalar(alloc, numbers, types, &parameter.0)? {
            return Ok(false);
        }
    }
    Ok(true)
}

/// Whether a result is an integer, a pointer or none.
fn result_fits(
    alloc: Global,
    numbers: &mut TypeNumbers,
    types: &TypeTable,
    over: &IrType,
) -> Result<bool, AllocError>
    requires small { length types.now < 2 ^ 32 }
    requires own { IsFor (view_entries view_type_entry types.now) numbers.old }
    ensures fits { IfOk result (λ r. r ≡ (is_scalar (meant (view_entries view_type_entry types.now) (view_type over.now)) || is_void (meant (view_entries view_type_entry types.now) (view_type over.now)))) }
    ensures own { IsFor (view_entries view_type_entry types.now) numbers.new }
{
    let number = numbers.number(alloc, types, over)?;
    Ok(numbers.is_scalar(number) || numbers.is_void(number))
}

/// Whether the parameters of a function are integers and pointers, and its result is one of these or none.
fn signature_fits(
    alloc: Global,
    numbers: &mut TypeNumbers,
    types: &TypeTable,
    function: &Function,
) -> Result<bool, AllocError>
    requires small { length types.now < 2 ^ 32 }
    requires own { IsFor (view_entries view_type_entry types.now) numbers.old }
    ensures fits { IfOk result (λ r. r ≡ definition.signature_fits (view_entries view_type_entry types.now) (view_function function.now)) }
    ensures own { IsFor (view_entries view_type_entry types.now) numbers.new }
{
    let parameters = function.parameters.items.as_slice();
    if !parameters_scalar(alloc, numbers, types, parameters)? {
        return Ok(false);
    }
    let fits = result_fits(alloc, numbers, types, &function.result)?;
    Ok(fits)
}

/// Whether the parameters of a function with a body are integers and pointers, and its result is one of these or none.
pub fn head_fits(
    alloc: Global,
    numbers: &mut TypeNumbers,
    types: &TypeTable,
    function: &Function,
) -> Result<bool, AllocError>
    requires small { length types.now < 2 ^ 32 }
    requires own { IsFor (view_entries view_type_entry types.now) numbers.old }
    ensures fits { IfOk result (λ r. r ≡ definition.head_fits (view_entries view_type_entry types.now) (view_function function.now)) }
    ensures own { IsFor (view_entries view_type_entry types.now) numbers.new }
{
    match &function.body {
        Some(_) => signature_fits(alloc, numbers, types, function),
        None => Ok(true),
    }
}
