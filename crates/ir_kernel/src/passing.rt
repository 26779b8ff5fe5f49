//! Which numbers can be passed to a function: its name and the numbers come in, its place goes out, or why they do not fit.

ghost use Rattle.std.specs.Prelude.{◌≡◌, ◌<◌, ◌^◌, length, map, Some, option_map, slice_get, IfOk, ℕ, List};
ghost use Rattle.ir_ast.specs.Plain.{Ty};
ghost use Rattle.ir_ast.specs.View.{view_type};
ghost use Rattle.ir_ast.specs.ProgramView.{view_entries, view_type_entry, view_function, view_module};
ghost use Rattle.ir_type.specs.Whole.{meant, is_pointer};
ghost use Rattle.ir_whole.specs.Heads.{type_at};
ghost use Rattle.ir_whole.specs.Numbers.{IsFor, types_of};
ghost use Rattle.ir_kernel.specs.Passing as definition;

use crate::kernel::Kernel;
use ir_ast::{Function, IrType, Name, TypeTable};
use ir_value::is_number_of;
use ir_whole::TypeNumbers;
use std::alloc::{AllocError, Global};

/// Why numbers cannot be passed to the function of a name.
#[derive(Clone, Copy, Debug, PartialEq, Eq)]
pub enum Misfit {
    /// No function with a body has the name.
    Unknown,
    /// The function takes another number of arguments.
    Count,
    /// The parameter at this place, counted from 0, is a pointer, or the number is not below 2 to the power of its width. It is the
    /// first such.
    Argument(u64),
    /// The result is a pointer.
    Pointer,
}

/// What passing numbers to the function of a name comes to.
#[derive(Clone, Copy, Debug, PartialEq, Eq)]
pub enum Passed {
    /// The function at this place takes them.
    To(u32),
    Not(Misfit),
}

/// Whether a number is one of the type with this number.
fn takes_number(numbers: &TypeNumbers, over: u32, number: u64) -> bool
    requires { over < length (types_of numbers.now) }
    ensures { result ≡ definition.takes_number (type_at (types_of numbers.now) over) number }
{
    match numbers.width(over) {
        Some(width) => is_number_of(width, number),
        None => false,
    }
}

/// Whether a number is one of a type.
fn type_takes(
    alloc: Global,
    numbers: &mut TypeNumbers,
    types: &TypeTable,
    over: &IrType,
    number: u64,
) -> Result<bool, AllocError>
    requires small { length types.now < 2 ^ 32 }
    requires own { IsFor (view_entries view_type_entry types.now) numbers.old }
    ensures takes { IfOk result (λ r. r ≡ definition.takes_number (meant (view_entries view_type_entry types.now) (view_type over.now)) number) }
    ensures own { IsFor (view_entries view_type_entry types.now) numbers.new }
{
    let over = numbers.number(alloc, types, over)?;
    Ok(takes_number(numbers, over, number))
}

/// The type of a parameter.
fn parameter_at(parameters: &[(IrType, Name)], place: usize) -> &IrType
    requires { place < length parameters.now }
    ensures { option_map (λ (p : Ty × List ℕ). p.0) (slice_get (map (λ p. (view_type p.0, p.1)) parameters.now) place) ≡ Some (view_type result.now) }
{
    &parameters[place].0
}

fn argument_at(arguments: &[u64], place: usize) -> u64
    requires { place < length arguments.now }
    ensures { slice_get arguments.now place ≡ Some result }
{
    arguments[place]
}

/// The place of the first number that its parameter does not take.
fn first_untaken(
    alloc: Global,
    numbers: &mut TypeNumbers,
    types: &TypeTable,
    parameters: &[(IrType, Name)],
    arguments: &[u64],
) -> Result<Option<u64>, AllocError>
    requires small { length types.now < 2 ^ 32 }
    requires own { IsFor (view_entries view_type_entry types.now) numbers.old }
    requires count { length arguments.now ≡ length parameters.now }
    ensures first { IfOk result (λ r. r ≡ definition.first_untaken (view_entries view_type_entry types.now) 0 (map (λ p. (view_type p.0, p.1)) parameters.now) arguments.now) }
    ensures own { IsFor (view_entries view_type_entry types.now) numbers.new }
{
    for place in 0..arguments.len() {
        let over = parameter_at(parameters, place);
        let number = argument_at(arguments, place);
        if !type_takes(alloc, numbers, types, over, number)? {
            return Ok(Some(place as u64));
        }
    }
    Ok(None)
}

/// Whether a type is that of pointers.
fn is_pointer_type(
    alloc: Global,
    numbers: &mut TypeNumbers,
    types: &TypeTable,
    over: &IrType,
) -> Result<bool, AllocError>
    requires small { length types.now < 2 ^ 32 }
    requires own { IsFor (view_entries view_type_entry types.now) numbers.old }
    ensures pointer { IfOk result (λ r. r ≡ is_pointer (meant (view_entries view_type_entry types.now) (view_type over.now))) }
    ensures own { IsFor (view_entries view_type_entry types.now) numbers.new }
{
    let number = numbers.number(alloc, types, over)?;
    Ok(numbers.is_pointer(number))
}

/// What the first number that is not taken and the result say.
fn type_misfit(untaken: Option<u64>, pointer: bool) -> Option<Misfit>
    ensures { (result_type : Ty) → pointer ≡ is_pointer result_type → result ≡ definition.type_misfit untaken result_type }
{
    match untaken {
        Some(place) => Some(Misfit::Argument(place)),
        None if pointer => Some(Misfit::Pointer),
        None => None,
    }
}

/// Why a function does not take numbers.
fn function_misfit(
    alloc: Global,
    types: &TypeTable,
    function: &Function,
    arguments: &[u64],
) -> Result<Option<Misfit>, AllocError>
    requires { length types.now < 2 ^ 32 }
    ensures { IfOk result (λ r. r ≡ definition.function_misfit (view_entries view_type_entry types.now) (view_function function.now) arguments.now) }
{
    let parameters = function.parameters.items.as_slice();
    if arguments.len() != parameters.len() {
        return Ok(Some(Misfit::Count));
    }
    let mut numbers = TypeNumbers::of(alloc, types)?;
    let untaken = first_untaken(alloc, &mut numbers, types, parameters, arguments)?;
    let pointer = is_pointer_type(alloc, &mut numbers, types, &function.result)?;
    Ok(type_misfit(untaken, pointer))
}

/// What passing numbers to the function at a place comes to.
fn passed_to(place: u32, why: Option<Misfit>) -> Passed
    ensures { result ≡ definition.passed_to place why }
{
    match why {
        Some(why) => Passed::Not(why),
        None => Passed::To(place),
    }
}

/// The function of a name, which takes these numbers, or the first reason why there is none: its name, then the number of its
/// arguments, then each argument, then its result.
pub fn pass(
    alloc: Global,
    kernel: &Kernel,
    name: &Name,
    arguments: &[u64],
) -> Result<Passed, AllocError>
    ensures { IfOk result (definition.Passes (view_module kernel.now) name.now arguments.now) }
{
    let Some(place) = kernel.checked().find(name) else {
        return Ok(Passed::Not(Misfit::Unknown));
    };
    let module = kernel.checked().module();
    let function = module.functions.at(place);
    let why = function_misfit(alloc, &module.types, function, arguments)?;
    Ok(passed_to(place, why))
}
