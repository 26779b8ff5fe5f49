//! What the numbers of types answer of types that rows spell: whether two are one, what parts a type has, and its shape.

ghost use Rattle.std.specs.Prelude.{◌≡◌, ◌<◌, ◌^◌, length, IfOk};
ghost use Rattle.ir_ast.specs.View.{view_type};
ghost use Rattle.ir_ast.specs.ProgramView.{view_entries, view_type_entry};
ghost use Rattle.ir_type.specs.Whole as whole;
ghost use Rattle.ir_whole.specs.Numbers.{types_of, IsFor};

use ir_ast::{IrType, TypeTable};
use ir_whole::TypeNumbers;
use std::alloc::{AllocError, Global};

/// Whether two types stand for one, by their numbers.
pub fn is_one(
    alloc: Global,
    types: &TypeTable,
    numbers: &mut TypeNumbers,
    t: &IrType,
    u: &IrType,
) -> Result<bool, AllocError>
    requires small { length types.now < 2 ^ 32 }
    requires types { IsFor (view_entries view_type_entry types.now) numbers.old }
    ensures same { IfOk result (λ b. b ≡ whole.is_same (whole.meant (view_entries view_type_entry types.now) (view_type t.now)) (whole.meant (view_entries view_type_entry types.now) (view_type u.now))) }
    ensures types { IsFor (view_entries view_type_entry types.now) numbers.new }
{
    let a = numbers.number(alloc, types, t)?;
    let b = numbers.number(alloc, types, u)?;
    Ok(numbers.is_same(a, b))
}

/// Whether a type has parts that are integers of odd widths, and parts that are pointers.
pub fn parts(
    alloc: Global,
    types: &TypeTable,
    numbers: &mut TypeNumbers,
    over: &IrType,
) -> Result<String, AllocError>
    requires small { length types.now < 2 ^ 32 }
    requires types { IsFor (view_entries view_type_entry types.now) numbers.old }
    ensures types { IsFor (view_entries view_type_entry types.now) numbers.new }
{
    let number = numbers.number(alloc, types, over)?;
    let odd = numbers.has_odd(number);
    let pointer = numbers.has_pointer(number);
    format!(in alloc; "odd {odd}, pointer {pointer}")
}

/// What a type is, with its width and the number of its fields.
pub fn shape(
    alloc: Global,
    types: &TypeTable,
    numbers: &mut TypeNumbers,
    over: &IrType,
) -> Result<String, AllocError>
    requires small { length types.now < 2 ^ 32 }
    requires types { IsFor (view_entries view_type_entry types.now) numbers.old }
    ensures types { IsFor (view_entries view_type_entry types.now) numbers.new }
{
    let number = numbers.number(alloc, types, over)?;
    let void = numbers.is_void(number);
    let pointer = numbers.is_pointer(number);
    let scalar = numbers.is_scalar(number);
    let width = numbers.width(number);
    let fields = numbers.fields(number);
    format!(in alloc;
        "void {void}, pointer {pointer}, scalar {scalar}, width {width:?}, fields {fields:?}"
    )
}

/// The number of part k of the first part of an array's element.
fn part_number(numbers: &TypeNumbers, number: u32, k: u64) -> Option<u32>
    requires { number < length (types_of numbers.now) }
{
    let (_, element) = numbers.element(number)?;
    let first = numbers.field(element, 0)?;
    numbers.field(first, k)
}

/// What part k of the first part of an array's element is, of an i8, a pointer and others.
pub fn inner(
    alloc: Global,
    types: &TypeTable,
    numbers: &mut TypeNumbers,
    over: &IrType,
    k: u64,
) -> Result<&'static str, AllocError>
    requires small { length types.now < 2 ^ 32 }
    requires types { IsFor (view_entries view_type_entry types.now) numbers.old }
    ensures types { IsFor (view_entries view_type_entry types.now) numbers.new }
{
    let byte = numbers.integer(alloc, 8)?;
    let pointer = numbers.pointer(alloc)?;
    let number = numbers.number(alloc, types, over)?;
    match part_number(numbers, number, k) {
        Some(part) if part == byte => Ok("i8"),
        Some(part) if part == pointer => Ok("pointer"),
        Some(_) => Ok("another"),
        None => Ok("none"),
    }
}
