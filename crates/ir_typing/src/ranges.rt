//! The range that a load names.

ghost use Rattle.std.specs.Prelude.{◌≡◌, ◌<◌, ◌&&◌, ℤ, Some, length, map, IfOk};
ghost use Rattle.std.specs.List.{list_all};
ghost use Rattle.ir_ast.specs.Small.{IsSmall};
ghost use Rattle.ir_ast.specs.Plain.{Ty};
ghost use Rattle.ir_ast.specs.View.{view_type};
ghost use Rattle.ir_ast.specs.ProgramView.{view_module, view_range};
ghost use Rattle.ir_type.specs.Whole.{meant, is_same};
ghost use Rattle.ir_whole.specs.Heads.{type_at};
ghost use Rattle.ir_whole.specs.Numbers.{types_of};
ghost use Rattle.ir_typing.specs.Fits as definition;
ghost use Rattle.ir_typing.specs.Scoped.{types_in, IsTyped};

use crate::fit::{is_integer, number_fits, number_of};
use crate::scope::Scope;
use crate::tables::range_named;
use ir_ast::{IrType, Module, Name, RangeEntry};
use ir_whole::TypeNumbers;
use std::alloc::{AllocError, Global};

/// Whether a number of a range is one of the type with this number, and of this type itself.
fn bound_fits(
    alloc: Global,
    numbers: &mut TypeNumbers,
    scope: &Scope,
    over: u32,
    bound: &(IrType, i128),
) -> Result<bool, AllocError>
    requires typed { IsTyped numbers.old scope.now }
    requires over { over < length (types_of numbers.old) }
    ensures fits { IfOk result (λ r. r ≡ (is_same (meant (types_in scope.now) (view_type bound.now.0)) (type_at (types_of numbers.old) over) && definition.fits_number (type_at (types_of numbers.old) over) bound.now.1)) }
    ensures typed { IsTyped numbers.new scope.now }
    ensures over { over < length (types_of numbers.new) }
    ensures keeps { type_at (types_of numbers.new) over ≡ type_at (types_of numbers.old) over }
{
    let own = number_of(alloc, numbers, scope, &bound.0)?;
    Ok(numbers.is_same(own, over) && number_fits(numbers, over, bound.1))
}

/// Whether all numbers of a range are of the type with this number.
fn bounds_fit(
    alloc: Global,
    numbers: &mut TypeNumbers,
    scope: &Scope,
    over: u32,
    bounds: &[(IrType, i128)],
) -> Result<bool, AllocError>
    requires typed { IsTyped numbers.old scope.now }
    requires over { over < length (types_of numbers.old) }
    ensures fits { IfOk result (λ r. r ≡ list_all (λ (n : Ty × ℤ). is_same (meant (types_in scope.now) n.0) (type_at (types_of numbers.old) over) && definition.fits_number (type_at (types_of numbers.old) over) n.1) (map (λ n. (view_type n.0, n.1)) bounds.now)) }
    ensures typed { IsTyped numbers.new scope.now }
{
    'each: for bound in bounds {
        if !bound_fits(alloc, numbers, scope, over, bound)? {
            return Ok(false);
        }
    }
    Ok(true)
}

/// Whether a range holds pairs of numbers of a type, which is an integer.
#[tactic(auto, using(crate::proofs::RangeLengths::counted))]
fn range_fits(
    alloc: Global,
    numbers: &mut TypeNumbers,
    scope: &Scope,
    over: &IrType,
    range: &RangeEntry,
) -> Result<bool, AllocError>
    requires { IsTyped numbers.old scope.now }
    ensures fits { IfOk result (λ r. r ≡ definition.fits_range (types_in scope.now) (meant (types_in scope.now) (view_type over.now)) (Some (view_range range.now))) }
    ensures typed { IsTyped numbers.new scope.now }
{
    let over = number_of(alloc, numbers, scope, over)?;
    let bounds = range.numbers.items.as_slice();
    if !is_integer(numbers, over) || bounds.len() % 2 != 0 {
        return Ok(false);
    }
    let fits = bounds_fit(alloc, numbers, scope, over, bounds)?;
    Ok(fits)
}

/// Whether the range that a load names, where it names one, holds pairs of numbers of its type.
pub fn named_range_fits(
    alloc: Global,
    numbers: &mut TypeNumbers,
    module: &Module,
    scope: &Scope,
    over: &IrType,
    name: &Option<Name>,
) -> Result<bool, AllocError>
    requires typed { IsTyped numbers.old scope.now }
    requires small { IsSmall «module».now }
    ensures fits { IfOk result (λ r. r ≡ definition.range_fits (types_in scope.now) (view_module «module».now) (view_type over.now) name.now) }
    ensures typed { IsTyped numbers.new scope.now }
{
    let Some(name) = name else {
        return Ok(true);
    };
    match range_named(module, name) {
        Some(range) => range_fits(alloc, numbers, scope, over, range),
        None => Ok(false),
    }
}
