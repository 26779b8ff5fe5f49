//! The addresses of loads and stores.

ghost use Rattle.std.specs.Prelude.{◌≡◌, ◌<◌, ◌≤◌, ◌&&◌, ℕ, None, length, is_some, not, option_map, IfOk, IfSome};
ghost use Rattle.ir_ast.specs.Plain.{Ty, pointer};
ghost use Rattle.ir_ast.specs.View.{view_type, view_operand};
ghost use Rattle.ir_ast.specs.ProgramView.{view_op};
ghost use Rattle.ir_type.specs.Whole.{meant, is_pointer, is_odd};
ghost use Rattle.ir_type.specs.Names.{entry_of};
ghost use Rattle.ir_whole.specs.Heads.{type_at};
ghost use Rattle.ir_whole.specs.Numbers.{types_of};
ghost use Rattle.ir_typing.specs.Fits as definition;
ghost use Rattle.ir_typing.specs.Access as pointers;
ghost use Rattle.ir_typing.specs.Scoped.{types_in, scope_in, IsTyped};

use crate::fit::{number_of, operand_fits};
use crate::held::Held;
use crate::literal::is_align;
use crate::scope::Scope;
use ir_ast::{IrType, Name, Op, Operand};
use ir_whole::TypeNumbers;
use std::alloc::{AllocError, Global};

/// The number of the type of the slot whose address a register holds.
fn slot_of(numbers: &TypeNumbers, scope: &Scope, name: &Name) -> Option<u32>
    requires { IsTyped numbers.now scope.now }
    ensures slot { option_map (type_at (types_of numbers.now)) result ≡ definition.slot_kind (entry_of name.now (scope_in scope.now).registers) }
    ensures within { IfSome result (λ n. n < length (types_of numbers.now)) }
{
    match scope.held(name) {
        Some(Held::Value(_)) => None,
        Some(Held::Slot(number)) => Some(number),
        Some(Held::Pair(_)) => None,
        None => None,
    }
}

/// The number of the type of the slot whose address an operand is.
fn slot_at(numbers: &TypeNumbers, scope: &Scope, operand: &Operand) -> Option<u32>
    requires { IsTyped numbers.now scope.now }
    ensures slot { option_map (type_at (types_of numbers.now)) result ≡ definition.slot_at (scope_in scope.now) (view_operand operand.now) }
    ensures within { IfSome result (λ n. n < length (types_of numbers.now)) }
{
    match operand {
        Operand::Local(name) => slot_of(numbers, scope, name),
        _ => None,
    }
}

/// Whether a type is an integer of a width that memory does not have.
#[tactic(auto, using(crate::proofs::Widen::odd_by_width))]
fn is_odd_width(numbers: &TypeNumbers, over: u32) -> bool
    requires { over < length (types_of numbers.now) }
    ensures { result ≡ is_odd (type_at (types_of numbers.now) over) }
{
    match numbers.width(over) {
        Some(8 | 16 | 32 | 64) => false,
        Some(_) => true,
        None => false,
    }
}

/// Whether memory outside slots is read or written at an operand in the type with this number.
fn outside_fits(
    alloc: Global,
    numbers: &mut TypeNumbers,
    scope: &Scope,
    over: u32,
    address: &Operand,
) -> Result<bool, AllocError>
    requires typed { IsTyped numbers.old scope.now }
    requires over { over < length (types_of numbers.old) }
    ensures fits { IfOk result (λ b. b ≡ definition.access_by (scope_in scope.now) (type_at (types_of numbers.old) over) (view_operand address.now) None) }
    ensures typed { IsTyped numbers.new scope.now }
{
    let pointer = number_of(alloc, numbers, scope, &IrType::Ptr)?;
    if !operand_fits(alloc, numbers, scope, pointer, address)? {
        return Ok(false);
    }
    Ok(numbers.is_scalar(over) && !is_odd_width(numbers, over))
}

/// Whether a load or store takes its address and its alignment.
pub fn access_fits(
    alloc: Global,
    numbers: &mut TypeNumbers,
    scope: &Scope,
    over: &IrType,
    address: &Operand,
    align: u64,
) -> Result<bool, AllocError>
    requires { IsTyped numbers.old scope.now }
    ensures fits { IfOk result (λ b. b ≡ definition.access_fits (scope_in scope.now) (view_type over.now) (view_operand address.now) align) }
    ensures typed { IsTyped numbers.new scope.now }
{
    if !is_align(align) {
        return Ok(false);
    }
    let over = number_of(alloc, numbers, scope, over)?;
    match slot_at(numbers, scope, address) {
        Some(slot) => Ok(numbers.is_same(over, slot)),
        None => outside_fits(alloc, numbers, scope, over, address),
    }
}

/// Whether a pointer is read or written outside slots.
fn is_pointer_outside(
    alloc: Global,
    numbers: &mut TypeNumbers,
    scope: &Scope,
    over: &IrType,
    address: &Operand,
) -> Result<bool, AllocError>
    requires { IsTyped numbers.old scope.now }
    ensures outside { IfOk result (λ b. b ≡ (is_pointer (meant (types_in scope.now) (view_type over.now)) && not (is_some (definition.slot_at (scope_in scope.now) (view_operand address.now))))) }
    ensures typed { IsTyped numbers.new scope.now }
{
    let over = number_of(alloc, numbers, scope, over)?;
    Ok(numbers.is_pointer(over) && slot_at(numbers, scope, address).is_none())
}

/// Whether an instruction is a load or store of a pointer outside slots. It takes time linear in the instruction.
pub fn is_pointer_access(
    alloc: Global,
    numbers: &mut TypeNumbers,
    scope: &Scope,
    op: &Op,
) -> Result<bool, AllocError>
    requires { IsTyped numbers.old scope.now }
    ensures access { IfOk result (λ b. b ≡ pointers.is_pointer_access (scope_in scope.now) (view_op op.now)) }
    ensures typed { IsTyped numbers.new scope.now }
{
    match op {
        Op::Load { over, address, .. } => is_pointer_outside(alloc, numbers, scope, over, address),
        Op::Store { over, address, .. } => is_pointer_outside(alloc, numbers, scope, over, address),
        _ => Ok(false),
    }
}
