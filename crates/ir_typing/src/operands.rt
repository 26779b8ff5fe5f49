//! The operands of an instruction against the types that it asks for.

ghost use Rattle.std.specs.Prelude.{◌≡◌, ◌∷◌, [], IfOk};
ghost use Rattle.std.specs.List.{list_all};
ghost use Rattle.ir_ast.specs.Plain.{integer};
ghost use Rattle.ir_ast.specs.View.{view_type, view_operand};
ghost use Rattle.ir_ast.specs.ProgramView.{view_op};
ghost use Rattle.ir_ast.specs.Program.{select};
ghost use Rattle.ir_type.specs.Whole.{meant};
ghost use Rattle.ir_typing.specs.Fits as definition;
ghost use Rattle.ir_typing.specs.Scoped.{types_in, scope_in, IsTyped};

use crate::fit::{form_fits, number_of, operand_fits};
use crate::scope::Scope;
use ir_ast::{ArmList, IrType, Op, Operand, TypedList};
use ir_whole::TypeNumbers;
use std::alloc::{AllocError, Global};

/// Whether an operand is one of a type.
fn typed_fits(
    alloc: Global,
    numbers: &mut TypeNumbers,
    scope: &Scope,
    over: &IrType,
    operand: &Operand,
) -> Result<bool, AllocError>
    requires { IsTyped numbers.old scope.now }
    ensures fits { IfOk result (λ b. b ≡ definition.fits (scope_in scope.now) (meant (types_in scope.now) (view_type over.now)) (view_operand operand.now)) }
    ensures typed { IsTyped numbers.new scope.now }
{
    let over = number_of(alloc, numbers, scope, over)?;
    let fits = operand_fits(alloc, numbers, scope, over, operand)?;
    Ok(fits)
}

/// Whether an operand is an integer of this width, in bits.
fn integer_fits(
    alloc: Global,
    numbers: &mut TypeNumbers,
    scope: &Scope,
    width: u32,
    operand: &Operand,
) -> Result<bool, AllocError>
    requires { IsTyped numbers.old scope.now }
    ensures fits { IfOk result (λ b. b ≡ definition.fits (scope_in scope.now) (integer width) (view_operand operand.now)) }
    ensures typed { IsTyped numbers.new scope.now }
{
    typed_fits(alloc, numbers, scope, &IrType::Int(width), operand)
}

/// Whether two operands are of one type.
fn both_fit(
    alloc: Global,
    numbers: &mut TypeNumbers,
    scope: &Scope,
    over: &IrType,
    a: &Operand,
    b: &Operand,
) -> Result<bool, AllocError>
    requires { IsTyped numbers.old scope.now }
    ensures fits { IfOk result (λ r. r ≡ list_all (λ v. definition.fits (scope_in scope.now) (meant (types_in scope.now) (view_type over.now)) v) (view_operand a.now ∷ view_operand b.now ∷ [])) }
    ensures typed { IsTyped numbers.new scope.now }
{
    if !typed_fits(alloc, numbers, scope, over, a)? {
        return Ok(false);
    }
    typed_fits(alloc, numbers, scope, over, b)
}

/// Whether a condition and two operands are of their types.
fn choice_fits(
    alloc: Global,
    numbers: &mut TypeNumbers,
    scope: &Scope,
    condition: &Operand,
    over: &IrType,
    a: &Operand,
    b: &Operand,
) -> Result<bool, AllocError>
    requires { IsTyped numbers.old scope.now }
    ensures fits { IfOk result (λ r. r ≡ definition.operands_fit (scope_in scope.now) (select (view_operand condition.now) (view_type over.now) (view_operand a.now) (view_operand b.now))) }
    ensures typed { IsTyped numbers.new scope.now }
{
    if !integer_fits(alloc, numbers, scope, 1, condition)? {
        return Ok(false);
    }
    both_fit(alloc, numbers, scope, over, a, b)
}

/// Whether the operands of a phi are of its type.
fn arms_fit(
    alloc: Global,
    numbers: &mut TypeNumbers,
    scope: &Scope,
    over: &IrType,
    arms: &ArmList,
) -> Result<bool, AllocError>
    requires { IsTyped numbers.old scope.now }
    ensures fits { IfOk result (λ r. r ≡ list_all (λ a. definition.fits (scope_in scope.now) (meant (types_in scope.now) (view_type over.now)) (view_operand a.0)) arms.now.items.items) }
    ensures typed { IsTyped numbers.new scope.now }
{
    let items = arms.items.as_slice();
    'each: for arm in items {
        if !typed_fits(alloc, numbers, scope, over, &arm.0)? {
            return Ok(false);
        }
    }
    Ok(true)
}

/// Whether the arguments of a call are of their types.
fn arguments_fit(
    alloc: Global,
    numbers: &mut TypeNumbers,
    scope: &Scope,
    arguments: &TypedList,
) -> Result<bool, AllocError>
    requires { IsTyped numbers.old scope.now }
    ensures fits { IfOk result (λ r. r ≡ list_all (λ a. definition.fits (scope_in scope.now) (meant (types_in scope.now) (view_type a.0)) (view_operand a.1)) arguments.now.items.items) }
    ensures typed { IsTyped numbers.new scope.now }
{
    let items = arguments.items.as_slice();
    'each: for argument in items {
        if !typed_fits(alloc, numbers, scope, &argument.0, &argument.1)? {
            return Ok(false);
        }
    }
    Ok(true)
}

/// Whether the operands of an instruction are of the types that it asks for.
pub fn operands_fit(
    alloc: Global,
    numbers: &mut TypeNumbers,
    scope: &Scope,
    op: &Op,
) -> Result<bool, AllocError>
    requires { IsTyped numbers.old scope.now }
    ensures fits { IfOk result (λ r. r ≡ definition.operands_fit (scope_in scope.now) (view_op op.now)) }
    ensures typed { IsTyped numbers.new scope.now }
{
    match op {
        Op::Binary { width, a, b, .. } => {
            both_fit(alloc, numbers, scope, &IrType::Int(*width), a, b)
        }
        Op::Compare { over, a, b, .. } => both_fit(alloc, numbers, scope, over, a, b),
        Op::Select {
            condition,
            over,
            a,
            b,
        } => choice_fits(alloc, numbers, scope, condition, over, a, b),
        Op::Convert { from, a, .. } => integer_fits(alloc, numbers, scope, *from, a),
        Op::Freeze { over, a } => typed_fits(alloc, numbers, scope, over, a),
        Op::Phi { over, arms } => arms_fit(alloc, numbers, scope, over, arms),
        Op::Slot { .. } => Ok(true),
        Op::Load { .. } => Ok(true),
        Op::Store { over, value, .. } => typed_fits(alloc, numbers, scope, over, value),
        Op::Offset(gep) => form_fits(alloc, numbers, scope, gep),
        Op::Call { arguments, .. } => arguments_fit(alloc, numbers, scope, arguments),
        Op::Extract { .. } => Ok(true),
        Op::Goto { .. } => Ok(true),
        Op::Branch { condition, .. } => integer_fits(alloc, numbers, scope, 1, condition),
        Op::Switch { width, on, .. } => integer_fits(alloc, numbers, scope, *width, on),
        Op::Return {
            over,
            value: Some(value),
        } => typed_fits(alloc, numbers, scope, over, value),
        Op::Return { .. } => Ok(true),
        Op::Unreachable => Ok(true),
    }
}
