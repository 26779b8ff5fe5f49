//! The types of a call against those of the function that it calls.

ghost use Rattle.std.specs.Prelude.{◌≡◌, ◌∷◌, [], Some, length, map, IfOk};
ghost use Rattle.ir_ast.specs.Small.{IsSmall};
ghost use Rattle.ir_ast.specs.Plain.{integer};
ghost use Rattle.ir_ast.specs.View.{view_type};
ghost use Rattle.ir_ast.specs.ProgramView.{view_module, view_function, view_typed};
ghost use Rattle.ir_type.specs.Whole.{meant, is_same};
ghost use Rattle.ir_typing.specs.Intrinsics.{number_and_bit, intrinsic_of};
ghost use Rattle.ir_typing.specs.Listed.{view_listed};
ghost use Rattle.ir_typing.specs.Registers.{function_of};
ghost use Rattle.ir_typing.specs.Fits as definition;
ghost use Rattle.ir_typing.specs.Scoped.{types_in, scope_in, IsTyped};

use crate::fit::number_of;
use crate::intrinsics::{Form, Listed, intrinsic};
use crate::scope::Scope;
use crate::tables::function_named;
use ir_ast::{Function, IrType, Module, Name, Operand, TypedList};
use ir_whole::TypeNumbers;
use std::alloc::{AllocError, Global};

/// Whether two types stand for one whole type.
pub fn same_type(
    alloc: Global,
    numbers: &mut TypeNumbers,
    scope: &Scope,
    a: &IrType,
    b: &IrType,
) -> Result<bool, AllocError>
    requires { IsTyped numbers.old scope.now }
    ensures same { IfOk result (λ r. r ≡ is_same (meant (types_in scope.now) (view_type a.now)) (meant (types_in scope.now) (view_type b.now))) }
    ensures typed { IsTyped numbers.new scope.now }
{
    let a = number_of(alloc, numbers, scope, a)?;
    let b = number_of(alloc, numbers, scope, b)?;
    Ok(numbers.is_same(a, b))
}

/// Whether a type is an integer of this width, in bits.
fn is_integer(
    alloc: Global,
    numbers: &mut TypeNumbers,
    scope: &Scope,
    over: &IrType,
    width: u32,
) -> Result<bool, AllocError>
    requires { IsTyped numbers.old scope.now }
    ensures same { IfOk result (λ r. r ≡ is_same (meant (types_in scope.now) (view_type over.now)) (integer width)) }
    ensures typed { IsTyped numbers.new scope.now }
{
    same_type(alloc, numbers, scope, over, &IrType::Int(width))
}

/// The type of what a call with overflow gives: an integer of this width in bits, and a bit.
pub fn pair_type(alloc: Global, width: u32) -> Result<IrType, AllocError>
    ensures { IfOk result (λ t. view_type t ≡ number_and_bit width) }
{
    let mut parts = Vec::new(alloc);
    parts.push(IrType::Int(width))?;
    parts.push(IrType::Int(1))?;
    Ok(IrType::struct_of(parts))
}

/// Whether a type is that of what a call with overflow gives, at this width in bits.
#[tactic(auto, using(crate::proofs::Agreeing::pair_is))]
fn is_pair(
    alloc: Global,
    numbers: &mut TypeNumbers,
    scope: &Scope,
    over: &IrType,
    width: u32,
) -> Result<bool, AllocError>
    requires { IsTyped numbers.old scope.now }
    ensures same { IfOk result (λ r. r ≡ is_same (meant (types_in scope.now) (view_type over.now)) (number_and_bit width)) }
    ensures typed { IsTyped numbers.new scope.now }
{
    let pair = pair_type(alloc, width)?;
    let same = same_type(alloc, numbers, scope, over, &pair)?;
    Ok(same)
}

/// Whether there are two arguments, integers of these widths in bits.
fn are_two(
    alloc: Global,
    numbers: &mut TypeNumbers,
    scope: &Scope,
    arguments: &[(IrType, Operand)],
    first: u32,
    second: u32,
) -> Result<bool, AllocError>
    requires { IsTyped numbers.old scope.now }
    ensures same { IfOk result (λ r. r ≡ definition.are_one (types_in scope.now) (map (λ a. view_type a.0) arguments.now) (integer first ∷ integer second ∷ [])) }
    ensures typed { IsTyped numbers.new scope.now }
{
    let [a, b] = arguments else {
        return Ok(false);
    };
    if !is_integer(alloc, numbers, scope, &a.0, first)? {
        return Ok(false);
    }
    is_integer(alloc, numbers, scope, &b.0, second)
}

/// Whether there is one argument, a condition.
fn is_condition(
    alloc: Global,
    numbers: &mut TypeNumbers,
    scope: &Scope,
    arguments: &[(IrType, Operand)],
) -> Result<bool, AllocError>
    requires { IsTyped numbers.old scope.now }
    ensures same { IfOk result (λ r. r ≡ definition.are_one (types_in scope.now) (map (λ a. view_type a.0) arguments.now) (integer 1 ∷ [])) }
    ensures typed { IsTyped numbers.new scope.now }
{
    let [a] = arguments else {
        return Ok(false);
    };
    is_integer(alloc, numbers, scope, &a.0, 1)
}

/// Whether a result is the one that an intrinsic gives.
fn result_agrees(
    alloc: Global,
    numbers: &mut TypeNumbers,
    scope: &Scope,
    gives: &IrType,
    found: Listed,
) -> Result<bool, AllocError>
    requires { IsTyped numbers.old scope.now }
    ensures same { IfOk result (λ r. r ≡ is_same (meant (types_in scope.now) (view_type gives.now)) (meant (types_in scope.now) (view_listed found).signature.result)) }
    ensures typed { IsTyped numbers.new scope.now }
{
    match found.form {
        Form::Overflow => is_pair(alloc, numbers, scope, gives, found.width),
        Form::Pair => is_integer(alloc, numbers, scope, gives, found.width),
        Form::Flag => is_integer(alloc, numbers, scope, gives, found.width),
        Form::Assume => same_type(alloc, numbers, scope, gives, &IrType::Void),
    }
}

/// Whether arguments are those that an intrinsic takes.
fn arguments_agree(
    alloc: Global,
    numbers: &mut TypeNumbers,
    scope: &Scope,
    arguments: &[(IrType, Operand)],
    found: Listed,
) -> Result<bool, AllocError>
    requires { IsTyped numbers.old scope.now }
    ensures same { IfOk result (λ r. r ≡ definition.are_one (types_in scope.now) (map (λ a. view_type a.0) arguments.now) (view_listed found).signature.parameters) }
    ensures typed { IsTyped numbers.new scope.now }
{
    match found.form {
        Form::Overflow => are_two(alloc, numbers, scope, arguments, found.width, found.width),
        Form::Pair => are_two(alloc, numbers, scope, arguments, found.width, found.width),
        Form::Flag => are_two(alloc, numbers, scope, arguments, found.width, 1),
        Form::Assume => is_condition(alloc, numbers, scope, arguments),
    }
}

/// Whether arguments are of the types of as many parameters.
fn parameters_agree(
    alloc: Global,
    numbers: &mut TypeNumbers,
    scope: &Scope,
    arguments: &[(IrType, Operand)],
    parameters: &[(IrType, Name)],
) -> Result<bool, AllocError>
    requires typed { IsTyped numbers.old scope.now }
    requires count { length arguments.now ≡ length parameters.now }
    ensures same { IfOk result (λ r. r ≡ definition.are_one (types_in scope.now) (map (λ a. view_type a.0) arguments.now) (map (λ p. view_type p.0) parameters.now)) }
    ensures typed { IsTyped numbers.new scope.now }
{
    for (at, argument) in arguments.iter().enumerate() {
        if !same_type(alloc, numbers, scope, &argument.0, &parameters[at].0)? {
            return Ok(false);
        }
    }
    Ok(true)
}

/// Whether a call agrees with a function that has a body.
#[tactic(auto, using(crate::proofs::Agreeing::other_lengths, crate::proofs::Agreeing::mapped_parameters))]
fn body_agrees(
    alloc: Global,
    numbers: &mut TypeNumbers,
    scope: &Scope,
    gives: &IrType,
    arguments: &[(IrType, Operand)],
    function: &Function,
) -> Result<bool, AllocError>
    requires { IsTyped numbers.old scope.now }
    ensures same { IfOk result (λ r. r ≡ definition.meets (types_in scope.now) (view_type gives.now) (map (λ a. view_type a.0) arguments.now) (definition.signature_of (view_function function.now))) }
    ensures typed { IsTyped numbers.new scope.now }
{
    if !same_type(alloc, numbers, scope, gives, &function.result)? {
        return Ok(false);
    }
    let parameters = function.parameters.items.as_slice();
    if arguments.len() != parameters.len() {
        return Ok(false);
    }
    let agree = parameters_agree(alloc, numbers, scope, arguments, parameters)?;
    Ok(agree)
}

/// Whether a call agrees with a declared function of this name.
fn declared_agrees(
    alloc: Global,
    numbers: &mut TypeNumbers,
    scope: &Scope,
    gives: &IrType,
    callee: &Name,
    arguments: &[(IrType, Operand)],
) -> Result<bool, AllocError>
    requires { IsTyped numbers.old scope.now }
    ensures same { IfOk result (λ r. r ≡ definition.meets_declared (types_in scope.now) (view_type gives.now) (map (λ a. view_type a.0) arguments.now) (intrinsic_of callee.now)) }
    ensures typed { IsTyped numbers.new scope.now }
{
    let Some(found) = intrinsic(callee) else {
        return Ok(matches!(gives, IrType::Void));
    };
    if !result_agrees(alloc, numbers, scope, gives, found)? {
        return Ok(false);
    }
    let agree = arguments_agree(alloc, numbers, scope, arguments, found)?;
    Ok(agree)
}

/// Whether a call agrees with a function of this name.
fn function_agrees(
    alloc: Global,
    numbers: &mut TypeNumbers,
    scope: &Scope,
    gives: &IrType,
    callee: &Name,
    arguments: &[(IrType, Operand)],
    function: &Function,
) -> Result<bool, AllocError>
    requires { IsTyped numbers.old scope.now }
    ensures same { IfOk result (λ r. r ≡ definition.call_fits (types_in scope.now) (view_type gives.now) callee.now (map (λ a. view_type a.0) arguments.now) (Some (view_function function.now))) }
    ensures typed { IsTyped numbers.new scope.now }
{
    match &function.body {
        Some(_) => body_agrees(alloc, numbers, scope, gives, arguments, function),
        None => declared_agrees(alloc, numbers, scope, gives, callee, arguments),
    }
}

/// Whether a call agrees with the function that it names.
#[tactic(auto, using(crate::proofs::Agreeing::typed_types))]
pub fn call_fits(
    alloc: Global,
    numbers: &mut TypeNumbers,
    module: &Module,
    scope: &Scope,
    gives: &IrType,
    callee: &Name,
    arguments: &TypedList,
) -> Result<bool, AllocError>
    requires typed { IsTyped numbers.old scope.now }
    requires small { IsSmall «module».now }
    ensures same { IfOk result (λ r. r ≡ definition.call_fits (types_in scope.now) (view_type gives.now) callee.now (map (λ a. a.0) (view_typed arguments.now.items.items)) (function_of (view_module «module».now) callee.now)) }
    ensures typed { IsTyped numbers.new scope.now }
{
    let Some(function) = function_named(module, callee) else {
        return Ok(false);
    };
    let items = arguments.items.as_slice();
    let agree = function_agrees(alloc, numbers, scope, gives, callee, items, function)?;
    Ok(agree)
}
