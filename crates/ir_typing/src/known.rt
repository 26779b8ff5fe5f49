//! Whether the names that an instruction uses are known.

ghost use Rattle.std.specs.Prelude.{◌≡◌, is_some, map};
ghost use Rattle.std.specs.List.{list_all};
ghost use Rattle.ir_ast.specs.Small.{IsSmall};
ghost use Rattle.ir_ast.specs.View.{view_operand, view_gep, view_index_list};
ghost use Rattle.ir_ast.specs.ProgramView.{view_module, view_function, view_op, view_arms};
ghost use Rattle.ir_type.specs.Rows.{values, targets, arm_blocks};
ghost use Rattle.ir_typing.specs.Registers.{block_of, function_of};
ghost use Rattle.ir_typing.specs.Known as definition;
ghost use Rattle.ir_typing.specs.Knows.{knows, knows_form, knows_indices};
ghost use Rattle.ir_typing.specs.Scoped.{function_in};

use crate::intrinsics::intrinsic;
use crate::scope::Scope;
use crate::tables::{function_named, has_global, range_named};
use ir_ast::{
    ArmList, CaseList, Function, Gep, IndexList, IrType, Module, Name, Op, Operand, TypedList,
};

/// Whether the names that an operand spells are known.
#[cycle(known)]
fn operand_known(module: &Module, scope: &Scope, operand: &Operand) -> bool
    requires { IsSmall «module».now }
    ensures { result ≡ knows (view_module «module».now) (function_in scope.now) (view_operand operand.now) }
{
    match operand {
        Operand::Local(name) => scope.has_register(name),
        Operand::Global(name) => has_global(module, name),
        Operand::Address(gep) => gep_known(module, scope, gep),
        _ => true,
    }
}

#[cycle(known)]
fn gep_known(module: &Module, scope: &Scope, gep: &Gep) -> bool
    requires { IsSmall «module».now }
    ensures { result ≡ knows_form (view_module «module».now) (function_in scope.now) (view_gep gep.now) }
{
    operand_known(module, scope, &gep.base) && indices_known(module, scope, &gep.indices)
}

#[cycle(known)]
fn indices_known(module: &Module, scope: &Scope, indices: &IndexList) -> bool
    requires { IsSmall «module».now }
    ensures { result ≡ knows_indices (view_module «module».now) (function_in scope.now) (view_index_list indices.now) }
{
    let items = indices.items.as_slice();
    'each: for index in items {
        if !operand_known(module, scope, &index.1) {
            return false;
        }
    }
    true
}

/// Whether the names that the arguments of a call spell are known.
fn arguments_known(module: &Module, scope: &Scope, arguments: &TypedList) -> bool
    requires { IsSmall «module».now }
    ensures { result ≡ list_all (λ a. knows (view_module «module».now) (function_in scope.now) (view_operand a.1)) arguments.now.items.items }
{
    let items = arguments.items.as_slice();
    'each: for argument in items {
        if !operand_known(module, scope, &argument.1) {
            return false;
        }
    }
    true
}

/// Whether the names that the operands of a phi spell are known.
fn arms_known(module: &Module, scope: &Scope, arms: &ArmList) -> bool
    requires { IsSmall «module».now }
    ensures { result ≡ list_all (λ a. knows (view_module «module».now) (function_in scope.now) (view_operand a.0)) arms.now.items.items }
{
    let items = arms.items.as_slice();
    'each: for arm in items {
        if !operand_known(module, scope, &arm.0) {
            return false;
        }
    }
    true
}

/// Whether the names that the operands of an instruction spell are known.
#[tactic(auto, using(crate::proofs::Knowing::phi_values, crate::proofs::Knowing::call_values))]
fn operands_known(module: &Module, scope: &Scope, op: &Op) -> bool
    requires { IsSmall «module».now }
    ensures { result ≡ list_all (knows (view_module «module».now) (function_in scope.now)) (values (view_op op.now)) }
{
    match op {
        Op::Binary { a, b, .. } => operand_known(module, scope, a)
            && operand_known(module, scope, b),
        Op::Compare { a, b, .. } => operand_known(module, scope, a)
            && operand_known(module, scope, b),
        Op::Select {
            condition,
            a,
            b,
            ..
        } => operand_known(module, scope, condition)
            && operand_known(module, scope, a)
            && operand_known(module, scope, b),
        Op::Convert { a, .. } => operand_known(module, scope, a),
        Op::Freeze { a, .. } => operand_known(module, scope, a),
        Op::Phi { arms, .. } => arms_known(module, scope, arms),
        Op::Slot { .. } => true,
        Op::Load { address, .. } => operand_known(module, scope, address),
        Op::Store { value, address, .. } => operand_known(module, scope, value)
            && operand_known(module, scope, address),
        Op::Offset(gep) => gep_known(module, scope, gep),
        Op::Call { arguments, .. } => arguments_known(module, scope, arguments),
        Op::Extract { from, .. } => operand_known(module, scope, from),
        Op::Goto { .. } => true,
        Op::Branch { condition, .. } => operand_known(module, scope, condition),
        Op::Switch { on, .. } => operand_known(module, scope, on),
        Op::Return {
            value: Some(value),
            ..
        } => operand_known(module, scope, value),
        Op::Return { .. } => true,
        Op::Unreachable => true,
    }
}

/// Whether the blocks that the cases of a switch lead to are known.
fn cases_known(scope: &Scope, cases: &CaseList) -> bool
    ensures { result ≡ list_all (λ x. is_some (block_of (function_in scope.now) x)) (map (λ c. c.1) cases.now.items.items) }
{
    let items = cases.items.as_slice();
    'each: for case in items {
        if !scope.has_block(&case.1) {
            return false;
        }
    }
    true
}

/// Whether the blocks that the arms of a phi name are known.
fn arms_lead(scope: &Scope, arms: &ArmList) -> bool
    ensures { result ≡ list_all (λ x. is_some (block_of (function_in scope.now) x)) (map (λ arm. arm.1) (view_arms arms.now.items.items)) }
{
    let items = arms.items.as_slice();
    'each: for arm in items {
        if !scope.has_block(&arm.1) {
            return false;
        }
    }
    true
}

/// Whether the blocks that an instruction goes to are known.
fn targets_known(scope: &Scope, op: &Op) -> bool
    ensures { result ≡ list_all (λ x. is_some (block_of (function_in scope.now) x)) (targets (view_op op.now)) }
{
    match op {
        Op::Goto { target } => scope.has_block(target),
        Op::Branch { yes, no, .. } => scope.has_block(yes) && scope.has_block(no),
        Op::Switch { default, cases, .. } => scope.has_block(default) && cases_known(scope, cases),
        _ => true,
    }
}

/// Whether the blocks that the arms of a phi name are known.
fn arm_blocks_known(scope: &Scope, op: &Op) -> bool
    ensures { result ≡ list_all (λ x. is_some (block_of (function_in scope.now) x)) (arm_blocks (view_op op.now)) }
{
    match op {
        Op::Phi { arms, .. } => arms_lead(scope, arms),
        _ => true,
    }
}

/// Whether the range that a load names is known.
fn range_known(module: &Module, op: &Op) -> bool
    requires { IsSmall «module».now }
    ensures { result ≡ definition.knows_range (view_module «module».now) (view_op op.now) }
{
    match op {
        Op::Load {
            range: Some(range),
            ..
        } => range_named(module, range).is_some(),
        _ => true,
    }
}

/// Whether a declared function may be called: a listed intrinsic, or another one that is void.
fn may_call_declared(name: &Name, function: &Function) -> bool
    ensures { result ≡ definition.may_call_declared name.now (view_function function.now) }
{
    if name.as_bytes().starts_with(b"llvm.") {
        intrinsic(name).is_some()
    } else {
        matches!(function.result, IrType::Void)
    }
}

/// Whether a function of this name may be called.
fn may_call(module: &Module, name: &Name) -> bool
    requires { IsSmall «module».now }
    ensures { result ≡ definition.may_call name.now (function_of (view_module «module».now) name.now) }
{
    match function_named(module, name) {
        Some(function) => function.body.is_some() || may_call_declared(name, function),
        None => false,
    }
}

/// Whether the function that a call names may be called.
fn callee_known(module: &Module, op: &Op) -> bool
    requires { IsSmall «module».now }
    ensures { result ≡ definition.knows_callee (view_module «module».now) (view_op op.now) }
{
    match op {
        Op::Call { callee, .. } => may_call(module, callee),
        _ => true,
    }
}

/// Whether the names that an instruction uses are known, each among its own kind: its registers, globals, blocks, range and callee.
/// It takes time linear in the instruction.
#[tactic(auto, using(crate::proofs::Knowing::all_known))]
pub fn is_known(module: &Module, scope: &Scope, op: &Op) -> bool
    requires { IsSmall «module».now }
    ensures { result ≡ definition.is_known (view_module «module».now) (function_in scope.now) (view_op op.now) }
{
    operands_known(module, scope, op)
        && targets_known(scope, op)
        && arm_blocks_known(scope, op)
        && range_known(module, op)
        && callee_known(module, op)
}
