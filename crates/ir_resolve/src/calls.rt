//! Calls: of functions with a body, of listed intrinsics, and of other declared functions.

ghost use Rattle.std.specs.Prelude.{◌≡◌, ◌<◌, length, None, is_some, IfOk};
ghost use Rattle.ir_ast.specs.Small.{IsSmall};
ghost use Rattle.ir_ast.specs.View.{view_type, view_operand};
ghost use Rattle.ir_ast.specs.ProgramView.{view_module, view_typed};
ghost use Rattle.ir_type.specs.Whole.{meant};
ghost use Rattle.ir_typing.specs.Intrinsics.{intrinsic_of};
ghost use Rattle.ir_typing.specs.Scoped.{function_in};
ghost use Rattle.ir_measure.specs.Shaped.{IsShaped};
ghost use Rattle.ir_resolve.specs.Acts as definition;

use crate::context::Context;
use crate::operands::{input_of, width_in};
use hk_seq::Seq;
use ir_ast::{IrType, Module, Name, Operand};
use ir_code::{Act, Input};
use ir_measure::Shapes;
use ir_typing::intrinsic;
use ir_value::{OverflowKind, PairKind};
use std::alloc::{AllocError, Global};

/// An operand of a type as it is spelled.
pub fn typed(
    alloc: Global,
    context: &Context,
    shapes: &mut Shapes,
    over: &IrType,
    operand: &Operand,
) -> Result<Input, AllocError>
    requires small { IsSmall context.now.kernel.now }
    requires shaped { IsShaped (view_module context.now.kernel.now).types shapes.old }
    ensures input { IfOk result (λ i. i ≡ definition.typed (view_module context.now.kernel.now) (function_in context.now.scope.now) (view_type over.now) (view_operand operand.now)) }
    ensures shaped { IsShaped (view_module context.now.kernel.now).types shapes.new }
{
    let width = width_in(alloc, context.kernel, shapes, over)?;
    input_of(alloc, context, shapes, width, operand)
}

/// Operands, each of its type.
fn inputs_of(
    alloc: Global,
    context: &Context,
    shapes: &mut Shapes,
    arguments: &[(IrType, Operand)],
) -> Result<Seq<Input>, AllocError>
    requires small { IsSmall context.now.kernel.now }
    requires shaped { IsShaped (view_module context.now.kernel.now).types shapes.old }
    ensures inputs { IfOk result (λ is. is ≡ definition.inputs_of (view_module context.now.kernel.now) (function_in context.now.scope.now) (view_typed arguments.now)) }
    ensures shaped { IsShaped (view_module context.now.kernel.now).types shapes.new }
{
    let mut inputs = Seq::new(alloc);
    'each: for argument in arguments {
        inputs.push(typed(alloc, context, shapes, &argument.0, &argument.1)?)?;
    }
    Ok(inputs)
}

/// The operation with overflow that a name begins with, and whether it is signed.
fn overflow_kind(name: &[u8]) -> Option<(OverflowKind, bool)>
    ensures { result ≡ definition.overflow_kind name.now }
{
    if name.starts_with(b"llvm.uadd.") {
        Some((OverflowKind::Add, false))
    } else if name.starts_with(b"llvm.sadd.") {
        Some((OverflowKind::Add, true))
    } else if name.starts_with(b"llvm.usub.") {
        Some((OverflowKind::Sub, false))
    } else if name.starts_with(b"llvm.ssub.") {
        Some((OverflowKind::Sub, true))
    } else if name.starts_with(b"llvm.umul.") {
        Some((OverflowKind::Mul, false))
    } else if name.starts_with(b"llvm.smul.") {
        Some((OverflowKind::Mul, true))
    } else {
        None
    }
}

/// The operation on two numbers that a name begins with.
fn pair_kind(name: &[u8]) -> Option<PairKind>
    ensures { result ≡ definition.pair_kind name.now }
{
    if name.starts_with(b"llvm.umin.") {
        Some(PairKind::Umin)
    } else if name.starts_with(b"llvm.umax.") {
        Some(PairKind::Umax)
    } else if name.starts_with(b"llvm.smin.") {
        Some(PairKind::Smin)
    } else if name.starts_with(b"llvm.smax.") {
        Some(PairKind::Smax)
    } else if name.starts_with(b"llvm.abs.") {
        Some(PairKind::Abs)
    } else if name.starts_with(b"llvm.expect.") {
        Some(PairKind::Expect)
    } else {
        None
    }
}

/// The width in bits of a type as it is spelled; 0 of one that is no integer.
fn number_width(
    alloc: Global,
    kernel: &Module,
    shapes: &mut Shapes,
    over: &IrType,
) -> Result<u32, AllocError>
    requires small { IsSmall kernel.now }
    requires shaped { IsShaped (view_module kernel.now).types shapes.old }
    ensures width { IfOk result (λ w. w ≡ definition.number_width (meant (view_module kernel.now).types (view_type over.now))) }
    ensures shaped { IsShaped (view_module kernel.now).types shapes.new }
{
    let width = width_in(alloc, kernel, shapes, over)?;
    Ok(width.unwrap_or(0))
}

/// A call with overflow.
fn overflow_act(
    alloc: Global,
    context: &Context,
    shapes: &mut Shapes,
    kind: (OverflowKind, bool),
    arguments: &[(IrType, Operand)],
) -> Result<Act, AllocError>
    requires small { IsSmall context.now.kernel.now }
    requires shaped { IsShaped (view_module context.now.kernel.now).types shapes.old }
    ensures act { IfOk result (λ act. act ≡ definition.overflow_act (view_module context.now.kernel.now) (function_in context.now.scope.now) kind (view_typed arguments.now)) }
    ensures shaped { IsShaped (view_module context.now.kernel.now).types shapes.new }
{
    let [first, second] = arguments else {
        return Ok(Act::Unknown);
    };
    let width = number_width(alloc, context.kernel, shapes, &first.0)?;
    let a = typed(alloc, context, shapes, &first.0, &first.1)?;
    let b = typed(alloc, context, shapes, &second.0, &second.1)?;
    Ok(Act::WithOverflow {
        kind: kind.0,
        signed: kind.1,
        width,
        a,
        b,
    })
}

/// A call that makes one number of two.
fn pair_act(
    alloc: Global,
    context: &Context,
    shapes: &mut Shapes,
    kind: PairKind,
    arguments: &[(IrType, Operand)],
) -> Result<Act, AllocError>
    requires small { IsSmall context.now.kernel.now }
    requires shaped { IsShaped (view_module context.now.kernel.now).types shapes.old }
    ensures act { IfOk result (λ act. act ≡ definition.pair_act (view_module context.now.kernel.now) (function_in context.now.scope.now) kind (view_typed arguments.now)) }
    ensures shaped { IsShaped (view_module context.now.kernel.now).types shapes.new }
{
    let [first, second] = arguments else {
        return Ok(Act::Unknown);
    };
    let width = number_width(alloc, context.kernel, shapes, &first.0)?;
    let a = typed(alloc, context, shapes, &first.0, &first.1)?;
    let b = typed(alloc, context, shapes, &second.0, &second.1)?;
    Ok(Act::Pair { kind, width, a, b })
}

/// A call of `llvm.assume`.
fn assume_act(
    alloc: Global,
    context: &Context,
    shapes: &mut Shapes,
    arguments: &[(IrType, Operand)],
) -> Result<Act, AllocError>
    requires small { IsSmall context.now.kernel.now }
    requires shaped { IsShaped (view_module context.now.kernel.now).types shapes.old }
    ensures act { IfOk result (λ act. act ≡ definition.assume_act (view_module context.now.kernel.now) (function_in context.now.scope.now) (view_typed arguments.now)) }
    ensures shaped { IsShaped (view_module context.now.kernel.now).types shapes.new }
{
    let [only] = arguments else {
        return Ok(Act::Unknown);
    };
    let condition = typed(alloc, context, shapes, &only.0, &only.1)?;
    Ok(Act::Assume { condition })
}

/// A call of a listed intrinsic.
fn intrinsic_act(
    alloc: Global,
    context: &Context,
    shapes: &mut Shapes,
    name: &Name,
    arguments: &[(IrType, Operand)],
) -> Result<Act, AllocError>
    requires small { IsSmall context.now.kernel.now }
    requires shaped { IsShaped (view_module context.now.kernel.now).types shapes.old }
    ensures act { IfOk result (λ act. act ≡ definition.intrinsic_act (view_module context.now.kernel.now) (function_in context.now.scope.now) (definition.overflow_kind name.now) name.now (view_typed arguments.now)) }
    ensures shaped { IsShaped (view_module context.now.kernel.now).types shapes.new }
{
    match overflow_kind(name.as_bytes()) {
        Some(kind) => overflow_act(alloc, context, shapes, kind, arguments),
        None => other_act(
            alloc,
            context,
            shapes,
            pair_kind(name.as_bytes()),
            arguments,
        ),
    }
}

/// A call of a listed intrinsic without overflow.
fn other_act(
    alloc: Global,
    context: &Context,
    shapes: &mut Shapes,
    kind: Option<PairKind>,
    arguments: &[(IrType, Operand)],
) -> Result<Act, AllocError>
    requires small { IsSmall context.now.kernel.now }
    requires shaped { IsShaped (view_module context.now.kernel.now).types shapes.old }
    ensures act { IfOk result (λ act. act ≡ definition.other_act (view_module context.now.kernel.now) (function_in context.now.scope.now) kind (view_typed arguments.now)) }
    ensures shaped { IsShaped (view_module context.now.kernel.now).types shapes.new }
{
    match kind {
        Some(kind) => pair_act(alloc, context, shapes, kind, arguments),
        None => assume_act(alloc, context, shapes, arguments),
    }
}

/// The place of the function of this name, where it has a body.
#[tactic(auto, using(crate::proofs::Bodies::body_there, crate::proofs::Bodies::no_function))]
fn body_place(kernel: &Module, name: &Name) -> Option<u32>
    requires { IsSmall kernel.now }
    ensures { result ≡ definition.body_place (view_module kernel.now) name.now }
{
    match kernel.functions.get(name) {
        Some(place) => if_body(kernel, place),
        None => None,
    }
}

/// The place of a function, where it has a body.
#[tactic(auto, using(crate::proofs::Bodies::flag_there))]
fn if_body(kernel: &Module, place: u32) -> Option<u32>
    requires { place < length kernel.now.functions }
    ensures { result ≡ definition.where_true (definition.bodies_of (view_module kernel.now)) place }
{
    if kernel.functions.at(place).body.is_some() {
        Some(place)
    } else {
        None
    }
}

/// A call of a function with a body at this place, of a listed intrinsic, or of another declared function.
fn call_by(
    alloc: Global,
    context: &Context,
    shapes: &mut Shapes,
    name: &Name,
    arguments: &[(IrType, Operand)],
    body: Option<u32>,
    listed: bool,
) -> Result<Act, AllocError>
    requires small { IsSmall context.now.kernel.now }
    requires shaped { IsShaped (view_module context.now.kernel.now).types shapes.old }
    ensures act { IfOk result (λ act. act ≡ definition.call_by (view_module context.now.kernel.now) (function_in context.now.scope.now) name.now (view_typed arguments.now) body listed) }
    ensures shaped { IsShaped (view_module context.now.kernel.now).types shapes.new }
{
    match body {
        Some(function) => {
            let arguments = inputs_of(alloc, context, shapes, arguments)?;
            Ok(Act::Call {
                function,
                arguments,
            })
        }
        None => declared(alloc, context, shapes, name, arguments, listed),
    }
}

/// A call of a function without a body.
fn declared(
    alloc: Global,
    context: &Context,
    shapes: &mut Shapes,
    name: &Name,
    arguments: &[(IrType, Operand)],
    listed: bool,
) -> Result<Act, AllocError>
    requires small { IsSmall context.now.kernel.now }
    requires shaped { IsShaped (view_module context.now.kernel.now).types shapes.old }
    ensures act { IfOk result (λ act. act ≡ definition.call_by (view_module context.now.kernel.now) (function_in context.now.scope.now) name.now (view_typed arguments.now) None listed) }
    ensures shaped { IsShaped (view_module context.now.kernel.now).types shapes.new }
{
    if listed {
        intrinsic_act(alloc, context, shapes, name, arguments)
    } else {
        let arguments = inputs_of(alloc, context, shapes, arguments)?;
        Ok(Act::Hook { arguments })
    }
}

/// The act of a call.
pub fn call(
    alloc: Global,
    context: &Context,
    shapes: &mut Shapes,
    name: &Name,
    arguments: &[(IrType, Operand)],
) -> Result<Act, AllocError>
    requires small { IsSmall context.now.kernel.now }
    requires shaped { IsShaped (view_module context.now.kernel.now).types shapes.old }
    ensures act { IfOk result (λ act. act ≡ definition.call_by (view_module context.now.kernel.now) (function_in context.now.scope.now) name.now (view_typed arguments.now) (definition.body_place (view_module context.now.kernel.now) name.now) (is_some (intrinsic_of name.now))) }
    ensures shaped { IsShaped (view_module context.now.kernel.now).types shapes.new }
{
    let body = body_place(context.kernel, name);
    let listed = is_listed(name);
    call_by(alloc, context, shapes, name, arguments, body, listed)
}

/// Whether a listed intrinsic has this name.
#[tactic(auto, using(crate::proofs::Bodies::listed_is))]
fn is_listed(name: &Name) -> bool
    ensures { result ≡ is_some (intrinsic_of name.now) }
{
    intrinsic(name).is_some()
}
