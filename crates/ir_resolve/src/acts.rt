//! Instructions, one after another.

ghost use Rattle.std.specs.Prelude.{◌≡◌, option_map, IfOk};
ghost use Rattle.ir_ast.specs.Small.{IsSmall};
ghost use Rattle.ir_ast.specs.View.{view_type, view_operand, view_gep};
ghost use Rattle.ir_ast.specs.ProgramView.{view_module, view_op, view_instr, view_arms};
ghost use Rattle.ir_type.specs.Whole.{meant, is_pointer};
ghost use Rattle.ir_typing.specs.Scoped.{function_in};
ghost use Rattle.ir_measure.specs.Shaped.{IsShaped};
ghost use Rattle.ir_resolve.specs.Operands as operands;
ghost use Rattle.ir_resolve.specs.Acts as definition;
ghost use Rattle.ir_resolve.specs.Resolved as resolved;
ghost use Rattle.ir_resolve.specs.Locals.{IsLocalOf};

use crate::access::{align_in, load, register_place, store};
use crate::calls::{call, typed};
use crate::context::Context;
use crate::literal::number_in;
use crate::operands::{form_input, input_of, width_in};
use hk_seq::Seq;
use ir_ast::{
    BinaryKind, ConvertKind, Flags, Gep, Instr, IrType, Module, Name, Op, Operand, Predicate,
};
use ir_code::{Act, Arm, Case, Input, Step};
use ir_measure::Shapes;
use ir_typing::Scope;
use std::alloc::{AllocError, Global};

/// The place of a block; a place behind all of them where there is none.
fn block_place(context: &Context, name: &Name) -> u32
    requires { IsLocalOf (function_in context.now.scope.now) context.now.local.now }
    ensures { result ≡ definition.block_place (function_in context.now.scope.now) name.now }
{
    match context.scope.block(name) {
        Some(place) => place,
        None => context.local.blocks,
    }
}

/// Two operands of one type.
#[derive(Clone, Copy)]
struct OperandPair<'a> {
    a: &'a Operand,
    b: &'a Operand,
}

fn binary(
    alloc: Global,
    context: &Context,
    shapes: &mut Shapes,
    kind: BinaryKind,
    flags: Flags,
    width: u32,
    pair: &OperandPair,
) -> Result<Act, AllocError>
    requires small { IsSmall context.now.kernel.now }
    requires shaped { IsShaped (view_module context.now.kernel.now).types shapes.old }
    ensures act { IfOk result (λ act. act ≡ definition.binary_of (view_module context.now.kernel.now) (function_in context.now.scope.now) kind flags width (view_operand pair.now.a.now) (view_operand pair.now.b.now)) }
    ensures shaped { IsShaped (view_module context.now.kernel.now).types shapes.new }
{
    let a = input_of(alloc, context, shapes, Some(width), pair.a)?;
    let b = input_of(alloc, context, shapes, Some(width), pair.b)?;
    Ok(Act::Binary {
        kind,
        flags,
        width,
        a,
        b,
    })
}

/// A comparison of numbers of this width, of pointers, or of neither.
fn compare_by(
    alloc: Global,
    context: &Context,
    shapes: &mut Shapes,
    samesign: bool,
    predicate: Predicate,
    width: Option<u32>,
    pointers: bool,
    pair: &OperandPair,
) -> Result<Act, AllocError>
    requires small { IsSmall context.now.kernel.now }
    requires shaped { IsShaped (view_module context.now.kernel.now).types shapes.old }
    ensures act { IfOk result (λ act. act ≡ definition.compare_by (view_module context.now.kernel.now) (function_in context.now.scope.now) samesign predicate width pointers (view_operand pair.now.a.now) (view_operand pair.now.b.now)) }
    ensures shaped { IsShaped (view_module context.now.kernel.now).types shapes.new }
{
    let a = input_of(alloc, context, shapes, width, pair.a)?;
    let b = input_of(alloc, context, shapes, width, pair.b)?;
    match width {
        Some(width) => Ok(Act::Compare {
            samesign,
            predicate,
            width,
            a,
            b,
        }),
        None => Ok(compared(predicate, pointers, a, b)),
    }
}

/// A comparison of pointers, or of what cannot be compared.
fn compared(predicate: Predicate, pointers: bool, a: Input, b: Input) -> Act
    ensures { result ≡ definition.compared predicate pointers a b }
{
    if pointers {
        Act::ComparePointers { predicate, a, b }
    } else {
        drop(a);
        drop(b);
        Act::Unknown
    }
}

fn compare(
    alloc: Global,
    context: &Context,
    shapes: &mut Shapes,
    samesign: bool,
    predicate: Predicate,
    over: &IrType,
    pair: &OperandPair,
) -> Result<Act, AllocError>
    requires small { IsSmall context.now.kernel.now }
    requires shaped { IsShaped (view_module context.now.kernel.now).types shapes.old }
    ensures act { IfOk result (λ act. act ≡ definition.compare_by (view_module context.now.kernel.now) (function_in context.now.scope.now) samesign predicate (operands.width_in (view_module context.now.kernel.now) (view_type over.now)) (is_pointer (meant (view_module context.now.kernel.now).types (view_type over.now))) (view_operand pair.now.a.now) (view_operand pair.now.b.now)) }
    ensures shaped { IsShaped (view_module context.now.kernel.now).types shapes.new }
{
    let over = shapes.number(alloc, &context.kernel.types, over)?;
    let width = shapes.width(over);
    let pointers = shapes.is_pointer(over);
    compare_by(
        alloc, context, shapes, samesign, predicate, width, pointers, pair,
    )
}

fn select(
    alloc: Global,
    context: &Context,
    shapes: &mut Shapes,
    condition: &Operand,
    over: &IrType,
    pair: &OperandPair,
) -> Result<Act, AllocError>
    requires small { IsSmall context.now.kernel.now }
    requires shaped { IsShaped (view_module context.now.kernel.now).types shapes.old }
    ensures act { IfOk result (λ act. act ≡ definition.select_of (view_module context.now.kernel.now) (function_in context.now.scope.now) (view_operand condition.now) (view_type over.now) (view_operand pair.now.a.now) (view_operand pair.now.b.now)) }
    ensures shaped { IsShaped (view_module context.now.kernel.now).types shapes.new }
{
    let condition = input_of(alloc, context, shapes, Some(1), condition)?;
    let a = typed(alloc, context, shapes, over, pair.a)?;
    let b = typed(alloc, context, shapes, over, pair.b)?;
    Ok(Act::Select { condition, a, b })
}

/// An arm of a phi, of an integer type of this width or of another type.
fn arm_of(
    alloc: Global,
    context: &Context,
    shapes: &mut Shapes,
    width: Option<u32>,
    arm: &(Operand, Name),
) -> Result<Arm, AllocError>
    requires small { IsSmall context.now.kernel.now }
    requires local { IsLocalOf (function_in context.now.scope.now) context.now.local.now }
    requires shaped { IsShaped (view_module context.now.kernel.now).types shapes.old }
    ensures arm { IfOk result (λ r. r ≡ definition.arm_of (view_module context.now.kernel.now) (function_in context.now.scope.now) width (view_operand arm.now.0, arm.now.1)) }
    ensures shaped { IsShaped (view_module context.now.kernel.now).types shapes.new }
{
    let from = block_place(context, &arm.1);
    let input = input_of(alloc, context, shapes, width, &arm.0)?;
    Ok(Arm { input, from })
}

/// The arms of a phi.
fn arms_of(
    alloc: Global,
    context: &Context,
    shapes: &mut Shapes,
    width: Option<u32>,
    items: &[(Operand, Name)],
) -> Result<Seq<Arm>, AllocError>
    requires small { IsSmall context.now.kernel.now }
    requires local { IsLocalOf (function_in context.now.scope.now) context.now.local.now }
    requires shaped { IsShaped (view_module context.now.kernel.now).types shapes.old }
    ensures arms { IfOk result (λ r. r ≡ definition.arms_of (view_module context.now.kernel.now) (function_in context.now.scope.now) width (view_arms items.now)) }
    ensures shaped { IsShaped (view_module context.now.kernel.now).types shapes.new }
{
    let mut arms = Seq::new(alloc);
    'each: for arm in items {
        arms.push(arm_of(alloc, context, shapes, width, arm)?)?;
    }
    Ok(arms)
}

/// The cases of a switch over numbers of this width.
fn cases_of(
    alloc: Global,
    context: &Context,
    width: u32,
    items: &[(i128, Name)],
) -> Result<Seq<Case>, AllocError>
    requires { IsLocalOf (function_in context.now.scope.now) context.now.local.now }
    ensures { IfOk result (λ r. r ≡ definition.cases_of (function_in context.now.scope.now) width items.now) }
{
    let mut cases = Seq::new(alloc);
    'each: for case in items {
        cases.push(case_of(context, width, case))?;
    }
    Ok(cases)
}

fn case_of(context: &Context, width: u32, case: &(i128, Name)) -> Case
    requires { IsLocalOf (function_in context.now.scope.now) context.now.local.now }
    ensures { result ≡ definition.case_of (function_in context.now.scope.now) width case.now }
{
    Case {
        number: number_in(width, case.0),
        block: block_place(context, &case.1),
    }
}

/// `extractvalue` of the register that an operand is.
fn extract(scope: &Scope, from: &Operand, part: u32) -> Act
    ensures { result ≡ definition.extract_of (definition.register_place (function_in scope.now) (view_operand from.now)) part }
{
    match register_place(scope, from) {
        Some(pair) => Act::Extract { pair, part },
        None => Act::Unknown,
    }
}

/// The act of a return.
fn give(
    alloc: Global,
    context: &Context,
    shapes: &mut Shapes,
    over: &IrType,
    value: &Option<Operand>,
) -> Result<Act, AllocError>
    requires small { IsSmall context.now.kernel.now }
    requires shaped { IsShaped (view_module context.now.kernel.now).types shapes.old }
    ensures act { IfOk result (λ act. act ≡ definition.return_of (view_module context.now.kernel.now) (function_in context.now.scope.now) (view_type over.now) (option_map view_operand value.now)) }
    ensures shaped { IsShaped (view_module context.now.kernel.now).types shapes.new }
{
    match value {
        Some(value) => {
            let value = typed(alloc, context, shapes, over, value)?;
            Ok(Act::Return { value: Some(value) })
        }
        None => Ok(Act::Return { value: None }),
    }
}

/// A slot of a type.
fn slot(
    alloc: Global,
    kernel: &Module,
    shapes: &mut Shapes,
    over: &IrType,
    align: u64,
) -> Result<Act, AllocError>
    requires small { IsSmall kernel.now }
    requires shaped { IsShaped (view_module kernel.now).types shapes.old }
    ensures act { IfOk result (λ act. act ≡ definition.slot_act (view_module kernel.now) (view_type over.now) align) }
    ensures shaped { IsShaped (view_module kernel.now).types shapes.new }
{
    let over = shapes.number(alloc, &kernel.types, over)?;
    Ok(Act::Slot {
        align: align_in(shapes, over, align),
    })
}

/// A switch over numbers of this width.
fn switch(
    alloc: Global,
    context: &Context,
    shapes: &mut Shapes,
    width: u32,
    on: &Operand,
    default: &Name,
    items: &[(i128, Name)],
) -> Result<Act, AllocError>
    requires small { IsSmall context.now.kernel.now }
    requires local { IsLocalOf (function_in context.now.scope.now) context.now.local.now }
    requires shaped { IsShaped (view_module context.now.kernel.now).types shapes.old }
    ensures act { IfOk result (λ act. act ≡ definition.switch_of (view_module context.now.kernel.now) (function_in context.now.scope.now) width (view_operand on.now) default.now items.now) }
    ensures shaped { IsShaped (view_module context.now.kernel.now).types shapes.new }
{
    let on = input_of(alloc, context, shapes, Some(width), on)?;
    let cases = cases_of(alloc, context, width, items)?;
    Ok(Act::Switch {
        width,
        on,
        cases,
        default: block_place(context, default),
    })
}

/// A branch on a condition.
fn branch(
    alloc: Global,
    context: &Context,
    shapes: &mut Shapes,
    condition: &Operand,
    yes: &Name,
    no: &Name,
) -> Result<Act, AllocError>
    requires small { IsSmall context.now.kernel.now }
    requires local { IsLocalOf (function_in context.now.scope.now) context.now.local.now }
    requires shaped { IsShaped (view_module context.now.kernel.now).types shapes.old }
    ensures act { IfOk result (λ act. act ≡ definition.branch_of (view_module context.now.kernel.now) (function_in context.now.scope.now) (view_operand condition.now) yes.now no.now) }
    ensures shaped { IsShaped (view_module context.now.kernel.now).types shapes.new }
{
    let condition = input_of(alloc, context, shapes, Some(1), condition)?;
    Ok(Act::Branch {
        condition,
        yes: block_place(context, yes),
        no: block_place(context, no),
    })
}

/// A phi of a type.
fn phi(
    alloc: Global,
    context: &Context,
    shapes: &mut Shapes,
    over: &IrType,
    items: &[(Operand, Name)],
) -> Result<Act, AllocError>
    requires small { IsSmall context.now.kernel.now }
    requires local { IsLocalOf (function_in context.now.scope.now) context.now.local.now }
    requires shaped { IsShaped (view_module context.now.kernel.now).types shapes.old }
    ensures act { IfOk result (λ act. act ≡ definition.phi_of (view_module context.now.kernel.now) (function_in context.now.scope.now) (view_type over.now) (view_arms items.now)) }
    ensures shaped { IsShaped (view_module context.now.kernel.now).types shapes.new }
{
    let width = width_in(alloc, context.kernel, shapes, over)?;
    let arms = arms_of(alloc, context, shapes, width, items)?;
    Ok(Act::Phi { arms })
}

/// A change of width, in bits.
#[derive(Clone, Copy)]
struct Conversion {
    kind: ConvertKind,
    flags: Flags,
    from: u32,
    to: u32,
}

fn convert(
    alloc: Global,
    context: &Context,
    shapes: &mut Shapes,
    conversion: &Conversion,
    a: &Operand,
) -> Result<Act, AllocError>
    requires small { IsSmall context.now.kernel.now }
    requires shaped { IsShaped (view_module context.now.kernel.now).types shapes.old }
    ensures act { IfOk result (λ act. act ≡ definition.convert_of (view_module context.now.kernel.now) (function_in context.now.scope.now) conversion.now.kind conversion.now.flags conversion.now.from conversion.now.to (view_operand a.now)) }
    ensures shaped { IsShaped (view_module context.now.kernel.now).types shapes.new }
{
    let a = input_of(alloc, context, shapes, Some(conversion.from), a)?;
    Ok(Act::Convert {
        kind: conversion.kind,
        flags: conversion.flags,
        from: conversion.from,
        to: conversion.to,
        a,
    })
}

fn freeze(
    alloc: Global,
    context: &Context,
    shapes: &mut Shapes,
    over: &IrType,
    a: &Operand,
) -> Result<Act, AllocError>
    requires small { IsSmall context.now.kernel.now }
    requires shaped { IsShaped (view_module context.now.kernel.now).types shapes.old }
    ensures act { IfOk result (λ act. act ≡ definition.freeze_of (view_module context.now.kernel.now) (function_in context.now.scope.now) (view_type over.now) (view_operand a.now)) }
    ensures shaped { IsShaped (view_module context.now.kernel.now).types shapes.new }
{
    let a = typed(alloc, context, shapes, over, a)?;
    Ok(Act::Freeze { a })
}

fn offset(
    alloc: Global,
    context: &Context,
    shapes: &mut Shapes,
    gep: &Gep,
) -> Result<Act, AllocError>
    requires small { IsSmall context.now.kernel.now }
    requires shaped { IsShaped (view_module context.now.kernel.now).types shapes.old }
    ensures act { IfOk result (λ act. act ≡ definition.offset_of (view_module context.now.kernel.now) (function_in context.now.scope.now) (view_gep gep.now)) }
    ensures shaped { IsShaped (view_module context.now.kernel.now).types shapes.new }
{
    let a = form_input(alloc, context, shapes, gep)?;
    Ok(Act::Address { a })
}

/// What an instruction does.
fn act_of(alloc: Global, context: &Context, shapes: &mut Shapes, op: &Op) -> Result<Act, AllocError>
    requires small { IsSmall context.now.kernel.now }
    requires local { IsLocalOf (function_in context.now.scope.now) context.now.local.now }
    requires shaped { IsShaped (view_module context.now.kernel.now).types shapes.old }
    ensures act { IfOk result (λ act. act ≡ definition.act_of (view_module context.now.kernel.now) (function_in context.now.scope.now) (view_op op.now)) }
    ensures shaped { IsShaped (view_module context.now.kernel.now).types shapes.new }
{
    match op {
        Op::Binary {
            kind,
            flags,
            width,
            a,
            b,
        } => binary(
            alloc,
            context,
            shapes,
            *kind,
            *flags,
            *width,
            &OperandPair { a, b },
        ),
        Op::Compare {
            samesign,
            predicate,
            over,
            a,
            b,
        } => compare(
            alloc,
            context,
            shapes,
            *samesign,
            *predicate,
            over,
            &OperandPair { a, b },
        ),
        Op::Select {
            condition,
            over,
            a,
            b,
        } => select(
            alloc,
            context,
            shapes,
            condition,
            over,
            &OperandPair { a, b },
        ),
        Op::Convert {
            kind,
            flags,
            from,
            to,
            a,
        } => {
            let conversion = Conversion {
                kind: *kind,
                flags: *flags,
                from: *from,
                to: *to,
            };
            convert(alloc, context, shapes, &conversion, a)
        }
        Op::Freeze { over, a } => freeze(alloc, context, shapes, over, a),
        Op::Phi { over, arms } => { phi(alloc, context, shapes, over, arms.items.as_slice()) }
        Op::Slot { over, align } => slot(alloc, context.kernel, shapes, over, *align),
        Op::Load {
            over,
            address,
            align,
            range,
        } => load(alloc, context, shapes, over, address, *align, range),
        Op::Store {
            over,
            value,
            address,
            align,
        } => store(alloc, context, shapes, over, value, address, *align),
        Op::Offset(gep) => offset(alloc, context, shapes, gep),
        Op::Call {
            callee,
            arguments,
            ..
        } => call(alloc, context, shapes, callee, arguments.items.as_slice()),
        Op::Extract { from, part, .. } => Ok(extract(context.scope, from, *part)),
        Op::Goto { target } => Ok(Act::Goto {
            block: block_place(context, target),
        }),
        Op::Branch { condition, yes, no } => { branch(alloc, context, shapes, condition, yes, no) }
        Op::Switch {
            width,
            on,
            default,
            cases,
        } => {
            let items = cases.items.as_slice();
            switch(alloc, context, shapes, *width, on, default, items)
        }
        Op::Return { over, value } => give(alloc, context, shapes, over, value),
        Op::Unreachable => Ok(Act::Unreachable),
    }
}

/// The place of the register that an instruction sets.
fn result_place(scope: &Scope, name: &Option<Name>) -> Option<u32>
    ensures { result ≡ resolved.result_place (function_in scope.now) name.now }
{
    match name {
        Some(name) => scope.register(name),
        None => None,
    }
}

/// An instruction.
pub fn step_of(
    alloc: Global,
    context: &Context,
    shapes: &mut Shapes,
    instr: &Instr,
) -> Result<Step, AllocError>
    requires small { IsSmall context.now.kernel.now }
    requires local { IsLocalOf (function_in context.now.scope.now) context.now.local.now }
    requires shaped { IsShaped (view_module context.now.kernel.now).types shapes.old }
    ensures step { IfOk result (λ step. step ≡ resolved.step_of (view_module context.now.kernel.now) (function_in context.now.scope.now) (view_instr instr.now)) }
    ensures shaped { IsShaped (view_module context.now.kernel.now).types shapes.new }
{
    let act = act_of(alloc, context, shapes, &instr.op)?;
    Ok(Step {
        line: instr.line,
        result: result_place(context.scope, &instr.result),
        act,
    })
}
