//! Whether an instruction keeps the notes of its production. Each one that was read does; the calls under test ask for it.

ghost use Rattle.std.specs.Prelude.{◌≡◌};
ghost use Rattle.ir_ast.specs.View.{view_type};
ghost use Rattle.ir_ast.specs.ProgramView.{view_op};
ghost use Rattle.ir_type.specs.Shape as definition;
ghost use Rattle.ir_type.specs.Whole as whole;

use ir_ast::{ConvertKind, IrType, Op, Predicate};

fn is_width(width: u32) -> bool
    ensures { result ≡ definition.is_width width }
{
    1 <= width && width <= 64
}

fn is_scalar(over: &IrType) -> bool
    ensures { result ≡ whole.is_scalar (view_type over.now) }
{
    match over {
        IrType::Int(_) => true,
        IrType::Ptr => true,
        _ => false,
    }
}

fn is_pointer(over: &IrType) -> bool
    ensures { result ≡ whole.is_pointer (view_type over.now) }
{
    match over {
        IrType::Ptr => true,
        _ => false,
    }
}

fn is_void(over: &IrType) -> bool
    ensures { result ≡ whole.is_void (view_type over.now) }
{
    match over {
        IrType::Void => true,
        _ => false,
    }
}

fn is_signed(predicate: Predicate) -> bool
    ensures { result ≡ definition.is_signed predicate }
{
    match predicate {
        Predicate::Sgt => true,
        Predicate::Sge => true,
        Predicate::Slt => true,
        Predicate::Sle => true,
        _ => false,
    }
}

fn is_narrower(kind: ConvertKind, from: u32, to: u32) -> bool
    ensures { result ≡ definition.is_narrower kind from to }
{
    match kind {
        ConvertKind::Trunc => to < from,
        _ => from < to,
    }
}

pub fn keeps_notes(op: &Op) -> bool
    ensures { result ≡ definition.keeps_notes (view_op op.now) }
{
    match op {
        Op::Binary { width, .. } => is_width(*width),
        Op::Compare {
            samesign,
            predicate,
            over,
            ..
        } => is_scalar(over) && !(is_pointer(over) && (*samesign || is_signed(*predicate))),
        Op::Convert { kind, from, to, .. } => {
            is_width(*from) && is_width(*to) && is_narrower(*kind, *from, *to)
        }
        Op::Slot { over, .. } => is_scalar(over),
        Op::Extract { width, part, .. } => is_width(*width) && *part <= 1,
        Op::Switch { width, .. } => is_width(*width),
        Op::Return { over, value } => is_void(over) || value.is_some(),
        _ => true,
    }
}
