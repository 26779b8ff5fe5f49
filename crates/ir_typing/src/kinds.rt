//! The kind of the register that an instruction sets.

ghost use Rattle.std.specs.Prelude.{◌≡◌, ◌<◌, ◌^◌, List, Some, length, IfOk};
ghost use Rattle.ir_ast.specs.Plain as plain;
ghost use Rattle.ir_ast.specs.Plain.{Ty};
ghost use Rattle.ir_ast.specs.View.{view_type};
ghost use Rattle.ir_ast.specs.ProgramView.{view_entries, view_type_entry, view_op};
ghost use Rattle.ir_whole.specs.Heads.{Grows};
ghost use Rattle.ir_whole.specs.Numbers.{types_of, IsFor};
ghost use Rattle.ir_typing.specs.Registers.{kind_of, value_of, slot_of, pair_of};
ghost use Rattle.ir_typing.specs.Kinds.{IsKindOf};

use crate::held::Held;
use crate::intrinsics::is_overflow;
use ir_ast::{IrType, Op, TypeTable};
use ir_whole::TypeNumbers;
use std::alloc::{AllocError, Global};

/// A value of this type.
#[tactic(auto, using(crate::proofs::KindSteps::value_kind))]
fn value_kind(
    alloc: Global,
    numbers: &mut TypeNumbers,
    types: &TypeTable,
    over: &IrType,
) -> Result<Option<Held>, AllocError>
    requires small { length types.now < 2 ^ 32 }
    requires own { IsFor (view_entries view_type_entry types.now) numbers.old }
    ensures kind { IfOk result (λ held. IsKindOf (view_entries view_type_entry types.now) (types_of numbers.new) (Some (value_of (view_type over.now))) held) }
    ensures own { IsFor (view_entries view_type_entry types.now) numbers.new }
    ensures grows { (first : List Ty) → Grows first (types_of numbers.old) → Grows first (types_of numbers.new) }
{
    let number = numbers.number(alloc, types, over)?;
    Ok(Some(Held::Value(number)))
}

/// The address of a slot of this type.
#[tactic(auto, using(crate::proofs::KindSteps::slot_kind))]
fn slot_kind(
    alloc: Global,
    numbers: &mut TypeNumbers,
    types: &TypeTable,
    over: &IrType,
) -> Result<Option<Held>, AllocError>
    requires small { length types.now < 2 ^ 32 }
    requires own { IsFor (view_entries view_type_entry types.now) numbers.old }
    ensures kind { IfOk result (λ held. IsKindOf (view_entries view_type_entry types.now) (types_of numbers.new) (Some (slot_of (view_type over.now))) held) }
    ensures own { IsFor (view_entries view_type_entry types.now) numbers.new }
    ensures grows { (first : List Ty) → Grows first (types_of numbers.old) → Grows first (types_of numbers.new) }
{
    let number = numbers.number(alloc, types, over)?;
    Ok(Some(Held::Slot(number)))
}

/// The pair of this type that a call with overflow gives.
#[tactic(auto, using(crate::proofs::KindSteps::pair_kind))]
fn pair_kind(
    alloc: Global,
    numbers: &mut TypeNumbers,
    types: &TypeTable,
    over: &IrType,
) -> Result<Option<Held>, AllocError>
    requires small { length types.now < 2 ^ 32 }
    requires own { IsFor (view_entries view_type_entry types.now) numbers.old }
    ensures kind { IfOk result (λ held. IsKindOf (view_entries view_type_entry types.now) (types_of numbers.new) (Some (pair_of (view_type over.now))) held) }
    ensures own { IsFor (view_entries view_type_entry types.now) numbers.new }
    ensures grows { (first : List Ty) → Grows first (types_of numbers.old) → Grows first (types_of numbers.new) }
{
    let number = numbers.number(alloc, types, over)?;
    Ok(Some(Held::Pair(number)))
}

/// An integer of this width, in bits.
fn integer_kind(
    alloc: Global,
    numbers: &mut TypeNumbers,
    types: &TypeTable,
    width: u32,
) -> Result<Option<Held>, AllocError>
    requires small { length types.now < 2 ^ 32 }
    requires own { IsFor (view_entries view_type_entry types.now) numbers.old }
    ensures kind { IfOk result (λ held. IsKindOf (view_entries view_type_entry types.now) (types_of numbers.new) (Some (value_of (plain.integer width))) held) }
    ensures own { IsFor (view_entries view_type_entry types.now) numbers.new }
    ensures grows { (first : List Ty) → Grows first (types_of numbers.old) → Grows first (types_of numbers.new) }
{
    value_kind(alloc, numbers, types, &IrType::Int(width))
}

/// A pointer.
fn pointer_kind(
    alloc: Global,
    numbers: &mut TypeNumbers,
    types: &TypeTable,
) -> Result<Option<Held>, AllocError>
    requires small { length types.now < 2 ^ 32 }
    requires own { IsFor (view_entries view_type_entry types.now) numbers.old }
    ensures kind { IfOk result (λ held. IsKindOf (view_entries view_type_entry types.now) (types_of numbers.new) (Some (value_of plain.pointer)) held) }
    ensures own { IsFor (view_entries view_type_entry types.now) numbers.new }
    ensures grows { (first : List Ty) → Grows first (types_of numbers.old) → Grows first (types_of numbers.new) }
{
    value_kind(alloc, numbers, types, &IrType::Ptr)
}

/// What the register holds that an instruction sets, where it may set one.
#[tactic(auto)]
pub fn kind_set(
    alloc: Global,
    numbers: &mut TypeNumbers,
    types: &TypeTable,
    op: &Op,
) -> Result<Option<Held>, AllocError>
    requires small { length types.now < 2 ^ 32 }
    requires own { IsFor (view_entries view_type_entry types.now) numbers.old }
    ensures kind { IfOk result (λ held. IsKindOf (view_entries view_type_entry types.now) (types_of numbers.new) (kind_of (view_op op.now)) held) }
    ensures own { IsFor (view_entries view_type_entry types.now) numbers.new }
    ensures grows { (first : List Ty) → Grows first (types_of numbers.old) → Grows first (types_of numbers.new) }
{
    match op {
        Op::Binary { width, .. } => integer_kind(alloc, numbers, types, *width),
        Op::Compare { .. } => integer_kind(alloc, numbers, types, 1),
        Op::Select { over, .. } => value_kind(alloc, numbers, types, over),
        Op::Convert { to, .. } => integer_kind(alloc, numbers, types, *to),
        Op::Freeze { over, .. } => value_kind(alloc, numbers, types, over),
        Op::Phi { over, .. } => value_kind(alloc, numbers, types, over),
        Op::Slot { over, .. } => slot_kind(alloc, numbers, types, over),
        Op::Load { over, .. } => value_kind(alloc, numbers, types, over),
        Op::Offset(_) => pointer_kind(alloc, numbers, types),
        Op::Call { result, callee, .. } if is_overflow(callee) => pair_kind(
            alloc, numbers, types, result,
        ),
        Op::Call { result, .. } => value_kind(alloc, numbers, types, result),
        Op::Extract { width, part, .. } => {
            integer_kind(alloc, numbers, types, if *part == 0 { *width } else { 1 })
        }
        _ => Ok(None),
    }
}
