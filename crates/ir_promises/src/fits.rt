//! Names and types of instructions and of globals.

ghost use Rattle.std.specs.Prelude.{◌≡◌, ◌<◌, ◌^◌, true, length, IfOk, MatchBool};
ghost use Rattle.ir_ast.specs.Small.{IsSmall};
ghost use Rattle.ir_ast.specs.View.{view_type, view_operand};
ghost use Rattle.ir_ast.specs.ProgramView.{view_entries, view_type_entry, view_global, view_module, view_op, view_instr};
ghost use Rattle.ir_type.specs.Shape.{keeps_notes};
ghost use Rattle.ir_type.specs.Whole.{meant};
ghost use Rattle.ir_whole.specs.Numbers.{IsFor};
ghost use Rattle.ir_typing.specs.Access as access;
ghost use Rattle.ir_typing.specs.Fits as definition;
ghost use Rattle.ir_typing.specs.Known as known;
ghost use Rattle.ir_typing.specs.Scoped.{function_in, types_in, scope_in, IsTyped};
ghost use Rattle.ir_typing.specs.Values.{by_value};

use ir_ast::{GlobalItem, Instr, IrType, Module, Op, Operand, TypeTable};
use ir_typing::{Scope, global_fits, instr_fits, is_known, is_pointer_access, same_value};
use ir_whole::TypeNumbers;
use std::alloc::{AllocError, Global};

/// Whether an instruction takes its operands and types.
pub fn instr_takes_its_parts(
    alloc: Global,
    numbers: &mut TypeNumbers,
    kernel: &Module,
    scope: &Scope,
    phis: bool,
    instr: &Instr,
) -> Result<bool, AllocError>
    requires typed { IsTyped numbers.old scope.now }
    requires small { IsSmall kernel.now }
    requires noted { keeps_notes (view_op instr.now.op) ≡ true }
    ensures { IfOk result (λ r. r ≡ definition.instr_fits_by (types_in scope.now) (view_module kernel.now) (function_in scope.now) phis (view_instr instr.now)) }
{
    instr_fits(alloc, numbers, kernel, scope, phis, instr)
}

/// Whether the names that an instruction uses are known, each among its own kind.
pub fn instr_uses_known_names(kernel: &Module, scope: &Scope, op: &Op) -> bool
    requires { IsSmall kernel.now }
    ensures { result ≡ known.is_known (view_module kernel.now) (function_in scope.now) (view_op op.now) }
{
    is_known(kernel, scope, op)
}

/// Whether the initialiser of a global is one of its type, and its alignment is absent or a power of two.
pub fn global_takes_its_parts(
    alloc: Global,
    numbers: &mut TypeNumbers,
    types: &TypeTable,
    global: &GlobalItem,
) -> Result<bool, AllocError>
    requires small { length types.now < 2 ^ 32 }
    requires own { IsFor (view_entries view_type_entry types.now) numbers.old }
    ensures { IfOk result (λ r. r ≡ definition.global_fits (view_entries view_type_entry types.now) (view_global global.now)) }
{
    global_fits(alloc, numbers, types, global)
}

/// Whether two operands of a type are the same by value.
pub fn operands_are_one(
    alloc: Global,
    numbers: &mut TypeNumbers,
    types: &TypeTable,
    over: &IrType,
    first: &Operand,
    second: &Operand,
) -> Result<bool, AllocError>
    requires small { length types.now < 2 ^ 32 }
    requires own { IsFor (view_entries view_type_entry types.now) numbers.old }
    ensures { IfOk result (λ same. MatchBool same (by_value (view_entries view_type_entry types.now) (meant (view_entries view_type_entry types.now) (view_type over.now)) (view_operand first.now) ≡ by_value (view_entries view_type_entry types.now) (meant (view_entries view_type_entry types.now) (view_type over.now)) (view_operand second.now)) (by_value (view_entries view_type_entry types.now) (meant (view_entries view_type_entry types.now) (view_type over.now)) (view_operand first.now) ≡ by_value (view_entries view_type_entry types.now) (meant (view_entries view_type_entry types.now) (view_type over.now)) (view_operand second.now) → ⊥)) }
{
    same_value(alloc, numbers, types, over, first, second)
}

/// Whether an instruction is a load or store of a pointer outside slots.
pub fn instr_moves_a_pointer(
    alloc: Global,
    numbers: &mut TypeNumbers,
    scope: &Scope,
    op: &Op,
) -> Result<bool, AllocError>
    requires { IsTyped numbers.old scope.now }
    ensures { IfOk result (λ b. b ≡ access.is_pointer_access (scope_in scope.now) (view_op op.now)) }
{
    is_pointer_access(alloc, numbers, scope, op)
}
