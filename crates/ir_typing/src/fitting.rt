//! What an instruction asks for: the types of its operands, and beside them one row of further tests for each instruction.

ghost use Rattle.std.specs.Prelude.{◌≡◌, ◌&&◌, true, not, map, IfOk};
ghost use Rattle.ir_ast.specs.Small.{IsSmall};
ghost use Rattle.ir_ast.specs.View.{view_type, view_operand};
ghost use Rattle.ir_ast.specs.ProgramView.{view_module, view_op, view_instr, view_typed};
ghost use Rattle.ir_type.specs.Shape.{keeps_notes};
ghost use Rattle.ir_type.specs.Whole.{is_void};
ghost use Rattle.ir_typing.specs.Registers.{function_of};
ghost use Rattle.ir_typing.specs.Fits as definition;
ghost use Rattle.ir_typing.specs.Scoped.{function_in, types_in, scope_in, IsTyped};

use crate::access::access_fits;
use crate::calls::{call_fits, same_type};
use crate::cases::cases_fit;
use crate::literal::is_align;
use crate::operands::operands_fit;
use crate::pairs::pair_fits;
use crate::ranges::named_range_fits;
use crate::scope::Scope;
use ir_ast::{Instr, IrType, Module, Name, Op, Operand, TypedList};
use ir_whole::TypeNumbers;
use std::alloc::{AllocError, Global};

/// What a load says.
#[derive(Drop)]
struct Load<'a> {
    over: &'a IrType,
    address: &'a Operand,
    align: u64,
    range: &'a Option<Name>,
}

/// Whether a load takes its address, its alignment and its range.
fn load_fits(
    alloc: Global,
    numbers: &mut TypeNumbers,
    module: &Module,
    scope: &Scope,
    load: &Load<'_>,
) -> Result<bool, AllocError>
    requires typed { IsTyped numbers.old scope.now }
    requires small { IsSmall «module».now }
    ensures fits { IfOk result (λ r. r ≡ (definition.access_fits (scope_in scope.now) (view_type load.now.over.now) (view_operand load.now.address.now) load.now.align && definition.range_fits (types_in scope.now) (view_module «module».now) (view_type load.now.over.now) load.now.range.now)) }
    ensures typed { IsTyped numbers.new scope.now }
{
    if !access_fits(alloc, numbers, scope, load.over, load.address, load.align)? {
        return Ok(false);
    }
    let fits = named_range_fits(alloc, numbers, module, scope, load.over, load.range)?;
    Ok(fits)
}

/// What a call says, and whether its result has a name.
#[derive(Drop)]
struct Call<'a> {
    named: bool,
    gives: &'a IrType,
    callee: &'a Name,
    arguments: &'a TypedList,
}

/// Whether a call gives what it is asked for, and agrees with the function that it names.
fn named_call_fits(
    alloc: Global,
    numbers: &mut TypeNumbers,
    module: &Module,
    scope: &Scope,
    call: &Call<'_>,
) -> Result<bool, AllocError>
    requires typed { IsTyped numbers.old scope.now }
    requires small { IsSmall «module».now }
    ensures fits { IfOk result (λ r. r ≡ (not (is_void (view_type call.now.gives.now) && call.now.named) && definition.call_fits (types_in scope.now) (view_type call.now.gives.now) call.now.callee.now (map (λ a. a.0) (view_typed call.now.arguments.now.items.items)) (function_of (view_module «module».now) call.now.callee.now))) }
    ensures typed { IsTyped numbers.new scope.now }
{
    if matches!(call.gives, IrType::Void) && call.named {
        return Ok(false);
    }
    let fits = call_fits(
        alloc,
        numbers,
        module,
        scope,
        call.gives,
        call.callee,
        call.arguments,
    )?;
    Ok(fits)
}

/// Whether an instruction takes what its types say beside those of its operands.
fn further_fits(
    alloc: Global,
    numbers: &mut TypeNumbers,
    module: &Module,
    scope: &Scope,
    phis: bool,
    named: bool,
    op: &Op,
) -> Result<bool, AllocError>
    requires typed { IsTyped numbers.old scope.now }
    requires small { IsSmall «module».now }
    requires noted { keeps_notes (view_op op.now) ≡ true }
    ensures fits { IfOk result (λ r. r ≡ definition.further (types_in scope.now) (view_module «module».now) (function_in scope.now) phis named (view_op op.now)) }
    ensures typed { IsTyped numbers.new scope.now }
{
    match op {
        Op::Phi { .. } => Ok(phis),
        Op::Slot { align, .. } => Ok(is_align(*align)),
        Op::Load {
            over,
            address,
            align,
            range,
        } => {
            let load = Load {
                over,
                address,
                align: *align,
                range,
            };
            load_fits(alloc, numbers, module, scope, &load)
        }
        Op::Store {
            over,
            address,
            align,
            ..
        } => access_fits(alloc, numbers, scope, over, address, *align),
        Op::Call {
            result,
            callee,
            arguments,
        } => {
            let call = Call {
                named,
                gives: result,
                callee,
                arguments,
            };
            named_call_fits(alloc, numbers, module, scope, &call)
        }
        Op::Extract { width, from, .. } => pair_fits(alloc, numbers, scope, *width, from),
        Op::Switch { width, cases, .. } => cases_fit(alloc, *width, cases),
        Op::Return { over, .. } => same_type(alloc, numbers, scope, over, &scope.function().result),
        _ => Ok(true),
    }
}

/// Whether an instruction takes its operands and types: `phis` says that the instructions before it in its block are all phis. It
/// takes time linear in the instruction and the parameters of the function that it calls, but for the look-ups of whole types, and
/// `n log n` in the cases of a switch.
pub fn instr_fits(
    alloc: Global,
    numbers: &mut TypeNumbers,
    module: &Module,
    scope: &Scope,
    phis: bool,
    instr: &Instr,
) -> Result<bool, AllocError>
    requires typed { IsTyped numbers.old scope.now }
    requires small { IsSmall «module».now }
    requires noted { keeps_notes (view_op instr.now.op) ≡ true }
    ensures fits { IfOk result (λ r. r ≡ definition.instr_fits_by (types_in scope.now) (view_module «module».now) (function_in scope.now) phis (view_instr instr.now)) }
    ensures typed { IsTyped numbers.new scope.now }
{
    if !operands_fit(alloc, numbers, scope, &instr.op)? {
        return Ok(false);
    }
    let named = instr.result.is_some();
    let fits = further_fits(alloc, numbers, module, scope, phis, named, &instr.op)?;
    Ok(fits)
}
