//! The faults of an instruction.

ghost use Rattle.std.specs.Prelude.{◌≡◌, ◌<◌, true, Some, length, take, slice_get, bytes_eq, IfOk};
ghost use Rattle.std.specs.List.{list_all, IsDistinct};
ghost use Rattle.ir_ast.specs.Program.{phi, BlockView, FunctionView};
ghost use Rattle.ir_ast.specs.Small.{IsSmall};
ghost use Rattle.ir_ast.specs.Table.{names_of};
ghost use Rattle.ir_ast.specs.View.{view_type};
ghost use Rattle.ir_ast.specs.ProgramView.{view_module, view_op, view_instr, view_arms};
ghost use Rattle.ir_type.specs.Shape.{keeps_notes};
ghost use Rattle.ir_typing.specs.Registers.{blocks_of};
ghost use Rattle.ir_typing.specs.Fits.{is_phi};
ghost use Rattle.ir_typing.specs.Known as names;
ghost use Rattle.ir_typing.specs.Scoped as scoped;
ghost use Rattle.ir_typing.specs.Scoped.{IsTyped};
ghost use Rattle.ir_whole.specs.Numbers.{IsFor};
ghost use Rattle.ir_check.specs.Paths.{AreFewBlocks};
ghost use Rattle.ir_check.specs.Arms.{FallsK15};
ghost use Rattle.ir_check.specs.Sites.{sites_of, AreSources};
ghost use Rattle.ir_check.specs.Rules.{InstrFalls};
ghost use Rattle.ir_check.specs.Used.{function_in};
ghost use Rattle.ir_check.specs.ItemFaults as definition;
ghost use Rattle.ir_check.specs.ItemFaults.{IsLeastReason, IsLeastPlain, IsArmsReason, IsAsked};

use crate::arms::arms_meet;
use crate::tally::Tally;
use crate::uses::Uses;
use ir_ast::{ArmList, Instr, IrType, KernelReason, Module, Op};
use ir_typing::{Scope, instr_fits, is_known, is_pointer_access};
use ir_whole::TypeNumbers;
use std::alloc::{AllocError, Global};

/// The first rule of an instruction whose names are known, but for the arms of a phi.
fn known_reason(misfit: bool, undefined: bool, outside: bool) -> Option<KernelReason>
    ensures { result ≡ definition.known_reason misfit undefined outside }
{
    if misfit {
        Some(KernelReason::K9)
    } else if undefined {
        Some(KernelReason::K12)
    } else if outside {
        Some(KernelReason::K13)
    } else {
        None
    }
}

/// What the check of an instruction looks at: the module, the names of the function, and the uses of its registers.
#[derive(Drop)]
pub struct Context<'a> {
    pub kernel: &'a Module,
    pub scope: &'a Scope<'a>,
    pub uses: &'a Uses<'a>,
}

/// Where an instruction stands: behind so many others of the block at a place. `phis` says that these are all phis.
#[derive(Drop)]
pub struct Spot {
    pub block: u32,
    pub place: usize,
    pub phis: bool,
}

/// The least rule that an instruction whose names are known falls under, but for the arms of a phi.
fn reason_of_known(
    alloc: Global,
    numbers: &mut TypeNumbers,
    context: &Context<'_>,
    spot: &Spot,
    instr: &Instr,
) -> Result<Option<KernelReason>, AllocError>
    requires small { IsSmall context.now.kernel.now }
    requires typed { IsTyped numbers.old context.now.scope.now }
    requires noted { keeps_notes (view_op instr.now.op) ≡ true }
    requires asked { IsAsked (view_module context.now.kernel.now) (function_in context.now.uses.now) (scoped.types_in context.now.scope.now) (scoped.function_in context.now.scope.now) }
    requires block { spot.now.block < length (blocks_of (function_in context.now.uses.now)) }
    requires known { names.is_known (view_module context.now.kernel.now) (function_in context.now.uses.now) (view_op instr.now.op) ≡ true }
    ensures least { (b : BlockView) → slice_get (blocks_of (function_in context.now.uses.now)) spot.now.block ≡ Some b → spot.now.phis ≡ list_all (λ i. is_phi i.act) (take spot.now.place b.instrs) → IfOk result (IsLeastPlain (InstrFalls (view_module context.now.kernel.now) (function_in context.now.uses.now) b (take spot.now.place b.instrs) (view_instr instr.now))) }
    ensures typed { IsTyped numbers.new context.now.scope.now }
{
    let fits = instr_fits(
        alloc,
        numbers,
        context.kernel,
        context.scope,
        spot.phis,
        instr,
    )?;
    let undefined = context
        .uses
        .is_undefined(alloc, spot.block, spot.place, instr)?;
    let outside = is_pointer_access(alloc, numbers, context.scope, &instr.op)?;
    Ok(known_reason(!fits, undefined, outside))
}

/// The least rule that an instruction falls under: of its names, its types, its uses and its accesses, in this order. The arms of a phi
/// are tried behind these, where this gives none.
pub fn plain_reason(
    alloc: Global,
    numbers: &mut TypeNumbers,
    context: &Context<'_>,
    spot: &Spot,
    instr: &Instr,
) -> Result<Option<KernelReason>, AllocError>
    requires small { IsSmall context.now.kernel.now }
    requires typed { IsTyped numbers.old context.now.scope.now }
    requires noted { keeps_notes (view_op instr.now.op) ≡ true }
    requires asked { IsAsked (view_module context.now.kernel.now) (function_in context.now.uses.now) (scoped.types_in context.now.scope.now) (scoped.function_in context.now.scope.now) }
    requires block { spot.now.block < length (blocks_of (function_in context.now.uses.now)) }
    ensures least { (b : BlockView) → slice_get (blocks_of (function_in context.now.uses.now)) spot.now.block ≡ Some b → spot.now.phis ≡ list_all (λ i. is_phi i.act) (take spot.now.place b.instrs) → IfOk result (IsLeastPlain (InstrFalls (view_module context.now.kernel.now) (function_in context.now.uses.now) b (take spot.now.place b.instrs) (view_instr instr.now))) }
    ensures typed { IsTyped numbers.new context.now.scope.now }
{
    if is_known(context.kernel, context.scope, &instr.op) {
        reason_of_known(alloc, numbers, context, spot, instr)
    } else {
        Ok(Some(KernelReason::K8))
    }
}

/// The rule of arms, where they do not meet the edges.
fn arms_reason(meet: bool) -> Option<KernelReason>
    ensures { result ≡ definition.arms_reason meet }
{
    if meet { None } else { Some(KernelReason::K15) }
}

/// The rule of arms, where the arms of a phi, whose names are known, fall under it. The phi stands in a block of which these are the
/// sources.
fn phi_reason(
    alloc: Global,
    values: &mut TypeNumbers,
    context: &Context<'_>,
    sources: &Tally,
    block: u32,
    over: &IrType,
    arms: &ArmList,
) -> Result<Option<KernelReason>, AllocError>
    requires small { IsSmall context.now.kernel.now }
    requires few { AreFewBlocks (function_in context.now.uses.now) }
    requires values { IsFor (view_module context.now.kernel.now).types values.old }
    requires sources { AreSources (function_in context.now.uses.now) block sources.now }
    ensures arms { (b : BlockView) → slice_get (blocks_of (function_in context.now.uses.now)) block ≡ Some b → IsDistinct bytes_eq (names_of (sites_of (function_in context.now.uses.now))) → names.is_known (view_module context.now.kernel.now) (function_in context.now.uses.now) (phi (view_type over.now) (view_arms arms.now.items.items)) ≡ true → IfOk result (IsArmsReason (FallsK15 (view_module context.now.kernel.now).types (function_in context.now.uses.now) b (phi (view_type over.now) (view_arms arms.now.items.items)))) }
    ensures values { IsFor (view_module context.now.kernel.now).types values.new }
{
    let index = context.uses.blocks();
    index.len();
    let arms = arms.items.as_slice();
    let types = &context.kernel.types;
    let meet = arms_meet(alloc, values, types, over, index, sources, arms)?;
    Ok(arms_reason(meet))
}

/// The rule of arms, where an instruction whose names are known falls under it.
fn reason_of_arms(
    alloc: Global,
    values: &mut TypeNumbers,
    context: &Context<'_>,
    sources: &Tally,
    block: u32,
    op: &Op,
) -> Result<Option<KernelReason>, AllocError>
    requires small { IsSmall context.now.kernel.now }
    requires few { AreFewBlocks (function_in context.now.uses.now) }
    requires values { IsFor (view_module context.now.kernel.now).types values.old }
    requires sources { AreSources (function_in context.now.uses.now) block sources.now }
    ensures arms { (b : BlockView) → slice_get (blocks_of (function_in context.now.uses.now)) block ≡ Some b → IsDistinct bytes_eq (names_of (sites_of (function_in context.now.uses.now))) → names.is_known (view_module context.now.kernel.now) (function_in context.now.uses.now) (view_op op.now) ≡ true → IfOk result (IsArmsReason (FallsK15 (view_module context.now.kernel.now).types (function_in context.now.uses.now) b (view_op op.now))) }
    ensures values { IsFor (view_module context.now.kernel.now).types values.new }
{
    match op {
        Op::Phi { over, arms } => phi_reason(alloc, values, context, sources, block, over, arms),
        _ => Ok(None),
    }
}

/// The least rule that an instruction falls under. `numbers` serve the scope, and `values` the operands of phis.
pub fn instr_reason(
    alloc: Global,
    numbers: &mut TypeNumbers,
    values: &mut TypeNumbers,
    context: &Context<'_>,
    sources: &Tally,
    spot: &Spot,
    instr: &Instr,
) -> Result<Option<KernelReason>, AllocError>
    requires small { IsSmall context.now.kernel.now }
    requires typed { IsTyped numbers.old context.now.scope.now }
    requires values { IsFor (view_module context.now.kernel.now).types values.old }
    requires noted { keeps_notes (view_op instr.now.op) ≡ true }
    requires asked { IsAsked (view_module context.now.kernel.now) (function_in context.now.uses.now) (scoped.types_in context.now.scope.now) (scoped.function_in context.now.scope.now) }
    requires block { spot.now.block < length (blocks_of (function_in context.now.uses.now)) }
    requires sources { AreSources (function_in context.now.uses.now) spot.now.block sources.now }
    ensures least { (b : BlockView) → slice_get (blocks_of (function_in context.now.uses.now)) spot.now.block ≡ Some b → spot.now.phis ≡ list_all (λ i. is_phi i.act) (take spot.now.place b.instrs) → IfOk result (IsLeastReason (InstrFalls (view_module context.now.kernel.now) (function_in context.now.uses.now) b (take spot.now.place b.instrs) (view_instr instr.now))) }
    ensures typed { IsTyped numbers.new context.now.scope.now }
    ensures values { IsFor (view_module context.now.kernel.now).types values.new }
{
    let plain = plain_reason(alloc, numbers, context, spot, instr)?;
    match plain {
        Some(reason) => Ok(Some(reason)),
        None => {
            let arms = reason_of_arms(alloc, values, context, sources, spot.block, &instr.op)?;
            Ok(arms)
        }
    }
}
