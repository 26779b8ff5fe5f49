//! The least fault of a function's instructions.
//!
//! A function whose blocks have no cycle comes in, with the graph of its edges and an order of it; the first of its instructions that
//! falls under a rule goes out.

ghost use Rattle.std.specs.Prelude.{◌≡◌, ◌<◌, ◌^◌, ◌&&◌, ℕ, Some, length, map, slice_get, IfOk};
ghost use Rattle.ir_ast.specs.Small.{IsSmall};
ghost use Rattle.ir_ast.specs.ProgramView.{view_module, view_op, view_instr, view_block, view_function};
ghost use Rattle.hk_graph.specs.Sorted.{IsOrder};
ghost use Rattle.hk_flow.specs.Onward.{AreClear};
ghost use Rattle.ir_whole.specs.Numbers.{IsFor};
ghost use Rattle.ir_typing.specs.Registers.{blocks_of};
ghost use Rattle.ir_typing.specs.Fits as fits;
ghost use Rattle.ir_typing.specs.Scoped as scoped;
ghost use Rattle.ir_typing.specs.Scoped.{IsTyped};
ghost use Rattle.ir_check.specs.Paths.{AreFewBlocks};
ghost use Rattle.ir_check.specs.Graphs.{block_graph};
ghost use Rattle.ir_check.specs.Tallies.{row_at};
ghost use Rattle.ir_check.specs.Sites.{AreSources};
ghost use Rattle.ir_check.specs.Used.{function_in};
ghost use Rattle.ir_check.specs.Least.{IsLeast};
ghost use Rattle.ir_check.specs.ItemFaults.{IsAsked};
ghost use Rattle.ir_check.specs.Parts.{BlockFaultsAt, BodyFaults, AreNotedIn, AreNoted};

use crate::edges::blocks_of;
use crate::faults::least;
use crate::heads::on_line;
use crate::instrs::{Context, Spot, instr_reason};
use crate::sources::sources_of;
use crate::tally::Tally;
use crate::uses::Uses;
use hk_graph::{Graph, Order};
use ir_ast::{Block, Function, KernelFault, Module, Op};
use ir_typing::Scope;
use ir_whole::TypeNumbers;
use std::alloc::{AllocError, Global};

/// Whether an instruction is a phi.
fn is_phi(op: &Op) -> bool
    ensures { result ≡ fits.is_phi (view_op op.now) }
{
    matches!(op, Op::Phi { .. })
}

/// Whether all before an instruction are phis, and it is one too.
fn are_phis(before: bool, op: &Op) -> bool
    ensures { result ≡ (before && fits.is_phi (view_op op.now)) }
{
    before && is_phi(op)
}

/// The least fault of the instructions of a block, which stands at this place and has these sources.
fn block_fault(
    alloc: Global,
    numbers: &mut TypeNumbers,
    values: &mut TypeNumbers,
    context: &Context<'_>,
    sources: &Tally,
    at: u32,
    block: &Block,
) -> Result<Option<KernelFault>, AllocError>
    requires small { IsSmall context.now.kernel.now }
    requires typed { IsTyped numbers.old context.now.scope.now }
    requires values { IsFor (view_module context.now.kernel.now).types values.old }
    requires asked { IsAsked (view_module context.now.kernel.now) (function_in context.now.uses.now) (scoped.types_in context.now.scope.now) (scoped.function_in context.now.scope.now) }
    requires stands { slice_get (blocks_of (function_in context.now.uses.now)) at ≡ Some (view_block block.now) }
    requires sources { AreSources (function_in context.now.uses.now) at sources.now }
    requires noted { AreNotedIn (view_block block.now).instrs }
    ensures least { IfOk result (IsLeast (BlockFaultsAt (view_module context.now.kernel.now) (function_in context.now.uses.now) at)) }
    ensures typed { IsTyped numbers.new context.now.scope.now }
    ensures values { IsFor (view_module context.now.kernel.now).types values.new }
{
    let instrs = block.instrs.items.as_slice();
    let mut found = None;
    let mut phis = true;
    for (place, instr) in instrs.iter().enumerate() {
        let spot = Spot {
            block: at,
            place,
            phis,
        };
        let reason = instr_reason(alloc, numbers, values, context, sources, &spot, instr)?;
        found = least(found, on_line(instr.line, reason));
        phis = are_phis(phis, &instr.op);
    }
    Ok(found)
}

/// The least fault of the instructions of these blocks, of which each has the sources in its row.
fn blocks_fault(
    alloc: Global,
    numbers: &mut TypeNumbers,
    values: &mut TypeNumbers,
    context: &Context<'_>,
    sources: &[Tally],
    blocks: &[Block],
) -> Result<Option<KernelFault>, AllocError>
    requires small { IsSmall context.now.kernel.now }
    requires typed { IsTyped numbers.old context.now.scope.now }
    requires values { IsFor (view_module context.now.kernel.now).types values.old }
    requires asked { IsAsked (view_module context.now.kernel.now) (function_in context.now.uses.now) (scoped.types_in context.now.scope.now) (scoped.function_in context.now.scope.now) }
    requires blocks { map view_block blocks.now ≡ blocks_of (function_in context.now.uses.now) }
    requires few { length blocks.now < 2 ^ 32 }
    requires count { length sources.now ≡ length blocks.now }
    requires sources { (p : ℕ) → AreSources (function_in context.now.uses.now) p (row_at sources.now p) }
    requires noted { AreNoted (map view_block blocks.now) }
    ensures least { IfOk result (IsLeast (BodyFaults (view_module context.now.kernel.now) (function_in context.now.uses.now))) }
    ensures typed { IsTyped numbers.new context.now.scope.now }
    ensures values { IsFor (view_module context.now.kernel.now).types values.new }
{
    let mut found = None;
    for (at, block) in blocks.iter().enumerate() {
        let fault = block_fault(
            alloc,
            numbers,
            values,
            context,
            &sources[at],
            at as u32,
            block,
        )?;
        found = least(found, fault);
    }
    Ok(found)
}

/// The least fault of the instructions of a function, given the graph of its edges and an order of it. `numbers` serve the scope, and
/// `values` the operands of phis. It takes time n log n in the function.
pub fn body_fault(
    alloc: Global,
    numbers: &mut TypeNumbers,
    values: &mut TypeNumbers,
    kernel: &Module,
    function: &Function,
    edges: &Graph,
    order: &Order,
) -> Result<Option<KernelFault>, AllocError>
    requires small { IsSmall kernel.now }
    requires own { IsFor (view_module kernel.now).types numbers.old }
    requires values { IsFor (view_module kernel.now).types values.old }
    requires few { AreFewBlocks (view_function function.now) }
    requires edges { edges.now ≡ block_graph (view_function function.now) }
    requires order { IsOrder edges.now order.now.nodes.items order.now.cyclic.items }
    requires acyclic { AreClear order.now.cyclic.items }
    requires noted { AreNoted (blocks_of (view_function function.now)) }
    ensures least { IfOk result (IsLeast (BodyFaults (view_module kernel.now) (view_function function.now))) }
    ensures own { IsFor (view_module kernel.now).types numbers.new }
    ensures values { IsFor (view_module kernel.now).types values.new }
{
    let scope = Scope::of(alloc, numbers, &kernel.types, function)?;
    let uses = Uses::of(alloc, function, edges, order)?;
    let sources = sources_of(alloc, edges)?;
    let blocks = blocks_of(function);
    let context = Context {
        kernel,
        scope: &scope,
        uses: &uses,
    };
    let fault = blocks_fault(alloc, numbers, values, &context, &sources, blocks)?;
    Ok(fault)
}
