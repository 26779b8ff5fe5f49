//! The check of a function: its least fault, and an order of its blocks.
//!
//! A function of a module comes in, with what calls say of all functions; the first of its items that falls under a rule goes out, with
//! an order of its blocks where they have one. The head of a function comes before its instructions, so a head that falls under a rule
//! spares the look at the body.

ghost use Rattle.std.specs.Prelude.{◌≡◌, ◌<◌, ◌^◌, Some, length, slice_get, IfOk};
ghost use Rattle.ir_ast.specs.Small.{IsSmall};
ghost use Rattle.ir_ast.specs.ProgramView.{view_module, view_function};
ghost use Rattle.hk_graph.specs.Sorted.{IsOrder};
ghost use Rattle.hk_flow.specs.Onward.{AreClear};
ghost use Rattle.ir_type.specs.Shape.{IsShaped, IsLined};
ghost use Rattle.ir_whole.specs.Numbers.{IsFor};
ghost use Rattle.ir_typing.specs.Registers.{blocks_of};
ghost use Rattle.ir_check.specs.Paths.{AreFewBlocks, FallsK10};
ghost use Rattle.ir_check.specs.Graphs.{block_graph};
ghost use Rattle.ir_check.specs.Least.{IsLeast, Either};
ghost use Rattle.ir_check.specs.ItemFaults.{AreCalls};
ghost use Rattle.ir_check.specs.Parts.{HeadFaults, BodyFaults, FunctionFaultsAt, AreNoted};
ghost use Rattle.ir_check.specs.Checked.{IsForward};

use crate::body::body_fault;
use crate::calls::Calls;
use crate::edges::{block_edges, blocks_of};
use crate::heads::head_fault;
use crate::order::{PlaceList, has_order};
use hk_flow::forward;
use hk_graph::{Graph, Order, sort};
use ir_ast::{Function, KernelFault, Module};
use ir_whole::TypeNumbers;
use std::alloc::{AllocError, Global};

/// What the check of a function finds: the places of its blocks in an order in which each edge goes forward, where they have one, and
/// its least fault.
#[derive(Drop)]
pub struct FunctionCheck {
    pub order: PlaceList,
    pub fault: Option<KernelFault>,
}

/// The least fault of a function whose blocks have no order: that of its head.
fn looping_fault(
    alloc: Global,
    numbers: &mut TypeNumbers,
    kernel: &Module,
    calls: &Calls,
    place: u32,
    function: &Function,
) -> Result<Option<KernelFault>, AllocError>
    requires small { IsSmall kernel.now }
    requires lined { IsLined (view_module kernel.now) }
    requires own { IsFor (view_module kernel.now).types numbers.old }
    requires calls { AreCalls (view_module kernel.now) calls.now.cyclic.items calls.now.lengths.items }
    requires stands { slice_get (view_module kernel.now).functions place ≡ Some (function.now.name, view_function function.now) }
    requires looping { FallsK10 (view_function function.now) }
    ensures least { IfOk result (IsLeast (Either (HeadFaults (view_module kernel.now) (view_function function.now)) (BodyFaults (view_module kernel.now) (view_function function.now)))) }
    ensures own { IsFor (view_module kernel.now).types numbers.new }
{
    let fault = head_fault(alloc, numbers, kernel, calls, place, function, true)?;
    Ok(fault)
}

/// A function whose blocks have an order, with the graph of its edges.
#[derive(Drop)]
struct Straight<'a> {
    function: &'a Function,
    edges: &'a Graph,
    order: &'a Order,
}

/// The least fault of a function whose blocks have an order.
fn straight_fault(
    alloc: Global,
    numbers: &mut TypeNumbers,
    values: &mut TypeNumbers,
    kernel: &Module,
    calls: &Calls,
    place: u32,
    straight: &Straight<'_>,
) -> Result<Option<KernelFault>, AllocError>
    requires small { IsSmall kernel.now }
    requires lined { IsLined (view_module kernel.now) }
    requires own { IsFor (view_module kernel.now).types numbers.old }
    requires values { IsFor (view_module kernel.now).types values.old }
    requires calls { AreCalls (view_module kernel.now) calls.now.cyclic.items calls.now.lengths.items }
    requires stands { slice_get (view_module kernel.now).functions place ≡ Some (straight.now.function.now.name, view_function straight.now.function.now) }
    requires straight { FallsK10 (view_function straight.now.function.now) → ⊥ }
    requires few { AreFewBlocks (view_function straight.now.function.now) }
    requires edges { straight.now.edges.now ≡ block_graph (view_function straight.now.function.now) }
    requires order { IsOrder straight.now.edges.now straight.now.order.now.nodes.items straight.now.order.now.cyclic.items }
    requires acyclic { AreClear straight.now.order.now.cyclic.items }
    requires noted { AreNoted (blocks_of (view_function straight.now.function.now)) }
    ensures least { IfOk result (IsLeast (Either (HeadFaults (view_module kernel.now) (view_function straight.now.function.now)) (BodyFaults (view_module kernel.now) (view_function straight.now.function.now)))) }
    ensures own { IsFor (view_module kernel.now).types numbers.new }
    ensures values { IsFor (view_module kernel.now).types values.new }
{
    let head = head_fault(
        alloc,
        numbers,
        kernel,
        calls,
        place,
        straight.function,
        false,
    )?;
    match head {
        Some(fault) => Ok(Some(fault)),
        None => {
            let body = body_fault(
                alloc,
                numbers,
                values,
                kernel,
                straight.function,
                straight.edges,
                straight.order,
            )?;
            Ok(body)
        }
    }
}

/// The check of the function at a place. `numbers` serve its scope, and `values` the operands of its phis. Memory is also wanted for
/// 2^32 blocks or more. It takes time n log n in the function.
pub fn function_check(
    alloc: Global,
    numbers: &mut TypeNumbers,
    values: &mut TypeNumbers,
    kernel: &Module,
    calls: &Calls,
    place: u32,
    function: &Function,
) -> Result<FunctionCheck, AllocError>
    requires small { IsSmall kernel.now }
    requires shaped { IsShaped (view_module kernel.now) }
    requires lined { IsLined (view_module kernel.now) }
    requires own { IsFor (view_module kernel.now).types numbers.old }
    requires values { IsFor (view_module kernel.now).types values.old }
    requires calls { AreCalls (view_module kernel.now) calls.now.cyclic.items calls.now.lengths.items }
    requires stands { slice_get (view_module kernel.now).functions place ≡ Some (function.now.name, view_function function.now) }
    ensures least { IfOk result (λ c. IsLeast (FunctionFaultsAt (view_module kernel.now) place) c.fault) }
    ensures order { IfOk result (λ c. (FallsK10 (view_function function.now) → ⊥) → IsForward (view_function function.now) c.order) }
    ensures own { IsFor (view_module kernel.now).types numbers.new }
    ensures values { IsFor (view_module kernel.now).types values.new }
{
    if blocks_of(function).len() > u32::MAX as usize {
        return Err(AllocError);
    }
    let edges = block_edges(alloc, function)?;
    let order = sort(alloc, &edges)?;
    if has_order(&edges, &order) {
        let order_of_blocks = PlaceList::new(forward(alloc, &order)?);
        let straight = Straight {
            function,
            edges: &edges,
            order: &order,
        };
        let fault = straight_fault(alloc, numbers, values, kernel, calls, place, &straight)?;
        Ok(FunctionCheck {
            order: order_of_blocks,
            fault,
        })
    } else {
        let fault = looping_fault(alloc, numbers, kernel, calls, place, function)?;
        Ok(FunctionCheck {
            order: PlaceList::new(Vec::new(alloc)),
            fault,
        })
    }
}
