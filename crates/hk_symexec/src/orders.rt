//! The orders of the blocks of a kernel's functions, and how deep their calls go.

ghost use Rattle.std.specs.Prelude.{◌≡◌, ◌+◌, ◌<◌, ℕ, List, Some, length, slice_get, IfOk};
ghost use Rattle.ir_ast.specs.Program.{FunctionView};
ghost use Rattle.ir_ast.specs.ProgramView.{view_module};
ghost use Rattle.ir_kernel.specs.Orders.{AreOrders};
ghost use Rattle.hk_symexec.specs.Tracks.{order_in};
ghost use Rattle.hk_symexec.specs.Runs.{IsDepth};

use hk_seq::Seq;
use ir_check::{Checked, PlaceList};
use std::alloc::{AllocError, Global};

// The places of a list.
fn copied(alloc: Global, order: &PlaceList) -> Result<Seq<u32>, AllocError>
    ensures { IfOk result (λ r. r ≡ order.now) }
{
    let mut places = Vec::new(alloc);
    for place in order.as_slice() {
        places.push(*place)?;
    }
    Ok(Seq::from_vec(places))
}

/// For each function, by its place, the order of its blocks.
pub(crate) fn orders_of(alloc: Global, checked: &Checked) -> Result<Seq<Seq<u32>>, AllocError>
    ensures { IfOk result (λ r. AreOrders (view_module checked.now) (order_in r)) }
{
    let mut orders = Seq::new(alloc);
    for place in 0..checked.module().functions.len() {
        let order = copied(alloc, checked.order(place))?;
        orders.push(order)?;
    }
    Ok(orders)
}

/// How deep the walk of a function may go: one more than its expanded length.
pub(crate) fn depth_of(checked: &Checked, function: u32) -> u32
    requires { function < length checked.now.functions }
    ensures { IsDepth (view_module checked.now) function result }
{
    // For the proof: the module is checked, so an expanded length is at most 100,000.
    let _module = checked.module();
    checked.expanded(function) + 1
}
