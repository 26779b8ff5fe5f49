//! The nodes of a graph, sources first.

ghost use Rattle.std.specs.Prelude.{◌≡◌, ◌↔◌, ℕ, List, reverse, IfOk, IsTrue};
ghost use Rattle.hk_graph.specs.Sorted.{IsOrder};
ghost use Rattle.hk_flow.specs.Onward.{AreClear, IsForward};

use hk_graph::Order;
use std::alloc::{AllocError, Global};

/// Whether no node lies on a cycle.
pub fn is_acyclic(order: &Order) -> bool
    ensures { IsTrue result ↔ AreClear order.now.cyclic.items }
{
    !order.cyclic.contains(&true)
}

/// The nodes of an order, the last first. Each edge of an acyclic graph goes forward among them.
pub fn forward(alloc: Global, order: &Order) -> Result<Vec<u32>, AllocError>
    ensures nodes { IfOk result (λ nodes. nodes.items ≡ reverse order.now.nodes.items) }
    ensures onward { (graph : List (List ℕ)) → IsOrder graph order.now.nodes.items order.now.cyclic.items → AreClear order.now.cyclic.items → IfOk result (λ nodes. IsForward graph nodes.items) }
{
    order.nodes.iter().rev().copied().collect(alloc)
}
