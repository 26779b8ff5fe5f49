//! Orders of graphs and of types, dominators, and sums along edges.

ghost use Rattle.std.specs.Prelude.{◌≡◌, ◌<◌, ◌^◌, ◌+◌, ℕ, List, length, true, false, IfOk};
ghost use Rattle.std.specs.List.{Contains};
ghost use Rattle.ir_ast.specs.ProgramView.{view_entries, view_type_entry};
ghost use Rattle.hk_graph.specs.Walks.{AreWithin, Walks, Leads, HasEdge};
ghost use Rattle.hk_graph.specs.Sorted.{IsOrder, flag_of};
ghost use Rattle.hk_flow.specs.Sums.{IsSum, told};
ghost use Rattle.ir_type.specs.Cycles.{SaysCyclic};

use hk_flow::Dominators;
use hk_graph::{Graph, Order};
use ir_ast::TypeTable;
use std::alloc::{AllocError, Global};

/// The nodes of a graph in order, targets first, and which lie on a cycle.
pub fn sort(alloc: Global, graph: &Graph) -> Result<Order, AllocError>
    requires within { AreWithin graph.now }
    requires small { length graph.now < 2 ^ 32 }
    ensures { IfOk result (λ o. IsOrder graph.now o.nodes.items o.cyclic.items) }
{
    let order = hk_graph::sort(alloc, graph)?;
    Ok(order)
}

/// Whether a walk leads from node 0 to the node.
pub fn is_reached(dominators: &Dominators<'_>, node: u32) -> bool
    requires { node < length dominators.now }
    ensures some { result ≡ true → Leads (HasEdge dominators.now) 0 node }
    ensures none { result ≡ false → Leads (HasEdge dominators.now) 0 node → ⊥ }
{
    dominators.is_reached(node)
}

/// Whether each walk from node 0 to the node leaves the other before it comes there.
pub fn is_behind(dominators: &Dominators<'_>, by: u32, node: u32) -> bool
    requires by { by < length dominators.now }
    requires node { node < length dominators.now }
    ensures every { result ≡ true → (left : List ℕ) → Walks (HasEdge dominators.now) 0 left node → Contains left by }
    ensures some { result ≡ false → (left : List ℕ) × Walks (HasEdge dominators.now) 0 left node × (Contains left by → ⊥) }
{
    dominators.is_behind(by, node)
}

/// For each node what it has of its own with the totals of its targets, cut just over a limit; none where it leads to a cycle.
pub fn sums(
    alloc: Global,
    graph: &Graph,
    order: &Order,
    own: &[u32],
    most: u32,
) -> Result<Vec<Option<u32>>, AllocError>
    requires within { AreWithin graph.now }
    requires small { length graph.now < 2 ^ 32 }
    requires order { IsOrder graph.now order.now.nodes.items order.now.cyclic.items }
    requires own { length own.now ≡ length graph.now }
    requires most { most < 2 ^ 31 }
    ensures { IfOk result (λ totals. (v : ℕ) → v < length graph.now → IsSum graph.now own.now (most + 1) v (told totals.items v)) }
{
    let totals = hk_flow::sums(alloc, graph, order, own, most)?;
    Ok(totals)
}

/// The named types in order, and which contain themselves.
pub fn type_order(alloc: Global, types: &TypeTable) -> Result<Order, AllocError>
    requires { length types.now < 2 ^ 32 }
    ensures { IfOk result (λ o. (p : ℕ) → p < length types.now → SaysCyclic (view_entries view_type_entry types.now) (flag_of o.cyclic.items p) p) }
{
    let order = ir_type::type_order(alloc, types)?;
    Ok(order)
}
