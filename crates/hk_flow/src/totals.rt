//! Totals along the edges of a graph: what a node has of its own, and the totals of its targets.
//!
//! A graph, its order and what each node has of its own come in; for each node its total goes out, cut at a limit, or nothing where
//! it leads to a cycle. The expanded lengths of functions are such totals, over calls.

ghost use Rattle.std.specs.Prelude.{◌≡◌, ◌<◌, ◌≤◌, ◌^◌, ◌+◌, ℕ, length, min, replicate, slice_index, None, IfOk};
ghost use Rattle.std.specs.List.{All};
ghost use Rattle.hk_graph.specs.Walks.{AreWithin, targets_of};
ghost use Rattle.hk_graph.specs.Sorted.{IsOrder, flag_of};
ghost use Rattle.hk_flow.specs.Sums.{IsSum, sum_along, told, told_by};

use hk_graph::{Graph, Order};
use std::alloc::{AllocError, Global};

/// What a node has of its own and the sums of its targets, where each has one.
fn add_targets(totals: &[Option<u32>], targets: &[u32], own: u32, top: u32) -> Option<u32>
    requires targets { All (λ t. t < length totals.now) targets.now }
    ensures { result ≡ sum_along totals.now top (min own top) targets.now }
{
    let mut total = own.min(top);
    for target in targets {
        match totals[*target as usize] {
            Some(more) => total = total.saturating_add(more).min(top),
            None => return None,
        }
    }
    Some(total)
}

/// The sum of a node, given those of the nodes before it in the order.
fn sum_of(
    graph: &Graph,
    order: &Order,
    own: &[u32],
    totals: &[Option<u32>],
    node: u32,
    top: u32,
) -> Option<u32>
    requires within { AreWithin graph.now }
    requires node { node < length graph.now }
    requires flags { length order.now.cyclic.items ≡ length graph.now }
    requires own { length own.now ≡ length graph.now }
    requires totals { length totals.now ≡ length graph.now }
    ensures { result ≡ told_by (flag_of order.now.cyclic.items node) (sum_along totals.now top (min (slice_index own.now node) top) (targets_of graph.now node)) }
{
    if order.cyclic[node as usize] {
        None
    } else {
        add_targets(
            totals,
            graph.targets(node as usize),
            own[node as usize],
            top,
        )
    }
}

/// Nothing, for so many nodes.
fn no_sums(alloc: Global, nodes: usize) -> Result<Vec<Option<u32>>, AllocError>
    ensures { IfOk result (λ totals. totals.items ≡ replicate nodes None) }
{
    vec![in alloc; None; nodes]
}

/// The total of each node, by its place: what it has of its own and the totals of its targets, a target counted at each edge. It is
/// cut at one more than `most`, and it is absent where the node leads to a cycle. It takes time linear in the nodes and edges.
pub fn sums(
    alloc: Global,
    graph: &Graph,
    order: &Order,
    own: &[u32],
    most: u32,
) -> Result<Vec<Option<u32>>, AllocError>
    requires within { AreWithin graph.now }
    requires small { length graph.now < 2 ^ 32 }
    requires order { IsOrder graph.now order.now.nodes.items order.now.cyclic.items }
    requires own { length own.now ≡ length graph.now }
    requires most { most < 2 ^ 31 }
    ensures sizes { IfOk result (λ totals. length totals.items ≡ length graph.now) }
    ensures each { IfOk result (λ totals. (v : ℕ) → v < length graph.now → IsSum graph.now own.now (most + 1) v (told totals.items v)) }
{
    let top = most + 1;
    let mut totals = no_sums(alloc, graph.len())?;
    for at in 0..order.nodes.len() {
        let node = order.nodes[at];
        totals[node as usize] = sum_of(graph, order, own, &totals, node, top);
    }
    Ok(totals)
}
