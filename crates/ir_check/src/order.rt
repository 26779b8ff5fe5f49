//! An order of a function's blocks in which each edge goes forward.

ghost use Rattle.std.specs.Prelude.{◌≡◌, MatchBool};
ghost use Rattle.std.specs.List.{Contains};
ghost use Rattle.hk_graph.specs.Sorted.{IsOrder};
ghost use Rattle.hk_flow.specs.Onward.{AreClear};
ghost use Rattle.ir_check.specs.Graphs.{LeadsBack, HasNoOrder};

use hk_flow::is_acyclic;
use hk_graph::{Graph, Order};
use std::marker::Model;

/// Places in an order.
#[derive(Drop)]
pub struct PlaceList {
    items: Vec<u32>,
}

impl Model for PlaceList {
    ghost use Rattle.std.specs.Prelude.{List, ℕ};

    ghost Value = { List ℕ };

    ghost view = { λ l. l.items.items };
}

impl PlaceList {
    /// The list of these places.
    pub fn new(items: Vec<u32>) -> PlaceList
        ensures { result ≡ items.items }
    {
        PlaceList { items }
    }

    /// The places.
    pub fn as_slice(&self) -> &[u32]
        ensures { result.now ≡ self.now }
    {
        self.items.as_slice()
    }
}

/// Whether node 0 is one of these.
fn has_first(nodes: &[u32]) -> bool
    ensures { MatchBool result (Contains nodes.now 0) (Contains nodes.now 0 → ⊥) }
{
    nodes.contains(&0)
}

/// Whether an edge leads to node 0.
fn leads_back(graph: &Graph) -> bool
    ensures { MatchBool result (LeadsBack graph.now) (LeadsBack graph.now → ⊥) }
{
    for node in 0..graph.len() {
        if has_first(graph.targets(node)) {
            return true;
        }
    }
    false
}

/// Whether the nodes of a graph, of which this is an order, have one in which each edge goes forward and none to node 0.
pub fn has_order(graph: &Graph, order: &Order) -> bool
    requires { IsOrder graph.now order.now.nodes.items order.now.cyclic.items }
    ensures { MatchBool result (AreClear order.now.cyclic.items × (LeadsBack graph.now → ⊥)) (HasNoOrder graph.now) }
{
    if leads_back(graph) {
        return false;
    }
    is_acyclic(order)
}
