//! A graph as the targets of its nodes.

ghost use Rattle.std.specs.Prelude.{◌≡◌, ◌<◌, ◌^◌, ◌++◌, ◌∷◌, [], length, slice_index_or, OnOk, OnErr};

use std::alloc::{AllocError, Global};
use std::marker::Model;

/// Nodes by their places.
#[derive(Drop)]
pub struct TargetList {
    items: Vec<u32>,
}

impl Model for TargetList {
    ghost use Rattle.std.specs.Prelude.{List, ℕ};

    ghost Value = { List ℕ };

    ghost view = { λ l. l.items.items };
}

impl TargetList {
    /// The list of these nodes.
    pub fn new(items: Vec<u32>) -> TargetList
        ensures { result ≡ items.items }
    {
        TargetList { items }
    }

    /// The nodes.
    pub fn as_slice(&self) -> &[u32]
        ensures { result.now ≡ self.now }
    {
        self.items.as_slice()
    }
}

/// A directed graph: for each node, by its place, the nodes to which its edges lead. An edge may stand twice.
#[derive(Drop)]
pub struct Graph {
    nodes: Vec<TargetList>,
}

impl Model for Graph {
    ghost use Rattle.std.specs.Prelude.{List, ℕ};

    ghost Value = { List (List ℕ) };

    ghost view = { λ g. g.nodes.items };
}

impl Graph {
    /// The graph without nodes.
    pub fn new(alloc: Global) -> Graph
        ensures { result ≡ [] }
    {
        Graph {
            nodes: Vec::new(alloc),
        }
    }

    /// Adds a node with these targets.
    pub fn push(&mut self, targets: Vec<u32>) -> Result<(), AllocError>
        ensures added { OnOk result (self.new ≡ self.old ++ targets.items ∷ []) }
        ensures kept { OnErr result (self.new ≡ self.old) }
    {
        self.nodes.push(TargetList::new(targets))?;
        Ok(())
    }

    /// How many nodes there are.
    pub fn len(&self) -> usize
        ensures { result ≡ length self.now }
    {
        self.nodes.len()
    }

    /// The targets of a node.
    pub fn targets(&self, node: usize) -> &[u32]
        requires { node < length self.now }
        ensures { result.now ≡ slice_index_or self.now node [] }
    {
        self.nodes[node].as_slice()
    }
}
