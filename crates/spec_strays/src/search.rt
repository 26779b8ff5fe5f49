//! A search along the edges of a graph for the nodes that are reached from some of them.

ghost use Rattle.std.specs.Prelude.{◌≡◌, ◌<◌, false, length, replicate, IfOk, OnOk};
ghost use Rattle.std.specs.List.{All};
ghost use Rattle.hk_graph.specs.Walks.{AreWithin};
ghost use Rattle.spec_strays.specs.Reached.{AreReached};
ghost use Rattle.spec_strays.specs.Search.{state_of, with_waiting, met, all_met};

use crate::callers::Callers;
use std::alloc::{AllocError, Global};

/// A search in its course: for each node whether it is reached, and the nodes of which the edges are still to be followed.
#[derive(Drop)]
pub struct Search {
    pub marks: Vec<bool>,
    pub waiting: Vec<u32>,
}

impl Search {
    /// The search before its first edge, over so many nodes, of which these are the starts.
    fn new(alloc: Global, nodes: usize, starts: Vec<u32>) -> Result<Search, AllocError>
        ensures { IfOk result (λ s. state_of s ≡ with_waiting (replicate nodes false) starts.items) }
    {
        Ok(Search {
            marks: vec![in alloc; false; nodes]?,
            waiting: starts,
        })
    }

    /// Marks a node to which an edge leads, and has it wait, unless it is marked.
    fn meet(&mut self, node: u32) -> Result<(), AllocError>
        requires { node < length self.old.marks.items }
        ensures { OnOk result (state_of self.new ≡ met (state_of self.old) node) }
    {
        if self.marks[node as usize] {
            return Ok(());
        }
        self.marks[node as usize] = true;
        self.waiting.push(node)?;
        Ok(())
    }

    /// Marks nodes to which edges lead, one after another.
    fn meet_all(&mut self, nodes: &[u32]) -> Result<(), AllocError>
        requires { All (λ v. v < length self.old.marks.items) nodes.now }
        ensures { OnOk result (state_of self.new ≡ all_met (state_of self.old) nodes.now) }
    {
        'each: for node in nodes {
            self.meet(*node)?;
        }
        Ok(())
    }
}

/// For each node of a graph, by its place: whether one edge or more lead to it from a start. It takes time linear in the nodes and the
/// edges.
pub fn reached(alloc: Global, graph: &Callers, starts: Vec<u32>) -> Result<Vec<bool>, AllocError>
    requires within { AreWithin graph.now }
    requires starts { All (λ v. v < length graph.now) starts.items }
    ensures { IfOk result (λ flags. AreReached graph.now starts.items flags.items) }
{
    let mut search = Search::new(alloc, graph.len(), starts)?;
    'more: while let Some(node) = search.waiting.pop() {
        search.meet_all(graph.of(node))?;
    }
    Ok(search.marks)
}
