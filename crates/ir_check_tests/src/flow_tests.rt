//! Small graphs, with answers from the definitions: every walk is listed by hand.

ghost use Rattle.std.specs.Prelude.{◌≡◌, ◌<◌, true, length};
ghost use Rattle.std.specs.List.{All};
ghost use Rattle.hk_graph.specs.Walks.{AreWithin};

use hk_flow::{dominators, forward, is_acyclic, sums};
use hk_graph::{Graph, sort};
use std::alloc::{AllocError, Global};

const DIAMOND: [&[u32]; 4] = [&[1, 2], &[3], &[3], &[]];

const TWO_DIAMONDS: [&[u32]; 7] = [&[1, 2], &[3], &[3], &[4, 5], &[6], &[6], &[]];

const LADDER: [&[u32]; 5] = [&[1, 4], &[2, 4], &[3, 4], &[4], &[]];

const CHAIN: [&[u32]; 4] = [&[2], &[3], &[1], &[]];

const UNREACHED: [&[u32]; 5] = [&[1], &[], &[1], &[4], &[]];

const DOUBLE: [&[u32]; 3] = [&[1, 1], &[2, 2, 2], &[]];

const SHORTCUT: [&[u32]; 6] = [&[1, 5], &[2], &[3], &[4], &[5], &[]];

const CYCLE: [&[u32]; 5] = [&[1], &[2], &[1], &[4], &[]];

const LOOP: [&[u32]; 2] = [&[1], &[1]];

/// The graph with these targets.
fn graph_of(alloc: Global, rows: &[&[u32]]) -> Result<Graph, AllocError> {
    let mut graph = Graph::new(alloc);
    for row in rows {
        graph.push(row.to_vec(alloc)?)?;
    }
    Ok(graph)
}

/// Whether the nodes are fewer than so many.
fn are_below(nodes: &[u32], most: usize) -> bool
    ensures { result ≡ true → All (λ t. t < most) nodes.now }
{
    nodes.iter().all(|node| (*node as usize) < most)
}

/// Whether each edge leads to a node of the graph.
fn is_within(graph: &Graph) -> bool
    ensures { result ≡ true → AreWithin graph.now }
{
    for node in 0..graph.len() {
        if !are_below(graph.targets(node), graph.len()) {
            return false;
        }
    }
    true
}

/// Whether one node is behind the other, where the graph has them and no cycle.
fn behind(alloc: Global, rows: &[&[u32]], by: u32, node: u32) -> Result<Option<bool>, AllocError> {
    let graph = graph_of(alloc, rows)?;
    if !is_within(&graph) || graph.len() > 1000 {
        return Ok(None);
    }
    let order = sort(alloc, &graph)?;
    if !is_acyclic(&order) {
        return Ok(None);
    }
    if by as usize >= graph.len() || node as usize >= graph.len() {
        return Ok(None);
    }
    let table = dominators(alloc, &graph, &order)?;
    Ok(Some(table.is_behind(by, node)))
}

/// Whether a node is reached, where the graph has it and no cycle.
fn reached(alloc: Global, rows: &[&[u32]], node: u32) -> Result<Option<bool>, AllocError> {
    let graph = graph_of(alloc, rows)?;
    if !is_within(&graph) || graph.len() > 1000 {
        return Ok(None);
    }
    let order = sort(alloc, &graph)?;
    if !is_acyclic(&order) || node as usize >= graph.len() {
        return Ok(None);
    }
    let table = dominators(alloc, &graph, &order)?;
    Ok(Some(table.is_reached(node)))
}

/// The sum of a node, where the graph has it and a number for each node.
fn total(
    alloc: Global,
    rows: &[&[u32]],
    own: &[u32],
    most: u32,
    node: usize,
) -> Result<Option<Option<u32>>, AllocError> {
    let graph = graph_of(alloc, rows)?;
    if !is_within(&graph) || graph.len() > 1000 || own.len() != graph.len() || most > 1000 {
        return Ok(None);
    }
    let order = sort(alloc, &graph)?;
    let totals = sums(alloc, &graph, &order, own, most)?;
    Ok(totals.get(node).copied())
}

#[test]
fn a_node_is_behind_one_on_every_walk(rt: HostRuntime) -> Result<(), AllocError> {
    let table: [(&[&[u32]], u32, u32, Option<bool>); 28] = [
        (&DIAMOND, 0, 3, Some(true)),
        (&DIAMOND, 1, 3, Some(false)),
        (&DIAMOND, 2, 3, Some(false)),
        (&DIAMOND, 0, 1, Some(true)),
        (&DIAMOND, 3, 3, Some(false)),
        (&DIAMOND, 0, 0, Some(false)),
        (&DIAMOND, 1, 0, Some(false)),
        (&DIAMOND, 4, 0, None),
        (&TWO_DIAMONDS, 3, 6, Some(true)),
        (&TWO_DIAMONDS, 0, 6, Some(true)),
        (&TWO_DIAMONDS, 1, 6, Some(false)),
        (&TWO_DIAMONDS, 5, 6, Some(false)),
        (&LADDER, 0, 4, Some(true)),
        (&LADDER, 1, 4, Some(false)),
        (&LADDER, 3, 4, Some(false)),
        (&LADDER, 1, 3, Some(true)),
        (&CHAIN, 2, 3, Some(true)),
        (&CHAIN, 1, 3, Some(true)),
        (&CHAIN, 2, 1, Some(true)),
        (&CHAIN, 1, 2, Some(false)),
        (&UNREACHED, 0, 1, Some(true)),
        (&UNREACHED, 2, 1, Some(false)),
        (&UNREACHED, 1, 2, Some(true)),
        (&UNREACHED, 0, 4, Some(true)),
        (&DOUBLE, 1, 2, Some(true)),
        (&SHORTCUT, 4, 5, Some(false)),
        (&SHORTCUT, 1, 4, Some(true)),
        (&CYCLE, 0, 1, None),
    ];
    for (rows, by, node, expected) in table {
        assert_eq!(rt;
            behind(rt.alloc(), rows, by, node)?,
            expected,
            "{by} before {node}"
        );
    }
    Ok(())
}

#[test]
fn a_node_is_reached_by_a_walk(rt: HostRuntime) -> Result<(), AllocError> {
    let table: [(&[&[u32]], u32, Option<bool>); 6] = [
        (&UNREACHED, 0, Some(true)),
        (&UNREACHED, 1, Some(true)),
        (&UNREACHED, 2, Some(false)),
        (&UNREACHED, 3, Some(false)),
        (&UNREACHED, 4, Some(false)),
        (&CHAIN, 3, Some(true)),
    ];
    for (rows, node, expected) in table {
        assert_eq!(rt; reached(rt.alloc(), rows, node)?, expected, "{node}");
    }
    Ok(())
}

#[test]
fn a_target_counts_at_each_edge(rt: HostRuntime) -> Result<(), AllocError> {
    let table: [(&[&[u32]], &[u32], u32, usize, Option<Option<u32>>); 15] = [
        (&DIAMOND, &[1, 1, 1, 1], 100, 3, Some(Some(1))),
        (&DIAMOND, &[1, 1, 1, 1], 100, 1, Some(Some(2))),
        (&DIAMOND, &[1, 1, 1, 1], 100, 0, Some(Some(5))),
        (&DIAMOND, &[1, 1, 1, 1], 5, 0, Some(Some(5))),
        (&DIAMOND, &[1, 1, 1, 1], 4, 0, Some(Some(5))),
        (&DIAMOND, &[1, 1, 1, 1], 3, 0, Some(Some(4))),
        (&DIAMOND, &[1, 1, 1, 900], 300, 3, Some(Some(301))),
        (
            &TWO_DIAMONDS,
            &[1, 1, 1, 1, 1, 1, 1],
            100,
            0,
            Some(Some(13)),
        ),
        (&DOUBLE, &[1, 10, 100], 1000, 1, Some(Some(310))),
        (&DOUBLE, &[1, 10, 100], 1000, 0, Some(Some(621))),
        (&CYCLE, &[1, 1, 1, 1, 1], 100, 0, Some(None)),
        (&CYCLE, &[1, 1, 1, 1, 1], 100, 2, Some(None)),
        (&CYCLE, &[1, 1, 1, 1, 1], 100, 3, Some(Some(2))),
        (&LOOP, &[0, 0], 100, 1, Some(None)),
        (&LOOP, &[0], 100, 1, None),
    ];
    for (rows, own, most, node, expected) in table {
        assert_eq!(rt;
            total(rt.alloc(), rows, own, most, node)?,
            expected,
            "{node} up to {most}"
        );
    }
    Ok(())
}

#[test]
fn sources_come_first(rt: HostRuntime) -> Result<(), AllocError> {
    let graph = graph_of(rt.alloc(), &CHAIN)?;
    assert!(rt; is_within(&graph));
    assert!(rt; graph.len() < 1000);
    let order = sort(rt.alloc(), &graph)?;
    let nodes = forward(rt.alloc(), &order)?;
    assert_eq!(rt; nodes.as_slice(), [0, 2, 1, 3].as_slice());
    Ok(())
}
