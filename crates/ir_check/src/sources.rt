//! The blocks that go to each block, by their places.

ghost use Rattle.std.specs.Prelude.{◌≡◌, ◌+◌, ◌<◌, ◌^◌, ◌++◌, ◌∷◌, [], ℕ, length, cond, nat_eq, replicate, slice_set, slice_index_or, OnOk, IfOk};
ghost use Rattle.std.specs.List.{All};
ghost use Rattle.hk_graph.specs.Walks.{AreWithin};
ghost use Rattle.ir_check.specs.Tallies.{times_at, row_at};

use crate::tally::Tally;
use hk_graph::Graph;
use std::alloc::{AllocError, Global};

/// Adds a source to the row of a node.
fn add_source(rows: &mut Vec<Tally>, node: u32, source: u32) -> Result<(), AllocError>
    requires { node < length rows.old.items }
    ensures { OnOk result (rows.new.items ≡ slice_set rows.old.items node (row_at rows.old.items node ++ source ∷ [])) }
{
    rows[node as usize].add(source)
}

/// Adds a source to the rows of the nodes that it leads to, once for each edge.
fn add_sources(rows: &mut Vec<Tally>, source: u32, targets: &[u32]) -> Result<(), AllocError>
    requires { All (λ t. t < length rows.old.items) targets.now }
    ensures count { OnOk result (length rows.new.items ≡ length rows.old.items) }
    ensures rows { OnOk result ((t q : ℕ) → times_at (row_at rows.new.items t) q ≡ times_at (row_at rows.old.items t) q + cond (nat_eq q source) (times_at targets.now t) 0) }
{
    for target in targets {
        add_source(rows, *target, source)?;
    }
    Ok(())
}

/// So many rows without sources.
fn empty_rows(alloc: Global, count: usize) -> Result<Vec<Tally>, AllocError>
    ensures { IfOk result (λ rows. rows.items ≡ replicate count []) }
{
    let mut rows = Vec::new(alloc);
    for _at in 0..count {
        rows.push(Tally::new(alloc))?;
    }
    Ok(rows)
}

/// For each node of a graph the nodes that lead to it, one for each edge. It takes time n log n in the edges.
pub fn sources_of(alloc: Global, graph: &Graph) -> Result<Vec<Tally>, AllocError>
    requires within { AreWithin graph.now }
    requires small { length graph.now < 2 ^ 32 }
    ensures count { IfOk result (λ rows. length rows.items ≡ length graph.now) }
    ensures rows { IfOk result (λ rows. (t q : ℕ) → times_at (row_at rows.items t) q ≡ times_at (slice_index_or graph.now q []) t) }
{
    let mut rows = empty_rows(alloc, graph.len())?;
    for node in 0..graph.len() {
        add_sources(&mut rows, node as u32, graph.targets(node))?;
    }
    Ok(rows)
}
