//! Copies of a function's blocks, and the edges that arrive at each.
//!
//! The graph of a function's blocks comes in, with how many turns are taken at most; the copies that paths reach go out, with the copies
//! from which edges arrive at each. An edge leads to a copy with more turns, or with the same turns to a later block: so one pass over
//! the copies, the fewest turns first and then in text order, comes to each behind all from which edges arrive.

ghost use Rattle.std.specs.Prelude.{◌≡◌, ◌<◌, ◌≤◌, ◌+◌, ◌^◌, ◌++◌, ◌∷◌, ◌||◌, [], length, map, slice_index_or, slice_set, replicate, IfOk, OnOk};
ghost use Rattle.hk_graph.specs.Walks.{AreWithin};
ghost use Rattle.hk_unroll.specs.Copies as definition;
ghost use Rattle.hk_unroll.specs.Copies.{is_copy, is_some_copy, first_copy, grown, layer, copies_of};
ghost use Rattle.hk_graph.specs.Walks as graphs;
ghost use Rattle.hk_unroll.specs.Arriving.{at_copy, AreSized, AreArrivals, Arrives, ArriveAll};

use hk_graph::Graph;
use std::alloc::{AllocError, Global};
use std::marker::Model;

/// A copy of a block: how many turns were taken on the way to it, and the place of the block in the text.
#[derive(Clone, Copy, Debug, PartialEq, Eq)]
pub struct BlockCopy {
    pub turns: u32,
    pub block: u32,
}

/// Copies, in some order.
#[derive(Drop)]
pub struct CopyList {
    items: Vec<BlockCopy>,
}

impl Model for CopyList {
    ghost use Rattle.std.specs.Prelude.{List};
    ghost use Rattle.hk_unroll.specs.declared.copies.BlockCopy.{BlockCopy};

    ghost Value = { List BlockCopy };

    ghost view = { λ l. l.items.items };
}

impl CopyList {
    /// No copy.
    fn new(alloc: Global) -> CopyList
        ensures { result ≡ [] }
    {
        CopyList {
            items: Vec::new(alloc),
        }
    }

    /// Adds a copy behind the others.
    fn push(&mut self, copy: BlockCopy) -> Result<(), AllocError>
        ensures { OnOk result (self.new ≡ self.old ++ copy ∷ []) }
    {
        self.items.push(copy)?;
        Ok(())
    }

    /// The copies.
    pub fn as_slice(&self) -> &[BlockCopy]
        ensures { result.now ≡ self.now }
    {
        self.items.as_slice()
    }
}

/// For each block, by its place, the copies from which edges arrive at its copy with so many turns.
#[derive(Drop)]
pub struct Layer {
    rows: Vec<CopyList>,
}

impl Model for Layer {
    ghost use Rattle.std.specs.Prelude.{List};
    ghost use Rattle.hk_unroll.specs.declared.copies.BlockCopy.{BlockCopy};

    ghost Value = { List (List BlockCopy) };

    ghost view = { λ l. l.rows.items };
}

impl Layer {
    /// No edge, over so many blocks.
    fn of(alloc: Global, blocks: usize) -> Result<Layer, AllocError>
        ensures { IfOk result (λ l. l ≡ replicate blocks []) }
    {
        let mut rows = Vec::new(alloc);
        for _block in 0..blocks {
            rows.push(CopyList::new(alloc))?;
        }
        Ok(Layer { rows })
    }

    /// Adds the copy from which an edge arrives at a block.
    fn push(&mut self, block: usize, from: BlockCopy) -> Result<(), AllocError>
        requires { block < length self.old }
        ensures { OnOk result (self.new ≡ slice_set self.old block (slice_index_or self.old block [] ++ from ∷ [])) }
    {
        self.rows[block].push(from)
    }

    /// The copies from which edges arrive at a block.
    fn row(&self, block: usize) -> &[BlockCopy]
        requires { block < length self.now }
        ensures { result.now ≡ slice_index_or self.now block [] }
    {
        self.rows[block].as_slice()
    }
}

/// The copies that paths reach, the fewest turns first and then in text order; and for each number of turns the edges that arrive.
#[derive(Drop)]
pub struct Copies {
    pub made: Vec<BlockCopy>,
    pub layers: Vec<Layer>,
}

/// How many turns are behind an edge from a copy: one more where it leads to a block that does not stand later.
fn turns_behind(from: BlockCopy, to: u32) -> u32
    requires { from.turns + 1 < 2 ^ 32 }
    ensures { result ≡ (definition.led_to from to).turns }
{
    if to <= from.block {
        from.turns + 1
    } else {
        from.turns
    }
}

/// The copy to which an edge from a copy leads.
pub fn led_to(from: BlockCopy, to: u32) -> BlockCopy
    requires { from.turns + 1 < 2 ^ 32 }
    ensures { result ≡ definition.led_to from to }
{
    BlockCopy {
        turns: turns_behind(from, to),
        block: to,
    }
}

impl Copies {
    /// The copies from which edges arrive at a copy, one for each edge.
    pub fn arrivals(&self, copy: BlockCopy) -> &[BlockCopy]
        requires turns { copy.turns < length self.now.layers.items }
        requires block { copy.block < length (slice_index_or self.now.layers.items copy.turns []) }
        ensures { result.now ≡ at_copy self.now.layers.items copy }
    {
        self.layers[copy.turns as usize].row(copy.block as usize)
    }

    /// An edge arrives at a copy, where it is within so many turns.
    fn arrive(&mut self, most: u32, from: BlockCopy, copy: BlockCopy) -> Result<(), AllocError>
        requires turns { copy.turns ≤ most → copy.turns < length self.old.layers.items }
        requires block { copy.turns ≤ most → copy.block < length (slice_index_or self.old.layers.items copy.turns []) }
        ensures made { OnOk result (self.new.made.items ≡ self.old.made.items) }
        ensures arrives { OnOk result (Arrives most from copy self.old.layers.items self.new.layers.items) }
    {
        if copy.turns <= most {
            self.layers[copy.turns as usize].push(copy.block as usize, from)?;
        }
        Ok(())
    }

    /// Follows the edges of a copy, within so many turns.
    fn follow(&mut self, graph: &Graph, most: u32, from: BlockCopy) -> Result<(), AllocError>
        requires within { AreWithin graph.now }
        requires few { most + 1 < 2 ^ 32 }
        requires turns { from.turns ≤ most }
        requires block { from.block < length graph.now }
        requires sized { AreSized (length graph.now) most self.old.layers.items }
        ensures made { OnOk result (self.new.made.items ≡ self.old.made.items) }
        ensures follows { OnOk result (ArriveAll most from (graphs.targets_of graph.now from.block) self.old.layers.items self.new.layers.items) }
    {
        for to in graph.targets(from.block as usize) {
            let copy = led_to(from, *to);
            self.arrive(most, from, copy)?;
        }
        Ok(())
    }

    /// Whether a copy is that of the first block, or an edge arrives at it.
    fn is_reached(&self, copy: BlockCopy) -> bool
        requires turns { copy.turns < length self.now.layers.items }
        requires block { copy.block < length (slice_index_or self.now.layers.items copy.turns []) }
        ensures { result ≡ (is_copy copy first_copy || is_some_copy (at_copy self.now.layers.items copy)) }
    {
        if copy.turns == 0 && copy.block == 0 {
            return true;
        }
        !self.arrivals(copy).is_empty()
    }

    /// Makes a copy where it is reached, and follows its edges.
    fn step(&mut self, graph: &Graph, most: u32, copy: BlockCopy) -> Result<(), AllocError>
        requires within { AreWithin graph.now }
        requires few { most + 1 < 2 ^ 32 }
        requires turns { copy.turns ≤ most }
        requires block { copy.block < length graph.now }
        requires arrivals { AreArrivals graph.now most self.old.made.items self.old.layers.items }
        ensures made { OnOk result (self.new.made.items ≡ grown graph.now self.old.made.items (copy ∷ [])) }
        ensures arrivals { OnOk result (AreArrivals graph.now most self.new.made.items self.new.layers.items) }
    {
        if self.is_reached(copy) {
            self.made.push(copy)?;
            self.follow(graph, most, copy)?;
        }
        Ok(())
    }

    /// Goes over the copies with so many turns, in text order.
    fn visit(&mut self, graph: &Graph, most: u32, turns: u32) -> Result<(), AllocError>
        requires within { AreWithin graph.now }
        requires few { most + 1 < 2 ^ 32 }
        requires small { length graph.now < 2 ^ 32 }
        requires turns { turns ≤ most }
        requires arrivals { AreArrivals graph.now most self.old.made.items self.old.layers.items }
        ensures made { OnOk result (self.new.made.items ≡ grown graph.now self.old.made.items (layer (length graph.now) turns)) }
        ensures arrivals { OnOk result (AreArrivals graph.now most self.new.made.items self.new.layers.items) }
    {
        for block in 0..graph.len() as u32 {
            self.step(graph, most, BlockCopy { turns, block })?;
        }
        Ok(())
    }

    /// No copy yet, with room for the edges that arrive.
    fn new(alloc: Global, graph: &Graph, most: u32) -> Result<Copies, AllocError>
        requires { most + 1 < 2 ^ 32 }
        ensures made { IfOk result (λ c. c.made.items ≡ []) }
        ensures arrivals { IfOk result (λ c. AreArrivals graph.now most [] c.layers.items) }
    {
        let mut layers = Vec::new(alloc);
        for _turns in 0..most + 1 {
            layers.push(Layer::of(alloc, graph.len())?)?;
        }
        Ok(Copies {
            made: Vec::new(alloc),
            layers,
        })
    }

    /// The copies of the blocks of a graph within so many turns, in time linear in their edges.
    pub fn of(alloc: Global, graph: &Graph, most: u32) -> Result<Copies, AllocError>
        requires within { AreWithin graph.now }
        requires few { most + 1 < 2 ^ 32 }
        requires small { length graph.now < 2 ^ 32 }
        ensures made { IfOk result (λ c. c.made.items ≡ copies_of graph.now most) }
        ensures arrivals { IfOk result (λ c. AreArrivals graph.now most c.made.items c.layers.items) }
    {
        let mut copies = Copies::new(alloc, graph, most)?;
        for turns in 0..most + 1 {
            copies.visit(graph, most, turns)?;
        }
        Ok(copies)
    }
}
