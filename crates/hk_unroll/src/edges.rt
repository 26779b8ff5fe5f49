//! The edges of a function's blocks, by their places.

ghost use Rattle.std.specs.Prelude.{◌≡◌, ◌<◌, ◌^◌, ◌++◌, length, map, flat_map, position, option_to_list, bytes_eq, OnOk, IfOk};
ghost use Rattle.ir_ast.specs.ProgramView.{view_op, view_instr, view_block, view_function};
ghost use Rattle.ir_typing.specs.Registers.{blocks_of};
ghost use Rattle.ir_type.specs.Rows.{targets};
ghost use Rattle.ir_check.specs.Graphs.{places_among, graph_by, named, block_targets};

use crate::index::NameIndex;
use hk_graph::Graph;
use ir_ast::{Block, Function, Instr, Name, Op};
use std::alloc::{AllocError, Global};

/// Adds the place of a name, where it has one.
fn add_place(index: &NameIndex, name: &Name, places: &mut Vec<u32>) -> Result<(), AllocError>
    requires { length index.now < 2 ^ 32 }
    ensures { OnOk result (places.new.items ≡ places.old.items ++ option_to_list (position (bytes_eq name.now) index.now)) }
{
    if let Some(place) = index.place(name) {
        places.push(place)?;
    }
    Ok(())
}

/// Adds the places of the targets of a switch's cases.
fn add_cases(
    index: &NameIndex,
    cases: &[(i128, Name)],
    places: &mut Vec<u32>,
) -> Result<(), AllocError>
    requires { length index.now < 2 ^ 32 }
    ensures { OnOk result (places.new.items ≡ places.old.items ++ places_among index.now (map (λ c. c.1) cases.now)) }
{
    for case in cases {
        add_place(index, &case.1, places)?;
    }
    Ok(())
}

/// Adds the places of the blocks that an instruction goes to, one for each edge.
fn add_targets(index: &NameIndex, op: &Op, places: &mut Vec<u32>) -> Result<(), AllocError>
    requires { length index.now < 2 ^ 32 }
    ensures { OnOk result (places.new.items ≡ places.old.items ++ places_among index.now (targets (view_op op.now))) }
{
    match op {
        Op::Goto { target } => add_place(index, target, places),
        Op::Branch { yes, no, .. } => {
            add_place(index, yes, places)?;
            add_place(index, no, places)
        }
        Op::Switch { default, cases, .. } => {
            add_place(index, default, places)?;
            add_cases(index, &cases.items, places)
        }
        _ => Ok(()),
    }
}

/// The places of the blocks that a block goes to, one for each edge.
fn targets_of_block(
    alloc: Global,
    index: &NameIndex,
    instrs: &[Instr],
) -> Result<Vec<u32>, AllocError>
    requires { length index.now < 2 ^ 32 }
    ensures { IfOk result (λ places. places.items ≡ places_among index.now (flat_map (λ i. targets i.act) (map view_instr instrs.now))) }
{
    let mut places = Vec::new(alloc);
    for instr in instrs {
        add_targets(index, &instr.op, &mut places)?;
    }
    Ok(places)
}

/// The blocks of a function; none where it has no body.
pub fn blocks_of(function: &Function) -> &[Block]
    ensures { map view_block result.now ≡ blocks_of (view_function function.now) }
{
    match &function.body {
        Some(blocks) => &blocks.items,
        None => &[],
    }
}

/// The graph of the edges of these blocks, of which this is the index.
pub fn edges_among(alloc: Global, index: &NameIndex, blocks: &[Block]) -> Result<Graph, AllocError>
    requires few { length index.now < 2 ^ 32 }
    requires index { index.now ≡ map (λ b. b.name) blocks.now }
    ensures { IfOk result (λ graph. graph ≡ graph_by block_targets (named (map view_block blocks.now))) }
{
    let mut graph = Graph::new(alloc);
    for block in blocks {
        graph.push(targets_of_block(alloc, index, &block.instrs.items)?)?;
    }
    Ok(graph)
}
