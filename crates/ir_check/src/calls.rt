//! The calls of a module's functions, by their places.

ghost use Rattle.std.specs.Prelude.{◌≡◌, ◌<◌, ◌^◌, ◌++◌, ◌+◌, ℕ, length, map, flat_map, position, option_to_list, bytes_eq, IfSome, OnOk, IfOk};
ghost use Rattle.std.specs.List.{IsDistinct};
ghost use Rattle.ir_ast.specs.Table.{names_of};
ghost use Rattle.ir_ast.specs.ProgramView.{view_op, view_instr, view_block, view_function, view_entries, view_module};
ghost use Rattle.ir_type.specs.Rows.{callees};
ghost use Rattle.hk_graph.specs.Sorted.{flag_of};
ghost use Rattle.hk_flow.specs.Sums.{told};
ghost use Rattle.ir_check.specs.Graphs.{places_among, called_by, call_graph, own_of, SaysCalls, SaysLength};

use crate::edges::blocks_of;
use crate::reach::block_size;
use hk_flow::sums;
use hk_graph::{Graph, sort};
use ir_ast::{Block, Function, FunctionTable, Instr, Module, Name, Op};
use std::alloc::{AllocError, Global};

/// Adds the place of a function, where it has one.
fn add_function(
    functions: &FunctionTable,
    name: &Name,
    places: &mut Vec<u32>,
) -> Result<(), AllocError>
    requires { length functions.now < 2 ^ 32 }
    ensures { OnOk result (places.new.items ≡ places.old.items ++ option_to_list (position (bytes_eq name.now) (names_of functions.now))) }
{
    if let Some(place) = functions.get(name) {
        places.push(place)?;
    }
    Ok(())
}

/// Adds the place of the function that an instruction calls.
fn add_callee(functions: &FunctionTable, op: &Op, places: &mut Vec<u32>) -> Result<(), AllocError>
    requires { length functions.now < 2 ^ 32 }
    ensures { OnOk result (places.new.items ≡ places.old.items ++ places_among (names_of functions.now) (callees (view_op op.now))) }
{
    match op {
        Op::Call { callee, .. } => add_function(functions, callee, places),
        _ => Ok(()),
    }
}

/// Adds the places of the functions that instructions call, one for each call.
fn add_callees(
    functions: &FunctionTable,
    instrs: &[Instr],
    places: &mut Vec<u32>,
) -> Result<(), AllocError>
    requires { length functions.now < 2 ^ 32 }
    ensures { OnOk result (places.new.items ≡ places.old.items ++ places_among (names_of functions.now) (flat_map (λ i. callees i.act) (map view_instr instrs.now))) }
{
    for instr in instrs {
        add_callee(functions, &instr.op, places)?;
    }
    Ok(())
}

/// The places of the functions that a function calls, one for each call.
fn calls_of(
    alloc: Global,
    functions: &FunctionTable,
    function: &Function,
) -> Result<Vec<u32>, AllocError>
    requires { length functions.now < 2 ^ 32 }
    ensures { IfOk result (λ places. places.items ≡ places_among (names_of functions.now) (called_by (view_function function.now))) }
{
    let mut places = Vec::new(alloc);
    let blocks = blocks_of(function);
    for block in blocks {
        add_callees(functions, &block.instrs.items, &mut places)?;
    }
    Ok(places)
}

/// The graph of the calls of a module's functions, by their places.
fn call_edges(alloc: Global, kernel: &Module) -> Result<Graph, AllocError>
    requires { length kernel.now.functions < 2 ^ 32 }
    ensures graph { IfOk result (λ graph. graph ≡ call_graph (view_module kernel.now)) }
    ensures distinct { IsDistinct bytes_eq (names_of kernel.now.functions) }
{
    let mut graph = Graph::new(alloc);
    for place in 0..kernel.functions.len() {
        let function = kernel.functions.at(place);
        graph.push(calls_of(alloc, &kernel.functions, function)?)?;
    }
    Ok(graph)
}

/// How many instructions there are with more; none where 32 bits do not hold the number.
fn added(count: u32, more: usize) -> Option<u32>
    ensures { IfSome result (λ n. n ≡ count + more) }
{
    if more > u32::MAX as usize {
        return None;
    }
    count.checked_add(more as u32)
}

/// How many instructions blocks have; none where 32 bits do not hold the number.
fn instr_count(blocks: &[Block]) -> Option<u32>
    ensures { IfSome result (λ n. n ≡ length (flat_map (λ b. b.instrs) (map view_block blocks.now))) }
{
    let mut count = 0;
    for block in blocks {
        count = added(count, block_size(block))?;
    }
    Some(count)
}

/// How many instructions each function has. 2^32 instructions have no room.
fn own_lengths(alloc: Global, functions: &FunctionTable) -> Result<Vec<u32>, AllocError>
    requires { length functions.now < 2 ^ 32 }
    ensures { IfOk result (λ own. own.items ≡ own_of (view_entries view_function functions.now)) }
{
    let mut own = Vec::new(alloc);
    for place in 0..functions.len() {
        let blocks = blocks_of(functions.at(place));
        match instr_count(blocks) {
            Some(count) => own.push(count)?,
            None => return Err(AllocError),
        }
    }
    Ok(own)
}

/// What calls say of each function, by its place: whether it lies on a cycle of calls, and its expanded length, cut at one more than the
/// limit, where it leads to no cycle.
#[derive(Drop)]
pub struct Calls {
    pub cyclic: Vec<bool>,
    pub lengths: Vec<Option<u32>>,
}

/// The greatest expanded length, in instructions.
pub const MOST: u32 = 100_000;

/// The calls of a module's functions, in time linear in the text.
pub fn calls_in(alloc: Global, kernel: &Module) -> Result<Calls, AllocError>
    requires { length kernel.now.functions < 2 ^ 32 }
    ensures cyclic { IfOk result (λ c. (p : ℕ) → p < length kernel.now.functions → SaysCalls (view_module kernel.now) (flag_of c.cyclic.items p) p) }
    ensures lengths { IfOk result (λ c. (p : ℕ) → p < length kernel.now.functions → SaysLength (view_module kernel.now) (told c.lengths.items p) p) }
{
    let graph = call_edges(alloc, kernel)?;
    let order = sort(alloc, &graph)?;
    let own = own_lengths(alloc, &kernel.functions)?;
    let lengths = sums(alloc, &graph, &order, &own, MOST)?;
    Ok(Calls {
        cyclic: order.cyclic,
        lengths,
    })
}
