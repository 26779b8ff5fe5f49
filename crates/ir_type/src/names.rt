//! The names that types spell, as a graph.

ghost use Rattle.std.specs.Prelude.{◌≡◌, ◌<◌, ◌^◌, ◌++◌, length, OnOk, IfOk, ℕ, option_to_list, bytes_eq};
ghost use Rattle.std.specs.List.{IsDistinct};
ghost use Rattle.ir_ast.specs.Table.{names_of, place_of};
ghost use Rattle.ir_ast.specs.View.{view_type, view_type_list};
ghost use Rattle.ir_ast.specs.ProgramView.{view_entries, view_type_entry};
ghost use Rattle.hk_graph.specs.Sorted.{IsOrder, flag_of};
ghost use Rattle.ir_type.specs.Names.{names_in, all_names_in};
ghost use Rattle.ir_type.specs.Cycles.{places_of, places_in, graph_of, SaysCyclic};

use hk_graph::{Graph, Order, sort};
use ir_ast::{IrType, Name, TypeList, TypeTable};
use std::alloc::{AllocError, Global};

/// The place of the type of a name.
fn place_of_type(types: &TypeTable, name: &Name) -> Option<u32>
    requires { length types.now < 2 ^ 32 }
    ensures { result ≡ place_of name.now (view_entries view_type_entry types.now) }
{
    types.get(name)
}

/// Adds the place of a name, where it has one.
fn add_place(types: &TypeTable, name: &Name, places: &mut Vec<u32>) -> Result<(), AllocError>
    requires { length types.now < 2 ^ 32 }
    ensures { OnOk result (places.new.items ≡ places.old.items ++ option_to_list (place_of name.now (view_entries view_type_entry types.now))) }
{
    if let Some(place) = place_of_type(types, name) {
        places.push(place)?;
    }
    Ok(())
}

/// Adds the places of the type names that a type spells.
#[cycle(places)]
fn add_places(types: &TypeTable, over: &IrType, places: &mut Vec<u32>) -> Result<(), AllocError>
    requires { length types.now < 2 ^ 32 }
    ensures { OnOk result (places.new.items ≡ places.old.items ++ places_in (view_entries view_type_entry types.now) (view_type over.now)) }
{
    match over {
        IrType::Array(_, element) => add_places(types, element, places),
        IrType::Struct(parts) => add_all_places(types, parts, places),
        IrType::Packed(parts) => add_all_places(types, parts, places),
        IrType::Named(name) => add_place(types, name, places),
        _ => Ok(()),
    }
}

/// The same for the parts of a struct.
#[cycle(places)]
fn add_all_places(
    types: &TypeTable,
    parts: &TypeList,
    places: &mut Vec<u32>,
) -> Result<(), AllocError>
    requires { length types.now < 2 ^ 32 }
    ensures { OnOk result (places.new.items ≡ places.old.items ++ places_of (view_entries view_type_entry types.now) (all_names_in (view_type_list parts.now))) }
{
    let items = parts.items.as_slice();
    'each: for part in items {
        add_places(types, part, places)?;
    }
    Ok(())
}

/// The graph of the named types, by their places: each leads to those that it spells.
fn type_graph(alloc: Global, types: &TypeTable) -> Result<Graph, AllocError>
    requires { length types.now < 2 ^ 32 }
    ensures graph { IfOk result (λ g. g ≡ graph_of (view_entries view_type_entry types.now)) }
    ensures distinct { IsDistinct bytes_eq (names_of types.now) }
{
    let mut graph = Graph::new(alloc);
    for place in 0..types.len() {
        let mut places = Vec::new(alloc);
        add_places(types, &types.at(place).over, &mut places)?;
        graph.push(places)?;
    }
    Ok(graph)
}

/// An order of the named types, by their places: those that a type spells stand before it, unless it contains itself, which the flags
/// tell. It takes time linear in the types.
pub fn type_order(alloc: Global, types: &TypeTable) -> Result<Order, AllocError>
    requires { length types.now < 2 ^ 32 }
    ensures order { IfOk result (λ o. IsOrder (graph_of (view_entries view_type_entry types.now)) o.nodes.items o.cyclic.items) }
    ensures cyclic { IfOk result (λ o. (p : ℕ) → p < length types.now → SaysCyclic (view_entries view_type_entry types.now) (flag_of o.cyclic.items p) p) }
{
    let graph = type_graph(alloc, types)?;
    sort(alloc, &graph)
}
