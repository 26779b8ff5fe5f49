//! Facts of types, by the facts of the names that they spell.

ghost use Rattle.std.specs.Prelude.{◌≡◌, ◌<◌, ◌^◌, length, List, ℕ, slice_get, IfOk};
ghost use Rattle.std.specs.List.{All};
ghost use Rattle.ir_ast.specs.View.{view_type, view_type_list};
ghost use Rattle.ir_ast.specs.Program.{TypeView};
ghost use Rattle.ir_ast.specs.ProgramView.{view_entries, view_type_entry};
ghost use Rattle.hk_graph.specs.Sorted.{flag_of};
ghost use Rattle.ir_type.specs.Cycles as definition;
ghost use Rattle.ir_layout.specs.Facts.{look_in, integer_fact, fact_by, fields_by, packed_by, no_fields, node_fact, IsKept, IsTypeOrder, AreFacts};

use crate::fact::Fact;
use hk_graph::Order;
use ir_ast::{IrType, Name, Table, TypeList, TypeTable};
use std::alloc::{AllocError, Global};

/// What is kept of a name.
fn look<E: Drop>(types: &Table<E>, facts: &[Fact], name: &Name) -> Fact
    requires small { length types.now < 2 ^ 32 }
    requires kept { All IsKept facts.now }
    ensures fact { result ≡ look_in types.now facts.now name.now }
    ensures kept { IsKept result }
{
    match types.get(name) {
        Some(place) => match facts.get(place as usize) {
            Some(fact) => *fact,
            None => Fact::of_unknown(),
        },
        None => Fact::of_unknown(),
    }
}

/// What is kept of an integer of this width, in bits.
fn integer(width: u32) -> Fact
    ensures fact { result ≡ integer_fact width }
    ensures kept { IsKept result }
{
    match width {
        8 | 16 | 32 | 64 => {
            let size = u64::from(width / 8);
            Fact::of_scalar(size, size, false)
        }
        _ => Fact::of_scalar(u64::from(width / 8), 1, true),
    }
}

/// What is kept of a type, where this is kept of the named types.
#[cycle(facts)]
pub fn fact_in<E: Drop>(types: &Table<E>, facts: &[Fact], over: &IrType) -> Fact
    requires small { length types.now < 2 ^ 32 }
    requires kept { All IsKept facts.now }
    ensures fact { result ≡ fact_by (look_in types.now facts.now) (view_type over.now) }
    ensures kept { IsKept result }
{
    match over {
        IrType::Void => Fact::of_scalar(0, 1, false),
        IrType::Int(width) => integer(*width),
        IrType::Ptr => Fact::of_scalar(8, 8, false),
        IrType::Array(length, element) => fact_in(types, facts, element).times(*length),
        IrType::Struct(parts) => fields_in(types, facts, parts).into_struct(),
        IrType::Packed(parts) => packed_in(types, facts, parts).into_packed(),
        IrType::Named(name) => look(types, facts, name),
        IrType::Opaque => Fact::of_opaque(),
    }
}

/// What is kept of the fields of a struct.
#[cycle(facts)]
fn fields_in<E: Drop>(types: &Table<E>, facts: &[Fact], parts: &TypeList) -> Fact
    requires small { length types.now < 2 ^ 32 }
    requires kept { All IsKept facts.now }
    ensures fact { result ≡ fields_by (look_in types.now facts.now) no_fields (view_type_list parts.now) }
    ensures kept { IsKept result }
{
    let items = parts.items.as_slice();
    let mut all = Fact::of_no_fields();
    'each: for part in items {
        all = all.with_field(fact_in(types, facts, part));
    }
    all
}

/// What is kept of the fields of a packed struct.
#[cycle(facts)]
fn packed_in<E: Drop>(types: &Table<E>, facts: &[Fact], parts: &TypeList) -> Fact
    requires small { length types.now < 2 ^ 32 }
    requires kept { All IsKept facts.now }
    ensures fact { result ≡ packed_by (look_in types.now facts.now) no_fields (view_type_list parts.now) }
    ensures kept { IsKept result }
{
    let items = parts.items.as_slice();
    let mut all = Fact::of_no_fields();
    'each: for part in items {
        all = all.with_packed(fact_in(types, facts, part));
    }
    all
}

/// Whether a type has no parts of its own.
fn is_opaque(over: &IrType) -> bool
    ensures { result ≡ definition.is_opaque (view_type over.now) }
{
    matches!(over, IrType::Opaque)
}

/// Whether the type at a place contains itself.
fn is_cyclic(order: &Order, place: u32) -> bool
    requires { place < length order.now.cyclic.items }
    ensures { result ≡ flag_of order.now.cyclic.items place }
{
    order.cyclic[place as usize]
}

/// What is kept of a named type, where this is kept of the names that it spells.
fn fact_at(types: &TypeTable, facts: &[Fact], place: u32, cyclic: bool) -> Fact
    requires small { length types.now < 2 ^ 32 }
    requires kept { All IsKept facts.now }
    requires place { place < length types.now }
    ensures fact { (over : TypeView) → (x : List ℕ) → slice_get (view_entries view_type_entry types.now) place ≡ Some (x, over) → result ≡ node_fact cyclic over.over (fact_by (look_in types.now facts.now) over.over) }
    ensures kept { IsKept result }
{
    if cyclic {
        return Fact::of_unknown();
    }
    let entry = types.at(place);
    fact_in(types, facts, &entry.over).into_named(is_opaque(&entry.over))
}

/// What is kept of the named types, by their places. It takes time linear in the types.
pub fn facts_of(alloc: Global, types: &TypeTable, order: &Order) -> Result<Vec<Fact>, AllocError>
    requires small { length types.now < 2 ^ 32 }
    requires order { IsTypeOrder (view_entries view_type_entry types.now) order.now.nodes.items order.now.cyclic.items }
    ensures { IfOk result (λ facts. AreFacts (view_entries view_type_entry types.now) facts.items) }
{
    let count = types.len();
    let mut facts = vec![in alloc; Fact::of_unknown(); count as usize]?;
    for node in &order.nodes {
        facts[*node as usize] = fact_at(types, &facts, *node, is_cyclic(order, *node));
    }
    Ok(facts)
}
