//! Where the fields of structs stand, and what a named type stands for.
//!
//! The table of named types comes in, with what is kept of them. A name that stands for another one has the place of what that one
//! stands for, so that no list of fields is kept twice.

ghost use Rattle.std.specs.Prelude.{◌≡◌, ◌<◌, ◌^◌, ◌++◌, length, List, ℕ, map, slice_get, slice_index, Some, IfOk};
ghost use Rattle.std.specs.List.{All};
ghost use Rattle.ir_ast.specs.View.{view_type, view_type_list};
ghost use Rattle.ir_ast.specs.Program.{TypeView};
ghost use Rattle.ir_ast.specs.ProgramView.{view_entries, view_type_entry};
ghost use Rattle.ir_ast.specs.Table.{place_of};
ghost use Rattle.ir_layout.specs.Facts.{look_in, no_fields, IsKept, IsTypeOrder};
ghost use Rattle.ir_layout.specs.Offsets as definition;

use crate::fact::{Fact, rounded};
use crate::types::fact_in;
use hk_graph::Order;
use ir_ast::{IrType, Name, Table, TypeList, TypeTable};
use std::alloc::{AllocError, Global};
use std::marker::Model;

/// Where the fields of a struct stand, in bytes.
#[derive(Drop)]
pub struct FieldOffsets {
    items: Vec<u64>,
}

impl Model for FieldOffsets {
    ghost use Rattle.std.specs.Prelude.{List, ℕ};

    ghost Value = { List ℕ };

    ghost view = { λ f. f.items.items };
}

impl FieldOffsets {
    fn new(items: Vec<u64>) -> FieldOffsets
        ensures { result ≡ items.items }
    {
        FieldOffsets { items }
    }

    /// Where a field stands; 0 where there is none.
    pub fn at(&self, field: u32) -> u64
        ensures { result ≡ slice_index self.now field }
    {
        offset_at(self.items.as_slice(), field)
    }
}

fn offset_at(items: &[u64], field: u32) -> u64
    ensures { result ≡ slice_index items.now field }
{
    match items.get(field as usize) {
        Some(offset) => *offset,
        None => 0,
    }
}

/// Where a field of a struct stands; 0 where there is none.
pub fn offset_in<E: Drop>(types: &Table<E>, facts: &[Fact], parts: &TypeList, field: u32) -> u64
    requires small { length types.now < 2 ^ 32 }
    requires kept { All IsKept facts.now }
    ensures { result ≡ slice_index (definition.offsets_by (look_in types.now facts.now) no_fields (view_type_list parts.now)) field }
{
    let items = parts.items.as_slice();
    let mut all = Fact::of_no_fields();
    let mut left = field;
    for part in items {
        let fact = fact_in(types, facts, part);
        if left == 0 {
            return rounded(all.size, fact.align);
        }
        left -= 1;
        all = all.with_field(fact);
    }
    0
}

/// The same in a packed struct.
pub fn packed_offset_in<E: Drop>(
    types: &Table<E>,
    facts: &[Fact],
    parts: &TypeList,
    field: u32,
) -> u64
    requires small { length types.now < 2 ^ 32 }
    requires kept { All IsKept facts.now }
    ensures { result ≡ slice_index (definition.packed_offsets_by (look_in types.now facts.now) no_fields (view_type_list parts.now)) field }
{
    let items = parts.items.as_slice();
    let mut all = Fact::of_no_fields();
    let mut left = field;
    for part in items {
        let fact = fact_in(types, facts, part);
        if left == 0 {
            return all.size;
        }
        left -= 1;
        all = all.with_packed(fact);
    }
    0
}

/// Where all fields of a struct stand.
fn all_offsets(
    alloc: Global,
    types: &TypeTable,
    facts: &[Fact],
    parts: &TypeList,
) -> Result<FieldOffsets, AllocError>
    requires small { length types.now < 2 ^ 32 }
    requires kept { All IsKept facts.now }
    ensures { IfOk result (λ f. f ≡ definition.offsets_by (look_in types.now facts.now) no_fields (view_type_list parts.now)) }
{
    let items = parts.items.as_slice();
    let mut offsets = Vec::new(alloc);
    let mut all = Fact::of_no_fields();
    for part in items {
        let fact = fact_in(types, facts, part);
        offsets.push(rounded(all.size, fact.align))?;
        all = all.with_field(fact);
    }
    Ok(FieldOffsets::new(offsets))
}

/// The same of a packed struct.
fn all_packed_offsets(
    alloc: Global,
    types: &TypeTable,
    facts: &[Fact],
    parts: &TypeList,
) -> Result<FieldOffsets, AllocError>
    requires small { length types.now < 2 ^ 32 }
    requires kept { All IsKept facts.now }
    ensures { IfOk result (λ f. f ≡ definition.packed_offsets_by (look_in types.now facts.now) no_fields (view_type_list parts.now)) }
{
    let items = parts.items.as_slice();
    let mut offsets = Vec::new(alloc);
    let mut all = Fact::of_no_fields();
    for part in items {
        let fact = fact_in(types, facts, part);
        offsets.push(all.size)?;
        all = all.with_packed(fact);
    }
    Ok(FieldOffsets::new(offsets))
}

/// Where the fields of a type stand that is spelled as a struct; none of another type.
fn offsets_of(
    alloc: Global,
    types: &TypeTable,
    facts: &[Fact],
    over: &IrType,
) -> Result<FieldOffsets, AllocError>
    requires small { length types.now < 2 ^ 32 }
    requires kept { All IsKept facts.now }
    ensures { IfOk result (λ f. f ≡ definition.offsets_of (look_in types.now facts.now) (view_type over.now)) }
{
    match over {
        IrType::Struct(parts) => all_offsets(alloc, types, facts, parts),
        IrType::Packed(parts) => all_packed_offsets(alloc, types, facts, parts),
        _ => Ok(FieldOffsets::new(Vec::new(alloc))),
    }
}

/// Where the fields of each named type stand, by its place.
pub fn fields_of(
    alloc: Global,
    types: &TypeTable,
    facts: &[Fact],
) -> Result<Vec<FieldOffsets>, AllocError>
    requires small { length types.now < 2 ^ 32 }
    requires kept { All IsKept facts.now }
    ensures { IfOk result (λ fs. fs.items ≡ map (λ e. definition.offsets_of (look_in types.now facts.now) e.1.over) (view_entries view_type_entry types.now)) }
{
    let mut fields = Vec::new(alloc);
    for place in 0..types.len() {
        fields.push(offsets_of(alloc, types, facts, &types.at(place).over)?)?;
    }
    Ok(fields)
}

/// The place of what a name stands for, where the names before it have theirs.
fn root_of_name(types: &TypeTable, roots: &[u32], node: u32, name: &Name) -> u32
    requires { length types.now < 2 ^ 32 }
    ensures { result ≡ definition.root_of roots.now node (place_of name.now types.now) }
{
    match types.get(name) {
        Some(place) => match roots.get(place as usize) {
            Some(root) => *root,
            None => node,
        },
        None => node,
    }
}

/// The place of what a type stands for.
fn root_of_type(types: &TypeTable, roots: &[u32], node: u32, over: &IrType) -> u32
    requires { length types.now < 2 ^ 32 }
    ensures { result ≡ definition.root_by types.now roots.now node (view_type over.now) }
{
    match over {
        IrType::Named(name) => root_of_name(types, roots, node, name),
        _ => node,
    }
}

/// The place of what each named type stands for, by its own place.
pub fn roots_of(alloc: Global, types: &TypeTable, order: &Order) -> Result<Vec<u32>, AllocError>
    requires small { length types.now < 2 ^ 32 }
    requires order { IsTypeOrder (view_entries view_type_entry types.now) order.now.nodes.items order.now.cyclic.items }
    ensures { IfOk result (λ roots. definition.AreRoots (view_entries view_type_entry types.now) roots.items) }
{
    let count = types.len();
    let mut roots = vec![in alloc; 0; count as usize]?;
    for node in &order.nodes {
        roots[*node as usize] = root_of_type(types, &roots, *node, &types.at(*node).over);
    }
    Ok(roots)
}

fn root_at(roots: &[u32], place: u32) -> u32
    requires { place < length roots.now }
    ensures { result ≡ slice_index roots.now place }
{
    roots[place as usize]
}

/// The names, each with the place of what it stands for. Those of a table differ, so that memory alone refuses one.
pub fn names_with(alloc: Global, types: &TypeTable, roots: &[u32]) -> Result<Table<u32>, AllocError>
    requires small { length types.now < 2 ^ 32 }
    requires roots { length roots.now ≡ length types.now }
    ensures { IfOk result (λ names. names ≡ definition.with_roots 0 types.now roots.now) }
{
    let mut names = Table::new(alloc);
    for place in 0..types.len() {
        let name = types.name_at(place).copy(alloc)?;
        match names.add(name, root_at(roots, place)) {
            Ok(()) => {}
            Err(_) => return Err(AllocError),
        }
    }
    Ok(names)
}
