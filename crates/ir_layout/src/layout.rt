//! The layout of a module: sizes, alignments and offsets of its types, and its objects.
//!
//! A module comes in; its layout goes out, or the first item that falls under a rule of layout. What a layout answers later takes no
//! memory and needs the module no more.

ghost use Rattle.std.specs.Prelude.{◌≡◌, ◌<◌, ◌≤◌, ◌^◌, [], length, map, slice_index, slice_index_or, slice_get, Some, None, true, IfOk};
ghost use Rattle.ir_ast.specs.Program.{ModuleView};
ghost use Rattle.ir_ast.specs.Small.{IsSmall};
ghost use Rattle.ir_ast.specs.View.{view_type};
ghost use Rattle.ir_ast.specs.ProgramView.{view_entries, view_type_entry, view_module};
ghost use Rattle.ir_type.specs.Names.{entry_of};
ghost use Rattle.ir_type.specs.Whole.{meant};
ghost use Rattle.ir_layout.specs.Sizes as sizes;
ghost use Rattle.ir_layout.specs.Facts.{look_in, fact_by, known_size, known_align, IsTypeOrder, AreFacts};
ghost use Rattle.ir_layout.specs.Offsets.{fields_in};
ghost use Rattle.ir_layout.specs.Initial.{initial_memory};
ghost use Rattle.ir_layout.specs.InitFits.{have_fitting_inits};
ghost use Rattle.ir_layout.specs.Layouts.{offsets_seen, fields_at, IsMeasurable, IsLayoutOf};
ghost use Rattle.ir_layout.specs.Answers.{IsRefusal, OnRefusal};
ghost use Rattle.ir_layout.specs.Least.{least_fault as least_fault_of};

use crate::fact::Fact;
use crate::fields;
use crate::fields::FieldOffsets;
use crate::least::least_fault;
use crate::memory::{KMemory, ObjectBytes};
use crate::object::{Object, objects_of};
use crate::types::{fact_in, facts_of};
use hk_graph::Order;
use ir_ast::{IrType, KernelStop, Module, Name, Table};
use ir_type::type_order;
use std::alloc::{AllocError, Global};
use std::marker::Model;

/// The layout of a module.
#[derive(Drop)]
pub struct Layout {
    names: Table<u32>,
    facts: Vec<Fact>,
    fields: Vec<FieldOffsets>,
    objects: Vec<Object>,
}

impl Model for Layout {
    ghost use Rattle.std.specs.Prelude.{◌<◌, ◌^◌, length};
    ghost use Rattle.std.specs.List.{All};
    ghost use Rattle.ir_layout.specs.Facts.{IsKept};
    ghost use Rattle.ir_layout.specs.Layouts.{LayoutView};

    ghost Value = { LayoutView };

    ghost view = { λ l. record { names = l.names; facts = l.facts.items; fields = l.fields.items; objects = l.objects.items } };

    ghost invariant = { λ l. (length l.names < 2 ^ 32) × (All IsKept l.facts.items) × (length l.objects.items < 2 ^ 32) };
}

impl Layout {
    /// The layout of a module. It takes time linear in the module and in the bytes of its objects.
    ///
    /// A refusal names the first item that falls under a rule of layout: `K5` a type name that is unknown or opaque, a type that contains
    /// itself, or in a global an integer of another width than 8, 16, 32 and 64; `K6` globals so far of more than 4,194,304 bytes, or a
    /// type of more than 2^32; `K7` a layout text with a component `E`, or one that begins with `p:32` or `i64:32`.
    pub fn of(alloc: Global, kernel: &Module) -> Result<Layout, KernelStop>
        requires { IsSmall kernel.now }
        ensures layout { IfOk result (λ l. IsLayoutOf (view_module kernel.now) l) }
        ensures refused { OnRefusal result (IsRefusal (view_module kernel.now)) }
    {
        let order = type_order(alloc, &kernel.types)?;
        let facts = facts_of(alloc, &kernel.types, &order)?;
        match least_fault(kernel, &facts) {
            Some(fault) => Err(KernelStop::Refused(fault)),
            None => Layout::laid_out(alloc, kernel, facts, &order),
        }
    }

    /// The layout of a module without a fault, of whose named types this is kept.
    fn laid_out(
        alloc: Global,
        kernel: &Module,
        facts: Vec<Fact>,
        order: &Order,
    ) -> Result<Layout, KernelStop>
        requires small { IsSmall kernel.now }
        requires order { IsTypeOrder (view_entries view_type_entry kernel.now.types) order.now.nodes.items order.now.cyclic.items }
        requires facts { AreFacts (view_entries view_type_entry kernel.now.types) facts.items }
        requires free { least_fault_of (look_in kernel.now.types facts.items) (view_module kernel.now) ≡ None }
        ensures layout { IfOk result (λ l. IsLayoutOf (view_module kernel.now) l) }
        ensures memory { OnRefusal result (λ _. ⊥) }
    {
        let types = &kernel.types;
        let roots = fields::roots_of(alloc, types, order)?;
        let names = fields::names_with(alloc, types, &roots)?;
        let offsets = fields::fields_of(alloc, types, &facts)?;
        let objects = objects_of(alloc, types, &facts, &kernel.globals)?;
        Ok(Layout {
            names,
            facts,
            fields: offsets,
            objects,
        })
    }

    /// What is kept of a type.
    fn fact(&self, over: &IrType) -> Fact
        ensures { result ≡ fact_by (look_in self.now.names self.now.facts) (view_type over.now) }
    {
        fact_in(&self.names, &self.facts, over)
    }

    /// The size of a type, in bytes. It takes no memory.
    pub fn size_of(&self, over: &IrType) -> u64
        ensures known { result ≡ known_size (fact_by (look_in self.now.names self.now.facts) (view_type over.now)) }
        ensures size { (m : ModuleView) → IsLayoutOf m self.now → IsMeasurable m (view_type over.now) → result ≡ sizes.size_of (meant m.types (view_type over.now)) }
        ensures small { (m : ModuleView) → IsLayoutOf m self.now → sizes.size_of (meant m.types (view_type over.now)) ≤ 2 ^ 32 → result ≡ sizes.size_of (meant m.types (view_type over.now)) }
    {
        self.fact(over).known_size()
    }

    /// The alignment of a type, in bytes. It takes no memory.
    pub fn align_of(&self, over: &IrType) -> u64
        ensures known { result ≡ known_align (fact_by (look_in self.now.names self.now.facts) (view_type over.now)) }
        ensures align { (m : ModuleView) → IsLayoutOf m self.now → result ≡ sizes.align_of (meant m.types (view_type over.now)) }
    {
        self.fact(over).known_align()
    }

    /// Where a field of a struct stands in it, in bytes. Fields count from 0. It takes no memory.
    pub fn field_offset(&self, over: &IrType, field: u32) -> u64
        ensures seen { result ≡ slice_index (offsets_seen self.now (view_type over.now)) field }
        ensures offset { (m : ModuleView) → IsLayoutOf m self.now → IsMeasurable m (view_type over.now) → field < fields_in (meant m.types (view_type over.now)) → result ≡ sizes.field_offset (meant m.types (view_type over.now)) field }
        ensures small { (m : ModuleView) → IsLayoutOf m self.now → sizes.size_of (meant m.types (view_type over.now)) ≤ 2 ^ 32 → field < fields_in (meant m.types (view_type over.now)) → result ≡ sizes.field_offset (meant m.types (view_type over.now)) field }
    {
        self.offset_of(over, field)
    }

    fn offset_of(&self, over: &IrType, field: u32) -> u64
        ensures { result ≡ slice_index (offsets_seen self.now (view_type over.now)) field }
    {
        match over {
            IrType::Struct(parts) => fields::offset_in(&self.names, &self.facts, parts, field),
            IrType::Packed(parts) => {
                fields::packed_offset_in(&self.names, &self.facts, parts, field)
            }
            IrType::Named(name) => offset_of_name(&self.names, &self.fields, name, field),
            _ => 0,
        }
    }

    /// How many objects there are: the globals in text order. It takes no memory.
    pub fn objects(&self) -> u32
        ensures count { result ≡ length self.now.objects }
        ensures globals { (m : ModuleView) → IsLayoutOf m self.now → result ≡ length m.globals }
    {
        self.objects.len() as u32
    }

    /// The size of an object, in bytes. It takes no memory.
    pub fn object_size(&self, object: u32) -> u64
        requires { object < length self.now.objects }
        ensures kept { slice_get (map (λ o. o.size) self.now.objects) object ≡ Some result }
        ensures size { (m : ModuleView) → IsLayoutOf m self.now → slice_get (map (λ g. sizes.object_size m.types g.1) m.globals) object ≡ Some result }
    {
        object_at(&self.objects, object).size
    }

    /// The alignment of an object, in bytes. It takes no memory.
    pub fn object_align(&self, object: u32) -> u64
        requires { object < length self.now.objects }
        ensures kept { slice_get (map (λ o. o.align) self.now.objects) object ≡ Some result }
        ensures align { (m : ModuleView) → IsLayoutOf m self.now → slice_get (map (λ g. sizes.object_align m.types g.1) m.globals) object ≡ Some result }
    {
        object_at(&self.objects, object).align
    }

    /// Whether an object keeps its initial bytes. It takes no memory.
    pub fn is_constant(&self, object: u32) -> bool
        requires { object < length self.now.objects }
        ensures kept { slice_get (map (λ o. o.constant) self.now.objects) object ≡ Some result }
        ensures constant { (m : ModuleView) → IsLayoutOf m self.now → slice_get (map (λ g. g.1.constant) m.globals) object ≡ Some result }
    {
        object_at(&self.objects, object).constant
    }
}

fn object_at(objects: &[Object], object: u32) -> &Object
    requires { object < length objects.now }
    ensures { slice_get objects.now object ≡ Some result.now }
{
    &objects[object as usize]
}

/// Where a field of a named type stands.
fn offset_of_name(names: &Table<u32>, fields: &[FieldOffsets], name: &Name, field: u32) -> u64
    requires { length names.now < 2 ^ 32 }
    ensures { result ≡ slice_index (fields_at fields.now (entry_of name.now names.now)) field }
{
    match names.get(name) {
        Some(place) => offset_at_root(fields, *names.at(place), field),
        None => 0,
    }
}

/// Where a field of the named type at a place stands.
fn offset_at_root(fields: &[FieldOffsets], root: u32, field: u32) -> u64
    ensures { result ≡ slice_index (slice_index_or fields.now root []) field }
{
    match fields.get(root as usize) {
        Some(offsets) => offsets.at(field),
        None => 0,
    }
}

/// The bytes of the objects.
fn bytes_in(alloc: Global, objects: &[Object]) -> Result<Vec<ObjectBytes>, AllocError>
    ensures { IfOk result (λ bs. bs.items ≡ map (λ o. o.bytes) objects.now) }
{
    let mut bytes = Vec::new(alloc);
    bytes.reserve(objects.len())?;
    for object in objects {
        bytes.push(object.bytes.copy(alloc)?)?;
    }
    Ok(bytes)
}

impl KMemory {
    /// The initial memory: the bytes of each global, in text order.
    pub fn initial(alloc: Global, layout: &Layout) -> Result<KMemory, AllocError>
        ensures bytes { IfOk result (λ memory. memory ≡ map (λ o. o.bytes) layout.now.objects) }
        ensures initial { IfOk result (λ memory. (m : ModuleView) → IsLayoutOf m layout.now → have_fitting_inits m ≡ true → memory ≡ initial_memory m) }
    {
        Ok(KMemory::new(bytes_in(alloc, &layout.objects)?))
    }
}
