//! Layouts of modules: sizes, offsets, objects, and why there is none.

ghost use Rattle.std.specs.Prelude.{◌≡◌, ◌<◌, length, map, slice_get, Some, IfOk};
ghost use Rattle.ir_ast.specs.Program.{ModuleView};
ghost use Rattle.ir_ast.specs.Small.{IsSmall};
ghost use Rattle.ir_ast.specs.View.{view_type};
ghost use Rattle.ir_ast.specs.ProgramView.{view_module};
ghost use Rattle.ir_type.specs.Whole.{meant};
ghost use Rattle.ir_layout.specs.Sizes as sizes;
ghost use Rattle.ir_layout.specs.Offsets.{fields_in};
ghost use Rattle.ir_layout.specs.Layouts.{IsMeasurable, IsLayoutOf};
ghost use Rattle.ir_layout.specs.Answers.{IsRefusal, OnRefusal};

use ir_ast::{IrType, KernelStop, Module};
use ir_layout::Layout;
use std::alloc::Global;

/// The layout of a module, or the first item that has none, with its least reason.
pub fn layout_of(alloc: Global, kernel: &Module) -> Result<Layout, KernelStop>
    requires { IsSmall kernel.now }
    ensures layout { IfOk result (λ l. IsLayoutOf (view_module kernel.now) l) }
    ensures refused { OnRefusal result (IsRefusal (view_module kernel.now)) }
{
    Layout::of(alloc, kernel)
}

/// The size of a type.
pub fn size_of(layout: &Layout, over: &IrType) -> u64
    ensures { (m : ModuleView) → IsLayoutOf m layout.now → IsMeasurable m (view_type over.now) → result ≡ sizes.size_of (meant m.types (view_type over.now)) }
{
    layout.size_of(over)
}

/// Where a field stands in its struct.
pub fn field_offset(layout: &Layout, over: &IrType, field: u32) -> u64
    ensures { (m : ModuleView) → IsLayoutOf m layout.now → IsMeasurable m (view_type over.now) → field < fields_in (meant m.types (view_type over.now)) → result ≡ sizes.field_offset (meant m.types (view_type over.now)) field }
{
    layout.field_offset(over, field)
}

/// The size of an object.
pub fn object_size(layout: &Layout, object: u32) -> u64
    requires { object < length layout.now.objects }
    ensures { (m : ModuleView) → IsLayoutOf m layout.now → slice_get (map (λ g. sizes.object_size m.types g.1) m.globals) object ≡ Some result }
{
    layout.object_size(object)
}
