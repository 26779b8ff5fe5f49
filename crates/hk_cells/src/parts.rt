//! What is kept of objects.

ghost use Rattle.std.specs.Prelude.{◌≡◌, ◌<◌, length, map, slice_get, slice_index_or, Some, IfOk};
ghost use Rattle.hk_cells.specs.Parts as definition;

use ir_layout::Layout;
use std::alloc::{AllocError, Global};

// That an object is a constant; or how many bytes it has, and how many each of its cells.
#[derive(Clone, Copy)]
pub(crate) enum Part {
    Constant,
    Cells { size: u64, cell: u32 },
}

fn part_of(constant: bool, size: u64, cell: u32) -> Part
    ensures { result ≡ definition.part_of constant size cell }
{
    if constant {
        Part::Constant
    } else {
        Part::Cells { size, cell }
    }
}

fn cell_at(cells: &[u32], object: u32) -> u32
    requires { object < length cells.now }
    ensures { slice_get cells.now object ≡ Some result }
{
    cells[object as usize]
}

// What is kept of the objects of a layout, which are to have cells of these sizes.
pub(crate) fn parts_of(
    alloc: Global,
    layout: &Layout,
    cells: &[u32],
) -> Result<Vec<Part>, AllocError>
    requires { length cells.now ≡ length layout.now.objects }
    ensures { IfOk result (λ ps. ps.items ≡ definition.parts_by layout.now.objects cells.now) }
{
    let mut parts = Vec::new(alloc);
    for object in 0..layout.objects() {
        let constant = layout.is_constant(object);
        let size = layout.object_size(object);
        let cell = cell_at(cells, object);
        parts.push(part_of(constant, size, cell))?;
    }
    Ok(parts)
}

// What is kept of an object.
pub(crate) fn part_at(parts: &[Part], object: u32) -> Part
    requires { object < length parts.now }
    ensures { slice_get parts.now object ≡ Some result }
{
    parts[object as usize]
}
