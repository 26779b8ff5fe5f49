//! The objects of a layout: one for each global, in text order.

ghost use Rattle.std.specs.Prelude.{◌≡◌, ◌<◌, ◌^◌, length, map, IfOk};
ghost use Rattle.std.specs.List.{All};
ghost use Rattle.ir_ast.specs.ProgramView.{view_entries, view_global};
ghost use Rattle.ir_layout.specs.Facts.{look_in, IsKept};
ghost use Rattle.ir_layout.specs.Writing as definition;

use crate::fact::Fact;
use crate::initial::bytes_with;
use crate::memory::ObjectBytes;
use crate::types::fact_in;
use ir_ast::{GlobalItem, GlobalTable, TypeTable};
use std::alloc::{AllocError, Global};

/// What is kept of a global. The size and the alignment are in bytes.
#[derive(Drop)]
pub struct Object {
    pub size: u64,
    pub align: u64,
    pub constant: bool,
    pub bytes: ObjectBytes,
}

/// The alignment that is written, else that of the type.
fn written_align(written: Option<u64>, align: u64) -> u64
    ensures { result ≡ definition.written_align written align }
{
    match written {
        Some(written) if written != 0 => written,
        _ => align,
    }
}

/// What is kept of a global.
fn object_of(
    alloc: Global,
    types: &TypeTable,
    facts: &[Fact],
    global: &GlobalItem,
) -> Result<Object, AllocError>
    requires small { length types.now < 2 ^ 32 }
    requires kept { All IsKept facts.now }
    ensures { IfOk result (λ o. o ≡ definition.object_by (look_in types.now facts.now) (view_global global.now)) }
{
    let fact = fact_in(types, facts, &global.over);
    let size = fact.known_size();
    let bytes = bytes_with(alloc, types, facts, size, &global.init)?;
    Ok(Object {
        size,
        align: written_align(global.align, fact.known_align()),
        constant: global.constant,
        bytes,
    })
}

/// What is kept of all globals.
pub fn objects_of(
    alloc: Global,
    types: &TypeTable,
    facts: &[Fact],
    globals: &GlobalTable,
) -> Result<Vec<Object>, AllocError>
    requires small { length types.now < 2 ^ 32 }
    requires kept { All IsKept facts.now }
    requires globals { length globals.now < 2 ^ 32 }
    ensures { IfOk result (λ os. os.items ≡ map (λ g. definition.object_by (look_in types.now facts.now) g.1) (view_entries view_global globals.now)) }
{
    let mut objects = Vec::new(alloc);
    for place in 0..globals.len() {
        objects.push(object_of(alloc, types, facts, globals.at(place))?)?;
    }
    Ok(objects)
}
