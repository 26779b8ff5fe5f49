//! Copies of types.

ghost use Rattle.std.specs.Prelude.{◌≡◌, IfOk};
ghost use Rattle.ir_ast.specs.View.{view_type, view_types, view_type_list};

use ir_ast::{IrType, TypeList};
use std::alloc::{AllocError, Global};

/// A second type with the same parts.
#[cycle(types)]
pub fn copy_type(alloc: Global, over: &IrType) -> Result<IrType, AllocError>
    ensures { IfOk result (λ t. view_type t ≡ view_type over.now) }
{
    match over {
        IrType::Void => Ok(IrType::Void),
        IrType::Int(width) => Ok(IrType::Int(*width)),
        IrType::Ptr => Ok(IrType::Ptr),
        IrType::Array(length, element) => {
            let element = copy_type(alloc, element)?;
            Ok(IrType::array_of(*length, Box::new(alloc, element)?))
        }
        IrType::Struct(parts) => Ok(IrType::struct_of(copy_types(alloc, parts)?)),
        IrType::Packed(parts) => Ok(IrType::packed_of(copy_types(alloc, parts)?)),
        IrType::Named(name) => Ok(IrType::Named(name.copy(alloc)?)),
        IrType::Opaque => Ok(IrType::Opaque),
    }
}

/// The same types once more.
#[cycle(types)]
fn copy_types(alloc: Global, parts: &TypeList) -> Result<Vec<IrType>, AllocError>
    ensures { IfOk result (λ v. view_types v.items ≡ view_type_list parts.now) }
{
    let items = parts.items.as_slice();
    let mut copies = Vec::new(alloc);
    'each: for part in items {
        copies.push(copy_type(alloc, part)?)?;
    }
    Ok(copies)
}
