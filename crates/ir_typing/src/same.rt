//! Whether two types are spelled alike.

ghost use Rattle.std.specs.Prelude.{◌≡◌};
ghost use Rattle.ir_ast.specs.View.{view_type, view_type_list};
ghost use Rattle.ir_typing.specs.Same as definition;

use ir_ast::{IrType, TypeList};

/// Whether two types are spelled alike, part by part. A named type is only like one of its name. It takes time linear in the shorter one.
#[cycle(same)]
pub fn same_type(first: &IrType, second: &IrType) -> bool
    ensures { result ≡ definition.same_type (view_type first.now) (view_type second.now) }
{
    match (first, second) {
        (IrType::Void, IrType::Void) => true,
        (IrType::Int(width), IrType::Int(other)) => *width == *other,
        (IrType::Ptr, IrType::Ptr) => true,
        (IrType::Array(length, element), IrType::Array(size, part)) => {
            *length == *size && same_type(element, part)
        }
        (IrType::Struct(parts), IrType::Struct(others)) => same_lists(parts, others),
        (IrType::Packed(parts), IrType::Packed(others)) => same_lists(parts, others),
        (IrType::Named(name), IrType::Named(other)) => name.as_bytes() == other.as_bytes(),
        (IrType::Opaque, IrType::Opaque) => true,
        _ => false,
    }
}

/// Whether two lists of types are the same, one by one.
#[cycle(same)]
fn same_lists(first: &TypeList, second: &TypeList) -> bool
    ensures { result ≡ definition.same_types (view_type_list first.now) (view_type_list second.now) }
{
    let parts = first.items.as_slice();
    let others = second.items.as_slice();
    if parts.len() != others.len() {
        return false;
    }
    'each: for (part, other) in parts.iter().zip(others) {
        if !same_type(part, other) {
            return false;
        }
    }
    true
}
