//! Types (LLVM Language Reference, "Type System").

ghost use Rattle.std.specs.Prelude.{◌≡◌};
ghost use Rattle.ir_ast.specs.Plain as plain;
ghost use Rattle.ir_ast.specs.View.{view_type, view_types};

use crate::name::Name;

/// A type. Widths are in bits.
#[derive(Drop)]
#[cycle(types)]
pub enum IrType {
    /// The result of a function that gives nothing.
    Void,
    /// `iN`, N from 1 to 64.
    Int(u32),
    /// `ptr`.
    Ptr,
    /// `[ n x T ]`.
    Array(u64, Box<IrType>),
    /// `{ T , .. }`.
    Struct(TypeList),
    /// `<{ T , .. }>`.
    Packed(TypeList),
    /// `%NAME`.
    Named(Name),
    /// What stands for a named type that has no parts of its own.
    Opaque,
}

/// The parts of a struct, in their order.
#[derive(Drop)]
#[cycle(types)]
pub struct TypeList {
    pub items: Vec<IrType>,
}

impl IrType {
    /// `[ n x T ]` of this element.
    pub fn array_of(length: u64, element: Box<IrType>) -> IrType
        ensures { view_type result ≡ plain.array length (view_type element.value) }
    {
        IrType::Array(length, element)
    }

    /// `{ T , .. }` of these parts.
    pub fn struct_of(parts: Vec<IrType>) -> IrType
        ensures { view_type result ≡ plain.structure (view_types parts.items) }
    {
        IrType::Struct(TypeList { items: parts })
    }

    /// `<{ T , .. }>` of these parts.
    pub fn packed_of(parts: Vec<IrType>) -> IrType
        ensures { view_type result ≡ plain.packed (view_types parts.items) }
    {
        IrType::Packed(TypeList { items: parts })
    }
}
