//! Operands and constant addresses (LLVM Language Reference, "Constants" and "getelementptr").

ghost use Rattle.std.specs.Prelude.{◌≡◌};
ghost use Rattle.ir_ast.specs.Plain as plain;
ghost use Rattle.ir_ast.specs.View.{view_type, view_operand, view_gep, view_indices};

use crate::name::Name;
use crate::types::IrType;

/// What an instruction works on. A number stands for its value modulo 2 to the width of its place.
#[derive(Drop)]
#[cycle(operands)]
pub enum Operand {
    Local(Name),
    Global(Name),
    Number(i128),
    Null,
    Poison,
    /// `getelementptr ( .. )`.
    Address(Box<Gep>),
}

/// `getelementptr`: the address of a part.
#[derive(Drop)]
#[cycle(operands)]
pub struct Gep {
    pub flags: Flags,
    pub base_type: IrType,
    pub base: Operand,
    pub indices: IndexList,
}

/// The indices, each with its type.
#[derive(Drop)]
#[cycle(operands)]
pub struct IndexList {
    pub items: Vec<(IrType, Operand)>,
}

/// The words that stand behind an operation.
#[derive(Clone, Copy, Debug, PartialEq, Eq)]
pub struct Flags {
    pub nuw: bool,
    pub nsw: bool,
    pub exact: bool,
    pub disjoint: bool,
    pub nneg: bool,
    pub inbounds: bool,
}

impl Operand {
    /// The address that a constant `getelementptr` gives.
    pub fn address_of(gep: Box<Gep>) -> Operand
        ensures { view_operand result ≡ plain.address (view_gep gep.value) }
    {
        Operand::Address(gep)
    }
}

impl Gep {
    /// `getelementptr` of these parts.
    pub fn of(
        flags: Flags,
        base_type: IrType,
        base: Operand,
        indices: Vec<(IrType, Operand)>,
    ) -> Gep
        ensures { view_gep result ≡ plain.form flags (view_type base_type) (view_operand base) (view_indices indices.items) }
    {
        Gep {
            flags,
            base_type,
            base,
            indices: IndexList { items: indices },
        }
    }
}
