//! The operations of instructions, as their words name them (LLVM Language Reference, "Instruction Reference").

use ir_ast::BinaryKind;

/// What the word of an operation says that stands behind it.
#[derive(Clone, Copy, Debug, PartialEq, Eq)]
pub enum Operation {
    /// `[nuw] [nsw] iN V , V`
    Wrapping(BinaryKind),
    /// `[exact] iN V , V`
    Exacting(BinaryKind),
    /// `iN V , V`
    Simple(BinaryKind),
    /// `[disjoint] iN V , V`
    Or,
    Icmp,
    Select,
    Trunc,
    Zext,
    Sext,
    Freeze,
    Phi,
    Alloca,
    Load,
    Store,
    GetElementPtr,
    Call,
    ExtractValue,
    Br,
    Switch,
    Ret,
    Unreachable,
}
