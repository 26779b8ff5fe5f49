//! The trees that a kernel text is read into, and the faults that a text can have.
//!
//! The bottom layer of the kernel reader. Nothing comes in from other crates; the lexer and the reader hand out faults, and the
//! reader builds the trees, which the layout, the checks and the meaning of a kernel go over.
#![tactic(auto)]

pub mod fault;
pub mod global;
pub mod instr;
pub mod module;
pub mod name;
pub mod operand;
pub mod table;
pub mod types;

pub use fault::{KernelFault, KernelReason, KernelStop};
pub use global::{
    ByteList, GlobalItem, Init, InitList, LineText, RangeEntry, TypeEntry, TypedNumberList,
};
pub use instr::{
    ArmList, BinaryKind, Block, BlockList, CaseList, ConvertKind, Function, Instr, InstrList, Op,
    ParameterList, Predicate, TypedList,
};
pub use module::{FunctionTable, GlobalTable, Module, RangeTable, TypeTable};
pub use name::Name;
pub use operand::{Flags, Gep, IndexList, Operand};
pub use table::{Table, TableFault};
pub use types::{IrType, TypeList};

#[cfg(test)]
mod tests;
