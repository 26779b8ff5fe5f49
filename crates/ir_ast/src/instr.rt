//! Instructions, blocks and functions (LLVM Language Reference, "Instruction Reference").

use crate::name::Name;
use crate::operand::{Flags, Gep, Operand};
use crate::types::IrType;

/// The operations on two numbers of one width.
#[derive(Clone, Copy, Debug, PartialEq, Eq)]
pub enum BinaryKind {
    Add,
    Sub,
    Mul,
    Shl,
    Udiv,
    Sdiv,
    Lshr,
    Ashr,
    Urem,
    Srem,
    And,
    Xor,
    Or,
}

/// The comparisons of `icmp`.
#[derive(Clone, Copy, Debug, PartialEq, Eq)]
pub enum Predicate {
    Eq,
    Ne,
    Ugt,
    Uge,
    Ult,
    Ule,
    Sgt,
    Sge,
    Slt,
    Sle,
}

/// The changes of width.
#[derive(Clone, Copy, Debug, PartialEq, Eq)]
pub enum ConvertKind {
    Trunc,
    Zext,
    Sext,
}

/// What an instruction does. Widths are in bits; an `align` is in bytes, and 0 stands for an absent one.
#[derive(Drop)]
pub enum Op {
    Binary {
        kind: BinaryKind,
        flags: Flags,
        width: u32,
        a: Operand,
        b: Operand,
    },
    Compare {
        samesign: bool,
        predicate: Predicate,
        over: IrType,
        a: Operand,
        b: Operand,
    },
    Select {
        condition: Operand,
        over: IrType,
        a: Operand,
        b: Operand,
    },
    Convert {
        kind: ConvertKind,
        flags: Flags,
        from: u32,
        to: u32,
        a: Operand,
    },
    Freeze {
        over: IrType,
        a: Operand,
    },
    Phi {
        over: IrType,
        arms: ArmList,
    },
    /// `alloca`.
    Slot {
        over: IrType,
        align: u64,
    },
    Load {
        over: IrType,
        address: Operand,
        align: u64,
        range: Option<Name>,
    },
    Store {
        over: IrType,
        value: Operand,
        address: Operand,
        align: u64,
    },
    /// `getelementptr`.
    Offset(Gep),
    Call {
        result: IrType,
        callee: Name,
        arguments: TypedList,
    },
    /// `extractvalue` of a pair of `iN` and `i1`.
    Extract {
        width: u32,
        from: Operand,
        part: u32,
    },
    /// `br` to one block.
    Goto {
        target: Name,
    },
    /// `br` to one of two blocks.
    Branch {
        condition: Operand,
        yes: Name,
        no: Name,
    },
    Switch {
        width: u32,
        on: Operand,
        default: Name,
        cases: CaseList,
    },
    Return {
        over: IrType,
        value: Option<Operand>,
    },
    Unreachable,
}

/// The arms of a phi: an operand, and the block that it comes from.
#[derive(Drop)]
pub struct ArmList {
    pub items: Vec<(Operand, Name)>,
}

/// The arguments of a call, each with its type.
#[derive(Drop)]
pub struct TypedList {
    pub items: Vec<(IrType, Operand)>,
}

/// The cases of a switch: a number, and the block that it leads to.
#[derive(Drop)]
pub struct CaseList {
    pub items: Vec<(i128, Name)>,
}

/// An instruction: its line, the register that it sets, and what it does.
#[derive(Drop)]
pub struct Instr {
    pub line: u32,
    pub result: Option<Name>,
    pub op: Op,
}

#[derive(Drop)]
pub struct InstrList {
    pub items: Vec<Instr>,
}

/// A block: its line, its name, and its instructions.
#[derive(Drop)]
pub struct Block {
    pub line: u32,
    pub name: Name,
    pub instrs: InstrList,
}

#[derive(Drop)]
pub struct BlockList {
    pub items: Vec<Block>,
}

/// The parameters of a function, each with its type.
#[derive(Drop)]
pub struct ParameterList {
    pub items: Vec<(IrType, Name)>,
}

/// A function: its line, its name, its result, its parameters, and its blocks where it has a body.
#[derive(Drop)]
pub struct Function {
    pub line: u32,
    pub name: Name,
    pub result: IrType,
    pub parameters: ParameterList,
    pub body: Option<BlockList>,
}
