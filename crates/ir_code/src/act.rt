//! Instructions.

use crate::input::Input;
use hk_seq::Seq;
use ir_ast::{BinaryKind, ConvertKind, Flags, Predicate};
use ir_value::{OverflowKind, PairKind};

/// An arm of a phi: an operand, and the place of the block that it comes from.
#[derive(Drop)]
pub struct Arm {
    pub input: Input,
    pub from: u32,
}

/// A case of a switch: a number, and the place of the block that it leads to.
#[derive(Clone, Copy, Debug, PartialEq, Eq)]
pub struct Case {
    pub number: u64,
    pub block: u32,
}

/// A part of a range of a load: the numbers from `low` up to but not including `high`, modulo 2 to the power of the width.
#[derive(Clone, Copy, Debug, PartialEq, Eq)]
pub struct Span {
    pub low: u64,
    pub high: u64,
}

/// What an instruction does. Widths are in bits, sizes and alignments in bytes; registers, blocks and functions are places.
#[derive(Drop)]
pub enum Act {
    Binary {
        kind: BinaryKind,
        flags: Flags,
        width: u32,
        a: Input,
        b: Input,
    },
    Compare {
        samesign: bool,
        predicate: Predicate,
        width: u32,
        a: Input,
        b: Input,
    },
    ComparePointers {
        predicate: Predicate,
        a: Input,
        b: Input,
    },
    Select {
        condition: Input,
        a: Input,
        b: Input,
    },
    Convert {
        kind: ConvertKind,
        flags: Flags,
        from: u32,
        to: u32,
        a: Input,
    },
    Freeze {
        a: Input,
    },
    /// `getelementptr`: the steps are the operand's.
    Address {
        a: Input,
    },
    Phi {
        arms: Seq<Arm>,
    },
    /// `alloca`: a slot in which nothing is stored.
    Slot {
        align: u64,
    },
    Load {
        width: u32,
        bytes: u32,
        align: u64,
        spans: Option<Seq<Span>>,
        address: Input,
    },
    LoadSlot {
        width: u32,
        align: u64,
        spans: Option<Seq<Span>>,
        slot: u32,
    },
    Store {
        bytes: u32,
        align: u64,
        value: Input,
        address: Input,
    },
    StoreSlot {
        align: u64,
        value: Input,
        slot: u32,
    },
    /// A call of a function with a body.
    Call {
        function: u32,
        arguments: Seq<Input>,
    },
    /// A call of a declared function that is no intrinsic.
    Hook {
        arguments: Seq<Input>,
    },
    /// An intrinsic that gives a number and an overflow bit.
    WithOverflow {
        kind: OverflowKind,
        signed: bool,
        width: u32,
        a: Input,
        b: Input,
    },
    /// An intrinsic that makes one number of two.
    Pair {
        kind: PairKind,
        width: u32,
        a: Input,
        b: Input,
    },
    Assume {
        condition: Input,
    },
    /// `extractvalue`.
    Extract {
        pair: u32,
        part: u32,
    },
    Goto {
        block: u32,
    },
    Branch {
        condition: Input,
        yes: u32,
        no: u32,
    },
    Switch {
        width: u32,
        on: Input,
        cases: Seq<Case>,
        default: u32,
    },
    Return {
        value: Option<Input>,
    },
    Unreachable,
    /// An instruction that no row reads. No checked kernel has one.
    Unknown,
}

/// An instruction on its line, and the place of the register that it sets.
#[derive(Drop)]
pub struct Step {
    pub line: u32,
    pub result: Option<u32>,
    pub act: Act,
}
