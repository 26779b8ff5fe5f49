//! What operands and registers hold.

/// What an operand stands for.
#[derive(Clone, Copy, Debug, PartialEq, Eq)]
pub enum Value {
    /// A number of an integer type, below 2 to the power of its width.
    Number(u64),
    Null,
    /// An address: an object of the kernel by its place, and an offset in bytes, modulo 2^64. It need not lie in the object.
    Address { object: u32, offset: u64 },
    Poison,
}

/// Why a run is stuck.
#[derive(Clone, Copy, Debug, PartialEq, Eq)]
pub enum StuckReason {
    /// A divisor that is zero or poison.
    U1,
    /// A signed quotient that no number of the width is: the divisor is -1, and the dividend is the least number or poison.
    U2,
    /// A branch on poison.
    U3,
    /// `unreachable`.
    U4,
    /// An access at null.
    U5,
    /// An access that leaves its object.
    U6,
    /// An access that is not aligned as it says.
    U7,
    /// An access at poison.
    U8,
    /// A store of poison.
    U9,
    /// A result that is poison.
    U10,
    /// An argument that is poison.
    U11,
    /// `freeze` of poison.
    U12,
    /// A store to a constant.
    U13,
    /// A load from a slot in which nothing was stored.
    U14,
    /// A comparison of addresses that depends on where objects lie.
    U15,
    /// A loaded number outside the ranges that its load states.
    U16,
    /// `llvm.assume` of false or poison.
    U17,
}

/// What an instruction makes of its operands.
#[derive(Clone, Copy, Debug, PartialEq, Eq)]
pub enum Made {
    Gives(Value),
    /// The run is stuck.
    Sticks(StuckReason),
    /// The operands are not of the instruction's types. No checked kernel has this.
    Lost,
}
