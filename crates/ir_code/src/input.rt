//! Operands.

use hk_seq::Seq;
use ir_value::Value;

/// What an operand begins with.
#[derive(Clone, Copy, Debug, PartialEq, Eq)]
pub enum Base {
    /// A register of the frame, by its place.
    Register(u32),
    /// A number, null, poison, or the address of an object.
    Constant(Value),
    /// An operand that no row reads. No checked kernel has one.
    Unknown,
}

/// A step of a `getelementptr`.
#[derive(Clone, Copy, Debug, PartialEq, Eq)]
pub enum Move {
    /// A `getelementptr` begins.
    Begin {
        inbounds: bool,
    },
    /// An index, read as a signed number of `width` bits, steps over that many values of `each` bytes. A field of a struct is one step
    /// over the bytes before it.
    By {
        inbounds: bool,
        nuw: bool,
        width: u32,
        each: u64,
        index: Base,
    },
}

/// An operand: what it begins with, and the steps from there, the innermost `getelementptr` first.
#[derive(Drop)]
pub struct Input {
    pub base: Base,
    pub moves: Seq<Move>,
}
