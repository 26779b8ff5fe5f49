//! What a register holds.

/// What a register holds, by the number of its type.
#[derive(Clone, Copy, Debug, PartialEq, Eq)]
pub enum Held {
    /// A number or a pointer of this type.
    Value(u32),
    /// The address of a slot of this type.
    Slot(u32),
    /// The result, of this type, of a call with overflow.
    Pair(u32),
}
