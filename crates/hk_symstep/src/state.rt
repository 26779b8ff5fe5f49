//! What registers hold and what instructions give, as terms.

use hk_symvalue::{SymPair, SymValue};
use hk_term::TermId;

/// A slot: its alignment in bytes, whether something was stored, and what was stored last where something was.
#[derive(Clone, Copy, Debug)]
pub struct SymSlot {
    pub align: u64,
    pub filled: TermId,
    pub stored: SymValue,
}

/// A slot that is accessed: the register that holds it, and the alignment of the access in bytes.
#[derive(Clone, Copy)]
pub struct SlotAccess {
    pub slot: u32,
    pub align: u64,
}

/// What a register holds.
#[derive(Clone, Copy, Debug)]
pub enum SymHeld {
    Value(SymValue),
    /// A number and an overflow bit.
    Pair(SymPair),
    Slot(SymSlot),
}

/// What an instruction gives its register. `stuck` is a truth value: whether the run is stuck instead.
#[derive(Clone, Copy, Debug)]
pub enum SymComputed {
    Sets { stuck: TermId, held: SymHeld },
    /// Nothing, and the run goes on.
    Passes { stuck: TermId },
    /// Operands are not set on any path, or are of another kind.
    Lost,
}
