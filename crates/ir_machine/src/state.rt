//! What a running kernel is.

use crate::frames::Frames;
use hk_seq::Seq;
use ir_layout::KMemory;
use ir_value::{StuckReason, Value};

/// What a register holds.
#[derive(Clone, Copy, Debug, PartialEq, Eq)]
pub enum Held {
    Value(Value),
    /// A number and an overflow bit.
    Pair(Value, Value),
    /// A slot: its alignment in bytes, and what was stored last.
    Slot { align: u64, stored: Option<Value> },
}

/// A call that is under way: its function, the block that it came from, the block and the place in it where it stands, and its
/// registers. In the frames below the top one the place is that of the call.
#[derive(Drop)]
pub struct Frame {
    pub function: u32,
    pub from: u32,
    pub block: u32,
    pub position: usize,
    pub registers: Seq<Option<Held>>,
}

/// A configuration: the calls that are under way, and the memory.
#[derive(Drop)]
pub struct Machine {
    pub top: Frame,
    pub below: Frames,
    pub memory: KMemory,
}

/// How a run ends.
#[derive(Drop)]
pub enum End {
    /// The function returned, with a value where it has one.
    Returned(Option<Value>, KMemory),
    /// The run is stuck, at the instruction on a line.
    Stuck(StuckReason, u32),
    /// A name or a type did not fit. No checked kernel has such a run.
    Lost,
    /// The run went on for longer than it was watched. No checked kernel has such a run within its expanded length.
    Unfinished,
}

/// What a step leads to.
#[derive(Drop)]
pub enum Next {
    Going(Machine),
    Ended(End),
}

/// What an instruction gives its register.
#[derive(Clone, Copy, Debug, PartialEq, Eq)]
pub enum Computed {
    Sets(Held),
    /// Nothing, and the run goes on.
    Passes,
    Sticks(StuckReason),
    Lost,
}

/// What a store writes.
#[derive(Clone, Copy, Debug, PartialEq, Eq)]
pub enum Written {
    /// A number into an object at an offset.
    Puts {
        object: u32,
        offset: u64,
        number: u64,
    },
    Sticks(StuckReason),
    Lost,
}

/// What an instruction at the head of a block reads.
#[derive(Clone, Copy, Debug, PartialEq, Eq)]
pub enum Head {
    /// It is no phi.
    Ends,
    /// The phi of a register.
    Reads { register: u32, value: Value },
    Lost,
}

/// Where a branch leads.
#[derive(Clone, Copy, Debug, PartialEq, Eq)]
pub enum Target {
    To(u32),
    Sticks(StuckReason),
    Lost,
}
