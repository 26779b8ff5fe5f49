//! The state of a function that is executed.

use crate::entries::Entries;
use hk_symstep::SymFile;
use hk_symvalue::SymValue;
use hk_term::TermId;

/// The state of a function that is executed, on all paths at once. Conditions are truth values.
#[derive(Drop)]
pub struct Exec {
    /// The run is here, at the present instruction.
    pub guard: TermId,
    pub entries: Entries,
    pub file: SymFile,
    /// The run came back to its caller.
    pub back: TermId,
    /// The run came back with a value.
    pub valued: TermId,
    pub value: Option<SymValue>,
    /// The run is stuck, here or in another function.
    pub stuck: TermId,
}
