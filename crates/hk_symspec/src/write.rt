//! One write.

use hk_seq::Seq;
use hk_term::TermId;

/// A write of a number to the entry of a field at an index tuple, where the guard is true. A write at an index that is not below its
/// key's size changes nothing.
#[derive(Drop)]
pub struct EntryWrite {
    /// The field by its place.
    pub field: u32,
    /// One term for each key.
    pub index: Seq<TermId>,
    pub guard: TermId,
    pub value: TermId,
}
