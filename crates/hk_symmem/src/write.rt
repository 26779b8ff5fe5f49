//! One write.

use hk_term::TermId;

/// A write of the low `bytes` bytes of a number at an offset of an object, in bytes, where the guard is true.
#[derive(Clone, Copy, Debug)]
pub struct GuardedWrite {
    pub guard: TermId,
    pub offset: TermId,
    pub bytes: u32,
    pub value: TermId,
}
