//! What is loaded and stored: accesses at pointers, and the places that they come to.

use hk_symvalue::SymValue;
use hk_term::TermId;

/// An access: how many bytes, at what alignment in bytes, and through what pointer.
#[derive(Clone, Copy)]
pub struct Access {
    pub bytes: u32,
    pub align: u64,
    pub address: SymValue,
}

/// A store: where its guard is true, the low bytes of a number are written. The guard is a truth value.
#[derive(Clone, Copy)]
pub struct Store {
    pub guard: TermId,
    pub value: SymValue,
    pub access: Access,
}

/// So many bytes of memory at a base, from an offset on. Both are terms of width 64.
#[derive(Clone, Copy)]
pub(crate) struct Location {
    pub(crate) base: TermId,
    pub(crate) offset: TermId,
    pub(crate) bytes: u32,
}
