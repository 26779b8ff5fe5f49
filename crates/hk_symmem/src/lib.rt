//! Symbolic memory: guarded writes over the bytes that arrays give, before anything was written.
//!
//! Stands on terms, their constructors and the layout of a kernel; symbolic execution and specifications as terms stand on
//! it. Reads and writes at symbolic offsets come in; terms go out, with the values that a byte memory would give under
//! every reading of variables and arrays.
#![tactic(auto)]

mod array_bytes;
mod behind;
mod byte_reads;
mod constants;
mod fold;
mod given;
mod memory;
mod multiples;
mod overlay;
mod reads;
mod row;
mod source;
mod terms;
mod write;

pub use byte_reads::ByteReads;
pub use memory::SymMemory;
pub use reads::InitialReads;
pub use write::GuardedWrite;
