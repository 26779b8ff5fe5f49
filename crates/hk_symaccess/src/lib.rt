//! Accesses through symbolic pointers: sizes and alignments of objects, loads and stores.
//!
//! Stands on symbolic values, on symbolic memory and on the step machine, whose loads and stores it follows. A pointer comes in whose
//! base may be any object; the number that is loaded there goes out, or the memory is written, with a term that tells where the run is
//! stuck. A constant base goes to its object directly, and of all others only those objects count that the base may have.
#![tactic(auto)]

mod access;
mod laws;
mod loads;
mod objects;
mod reach;
mod stores;

pub use access::{Access, Store};
pub use laws::{memories_are_kept, objects_keep_their_sizes};
pub use loads::load;
pub use objects::{align_of, size_of};
pub use stores::store;
