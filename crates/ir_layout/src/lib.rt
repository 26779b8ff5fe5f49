//! The layout of a kernel: sizes, alignments and offsets of its types, its objects, and byte memory.
//!
//! Stands on the trees and on the order of their named types. A module comes in; its layout goes out, or the first item that falls
//! under a rule of layout. The initial memory is made of a layout; it is read and written little endian.
#![tactic(auto)]

mod fact;
mod fields;
mod initial;
mod laws;
mod layout;
mod least;
mod marks;
mod memory;
mod object;
mod text;
mod types;

pub use laws::{
    a_store_changes_its_own_bytes_alone, fields_lie_within_and_apart,
    initial_bytes_fill_their_type, sizes_are_multiples_of_alignments,
};
pub use layout::Layout;
pub use memory::{KMemory, ObjectBytes};
