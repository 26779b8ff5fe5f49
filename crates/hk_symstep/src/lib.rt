//! Symbolic registers and operands, and what instructions give that neither write nor lead elsewhere.
//!
//! Stands on symbolic values, on symbolic memory and its accesses, and on the step machine, whose rows it follows one by one. The
//! symbolic registers of a frame and an instruction come in; what the instruction sets goes out as terms, with a term that tells where
//! the run is stuck. Stores, jumps, calls and the order of instructions are the layer above.
#![tactic(auto)]

mod acts;
mod arguments;
mod file;
mod laws;
mod loads;
mod operands;
mod rows;
mod setting;
mod spans;
mod state;

pub use acts::{computed, stored_slot};
pub use arguments::passed;
pub use file::SymFile;
pub use laws::{covers_grows, held_grows};
pub use operands::operand;
pub use setting::set;
pub use state::{SlotAccess, SymComputed, SymHeld, SymSlot};
