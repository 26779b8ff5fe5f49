//! Initial memory by cells: each object that a kernel may write has one array of cells of 1, 2, 4 or 8 bytes.
//!
//! Stands on symbolic memory, whose reads of bytes it keeps for constants, and on the whole types of a module by number. A module and
//! its layout come in; reads of the memory before anything was written go out, which at offsets that are seen to be multiples of the
//! cell size take one entry of an array for each cell and not for each byte.
#![tactic(auto)]

mod cell_reads;
mod cut;
mod filling;
mod multiples;
mod parts;
mod reading;
mod sizes;
mod terms;
mod wholes;

pub use cell_reads::CellReads;
