//! Checks of whole kernels.
//!
//! Stands on the trees, on names and types of operands, on orders of graphs and on what flows along them. A module that was read comes
//! in; a checked kernel goes out, with an order of each function's blocks and its expanded length, or the first item that falls under a
//! check, with the least of its rules. The definitions say which items of a module fall under each check, and when a module is well
//! formed.
#![tactic(auto)]

mod arms;
mod body;
mod calls;
mod checked;
mod edges;
mod faults;
mod function;
mod heads;
mod index;
mod instrs;
mod kernel;
mod order;
mod reach;
mod site_table;
mod sites;
mod sources;
mod tally;
mod used;
mod uses;

pub use checked::{Checked, check};
pub use order::PlaceList;
