//! The outside of the program: a shelf that files are loaded from and saved to by name, and a sink that
//! output is put on. Names and limits go in, bytes come out; each fault of the outside is counted.
#![tactic(auto)]

mod fault;
mod folder;
mod lists;
mod mem_shelf;
mod mem_sink;
mod shelf;
mod sink;
mod std_sink;

pub use fault::{LoadFault, SaveFault, SinkFault};
pub use folder::FolderShelf;
pub use lists::{CallList, FileList, PutList};
pub use mem_shelf::MemShelf;
pub use mem_sink::MemSink;
pub use shelf::Shelf;
pub use sink::Sink;
pub use std_sink::StdSink;

#[cfg(test)]
mod tests;
