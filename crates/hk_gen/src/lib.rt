//! A generated workload: a kernel of any number of system calls over one table of processes, and its specification.
//!
//! In comes a size, out go two texts, byte for byte those of `specs/Workload.antt`. A handler changes one field of the
//! process that its first argument names; every fourth one lets the number of processes itself pass as a process, so its
//! load leaves the table.
#![tactic(auto)]

mod text;
mod workload;

pub use workload::generate;

#[cfg(test)]
mod tests;
