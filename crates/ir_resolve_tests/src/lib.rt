//! Tests of the code of modules over texts: one table of instructions.
//!
//! They stand in a crate of their own, above the reader, so that the resolver is not proved a second time for them.
#![tactic(auto)]

#[cfg(test)]
mod act_tests;
