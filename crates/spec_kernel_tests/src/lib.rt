//! Tests of what a specification may name of a kernel, over texts.
//!
//! They stand in a crate of their own, above the reader, so that the view is not proved a second time for them.
#![tactic(auto)]

#[cfg(test)]
mod name_tests;
