//! Tests of the functions that come to strays, over texts of kernels.
//!
//! They stand in a crate of their own, above the reader, so that the search is not proved a second time for them.
#![tactic(auto)]

#[cfg(test)]
mod stray_tests;
