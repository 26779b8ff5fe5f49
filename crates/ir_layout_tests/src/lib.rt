//! Tests of layouts over texts: a table for each kind of answer.
//!
//! They stand in a crate of their own, above the reader, so that the layout is not proved a second time for them.
#![tactic(auto)]

#[cfg(test)]
mod answer_tests;
#[cfg(test)]
mod memory_tests;
#[cfg(test)]
mod refusal_tests;
