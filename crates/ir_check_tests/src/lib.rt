//! Tests of the checks over texts: a table for each rule, both sides of it.
//!
//! They stand in a crate of their own, above the reader, so that the checks are not proved a second time for them.
#![tactic(auto)]

#[cfg(test)]
mod answer_tests;
#[cfg(test)]
mod flow_tests;
#[cfg(test)]
mod refusal_tests;
