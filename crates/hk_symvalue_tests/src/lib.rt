//! Tests of symbolic values by public calls alone, and a sum whose laws follow from the clauses of its constructors.
//!
//! They stand in a crate of their own, so that what they test is not proved a second time for them.
#![tactic(auto)]

#[cfg(test)]
mod agreement_tests;
#[cfg(test)]
mod symvalue_tests;
