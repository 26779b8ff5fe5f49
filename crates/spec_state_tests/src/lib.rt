//! Whole specifications, evaluated: a counter with owners, and a field with four keys. The values were reckoned by hand.
#![tactic(auto)]

#[cfg(test)]
mod samples;
#[cfg(test)]
mod tests;
