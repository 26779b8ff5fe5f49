//! What clause files, the checker of refutations and the solver promise, once more: for wrong bodies of public calls.
//!
//! Stands above the clause lists, their logs and the solver. Each function has the parameters, the conditions and the promise of the
//! call that it hands on to, so a promise that grows weaker below is refused here, and a wrong body in its place is refused by the
//! promise itself, with nothing private between them.
#![tactic(auto)]

pub mod logs;
pub mod solving;
pub mod texts;
