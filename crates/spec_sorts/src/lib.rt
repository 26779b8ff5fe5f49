//! What is taken is well sorted: laws of what the expressions of a specification stand for.
//!
//! No value comes in or goes out: the calls do nothing, and their contracts are laws. Stands on scopes, the taking of expressions and
//! the equations of lines. `specs/Matching.antt` says when a context of expressions has what the names of a scope mean, and
//! `specs/Laws.antt` states the laws.
#![tactic(auto)]

pub mod laws;
