//! Functions of a kernel that come, by calls in the text, to a declared one that is neither a listed intrinsic nor a hook: strays. Nothing
//! says what a call of such a one does.
//!
//! Stands on the names of a kernel. These and the hooks of a specification come in; for each function, by its place, the answer goes out.
//! `specs/Callers.antt` says what the calls are, turned round, and `specs/Reached.antt` what a search along them finds.
#![tactic(auto)]

mod callers;
mod calls;
mod places;
mod search;
mod strays;

pub use strays::strays_of;
