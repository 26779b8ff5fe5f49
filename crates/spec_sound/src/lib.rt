//! Laws over whole texts: the specification that lines without a fault stand for is well sorted and fits its kernel, and there is one
//! answer to what the first line with a fault is.
//!
//! No value comes in or goes out: the calls do nothing, and their contracts are laws. Stands on the lines of specifications, and on the
//! laws of what is taken. `specs/Limits.antt` says what is to be tested of a specification beside.
#![tactic(auto)]

mod laws;

pub use laws::{answers_are_one, elaborated_are_sound};
