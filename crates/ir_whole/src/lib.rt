//! Numbers of whole types.
//!
//! Stands on the trees and on the order of their named types. The table of named types of a module comes in, and each type that a
//! text spells gets the number of the type that it stands for, with its names seen through. Two types are one type exactly where
//! their numbers are one number, however names are nested, so the checks compare in constant time.
#![tactic(auto)]

mod head;
mod list;
mod node;
mod numbers;
mod questions;

pub use head::{Head, Row};
pub use numbers::TypeNumbers;
