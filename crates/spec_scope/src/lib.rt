//! Scopes of a specification, and what its expressions stand for: names are resolved and widths are found.
//!
//! Raw expressions come in, and expressions of `spec_tree` go out. Stands on the names of a kernel. `specs/Scope.antt` says what a name
//! means and which width an expression has of its own, `specs/Takes.antt` what an expression stands for, `specs/Taking.antt` the same as
//! a function, and `specs/Tests.antt` which tests of an expression its faults are.
#![tactic(auto)]

pub mod bound;
pub mod build;
pub mod fields;
pub mod leaves;
pub mod meaning;
pub mod scoped;
pub mod sorts;
pub mod steps;
pub mod table;
pub mod typed;

pub use bound::BoundNames;
pub use fields::FieldTable;
pub use meaning::{Kind, Meaning, OpClass};
pub use scoped::Scope;
pub use sorts::{FieldRow, FieldSort};
pub use table::NameTable;
pub use typed::{Pair, Reached, ReadAt, TakeStop, Typed};
