//! What types, operands and whole modules spell.
//!
//! Stands on the trees, and on the order of a graph. A table of named types comes in; an order of them goes out in which the names
//! that a type spells come first, with the answer which types contain themselves. Its definitions say what a type stands for, what an
//! instruction takes, and which item of a module fails first; layout and checks state their rules in them.
#![tactic(auto)]

pub mod names;

pub use names::type_order;
