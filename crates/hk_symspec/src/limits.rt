//! The ids of variables of quantifiers.

/// The first variable of a formula's quantifiers. Arguments of a handler have ids below it.
pub const FORMULA_BASE: u32 = 65536;

/// The first variable of the quantifiers in a field's equation, where a formula reads it.
pub const ENTRY_BASE: u32 = 16777216;

// No variable has an id from this one on.
pub(crate) const LAST_BASE: u32 = u32::MAX;
