//! What operands and registers hold, as terms.

use hk_term::TermId;

/// A symbolic value: under each reading of its terms a value of the machine.
///
/// `poison` is a truth value. `base` is a term of width 64: 0 where the value is a number, 1 where it is null, and k + 2 where it is an
/// address in object k. `bits` is the number, or the offset in bytes, at any width that holds it.
#[derive(Clone, Copy, Debug)]
pub struct SymValue {
    pub poison: TermId,
    pub base: TermId,
    pub bits: TermId,
}

/// What an instruction makes of its operands: a value, and whether the run is stuck instead.
#[derive(Clone, Copy, Debug)]
pub struct SymMade {
    pub stuck: TermId,
    pub value: SymValue,
}

/// A number and an overflow bit.
#[derive(Clone, Copy, Debug)]
pub struct SymPair {
    pub number: SymValue,
    pub overflow: SymValue,
}

// A number that may be poison.
#[derive(Clone, Copy, Debug)]
pub(crate) struct Flagged {
    pub(crate) poison: TermId,
    pub(crate) bits: TermId,
}

// A pointer that is not poison: its base, and its offset as a term of width 64.
#[derive(Clone, Copy, Debug)]
pub(crate) struct Place {
    pub(crate) base: TermId,
    pub(crate) offset: TermId,
}

// What an index of a `getelementptr` steps over: whether it leads back, whether its bytes are over 2^64 - 1, and how many they are
// modulo 2^64.
#[derive(Clone, Copy, Debug)]
pub(crate) struct Moved {
    pub(crate) back: TermId,
    pub(crate) over: TermId,
    pub(crate) by: TermId,
}
