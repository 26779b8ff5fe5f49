//! The nodes of terms.

ghost use Rattle.std.specs.Prelude.{◌≡◌, ℕ};

use crate::bounds::BoundList;
use std::marker::Model;

/// A term: the place of its node in the list, counted from 0.
#[derive(Clone, Copy, Debug, PartialEq, Eq, Hash)]
pub struct TermId {
    place: u64,
}

impl Model for TermId {
    ghost use Rattle.std.specs.Prelude.{ℕ};

    ghost Value = { ℕ };

    ghost view = { λ t. t.place };

    ghost inverse = { λ n. record { place = n } };
}

impl TermId {
    /// The term at a place of the list.
    pub fn at(place: u64) -> TermId
        ensures { result ≡ place }
    {
        TermId { place }
    }

    /// The place of the term's node in the list.
    pub fn place(self) -> u64
        ensures { result ≡ self }
    {
        self.place
    }
}

/// The operations on one term: the complement of each bit, and the two's complement.
#[derive(Clone, Copy, Debug, PartialEq, Eq, Hash)]
pub enum UnaryKind {
    Not,
    Neg,
}

/// The operations on two terms, as SMT-LIB has them. `Concat` puts the first above the second; all others take two terms
/// of one width. `Eq`, `Ult` and `Slt` give a truth value, a term of width 1.
#[derive(Clone, Copy, Debug, PartialEq, Eq, Hash)]
pub enum TermKind {
    Add,
    Sub,
    Mul,
    Udiv,
    Urem,
    Sdiv,
    Srem,
    Shl,
    Lshr,
    Ashr,
    And,
    Or,
    Xor,
    Eq,
    Ult,
    Slt,
    Concat,
}

/// The changes of width: zeros above, copies of the sign above, or the bits from `low` on.
#[derive(Clone, Copy, Debug, PartialEq, Eq, Hash)]
pub enum TermResize {
    Zero,
    Sign,
    Extract { low: u32 },
}

/// One step of a term. Widths are in bits, from 1 to 64; a truth value has the width 1.
#[derive(Debug, Drop, PartialEq, Eq, Hash)]
pub enum Node {
    /// A number of a width.
    Const {
        width: u32,
        value: u64,
    },
    /// A variable, read at a width.
    Var {
        width: u32,
        id: u32,
    },
    /// The entry of an array at an index, read at a width.
    Select {
        array: u32,
        width: u32,
        index: TermId,
    },
    /// An operation on one term.
    Unary {
        kind: UnaryKind,
        a: TermId,
    },
    /// An operation on two terms.
    Binary {
        kind: TermKind,
        a: TermId,
        b: TermId,
    },
    /// The first of two terms where the condition is true, and else the second.
    Choose {
        condition: TermId,
        a: TermId,
        b: TermId,
    },
    /// A term at the width `to`.
    Resize {
        kind: TermResize,
        to: u32,
        a: TermId,
    },
    /// Whether the body is true for each tuple of numbers of the bound variables.
    ForAll {
        bound: BoundList,
        body: TermId,
    },
}
