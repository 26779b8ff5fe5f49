//! The operators of a specification. The words are those of SMT-LIB's bit-vectors and of Z3's Python interface.

/// An operator with one operand.
#[derive(Clone, Copy, Debug, PartialEq, Eq)]
pub enum UnKind {
    /// `-`.
    Minus,
    /// `~`.
    Complement,
    /// `Not`.
    Not,
}

/// An operator with two operands.
#[derive(Clone, Copy, Debug, PartialEq, Eq)]
pub enum BinKind {
    /// `*`.
    Mul,
    /// `+`.
    Add,
    /// `-`.
    Sub,
    /// `<<`.
    Shl,
    /// `>>`, which shifts in copies of the sign.
    Ashr,
    /// `LShR`, which shifts in zeros.
    Lshr,
    /// `&`.
    BitAnd,
    /// `^`.
    BitXor,
    /// `|`.
    BitOr,
    /// `UDiv`.
    Udiv,
    /// `URem`.
    Urem,
    /// `==`.
    Eq,
    /// `!=`.
    Ne,
    /// `<` on signed numbers.
    Slt,
    /// `<=` on signed numbers.
    Sle,
    /// `>` on signed numbers.
    Sgt,
    /// `>=` on signed numbers.
    Sge,
    /// `ULT`.
    Ult,
    /// `ULE`.
    Ule,
    /// `UGT`.
    Ugt,
    /// `UGE`.
    Uge,
    /// `Implies`.
    Implies,
}
