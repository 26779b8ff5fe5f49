//! The words for operations, and two numbers in a word.

use crate::row::short;
use hk_term::TermKind;

/// The operations on two terms, each with its word.
pub const KINDS: [(&str, TermKind); 17] = [
    ("add", TermKind::Add),
    ("sub", TermKind::Sub),
    ("mul", TermKind::Mul),
    ("udiv", TermKind::Udiv),
    ("urem", TermKind::Urem),
    ("sdiv", TermKind::Sdiv),
    ("srem", TermKind::Srem),
    ("shl", TermKind::Shl),
    ("lshr", TermKind::Lshr),
    ("ashr", TermKind::Ashr),
    ("and", TermKind::And),
    ("or", TermKind::Or),
    ("xor", TermKind::Xor),
    ("eq", TermKind::Eq),
    ("ult", TermKind::Ult),
    ("slt", TermKind::Slt),
    ("concat", TermKind::Concat),
];

/// The operation of a word.
pub fn kind_of(word: &str) -> Option<TermKind> {
    for (name, kind) in KINDS {
        if name == word {
            return Some(kind);
        }
    }
    None
}

/// The word of an operation.
pub fn word_of(kind: TermKind) -> &'static str {
    for (name, each) in KINDS {
        if each == kind {
            return name;
        }
    }
    ""
}

/// Two numbers of 32 bits, with a colon between.
pub fn two(word: &str) -> Option<(u32, u32)> {
    let (first, second) = word.split_once(':')?;
    Some((short(first)?, short(second)?))
}
