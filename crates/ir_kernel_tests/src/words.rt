//! The words of a row: values, operations with their flags, predicates and kinds.

use ir_ast::{BinaryKind, ConvertKind, Flags, Predicate};
use ir_value::{OverflowKind, PairKind, Value};

/// Flags of which none is set.
pub const PLAIN: Flags = Flags {
    nuw: false,
    nsw: false,
    exact: false,
    disjoint: false,
    nneg: false,
    inbounds: false,
};

/// A number of 32 bits.
pub fn short(field: &str) -> Option<u32> {
    field.parse::<u32>().ok()
}

/// A number of 64 bits.
pub fn long(field: &str) -> Option<u64> {
    field.parse::<u64>().ok()
}

/// The address that an object's number and an offset behind a `+` write.
fn address(place: &str) -> Option<Value> {
    let (object, offset) = place.split_once('+')?;
    Some(Value::Address {
        object: short(object)?,
        offset: long(offset)?,
    })
}

/// A value: a number, `poison`, `null`, or `@OBJECT+OFFSET`.
pub fn value(field: &str) -> Option<Value> {
    if field == "poison" {
        return Some(Value::Poison);
    }
    if field == "null" {
        return Some(Value::Null);
    }
    match field.strip_prefix('@') {
        Some(place) => address(place),
        None => Some(Value::Number(long(field)?)),
    }
}

/// A word and the flag behind it, which may be none.
fn word_and_flag(field: &str) -> (&str, &str) {
    match field.split_once(' ') {
        Some(parts) => parts,
        None => (field, ""),
    }
}

/// Whether a flag is set that alone may stand behind a word.
fn is_set(flag: &str, name: &str) -> Option<bool> {
    if flag == name {
        Some(true)
    } else if flag.is_empty() {
        Some(false)
    } else {
        None
    }
}

/// The flags of an operation, of which one at most is set.
fn flags(word: &str) -> Option<Flags> {
    match word {
        "" => Some(PLAIN),
        "nuw" => Some(Flags { nuw: true, ..PLAIN }),
        "nsw" => Some(Flags { nsw: true, ..PLAIN }),
        "exact" => Some(Flags {
            exact: true,
            ..PLAIN
        }),
        "disjoint" => Some(Flags {
            disjoint: true,
            ..PLAIN
        }),
        _ => None,
    }
}

fn binary_kind(word: &str) -> Option<BinaryKind> {
    match word {
        "add" => Some(BinaryKind::Add),
        "sub" => Some(BinaryKind::Sub),
        "mul" => Some(BinaryKind::Mul),
        "shl" => Some(BinaryKind::Shl),
        "lshr" => Some(BinaryKind::Lshr),
        "ashr" => Some(BinaryKind::Ashr),
        "and" => Some(BinaryKind::And),
        "or" => Some(BinaryKind::Or),
        "xor" => Some(BinaryKind::Xor),
        _ => division_kind(word),
    }
}

fn division_kind(word: &str) -> Option<BinaryKind> {
    match word {
        "udiv" => Some(BinaryKind::Udiv),
        "sdiv" => Some(BinaryKind::Sdiv),
        "urem" => Some(BinaryKind::Urem),
        "srem" => Some(BinaryKind::Srem),
        _ => None,
    }
}

/// An operation on two numbers with its flags, as `add nuw`.
pub fn operation(field: &str) -> Option<(BinaryKind, Flags)> {
    let (word, flag) = word_and_flag(field);
    Some((binary_kind(word)?, flags(flag)?))
}

/// A predicate.
pub fn predicate(field: &str) -> Option<Predicate> {
    match field {
        "eq" => Some(Predicate::Eq),
        "ne" => Some(Predicate::Ne),
        "ugt" => Some(Predicate::Ugt),
        "uge" => Some(Predicate::Uge),
        "ult" => Some(Predicate::Ult),
        "ule" => Some(Predicate::Ule),
        "sgt" => Some(Predicate::Sgt),
        "sge" => Some(Predicate::Sge),
        "slt" => Some(Predicate::Slt),
        "sle" => Some(Predicate::Sle),
        _ => None,
    }
}

/// A predicate, and whether it says that both operands have one sign, as `samesign ult`.
pub fn comparison(field: &str) -> Option<(bool, Predicate)> {
    match field.strip_prefix("samesign ") {
        Some(rest) => Some((true, predicate(rest)?)),
        None => Some((false, predicate(field)?)),
    }
}

/// The flags of a change of width.
fn width_flags(word: &str) -> Option<Flags> {
    match word {
        "nneg" => Some(Flags {
            nneg: true,
            ..PLAIN
        }),
        "nuw nsw" => Some(Flags {
            nuw: true,
            nsw: true,
            ..PLAIN
        }),
        _ => flags(word),
    }
}

/// A change of width with its flags, as `zext nneg`.
pub fn conversion(field: &str) -> Option<(ConvertKind, Flags)> {
    let (word, flag) = word_and_flag(field);
    let kind = match word {
        "trunc" => ConvertKind::Trunc,
        "zext" => ConvertKind::Zext,
        "sext" => ConvertKind::Sext,
        _ => return None,
    };
    Some((kind, width_flags(flag)?))
}

/// An operation whose overflow is told, and whether its numbers are read signed, as `add signed`.
pub fn overflow(field: &str) -> Option<(OverflowKind, bool)> {
    let (word, flag) = word_and_flag(field);
    let kind = match word {
        "add" => OverflowKind::Add,
        "sub" => OverflowKind::Sub,
        "mul" => OverflowKind::Mul,
        _ => return None,
    };
    Some((kind, is_set(flag, "signed")?))
}

/// An intrinsic of two operands.
pub fn pair_kind(field: &str) -> Option<PairKind> {
    match field {
        "umin" => Some(PairKind::Umin),
        "umax" => Some(PairKind::Umax),
        "smin" => Some(PairKind::Smin),
        "smax" => Some(PairKind::Smax),
        "abs" => Some(PairKind::Abs),
        "expect" => Some(PairKind::Expect),
        _ => None,
    }
}

/// Whether an address has to stay within its object, and whether it has to step forwards.
pub fn bounds(field: &str) -> Option<(bool, bool)> {
    match field {
        "inbounds" => Some((true, false)),
        "inbounds nuw" => Some((true, true)),
        "anywhere" => Some((false, false)),
        _ => None,
    }
}
