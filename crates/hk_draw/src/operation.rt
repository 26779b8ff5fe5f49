//! Operations on two numbers, as instructions and as terms.

use crate::draft::Term;
use crate::random::Random;
use std::alloc::{AllocError, Global};

/// What is computed of two numbers.
#[derive(Clone, Copy)]
pub(crate) enum Operation {
    Add,
    Sub,
    Mul,
    And,
    Or,
    Xor,
    Shl,
    Lshr,
    Udiv,
    Urem,
}

const OPERATIONS: &[Operation] = &[
    Operation::Add,
    Operation::Sub,
    Operation::Mul,
    Operation::And,
    Operation::Or,
    Operation::Xor,
    Operation::Shl,
    Operation::Lshr,
    Operation::Udiv,
    Operation::Urem,
];

/// An operation.
pub(crate) fn draw_operation(random: &mut Random) -> Operation {
    let place = random.below(OPERATIONS.len() as u64) as usize;
    OPERATIONS.get(place).copied().unwrap_or(Operation::Add)
}

/// The name of the instruction.
pub(crate) fn name_of(operation: Operation) -> &'static str {
    match operation {
        Operation::Add => "add",
        Operation::Sub => "sub",
        Operation::Mul => "mul",
        Operation::And => "and",
        Operation::Or => "or",
        Operation::Xor => "xor",
        Operation::Shl => "shl",
        Operation::Lshr => "lshr",
        Operation::Udiv => "udiv",
        Operation::Urem => "urem",
    }
}

/// Flags that the instruction may have.
pub(crate) fn flags_of(operation: Operation) -> &'static str {
    match operation {
        Operation::Add => " nsw",
        Operation::Sub => " nuw",
        Operation::Mul => " nuw",
        Operation::Or => " disjoint",
        Operation::Shl => " nuw nsw",
        Operation::Lshr => " exact",
        Operation::Udiv => " exact",
        Operation::And => "",
        Operation::Xor => "",
        Operation::Urem => "",
    }
}

/// An operation that is taken for this one by mistake.
pub(crate) fn mistaken(operation: Operation) -> Operation {
    match operation {
        Operation::Add => Operation::Or,
        Operation::Sub => Operation::Xor,
        Operation::Mul => Operation::Shl,
        Operation::And => Operation::Urem,
        Operation::Or => Operation::Add,
        Operation::Xor => Operation::Sub,
        Operation::Shl => Operation::Mul,
        Operation::Lshr => Operation::Udiv,
        Operation::Udiv => Operation::Lshr,
        Operation::Urem => Operation::And,
    }
}

/// The operation as a term.
pub(crate) fn term_of(
    alloc: Global,
    operation: Operation,
    a: Term,
    b: Term,
) -> Result<String, AllocError> {
    match operation {
        Operation::Add => format!(in alloc; "{a} + {b}"),
        Operation::Sub => format!(in alloc; "{a} - {b}"),
        Operation::Mul => format!(in alloc; "{a} * {b}"),
        Operation::And => format!(in alloc; "{a} & {b}"),
        Operation::Or => format!(in alloc; "{a} | {b}"),
        Operation::Xor => format!(in alloc; "{a} ^ {b}"),
        Operation::Shl => format!(in alloc; "{a} << {b}"),
        Operation::Lshr => format!(in alloc; "LShR({a}, {b})"),
        Operation::Udiv => format!(in alloc; "UDiv({a}, {b})"),
        Operation::Urem => format!(in alloc; "URem({a}, {b})"),
    }
}

/// A comparison of two numbers.
#[derive(Clone, Copy)]
pub(crate) enum Predicate {
    Eq,
    Ne,
    Ult,
    Ule,
    Ugt,
    Uge,
    Slt,
    Sge,
}

const PREDICATES: &[Predicate] = &[
    Predicate::Eq,
    Predicate::Ne,
    Predicate::Ult,
    Predicate::Ule,
    Predicate::Ugt,
    Predicate::Uge,
    Predicate::Slt,
    Predicate::Sge,
];

/// A comparison.
pub(crate) fn draw_predicate(random: &mut Random) -> Predicate {
    let place = random.below(PREDICATES.len() as u64) as usize;
    PREDICATES.get(place).copied().unwrap_or(Predicate::Eq)
}

/// The word of the instruction.
pub(crate) fn word_of(predicate: Predicate) -> &'static str {
    match predicate {
        Predicate::Eq => "eq",
        Predicate::Ne => "ne",
        Predicate::Ult => "ult",
        Predicate::Ule => "ule",
        Predicate::Ugt => "ugt",
        Predicate::Uge => "uge",
        Predicate::Slt => "slt",
        Predicate::Sge => "sge",
    }
}

/// A comparison that is taken for this one by mistake.
pub(crate) fn confused(predicate: Predicate) -> Predicate {
    match predicate {
        Predicate::Eq => Predicate::Ule,
        Predicate::Ne => Predicate::Ugt,
        Predicate::Ult => Predicate::Slt,
        Predicate::Ule => Predicate::Ult,
        Predicate::Ugt => Predicate::Uge,
        Predicate::Uge => Predicate::Sge,
        Predicate::Slt => Predicate::Ult,
        Predicate::Sge => Predicate::Uge,
    }
}

/// The comparison as a term.
pub(crate) fn test_of(
    alloc: Global,
    predicate: Predicate,
    a: Term,
    b: Term,
) -> Result<String, AllocError> {
    match predicate {
        Predicate::Eq => format!(in alloc; "{a} == {b}"),
        Predicate::Ne => format!(in alloc; "{a} != {b}"),
        Predicate::Ult => format!(in alloc; "ULT({a}, {b})"),
        Predicate::Ule => format!(in alloc; "ULE({a}, {b})"),
        Predicate::Ugt => format!(in alloc; "UGT({a}, {b})"),
        Predicate::Uge => format!(in alloc; "UGE({a}, {b})"),
        Predicate::Slt => format!(in alloc; "{a} < {b}"),
        Predicate::Sge => format!(in alloc; "{a} >= {b}"),
    }
}
