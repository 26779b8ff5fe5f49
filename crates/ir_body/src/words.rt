//! What the words of operations and of comparisons stand for. Frequent words come first.

ghost use Rattle.std.specs.Prelude.{◌≡◌};
ghost use Rattle.ir_body.specs.Words as definition;

use crate::operation::Operation;
use ir_ast::{BinaryKind, Predicate};

/// The operation of a word.
#[tactic(auto, unfolding(crate::specs::Words::operation_of))]
pub fn operation_of(text: &[u8]) -> Option<Operation>
    ensures { result ≡ definition.operation_of text.now }
{
    match memory_of(text) {
        Some(operation) => Some(operation),
        None => match arithmetic_of(text) {
            Some(operation) => Some(operation),
            None => rarer_of(text),
        },
    }
}

/// The operation of a word that is none of memory or arithmetic.
fn rarer_of(text: &[u8]) -> Option<Operation>
    ensures { result ≡ definition.rarer_of text.now }
{
    match value_of(text) {
        Some(operation) => Some(operation),
        None => match control_of(text) {
            Some(operation) => Some(operation),
            None => bit_of(text),
        },
    }
}

/// The comparison of a word.
#[tactic(auto, unfolding(crate::specs::Words::predicate_of))]
pub fn predicate_of(text: &[u8]) -> Option<Predicate>
    ensures { result ≡ definition.predicate_of text.now }
{
    match unsigned_of(text) {
        Some(predicate) => Some(predicate),
        None => signed_of(text),
    }
}

/// The arithmetic with flags.
#[tactic(auto, unfolding(crate::specs::Words::arithmetic_of))]
fn arithmetic_of(text: &[u8]) -> Option<Operation>
    ensures { result ≡ definition.arithmetic_of text.now }
{
    if text == b"add".as_slice() {
        Some(Operation::Wrapping(BinaryKind::Add))
    } else if text == b"sub".as_slice() {
        Some(Operation::Wrapping(BinaryKind::Sub))
    } else if text == b"mul".as_slice() {
        Some(Operation::Wrapping(BinaryKind::Mul))
    } else if text == b"shl".as_slice() {
        Some(Operation::Wrapping(BinaryKind::Shl))
    } else if text == b"udiv".as_slice() {
        Some(Operation::Exacting(BinaryKind::Udiv))
    } else if text == b"sdiv".as_slice() {
        Some(Operation::Exacting(BinaryKind::Sdiv))
    } else if text == b"lshr".as_slice() {
        Some(Operation::Exacting(BinaryKind::Lshr))
    } else if text == b"ashr".as_slice() {
        Some(Operation::Exacting(BinaryKind::Ashr))
    } else {
        None
    }
}

/// The operations on bits, and the remainders.
#[tactic(auto, unfolding(crate::specs::Words::bit_of))]
fn bit_of(text: &[u8]) -> Option<Operation>
    ensures { result ≡ definition.bit_of text.now }
{
    if text == b"urem".as_slice() {
        Some(Operation::Simple(BinaryKind::Urem))
    } else if text == b"srem".as_slice() {
        Some(Operation::Simple(BinaryKind::Srem))
    } else if text == b"and".as_slice() {
        Some(Operation::Simple(BinaryKind::And))
    } else if text == b"xor".as_slice() {
        Some(Operation::Simple(BinaryKind::Xor))
    } else if text == b"or".as_slice() {
        Some(Operation::Or)
    } else {
        None
    }
}

/// The other operations that make a value of values.
#[tactic(auto, unfolding(crate::specs::Words::value_of))]
fn value_of(text: &[u8]) -> Option<Operation>
    ensures { result ≡ definition.value_of text.now }
{
    if text == b"icmp".as_slice() {
        Some(Operation::Icmp)
    } else if text == b"select".as_slice() {
        Some(Operation::Select)
    } else if text == b"trunc".as_slice() {
        Some(Operation::Trunc)
    } else if text == b"zext".as_slice() {
        Some(Operation::Zext)
    } else if text == b"sext".as_slice() {
        Some(Operation::Sext)
    } else if text == b"freeze".as_slice() {
        Some(Operation::Freeze)
    } else if text == b"phi".as_slice() {
        Some(Operation::Phi)
    } else {
        None
    }
}

/// The operations on memory, and calls.
#[tactic(auto, unfolding(crate::specs::Words::memory_of))]
fn memory_of(text: &[u8]) -> Option<Operation>
    ensures { result ≡ definition.memory_of text.now }
{
    if text == b"load".as_slice() {
        Some(Operation::Load)
    } else if text == b"store".as_slice() {
        Some(Operation::Store)
    } else if text == b"getelementptr".as_slice() {
        Some(Operation::GetElementPtr)
    } else if text == b"alloca".as_slice() {
        Some(Operation::Alloca)
    } else if text == b"call".as_slice() {
        Some(Operation::Call)
    } else if text == b"extractvalue".as_slice() {
        Some(Operation::ExtractValue)
    } else {
        None
    }
}

/// The ends of blocks.
#[tactic(auto, unfolding(crate::specs::Words::control_of))]
fn control_of(text: &[u8]) -> Option<Operation>
    ensures { result ≡ definition.control_of text.now }
{
    if text == b"br".as_slice() {
        Some(Operation::Br)
    } else if text == b"ret".as_slice() {
        Some(Operation::Ret)
    } else if text == b"switch".as_slice() {
        Some(Operation::Switch)
    } else if text == b"unreachable".as_slice() {
        Some(Operation::Unreachable)
    } else {
        None
    }
}

/// The comparisons that read no sign.
#[tactic(auto, unfolding(crate::specs::Words::unsigned_of))]
fn unsigned_of(text: &[u8]) -> Option<Predicate>
    ensures { result ≡ definition.unsigned_of text.now }
{
    if text == b"eq".as_slice() {
        Some(Predicate::Eq)
    } else if text == b"ne".as_slice() {
        Some(Predicate::Ne)
    } else if text == b"ugt".as_slice() {
        Some(Predicate::Ugt)
    } else if text == b"uge".as_slice() {
        Some(Predicate::Uge)
    } else if text == b"ult".as_slice() {
        Some(Predicate::Ult)
    } else if text == b"ule".as_slice() {
        Some(Predicate::Ule)
    } else {
        None
    }
}

/// The comparisons that read a sign.
#[tactic(auto, unfolding(crate::specs::Words::signed_of))]
fn signed_of(text: &[u8]) -> Option<Predicate>
    ensures { result ≡ definition.signed_of text.now }
{
    if text == b"sgt".as_slice() {
        Some(Predicate::Sgt)
    } else if text == b"sge".as_slice() {
        Some(Predicate::Sge)
    } else if text == b"slt".as_slice() {
        Some(Predicate::Slt)
    } else if text == b"sle".as_slice() {
        Some(Predicate::Sle)
    } else {
        None
    }
}
