//! How addresses compare, and what is added to them.

ghost use Rattle.std.specs.Prelude.{◌≡◌, ◌≤◌, ◌<◌, ◌^◌, true};
ghost use Rattle.ir_value.specs.Numbers as numbers;
ghost use Rattle.ir_value.specs.Pointers as definition;

use crate::compare::holds;
use crate::numbers::truth;
use crate::value::{Made, StuckReason, Value};
use ir_ast::Predicate;

fn is_equality(predicate: Predicate) -> bool
    ensures { result ≡ definition.is_equality predicate }
{
    match predicate {
        Predicate::Eq | Predicate::Ne => true,
        _ => false,
    }
}

fn says(is: bool) -> Made
    ensures { result ≡ definition.says is }
{
    Made::Gives(Value::Number(truth(is)))
}

fn compare_within(predicate: Predicate, size: u64, x: u64, y: u64) -> Made
    ensures { result ≡ definition.compare_within predicate size x y }
{
    if is_equality(predicate) || (x <= size && y <= size) {
        says(holds(predicate, 64, x, y))
    } else {
        Made::Sticks(StuckReason::U15)
    }
}

fn compare_with_null(predicate: Predicate, size: u64, x: u64) -> Made
    ensures { result ≡ definition.compare_with_null predicate size x }
{
    if is_equality(predicate) && x <= size {
        says(holds(predicate, 64, 0, 1))
    } else {
        Made::Sticks(StuckReason::U15)
    }
}

fn compare_nulls(predicate: Predicate) -> Made
    ensures { result ≡ definition.compare_nulls predicate }
{
    if is_equality(predicate) {
        says(holds(predicate, 64, 0, 0))
    } else {
        Made::Sticks(StuckReason::U15)
    }
}

fn compare_addresses(
    predicate: Predicate,
    size: u64,
    first: u32,
    x: u64,
    second: u32,
    y: u64,
) -> Made
    ensures { result ≡ definition.compare_addresses predicate size first x second y }
{
    if first == second {
        compare_within(predicate, size, x, y)
    } else {
        Made::Sticks(StuckReason::U15)
    }
}

fn is_pointer(value: Value) -> bool
    ensures { result ≡ definition.is_pointer value }
{
    match value {
        Value::Number(_) => false,
        _ => true,
    }
}

fn compare_known(predicate: Predicate, size_a: u64, size_b: u64, a: Value, b: Value) -> Made
    ensures { result ≡ definition.compare_known predicate size_a size_b a b }
{
    match (a, b) {
        (Value::Null, Value::Null) => compare_nulls(predicate),
        (Value::Null, Value::Address { offset, .. }) => compare_with_null(
            predicate, size_b, offset,
        ),
        (Value::Address { offset, .. }, Value::Null) => compare_with_null(
            predicate, size_a, offset,
        ),
        (
            Value::Address {
                object: first,
                offset: x,
            },
            Value::Address {
                object: second,
                offset: y,
            },
        ) => compare_addresses(predicate, size_a, first, x, second, y),
        _ => Made::Gives(Value::Poison),
    }
}

/// Compares two pointers; the sizes are those of the operands' objects, where they have one.
///
/// Offsets of one object are compared, modulo 2^64, and null differs from each object. The run is stuck (`U15`) at two objects, at an
/// order with null, and where the answer of an order or of a comparison with null depends on an offset beyond the end of its object.
pub fn compare_pointers(predicate: Predicate, size_a: u64, size_b: u64, a: Value, b: Value) -> Made
    ensures { result ≡ definition.compare_pointers predicate size_a size_b a b }
{
    if is_pointer(a) && is_pointer(b) {
        compare_known(predicate, size_a, size_b, a, b)
    } else {
        Made::Lost
    }
}
