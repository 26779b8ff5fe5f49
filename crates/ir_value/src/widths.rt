//! Changes of width, `freeze` and `select`.

ghost use Rattle.std.specs.Prelude.{◌≡◌, ◌≤◌, ◌<◌, ◌^◌, true};
ghost use Rattle.ir_value.specs.Numbers as definition;

use crate::numbers::{is_width, low, takes, unless};
use crate::value::{Made, StuckReason, Value};
use hk_num::{sext, slt};
use ir_ast::{ConvertKind, Flags};

/// Whether a bit that is dropped is one.
fn drops_one(to: u32, n: u64) -> bool
    requires wide { 1 ≤ to }
    requires to { to ≤ 64 }
    ensures { result ≡ definition.drops_one to n }
{
    low(to, n) != n
}

/// Whether a bit that is dropped differs from the sign of the low bits.
fn drops_sign(from: u32, to: u32, n: u64) -> bool
    requires narrow { 1 ≤ from }
    requires from { from ≤ 64 }
    requires wide { 1 ≤ to }
    requires narrower { to ≤ from }
    ensures { result ≡ definition.drops_sign from to n }
{
    sext(to, from, low(to, n)) != n
}

fn convert_number(flags: Flags, kind: ConvertKind, from: u32, to: u32, n: u64) -> Made
    requires narrow { 1 ≤ from }
    requires from { from ≤ 64 }
    requires wide { 1 ≤ to }
    requires to { to ≤ 64 }
    requires number { n < 2 ^ from }
    requires narrower { definition.is_narrower kind from to ≡ true }
    ensures { result ≡ definition.convert_number flags kind from to n }
{
    match kind {
        ConvertKind::Trunc => unless(
            (flags.nuw && drops_one(to, n)) || (flags.nsw && drops_sign(from, to, n)),
            low(to, n),
        ),
        ConvertKind::Zext => unless(flags.nneg && slt(from, n, 0), n),
        ConvertKind::Sext => Made::Gives(Value::Number(sext(from, to, n))),
    }
}

fn convert_of(flags: Flags, kind: ConvertKind, from: u32, to: u32, a: Value) -> Made
    requires narrow { 1 ≤ from }
    requires from { from ≤ 64 }
    requires wide { 1 ≤ to }
    requires to { to ≤ 64 }
    requires takes { definition.takes from a ≡ true }
    requires narrower { definition.is_narrower kind from to ≡ true }
    ensures { result ≡ definition.convert_of flags kind from to a }
{
    match a {
        Value::Number(n) => convert_number(flags, kind, from, to, n),
        Value::Poison => Made::Gives(Value::Poison),
        Value::Null | Value::Address { .. } => Made::Lost,
    }
}

fn is_narrower(kind: ConvertKind, from: u32, to: u32) -> bool
    ensures { result ≡ definition.is_narrower kind from to }
{
    match kind {
        ConvertKind::Trunc => to < from,
        ConvertKind::Zext | ConvertKind::Sext => from < to,
    }
}

/// The number of another width: `trunc` keeps the low bits, `zext` puts zeros before them and `sext` copies of the sign. It is poison
/// with `nuw` where `trunc` drops a bit that is one, with `nsw` where it drops one that differs from the result's sign, and with `nneg`
/// where `zext` takes a negative number.
pub fn convert(flags: Flags, kind: ConvertKind, from: u32, to: u32, a: Value) -> Made
    ensures { result ≡ definition.convert flags kind from to a }
{
    if is_width(from) && is_width(to) && is_narrower(kind, from, to) && takes(from, a) {
        convert_of(flags, kind, from, to, a)
    } else {
        Made::Lost
    }
}

/// The operand itself; a run is stuck at poison (`U12`), since what it would be is not said.
pub fn freeze(a: Value) -> Made
    ensures { result ≡ definition.freeze a }
{
    match a {
        Value::Poison => Made::Sticks(StuckReason::U12),
        _ => Made::Gives(a),
    }
}

/// The operand that a condition chooses; the other one does not count.
pub fn select(condition: Value, a: Value, b: Value) -> Made
    ensures { result ≡ definition.select condition a b }
{
    match condition {
        Value::Number(0) => Made::Gives(b),
        Value::Number(1) => Made::Gives(a),
        Value::Poison => Made::Gives(Value::Poison),
        _ => Made::Lost,
    }
}
