//! The operations on numbers of a width, with SMT-LIB's meanings.

ghost use Rattle.std.specs.Prelude.{◌≡◌, ◌+◌, ◌-◌, ◌*◌, ◌/◌, ◌%◌, ◌^◌, ◌<◌, ◌≤◌};
ghost use Rattle.hk_term.specs.Operations.{unary_value, binary_value, BinaryFits, resize_value, ResizeFits, udiv_value, urem_value, sdiv_value, srem_value};
ghost use Rattle.hk_term.specs.Shape.{IsWidth};

use crate::node::{TermKind, TermResize, UnaryKind};

/// An operation on one number of width `w`.
pub fn apply_unary(kind: UnaryKind, w: u32, a: u64) -> u64
    requires width { IsWidth w }
    requires number { a < 2 ^ w }
    ensures { result ≡ unary_value kind w a }
{
    match kind {
        UnaryKind::Not => hk_num::sub(w, greatest(w), a),
        UnaryKind::Neg => hk_num::sub(w, 0, a),
    }
}

/// An operation on a number of width `w` and one of width `u`.
pub fn apply_binary(kind: TermKind, w: u32, u: u32, a: u64, b: u64) -> u64
    requires width { IsWidth w }
    requires fits { BinaryFits kind w u }
    requires first { a < 2 ^ w }
    requires second { b < 2 ^ u }
    ensures { result ≡ binary_value kind w u a b }
{
    match kind {
        TermKind::Add => hk_num::add(w, a, b),
        TermKind::Sub => hk_num::sub(w, a, b),
        TermKind::Mul => hk_num::mul(w, a, b),
        TermKind::Udiv => udiv(w, a, b),
        TermKind::Urem => urem(w, a, b),
        TermKind::Sdiv => sdiv(w, a, b),
        TermKind::Srem => srem(w, a, b),
        TermKind::Shl => hk_num::shl(w, a, b),
        TermKind::Lshr => hk_num::lshr(w, a, b),
        TermKind::Ashr => hk_num::ashr(w, a, b),
        TermKind::And => a & b,
        TermKind::Or => a | b,
        TermKind::Xor => a ^ b,
        TermKind::Eq => u64::from(a == b),
        TermKind::Ult => u64::from(hk_num::ult(w, a, b)),
        TermKind::Slt => u64::from(hk_num::slt(w, a, b)),
        TermKind::Concat => concat(w, u, a, b),
    }
}

/// A number of width `from` at the width `to`.
pub fn apply_resize(kind: TermResize, from: u32, to: u32, a: u64) -> u64
    requires width { IsWidth from }
    requires fits { ResizeFits kind from to }
    requires number { a < 2 ^ from }
    ensures { result ≡ resize_value kind from to a }
{
    match kind {
        TermResize::Zero => a,
        TermResize::Sign => hk_num::sext(from, to, a),
        TermResize::Extract { low } => extract(to, low, a),
    }
}

// The greatest number of a width.
fn greatest(w: u32) -> u64
    requires { IsWidth w }
    ensures { result ≡ 2 ^ w - 1 }
{
    u64::MAX >> (64 - w)
}

fn udiv(w: u32, a: u64, b: u64) -> u64
    requires width { IsWidth w }
    requires first { a < 2 ^ w }
    requires second { b < 2 ^ w }
    ensures { result ≡ udiv_value w a b }
{
    if b == 0 {
        greatest(w)
    } else {
        hk_num::udiv(w, a, b)
    }
}

fn urem(w: u32, a: u64, b: u64) -> u64
    requires width { IsWidth w }
    requires first { a < 2 ^ w }
    requires second { b < 2 ^ w }
    ensures { result ≡ urem_value w a b }
{
    if b == 0 { a } else { hk_num::urem(w, a, b) }
}

fn sdiv(w: u32, a: u64, b: u64) -> u64
    requires width { IsWidth w }
    requires first { a < 2 ^ w }
    requires second { b < 2 ^ w }
    ensures { result ≡ sdiv_value w a b }
{
    if b != 0 {
        hk_num::sdiv(w, a, b)
    } else if a < 1 << (w - 1) {
        greatest(w)
    } else {
        1
    }
}

fn srem(w: u32, a: u64, b: u64) -> u64
    requires width { IsWidth w }
    requires first { a < 2 ^ w }
    requires second { b < 2 ^ w }
    ensures { result ≡ srem_value w a b }
{
    if b == 0 { a } else { hk_num::srem(w, a, b) }
}

fn concat(w: u32, u: u32, a: u64, b: u64) -> u64
    requires width { 1 ≤ w }
    requires fits { w + u ≤ 64 }
    requires first { a < 2 ^ w }
    requires second { b < 2 ^ u }
    ensures { result ≡ a * 2 ^ u + b }
{
    (a << u) + b
}

fn extract(to: u32, low_bit: u32, a: u64) -> u64
    requires some { 1 ≤ to }
    requires within { low_bit + to ≤ 64 }
    ensures { result ≡ a / 2 ^ low_bit % 2 ^ to }
{
    low(to, a >> low_bit)
}

// The lowest bits of a number.
pub(crate) fn low(w: u32, n: u64) -> u64
    requires { IsWidth w }
    ensures { result ≡ n % 2 ^ w }
{
    n & greatest(w)
}
