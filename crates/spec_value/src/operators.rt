//! The operators on numbers, as SMT-LIB's theory of fixed-size bit-vectors has them. They take no memory.

ghost use Rattle.std.specs.Prelude.{◌≡◌, ◌-◌, ◌+◌, ◌%◌, ◌^◌, ◌<◌, ◌≤◌};
ghost use Rattle.spec_ast.specs.declared.kind.UnKind.TheVariants.{Minus, Complement};
ghost use Rattle.spec_ast.specs.declared.kind.BinKind.TheVariants.{Udiv, Urem};
ghost use Rattle.spec_tree.specs.declared.expr.ResizeKind.TheVariants.{Extract};
ghost use Rattle.spec_tree.specs.Sorted.{FitsUn, FitsClass, FitsResize, class_of};
ghost use Rattle.spec_tree.specs.Value.{bit, holds, un_value, bin_value, resize_value};

use hk_num::{add, ashr, lshr, mul, sext, shl, slt, sub, udiv, urem};
use spec_ast::{BinKind, UnKind};
use spec_tree::ResizeKind;

/// A truth as a number of width 1.
pub fn truth(b: bool) -> u64
    ensures { result ≡ bit b }
{
    if b { 1 } else { 0 }
}

/// Whether a number is a truth that holds.
pub fn is_true(n: u64) -> bool
    ensures { result ≡ holds n }
{
    n != 0
}

// The greatest number of a width.
fn ones(w: u32) -> u64
    requires width { 1 ≤ w }
    requires within { w ≤ 64 }
    ensures { result ≡ 2 ^ w - 1 }
{
    u64::MAX >> (64 - w)
}

// The lowest bits of a number.
fn low(w: u32, n: u64) -> u64
    requires width { 1 ≤ w }
    requires within { w ≤ 64 }
    ensures { result ≡ n % 2 ^ w }
{
    n & ones(w)
}

fn negated(w: u32, a: u64) -> u64
    requires width { 1 ≤ w }
    requires within { w ≤ 64 }
    requires fits { a < 2 ^ w }
    ensures { result ≡ un_value Minus w a }
{
    sub(w, 0, a)
}

fn complement(w: u32, a: u64) -> u64
    requires width { 1 ≤ w }
    requires within { w ≤ 64 }
    requires fits { a < 2 ^ w }
    ensures { result ≡ un_value Complement w a }
{
    ones(w) - a
}

/// The number of an operator with one operand of width `w`.
pub fn unary(kind: UnKind, w: u32, a: u64) -> u64
    requires width { 1 ≤ w }
    requires within { w ≤ 64 }
    requires kind { FitsUn kind w }
    requires fits { a < 2 ^ w }
    ensures { result ≡ un_value kind w a }
{
    match kind {
        UnKind::Minus => negated(w, a),
        UnKind::Complement => complement(w, a),
        UnKind::Not => 1 - a,
    }
}

fn divided(w: u32, a: u64, b: u64) -> u64
    requires width { 1 ≤ w }
    requires within { w ≤ 64 }
    requires first { a < 2 ^ w }
    requires second { b < 2 ^ w }
    ensures { result ≡ bin_value Udiv w a b }
{
    if b == 0 { ones(w) } else { udiv(w, a, b) }
}

fn remainder(w: u32, a: u64, b: u64) -> u64
    requires width { 1 ≤ w }
    requires within { w ≤ 64 }
    requires first { a < 2 ^ w }
    requires second { b < 2 ^ w }
    ensures { result ≡ bin_value Urem w a b }
{
    if b == 0 { a } else { urem(w, a, b) }
}

/// The number of an operator with two operands of width `w`.
pub fn binary(kind: BinKind, w: u32, a: u64, b: u64) -> u64
    requires width { 1 ≤ w }
    requires within { w ≤ 64 }
    requires kind { FitsClass (class_of kind) w }
    requires first { a < 2 ^ w }
    requires second { b < 2 ^ w }
    ensures { result ≡ bin_value kind w a b }
{
    match kind {
        BinKind::Mul => mul(w, a, b),
        BinKind::Add => add(w, a, b),
        BinKind::Sub => sub(w, a, b),
        BinKind::Shl => shl(w, a, b),
        BinKind::Ashr => ashr(w, a, b),
        BinKind::Lshr => lshr(w, a, b),
        BinKind::BitAnd => a & b,
        BinKind::BitXor => a ^ b,
        BinKind::BitOr => a | b,
        BinKind::Udiv => divided(w, a, b),
        BinKind::Urem => remainder(w, a, b),
        BinKind::Eq => truth(a == b),
        BinKind::Ne => truth(a != b),
        BinKind::Slt => truth(slt(w, a, b)),
        BinKind::Sle => truth(!slt(w, b, a)),
        BinKind::Sgt => truth(slt(w, b, a)),
        BinKind::Sge => truth(!slt(w, a, b)),
        BinKind::Ult => truth(a < b),
        BinKind::Ule => truth(a <= b),
        BinKind::Ugt => truth(b < a),
        BinKind::Uge => truth(b <= a),
        BinKind::Implies => truth(!is_true(a) || is_true(b)),
    }
}

fn extracted(high: u32, at: u32, a: u64) -> u64
    requires order { at ≤ high }
    requires within { high < 64 }
    ensures { result ≡ resize_value (Extract high at) 64 a }
{
    low(high - at + 1, a >> at)
}

/// The number of a change of width from `w`.
pub fn resize(kind: ResizeKind, w: u32, a: u64) -> u64
    requires width { 1 ≤ w }
    requires within { w ≤ 64 }
    requires kind { FitsResize kind w }
    requires fits { a < 2 ^ w }
    ensures { result ≡ resize_value kind w a }
{
    match kind {
        ResizeKind::ZeroExt(_) => a,
        ResizeKind::SignExt(more) => sext(w, w + more, a),
        ResizeKind::Extract(high, low) => extracted(high, low, a),
    }
}
