//! The number of an expression from the numbers of its parts.

ghost use Rattle.std.specs.Prelude.{◌≡◌, ◌<◌, ◌≤◌, ◌^◌, ◌+◌, ◌*◌};
ghost use Rattle.spec_tree.specs.Sorted.{IsWidth, FitsUn, FitsClass, FitsResize, class_of, class_width, resized_width};
ghost use Rattle.spec_tree.specs.Value.{un_value, bin_value, resize_value};

use crate::reading::Number;
use spec_ast::{BinKind, UnKind};
use spec_tree::ResizeKind;
use spec_value::{binary, resize, unary};

/// The number of a width.
pub(crate) fn number(width: u32, bits: u64) -> Number
    ensures width { result.width ≡ width }
    ensures bits { result.bits ≡ bits }
{
    Number { width, bits }
}

/// The number of an operator with one operand.
pub(crate) fn unary_of(kind: UnKind, a: Number) -> Number
    requires wide { IsWidth a.width }
    requires kind { FitsUn kind a.width }
    requires fits { a.bits < 2 ^ a.width }
    ensures width { result.width ≡ a.width }
    ensures bits { result.bits ≡ un_value kind a.width a.bits }
{
    number(a.width, unary(kind, a.width, a.bits))
}

// The width of an operator's number over operands of this width.
fn width_over(kind: BinKind, width: u32) -> u32
    ensures { result ≡ class_width (class_of kind) width }
{
    match kind {
        BinKind::Mul => width,
        BinKind::Add => width,
        BinKind::Sub => width,
        BinKind::Shl => width,
        BinKind::Ashr => width,
        BinKind::Lshr => width,
        BinKind::BitAnd => width,
        BinKind::BitXor => width,
        BinKind::BitOr => width,
        BinKind::Udiv => width,
        BinKind::Urem => width,
        BinKind::Eq => 1,
        BinKind::Ne => 1,
        BinKind::Slt => 1,
        BinKind::Sle => 1,
        BinKind::Sgt => 1,
        BinKind::Sge => 1,
        BinKind::Ult => 1,
        BinKind::Ule => 1,
        BinKind::Ugt => 1,
        BinKind::Uge => 1,
        BinKind::Implies => 1,
    }
}

/// The number of an operator with two operands.
pub(crate) fn binary_of(kind: BinKind, a: Number, b: Number) -> Number
    requires wide { IsWidth a.width }
    requires kind { FitsClass (class_of kind) a.width }
    requires first { a.bits < 2 ^ a.width }
    requires second { b.bits < 2 ^ a.width }
    ensures width { result.width ≡ class_width (class_of kind) a.width }
    ensures bits { result.bits ≡ bin_value kind a.width a.bits b.bits }
{
    number(
        width_over(kind, a.width),
        binary(kind, a.width, a.bits, b.bits),
    )
}

fn resized_to(kind: ResizeKind, width: u32) -> u32
    requires kind { FitsResize kind width }
    requires within { width ≤ 64 }
    ensures { result ≡ resized_width kind width }
{
    match kind {
        ResizeKind::ZeroExt(more) => width + more,
        ResizeKind::SignExt(more) => width + more,
        ResizeKind::Extract(high, low) => high - low + 1,
    }
}

/// The number of a change of width.
pub(crate) fn resized(kind: ResizeKind, a: Number) -> Number
    requires wide { IsWidth a.width }
    requires kind { FitsResize kind a.width }
    requires fits { a.bits < 2 ^ a.width }
    ensures width { result.width ≡ resized_width kind a.width }
    ensures bits { result.bits ≡ resize_value kind a.width a.bits }
{
    number(resized_to(kind, a.width), resize(kind, a.width, a.bits))
}
