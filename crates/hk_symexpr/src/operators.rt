//! The term of an operator from the terms of its operands.

ghost use Rattle.std.specs.Prelude.{◌≡◌, ℕ, ◌^◌, ◌<◌, ◌≤◌, ◌&&◌, ◌||◌, not, length, IfOk, IsTrue};
ghost use Rattle.hk_term.specs.Shape.{width};
ghost use Rattle.hk_term.specs.Meaning.{Reading, value};
ghost use Rattle.spec_tree.specs.Sorted.{FitsUn, FitsClass, FitsResize, class_of, class_width, resized_width};
ghost use Rattle.spec_tree.specs.Value.{bit, holds, un_value, bin_value, resize_value};
ghost use Rattle.hk_symexpr.specs.Sources.{Keeps};

use crate::ops;
use hk_term::{TermId, Terms};
use spec_ast::{BinKind, UnKind};
use spec_tree::ResizeKind;
use std::alloc::AllocError;

/// An operator with one operand.
pub(crate) fn unary(t: &mut Terms, kind: UnKind, a: TermId) -> Result<TermId, AllocError>
    requires term { a < length t.old }
    requires kind { FitsUn kind (width t.old a) }
    ensures within { IfOk result (λ r. r < length t.new) }
    ensures width { IfOk result (λ r. width t.new r ≡ width t.old a) }
    ensures value { IfOk result (λ r. (v : Reading) → value t.new r v ≡ un_value kind (width t.old a) (value t.old a v)) }
    ensures keeps { Keeps t.old t.new }
{
    // For the proof: the operand's width is from 1 to 64, and its number below 2 to it.
    let _a = ops::sized(t, a);
    match kind {
        UnKind::Minus => ops::neg(t, a),
        UnKind::Complement => ops::not(t, a),
        UnKind::Not => ops::not(t, a),
    }
}

/// Whether both of two truths hold.
pub(crate) fn both(t: &mut Terms, a: TermId, b: TermId) -> Result<TermId, AllocError>
    requires first { a < length t.old }
    requires second { b < length t.old }
    requires truth { width t.old a ≡ 1 }
    requires other { width t.old b ≡ 1 }
    ensures within { IfOk result (λ r. r < length t.new) }
    ensures width { IfOk result (λ r. width t.new r ≡ 1) }
    ensures value { IfOk result (λ r. (v : Reading) → value t.new r v ≡ bit (holds (value t.old a v) && holds (value t.old b v))) }
    ensures keeps { Keeps t.old t.new }
{
    // For the proof: the numbers of both truths are below 2 to their widths.
    let _a = ops::sized(t, a);
    let _b = ops::sized(t, b);
    ops::and(t, a, b)
}

/// Whether one of two truths holds.
pub(crate) fn either(t: &mut Terms, a: TermId, b: TermId) -> Result<TermId, AllocError>
    requires first { a < length t.old }
    requires second { b < length t.old }
    requires truth { width t.old a ≡ 1 }
    requires other { width t.old b ≡ 1 }
    ensures within { IfOk result (λ r. r < length t.new) }
    ensures width { IfOk result (λ r. width t.new r ≡ 1) }
    ensures value { IfOk result (λ r. (v : Reading) → value t.new r v ≡ bit (holds (value t.old a v) || holds (value t.old b v))) }
    ensures keeps { Keeps t.old t.new }
{
    // For the proof: the numbers of both truths are below 2 to their widths.
    let _a = ops::sized(t, a);
    let _b = ops::sized(t, b);
    ops::or(t, a, b)
}

/// Whether a truth does not hold.
pub(crate) fn negation(t: &mut Terms, a: TermId) -> Result<TermId, AllocError>
    requires term { a < length t.old }
    requires truth { width t.old a ≡ 1 }
    ensures within { IfOk result (λ r. r < length t.new) }
    ensures width { IfOk result (λ r. width t.new r ≡ 1) }
    ensures value { IfOk result (λ r. (v : Reading) → value t.new r v ≡ bit (not (holds (value t.old a v)))) }
    ensures keeps { Keeps t.old t.new }
{
    // For the proof: the truth's number is below 2 to its width.
    let _a = ops::sized(t, a);
    ops::not(t, a)
}

// Whether the first of two truths does not hold, or the second does.
fn implied(t: &mut Terms, a: TermId, b: TermId) -> Result<TermId, AllocError>
    requires first { a < length t.old }
    requires second { b < length t.old }
    requires truth { width t.old a ≡ 1 }
    requires other { width t.old b ≡ 1 }
    ensures within { IfOk result (λ r. r < length t.new) }
    ensures width { IfOk result (λ r. width t.new r ≡ 1) }
    ensures value { IfOk result (λ r. (v : Reading) → value t.new r v ≡ bit (not (holds (value t.old a v)) || holds (value t.old b v))) }
    ensures keeps { Keeps t.old t.new }
{
    let off = negation(t, a)?;
    let made = either(t, off, b)?;
    Ok(made)
}

// Whether two terms differ.
fn differ(t: &mut Terms, a: TermId, b: TermId) -> Result<TermId, AllocError>
    requires first { a < length t.old }
    requires second { b < length t.old }
    requires widths { width t.old a ≡ width t.old b }
    ensures within { IfOk result (λ r. r < length t.new) }
    ensures width { IfOk result (λ r. width t.new r ≡ 1) }
    ensures value { IfOk result (λ r. (v : Reading) → value t.new r v ≡ bin_value BinKind.Ne (width t.old a) (value t.old a v) (value t.old b v)) }
    ensures keeps { Keeps t.old t.new }
{
    let same = ops::eq(t, a, b)?;
    let made = negation(t, same)?;
    Ok(made)
}

// Whether the first of two terms is not less.
fn not_less(t: &mut Terms, a: TermId, b: TermId) -> Result<TermId, AllocError>
    requires first { a < length t.old }
    requires second { b < length t.old }
    requires widths { width t.old a ≡ width t.old b }
    ensures within { IfOk result (λ r. r < length t.new) }
    ensures width { IfOk result (λ r. width t.new r ≡ 1) }
    ensures value { IfOk result (λ r. (v : Reading) → value t.new r v ≡ bin_value BinKind.Uge (width t.old a) (value t.old a v) (value t.old b v)) }
    ensures keeps { Keeps t.old t.new }
{
    let less = ops::ult(t, a, b)?;
    let made = negation(t, less)?;
    Ok(made)
}

// Whether the signed reading of the first of two terms is not less.
fn not_below(t: &mut Terms, a: TermId, b: TermId) -> Result<TermId, AllocError>
    requires first { a < length t.old }
    requires second { b < length t.old }
    requires widths { width t.old a ≡ width t.old b }
    ensures within { IfOk result (λ r. r < length t.new) }
    ensures width { IfOk result (λ r. width t.new r ≡ 1) }
    ensures value { IfOk result (λ r. (v : Reading) → value t.new r v ≡ bin_value BinKind.Sge (width t.old a) (value t.old a v) (value t.old b v)) }
    ensures keeps { Keeps t.old t.new }
{
    let less = ops::slt(t, a, b)?;
    let made = negation(t, less)?;
    Ok(made)
}

/// Whether an operator is an implication, whose second operand counts where the first is true.
pub(crate) fn is_implication(kind: BinKind) -> bool
    ensures { IsTrue result → kind ≡ BinKind.Implies }
{
    match kind {
        BinKind::Implies => true,
        _ => false,
    }
}

/// An operator with two operands of one width.
pub(crate) fn binary(
    t: &mut Terms,
    kind: BinKind,
    a: TermId,
    b: TermId,
) -> Result<TermId, AllocError>
    requires first { a < length t.old }
    requires second { b < length t.old }
    requires widths { width t.old a ≡ width t.old b }
    requires kind { FitsClass (class_of kind) (width t.old a) }
    ensures within { IfOk result (λ r. r < length t.new) }
    ensures width { IfOk result (λ r. width t.new r ≡ class_width (class_of kind) (width t.old a)) }
    ensures value { IfOk result (λ r. (v : Reading) → value t.new r v ≡ bin_value kind (width t.old a) (value t.old a v) (value t.old b v)) }
    ensures keeps { Keeps t.old t.new }
{
    match kind {
        BinKind::Mul => ops::mul(t, a, b),
        BinKind::Add => ops::add(t, a, b),
        BinKind::Sub => ops::sub(t, a, b),
        BinKind::Shl => ops::shl(t, a, b),
        BinKind::Ashr => ops::ashr(t, a, b),
        BinKind::Lshr => ops::lshr(t, a, b),
        BinKind::BitAnd => ops::and(t, a, b),
        BinKind::BitXor => ops::xor(t, a, b),
        BinKind::BitOr => ops::or(t, a, b),
        BinKind::Udiv => ops::udiv(t, a, b),
        BinKind::Urem => ops::urem(t, a, b),
        BinKind::Eq => ops::eq(t, a, b),
        BinKind::Ne => differ(t, a, b),
        BinKind::Slt => ops::slt(t, a, b),
        BinKind::Sle => not_below(t, b, a),
        BinKind::Sgt => ops::slt(t, b, a),
        BinKind::Sge => not_below(t, a, b),
        BinKind::Ult => ops::ult(t, a, b),
        BinKind::Ule => not_less(t, b, a),
        BinKind::Ugt => ops::ult(t, b, a),
        BinKind::Uge => not_less(t, a, b),
        BinKind::Implies => implied(t, a, b),
    }
}

/// A change of width.
pub(crate) fn resize(t: &mut Terms, kind: ResizeKind, a: TermId) -> Result<TermId, AllocError>
    requires term { a < length t.old }
    requires kind { FitsResize kind (width t.old a) }
    ensures within { IfOk result (λ r. r < length t.new) }
    ensures width { IfOk result (λ r. width t.new r ≡ resized_width kind (width t.old a)) }
    ensures value { IfOk result (λ r. (v : Reading) → value t.new r v ≡ resize_value kind (width t.old a) (value t.old a v)) }
    ensures keeps { Keeps t.old t.new }
{
    let w = ops::sized(t, a);
    match kind {
        ResizeKind::ZeroExt(more) => ops::zero_extend(t, w + more, a),
        ResizeKind::SignExt(more) => ops::sign_extend(t, w + more, a),
        ResizeKind::Extract(high, low) => ops::extract(t, high, low, a),
    }
}
