//! Terms over the topmost terms of a stack.

ghost use Rattle.std.specs.Prelude.{◌≡◌, ◌<◌, ◌≤◌, ◌-◌, ◌^◌, length, IfSome, IsTrue};
ghost use Rattle.hk_term.specs.Operations.{BinaryFits};
ghost use Rattle.hk_term.specs.Shape.{IsWidth, width};

use hk_simplify::*;
use hk_term::{BoundList, Node, TermId, TermKind, TermResize, Terms, UnaryKind};
use std::alloc::AllocError;

/// How a term is made of its parts: as a node of its own, or by the simplifying constructors.
#[derive(Clone, Copy, Debug, PartialEq, Eq)]
pub enum Making {
    Plain,
    Simplified,
}

/// The topmost term of the stack, where it is one of the list.
pub(crate) fn taken(terms: &Terms, stack: &mut Vec<TermId>) -> Option<TermId>
    ensures { IfSome result (λ t. t < length terms.now) }
{
    let t = stack.pop()?;
    if t.place() < terms.len() {
        Some(t)
    } else {
        None
    }
}

/// The greatest number of a width.
fn greatest(w: u32) -> u64
    requires { IsWidth w }
    ensures { result ≡ 2 ^ w - 1 }
{
    u64::MAX >> (64 - w)
}

/// A number of a width.
pub(crate) fn number(
    terms: &mut Terms,
    width: u32,
    value: u64,
) -> Result<Option<TermId>, AllocError> {
    if width < 1 || width > 64 || value > greatest(width) {
        return Ok(None);
    }
    let t = terms.intern(Node::Const { width, value })?;
    Ok(Some(t))
}

/// A variable.
pub(crate) fn variable(
    terms: &mut Terms,
    width: u32,
    id: u32,
) -> Result<Option<TermId>, AllocError> {
    if width < 1 || width > 64 {
        return Ok(None);
    }
    let t = terms.intern(Node::Var { width, id })?;
    Ok(Some(t))
}

/// An entry of an array.
pub(crate) fn entry(
    terms: &mut Terms,
    array: u32,
    width: u32,
    index: TermId,
) -> Result<Option<TermId>, AllocError>
    requires { index < length terms.old }
{
    if width < 1 || width > 64 {
        return Ok(None);
    }
    let t = terms.intern(Node::Select {
        array,
        width,
        index,
    })?;
    Ok(Some(t))
}

/// The complement, or the two's complement, of a term.
pub(crate) fn turned(
    terms: &mut Terms,
    making: Making,
    kind: UnaryKind,
    a: TermId,
) -> Result<TermId, AllocError>
    requires { a < length terms.old }
{
    match (making, kind) {
        (Making::Plain, _) => terms.intern(Node::Unary { kind, a }),
        (Making::Simplified, UnaryKind::Not) => not(terms, a),
        (Making::Simplified, UnaryKind::Neg) => neg(terms, a),
    }
}

/// Whether an operation takes terms of these widths.
fn fits(kind: TermKind, w: u32, u: u32) -> bool
    requires first { w ≤ 64 }
    requires second { u ≤ 64 }
    ensures { IsTrue result → BinaryFits kind w u }
{
    match kind {
        TermKind::Concat => w + u <= 64,
        _ => w == u,
    }
}

/// An operation by its constructor.
fn constructed(
    terms: &mut Terms,
    kind: TermKind,
    a: TermId,
    b: TermId,
) -> Result<TermId, AllocError>
    requires first { a < length terms.old }
    requires second { b < length terms.old }
    requires fits { BinaryFits kind (width terms.old a) (width terms.old b) }
{
    match kind {
        TermKind::Add => add(terms, a, b),
        TermKind::Sub => sub(terms, a, b),
        TermKind::Mul => mul(terms, a, b),
        TermKind::Udiv => udiv(terms, a, b),
        TermKind::Urem => urem(terms, a, b),
        TermKind::Sdiv => sdiv(terms, a, b),
        TermKind::Srem => srem(terms, a, b),
        TermKind::Shl => shl(terms, a, b),
        TermKind::Lshr => lshr(terms, a, b),
        TermKind::Ashr => ashr(terms, a, b),
        TermKind::And => and(terms, a, b),
        TermKind::Or => or(terms, a, b),
        TermKind::Xor => xor(terms, a, b),
        TermKind::Eq => eq(terms, a, b),
        TermKind::Ult => ult(terms, a, b),
        TermKind::Slt => slt(terms, a, b),
        TermKind::Concat => concat(terms, a, b),
    }
}

/// An operation on two terms, where it takes terms of their widths.
pub(crate) fn joined(
    terms: &mut Terms,
    making: Making,
    kind: TermKind,
    a: TermId,
    b: TermId,
) -> Result<Option<TermId>, AllocError>
    requires first { a < length terms.old }
    requires second { b < length terms.old }
{
    if !fits(kind, terms.width(a), terms.width(b)) {
        return Ok(None);
    }
    let t = match making {
        Making::Plain => terms.intern(Node::Binary { kind, a, b })?,
        Making::Simplified => constructed(terms, kind, a, b)?,
    };
    Ok(Some(t))
}

/// A choice, where its condition is a truth value and its terms have one width.
pub(crate) fn chosen(
    terms: &mut Terms,
    making: Making,
    condition: TermId,
    a: TermId,
    b: TermId,
) -> Result<Option<TermId>, AllocError>
    requires condition { condition < length terms.old }
    requires first { a < length terms.old }
    requires second { b < length terms.old }
{
    if terms.width(condition) != 1 || terms.width(a) != terms.width(b) {
        return Ok(None);
    }
    let t = match making {
        Making::Plain => terms.intern(Node::Choose { condition, a, b })?,
        Making::Simplified => choose(terms, condition, a, b)?,
    };
    Ok(Some(t))
}

/// A term with zeros, or with copies of its sign, above.
pub(crate) fn extended(
    terms: &mut Terms,
    making: Making,
    signed: bool,
    to: u32,
    a: TermId,
) -> Result<Option<TermId>, AllocError>
    requires { a < length terms.old }
{
    if to < terms.width(a) || to > 64 {
        return Ok(None);
    }
    let t = match (making, signed) {
        (Making::Plain, false) => terms.intern(Node::Resize {
            kind: TermResize::Zero,
            to,
            a,
        })?,
        (Making::Plain, true) => terms.intern(Node::Resize {
            kind: TermResize::Sign,
            to,
            a,
        })?,
        (Making::Simplified, false) => zero_extend(terms, to, a)?,
        (Making::Simplified, true) => sign_extend(terms, to, a)?,
    };
    Ok(Some(t))
}

/// The bits of a term from the highest down to the lowest.
pub(crate) fn cut(
    terms: &mut Terms,
    making: Making,
    high: u32,
    low: u32,
    a: TermId,
) -> Result<Option<TermId>, AllocError>
    requires { a < length terms.old }
{
    if high < low || terms.width(a) <= high {
        return Ok(None);
    }
    let t = match making {
        Making::Plain => terms.intern(Node::Resize {
            kind: TermResize::Extract { low },
            to: high - low + 1,
            a,
        })?,
        Making::Simplified => extract(terms, high, low, a)?,
    };
    Ok(Some(t))
}

/// A quantifier, where its body is a truth value.
pub(crate) fn quantified(
    terms: &mut Terms,
    making: Making,
    bound: BoundList,
    body: TermId,
) -> Result<Option<TermId>, AllocError>
    requires { body < length terms.old }
{
    if terms.width(body) != 1 {
        return Ok(None);
    }
    let t = match making {
        Making::Plain => terms.intern(Node::ForAll { bound, body })?,
        Making::Simplified => for_all(terms, bound, body)?,
    };
    Ok(Some(t))
}
