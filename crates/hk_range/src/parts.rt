//! What a term is made of: a number, a multiple, a sum or a difference of other terms over the whole numbers, where the ranges
//! say that nothing passes the width.

ghost use Rattle.std.specs.Prelude.{◌≡◌, ℕ, ◌+◌, ◌-◌, ◌*◌, ◌/◌, ◌%◌, ◌^◌, ◌<◌, ◌≤◌, length, IsTrue, IfSome};
ghost use Rattle.hk_term.specs.Operations.{binary_value, resize_value, ResizeFits};
ghost use Rattle.hk_term.specs.Shape.{IsWidth, width};
ghost use Rattle.hk_term.specs.Meaning.{Reading, value};
ghost use Rattle.hk_range.specs.Ranges.{InRange, Knows};
ghost use Rattle.hk_range.specs.Linear.{IsMadeOf};
ghost use Rattle.hk_range.specs.declared.known.Known.{Known};

use crate::known::Known;
use crate::of::{range_of, sized};
use crate::range::{Range, greatest};
use hk_term::{Node, TermId, TermKind, TermResize, Terms};

/// A number; so many times a term; so many times a term, and another term; a term without another term; or the term itself.
#[derive(Clone, Copy, Debug)]
pub(crate) enum Parts {
    Number(u64),
    Times(TermId, u64),
    Linear(TermId, u64, TermId),
    Minus(TermId, TermId),
    Whole,
}

/// How many terms are looked at for a range, at most.
pub(crate) const LOOKS: u32 = 64;

/// What a term is made of.
pub(crate) fn parts_of(t: &Terms, known: &Known, a: TermId) -> Parts
    requires { a < length t.now }
    ensures { IsMadeOf t.now known.now a result }
{
    match t.node(a) {
        Node::Const { value, .. } => Parts::Number(*value),
        Node::Resize { kind, to, a: x } => resized_parts(t, known, *kind, *to, *x),
        Node::Binary { kind, a: x, b: y } => binary_parts(t, known, *kind, *x, *y),
        _ => Parts::Whole,
    }
}

fn resized_parts(t: &Terms, known: &Known, kind: TermResize, to: u32, x: TermId) -> Parts
    requires term { x < length t.now }
    requires fits { ResizeFits kind (width t.now x) to }
    ensures { (a : ℕ) → ((v : Reading) → value t.now a v ≡ resize_value kind (width t.now x) to (value t.now x v)) → IsMadeOf t.now known.now a result }
{
    // For the proof: the term's width is from 1 to 64.
    let _w = sized(t, x);
    match kind {
        TermResize::Zero => Parts::Times(x, 1),
        TermResize::Extract { low } => low_part(t, known, low, to, x),
        TermResize::Sign => Parts::Whole,
    }
}

// The lowest bits of a term that has no others.
fn low_part(t: &Terms, known: &Known, low: u32, to: u32, x: TermId) -> Parts
    requires term { x < length t.now }
    requires width { IsWidth to }
    ensures { (a : ℕ) → ((v : Reading) → value t.now a v ≡ value t.now x v / 2 ^ low % 2 ^ to) → IsMadeOf t.now known.now a result }
{
    let p = range_of(t, known, x, LOOKS);
    if low == 0 && p.hi <= greatest(to) {
        Parts::Times(x, 1)
    } else {
        Parts::Whole
    }
}

fn binary_parts(t: &Terms, known: &Known, kind: TermKind, x: TermId, y: TermId) -> Parts
    requires first { x < length t.now }
    requires second { y < length t.now }
    ensures { (a : ℕ) → ((v : Reading) → value t.now a v ≡ binary_value kind (width t.now x) (width t.now y) (value t.now x v) (value t.now y v)) → IsMadeOf t.now known.now a result }
{
    match kind {
        TermKind::Add => sum_parts(t, known, x, y),
        TermKind::Sub => difference_parts(t, known, x, y),
        TermKind::Mul => product_parts(t, known, x, y),
        TermKind::Shl => shift_parts(t, known, x, y),
        TermKind::Concat => joined_parts(t, x, y),
        _ => Parts::Whole,
    }
}

fn sum_parts(t: &Terms, known: &Known, x: TermId, y: TermId) -> Parts
    requires first { x < length t.now }
    requires second { y < length t.now }
    ensures { (a : ℕ) → ((v : Reading) → value t.now a v ≡ (value t.now x v + value t.now y v) % 2 ^ width t.now x) → IsMadeOf t.now known.now a result }
{
    let w = sized(t, x);
    let p = range_of(t, known, x, LOOKS);
    let q = range_of(t, known, y, LOOKS);
    if sum_fits(w, p, q) {
        Parts::Linear(x, 1, y)
    } else {
        Parts::Whole
    }
}

// Whether all sums have a width.
fn sum_fits(w: u32, p: Range, q: Range) -> bool
    requires { IsWidth w }
    ensures { IsTrue result → (a b : ℕ) → InRange p a → InRange q b → (a + b) % 2 ^ w ≡ a + b }
{
    match p.hi.checked_add(q.hi) {
        Some(hi) => hi <= greatest(w),
        None => false,
    }
}

fn difference_parts(t: &Terms, known: &Known, x: TermId, y: TermId) -> Parts
    requires first { x < length t.now }
    requires second { y < length t.now }
    ensures { (a : ℕ) → ((v : Reading) → value t.now a v ≡ (2 ^ width t.now x + value t.now x v - value t.now y v) % 2 ^ width t.now x) → IsMadeOf t.now known.now a result }
{
    // For the proof: the first term's numbers are below 2 to its width.
    let _w = sized(t, x);
    let p = range_of(t, known, x, LOOKS);
    let q = range_of(t, known, y, LOOKS);
    if q.hi <= p.lo {
        Parts::Minus(x, y)
    } else {
        Parts::Whole
    }
}

fn product_parts(t: &Terms, known: &Known, x: TermId, y: TermId) -> Parts
    requires first { x < length t.now }
    requires second { y < length t.now }
    ensures { (a : ℕ) → ((v : Reading) → value t.now a v ≡ (value t.now x v * value t.now y v) % 2 ^ width t.now x) → IsMadeOf t.now known.now a result }
{
    match (constant(t, x), constant(t, y)) {
        (_, Some(n)) => multiple(t, known, sized(t, x), x, n),
        (Some(n), None) => multiple(t, known, sized(t, x), y, n),
        _ => Parts::Whole,
    }
}

// A number times a term, where all products have a width.
fn multiple(t: &Terms, known: &Known, w: u32, x: TermId, n: u64) -> Parts
    requires term { x < length t.now }
    requires width { IsWidth w }
    ensures { (a : ℕ) → ((v : Reading) → value t.now a v ≡ (n * value t.now x v) % 2 ^ w) → IsMadeOf t.now known.now a result }
{
    let p = range_of(t, known, x, LOOKS);
    if product_fits(w, p, n) {
        Parts::Times(x, n)
    } else {
        Parts::Whole
    }
}

// Whether all products with a number have a width.
fn product_fits(w: u32, p: Range, n: u64) -> bool
    requires { IsWidth w }
    ensures { IsTrue result → (a : ℕ) → InRange p a → (n * a) % 2 ^ w ≡ n * a }
{
    match n.checked_mul(p.hi) {
        Some(hi) => hi <= greatest(w),
        None => false,
    }
}

fn shift_parts(t: &Terms, known: &Known, x: TermId, y: TermId) -> Parts
    requires first { x < length t.now }
    requires second { y < length t.now }
    ensures { (a : ℕ) → ((v : Reading) → value t.now a v ≡ (value t.now x v * 2 ^ value t.now y v) % 2 ^ width t.now x) → IsMadeOf t.now known.now a result }
{
    match constant(t, y) {
        Some(n) if n < 64 => multiple(t, known, sized(t, x), x, 1 << n),
        _ => Parts::Whole,
    }
}

fn joined_parts(t: &Terms, x: TermId, y: TermId) -> Parts
    requires first { x < length t.now }
    requires second { y < length t.now }
    ensures { (known : Known) (a : ℕ) → ((v : Reading) → value t.now a v ≡ value t.now x v * 2 ^ width t.now y + value t.now y v) → IsMadeOf t.now known a result }
{
    let u = sized(t, y);
    if u < 64 {
        Parts::Linear(x, 1 << u, y)
    } else {
        Parts::Whole
    }
}

/// The number of a constant.
pub(crate) fn constant(t: &Terms, a: TermId) -> Option<u64>
    requires { a < length t.now }
    ensures known { IfSome result (λ n. (v : Reading) → value t.now a v ≡ n) }
{
    match t.node(a) {
        Node::Const { value, .. } => Some(*value),
        _ => None,
    }
}
