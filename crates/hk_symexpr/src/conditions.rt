//! What a condition tells of terms.

ghost use Rattle.std.specs.Prelude.{◌≡◌, ◌<◌, ◌≤◌, All, length, IfSome};
ghost use Rattle.hk_term.specs.Shape.{width};
ghost use Rattle.hk_term.specs.Meaning.{Reading, value};
ghost use Rattle.hk_symexpr.specs.Naming.{AreLimited};

use crate::names::Limit;
use crate::ops::{constant, sized};
use hk_term::{Node, TermId, TermKind, Terms, UnaryKind};
use std::alloc::AllocError;

// How many nodes of a condition are looked at, at most.
const LOOKS: u32 = 256;

/// Puts what a condition, a truth, tells of terms behind what is known: where it is true, these have limits more. It looks at
/// conjunctions of bounds, and no further than 256 nodes.
pub fn learn(t: &Terms, condition: TermId, known: &mut Vec<Limit>) -> Result<(), AllocError>
    requires condition { condition < length t.now }
    requires truth { width t.now condition ≡ 1 }
    requires known { All (λ l. l.term < length t.now) known.old.items }
    ensures known { All (λ l. l.term < length t.now) known.new.items }
    ensures holds { (v : Reading) → value t.now condition v ≡ 1 → AreLimited t.now known.old.items v → AreLimited t.now known.new.items v }
{
    let mut looks = LOOKS;
    look(t, condition, known, &mut looks)
}

fn look(
    t: &Terms,
    condition: TermId,
    known: &mut Vec<Limit>,
    looks: &mut u32,
) -> Result<(), AllocError>
    requires condition { condition < length t.now }
    requires truth { width t.now condition ≡ 1 }
    requires known { All (λ l. l.term < length t.now) known.old.items }
    ensures known { All (λ l. l.term < length t.now) known.new.items }
    ensures holds { (v : Reading) → value t.now condition v ≡ 1 → AreLimited t.now known.old.items v → AreLimited t.now known.new.items v }
{
    if *looks == 0 {
        return Ok(());
    }
    *looks -= 1;
    match conjuncts(t, condition) {
        Some(both) => {
            look(t, both.0, known, looks)?;
            look(t, both.1, known, looks)
        }
        None => note_bound(t, condition, known),
    }
}

// The two truths that a truth is the conjunction of.
fn conjuncts(t: &Terms, condition: TermId) -> Option<(TermId, TermId)>
    requires condition { condition < length t.now }
    requires truth { width t.now condition ≡ 1 }
    ensures first { IfSome result (λ p. (p.0 < condition) × (width t.now p.0 ≡ 1) × ((v : Reading) → value t.now condition v ≡ 1 → value t.now p.0 v ≡ 1)) }
    ensures second { IfSome result (λ p. (p.1 < condition) × (width t.now p.1 ≡ 1) × ((v : Reading) → value t.now condition v ≡ 1 → value t.now p.1 v ≡ 1)) }
{
    match t.node(condition) {
        Node::Binary {
            kind: TermKind::And,
            a,
            b,
        } => {
            // For the proof: the numbers of both parts are below 2 to their widths.
            let _a = sized(t, *a);
            let _b = sized(t, *b);
            Some((*a, *b))
        }
        _ => None,
    }
}

// What a comparison with a number tells.
fn note_bound(t: &Terms, condition: TermId, known: &mut Vec<Limit>) -> Result<(), AllocError>
    requires condition { condition < length t.now }
    requires truth { width t.now condition ≡ 1 }
    requires known { All (λ l. l.term < length t.now) known.old.items }
    ensures known { All (λ l. l.term < length t.now) known.new.items }
    ensures holds { (v : Reading) → value t.now condition v ≡ 1 → AreLimited t.now known.old.items v → AreLimited t.now known.new.items v }
{
    match t.node(condition) {
        Node::Binary {
            kind: TermKind::Ult,
            a,
            b,
        } => note_less(t, *a, *b, known),
        Node::Binary {
            kind: TermKind::Eq,
            a,
            b,
        } => note_same(t, *a, *b, known),
        Node::Unary {
            kind: UnaryKind::Not,
            a,
        } => note_not(t, *a, known),
        _ => Ok(()),
    }
}

// A term has at most this number.
fn note(t: &Terms, term: TermId, most: u64, known: &mut Vec<Limit>) -> Result<(), AllocError>
    requires term { term < length t.now }
    requires known { All (λ l. l.term < length t.now) known.old.items }
    ensures known { All (λ l. l.term < length t.now) known.new.items }
    ensures holds { (v : Reading) → value t.now term v ≤ most → AreLimited t.now known.old.items v → AreLimited t.now known.new.items v }
{
    // For the proof: the clauses alone speak of the list.
    let _list = t;
    known.push(Limit { term, most })?;
    Ok(())
}

// The first of two terms is less.
fn note_less(t: &Terms, a: TermId, b: TermId, known: &mut Vec<Limit>) -> Result<(), AllocError>
    requires first { a < length t.now }
    requires second { b < length t.now }
    requires known { All (λ l. l.term < length t.now) known.old.items }
    ensures known { All (λ l. l.term < length t.now) known.new.items }
    ensures holds { (v : Reading) → value t.now a v < value t.now b v → AreLimited t.now known.old.items v → AreLimited t.now known.new.items v }
{
    match constant(t, b) {
        Some(n) => note(t, a, n.saturating_sub(1), known),
        None => Ok(()),
    }
}

// The first of two terms is not less.
fn note_not_less(t: &Terms, a: TermId, b: TermId, known: &mut Vec<Limit>) -> Result<(), AllocError>
    requires first { a < length t.now }
    requires second { b < length t.now }
    requires known { All (λ l. l.term < length t.now) known.old.items }
    ensures known { All (λ l. l.term < length t.now) known.new.items }
    ensures holds { (v : Reading) → value t.now b v ≤ value t.now a v → AreLimited t.now known.old.items v → AreLimited t.now known.new.items v }
{
    match constant(t, a) {
        Some(n) => note(t, b, n, known),
        None => Ok(()),
    }
}

// Two terms are equal.
fn note_same(t: &Terms, a: TermId, b: TermId, known: &mut Vec<Limit>) -> Result<(), AllocError>
    requires first { a < length t.now }
    requires second { b < length t.now }
    requires known { All (λ l. l.term < length t.now) known.old.items }
    ensures known { All (λ l. l.term < length t.now) known.new.items }
    ensures holds { (v : Reading) → value t.now a v ≡ value t.now b v → AreLimited t.now known.old.items v → AreLimited t.now known.new.items v }
{
    match constant(t, b) {
        Some(n) => note(t, a, n, known),
        None => Ok(()),
    }
}

// A truth is false.
fn note_not(t: &Terms, a: TermId, known: &mut Vec<Limit>) -> Result<(), AllocError>
    requires term { a < length t.now }
    requires truth { width t.now a ≡ 1 }
    requires known { All (λ l. l.term < length t.now) known.old.items }
    ensures known { All (λ l. l.term < length t.now) known.new.items }
    ensures holds { (v : Reading) → value t.now a v ≡ 0 → AreLimited t.now known.old.items v → AreLimited t.now known.new.items v }
{
    match t.node(a) {
        Node::Binary {
            kind: TermKind::Ult,
            a: x,
            b: y,
        } => note_not_less(t, *x, *y, known),
        _ => Ok(()),
    }
}
