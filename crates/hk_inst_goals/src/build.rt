//! Goals over variables and entries of one array, each of two bits.

ghost use Rattle.std.specs.Prelude.{◌≡◌, ◌<◌, [], true, length, IfOk, OnOk, IfSome, IsTrue};
ghost use Rattle.hk_term.specs.Shape.{NodeFits, width};
ghost use Rattle.hk_inst.specs.Growing.{IsGoal};
ghost use Rattle.hk_inst_goals.specs.Narrow.{is_narrow, AreNarrow, IsStep};

use crate::step::{Step, step_of};
use hk_term::{Bound, BoundList, Node, TermId, TermKind, Terms, UnaryKind};
use std::alloc::{AllocError, Global};

/// Whether there is a term at a place.
fn is_there(terms: &Terms, place: u64) -> bool
    ensures { IsTrue result → place < length terms.now }
{
    place < terms.len()
}

/// Whether there are terms of one width at two places.
fn go_together(terms: &Terms, a: u64, b: u64) -> bool
    ensures first { IsTrue result → a < length terms.now }
    ensures second { IsTrue result → b < length terms.now }
    ensures same { IsTrue result → width terms.now a ≡ width terms.now b }
{
    is_there(terms, a)
        && is_there(terms, b)
        && terms.width(TermId::at(a)) == terms.width(TermId::at(b))
}

/// Whether there is a truth value at a place.
fn is_truth(terms: &Terms, place: u64) -> bool
    ensures there { IsTrue result → place < length terms.now }
    ensures truth { IsTrue result → width terms.now place ≡ 1 }
{
    is_there(terms, place) && terms.width(TermId::at(place)) == 1
}

/// A node over two terms of one width.
fn joined(terms: &Terms, kind: TermKind, a: u64, b: u64) -> Option<Node>
    ensures { IfSome result (IsStep terms.now) }
{
    if kind == TermKind::Concat || !go_together(terms, a, b) {
        return None;
    }
    Some(Node::Binary {
        kind,
        a: TermId::at(a),
        b: TermId::at(b),
    })
}

/// A choice.
fn chosen(terms: &Terms, condition: u64, a: u64, b: u64) -> Option<Node>
    ensures { IfSome result (IsStep terms.now) }
{
    if !is_truth(terms, condition) || !go_together(terms, a, b) {
        return None;
    }
    Some(Node::Choose {
        condition: TermId::at(condition),
        a: TermId::at(a),
        b: TermId::at(b),
    })
}

/// A quantifier over one variable.
fn every(
    alloc: Global,
    terms: &Terms,
    id: u64,
    size: u64,
    body: u64,
) -> Result<Option<Node>, AllocError>
    ensures { IfOk result (λ o. IfSome o (IsStep terms.now)) }
{
    if id > 1_000 || !is_truth(terms, body) {
        return Ok(None);
    }
    let bound = BoundList::from_vec(vec![in alloc;
        Bound {
            id: id as u32,
            size
        },
    ]?);
    Ok(Some(Node::ForAll {
        bound,
        body: TermId::at(body),
    }))
}

/// A variable, a number or a truth.
fn plain(terms: &Terms, step: Step) -> Option<Node>
    ensures { IfSome result (IsStep terms.now) }
{
    match step {
        Step::Variable(id) if id <= 1_000 => Some(Node::Var {
            width: 2,
            id: id as u32,
        }),
        Step::Number(value) if value < 4 => Some(Node::Const { width: 2, value }),
        Step::Truth(value) if value < 2 => Some(Node::Const { width: 1, value }),
        Step::Entry(index) if is_there(terms, index) => Some(Node::Select {
            array: 0,
            width: 2,
            index: TermId::at(index),
        }),
        Step::Not(a) if is_there(terms, a) => Some(Node::Unary {
            kind: UnaryKind::Not,
            a: TermId::at(a),
        }),
        _ => None,
    }
}

/// The node of a step, where it fits behind the list.
fn node_of(alloc: Global, terms: &Terms, step: Step) -> Result<Option<Node>, AllocError>
    ensures { IfOk result (λ o. IfSome o (IsStep terms.now)) }
{
    match step {
        Step::Join(kind, a, b) => Ok(joined(terms, kind, a, b)),
        Step::Choose(condition, a, b) => Ok(chosen(terms, condition, a, b)),
        Step::Every(id, size, body) => every(alloc, terms, id, size, body),
        _ => Ok(plain(terms, step)),
    }
}

/// Adds a node that fits.
fn put(terms: &mut Terms, node: Node) -> Result<TermId, AllocError>
    requires { IsStep terms.old node }
    ensures narrow { OnOk result (AreNarrow terms.old → AreNarrow terms.new) }
    ensures within { IfOk result (λ t. t < length terms.new) }
{
    let t = terms.intern(node)?;
    Ok(t)
}

/// Adds the node of a word. It is told whether the word writes one.
fn add(alloc: Global, terms: &mut Terms, word: &str) -> Result<bool, AllocError>
    ensures { OnOk result (AreNarrow terms.old → AreNarrow terms.new) }
{
    let Some(step) = step_of(alloc, word)? else {
        return Ok(false);
    };
    let Some(node) = node_of(alloc, terms, step)? else {
        return Ok(false);
    };
    put(terms, node)?;
    Ok(true)
}

/// Adds the nodes of a line.
fn add_all(alloc: Global, terms: &mut Terms, line: &str) -> Result<bool, AllocError>
    ensures { OnOk result (AreNarrow terms.old → AreNarrow terms.new) }
{
    let mut all = true;
    for word in line.split_whitespace() {
        let added = add(alloc, terms, word)?;
        all = all && added;
    }
    Ok(all)
}

/// The last term, where it is a truth value.
fn last_truth(terms: &Terms) -> Option<TermId>
    ensures within { IfSome result (λ t. t < length terms.now) }
    ensures truth { IfSome result (λ t. width terms.now t ≡ 1) }
{
    let len = terms.len();
    if len > 0 && is_truth(terms, len - 1) {
        return Some(TermId::at(len - 1));
    }
    None
}

/// The goal that a line writes, if it writes one: its last term.
pub(crate) fn goal_of(
    alloc: Global,
    terms: &mut Terms,
    line: &str,
) -> Result<Option<TermId>, AllocError>
    requires { terms.old ≡ [] }
    ensures within { IfOk result (λ o. IfSome o (λ t. t < length terms.new)) }
    ensures goal { IfOk result (λ o. IfSome o (λ t. IsGoal terms.new t)) }
{
    let all = add_all(alloc, terms, line)?;
    if !all {
        return Ok(None);
    }
    let goal = last_truth(terms);
    Ok(goal)
}
