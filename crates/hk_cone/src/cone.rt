//! A list with what one term reaches.

ghost use Rattle.std.specs.Prelude.{◌≡◌, ◌<◌, ◌≤◌, ◌+◌, ◌++◌, ◌∷◌, [], ℕ, true, length, slice_get, slice_index, Some, IfOk, OnOk};
ghost use Rattle.hk_term.specs.Shape.{width};
ghost use Rattle.hk_term.specs.Meaning.{Reading, value};
ghost use Rattle.hk_term.specs.Walk.{PartsBefore};
ghost use Rattle.hk_term.specs.declared.node.Node.{Node};
ghost use Rattle.hk_copy.specs.Making.{renewed};
ghost use Rattle.hk_cone.specs.Cones.{Reaches, IsRenewal, is_marked, AreClosedFrom, AreMarked, AreCopied};

use crate::marks::marked;
use hk_term::{Node, TermId, Terms};
use std::alloc::{AllocError, Global};

/// A term with what it reaches: the list has no other terms.
#[derive(Drop)]
pub struct Cone {
    pub terms: Terms,
    pub root: TermId,
}

// The place of a copy.
fn place_of(places: &[TermId], a: TermId) -> TermId
    requires { a < length places.now }
    ensures { result ≡ slice_index places.now a }
{
    places[a.place() as usize]
}

// A node over the copies of its parts.
fn renewed(alloc: Global, node: &Node, places: &[TermId]) -> Result<Node, AllocError>
    requires { PartsBefore node.now (length places.now) }
    ensures { IfOk result (λ n. n ≡ renewed (slice_index places.now) node.now) }
{
    match node {
        Node::Const { width, value } => Ok(Node::Const {
            width: *width,
            value: *value,
        }),
        Node::Var { width, id } => Ok(Node::Var {
            width: *width,
            id: *id,
        }),
        Node::Select {
            array,
            width,
            index,
        } => Ok(Node::Select {
            array: *array,
            width: *width,
            index: place_of(places, *index),
        }),
        Node::Unary { kind, a } => Ok(Node::Unary {
            kind: *kind,
            a: place_of(places, *a),
        }),
        Node::Binary { kind, a, b } => Ok(Node::Binary {
            kind: *kind,
            a: place_of(places, *a),
            b: place_of(places, *b),
        }),
        Node::Choose { condition, a, b } => Ok(Node::Choose {
            condition: place_of(places, *condition),
            a: place_of(places, *a),
            b: place_of(places, *b),
        }),
        Node::Resize { kind, to, a } => Ok(Node::Resize {
            kind: *kind,
            to: *to,
            a: place_of(places, *a),
        }),
        Node::ForAll { bound, body } => {
            let bound = bound.copy(alloc)?;
            Ok(Node::ForAll {
                bound,
                body: place_of(places, *body),
            })
        }
    }
}

// Copies a marked term behind the copies of its parts.
fn copy_one(
    alloc: Global,
    terms: &Terms,
    marks: &[bool],
    new: &mut Terms,
    places: &mut Vec<TermId>,
    at: u64,
) -> Result<(), AllocError>
    requires there { at < length terms.now }
    requires marked { is_marked marks.now at ≡ true }
    requires closed { AreClosedFrom terms.now marks.now 0 }
    requires next { length places.old.items ≡ at }
    requires copied { AreCopied terms.now marks.now new.old places.old.items }
    ensures next { OnOk result (length places.new.items ≡ at + 1) }
    ensures copied { OnOk result (AreCopied terms.now marks.now new.new places.new.items) }
{
    // For the proof: each node of the list fits behind those before it.
    let _len = terms.len();
    let node = renewed(alloc, terms.node(TermId::at(at)), places)?;
    let copy = new.intern(node)?;
    places.push(copy)?;
    Ok(())
}

// The place of a term that is not copied does not count.
fn skip_one(places: &mut Vec<TermId>) -> Result<(), AllocError>
    ensures { OnOk result (places.new.items ≡ places.old.items ++ 0 ∷ []) }
{
    places.push(TermId::at(0))?;
    Ok(())
}

// Copies the term at a place, where it is marked.
fn copy_where_marked(
    alloc: Global,
    terms: &Terms,
    marks: &[bool],
    new: &mut Terms,
    places: &mut Vec<TermId>,
    at: u64,
) -> Result<(), AllocError>
    requires there { at < length terms.now }
    requires mark { at < length marks.now }
    requires closed { AreClosedFrom terms.now marks.now 0 }
    requires next { length places.old.items ≡ at }
    requires copied { AreCopied terms.now marks.now new.old places.old.items }
    ensures next { OnOk result (length places.new.items ≡ at + 1) }
    ensures copied { OnOk result (AreCopied terms.now marks.now new.new places.new.items) }
{
    // For the proof: each node of the list fits behind those before it.
    let _len = terms.len();
    if marks[at as usize] {
        copy_one(alloc, terms, marks, new, places, at)
    } else {
        skip_one(places)?;
        Ok(())
    }
}

// Copies the marked terms in their order.
fn copied(
    alloc: Global,
    terms: &Terms,
    marks: &[bool],
    new: &mut Terms,
    places: &mut Vec<TermId>,
) -> Result<(), AllocError>
    requires there { length marks.now ≤ length terms.now }
    requires closed { AreClosedFrom terms.now marks.now 0 }
    requires first { new.old ≡ [] }
    requires none { places.old.items ≡ [] }
    ensures all { OnOk result (length places.new.items ≡ length marks.now) }
    ensures copied { OnOk result (AreCopied terms.now marks.now new.new places.new.items) }
{
    'each: for at in 0..marks.len() {
        copy_where_marked(alloc, terms, marks, new, places, at as u64)?;
    }
    Ok(())
}

/// The term with what it reaches, and nothing else, in the order of the list: a list of its own, and the term's place there. It takes
/// time linear in the list up to the term.
pub fn cone_of(alloc: Global, terms: &Terms, root: TermId) -> Result<Cone, AllocError>
    requires { root < length terms.now }
    ensures within { IfOk result (λ c. c.root < length c.terms) }
    ensures width { IfOk result (λ c. width c.terms c.root ≡ width terms.now root) }
    ensures value { IfOk result (λ c. (v : Reading) → value c.terms c.root v ≡ value terms.now root v) }
    ensures reached { IfOk result (λ c. (k : ℕ) → k < length c.terms → Reaches c.terms c.root k) }
    ensures nodes { IfOk result (λ c. (k : ℕ) (n : Node) → slice_get c.terms k ≡ Some n → IsRenewal terms.now n) }
{
    // For the proof: each node of the list fits behind those before it.
    let _len = terms.len();
    let marks = marked(alloc, terms, root)?;
    let mut cone = Terms::new(alloc);
    let mut places = Vec::new(alloc);
    copied(alloc, terms, &marks, &mut cone, &mut places)?;
    let root = place_of(&places, root);
    Ok(Cone { terms: cone, root })
}
