//! Marks on the terms that a term reaches.

ghost use Rattle.std.specs.Prelude.{◌≡◌, ◌<◌, ◌≤◌, ◌+◌, ◌⊎◌, ℕ, true, length, IfOk};
ghost use Rattle.hk_term.specs.Walk.{PartsBefore};
ghost use Rattle.hk_copy.specs.Reach.{IsPart};
ghost use Rattle.hk_cone.specs.Cones.{is_marked, AreMarked};

use hk_term::{Node, TermId, Terms};
use std::alloc::{AllocError, Global};

fn mark(marks: &mut [bool], a: TermId)
    requires { a < length marks.old }
    ensures size { length marks.new ≡ length marks.old }
    ensures marked { (k : ℕ) → k ≡ a → is_marked marks.new k ≡ true }
    ensures kept { (k : ℕ) → is_marked marks.old k ≡ true → is_marked marks.new k ≡ true }
    ensures only { (k : ℕ) → is_marked marks.new k ≡ true → (is_marked marks.old k ≡ true) ⊎ (k ≡ a) }
{
    marks[a.place() as usize] = true;
}

// Marks the parts of a node.
fn mark_parts(marks: &mut [bool], node: &Node)
    requires { PartsBefore node.now (length marks.old) }
    ensures size { length marks.new ≡ length marks.old }
    ensures marked { (k : ℕ) → IsPart node.now k → is_marked marks.new k ≡ true }
    ensures kept { (k : ℕ) → is_marked marks.old k ≡ true → is_marked marks.new k ≡ true }
    ensures only { (k : ℕ) → is_marked marks.new k ≡ true → (is_marked marks.old k ≡ true) ⊎ IsPart node.now k }
{
    match node {
        Node::Const { .. } => {}
        Node::Var { .. } => {}
        Node::Select { index, .. } => mark(marks, *index),
        Node::Unary { a, .. } => mark(marks, *a),
        Node::Binary { a, b, .. } => {
            mark(marks, *a);
            mark(marks, *b);
        }
        Node::Choose { condition, a, b } => {
            mark(marks, *condition);
            mark(marks, *a);
            mark(marks, *b);
        }
        Node::Resize { a, .. } => mark(marks, *a),
        Node::ForAll { body, .. } => mark(marks, *body),
    }
}

// Marks the parts of a term that is marked.
fn mark_under(terms: &Terms, root: TermId, marks: &mut [bool], at: u64)
    requires root { root < length terms.now }
    requires there { at ≤ root }
    requires marks { AreMarked terms.now root (at + 1) marks.old }
    ensures marks { AreMarked terms.now root at marks.new }
{
    if marks[at as usize] {
        mark_parts(marks, terms.node(TermId::at(at)));
    }
}

// Marks what the marked terms reach: one pass downwards, since parts stand before their term.
fn mark_down(terms: &Terms, root: TermId, marks: &mut [bool])
    requires root { root < length terms.now }
    requires marks { AreMarked terms.now root (root + 1) marks.old }
    ensures { AreMarked terms.now root 0 marks.new }
{
    let mut at = root.place() + 1;
    'down: while at > 0 {
        at -= 1;
        mark_under(terms, root, marks, at);
    }
}

// The term alone is marked.
fn begun(alloc: Global, terms: &Terms, root: TermId) -> Result<Vec<bool>, AllocError>
    requires { root < length terms.now }
    ensures { IfOk result (λ marks. AreMarked terms.now root (root + 1) marks.items) }
{
    // For the proof: the list has fewer than 2^63 nodes.
    let _len = terms.len();
    let mut marks = vec![in alloc; false; root.place() as usize + 1]?;
    marks[root.place() as usize] = true;
    Ok(marks)
}

// Marks on what a term reaches, for it and all terms before it.
pub(crate) fn marked(alloc: Global, terms: &Terms, root: TermId) -> Result<Vec<bool>, AllocError>
    requires { root < length terms.now }
    ensures { IfOk result (λ marks. AreMarked terms.now root 0 marks.items) }
{
    let mut marks = begun(alloc, terms, root)?;
    mark_down(terms, root, &mut marks);
    Ok(marks)
}
