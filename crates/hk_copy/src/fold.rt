//! The number of an operation on constants.

ghost use Rattle.std.specs.Prelude.{◌≡◌, ◌^◌, ◌<◌, ◌≤◌, length, IfSome};
ghost use Rattle.hk_term.specs.Operations.{binary_width};
ghost use Rattle.hk_term.specs.Shape.{NodeFits, node_width, width};
ghost use Rattle.hk_term.specs.Meaning.{Reading, node_value, value};
ghost use Rattle.hk_copy.specs.Making.{IsFolded};

use hk_term::{Node, TermId, TermKind, Terms, apply_binary, apply_resize, apply_unary};

// A node that fits the list, or the constant that it is where all its parts are constants.
pub(crate) fn folded(terms: &Terms, node: Node) -> Node
    requires { NodeFits (length terms.now) (width terms.now) node }
    ensures { IsFolded terms.now node result }
{
    match number_of(terms, &node) {
        Some((width, value)) => Node::Const { width, value },
        None => node,
    }
}

// The width and the number of an operation whose parts are all constants.
fn number_of(terms: &Terms, node: &Node) -> Option<(u32, u64)>
    requires { NodeFits (length terms.now) (width terms.now) node.now }
    ensures width { IfSome result (λ p. p.0 ≡ node_width node.now (width terms.now)) }
    ensures number { IfSome result (λ p. (v : Reading) → node_value node.now (value terms.now) (width terms.now) v ≡ p.1) }
{
    match node {
        Node::Unary { kind, a } => {
            let w = terms.width(*a);
            let n = constant(terms, *a)?;
            Some((w, apply_unary(*kind, w, n)))
        }
        Node::Binary { kind, a, b } => {
            let w = terms.width(*a);
            let u = terms.width(*b);
            let m = constant(terms, *a)?;
            let n = constant(terms, *b)?;
            Some((result_width(*kind, w, u), apply_binary(*kind, w, u, m, n)))
        }
        Node::Choose { condition, a, b } => {
            let w = terms.width(*a);
            let truth = constant(terms, *condition)?;
            let m = constant(terms, *a)?;
            let n = constant(terms, *b)?;
            Some((w, if truth == 1 { m } else { n }))
        }
        Node::Resize { kind, to, a } => {
            let w = terms.width(*a);
            let n = constant(terms, *a)?;
            Some((*to, apply_resize(*kind, w, *to, n)))
        }
        _ => None,
    }
}

// The number of a constant.
fn constant(terms: &Terms, a: TermId) -> Option<u64>
    requires { a < length terms.now }
    ensures known { IfSome result (λ n. (v : Reading) → value terms.now a v ≡ n) }
    ensures below { IfSome result (λ n. n < 2 ^ width terms.now a) }
{
    match terms.node(a) {
        Node::Const { value, .. } => Some(*value),
        _ => None,
    }
}

// The width of an operation on two terms of these widths.
fn result_width(kind: TermKind, w: u32, u: u32) -> u32
    requires first { w ≤ 64 }
    requires second { u ≤ 64 }
    ensures { result ≡ binary_width kind w u }
{
    match kind {
        TermKind::Eq => 1,
        TermKind::Ult => 1,
        TermKind::Slt => 1,
        TermKind::Concat => w + u,
        _ => w,
    }
}
