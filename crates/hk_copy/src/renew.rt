//! A node over the copies of its parts.

ghost use Rattle.std.specs.Prelude.{◌≡◌, IfOk, IfErr, OnOk, None};
ghost use Rattle.std.specs.BTreeMap as tree;
ghost use Rattle.std.specs.Ordering.{nat_cmp};
ghost use Rattle.hk_term.specs.Walk.{IsGround};
ghost use Rattle.hk_copy.specs.Reach.{IsPart};
ghost use Rattle.hk_copy.specs.Making.{copy_in, HasCopy, PartsIn, renewed};

use hk_term::{Node, TermId};
use std::collections::BTreeMap;

// The copy of a term, or the term where it has none yet.
pub(crate) fn copy_of(copies: &BTreeMap<u64, TermId>, a: TermId) -> Result<TermId, TermId>
    ensures ok { IfOk result (λ r. r ≡ copy_in copies.now a) }
    ensures there { OnOk result (HasCopy copies.now a) }
    ensures waits { IfErr result (λ p. (p ≡ a) × (tree.get nat_cmp copies.now a ≡ None)) }
{
    match copies.get(&a.place()) {
        Some(copy) => Ok(*copy),
        None => Err(a),
    }
}

// The node of an operation, a constant or a read over the copies of its parts, or the first part that has none yet.
pub(crate) fn renewed(node: &Node, copies: &BTreeMap<u64, TermId>) -> Result<Node, TermId>
    requires { IsGround node.now }
    ensures ok { IfOk result (λ n. n ≡ renewed (copy_in copies.now) node.now) }
    ensures parts { OnOk result (PartsIn copies.now node.now) }
    ensures waits { IfErr result (λ p. (IsPart node.now p) × (tree.get nat_cmp copies.now p ≡ None)) }
{
    match node {
        Node::Const { width, value } => Ok(Node::Const {
            width: *width,
            value: *value,
        }),
        Node::Var { width, id } => Ok(Node::Var {
            width: *width,
            id: *id,
        }),
        Node::Select {
            array,
            width,
            index,
        } => {
            let index = copy_of(copies, *index)?;
            Ok(Node::Select {
                array: *array,
                width: *width,
                index,
            })
        }
        Node::Unary { kind, a } => {
            let a = copy_of(copies, *a)?;
            Ok(Node::Unary { kind: *kind, a })
        }
        Node::Binary { kind, a, b } => {
            let a = copy_of(copies, *a)?;
            let b = copy_of(copies, *b)?;
            Ok(Node::Binary { kind: *kind, a, b })
        }
        Node::Choose { condition, a, b } => {
            let condition = copy_of(copies, *condition)?;
            let a = copy_of(copies, *a)?;
            let b = copy_of(copies, *b)?;
            Ok(Node::Choose { condition, a, b })
        }
        Node::Resize { kind, to, a } => {
            let a = copy_of(copies, *a)?;
            Ok(Node::Resize {
                kind: *kind,
                to: *to,
                a,
            })
        }
        Node::ForAll { body, .. } => Err(*body),
    }
}
