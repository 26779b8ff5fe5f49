//! Lines whose expressions are built up to a depth.
//!
//! The layer between expressions and lines: expressions with their depths come in, and a line goes out, or word that one of them is too
//! deep.

ghost use Rattle.std.specs.Prelude.{◌≡◌, max, Some, None};
ghost use Rattle.spec_ast.specs.Raw as plain;
ghost use Rattle.spec_ast.specs.View.{view_expr, view_exprs, view_item};
ghost use Rattle.spec_expr.specs.Grown.{bounded, lift, join};
ghost use Rattle.spec_expr.specs.Fronts.{grown};
ghost use Rattle.spec_read.specs.ItemReading.{same_depth};

use spec_ast::{Name, RawExpr, RawExprs, RawItem};
use spec_expr::{Bounded, MOST_DEPTH};

/// The line whose expressions have this depth.
fn within(item: RawItem, depth: u32) -> Bounded<RawItem>
    ensures { grown view_item result ≡ bounded 100 (view_item item) depth }
{
    if depth <= MOST_DEPTH {
        Bounded::Within(item, depth)
    } else {
        drop(item);
        Bounded::TooDeep
    }
}

/// `NAME = EXPR`
pub fn let_line(name: Name, tree: Bounded<RawExpr>) -> Bounded<RawItem>
    ensures { grown view_item result ≡ lift 100 (plain.let_line name) same_depth (grown view_expr tree) }
{
    match tree {
        Bounded::Within(tree, depth) => within(RawItem::Let(name, tree), depth),
        Bounded::TooDeep => {
            drop(name);
            Bounded::TooDeep
        }
    }
}

/// `NAME . NAME = EXPR`
pub fn write_line(copy: Name, field: Name, tree: Bounded<RawExpr>) -> Bounded<RawItem>
    ensures { grown view_item result ≡ lift 100 (plain.write_line copy field None) same_depth (grown view_expr tree) }
{
    match tree {
        Bounded::Within(tree, depth) => within(RawItem::Write(copy, field, None, tree), depth),
        Bounded::TooDeep => {
            drop(copy);
            drop(field);
            Bounded::TooDeep
        }
    }
}

/// `NAME . NAME [ EXPR , .. ] = EXPR`
pub fn keyed_line(
    copy: Name,
    field: Name,
    at: Bounded<Vec<RawExpr>>,
    tree: Bounded<RawExpr>,
) -> Bounded<RawItem>
    ensures { grown view_item result ≡ join 100 (λ es e. plain.write_line copy field (Some es) e) max (grown (λ v. view_exprs v.items) at) (grown view_expr tree) }
{
    match (at, tree) {
        (Bounded::Within(at, m), Bounded::Within(tree, n)) => {
            let at = Some(RawExprs::of(at));
            within(RawItem::Write(copy, field, at, tree), m.max(n))
        }
        (Bounded::Within(at, _), Bounded::TooDeep) => {
            drop(at);
            drop(copy);
            drop(field);
            Bounded::TooDeep
        }
        (Bounded::TooDeep, tree) => {
            drop(tree);
            drop(copy);
            drop(field);
            Bounded::TooDeep
        }
    }
}

/// `return EXPR`
pub fn return_line(tree: Bounded<RawExpr>) -> Bounded<RawItem>
    ensures { grown view_item result ≡ lift 100 plain.return_line same_depth (grown view_expr tree) }
{
    match tree {
        Bounded::Within(tree, depth) => within(RawItem::Return(tree), depth),
        Bounded::TooDeep => Bounded::TooDeep,
    }
}

/// `return EXPR , NAME`
pub fn end_line(tree: Bounded<RawExpr>, state: Name) -> Bounded<RawItem>
    ensures { grown view_item result ≡ lift 100 (λ e. plain.end_line e state None) same_depth (grown view_expr tree) }
{
    match tree {
        Bounded::Within(tree, depth) => within(RawItem::End(tree, state, None), depth),
        Bounded::TooDeep => {
            drop(state);
            Bounded::TooDeep
        }
    }
}

/// `return EXPR , NAME , EXPR`
pub fn result_line(tree: Bounded<RawExpr>, state: Name, value: Bounded<RawExpr>) -> Bounded<RawItem>
    ensures { grown view_item result ≡ join 100 (λ e r. plain.end_line e state (Some r)) max (grown view_expr tree) (grown view_expr value) }
{
    match (tree, value) {
        (Bounded::Within(tree, m), Bounded::Within(value, n)) => {
            within(RawItem::End(tree, state, Some(value)), m.max(n))
        }
        (Bounded::Within(tree, _), Bounded::TooDeep) => {
            drop(tree);
            drop(state);
            Bounded::TooDeep
        }
        (Bounded::TooDeep, value) => {
            drop(value);
            drop(state);
            Bounded::TooDeep
        }
    }
}
