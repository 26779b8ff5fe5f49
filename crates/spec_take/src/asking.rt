//! What a place asks of the expressions there.

ghost use Rattle.std.specs.Prelude.{◌≡◌};
ghost use Rattle.spec_ast.specs.View.{view_expr as view_raw};
ghost use Rattle.spec_tree.specs.View.{view_expr};
ghost use Rattle.spec_scope.specs.Steps.{view_class};
ghost use Rattle.spec_scope.specs.Taking as definition;
ghost use Rattle.spec_scope.specs.View.{view_scope};
ghost use Rattle.spec_take.specs.Answers.{Gives};
ghost use Rattle.spec_take.specs.Asking as plain;
ghost use Rattle.spec_take.specs.Asking.{AsksClass, AsksBoth, AsksIndex};

use crate::kinds::OwnKind;
use crate::widths::{first_of, own};
use spec_ast::{BinKind, RawExpr, UnKind};
use spec_scope::leaves::same_kind;
use spec_scope::steps::class_of;
use spec_scope::{Kind, OpClass, Scope, TakeStop};
use spec_tree::Expr;

/// An expression of a kind, at a place that asks for one.
pub(crate) fn given_at(kind: Kind, has: Kind, tree: Expr) -> Result<Expr, TakeStop>
    ensures { Gives view_expr result (definition.given_at kind has (view_expr tree)) }
{
    if same_kind(kind, has) {
        Ok(tree)
    } else {
        drop(tree);
        Err(TakeStop::Unfit)
    }
}

/// The kind itself, where it is a number.
pub(crate) fn number_at(kind: Kind) -> Option<Kind>
    ensures { result ≡ definition.number_at kind kind }
{
    match kind {
        Kind::Truth => None,
        Kind::Number(w) => Some(Kind::Number(w)),
    }
}

/// The kind that a unary operator asks its operand for.
pub(crate) fn asked_un(op: UnKind, kind: Kind) -> Option<Kind>
    ensures { result ≡ definition.asked_un op kind }
{
    match op {
        UnKind::Not => match kind {
            Kind::Truth => Some(Kind::Truth),
            Kind::Number(_) => None,
        },
        UnKind::Minus => number_at(kind),
        UnKind::Complement => number_at(kind),
    }
}

/// A kind that is known.
fn known(kind: OwnKind) -> Option<Kind>
    ensures { result ≡ plain.known kind }
{
    match kind {
        OwnKind::Known(kind) => Some(kind),
        _ => None,
    }
}

/// A number that is known.
fn known_number(kind: OwnKind) -> Option<Kind>
    ensures { result ≡ plain.known_number kind }
{
    match kind {
        OwnKind::Known(Kind::Number(w)) => Some(Kind::Number(w)),
        _ => None,
    }
}

/// The kind that a binary operator of a class asks both operands for.
#[tactic(auto, using(crate::proofs::Asked::asks_is, crate::proofs::Asked::equality_asks, crate::proofs::Asked::ordering_asks))]
fn asked_class(
    scope: &Scope<'_>,
    class: OpClass,
    kind: Kind,
    a: &RawExpr,
    c: &RawExpr,
) -> Option<Kind>
    ensures { AsksClass (view_scope scope.now) (view_class class) kind (view_raw a.now) (view_raw c.now) result }
{
    match class {
        OpClass::Arithmetic => number_at(kind),
        OpClass::Equality => match kind {
            Kind::Truth => known(first_of(scope, a, c)),
            Kind::Number(_) => None,
        },
        OpClass::Ordering => match kind {
            Kind::Truth => known_number(first_of(scope, a, c)),
            Kind::Number(_) => None,
        },
        OpClass::Logic => match kind {
            Kind::Truth => Some(Kind::Truth),
            Kind::Number(_) => None,
        },
    }
}

/// The kind that a binary operator asks both operands for.
#[tactic(auto, using(crate::proofs::Asked::both_asked))]
pub(crate) fn asked(
    scope: &Scope<'_>,
    op: BinKind,
    kind: Kind,
    a: &RawExpr,
    c: &RawExpr,
) -> Option<Kind>
    ensures { AsksBoth (view_scope scope.now) op kind (view_raw a.now) (view_raw c.now) result }
{
    asked_class(scope, class_of(op), kind, a, c)
}

/// The kind that an index is asked for, by its own one.
fn index_told(kind: OwnKind) -> Option<Kind>
    ensures { result ≡ plain.index_told kind }
{
    match kind {
        OwnKind::Absent => Some(Kind::Number(64)),
        OwnKind::Known(kind) => Some(kind),
        OwnKind::TooWide => None,
    }
}

/// The kind that an index of a path is asked for.
#[tactic(auto, using(crate::proofs::Asked::index_asks))]
pub(crate) fn asked_index(scope: &Scope<'_>, e: &RawExpr) -> Option<Kind>
    ensures { AsksIndex (view_scope scope.now) (view_raw e.now) result }
{
    index_told(own(scope, e))
}
