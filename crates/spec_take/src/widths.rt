//! The kind that an expression has of its own, found.

ghost use Rattle.std.specs.Prelude.{◌≡◌, Option, Some, option_map};
ghost use Rattle.spec_ast.specs.Raw.{Tree, unary, resize};
ghost use Rattle.spec_ast.specs.View.{view_expr};
ghost use Rattle.spec_scope.specs.Fields.{view_sort};
ghost use Rattle.spec_scope.specs.Scope.{field_sort, first, own as own_of};
ghost use Rattle.spec_scope.specs.View.{view_scope};
ghost use Rattle.spec_scope.specs.declared.meaning.Kind.{Kind as KindOf};
ghost use Rattle.spec_scope.specs.declared.meaning.Kind.TheVariants.{Number};
ghost use Rattle.spec_take.specs.Told.{told, IsVoid, AreVoid, IsNarrow};

use crate::kinds::{OwnKind, meant, number, of_bytes, resized};
use crate::paths::leaf_of;
use spec_ast::{RawExpr, RawResize, UnKind};
use spec_scope::steps::class_of;
use spec_scope::{FieldSort, Kind, OpClass, Scope};

/// The width of a field's entries.
fn width_of(sort: &FieldSort) -> u32
    ensures { result ≡ (view_sort sort.now).width }
{
    sort.width
}

/// The kind of a field's entries.
fn of_field(scope: &Scope<'_>, field: &[u8]) -> OwnKind
    ensures kind { result ≡ told (option_map (λ sort. Number sort.width) (field_sort (view_scope scope.now) field.now)) }
    ensures narrow { IsNarrow result }
{
    match scope.fields.place(field) {
        Some(place) => match scope.fields.sort_at(place) {
            Some(sort) => OwnKind::Known(Kind::Number(width_of(sort))),
            None => OwnKind::Absent,
        },
        None => OwnKind::Absent,
    }
}

/// The kind that an expression has of its own. It takes no memory, and time linear in the expression.
#[tactic(auto, using(crate::proofs::Void::narrow, crate::proofs::Void::absent_void, crate::proofs::Void::known_void, crate::proofs::Void::void_sized, crate::proofs::Void::void_binary, crate::proofs::Void::void_choose, crate::proofs::Void::class_arithmetic, crate::proofs::Void::class_equality, crate::proofs::Void::class_ordering, crate::proofs::Void::class_logic))]
#[cycle(own)]
pub fn own(scope: &Scope<'_>, e: &RawExpr) -> OwnKind
    ensures kind { result ≡ told (own_of (view_scope scope.now) (view_expr e.now)) }
    ensures void { IsVoid (view_scope scope.now) (view_expr e.now) result }
{
    match e {
        RawExpr::Literal(_) => OwnKind::Absent,
        RawExpr::Truth(_) => OwnKind::Known(Kind::Truth),
        RawExpr::Named(name) => meant(scope.meaning(name.as_bytes())),
        RawExpr::Read(_, field) => of_field(scope, field.as_bytes()),
        RawExpr::ReadAt(_, field, _) => of_field(scope, field.as_bytes()),
        RawExpr::Path(global, steps) => of_bytes(leaf_of(scope.kernel, global.as_bytes(), steps)),
        RawExpr::Un(op, a) => of_unary(scope, *op, a),
        RawExpr::Bin(op, a, c) => match class_of(*op) {
            OpClass::Arithmetic => or_own(scope, own(scope, a), c),
            OpClass::Equality => OwnKind::Known(Kind::Truth),
            OpClass::Ordering => OwnKind::Known(Kind::Truth),
            OpClass::Logic => OwnKind::Known(Kind::Truth),
        },
        RawExpr::All(_) => OwnKind::Known(Kind::Truth),
        RawExpr::Any(_) => OwnKind::Known(Kind::Truth),
        RawExpr::Choose(_, a, d) => or_own(scope, own(scope, a), d),
        RawExpr::Resize(op, a) => of_resize(scope, *op, a),
        RawExpr::Sized(_, width) => number(*width),
        RawExpr::ForAll(_, _) => OwnKind::Known(Kind::Truth),
        RawExpr::Exists(_, _) => OwnKind::Known(Kind::Truth),
    }
}

/// The kind of a unary operator.
#[tactic(auto, using(crate::proofs::Void::known_void, crate::proofs::Void::void_unary))]
#[cycle(own)]
fn of_unary(scope: &Scope<'_>, op: UnKind, a: &RawExpr) -> OwnKind
    ensures kind { result ≡ told (own_of (view_scope scope.now) (unary op (view_expr a.now))) }
    ensures void { IsVoid (view_scope scope.now) (unary op (view_expr a.now)) result }
{
    match op {
        UnKind::Not => OwnKind::Known(Kind::Truth),
        UnKind::Minus => own(scope, a),
        UnKind::Complement => own(scope, a),
    }
}

/// The kind of a change of width.
#[tactic(auto, using(crate::proofs::Void::resized_law, crate::proofs::Void::void_resize))]
#[cycle(own)]
fn of_resize(scope: &Scope<'_>, op: RawResize, a: &RawExpr) -> OwnKind
    ensures kind { result ≡ told (own_of (view_scope scope.now) (resize op (view_expr a.now))) }
    ensures void { IsVoid (view_scope scope.now) (resize op (view_expr a.now)) result }
{
    resized(op, own(scope, a))
}

/// The kind of a first operand, or that of a second one where the first has none.
#[tactic(auto, using(crate::proofs::Void::first_absent, crate::proofs::Void::first_known, crate::proofs::Void::first_wide, crate::proofs::Void::known_pair, crate::proofs::Void::void_first, crate::proofs::Void::void_second))]
#[cycle(own)]
fn or_own(scope: &Scope<'_>, before: OwnKind, c: &RawExpr) -> OwnKind
    ensures kind { (k : Option KindOf) → before ≡ told k → result ≡ told (first k (own_of (view_scope scope.now) (view_expr c.now))) }
    ensures void { (a : Tree) → IsVoid (view_scope scope.now) a before → AreVoid (view_scope scope.now) a (view_expr c.now) result }
{
    match before {
        OwnKind::Absent => own(scope, c),
        OwnKind::Known(kind) => OwnKind::Known(kind),
        OwnKind::TooWide => OwnKind::TooWide,
    }
}

/// The first kind of the two operands; the second one is looked at where the first has none.
pub fn first_of(scope: &Scope<'_>, a: &RawExpr, c: &RawExpr) -> OwnKind
    ensures kind { result ≡ told (first (own_of (view_scope scope.now) (view_expr a.now)) (own_of (view_scope scope.now) (view_expr c.now))) }
    ensures void { AreVoid (view_scope scope.now) (view_expr a.now) (view_expr c.now) result }
{
    or_own(scope, own(scope, a), c)
}
