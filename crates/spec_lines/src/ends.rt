//! What the result on the return line of a handler stands for.

ghost use Rattle.std.specs.Prelude.{◌≡◌, ◌&&◌, [], option_map, IfOk};
ghost use Rattle.spec_ast.specs.View.{view_expr as view_raw};
ghost use Rattle.spec_tree.specs.View.{view_expr};
ghost use Rattle.spec_scope.specs.Free as free;
ghost use Rattle.spec_scope.specs.Scope.{own as own_of};
ghost use Rattle.spec_scope.specs.Steps.{view_class};
ghost use Rattle.spec_scope.specs.View.{view_scope};
ghost use Rattle.spec_take.specs.Answers.{Gives};
ghost use Rattle.spec_lines.specs.Faults as faults;
ghost use Rattle.spec_lines.specs.Whole as definition;
ghost use Rattle.spec_lines.specs.View.{view_here};

use crate::here::Here;
use crate::made::take_alone;
use spec_ast::{RawExpr, UnKind};
use spec_scope::steps::class_of;
use spec_scope::{Kind, Meaning, OpClass, Scope, TakeStop};
use spec_take::{OwnKind, own};
use spec_tree::Expr;
use std::alloc::{AllocError, Global};

/// Whether it is a constant.
fn is_constant(meaning: Option<Meaning>) -> bool
    ensures { result ≡ free.is_constant meaning }
{
    match meaning {
        Some(Meaning::Constant(_)) => true,
        _ => false,
    }
}

/// Whether a unary operator gives a number.
fn is_number_un(op: UnKind) -> bool
    ensures { result ≡ free.is_number_un op }
{
    match op {
        UnKind::Not => false,
        _ => true,
    }
}

/// Whether operators of a class give a number.
fn is_arithmetic(class: OpClass) -> bool
    ensures { result ≡ free.is_arithmetic (view_class class) }
{
    match class {
        OpClass::Arithmetic => true,
        _ => false,
    }
}

/// Whether an expression fits a place that asks for this kind.
fn fits_at(alloc: Global, scope: &Scope<'_>, kind: Kind, e: &RawExpr) -> Result<bool, AllocError>
    ensures { IfOk result (λ b. b ≡ faults.fits (view_scope scope.now) [] kind (view_raw e.now)) }
{
    match take_alone(alloc, scope, kind, e) {
        Ok(y) => {
            drop(y);
            Ok(true)
        }
        Err(TakeStop::Unfit) => Ok(false),
        Err(TakeStop::Memory) => Err(AllocError),
    }
}

/// Whether an expression without a width of its own fits a place that asks nothing.
#[cycle(freely)]
fn fits_freely(alloc: Global, scope: &Scope<'_>, e: &RawExpr) -> Result<bool, AllocError>
    ensures { IfOk result (λ b. b ≡ faults.fits_freely (view_scope scope.now) (view_raw e.now)) }
{
    match e {
        RawExpr::Literal(_) => Ok(true),
        RawExpr::Named(name) => Ok(is_constant(scope.meaning(name.as_bytes()))),
        RawExpr::Un(op, a) => and_freely(alloc, scope, is_number_un(*op), a),
        RawExpr::Bin(op, a, c) => {
            let first = and_freely(alloc, scope, is_arithmetic(class_of(*op)), a)?;
            and_freely(alloc, scope, first, c)
        }
        RawExpr::Choose(c, a, d) => {
            let holds = fits_at(alloc, scope, Kind::Truth, c)?;
            let first = and_freely(alloc, scope, holds, a)?;
            and_freely(alloc, scope, first, d)
        }
        _ => Ok(false),
    }
}

/// Whether what stands before fits, and an expression without a width of its own too.
#[cycle(freely)]
fn and_freely(
    alloc: Global,
    scope: &Scope<'_>,
    before: bool,
    e: &RawExpr,
) -> Result<bool, AllocError>
    ensures { IfOk result (λ b. b ≡ (before && faults.fits_freely (view_scope scope.now) (view_raw e.now))) }
{
    if !before {
        return Ok(false);
    }
    fits_freely(alloc, scope, e)
}

/// Whether an expression fits a place that asks nothing.
#[tactic(auto, using(crate::proofs::Results::absent_at, crate::proofs::Results::known_at, crate::proofs::Results::void_at))]
fn fits_unasked(alloc: Global, scope: &Scope<'_>, e: &RawExpr) -> Result<bool, AllocError>
    ensures { IfOk result (λ b. b ≡ faults.fits_own (view_scope scope.now) (own_of (view_scope scope.now) (view_raw e.now)) (view_raw e.now)) }
{
    match own(scope, e) {
        OwnKind::Absent => fits_freely(alloc, scope, e),
        OwnKind::Known(kind) => fits_at(alloc, scope, kind, e),
        OwnKind::TooWide => Ok(false),
    }
}

/// No result, where one fits that gives nothing.
fn nothing_where(fits: bool) -> Result<Option<Expr>, TakeStop>
    ensures { Gives (option_map view_expr) result (definition.nothing_where fits) }
{
    if fits { Ok(None) } else { Err(TakeStop::Unfit) }
}

/// What the result of a handler stands for, by the width of the result of its kernel function.
fn result_at(
    alloc: Global,
    scope: &Scope<'_>,
    width: Option<u32>,
    r: &RawExpr,
) -> Result<Option<Expr>, TakeStop>
    ensures { Gives (option_map view_expr) result (definition.result_at (view_scope scope.now) width (view_raw r.now)) }
{
    match width {
        Some(width) => {
            let y = take_alone(alloc, scope, Kind::Number(width), r)?;
            Ok(Some(y))
        }
        None => {
            let fits = fits_unasked(alloc, scope, r)?;
            nothing_where(fits)
        }
    }
}

/// What the result of a handler stands for, where its return line has one.
pub fn result_made(
    alloc: Global,
    here: &Here<'_>,
    r: &Option<RawExpr>,
) -> Result<Option<Expr>, TakeStop>
    ensures { Gives (option_map view_expr) result (definition.result_made (view_here here.now) (option_map view_raw r.now)) }
{
    match r {
        Some(r) => result_at(alloc, &here.scope, here.result, r),
        None => Ok(None),
    }
}
