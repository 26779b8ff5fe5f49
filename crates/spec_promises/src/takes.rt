//! Names, and expressions in their scope.

ghost use Rattle.std.specs.Prelude.{◌≡◌, ◌++◌, ◌∷◌, ℕ, List, [], map, IfOk, OnOk};
ghost use Rattle.spec_ast.specs.View.{view_expr as view_raw, view_expr_list as view_raw_list};
ghost use Rattle.spec_tree.specs.View.{view_expr, view_expr_list, view_key};
ghost use Rattle.spec_scope.specs.Scope.{first, meaning, own as own_of};
ghost use Rattle.spec_scope.specs.Taking as definition;
ghost use Rattle.spec_scope.specs.Tests as tests;
ghost use Rattle.spec_scope.specs.View.{view_scope};
ghost use Rattle.spec_take.specs.Answers.{Gives};
ghost use Rattle.spec_take.specs.Fitting.{IsFitting};
ghost use Rattle.spec_take.specs.Found.{view_findings, told_tuples};
ghost use Rattle.spec_take.specs.Told.{told};

use spec_ast::{RawExpr, RawExprs};
use spec_scope::{BoundNames, Kind, Meaning, Scope, TakeStop};
use spec_take::{Findings, OwnKind, faults_of, first_of, fits_some, indices, take, tuples_with};
use spec_tree::{Expr, ExprList, Sort};
use std::alloc::{AllocError, Global};

/// What a name means.
pub fn meaning_of_name(scope: &Scope<'_>, name: &[u8]) -> Option<Meaning>
    ensures { result ≡ meaning (view_scope scope.now) name.now }
{
    scope.meaning(name)
}

/// What an expression stands for, at a place that asks for a kind, under the bound variables, which stay as they are.
pub fn tree_of_expression<'e>(
    alloc: Global,
    scope: &Scope<'_>,
    bound: &mut BoundNames<'e>,
    kind: Kind,
    e: &'e RawExpr,
) -> Result<Expr, TakeStop>
    ensures taken { Gives view_expr result (definition.take (view_scope scope.now) bound.old kind (view_raw e.now)) }
    ensures kept { OnOk result (bound.new ≡ bound.old) }
{
    take(alloc, scope, bound, kind, e)
}

/// One index for each key.
pub fn indices_of_keys<'e>(
    alloc: Global,
    scope: &Scope<'_>,
    bound: &mut BoundNames<'e>,
    keys: &[Sort],
    es: &'e RawExprs,
) -> Result<ExprList, TakeStop>
    ensures { Gives view_expr_list result (definition.take_keys (view_scope scope.now) bound.old (map view_key keys.now) (view_raw_list es.now)) }
{
    indices(alloc, scope, bound, keys, es)
}

/// The first kind of two operands.
pub fn kind_of_operands(scope: &Scope<'_>, a: &RawExpr, c: &RawExpr) -> OwnKind
    ensures { result ≡ told (first (own_of (view_scope scope.now) (view_raw a.now)) (own_of (view_scope scope.now) (view_raw c.now))) }
{
    first_of(scope, a, c)
}

/// How many index tuples there are with one variable more.
pub fn tuples_of_variables(scope: &Scope<'_>, tuples: u64, name: &[u8]) -> u64
    ensures { (b : List (List ℕ)) → tuples ≡ told_tuples (view_scope scope.now) b → result ≡ told_tuples (view_scope scope.now) (b ++ name.now ∷ []) }
{
    tuples_with(scope, tuples, name)
}

/// What an expression and its parts are found to be.
pub fn faults_of_expression<'e>(
    scope: &Scope<'_>,
    bound: &mut BoundNames<'e>,
    tuples: u64,
    e: &'e RawExpr,
) -> Result<Findings, AllocError>
    requires { tuples ≡ told_tuples (view_scope scope.now) bound.old }
    ensures { IfOk result (λ f. view_findings f ≡ tests.findings (view_scope scope.now) bound.old (view_raw e.now)) }
{
    faults_of(scope, bound, tuples, e)
}

/// Whether there is a kind at which an expression stands for something.
pub fn expression_fits(alloc: Global, scope: &Scope<'_>, e: &RawExpr) -> Result<bool, AllocError>
    ensures { IfOk result (IsFitting (view_scope scope.now) [] (view_raw e.now)) }
{
    fits_some(alloc, scope, e)
}
