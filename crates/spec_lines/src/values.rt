//! The values that the equivalence function gives to fields.

ghost use Rattle.std.specs.Prelude.{◌≡◌, ◌∷◌, [], map, option_map, IfOk, OnOk};
ghost use Rattle.spec_ast.specs.View.{view_expr as view_raw};
ghost use Rattle.spec_tree.specs.View.{view_expr};
ghost use Rattle.spec_scope.specs.declared.meaning.Kind.TheVariants.{Number};
ghost use Rattle.spec_scope.specs.Fields.{view_sort};
ghost use Rattle.spec_scope.specs.Scope as scopes;
ghost use Rattle.spec_scope.specs.Taking as taking;
ghost use Rattle.spec_scope.specs.View.{view_scope};
ghost use Rattle.spec_take.specs.Answers.{Gives};
ghost use Rattle.spec_lines.specs.Equations as equations;
ghost use Rattle.spec_lines.specs.Faults as definition;
ghost use Rattle.spec_lines.specs.View.{view_equation, AreHeadsOf};
ghost use Rattle.spec_lines.specs.MadeView.{view_values, no_value, Makes};

use crate::equation::{Equation, equation_in, field_sort, trees_of};
use crate::fore::FieldHead;
use crate::made::take_alone;
use spec_ast::RawExpr;
use spec_scope::{BoundNames, FieldSort, Kind, Scope, TakeStop};
use spec_take::take;
use spec_tree::Expr;
use std::alloc::{AllocError, Global};

/// Adds the variable that an argument is.
fn add_argument<'e>(bound: &mut BoundNames<'e>, e: &'e RawExpr) -> Result<(), AllocError>
    ensures { OnOk result (bound.new ≡ equations.with_argument bound.old (view_raw e.now)) }
{
    match e {
        RawExpr::Named(name) => {
            bound.add(name.as_bytes())?;
            Ok(())
        }
        _ => Ok(()),
    }
}

/// Adds the variables that arguments are.
fn add_arguments<'e>(bound: &mut BoundNames<'e>, es: &'e [RawExpr]) -> Result<(), AllocError>
    ensures { OnOk result (bound.new ≡ equations.arguments_behind bound.old (map view_raw es.now)) }
{
    'each: for e in es {
        add_argument(bound, e)?;
    }
    Ok(())
}

/// The width of a field's entries.
fn width_in(sort: Option<&FieldSort>) -> u32
    ensures { result ≡ definition.width_in (option_map (λ f. view_sort f.now) sort.entry) }
{
    match sort {
        Some(sort) => sort.width,
        None => 0,
    }
}

/// What the right side of an equation stands for, over the keys of its field.
fn take_right(alloc: Global, scope: &Scope<'_>, q: &Equation<'_>) -> Result<Expr, TakeStop>
    ensures { Gives view_expr result (taking.take (view_scope scope.now) (equations.key_names (view_equation q.now)) (Number (definition.width_in (scopes.field_sort (view_scope scope.now) q.now.field.now))) (view_equation q.now).right) }
{
    let mut bound = BoundNames::new(alloc);
    add_arguments(&mut bound, q.arguments)?;
    let width = width_in(field_sort(scope, q.field));
    take(alloc, scope, &mut bound, Kind::Number(width), q.right)
}

/// Puts the value of the field at a place.
#[tactic(auto, using(crate::proofs::Putting::put_seen, crate::proofs::Putting::many_seen))]
fn put_value(values: &mut Vec<Option<Expr>>, place: Option<u32>, y: Expr)
    ensures { view_values values.new.items ≡ definition.put_value place (view_values values.old.items) (view_expr y) }
{
    match place {
        Some(place) => {
            if (place as usize) < values.len() {
                values[place as usize] = Some(y);
            } else {
                drop(y);
            }
        }
        None => drop(y),
    }
}

/// Puts the value that a conjunct gives.
fn put_conjunct(
    alloc: Global,
    scope: &Scope<'_>,
    values: &mut Vec<Option<Expr>>,
    e: &RawExpr,
) -> Result<(), TakeStop>
    ensures { Makes result (view_values values.new.items) (definition.value_put (view_scope scope.now) (view_values values.old.items) (view_raw e.now) (equations.equation_in (view_scope scope.now) (view_raw e.now))) }
{
    match equation_in(alloc, scope, e)? {
        Some(q) => {
            let y = take_right(alloc, scope, &q)?;
            put_value(values, scope.fields.place(q.field), y);
            Ok(())
        }
        None => {
            let y = take_alone(alloc, scope, Kind::Truth, e)?;
            drop(y);
            Ok(())
        }
    }
}

/// Puts the values that conjuncts give.
#[tactic(auto, using(crate::proofs::Exits::fails_behind))]
fn put_all(
    alloc: Global,
    scope: &Scope<'_>,
    values: &mut Vec<Option<Expr>>,
    es: &[RawExpr],
) -> Result<(), TakeStop>
    ensures { Makes result (view_values values.new.items) (definition.values_from (view_scope scope.now) (view_values values.old.items) (map view_raw es.now)) }
{
    'each: for e in es {
        put_conjunct(alloc, scope, values, e)?;
    }
    Ok(())
}

/// Puts the values that the only conjunct gives.
fn put_only(
    alloc: Global,
    scope: &Scope<'_>,
    values: &mut Vec<Option<Expr>>,
    e: &RawExpr,
) -> Result<(), TakeStop>
    ensures { Makes result (view_values values.new.items) (definition.values_from (view_scope scope.now) (view_values values.old.items) (view_raw e.now ∷ [])) }
{
    put_conjunct(alloc, scope, values, e)
}

/// Puts the values that the conjuncts of an expression give.
fn put_conjuncts(
    alloc: Global,
    scope: &Scope<'_>,
    values: &mut Vec<Option<Expr>>,
    e: &RawExpr,
) -> Result<(), TakeStop>
    ensures { Makes result (view_values values.new.items) (definition.values_from (view_scope scope.now) (view_values values.old.items) (equations.conjuncts (view_raw e.now))) }
{
    match e {
        RawExpr::All(es) => put_all(alloc, scope, values, trees_of(es)),
        _ => put_only(alloc, scope, values, e),
    }
}

/// No value for each field.
fn no_values(alloc: Global, heads: &[FieldHead<'_>]) -> Result<Vec<Option<Expr>>, AllocError>
    ensures { IfOk result (λ v. view_values v.items ≡ map no_value heads.now) }
{
    let mut values = Vec::new(alloc);
    'each: for _ in heads {
        values.push(None)?;
    }
    Ok(values)
}

/// The values that the equivalence function gives to the fields, by their places.
#[tactic(auto, using(crate::proofs::FieldTurns::none_for_each))]
pub fn values_of(
    alloc: Global,
    scope: &Scope<'_>,
    heads: &[FieldHead<'_>],
    e: &RawExpr,
) -> Result<Vec<Option<Expr>>, TakeStop>
    requires { AreHeadsOf scope.now.fields heads.now }
    ensures { Gives (λ v. view_values v.items) result (definition.values_of (view_scope scope.now) (view_raw e.now)) }
{
    let mut values = no_values(alloc, heads)?;
    put_conjuncts(alloc, scope, &mut values, e)?;
    Ok(values)
}
