//! The equations of the equivalence function.

ghost use Rattle.std.specs.Prelude.{◌≡◌, ◌∷◌, [], map, option_map, IfOk};
ghost use Rattle.std.specs.List.{list_any, list_all};
ghost use Rattle.spec_ast.specs.Depth.{tree_list};
ghost use Rattle.spec_ast.specs.View.{view_expr, view_expr_list};
ghost use Rattle.spec_tree.specs.View.{view_key};
ghost use Rattle.spec_scope.specs.Fields.{view_sort};
ghost use Rattle.spec_scope.specs.Scope.{field_sort as field_sort_of, is_among};
ghost use Rattle.spec_scope.specs.View.{view_scope};
ghost use Rattle.spec_lines.specs.Behind.{reads_state as reads_state_of};
ghost use Rattle.spec_lines.specs.Equations as definition;
ghost use Rattle.spec_lines.specs.View.{view_equation};

use crate::findings::found_in;
use spec_ast::{BinKind, Name, RawExpr, RawExprs};
use spec_scope::{FieldSort, Meaning, Scope};
use spec_tree::{Sort, StateName};
use std::alloc::{AllocError, Global};

/// An equation: the names of its quantifier's list, the state, the field and its arguments, and the right side.
#[derive(Clone, Copy)]
pub struct Equation<'e> {
    pub variables: &'e [Name],
    pub owner: &'e [u8],
    pub field: &'e [u8],
    pub arguments: &'e [RawExpr],
    pub right: &'e RawExpr,
}

/// The expressions of a list.
pub fn trees_of(es: &RawExprs) -> &[RawExpr]
    ensures { map view_expr result.now ≡ tree_list (view_expr_list es.now) }
{
    es.items.as_slice()
}

/// The equation with this left side.
fn left_of<'e>(variables: &'e [Name], a: &'e RawExpr, right: &'e RawExpr) -> Option<Equation<'e>>
    ensures { option_map view_equation result ≡ definition.left_of variables.now (view_expr a.now) (view_expr right.now) }
{
    match a {
        RawExpr::Read(owner, field) => Some(Equation {
            variables,
            owner: owner.as_bytes(),
            field: field.as_bytes(),
            arguments: &[],
            right,
        }),
        RawExpr::ReadAt(owner, field, es) => Some(Equation {
            variables,
            owner: owner.as_bytes(),
            field: field.as_bytes(),
            arguments: trees_of(es),
            right,
        }),
        _ => None,
    }
}

/// The equation that an operator makes.
fn equated<'e>(
    variables: &'e [Name],
    op: BinKind,
    a: &'e RawExpr,
    right: &'e RawExpr,
) -> Option<Equation<'e>>
    ensures { option_map view_equation result ≡ definition.equated variables.now op (view_expr a.now) (view_expr right.now) }
{
    match op {
        BinKind::Eq => left_of(variables, a, right),
        _ => None,
    }
}

/// The equation that an expression is, under the variables of a quantifier.
fn plain_equation<'e>(variables: &'e [Name], e: &'e RawExpr) -> Option<Equation<'e>>
    ensures { option_map view_equation result ≡ definition.plain_equation variables.now (view_expr e.now) }
{
    match e {
        RawExpr::Bin(op, a, right) => equated(variables, *op, a, right),
        _ => None,
    }
}

/// The equation that an expression is, by its form.
fn equation_of(e: &RawExpr) -> Option<Equation<'_>>
    ensures { option_map view_equation result ≡ definition.equation_of (view_expr e.now) }
{
    match e {
        RawExpr::ForAll(variables, a) => plain_equation(variables.as_slice(), a),
        _ => plain_equation(&[], e),
    }
}

/// Whether the name is one of a variable of the sort of a key.
fn is_key(key: &Sort, meaning: Option<Meaning>) -> bool
    ensures { result ≡ definition.is_key (view_key key.now) meaning }
{
    match meaning {
        Some(Meaning::Variable(width, size)) => { key.width == width && key_size(key) == size }
        _ => false,
    }
}

/// The size of a key.
fn key_size(key: &Sort) -> u32
    ensures { result ≡ (view_key key.now).size }
{
    match key.size {
        Some(size) => size,
        None => 0,
    }
}

/// Whether an argument is a variable of the sort of a key.
fn is_argument(scope: &Scope<'_>, key: &Sort, e: &RawExpr) -> bool
    ensures { result ≡ definition.is_argument (view_scope scope.now) (view_key key.now) (view_expr e.now) }
{
    match e {
        RawExpr::Named(name) => is_key(key, scope.meaning(name.as_bytes())),
        _ => false,
    }
}

/// Whether there are no arguments.
fn is_none(es: &[RawExpr]) -> bool
    ensures { result ≡ definition.are_no_arguments (map view_expr es.now) }
{
    match es {
        [] => true,
        [_, ..] => false,
    }
}

/// Whether there is one argument for each key.
fn are_arguments(scope: &Scope<'_>, keys: &[Sort], es: &[RawExpr]) -> bool
    ensures { result ≡ definition.are_arguments (view_scope scope.now) (map view_key keys.now) (map view_expr es.now) }
{
    match keys {
        [] => is_none(es),
        [key, keys @ ..] => match es {
            [] => false,
            [e, es @ ..] => is_argument(scope, key, e) && are_arguments(scope, keys, es),
        },
    }
}

/// Whether an argument is this name.
fn is_name(name: &[u8], e: &RawExpr) -> bool
    ensures { result ≡ definition.is_name name.now (view_expr e.now) }
{
    match e {
        RawExpr::Named(other) => name == other.as_bytes(),
        _ => false,
    }
}

/// Whether a name is among arguments.
fn has_name(name: &[u8], es: &[RawExpr]) -> bool
    ensures { result ≡ list_any (definition.is_name name.now) (map view_expr es.now) }
{
    'each: for e in es {
        if is_name(name, e) {
            return true;
        }
    }
    false
}

/// Whether all names are among arguments.
fn have_names(names: &[Name], es: &[RawExpr]) -> bool
    ensures { result ≡ list_all (λ x. list_any (definition.is_name x) (map view_expr es.now)) names.now }
{
    'each: for name in names {
        if !has_name(name.as_bytes(), es) {
            return false;
        }
    }
    true
}

/// Whether a name is among names.
fn is_among_names(name: &[u8], names: &[Name]) -> bool
    ensures { result ≡ is_among name.now names.now }
{
    'each: for other in names {
        if name == other.as_bytes() {
            return true;
        }
    }
    false
}

/// Whether no name stands twice.
fn are_distinct(names: &[Name]) -> bool
    ensures { result ≡ definition.are_distinct names.now }
{
    match names {
        [] => true,
        [name, rest @ ..] => !is_among_names(name.as_bytes(), rest) && are_distinct(rest),
    }
}

/// Whether the arguments are the names of the list.
fn are_listed(names: &[Name], es: &[RawExpr]) -> bool
    ensures { result ≡ definition.are_listed names.now (map view_expr es.now) }
{
    names.len() == es.len() && (are_distinct(names) && have_names(names, es))
}

/// Whether the arguments of an equation are those that its field asks for.
fn has_arguments(scope: &Scope<'_>, q: &Equation<'_>, sort: Option<&FieldSort>) -> bool
    ensures { result ≡ definition.has_arguments (view_scope scope.now) (view_equation q.now) (option_map (λ f. view_sort f.now) sort.entry) }
{
    match sort {
        Some(sort) => {
            are_arguments(scope, sort.keys.as_slice(), q.arguments)
                && are_listed(q.variables, q.arguments)
        }
        None => false,
    }
}

/// The sort of a field.
pub fn field_sort<'f>(scope: &'f Scope<'_>, name: &[u8]) -> Option<&'f FieldSort>
    ensures { option_map (λ f. view_sort f.now) result ≡ field_sort_of (view_scope scope.now) name.now }
{
    match scope.fields.place(name) {
        Some(place) => scope.fields.sort_at(place),
        None => None,
    }
}

/// Whether it is the state that came in.
pub fn is_old(meaning: Option<Meaning>) -> bool
    ensures { result ≡ definition.is_old meaning }
{
    match meaning {
        Some(Meaning::State(StateName::Old)) => true,
        _ => false,
    }
}

/// Whether an expression reads the state.
pub fn reads_state(alloc: Global, scope: &Scope<'_>, e: &RawExpr) -> Result<bool, AllocError>
    ensures { IfOk result (λ b. b ≡ reads_state_of (view_scope scope.now) (view_expr e.now)) }
{
    let found = found_in(alloc, scope, e)?;
    Ok(found.reads)
}

/// Whether what has the form of an equation is one.
fn is_right(alloc: Global, scope: &Scope<'_>, q: &Equation<'_>) -> Result<bool, AllocError>
    ensures { IfOk result (λ b. b ≡ definition.is_right (view_scope scope.now) (view_equation q.now)) }
{
    if !is_old(scope.meaning(q.owner)) || !has_arguments(scope, q, field_sort(scope, q.field)) {
        return Ok(false);
    }
    let reads = reads_state(alloc, scope, q.right)?;
    Ok(!reads)
}

/// The equation that an expression is, if it is one.
pub fn equation_in<'e>(
    alloc: Global,
    scope: &Scope<'_>,
    e: &'e RawExpr,
) -> Result<Option<Equation<'e>>, AllocError>
    ensures { IfOk result (λ o. option_map view_equation o ≡ definition.equation_in (view_scope scope.now) (view_expr e.now)) }
{
    match equation_of(e) {
        Some(q) => {
            if is_right(alloc, scope, &q)? {
                Ok(Some(q))
            } else {
                Ok(None)
            }
        }
        None => Ok(None),
    }
}

/// The field that a conjunct is an equation of.
fn equates(alloc: Global, scope: &Scope<'_>, e: &RawExpr) -> Result<Option<u32>, AllocError>
    ensures { IfOk result (λ o. o ≡ definition.equates (view_scope scope.now) (view_expr e.now)) }
{
    match equation_in(alloc, scope, e)? {
        Some(q) => Ok(scope.fields.place(q.field)),
        None => Ok(None),
    }
}

/// The field that each conjunct is an equation of.
fn equated_all(
    alloc: Global,
    scope: &Scope<'_>,
    es: &[RawExpr],
) -> Result<Vec<Option<u32>>, AllocError>
    ensures { IfOk result (λ v. v.items ≡ definition.equated_by (view_scope scope.now) (map view_expr es.now)) }
{
    let mut places = Vec::new(alloc);
    'each: for e in es {
        places.push(equates(alloc, scope, e)?)?;
    }
    Ok(places)
}

/// The same of the only conjunct.
fn equated_one(
    alloc: Global,
    scope: &Scope<'_>,
    e: &RawExpr,
) -> Result<Vec<Option<u32>>, AllocError>
    ensures { IfOk result (λ v. v.items ≡ definition.equated_by (view_scope scope.now) (view_expr e.now ∷ [])) }
{
    let mut places = Vec::new(alloc);
    places.push(equates(alloc, scope, e)?)?;
    Ok(places)
}

/// The field that each conjunct of an expression is an equation of.
pub fn equated_by(
    alloc: Global,
    scope: &Scope<'_>,
    e: &RawExpr,
) -> Result<Vec<Option<u32>>, AllocError>
    ensures { IfOk result (λ v. v.items ≡ definition.equated_by (view_scope scope.now) (definition.conjuncts (view_expr e.now))) }
{
    match e {
        RawExpr::All(es) => equated_all(alloc, scope, trees_of(es)),
        _ => equated_one(alloc, scope, e),
    }
}
