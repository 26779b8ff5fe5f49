//! Trees that are built up to a depth.
//!
//! The layer below the readers of expressions: parts with their depths come in, and a whole with its depth goes out, or word that it
//! is too deep. A part that is too deep is not kept, and neither is a whole that has it.

ghost use Rattle.std.specs.Prelude.{◌≡◌, ◌+◌, ◌++◌, ◌∷◌, [], max, map, IfOk};
ghost use Rattle.spec_ast.specs.Raw as plain;
ghost use Rattle.spec_ast.specs.View.{view_expr, view_exprs, view_step, view_steps};
ghost use Rattle.spec_expr.specs.Grown.{bounded, lift, join};
ghost use Rattle.spec_expr.specs.Reading as definition;
ghost use Rattle.spec_expr.specs.Fronts.{grown, IsWithin};
ghost use Rattle.spec_expr.specs.Pairs.{two_trees, view_pair, grown_pair};

use spec_ast::{BinKind, Name, RawExpr, RawExprs, RawStep, RawSteps, UnKind};
use std::alloc::{AllocError, Global};

/// The greatest depth of an expression: a leaf has the depth 1, any other node one more than its deepest part.
pub const MOST_DEPTH: u32 = 100;

/// What is built up to the greatest depth.
#[derive(Drop)]
pub enum Bounded<T> {
    /// The thing and its depth.
    Within(T, u32),
    /// It is deeper, and is not kept.
    TooDeep,
}

/// The tree whose parts have this depth.
pub fn over(tree: RawExpr, depth: u32) -> Bounded<RawExpr>
    ensures { grown view_expr result ≡ bounded 100 (view_expr tree) (1 + depth) }
{
    if depth < MOST_DEPTH {
        Bounded::Within(tree, depth + 1)
    } else {
        drop(tree);
        Bounded::TooDeep
    }
}

/// An operator over its operand.
pub fn unary(
    alloc: Global,
    kind: UnKind,
    operand: Bounded<RawExpr>,
) -> Result<Bounded<RawExpr>, AllocError>
    ensures { IfOk result (λ g. grown view_expr g ≡ lift 100 (plain.unary kind) definition.one_deeper (grown view_expr operand)) }
{
    match operand {
        Bounded::Within(part, depth) => {
            let part = Box::new(alloc, part)?;
            Ok(over(RawExpr::Un(kind, part), depth))
        }
        Bounded::TooDeep => Ok(Bounded::TooDeep),
    }
}

/// Two trees, as deep as the deeper one.
fn both(left: Bounded<RawExpr>, right: Bounded<RawExpr>) -> Bounded<(RawExpr, RawExpr)>
    ensures { grown view_pair result ≡ grown_pair 100 (grown view_expr left) (grown view_expr right) }
{
    match (left, right) {
        (Bounded::Within(left, m), Bounded::Within(right, n)) => pair_within(left, right, m.max(n)),
        (Bounded::Within(left, _), Bounded::TooDeep) => {
            drop(left);
            Bounded::TooDeep
        }
        (Bounded::TooDeep, right) => {
            drop(right);
            Bounded::TooDeep
        }
    }
}

/// Two trees of at most this depth.
fn pair_within(left: RawExpr, right: RawExpr, depth: u32) -> Bounded<(RawExpr, RawExpr)>
    ensures { grown view_pair result ≡ bounded 100 (two_trees (view_expr left) (view_expr right)) depth }
{
    if depth <= MOST_DEPTH {
        Bounded::Within((left, right), depth)
    } else {
        drop(left);
        drop(right);
        Bounded::TooDeep
    }
}

/// An operator over its operands.
pub fn binary(
    alloc: Global,
    kind: BinKind,
    left: Bounded<RawExpr>,
    right: Bounded<RawExpr>,
) -> Result<Bounded<RawExpr>, AllocError>
    ensures { IfOk result (λ g. grown view_expr g ≡ definition.grown_binary 100 kind (grown view_expr left) (grown view_expr right)) }
{
    match (left, right) {
        (Bounded::Within(left, m), Bounded::Within(right, n)) => {
            let left = Box::new(alloc, left)?;
            let right = Box::new(alloc, right)?;
            Ok(over(RawExpr::Bin(kind, left, right), m.max(n)))
        }
        (Bounded::Within(left, _), Bounded::TooDeep) => {
            drop(left);
            Ok(Bounded::TooDeep)
        }
        (Bounded::TooDeep, right) => {
            drop(right);
            Ok(Bounded::TooDeep)
        }
    }
}

/// `If` over its condition and its arms.
pub fn choice(
    alloc: Global,
    condition: Bounded<RawExpr>,
    yes: Bounded<RawExpr>,
    other: Bounded<RawExpr>,
) -> Result<Bounded<RawExpr>, AllocError>
    ensures { IfOk result (λ g. grown view_expr g ≡ definition.grown_choice 100 (grown view_expr condition) (grown view_expr yes) (grown view_expr other)) }
{
    match (condition, both(yes, other)) {
        (Bounded::Within(condition, m), Bounded::Within((yes, other), n)) => {
            let condition = Box::new(alloc, condition)?;
            let yes = Box::new(alloc, yes)?;
            let other = Box::new(alloc, other)?;
            Ok(over(RawExpr::Choose(condition, yes, other), m.max(n)))
        }
        (Bounded::Within(condition, _), Bounded::TooDeep) => {
            drop(condition);
            Ok(Bounded::TooDeep)
        }
        (Bounded::TooDeep, arms) => {
            drop(arms);
            Ok(Bounded::TooDeep)
        }
    }
}

/// `And` over its parts.
pub fn conjunction(parts: Bounded<Vec<RawExpr>>) -> Bounded<RawExpr>
    ensures { grown view_expr result ≡ lift 100 plain.all_of definition.one_deeper (grown (λ v. view_exprs v.items) parts) }
{
    match parts {
        Bounded::Within(parts, depth) => over(RawExpr::All(RawExprs::of(parts)), depth),
        Bounded::TooDeep => Bounded::TooDeep,
    }
}

/// `Or` over its parts.
pub fn disjunction(parts: Bounded<Vec<RawExpr>>) -> Bounded<RawExpr>
    ensures { grown view_expr result ≡ lift 100 plain.any_of definition.one_deeper (grown (λ v. view_exprs v.items) parts) }
{
    match parts {
        Bounded::Within(parts, depth) => over(RawExpr::Any(RawExprs::of(parts)), depth),
        Bounded::TooDeep => Bounded::TooDeep,
    }
}

/// A field of the state at its arguments.
pub fn read_at(state: Name, field: Name, arguments: Bounded<Vec<RawExpr>>) -> Bounded<RawExpr>
    ensures { grown view_expr result ≡ lift 100 (plain.read_at state field) definition.one_deeper (grown (λ v. view_exprs v.items) arguments) }
{
    match arguments {
        Bounded::Within(arguments, depth) => {
            let arguments = RawExprs::of(arguments);
            over(RawExpr::ReadAt(state, field, arguments), depth)
        }
        Bounded::TooDeep => {
            drop(state);
            drop(field);
            Bounded::TooDeep
        }
    }
}

/// A path of the kernel by its steps.
pub fn path(global: Name, steps: Bounded<Vec<RawStep>>) -> Bounded<RawExpr>
    ensures { grown view_expr result ≡ lift 100 (plain.path global) definition.one_deeper (grown (λ v. view_steps v.items) steps) }
{
    match steps {
        Bounded::Within(steps, depth) => over(RawExpr::Path(global, RawSteps::of(steps)), depth),
        Bounded::TooDeep => {
            drop(global);
            Bounded::TooDeep
        }
    }
}

/// Trees of at most this depth.
fn exprs_within(items: Vec<RawExpr>, depth: u32) -> Bounded<Vec<RawExpr>>
    ensures value { grown (λ v. map view_expr v.items) result ≡ bounded 100 (map view_expr items.items) depth }
    ensures fits { IsWithin 100 result }
{
    if depth <= MOST_DEPTH {
        Bounded::Within(items, depth)
    } else {
        drop(items);
        Bounded::TooDeep
    }
}

/// The list with one more tree at its end.
pub fn with_expr(
    list: Bounded<Vec<RawExpr>>,
    tree: Bounded<RawExpr>,
) -> Result<Bounded<Vec<RawExpr>>, AllocError>
    ensures fits { IfOk result (IsWithin 100) }
    ensures value { IfOk result (λ g. grown (λ v. map view_expr v.items) g ≡ join 100 (λ xs x. xs ++ x ∷ []) max (grown (λ v. map view_expr v.items) list) (grown view_expr tree)) }
{
    match (list, tree) {
        (Bounded::Within(mut items, m), Bounded::Within(tree, n)) => {
            items.push(tree)?;
            Ok(exprs_within(items, m.max(n)))
        }
        _ => Ok(Bounded::TooDeep),
    }
}

/// Steps of at most this depth.
fn steps_within(items: Vec<RawStep>, depth: u32) -> Bounded<Vec<RawStep>>
    ensures value { grown (λ v. map view_step v.items) result ≡ bounded 100 (map view_step items.items) depth }
    ensures fits { IsWithin 100 result }
{
    if depth <= MOST_DEPTH {
        Bounded::Within(items, depth)
    } else {
        drop(items);
        Bounded::TooDeep
    }
}

/// The list with one more step at its end.
pub fn with_step(
    list: Bounded<Vec<RawStep>>,
    step: Bounded<RawStep>,
) -> Result<Bounded<Vec<RawStep>>, AllocError>
    ensures fits { IfOk result (IsWithin 100) }
    ensures value { IfOk result (λ g. grown (λ v. map view_step v.items) g ≡ join 100 (λ xs x. xs ++ x ∷ []) max (grown (λ v. map view_step v.items) list) (grown view_step step)) }
{
    match (list, step) {
        (Bounded::Within(mut items, m), Bounded::Within(step, n)) => {
            items.push(step)?;
            Ok(steps_within(items, m.max(n)))
        }
        _ => Ok(Bounded::TooDeep),
    }
}
