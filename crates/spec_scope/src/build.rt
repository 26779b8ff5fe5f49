//! Expressions made of their parts.

ghost use Rattle.std.specs.Prelude.{◌≡◌, IfOk};
ghost use Rattle.spec_tree.specs.Plain as plain;
ghost use Rattle.spec_tree.specs.View.{view_expr};

use spec_ast::{BinKind, UnKind};
use spec_tree::{Expr, ResizeKind, SizeList};
use std::alloc::{AllocError, Global};

/// A unary operator.
pub fn unary(alloc: Global, op: UnKind, a: Expr) -> Result<Expr, AllocError>
    ensures { IfOk result (λ x. view_expr x ≡ plain.unary op (view_expr a)) }
{
    let a = Box::new(alloc, a)?;
    Ok(Expr::Un(op, a))
}

/// A binary operator.
pub fn binary(alloc: Global, op: BinKind, a: Expr, c: Expr) -> Result<Expr, AllocError>
    ensures { IfOk result (λ x. view_expr x ≡ plain.binary op (view_expr a) (view_expr c)) }
{
    let a = Box::new(alloc, a)?;
    let c = Box::new(alloc, c)?;
    Ok(Expr::Bin(op, a, c))
}

/// A choice.
pub fn choose(alloc: Global, t: Expr, a: Expr, d: Expr) -> Result<Expr, AllocError>
    ensures { IfOk result (λ x. view_expr x ≡ plain.choose (view_expr t) (view_expr a) (view_expr d)) }
{
    let t = Box::new(alloc, t)?;
    let a = Box::new(alloc, a)?;
    let d = Box::new(alloc, d)?;
    Ok(Expr::Choose(t, a, d))
}

/// A change of width.
pub fn resize(alloc: Global, op: ResizeKind, a: Expr) -> Result<Expr, AllocError>
    ensures { IfOk result (λ x. view_expr x ≡ plain.resize op (view_expr a)) }
{
    let a = Box::new(alloc, a)?;
    Ok(Expr::Resize(op, a))
}

/// A conjunction over index tuples.
pub fn for_all(alloc: Global, sizes: SizeList, a: Expr) -> Result<Expr, AllocError>
    ensures { IfOk result (λ x. view_expr x ≡ plain.for_all sizes (view_expr a)) }
{
    let a = Box::new(alloc, a)?;
    Ok(Expr::ForAll(sizes, a))
}

/// A disjunction over index tuples.
pub fn exists(alloc: Global, sizes: SizeList, a: Expr) -> Result<Expr, AllocError>
    ensures { IfOk result (λ x. view_expr x ≡ plain.exists sizes (view_expr a)) }
{
    let a = Box::new(alloc, a)?;
    Ok(Expr::Exists(sizes, a))
}
