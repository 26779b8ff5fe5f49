//! Whether an expression stands for something at some place.

ghost use Rattle.std.specs.Prelude.{◌≡◌, [], IfOk};
ghost use Rattle.spec_ast.specs.View.{view_expr as view_raw};
ghost use Rattle.spec_tree.specs.View.{view_expr};
ghost use Rattle.spec_scope.specs.Taking as definition;
ghost use Rattle.spec_scope.specs.View.{view_scope};
ghost use Rattle.spec_take.specs.Answers.{Gives};
ghost use Rattle.spec_take.specs.Fitting.{IsFitting, Stands};

use crate::asking::asked_index;
use crate::taken::take;
use spec_ast::RawExpr;
use spec_scope::{BoundNames, Kind, Scope, TakeStop};
use std::alloc::{AllocError, Global};

/// Whether an expression stands for something at the place that asks for this kind.
fn fits_at(alloc: Global, scope: &Scope<'_>, kind: Kind, e: &RawExpr) -> Result<bool, AllocError>
    ensures { IfOk result (Stands (view_scope scope.now) [] kind (view_raw e.now)) }
{
    let mut bound = BoundNames::new(alloc);
    match take(alloc, scope, &mut bound, kind, e) {
        Ok(tree) => {
            drop(tree);
            Ok(true)
        }
        Err(TakeStop::Unfit) => Ok(false),
        Err(TakeStop::Memory) => Err(AllocError),
    }
}

/// Whether there is a kind at which an expression, with no variables bound, stands for something.
#[tactic(auto, using(crate::proofs::Widest::fits_there, crate::proofs::Widest::fits_nowhere))]
pub fn fits_some(alloc: Global, scope: &Scope<'_>, e: &RawExpr) -> Result<bool, AllocError>
    ensures { IfOk result (IsFitting (view_scope scope.now) [] (view_raw e.now)) }
{
    match asked_index(scope, e) {
        Some(kind) => {
            let fits = fits_at(alloc, scope, kind, e)?;
            Ok(fits)
        }
        None => Ok(false),
    }
}
