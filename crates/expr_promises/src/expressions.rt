//! Expressions as terms.

ghost use Rattle.std.specs.Prelude.{◌≡◌, ℕ, ◌+◌, ◌<◌, ◌≤◌, ◌^◌, All, length, IfOk};
ghost use Rattle.hk_term.specs.Meaning.{Reading, value};
ghost use Rattle.spec_tree.specs.Sorted.{IsFieldSort, IsSorted};
ghost use Rattle.spec_tree.specs.Value as tree;
ghost use Rattle.spec_tree.specs.Value.{Env};
ghost use Rattle.spec_tree.specs.View.{view_expr};
ghost use Rattle.hk_symexpr.specs.Scope.{scope_of};
ghost use Rattle.hk_symexpr.specs.Naming.{AreNames, Suits, context_of};

use hk_symexpr::{Names, SymReads};
use hk_term::{TermId, Terms};
use spec_tree::Expr;
use std::alloc::{AllocError, Global};

/// The term of an expression has, under every reading, the number that the expression has over what is read then.
pub fn term_of<R: SymReads>(
    alloc: Global,
    t: &mut Terms,
    reads: &R,
    names: &Names,
    e: &Expr,
) -> Result<TermId, AllocError>
    requires over { R.is_over reads.now t.old }
    requires names { AreNames t.old (scope_of names.now) }
    requires keys { length names.now.sizes.now ≡ length names.now.keys.now }
    requires ids { names.now.base + length names.now.sizes.now ≤ R.limit reads.now }
    requires fields { All IsFieldSort (R.named reads.now).fields }
    requires objects { All (λ n. n < 2 ^ 64) (R.named reads.now).objects }
    requires sorted { IsSorted (context_of (R.named reads.now) (scope_of names.now)) (view_expr e.now) }
    ensures { IfOk result (λ r. (v : Reading) (env : Env) →
        Suits (R.source reads.now t.old) (context_of (R.named reads.now) (scope_of names.now)) t.old (scope_of names.now) v env →
        value t.new r v ≡ tree.value (context_of (R.named reads.now) (scope_of names.now)) env (view_expr e.now)) }
{
    let made = hk_symexpr::term_of(alloc, t, reads, names, e)?;
    Ok(made)
}
