//! The term of an expression.

ghost use Rattle.std.specs.Prelude.{◌≡◌, ℕ, ◌+◌, ◌<◌, ◌≤◌, ◌^◌, All, length, IfOk};
ghost use Rattle.hk_term.specs.Shape.{width, Grows};
ghost use Rattle.hk_term.specs.Meaning.{Reading, value};
ghost use Rattle.spec_tree.specs.Sorted.{IsFieldSort, IsSorted, width_of};
ghost use Rattle.spec_tree.specs.Value as tree;
ghost use Rattle.spec_tree.specs.Value.{Env};
ghost use Rattle.spec_tree.specs.View.{view_expr};
ghost use Rattle.hk_symexpr.specs.Scope.{scope_of};
ghost use Rattle.hk_symexpr.specs.Naming.{AreNames, Suits, context_of};

use crate::build::term;
use crate::names::Names;
use crate::reads::SymReads;
use hk_term::{TermId, Terms};
use spec_tree::Expr;
use std::alloc::{AllocError, Global};

/// The term of a well-sorted expression. Under every reading it has the number that the expression has over what is read then.
/// Its error is want of memory, or of ids for variables of quantifiers, which end before those of what is read.
pub fn term_of<R: SymReads>(
    alloc: Global,
    t: &mut Terms,
    reads: &R,
    names: &Names,
    e: &Expr,
) -> Result<TermId, AllocError>
    requires over { R.is_over reads.now t.old }
    requires names { AreNames t.old (scope_of names.now) }
    requires keys { length names.now.sizes.now ≡ length names.now.keys.now }
    requires ids { names.now.base + length names.now.sizes.now ≤ R.limit reads.now }
    requires fields { All IsFieldSort (R.named reads.now).fields }
    requires objects { All (λ n. n < 2 ^ 64) (R.named reads.now).objects }
    requires sorted { IsSorted (context_of (R.named reads.now) (scope_of names.now)) (view_expr e.now) }
    ensures within { IfOk result (λ r. r < length t.new) }
    ensures width { IfOk result (λ r. width t.new r ≡ width_of (context_of (R.named reads.now) (scope_of names.now)) (view_expr e.now)) }
    ensures value { IfOk result (λ r. (v : Reading) (env : Env) →
        Suits (R.source reads.now t.old) (context_of (R.named reads.now) (scope_of names.now)) t.old (scope_of names.now) v env →
        value t.new r v ≡ tree.value (context_of (R.named reads.now) (scope_of names.now)) env (view_expr e.now)) }
    ensures keeps_widths { (k : ℕ) → k < length t.old → width t.new k ≡ width t.old k }
    ensures keeps_values { (k : ℕ) → k < length t.old → (v : Reading) → value t.new k v ≡ value t.old k v }
    ensures longer { length t.old ≤ length t.new }
    ensures grows { Grows t.old t.new }
    ensures over { R.is_over reads.now t.new }
    ensures source { (v : Reading) → R.source reads.now t.new v ≡ R.source reads.now t.old v }
{
    // For the proof: the limit of the variables' ids is below 2^32.
    let _limit = reads.limit();
    let made = term(alloc, t, reads, names, e)?;
    Ok(made)
}
