//! Local names, in order.

ghost use Rattle.std.specs.Prelude.{◌≡◌, ℕ, ◌<◌, ◌≤◌, length, IfOk, OnOk};
ghost use Rattle.hk_term.specs.Shape.{width, Grows};
ghost use Rattle.hk_term.specs.Meaning.{Reading, value};
ghost use Rattle.spec_tree.specs.Sorted.{AreLocals, IsSorted, width_of, with_local, with_locals};
ghost use Rattle.spec_tree.specs.Value as tree;
ghost use Rattle.spec_tree.specs.Value.{Env};
ghost use Rattle.spec_tree.specs.View.{view_expr, view_locals};
ghost use Rattle.spec_tree.specs.Meaning.{with_value, with_values};
ghost use Rattle.hk_symspec.specs.Formulas.{IsFormula, Reads, formula_context};

use hk_symexpr::{NamedTerm, Names, SymReads, term_of};
use hk_term::{TermId, Terms};
use spec_tree::{Expr, ExprList};
use std::alloc::{AllocError, Global};

// The term of an expression of a formula.
pub(crate) fn formula_term<R: SymReads>(
    alloc: Global,
    t: &mut Terms,
    reads: &R,
    args: &[NamedTerm],
    locals: &[NamedTerm],
    base: u32,
    e: &Expr,
) -> Result<TermId, AllocError>
    requires over { R.is_over reads.now t.old }
    requires formula { IsFormula (R.named reads.now) (R.limit reads.now) t.old args.now locals.now base }
    requires sorted { IsSorted (formula_context (R.named reads.now) args.now locals.now base) (view_expr e.now) }
    ensures within { IfOk result (λ r. r < length t.new) }
    ensures width { IfOk result (λ r. width t.new r ≡ width_of (formula_context (R.named reads.now) args.now locals.now base) (view_expr e.now)) }
    ensures value { IfOk result (λ r. (v : Reading) (env : Env) →
        Reads (R.source reads.now t.old) (R.named reads.now) t.old args.now locals.now base v env →
        value t.new r v ≡ tree.value (formula_context (R.named reads.now) args.now locals.now base) env (view_expr e.now)) }
    ensures keeps_widths { (k : ℕ) → k < length t.old → width t.new k ≡ width t.old k }
    ensures keeps_values { (k : ℕ) → k < length t.old → (v : Reading) → value t.new k v ≡ value t.old k v }
    ensures longer { length t.old ≤ length t.new }
    ensures grows { Grows t.old t.new }
    ensures over { R.is_over reads.now t.new }
    ensures source { (v : Reading) → R.source reads.now t.new v ≡ R.source reads.now t.old v }
{
    let names = Names {
        args,
        locals,
        keys: &[],
        sizes: &[],
        known: &[],
        base,
    };
    let made = term_of(alloc, t, reads, &names, e)?;
    Ok(made)
}

// Puts the term of an expression as the next local name.
pub(crate) fn put_name<R: SymReads>(
    alloc: Global,
    t: &mut Terms,
    reads: &R,
    args: &[NamedTerm],
    locals: &mut Vec<NamedTerm>,
    base: u32,
    e: &Expr,
) -> Result<(), AllocError>
    requires over { R.is_over reads.now t.old }
    requires formula { IsFormula (R.named reads.now) (R.limit reads.now) t.old args.now locals.old.items base }
    requires sorted { IsSorted (formula_context (R.named reads.now) args.now locals.old.items base) (view_expr e.now) }
    ensures formula { OnOk result (IsFormula (R.named reads.now) (R.limit reads.now) t.new args.now locals.new.items base) }
    ensures context { OnOk result (formula_context (R.named reads.now) args.now locals.new.items base ≡ with_local (formula_context (R.named reads.now) args.now locals.old.items base) (view_expr e.now)) }
    ensures reads { OnOk result ((v : Reading) (env : Env) →
        Reads (R.source reads.now t.old) (R.named reads.now) t.old args.now locals.old.items base v env →
        Reads (R.source reads.now t.new) (R.named reads.now) t.new args.now locals.new.items base v
        (with_value (formula_context (R.named reads.now) args.now locals.old.items base) env (view_expr e.now))) }
    ensures keeps_widths { (k : ℕ) → k < length t.old → width t.new k ≡ width t.old k }
    ensures keeps_values { (k : ℕ) → k < length t.old → (v : Reading) → value t.new k v ≡ value t.old k v }
    ensures longer { length t.old ≤ length t.new }
    ensures grows { Grows t.old t.new }
    ensures over { R.is_over reads.now t.new }
    ensures source { (v : Reading) → R.source reads.now t.new v ≡ R.source reads.now t.old v }
{
    let term = formula_term(alloc, t, reads, args, locals.as_slice(), base, e)?;
    let width = t.width(term);
    locals.push(NamedTerm { term, width })?;
    Ok(())
}

// Puts local names in order, each over the earlier ones.
pub(crate) fn put_names<R: SymReads>(
    alloc: Global,
    t: &mut Terms,
    reads: &R,
    args: &[NamedTerm],
    locals: &mut Vec<NamedTerm>,
    base: u32,
    names: &ExprList,
) -> Result<(), AllocError>
    requires over { R.is_over reads.now t.old }
    requires formula { IsFormula (R.named reads.now) (R.limit reads.now) t.old args.now locals.old.items base }
    requires sorted { AreLocals (formula_context (R.named reads.now) args.now locals.old.items base) (view_locals names.now) }
    ensures formula { OnOk result (IsFormula (R.named reads.now) (R.limit reads.now) t.new args.now locals.new.items base) }
    ensures context { OnOk result (formula_context (R.named reads.now) args.now locals.new.items base ≡ with_locals (formula_context (R.named reads.now) args.now locals.old.items base) (view_locals names.now)) }
    ensures reads { OnOk result ((v : Reading) (env : Env) →
        Reads (R.source reads.now t.old) (R.named reads.now) t.old args.now locals.old.items base v env →
        Reads (R.source reads.now t.new) (R.named reads.now) t.new args.now locals.new.items base v
        (with_values (formula_context (R.named reads.now) args.now locals.old.items base) env (view_locals names.now))) }
    ensures keeps_widths { (k : ℕ) → k < length t.old → width t.new k ≡ width t.old k }
    ensures keeps_values { (k : ℕ) → k < length t.old → (v : Reading) → value t.new k v ≡ value t.old k v }
    ensures longer { length t.old ≤ length t.new }
    ensures grows { Grows t.old t.new }
    ensures over { R.is_over reads.now t.new }
    ensures source { (v : Reading) → R.source reads.now t.new v ≡ R.source reads.now t.old v }
{
    'each: for e in names.items.as_slice() {
        put_name(alloc, t, reads, args, locals, base, e)?;
    }
    Ok(())
}
