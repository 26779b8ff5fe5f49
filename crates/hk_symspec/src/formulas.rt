//! Truths behind their local names.

ghost use Rattle.std.specs.Prelude.{◌≡◌, ℕ, ◌^◌, ◌<◌, ◌≤◌, [], All, length, IfOk};
ghost use Rattle.hk_term.specs.Shape.{width, Grows};
ghost use Rattle.hk_term.specs.Meaning.{Reading, value};
ghost use Rattle.spec_tree.specs.Sorted.{AreLocals, IsSorted, width_of, with_locals};
ghost use Rattle.spec_tree.specs.Value as tree;
ghost use Rattle.spec_tree.specs.Value.{Env, bit, holds};
ghost use Rattle.spec_tree.specs.View.{view_expr, view_locals};
ghost use Rattle.spec_tree.specs.Meaning.{with_values};
ghost use Rattle.hk_symspec.specs.Formulas.{IsFormula, Reads, formula_context};

use crate::names::{formula_term, put_names};
use hk_symexpr::SymReads;
use hk_term::{TermId, Terms};
use spec_tree::{Body, Spec};
use std::alloc::{AllocError, Global};

// The number of bytes of each object is one of 32 bits.
pub(crate) fn objects_are_small(spec: &Spec) -> usize
    ensures { All (λ n. n < 2 ^ 64) spec.now.objects }
{
    let objects = spec.objects.as_slice();
    objects.len()
}

// The term of a truth behind its local names.
pub(crate) fn body_term<R: SymReads>(
    alloc: Global,
    t: &mut Terms,
    reads: &R,
    base: u32,
    body: &Body,
) -> Result<TermId, AllocError>
    requires over { R.is_over reads.now t.old }
    requires formula { IsFormula (R.named reads.now) (R.limit reads.now) t.old [] [] base }
    requires names { AreLocals (formula_context (R.named reads.now) [] [] base) (view_locals body.now.locals) }
    requires sorted { IsSorted (with_locals (formula_context (R.named reads.now) [] [] base) (view_locals body.now.locals)) (view_expr body.now.value) }
    requires truth { width_of (with_locals (formula_context (R.named reads.now) [] [] base) (view_locals body.now.locals)) (view_expr body.now.value) ≡ 1 }
    ensures within { IfOk result (λ r. r < length t.new) }
    ensures width { IfOk result (λ r. width t.new r ≡ 1) }
    ensures value { IfOk result (λ r. (v : Reading) (env : Env) → Reads (R.source reads.now t.old) (R.named reads.now) t.old [] [] base v env →
        value t.new r v ≡ bit (holds (tree.value (with_locals (formula_context (R.named reads.now) [] [] base) (view_locals body.now.locals))
        (with_values (formula_context (R.named reads.now) [] [] base) env (view_locals body.now.locals)) (view_expr body.now.value)))) }
    ensures keeps_widths { (k : ℕ) → k < length t.old → width t.new k ≡ width t.old k }
    ensures keeps_values { (k : ℕ) → k < length t.old → (v : Reading) → value t.new k v ≡ value t.old k v }
    ensures longer { length t.old ≤ length t.new }
    ensures grows { Grows t.old t.new }
    ensures over { R.is_over reads.now t.new }
{
    let mut locals = Vec::new(alloc);
    put_names(alloc, t, reads, &[], &mut locals, base, &body.locals)?;
    let made = formula_term(alloc, t, reads, &[], locals.as_slice(), base, &body.value)?;
    // For the proof: the truth's number is below 2 to its width.
    let _node = t.node(made);
    Ok(made)
}
