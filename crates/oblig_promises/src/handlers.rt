//! Handlers that are made ready, their questions and their cases.

ghost use Rattle.std.specs.Prelude.{◌≡◌, ◌<◌, List, Some, slice_get, nat_eq, length, IfOk};
ghost use Rattle.hk_term.specs.Meaning.{reading_of, value};
ghost use Rattle.ir_ast.specs.ProgramView.{view_module};
ghost use Rattle.ir_layout.specs.Layouts.{LayoutView, IsLayoutOf};
ghost use Rattle.hk_symmem.specs.Origins.{Origin, AreOriginsOf};
ghost use Rattle.spec_tree.specs.Plain as plain;
ghost use Rattle.spec_tree.specs.Sorted.{IsWellSorted};
ghost use Rattle.spec_tree.specs.View.{view_spec};
ghost use Rattle.spec_kernel.specs.Fit.{FitsModule};
ghost use Rattle.hk_case.specs.Obligations.{IsObligation};
ghost use Rattle.hk_oblig.specs.Cases.{case_at};
ghost use Rattle.hk_oblig.specs.Asking.{Asks, IsPrepared};

use hk_case::{Case, Obligation};
use hk_inst::Question;
use hk_oblig::Prepared;
use hk_symmem::InitialReads;
use hk_term::Valuation;
use ir_kernel::Kernel;
use spec_tree::Spec;
use std::alloc::{AllocError, Global};

/// A handler is made ready for all its questions.
pub fn prepare(alloc: Global, kernel: &Kernel, spec: &Spec, h: u32) -> Result<Prepared, AllocError>
    requires spec { IsWellSorted (view_spec spec.now) }
    requires fits { FitsModule (view_module kernel.now) (view_spec spec.now) }
    requires there { h < length spec.now.transitions }
    ensures { (t : plain.Transition) → slice_get (view_spec spec.now).transitions h ≡ Some t →
        IfOk result (λ p. IsPrepared (view_module kernel.now) (view_spec spec.now) t p) }
{
    let prepared = hk_oblig::prepare(alloc, kernel, spec, h)?;
    Ok(prepared)
}

/// The goal of an obligation's question is true exactly where a case violates the obligation.
pub fn question(
    alloc: Global,
    kernel: &Kernel,
    spec: &Spec,
    h: u32,
    o: Obligation,
) -> Result<Question, AllocError>
    requires spec { IsWellSorted (view_spec spec.now) }
    requires fits { FitsModule (view_module kernel.now) (view_spec spec.now) }
    requires there { h < length spec.now.transitions }
    requires owed { (t : plain.Transition) → slice_get (view_spec spec.now).transitions h ≡ Some t → IsObligation (view_spec spec.now) t o }
    ensures { (l : LayoutView) (t : plain.Transition) → IsLayoutOf (view_module kernel.now) l → slice_get (view_spec spec.now).transitions h ≡ Some t →
        IfOk result (λ q. (origins : List Origin) × AreOriginsOf l.objects origins ×
        Asks (view_module kernel.now) origins (view_spec spec.now) t o (λ v. nat_eq (value q.nodes q.goal v) 1)) }
{
    let asked = hk_oblig::question(alloc, kernel, spec, h, o)?;
    Ok(asked)
}

/// The case that a valuation gives has the arguments and the state that its numbers say.
pub fn case_of<R: InitialReads>(
    alloc: Global,
    kernel: &Kernel,
    spec: &Spec,
    h: u32,
    o: Obligation,
    reads: &R,
    v: &Valuation,
) -> Result<Case, AllocError>
    requires spec { IsWellSorted (view_spec spec.now) }
    requires there { h < length spec.now.transitions }
    requires origins { (l : LayoutView) → IsLayoutOf (view_module kernel.now) l → AreOriginsOf l.objects (R.origins reads.now) }
    ensures { (t : plain.Transition) → slice_get (view_spec spec.now).transitions h ≡ Some t →
        IfOk result (λ c. c ≡ case_at (R.origins reads.now) (view_spec spec.now) t o (reading_of v.now)) }
{
    let case = hk_oblig::case_of(alloc, kernel, spec, h, o, reads, v)?;
    Ok(case)
}
