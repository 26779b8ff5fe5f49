//! One obligation, tried.

ghost use Rattle.std.specs.Prelude.{◌≡◌, ◌≤◌, ◌<◌, ℕ, length, Some, slice_get, IfOk};
ghost use Rattle.ir_ast.specs.ProgramView.{view_module};
ghost use Rattle.ir_layout.specs.Layouts.{LayoutView, IsLayoutOf};
ghost use Rattle.hk_symmem.specs.Origins.{AreOriginsOf};
ghost use Rattle.spec_kernel.specs.Fit.{FitsModule};
ghost use Rattle.spec_tree.specs.Plain as plain;
ghost use Rattle.spec_tree.specs.Sorted.{IsWellSorted};
ghost use Rattle.spec_tree.specs.View.{view_spec};
ghost use Rattle.hk_case.specs.Obligations.{IsObligation};
ghost use Rattle.hk_oblig.specs.Asking.{IsPrepared};
ghost use Rattle.hk_cdcl.specs.Fresh.{IsSpent};
ghost use Rattle.hk_decide.specs.Right.{IsSmall, IsExactFor};
ghost use Rattle.hk_decide.specs.SoFar.{IsTried};

use crate::found::{Spent, Tried};
use hk_case::Obligation;
use hk_exhaust::{case_bits, find_in_all};
use hk_oblig::{Prepared, cases_are_of_readings};
use hk_proof::Proof;
use hk_settle::{Settled, settle};
use ir_kernel::Kernel;
use spec_tree::Spec;
use std::alloc::{AllocError, Global};

/// The most bits of a case that is tried with all others.
const MOST_BITS: u64 = 16;

// Tries an obligation of few cases by all of them.
fn try_all(
    alloc: Global,
    kernel: &Kernel,
    spec: &Spec,
    h: u32,
    o: Obligation,
) -> Result<Tried, AllocError>
    requires spec { IsWellSorted (view_spec spec.now) }
    requires fits { FitsModule (view_module kernel.now) (view_spec spec.now) }
    requires there { h < length spec.now.transitions }
    requires owed { (t : plain.Transition) → slice_get (view_spec spec.now).transitions h ≡ Some t → IsObligation (view_spec spec.now) t o }
    requires small { (l : LayoutView) (t : plain.Transition) → IsLayoutOf (view_module kernel.now) l → slice_get (view_spec spec.now).transitions h ≡ Some t → IsSmall l.objects (view_spec spec.now) t o }
    ensures { (budget : ℕ) (l : LayoutView) (t : plain.Transition) → IsLayoutOf (view_module kernel.now) l → slice_get (view_spec spec.now).transitions h ≡ Some t →
        IfOk result (IsTried budget (view_module kernel.now) l.objects (view_spec spec.now) t o) }
{
    match find_in_all(alloc, kernel, spec, h, o)? {
        Some(case) => Ok(Tried::Violated(case)),
        None => Ok(Tried::Never(Proof::AllCases)),
    }
}

// Leaves an obligation open whose budget is spent, unless its cases are few: then it is tried by all of them.
fn try_spent(
    alloc: Global,
    kernel: &Kernel,
    spec: &Spec,
    h: u32,
    spent: Spent,
) -> Result<Tried, AllocError>
    requires spec { IsWellSorted (view_spec spec.now) }
    requires fits { FitsModule (view_module kernel.now) (view_spec spec.now) }
    requires there { h < length spec.now.transitions }
    requires owed { (t : plain.Transition) → slice_get (view_spec spec.now).transitions h ≡ Some t → IsObligation (view_spec spec.now) t spent.obligation }
    ensures { (budget : ℕ) (l : LayoutView) (t : plain.Transition) → IsLayoutOf (view_module kernel.now) l → slice_get (view_spec spec.now).transitions h ≡ Some t →
        IsExactFor (view_module kernel.now) l.objects (view_spec spec.now) t spent.obligation spent.instances spent.clauses → IsSpent spent.clauses spent.log budget →
        IfOk result (IsTried budget (view_module kernel.now) l.objects (view_spec spec.now) t spent.obligation) }
{
    let o = spent.obligation;
    if case_bits(kernel, spec, h, o) > MOST_BITS {
        return Ok(Tried::Spent(spent));
    }
    drop(spent);
    Ok(try_all(alloc, kernel, spec, h, o)?)
}

/// Tries an obligation: by its question, and where the budget is spent by all cases, if these are few.
pub(crate) fn try_one(
    alloc: Global,
    kernel: &Kernel,
    spec: &Spec,
    h: u32,
    prepared: &mut Prepared,
    o: Obligation,
    budget: u64,
) -> Result<Tried, AllocError>
    requires spec { IsWellSorted (view_spec spec.now) }
    requires fits { FitsModule (view_module kernel.now) (view_spec spec.now) }
    requires there { h < length spec.now.transitions }
    requires budget { 1 ≤ budget }
    requires prepared { (t : plain.Transition) → slice_get (view_spec spec.now).transitions h ≡ Some t → IsPrepared (view_module kernel.now) (view_spec spec.now) t prepared.old }
    requires origins { (l : LayoutView) → IsLayoutOf (view_module kernel.now) l → AreOriginsOf l.objects prepared.old.origins }
    requires owed { (t : plain.Transition) → slice_get (view_spec spec.now).transitions h ≡ Some t → IsObligation (view_spec spec.now) t o }
    ensures tried { (l : LayoutView) (t : plain.Transition) → IsLayoutOf (view_module kernel.now) l → slice_get (view_spec spec.now).transitions h ≡ Some t →
        IfOk result (IsTried budget (view_module kernel.now) l.objects (view_spec spec.now) t o) }
    ensures prepared { (t : plain.Transition) → slice_get (view_spec spec.now).transitions h ≡ Some t → IsPrepared (view_module kernel.now) (view_spec spec.now) t prepared.new }
    ensures origins { prepared.new.origins ≡ prepared.old.origins }
{
    cases_are_of_readings();
    let question = prepared.question(alloc, kernel, spec, h, o)?;
    match settle(alloc, question, budget)? {
        Settled::Refuted { instances, log } => Ok(Tried::Never(Proof::Refuted { instances, log })),
        Settled::True { valuation } => {
            let case = prepared.case_of(alloc, kernel, spec, h, o, &valuation)?;
            Ok(Tried::Violated(case))
        }
        Settled::Spent {
            instances,
            clauses,
            log,
        } => {
            let spent = Spent {
                obligation: o,
                instances,
                clauses,
                log,
            };
            Ok(try_spent(alloc, kernel, spec, h, spent)?)
        }
    }
}
