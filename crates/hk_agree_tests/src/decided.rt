//! A handler, decided in two ways: by clauses, and by all cases.

ghost use Rattle.std.specs.Prelude.{◌≡◌, ◌<◌, Some, length, slice_get};
ghost use Rattle.ir_ast.specs.ProgramView.{view_module};
ghost use Rattle.ir_layout.specs.Layouts.{LayoutView, IsLayoutOf};
ghost use Rattle.spec_kernel.specs.Fit.{FitsModule};
ghost use Rattle.spec_tree.specs.Plain as plain;
ghost use Rattle.spec_tree.specs.Sorted.{IsWellSorted};
ghost use Rattle.spec_tree.specs.View.{view_spec};
ghost use Rattle.hk_case.specs.Obligations.{IsObligation, obligations_of};
ghost use Rattle.hk_decide.specs.Right.{IsRefuted};

use hk_case::{Case, Obligation};
use hk_decide::decide;
use hk_exhaust::{case_bits, find_in_all, violates};
use hk_inputs::{Inputs, owed_by};
use hk_proof::Proof;
use hk_verdict::Verdict;
use ir_kernel::Kernel;
use spec_tree::Spec;
use std::alloc::{AllocError, Global};

/// The clauses that the solver may learn for an obligation, which are more than any here takes.
const BUDGET: u64 = 1_000_000;

/// What deciding by clauses comes to.
#[derive(Clone, Copy)]
pub enum ByClauses {
    /// Each obligation has a refutation.
    Accepted,
    /// The first violated obligation, and whether the case that comes with it violates it by the test of single cases.
    Rejected(Obligation, bool),
    /// The budget was spent, so that all cases were tried, or nothing is known.
    Open,
}

/// What trying all cases comes to.
#[derive(Clone, Copy)]
pub enum ByCases {
    /// No case violates an obligation.
    Accepted,
    /// The first obligation that a case violates.
    Rejected(Obligation),
    /// An obligation has too many cases.
    Wide,
}

/// Whether all proofs are refutations.
fn are_refutations(proofs: &[Proof]) -> bool {
    for proof in proofs {
        if matches!(proof, Proof::AllCases) {
            return false;
        }
    }
    true
}

/// Whether the case of a rejection violates its obligation, by the test of single cases.
fn is_confirmed(
    alloc: Global,
    kernel: &Kernel,
    spec: &Spec,
    h: u32,
    obligation: Obligation,
    case: &Case,
) -> Result<bool, AllocError>
    requires sorted { IsWellSorted (view_spec spec.now) }
    requires fits { FitsModule (view_module kernel.now) (view_spec spec.now) }
    requires there { h < length spec.now.transitions }
    requires refuted { (l : LayoutView) (t : plain.Transition) → IsLayoutOf (view_module kernel.now) l → slice_get (view_spec spec.now).transitions h ≡ Some t →
        IsRefuted (view_module kernel.now) l.objects (view_spec spec.now) t obligation case.now }
{
    let _layout = kernel.layout();
    let confirmed = violates(alloc, kernel, spec, h, obligation, case)?;
    Ok(confirmed)
}

/// Decides the handler by clauses.
fn by_clauses(alloc: Global, kernel: &Kernel, spec: &Spec, h: u32) -> Result<ByClauses, AllocError>
    requires sorted { IsWellSorted (view_spec spec.now) }
    requires fits { FitsModule (view_module kernel.now) (view_spec spec.now) }
    requires there { h < length spec.now.transitions }
{
    let verdict = decide(alloc, kernel, spec, h, BUDGET, true)?;
    match verdict {
        Verdict::Accepted { proofs } => {
            if are_refutations(proofs.as_slice()) {
                Ok(ByClauses::Accepted)
            } else {
                Ok(ByClauses::Open)
            }
        }
        Verdict::Rejected { obligation, case } => {
            let confirmed = is_confirmed(alloc, kernel, spec, h, obligation, &case)?;
            Ok(ByClauses::Rejected(obligation, confirmed))
        }
        other => {
            drop(other);
            Ok(ByClauses::Open)
        }
    }
}

/// Tries an obligation by all cases: whether one violates it; nothing where there are too many.
fn try_cases(
    alloc: Global,
    kernel: &Kernel,
    spec: &Spec,
    h: u32,
    o: Obligation,
) -> Result<Option<bool>, AllocError>
    requires sorted { IsWellSorted (view_spec spec.now) }
    requires fits { FitsModule (view_module kernel.now) (view_spec spec.now) }
    requires there { h < length spec.now.transitions }
    requires owed { (t : plain.Transition) → slice_get (view_spec spec.now).transitions h ≡ Some t → IsObligation (view_spec spec.now) t o }
{
    if case_bits(kernel, spec, h, o) > 16 {
        return Ok(None);
    }
    match find_in_all(alloc, kernel, spec, h, o)? {
        Some(case) => {
            drop(case);
            Ok(Some(true))
        }
        None => Ok(Some(false)),
    }
}

/// Decides the handler by all cases of its obligations, in their order.
fn by_cases(
    alloc: Global,
    kernel: &Kernel,
    spec: &Spec,
    h: u32,
    owed: &[Obligation],
) -> Result<ByCases, AllocError>
    requires sorted { IsWellSorted (view_spec spec.now) }
    requires fits { FitsModule (view_module kernel.now) (view_spec spec.now) }
    requires there { h < length spec.now.transitions }
    requires owed { (t : plain.Transition) → slice_get (view_spec spec.now).transitions h ≡ Some t → owed.now ≡ obligations_of (view_spec spec.now) t }
{
    'each: for place in 0..owed.len() {
        let obligation = owed[place];
        match try_cases(alloc, kernel, spec, h, obligation)? {
            Some(true) => return Ok(ByCases::Rejected(obligation)),
            Some(false) => {}
            None => return Ok(ByCases::Wide),
        }
    }
    Ok(ByCases::Accepted)
}

/// The fewest and the most bits of a case of the handler's obligations.
#[derive(Clone, Copy)]
pub struct Bits {
    pub fewest: u64,
    pub most: u64,
}

/// The bits of the cases of obligations.
fn bits_of(kernel: &Kernel, spec: &Spec, h: u32, owed: &[Obligation]) -> Bits
    requires sorted { IsWellSorted (view_spec spec.now) }
    requires there { h < length spec.now.transitions }
{
    let mut fewest = u64::MAX;
    let mut most: u64 = 0;
    for obligation in owed {
        let bits = case_bits(kernel, spec, h, *obligation);
        fewest = fewest.min(bits);
        most = most.max(bits);
    }
    Bits { fewest, most }
}

/// What both ways say of a handler, and of how many cases.
#[derive(Clone, Copy)]
pub struct Decided {
    pub bits: Bits,
    pub by_clauses: ByClauses,
    pub by_cases: ByCases,
}

/// Decides a handler in both ways.
fn decide_at(alloc: Global, kernel: &Kernel, spec: &Spec, h: u32) -> Result<Decided, AllocError>
    requires sorted { IsWellSorted (view_spec spec.now) }
    requires fits { FitsModule (view_module kernel.now) (view_spec spec.now) }
    requires there { h < length spec.now.transitions }
{
    let owed = owed_by(alloc, spec, h)?;
    let bits = bits_of(kernel, spec, h, owed.as_slice());
    let by_clauses = by_clauses(alloc, kernel, spec, h)?;
    let by_cases = by_cases(alloc, kernel, spec, h, owed.as_slice())?;
    Ok(Decided {
        bits,
        by_clauses,
        by_cases,
    })
}

/// Decides the first handler in both ways, where there is one.
pub fn decide_both(alloc: Global, inputs: &Inputs) -> Result<Option<Decided>, AllocError>
    requires sorted { IsWellSorted (view_spec inputs.now.spec) }
    requires fits { FitsModule (view_module inputs.now.kernel) (view_spec inputs.now.spec) }
{
    if inputs.spec.transitions.as_slice().len() == 0 {
        return Ok(None);
    }
    let decided = decide_at(alloc, &inputs.kernel, &inputs.spec, 0)?;
    Ok(Some(decided))
}
