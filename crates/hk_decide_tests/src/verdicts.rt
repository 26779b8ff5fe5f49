//! What a verdict has with it: proofs where they are kept, and what was spent where an obligation stays open.

ghost use Rattle.std.specs.Prelude.{◌≤◌, ◌<◌, length};
ghost use Rattle.ir_ast.specs.ProgramView.{view_module};
ghost use Rattle.spec_kernel.specs.Fit.{FitsModule};
ghost use Rattle.spec_tree.specs.Sorted.{IsWellSorted};
ghost use Rattle.spec_tree.specs.View.{view_spec};

use hk_case::Obligation;
use hk_decide::{decide, open};
use hk_inputs::Inputs;
use hk_proof::Proof;
use hk_verdict::{InitVerdict, Verdict};
use std::alloc::{AllocError, Global};

/// What is seen of a verdict.
#[derive(Clone, Copy)]
pub enum Seen {
    /// It is accepted, with so many refutations and so many trials of all cases.
    Accepted(usize, usize),
    Rejected(Obligation),
    /// This obligation is open, with a log of so many rows.
    Unknown(Obligation, usize),
    Memory,
}

/// How many proofs are refutations.
fn refutations(proofs: &[Proof]) -> usize {
    let mut count: usize = 0;
    for proof in proofs {
        if matches!(proof, Proof::Refuted { .. }) {
            count = count.saturating_add(1);
        }
    }
    count
}

/// What is seen of the verdict on the first handler.
pub fn seen_of(alloc: Global, inputs: &Inputs, budget: u64, keep: bool) -> Result<Seen, AllocError>
    requires sorted { IsWellSorted (view_spec inputs.now.spec) }
    requires fits { FitsModule (view_module inputs.now.kernel) (view_spec inputs.now.spec) }
    requires there { 0 < length inputs.now.spec.transitions }
    requires budget { 1 ≤ budget }
{
    match decide(alloc, &inputs.kernel, &inputs.spec, 0, budget, keep)? {
        Verdict::Accepted { proofs } => {
            let count = refutations(proofs.as_slice());
            Ok(Seen::Accepted(count, proofs.len().saturating_sub(count)))
        }
        Verdict::Rejected { obligation, case } => {
            drop(case);
            Ok(Seen::Rejected(obligation))
        }
        Verdict::Unknown {
            obligation,
            instances,
            clauses,
            log,
        } => {
            drop(instances);
            drop(clauses);
            Ok(Seen::Unknown(obligation, log.len()))
        }
        Verdict::Memory => Ok(Seen::Memory),
    }
}

/// What is told of what is seen.
pub fn seen_text(alloc: Global, seen: Seen) -> Result<String, AllocError> {
    match seen {
        Seen::Accepted(refuted, tried) => {
            format!(in alloc; "accepted, {refuted} refuted, {tried} tried")
        }
        Seen::Rejected(obligation) => format!(in alloc; "rejected {obligation:?}"),
        Seen::Unknown(obligation, rows) => {
            format!(in alloc; "unknown {obligation:?}, a log of {rows}")
        }
        Seen::Memory => String::from_str(alloc, "memory"),
    }
}

/// What is told of the opening.
pub fn opening_told(alloc: Global, inputs: &Inputs) -> Result<String, AllocError>
    requires sorted { IsWellSorted (view_spec inputs.now.spec) }
    requires fits { FitsModule (view_module inputs.now.kernel) (view_spec inputs.now.spec) }
{
    match open(alloc, &inputs.kernel, &inputs.spec)? {
        InitVerdict::Holds => String::from_str(alloc, "holds"),
        _ => String::from_str(alloc, "fails"),
    }
}
