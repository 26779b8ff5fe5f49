//! Checking the proofs of an accepted handler, as they are, with one part changed, and for another handler.

ghost use Rattle.std.specs.Prelude.{◌≤◌, ◌<◌, length};
ghost use Rattle.ir_ast.specs.ProgramView.{view_module};
ghost use Rattle.spec_kernel.specs.Fit.{FitsModule};
ghost use Rattle.spec_tree.specs.Sorted.{IsWellSorted};
ghost use Rattle.spec_tree.specs.View.{view_spec};

use crate::changes::{Change, all_by_cases, changed};
use crate::found::Told;
use crate::given::checked_as;
use hk_decide::decide;
use hk_inputs::Inputs;
use hk_proof::{Proof, ProofList};
use hk_verdict::Verdict;
use std::alloc::{AllocError, Global};

/// The proofs of the first handler, where it is accepted with this budget.
fn proofs_of(alloc: Global, inputs: &Inputs, budget: u64) -> Result<Option<ProofList>, AllocError>
    requires sorted { IsWellSorted (view_spec inputs.now.spec) }
    requires fits { FitsModule (view_module inputs.now.kernel) (view_spec inputs.now.spec) }
    requires there { 0 < length inputs.now.spec.transitions }
    requires budget { 1 ≤ budget }
{
    match decide(alloc, &inputs.kernel, &inputs.spec, 0, budget, true)? {
        Verdict::Accepted { proofs } => Ok(Some(proofs)),
        other => {
            drop(other);
            Ok(None)
        }
    }
}

/// The rows of the log of a proof.
fn rows_at(proofs: &[Proof], place: usize) -> u64 {
    match proofs.get(place) {
        Some(Proof::Refuted { log, .. }) => log.len() as u64,
        _ => 0,
    }
}

/// What checking proofs for a handler comes to, with the rows of the log of one.
fn told_of(
    alloc: Global,
    inputs: &Inputs,
    h: u32,
    proofs: &ProofList,
    place: usize,
) -> Result<Told, AllocError>
    requires sorted { IsWellSorted (view_spec inputs.now.spec) }
    requires fits { FitsModule (view_module inputs.now.kernel) (view_spec inputs.now.spec) }
    requires there { h < length inputs.now.spec.transitions }
{
    let rows = rows_at(proofs.as_slice(), place);
    match checked_as(alloc, &inputs.kernel, &inputs.spec, h, proofs)? {
        Some(found) => Ok(Some((found, rows))),
        None => Ok(None),
    }
}

/// What checking the proofs of the first handler comes to where the one at a place is changed.
pub fn told_of_changed(
    alloc: Global,
    inputs: &Inputs,
    budget: u64,
    place: usize,
    change: Change,
) -> Result<Told, AllocError>
    requires sorted { IsWellSorted (view_spec inputs.now.spec) }
    requires fits { FitsModule (view_module inputs.now.kernel) (view_spec inputs.now.spec) }
    requires there { 0 < length inputs.now.spec.transitions }
    requires budget { 1 ≤ budget }
{
    match proofs_of(alloc, inputs, budget)? {
        Some(proofs) => {
            let list = changed(alloc, proofs.as_slice(), place, change)?;
            told_of(alloc, inputs, 0, &list, place)
        }
        None => Ok(None),
    }
}

/// What checking the proofs of the first handler comes to for the second one.
pub fn told_of_second(alloc: Global, inputs: &Inputs, budget: u64) -> Result<Told, AllocError>
    requires sorted { IsWellSorted (view_spec inputs.now.spec) }
    requires fits { FitsModule (view_module inputs.now.kernel) (view_spec inputs.now.spec) }
    requires there { 0 < length inputs.now.spec.transitions }
    requires budget { 1 ≤ budget }
{
    if inputs.spec.transitions.as_slice().len() < 2 {
        return Ok(None);
    }
    match proofs_of(alloc, inputs, budget)? {
        Some(proofs) => told_of(alloc, inputs, 1, &proofs, 0),
        None => Ok(None),
    }
}

/// What checking comes to where the proofs of the first handler are that all cases were tried.
pub fn told_by_cases(alloc: Global, inputs: &Inputs, count: usize) -> Result<Told, AllocError>
    requires sorted { IsWellSorted (view_spec inputs.now.spec) }
    requires fits { FitsModule (view_module inputs.now.kernel) (view_spec inputs.now.spec) }
    requires there { 0 < length inputs.now.spec.transitions }
{
    let proofs = all_by_cases(alloc, count)?;
    told_of(alloc, inputs, 0, &proofs, 0)
}
