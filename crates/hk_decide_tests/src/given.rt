//! Proofs that are given for a handler, checked where they may stand for its obligations.

ghost use Rattle.std.specs.Prelude.{◌≡◌, ◌<◌, IsTrue, Some, slice_get, slice_index_or, length};
ghost use Rattle.ir_ast.specs.ProgramView.{view_module};
ghost use Rattle.ir_layout.specs.Layouts.{LayoutView, IsLayoutOf};
ghost use Rattle.spec_kernel.specs.Fit.{FitsModule};
ghost use Rattle.spec_tree.specs.Plain as plain;
ghost use Rattle.spec_tree.specs.Sorted.{IsWellSorted};
ghost use Rattle.spec_tree.specs.View.{view_spec};
ghost use Rattle.hk_case.specs.Obligations.{obligations_of};
ghost use Rattle.hk_proof.specs.declared.Proof as definition;
ghost use Rattle.hk_proof.specs.declared.Proof.TheVariants.{AllCases};
ghost use Rattle.hk_decide.specs.Right.{IsSmall};
ghost use Rattle.hk_check.specs.Told.{AreFew};

use crate::found::{Found, found_of};
use hk_case::Obligation;
use hk_check::check;
use hk_exhaust::case_bits;
use hk_inputs::owed_by;
use hk_proof::{Proof, ProofList};
use ir_kernel::Kernel;
use spec_tree::Spec;
use std::alloc::{AllocError, Global};

/// The proof at a place.
fn proof_at(given: &[Proof], place: usize) -> &Proof
    requires { place < length given.now }
    ensures { (d : definition.Proof) → result.now ≡ slice_index_or given.now place d }
{
    &given[place]
}

/// Whether a proof may stand for an obligation: that all cases were tried, only where they are few.
fn may_stand(kernel: &Kernel, spec: &Spec, h: u32, o: Obligation, proof: &Proof) -> bool
    requires spec { IsWellSorted (view_spec spec.now) }
    requires there { h < length spec.now.transitions }
    ensures { (l : LayoutView) (t : plain.Transition) → IsLayoutOf (view_module kernel.now) l → slice_get (view_spec spec.now).transitions h ≡ Some t →
        IsTrue result → proof.now ≡ AllCases → IsSmall l.objects (view_spec spec.now) t o }
{
    match proof {
        Proof::Refuted { .. } => true,
        Proof::AllCases => case_bits(kernel, spec, h, o) <= 16,
    }
}

/// Whether each of these proofs may stand for its obligation.
fn may_all_stand(kernel: &Kernel, spec: &Spec, h: u32, owed: &[Obligation], given: &[Proof]) -> bool
    requires spec { IsWellSorted (view_spec spec.now) }
    requires there { h < length spec.now.transitions }
    requires owed { (t : plain.Transition) → slice_get (view_spec spec.now).transitions h ≡ Some t → owed.now ≡ obligations_of (view_spec spec.now) t }
    requires count { length given.now ≡ length owed.now }
    ensures { (l : LayoutView) (t : plain.Transition) → IsLayoutOf (view_module kernel.now) l → slice_get (view_spec spec.now).transitions h ≡ Some t →
        IsTrue result → AreFew l.objects (view_spec spec.now) t given.now }
{
    'each: for place in 0..owed.len() {
        let obligation = owed[place];
        let proof = proof_at(given, place);
        if !may_stand(kernel, spec, h, obligation, proof) {
            return false;
        }
    }
    true
}

/// What checking these proofs of a handler comes to, where there are as many as obligations and each may stand for its own.
pub fn checked_as(
    alloc: Global,
    kernel: &Kernel,
    spec: &Spec,
    h: u32,
    proofs: &ProofList,
) -> Result<Option<Found>, AllocError>
    requires spec { IsWellSorted (view_spec spec.now) }
    requires fits { FitsModule (view_module kernel.now) (view_spec spec.now) }
    requires there { h < length spec.now.transitions }
{
    let list = owed_by(alloc, spec, h)?;
    let owed = list.as_slice();
    let given = proofs.as_slice();
    if given.len() != owed.len() {
        return Ok(None);
    }
    if !may_all_stand(kernel, spec, h, owed, given) {
        return Ok(None);
    }
    Ok(Some(found_of(check(alloc, kernel, spec, h, proofs)?)))
}
