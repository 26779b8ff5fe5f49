//! One proof, tried.

ghost use Rattle.std.specs.Prelude.{◌≡◌, ◌<◌, [], length, Some, slice_get, IfOk};
ghost use Rattle.ir_ast.specs.ProgramView.{view_module};
ghost use Rattle.ir_layout.specs.Layouts.{LayoutView, IsLayoutOf};
ghost use Rattle.hk_symmem.specs.Origins.{AreOriginsOf};
ghost use Rattle.spec_kernel.specs.Fit.{FitsModule};
ghost use Rattle.spec_tree.specs.Plain as plain;
ghost use Rattle.spec_tree.specs.Sorted.{IsWellSorted};
ghost use Rattle.spec_tree.specs.View.{view_spec};
ghost use Rattle.hk_case.specs.Obligations.{IsObligation};
ghost use Rattle.hk_oblig.specs.Asking.{IsPrepared};
ghost use Rattle.hk_proof.specs.declared.Proof.TheVariants.{AllCases};
ghost use Rattle.hk_decide.specs.Right.{IsSmall};
ghost use Rattle.hk_check.specs.Trials.{IsJudged, IsTriedOver, IsTried};

use crate::adding::add_all;
use crate::answers::Trial;
use hk_case::Obligation;
use hk_cnf::ClauseList;
use hk_exhaust::find_in_all;
use hk_inst::{InstanceList, Question};
use hk_lrat::{LratLog, RefuteStop, refutes};
use hk_oblig::{Prepared, cases_are_of_readings};
use hk_proof::Proof;
use ir_kernel::Kernel;
use spec_tree::Spec;
use std::alloc::{AllocError, Global};

// Tries a log over clauses.
fn judge(alloc: Global, clauses: ClauseList, log: &LratLog) -> Result<Trial, AllocError>
    ensures { IfOk result (IsJudged clauses log.now) }
{
    match refutes(alloc, &clauses, log) {
        Ok(()) => Ok(Trial::Shown),
        Err(RefuteStop::Row { row, reason }) => Ok(Trial::Refused {
            clauses,
            row,
            reason,
        }),
        Err(RefuteStop::Memory) => Err(AllocError),
    }
}

/// Tries a log over the clauses of a question, once these instances were added to it. The question is spent.
pub(crate) fn try_log(
    alloc: Global,
    question: Question,
    instances: &InstanceList,
    log: &LratLog,
) -> Result<Trial, AllocError>
    requires { question.instances ≡ [] }
    ensures { IfOk result (IsTriedOver question instances.now log.now) }
{
    let mut question = question;
    let added = add_all(alloc, &mut question, instances);
    let (kept, clauses) = question.into_parts();
    drop(kept);
    match added? {
        Some(place) => Ok(Trial::NoSuch { place }),
        None => judge(alloc, clauses, log),
    }
}

// Tries all cases of an obligation.
fn try_all(
    alloc: Global,
    kernel: &Kernel,
    spec: &Spec,
    h: u32,
    o: Obligation,
) -> Result<Trial, AllocError>
    requires spec { IsWellSorted (view_spec spec.now) }
    requires fits { FitsModule (view_module kernel.now) (view_spec spec.now) }
    requires there { h < length spec.now.transitions }
    requires owed { (t : plain.Transition) → slice_get (view_spec spec.now).transitions h ≡ Some t → IsObligation (view_spec spec.now) t o }
    requires small { (l : LayoutView) (t : plain.Transition) → IsLayoutOf (view_module kernel.now) l → slice_get (view_spec spec.now).transitions h ≡ Some t → IsSmall l.objects (view_spec spec.now) t o }
    ensures { (l : LayoutView) (t : plain.Transition) → IsLayoutOf (view_module kernel.now) l → slice_get (view_spec spec.now).transitions h ≡ Some t →
        IfOk result (IsTried (view_module kernel.now) l.objects (view_spec spec.now) t o AllCases) }
{
    match find_in_all(alloc, kernel, spec, h, o)? {
        Some(case) => Ok(Trial::Violated { case }),
        None => Ok(Trial::Shown),
    }
}

/// Tries a proof of an obligation: its log, over the clauses of the question to which its instances were added, or all cases.
pub(crate) fn try_proof(
    alloc: Global,
    kernel: &Kernel,
    spec: &Spec,
    h: u32,
    prepared: &mut Prepared,
    o: Obligation,
    proof: &Proof,
) -> Result<Trial, AllocError>
    requires spec { IsWellSorted (view_spec spec.now) }
    requires fits { FitsModule (view_module kernel.now) (view_spec spec.now) }
    requires there { h < length spec.now.transitions }
    requires prepared { (t : plain.Transition) → slice_get (view_spec spec.now).transitions h ≡ Some t → IsPrepared (view_module kernel.now) (view_spec spec.now) t prepared.old }
    requires origins { (l : LayoutView) → IsLayoutOf (view_module kernel.now) l → AreOriginsOf l.objects prepared.old.origins }
    requires owed { (t : plain.Transition) → slice_get (view_spec spec.now).transitions h ≡ Some t → IsObligation (view_spec spec.now) t o }
    requires small { proof.now ≡ AllCases → (l : LayoutView) (t : plain.Transition) → IsLayoutOf (view_module kernel.now) l → slice_get (view_spec spec.now).transitions h ≡ Some t →
        IsSmall l.objects (view_spec spec.now) t o }
    ensures tried { (l : LayoutView) (t : plain.Transition) → IsLayoutOf (view_module kernel.now) l → slice_get (view_spec spec.now).transitions h ≡ Some t →
        IfOk result (IsTried (view_module kernel.now) l.objects (view_spec spec.now) t o proof.now) }
    ensures prepared { (t : plain.Transition) → slice_get (view_spec spec.now).transitions h ≡ Some t → IsPrepared (view_module kernel.now) (view_spec spec.now) t prepared.new }
    ensures origins { prepared.new.origins ≡ prepared.old.origins }
{
    cases_are_of_readings();
    match proof {
        Proof::Refuted { instances, log } => {
            let question = prepared.question(alloc, kernel, spec, h, o)?;
            Ok(try_log(alloc, question, instances, log)?)
        }
        Proof::AllCases => Ok(try_all(alloc, kernel, spec, h, o)?),
    }
}
