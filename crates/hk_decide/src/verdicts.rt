//! The verdict of a handler.

ghost use Rattle.std.specs.Prelude.{◌≡◌, ◌≤◌, ◌<◌, [], ℕ, true, false, length, List, Some, slice_get, IfOk, OnOk, IfSome, IfNone};
ghost use Rattle.ir_ast.specs.Program.{ModuleView};
ghost use Rattle.ir_ast.specs.ProgramView.{view_module};
ghost use Rattle.ir_layout.specs.Layouts.{LayoutView, IsLayoutOf};
ghost use Rattle.ir_layout.specs.declared.object.Object.{Object};
ghost use Rattle.spec_kernel.specs.Fit.{FitsModule};
ghost use Rattle.spec_tree.specs.Plain as plain;
ghost use Rattle.spec_tree.specs.Sorted.{IsWellSorted};
ghost use Rattle.spec_tree.specs.View.{view_spec};
ghost use Rattle.hk_case.specs.Obligations.{obligations_of};
ghost use Rattle.hk_verdict.specs.declared.verdict.Verdict.TheVariants.{Memory};
ghost use Rattle.hk_decide.specs.Right.{IsRight, IfAccepted, IsDecided, AreSmall};
ghost use Rattle.hk_decide.specs.SoFar.{Stands, IsKept, IsPassed, with_proof, with_spent, noted};
ghost use Rattle.hk_decide.specs.declared.found.Standing.TheVariants.{Holds};
ghost use Rattle.hk_decide.specs.declared.found.Tried.TheVariants.{Violated};

use crate::counted::count_of;
use crate::found::{Spent, Standing, Tried};
use crate::trying::try_one;
use hk_case::{Case, Obligation, obligations};
use hk_oblig::prepare;
use hk_proof::{Proof, ProofList};
use hk_seq::Seq;
use hk_verdict::Verdict;
use ir_kernel::Kernel;
use spec_tree::Spec;
use std::alloc::{AllocError, Global};

// The obligations of the handler with this place.
fn owed_by(alloc: Global, spec: &Spec, h: u32) -> Result<Seq<Obligation>, AllocError>
    requires there { h < length spec.now.transitions }
    ensures { (t : plain.Transition) → slice_get (view_spec spec.now).transitions h ≡ Some t → IfOk result (λ owed. owed ≡ obligations_of (view_spec spec.now) t) }
{
    // For the proof: there are fewer than 2^32 invariants, fields and properties each, or it ends for want of memory.
    let _invariants = count_of(spec.invariants.as_slice().len())?;
    let _fields = count_of(spec.fields.as_slice().len())?;
    let _properties = count_of(spec.properties.as_slice().len())?;
    let transition = &spec.transitions.as_slice()[h as usize];
    Ok(obligations(alloc, spec, transition)?)
}

// How no obligations stand.
fn at_first(alloc: Global) -> Standing
    ensures { result ≡ Holds [] }
{
    Standing::Holds(ProofList::new(alloc))
}

// Keeps the proof of the next obligation, if proofs are kept and no obligation is open.
fn keep_proof(standing: &mut Standing, proof: Proof, keep: bool) -> Result<(), AllocError>
    ensures { OnOk result (standing.new ≡ with_proof keep proof standing.old) }
{
    if !keep {
        drop(proof);
        return Ok(());
    }
    match standing {
        Standing::Holds(proofs) => Ok(proofs.push(proof)?),
        Standing::Open(_) => {
            drop(proof);
            Ok(())
        }
    }
}

// Takes the next obligation as open, unless an earlier one is.
fn leave_open(standing: &mut Standing, spent: Spent)
    ensures { standing.new ≡ with_spent spent standing.old }
{
    match standing {
        Standing::Holds(_) => *standing = Standing::Open(spent),
        Standing::Open(_) => drop(spent),
    }
}

// Takes what the next obligation came to: the case that violates it, or nothing where none is known.
fn note(standing: &mut Standing, tried: Tried, keep: bool) -> Result<Option<Case>, AllocError>
    ensures violated { IfOk result (λ found. IfSome found (λ c. tried ≡ Violated c)) }
    ensures passed { IfOk result (λ found. IfNone found (IsPassed tried)) }
    ensures noted { IfOk result (λ found. IfNone found (standing.new ≡ noted keep tried standing.old)) }
{
    match tried {
        Tried::Violated(case) => Ok(Some(case)),
        Tried::Never(proof) => {
            keep_proof(standing, proof, keep)?;
            Ok(None)
        }
        Tried::Spent(spent) => {
            leave_open(standing, spent);
            Ok(None)
        }
    }
}

// The verdict, where none of the obligations was found violated.
fn verdict_of(standing: Standing) -> Verdict
    ensures right { (budget : ℕ) (m : ModuleView) (objects : List Object) (s : plain.Spec) (t : plain.Transition) →
        Stands budget m objects s t (obligations_of s t) standing → IsRight budget m objects s t result }
    ensures kept { (count : ℕ) → IsKept true count standing → IfAccepted (λ proofs. length proofs ≡ count) result }
    ensures unkept { (count : ℕ) → IsKept false count standing → IfAccepted (λ proofs. proofs ≡ []) result }
    ensures decided { result ≡ Memory → ⊥ }
{
    match standing {
        Standing::Holds(proofs) => Verdict::Accepted { proofs },
        Standing::Open(spent) => Verdict::Unknown {
            obligation: spent.obligation,
            instances: spent.instances,
            clauses: spent.clauses,
            log: spent.log,
        },
    }
}

/// Decides the handler with this place. Its obligations are tried in their order, each by its question with this budget of clauses to
/// learn; where the budget is spent over at most 16 case bits, all cases are tried. The first obligation that is found violated rejects
/// the handler; where there is none, the first whose budget is spent leaves it unknown; else it is accepted, with one proof for each
/// obligation where they are to be kept.
///
/// Want of memory is no verdict here. The conditions are a well-sorted specification that fits the kernel, a handler that exists, and a
/// budget of at least 1.
pub fn decide(
    alloc: Global,
    kernel: &Kernel,
    spec: &Spec,
    h: u32,
    budget: u64,
    keep: bool,
) -> Result<Verdict, AllocError>
    requires spec { IsWellSorted (view_spec spec.now) }
    requires fits { FitsModule (view_module kernel.now) (view_spec spec.now) }
    requires there { h < length spec.now.transitions }
    requires budget { 1 ≤ budget }
    ensures right { (l : LayoutView) (t : plain.Transition) → IsLayoutOf (view_module kernel.now) l → slice_get (view_spec spec.now).transitions h ≡ Some t →
        IfOk result (IsRight budget (view_module kernel.now) l.objects (view_spec spec.now) t) }
    ensures decided { IfOk result (λ verdict. verdict ≡ Memory → ⊥) }
    ensures small { (l : LayoutView) (t : plain.Transition) → IsLayoutOf (view_module kernel.now) l → slice_get (view_spec spec.now).transitions h ≡ Some t →
        AreSmall l.objects (view_spec spec.now) t → IfOk result IsDecided }
    ensures kept { (t : plain.Transition) → slice_get (view_spec spec.now).transitions h ≡ Some t → keep ≡ true →
        IfOk result (IfAccepted (λ proofs. length proofs ≡ length (obligations_of (view_spec spec.now) t))) }
    ensures unkept { keep ≡ false → IfOk result (IfAccepted (λ proofs. proofs ≡ [])) }
{
    let owed = owed_by(alloc, spec, h)?;
    let mut prepared = prepare(alloc, kernel, spec, h)?;
    let mut standing = at_first(alloc);
    'each: for obligation in owed.as_slice() {
        let obligation = *obligation;
        let tried = try_one(alloc, kernel, spec, h, &mut prepared, obligation, budget)?;
        match note(&mut standing, tried, keep)? {
            Some(case) => return Ok(Verdict::Rejected { obligation, case }),
            None => {}
        }
    }
    Ok(verdict_of(standing))
}
