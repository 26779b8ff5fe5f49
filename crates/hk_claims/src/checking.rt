//! Acceptances, checked again.

ghost use Rattle.std.specs.Prelude.{◌≡◌, ◌≤◌, ◌<◌, ◌+◌, ◌^◌, [], ◌∷◌, ℕ, Some, IfOk, IfErr, OnOk, OnErr, length, slice_get, slice_index_or, vec_len};
ghost use Rattle.std.specs.Vec.{vec_capacity};
ghost use Rattle.hk_io.specs.Faults.{Rose};
ghost use Rattle.hk_io.specs.Shown.{shown_with, ShowsPrefix};
ghost use Rattle.ir_ast.specs.ProgramView.{view_module};
ghost use Rattle.ir_layout.specs.Layouts.{LayoutView, IsLayoutOf};
ghost use Rattle.spec_kernel.specs.Fit.{FitsModule};
ghost use Rattle.spec_tree.specs.Plain as plain;
ghost use Rattle.spec_tree.specs.Sorted.{IsWellSorted};
ghost use Rattle.spec_tree.specs.View.{view_spec, view_transition};
ghost use Rattle.hk_case.specs.Obligations.{obligations_of};
ghost use Rattle.hk_proof.specs.declared.Proof as definition;
ghost use Rattle.hk_lrat.specs.declared.log.RowReason.TheVariants.{L7};
ghost use Rattle.hk_verdict.specs.declared.verdict.Verdict.TheVariants.{Unknown};
ghost use Rattle.hk_cert_text.specs.declared.entry.Entry.TheVariants.{Accept};
ghost use Rattle.hk_check.specs.Told.{AreFew};
ghost use Rattle.hk_claims.specs.Checks.{Adds, AreChecked, Stops, StopsOne, verdict_line};
ghost use Rattle.hk_claims.specs.Keeping.{IsKeptOf, IsStopOf, SaysWhy};
ghost use Rattle.hk_claims.specs.Lines.{unclaimed_line};
ghost use Rattle.hk_claims.specs.declared.stop.ClaimStop.TheVariants.{Write as StopWrite};
ghost use Rattle.hk_claims.specs.Fitting.{AllFit, Fits, line_of_instance, lines_of_proof, lines_of_proofs};

use crate::lines::{put_checked, put_refused, put_unclaimed};
use crate::stop::ClaimStop;
use hk_case::Obligation;
use hk_cert_text::Entry;
use hk_check::{Checked, check};
use hk_cnf::ClauseList;
use hk_decide::Handler;
use hk_inst::InstanceList;
use hk_io::{Sink, SinkFault};
use hk_lrat::{LratLog, RowReason};
use hk_proof::{Proof, ProofList};
use hk_verdict::Verdict;
use ir_kernel::Kernel;
use spec_tree::{Spec, Transition};
use std::alloc::{AllocError, Global};

// ---- lines of a certificate

/// How many lines a proof takes, with that of its obligation.
fn lines_of(proof: &Proof) -> u64
    ensures { lines_of_proof proof.now < 2 ^ 64 → result ≡ lines_of_proof proof.now }
{
    match proof {
        Proof::Refuted { instances, log } => (instances.as_slice().len() as u64)
            .saturating_add(log.as_slice().len() as u64)
            .saturating_add(2),
        Proof::AllCases => 2,
    }
}

/// How many lines proofs take.
fn lines_of_all(proofs: &[Proof]) -> u64
    ensures { lines_of_proofs proofs.now < 2 ^ 64 → result ≡ lines_of_proofs proofs.now }
{
    let mut lines: u64 = 0;
    for proof in proofs {
        lines = lines.saturating_add(lines_of(proof));
    }
    lines
}

/// The line of an instance of the proof at a place, of an acceptance at this line.
fn line_of(at: u32, proofs: &[Proof], place: usize, instance: usize) -> u32
    requires { place ≤ length proofs.now }
    ensures { line_of_instance at proofs.now place instance < 2 ^ 32 → result ≡ line_of_instance at proofs.now place instance }
{
    let line = (at as u64)
        .saturating_add(lines_of_all(&proofs[..place]))
        .saturating_add(instance as u64)
        .saturating_add(2);
    if line > u32::MAX as u64 {
        u32::MAX
    } else {
        line as u32
    }
}

// ---- one acceptance

/// The instances of a list once more.
fn copy_of(alloc: Global, instances: &InstanceList) -> Result<InstanceList, AllocError>
    ensures { IfOk result (λ copy. copy ≡ instances.now) }
{
    let mut copy = Vec::new(alloc);
    for instance in instances.as_slice() {
        copy.push(instance.copy(alloc)?)?;
    }
    Ok(InstanceList::from_vec(copy))
}

/// What is kept of an acceptance that was checked. Where a log is refused, the row and the reason are those of its line.
#[derive(Drop)]
struct Kept {
    verdict: Verdict,
    row: u64,
    reason: RowReason,
}

/// A verdict that has no row.
fn rowless(verdict: Verdict) -> Kept
    ensures { result ≡ record { verdict = verdict; row = 0; reason = L7 } }
{
    Kept {
        verdict,
        row: 0,
        reason: RowReason::L7,
    }
}

/// Keeps a proof whose log is refused over these clauses.
fn keep_refused(
    alloc: Global,
    obligation: Obligation,
    instances: &InstanceList,
    clauses: ClauseList,
    log: &LratLog,
    row: u64,
    reason: RowReason,
) -> Result<Kept, AllocError>
    ensures { IfOk result (λ kept. kept ≡ record { verdict = Unknown obligation instances.now clauses log.now; row = row; reason = reason }) }
{
    let instances = copy_of(alloc, instances)?;
    let log = log.copy(alloc)?;
    Ok(Kept {
        verdict: Verdict::Unknown {
            obligation,
            instances,
            clauses,
            log,
        },
        row,
        reason,
    })
}

/// The proof at a place.
fn proof_at(proofs: &[Proof], place: usize) -> &Proof
    requires { place < length proofs.now }
    ensures { (d : definition.Proof) → result.now ≡ slice_index_or proofs.now place d }
{
    &proofs[place]
}

/// Checks the acceptance of the handler with this place, whose line is this one.
fn check_one(
    alloc: Global,
    kernel: &Kernel,
    spec: &Spec,
    place: u32,
    at: u32,
    proofs: &ProofList,
) -> Result<Kept, ClaimStop>
    requires sorted { IsWellSorted (view_spec spec.now) }
    requires fits { FitsModule (view_module kernel.now) (view_spec spec.now) }
    requires there { place < length spec.now.transitions }
    requires count { (t : plain.Transition) → slice_get (view_spec spec.now).transitions place ≡ Some t → length proofs.now ≡ length (obligations_of (view_spec spec.now) t) }
    requires few { (l : LayoutView) (t : plain.Transition) → IsLayoutOf (view_module kernel.now) l → slice_get (view_spec spec.now).transitions place ≡ Some t →
        AreFew l.objects (view_spec spec.now) t proofs.now }
    ensures kept { (t : plain.Transition) → slice_get (view_spec spec.now).transitions place ≡ Some t →
        IfOk result (IsKeptOf (view_module kernel.now) (view_spec spec.now) t proofs.now) }
    ensures stop { (t : plain.Transition) → slice_get (view_spec spec.now).transitions place ≡ Some t →
        IfErr result (IsStopOf (view_module kernel.now) (view_spec spec.now) t at proofs.now) }
{
    // For the proof: the kernel has a layout of its module.
    let _layout = kernel.layout();
    match check(alloc, kernel, spec, place, proofs)? {
        Checked::Holds => Ok(rowless(Verdict::Accepted {
            proofs: ProofList::new(alloc),
        })),
        Checked::Violated { obligation, case } => {
            Ok(rowless(Verdict::Rejected { obligation, case }))
        }
        Checked::Refused {
            proof,
            obligation,
            clauses,
            row,
            reason,
        } => match proof_at(proofs.as_slice(), proof) {
            Proof::Refuted { instances, log } => Ok(keep_refused(
                alloc, obligation, instances, clauses, log, row, reason,
            )?),
            Proof::AllCases => unreachable!(),
        },
        Checked::NoSuch { proof, instance } => Err(ClaimStop::NoSuch {
            line: line_of(at, proofs.as_slice(), proof, instance),
        }),
    }
}

/// Puts the line of an acceptance that was checked.
fn put_kept<O: Sink>(
    out: &mut O,
    spec: &Spec,
    transition: &Transition,
    kept: &Kept,
) -> Result<(), SinkFault>
    requires { SaysWhy kept.now }
    ensures whole { OnOk result (O.shown out.new ≡ shown_with (O.shown out.old) (verdict_line (view_spec spec.now) (view_transition transition.now) kept.now.verdict)) }
    ensures cut { OnErr result (ShowsPrefix (O.shown out.old) (O.shown out.new) (verdict_line (view_spec spec.now) (view_transition transition.now) kept.now.verdict)) }
    ensures failed { OnErr result (Rose (O.faults out.old) (O.faults out.new)) }
    ensures still { OnOk result (O.faults out.new ≡ O.faults out.old) }
{
    match &kept.verdict {
        Verdict::Accepted { .. } => put_checked(out, transition),
        Verdict::Rejected { obligation, .. } => {
            put_refused(out, spec, transition, *obligation, 0, RowReason::L7)
        }
        Verdict::Unknown { obligation, .. } => {
            put_refused(out, spec, transition, *obligation, kept.row, kept.reason)
        }
        Verdict::Memory => Ok(()),
    }
}

/// Checks the acceptance of a handler, puts its line and adds its verdict to the list, which has room for it.
fn check_acceptance<O: Sink>(
    alloc: Global,
    handler: &Handler,
    at: u32,
    proofs: &ProofList,
    verdicts: &mut Vec<Verdict>,
    out: &mut O,
) -> Result<(), ClaimStop>
    requires sorted { IsWellSorted (view_spec handler.now.spec.now) }
    requires fits { FitsModule (view_module handler.now.kernel.now) (view_spec handler.now.spec.now) }
    requires there { slice_get (view_spec handler.now.spec.now).transitions handler.now.place ≡ Some (view_transition handler.now.transition.now) }
    requires fit { (l : LayoutView) → IsLayoutOf (view_module handler.now.kernel.now) l → Fits l.objects (view_spec handler.now.spec.now) (view_transition handler.now.transition.now) (Accept at proofs.now) }
    requires room { vec_len verdicts.old < vec_capacity verdicts.old }
    ensures added { OnOk result (Adds (view_module handler.now.kernel.now) (view_spec handler.now.spec.now) (view_transition handler.now.transition.now, Accept at proofs.now) verdicts.old.items verdicts.new.items (O.shown out.old) (O.shown out.new)) }
    ensures still { OnOk result (O.faults out.new ≡ O.faults out.old) }
    ensures stopped { IfErr result (StopsOne (view_module handler.now.kernel.now) (view_spec handler.now.spec.now) (view_transition handler.now.transition.now, Accept at proofs.now) verdicts.old.items verdicts.new.items (O.shown out.old) (O.shown out.new) (O.faults out.old) (O.faults out.new)) }
    ensures room { vec_capacity verdicts.new ≡ vec_capacity verdicts.old }
    ensures counted { vec_len verdicts.new ≤ vec_len verdicts.old + 1 }
{
    // For the proof: the kernel has a layout of its module.
    let _layout = handler.kernel.layout();
    let kept = match check_one(
        alloc,
        handler.kernel,
        handler.spec,
        handler.place,
        at,
        proofs,
    ) {
        Ok(kept) => kept,
        Err(stop) => return Err(stop),
    };
    let put = put_kept(out, handler.spec, handler.transition, &kept);
    verdicts.push_reserved(kept.verdict);
    match put {
        Ok(()) => Ok(()),
        Err(_) => Err(ClaimStop::Write),
    }
}

// ---- one handler

/// Puts the line of a handler for which the certificate has no acceptance.
fn pass<O: Sink>(out: &mut O, transition: &Transition) -> Result<(), ClaimStop>
    ensures whole { OnOk result (O.shown out.new ≡ shown_with (O.shown out.old) (unclaimed_line (view_transition transition.now))) }
    ensures still { OnOk result (O.faults out.new ≡ O.faults out.old) }
    ensures stop { IfErr result (λ stop. stop ≡ StopWrite) }
    ensures cut { OnErr result (ShowsPrefix (O.shown out.old) (O.shown out.new) (unclaimed_line (view_transition transition.now))) }
    ensures failed { OnErr result (Rose (O.faults out.old) (O.faults out.new)) }
{
    match put_unclaimed(out, transition) {
        Ok(()) => Ok(()),
        Err(_) => Err(ClaimStop::Write),
    }
}

/// Checks what the certificate says of a handler, puts its line, and adds its verdict to the list, which has room for it, where it is an
/// acceptance.
fn check_next<O: Sink>(
    alloc: Global,
    handler: &Handler,
    entry: &Entry,
    verdicts: &mut Vec<Verdict>,
    out: &mut O,
) -> Result<(), ClaimStop>
    requires sorted { IsWellSorted (view_spec handler.now.spec.now) }
    requires fits { FitsModule (view_module handler.now.kernel.now) (view_spec handler.now.spec.now) }
    requires there { slice_get (view_spec handler.now.spec.now).transitions handler.now.place ≡ Some (view_transition handler.now.transition.now) }
    requires fit { (l : LayoutView) → IsLayoutOf (view_module handler.now.kernel.now) l → Fits l.objects (view_spec handler.now.spec.now) (view_transition handler.now.transition.now) entry.now }
    requires room { vec_len verdicts.old < vec_capacity verdicts.old }
    ensures added { OnOk result (Adds (view_module handler.now.kernel.now) (view_spec handler.now.spec.now) (view_transition handler.now.transition.now, entry.now) verdicts.old.items verdicts.new.items (O.shown out.old) (O.shown out.new)) }
    ensures still { OnOk result (O.faults out.new ≡ O.faults out.old) }
    ensures stopped { IfErr result (StopsOne (view_module handler.now.kernel.now) (view_spec handler.now.spec.now) (view_transition handler.now.transition.now, entry.now) verdicts.old.items verdicts.new.items (O.shown out.old) (O.shown out.new) (O.faults out.old) (O.faults out.new)) }
    ensures room { vec_capacity verdicts.new ≡ vec_capacity verdicts.old }
    ensures counted { vec_len verdicts.new ≤ vec_len verdicts.old + 1 }
{
    match entry {
        Entry::Accept { line, proofs } => check_acceptance(
            alloc, handler, *line, proofs, verdicts, out,
        ),
        Entry::Reject { .. } => pass(out, handler.transition),
        Entry::Unknown(_) => pass(out, handler.transition),
        Entry::Memory => pass(out, handler.transition),
    }
}

/// Checks the acceptances of a certificate, one handler after another: the proofs of each are checked again without the solver, its line
/// is put before the next one is checked, and its verdict is added to the list.
///
/// The conditions are a well-sorted specification that fits the kernel, entries that fit its handlers, which those of a certificate that
/// was read do, and an empty list with room for a verdict a handler. The first put that fails, the first want of memory and the first
/// instance that names nothing end it; the verdicts are then those of the handlers whose lines were put, after a failed put with that of
/// the handler whose line failed.
pub fn check_claims<O: Sink>(
    alloc: Global,
    kernel: &Kernel,
    spec: &Spec,
    entries: &[Entry],
    verdicts: &mut Vec<Verdict>,
    out: &mut O,
) -> Result<(), ClaimStop>
    requires sorted { IsWellSorted (view_spec spec.now) }
    requires fits { FitsModule (view_module kernel.now) (view_spec spec.now) }
    requires fit { (l : LayoutView) → IsLayoutOf (view_module kernel.now) l → AllFit l.objects (view_spec spec.now) entries.now }
    requires empty { verdicts.old.items ≡ [] }
    requires unused { vec_len verdicts.old ≡ 0 }
    requires room { length spec.now.transitions ≤ vec_capacity verdicts.old }
    ensures whole { OnOk result (AreChecked (view_module kernel.now) (view_spec spec.now) entries.now verdicts.new.items (O.shown out.old) (O.shown out.new)) }
    ensures still { OnOk result (O.faults out.new ≡ O.faults out.old) }
    ensures stopped { IfErr result (Stops (view_module kernel.now) (view_spec spec.now) entries.now verdicts.new.items (O.shown out.old) (O.shown out.new) (O.faults out.old) (O.faults out.new)) }
{
    // For the proof: the kernel has a layout of its module.
    let _layout = kernel.layout();
    let transitions = spec.transitions.as_slice();
    'each: for place in 0..transitions.len() {
        let handler = Handler {
            kernel,
            spec,
            place: place as u32,
            transition: &transitions[place],
        };
        match check_next(alloc, &handler, &entries[place], verdicts, out) {
            Ok(()) => {}
            Err(stop) => return Err(stop),
        }
    }
    Ok(())
}
