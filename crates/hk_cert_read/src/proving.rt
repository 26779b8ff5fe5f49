//! The proofs of obligations.

ghost use Rattle.std.specs.Prelude.{◌≡◌, [], IfOk, IfErr};
ghost use Rattle.hk_cnf.specs.Text.{lines_of};
ghost use Rattle.spec_tree.specs.View.{view_spec};
ghost use Rattle.hk_cert_lines.specs.Handlers as lines;
ghost use Rattle.hk_cert.specs.Steps.{line_at, place_of, FailsAs, Gives};
ghost use Rattle.hk_cert.specs.Reading.{is_first, log_from, proof_from, refuted};
ghost use Rattle.hk_cert_read.specs.Proving.{ended_by, proved_by, proofs_by, Goes, IsShorter};
ghost use Rattle.hk_cert_read.specs.Widths.{wide_for};

use crate::logs::log_at;
use crate::widths::{Wide, wide_at};
use hk_case::Obligation;
use hk_cert::CertStop;
use hk_cert::at::{At, next_line, refused, stopped};
use hk_cert_lines::CertReason;
use hk_cert_lines::handlers::prove_at;
use hk_cert_lines::shown::{Shown, shown_at};
use hk_inst::{Instance, InstanceList};
use hk_proof::{Proof, ProofList};
use hk_seq::Seq;
use spec_tree::Spec;
use std::alloc::Global;

/// How the proof of an obligation ends.
#[derive(Clone, Copy)]
enum Last {
    /// Every case was tried.
    Cases,
    /// So many rows of a log follow.
    Log(u64),
}

/// What the next line of a proof leads to.
#[derive(Clone, Copy)]
enum Step<'t> {
    /// An instance was added.
    Added(At<'t>),
    /// It is the last line but for the rows of a log.
    Ended(Last, At<'t>),
}

/// Whether no instance stands before.
fn is_first(instances: &Seq<Instance>) -> bool
    ensures { result ≡ is_first instances.now }
{
    match instances.as_slice() {
        [] => true,
        _ => false,
    }
}

/// Reads the next line of a proof.
fn next_step<'t>(
    alloc: Global,
    wide: bool,
    instances: &mut Seq<Instance>,
    at: At<'t>,
) -> Result<Step<'t>, CertStop>
    ensures goes { IfOk result (Goes wide instances.old instances.new at.entry.line (lines_of at.entry.text.now)) }
    ensures shorter { IfOk result (IsShorter at.entry.text.now) }
    ensures err { IfErr result (λ stop. FailsAs stop (proof_from wide instances.old at.entry.line (lines_of at.entry.text.now))) }
{
    let Some((line, after)) = next_line(at)? else {
        return Err(refused(at.line, CertReason::Q1));
    };
    let first = is_first(instances);
    match shown_at(alloc, first, wide, line) {
        Ok(Shown::Cases) => Ok(Step::Ended(Last::Cases, after)),
        Ok(Shown::Log(count)) => Ok(Step::Ended(Last::Log(count), after)),
        Ok(Shown::Added(instance)) => {
            instances.push(instance)?;
            Ok(Step::Added(after))
        }
        Err(stop) => Err(stopped(at.line, stop)),
    }
}

/// Reads the instances of a proof and the line behind them.
fn last_line<'t>(
    alloc: Global,
    wide: bool,
    instances: &mut Seq<Instance>,
    at: At<'t>,
) -> Result<(Last, At<'t>), CertStop>
    ensures ok { IfOk result (λ x. proof_from wide instances.old at.entry.line (lines_of at.entry.text.now) ≡ ended_by x.0 instances.new (place_of x.1)) }
    ensures err { IfErr result (λ stop. FailsAs stop (proof_from wide instances.old at.entry.line (lines_of at.entry.text.now))) }
{
    let mut text = at.text;
    let mut line = at.line;
    'lines: loop {
        match next_step(alloc, wide, instances, At { text, line })? {
            Step::Added(after) => {
                text = after.text;
                line = after.line;
            }
            Step::Ended(last, after) => return Ok((last, after)),
        }
    }
}

/// Reads the log behind the instances of a proof.
fn refuted_at<'t>(
    alloc: Global,
    instances: Seq<Instance>,
    count: u64,
    at: At<'t>,
) -> Result<(Proof, At<'t>), CertStop>
    ensures { Gives (λ proof. proof) result (refuted instances (log_from count [] at.entry.line (lines_of at.entry.text.now))) }
{
    let (log, after) = log_at(alloc, count, at)?;
    let instances = InstanceList::from_vec(instances.into_vec());
    Ok((Proof::Refuted { instances, log }, after))
}

/// Reads what shows an obligation, behind its line: that all cases were tried, where they are not too wide, or instances and a log.
fn proof_at<'t>(alloc: Global, wide: bool, at: At<'t>) -> Result<(Proof, At<'t>), CertStop>
    ensures { Gives (λ proof. proof) result (proof_from wide [] at.entry.line (lines_of at.entry.text.now)) }
{
    let mut instances = Seq::new(alloc);
    let (last, after) = last_line(alloc, wide, &mut instances, at)?;
    match last {
        Last::Cases => Ok((Proof::AllCases, after)),
        Last::Log(count) => refuted_at(alloc, instances, count, after),
    }
}

/// Reads the line that the proof of an obligation begins with.
fn prove_line<'t>(spec: &Spec, obligation: Obligation, at: At<'t>) -> Result<((), At<'t>), CertStop>
    ensures { Gives (λ u. u) result (line_at (lines.prove_at (view_spec spec.now) obligation) (place_of at.entry)) }
{
    let Some((line, after)) = next_line(at)? else {
        return Err(refused(at.line, CertReason::Q1));
    };
    match prove_at(spec, obligation, line) {
        Ok(()) => Ok(((), after)),
        Err(reason) => Err(refused(at.line, reason)),
    }
}

/// Reads an obligation with its proof.
fn proved_at<'t>(
    alloc: Global,
    spec: &Spec,
    wide: Wide,
    obligation: &Obligation,
    at: At<'t>,
) -> Result<(Proof, At<'t>), CertStop>
    ensures { Gives (λ proof. proof) result (proved_by (wide_for wide) (view_spec spec.now) obligation.now (place_of at.entry)) }
{
    let (_proved, after) = prove_line(spec, *obligation, at)?;
    proof_at(alloc, wide_at(wide, *obligation), after)
}

/// Reads obligations in their order, each with its proof.
pub fn proofs_at<'t>(
    alloc: Global,
    spec: &Spec,
    wide: Wide,
    owed: &[Obligation],
    at: At<'t>,
) -> Result<(ProofList, At<'t>), CertStop>
    ensures { Gives (λ proofs. proofs) result (proofs_by (wide_for wide) (view_spec spec.now) [] owed.now (place_of at.entry)) }
{
    let mut proofs = ProofList::new(alloc);
    let mut text = at.text;
    let mut line = at.line;
    'each: for obligation in owed {
        let (proof, after) = proved_at(alloc, spec, wide, obligation, At { text, line })?;
        proofs.push(proof)?;
        text = after.text;
        line = after.line;
    }
    Ok((proofs, At { text, line }))
}
