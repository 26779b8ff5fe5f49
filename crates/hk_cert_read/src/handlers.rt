//! The entries of handlers.

ghost use Rattle.std.specs.Prelude.{◌≡◌, ◌<◌, [], map, length, Some, slice_get, IfOk};
ghost use Rattle.ir_ast.specs.ProgramView.{view_module};
ghost use Rattle.ir_layout.specs.Layouts.{LayoutView, IsLayoutOf};
ghost use Rattle.spec_tree.specs.Plain as plain;
ghost use Rattle.spec_tree.specs.Sorted.{IsWellSorted};
ghost use Rattle.spec_tree.specs.View.{view_spec, view_transition};
ghost use Rattle.hk_case.specs.Obligations.{obligations_of};
ghost use Rattle.hk_cert_lines.specs.Handlers as lines;
ghost use Rattle.hk_cert.specs.Steps.{line_at, place_of, Gives};
ghost use Rattle.hk_cert.specs.Reading as definition;
ghost use Rattle.hk_cert_read.specs.Handling.{accepted_by, rejected_by, claimed_by, entry_by};
ghost use Rattle.hk_cert_read.specs.Widths.{wide_for};

use crate::blocks::case_at;
use crate::proving::proofs_at;
use crate::widths::{Wide, wide_of};
use hk_case::{Obligation, obligations};
use hk_cert::CertStop;
use hk_cert::at::{At, next_line, refused};
use hk_cert_lines::CertReason;
use hk_cert_lines::handlers::{Claim, claim_at};
use hk_cert_text::Entry;
use hk_seq::Seq;
use ir_kernel::Kernel;
use ir_layout::KMemory;
use spec_tree::{Spec, Transition};
use std::alloc::{AllocError, Global};

/// What the lines of a handler are read against: the kernel with the first bytes of its objects, the specification with the handler's
/// transition, and of which obligations the cases are few.
#[derive(Drop)]
struct Setting<'a> {
    kernel: &'a Kernel,
    initial: &'a KMemory,
    spec: &'a Spec,
    transition: &'a Transition,
    wide: Wide,
}

/// The obligations of a handler. Where a list of the specification has over 2^32 elements, it is want of memory.
fn owed(alloc: Global, spec: &Spec, transition: &Transition) -> Result<Seq<Obligation>, AllocError>
    ensures { IfOk result (λ list. list ≡ obligations_of (view_spec spec.now) (view_transition transition.now)) }
{
    if spec.invariants.as_slice().len() > u32::MAX as usize
        || spec.fields.as_slice().len() > u32::MAX as usize
        || spec.properties.as_slice().len() > u32::MAX as usize
    {
        return Err(AllocError);
    }
    obligations(alloc, spec, transition)
}

/// Reads the line of a handler with these obligations.
fn claim_line<'t>(
    spec: &Spec,
    transition: &Transition,
    owed: &[Obligation],
    at: At<'t>,
) -> Result<(Claim, At<'t>), CertStop>
    ensures { Gives (λ claim. claim) result (line_at (lines.claim_at (view_spec spec.now) (view_transition transition.now) owed.now) (place_of at.entry)) }
{
    let Some((line, after)) = next_line(at)? else {
        return Err(refused(at.line, CertReason::Q1));
    };
    match claim_at(spec, transition, owed, line) {
        Ok(claim) => Ok((claim, after)),
        Err(reason) => Err(refused(at.line, reason)),
    }
}

/// Reads the proofs of an acceptance, whose line has this number.
fn accepted_at<'t>(
    alloc: Global,
    spec: &Spec,
    wide: Wide,
    owed: &[Obligation],
    line: u32,
    at: At<'t>,
) -> Result<(Entry, At<'t>), CertStop>
    ensures { Gives (λ entry. entry) result (accepted_by (wide_for wide) (view_spec spec.now) owed.now line (place_of at.entry)) }
{
    let (proofs, after) = proofs_at(alloc, spec, wide, owed, at)?;
    Ok((Entry::Accept { line, proofs }, after))
}

/// Reads the case of a rejection.
fn rejected_at<'t>(
    alloc: Global,
    setting: &Setting,
    obligation: Obligation,
    at: At<'t>,
) -> Result<(Entry, At<'t>), CertStop>
    requires { IsWellSorted (view_spec setting.now.spec.now) }
    ensures { Gives (λ entry. entry) result (rejected_by (view_module setting.now.kernel.now) setting.now.initial.now (view_spec setting.now.spec.now) (view_transition setting.now.transition.now) obligation (place_of at.entry)) }
{
    let (case, after) = case_at(
        alloc,
        setting.kernel,
        setting.initial,
        setting.spec,
        setting.transition,
        obligation,
        at,
    )?;
    Ok((Entry::Reject { obligation, case }, after))
}

/// Reads what follows the line of a handler, which has this number.
fn claimed_at<'t>(
    alloc: Global,
    setting: &Setting,
    owed: &[Obligation],
    line: u32,
    claim: Claim,
    at: At<'t>,
) -> Result<(Entry, At<'t>), CertStop>
    requires { IsWellSorted (view_spec setting.now.spec.now) }
    ensures { Gives (λ entry. entry) result (claimed_by (view_module setting.now.kernel.now) setting.now.initial.now (wide_for setting.now.wide) (view_spec setting.now.spec.now) (view_transition setting.now.transition.now) owed.now line claim (place_of at.entry)) }
{
    match claim {
        Claim::Accept => accepted_at(alloc, setting.spec, setting.wide, owed, line, at),
        Claim::Reject(o) => rejected_at(alloc, setting, o, at),
        Claim::Unknown(o) => Ok((Entry::Unknown(o), at)),
        Claim::Memory => Ok((Entry::Memory, at)),
    }
}

/// Reads the lines of a handler.
fn entry_at<'t>(alloc: Global, setting: &Setting, at: At<'t>) -> Result<(Entry, At<'t>), CertStop>
    requires { IsWellSorted (view_spec setting.now.spec.now) }
    ensures { Gives (λ entry. entry) result (entry_by (view_module setting.now.kernel.now) setting.now.initial.now (wide_for setting.now.wide) (view_spec setting.now.spec.now) (view_transition setting.now.transition.now) (place_of at.entry)) }
{
    let owed = owed(alloc, setting.spec, setting.transition)?;
    let owed = owed.as_slice();
    let (claim, after) = claim_line(setting.spec, setting.transition, owed, at)?;
    claimed_at(alloc, setting, owed, at.line, claim, after)
}

/// Reads the lines of the handler with this place.
fn handler_at<'t>(
    alloc: Global,
    kernel: &Kernel,
    initial: &KMemory,
    spec: &Spec,
    h: u32,
    at: At<'t>,
) -> Result<(Entry, At<'t>), CertStop>
    requires sorted { IsWellSorted (view_spec spec.now) }
    requires there { h < length spec.now.transitions }
    ensures { (l : LayoutView) (t : plain.Transition) → IsLayoutOf (view_module kernel.now) l → initial.now ≡ map (λ o. o.bytes) l.objects → slice_get (view_spec spec.now).transitions h ≡ Some t →
        Gives (λ entry. entry) result (definition.entry_at (view_module kernel.now) l.objects (view_spec spec.now) t (place_of at.entry)) }
{
    let transition = &spec.transitions.as_slice()[h as usize];
    let wide = wide_of(kernel, spec, h);
    let setting = Setting {
        kernel,
        initial,
        spec,
        transition,
        wide,
    };
    entry_at(alloc, &setting, at)
}

/// How many handlers there are.
fn handlers_in(spec: &Spec) -> u32
    requires { IsWellSorted (view_spec spec.now) }
    ensures { result ≡ length spec.now.transitions }
{
    spec.transitions.as_slice().len() as u32
}

/// Reads the lines of all handlers in the order of the specification.
pub fn entries_at<'t>(
    alloc: Global,
    kernel: &Kernel,
    start: &KMemory,
    spec: &Spec,
    at: At<'t>,
) -> Result<(Seq<Entry>, At<'t>), CertStop>
    requires { IsWellSorted (view_spec spec.now) }
    ensures { (l : LayoutView) → IsLayoutOf (view_module kernel.now) l → start.now ≡ map (λ o. o.bytes) l.objects →
        Gives (λ entries. entries) result (definition.entries_from (view_module kernel.now) l.objects (view_spec spec.now) [] (view_spec spec.now).transitions (place_of at.entry)) }
{
    let mut entries = Seq::new(alloc);
    let mut text = at.text;
    let mut line = at.line;
    'each: for h in 0..handlers_in(spec) {
        let (entry, after) = handler_at(alloc, kernel, start, spec, h, At { text, line })?;
        entries.push(entry)?;
        text = after.text;
        line = after.line;
    }
    Ok((entries, At { text, line }))
}
