//! Certificates as texts.

ghost use Rattle.std.specs.Prelude.{◌≡◌, ◌++◌, ◌<◌, ◌^◌, [], map, OnOk, IfOk, codes};
ghost use Rattle.std.specs.List.{All};
ghost use Rattle.ir_ast.specs.ProgramView.{view_module};
ghost use Rattle.spec_tree.specs.Sorted.{IsWellSorted, field_sorts};
ghost use Rattle.spec_tree.specs.Shapes.{IsState};
ghost use Rattle.spec_tree.specs.View.{view_spec, view_transition};
ghost use Rattle.hk_case.specs.Obligations.{obligations_of};
ghost use Rattle.hk_rows.specs.Rows.{memory_text};
ghost use Rattle.hk_verdict.specs.Entries as report;
ghost use Rattle.hk_verdict.specs.Report.{args_text, case_text, rejection_line, two_texts, IsShown, IsShownVerdict};
ghost use Rattle.hk_cert_text.specs.Certificate.{proved_text, proofs_text, entry_of, entry_text, entries_text, certificate_text};

use crate::buffer::Text;
use crate::obligation::{add_prove, add_rejection, add_unknown};
use crate::refutation::add_proof;
use crate::room::room_of;
use hk_case::{Case, Obligation, obligations};
use hk_proof::Proof;
use hk_rows::Part;
use hk_seq::Seq;
use hk_verdict::Verdict;
use ir_kernel::Kernel;
use ir_layout::KMemory;
use spec_tree::{Spec, Transition};
use spec_value::AbstractState;
use std::alloc::{AllocError, Global};

/// Adds a line of a word and the name of a handler.
fn add_named(out: &mut Text, word: &[u8], name: &[u8]) -> Result<(), AllocError>
    ensures { OnOk result (out.new.bytes.items ≡ out.old.bytes.items ++ two_texts word.now name.now) }
{
    out.add_line(&[Part::Text(word), Part::Text(name)])
}

/// Adds the state block of a machine state.
fn add_machine(
    out: &mut Text,
    kernel: &Kernel,
    memory: &KMemory,
    args: &[u64],
) -> Result<(), AllocError>
    ensures { OnOk result (out.new.bytes.items ≡ out.old.bytes.items ++ (args_text args.now ++ memory_text (view_module kernel.now).globals memory.now)) }
{
    out.add_args(args)?;
    out.add_memory(&kernel.checked().module().globals, memory)
}

/// Adds the state block of an abstract state.
fn add_abstract(
    out: &mut Text,
    spec: &Spec,
    state: &AbstractState,
    args: &[u64],
) -> Result<(), AllocError>
    requires sorted { IsWellSorted (view_spec spec.now) }
    requires state { IsState (field_sorts (view_spec spec.now)) state.now }
    ensures { OnOk result (out.new.bytes.items ≡ out.old.bytes.items ++ (args_text args.now ++ report.entries_text [] (view_spec spec.now) state.now)) }
{
    out.add_args(args)?;
    out.add_entries(spec, state)
}

/// Adds the state block of a case.
fn add_case(out: &mut Text, kernel: &Kernel, spec: &Spec, case: &Case) -> Result<(), AllocError>
    requires sorted { IsWellSorted (view_spec spec.now) }
    requires shape { IsShown (view_spec spec.now) case.now }
    ensures { OnOk result (out.new.bytes.items ≡ out.old.bytes.items ++ case_text (view_module kernel.now) (view_spec spec.now) case.now) }
{
    match case {
        Case::Machine { memory, args } => add_machine(out, kernel, memory, args.as_slice()),
        Case::Abstract { state, args } => add_abstract(out, spec, state, args.as_slice()),
    }
}

/// Adds the lines of a rejection.
fn add_rejected(
    out: &mut Text,
    kernel: &Kernel,
    spec: &Spec,
    transition: &Transition,
    obligation: Obligation,
    case: &Case,
) -> Result<(), AllocError>
    requires sorted { IsWellSorted (view_spec spec.now) }
    requires shape { IsShown (view_spec spec.now) case.now }
    ensures { OnOk result (out.new.bytes.items ≡ out.old.bytes.items ++ (rejection_line (view_spec spec.now) (view_transition transition.now) obligation ++ case_text (view_module kernel.now) (view_spec spec.now) case.now)) }
{
    add_rejection(out, spec, transition, obligation)?;
    add_case(out, kernel, spec, case)
}

/// Adds the lines of an obligation with its proof.
fn add_proved(
    out: &mut Text,
    spec: &Spec,
    obligation: Obligation,
    proof: &Proof,
) -> Result<(), AllocError>
    ensures { OnOk result (out.new.bytes.items ≡ out.old.bytes.items ++ proved_text (view_spec spec.now) obligation proof.now) }
{
    add_prove(out, spec, obligation)?;
    add_proof(out, proof)
}

/// Adds the lines of obligations with their proofs.
fn add_proofs(
    out: &mut Text,
    spec: &Spec,
    obligations: &[Obligation],
    proofs: &[Proof],
) -> Result<(), AllocError>
    ensures { OnOk result (out.new.bytes.items ≡ out.old.bytes.items ++ proofs_text (view_spec spec.now) obligations.now proofs.now) }
{
    for (obligation, proof) in obligations.iter().zip(proofs) {
        add_proved(out, spec, *obligation, proof)?;
    }
    Ok(())
}

/// The obligations of a handler. Where a list of the specification has over 2^32 elements, it is want of memory.
fn owed(alloc: Global, spec: &Spec, transition: &Transition) -> Result<Seq<Obligation>, AllocError>
    ensures { IfOk result (λ list. list ≡ obligations_of (view_spec spec.now) (view_transition transition.now)) }
{
    if spec.invariants.as_slice().len() > u32::MAX as usize
        || spec.fields.as_slice().len() > u32::MAX as usize
        || spec.properties.as_slice().len() > u32::MAX as usize
    {
        return Err(AllocError);
    }
    obligations(alloc, spec, transition)
}

/// Adds the lines of an acceptance.
fn add_accepted(
    alloc: Global,
    out: &mut Text,
    spec: &Spec,
    transition: &Transition,
    proofs: &[Proof],
) -> Result<(), AllocError>
    ensures { OnOk result (out.new.bytes.items ≡ out.old.bytes.items ++ (two_texts (codes "accept ") transition.now.name ++ proofs_text (view_spec spec.now) (obligations_of (view_spec spec.now) (view_transition transition.now)) proofs.now)) }
{
    let owed = owed(alloc, spec, transition)?;
    add_named(out, b"accept ", transition.name.as_bytes())?;
    add_proofs(out, spec, owed.as_slice(), proofs)
}

/// Adds the lines of a handler.
fn add_entry(
    alloc: Global,
    out: &mut Text,
    kernel: &Kernel,
    spec: &Spec,
    transition: &Transition,
    verdict: &Verdict,
) -> Result<(), AllocError>
    requires sorted { IsWellSorted (view_spec spec.now) }
    requires shape { IsShownVerdict (view_spec spec.now) verdict.now }
    ensures { OnOk result (out.new.bytes.items ≡ out.old.bytes.items ++ entry_text (view_module kernel.now) (view_spec spec.now) (view_transition transition.now) (entry_of verdict.now)) }
{
    match verdict {
        Verdict::Accepted { proofs } => {
            add_accepted(alloc, out, spec, transition, proofs.as_slice())
        }
        Verdict::Rejected { obligation, case } => {
            add_rejected(out, kernel, spec, transition, *obligation, case)
        }
        Verdict::Unknown { obligation, .. } => add_unknown(out, spec, transition, *obligation),
        Verdict::Memory => add_named(out, b"memory ", transition.name.as_bytes()),
    }
}

/// Adds the lines of all handlers.
fn add_all(
    alloc: Global,
    out: &mut Text,
    kernel: &Kernel,
    spec: &Spec,
    verdicts: &[Verdict],
) -> Result<(), AllocError>
    requires sorted { IsWellSorted (view_spec spec.now) }
    requires shapes { All (IsShownVerdict (view_spec spec.now)) verdicts.now }
    ensures { OnOk result (out.new.bytes.items ≡ out.old.bytes.items ++ entries_text (view_module kernel.now) (view_spec spec.now) (map entry_of verdicts.now)) }
{
    for (transition, verdict) in spec.transitions.as_slice().iter().zip(verdicts) {
        add_entry(alloc, out, kernel, spec, transition, verdict)?;
    }
    Ok(())
}

/// The certificate of these verdicts, one for each handler in the order of the specification.
///
/// Where there are fewer verdicts than handlers, or fewer proofs in an acceptance than obligations, the lines of the others are left out.
pub fn write_certificate(
    alloc: Global,
    kernel: &Kernel,
    spec: &Spec,
    verdicts: &[Verdict],
) -> Result<Vec<u8>, AllocError>
    requires sorted { IsWellSorted (view_spec spec.now) }
    requires shapes { All (IsShownVerdict (view_spec spec.now)) verdicts.now }
    ensures { IfOk result (λ text. text.items ≡ certificate_text (view_module kernel.now) (view_spec spec.now) (map entry_of verdicts.now)) }
{
    let mut out = Text::with_room(alloc, room_of(verdicts))?;
    out.add_line(&[Part::Text(b"hkv certificate 1")])?;
    add_all(alloc, &mut out, kernel, spec, verdicts)?;
    out.add_line(&[Part::Text(b"end")])?;
    Ok(out.into_bytes())
}
