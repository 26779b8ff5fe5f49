//! What a certificate says, in words.

ghost use Rattle.spec_tree.specs.Sorted.{IsWellSorted};
ghost use Rattle.spec_tree.specs.View.{view_spec};

use hk_case::{Case, Obligation};
use hk_cert::{CertFault, CertStop};
use hk_cert_lines::CertReason;
use hk_cert_read::{Certificate, read_certificate};
use hk_cert_text::Entry;
use hk_inputs::Inputs;
use hk_proof::Proof;
use ir_layout::KMemory;
use spec_value::AbstractState;
use std::alloc::{AllocError, Global};

/// An obligation.
fn obligation_text(alloc: Global, obligation: Obligation) -> Result<String, AllocError> {
    match obligation {
        Obligation::Undefined => String::from_str(alloc, "undefined"),
        Obligation::Invariant(place) => format!(in alloc; "invariant {place}"),
        Obligation::State(place) => format!(in alloc; "state {place}"),
        Obligation::ResultValue => String::from_str(alloc, "result"),
        Obligation::Property(place) => format!(in alloc; "property {place}"),
    }
}

/// A reason.
fn reason_text(reason: CertReason) -> &'static str {
    match reason {
        CertReason::Q1 => "Q1",
        CertReason::Q2 => "Q2",
        CertReason::Q3 => "Q3",
    }
}

/// Tells a proof: that all cases are tried, or how many instances and rows it has.
fn tell_proof(alloc: Global, out: &mut String, proof: &Proof) -> Result<(), AllocError> {
    match proof {
        Proof::AllCases => out.push_str(" cases"),
        Proof::Refuted { instances, log } => {
            let word = format!(in alloc; " {}/{}", instances.as_slice().len(), log.len())?;
            out.push_str(word.as_str())
        }
    }
}

/// Tells the proofs of an acceptance.
fn tell_proofs(alloc: Global, out: &mut String, proofs: &[Proof]) -> Result<(), AllocError> {
    for proof in proofs {
        tell_proof(alloc, out, proof)?;
    }
    Ok(())
}

/// Tells how long a list is.
fn tell_length(alloc: Global, out: &mut String, length: usize) -> Result<(), AllocError> {
    let word = format!(in alloc; " [{length}")?;
    out.push_str(word.as_str())
}

/// Tells a number of a list, where it is not 0.
fn tell_number(
    alloc: Global,
    out: &mut String,
    place: usize,
    number: u64,
) -> Result<(), AllocError> {
    if number == 0 {
        return Ok(());
    }
    let word = format!(in alloc; " {place}={number}")?;
    out.push_str(word.as_str())
}

/// Tells numbers.
fn tell_numbers(alloc: Global, out: &mut String, numbers: &[u64]) -> Result<(), AllocError> {
    tell_length(alloc, out, numbers.len())?;
    for (place, number) in numbers.iter().enumerate() {
        tell_number(alloc, out, place, *number)?;
    }
    out.push(']')
}

/// Tells an object: its bytes.
fn tell_bytes(alloc: Global, out: &mut String, bytes: &[u8]) -> Result<(), AllocError> {
    tell_length(alloc, out, bytes.len())?;
    for (place, byte) in bytes.iter().enumerate() {
        tell_number(alloc, out, place, u64::from(*byte))?;
    }
    out.push(']')
}

/// Tells a memory.
fn tell_memory(alloc: Global, out: &mut String, memory: &KMemory) -> Result<(), AllocError> {
    for object in 0..memory.objects() {
        if object < u32::MAX as usize {
            tell_bytes(alloc, out, memory.bytes(object as u32))?;
        }
    }
    Ok(())
}

/// Tells an abstract state.
fn tell_state(alloc: Global, out: &mut String, state: &AbstractState) -> Result<(), AllocError> {
    for field in state.as_slice() {
        tell_numbers(alloc, out, field.as_slice())?;
    }
    Ok(())
}

/// Tells a case: the arguments, and then each object or each field.
fn tell_case(alloc: Global, out: &mut String, case: &Case) -> Result<(), AllocError> {
    match case {
        Case::Machine { memory, args } => {
            tell_numbers(alloc, out, args.as_slice())?;
            tell_memory(alloc, out, memory)
        }
        Case::Abstract { state, args } => {
            tell_numbers(alloc, out, args.as_slice())?;
            tell_state(alloc, out, state)
        }
    }
}

/// An entry.
fn entry_text(alloc: Global, entry: &Entry) -> Result<String, AllocError> {
    match entry {
        Entry::Accept { line, proofs } => {
            let mut out = format!(in alloc; "accept {line}")?;
            tell_proofs(alloc, &mut out, proofs.as_slice())?;
            Ok(out)
        }
        Entry::Reject { obligation, case } => {
            let named = obligation_text(alloc, *obligation)?;
            let mut out = format!(in alloc; "reject {named}")?;
            tell_case(alloc, &mut out, case)?;
            Ok(out)
        }
        Entry::Unknown(obligation) => {
            let named = obligation_text(alloc, *obligation)?;
            format!(in alloc; "unknown {named}")
        }
        Entry::Memory => String::from_str(alloc, "memory"),
    }
}

/// The entries of a certificate.
fn entries_text(alloc: Global, certificate: &Certificate) -> Result<String, AllocError> {
    let mut out = String::new(alloc);
    for entry in certificate.entries.as_slice() {
        if !out.is_empty() {
            out.push_str("; ")?;
        }
        let told = entry_text(alloc, entry)?;
        out.push_str(told.as_str())?;
    }
    Ok(out)
}

/// A fault.
fn fault_text(alloc: Global, fault: CertFault) -> Result<String, AllocError> {
    format!(in alloc; "line {}: {}", fault.line, reason_text(fault.reason))
}

/// What a text says as a certificate.
pub fn told(alloc: Global, inputs: &Inputs, text: &[u8]) -> Result<String, AllocError>
    requires sorted { IsWellSorted (view_spec inputs.now.spec) }
{
    match read_certificate(alloc, text, &inputs.kernel, &inputs.spec) {
        Ok(certificate) => entries_text(alloc, &certificate),
        Err(CertStop::Refused(fault)) => fault_text(alloc, fault),
        Err(CertStop::Memory) => Err(AllocError),
    }
}
