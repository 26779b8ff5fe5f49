//! Obligations in words.

ghost use Rattle.std.specs.Prelude.{◌≡◌, ◌++◌, map, OnOk, slice_get};
ghost use Rattle.spec_tree.specs.View.{view_field, view_named, view_spec, view_transition};
ghost use Rattle.hk_verdict.specs.Report.{named_text, field_name, named_rejection, rejection_line};
ghost use Rattle.hk_cert_text.specs.Certificate.{kind_of, subject_of, prove_line, unknown_line};

use crate::buffer::Text;
use hk_case::Obligation;
use hk_rows::Part;
use spec_tree::{Field, Named, Spec, Transition};
use std::alloc::AllocError;

/// The word of an obligation.
pub fn kind_of(obligation: Obligation) -> &'static [u8]
    ensures { result.now ≡ kind_of obligation }
{
    match obligation {
        Obligation::Undefined => b"undefined",
        Obligation::Invariant(_) => b"invariant ",
        Obligation::State(_) => b"state ",
        Obligation::ResultValue => b"result",
        Obligation::Property(_) => b"property ",
    }
}

/// The name of a function among these; nothing where there is none at the place.
fn name_in(named: &[Named], place: u32) -> &[u8]
    ensures { result.now ≡ named_text (slice_get (map view_named named.now) place) }
{
    match named.get(place as usize) {
        Some(named) => named.name.as_bytes(),
        None => &[],
    }
}

/// The name of a field; nothing for a field that is not there.
fn field_in(fields: &[Field], place: u32) -> &[u8]
    ensures { result.now ≡ field_name (slice_get (map view_field fields.now) place) }
{
    match fields.get(place as usize) {
        Some(field) => field.name.as_bytes(),
        None => &[],
    }
}

/// The name of what an obligation speaks of.
pub fn subject_of(spec: &Spec, obligation: Obligation) -> &[u8]
    ensures { result.now ≡ subject_of (view_spec spec.now) obligation }
{
    match obligation {
        Obligation::Undefined => &[],
        Obligation::Invariant(place) => name_in(spec.invariants.as_slice(), place),
        Obligation::State(place) => field_in(spec.fields.as_slice(), place),
        Obligation::ResultValue => &[],
        Obligation::Property(place) => name_in(spec.properties.as_slice(), place),
    }
}

/// Adds the line that the proof of an obligation begins with.
pub fn add_prove(out: &mut Text, spec: &Spec, obligation: Obligation) -> Result<(), AllocError>
    ensures { OnOk result (out.new.bytes.items ≡ out.old.bytes.items ++ prove_line (view_spec spec.now) obligation) }
{
    let (kind, subject) = (kind_of(obligation), subject_of(spec, obligation));
    out.add_line(&[Part::Text(b"prove "), Part::Text(kind), Part::Text(subject)])
}

/// Adds the line of a handler that was not decided.
pub fn add_unknown<'x>(
    out: &mut Text,
    spec: &'x Spec,
    transition: &'x Transition,
    obligation: Obligation,
) -> Result<(), AllocError>
    ensures { OnOk result (out.new.bytes.items ≡ out.old.bytes.items ++ unknown_line (view_spec spec.now) (view_transition transition.now) obligation) }
{
    let (kind, subject) = (kind_of(obligation), subject_of(spec, obligation));
    out.add_line(&[
        Part::Text(b"unknown "),
        Part::Text(transition.name.as_bytes()),
        Part::Text(b" "),
        Part::Text(kind),
        Part::Text(subject),
    ])
}

/// Adds the line of a rejection by these words.
fn add_named_rejection<'x>(
    out: &mut Text,
    handler: &'x [u8],
    kind: &'x [u8],
    subject: &'x [u8],
) -> Result<(), AllocError>
    ensures { OnOk result (out.new.bytes.items ≡ out.old.bytes.items ++ named_rejection handler.now kind.now subject.now) }
{
    out.add_line(&[
        Part::Text(b"reject "),
        Part::Text(handler),
        Part::Text(b" "),
        Part::Text(kind),
        Part::Text(subject),
    ])
}

/// Adds the line of a rejection.
#[tactic(auto, using(crate::proofs::Behind::rejected))]
pub fn add_rejection<'x>(
    out: &mut Text,
    spec: &'x Spec,
    transition: &'x Transition,
    obligation: Obligation,
) -> Result<(), AllocError>
    ensures { OnOk result (out.new.bytes.items ≡ out.old.bytes.items ++ rejection_line (view_spec spec.now) (view_transition transition.now) obligation) }
{
    let (kind, subject) = (kind_of(obligation), subject_of(spec, obligation));
    add_named_rejection(out, transition.name.as_bytes(), kind, subject)
}
