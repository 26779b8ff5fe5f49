//! The lines of handlers, and those that proofs of obligations begin with.

ghost use Rattle.std.specs.Prelude.{◌≡◌, false, true, map, length, slice_get, bytes_eq, ◌∷◌, [], codes, List, ℕ};
ghost use Rattle.std.specs.List.{find};
ghost use Rattle.std.specs.Option.{option_copied};
ghost use Rattle.std.specs.Cmp.Lexicographic.{pointwise};
ghost use Rattle.hk_cnf.specs.Text.{words_of};
ghost use Rattle.spec_tree.specs.View.{view_field, view_named, view_spec, view_transition};
ghost use Rattle.hk_verdict.specs.Report.{named_text, field_name};
ghost use Rattle.hk_cert_lines.specs.Handlers as definition;

use crate::reason::CertReason;
use crate::words::{is_handler_name, is_name, is_spaced, is_word};
use hk_case::Obligation;
use hk_cnf::text::next_word;
use spec_tree::{Field, Named, Spec, Transition};

/// What a line says of a handler.
#[derive(Clone, Copy, Debug)]
pub enum Claim {
    /// Proofs of its obligations follow.
    Accept,
    /// A state block follows, of a case that violates this obligation.
    Reject(Obligation),
    /// This obligation was not decided.
    Unknown(Obligation),
    /// Memory was refused.
    Memory,
}

/// The name of a function among these; nothing where there is none at the place.
fn name_in(named: &[Named], place: u32) -> &[u8]
    ensures { result.now ≡ named_text (slice_get (map view_named named.now) place) }
{
    match named.get(place as usize) {
        Some(named) => named.name.as_bytes(),
        None => &[],
    }
}

/// The name of a field; nothing for a field that is not there.
fn field_in(fields: &[Field], place: u32) -> &[u8]
    ensures { result.now ≡ field_name (slice_get (map view_field fields.now) place) }
{
    match fields.get(place as usize) {
        Some(field) => field.name.as_bytes(),
        None => &[],
    }
}

/// Whether no word is left.
fn is_done(line: &[u8]) -> bool
    ensures { result ≡ pointwise bytes_eq (words_of false line.now) [] }
{
    match next_word(line, false) {
        Some(_) => false,
        None => true,
    }
}

/// Whether the words left are this one.
fn is_one(line: &[u8], word: &[u8]) -> bool
    ensures { result ≡ pointwise bytes_eq (words_of false line.now) (word.now ∷ []) }
{
    match next_word(line, false) {
        Some((first, rest)) => first == word && is_done(rest),
        None => false,
    }
}

/// Whether the words left are these two.
fn is_two(line: &[u8], word: &[u8], other: &[u8]) -> bool
    ensures { result ≡ pointwise bytes_eq (words_of false line.now) (word.now ∷ other.now ∷ []) }
{
    match next_word(line, false) {
        Some((first, rest)) => first == word && is_one(rest, other),
        None => false,
    }
}

/// Whether the words left are those of this obligation.
fn are_words_for(spec: &Spec, line: &[u8], obligation: Obligation) -> bool
    ensures { result ≡ definition.are_words_for (view_spec spec.now) (words_of false line.now) obligation }
{
    match obligation {
        Obligation::Undefined => is_one(line, b"undefined"),
        Obligation::Invariant(place) => {
            is_two(
                line,
                b"invariant",
                name_in(spec.invariants.as_slice(), place),
            )
        }
        Obligation::State(place) => {
            is_two(line, b"state", field_in(spec.fields.as_slice(), place))
        }
        Obligation::ResultValue => is_one(line, b"result"),
        Obligation::Property(place) => {
            is_two(
                line,
                b"property",
                name_in(spec.properties.as_slice(), place),
            )
        }
    }
}

/// Whether a word alone spells an obligation.
fn is_lone(kind: &[u8]) -> bool
    ensures { result ≡ definition.is_lone kind.now }
{
    kind == b"undefined".as_slice() || kind == b"result".as_slice()
}

/// Whether two words spell an obligation.
fn is_pair(kind: &[u8], name: &[u8]) -> bool
    ensures { result ≡ definition.is_pair kind.now name.now }
{
    if kind == b"state".as_slice() {
        is_name(name)
    } else if kind == b"invariant".as_slice() || kind == b"property".as_slice() {
        is_word(name)
    } else {
        false
    }
}

/// Whether a word and those left spell an obligation.
fn is_obligation_with(kind: &[u8], line: &[u8]) -> bool
    ensures { result ≡ definition.is_obligation (kind.now ∷ words_of false line.now) }
{
    match next_word(line, false) {
        None => is_lone(kind),
        Some((name, rest)) => match next_word(rest, false) {
            None => is_pair(kind, name),
            Some(_) => false,
        },
    }
}

/// Whether the words left spell an obligation of some specification.
fn is_obligation(line: &[u8]) -> bool
    ensures { result ≡ definition.is_obligation (words_of false line.now) }
{
    match next_word(line, false) {
        None => false,
        Some((kind, rest)) => is_obligation_with(kind, rest),
    }
}

/// The first of these obligations that the words left are of.
fn found(spec: &Spec, owed: &[Obligation], line: &[u8]) -> Option<Obligation>
    ensures { result ≡ find (definition.are_words_for (view_spec spec.now) (words_of false line.now)) owed.now }
{
    owed.iter()
        .copied()
        .find(|obligation| are_words_for(spec, line, *obligation))
}

/// An obligation that was found; one that was not is not the next.
fn owed_or(found: Option<Obligation>) -> Result<Obligation, CertReason>
    ensures { result ≡ definition.owed found }
{
    match found {
        Some(obligation) => Ok(obligation),
        None => Err(CertReason::Q3),
    }
}

/// The obligation among these that the words left spell.
fn obligation_in(spec: &Spec, owed: &[Obligation], line: &[u8]) -> Result<Obligation, CertReason>
    ensures { result ≡ definition.obligation_in (view_spec spec.now) owed.now (words_of false line.now) }
{
    if is_obligation(line) {
        owed_or(found(spec, owed, line))
    } else {
        Err(CertReason::Q1)
    }
}

/// A claim that is about the handler that is due, if it is.
fn of_handler(same: bool, claim: Claim) -> Result<Claim, CertReason>
    ensures { result ≡ definition.of_handler same claim }
{
    if same { Ok(claim) } else { Err(CertReason::Q3) }
}

/// A claim with no words left.
fn alone(same: bool, claim: Claim, line: &[u8]) -> Result<Claim, CertReason>
    ensures { result ≡ definition.alone same claim (words_of false line.now) }
{
    match next_word(line, false) {
        None => of_handler(same, claim),
        Some(_) => Err(CertReason::Q1),
    }
}

/// A rejection by an obligation.
fn rejection(same: bool, found: Result<Obligation, CertReason>) -> Result<Claim, CertReason>
    ensures { result ≡ definition.about same Claim.Reject found }
{
    match found {
        Ok(obligation) => of_handler(same, Claim::Reject(obligation)),
        Err(CertReason::Q1) => Err(CertReason::Q1),
        Err(CertReason::Q2) => Err(CertReason::Q2),
        Err(CertReason::Q3) => Err(CertReason::Q3),
    }
}

/// An obligation that was not decided.
fn undecided(same: bool, found: Result<Obligation, CertReason>) -> Result<Claim, CertReason>
    ensures { result ≡ definition.about same Claim.Unknown found }
{
    match found {
        Ok(obligation) => of_handler(same, Claim::Unknown(obligation)),
        Err(CertReason::Q1) => Err(CertReason::Q1),
        Err(CertReason::Q2) => Err(CertReason::Q2),
        Err(CertReason::Q3) => Err(CertReason::Q3),
    }
}

/// What the words left say behind a first word and a handler's name.
fn claimed(
    spec: &Spec,
    owed: &[Obligation],
    same: bool,
    verb: &[u8],
    line: &[u8],
) -> Result<Claim, CertReason>
    ensures { result ≡ definition.claimed (view_spec spec.now) owed.now same verb.now (words_of false line.now) }
{
    if verb == b"accept".as_slice() {
        alone(same, Claim::Accept, line)
    } else if verb == b"memory".as_slice() {
        alone(same, Claim::Memory, line)
    } else if verb == b"reject".as_slice() {
        rejection(same, obligation_in(spec, owed, line))
    } else if verb == b"unknown".as_slice() {
        undecided(same, obligation_in(spec, owed, line))
    } else {
        Err(CertReason::Q1)
    }
}

/// Whether a word is the name of a transition.
fn is_name_of(word: &[u8], transition: &Transition) -> bool
    ensures { result ≡ bytes_eq word.now (view_transition transition.now).name }
{
    word == transition.name.as_bytes()
}

/// What the words left say behind a first one.
fn named_claim(
    spec: &Spec,
    transition: &Transition,
    owed: &[Obligation],
    verb: &[u8],
    line: &[u8],
) -> Result<Claim, CertReason>
    ensures { result ≡ definition.named_claim (view_spec spec.now) (view_transition transition.now) owed.now verb.now (words_of false line.now) }
{
    match next_word(line, false) {
        None => Err(CertReason::Q1),
        Some((name, rest)) => {
            if is_handler_name(name) {
                claimed(spec, owed, is_name_of(name, transition), verb, rest)
            } else {
                Err(CertReason::Q1)
            }
        }
    }
}

/// What the words of a line say of a handler.
fn claim_of(
    spec: &Spec,
    transition: &Transition,
    owed: &[Obligation],
    line: &[u8],
) -> Result<Claim, CertReason>
    ensures { result ≡ definition.claim_of (view_spec spec.now) (view_transition transition.now) owed.now (words_of false line.now) }
{
    match next_word(line, false) {
        None => Err(CertReason::Q1),
        Some((verb, rest)) => named_claim(spec, transition, owed, verb, rest),
    }
}

/// What a line says where this handler is due, which has these obligations: `Q1` where it is not spelled, else `Q3` where it names another
/// handler, or an obligation that is not among these.
pub fn claim_at(
    spec: &Spec,
    transition: &Transition,
    owed: &[Obligation],
    line: &[u8],
) -> Result<Claim, CertReason>
    ensures { result ≡ definition.claim_at (view_spec spec.now) (view_transition transition.now) owed.now line.now }
{
    if is_spaced(line) {
        claim_of(spec, transition, owed, line)
    } else {
        Err(CertReason::Q1)
    }
}

/// The answer to whether the words spell an obligation, and the one that is due.
fn next_proved(spelled: bool, same: bool) -> Result<(), CertReason>
    ensures { result ≡ definition.next_proved spelled same }
{
    if spelled {
        if same { Ok(()) } else { Err(CertReason::Q3) }
    } else {
        Err(CertReason::Q1)
    }
}

/// What the words of a line say where the proof of this obligation is due.
fn proving(spec: &Spec, obligation: Obligation, line: &[u8]) -> Result<(), CertReason>
    ensures { result ≡ definition.proving (view_spec spec.now) obligation (words_of false line.now) }
{
    match next_word(line, false) {
        None => Err(CertReason::Q1),
        Some((verb, rest)) => {
            if verb == b"prove".as_slice() {
                next_proved(is_obligation(rest), are_words_for(spec, rest, obligation))
            } else {
                Err(CertReason::Q1)
            }
        }
    }
}

/// Whether a line begins the proof of this obligation: `Q1` where it is not spelled, else `Q3` where it names another obligation.
pub fn prove_at(spec: &Spec, obligation: Obligation, line: &[u8]) -> Result<(), CertReason>
    ensures { result ≡ definition.prove_at (view_spec spec.now) obligation line.now }
{
    if is_spaced(line) {
        proving(spec, obligation, line)
    } else {
        Err(CertReason::Q1)
    }
}
