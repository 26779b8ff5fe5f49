//! The lines of `check` and `replay` on a sink. They take no memory.

ghost use Rattle.std.specs.Prelude.{◌≡◌, OnOk, OnErr};
ghost use Rattle.hk_io.specs.Faults.{Rose};
ghost use Rattle.hk_io.specs.Shown.{shown_with, ShowsPrefix};
ghost use Rattle.spec_tree.specs.View.{view_spec, view_transition};
ghost use Rattle.hk_verdict.specs.Report.{two_texts};
ghost use Rattle.hk_claims.specs.Lines.{row_code, checked_line, unclaimed_line, refused_line, told_line, confirmed_line, unconfirmed_line};

use hk_case::Obligation;
use hk_cert_text::{kind_of, subject_of};
use hk_io::{Sink, SinkFault};
use hk_lrat::RowReason;
use hk_rows::{Part, put_line};
use spec_tree::{Spec, Transition};

/// A reason against a row as it is printed.
pub fn row_reason(reason: RowReason) -> &'static [u8]
    ensures { result.now ≡ row_code reason }
{
    match reason {
        RowReason::L1 => b"L1",
        RowReason::L2 => b"L2",
        RowReason::L3 => b"L3",
        RowReason::L4 => b"L4",
        RowReason::L5 => b"L5",
        RowReason::L6 => b"L6",
        RowReason::L7 => b"L7",
    }
}

/// Puts a line of two texts.
fn put_two<'x, O: Sink>(out: &mut O, first: &'x [u8], second: &'x [u8]) -> Result<(), SinkFault>
    ensures whole { OnOk result (O.shown out.new ≡ shown_with (O.shown out.old) (two_texts first.now second.now)) }
    ensures cut { OnErr result (ShowsPrefix (O.shown out.old) (O.shown out.new) (two_texts first.now second.now)) }
    ensures failed { OnErr result (Rose (O.faults out.old) (O.faults out.new)) }
    ensures still { OnOk result (O.faults out.new ≡ O.faults out.old) }
{
    put_line(out, &[Part::Text(first), Part::Text(second)])
}

/// Puts a line of a text, the name of a handler and one of its obligations.
fn put_told<'x, O: Sink>(
    out: &mut O,
    text: &'x [u8],
    spec: &'x Spec,
    transition: &'x Transition,
    obligation: Obligation,
) -> Result<(), SinkFault>
    ensures whole { OnOk result (O.shown out.new ≡ shown_with (O.shown out.old) (told_line text.now (view_spec spec.now) (view_transition transition.now) obligation)) }
    ensures cut { OnErr result (ShowsPrefix (O.shown out.old) (O.shown out.new) (told_line text.now (view_spec spec.now) (view_transition transition.now) obligation)) }
    ensures failed { OnErr result (Rose (O.faults out.old) (O.faults out.new)) }
    ensures still { OnOk result (O.faults out.new ≡ O.faults out.old) }
{
    put_line(
        out,
        &[
            Part::Text(text),
            Part::Text(transition.name.as_bytes()),
            Part::Text(b" "),
            Part::Text(kind_of(obligation)),
            Part::Text(subject_of(spec, obligation)),
        ],
    )
}

/// Puts the line of a handler whose proofs hold.
pub fn put_checked<O: Sink>(out: &mut O, transition: &Transition) -> Result<(), SinkFault>
    ensures whole { OnOk result (O.shown out.new ≡ shown_with (O.shown out.old) (checked_line (view_transition transition.now))) }
    ensures cut { OnErr result (ShowsPrefix (O.shown out.old) (O.shown out.new) (checked_line (view_transition transition.now))) }
    ensures failed { OnErr result (Rose (O.faults out.old) (O.faults out.new)) }
    ensures still { OnOk result (O.faults out.new ≡ O.faults out.old) }
{
    put_two(out, b"checked ", transition.name.as_bytes())
}

/// Puts the line of a handler for which the certificate has no acceptance.
pub fn put_unclaimed<O: Sink>(out: &mut O, transition: &Transition) -> Result<(), SinkFault>
    ensures whole { OnOk result (O.shown out.new ≡ shown_with (O.shown out.old) (unclaimed_line (view_transition transition.now))) }
    ensures cut { OnErr result (ShowsPrefix (O.shown out.old) (O.shown out.new) (unclaimed_line (view_transition transition.now))) }
    ensures failed { OnErr result (Rose (O.faults out.old) (O.faults out.new)) }
    ensures still { OnOk result (O.faults out.new ≡ O.faults out.old) }
{
    put_two(out, b"not claimed ", transition.name.as_bytes())
}

/// Puts the line of the first obligation of a handler whose proof is refused.
pub fn put_refused<'x, O: Sink>(
    out: &mut O,
    spec: &'x Spec,
    transition: &'x Transition,
    obligation: Obligation,
    row: u64,
    reason: RowReason,
) -> Result<(), SinkFault>
    ensures whole { OnOk result (O.shown out.new ≡ shown_with (O.shown out.old) (refused_line (view_spec spec.now) (view_transition transition.now) obligation row reason)) }
    ensures cut { OnErr result (ShowsPrefix (O.shown out.old) (O.shown out.new) (refused_line (view_spec spec.now) (view_transition transition.now) obligation row reason)) }
    ensures failed { OnErr result (Rose (O.faults out.old) (O.faults out.new)) }
    ensures still { OnOk result (O.faults out.new ≡ O.faults out.old) }
{
    put_line(
        out,
        &[
            Part::Text(b"refused "),
            Part::Text(transition.name.as_bytes()),
            Part::Text(b" "),
            Part::Text(kind_of(obligation)),
            Part::Text(subject_of(spec, obligation)),
            Part::Text(b" "),
            Part::Decimal(row),
            Part::Text(b" "),
            Part::Text(row_reason(reason)),
        ],
    )
}

/// Puts the line of a rejection whose case violates its obligation.
pub fn put_confirmed<'x, O: Sink>(
    out: &mut O,
    spec: &'x Spec,
    transition: &'x Transition,
    obligation: Obligation,
) -> Result<(), SinkFault>
    ensures whole { OnOk result (O.shown out.new ≡ shown_with (O.shown out.old) (confirmed_line (view_spec spec.now) (view_transition transition.now) obligation)) }
    ensures cut { OnErr result (ShowsPrefix (O.shown out.old) (O.shown out.new) (confirmed_line (view_spec spec.now) (view_transition transition.now) obligation)) }
    ensures failed { OnErr result (Rose (O.faults out.old) (O.faults out.new)) }
    ensures still { OnOk result (O.faults out.new ≡ O.faults out.old) }
{
    put_told(out, b"confirmed ", spec, transition, obligation)
}

/// Puts the line of a rejection whose case does not violate its obligation.
pub fn put_unconfirmed<'x, O: Sink>(
    out: &mut O,
    spec: &'x Spec,
    transition: &'x Transition,
    obligation: Obligation,
) -> Result<(), SinkFault>
    ensures whole { OnOk result (O.shown out.new ≡ shown_with (O.shown out.old) (unconfirmed_line (view_spec spec.now) (view_transition transition.now) obligation)) }
    ensures cut { OnErr result (ShowsPrefix (O.shown out.old) (O.shown out.new) (unconfirmed_line (view_spec spec.now) (view_transition transition.now) obligation)) }
    ensures failed { OnErr result (Rose (O.faults out.old) (O.faults out.new)) }
    ensures still { OnOk result (O.faults out.new ≡ O.faults out.old) }
{
    put_told(out, b"not confirmed ", spec, transition, obligation)
}
