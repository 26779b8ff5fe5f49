//! Ranges that loads state.

ghost use Rattle.std.specs.Prelude.{◌≡◌, ◌<◌, ◌≤◌, ℕ, true, false, not, ◌&&◌, ◌||◌, nat_eq, Bool, Some, length, IfOk};
ghost use Rattle.hk_term.specs.Shape.{width};
ghost use Rattle.hk_term.specs.Meaning.{Reading, value};
ghost use Rattle.ir_value.specs.Numbers as numbers;
ghost use Rattle.ir_machine.specs.Values as definition;
ghost use Rattle.hk_symvalue.specs.Growth.{Extends};
ghost use Rattle.hk_symvalue.specs.Meaning.{IsTruth, IsWord, is_true, stands_for};
ghost use Rattle.hk_symstep.specs.Steps.{leaves_spans};

use hk_seq::Seq;
use hk_symvalue::{is_between, is_word, logic};
use hk_term::{TermId, Terms};
use ir_code::Span;
use std::alloc::AllocError;

// Whether one more span has a number.
fn or_between(
    t: &mut Terms,
    width: u32,
    span: Span,
    n: TermId,
    before: TermId,
) -> Result<TermId, AllocError>
    requires number { n < length t.old }
    requires before { IsTruth t.old before }
    ensures frame { Extends t.old t.new }
    ensures truth { IfOk result (λ r. IsTruth t.new r) }
    ensures value { IfOk result (λ r. (v : Reading) → is_true t.new r v ≡ (is_true t.old before v || numbers.is_between width span.low span.high (value t.old n v))) }
{
    let here = is_between(t, width, span.low, span.high, n)?;
    let either = logic::or(t, before, here)?;
    Ok(either)
}

// Whether a number lies in one of the spans.
fn is_in_any(t: &mut Terms, width: u32, n: TermId, spans: &[Span]) -> Result<TermId, AllocError>
    requires { n < length t.old }
    ensures frame { Extends t.old t.new }
    ensures truth { IfOk result (λ r. IsTruth t.new r) }
    ensures value { IfOk result (λ r. (v : Reading) → is_true t.new r v ≡ definition.is_in_any width (value t.old n v) spans.now) }
{
    let mut found = logic::constant(t, false)?;
    for span in spans {
        found = or_between(t, width, *span, n, found)?;
    }
    Ok(found)
}

// Whether a value of this poison and this base is a number.
fn is_number(t: &mut Terms, poison: TermId, base: TermId) -> Result<TermId, AllocError>
    requires poison { IsTruth t.old poison }
    requires base { IsWord t.old 64 base }
    ensures frame { Extends t.old t.new }
    ensures truth { IfOk result (λ r. IsTruth t.new r) }
    ensures value { IfOk result (λ r. (v : Reading) → is_true t.new r v ≡ (not (is_true t.old poison v) && nat_eq (value t.old base v) 0)) }
{
    let plain = is_word(t, base, 0)?;
    let known = logic::not(t, poison)?;
    let both = logic::and(t, known, plain)?;
    Ok(both)
}

#[tactic(auto, using(crate::proofs::SpanLaws::left))]
fn leaves_any(
    t: &mut Terms,
    width: u32,
    spans: &[Span],
    poison: TermId,
    base: TermId,
    bits: TermId,
) -> Result<TermId, AllocError>
    requires poison { IsTruth t.old poison }
    requires base { IsWord t.old 64 base }
    requires bits { bits < length t.old }
    ensures frame { Extends t.old t.new }
    ensures truth { IfOk result (λ r. IsTruth t.new r) }
    ensures value { IfOk result (λ r. (v : Reading) → is_true t.new r v ≡ leaves_spans width (Some spans.now) (stands_for (is_true t.old poison v) (value t.old base v) (value t.old bits v))) }
{
    let within = is_in_any(t, width, bits, spans)?;
    let outside = logic::not(t, within)?;
    let number = is_number(t, poison, base)?;
    let both = logic::and(t, number, outside)?;
    Ok(both)
}

/// Whether a value is a number that lies in none of the stated spans. Poison does not, nor does an address.
#[tactic(auto, using(crate::proofs::SpanLaws::unstated))]
pub(crate) fn leaves(
    t: &mut Terms,
    width: u32,
    spans: &Option<Seq<Span>>,
    poison: TermId,
    base: TermId,
    bits: TermId,
) -> Result<TermId, AllocError>
    requires poison { IsTruth t.old poison }
    requires base { IsWord t.old 64 base }
    requires bits { bits < length t.old }
    ensures frame { Extends t.old t.new }
    ensures truth { IfOk result (λ r. IsTruth t.new r) }
    ensures value { IfOk result (λ r. (v : Reading) → is_true t.new r v ≡ leaves_spans width spans.now (stands_for (is_true t.old poison v) (value t.old base v) (value t.old bits v))) }
{
    match spans {
        Some(spans) => leaves_any(t, width, spans.as_slice(), poison, base, bits),
        None => logic::constant(t, false),
    }
}
