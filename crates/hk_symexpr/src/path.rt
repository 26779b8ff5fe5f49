//! Where a path into the kernel's memory leads.

ghost use Rattle.std.specs.Prelude.{◌≡◌, ℕ, ◌+◌, ◌*◌, ◌%◌, ◌^◌, ◌<◌, ◌≤◌, ◌&&◌, true, Some, None, if◌then◌else◌, length, map, nat_lt, IfOk};
ghost use Rattle.hk_term.specs.Shape.{width};
ghost use Rattle.hk_term.specs.Meaning.{Reading, value};
ghost use Rattle.spec_tree.specs.Value.{bit, holds};
ghost use Rattle.spec_tree.specs.View.{view_steps};
ghost use Rattle.hk_symexpr.specs.Sources.{Keeps};
ghost use Rattle.hk_symexpr.specs.Naming.{AreLimited, index_values};
ghost use Rattle.hk_symexpr.specs.Paths.{AreIndexed, led};

use crate::names::Limit;
use crate::operators::both;
use crate::ops::{add, mul, number, sized, ult, zero_extend};
use hk_term::{TermId, Terms};
use spec_tree::PathStep;
use std::alloc::AllocError;

/// Whether each index of a path is below its count, and the bytes from the object's begin, modulo 2^64.
#[derive(Clone, Copy, Debug)]
pub(crate) struct Lead {
    pub(crate) inside: TermId,
    pub(crate) offset: TermId,
}

// Whether an index, widened to 64 bits, is below a count: always where the most that it may have is.
fn is_below(t: &mut Terms, wide: TermId, most: u64, count: u64) -> Result<TermId, AllocError>
    requires wide { wide < length t.old }
    requires address { width t.old wide ≡ 64 }
    ensures within { IfOk result (λ r. r < length t.new) }
    ensures width { IfOk result (λ r. width t.new r ≡ 1) }
    ensures value { IfOk result (λ r. (v : Reading) → value t.old wide v ≤ most → value t.new r v ≡ bit (nat_lt (value t.old wide v) count)) }
    ensures keeps { Keeps t.old t.new }
{
    if most < count {
        let always = number(t, 1, 1)?;
        Ok(always)
    } else {
        let limit = number(t, 64, count)?;
        let below = ult(t, wide, limit)?;
        Ok(below)
    }
}

// The bytes that an index, widened to 64 bits, adds to an offset.
fn moved(t: &mut Terms, offset: TermId, wide: TermId, stride: u64) -> Result<TermId, AllocError>
    requires offset { offset < length t.old }
    requires address { width t.old offset ≡ 64 }
    requires wide { wide < length t.old }
    requires same { width t.old wide ≡ 64 }
    ensures within { IfOk result (λ r. r < length t.new) }
    ensures width { IfOk result (λ r. width t.new r ≡ 64) }
    ensures value { IfOk result (λ r. (v : Reading) → value t.new r v ≡ (value t.old offset v + value t.old wide v * stride % 2 ^ 64) % 2 ^ 64) }
    ensures keeps { Keeps t.old t.new }
{
    let step = number(t, 64, stride)?;
    let bytes = mul(t, wide, step)?;
    let made = add(t, offset, bytes)?;
    Ok(made)
}

// One step further.
fn further(
    t: &mut Terms,
    lead: Lead,
    index: Limit,
    count: u64,
    stride: u64,
) -> Result<Lead, AllocError>
    requires inside { lead.inside < length t.old }
    requires truth { width t.old lead.inside ≡ 1 }
    requires offset { lead.offset < length t.old }
    requires address { width t.old lead.offset ≡ 64 }
    requires index { index.term < length t.old }
    ensures inside { IfOk result (λ r. r.inside < length t.new) }
    ensures truth { IfOk result (λ r. width t.new r.inside ≡ 1) }
    ensures offset { IfOk result (λ r. r.offset < length t.new) }
    ensures address { IfOk result (λ r. width t.new r.offset ≡ 64) }
    ensures test { IfOk result (λ r. (v : Reading) → value t.old index.term v ≤ index.most → value t.new r.inside v ≡ bit (holds (value t.old lead.inside v) && nat_lt (value t.old index.term v) count)) }
    ensures value { IfOk result (λ r. (v : Reading) → value t.new r.offset v ≡ (value t.old lead.offset v + value t.old index.term v * stride % 2 ^ 64) % 2 ^ 64) }
    ensures keeps { Keeps t.old t.new }
{
    // For the proof: the index's width is from 1 to 64, and its number below 2 to it.
    let _index = sized(t, index.term);
    let wide = zero_extend(t, 64, index.term)?;
    let below = is_below(t, wide, index.most, count)?;
    let inside = both(t, lead.inside, below)?;
    let offset = moved(t, lead.offset, wide, stride)?;
    Ok(Lead { inside, offset })
}

/// Where steps lead from an offset on.
pub(crate) fn lead_of(
    t: &mut Terms,
    base: u64,
    steps: &[PathStep],
    index: &[Limit],
) -> Result<Lead, AllocError>
    requires index { AreIndexed t.old (view_steps steps.now) index.now }
    ensures inside { IfOk result (λ r. r.inside < length t.new) }
    ensures truth { IfOk result (λ r. width t.new r.inside ≡ 1) }
    ensures offset { IfOk result (λ r. r.offset < length t.new) }
    ensures address { IfOk result (λ r. width t.new r.offset ≡ 64) }
    ensures value { IfOk result (λ r. (v : Reading) → AreLimited t.old index.now v →
        led true base (view_steps steps.now) (index_values t.old index.now v) ≡ (if holds (value t.new r.inside v) then Some (value t.new r.offset v) else None)) }
    ensures base { base < 2 ^ 64 }
    ensures keeps { Keeps t.old t.new }
{
    let inside = number(t, 1, 1)?;
    let offset = number(t, 64, base)?;
    let mut lead = Lead { inside, offset };
    'each: for (k, step) in steps.iter().enumerate() {
        lead = further(t, lead, index[k], step.count, step.stride)?;
    }
    Ok(lead)
}
