//! Where accesses reach, and how addresses begin.

ghost use Rattle.std.specs.Prelude.{◌≡◌, ◌≢◌, ℕ, ◌+◌, ◌-◌, ◌*◌, ◌/◌, ◌%◌, ◌^◌, ◌<◌, ◌≤◌, ◌&&◌, ◌||◌, ◌==◌, not, true, false, Bool, if◌then◌else◌, nat_eq, nat_lt, nat_le, length, IfOk};
ghost use Rattle.hk_term.specs.Shape.{IsWidth, width};
ghost use Rattle.hk_term.specs.Meaning.{Reading, value};
ghost use Rattle.hk_symvalue.specs.Growth.{Extends};
ghost use Rattle.hk_symvalue.specs.Meaning.{IsTruth, IsWord, IsSym, IsMade, is_true, meaning};
ghost use Rattle.hk_symvalue.specs.Rows.{Answers, Reaches, flagged, IsFlagged, shown};
ghost use Rattle.ir_value.specs.Pointers.{reach, begin_at};

use crate::numbers::is_some;
use crate::value::SymValue;
use crate::words::{number, sized};
use crate::{logic, ops};
use hk_term::{TermId, Terms};
use std::alloc::AllocError;

/// The bits of a value as an offset.
pub fn offset_of(t: &mut Terms, a: TermId) -> Result<TermId, AllocError>
    requires { a < length t.old }
    ensures frame { Extends t.old t.new }
    ensures word { IfOk result (λ r. IsWord t.new 64 r) }
    ensures value { IfOk result (λ r. (v : Reading) → value t.new r v ≡ value t.old a v) }
{
    // For the proof: the term's width is at most 64, and its number below 2 to it.
    let _u = sized(t, a);
    let made = ops::zero_extend(t, 64, a)?;
    Ok(made)
}

// Offsets are numbers of width 64. The call does nothing: its contract is a law of the list.
pub(crate) fn are_small(t: &Terms, a: TermId)
    requires { a < length t.now }
    ensures { (v : Reading) → value t.now a v < 2 ^ 64 }
{
    // For the proof: the term's width is at most 64, and its numbers below 2 to it.
    let _u = sized(t, a);
}

/// Whether a term of width 64 is a number.
pub fn is_word(t: &mut Terms, a: TermId, n: u64) -> Result<TermId, AllocError>
    requires { IsWord t.old 64 a }
    ensures frame { Extends t.old t.new }
    ensures truth { IfOk result (λ r. IsTruth t.new r) }
    ensures value { IfOk result (λ r. (v : Reading) → is_true t.new r v ≡ nat_eq (value t.old a v) n) }
{
    let number = number(t, 64, n)?;
    let same = logic::eq(t, a, number)?;
    Ok(same)
}

// Whether so many bytes from an offset on leave an object of a size.
fn leaves(t: &mut Terms, size: TermId, bytes: u64, x: TermId) -> Result<TermId, AllocError>
    requires size { IsWord t.old 64 size }
    requires offset { IsWord t.old 64 x }
    ensures frame { Extends t.old t.new }
    ensures truth { IfOk result (λ r. IsTruth t.new r) }
    ensures value { IfOk result (λ r. (v : Reading) → is_true t.new r v ≡ not (nat_le (value t.old x v + bytes) (value t.old size v))) }
{
    // For the proof: the size's number is below 2 to its width.
    let _size = sized(t, size);
    let count = number(t, 64, bytes)?;
    let short = logic::ult(t, size, count)?;
    let room = ops::sub(t, size, count)?;
    let beyond = logic::ult(t, room, x)?;
    let either = logic::or(t, short, beyond)?;
    Ok(either)
}

// Whether a number leaves a remainder.
#[tactic(auto, using(crate::proofs::PointerLaws::urem_is))]
fn remains(t: &mut Terms, a: TermId, n: u64) -> Result<TermId, AllocError>
    requires word { IsWord t.old 64 a }
    requires nonzero { n ≢ 0 }
    ensures frame { Extends t.old t.new }
    ensures truth { IfOk result (λ r. IsTruth t.new r) }
    ensures value { IfOk result (λ r. (v : Reading) → is_true t.new r v ≡ not (value t.old a v % n == 0)) }
{
    let divisor = number(t, 64, n)?;
    let rest = ops::urem(t, a, divisor)?;
    let some = is_some(t, rest)?;
    Ok(some)
}

// Whether an offset, or its object, is not aligned as an access says.
fn is_crooked(
    t: &mut Terms,
    object_align: TermId,
    align: u64,
    x: TermId,
) -> Result<TermId, AllocError>
    requires object_align { IsWord t.old 64 object_align }
    requires offset { IsWord t.old 64 x }
    requires nonzero { align ≢ 0 }
    ensures frame { Extends t.old t.new }
    ensures truth { IfOk result (λ r. IsTruth t.new r) }
    ensures value { IfOk result (λ r. (v : Reading) → is_true t.new r v ≡ (not (value t.old x v % align == 0) || not (value t.old object_align v % align == 0))) }
{
    let offset = remains(t, x, align)?;
    let object = remains(t, object_align, align)?;
    let either = logic::or(t, offset, object)?;
    Ok(either)
}

// Whether an address is poison or null.
fn is_nowhere(t: &mut Terms, address: SymValue) -> Result<TermId, AllocError>
    requires { IsSym t.old address }
    ensures frame { Extends t.old t.new }
    ensures truth { IfOk result (λ r. IsTruth t.new r) }
    ensures value { IfOk result (λ r. (v : Reading) → is_true t.new r v ≡ (is_true t.old address.poison v || nat_eq (value t.old address.base v) 1)) }
{
    let null = is_word(t, address.base, 1)?;
    let either = logic::or(t, address.poison, null)?;
    Ok(either)
}

/// Whether a run is stuck at an access of so many bytes, aligned as it says. Size and alignment are terms of width 64: those of the
/// address's object.
pub fn reach_sticks(
    t: &mut Terms,
    size: TermId,
    object_align: TermId,
    bytes: u64,
    align: u64,
    address: SymValue,
) -> Result<TermId, AllocError>
    requires size { IsWord t.old 64 size }
    requires object_align { IsWord t.old 64 object_align }
    requires address { IsSym t.old address }
    ensures frame { Extends t.old t.new }
    ensures truth { IfOk result (λ r. IsTruth t.new r) }
    ensures reaches { IfOk result (λ r. (v : Reading) → Reaches (is_true t.new r v) (reach (value t.old size v) (value t.old object_align v) bytes align (meaning t.old address v))) }
{
    if align == 0 {
        let always = logic::constant(t, true)?;
        Ok(always)
    } else {
        let stuck = aligned_sticks(t, size, object_align, bytes, align, address)?;
        Ok(stuck)
    }
}

fn aligned_sticks(
    t: &mut Terms,
    size: TermId,
    object_align: TermId,
    bytes: u64,
    align: u64,
    address: SymValue,
) -> Result<TermId, AllocError>
    requires size { IsWord t.old 64 size }
    requires object_align { IsWord t.old 64 object_align }
    requires address { IsSym t.old address }
    requires nonzero { align ≢ 0 }
    ensures frame { Extends t.old t.new }
    ensures truth { IfOk result (λ r. IsTruth t.new r) }
    ensures reaches { IfOk result (λ r. (v : Reading) → Reaches (is_true t.new r v) (reach (value t.old size v) (value t.old object_align v) bytes align (meaning t.old address v))) }
{
    let x = offset_of(t, address.bits)?;
    let nowhere = is_nowhere(t, address)?;
    let outside = leaves(t, size, bytes, x)?;
    let crooked = is_crooked(t, object_align, align, x)?;
    let bad = logic::or(t, outside, crooked)?;
    let stuck = logic::or(t, nowhere, bad)?;
    Ok(stuck)
}

// Whether an address lies beyond the end of its object. Null does not.
fn is_beyond(t: &mut Terms, size: TermId, base: TermId, bits: TermId) -> Result<TermId, AllocError>
    requires size { IsWord t.old 64 size }
    requires base { IsWord t.old 64 base }
    requires bits { bits < length t.old }
    ensures frame { Extends t.old t.new }
    ensures truth { IfOk result (λ r. IsTruth t.new r) }
    ensures value { IfOk result (λ r. (v : Reading) → is_true t.new r v ≡ (not (nat_eq (value t.old base v) 1) && nat_lt (value t.old size v) (value t.old bits v))) }
{
    let x = offset_of(t, bits)?;
    let null = is_word(t, base, 1)?;
    let known = logic::not(t, null)?;
    let over = logic::ult(t, size, x)?;
    let both = logic::and(t, known, over)?;
    Ok(both)
}

/// The base of a `getelementptr`. The size is a term of width 64: that of the base's object. With `inbounds` the base is poison where it
/// lies outside its object; a number is no base, and gives poison.
pub fn begin(
    t: &mut Terms,
    inbounds: bool,
    size: TermId,
    from: SymValue,
) -> Result<SymValue, AllocError>
    requires size { IsWord t.old 64 size }
    requires base { IsSym t.old from }
    ensures frame { Extends t.old t.new }
    ensures within { IfOk result (λ r. IsSym t.new r) }
    ensures value { IfOk result (λ r. (v : Reading) → meaning t.new r v ≡ begin_at inbounds (value t.old size v) (meaning t.old from v)) }
{
    are_small(t, from.bits);
    let number = is_word(t, from.base, 0)?;
    let beyond = is_beyond(t, size, from.base, from.bits)?;
    let outside = logic::flagged(t, inbounds, beyond)?;
    let either = logic::or(t, number, outside)?;
    let poison = logic::or(t, from.poison, either)?;
    Ok(SymValue {
        poison,
        base: from.base,
        bits: from.bits,
    })
}
