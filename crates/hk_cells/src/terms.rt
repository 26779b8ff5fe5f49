//! Terms of numbers, places and entries of arrays.

ghost use Rattle.std.specs.Prelude.{◌≡◌, ℕ, ◌+◌, ◌*◌, ◌/◌, ◌%◌, ◌^◌, ◌<◌, ◌≤◌, length, IfOk};
ghost use Rattle.hk_term.specs.Shape.{IsWidth as IsBits, width};
ghost use Rattle.hk_term.specs.Meaning.{Reading, value};
ghost use Rattle.hk_term.specs.Inputs.{inputs_in};
ghost use Rattle.ir_layout.specs.Bytes.{IsWidth};
ghost use Rattle.hk_cells.specs.Growth.{Extends, IsWord};

use hk_simplify::{add, concat, extract, lshr, zero_extend};
use hk_term::{Node, TermId, Terms};
use std::alloc::AllocError;

// A constant.
#[tactic(auto, using(crate::proofs::Frames::framed))]
pub(crate) fn number(t: &mut Terms, bits: u32, n: u64) -> Result<TermId, AllocError>
    requires width { IsBits bits }
    requires number { n < 2 ^ bits }
    ensures frame { Extends t.old t.new }
    ensures few { length (inputs_in t.new) ≤ length (inputs_in t.old) }
    ensures word { IfOk result (λ r. IsWord t.new bits r) }
    ensures value { IfOk result (λ r. (v : Reading) → value t.new r v ≡ n) }
{
    let made = t.intern(Node::Const {
        width: bits,
        value: n,
    })?;
    Ok(made)
}

// The entry of an array at an index.
#[tactic(auto, using(crate::proofs::Frames::framed))]
pub(crate) fn entry(
    t: &mut Terms,
    array: u32,
    bits: u32,
    index: TermId,
) -> Result<TermId, AllocError>
    requires width { IsBits bits }
    requires index { IsWord t.old 64 index }
    ensures frame { Extends t.old t.new }
    ensures few { length (inputs_in t.new) ≤ length (inputs_in t.old) + 1 }
    ensures word { IfOk result (λ r. IsWord t.new bits r) }
    ensures value { IfOk result (λ r. (v : Reading) → value t.new r v ≡ v.entry array (value t.old index v) % 2 ^ bits) }
{
    let made = t.intern(Node::Select {
        array,
        width: bits,
        index,
    })?;
    Ok(made)
}

// A sum modulo 2^64.
#[tactic(auto, using(crate::proofs::Frames::framed))]
fn sum(t: &mut Terms, a: TermId, b: TermId) -> Result<TermId, AllocError>
    requires first { IsWord t.old 64 a }
    requires second { IsWord t.old 64 b }
    ensures frame { Extends t.old t.new }
    ensures few { length (inputs_in t.new) ≤ length (inputs_in t.old) }
    ensures word { IfOk result (λ r. IsWord t.new 64 r) }
    ensures value { IfOk result (λ r. (v : Reading) → value t.new r v ≡ (value t.old a v + value t.old b v) % 2 ^ 64) }
{
    let made = add(t, a, b)?;
    Ok(made)
}

// The place so many places behind another, modulo 2^64.
pub(crate) fn behind(t: &mut Terms, place: TermId, distance: u32) -> Result<TermId, AllocError>
    requires place { IsWord t.old 64 place }
    ensures frame { Extends t.old t.new }
    ensures few { length (inputs_in t.new) ≤ length (inputs_in t.old) }
    ensures word { IfOk result (λ r. IsWord t.new 64 r) }
    ensures value { IfOk result (λ r. (v : Reading) → value t.new r v ≡ (value t.old place v + distance) % 2 ^ 64) }
{
    let by = number(t, 64, u64::from(distance))?;
    let made = sum(t, place, by)?;
    Ok(made)
}

// A number shifted to the right.
#[tactic(auto, using(crate::proofs::Frames::framed))]
pub(crate) fn shifted(t: &mut Terms, a: TermId, by: TermId) -> Result<TermId, AllocError>
    requires first { a < length t.old }
    requires second { by < length t.old }
    requires widths { width t.old a ≡ width t.old by }
    ensures frame { Extends t.old t.new }
    ensures few { length (inputs_in t.new) ≤ length (inputs_in t.old) }
    ensures word { IfOk result (λ r. IsWord t.new (width t.old a) r) }
    ensures value { IfOk result (λ r. (v : Reading) → value t.new r v ≡ value t.old a v / 2 ^ value t.old by v) }
{
    let made = lshr(t, a, by)?;
    Ok(made)
}

// The lowest bits of a number.
#[tactic(auto, using(crate::proofs::Frames::framed))]
pub(crate) fn lowest(t: &mut Terms, bits: u32, a: TermId) -> Result<TermId, AllocError>
    requires some { 1 ≤ bits }
    requires term { a < length t.old }
    requires within { bits ≤ width t.old a }
    ensures frame { Extends t.old t.new }
    ensures few { length (inputs_in t.new) ≤ length (inputs_in t.old) }
    ensures word { IfOk result (λ r. IsWord t.new bits r) }
    ensures value { IfOk result (λ r. (v : Reading) → value t.new r v ≡ value t.old a v % 2 ^ bits) }
{
    let made = extract(t, bits - 1, 0, a)?;
    Ok(made)
}

// Numbers of bits, one above the other.
#[tactic(auto, using(crate::proofs::Frames::framed))]
pub(crate) fn joined(t: &mut Terms, high: TermId, low: TermId) -> Result<TermId, AllocError>
    requires high { high < length t.old }
    requires low { low < length t.old }
    requires few { width t.old high + width t.old low ≤ 64 }
    ensures frame { Extends t.old t.new }
    ensures few { length (inputs_in t.new) ≤ length (inputs_in t.old) }
    ensures word { IfOk result (λ r. IsWord t.new (width t.old high + width t.old low) r) }
    ensures value { IfOk result (λ r. (v : Reading) → value t.new r v ≡ value t.old high v * 2 ^ width t.old low + value t.old low v) }
{
    let made = concat(t, high, low)?;
    Ok(made)
}

// A number with zeros above.
#[tactic(auto, using(crate::proofs::Frames::framed))]
pub(crate) fn widened(t: &mut Terms, bits: u32, a: TermId) -> Result<TermId, AllocError>
    requires term { a < length t.old }
    requires wider { width t.old a ≤ bits }
    requires within { bits ≤ 64 }
    ensures frame { Extends t.old t.new }
    ensures few { length (inputs_in t.new) ≤ length (inputs_in t.old) }
    ensures word { IfOk result (λ r. IsWord t.new bits r) }
    ensures value { IfOk result (λ r. (v : Reading) → value t.new r v ≡ value t.old a v) }
{
    let made = zero_extend(t, bits, a)?;
    Ok(made)
}

// Numbers of bytes, one above the other.

pub(crate) fn above(
    t: &mut Terms,
    high: TermId,
    low: TermId,
    bytes: u32,
) -> Result<TermId, AllocError>
    requires high { high < length t.old }
    requires low { IsWord t.old (8 * bytes) low }
    requires few { width t.old high + 8 * bytes ≤ 64 }
    ensures frame { Extends t.old t.new }
    ensures few { length (inputs_in t.new) ≤ length (inputs_in t.old) }
    ensures word { IfOk result (λ r. IsWord t.new (width t.old high + 8 * bytes) r) }
    ensures value { IfOk result (λ r. (v : Reading) → value t.new r v ≡ value t.old high v * 256 ^ bytes + value t.old low v) }
{
    let made = joined(t, high, low)?;
    Ok(made)
}

// By how many bits a place is shifted to give its cell.
pub(crate) fn shift_of(cell: u32) -> u32
    requires { IsWidth cell }
    ensures power { 2 ^ result ≡ cell }
    ensures few { result ≤ 3 }
    ensures some { 1 < cell → 1 ≤ result }
{
    match cell {
        1 => 0,
        2 => 1,
        4 => 2,
        _ => 3,
    }
}

// The cell that holds a place.
pub(crate) fn cell_at(t: &mut Terms, place: TermId, cell: u32) -> Result<TermId, AllocError>
    requires place { IsWord t.old 64 place }
    requires cell { IsWidth cell }
    ensures frame { Extends t.old t.new }
    ensures few { length (inputs_in t.new) ≤ length (inputs_in t.old) }
    ensures word { IfOk result (λ r. IsWord t.new 64 r) }
    ensures value { IfOk result (λ r. (v : Reading) → value t.new r v ≡ value t.old place v / cell) }
{
    let by = number(t, 64, u64::from(shift_of(cell)))?;
    let made = shifted(t, place, by)?;
    Ok(made)
}
