//! Terms of numbers, places and bytes.

ghost use Rattle.std.specs.Prelude.{◌≡◌, ℕ, ◌+◌, ◌*◌, ◌/◌, ◌%◌, ◌^◌, ◌<◌, ◌≤◌, length, IfOk};
ghost use Rattle.hk_term.specs.Shape.{IsWidth, width, Grows};
ghost use Rattle.hk_term.specs.Meaning.{Reading, value};

use hk_simplify::{add, concat, extract};
use hk_term::{Node, TermId, Terms};
use std::alloc::AllocError;

// A constant.
pub(crate) fn number(t: &mut Terms, bits: u32, n: u64) -> Result<TermId, AllocError>
    requires width { IsWidth bits }
    requires number { n < 2 ^ bits }
    ensures within { IfOk result (λ r. r < length t.new) }
    ensures width { IfOk result (λ r. width t.new r ≡ bits) }
    ensures value { IfOk result (λ r. (v : Reading) → value t.new r v ≡ n) }
    ensures keeps_widths { (k : ℕ) → k < length t.old → width t.new k ≡ width t.old k }
    ensures keeps_values { (k : ℕ) → k < length t.old → (v : Reading) → value t.new k v ≡ value t.old k v }
    ensures longer { length t.old ≤ length t.new }
    ensures grows { Grows t.old t.new }
{
    let made = t.intern(Node::Const {
        width: bits,
        value: n,
    })?;
    Ok(made)
}

// The place so many bytes behind an offset, modulo 2^64.
pub(crate) fn place_behind(t: &mut Terms, offset: TermId, bytes: u32) -> Result<TermId, AllocError>
    requires offset { offset < length t.old }
    requires address { width t.old offset ≡ 64 }
    ensures within { IfOk result (λ r. r < length t.new) }
    ensures width { IfOk result (λ r. width t.new r ≡ 64) }
    ensures value { IfOk result (λ r. (v : Reading) → value t.new r v ≡ (value t.old offset v + bytes) % 2 ^ 64) }
    ensures keeps_widths { (k : ℕ) → k < length t.old → width t.new k ≡ width t.old k }
    ensures keeps_values { (k : ℕ) → k < length t.old → (v : Reading) → value t.new k v ≡ value t.old k v }
    ensures longer { length t.old ≤ length t.new }
    ensures grows { Grows t.old t.new }
{
    let distance = number(t, 64, u64::from(bytes))?;
    let place = add(t, offset, distance)?;
    Ok(place)
}

// A byte of a number, counted from the low one.
pub(crate) fn byte_of(t: &mut Terms, a: TermId, byte: u32) -> Result<TermId, AllocError>
    requires term { a < length t.old }
    requires within { 8 * byte + 8 ≤ width t.old a }
    requires few { byte ≤ 8 }
    ensures within { IfOk result (λ r. r < length t.new) }
    ensures width { IfOk result (λ r. width t.new r ≡ 8) }
    ensures value { IfOk result (λ r. (v : Reading) → value t.new r v ≡ value t.old a v / 256 ^ byte % 256) }
    ensures keeps_widths { (k : ℕ) → k < length t.old → width t.new k ≡ width t.old k }
    ensures keeps_values { (k : ℕ) → k < length t.old → (v : Reading) → value t.new k v ≡ value t.old k v }
    ensures longer { length t.old ≤ length t.new }
    ensures grows { Grows t.old t.new }
{
    let made = extract(t, 8 * byte + 7, 8 * byte, a)?;
    Ok(made)
}

// Numbers of bytes, one above the other.
pub(crate) fn above(
    t: &mut Terms,
    high: TermId,
    low: TermId,
    bytes: u32,
) -> Result<TermId, AllocError>
    requires high { high < length t.old }
    requires low { low < length t.old }
    requires size { width t.old low ≡ 8 * bytes }
    requires few { width t.old high + width t.old low ≤ 64 }
    ensures within { IfOk result (λ r. r < length t.new) }
    ensures width { IfOk result (λ r. width t.new r ≡ width t.old high + 8 * bytes) }
    ensures value { IfOk result (λ r. (v : Reading) → value t.new r v ≡ value t.old high v * 256 ^ bytes + value t.old low v) }
    ensures keeps_widths { (k : ℕ) → k < length t.old → width t.new k ≡ width t.old k }
    ensures keeps_values { (k : ℕ) → k < length t.old → (v : Reading) → value t.new k v ≡ value t.old k v }
    ensures longer { length t.old ≤ length t.new }
    ensures grows { Grows t.old t.new }
{
    let made = concat(t, high, low)?;
    Ok(made)
}
