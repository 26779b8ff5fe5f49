//! Reads of constants at symbolic offsets, by the bits of the offset.

ghost use Rattle.std.specs.Prelude.{◌≡◌, ℕ, ◌+◌, ◌*◌, ◌%◌, ◌^◌, ◌<◌, ◌≤◌, length, if◌then◌else◌, nat_eq, ◌/◌, IfOk};
ghost use Rattle.hk_term.specs.Shape.{width, Grows};
ghost use Rattle.hk_term.specs.Meaning.{Reading, value};
ghost use Rattle.ir_layout.specs.Bytes.{IsWidth, object_of, number_at};

use crate::terms::number;
use hk_simplify::{choose, extract};
use hk_term::{TermId, Terms};
use ir_layout::KMemory;
use std::alloc::AllocError;

// The number in so many bytes of the first object from a place on, where they lie in it.
fn constant_at(m: &KMemory, at: u64, bytes: u32) -> u64
    requires bytes { IsWidth bytes }
    requires at { at < 2 ^ 63 }
    ensures known { at + bytes ≤ length (object_of m.now 0) → result ≡ number_at bytes at (object_of m.now 0) }
    ensures fits { result < 256 ^ bytes }
{
    if m.objects() == 0 {
        return 0;
    }
    let items = m.bytes(0);
    if at + u64::from(bytes) > items.len() as u64 {
        return 0;
    }
    m.load(0, at, bytes)
}

// How many bytes the first object has.
fn constant_len(m: &KMemory) -> u64
    ensures len { result ≡ length (object_of m.now 0) }
    ensures small { result < 2 ^ 63 }
{
    if m.objects() == 0 {
        return 0;
    }
    let items = m.bytes(0);
    items.len() as u64
}

// The number in so many bytes of the first object at a base and the low `level` bits of an offset.
fn pick(
    t: &mut Terms,
    m: &KMemory,
    offset: TermId,
    bytes: u32,
    base: u64,
    level: u32,
) -> Result<TermId, AllocError>
    requires offset { offset < length t.old }
    requires address { width t.old offset ≡ 64 }
    requires bytes { IsWidth bytes }
    requires level { level ≤ 63 }
    requires base { base < 2 ^ 63 }
    ensures within { IfOk result (λ r. r < length t.new) }
    ensures width { IfOk result (λ r. width t.new r ≡ 8 * bytes) }
    ensures value { IfOk result (λ r. (v : Reading) → base + value t.old offset v % 2 ^ level + bytes ≤ length (object_of m.now 0) → value t.new r v ≡ number_at bytes (base + value t.old offset v % 2 ^ level) (object_of m.now 0)) }
    ensures keeps_widths { (k : ℕ) → k < length t.old → width t.new k ≡ width t.old k }
    ensures keeps_values { (k : ℕ) → k < length t.old → (v : Reading) → value t.new k v ≡ value t.old k v }
    ensures longer { length t.old ≤ length t.new }
    ensures grows { Grows t.old t.new }
{
    if level == 0 {
        let n = constant_at(m, base, bytes);
        let made = number(t, 8 * bytes, n)?;
        return Ok(made);
    }
    let half = 1_u64 << (level - 1);
    let low = pick(t, m, offset, bytes, base, level - 1)?;
    let next = base + half;
    if next >= constant_len(m) {
        return Ok(low);
    }
    let high = pick(t, m, offset, bytes, next, level - 1)?;
    let made = either(t, offset, level - 1, high, low)?;
    Ok(made)
}

// The first of two terms where a bit of an offset is set, and else the second.
fn either(
    t: &mut Terms,
    offset: TermId,
    bit: u32,
    high: TermId,
    low: TermId,
) -> Result<TermId, AllocError>
    requires offset { offset < length t.old }
    requires address { width t.old offset ≡ 64 }
    requires bit { bit ≤ 63 }
    requires high { high < length t.old }
    requires low { low < length t.old }
    requires widths { width t.old high ≡ width t.old low }
    ensures within { IfOk result (λ r. r < length t.new) }
    ensures width { IfOk result (λ r. width t.new r ≡ width t.old low) }
    ensures value { IfOk result (λ r. (v : Reading) → value t.new r v ≡ (if nat_eq (value t.old offset v / 2 ^ bit % 2) 1 then value t.old high v else value t.old low v)) }
    ensures keeps_widths { (k : ℕ) → k < length t.old → width t.new k ≡ width t.old k }
    ensures keeps_values { (k : ℕ) → k < length t.old → (v : Reading) → value t.new k v ≡ value t.old k v }
    ensures longer { length t.old ≤ length t.new }
    ensures grows { Grows t.old t.new }
{
    let set = extract(t, bit, bit, offset)?;
    let made = choose(t, set, high, low)?;
    Ok(made)
}

// The number in so many bytes of the first object from an offset on.
pub(crate) fn constant_number(
    t: &mut Terms,
    m: &KMemory,
    offset: TermId,
    bytes: u32,
) -> Result<TermId, AllocError>
    requires offset { offset < length t.old }
    requires address { width t.old offset ≡ 64 }
    requires bytes { IsWidth bytes }
    ensures within { IfOk result (λ r. r < length t.new) }
    ensures width { IfOk result (λ r. width t.new r ≡ 8 * bytes) }
    ensures value { IfOk result (λ r. (v : Reading) → value t.old offset v + bytes ≤ length (object_of m.now 0) → value t.new r v ≡ number_at bytes (value t.old offset v) (object_of m.now 0)) }
    ensures keeps_widths { (k : ℕ) → k < length t.old → width t.new k ≡ width t.old k }
    ensures keeps_values { (k : ℕ) → k < length t.old → (v : Reading) → value t.new k v ≡ value t.old k v }
    ensures longer { length t.old ≤ length t.new }
    ensures grows { Grows t.old t.new }
{
    let level = level_of(constant_len(m));
    let made = pick(t, m, offset, bytes, 0, level)?;
    Ok(made)
}

// So many bits that each number below n has no more.
fn level_of(n: u64) -> u32
    requires { n < 2 ^ 63 }
    ensures few { result ≤ 63 }
    ensures enough { n ≤ 2 ^ result }
{
    let mut level = 0;
    while level < 63 && (1_u64 << level) < n {
        level += 1;
    }
    level
}
