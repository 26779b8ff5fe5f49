//! Reads behind one write, byte by byte.

ghost use Rattle.std.specs.Prelude.{◌≡◌, ℕ, suc, ◌+◌, ◌*◌, ◌/◌, ◌%◌, ◌^◌, ◌<◌, ◌≤◌, if◌then◌else◌, nat_eq, List, length, slice_index, slice_set, IfOk};
ghost use Rattle.hk_term.specs.Shape.{width, Grows};
ghost use Rattle.hk_term.specs.Meaning.{Reading, value};
ghost use Rattle.ir_layout.specs.Bytes.{IsWidth, number_at};
ghost use Rattle.hk_symmem.specs.Guarded.{after_write, IsWriteOver};
ghost use Rattle.hk_symmem.specs.Reading.{IsRead};

use crate::terms::{above, byte_of, place_behind};
use crate::write::GuardedWrite;
use hk_simplify::{and, choose, eq};
use hk_term::{TermId, Terms};
use std::alloc::AllocError;

// A byte at a place, where one byte of a write was written before.
fn behind_byte(
    t: &mut Terms,
    w: &GuardedWrite,
    byte: u32,
    place: TermId,
    found: TermId,
) -> Result<TermId, AllocError>
    requires write { IsWriteOver t.old w.now }
    requires byte { byte < w.now.bytes }
    requires place { place < length t.old }
    requires address { width t.old place ≡ 64 }
    requires found { found < length t.old }
    requires eight { width t.old found ≡ 8 }
    ensures within { IfOk result (λ r. r < length t.new) }
    ensures width { IfOk result (λ r. width t.new r ≡ 8) }
    ensures value { IfOk result (λ r. (v : Reading) (bytes : List ℕ) (before : ℕ) → value t.old place v < length bytes → value t.old found v ≡ (if nat_eq (value t.old w.now.guard v) 1 then slice_index bytes (value t.old place v) else before) → value t.new r v ≡ (if nat_eq (value t.old w.now.guard v) 1 then slice_index (slice_set bytes ((value t.old w.now.offset v + byte) % 2 ^ 64) (value t.old w.now.value v / 256 ^ byte % 256)) (value t.old place v) else before)) }
    ensures keeps_widths { (k : ℕ) → k < length t.old → width t.new k ≡ width t.old k }
    ensures keeps_values { (k : ℕ) → k < length t.old → (v : Reading) → value t.new k v ≡ value t.old k v }
    ensures longer { length t.old ≤ length t.new }
    ensures grows { Grows t.old t.new }
{
    // For the proof: the guard's number is below 2 to its width.
    let _guard = t.node(w.guard);
    let part = byte_of(t, w.value, byte)?;
    let there = place_behind(t, w.offset, byte)?;
    let same = eq(t, place, there)?;
    let hit = and(t, w.guard, same)?;
    let made = choose(t, hit, part, found)?;
    Ok(made)
}

// A byte at a place behind a write.
fn byte_behind(
    t: &mut Terms,
    w: &GuardedWrite,
    place: TermId,
    found: TermId,
) -> Result<TermId, AllocError>
    requires write { IsWriteOver t.old w.now }
    requires place { place < length t.old }
    requires address { width t.old place ≡ 64 }
    requires found { found < length t.old }
    requires eight { width t.old found ≡ 8 }
    ensures within { IfOk result (λ r. r < length t.new) }
    ensures width { IfOk result (λ r. width t.new r ≡ 8) }
    ensures value { IfOk result (λ r. (v : Reading) (bytes : List ℕ) → value t.old place v < length bytes → value t.old found v ≡ slice_index bytes (value t.old place v) → value t.new r v ≡ slice_index (after_write t.old v w.now bytes) (value t.old place v)) }
    ensures keeps_widths { (k : ℕ) → k < length t.old → width t.new k ≡ width t.old k }
    ensures keeps_values { (k : ℕ) → k < length t.old → (v : Reading) → value t.new k v ≡ value t.old k v }
    ensures longer { length t.old ≤ length t.new }
    ensures grows { Grows t.old t.new }
{
    let mut made = found;
    for byte in 0..w.bytes {
        made = behind_byte(t, w, byte, place, made)?;
    }
    Ok(made)
}

// A number as it was before a write, in so many bytes from an offset on.
#[derive(Drop)]
struct Before {
    offset: TermId,
    bytes: u32,
    found: TermId,
}

// The bytes of a number behind a write, one more than those that were made.
fn one_more(
    t: &mut Terms,
    w: &GuardedWrite,
    before: &Before,
    byte: u32,
    made: TermId,
) -> Result<TermId, AllocError>
    requires write { IsWriteOver t.old w.now }
    requires offset { before.now.offset < length t.old }
    requires address { width t.old before.now.offset ≡ 64 }
    requires bytes { before.now.bytes ≤ 8 }
    requires byte { byte < before.now.bytes }
    requires found { before.now.found < length t.old }
    requires number { width t.old before.now.found ≡ 8 * before.now.bytes }
    requires made { made < length t.old }
    requires part { width t.old made ≡ 8 * byte }
    ensures within { IfOk result (λ r. r < length t.new) }
    ensures width { IfOk result (λ r. width t.new r ≡ 8 * byte + 8) }
    ensures value { IfOk result (λ r. (v : Reading) (b : List ℕ) → IsRead (value t.old before.now.offset v) before.now.bytes b (value t.old before.now.found v) → value t.old made v ≡ number_at byte (value t.old before.now.offset v) (after_write t.old v w.now b) → value t.new r v ≡ number_at (suc byte) (value t.old before.now.offset v) (after_write t.old v w.now b)) }
    ensures keeps_widths { (k : ℕ) → k < length t.old → width t.new k ≡ width t.old k }
    ensures keeps_values { (k : ℕ) → k < length t.old → (v : Reading) → value t.new k v ≡ value t.old k v }
    ensures longer { length t.old ≤ length t.new }
    ensures grows { Grows t.old t.new }
{
    let place = place_behind(t, before.offset, byte)?;
    let part = byte_of(t, before.found, byte)?;
    let high = byte_behind(t, w, place, part)?;
    let whole = above(t, high, made, byte)?;
    Ok(whole)
}

// A number in so many bytes from an offset on behind a write, byte by byte, where `found` is the number before it.
pub(crate) fn number_behind(
    t: &mut Terms,
    w: &GuardedWrite,
    offset: TermId,
    bytes: u32,
    found: TermId,
) -> Result<TermId, AllocError>
    requires write { IsWriteOver t.old w.now }
    requires offset { offset < length t.old }
    requires address { width t.old offset ≡ 64 }
    requires bytes { IsWidth bytes }
    requires found { found < length t.old }
    requires number { width t.old found ≡ 8 * bytes }
    ensures within { IfOk result (λ r. r < length t.new) }
    ensures width { IfOk result (λ r. width t.new r ≡ 8 * bytes) }
    ensures value { IfOk result (λ r. (v : Reading) (b : List ℕ) → IsRead (value t.old offset v) bytes b (value t.old found v) → value t.new r v ≡ number_at bytes (value t.old offset v) (after_write t.old v w.now b)) }
    ensures keeps_widths { (k : ℕ) → k < length t.old → width t.new k ≡ width t.old k }
    ensures keeps_values { (k : ℕ) → k < length t.old → (v : Reading) → value t.new k v ≡ value t.old k v }
    ensures longer { length t.old ≤ length t.new }
    ensures grows { Grows t.old t.new }
{
    let before = Before {
        offset,
        bytes,
        found,
    };
    let low = byte_of(t, found, 0)?;
    let mut made = byte_behind(t, w, offset, low)?;
    for byte in 1..bytes {
        made = one_more(t, w, &before, byte, made)?;
    }
    Ok(made)
}
