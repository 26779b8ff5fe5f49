//! Reads behind one write: where both have the same size and whole places, by equality of their offsets alone.

ghost use Rattle.std.specs.Prelude.{◌≡◌, ℕ, ◌+◌, ◌*◌, ◌%◌, ◌^◌, ◌<◌, ◌≤◌, ◌⊎◌, List, length, true, IfOk, IsTrue};
ghost use Rattle.hk_term.specs.Shape.{width, Grows};
ghost use Rattle.hk_term.specs.Meaning.{Reading, value};
ghost use Rattle.ir_layout.specs.Bytes.{IsWidth};
ghost use Rattle.hk_symmem.specs.Guarded.{after_write, IsWriteOver};
ghost use Rattle.hk_symmem.specs.Reading.{IsRead};

use crate::multiples::{constant, is_multiple};
use crate::overlay::number_behind;
use crate::write::GuardedWrite;
use hk_simplify::{and, choose, eq};
use hk_term::{TermId, Terms};
use std::alloc::AllocError;

// How deep a sum is looked into.
pub(crate) const DEPTH: u32 = 10;

// A number of the same size as a write at a multiple of it, where the write is at one too: it is the whole number that is written,
// or nothing of it.
fn whole_behind(
    t: &mut Terms,
    w: &GuardedWrite,
    offset: TermId,
    bytes: u32,
    found: TermId,
) -> Result<TermId, AllocError>
    requires write { IsWriteOver t.old w.now }
    requires offset { offset < length t.old }
    requires address { width t.old offset ≡ 64 }
    requires same { w.now.bytes ≡ bytes }
    requires first { (v : Reading) → value t.old offset v % bytes ≡ 0 }
    requires second { (v : Reading) → value t.old w.now.offset v % bytes ≡ 0 }
    requires found { found < length t.old }
    requires number { width t.old found ≡ 8 * bytes }
    ensures within { IfOk result (λ r. r < length t.new) }
    ensures width { IfOk result (λ r. width t.new r ≡ 8 * bytes) }
    ensures value { IfOk result (λ r. (v : Reading) (b : List ℕ) → IsRead (value t.old offset v) bytes b (value t.old found v) → IsRead (value t.old offset v) bytes (after_write t.old v w.now b) (value t.new r v)) }
    ensures keeps_widths { (k : ℕ) → k < length t.old → width t.new k ≡ width t.old k }
    ensures keeps_values { (k : ℕ) → k < length t.old → (v : Reading) → value t.new k v ≡ value t.old k v }
    ensures longer { length t.old ≤ length t.new }
    ensures grows { Grows t.old t.new }
{
    // For the proof: the numbers of the guard, of the offset and of the value are below 2 to their widths.
    let _guard = t.node(w.guard);
    let _place = t.node(w.offset);
    let _number = t.node(w.value);
    let same = eq(t, offset, w.offset)?;
    let hit = and(t, w.guard, same)?;
    let made = choose(t, hit, w.value, found)?;
    Ok(made)
}

// Whether two ranges at constant offsets are seen to be apart.
fn is_apart(t: &Terms, w: &GuardedWrite, offset: TermId, bytes: u32) -> bool
    requires write { IsWriteOver t.now w.now }
    requires offset { offset < length t.now }
    requires bytes { bytes ≤ 8 }
    ensures fits { IsTrue result → (v : Reading) → value t.now w.now.offset v + w.now.bytes ≤ 2 ^ 64 }
    ensures apart { IsTrue result → (v : Reading) → (value t.now offset v + bytes ≤ value t.now w.now.offset v) ⊎ (value t.now w.now.offset v + w.now.bytes ≤ value t.now offset v) }
{
    match (constant(t, offset), constant(t, w.offset)) {
        (Some(p), Some(o)) => are_apart(u128::from(p), bytes, u128::from(o), w.bytes),
        _ => false,
    }
}

fn are_apart(p: u128, m: u32, o: u128, n: u32) -> bool
    requires first { p < 2 ^ 64 }
    requires second { o < 2 ^ 64 }
    ensures fits { IsTrue result → o + n ≤ 2 ^ 64 }
    ensures apart { IsTrue result → (p + m ≤ o) ⊎ (o + n ≤ p) }
{
    let end = o + u128::from(n);
    if end <= 18_446_744_073_709_551_616 {
        p + u128::from(m) <= o || end <= p
    } else {
        false
    }
}

// A number in so many bytes from an offset on behind a write, where `found` is the number before it.
pub(crate) fn behind(
    t: &mut Terms,
    w: &GuardedWrite,
    offset: TermId,
    bytes: u32,
    whole: bool,
    found: TermId,
) -> Result<TermId, AllocError>
    requires write { IsWriteOver t.old w.now }
    requires offset { offset < length t.old }
    requires address { width t.old offset ≡ 64 }
    requires bytes { IsWidth bytes }
    requires whole { whole ≡ true → (v : Reading) → value t.old offset v % bytes ≡ 0 }
    requires found { found < length t.old }
    requires number { width t.old found ≡ 8 * bytes }
    ensures within { IfOk result (λ r. r < length t.new) }
    ensures width { IfOk result (λ r. width t.new r ≡ 8 * bytes) }
    ensures value { IfOk result (λ r. (v : Reading) (b : List ℕ) → IsRead (value t.old offset v) bytes b (value t.old found v) → IsRead (value t.old offset v) bytes (after_write t.old v w.now b) (value t.new r v)) }
    ensures keeps_widths { (k : ℕ) → k < length t.old → width t.new k ≡ width t.old k }
    ensures keeps_values { (k : ℕ) → k < length t.old → (v : Reading) → value t.new k v ≡ value t.old k v }
    ensures longer { length t.old ≤ length t.new }
    ensures grows { Grows t.old t.new }
{
    if is_apart(t, w, offset, bytes) {
        Ok(found)
    } else if is_whole(t, w, bytes, whole) {
        let made = whole_behind(t, w, offset, bytes, found)?;
        Ok(made)
    } else {
        let made = number_behind(t, w, offset, bytes, found)?;
        Ok(made)
    }
}

// Whether a write has this size, and is seen to be at a multiple of it, as the read is.
fn is_whole(t: &Terms, w: &GuardedWrite, bytes: u32, whole: bool) -> bool
    requires write { IsWriteOver t.now w.now }
    requires bytes { IsWidth bytes }
    ensures read { IsTrue result → whole ≡ true }
    ensures same { IsTrue result → w.now.bytes ≡ bytes }
    ensures place { IsTrue result → (v : Reading) → value t.now w.now.offset v % bytes ≡ 0 }
{
    if whole && w.bytes == bytes {
        is_multiple(t, w.offset, bytes, DEPTH)
    } else {
        false
    }
}
