//! Reads behind the writes to one object.

ghost use Rattle.std.specs.Prelude.{◌≡◌, ℕ, ◌+◌, ◌*◌, ◌%◌, ◌^◌, ◌<◌, ◌≤◌, List, [], length, take, drop, slice_get, slice_index_or, true, IfOk, IfSome, IsTrue, Some};
ghost use Rattle.std.specs.List.{All};
ghost use Rattle.hk_term.specs.Shape.{width, Grows};
ghost use Rattle.hk_term.specs.Meaning.{Reading, value};
ghost use Rattle.ir_layout.specs.Bytes.{IsWidth};
ghost use Rattle.hk_symmem.specs.Guarded.{after_writes, IsWriteOver};
ghost use Rattle.hk_symmem.specs.Reading.{IsRead};

use crate::behind::{DEPTH, behind};
use crate::multiples::{constant, is_multiple};
use crate::write::GuardedWrite;
use hk_term::{TermId, Terms};
use std::alloc::AllocError;

// A number in so many bytes from an offset on behind some writes, where `found` is the number before them.
pub(crate) fn behind_all(
    t: &mut Terms,
    writes: &[GuardedWrite],
    offset: TermId,
    bytes: u32,
    found: TermId,
) -> Result<TermId, AllocError>
    requires writes { All (IsWriteOver t.old) writes.now }
    requires offset { offset < length t.old }
    requires address { width t.old offset ≡ 64 }
    requires bytes { IsWidth bytes }
    requires found { found < length t.old }
    requires number { width t.old found ≡ 8 * bytes }
    ensures within { IfOk result (λ r. r < length t.new) }
    ensures width { IfOk result (λ r. width t.new r ≡ 8 * bytes) }
    ensures value { IfOk result (λ r. (v : Reading) (b : List ℕ) → IsRead (value t.old offset v) bytes b (value t.old found v) → IsRead (value t.old offset v) bytes (after_writes t.old v writes.now b) (value t.new r v)) }
    ensures keeps_widths { (k : ℕ) → k < length t.old → width t.new k ≡ width t.old k }
    ensures keeps_values { (k : ℕ) → k < length t.old → (v : Reading) → value t.new k v ≡ value t.old k v }
    ensures longer { length t.old ≤ length t.new }
    ensures grows { Grows t.old t.new }
{
    let whole = is_multiple(t, offset, bytes, DEPTH);
    let mut made = found;
    for w in writes {
        made = behind(t, w, offset, bytes, whole, made)?;
    }
    Ok(made)
}
