//! Reads of arrays of bytes.

ghost use Rattle.std.specs.Prelude.{◌≡◌, ℕ, ◌+◌, ◌*◌, ◌%◌, ◌^◌, ◌<◌, ◌≤◌, length, IfOk};
ghost use Rattle.hk_term.specs.Shape.{width, Grows};
ghost use Rattle.hk_term.specs.Meaning.{Reading, value};
ghost use Rattle.ir_layout.specs.Bytes.{IsWidth, number_at};
ghost use Rattle.hk_symmem.specs.Origins.{cells, object_from};

use crate::terms::{above, place_behind};
use hk_term::{Node, TermId, Terms};
use std::alloc::AllocError;

// The byte of an array at a place.
fn byte_at(t: &mut Terms, array: u32, place: TermId) -> Result<TermId, AllocError>
    requires place { place < length t.old }
    requires address { width t.old place ≡ 64 }
    ensures within { IfOk result (λ r. r < length t.new) }
    ensures width { IfOk result (λ r. width t.new r ≡ 8) }
    ensures value { IfOk result (λ r. (v : Reading) → value t.new r v ≡ v.entry array (value t.old place v) % 256) }
    ensures keeps_widths { (k : ℕ) → k < length t.old → width t.new k ≡ width t.old k }
    ensures keeps_values { (k : ℕ) → k < length t.old → (v : Reading) → value t.new k v ≡ value t.old k v }
    ensures longer { length t.old ≤ length t.new }
    ensures grows { Grows t.old t.new }
{
    let node = Node::Select {
        array,
        width: 8,
        index: place,
    };
    let made = t.intern(node)?;
    Ok(made)
}

// The bytes of a number from an offset on, one more than those that were made.
fn next_byte(
    t: &mut Terms,
    array: u32,
    offset: TermId,
    byte: u32,
    made: TermId,
) -> Result<TermId, AllocError>
    requires offset { offset < length t.old }
    requires address { width t.old offset ≡ 64 }
    requires byte { byte < 8 }
    requires made { made < length t.old }
    requires part { width t.old made ≡ 8 * byte }
    ensures within { IfOk result (λ r. r < length t.new) }
    ensures width { IfOk result (λ r. width t.new r ≡ 8 * byte + 8) }
    ensures value { IfOk result (λ r. (v : Reading) → value t.new r v ≡ v.entry array ((value t.old offset v + byte) % 2 ^ 64) % 256 * 256 ^ byte + value t.old made v) }
    ensures keeps_widths { (k : ℕ) → k < length t.old → width t.new k ≡ width t.old k }
    ensures keeps_values { (k : ℕ) → k < length t.old → (v : Reading) → value t.new k v ≡ value t.old k v }
    ensures longer { length t.old ≤ length t.new }
    ensures grows { Grows t.old t.new }
{
    let place = place_behind(t, offset, byte)?;
    let high = byte_at(t, array, place)?;
    let whole = above(t, high, made, byte)?;
    Ok(whole)
}

// The number in so many bytes of an array of bytes from an offset on.
pub(crate) fn array_number(
    t: &mut Terms,
    array: u32,
    size: u64,
    offset: TermId,
    bytes: u32,
) -> Result<TermId, AllocError>
    requires offset { offset < length t.old }
    requires address { width t.old offset ≡ 64 }
    requires bytes { IsWidth bytes }
    ensures within { IfOk result (λ r. r < length t.new) }
    ensures width { IfOk result (λ r. width t.new r ≡ 8 * bytes) }
    ensures value { IfOk result (λ r. (v : Reading) → value t.old offset v + bytes ≤ size → value t.new r v ≡ number_at bytes (value t.old offset v) (object_from (cells size 1) (v.entry array))) }
    ensures keeps_widths { (k : ℕ) → k < length t.old → width t.new k ≡ width t.old k }
    ensures keeps_values { (k : ℕ) → k < length t.old → (v : Reading) → value t.new k v ≡ value t.old k v }
    ensures longer { length t.old ≤ length t.new }
    ensures grows { Grows t.old t.new }
{
    // For the proof: the size is below 2^64.
    let _size = size;
    let mut made = byte_at(t, array, offset)?;
    for byte in 1..bytes {
        made = next_byte(t, array, offset, byte, made)?;
    }
    Ok(made)
}
