//! Paths into the kernel's memory.

ghost use Rattle.std.specs.Prelude.{◌≡◌, ◌<◌, ◌≤◌, ◌^◌, ◌+◌, ◌*◌, ◌%◌, ℕ, [], length, IfSome, option_map, slice_index_or};
ghost use Rattle.ir_layout.specs.Bytes as layout;
ghost use Rattle.spec_tree.specs.View.{view_path};
ghost use Rattle.spec_tree.specs.Sorted.{IsSorted, width_of};
ghost use Rattle.spec_tree.specs.Value.{bytes_added, loaded, value};
ghost use Rattle.spec_number.specs.Evaluation.{Stands, context_of, env_of, path_tree};

use crate::combine::number;
use crate::frame::Frame;
use crate::reading::{Number, Reading};
use ir_layout::KMemory;
use spec_tree::Path;

// The number in the bytes of an object of this size, where the steps add so many; 0 where they lead nowhere.
fn load_from(
    memory: &KMemory,
    object: u32,
    size: u64,
    base: u64,
    bytes: u32,
    added: Option<u64>,
) -> u64
    requires width { layout.IsWidth bytes }
    requires object { object < length memory.now }
    requires size { size ≡ length (layout.object_of memory.now object) }
    requires within { IfSome added (λ n. base + n + bytes ≤ size) }
    ensures { result ≡ loaded (slice_index_or memory.now object []) base bytes added }
{
    match added {
        Some(added) => memory.load(object, base + added, bytes),
        None => 0,
    }
}

/// The number at a path whose steps add so many bytes, modulo 2 to 64; 0 where they lead nowhere.
pub(crate) fn at_path(reading: &Reading, frame: &Frame, path: &Path, added: Option<u64>) -> Number
    requires stands { Stands reading.now frame.now }
    requires sorted { IsSorted (context_of reading.now frame.now) (path_tree (view_path path.now)) }
    requires added { added ≡ option_map (λ n. n % 2 ^ 64) (bytes_added (context_of reading.now frame.now) (env_of reading.now frame.now) (view_path path.now).steps) }
    ensures width { result.width ≡ width_of (context_of reading.now frame.now) (path_tree (view_path path.now)) }
    ensures bits { result.bits ≡ value (context_of reading.now frame.now) (env_of reading.now frame.now) (path_tree (view_path path.now)) }
{
    let size = reading.memory.bytes(path.object).len() as u64;
    number(
        8 * path.bytes,
        load_from(
            reading.memory,
            path.object,
            size,
            path.base,
            path.bytes,
            added,
        ),
    )
}
