//! How many invariants, fields or properties there are, as a number that an obligation can name.

ghost use Rattle.std.specs.Prelude.{◌≡◌, ◌<◌, ◌^◌, IfOk, OnOk};

use std::alloc::AllocError;

/// The count of a list whose places 32 bits can name. Where they cannot, which takes over 2^32 parts of a specification, it is want of
/// memory.
pub(crate) fn count_of(parts: usize) -> Result<u32, AllocError>
    ensures same { IfOk result (λ count. count ≡ parts) }
    ensures few { OnOk result (parts < 2 ^ 32) }
{
    if parts > u32::MAX as usize {
        return Err(AllocError);
    }
    Ok(parts as u32)
}
