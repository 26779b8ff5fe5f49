//! Numbers given twice.

ghost use Rattle.std.specs.Prelude.{◌≡◌, map, IfOk};
ghost use Rattle.ir_typing.specs.Fits as definition;

use std::alloc::{AllocError, Global};
use std::collections::BTreeSet;

/// Whether no number stands twice. It takes time in the order of n log n.
pub fn all_differ(alloc: Global, numbers: &[u64]) -> Result<bool, AllocError>
    ensures { IfOk result (λ b. b ≡ definition.all_differ numbers.now) }
{
    let mut seen = BTreeSet::new(alloc);
    'each: for number in numbers {
        if !seen.insert(*number)? {
            return Ok(false);
        }
    }
    Ok(true)
}
