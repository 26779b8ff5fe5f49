//! Where an access reaches.

ghost use Rattle.std.specs.Prelude.{◌≡◌, ◌≤◌};
ghost use Rattle.ir_value.specs.Pointers as definition;

use crate::value::{StuckReason, Value};

/// Where an access reaches.
#[derive(Clone, Copy, Debug, PartialEq, Eq)]
pub enum Access {
    /// Bytes of an object, from an offset on, that lie in it.
    At { object: u32, offset: u64 },
    /// The run is stuck.
    Not(StuckReason),
    /// The operand is no address. No checked kernel has this.
    Nowhere,
}

/// So many bytes at an offset of an object of this size and alignment.
fn reach_of(
    size: u64,
    object_align: u64,
    bytes: u64,
    align: u64,
    object: u32,
    offset: u64,
) -> Access
    requires { 1 ≤ align }
    ensures { result ≡ definition.reach_of size object_align bytes align object offset }
{
    if size < bytes || size - bytes < offset {
        Access::Not(StuckReason::U6)
    } else if offset % align != 0 || object_align % align != 0 {
        Access::Not(StuckReason::U7)
    } else {
        Access::At { object, offset }
    }
}

/// Where an access of so many bytes, aligned as it says, reaches; size and alignment are those of the address's object.
///
/// The tests come in this order: a poison address (`U8`), null (`U5`), a byte outside the object (`U6`), an alignment that does not
/// divide both the offset and the object's alignment (`U7`).
pub fn reach(size: u64, object_align: u64, bytes: u64, align: u64, address: Value) -> Access
    ensures { result ≡ definition.reach size object_align bytes align address }
{
    match address {
        Value::Poison => Access::Not(StuckReason::U8),
        Value::Null => Access::Not(StuckReason::U5),
        Value::Address { object, offset } => {
            if 1 <= align {
                reach_of(size, object_align, bytes, align, object, offset)
            } else {
                Access::Nowhere
            }
        }
        Value::Number(_) => Access::Nowhere,
    }
}
