//! Files by name.
ghost use Rattle.std.specs.Prelude.{◌≡◌, ◌≢◌, ◌<◌, ◌≤◌, ◌^◌, ℕ, List, Option, length, is_some, IsSome, IsSomeAnd, IsErrOf, IfOk, OnOk};
ghost use Rattle.hk_io.specs.Faults.{Rose, CountsLoad};
ghost use Rattle.hk_io.specs.Held.{Files, held_under};

use crate::fault::{LoadFault, SaveFault};
use std::alloc::Global;

/// Files that are loaded and saved whole, by name. A name is text.
pub trait Shelf {
    /// The files, where the shelf tells of them.
    ghost held: { Self → Option Files };

    /// How often the outside has failed.
    ghost faults: { Self → ℕ };

    /// The bytes of a file, of which there may be at most `limit`. The count rises by one where the outside fails, and nowhere else.
    fn load(&mut self, alloc: Global, name: &str, limit: u32) -> Result<Vec<u8>, LoadFault>
        ensures found { IfOk result (λ bytes. IsSome (held self.old) →
            held_under (held self.old) name.now ≡ Some bytes.items) }
        ensures within { IfOk result (λ bytes. length bytes.items ≤ limit) }
        ensures counts { CountsLoad result (faults self.old) (faults self.new) }
        ensures too_long { IsErrOf result LoadFault.TooLong → IsSome (held self.old) →
            IsSomeAnd (held_under (held self.old) name.now) (λ bytes. limit < length bytes) }
        ensures unchanged { held self.new ≡ held self.old }
        ensures later { faults self.old ≤ faults self.new }
        ensures fits { faults self.new < 2 ^ 64 };

    /// Makes these the bytes of a file, in place of those that it had. The count rises by one where the outside fails, and nowhere
    /// else; a shelf that tells of its files has them as before then.
    fn save(&mut self, alloc: Global, name: &str, bytes: &[u8]) -> Result<(), SaveFault>
        ensures saved { OnOk result (IsSome (held self.old) →
            held_under (held self.new) name.now ≡ Some bytes.now) }
        ensures others { (other : List ℕ) → other ≢ name.now →
            held_under (held self.new) other ≡ held_under (held self.old) other }
        ensures told { is_some (held self.new) ≡ is_some (held self.old) }
        ensures failed { IsErrOf result SaveFault.Failed → Rose (faults self.old) (faults self.new) }
        ensures unsaved { IsErrOf result SaveFault.Failed → held self.new ≡ held self.old }
        ensures still { OnOk result (faults self.new ≡ faults self.old) }
        ensures memory { IsErrOf result SaveFault.Memory →
            (held self.new ≡ held self.old) × (faults self.new ≡ faults self.old) }
        ensures later { faults self.old ≤ faults self.new }
        ensures fits { faults self.new < 2 ^ 64 };
}
