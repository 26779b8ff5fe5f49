//! Reads of the memory before anything was written.

ghost use Rattle.std.specs.Prelude.{◌≡◌, ℕ, ◌+◌, ◌*◌, ◌<◌, ◌≤◌, List, length, IfOk};
ghost use Rattle.hk_term.specs.Shape.{width, Grows};
ghost use Rattle.hk_term.specs.Meaning.{Reading, value, reading_of};
ghost use Rattle.ir_layout.specs.Bytes.{IsWidth, object_of, number_at};
ghost use Rattle.hk_symmem.specs.Origins.{Origin, start_memory, AreOriginsOf, IsMachineState};

use hk_term::{TermId, Terms, Valuation};
use ir_layout::{KMemory, Layout};
use std::alloc::{AllocError, Global};

/// The initial memory that a reading of arrays gives: constants have their initial bytes, and the array of object o has the
/// number o. An implementation chooses what an entry of an array holds.
pub trait InitialReads: Drop {
    /// Where the bytes of each object come from.
    ghost origins: { Self → List Origin };

    /// The number in so many bytes of an object from an offset on, the low byte first. Its value is that of the range in the
    /// initial memory under each reading in which the range lies in the object, and free under all others.
    fn initial(
        &self,
        alloc: Global,
        t: &mut Terms,
        object: u32,
        offset: TermId,
        bytes: u32,
    ) -> Result<TermId, AllocError>
        requires object { object < length (origins self.now) }
        requires bytes { IsWidth bytes }
        requires offset { offset < length t.old }
        requires address { width t.old offset ≡ 64 }
        ensures within { IfOk result (λ r. r < length t.new) }
        ensures width { IfOk result (λ r. width t.new r ≡ 8 * bytes) }
        ensures value { IfOk result (λ r. (v : Reading) → value t.old offset v + bytes ≤ length (object_of (start_memory (origins self.now) v.entry) object) → value t.new r v ≡ number_at bytes (value t.old offset v) (object_of (start_memory (origins self.now) v.entry) object)) }
        ensures keeps_widths { (k : ℕ) → k < length t.old → width t.new k ≡ width t.old k }
        ensures keeps_values { (k : ℕ) → k < length t.old → (v : Reading) → value t.new k v ≡ value t.old k v }
        ensures longer { length t.old ≤ length t.new }
        ensures grows { Grows t.old t.new };

    /// The initial memory that a valuation gives. It depends on the arrays alone, and every machine state of the layout is
    /// that of some arrays.
    fn memory_of(
        &self,
        alloc: Global,
        layout: &Layout,
        v: &Valuation,
    ) -> Result<KMemory, AllocError>
        requires { AreOriginsOf layout.now.objects (origins self.now) }
        ensures memory { IfOk result (λ m. m ≡ start_memory (origins self.now) (reading_of v.now).entry) }
        ensures any { (m : List (List ℕ)) → IsMachineState layout.now.objects m → (entry : ℕ → ℕ → ℕ) × (start_memory (origins self.now) entry ≡ m) };

    /// A second value of the same meaning.
    fn copy(&self, alloc: Global) -> Result<Self, AllocError>
    where
        Self: Sized,
        ensures { IfOk result (λ r. origins r ≡ origins self.now) };
}
