//! What expressions read.

ghost use Rattle.std.specs.Prelude.{◌≡◌, ℕ, ◌+◌, ◌*◌, ◌^◌, ◌<◌, ◌≤◌, true, List, [], length, slice_index_or, IfOk};
ghost use Rattle.hk_term.specs.Shape.{width, Grows};
ghost use Rattle.hk_term.specs.Meaning.{Reading, value};
ghost use Rattle.hk_term.specs.declared.node.Node.{Node};
ghost use Rattle.spec_tree.specs.Sorted.{Context, IsFieldSort, no_field, reads};
ghost use Rattle.spec_tree.specs.Value.{entry_at, load, place_behind};
ghost use Rattle.spec_tree.specs.Shapes.{IsMemory};
ghost use Rattle.hk_symexpr.specs.Sources.{Source, Keeps, Rests, state_in};
ghost use Rattle.hk_symexpr.specs.Naming.{AreIndexTerms, AreLimited, AreSteady, index_values};

use crate::names::Limit;
use hk_term::{TermId, Terms};
use spec_tree::StateName;
use std::alloc::{AllocError, Global};

/// What expressions read, under every reading of variables and arrays: the kernel's memory, and the old and the new state.
pub trait SymReads {
    /// What may be read: the fields by their sorts, the objects by their bytes, and whether the kernel, the old and the new
    /// state may be read. Its arguments, local names and variables count for nothing.
    ghost named: { Self → Context };

    /// The list holds every term of what is read.
    ghost is_over: { Self → List Node → Type 0 };

    /// What is read under a reading.
    ghost source: { Self → List Node → Reading → Source };

    /// Variables with ids from this one on are free for what `entry` makes.
    ghost limit: { Self → ℕ };

    /// That id.
    fn limit(&self) -> u32
        ensures { result ≡ limit self.now };

    /// The number in so many bytes of an object from an offset on, the low byte first. Its value is free where the range does not
    /// lie in the object, and where the kernel may not be read.
    fn load(
        &self,
        alloc: Global,
        t: &mut Terms,
        object: u32,
        offset: TermId,
        bytes: u32,
    ) -> Result<TermId, AllocError>
        requires over { is_over self.now t.old }
        requires object { object < length (named self.now).objects }
        requires bytes { (k : ℕ) × (k < 4) × (bytes ≡ 2 ^ k) }
        requires offset { offset < length t.old }
        requires address { width t.old offset ≡ 64 }
        ensures within { IfOk result (λ r. r < length t.new) }
        ensures width { IfOk result (λ r. width t.new r ≡ 8 * bytes) }
        ensures value { IfOk result (λ r. (named self.now).kernel ≡ true → (v : Reading) → IsMemory (named self.now).objects (source self.now t.old v).memory →
            value t.old offset v + bytes ≤ length (slice_index_or (source self.now t.old v).memory object []) →
            value t.new r v ≡ load (slice_index_or (source self.now t.old v).memory object []) (value t.old offset v) bytes) }
        ensures keeps_widths { (k : ℕ) → k < length t.old → width t.new k ≡ width t.old k }
        ensures keeps_values { (k : ℕ) → k < length t.old → (v : Reading) → value t.new k v ≡ value t.old k v }
        ensures longer { length t.old ≤ length t.new }
        ensures grows { Grows t.old t.new };

    /// The entry of a field of a state, 0 where an index is not below its key's size. Each index comes with the greatest number
    /// that it may have: where that is below the key's size, no test is needed. Its value is free where the state may not be read.
    fn entry(
        &self,
        alloc: Global,
        t: &mut Terms,
        name: StateName,
        field: u32,
        index: &[Limit],
    ) -> Result<TermId, AllocError>
        requires over { is_over self.now t.old }
        requires field { field < length (named self.now).fields }
        requires sort { IsFieldSort (slice_index_or (named self.now).fields field no_field) }
        requires index { AreIndexTerms t.old (slice_index_or (named self.now).fields field no_field).keys index.now }
        ensures within { IfOk result (λ r. r < length t.new) }
        ensures width { IfOk result (λ r. width t.new r ≡ (slice_index_or (named self.now).fields field no_field).width) }
        ensures value { IfOk result (λ r. reads (named self.now) name ≡ true → (v : Reading) → AreLimited t.old index.now v → AreSteady (limit self.now) t.old index.now v →
            Rests (limit self.now) (source self.now t.old) v →
            value t.new r v ≡ entry_at (slice_index_or (state_in (source self.now t.old v) name) field [])
            (place_behind 0 (slice_index_or (named self.now).fields field no_field).keys (index_values t.old index.now v))) }
        ensures keeps_widths { (k : ℕ) → k < length t.old → width t.new k ≡ width t.old k }
        ensures keeps_values { (k : ℕ) → k < length t.old → (v : Reading) → value t.new k v ≡ value t.old k v }
        ensures longer { length t.old ≤ length t.new }
        ensures grows { Grows t.old t.new };

    /// A longer list holds these terms as well.
    ghost over_kept: { (s : Self) (old new : List Node) → is_over s old → Keeps old new → is_over s new };

    /// What is read stays the same as the list grows.
    ghost source_kept: { (s : Self) (old new : List Node) → is_over s old → Keeps old new → (v : Reading) → source s new v ≡ source s old v };
}
