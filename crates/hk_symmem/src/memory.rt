//! Memory as guarded writes.

ghost use Rattle.std.specs.Prelude.{◌≡◌, ℕ, ◌+◌, ◌*◌, ◌<◌, ◌≤◌, if◌then◌else◌, nat_eq, List, length, slice_set, IfOk, OnOk, OnErr};
ghost use Rattle.hk_term.specs.Shape.{width, Grows};
ghost use Rattle.hk_term.specs.Meaning.{Reading, value};
ghost use Rattle.hk_term.specs.declared.node.Node.{Node};
ghost use Rattle.ir_layout.specs.Bytes.{IsWidth, object_of, number_at, with_number};
ghost use Rattle.hk_symmem.specs.Origins.{start_memory, AreOriginsOf};
ghost use Rattle.hk_symmem.specs.Guarded.{memory_at, IsWriteOver, IsOver, IsMutable, IsMemoryOf, with_write, MemoryView};

use crate::fold::behind_all;
use crate::reads::InitialReads;
use crate::row::{Row, copied, push_write, rows_of, size_at, writes_of};
use crate::write::GuardedWrite;
use hk_term::{TermId, Terms};
use ir_layout::Layout;
use std::alloc::{AllocError, Global};
use std::marker::Model;

/// The memory of a kernel's objects: guarded writes over what arrays give. Under a reading it stands for one machine state.
#[derive(Drop)]
pub struct SymMemory<R: InitialReads> {
    reads: R,
    rows: Vec<Row>,
}

impl<R: InitialReads> Model for SymMemory<R> {
    ghost use Rattle.std.specs.Prelude.{map};
    ghost use Rattle.hk_symmem.specs.Guarded.{MemoryView};
    ghost use Rattle.hk_symmem.specs.Rows.{AreRows};

    ghost Value = { MemoryView };

    ghost view = { λ m. record { origins = R.origins m.reads; writes = map (λ r. r.writes.items) m.rows.items } };

    ghost invariant = { λ m. AreRows (R.origins m.reads) m.rows.items };
}

impl<R: InitialReads> SymMemory<R> {
    /// The initial memory, by reads that were made with this layout.
    pub fn new(alloc: Global, layout: &Layout, reads: R) -> Result<SymMemory<R>, AllocError>
        requires { AreOriginsOf layout.now.objects (R.origins reads) }
        ensures origins { IfOk result (λ m. m.origins ≡ R.origins reads) }
        ensures layout { IfOk result (λ m. IsMemoryOf layout.now.objects m) }
        ensures value { IfOk result (λ m. (nodes : List Node) (v : Reading) → memory_at nodes m v ≡ start_memory (R.origins reads) v.entry) }
        ensures over { IfOk result (λ m. (nodes : List Node) → IsOver nodes m) }
    {
        let rows = rows_of(alloc, layout)?;
        Ok(SymMemory { reads, rows })
    }

    /// A second memory of the same meaning.
    pub fn copy(&self, alloc: Global) -> Result<SymMemory<R>, AllocError>
        ensures { IfOk result (λ m. m ≡ self.now) }
    {
        let reads = self.reads.copy(alloc)?;
        let rows = copied(alloc, &self.rows)?;
        Ok(SymMemory { reads, rows })
    }

    /// Writes the low `bytes` bytes of a number at an offset of an object, in bytes, where the guard is true. Under a reading in
    /// which the guard is false, or the range lies in the object, the memory changes as by `KMemory::store` where the guard is
    /// true, and not at all where it is false. After want of memory it is as before.
    pub fn write(
        &mut self,
        guard: TermId,
        object: u32,
        offset: TermId,
        bytes: u32,
        number: TermId,
    ) -> Result<(), AllocError>
        requires object { IsMutable self.old object }
        requires bytes { IsWidth bytes }
        ensures written { OnOk result (self.new ≡ with_write self.old object (record { guard = guard; offset = offset; bytes = bytes; value = number })) }
        ensures origins { self.new.origins ≡ self.old.origins }
        ensures value { OnOk result ((nodes : List Node) (v : Reading) → (value nodes guard v ≡ 1 → value nodes offset v + bytes ≤ length (object_of (memory_at nodes self.old v) object)) → memory_at nodes self.new v ≡ (if nat_eq (value nodes guard v) 1 then slice_set (memory_at nodes self.old v) object (with_number bytes (value nodes offset v) (value nodes number v) (object_of (memory_at nodes self.old v) object)) else memory_at nodes self.old v)) }
        ensures over { OnOk result ((nodes : List Node) → IsOver nodes self.old → IsWriteOver nodes (record { guard = guard; offset = offset; bytes = bytes; value = number }) → IsOver nodes self.new) }
        ensures err { OnErr result (self.new ≡ self.old) }
    {
        let w = GuardedWrite {
            guard,
            offset,
            bytes,
            value: number,
        };
        // For the proof: there is a size of the object, and it is below 2^64.
        let _size = size_at(&self.rows, object as usize);
        push_write(&mut self.rows, object as usize, w)
    }

    /// The number in so many bytes of an object from an offset on, the low byte first. Its value is what `KMemory::load` gives
    /// under each reading in which the range lies in the object, and free under all others.
    pub fn read(
        &self,
        alloc: Global,
        t: &mut Terms,
        object: u32,
        offset: TermId,
        bytes: u32,
    ) -> Result<TermId, AllocError>
        requires object { object < length self.now.origins }
        requires bytes { IsWidth bytes }
        requires offset { offset < length t.old }
        requires address { width t.old offset ≡ 64 }
        requires over { IsOver t.old self.now }
        ensures within { IfOk result (λ r. r < length t.new) }
        ensures width { IfOk result (λ r. width t.new r ≡ 8 * bytes) }
        ensures value { IfOk result (λ r. (v : Reading) → value t.old offset v + bytes ≤ length (object_of (memory_at t.old self.now v) object) → value t.new r v ≡ number_at bytes (value t.old offset v) (object_of (memory_at t.old self.now v) object)) }
        ensures keeps_widths { (k : ℕ) → k < length t.old → width t.new k ≡ width t.old k }
        ensures keeps_values { (k : ℕ) → k < length t.old → (v : Reading) → value t.new k v ≡ value t.old k v }
        ensures keeps_memories { (m : MemoryView) → IsOver t.old m → IsOver t.new m × ((v : Reading) → memory_at t.new m v ≡ memory_at t.old m v) }
        ensures longer { length t.old ≤ length t.new }
        ensures grows { Grows t.old t.new }
    {
        let writes = writes_of(&self.rows, object as usize);
        let found = self.reads.initial(alloc, t, object, offset, bytes)?;
        if writes.len() == 0 {
            return Ok(found);
        }
        // For the proof: there is a size of the object, and it is below 2^64.
        let _size = size_at(&self.rows, object as usize);
        let made = behind_all(t, writes, offset, bytes, found)?;
        Ok(made)
    }
}
