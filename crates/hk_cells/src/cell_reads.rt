//! Initial memory by cells: each array has one cell of its object in each entry.

ghost use Rattle.std.specs.Prelude.{◌≡◌, ℕ, ◌+◌, ◌*◌, ◌/◌, ◌%◌, ◌<◌, ◌≤◌, List, length, map, slice_get, Some, IfOk};
ghost use Rattle.hk_term.specs.Shape.{width, Grows};
ghost use Rattle.hk_term.specs.Meaning.{Reading, value};
ghost use Rattle.ir_ast.specs.Small.{IsSmall};
ghost use Rattle.ir_ast.specs.ProgramView.{view_module};
ghost use Rattle.ir_type.specs.Whole.{meant};
ghost use Rattle.ir_layout.specs.Bytes.{IsWidth, object_of, number_at};
ghost use Rattle.ir_layout.specs.Layouts.{IsLayoutOf};
ghost use Rattle.hk_symmem.specs.Origins.{cells, start_memory, AreOriginsOf};
ghost use Rattle.hk_cells.specs.Cells.{HaveCellSizes, cell_of};
ghost use Rattle.hk_cells.specs.Growth.{selects_in};
ghost use Rattle.hk_cells.specs.Multiples.{IsSeenMultiple};
ghost use Rattle.hk_cells.specs.Parts.{divided, cell_in, part_cell, parts_by, AreParts};

use crate::filling::memory_by;
use crate::parts::{Part, part_at, parts_of};
use crate::reading::number_of;
use crate::sizes::cells_of;
use hk_symmem::{ByteReads, InitialReads};
use hk_term::{TermId, Terms, Valuation};
use ir_ast::Module;
use ir_layout::{KMemory, Layout};
use std::alloc::{AllocError, Global};
use std::marker::Model;

/// Reads of cells: entry i of the array with the number o is cell i of the mutable object o, the low byte first. The cells of an object
/// have one size: the greatest of 1, 2, 4 and 8 bytes that divides the object's size, and the offset and the size of every integer of its
/// type. A contract sees where the bytes of each object come from.
#[derive(Drop)]
pub struct CellReads {
    bytes: ByteReads,
    parts: Vec<Part>,
}

impl Model for CellReads {
    ghost use Rattle.std.specs.Prelude.{List};
    ghost use Rattle.hk_symmem.specs.Origins.{Origin};
    ghost use Rattle.hk_cells.specs.Parts.{divided, AreParts};

    ghost Value = { List Origin };

    ghost view = { λ r. divided r.bytes r.parts.items };

    ghost invariant = { λ r. AreParts r.bytes r.parts.items };
}

impl CellReads {
    /// The reads of the objects of a module, by its layout. The bytes of the constants are kept. It takes time linear in the module and in
    /// these bytes, but for the look-ups of types.
    pub fn new(alloc: Global, kernel: &Module, layout: &Layout) -> Result<CellReads, AllocError>
        requires small { IsSmall kernel.now }
        requires layout { IsLayoutOf (view_module kernel.now) layout.now }
        ensures origins { IfOk result (λ r. AreOriginsOf layout.now.objects r) }
        ensures cells { IfOk result (λ r. HaveCellSizes (view_module kernel.now) r) }
    {
        let parts = parts_for(alloc, kernel, layout)?;
        let bytes = ByteReads::new(alloc, layout)?;
        Ok(CellReads { bytes, parts })
    }

    /// How many bytes the cells of an object have; none where it is a constant.
    pub fn cell_size(&self, object: u32) -> Option<u32>
        requires { object < length self.now }
        ensures { result ≡ cell_in (slice_get self.now object) }
    {
        cell_of_object(&self.bytes, &self.parts, object)
    }
}

// What is kept of the objects of a module.
fn parts_for(alloc: Global, kernel: &Module, layout: &Layout) -> Result<Vec<Part>, AllocError>
    requires small { IsSmall kernel.now }
    requires layout { IsLayoutOf (view_module kernel.now) layout.now }
    ensures { IfOk result (λ ps. ps.items ≡ parts_by layout.now.objects (map (λ g. cell_of (meant (view_module kernel.now).types g.1.over)) (view_module kernel.now).globals)) }
{
    let cells = cells_of(alloc, &kernel.types, &kernel.globals)?;
    let parts = parts_of(alloc, layout, cells.as_slice())?;
    Ok(parts)
}

// How many bytes the cells of an object have.
#[tactic(auto, using(crate::proofs::PartLaws::cell_seen, crate::proofs::PartLaws::divided_count))]
fn cell_of_object(reads: &ByteReads, parts: &[Part], object: u32) -> Option<u32>
    requires parts { AreParts reads.now parts.now }
    requires object { object < length (divided reads.now parts.now) }
    ensures { result ≡ cell_in (slice_get (divided reads.now parts.now) object) }
{
    // For the proof: the clauses alone speak of the reads.
    let _reads = reads;
    cell_of_part(part_at(parts, object))
}

fn cell_of_part(part: Part) -> Option<u32>
    ensures { result ≡ part_cell part }
{
    match part {
        Part::Constant => None,
        Part::Cells { cell, .. } => Some(cell),
    }
}

impl InitialReads for CellReads {
    ghost origins = { λ r. r };

    /// As of every initial memory; and a read of whole cells at an offset that is seen to be a multiple of their size reads no more than
    /// one entry for each of them.
    fn initial(
        &self,
        alloc: Global,
        t: &mut Terms,
        object: u32,
        offset: TermId,
        bytes: u32,
    ) -> Result<TermId, AllocError>
        requires object { object < length self.now }
        requires bytes { IsWidth bytes }
        requires offset { offset < length t.old }
        requires address { width t.old offset ≡ 64 }
        ensures within { IfOk result (λ r. r < length t.new) }
        ensures width { IfOk result (λ r. width t.new r ≡ 8 * bytes) }
        ensures value { IfOk result (λ r. (v : Reading) → value t.old offset v + bytes ≤ length (object_of (start_memory self.now v.entry) object) → value t.new r v ≡ number_at bytes (value t.old offset v) (object_of (start_memory self.now v.entry) object)) }
        ensures selects { (size c : ℕ) → slice_get self.now object ≡ Some (cells size c) → bytes % c ≡ 0 → IsSeenMultiple t.old c offset → selects_in t.new ≤ selects_in t.old + bytes / c }
        ensures keeps_widths { (k : ℕ) → k < length t.old → width t.new k ≡ width t.old k }
        ensures keeps_values { (k : ℕ) → k < length t.old → (v : Reading) → value t.new k v ≡ value t.old k v }
        ensures longer { length t.old ≤ length t.new }
        ensures grows { Grows t.old t.new }
    {
        let made = number_of(alloc, t, &self.bytes, &self.parts, object, offset, bytes)?;
        Ok(made)
    }

    fn memory_of(
        &self,
        alloc: Global,
        layout: &Layout,
        v: &Valuation,
    ) -> Result<KMemory, AllocError> {
        let memory = memory_by(alloc, &self.bytes, &self.parts, layout, v)?;
        Ok(memory)
    }

    fn copy(&self, alloc: Global) -> Result<CellReads, AllocError> {
        let bytes = self.bytes.copy(alloc)?;
        let parts = Vec::from_slice(alloc, self.parts.as_slice())?;
        Ok(CellReads { bytes, parts })
    }
}
