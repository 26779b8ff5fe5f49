//! Laws of memories. A function here does nothing: its contract is the law.

ghost use Rattle.std.specs.Prelude.{◌≡◌, ℕ, List, map, length};
ghost use Rattle.hk_term.specs.Meaning.{Reading};
ghost use Rattle.hk_term.specs.declared.node.Node.{Node};
ghost use Rattle.ir_layout.specs.declared.object.Object as laid;
ghost use Rattle.hk_symvalue.specs.Growth.{Extends};
ghost use Rattle.hk_symmem.specs.Origins.{AreOriginsOf};
ghost use Rattle.hk_symmem.specs.Guarded.{MemoryView, memory_at, IsOver};
ghost use Rattle.hk_symaccess.specs.Accesses.{AreWhole, sizes_of};

/// A longer list of terms keeps each memory.
pub fn memories_are_kept()
    ensures over { (old new : List Node) (m : MemoryView) → Extends old new → IsOver old m → IsOver new m }
    ensures same { (old new : List Node) (m : MemoryView) → Extends old new → IsOver old m → (v : Reading) → memory_at new m v ≡ memory_at old m v }
{}

/// The objects of a memory have the sizes of its layout, under each reading.
pub fn objects_keep_their_sizes()
    ensures { (layout : List laid.Object) (nodes : List Node) (m : MemoryView) → AreOriginsOf layout m.origins → AreWhole layout → (v : Reading) → map (λ (b : List ℕ). length b) (memory_at nodes m v) ≡ sizes_of layout }
{}
