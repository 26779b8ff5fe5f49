//! Laws of registers as the list of terms grows. A function here does nothing: its contract is the law.

ghost use Rattle.std.specs.Prelude.{◌≡◌, List};
ghost use Rattle.hk_term.specs.Meaning.{Reading};
ghost use Rattle.hk_term.specs.declared.node.Node.{Node};
ghost use Rattle.ir_machine.specs.Values.{Registers};
ghost use Rattle.hk_symvalue.specs.Growth.{Extends};
ghost use Rattle.hk_symstep.specs.declared.state.SymHeld.{SymHeld};
ghost use Rattle.hk_symstep.specs.Held.{held_meaning, IsHeld};
ghost use Rattle.hk_symstep.specs.Files.{File, IsFile, registers_of, Covers};

/// A file keeps its terms and what they stand for, and covers what it covered.
#[tactic(auto, using(crate::proofs::Growing::file_kept, crate::proofs::Growing::registers_same, crate::proofs::Growing::covers_kept))]
pub fn covers_grows()
    ensures kept { (old new : List Node) (file : File) → Extends old new → IsFile old file → IsFile new file }
    ensures meaning { (old new : List Node) (file : File) → Extends old new → IsFile old file → (v : Reading) → registers_of new v file ≡ registers_of old v file }
    ensures covers { (old new : List Node) (file : File) → Extends old new → IsFile old file → (v : Reading) (rs : Registers) → Covers old v file rs → Covers new v file rs }
{}

/// What a register holds keeps its terms, and what they stand for.
#[tactic(auto, using(crate::proofs::Growing::held_kept, crate::proofs::Growing::held_same))]
pub fn held_grows()
    ensures kept { (old new : List Node) (h : SymHeld) → Extends old new → IsHeld old h → IsHeld new h }
    ensures meaning { (old new : List Node) (h : SymHeld) → Extends old new → IsHeld old h → (v : Reading) → held_meaning new v h ≡ held_meaning old v h }
{}
