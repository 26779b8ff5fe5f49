//! Laws of unrolling, as contracts of empty functions.

ghost use Rattle.std.specs.Prelude.{◌≡◌, ◌<◌, ◌^◌, ℕ, List, length};
ghost use Rattle.std.specs.List.{Contains};
ghost use Rattle.hk_graph.specs.Walks.{AreWithin};
ghost use Rattle.hk_unroll.specs.declared.copies.BlockCopy.{BlockCopy};
ghost use Rattle.hk_unroll.specs.Copies.{IsReached, copies_of};
ghost use Rattle.hk_unroll.specs.Names.{block_name, register_name, phi_name, end_name, IsShort};

/// The copies that one pass over all copies makes are those to which paths from the first block lead.
pub fn copies_are_those_reached()
    ensures made { (graph : List (List ℕ)) (n : ℕ) → AreWithin graph → (c : BlockCopy) → Contains (copies_of graph n) c → IsReached graph n c }
    ensures reached { (graph : List (List ℕ)) (n : ℕ) → AreWithin graph → 0 < length graph → (c : BlockCopy) → IsReached graph n c → Contains (copies_of graph n) c }
{}

/// New names of blocks, of registers and of added phis, and that of the added block, are told apart.
pub fn new_names_differ()
    ensures blocks { (d : ℕ) (c e : BlockCopy) → IsShort c → IsShort e → block_name d c ≡ block_name d e → c ≡ e }
    ensures registers { (d j k q r : ℕ) → j < 2 ^ 64 → k < 2 ^ 64 → q < 2 ^ 64 → r < 2 ^ 64 → register_name d j q ≡ register_name d k r → (j ≡ k) × (q ≡ r) }
    ensures phis { (d : ℕ) (c e : BlockCopy) (q r : ℕ) → IsShort c → IsShort e → q < 2 ^ 64 → r < 2 ^ 64 → phi_name d c q ≡ phi_name d e r → (c ≡ e) × (q ≡ r) }
    ensures no_register { (d : ℕ) (c : BlockCopy) (k r : ℕ) → IsShort c → k < 2 ^ 64 → block_name d c ≡ register_name d k r → ⊥ }
    ensures no_phi { (d : ℕ) (c e : BlockCopy) (r : ℕ) → IsShort c → IsShort e → block_name d c ≡ phi_name d e r → ⊥ }
    ensures neither { (d k q : ℕ) (e : BlockCopy) (r : ℕ) → k < 2 ^ 64 → IsShort e → register_name d k q ≡ phi_name d e r → ⊥ }
    ensures end_block { (d : ℕ) (c : BlockCopy) → IsShort c → end_name d ≡ block_name d c → ⊥ }
    ensures end_register { (d k r : ℕ) → k < 2 ^ 64 → end_name d ≡ register_name d k r → ⊥ }
    ensures end_phi { (d : ℕ) (c : BlockCopy) (r : ℕ) → IsShort c → end_name d ≡ phi_name d c r → ⊥ }
{}
