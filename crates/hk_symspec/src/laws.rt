//! Laws of states. A function here does nothing: its contract is the law.

ghost use Rattle.std.specs.Prelude.{◌≡◌, ℕ, ◌+◌, ◌<◌, ◌≤◌, List, length};
ghost use Rattle.hk_term.specs.Shape.{width, Grows};
ghost use Rattle.hk_term.specs.Meaning.{Reading, value};
ghost use Rattle.hk_term.specs.declared.node.Node.{Node};
ghost use Rattle.hk_symmem.specs.Guarded.{MemoryView, memory_at};
ghost use Rattle.spec_tree.specs.Plain as plain;
ghost use Rattle.spec_tree.specs.Sorted.{FieldSort};
ghost use Rattle.spec_tree.specs.Shapes.{IsState};
ghost use Rattle.spec_tree.specs.Meaning.{State};
ghost use Rattle.hk_symexpr.specs.Sources.{Keeps};
ghost use Rattle.hk_symspec.specs.States.{StateView, free_state, state_at};
ghost use Rattle.hk_symspec.specs.Standing.{IsKernelOver, IsStateOver};

/// Every abstract state of a specification's shape is that of some arrays from a number on, and it depends on these arrays alone.
pub fn states_are_those_of_arrays()
    ensures every { (fields : List FieldSort) (state : State) (first : ℕ) → IsState fields state → (entry : ℕ → ℕ → ℕ) × (free_state first fields entry ≡ state) }
    ensures alone { (fields : List FieldSort) (first : ℕ) (d e : ℕ → ℕ → ℕ) → ((k j : ℕ) → k < length fields → d (first + k) j ≡ e (first + k) j) →
        free_state first fields d ≡ free_state first fields e }
{}

/// What a call's clauses on the list of terms come to; and a longer list holds a memory as well, which is the same memory.
pub fn memories_stay_as_lists_grow()
    ensures keeps { (old new : List Node) → length old ≤ length new → ((k : ℕ) → k < length old → width new k ≡ width old k) →
        ((k : ℕ) → k < length old → (v : Reading) → value new k v ≡ value old k v) → Grows old new → Keeps old new }
    ensures over { (s : plain.Spec) (m : MemoryView) (old new : List Node) → IsKernelOver s old m → Keeps old new → IsKernelOver s new m }
    ensures same { (s : plain.Spec) (m : MemoryView) (old new : List Node) → IsKernelOver s old m → Keeps old new → (v : Reading) → memory_at new m v ≡ memory_at old m v }
{}

/// A longer list of terms holds a state as well, and it is the same state.
pub fn states_stay_as_lists_grow()
    ensures over { (s : plain.Spec) (a : StateView) (old new : List Node) → IsStateOver s old a → Keeps old new → IsStateOver s new a }
    ensures same { (s : plain.Spec) (a : StateView) (old new : List Node) (v : Reading) → IsStateOver s old a → Keeps old new → state_at s new a v ≡ state_at s old a v }
{}
