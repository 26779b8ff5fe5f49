//! Laws of sizes and offsets. A function here does nothing: its contract is the law.

ghost use Rattle.std.specs.Prelude.{◌≡◌, ◌+◌, ◌*◌, ◌<◌, ◌≤◌, ◌^◌, ℕ, List, true, length, slice_index};
ghost use Rattle.ir_ast.specs.Plain.{Ty, Tys, Ini, structure, packed};
ghost use Rattle.ir_type.specs.Whole.{Types};
ghost use Rattle.ir_layout.specs.Sizes as sizes;
ghost use Rattle.ir_layout.specs.Bytes.{number_at, with_number};
ghost use Rattle.ir_layout.specs.Initial.{bytes_of};
ghost use Rattle.ir_layout.specs.InitFits.{init_fits};
ghost use Rattle.ir_layout.specs.Offsets.{count_in};
ghost use Rattle.ir_layout.specs.Laws.{field_type};

/// A size is a multiple of its alignment, and so is where a field stands.
pub fn sizes_are_multiples_of_alignments()
    ensures size { (t : Ty) → (k : ℕ) × (sizes.size_of t ≡ k * sizes.align_of t) }
    ensures field { (ts : Tys) (k : ℕ) → k < count_in ts → (j : ℕ) × (sizes.field_offset (structure ts) k ≡ j * sizes.align_of (field_type ts k)) }
{}

/// Fields lie within their struct, one behind another.
pub fn fields_lie_within_and_apart()
    ensures within { (ts : Tys) (k : ℕ) → k < count_in ts → sizes.field_offset (structure ts) k + sizes.size_of (field_type ts k) ≤ sizes.size_of (structure ts) }
    ensures apart { (ts : Tys) (j k : ℕ) → j < k → k < count_in ts → sizes.field_offset (structure ts) j + sizes.size_of (field_type ts j) ≤ sizes.field_offset (structure ts) k }
    ensures packed_within { (ts : Tys) (k : ℕ) → k < count_in ts → sizes.field_offset (packed ts) k + sizes.size_of (field_type ts k) ≤ sizes.size_of (packed ts) }
    ensures packed_apart { (ts : Tys) (j k : ℕ) → j < k → k < count_in ts → sizes.field_offset (packed ts) j + sizes.size_of (field_type ts j) ≤ sizes.field_offset (packed ts) k }
{}

/// An initialiser that fits its type has as many bytes as the type.
pub fn initial_bytes_fill_their_type()
    ensures { (types : Types) (t : Ty) (i : Ini) → init_fits types t i ≡ true → length (bytes_of t i) ≡ sizes.size_of t }
{}

/// What is stored is loaded, and all bytes outside of it are as before.
pub fn a_store_changes_its_own_bytes_alone()
    ensures length { (n at value : ℕ) (bytes : List ℕ) → length (with_number n at value bytes) ≡ length bytes }
    ensures below { (n at value k : ℕ) (bytes : List ℕ) → k < at → slice_index (with_number n at value bytes) k ≡ slice_index bytes k }
    ensures behind { (n at value k : ℕ) (bytes : List ℕ) → at + n ≤ k → slice_index (with_number n at value bytes) k ≡ slice_index bytes k }
    ensures loaded { (n at value : ℕ) (bytes : List ℕ) → at + n ≤ length bytes → value < 256 ^ n → number_at n at (with_number n at value bytes) ≡ value }
{}
