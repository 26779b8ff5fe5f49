//! Laws of the definitions.

ghost use Rattle.std.specs.Prelude.{◌≡◌, ◌&&◌, ℕ, List, is_some};
ghost use Rattle.spec_ast.specs.declared.fault.SpecReason.{SpecReason};
ghost use Rattle.spec_ast.specs.Raw.{Item, Line};
ghost use Rattle.spec_tree.specs.Plain.{Key};
ghost use Rattle.spec_tree.specs.Sorted.{product, key_sizes};
ghost use Rattle.spec_lines.specs.Behind.{Here};
ghost use Rattle.spec_lines.specs.Faults.{Text, fits_line, fault_of};
ghost use Rattle.spec_lines.specs.Laws.{IsLeast, AllStand, IsFirst, Tells};
ghost use Rattle.spec_lines.specs.Lines.{sorts_fit, line_fault};
ghost use Rattle.spec_lines.specs.Sorts.{cut, tuples_of};
ghost use Rattle.spec_lines.specs.Whole.{Made, made_behind, first_from};

/// The fault that is told of a line is its least, and that of lines is the least one of the first line that has one: there is at most
/// one such line and reason, and none where no line has a fault. The call does nothing: its contract is a law.
pub fn first_faults_are_told()
    ensures least { (t : Text) (h : Here) (item : Item) → IsLeast t h item (fault_of t h item) }
    ensures told { (t : Text) (h : Here) (raw : List Line) → Tells t h raw (first_from t h raw) }
    ensures one { (t : Text) (h : Here) (raw : List Line) (m n : ℕ) (q r : SpecReason) → IsFirst t h raw m q → IsFirst t h raw n r → (m ≡ n) × (q ≡ r) }
    ensures apart { (t : Text) (h : Here) (raw : List Line) (n : ℕ) (r : SpecReason) → IsFirst t h raw n r → AllStand t h raw → ⊥ }
{}

/// A line's least reason is found in three parts: those below that of a width that does not fit with the one that hides it, whether the
/// line fits, and those above. The call does nothing: its contract is a law.
pub fn faults_are_arranged()
    ensures { (t : Text) (h : Here) (item : Item) → fault_of t h item ≡ line_fault t h item }
{}

/// A line fits just where the sorts that it spells are within their limits and what it adds is given. The call does nothing: its contract
/// is a law.
pub fn lines_fit_where_made()
    ensures { (h : Here) (m : Made) (item : Item) → fits_line h item ≡ (sorts_fit h item && is_some (made_behind h m item)) }
{}

/// The index tuples of keys are the product of their sizes, to one more than the limit. The call does nothing: its contract is a law.
pub fn tuples_are_cut()
    ensures { (keys : List Key) → tuples_of keys ≡ cut (product (key_sizes keys)) }
{}
