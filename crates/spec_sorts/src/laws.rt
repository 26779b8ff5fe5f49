//! Laws of what is taken. A function here does nothing: its contract is the law.

ghost use Rattle.spec_sorts.specs.Laws.{EquationIsSorted, KeysAreSorted, OwnIsKind, TakenIsSorted};

/// What an expression stands for is well sorted in a context that has what the names of the scope mean, where no nest of quantifiers in
/// it is too wide. The call does nothing: its contract is a law.
pub fn what_is_taken_is_sorted()
    ensures taken { TakenIsSorted }
    ensures own { OwnIsKind }
    ensures keys { KeysAreSorted }
{}

/// The right side of a field's equation is well sorted over the field's keys. The call does nothing: its contract is a law.
pub fn equations_are_sorted()
    ensures { EquationIsSorted }
{}
