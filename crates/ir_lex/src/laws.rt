//! Laws of the spelling, as functions without a body: what they ensure is the law.

ghost use Rattle.ir_lex.specs.Laws.{SpellsOneType, SpellsOneSlot};

/// A token list spells at most one type.
pub fn types_are_spelled_apart()
    ensures { SpellsOneType }
{}

/// A token list spells at most one `alloca`, with its alignment or without.
pub fn slots_are_spelled_apart()
    ensures { SpellsOneSlot }
{}
