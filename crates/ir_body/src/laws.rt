//! Laws of the spelling of items, as functions without a body: what they ensure is the law.

ghost use Rattle.ir_body.specs.Laws.{SpellsOneInner, ReadsOneInner};

/// A token list spells at most one item of a body.
pub fn items_are_spelled_apart()
    ensures { SpellsOneInner }
{}

/// An item reads as at most one tree.
pub fn items_are_read_apart()
    ensures { ReadsOneInner }
{}
