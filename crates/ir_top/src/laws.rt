//! Laws of the spelling of the items outside of bodies, as functions without a body: what they ensure is the law.

ghost use Rattle.ir_top.specs.Laws.{SpellsOneTop, ReadsOneTop, SpellsOneRange};

/// A token list spells at most one item outside of bodies.
pub fn tops_are_spelled_apart()
    ensures { SpellsOneTop }
{}

/// An item reads as at most one tree outside of bodies.
pub fn tops_are_read_apart()
    ensures { ReadsOneTop }
{}

/// A token list spells at most one range.
pub fn ranges_are_spelled_apart()
    ensures { SpellsOneRange }
{}
