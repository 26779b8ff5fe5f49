//! Laws of the lines, as functions without a body: what they ensure is the law.

ghost use Rattle.spec_read.specs.Laws.{SpellsOneItem, SpellsOneSpec, FailsOrSpells, HasOneFault, SpellsOrFails};

/// Words spell at most one line at a place.
pub fn lines_are_told_apart()
    ensures { SpellsOneItem }
{}

/// A text spells at most one raw specification.
pub fn specifications_are_told_apart()
    ensures { SpellsOneSpec }
{}

/// A text that fails spells no raw specification.
pub fn failing_texts_spell_nothing()
    ensures { FailsOrSpells }
{}

/// A text fails at one line and for one reason at most.
pub fn faults_are_told_apart()
    ensures { HasOneFault }
{}

/// Every text spells a raw specification or fails.
pub fn texts_spell_or_fail()
    ensures { SpellsOrFails }
{}
