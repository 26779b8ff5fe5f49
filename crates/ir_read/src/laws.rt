//! Laws of the spelling of whole texts, as functions without a body: what they ensure is the law.

ghost use Rattle.ir_read.specs.Laws.{SpellsOneModule, HasOneFault, SpellsOrFails};

/// A text spells at most one module.
pub fn modules_are_spelled_apart()
    ensures { SpellsOneModule }
{}

/// A text has at most one fault: the first item that fails, with its least reason.
pub fn faults_are_one()
    ensures { HasOneFault }
{}

/// A text that spells a module has no fault.
pub fn modules_have_no_fault()
    ensures { SpellsOrFails }
{}
