//! Laws of the expressions, as functions without a body: what they ensure is the law.

ghost use Rattle.spec_expr.specs.Laws.{ReadsWhatIsSpelled, ReadsAllThatIsSpelled, SpellsOneExpression};

/// What the reading finds at the front of words is spelled there, built up to the depth.
pub fn expressions_are_read_soundly()
    ensures { ReadsWhatIsSpelled }
{}

/// Whatever words spell is what the reading finds there.
pub fn expressions_are_read_completely()
    ensures { ReadsAllThatIsSpelled }
{}

/// Words spell at most one expression.
pub fn expressions_are_told_apart()
    ensures { SpellsOneExpression }
{}
