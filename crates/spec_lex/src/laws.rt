//! Laws of the lines, as functions without a body: what they ensure is the law.

ghost use Rattle.spec_lex.specs.Laws.{HasOneReading};

/// Every text is one of exactly one list of logical lines.
pub fn lines_are_told_apart()
    ensures { HasOneReading }
{}
