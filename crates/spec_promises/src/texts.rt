//! Logical lines, whole specification texts, and expressions.

ghost use Rattle.std.specs.Prelude.{◌<◌, ◌^◌, List, length};
ghost use Rattle.spec_ast.specs.Raw as raw;
ghost use Rattle.spec_ast.specs.View.{view_expr};
ghost use Rattle.spec_ast.specs.declared.fault.SpecFault.{SpecFault};
ghost use Rattle.spec_expr.specs.Fronts.{Gives, grown, seen};
ghost use Rattle.spec_expr.specs.Reading as definition;
ghost use Rattle.spec_lex.specs.Lines.{AreLinesOf, Line};
ghost use Rattle.spec_lex.specs.Faults as faults;
ghost use Rattle.spec_lex.specs.Answers as answers;
ghost use Rattle.spec_read.specs.Laws.{IsSpecOf, FailsText};
ghost use Rattle.spec_read.specs.Told.{IsAnswer, IsRead, IsRefused};

use spec_ast::{RawExpr, RawSpec, SpecStop};
use spec_expr::{Bounded, PartStop, expr_at};
use spec_lex::{LogicalLines, Token};
use spec_read::read_spec;
use std::alloc::Global;

/// The logical lines of a text, or its first line that has a byte outside the tokens or another indentation.
pub fn lines_of_text<'t>(alloc: Global, text: &'t [u8]) -> Result<LogicalLines<'t>, SpecStop>
    requires { length text.now < 2 ^ 31 }
    ensures only { (ls : List Line) → AreLinesOf text.now ls → faults.AreClean ls → answers.IsRead ls result }
    ensures first { (ls : List Line) (fault : SpecFault) → AreLinesOf text.now ls → faults.IsFirstFault ls fault → answers.IsRefused fault result }
{
    spec_lex::lines(alloc, text)
}

/// The raw specification of a text, or its first fault.
pub fn spec_of_text(alloc: Global, text: &[u8]) -> Result<RawSpec, SpecStop>
    requires { length text.now < 2 ^ 31 }
    ensures answer { IsAnswer text.now result }
    ensures only { (raws : List raw.Line) → IsSpecOf text.now raws → IsRead raws result }
    ensures first { (fault : SpecFault) → FailsText text.now fault → IsRefused fault result }
{
    read_spec(alloc, text)
}

/// The expression at the front of tokens, built up to a depth of 100, and the tokens behind it.
pub fn expression_of_tokens<'t>(
    alloc: Global,
    nest: usize,
    tokens: &'t [Token<'t>],
) -> Result<(Bounded<RawExpr>, &'t [Token<'t>]), PartStop>
    ensures { Gives (λ x. (grown view_expr x.0, seen x.1.now)) result (definition.expr_at 100 nest (seen tokens.now)) }
{
    expr_at(alloc, nest, tokens)
}
