//! Items outside of bodies.

ghost use Rattle.std.specs.Prelude.{IfOk, IfErr};
ghost use Rattle.ir_lex.specs.Items.{SpellsTop};
ghost use Rattle.ir_part.specs.Reader.{seen};
ghost use Rattle.ir_top.specs.TopView.{view_top, IsTopStop};

use ir_lex::Token;
use ir_part::PartStop;
use ir_top::{TopItem, read_top};
use std::alloc::Global;

/// An item is read exactly where the tokens spell one, as the one that they spell.
pub fn top_of_tokens<'t>(alloc: Global, tokens: &'t [Token<'t>]) -> Result<TopItem, PartStop>
    ensures read { IfOk result (λ top. SpellsTop (view_top top) (seen tokens.now)) }
    ensures unread { IfErr result (IsTopStop (seen tokens.now)) }
{
    read_top(alloc, tokens)
}
