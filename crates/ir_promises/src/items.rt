//! Items of function bodies.

ghost use Rattle.std.specs.Prelude.{◌≡◌, true, IfOk, IfErr};
ghost use Rattle.ir_lex.specs.Lexeme.{lexemes};
ghost use Rattle.ir_lex.specs.Drop.{is_dropped_item};
ghost use Rattle.ir_lex.specs.Items.{Inner, ReadsInner};
ghost use Rattle.ir_body.specs.Items.{IsRead, IsFault, IsIgnored, IsTree};

use ir_body::{BodyItem, ItemFault, read_body_item};
use ir_lex::Item;
use std::alloc::Global;

/// An item is read exactly where its tokens spell one, as the one that they spell; otherwise its reason is told.
pub fn item_of_tokens(alloc: Global, item: &Item<'_>) -> Result<BodyItem, ItemFault>
    ensures read { IfOk result (IsRead (lexemes item.now.tokens.now)) }
    ensures ignored { is_dropped_item (lexemes item.now.tokens.now) ≡ true → IsIgnored result }
    ensures spelled { (inner : Inner) → ReadsInner inner (lexemes item.now.tokens.now) → IsTree inner result }
    ensures fault { IfErr result (IsFault (lexemes item.now.tokens.now)) }
{
    read_body_item(alloc, item)
}
