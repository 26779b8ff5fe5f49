//! An item of a function body.

ghost use Rattle.std.specs.Prelude.{◌≡◌, true, Some, IfOk, IfErr};
ghost use Rattle.ir_lex.specs.Lexeme.{lexemes};
ghost use Rattle.ir_lex.specs.Drop.{is_dropped_item};
ghost use Rattle.ir_lex.specs.Items as definition;
ghost use Rattle.ir_lex.specs.Items.{Inner, ReadsInner};
ghost use Rattle.ir_body.specs.Items.{Answers, IsRead, IsFault, IsIgnored, IsTree, IsAtLine, tree_of, inner_of, fault_by};

use crate::fault::ItemFault;
use crate::inner::{Tree, inner_at};
use crate::tell::holds_left_out;
use ir_ast::{Instr, Name};
use ir_lex::{Item, Token, is_dropped_item, remaining};
use ir_part::PartStop;
use std::alloc::Global;

/// What an item of a function body says.
#[derive(Drop)]
pub enum BodyItem {
    /// The name of the block that begins here.
    Label(Name),
    Instr(Instr),
    /// The end of the body.
    Close,
    /// The item is dropped whole.
    Ignored,
}

/// What an item of a function body says. The table of productions is that of the LLVM Language Reference, "Instruction Reference", as
/// far as this project goes; what carries no meaning is dropped first.
pub fn read_body_item(alloc: Global, item: &Item<'_>) -> Result<BodyItem, ItemFault>
    ensures read { IfOk result (IsRead (lexemes item.now.tokens.now)) }
    ensures ignored { is_dropped_item (lexemes item.now.tokens.now) ≡ true → IsIgnored result }
    ensures spelled { (inner : Inner) → ReadsInner inner (lexemes item.now.tokens.now) → IsTree inner result }
    ensures line { IfOk result (IsAtLine item.now.line) }
    ensures fault { IfErr result (IsFault (lexemes item.now.tokens.now)) }
{
    read_exactly(alloc, item)
}

/// The same, by what is read.
fn read_exactly(alloc: Global, item: &Item<'_>) -> Result<BodyItem, ItemFault>
    ensures { Answers (lexemes item.now.tokens.now) item.now.line result }
{
    if is_dropped_item(alloc, item.tokens)? {
        return Ok(BodyItem::Ignored);
    }
    let rest = remaining(alloc, item.tokens)?;
    match inner_at(alloc, rest.as_slice()) {
        Ok(tree) => Ok(body_item(item.line, tree)),
        Err(PartStop::NotSpelled) => Err(fault_of(rest.as_slice())),
        Err(PartStop::Memory) => Err(ItemFault::Memory),
    }
}

/// What an item on this line says, by its tree.
fn body_item(line: u32, tree: Tree) -> BodyItem
    ensures tree { tree_of result ≡ Some (inner_of tree) }
    ensures line { IsAtLine line result }
{
    match tree {
        Tree::Label(name) => BodyItem::Label(name),
        Tree::Instr(result, op) => BodyItem::Instr(Instr { line, result, op }),
        Tree::Close => BodyItem::Close,
    }
}

/// Why an item is refused of which these tokens remain.
fn fault_of(tokens: &[Token<'_>]) -> ItemFault
    ensures { result ≡ fault_by (definition.holds_left_out (lexemes tokens.now)) }
{
    if holds_left_out(tokens) {
        ItemFault::OutOfProfile
    } else {
        ItemFault::NotSpelled
    }
}
