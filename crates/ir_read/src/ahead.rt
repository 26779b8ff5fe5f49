//! What stands behind the head of a function.

ghost use Rattle.std.specs.Prelude.{◌≡◌, IfOk};
ghost use Rattle.ir_lex.specs.Lexeme.{lexemes};
ghost use Rattle.ir_lex.specs.Cut.{cut_of, cuts_of};
ghost use Rattle.ir_read.specs.Ahead as definition;

use ir_lex::{Item, Token, begins_define, is_dropped_item, is_label, remaining};
use std::alloc::{AllocError, Global};

/// Whether there is only the mark of this byte.
fn is_only_mark(byte: u8, tokens: &[Token<'_>]) -> bool
    ensures { result ≡ definition.is_only_mark byte (lexemes tokens.now) }
{
    match tokens {
        [only] => only.is_mark(byte),
        _ => false,
    }
}

/// Whether what remains of the item is `}`.
fn is_close(alloc: Global, tokens: &[Token<'_>]) -> Result<bool, AllocError>
    ensures { IfOk result (λ close. close ≡ definition.is_close (lexemes tokens.now)) }
{
    if is_dropped_item(alloc, tokens)? {
        return Ok(false);
    }
    let rest = remaining(alloc, tokens)?;
    Ok(is_only_mark(b'}', rest.as_slice()))
}

/// Whether some of the items closes a body.
pub fn holds_close(alloc: Global, items: &[Item<'_>]) -> Result<bool, AllocError>
    ensures { IfOk result (λ holds. holds ≡ definition.holds_close (cuts_of items.now)) }
{
    for item in items {
        if is_close(alloc, item.tokens)? {
            return Ok(true);
        }
    }
    Ok(false)
}

/// Whether the first of the items that is not dropped begins a block that has no label.
pub fn begins_unlabelled(alloc: Global, items: &[Item<'_>]) -> Result<bool, AllocError>
    ensures { IfOk result (λ begins. begins ≡ definition.begins_unlabelled (cuts_of items.now)) }
{
    for item in items {
        if !is_dropped_item(alloc, item.tokens)? {
            return begins_block(alloc, item.tokens);
        }
    }
    Ok(false)
}

/// Whether what remains of an item is neither a label nor `}`.
fn begins_block(alloc: Global, tokens: &[Token<'_>]) -> Result<bool, AllocError>
    ensures { IfOk result (λ begins. begins ≡ definition.begins_block (lexemes tokens.now)) }
{
    let rest = remaining(alloc, tokens)?;
    Ok(!is_label(rest.as_slice()) && !is_only_mark(b'}', rest.as_slice()))
}

/// Whether an item ends: its brackets are closed, and where it is a `define` some item behind it closes the body.
pub fn ends(alloc: Global, item: &Item<'_>, after: &[Item<'_>]) -> Result<bool, AllocError>
    ensures { IfOk result (λ ends. ends ≡ definition.ends (cut_of item.now) (cuts_of after.now)) }
{
    if !item.closed {
        return Ok(false);
    }
    if begins_define(item.tokens) {
        holds_close(alloc, after)
    } else {
        Ok(true)
    }
}
