//! The productions outside of bodies (LLVM Language Reference, "Module Structure").

ghost use Rattle.std.specs.Prelude.{◌≡◌, [], IfOk, IfErr};
ghost use Rattle.ir_ast.specs.View.{view_type};
ghost use Rattle.ir_lex.specs.Items.{SpellsTop};
ghost use Rattle.ir_part.specs.Reader.{Gives, seen};
ghost use Rattle.ir_top.specs.Tops as definition;
ghost use Rattle.ir_top.specs.TopView.{view_top, IsTopStop};

use crate::brackets::is_list;
use crate::inits::init_at;
use crate::item::TopItem;
use crate::parameters::parameters_at;
use ir_ast::{ByteList, IrType, ParameterList};
use ir_lex::{Token, TokenKind, plain_name};
use ir_part::front::strip_word;
use ir_part::{
    PartStop, after_mark, after_word, align_at, end, global_at, local_at, result_at, type_at,
};
use std::alloc::Global;

/// The item outside of bodies that tokens spell, which are those that remain of it. `NotSpelled` comes exactly where they spell none.
pub fn read_top<'t>(alloc: Global, tokens: &'t [Token<'t>]) -> Result<TopItem, PartStop>
    ensures read { IfOk result (λ top. SpellsTop (view_top top) (seen tokens.now)) }
    ensures unread { IfErr result (IsTopStop (seen tokens.now)) }
{
    top_at(alloc, tokens)
}

/// The item outside of bodies that is read from tokens.
#[tactic(auto, unfolding(crate::specs::Tops::top_at))]
fn top_at<'t>(alloc: Global, tokens: &'t [Token<'t>]) -> Result<TopItem, PartStop>
    ensures { Gives view_top result (definition.top_at (seen tokens.now)) }
{
    match tokens {
        [
            Token {
                kind: TokenKind::Word,
                ..
            },
            ..
        ] => word_row(alloc, tokens),
        [
            Token {
                kind: TokenKind::Local,
                ..
            },
            ..
        ] => type_row(alloc, tokens),
        [
            Token {
                kind: TokenKind::Global,
                ..
            },
            ..
        ] => global_row(alloc, tokens),
        _ => Err(PartStop::NotSpelled),
    }
}

/// A production that begins with a word.
fn word_row<'t>(alloc: Global, tokens: &'t [Token<'t>]) -> Result<TopItem, PartStop>
    ensures { Gives view_top result (definition.word_row (seen tokens.now)) }
{
    if begins_with(b"define", tokens) {
        define_row(alloc, tokens)
    } else if begins_with(b"declare", tokens) {
        declare_row(alloc, tokens)
    } else {
        layout_row(alloc, tokens)
    }
}

/// Whether this word is at the front.
#[tactic(auto, unfolding(ir_lex::specs::Marks::is_word))]
fn begins_with(word: &[u8], tokens: &[Token<'_>]) -> bool
    ensures { result ≡ definition.begins_with_word word.now (seen tokens.now) }
{
    match tokens {
        [first, ..] => first.is_word(word),
        [] => false,
    }
}

/// `target datalayout = STRING`
fn layout_row<'t>(alloc: Global, tokens: &'t [Token<'t>]) -> Result<TopItem, PartStop>
    ensures { Gives view_top result (definition.layout_row (seen tokens.now)) }
{
    let rest = after_word(b"target", tokens)?;
    let rest = after_word(b"datalayout", rest)?;
    let rest = after_mark(b'=', rest)?;
    let (bytes, rest) = text_at(alloc, rest)?;
    end(rest)?;
    Ok(TopItem::Layout(bytes))
}

/// A string: the bytes that it stands for.
fn text_at<'t>(
    alloc: Global,
    tokens: &'t [Token<'t>],
) -> Result<(ByteList, &'t [Token<'t>]), PartStop>
    ensures { Gives (λ x. (x.0.items.items, seen x.1.now)) result (definition.text_at (seen tokens.now)) }
{
    match tokens {
        [
            Token {
                kind: TokenKind::Quoted,
                text,
                ..
            },
            rest @ ..,
        ] => {
            let bytes = text_of(alloc, text)?;
            Ok((bytes, rest))
        }
        _ => Err(PartStop::NotSpelled),
    }
}

/// The bytes that the text of a string stands for.
fn text_of(alloc: Global, text: &[u8]) -> Result<ByteList, PartStop>
    ensures { Gives (λ x. x.items.items) result (definition.text_of text.now) }
{
    match text {
        [b'"', ..] => {
            let name = plain_name(alloc, text)?;
            let items = Vec::from_slice(alloc, name.as_bytes())?;
            Ok(ByteList { items })
        }
        _ => Err(PartStop::NotSpelled),
    }
}

/// `%NAME = type T`, `%NAME = type opaque`
fn type_row<'t>(alloc: Global, tokens: &'t [Token<'t>]) -> Result<TopItem, PartStop>
    ensures { Gives view_top result (definition.type_row (seen tokens.now)) }
{
    let (name, rest) = local_at(alloc, tokens)?;
    let rest = after_mark(b'=', rest)?;
    let rest = after_word(b"type", rest)?;
    let (over, rest) = meaning_at(alloc, rest)?;
    end(rest)?;
    Ok(TopItem::Named(name, over))
}

/// A type, or `opaque`.
fn meaning_at<'t>(
    alloc: Global,
    tokens: &'t [Token<'t>],
) -> Result<(IrType, &'t [Token<'t>]), PartStop>
    ensures { Gives (λ x. (view_type x.0, seen x.1.now)) result (definition.meaning_at (seen tokens.now)) }
{
    match type_at(alloc, tokens) {
        Ok(read) => Ok(read),
        Err(PartStop::NotSpelled) => {
            let rest = after_word(b"opaque", tokens)?;
            Ok((IrType::Opaque, rest))
        }
        Err(PartStop::Memory) => Err(PartStop::Memory),
    }
}

/// `constant` or `global`: whether it is `constant`.
fn storage_at<'t>(tokens: &'t [Token<'t>]) -> Result<(bool, &'t [Token<'t>]), PartStop>
    ensures { Gives (λ x. (x.0, seen x.1.now)) result (definition.storage_at (seen tokens.now)) }
{
    match strip_word(b"constant", tokens) {
        Some(rest) => Ok((true, rest)),
        None => {
            let rest = after_word(b"global", tokens)?;
            Ok((false, rest))
        }
    }
}

/// An alignment of 0 is none.
fn aligned(align: u64) -> Option<u64>
    ensures { result ≡ definition.aligned align }
{
    if align == 0 { None } else { Some(align) }
}

/// `@NAME = global T INIT [, align n]`, the same with `constant`.
fn global_row<'t>(alloc: Global, tokens: &'t [Token<'t>]) -> Result<TopItem, PartStop>
    ensures { Gives view_top result (definition.global_row (seen tokens.now)) }
{
    let (name, rest) = global_at(alloc, tokens)?;
    let rest = after_mark(b'=', rest)?;
    let (constant, rest) = storage_at(rest)?;
    let (over, rest) = type_at(alloc, rest)?;
    let (init, rest) = init_at(alloc, rest)?;
    let (align, rest) = align_at(rest)?;
    end(rest)?;
    Ok(TopItem::Global {
        name,
        constant,
        over,
        init,
        align: aligned(align),
    })
}

/// `define R @NAME ( T [%NAME] , .. ) {`
fn define_row<'t>(alloc: Global, tokens: &'t [Token<'t>]) -> Result<TopItem, PartStop>
    ensures { Gives view_top result (definition.define_row (seen tokens.now)) }
{
    let rest = after_word(b"define", tokens)?;
    let (result, rest) = result_at(alloc, rest)?;
    let (name, rest) = global_at(alloc, rest)?;
    let rest = after_mark(b'(', rest)?;
    let (items, rest) = parameters_at(alloc, rest)?;
    let rest = after_mark(b')', rest)?;
    let rest = after_mark(b'{', rest)?;
    end(rest)?;
    Ok(TopItem::Define {
        name,
        result,
        parameters: ParameterList { items },
    })
}

/// `declare R @NAME ( .. )`
fn declare_row<'t>(alloc: Global, tokens: &'t [Token<'t>]) -> Result<TopItem, PartStop>
    ensures { Gives view_top result (definition.declare_row (seen tokens.now)) }
{
    let rest = after_word(b"declare", tokens)?;
    let (result, rest) = result_at(alloc, rest)?;
    let (name, rest) = global_at(alloc, rest)?;
    let rest = after_mark(b'(', rest)?;
    list_end(alloc, rest)?;
    Ok(TopItem::Declare { name, result })
}

/// Balanced tokens up to the last, which is `)`.
fn list_end(alloc: Global, tokens: &[Token<'_>]) -> Result<(), PartStop>
    ensures { Gives (λ x. (x, [])) result (definition.list_at (seen tokens.now)) }
{
    if is_list(alloc, tokens)? {
        Ok(())
    } else {
        Err(PartStop::NotSpelled)
    }
}
