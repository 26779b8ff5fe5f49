//! Initialisers at the front of a list of tokens (LLVM Language Reference, "Complex Constants").

ghost use Rattle.std.specs.Prelude.{◌≡◌};
ghost use Rattle.ir_ast.specs.View.{view_type, view_init, view_init_list};
ghost use Rattle.ir_lex.specs.Names as names;
ghost use Rattle.ir_part.specs.Reader.{Gives, seen};
ghost use Rattle.ir_part.specs.Many.{some, is_closed, behind_comma, separated};
ghost use Rattle.ir_top.specs.Inits as definition;
ghost use Rattle.ir_top.specs.Inits.{init_within, view_pairs, inits_from};

use ir_ast::{ByteList, Init, InitList, IrType};
use ir_lex::name::{behind_first, unescaped};
use ir_lex::{Token, TokenKind};
use ir_part::front::strip_mark;
use ir_part::{PartStop, after_mark, begins_mark, number_of, type_at};
use std::alloc::Global;

/// How many initialisers may stand in one another.
const MOST_NESTED: u32 = 100;

/// An initialiser with at most 100 in one another, and the tokens behind it.
#[tactic(auto, unfolding(crate::specs::Inits::init_at))]
pub fn init_at<'t>(
    alloc: Global,
    tokens: &'t [Token<'t>],
) -> Result<(Init, &'t [Token<'t>]), PartStop>
    ensures { Gives (λ x. (view_init x.0, seen x.1.now)) result (definition.init_at (seen tokens.now)) }
{
    init_within(alloc, MOST_NESTED, tokens)
}

/// An initialiser with at most so many in one another, this one counted.
#[cycle(inits)]
#[tactic(auto, using(crate::proofs::InitSteps::init_steps))]
fn init_within<'t>(
    alloc: Global,
    nested: u32,
    tokens: &'t [Token<'t>],
) -> Result<(Init, &'t [Token<'t>]), PartStop>
    ensures { Gives (λ x. (view_init x.0, seen x.1.now)) result (init_within nested (seen tokens.now)) }
{
    if nested == 0 {
        Err(PartStop::NotSpelled)
    } else {
        init_step(alloc, nested - 1, tokens)
    }
}

/// An initialiser whose parts have at most so many in one another.
#[cycle(inits)]
fn init_step<'t>(
    alloc: Global,
    nested: u32,
    tokens: &'t [Token<'t>],
) -> Result<(Init, &'t [Token<'t>]), PartStop>
    ensures { Gives (λ x. (view_init x.0, seen x.1.now)) result (definition.init_step (init_within nested) (seen tokens.now)) }
{
    match tokens {
        [
            Token {
                kind: TokenKind::Word,
                text,
                ..
            },
            rest @ ..,
        ] => init_word(text, rest),
        [
            Token {
                kind: TokenKind::Number,
                text,
                ..
            },
            rest @ ..,
        ] => init_number(text, rest),
        [
            Token {
                kind: TokenKind::Quoted,
                text,
                ..
            },
            rest @ ..,
        ] => init_text(alloc, text, rest),
        [
            Token {
                kind: TokenKind::Global,
                ..
            },
            rest @ ..,
        ] => Ok((Init::Pointer, rest)),
        [
            Token {
                kind: TokenKind::Mark,
                text,
                ..
            },
            rest @ ..,
        ] => init_mark(alloc, nested, text, rest),
        _ => Err(PartStop::NotSpelled),
    }
}

/// `zeroinitializer`, `true`, `false` or `null`, where this is the word.
fn init_word<'t>(word: &[u8], rest: &'t [Token<'t>]) -> Result<(Init, &'t [Token<'t>]), PartStop>
    ensures { Gives (λ x. (view_init x.0, seen x.1.now)) result (definition.init_word word.now (seen rest.now)) }
{
    if word == b"zeroinitializer".as_slice() {
        Ok((Init::Zero, rest))
    } else if word == b"true".as_slice() {
        Ok((Init::Truth(true), rest))
    } else if word == b"false".as_slice() {
        Ok((Init::Truth(false), rest))
    } else if word == b"null".as_slice() {
        Ok((Init::Pointer, rest))
    } else {
        Err(PartStop::NotSpelled)
    }
}

/// A number, where this is its text.
fn init_number<'t>(text: &[u8], rest: &'t [Token<'t>]) -> Result<(Init, &'t [Token<'t>]), PartStop>
    ensures { Gives (λ x. (view_init x.0, seen x.1.now)) result (definition.init_number text.now (seen rest.now)) }
{
    match number_of(text) {
        Some(number) => Ok((Init::Number(number), rest)),
        None => Err(PartStop::NotSpelled),
    }
}

/// `c".."`, where this is its text.
fn init_text<'t>(
    alloc: Global,
    text: &[u8],
    rest: &'t [Token<'t>],
) -> Result<(Init, &'t [Token<'t>]), PartStop>
    ensures { Gives (λ x. (view_init x.0, seen x.1.now)) result (definition.init_text text.now (seen rest.now)) }
{
    match text {
        [b'c', ..] => {
            let name = unescaped(alloc, inside_of(behind_first(text)))?;
            let items = Vec::from_slice(alloc, name.as_bytes())?;
            Ok((Init::Bytes(ByteList { items }), rest))
        }
        _ => Err(PartStop::NotSpelled),
    }
}

/// The inside of a string with its quotes.
fn inside_of(quoted: &[u8]) -> &[u8]
    ensures { result.now ≡ names.inside_of quoted.now }
{
    match quoted {
        [_, inside @ .., _] => inside,
        _ => behind_first(quoted).split_at(0).0,
    }
}

/// A list of initialisers, where this is its first mark.
#[cycle(inits)]
fn init_mark<'t>(
    alloc: Global,
    nested: u32,
    mark: &[u8],
    rest: &'t [Token<'t>],
) -> Result<(Init, &'t [Token<'t>]), PartStop>
    ensures { Gives (λ x. (view_init x.0, seen x.1.now)) result (definition.init_mark (init_within nested) mark.now (seen rest.now)) }
{
    if mark == b"[".as_slice() {
        array_at(alloc, nested, rest)
    } else if mark == b"{".as_slice() {
        struct_at(alloc, nested, rest)
    } else if mark == b"<".as_slice() {
        packed_at(alloc, nested, rest)
    } else {
        Err(PartStop::NotSpelled)
    }
}

/// `T INIT , .. ]`
#[cycle(inits)]
fn array_at<'t>(
    alloc: Global,
    nested: u32,
    tokens: &'t [Token<'t>],
) -> Result<(Init, &'t [Token<'t>]), PartStop>
    ensures { Gives (λ x. (view_init x.0, seen x.1.now)) result (definition.array_at (init_within nested) (seen tokens.now)) }
{
    let (parts, rest) = parts_at(alloc, nested, b']', tokens)?;
    Ok((Init::array_of(list_of(parts)), rest))
}

/// `T INIT , .. }`
#[cycle(inits)]
fn struct_at<'t>(
    alloc: Global,
    nested: u32,
    tokens: &'t [Token<'t>],
) -> Result<(Init, &'t [Token<'t>]), PartStop>
    ensures { Gives (λ x. (view_init x.0, seen x.1.now)) result (definition.struct_at (init_within nested) (seen tokens.now)) }
{
    let (parts, rest) = parts_at(alloc, nested, b'}', tokens)?;
    Ok((Init::struct_of(list_of(parts)), rest))
}

/// `{ T INIT , .. } >`
#[cycle(inits)]
fn packed_at<'t>(
    alloc: Global,
    nested: u32,
    tokens: &'t [Token<'t>],
) -> Result<(Init, &'t [Token<'t>]), PartStop>
    ensures { Gives (λ x. (view_init x.0, seen x.1.now)) result (definition.packed_at (init_within nested) (seen tokens.now)) }
{
    let rest = after_mark(b'{', tokens)?;
    let (parts, rest) = parts_at(alloc, nested, b'}', rest)?;
    let rest = after_mark(b'>', rest)?;
    Ok((Init::packed_of(list_of(parts)), rest))
}

/// The parts as a list of their own type.
#[tactic(auto, using(crate::proofs::InitSteps::inits_seen))]
fn list_of(parts: Vec<(IrType, Init)>) -> InitList
    ensures { view_init_list result ≡ inits_from (view_pairs parts.items) }
{
    InitList::of(parts)
}

/// `T INIT , ..` and the closing mark: the parts.
#[cycle(inits)]
fn parts_at<'t>(
    alloc: Global,
    nested: u32,
    close: u8,
    tokens: &'t [Token<'t>],
) -> Result<(Vec<(IrType, Init)>, &'t [Token<'t>]), PartStop>
    ensures { Gives (λ x. (view_pairs x.0.items, seen x.1.now)) result (separated (definition.pair_at (init_within nested)) close (seen tokens.now)) }
{
    match strip_mark(close, tokens) {
        Some(rest) => Ok((Vec::new(alloc), rest)),
        None => {
            let (parts, rest) = some_parts(alloc, nested, close, tokens)?;
            let rest = after_mark(close, rest)?;
            Ok((parts, rest))
        }
    }
}

/// `T INIT , ..` up to a closing mark.
#[cycle(inits)]
fn some_parts<'t>(
    alloc: Global,
    nested: u32,
    close: u8,
    tokens: &'t [Token<'t>],
) -> Result<(Vec<(IrType, Init)>, &'t [Token<'t>]), PartStop>
    ensures { Gives (λ x. (view_pairs x.0.items, seen x.1.now)) result (some (is_closed close) (definition.pair_at (init_within nested)) (behind_comma (definition.pair_at (init_within nested))) (seen tokens.now)) }
{
    let (first, mut rest) = pair_at(alloc, nested, tokens)?;
    let mut parts = Vec::new(alloc);
    parts.push(first)?;
    let most = rest.len() + 1;
    'more: for _ in 0..most {
        if begins_mark(close, rest) {
            return Ok((parts, rest));
        }
        let after_comma = after_mark(b',', rest)?;
        let (part, after) = pair_at(alloc, nested, after_comma)?;
        parts.push(part)?;
        rest = after;
    }
    Err(PartStop::NotSpelled)
}

/// `T INIT`
#[cycle(inits)]
fn pair_at<'t>(
    alloc: Global,
    nested: u32,
    tokens: &'t [Token<'t>],
) -> Result<((IrType, Init), &'t [Token<'t>]), PartStop>
    ensures { Gives (λ x. ((view_type x.0.0, view_init x.0.1), seen x.1.now)) result (definition.pair_at (init_within nested) (seen tokens.now)) }
{
    let (over, rest) = type_at(alloc, tokens)?;
    let (init, rest) = init_within(alloc, nested, rest)?;
    Ok(((over, init), rest))
}
