//! Items that are dropped whole: each only where the whole of it has the form.

ghost use Rattle.std.specs.Prelude.{◌≡◌, ◌≤◌, [], length, codes, IfOk, IfSome};
ghost use Rattle.ir_lex.specs.Lexeme.{lexeme, lexemes};
ghost use Rattle.ir_lex.specs.Marks.{is_mark, is_word};
ghost use Rattle.ir_lex.specs.Drop as definition;
ghost use Rattle.ir_lex.specs.Drop.{behind};

use crate::brackets::Brackets;
use crate::name::sigil_name;
use crate::tell::{
    is_attribute, is_attribute_number, is_global, is_metadata, is_metadata_number,
    is_metadata_word, is_string,
};
use crate::token::{Token, begins_mark};
use std::alloc::{AllocError, Global};

/// What of a note behind a call was read last.
#[derive(Clone, Copy, Debug, PartialEq, Eq)]
pub enum Note {
    /// The whole of it: `#N`, or the number of `, !KIND !N`.
    Whole,
    /// The comma of `, !KIND !N`.
    Comma,
    /// The word of `, !KIND !N`.
    Kind,
}

/// Whether the item is dropped whole.
#[tactic(auto, unfolding(crate::specs::Drop::is_dropped_item))]
pub fn is_dropped_item(alloc: Global, tokens: &[Token<'_>]) -> Result<bool, AllocError>
    ensures { IfOk result (λ dropped. dropped ≡ definition.is_dropped_item (lexemes tokens.now)) }
{
    if is_named_string(tokens) {
        Ok(true)
    } else if is_attributes_item(alloc, tokens)? {
        Ok(true)
    } else if is_metadata_item(alloc, tokens)? {
        Ok(true)
    } else if is_debug_record(alloc, tokens)? {
        Ok(true)
    } else {
        calls_debug(alloc, tokens)
    }
}

/// `source_filename = STRING`, `target triple = STRING`
fn is_named_string(tokens: &[Token<'_>]) -> bool
    ensures { result ≡ definition.is_named_string (lexemes tokens.now) }
{
    match tokens {
        [first, rest @ ..] => {
            (first.is_word(b"source_filename") && is_assigned_string(rest))
                || (first.is_word(b"target") && is_triple(rest))
        }
        [] => false,
    }
}

/// `triple = STRING`
fn is_triple(tokens: &[Token<'_>]) -> bool
    ensures { result ≡ behind (is_word (codes "triple")) definition.is_assigned_string (lexemes tokens.now) }
{
    match tokens {
        [first, rest @ ..] => first.is_word(b"triple") && is_assigned_string(rest),
        [] => false,
    }
}

/// `= STRING`
fn is_assigned_string(tokens: &[Token<'_>]) -> bool
    ensures { result ≡ definition.is_assigned_string (lexemes tokens.now) }
{
    match tokens {
        [first, rest @ ..] => first.is_mark(b'=') && is_only_string(rest),
        [] => false,
    }
}

/// A string alone.
fn is_only_string(tokens: &[Token<'_>]) -> bool
    ensures { result ≡ definition.is_only_string (lexemes tokens.now) }
{
    match tokens {
        [only] => is_string(only),
        _ => false,
    }
}

/// How many tokens stand up to the one that closes the bracket at the front, where each closing mark fits.
fn balanced_length(alloc: Global, tokens: &[Token<'_>]) -> Result<Option<usize>, AllocError>
    ensures value { IfOk result (λ count. count ≡ definition.balanced_length [] (lexemes tokens.now)) }
    ensures within { IfOk result (λ count. IfSome count (λ n. n ≤ length tokens.now)) }
{
    let mut brackets = Brackets::new(alloc);
    for (at, token) in tokens.iter().enumerate() {
        if !brackets.takes(token) {
            return Ok(None);
        }
        brackets.pass(token)?;
        if brackets.is_empty() {
            return Ok(Some(at + 1));
        }
    }
    Ok(None)
}

/// A bracket that this mark opens, tokens with balanced brackets, and the mark that closes it.
fn is_group(alloc: Global, byte: u8, tokens: &[Token<'_>]) -> Result<bool, AllocError>
    ensures { IfOk result (λ group. group ≡ definition.is_group byte (lexemes tokens.now)) }
{
    if !begins_mark(byte, tokens) {
        return Ok(false);
    }
    match balanced_length(alloc, tokens)? {
        Some(count) => Ok(count == tokens.len()),
        None => Ok(false),
    }
}

/// `attributes #N = { .. }`
fn is_attributes_item(alloc: Global, tokens: &[Token<'_>]) -> Result<bool, AllocError>
    ensures { IfOk result (λ is. is ≡ definition.is_attributes_item (lexemes tokens.now)) }
{
    match tokens {
        [first, rest @ ..] => {
            if first.is_word(b"attributes") {
                is_numbered_group(alloc, rest)
            } else {
                Ok(false)
            }
        }
        [] => Ok(false),
    }
}

/// `#N = { .. }`
fn is_numbered_group(alloc: Global, tokens: &[Token<'_>]) -> Result<bool, AllocError>
    ensures { IfOk result (λ is. is ≡ behind definition.is_attribute_number (behind (is_mark 61) (definition.is_group 123)) (lexemes tokens.now)) }
{
    match tokens {
        [first, rest @ ..] => {
            if is_attribute_number(first) {
                is_assigned_group(alloc, rest)
            } else {
                Ok(false)
            }
        }
        [] => Ok(false),
    }
}

/// `= { .. }`
fn is_assigned_group(alloc: Global, tokens: &[Token<'_>]) -> Result<bool, AllocError>
    ensures { IfOk result (λ is. is ≡ behind (is_mark 61) (definition.is_group 123) (lexemes tokens.now)) }
{
    match tokens {
        [first, rest @ ..] => {
            if first.is_mark(b'=') {
                is_group(alloc, b'{', rest)
            } else {
                Ok(false)
            }
        }
        [] => Ok(false),
    }
}

/// `!NAME = NODE`
fn is_metadata_item(alloc: Global, tokens: &[Token<'_>]) -> Result<bool, AllocError>
    ensures { IfOk result (λ is. is ≡ definition.is_metadata_item (lexemes tokens.now)) }
{
    match tokens {
        [first, rest @ ..] => {
            if is_metadata(first) {
                is_assigned_node(alloc, rest)
            } else {
                Ok(false)
            }
        }
        [] => Ok(false),
    }
}

/// `= NODE`
fn is_assigned_node(alloc: Global, tokens: &[Token<'_>]) -> Result<bool, AllocError>
    ensures { IfOk result (λ is. is ≡ behind (is_mark 61) definition.is_node (lexemes tokens.now)) }
{
    match tokens {
        [first, rest @ ..] => {
            if first.is_mark(b'=') {
                is_node(alloc, rest)
            } else {
                Ok(false)
            }
        }
        [] => Ok(false),
    }
}

/// `!{ .. }` or `!WORD( .. )`, with `distinct` or not.
fn is_node(alloc: Global, tokens: &[Token<'_>]) -> Result<bool, AllocError>
    ensures { IfOk result (λ is. is ≡ definition.is_node (lexemes tokens.now)) }
{
    if is_plain_node(alloc, tokens)? {
        return Ok(true);
    }
    is_distinct_node(alloc, tokens)
}

/// The same, with `distinct`.
fn is_distinct_node(alloc: Global, tokens: &[Token<'_>]) -> Result<bool, AllocError>
    ensures { IfOk result (λ is. is ≡ behind (is_word (codes "distinct")) definition.is_plain_node (lexemes tokens.now)) }
{
    match tokens {
        [first, rest @ ..] => {
            if first.is_word(b"distinct") {
                is_plain_node(alloc, rest)
            } else {
                Ok(false)
            }
        }
        [] => Ok(false),
    }
}

/// `!{ .. }` or `!WORD( .. )`.
fn is_plain_node(alloc: Global, tokens: &[Token<'_>]) -> Result<bool, AllocError>
    ensures { IfOk result (λ is. is ≡ definition.is_plain_node (lexemes tokens.now)) }
{
    match tokens {
        [first, rest @ ..] => {
            if first.is_mark(b'!') && is_group(alloc, b'{', rest)? {
                Ok(true)
            } else if is_metadata_word(first) {
                is_group(alloc, b'(', rest)
            } else {
                Ok(false)
            }
        }
        [] => Ok(false),
    }
}

/// `#dbg_WORD`
fn is_debug_word(token: &Token<'_>) -> bool
    ensures { result ≡ definition.is_debug_word (lexeme token.now) }
{
    is_attribute(token) && token.text.starts_with(b"#dbg_") && 5 < token.text.len()
}

/// `#dbg_WORD( .. )`
fn is_debug_record(alloc: Global, tokens: &[Token<'_>]) -> Result<bool, AllocError>
    ensures { IfOk result (λ is. is ≡ definition.is_debug_record (lexemes tokens.now)) }
{
    match tokens {
        [first, rest @ ..] => {
            if is_debug_word(first) {
                is_group(alloc, b'(', rest)
            } else {
                Ok(false)
            }
        }
        [] => Ok(false),
    }
}

/// What of a note was read last, behind this token.
fn note_after(note: Note, token: &Token<'_>) -> Option<Note>
    ensures { result ≡ definition.note_after note (lexeme token.now) }
{
    match note {
        Note::Whole => {
            if is_attribute_number(token) {
                Some(Note::Whole)
            } else if token.is_mark(b',') {
                Some(Note::Comma)
            } else {
                None
            }
        }
        Note::Comma => {
            if is_metadata_word(token) {
                Some(Note::Kind)
            } else {
                None
            }
        }
        Note::Kind => {
            if is_metadata_number(token) {
                Some(Note::Whole)
            } else {
                None
            }
        }
    }
}

/// Whether the whole of a note was read.
fn is_whole(note: Note) -> bool
    ensures { result ≡ definition.is_whole note }
{
    match note {
        Note::Whole => true,
        _ => false,
    }
}

/// Nothing but `#N` and `, !KIND !N`.
fn are_notes(tokens: &[Token<'_>]) -> bool
    ensures { result ≡ definition.are_notes (lexemes tokens.now) }
{
    let mut note = Note::Whole;
    for token in tokens {
        match note_after(note, token) {
            Some(next) => note = next,
            None => return false,
        }
    }
    is_whole(note)
}

/// `( .. )`, and behind it notes alone.
fn is_noted_group(alloc: Global, tokens: &[Token<'_>]) -> Result<bool, AllocError>
    ensures { IfOk result (λ is. is ≡ definition.is_noted_group (lexemes tokens.now)) }
{
    if !begins_mark(b'(', tokens) {
        return Ok(false);
    }
    match balanced_length(alloc, tokens)? {
        Some(count) => Ok(are_notes(tokens.split_at(count).1)),
        None => Ok(false),
    }
}

/// Whether a token is a name that begins with `llvm.dbg.`.
fn is_debug_name(alloc: Global, token: &Token<'_>) -> Result<bool, AllocError>
    ensures { IfOk result (λ is. is ≡ definition.is_debug_name (lexeme token.now)) }
{
    if !is_global(token) {
        return Ok(false);
    }
    let name = sigil_name(alloc, token.text)?;
    Ok(name.as_bytes().starts_with(b"llvm.dbg."))
}

/// `@llvm.dbg.NAME( .. )` and notes.
fn is_debug_callee(alloc: Global, tokens: &[Token<'_>]) -> Result<bool, AllocError>
    ensures { IfOk result (λ is. is ≡ behind definition.is_debug_name definition.is_noted_group (lexemes tokens.now)) }
{
    match tokens {
        [first, rest @ ..] => {
            if is_debug_name(alloc, first)? {
                is_noted_group(alloc, rest)
            } else {
                Ok(false)
            }
        }
        [] => Ok(false),
    }
}

/// `void @llvm.dbg.NAME( .. )` and notes.
fn is_void_debug(alloc: Global, tokens: &[Token<'_>]) -> Result<bool, AllocError>
    ensures { IfOk result (λ is. is ≡ behind (is_word (codes "void")) (behind definition.is_debug_name definition.is_noted_group) (lexemes tokens.now)) }
{
    match tokens {
        [first, rest @ ..] => {
            if first.is_word(b"void") {
                is_debug_callee(alloc, rest)
            } else {
                Ok(false)
            }
        }
        [] => Ok(false),
    }
}

/// `call void @llvm.dbg.NAME( .. )` and notes.
fn is_debug_call(alloc: Global, tokens: &[Token<'_>]) -> Result<bool, AllocError>
    ensures { IfOk result (λ is. is ≡ definition.is_debug_call (lexemes tokens.now)) }
{
    match tokens {
        [first, rest @ ..] => {
            if first.is_word(b"call") {
                is_void_debug(alloc, rest)
            } else {
                Ok(false)
            }
        }
        [] => Ok(false),
    }
}

/// The same, with `tail`.
fn is_tail_debug(alloc: Global, tokens: &[Token<'_>]) -> Result<bool, AllocError>
    ensures { IfOk result (λ is. is ≡ behind (is_word (codes "tail")) definition.is_debug_call (lexemes tokens.now)) }
{
    match tokens {
        [first, rest @ ..] => {
            if first.is_word(b"tail") {
                is_debug_call(alloc, rest)
            } else {
                Ok(false)
            }
        }
        [] => Ok(false),
    }
}

/// The same, with `tail` or not.
fn calls_debug(alloc: Global, tokens: &[Token<'_>]) -> Result<bool, AllocError>
    ensures { IfOk result (λ is. is ≡ definition.calls_debug (lexemes tokens.now)) }
{
    if is_debug_call(alloc, tokens)? {
        return Ok(true);
    }
    is_tail_debug(alloc, tokens)
}
