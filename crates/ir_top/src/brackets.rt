//! Balanced tokens.

ghost use Rattle.std.specs.Prelude.{◌≡◌, ◌&&◌, [], OnOk, IfOk};
ghost use Rattle.ir_lex.specs.Lexeme.{lexeme};
ghost use Rattle.ir_lex.specs.Tok.{tok};
ghost use Rattle.ir_lex.specs.Cut as cut;
ghost use Rattle.ir_lex.specs.Marks as marks;
ghost use Rattle.ir_lex.specs.Items.{bracket_of};
ghost use Rattle.ir_part.specs.Reader.{seen};
ghost use Rattle.ir_part.specs.Fronts.{is_this_mark};
ghost use Rattle.ir_part.specs.Many.{is_ended};
ghost use Rattle.ir_top.specs.Tops as definition;

use ir_lex::Token;
use std::alloc::{AllocError, Global};
use std::marker::Model;

/// The marks that close what is open, innermost first.
#[derive(Drop)]
struct Brackets {
    closers: Vec<u8>,
}

impl Model for Brackets {
    ghost use Rattle.std.specs.Prelude.{List, ℕ, reverse};

    ghost Value = { List ℕ };

    ghost view = { λ b. reverse b.closers.items };
}

impl Brackets {
    /// No bracket is open.
    fn new(alloc: Global) -> Brackets
        ensures { result ≡ [] }
    {
        Brackets {
            closers: Vec::new(alloc),
        }
    }

    /// Whether no bracket is open.
    fn is_empty(&self) -> bool
        ensures { result ≡ cut.is_none_open self.now }
    {
        self.closers.is_empty()
    }

    /// Whether no bracket is open before a token that is `)`.
    fn end_with(&self, token: &Token<'_>) -> bool
        ensures { result ≡ (cut.is_none_open self.now && is_this_mark 41 (tok (lexeme token.now))) }
    {
        self.is_empty() && is_mark(b')', token)
    }

    /// Whether a token closes the innermost bracket, where it closes one.
    fn takes(&self, token: &Token<'_>) -> bool
        ensures { result ≡ cut.closes self.now (bracket_of (tok (lexeme token.now))) }
    {
        match self.closers.last() {
            Some(innermost) => !is_closing(token) || is_mark(*innermost, token),
            None => !is_closing(token),
        }
    }

    /// Passes over a token, which may open a bracket or close the innermost one.
    fn pass(&mut self, token: &Token<'_>) -> Result<(), AllocError>
        ensures { OnOk result (self.new ≡ cut.open_after self.old (bracket_of (tok (lexeme token.now)))) }
    {
        if let Some(closer) = closer(token) {
            self.closers.push(closer)?;
        } else if let Some(innermost) = self.closers.last() {
            if is_mark(*innermost, token) {
                self.closers.pop();
            }
        }
        Ok(())
    }
}

/// Whether a token is the mark of this byte.
#[tactic(auto, unfolding(ir_lex::specs::Marks::is_mark))]
fn is_mark(byte: u8, token: &Token<'_>) -> bool
    ensures bracket { result ≡ marks.is_mark byte (bracket_of (tok (lexeme token.now))) }
    ensures this { result ≡ is_this_mark byte (tok (lexeme token.now)) }
{
    token.is_mark(byte)
}

/// The mark that closes the bracket which a token opens.
fn closer(token: &Token<'_>) -> Option<u8>
    ensures { result ≡ cut.closer (bracket_of (tok (lexeme token.now))) }
{
    if is_mark(b'(', token) {
        Some(b')')
    } else if is_mark(b'[', token) {
        Some(b']')
    } else if is_mark(b'{', token) {
        Some(b'}')
    } else {
        None
    }
}

/// Whether a token is a closing mark.
fn is_closing(token: &Token<'_>) -> bool
    ensures { result ≡ cut.is_closing (bracket_of (tok (lexeme token.now))) }
{
    is_mark(b')', token) || is_mark(b']', token) || is_mark(b'}', token)
}

/// Whether no token is left.
fn is_ended(tokens: &[Token<'_>]) -> bool
    ensures { result ≡ is_ended (seen tokens.now) }
{
    match tokens {
        [] => true,
        _ => false,
    }
}

/// Whether the tokens are balanced up to the last, which is `)`.
pub fn is_list(alloc: Global, tokens: &[Token<'_>]) -> Result<bool, AllocError>
    ensures { IfOk result (λ list. list ≡ definition.is_list [] (seen tokens.now)) }
{
    let mut brackets = Brackets::new(alloc);
    for (at, token) in tokens.iter().enumerate() {
        if is_ended(tokens.split_at(at + 1).1) {
            return Ok(brackets.end_with(token));
        }
        if !brackets.takes(token) {
            return Ok(false);
        }
        brackets.pass(token)?;
    }
    Ok(false)
}
