//! The brackets that are open at a place.

ghost use Rattle.std.specs.Prelude.{◌≡◌, [], OnOk, length};
ghost use Rattle.ir_lex.specs.Lexeme.{lexeme};
ghost use Rattle.ir_lex.specs.Cut.{open_after, closer, is_none_open, is_closing, closes};

use crate::token::Token;
use std::alloc::{AllocError, Global};
use std::marker::Model;

/// The marks that close what is open, innermost first.
#[derive(Drop)]
pub struct Brackets {
    closers: Vec<u8>,
}

impl Model for Brackets {
    ghost use Rattle.std.specs.Prelude.{List, ℕ, reverse};

    ghost Value = { List ℕ };

    ghost view = { λ b. reverse b.closers.items };
}

impl Brackets {
    /// No bracket is open.
    pub fn new(alloc: Global) -> Brackets
        ensures { result ≡ [] }
    {
        Brackets {
            closers: Vec::new(alloc),
        }
    }

    /// Whether no bracket is open.
    pub fn is_empty(&self) -> bool
        ensures { result ≡ is_none_open self.now }
    {
        self.closers.is_empty()
    }

    /// Whether a token closes the innermost bracket, where it closes one.
    pub fn takes(&self, token: &Token<'_>) -> bool
        ensures { result ≡ closes self.now (lexeme token.now) }
    {
        match self.closers.last() {
            Some(innermost) => !is_closing(token) || token.is_mark(*innermost),
            None => !is_closing(token),
        }
    }

    /// Passes over a token, which may open a bracket or close the innermost one.
    pub fn pass(&mut self, token: &Token<'_>) -> Result<(), AllocError>
        ensures { OnOk result (self.new ≡ open_after self.old (lexeme token.now)) }
    {
        if let Some(closer) = closer(token) {
            self.closers.push(closer)?;
        } else if let Some(innermost) = self.closers.last() {
            if token.is_mark(*innermost) {
                self.closers.pop();
            }
        }
        Ok(())
    }
}

/// Whether a token is a closing mark.
fn is_closing(token: &Token<'_>) -> bool
    ensures { result ≡ is_closing (lexeme token.now) }
{
    token.is_mark(b')') || token.is_mark(b']') || token.is_mark(b'}')
}

/// The mark that closes the bracket which a token opens.
fn closer(token: &Token<'_>) -> Option<u8>
    ensures { result ≡ closer (lexeme token.now) }
{
    if token.is_mark(b'(') {
        Some(b')')
    } else if token.is_mark(b'[') {
        Some(b']')
    } else if token.is_mark(b'{') {
        Some(b'}')
    } else {
        None
    }
}
