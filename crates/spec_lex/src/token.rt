//! Tokens: what stands between the blanks of a specification text.

ghost use Rattle.std.specs.Prelude.{◌≡◌, ◌++◌, ◌∷◌, [], OnOk};
ghost use Rattle.spec_lex.specs.Token.{token_of, tokens_of, is_none, is_opening, is_closing};

use std::alloc::{AllocError, Global};
use std::marker::Model;

/// What a token is.
#[derive(Clone, Copy, Debug, PartialEq, Eq)]
pub enum TokenKind {
    /// A name or a number: a run of letters, digits and `_`.
    Word,
    /// One of `= == != < <= > >= + - * & | ^ ~ << >> ( ) [ ] , . :`.
    Mark,
    /// A byte that begins none of the others.
    Outside,
}

/// A token: its kind and its bytes as they stand in the text.
#[derive(Clone, Copy)]
pub struct Token<'t> {
    pub kind: TokenKind,
    pub text: &'t [u8],
}

impl<'t> Token<'t> {
    /// Whether the token opens a bracket, of either kind.
    pub fn is_opening(&self) -> bool
        ensures { result ≡ is_opening (token_of self.now) }
    {
        self.text == b"(".as_slice() || self.text == b"[".as_slice()
    }

    /// Whether the token closes a bracket, of either kind.
    pub fn is_closing(&self) -> bool
        ensures { result ≡ is_closing (token_of self.now) }
    {
        self.text == b")".as_slice() || self.text == b"]".as_slice()
    }
}

/// Tokens in the order of the text.
#[derive(Drop)]
pub struct TokenList<'t> {
    items: Vec<Token<'t>>,
}

impl<'t> Model for TokenList<'t> {
    ghost use Rattle.std.specs.Prelude.{List};
    ghost use Rattle.spec_lex.specs.Token.{Lexeme, tokens_of};

    ghost Value = { List Lexeme };

    ghost view = { λ l. tokens_of l.items.items };
}

impl<'t> TokenList<'t> {
    /// A list of no tokens.
    pub fn new(alloc: Global) -> TokenList<'t>
        ensures { result ≡ [] }
    {
        let items = Vec::new(alloc);
        TokenList { items }
    }

    /// Puts a token at the end.
    pub fn push(&mut self, token: Token<'t>) -> Result<(), AllocError>
        ensures { OnOk result (self.new ≡ self.old ++ token_of token.entry ∷ []) }
    {
        self.items.push(token)?;
        Ok(())
    }

    /// Whether there are no tokens.
    pub fn is_empty(&self) -> bool
        ensures { result ≡ is_none self.now }
    {
        self.items.is_empty()
    }

    /// The tokens as a slice.
    pub fn as_slice(&self) -> &[Token<'t>]
        ensures { tokens_of result.now ≡ self.now }
    {
        self.items.as_slice()
    }
}
