//! Tokens: what stands between the blanks of a kernel text.

ghost use Rattle.std.specs.Prelude.{◌≡◌};
ghost use Rattle.ir_lex.specs.Lexeme.{lexeme, lexemes};
ghost use Rattle.ir_lex.specs.Marks.{is_word, is_mark, front_passes};

use std::marker::Model;

/// What a token is (LLVM Language Reference, "Identifiers" and "High Level Structure").
#[derive(Clone, Copy, Debug, PartialEq, Eq)]
pub enum TokenKind {
    /// A word, as `define` or `i32`.
    Word,
    /// Decimal digits, with a `-` before them or not.
    Number,
    /// A string with its quotes, with a `c` before it or not.
    Quoted,
    /// `%` with a name.
    Local,
    /// `@` with a name.
    Global,
    /// `!` with a name.
    Metadata,
    /// `#` with a word or digits.
    Attribute,
    /// One of `= , ( ) [ ] { } < > * : ! |` and `...`.
    Mark,
}

/// A token: its kind, its line counted from 1, and its bytes as they stand in the text.
#[derive(Clone, Copy)]
pub struct Token<'t> {
    pub kind: TokenKind,
    pub line: u32,
    pub text: &'t [u8],
}

impl<'t> Token<'t> {
    /// Whether the token is this word.
    #[tactic(auto, unfolding(crate::specs::Marks::is_word))]
    pub fn is_word(&self, word: &[u8]) -> bool
        ensures { result ≡ is_word word.now (lexeme self.now) }
    {
        match self.kind {
            TokenKind::Word => self.text == word,
            _ => false,
        }
    }

    /// Whether the token is the mark of this byte.
    #[tactic(auto, unfolding(crate::specs::Marks::is_mark))]
    pub fn is_mark(&self, byte: u8) -> bool
        ensures { result ≡ is_mark byte (lexeme self.now) }
    {
        match (self.kind, self.text) {
            (TokenKind::Mark, [only]) => *only == byte,
            _ => false,
        }
    }
}

/// Whether a token of this word is at the front.
pub fn begins_word(word: &[u8], tokens: &[Token<'_>]) -> bool
    ensures { result ≡ front_passes (is_word word.now) (lexemes tokens.now) }
{
    match tokens {
        [first, ..] => first.is_word(word),
        [] => false,
    }
}

/// Whether a mark of this byte is at the front.
pub fn begins_mark(byte: u8, tokens: &[Token<'_>]) -> bool
    ensures { result ≡ front_passes (is_mark byte) (lexemes tokens.now) }
{
    match tokens {
        [first, ..] => first.is_mark(byte),
        [] => false,
    }
}

/// The tokens of a text, in its order.
#[derive(Drop)]
pub struct TokenList<'t> {
    items: Vec<Token<'t>>,
}

impl<'t> Model for TokenList<'t> {
    ghost use Rattle.std.specs.Prelude.{List};
    ghost use Rattle.ir_lex.specs.Lexeme.{Lexeme, lexemes};

    ghost Value = { List Lexeme };

    ghost view = { λ l. lexemes l.items.items };
}

impl<'t> TokenList<'t> {
    /// The list of these tokens. It takes no memory.
    pub fn new(items: Vec<Token<'t>>) -> TokenList<'t>
        ensures { result ≡ lexemes items.entry.items }
    {
        TokenList { items }
    }

    /// The tokens as a slice.
    pub fn as_slice(&self) -> &[Token<'t>]
        ensures { lexemes result.now ≡ self.now }
    {
        self.items.as_slice()
    }
}
