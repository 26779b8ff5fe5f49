//! Items: the lines of a text that belong together.

ghost use Rattle.std.specs.Prelude.{◌≡◌, ◌<◌, ◌≤◌, OnOk, IfOk, length};
ghost use Rattle.ir_lex.specs.Lexeme.{lexeme, lexemes};
ghost use Rattle.ir_lex.specs.Cut as definition;

use crate::brackets::Brackets;
use crate::token::Token;
use std::alloc::{AllocError, Global};
use std::marker::Model;

/// An item: its first line, its tokens as they stand in the text, and whether its brackets are closed.
#[derive(Clone, Copy)]
pub struct Item<'t> {
    pub line: u32,
    pub tokens: &'t [Token<'t>],
    pub closed: bool,
}

/// How far an item goes.
#[derive(Clone, Copy)]
pub enum Extent {
    /// To the end of the line on which no bracket is open.
    Plain,
    /// To the `{` of a body: whether the parameter list has begun, and whether the last token takes parentheses with it.
    Head { listed: bool, after_word: bool },
    /// To the end of this line.
    Body,
}

/// How far an item goes, and the brackets that are open.
#[derive(Drop)]
pub struct Scan {
    extent: Extent,
    brackets: Brackets,
}

/// How many tokens an item has, and whether it is closed.
#[derive(Clone, Copy)]
pub struct Stretch {
    pub count: usize,
    pub closed: bool,
}

/// The items of a text, in its order.
#[derive(Drop)]
pub struct ItemList<'t> {
    items: Vec<Item<'t>>,
}

impl<'t> Model for ItemList<'t> {
    ghost use Rattle.std.specs.Prelude.{List};
    ghost use Rattle.ir_lex.specs.Cut.{Cut, cuts_of};

    ghost Value = { List Cut };

    ghost view = { λ l. cuts_of l.items.items };
}

impl<'t> ItemList<'t> {
    /// The items as a slice.
    pub fn as_slice(&self) -> &[Item<'t>]
        ensures { definition.cuts_of result.now ≡ self.now }
    {
        self.items.as_slice()
    }
}

/// The words that are dropped with the parentheses that follow them.
pub fn takes_parentheses(token: &Token<'_>) -> bool
    ensures { result ≡ definition.takes_parentheses (lexeme token.now) }
{
    token.is_word(b"dereferenceable")
        || token.is_word(b"dereferenceable_or_null")
        || token.is_word(b"memory")
        || token.is_word(b"captures")
        || token.is_word(b"initializes")
        || token.is_word(b"range")
}

/// Whether the tokens begin with a `define` that is no label on its line.
pub fn begins_define(tokens: &[Token<'_>]) -> bool
    ensures { result ≡ definition.begins_define (lexemes tokens.now) }
{
    match tokens {
        [] => false,
        [only] => only.is_word(b"define"),
        [first, second, ..] => {
            first.is_word(b"define") && !(second.is_mark(b':') && second.line == first.line)
        }
    }
}

impl Scan {
    /// Before the first token of the item that begins here.
    fn new(alloc: Global, tokens: &[Token<'_>]) -> Scan
        ensures { result ≡ definition.scan_at (lexemes tokens.now) }
    {
        let extent = if begins_define(tokens) {
            Extent::Head {
                listed: false,
                after_word: false,
            }
        } else {
            Extent::Plain
        };
        Scan {
            extent,
            brackets: Brackets::new(alloc),
        }
    }

    /// Whether the item goes on over the end of the line.
    fn goes_on(&self) -> bool
        ensures { result ≡ definition.goes_on self.now.extent self.now.brackets }
    {
        match self.extent {
            Extent::Plain => !self.brackets.is_empty(),
            Extent::Head { .. } => true,
            Extent::Body => false,
        }
    }

    /// Passes over a token of the item.
    fn pass(&mut self, token: &Token<'_>) -> Result<(), AllocError>
        ensures { OnOk result (self.new ≡ definition.scan_after self.old (lexeme token.now)) }
    {
        if let Extent::Head { listed, after_word } = self.extent {
            self.extent = head_after(listed, after_word, &self.brackets, token);
        }
        self.brackets.pass(token)
    }
}

/// How a `define` head goes on behind a token.
fn head_after(listed: bool, after_word: bool, brackets: &Brackets, token: &Token<'_>) -> Extent
    ensures { result ≡ definition.head_after listed after_word brackets.now (lexeme token.now) }
{
    if listed && brackets.is_empty() && token.is_mark(b'{') {
        Extent::Body
    } else {
        Extent::Head {
            listed: listed || (brackets.is_empty() && token.is_mark(b'(') && !after_word),
            after_word: takes_parentheses(token),
        }
    }
}

/// How many of these tokens the first item has, and whether it is closed.
#[tactic(auto, using(crate::proofs::Cutting::stretching))]
fn first_stretch(alloc: Global, tokens: &[Token<'_>]) -> Result<Stretch, AllocError>
    requires { 0 < length tokens.now }
    ensures value { IfOk result (λ stretch. stretch ≡ definition.stretch_of (lexemes tokens.now)) }
    ensures within { IfOk result (λ stretch. (0 < stretch.count) × (stretch.count ≤ length tokens.now)) }
{
    let mut scan = Scan::new(alloc, tokens);
    let mut line = tokens[0].line;
    for (count, token) in tokens.iter().enumerate() {
        if token.line != line && !scan.goes_on() {
            return Ok(Stretch {
                count,
                closed: true,
            });
        }
        scan.pass(token)?;
        line = token.line;
    }
    Ok(Stretch {
        count: tokens.len(),
        closed: !scan.goes_on(),
    })
}

/// The items of a text: one line with tokens each, or the lines up to the one that closes the brackets. A `define` item ends with the
/// line of the `{` that opens its body. An item that never closes has `closed` false, and takes all tokens that are left.
pub fn items<'t>(alloc: Global, tokens: &'t [Token<'t>]) -> Result<ItemList<'t>, AllocError>
    ensures { IfOk result (λ items. items ≡ definition.cut (lexemes tokens.now)) }
{
    let mut found = Vec::new(alloc);
    let mut at = 0;
    while at < tokens.len() {
        let rest = tokens.split_at(at).1;
        let Stretch { count, closed } = first_stretch(alloc, rest)?;
        let own = rest.split_at(count).0;
        found.push(Item {
            line: rest[0].line,
            tokens: own,
            closed,
        })?;
        at += count;
    }
    Ok(ItemList { items: found })
}
