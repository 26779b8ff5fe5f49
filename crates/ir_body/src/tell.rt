//! What this project leaves out, told by its tokens.

ghost use Rattle.std.specs.Prelude.{◌≡◌};
ghost use Rattle.ir_lex.specs.Lexeme.{lexeme, lexemes};
ghost use Rattle.ir_lex.specs.Items as items;
ghost use Rattle.ir_body.specs.LeftOut as definition;

use ir_lex::token::begins_mark;
use ir_lex::{Token, TokenKind};
use ir_part::is_over_wide;

/// Whether the tokens hold one that this project leaves out.
pub fn holds_left_out(tokens: &[Token<'_>]) -> bool
    ensures { result ≡ items.holds_left_out (lexemes tokens.now) }
{
    for (at, token) in tokens.iter().enumerate() {
        if is_left_out(token, tokens.split_at(at + 1).1) {
            return true;
        }
    }
    false
}

/// Whether this token is left out, where these stand behind it.
#[tactic(auto, unfolding(crate::specs::LeftOut::is_left_out))]
fn is_left_out(token: &Token<'_>, rest: &[Token<'_>]) -> bool
    ensures { result ≡ definition.is_left_out (lexeme token.now) (lexemes rest.now) }
{
    is_left_out_word(token)
        || is_left_out_type(token)
        || is_left_out_operation(token)
        || is_wide(token)
        || token.is_mark(b'*')
        || (token.is_mark(b'<') && !begins_mark(b'{', rest))
}

/// One of the first words of what is left out.
#[tactic(auto, unfolding(crate::specs::LeftOut::first_word))]
fn is_first_word(token: &Token<'_>) -> bool
    ensures { result ≡ definition.first_word (lexeme token.now) }
{
    token.is_word(b"undef")
        || token.is_word(b"volatile")
        || token.is_word(b"atomic")
        || token.is_word(b"asm")
        || token.is_word(b"thread_local")
        || token.is_word(b"addrspace")
}

/// A word of what is left out.
#[tactic(auto, unfolding(crate::specs::LeftOut::out_word, crate::specs::LeftOut::first_word))]
fn is_left_out_word(token: &Token<'_>) -> bool
    ensures { result ≡ definition.out_word (lexeme token.now) }
{
    is_first_word(token)
        || token.is_word(b"external")
        || token.is_word(b"alias")
        || token.is_word(b"ifunc")
        || token.is_word(b"comdat")
        || token.is_word(b"nusw")
}

/// A type that is left out.
#[tactic(auto, unfolding(crate::specs::LeftOut::out_type))]
fn is_left_out_type(token: &Token<'_>) -> bool
    ensures { result ≡ definition.out_type (lexeme token.now) }
{
    token.is_word(b"half")
        || token.is_word(b"float")
        || token.is_word(b"double")
        || token.is_word(b"fp128")
        || token.is_word(b"x86_fp80")
}

/// One of the first operations that are left out.
#[tactic(auto, unfolding(crate::specs::LeftOut::first_operation))]
fn is_first_operation(token: &Token<'_>) -> bool
    ensures { result ≡ definition.first_operation (lexeme token.now) }
{
    token.is_word(b"ptrtoint")
        || token.is_word(b"inttoptr")
        || token.is_word(b"bitcast")
        || token.is_word(b"addrspacecast")
        || token.is_word(b"insertvalue")
        || token.is_word(b"invoke")
}

/// One of the first operations that are left out, or of the next.
#[tactic(auto, unfolding(crate::specs::LeftOut::next_operation))]
fn is_next_operation(token: &Token<'_>) -> bool
    ensures { result ≡ definition.next_operation (lexeme token.now) }
{
    is_first_operation(token)
        || token.is_word(b"landingpad")
        || token.is_word(b"resume")
        || token.is_word(b"indirectbr")
        || token.is_word(b"callbr")
        || token.is_word(b"va_arg")
        || token.is_word(b"fence")
}

/// One of the last operations that are left out.
#[tactic(auto, unfolding(crate::specs::LeftOut::last_operation))]
fn is_last_operation(token: &Token<'_>) -> bool
    ensures { result ≡ definition.last_operation (lexeme token.now) }
{
    token.is_word(b"cmpxchg")
        || token.is_word(b"atomicrmw")
        || token.is_word(b"extractelement")
        || token.is_word(b"insertelement")
        || token.is_word(b"shufflevector")
}

/// An operation that is left out.
#[tactic(auto, using(crate::proofs::LeftOutSteps::operation_parts))]
fn is_left_out_operation(token: &Token<'_>) -> bool
    ensures { result ≡ definition.out_operation (lexeme token.now) }
{
    is_next_operation(token) || is_last_operation(token)
}

/// `iN` with N over 64.
#[tactic(auto, unfolding(crate::specs::LeftOut::out_wide))]
fn is_wide(token: &Token<'_>) -> bool
    ensures { result ≡ definition.out_wide (lexeme token.now) }
{
    match token.kind {
        TokenKind::Word => is_over_wide(token.text),
        _ => false,
    }
}
